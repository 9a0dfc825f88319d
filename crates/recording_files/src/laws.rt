//! Laws of recordings in several files, which hold of the definitions alone.
ghost use Rattle.recording_files.specs.Laws.{FaultIsTold, FileIsRead, FilesAreRead};
ghost use Rattle.recording_files.specs.Laws.{LastIsRead, NoFileIsTold, NoHeaderEnds};

/// A reader of files that end clean reads their packets, of one file after another.
pub fn files_are_read()
    ensures { FilesAreRead }
{}

/// After files that end clean a reader reads a last one, and ends as that does.
pub fn last_file_is_read()
    ensures read { LastIsRead }
    ensures no_header { NoHeaderEnds }
{}

/// A reader of one file reads what the file alone holds, and ends as it does.
pub fn one_file_is_read()
    ensures { FileIsRead }
{}

/// A reader is told what is wrong with the header of the first file, and that there is none.
pub fn first_fault_is_told()
    ensures fault { FaultIsTold }
    ensures none { NoFileIsTold }
{}
