//! The files that a command is given: which of them are standard input or output, and which two are one.

use crate::arguments::{
    CaptureArguments, CutArguments, DebugArguments, FilterArgument, Invocation, ReportArguments,
    TransitArguments, TransitCutArguments, WatchArguments,
};
use crate::fault::{Fault, FileOption};

/// Does a path stand for standard input or output?
pub fn is_standard(path: &str) -> bool {
    path == "-"
}

/// A file of a command: the option that names it, its path, where one is given, and what is done with it.
#[derive(Clone, Copy)]
pub struct GivenFile<'a> {
    pub option: FileOption,
    pub path: Option<&'a str>,
    /// Is it written? Else it is read.
    pub is_written: bool,
}

/// The most files that a command has.
pub const MAX_FILES: usize = 8;

/// No file.
const NO_FILE: GivenFile<'static> = GivenFile {
    option: FileOption::Standard,
    path: None,
    is_written: false,
};

/// These files of a command, and no others.
fn only<'a>(files: &[GivenFile<'a>]) -> [GivenFile<'a>; MAX_FILES] {
    let mut all = [NO_FILE; MAX_FILES];
    for (index, file) in files.iter().enumerate() {
        if index < MAX_FILES {
            all[index] = *file;
        }
    }
    all
}

fn read<'a>(option: FileOption, path: Option<&'a str>) -> GivenFile<'a> {
    GivenFile {
        option,
        path,
        is_written: false,
    }
}

fn written<'a>(option: FileOption, path: Option<&'a str>) -> GivenFile<'a> {
    GivenFile {
        option,
        path,
        is_written: true,
    }
}

/// The file of a filter. One that is given by its text has none.
fn filter_file<'a>(filter: FilterArgument<'a>) -> GivenFile<'a> {
    match filter {
        FilterArgument::Code(_) => read(FileOption::Filter, None),
        FilterArgument::Numeric(path) => read(FileOption::Filter, Some(path)),
        FilterArgument::Source(path) => read(FileOption::Source, Some(path)),
    }
}

/// The files of `watch`.
fn watch_files(given: WatchArguments<'_>) -> [GivenFile<'_>; MAX_FILES] {
    only(&[
        read(FileOption::Config, Some(given.config)),
        read(FileOption::Filter, given.filter),
        read(FileOption::A, given.a),
        read(FileOption::B, given.b),
        written(FileOption::Capture, given.capture),
        written(FileOption::Ledger, Some(given.ledger)),
        written(FileOption::Manifest, given.manifest),
    ])
}

/// The files of `cut`.
fn cut_files(given: CutArguments<'_>) -> [GivenFile<'_>; MAX_FILES] {
    only(&[
        read(FileOption::Ledger, Some(given.ledger)),
        read(FileOption::A, given.a),
        read(FileOption::B, given.b),
        read(FileOption::Config, given.config),
        written(FileOption::Output, Some(given.output)),
    ])
}

/// The files of `cut` by a ledger of transits.
fn transit_cut_files(given: TransitCutArguments<'_>) -> [GivenFile<'_>; MAX_FILES] {
    only(&[
        read(FileOption::Ledger, Some(given.ledger)),
        read(FileOption::Before, given.before),
        read(FileOption::After, given.after),
        read(FileOption::Config, given.config),
        written(FileOption::Output, Some(given.output)),
    ])
}

/// The files of `report`.
fn report_files(given: ReportArguments<'_>) -> [GivenFile<'_>; MAX_FILES] {
    only(&[
        read(FileOption::Config, Some(given.config)),
        read(FileOption::Manifest, given.manifest),
        read(FileOption::Ledger, Some(given.ledger)),
        read(FileOption::Baseline, given.baseline),
        read(FileOption::BaselineConfig, given.baseline_config),
        read(FileOption::Transit, given.transit),
        written(FileOption::Output, Some(given.output)),
        written(FileOption::Csv, given.csv),
    ])
}

/// The files of `transit`.
fn transit_files(given: TransitArguments<'_>) -> [GivenFile<'_>; MAX_FILES] {
    only(&[
        read(FileOption::Config, Some(given.config)),
        read(FileOption::Before, Some(given.before)),
        read(FileOption::After, Some(given.after)),
        written(FileOption::Ledger, given.ledger),
    ])
}

impl<'a> Invocation<'a> {
    /// The files that the arguments name: those that are read in the order in which they are looked at, and
    /// then those that are written. One that isn't given has no path.
    pub fn files(&self) -> [GivenFile<'a>; MAX_FILES] {
        match *self {
            Invocation::Asm => [NO_FILE; MAX_FILES],
            Invocation::Capture(given) => only(&[
                filter_file(given.filter),
                read(FileOption::Recording, Some(given.recording)),
                written(FileOption::Output, Some(given.output)),
            ]),
            Invocation::Watch(given) => watch_files(given),
            Invocation::Debug(given) => only(&[
                filter_file(given.filter),
                read(FileOption::Tap, Some(given.tap)),
            ]),
            Invocation::Cut(given) => cut_files(given),
            Invocation::Links(given) => only(&[
                read(FileOption::Icd, given.icd),
                read(FileOption::A, given.a),
                read(FileOption::B, given.b),
            ]),
            Invocation::Report(given) => report_files(given),
            Invocation::Transit(given) => transit_files(given),
            Invocation::TransitCut(given) => transit_cut_files(given),
            Invocation::Check(given) => only(&[
                read(FileOption::Config, Some(given.config)),
                read(FileOption::Filter, given.filter),
                read(FileOption::A, given.a),
                read(FileOption::B, given.b),
            ]),
        }
    }

    /// The file that a fault of an option is of: `A` is the one recording of `capture` and `debug` too, and
    /// that into a switch, `B` that out of it; `Capture` is what `capture` writes, and a filter's file is
    /// given by one of two options.
    pub fn file_of(&self, option: FileOption) -> Option<GivenFile<'a>> {
        self.files().iter().copied().find(|file| file.path.is_some()
            && stands_for(file.option, option))
    }

    /// The filter that is given by its text.
    pub fn code(&self) -> Option<&'a str> {
        match *self {
            Invocation::Capture(
                CaptureArguments {
                    filter: FilterArgument::Code(code),
                    ..
                },
            )
            | Invocation::Debug(
                DebugArguments {
                    filter: FilterArgument::Code(code),
                    ..
                },
            ) => Some(code),
            _ => None,
        }
    }

    /// Refuses a second file that is standard input, and a second that is standard output. The commands of
    /// `debug` come from standard input.
    ///
    /// # Errors
    ///
    /// `Fault::Taken`, with the second and the first of them.
    pub fn refuse_taken(&self) -> Result<(), Fault> {
        let files = self.files();
        if let Invocation::Debug(_) = self {
            return refuse_later(FileOption::Standard, &files, false);
        }
        refuse_second(&files, false)?;
        refuse_second(&files, true)
    }
}

/// Is a file of one option that of a fault of the other?
fn stands_for(own: FileOption, told: FileOption) -> bool {
    match told {
        FileOption::A => matches!(
            own,
            FileOption::A | FileOption::Recording | FileOption::Tap | FileOption::Before
        ),
        FileOption::B => matches!(own, FileOption::B | FileOption::After),
        FileOption::Capture => matches!(own, FileOption::Capture | FileOption::Output),
        FileOption::Filter | FileOption::Source => {
            matches!(own, FileOption::Filter | FileOption::Source)
        }
        _ => own == told,
    }
}

/// Is it standard input, or of a file that is written standard output?
fn is_stream(file: &GivenFile<'_>, is_written: bool) -> bool {
    match file.path {
        Some(path) => file.is_written == is_written && is_standard(path),
        None => false,
    }
}

/// Refuses the first of these that is the stream which another is already.
fn refuse_later(by: FileOption, files: &[GivenFile<'_>], is_written: bool) -> Result<(), Fault> {
    match files.iter().find(|file| is_stream(file, is_written)) {
        Some(file) => Err(Fault::Taken {
            file: file.option,
            by,
        }),
        None => Ok(()),
    }
}

/// Refuses the second of these that is standard input, or standard output.
fn refuse_second(files: &[GivenFile<'_>], is_written: bool) -> Result<(), Fault> {
    for (index, file) in files.iter().enumerate() {
        if is_stream(file, is_written) {
            return refuse_later(file.option, &files[index + 1..], is_written);
        }
    }
    Ok(())
}

/// A file of the system: the number of its device, and its own number there.
#[derive(Clone, Copy, PartialEq, Eq)]
pub struct Inode {
    pub device: u64,
    pub number: u64,
}

/// A path as far as it tells whether another path names the same file.
#[derive(Clone, Copy, PartialEq, Eq)]
pub enum Named<'a> {
    /// A regular file, by whatever links and folders the path leads to it.
    Regular(Inode),
    /// A file that isn't there yet, by the folder that it would be in and its name there.
    New { folder: Inode, name: &'a str },
    /// A device, a pipe or a directory, which several options may name, or what nothing is known of.
    Other,
}

impl Named<'_> {
    /// Are the two one file?
    fn is_one_file(&self, other: &Named<'_>) -> bool {
        match (*self, *other) {
            (Named::Regular(one), Named::Regular(two)) => one == two,
            (Named::New { folder, name }, Named::New { folder: f, name: n }) => {
                folder == f && name == n
            }
            _ => false,
        }
    }
}

/// A file of a command, by what its path is found to name. One that isn't given is `Other`.
#[derive(Clone, Copy)]
pub struct NamedFile<'a> {
    pub option: FileOption,
    pub is_written: bool,
    pub named: Named<'a>,
}

/// The first file that is an output's too: of those that are read, else of the outputs after it.
fn twin_of(
    output: &NamedFile<'_>,
    files: &[NamedFile<'_>],
    later: &[NamedFile<'_>],
) -> Option<FileOption> {
    let inputs = files.iter().filter(|file| !file.is_written);
    let outputs = later.iter().filter(|file| file.is_written);
    inputs
        .chain(outputs)
        .find(|file| output.named.is_one_file(&file.named))
        .map(|file| file.option)
}

/// Refuses an output that is a file which the command reads, or another output: writing it would destroy what
/// stands there. Outputs are looked at in their order.
///
/// # Errors
///
/// `Fault::Shared`, with the output and the first option that names its file too.
pub fn refuse_shared(files: &[NamedFile<'_>]) -> Result<(), Fault> {
    for (index, file) in files.iter().enumerate() {
        if file.is_written {
            if let Some(other) = twin_of(file, files, &files[index + 1..]) {
                return Err(Fault::Shared {
                    output: file.option,
                    other,
                });
            }
        }
    }
    Ok(())
}
