//! That no output is another file of its command, that the standard streams are there, and that no two files
//! that are read, and no two that are written, are one pipe.
use afdx_frame::Network;
use command_line::{
    Fault, FileOption, GivenFile, Inode, Invocation, Named, NamedFile, is_standard,
};
use run_fault::{Output, WatchFault};
use std::alloc::AllocError;
use std::fs::Metadata;
use std::io::{ErrorKind, Read, Write};
use std::os::unix::fs::MetadataExt;
use std::path::Path;
use std::{fs, io};
use tap_inputs::{Detail, NO_RUN, Outcome, Tap, Taps, option_of};

fn inode_of(metadata: &Metadata) -> Inode {
    Inode {
        device: metadata.dev(),
        number: metadata.ino(),
    }
}

/// The name of a file that isn't there.
fn new_file<'a>(rt: &HostRuntime, path: &'a str) -> Named<'a> {
    let path = Path::new(path);
    let (Some(folder), Some(name)) = (path.parent(), path.file_name()) else {
        return Named::Other;
    };
    // A name alone is one of the working directory.
    let folder = if folder.as_str().is_empty() {
        "."
    } else {
        folder.as_str()
    };
    match fs::metadata(rt, folder) {
        Ok(found) => Named::New {
            folder: inode_of(&found),
            name,
        },
        Err(_) => Named::Other,
    }
}

/// The name of a file by its path. One that can't be looked at is refused by its opening.
fn named_by<'a>(rt: &HostRuntime, path: &'a str) -> Named<'a> {
    match fs::metadata(rt, path) {
        Ok(found) if found.is_file() => Named::Regular(inode_of(&found)),
        Err(error) if error.kind() == ErrorKind::NotFound => new_file(rt, path),
        Ok(_) | Err(_) => Named::Other,
    }
}

/// The path of a file, which may be a standard stream.
fn path_in(file: GivenFile<'_>) -> Option<&str> {
    match file.path {
        Some(path) if !is_standard(path) => Some(path),
        Some(_) if file.is_written => Some("/dev/stdout"),
        Some(_) => Some("/dev/stdin"),
        None => None,
    }
}

/// The name of a given file. Standard input and output may be files too.
fn named_file<'a>(rt: &HostRuntime, file: GivenFile<'a>) -> NamedFile<'a> {
    let named = match path_in(file) {
        Some(path) => named_by(rt, path),
        None => Named::Other,
    };
    NamedFile {
        option: file.option,
        is_written: file.is_written,
        named,
    }
}

/// Adds the standard streams that a command reads, or writes, though no option names them.
fn add_own_streams(
    files: &mut Vec<GivenFile<'_>>,
    command: Invocation<'_>,
) -> Result<(), AllocError> {
    let (reads, writes) = match command {
        Invocation::Asm | Invocation::Debug(_) => (true, true),
        Invocation::Links(_) | Invocation::Check(_) | Invocation::Transit(_) => (false, true),
        _ => (false, false),
    };
    for (is_there, is_written) in [(reads, false), (writes, true)] {
        if is_there {
            files.push(GivenFile {
                option: FileOption::Standard,
                path: Some("-"),
                is_written,
            })?;
        }
    }
    Ok(())
}

/// Adds the files of a recording after its first one.
fn add_later_files<'a>(
    files: &mut Vec<GivenFile<'a>>,
    tap: &'a Tap,
    option: FileOption,
) -> Result<(), AllocError> {
    for file in tap.files.iter().skip(1) {
        files.push(GivenFile {
            option,
            path: Some(&file.path),
            is_written: false,
        })?;
    }
    Ok(())
}

/// Adds the lists that name files of a recording.
fn add_lists<'a>(
    files: &mut Vec<GivenFile<'a>>,
    tap: &'a Tap,
    option: FileOption,
) -> Result<(), AllocError> {
    for path in &tap.lists {
        files.push(GivenFile {
            option,
            path: Some(path),
            is_written: false,
        })?;
    }
    Ok(())
}

/// All files of a command.
fn all_files<'a>(
    rt: &HostRuntime,
    command: Invocation<'a>,
    taps: &'a Taps,
) -> Result<Vec<GivenFile<'a>>, AllocError> {
    let mut files = Vec::new(rt.alloc());
    add_own_streams(&mut files, command)?;
    for file in command.files() {
        files.push(file)?;
    }
    for network in [Network::A, Network::B] {
        let (tap, option) = (taps.of_network(network), option_of(command, network));
        add_later_files(&mut files, tap, option)?;
        add_lists(&mut files, tap, option)?;
    }
    Ok(files)
}

/// The names of a command's files.
fn named_files<'a>(
    rt: &HostRuntime,
    command: Invocation<'a>,
    taps: &'a Taps,
) -> Result<Vec<NamedFile<'a>>, AllocError> {
    let files = all_files(rt, command, taps)?;
    let mut named = Vec::new(rt.alloc());
    for file in &files {
        named.push(named_file(rt, *file))?;
    }
    Ok(named)
}

/// Refuses an output of a command that is another of its files.
pub fn refuse_shared(rt: &HostRuntime, command: Invocation<'_>, taps: &Taps) -> Result<(), Fault> {
    match named_files(rt, command, taps) {
        Ok(named) => command_line::refuse_shared(&named),
        Err(_) => Err(NO_RUN),
    }
}

/// The system's error for a stream that is closed.
const EBADF: i32 = 9;

/// Is a stream closed that answers a read or a write of nothing so?
fn is_closed(answer: &io::Result<usize>) -> bool {
    match answer {
        Ok(_) => false,
        Err(error) => error.raw_os_error() == Some(EBADF),
    }
}

/// A standard stream.
#[derive(Clone, Copy)]
enum Stream {
    Input,
    Output,
    Error,
}

/// The standard stream that a path of the system names.
fn names_standard(path: &str) -> Option<Stream> {
    match path {
        "/dev/stdin" | "/dev/fd/0" | "/proc/self/fd/0" => Some(Stream::Input),
        "/dev/stdout" | "/dev/fd/1" | "/proc/self/fd/1" => Some(Stream::Output),
        "/dev/stderr" | "/dev/fd/2" | "/proc/self/fd/2" => Some(Stream::Error),
        _ => None,
    }
}

impl Stream {
    fn is_closed(self, rt: &HostRuntime) -> bool {
        match self {
            Stream::Input => is_closed(&rt.stdin().read(&mut [])),
            Stream::Output => is_closed(&rt.stdout().write(&[])),
            Stream::Error => is_closed(&rt.stderr().write(&[])),
        }
    }

    /// The words for a person on one that is closed.
    fn closed_words(self) -> &'static str {
        match self {
            Stream::Input => "Name a file: standard input is closed",
            Stream::Output => "Name a file: standard output is closed",
            Stream::Error => "Name a file: standard error is closed",
        }
    }

    /// The standard stream that a file is.
    fn of(file: GivenFile<'_>) -> Option<Stream> {
        match file.path {
            Some(path) if !is_standard(path) => names_standard(path),
            Some(_) if file.is_written => Some(Stream::Output),
            Some(_) => Some(Stream::Input),
            None => None,
        }
    }
}

/// The fault of a file that is a closed stream. `capture` tells it as any failure of its recording's source
/// and of its output.
fn fault_of_closed(command: Invocation<'_>, file: GivenFile<'_>) -> Fault {
    match (command, file.option) {
        (Invocation::Capture(_), FileOption::Recording) => {
            Fault::Watch(WatchFault::Read {
                network: Network::A,
            })
        }
        (Invocation::Capture(_), FileOption::Output) => {
            Fault::Watch(WatchFault::Write {
                output: Output::Capture,
            })
        }
        _ => Fault::File(file.option),
    }
}

/// Refuses a standard stream that is closed: the next file that is opened would get its number.
fn refuse_closed(
    rt: &HostRuntime,
    command: Invocation<'_>,
    files: &[GivenFile<'_>],
) -> Result<(), Outcome> {
    for file in files {
        if let Some(stream) = Stream::of(*file).filter(|stream| stream.is_closed(rt)) {
            let told = String::from_str(rt.alloc(), stream.closed_words())?;
            return Err(Outcome::from(fault_of_closed(command, *file)).with(Detail::Stream(told)));
        }
    }
    Ok(())
}

/// The number of the device /dev/null, which gives each of its readers the same: nothing.
const NULL_DEVICE: u64 = 0x103;

/// The pipe, the socket or the device that a file is. One reader alone gets each of its bytes, and those of
/// two writers are mixed there.
fn pipe_of(rt: &HostRuntime, file: GivenFile<'_>) -> Option<Inode> {
    let found = fs::metadata(rt, path_in(file)?).ok()?;
    if found.is_file() || found.is_dir() || found.rdev() == NULL_DEVICE {
        None
    } else {
        Some(inode_of(&found))
    }
}

/// The fault of a file that is the pipe of an earlier one.
fn taken_already(rt: &HostRuntime, file: GivenFile<'_>) -> Outcome {
    let name = match file.path {
        Some(path) if !is_standard(path) => path,
        _ if file.is_written => "standard output",
        _ => "standard input",
    };
    let why = if file.is_written {
        "this one is written already, and takes one output"
    } else {
        "this one is read already, and can be read once"
    };
    let told = format!(in rt.alloc(); "{name}: Name another file: {why}").ok();
    Outcome {
        detail: told.map(|told| Detail::Stream(told)),
        ..Outcome::from(Fault::File(file.option))
    }
}

/// Refuses a pipe that is two of the files that are read, each of which would get a part of its bytes, or two
/// of those that are written, whose bytes would be mixed.
fn refuse_pipe_twice(rt: &HostRuntime, files: &[GivenFile<'_>]) -> Result<(), Outcome> {
    let mut pipes: Vec<(bool, Inode)> = Vec::new(rt.alloc());
    for file in files {
        let Some(pipe) = pipe_of(rt, *file) else {
            continue;
        };
        let pipe = (file.is_written, pipe);
        if pipes.contains(&pipe) {
            return Err(taken_already(rt, *file));
        }
        pipes.push(pipe).map_err(|_| NO_RUN)?;
    }
    Ok(())
}

/// Refuses a stream of a command that is closed, and a pipe that two of its files are. Opens nothing.
pub fn refuse_streams(
    rt: &HostRuntime,
    command: Invocation<'_>,
    taps: &Taps,
) -> Result<(), Outcome> {
    let files = all_files(rt, command, taps)?;
    refuse_closed(rt, command, &files)?;
    refuse_pipe_twice(rt, &files)
}
