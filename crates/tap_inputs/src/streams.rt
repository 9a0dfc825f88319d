//! The inputs and outputs of the program: files, the standard streams, and what stands in the place of a file
//! that isn't named.
use crate::limits::{Limited, standard_output};
use std::fs::{File, Metadata, OpenOptions};
use std::io::{Read, Stdin, Stdout, Write};
use std::{fs, io};

/// A recording without frames: the header of a nanosecond pcap file of Ethernet.
const EMPTY_RECORDING: [u8; 24] = [
    0x4d, 0x3c, 0xb2, 0xa1, 2, 0, 4, 0, 0, 0, 0, 0, 0, 0, 0, 0, 0, 0, 4, 0, 1, 0, 0, 0,
];

/// An input.
#[derive(Drop)]
pub enum Input {
    File(File),
    Standard(Stdin),
    /// The bytes that are left of those that stand in the place of a file.
    Held(&'static [u8]),
}

impl Input {
    /// A recording without frames.
    pub fn empty_recording() -> Input {
        Input::Held(&EMPTY_RECORDING)
    }

    /// Opens a file, or standard input for `-`.
    pub fn open(rt: &HostRuntime, path: &str) -> io::Result<Input> {
        if command_line::is_standard(path) {
            return Ok(Input::Standard(rt.stdin()));
        }
        Ok(Input::File(File::open(rt, path)?))
    }

    /// The system's data of it, but of bytes that are held.
    fn metadata(&self, rt: &HostRuntime) -> Option<Metadata> {
        match self {
            Input::File(file) => file.metadata().ok(),
            Input::Standard(_) => fs::metadata(rt, "/dev/stdin").ok(),
            Input::Held(_) => None,
        }
    }

    /// How many bytes it has, if it is a regular file.
    pub fn length(&self, rt: &HostRuntime) -> Option<u64> {
        let metadata = self.metadata(rt)?;
        if metadata.is_file() {
            Some(metadata.len())
        } else {
            None
        }
    }

    /// True if a read may have to wait for somebody who writes: that of a regular file hasn't to.
    pub fn may_pause(&self, rt: &HostRuntime) -> bool {
        match self {
            Input::Held(_) => false,
            Input::File(_) | Input::Standard(_) => self.length(rt).is_none(),
        }
    }
}

impl Read for Input {
    fn read(&mut self, buf: &mut [u8]) -> io::Result<usize> {
        match self {
            Input::File(file) => file.read(buf),
            Input::Standard(stdin) => stdin.read(buf),
            Input::Held(bytes) => bytes.read(buf),
        }
    }
}

/// A file that is written. A regular one is emptied by the first write to it, or at the end of a run that
/// wrote nothing and met no fault, so that what stood there is lost only once something stands in its place.
/// Devices and pipes can't be emptied.
#[derive(Drop)]
pub struct OutputFile {
    file: Limited<File>,
    /// Is it a regular file that nothing was written to?
    to_be_emptied: bool,
}

impl OutputFile {
    /// Opens a file as it stands. One that isn't there is made, and empty.
    fn open(rt: &HostRuntime, path: &str) -> io::Result<OutputFile> {
        let file = OpenOptions::new().write(true).create(true).open(rt, path)?;
        let found = file.metadata()?;
        Ok(OutputFile {
            file: Limited::from_start(rt, file, &found),
            to_be_emptied: found.is_file(),
        })
    }

    /// Empties a regular file to which nothing was written.
    fn empty(&mut self) -> io::Result<()> {
        if self.to_be_emptied {
            self.file.empty()?;
            self.to_be_emptied = false;
        }
        Ok(())
    }
}

impl Write for OutputFile {
    fn write(&mut self, bytes: &[u8]) -> io::Result<usize> {
        if !bytes.is_empty() {
            self.empty()?;
        }
        self.file.write(bytes)
    }

    fn flush(&mut self) -> io::Result<()> {
        self.file.flush()
    }
}

/// An output.
#[derive(Drop)]
pub enum OutputStream {
    File(OutputFile),
    Standard(Limited<Stdout>),
    /// It is written nowhere.
    Nowhere,
}

impl OutputStream {
    /// Opens a file as it stands, or standard output for `-`.
    pub fn open(rt: &HostRuntime, path: &str) -> io::Result<OutputStream> {
        if command_line::is_standard(path) {
            return Ok(OutputStream::Standard(standard_output(rt)));
        }
        Ok(OutputStream::File(OutputFile::open(rt, path)?))
    }

    /// Empties a regular file to which nothing was written.
    pub fn empty(&mut self) -> io::Result<()> {
        match self {
            OutputStream::File(file) => file.empty(),
            OutputStream::Standard(_) | OutputStream::Nowhere => Ok(()),
        }
    }
}

impl Write for OutputStream {
    fn write(&mut self, bytes: &[u8]) -> io::Result<usize> {
        match self {
            OutputStream::File(file) => file.write(bytes),
            OutputStream::Standard(stdout) => stdout.write(bytes),
            OutputStream::Nowhere => Ok(bytes.len()),
        }
    }

    fn flush(&mut self) -> io::Result<()> {
        match self {
            OutputStream::File(file) => file.flush(),
            OutputStream::Standard(stdout) => stdout.flush(),
            OutputStream::Nowhere => Ok(()),
        }
    }
}

/// A reader or a writer that keeps why the system gave, or took, no more.
#[derive(Drop)]
pub struct Noting<S> {
    stream: S,
    refused: Option<io::Error>,
}

impl<S: Drop> Noting<S> {
    /// Nothing was refused yet.
    pub fn new(stream: S) -> Noting<S> {
        Noting {
            stream,
            refused: None,
        }
    }

    /// Why something was refused, if it was.
    pub fn refused(&self) -> Option<io::Error> {
        self.refused
    }
}

impl<S: Write + Drop> Noting<S> {
    /// Hands the system what is left. Was that taken? And why was something refused, now or before?
    pub fn finish(mut self) -> (bool, Option<io::Error>) {
        let left = self.stream.flush().err();
        (left.is_none(), self.refused.or(left))
    }
}

impl<S: Read> Read for Noting<S> {
    fn read(&mut self, buf: &mut [u8]) -> io::Result<usize> {
        let read = self.stream.read(buf);
        if let Err(error) = read {
            self.refused = Some(error);
        }
        read
    }
}

impl<S: Write> Write for Noting<S> {
    fn write(&mut self, bytes: &[u8]) -> io::Result<usize> {
        let written = self.stream.write(bytes);
        if let Err(error) = written {
            self.refused = Some(error);
        }
        written
    }

    fn flush(&mut self) -> io::Result<()> {
        self.stream.flush()
    }
}
