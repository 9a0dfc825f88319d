//! The longest file that the system lets the program write (`ulimit -f`). A write beyond it would end the
//! program by a signal (SIGXFSZ), without a word: here it fails as any other.
use std::fs::{File, Metadata};
use std::io::{Stdout, Write};
use std::{fs, io};

/// Where Linux lists the limits of the process that reads it (proc(5)). Where no /proc is, no limit is known.
const LIMITS: &str = "/proc/self/limits";

/// The beginning of the line of this limit. Its soft limit follows, in bytes.
const FILE_SIZE: &str = "Max file size";

/// The system's error for a file that is too long.
const EFBIG: i32 = 27;

/// How many bytes of messages standard error must take, where it is a file that may get full.
const MESSAGES: u64 = 65536;

/// How many bytes a regular file may have, if there is a limit.
fn most_bytes(rt: &HostRuntime) -> Option<u64> {
    let limits = fs::read_to_string(rt, LIMITS).ok()?;
    let line = limits
        .lines()
        .find_map(|line| line.strip_prefix(FILE_SIZE))?;
    line.split_whitespace().next()?.parse().ok()
}

/// How many bytes a file takes that has so many already, if it is one with a limit. Devices and pipes have
/// none.
fn room_in(rt: &HostRuntime, found: &Metadata, bytes: u64) -> Option<u64> {
    if found.is_file() {
        Some(most_bytes(rt)?.saturating_sub(bytes))
    } else {
        None
    }
}

/// A writer that takes no byte beyond the limit of its file.
#[derive(Drop)]
pub struct Limited<W> {
    writer: W,
    /// How many bytes it takes still, if there is a limit.
    room: Option<u64>,
}

impl Limited<File> {
    /// A file that is written from its start on.
    pub fn from_start(rt: &HostRuntime, file: File, found: &Metadata) -> Limited<File> {
        Limited {
            writer: file,
            room: room_in(rt, found, 0),
        }
    }

    /// Takes all bytes out of it.
    pub fn empty(&self) -> io::Result<()> {
        self.writer.set_len(0)
    }
}

impl<W: Write> Write for Limited<W> {
    fn write(&mut self, bytes: &[u8]) -> io::Result<usize> {
        let Some(room) = self.room else {
            return self.writer.write(bytes);
        };
        if room == 0 && !bytes.is_empty() {
            return Err(io::Error::from_raw_os_error(EFBIG));
        }
        let taken = bytes.len().min(usize::try_from(room).unwrap_or(usize::MAX));
        let written = self.writer.write(&bytes[..taken])?;
        self.room = Some(room.saturating_sub(written as u64));
        Ok(written)
    }

    fn flush(&mut self) -> io::Result<()> {
        self.writer.flush()
    }
}

/// Standard output. Where it is a file, what stands in it counts.
pub fn standard_output(rt: &HostRuntime) -> Limited<Stdout> {
    let room = match fs::metadata(rt, "/dev/stdout") {
        Ok(found) => room_in(rt, &found, found.len()),
        Err(_) => None,
    };
    Limited {
        writer: rt.stdout(),
        room,
    }
}

/// Writes a text to standard output.
pub fn print(rt: &HostRuntime, text: &str) -> io::Result<()> {
    let mut output = standard_output(rt);
    output.write_all(text.as_bytes())?;
    output.flush()
}

/// Does standard error take messages? One that is a file near its limit doesn't.
pub fn takes_messages(rt: &HostRuntime) -> bool {
    match fs::metadata(rt, "/dev/stderr") {
        Ok(found) => room_in(rt, &found, found.len()).is_none_or(|room| room >= MESSAGES),
        Err(_) => true,
    }
}
