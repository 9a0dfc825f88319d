//! The files of a recording that end within a packet, or are damaged, behind which it went on.

use crate::recordings::TapEnd;
use crate::taps::{LOOKED_AT, Tap, TapFile, Taps};
use crate::whole::{Torn, WholePackets};
use afdx_frame::Network;
use command_line::{FileOption, Shown};
use std::fmt::{Display, Formatter};
use std::fs::File;
use std::io::Read;
use std::{fmt, io};

/// How many files are named to a person at most.
const MAX_NAMED: usize = 16;

impl Torn {
    /// How such a file ends, after its path.
    pub fn words(self) -> &'static str {
        match self {
            Torn::Cut => "ends within a packet",
            Torn::Damaged => "has bytes that are no packet",
        }
    }

    /// The word that the manifest and JSON have for it.
    pub fn word(self) -> &'static str {
        match self {
            Torn::Cut => "cut",
            Torn::Damaged => "damaged",
        }
    }
}

/// The note on a torn file.
#[derive(Clone, Copy)]
struct TornNote<'a>(&'a str, Torn);

impl Display for TornNote<'_> {
    fn fmt<W: fmt::Write>(&self, f: &mut Formatter<W>) -> fmt::Result {
        let (path, how) = (Shown(self.0), self.1.words());
        write!(
            f,
            "afdxmon: note: {path} {how}: the run goes on with the next file"
        )
    }
}

impl Tap {
    /// How many of its files are torn.
    pub fn count_torn(&self) -> usize {
        (0..self.files.len())
            .filter(|number| self.torn(*number).is_some())
            .count()
    }

    /// Tells which files are torn.
    fn tell_torn(&self, rt: &HostRuntime) -> io::Result<()> {
        let mut told = 0usize;
        for (number, file) in self.files.iter().enumerate() {
            if let Some(how) = self.torn(number) {
                told = told.saturating_add(1);
                if told <= MAX_NAMED {
                    rt.eprintln(TornNote(&file.path, how))?;
                }
            }
        }
        let more = told.saturating_sub(MAX_NAMED);
        if more > 0 {
            eprintln!(rt; "afdxmon: note: {more} more files end so")?;
        }
        Ok(())
    }
}

/// A torn file of a recording that was read.
#[derive(Clone, Copy)]
pub struct TornFile<'a> {
    pub path: &'a str,
    pub how: Torn,
    /// The greatest timestamp before, and the first one behind it, in nanoseconds since 1970.
    pub last: Option<u64>,
    pub next: Option<u64>,
}

impl Tap {
    /// The first timestamp of the files after the one of this number, if they may be read again.
    fn first_behind(&self, rt: &HostRuntime, number: usize) -> Option<u64> {
        let behind = self.files.get(number.saturating_add(1)..)?;
        behind.iter().find_map(|file| file.first(rt))
    }

    /// The file of this number of a recording that was read, if it is torn.
    pub fn torn_file(&self, rt: &HostRuntime, end: &TapEnd, number: usize) -> Option<TornFile<'_>> {
        let how = self.torn(number)?;
        let last = end.greatest.get(number).copied();
        Some(TornFile {
            path: self.path_at(number)?,
            how,
            last: last.filter(|last| *last > 0),
            next: self.first_behind(rt, number),
        })
    }
}

impl TapFile {
    /// The timestamp of the first packet, if the file is a regular one that begins with a packet.
    fn first(&self, rt: &HostRuntime) -> Option<u64> {
        if self.begins_damaged(rt) {
            return None;
        }
        self.look(rt, FileOption::A).ok()??.first
    }

    /// Are there bytes in place of a regular file's first packet that are none?
    pub(crate) fn begins_damaged(&self, rt: &HostRuntime) -> bool {
        let Ok(mut file) = File::open(rt, &self.path) else {
            return false;
        };
        let mut bytes = [0u8; LOOKED_AT];
        let count = file.read(&mut bytes).unwrap_or(0);
        let mut whole = WholePackets::new(rt.alloc());
        let taken = whole.take(bytes.get(..count).unwrap_or(&[]));
        taken.is_ok() && whole.begins_damaged()
    }
}

impl Taps {
    /// Tells which files of the recordings are torn, behind which the run went on.
    pub fn tell_torn(&self, rt: &HostRuntime) -> io::Result<()> {
        self.of_network(Network::A).tell_torn(rt)?;
        self.of_network(Network::B).tell_torn(rt)
    }

    /// Is a file of a recording torn?
    pub fn are_torn(&self) -> bool {
        let (a, b) = (self.of_network(Network::A), self.of_network(Network::B));
        a.count_torn() > 0 || b.count_torn() > 0
    }
}
