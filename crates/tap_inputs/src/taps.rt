//! The recordings of a command: the files of each in their order, and what a command line says of them.
use crate::interface::{chosen_in, refused_interfaces, start_of};
use crate::lost::LostPackets;
use crate::outcome::{Cause, Detail, Outcome};
use crate::streams::Input;
use crate::texts::text_in;
use crate::whole::Torn;
use afdx_frame::Network;
use command_line::{
    BETWEEN_FILES, CaptureArguments, CheckArguments, CutArguments, DebugArguments, Fault,
    FileOption, Inode, Invocation, LinksArguments, TransitArguments, TransitCutArguments,
    WatchArguments, is_standard,
};
use pcap_io::{Found, ReadSource, TapReader, TapSource};
use pcapng::Choice;
use std::alloc::AllocError;
use std::fmt::Write;
use std::fs::{File, Metadata};
use std::os::unix::fs::MetadataExt;
use std::sync::Mutex;
use std::{fs, io};

/// A file of a recording, and the interface that is read of it.
#[derive(Drop)]
pub struct TapFile {
    pub path: String,
    pub choice: Choice,
}

/// Why a file of a recording can't be opened or read.
#[derive(Clone, Copy)]
pub struct TapFailure {
    /// The number of the file.
    pub number: usize,
    pub cause: Cause,
}

/// A recording: one file after another. One that isn't given has none.
#[derive(Drop)]
pub struct Tap {
    pub files: Vec<TapFile>,
    /// The paths of the lists that name files of it.
    pub lists: Vec<String>,
    /// The failure that the thread met which reads it, for the one that tells of it.
    failure: Mutex<Option<TapFailure>>,
    /// Does it go on with its next file behind one that ends within a packet, or is damaged?
    pub(crate) resumes: bool,
    /// How each file is torn, as far as that thread found.
    torn: Mutex<Vec<Option<Torn>>>,
    /// The packets that recorders count as dropped before others, with the number of their file.
    lost: Mutex<Vec<(usize, LostPackets)>>,
}

/// The recordings of a command: that of network A, or its one recording, and that of network B.
#[derive(Drop)]
pub struct Taps {
    a: Tap,
    b: Tap,
}

/// The list of a recording's files at a path.
fn read_list(rt: &HostRuntime, path: &str) -> Result<String, Cause> {
    let list = text_in(rt, Input::File(File::open(rt, path)?))?;
    if list.trim().is_empty() {
        return Err(Cause::NoPath);
    }
    Ok(list)
}

/// The recordings that a command names, as its words have them.
fn recordings_of<'a>(command: Invocation<'a>) -> (Option<&'a str>, Option<&'a str>) {
    match command {
        Invocation::Capture(given) => (Some(given.recording), None),
        Invocation::Debug(given) => (Some(given.tap), None),
        Invocation::Watch(given) => (given.a, given.b),
        Invocation::Cut(given) => (given.a, given.b),
        Invocation::TransitCut(given) => (given.before, given.after),
        Invocation::Links(given) => (given.a, given.b),
        Invocation::Check(given) => (given.a, given.b),
        Invocation::Transit(given) => (Some(given.before), Some(given.after)),
        Invocation::Asm | Invocation::Report(_) => (None, None),
    }
}

/// Do a command's recordings go on with their next files behind torn ones?
fn resumes(command: Invocation<'_>) -> bool {
    match command {
        Invocation::Watch(given) => given.resumes,
        Invocation::Cut(given) => given.resumes,
        Invocation::TransitCut(given) => given.resumes,
        Invocation::Links(given) => given.resumes,
        Invocation::Check(given) => given.resumes,
        Invocation::Transit(given) => given.resumes,
        Invocation::Capture(_) | Invocation::Debug(_) | Invocation::Asm | Invocation::Report(_) =>
            false,
    }
}

/// The option that names a network's recording, or a command's one recording.
pub fn option_of(command: Invocation<'_>, network: Network) -> FileOption {
    match (command, network) {
        (Invocation::Capture(_), _) => FileOption::Recording,
        (Invocation::Debug(_), _) => FileOption::Tap,
        (Invocation::Transit(_) | Invocation::TransitCut(_), Network::A) => FileOption::Before,
        (Invocation::Transit(_) | Invocation::TransitCut(_), Network::B) => FileOption::After,
        (_, Network::A) => FileOption::A,
        (_, Network::B) => FileOption::B,
    }
}

impl Tap {
    /// The recording that a command line names, if it names one. What names a list that can't be read, or has
    /// no path, is taken for the path of a file.
    fn of(rt: &HostRuntime, words: Option<&str>, resumes: bool) -> Result<Tap, AllocError> {
        let mut tap = Tap {
            files: Vec::new(rt.alloc()),
            lists: Vec::new(rt.alloc()),
            failure: Mutex::new(None),
            resumes,
            torn: Mutex::new(Vec::new(rt.alloc())),
            lost: Mutex::new(Vec::new(rt.alloc())),
        };
        let Some(words) = words else {
            return Ok(tap);
        };
        for word in words.split(BETWEEN_FILES) {
            match word.strip_prefix('@') {
                Some(path) => tap.add_list(rt, word, path)?,
                None => tap.add(rt, word)?,
            }
        }
        if resumes {
            tap.torn = Mutex::new(vec![in rt.alloc(); None; tap.files.len()]?);
        }
        Ok(tap)
    }

    fn add(&mut self, rt: &HostRuntime, word: &str) -> Result<(), AllocError> {
        let (path, choice) = chosen_in(rt, word);
        let path = String::from_str(rt.alloc(), path)?;
        self.files.push(TapFile { path, choice })?;
        Ok(())
    }

    /// Adds the list at a path, which a word names, and its files.
    fn add_list(&mut self, rt: &HostRuntime, word: &str, path: &str) -> Result<(), AllocError> {
        match read_list(rt, path) {
            Ok(list) => {
                let path = String::from_str(rt.alloc(), path)?;
                self.lists.push(path)?;
                self.add_listed(rt, &list)
            }
            Err(cause) => {
                self.note(TapFailure {
                    number: self.files.len(),
                    cause,
                });
                self.add(rt, word)
            }
        }
    }

    fn note(&self, failure: TapFailure) {
        if let Some(mut noted) = self.failure.try_lock() {
            *noted = Some(failure);
        }
    }

    /// Notes why the file of this number can't be opened or read. That a list in its place can't be read says
    /// more.
    pub fn fails(&self, number: usize, error: io::Error) {
        if self
            .failure()
            .is_none_or(|failure| failure.number != number)
        {
            self.note(TapFailure {
                number,
                cause: Cause::System(error),
            });
        }
    }

    /// Which file can't be opened or read, and why, if there is one.
    pub fn failure(&self) -> Option<TapFailure> {
        match self.failure.try_lock() {
            Some(noted) => *noted,
            None => None,
        }
    }

    /// Notes how the file of this number is torn.
    pub(crate) fn note_torn(&self, number: usize, torn: Torn) {
        if let Some(mut noted) = self.torn.try_lock() {
            if let Some(place) = noted.get_mut(number) {
                *place = Some(torn);
            }
        }
    }

    /// How the file of this number is torn, if it was read on behind it.
    pub fn torn(&self, number: usize) -> Option<Torn> {
        let noted = self.torn.try_lock()?;
        *noted.get(number)?
    }

    /// Notes the packets that were dropped before those of the file of this number.
    pub(crate) fn note_lost(&self, number: usize, packets: &[LostPackets]) {
        let Some(mut noted) = self.lost.try_lock() else {
            return;
        };
        for lost in packets {
            // Without memory for one more it isn't told.
            let _ = noted.push((number, *lost));
        }
    }

    /// How many packets were dropped before those of the file of this number, of an interface or of all.
    pub(crate) fn lost(&self, number: usize, interface: Option<u32>) -> u64 {
        let Some(noted) = self.lost.try_lock() else {
            return 0;
        };
        let mut packets = 0u64;
        for (of, lost) in noted.iter() {
            if *of == number && interface.is_none_or(|one| one == lost.interface) {
                packets = packets.saturating_add(lost.packets);
            }
        }
        packets
    }

    /// Adds the files of a list: a path a line. Lines without one are passed over.
    fn add_listed(&mut self, rt: &HostRuntime, list: &str) -> Result<(), AllocError> {
        for line in list.lines().filter(|line| !line.is_empty()) {
            self.add(rt, line)?;
        }
        Ok(())
    }

    /// The path of the file of this number, or of the last one.
    pub fn path_at(&self, number: usize) -> Option<&str> {
        let file = self.files.get(number).or(self.files.last())?;
        Some(file.path.as_str())
    }

    /// Has it more than one file?
    pub fn is_of_several(&self) -> bool {
        self.files.len() > 1
    }

    /// The choice of its first file.
    pub fn choice(&self) -> Choice {
        self.files.first().map_or(Choice::Any, |file| file.choice)
    }
}

impl Taps {
    /// The recordings of a command.
    pub fn of(rt: &HostRuntime, command: Invocation<'_>) -> Result<Taps, AllocError> {
        let (a, b) = recordings_of(command);
        let resumes = resumes(command);
        Ok(Taps {
            a: Tap::of(rt, a, resumes)?,
            b: Tap::of(rt, b, resumes)?,
        })
    }

    /// The recording of a network.
    pub fn of_network(&self, network: Network) -> &Tap {
        match network {
            Network::A => &self.a,
            Network::B => &self.b,
        }
    }

    /// Looks at both recordings, of which the first files are open. How many bytes each has, if it is of
    /// regular files.
    ///
    /// # Errors
    ///
    /// Those of [`Tap::look`].
    pub fn look(
        &self,
        rt: &HostRuntime,
        a: &Input,
        b: &Input,
        late: u64,
    ) -> Result<[Option<u64>; 2], Outcome> {
        let a = self.a.look(rt, (FileOption::A, a), late)?;
        let b = self.b.look(rt, (FileOption::B, b), late)?;
        Ok([a, b])
    }

    /// May both recordings be one? Their first files are regular ones of one length, and their first frames
    /// have one timestamp.
    pub fn may_be_one(&self, rt: &HostRuntime) -> bool {
        let (Some(a), Some(b)) = (self.a.files.first(), self.b.files.first()) else {
            return false;
        };
        match (a.look(rt, FileOption::A), b.look(rt, FileOption::B)) {
            (Ok(Some(a)), Ok(Some(b))) => {
                a.length == b.length && a.first.is_some() && a.first == b.first
            }
            _ => false,
        }
    }

    /// The command, each of whose recordings is named by one of its files: that of this number.
    pub fn named<'t>(&'t self, command: Invocation<'t>, [a, b]: [usize; 2]) -> Invocation<'t> {
        let (a, b) = (self.a.path_at(a), self.b.path_at(b));
        match command {
            Invocation::Capture(given) => Invocation::Capture(CaptureArguments {
                recording: a.unwrap_or(given.recording),
                ..given
            }),
            Invocation::Debug(given) => Invocation::Debug(DebugArguments {
                tap: a.unwrap_or(given.tap),
                ..given
            }),
            Invocation::Watch(given) => Invocation::Watch(WatchArguments { a, b, ..given }),
            Invocation::Cut(given) => Invocation::Cut(CutArguments { a, b, ..given }),
            Invocation::Links(given) => Invocation::Links(LinksArguments { a, b, ..given }),
            Invocation::Check(given) => Invocation::Check(CheckArguments { a, b, ..given }),
            Invocation::Transit(given) => Invocation::Transit(TransitArguments {
                before: a.unwrap_or(given.before),
                after: b.unwrap_or(given.after),
                ..given
            }),
            Invocation::TransitCut(given) => Invocation::TransitCut(TransitCutArguments {
                before: a,
                after: b,
                ..given
            }),
            Invocation::Asm | Invocation::Report(_) => command,
        }
    }
}

/// How many bytes at the start of a file are read at once, for its first frame.
pub(crate) const LOOKED_AT: usize = 4096;

/// How many files are listed at most.
const MAX_LISTED: usize = 32;

/// The timestamp of the first frame of a reader that has given none.
fn first_of<S: TapSource + Drop>(rt: &HostRuntime, reader: TapReader<S>) -> Option<u64> {
    let mut reader = reader.with_block_len(LOOKED_AT);
    match reader.advance(rt.alloc()) {
        Ok(Found::Frame) => Some(reader.frame().stamp().0),
        Ok(Found::End(_)) | Err(_) => None,
    }
}

/// A regular file of a recording: which it is, how many bytes it has, and when its first frame came, if it
/// has one.
#[derive(Clone, Copy)]
pub struct Looked {
    inode: Inode,
    length: u64,
    pub first: Option<u64>,
}

impl TapFile {
    /// The system's data of the file, which standard input isn't one of.
    fn metadata(&self, rt: &HostRuntime) -> Option<Metadata> {
        if is_standard(&self.path) {
            return None;
        }
        fs::metadata(rt, &self.path).ok()
    }

    /// How many bytes it has, if it is a regular file.
    pub fn length(&self, rt: &HostRuntime) -> Option<u64> {
        let found = self.metadata(rt)?;
        if found.is_file() {
            Some(found.len())
        } else {
            None
        }
    }

    /// Is it a regular file, which may be read again?
    fn is_regular(&self, rt: &HostRuntime) -> bool {
        self.metadata(rt).is_some_and(|found| found.is_file())
    }

    /// Opens the file, if it is a regular one: a pipe's bytes are read once.
    fn regular(&self, rt: &HostRuntime) -> io::Result<Option<(File, Metadata)>> {
        let found = fs::metadata(rt, &self.path)?;
        if found.is_file() {
            Ok(Some((File::open(rt, &self.path)?, found)))
        } else {
            Ok(None)
        }
    }

    /// Looks at the file, if it is a regular one.
    pub fn look(&self, rt: &HostRuntime, option: FileOption) -> Result<Option<Looked>, Outcome> {
        let opened = match self.regular(rt) {
            Ok(opened) => opened,
            Err(error) => return Err(Outcome::of_file(option, Cause::System(error))),
        };
        let Some((file, found)) = opened else {
            return Ok(None);
        };
        self.refuse_absent(rt, option)?;
        let first = match TapReader::open(ReadSource::new(file), Network::A, 1, u64::MAX) {
            Ok(reader) => first_of(rt, reader),
            Err(_) => self.first_of_pcapng(rt),
        };
        Ok(Some(Looked {
            inode: Inode {
                device: found.dev(),
                number: found.ino(),
            },
            length: found.len(),
            first,
        }))
    }

    /// Refuses a regular file that begins with packets of several interfaces, if none is chosen, and one that
    /// doesn't have the one that is.
    fn refuse_absent(&self, rt: &HostRuntime, option: FileOption) -> Result<(), Outcome> {
        match refused_interfaces(rt, &self.path, self.choice) {
            Some(listed) => {
                let refused = Outcome::from(Fault::Interfaces(option));
                Err(refused.with(Detail::Listed(listed)))
            }
            None => Ok(()),
        }
    }

    /// The timestamp of the first frame of a pcapng file, of the chosen interface or the only one.
    fn first_of_pcapng(&self, rt: &HostRuntime) -> Option<u64> {
        first_of(rt, start_of(rt, &self.path, self.choice, u64::MAX)?)
    }
}

/// The sight of a recording's files so far.
#[derive(Drop)]
struct Sight {
    files: Vec<Looked>,
    /// When the first frame of each file came that has one, and the file's number.
    firsts: Vec<(u64, usize)>,
    greatest: u64,
    is_in_order: bool,
}

impl Sight {
    fn add(&mut self, number: usize, found: Looked, late: u64) -> Result<(), AllocError> {
        if let Some(first) = found.first {
            self.firsts.push((first, number))?;
            self.is_in_order &= first.saturating_add(late) >= self.greatest;
            self.greatest = self.greatest.max(first);
        }
        self.files.push(found)?;
        Ok(())
    }

    fn has(&self, inode: Inode) -> bool {
        self.files.iter().any(|file| file.inode == inode)
    }
}

impl Tap {
    /// Looks at the recording before it is read, of which the first file is open. How many bytes it has, if
    /// it is of regular files.
    ///
    /// # Errors
    ///
    /// A file that can't be opened, or of whose interfaces none or an absent one is chosen. Of several files
    /// one that is given twice, or first timestamps that don't rise but for `late` nanoseconds.
    pub fn look(
        &self,
        rt: &HostRuntime,
        (option, first): (FileOption, &Input),
        late: u64,
    ) -> Result<Option<u64>, Outcome> {
        match self.files.as_slice() {
            [] => Ok(None),
            [file] => {
                if file.is_regular(rt) {
                    file.refuse_absent(rt, option)?;
                }
                Ok(first.length(rt))
            }
            _ => self.look_at_several(rt, option, late),
        }
    }

    fn look_at_several(
        &self,
        rt: &HostRuntime,
        option: FileOption,
        late: u64,
    ) -> Result<Option<u64>, Outcome> {
        let mut sight = Sight {
            files: Vec::new(rt.alloc()),
            firsts: Vec::new(rt.alloc()),
            greatest: 0,
            is_in_order: true,
        };
        for (number, file) in self.files.iter().enumerate() {
            let looked = file
                .look(rt, option)
                .map_err(|refused| refused.at(option, number))?;
            let Some(mut found) = looked else {
                continue;
            };
            if self.resumes && file.begins_damaged(rt) {
                found.first = None;
            }
            if sight.has(found.inode) {
                let refused = Outcome::from(Fault::Repeated(option));
                return Err(refused.at(option, number));
            }
            sight.add(number, found, late)?;
        }
        if !sight.is_in_order {
            return Err(Outcome {
                detail: self
                    .by_time(rt, sight.firsts)
                    .map(|listed| Detail::Listed(listed)),
                ..Outcome::from(Fault::Order(option))
            });
        }
        if sight.files.len() < self.files.len() {
            return Ok(None);
        }
        let lengths = sight.files.iter().map(|file| file.length);
        Ok(Some(lengths.fold(0, |sum: u64, length| sum.saturating_add(length))))
    }

    /// The files in the order of their first frames.
    fn by_time(&self, rt: &HostRuntime, mut firsts: Vec<(u64, usize)>) -> Option<String> {
        firsts.sort().ok()?;
        let mut listed = String::from_str(rt.alloc(), "by time they are").ok()?;
        for (_, number) in firsts.iter().take(MAX_LISTED) {
            let path = self.path_at(*number)?;
            write!(listed, " {path}").ok()?;
        }
        let more = firsts.len().saturating_sub(MAX_LISTED);
        if more > 0 {
            write!(listed, " and {more} more").ok()?;
        }
        Some(listed)
    }
}
