//! The progress of the reading that a person at a terminal sees, on one line that is written over, and
//! gone at the end.
use crate::blocks::LiveInput;
use crate::lost::BlockWalk;
use crate::recordings::Reading;
use crate::taps::Tap;
use crate::whole::WholePackets;
use afdx_frame::Network;
use run_manifest::{Digesting, Sum};
use std::fmt::{Display, Formatter};
use std::io::{ErrorKind, IsTerminal, Read};
use std::sync::atomic::{AtomicU64, Ordering};
use std::time::Instant;
use std::{fmt, io};
use traffic_survey::{FORMAT_LEN, Format, format_of};

/// How many milliseconds the line stands at least, and after how many it comes first.
const PERIOD: u64 = 500;

/// The blanks that take the line off the terminal: more than it ever has characters.
pub const ERASE: &str =
    "\r                                                                            \r";

/// How much of a recording was read.
#[derive(Drop)]
struct ReadSoFar {
    /// How many bytes it has, if that is known.
    length: Option<u64>,
    bytes: AtomicU64,
}

impl ReadSoFar {
    fn of(length: Option<u64>) -> ReadSoFar {
        ReadSoFar {
            length,
            bytes: AtomicU64::new(0),
        }
    }

    /// How many percent were read, if the length is known.
    fn percent(&self) -> Option<u64> {
        let hundredfold = self.bytes.load(Ordering::Relaxed).saturating_mul(100);
        let percent = hundredfold.checked_div(self.length?).unwrap_or(100);
        Some(percent.min(100))
    }
}

/// How far a command is with its recordings. The threads that read them share it.
#[derive(Drop)]
pub struct Progress {
    started: Instant,
    a: ReadSoFar,
    b: ReadSoFar,
    /// How many frames the command has told that it took. 0: none yet, or it doesn't tell.
    frames: AtomicU64,
    /// When the line was written last, in milliseconds since the start. 0: it wasn't yet.
    written: AtomicU64,
}

impl Progress {
    /// The progress of recordings of these lengths from now on. None where standard error is no terminal or
    /// there is no clock.
    pub fn begin(rt: &HostRuntime, a: Option<u64>, b: Option<u64>) -> Option<Progress> {
        if !rt.stderr().is_terminal() {
            return None;
        }
        Some(Progress {
            started: Instant::now(rt).ok()?,
            a: ReadSoFar::of(a),
            b: ReadSoFar::of(b),
            frames: AtomicU64::new(0),
            written: AtomicU64::new(0),
        })
    }

    fn reading(&self, network: Network) -> &ReadSoFar {
        match network {
            Network::A => &self.a,
            Network::B => &self.b,
        }
    }

    /// Counts frames that the command has taken. The line says so when it comes next.
    pub fn add_frames(&self, frames: usize) {
        self.frames.fetch_add(frames as u64, Ordering::Relaxed);
    }

    /// Counts what was read of a recording, and writes the line if it is time.
    fn add_bytes(&self, rt: &HostRuntime, network: Network, bytes: u64) {
        let reading = self.reading(network);
        reading.bytes.fetch_add(bytes, Ordering::Relaxed);
        let Ok(elapsed) = self.started.elapsed(rt) else {
            return;
        };
        let now = u64::try_from(elapsed.as_millis()).unwrap_or(u64::MAX);
        let written = self.written.load(Ordering::Relaxed);
        if now < written.saturating_add(PERIOD) {
            return;
        }
        // Of two threads that find it time one writes.
        let order = Ordering::Relaxed;
        if self
            .written
            .compare_exchange(written, now, order, order)
            .is_ok()
        {
            let _ = rt.eprint(self.line(now));
        }
    }

    /// How many bytes were read.
    fn bytes(&self) -> u64 {
        let of_a = self.a.bytes.load(Ordering::Relaxed);
        of_a.saturating_add(self.b.bytes.load(Ordering::Relaxed))
    }

    /// The line so many milliseconds after the start.
    fn line(&self, now: u64) -> ProgressLine {
        let (count, unit) = match self.frames.load(Ordering::Relaxed) {
            0 => (self.bytes(), "bytes"),
            frames => (frames, "frames"),
        };
        ProgressLine {
            a: self.a.percent(),
            b: self.b.percent(),
            count,
            unit,
            rate: count.saturating_mul(1000).checked_div(now).unwrap_or(0),
        }
    }

    /// Takes the line off the terminal.
    pub fn erase(&self, rt: &HostRuntime) {
        if self.written.swap(0, Ordering::Relaxed) > 0 {
            let _ = rt.eprint(ERASE);
        }
    }
}

/// The line: how many percent of each recording were read, where that is known, how many frames were taken,
/// or how many bytes were read where none was, and how many a second.
#[derive(Clone, Copy)]
struct ProgressLine {
    a: Option<u64>,
    b: Option<u64>,
    count: u64,
    unit: &'static str,
    rate: u64,
}

impl Display for ProgressLine {
    fn fmt<W: fmt::Write>(&self, f: &mut Formatter<W>) -> fmt::Result {
        let (count, unit, rate) = (self.count, self.unit, self.rate);
        f.write_str(ERASE)?;
        f.write_str("afdxmon: ")?;
        if let Some(percent) = self.a {
            write!(f, "A {percent} %, ")?;
        }
        if let Some(percent) = self.b {
            write!(f, "B {percent} %, ")?;
        }
        write!(f, "{count} {unit}, {rate} a second")
    }
}

/// A file of a recording whose reading is shown, or isn't, and whose first bytes are kept.
#[derive(Drop)]
pub struct Recording<'p> {
    input: Digesting<LiveInput>,
    reading: Reading<'p>,
    /// The recording that it is a file of, and its number there.
    place: (&'p Tap, usize),
    head: [u8; FORMAT_LEN],
    kept: usize,
    /// Its whole packets alone, where the next file goes on behind them.
    whole: Option<WholePackets>,
    /// The packets that its recorder counts as dropped.
    walk: BlockWalk,
}

impl<'p> Recording<'p> {
    /// A file of which nothing was read.
    pub fn new(input: LiveInput, reading: Reading<'p>, place: (&'p Tap, usize)) -> Recording<'p> {
        Recording {
            input: Digesting::new(input, reading.hashed),
            reading,
            place,
            head: [0; FORMAT_LEN],
            kept: 0,
            whole: whole_of(reading, place),
            walk: BlockWalk::new(reading.rt.alloc()),
        }
    }

    /// The sum of what was read. The recording is told of packets that were dropped.
    pub fn into_sum(self) -> Sum {
        let (tap, number) = self.place;
        tap.note_lost(number, self.walk.lost());
        self.input.tally.end()
    }

    /// The format that its first bytes tell, if so many were read.
    pub fn format(&self) -> Option<Format> {
        if self.kept < FORMAT_LEN {
            None
        } else {
            format_of(self.head)
        }
    }

    fn keep(&mut self, bytes: &[u8]) {
        for byte in bytes {
            if let Some(kept) = self.head.get_mut(self.kept) {
                *kept = *byte;
                self.kept += 1;
            } else {
                break;
            }
        }
    }

    /// A read is about to begin.
    fn note_begin(&self) {
        if let Some(pauses) = self.reading.pauses {
            pauses.begin_read(self.reading.rt, self.reading.network);
        }
    }

    /// A read has ended, and maybe the recording with it.
    fn note_end(&self, has_ended: bool) {
        if let Some(pauses) = self.reading.pauses {
            pauses.end_read(self.reading.rt, self.reading.network, has_ended);
        }
    }
}

/// The whole packets of a file that another follows, where a recording goes on behind a torn one.
fn whole_of(reading: Reading<'_>, (tap, number): (&Tap, usize)) -> Option<WholePackets> {
    if tap.resumes && number.saturating_add(1) < tap.files.len() {
        Some(WholePackets::new(reading.rt.alloc()))
    } else {
        None
    }
}

/// A packet has fewer bytes: so many reads of a byte end it.
const MAX_READS: u64 = 1 << 21;

impl Recording<'_> {
    /// Takes what was read, or notes how the file ended. True if that is so.
    fn add_read(&mut self, bytes: &[u8]) -> io::Result<bool> {
        let (tap, number) = self.place;
        let Some(whole) = &mut self.whole else {
            return Ok(true);
        };
        if !bytes.is_empty() {
            if whole.take(bytes).is_err() {
                return Err(io::Error::from(ErrorKind::OutOfMemory));
            }
            return Ok(false);
        }
        if let Some(torn) = whole.torn() {
            tap.note_torn(number, torn);
        }
        Ok(true)
    }

    /// Gives whole packets, as many bytes of them as fit.
    fn give_whole(&mut self, buf: &mut [u8]) -> Option<usize> {
        let whole = self.whole.as_mut()?;
        let count = whole.give(buf);
        if count > 0 { Some(count) } else { None }
    }

    /// Reads on to the end of the next packet, and gives it.
    fn read_whole(&mut self, buf: &mut [u8]) -> io::Result<usize> {
        for _read in 0..MAX_READS {
            if let Some(count) = self.give_whole(buf) {
                return Ok(count);
            }
            let count = self.read_on(buf)?;
            if self.add_read(buf.get(..count).unwrap_or(&[]))? {
                break;
            }
        }
        Ok(0)
    }

    /// Reads the file's next bytes.
    fn read_on(&mut self, buf: &mut [u8]) -> io::Result<usize> {
        self.note_begin();
        let read = self.input.read(buf);
        self.note_end(!matches!(read, Ok(1..)));
        if let Err(error) = read {
            let (tap, number) = self.place;
            tap.fails(number, error);
        }
        let count = read?;
        let bytes = &buf[..count];
        self.keep(bytes);
        if self.walk.pass(bytes).is_err() {
            return Err(io::Error::from(ErrorKind::OutOfMemory));
        }
        if let Some(progress) = self.reading.progress {
            let Reading { rt, network, .. } = self.reading;
            progress.add_bytes(rt, network, bytes.len() as u64);
        }
        Ok(count)
    }
}

impl Read for Recording<'_> {
    fn read(&mut self, buf: &mut [u8]) -> io::Result<usize> {
        let most = buf.len();
        let count = if self.whole.is_some() {
            self.read_whole(buf)?
        } else {
            self.read_on(buf)?
        };
        Ok(count.min(most))
    }
}
