//! When the frames of both networks came: read off the lines of frames as they are written to the ledger, of
//! which a look takes the ends alone. A network's letter is the only capital in such a line.
use memchr::{memchr, memchr_iter, memrchr, memrchr_iter};
use run_manifest::{Span, Sum};
use std::io::Write;
use std::{io, str};
use tap_inputs::Blocks;

/// The timestamp of the line of a frame whose network's letter stands at this place. None: another line.
fn stamp_before(bytes: &[u8], letter: usize) -> Option<u64> {
    let (space, before) = bytes.get(..letter)?.split_last()?;
    if *space != b' ' {
        return None;
    }
    let start = memrchr(b'\n', before).map_or(0, |newline| newline.saturating_add(1));
    str::from_utf8(before.get(start..)?).ok()?.parse().ok()
}

/// The first timestamp of a network in these lines.
fn first_stamp(bytes: &[u8], letter: u8) -> Option<u64> {
    memchr_iter(letter, bytes).find_map(|at| stamp_before(bytes, at))
}

/// The last one.
fn last_stamp(bytes: &[u8], letter: u8) -> Option<u64> {
    memrchr_iter(letter, bytes).find_map(|at| stamp_before(bytes, at))
}

/// Takes a network's timestamps in these lines into its span.
fn widen(span: &mut Option<Span>, bytes: &[u8], letter: u8) {
    let Some(last) = last_stamp(bytes, letter) else {
        return;
    };
    let first = match *span {
        Some(span) => span.first,
        None => first_stamp(bytes, letter).unwrap_or(last),
    };
    *span = Some(Span { first, last });
}

/// The first and the last timestamp of each network in a ledger.
#[derive(Drop)]
pub struct Spans {
    pub a: Option<Span>,
    pub b: Option<Span>,
    /// Does the next byte begin a line?
    begins_line: bool,
}

impl Spans {
    /// Of a ledger of which nothing was written.
    pub fn new() -> Spans {
        Spans {
            a: None,
            b: None,
            begins_line: true,
        }
    }

    /// Looks at bytes that are handed on, of which so many are taken: the others come again. They end a line.
    pub fn pass(&mut self, bytes: &[u8], taken: usize) {
        let start = match memchr(b'\n', bytes) {
            _ if self.begins_line => 0,
            Some(newline) => newline.saturating_add(1),
            None => bytes.len(),
        };
        if let Some(lines) = bytes.get(start..) {
            widen(&mut self.a, lines, b'A');
            widen(&mut self.b, lines, b'B');
        }
        if let Some(last) = bytes.get(..taken).and_then(|taken| taken.last()) {
            self.begins_line = *last == b'\n';
        }
    }
}

/// A ledger that is written. Of it the spans of its networks are told, or aren't.
#[derive(Drop)]
pub struct LedgerWriter {
    blocks: Blocks,
    spans: Option<Spans>,
}

impl LedgerWriter {
    /// A ledger whose bytes go on to `blocks`; no spans are told where `spans` is None.
    pub fn new(blocks: Blocks, spans: Option<Spans>) -> LedgerWriter {
        LedgerWriter { blocks, spans }
    }

    /// The spans that were found, None where they aren't told.
    pub fn into_spans(self) -> Option<Spans> {
        self.spans
    }

    /// The sum of what the system took.
    pub fn take_sum(&mut self) -> Sum {
        self.blocks.take_sum()
    }

    /// Hands the system all that was written. Where the run met no fault, an older file to which it wrote
    /// nothing is emptied.
    pub fn finish(&mut self, sound: bool) -> io::Result<()> {
        self.blocks.finish(sound)
    }
}

impl Write for LedgerWriter {
    fn write(&mut self, bytes: &[u8]) -> io::Result<usize> {
        let count = self.blocks.write(bytes)?;
        if let Some(spans) = &mut self.spans {
            spans.pass(bytes, count);
        }
        Ok(count)
    }

    fn flush(&mut self) -> io::Result<()> {
        self.blocks.flush()
    }
}
