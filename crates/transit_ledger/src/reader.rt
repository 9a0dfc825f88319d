//! Reads a ledger of transits line by line.

use crate::fault::{LineFault, TransitFault};
use crate::line::{TransitLine, read_line};
use crate::run::{TransitRun, read_run};
use crate::tail::{
    LatencyLine, LinkLine, TapLine, TotalLine, read_latency, read_link, read_tap, read_total,
};
use afdx_frame::{Network, VlId};
use ledger_text::{LineFound, LineSource};
use pcap_io::TapSource;
use std::alloc::{AllocError, Global};

/// A line after the first two, or the end after the line `total`.
#[derive(Clone, Copy)]
pub enum TransitFound {
    Frame(TransitLine),
    /// The counts of a link, whose name the line has.
    Link(LinkLine),
    Latency(LatencyLine),
    Tap(TapLine),
    Total(TotalLine),
    End,
}

/// The stages of a ledger, by the line that was read last.
#[derive(Clone, Copy, PartialEq, Eq)]
enum Stage {
    /// `run`, or that of a frame.
    Frames,
    /// `link` of this link.
    Link(VlId),
    /// `latency` of a link.
    Latency,
    /// `latency all`.
    AllLatency,
    /// `tap before`, and `tap after`.
    TapBefore,
    TapAfter,
    Total,
}

/// The place of a frame's line in the order of lines.
#[derive(Clone, Copy, PartialEq, Eq, PartialOrd, Ord)]
struct Place {
    time: u64,
    side: Network,
    number: u64,
}

/// A ledger of transits that is read line by line.
#[derive(Drop)]
pub struct TransitReader<S> {
    lines: LineSource<S>,
    stage: Stage,
    /// How many lines were read.
    number: u64,
    /// The place of the last frame's line.
    last: Option<Place>,
}

/// Into so many blocks the line `run` is cut at most: it may list each identifier.
const RUN_BLOCKS: usize = 8;

/// The stage after a line that may stand at this one.
fn stage_after(stage: Stage, found: &TransitFound) -> Option<Stage> {
    match (stage, found) {
        (Stage::Frames, TransitFound::Frame(_)) => Some(Stage::Frames),
        (Stage::Frames | Stage::Latency, TransitFound::Link(line)) => Some(Stage::Link(line.id)),
        (Stage::Link(id), TransitFound::Latency(line)) if line.link == Some(id) => {
            Some(Stage::Latency)
        }
        (Stage::Frames | Stage::Latency, TransitFound::Latency(line)) if line.link.is_none() => {
            Some(Stage::AllLatency)
        }
        (Stage::AllLatency, TransitFound::Tap(line)) if line.side == Network::A => {
            Some(Stage::TapBefore)
        }
        (Stage::TapBefore, TransitFound::Tap(line)) if line.side == Network::B => {
            Some(Stage::TapAfter)
        }
        (Stage::TapAfter, TransitFound::Total(_)) => Some(Stage::Total),
        _ => None,
    }
}

/// The first word of a line.
fn first_word(line: &[u8]) -> &[u8] {
    let len = line.iter().position(|byte| *byte == b' ');
    line.get(..len.unwrap_or(line.len())).unwrap_or(&[])
}

/// Reads a line after the first two by itself.
fn read_found(line: &[u8]) -> Result<TransitFound, LineFault> {
    match first_word(line) {
        b"link" => Ok(TransitFound::Link(read_link(line).ok_or(LineFault::Form)?)),
        b"latency" => Ok(TransitFound::Latency(read_latency(line).ok_or(LineFault::Form)?)),
        b"tap" => Ok(TransitFound::Tap(read_tap(line).ok_or(LineFault::Form)?)),
        b"total" => Ok(TransitFound::Total(read_total(line).ok_or(LineFault::Form)?)),
        _ => match read_line(line) {
            Ok(frame) => Ok(TransitFound::Frame(frame)),
            Err(field) => Err(LineFault::Frame(field)),
        },
    }
}

impl<S: TapSource + Drop> TransitReader<S> {
    /// Reads the first two lines, and how the recordings were compared. Allocates a block of 64 KiB, and the
    /// list of links.
    ///
    /// # Errors
    ///
    /// The fault of the first wrong line, `NotWhole`, `Read` or `Memory`, and the source.
    pub fn open(
        alloc: Global,
        source: S,
    ) -> Result<(TransitReader<S>, TransitRun), (TransitFault, S)> {
        let lines = match LineSource::new(alloc, source) {
            Ok(lines) => lines,
            Err(refused) => return Err((TransitFault::Memory, refused.source)),
        };
        let mut reader = TransitReader {
            lines,
            stage: Stage::Frames,
            number: 0,
            last: None,
        };
        match reader.begin(alloc) {
            Ok(run) => Ok((reader, run)),
            Err(fault) => Err((fault, reader.into_source())),
        }
    }

    /// The source. What was read ahead is lost.
    pub fn into_source(self) -> S {
        self.lines.into_source()
    }

    /// How many lines were read.
    pub fn number(&self) -> u64 {
        self.number
    }

    fn begin(&mut self, alloc: Global) -> Result<TransitRun, TransitFault> {
        self.read_head()?;
        self.read_run(alloc)
    }

    fn read_head(&mut self) -> Result<(), TransitFault> {
        self.next_line()?;
        if self.lines.line() == b"afdx-transit 1".as_slice() {
            Ok(())
        } else {
            Err(self.fault(LineFault::Head))
        }
    }

    /// Reads the second line, which may be longer than a block.
    fn read_run(&mut self, alloc: Global) -> Result<TransitRun, TransitFault> {
        let mut text = Vec::new(alloc);
        for _ in 0..RUN_BLOCKS {
            let found = self.lines.advance()?;
            text.extend_from_slice(self.lines.line())?;
            match found {
                LineFound::Long => {}
                LineFound::Line => {
                    self.number = self.number.saturating_add(1);
                    return match read_run(alloc, &text)? {
                        Some(run) => Ok(run),
                        None => Err(self.fault(LineFault::Run)),
                    };
                }
                LineFound::End => return Err(self.not_whole(false)),
                LineFound::Unended => return Err(self.not_whole(true)),
            }
        }
        Err(self.next_fault(LineFault::Long))
    }

    /// Goes on to the next line, or to the end after the line `total`.
    ///
    /// # Errors
    ///
    /// The fault of the first wrong line, `NotWhole` or `Read`.
    pub fn advance(&mut self) -> Result<TransitFound, TransitFault> {
        match self.lines.advance()? {
            LineFound::Line => {
                self.number = self.number.saturating_add(1);
                self.read()
            }
            LineFound::Long => Err(self.next_fault(LineFault::Long)),
            LineFound::End if self.stage == Stage::Total => Ok(TransitFound::End),
            LineFound::Unended if self.stage == Stage::Total => {
                Err(self.next_fault(LineFault::Newline))
            }
            LineFound::End => Err(self.not_whole(false)),
            LineFound::Unended => Err(self.not_whole(true)),
        }
    }

    /// The line that was found last, without its newline.
    pub fn line(&self) -> &[u8] {
        self.lines.line()
    }

    /// The fault of the line that was found last.
    pub fn fault(&self, fault: LineFault) -> TransitFault {
        TransitFault::Line {
            number: self.number,
            fault,
        }
    }

    /// The fault of the line after it.
    fn next_fault(&self, fault: LineFault) -> TransitFault {
        TransitFault::Line {
            number: self.number.saturating_add(1),
            fault,
        }
    }

    fn not_whole(&self, within_line: bool) -> TransitFault {
        TransitFault::NotWhole {
            number: self.number.saturating_add(1),
            within_line,
        }
    }

    /// Goes on to the next line, before the line `total`.
    fn next_line(&mut self) -> Result<(), TransitFault> {
        match self.lines.advance()? {
            LineFound::Line => {
                self.number = self.number.saturating_add(1);
                Ok(())
            }
            LineFound::Long => Err(self.next_fault(LineFault::Long)),
            LineFound::End => Err(self.not_whole(false)),
            LineFound::Unended => Err(self.not_whole(true)),
        }
    }

    /// Reads the line that was found.
    fn read(&mut self) -> Result<TransitFound, TransitFault> {
        let found = match read_found(self.lines.line()) {
            Ok(found) => found,
            Err(fault) => return Err(self.fault(fault)),
        };
        if let TransitFound::Frame(line) = &found {
            self.order(line)?;
        }
        match stage_after(self.stage, &found) {
            Some(stage) => {
                self.stage = stage;
                Ok(found)
            }
            None => Err(self.fault(LineFault::Order)),
        }
    }

    /// Lines of frames are in order of time, frames that went in first, and number.
    fn order(&mut self, line: &TransitLine) -> Result<(), TransitFault> {
        let place = Place {
            time: line.time,
            side: line.side,
            number: line.number,
        };
        if self.last.is_some_and(|last| last >= place) {
            return Err(self.fault(LineFault::Order));
        }
        self.last = Some(place);
        Ok(())
    }
}
