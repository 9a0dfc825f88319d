//! From a ledger of transits and its recordings to a capture.

use crate::bounds::MAX_LINES;
use crate::fault::TransitCutFault;
use crate::output::{CutOutput, TransitFormat};
use crate::selection::TransitSelection;
use afdx_frame::{LentFrame, Network, Stamp, TapFrame};
use cut_run::CutEnding;
use ledger_text::{LedgerStop, Neighbours};
use pcap_io::{OutSink, TapSource};
use run_fault::{MAX_FRAMES, Output, WatchFault};
use std::alloc::{AllocError, Global};
use std::collections::BTreeMap;
use traffic_survey::{Extent, Observer, show_both};
use transit_ledger::{TransitFault, TransitFound, TransitLine, TransitReader};

/// The last timestamp of a frame, in nanoseconds.
const LAST: u64 = (1_000_000_000 << 32) - 1;

/// The frames that are taken.
#[derive(Drop)]
pub struct TransitChoice<'a> {
    /// The lines that are selected.
    pub selection: &'a TransitSelection,
    /// Lines near those, which are taken too.
    pub neighbours: Option<Neighbours>,
    /// The recording that isn't given, of which no frame is taken.
    pub skips: Option<Network>,
}

/// A cut that has ended, with the devices that it was given.
#[derive(Drop)]
pub struct TransitCutRun<L, S, W> {
    /// How the ledger ended, or why the cut was aborted.
    pub outcome: Result<CutEnding, TransitCutFault>,
    /// How many packets were written.
    pub packets: u64,
    pub ledger: L,
    /// The recordings at the port in and at the port out.
    pub before: S,
    pub after: S,
    pub output: W,
}

/// A frame that a line takes: the number of that line in the ledger, the time that the frame must have, and
/// what the line says.
#[derive(Clone, Copy)]
struct Sought {
    at: u64,
    time: u64,
    line: TransitLine,
}

/// A frame's place among those of both recordings.
fn key_of(side: Network, number: u64) -> u64 {
    let bit = match side {
        Network::A => 0,
        Network::B => 1,
    };
    number.saturating_mul(2).saturating_add(bit)
}

/// The frames that lines take, until they are met in their recordings.
#[derive(Drop)]
struct Cutting<'a, L, W> {
    ledger: TransitReader<L>,
    output: CutOutput<'a, W>,
    choice: TransitChoice<'a>,
    /// How far clocks and timestamps may be off, and what is added to the timestamps of the port out, in
    /// nanoseconds.
    early: u64,
    shift: i64,
    /// The time of the ledger's first frame.
    first: Option<u64>,
    sought: BTreeMap<u64, Sought>,
    /// The line that was read ahead.
    next: Option<TransitLine>,
    ending: Option<CutEnding>,
    packets: u64,
    fault: Option<TransitCutFault>,
}

impl<L: TapSource + Drop, W: OutSink> Cutting<'_, L, W> {
    /// Reads the ledger's next line of a frame, unless one was read ahead.
    fn read_ahead(&mut self) -> Result<Option<TransitLine>, TransitCutFault> {
        if let Some(line) = self.next {
            return Ok(Some(line));
        }
        for _line in 0..MAX_LINES {
            if self.ending.is_some() {
                break;
            }
            match self.ledger.advance() {
                Ok(TransitFound::Frame(line)) => {
                    self.next = Some(line);
                    return Ok(Some(line));
                }
                Ok(TransitFound::End) => self.ending = Some(CutEnding::Complete),
                Ok(_) => {}
                Err(
                    TransitFault::NotWhole {
                        number,
                        within_line,
                    },
                ) => {
                    let lines = number.saturating_sub(1);
                    self.ending = Some(CutEnding::Incomplete(LedgerStop { lines, within_line }));
                }
                Err(fault) => return Err(TransitCutFault::of_ledger(fault)),
            }
        }
        Ok(None)
    }

    /// Looks for a frame of a line from now on, if its recording is given.
    fn look_for(
        &mut self,
        side: Network,
        number: u64,
        sought: Sought,
    ) -> Result<(), TransitCutFault> {
        if self.choice.skips == Some(side) {
            return Ok(());
        }
        match self.sought.insert(key_of(side, number), sought) {
            Ok(None) => Ok(()),
            Ok(Some(_)) => Err(TransitCutFault::Absent { line: sought.at }),
            Err(_) => Err(TransitCutFault::Memory),
        }
    }

    /// Is the line selected, or near one that is?
    fn is_taken(&mut self, first: u64, line: &TransitLine) -> bool {
        let is_near = match (&mut self.choice.neighbours, line.link) {
            (Some(neighbours), Some(id)) => neighbours.is_near(id),
            _ => false,
        };
        is_near || self.choice.selection.takes(Stamp(first), line)
    }

    /// Looks for the frames of a line, if it is taken: its own, and its partner.
    fn take(&mut self, line: TransitLine) -> Result<(), TransitCutFault> {
        let first = self.first.unwrap_or(line.time);
        self.first = Some(first);
        if !self.is_taken(first, &line) {
            return Ok(());
        }
        let at = self.ledger.number();
        let time = line.time;
        self.look_for(line.side, line.number, Sought { at, time, line })?;
        if let (Some(other), Some(latency)) = (line.other, line.latency) {
            let time = time.saturating_add_signed(latency);
            self.look_for(Network::B, other, Sought { at, time, line })?;
        }
        Ok(())
    }

    /// Takes the lines of frames up to a moment.
    fn take_until(&mut self, moment: u64) -> Result<(), TransitCutFault> {
        for _line in 0..MAX_LINES {
            match self.read_ahead()? {
                Some(line) if line.time <= moment => {
                    self.take(line)?;
                    self.next = None;
                }
                _ => break,
            }
        }
        Ok(())
    }

    /// Writes a frame, if a line takes it. Those of its moment are read before.
    fn write_taken(&mut self, frame: &LentFrame<'_>) -> Result<(), TransitCutFault> {
        let stamp = frame.stamp().0;
        self.take_until(stamp.saturating_add(self.early))?;
        let key = key_of(frame.network(), frame.number());
        let Some(sought) = self.sought.remove(&key) else {
            return Ok(());
        };
        if sought.time != stamp {
            return Err(TransitCutFault::Absent { line: sought.at });
        }
        self.output.put(frame, &sought.line)?;
        self.packets = self.packets.saturating_add(1);
        Ok(())
    }

    /// Reads the rest of the ledger. A frame that a line takes has to be among those that were met.
    fn finish(&mut self) -> Result<CutEnding, TransitCutFault> {
        self.take_until(LAST)?;
        if let Some((_, sought)) = self.sought.first_key_value() {
            return Err(TransitCutFault::Absent { line: sought.at });
        }
        match self.ending {
            Some(ending) => Ok(ending),
            // A line lies past the last moment: there is none such.
            None => Err(TransitCutFault::Memory),
        }
    }

    /// How the cut ended, as the recordings did.
    fn ended(&mut self, shown: Result<(), WatchFault>) -> Result<CutEnding, TransitCutFault> {
        match (self.fault, shown) {
            (Some(fault), _) => Err(fault),
            (None, Err(fault)) => Err(TransitCutFault::of_recordings(fault)),
            (None, Ok(())) => self.finish(),
        }
    }
}

impl<L: TapSource + Drop, W: OutSink> Observer for Cutting<'_, L, W> {
    fn keep(&mut self, _alloc: Global, frame: TapFrame) -> Result<TapFrame, AllocError> {
        if self.shift == 0 || frame.network() == Network::A {
            return Ok(frame);
        }
        let (network, number, stamp, whole, bytes) = frame.into_parts();
        let moment = stamp.0.saturating_add_signed(self.shift).min(LAST);
        // Its parts were within their bounds before, and its moment is.
        TapFrame::sharing(network, number, Stamp(moment), whole, bytes).ok_or(AllocError)
    }

    fn see(&mut self, _alloc: Global, frame: &LentFrame<'_>) -> Result<(), WatchFault> {
        if let Err(fault) = self.write_taken(frame) {
            self.fault = Some(fault);
            return Err(WatchFault::Write {
                output: Output::Capture,
            });
        }
        Ok(())
    }
}

/// Copies the frames of the chosen lines of a ledger of transits: the frame that went in and the one that
/// came out, in the order of their times by the ledger's clock. All devices come back. After a fault the
/// capture is a prefix of what it would be.
///
/// A timestamp may lie `late` nanoseconds below the greatest one before it.
///
/// # Errors
///
/// `Ledger` at the first line that can't stand where it does; `Absent` where a recording has no frame of a
/// line that is taken, or one of another time; `Header` or `Read` of a recording, `Read` of the ledger,
/// `Write`, `Memory`.
pub fn cut_transits<'a, L: TapSource + Drop, S: TapSource, W: OutSink>(
    alloc: Global,
    choice: TransitChoice<'a>,
    late: u64,
    ledger: L,
    (before, after): (S, S),
    format: TransitFormat<'a>,
    output: W,
) -> TransitCutRun<L, S, W> {
    let mut cutting = match begin(alloc, choice, ledger, format, output) {
        Ok(cutting) => cutting,
        Err((fault, ledger, output)) => {
            return TransitCutRun {
                outcome: Err(fault),
                packets: 0,
                ledger,
                before,
                after,
                output,
            };
        }
    };
    let extent = Extent {
        frames: MAX_FRAMES,
        late,
    };
    let shown = show_both(alloc, extent, before, after, &mut cutting);
    let outcome = cutting.ended(shown.outcome.map(|_| ()));
    TransitCutRun {
        outcome,
        packets: cutting.packets,
        ledger: cutting.ledger.into_source(),
        before: shown.a,
        after: shown.b,
        output: cutting.output.finish(),
    }
}

/// Reads the ledger's head, and writes what a capture begins with.
fn begin<'a, L: TapSource + Drop, W: OutSink>(
    alloc: Global,
    choice: TransitChoice<'a>,
    ledger: L,
    format: TransitFormat<'a>,
    output: W,
) -> Result<Cutting<'a, L, W>, (TransitCutFault, L, W)> {
    let (ledger, run) = match TransitReader::open(alloc, ledger) {
        Ok(opened) => opened,
        Err((fault, ledger)) => return Err((TransitCutFault::of_ledger(fault), ledger, output)),
    };
    let output = match CutOutput::begin(alloc, format, output) {
        Ok(output) => output,
        Err(output) => return Err((TransitCutFault::Write, ledger.into_source(), output)),
    };
    Ok(Cutting {
        ledger,
        output,
        choice,
        early: run.early,
        shift: run.shift,
        first: None,
        sought: BTreeMap::new(alloc),
        next: None,
        ending: None,
        packets: 0,
        fault: None,
    })
}
