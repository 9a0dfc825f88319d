//! From a ledger to its report.

ghost use Rattle.std.specs.Prelude.{◌≡◌, ℕ, List, [], Option, IfErr, IfOk, MatchResult, false};
ghost use Rattle.ledger_text.specs.Ledger.{has_failed as ledger_failed};
ghost use Rattle.ledger_text.specs.Reader.{source_of};
ghost use Rattle.ledger_report.specs.Counts.{AreCountsOf};
ghost use Rattle.ledger_report.specs.CountsLines.{HasCounted};
ghost use Rattle.ledger_report.specs.FrameLines.{HasTaken};
ghost use Rattle.ledger_report.specs.Reading.{HasNoted, IsRead, TellsLedger};
ghost use Rattle.ledger_report.specs.Refused.{IsRefused, line_fault, read_fault, source_at};

use crate::accounts::UnheldLine;
use crate::counts::FrameCounts;
use crate::counts_lines::{CountsLines, TapEnding};
use crate::disputed::Disputed;
use crate::fault::{NoReport, Refusal, ReportRefused, WrongLine};
use crate::frame_lines::FrameLines;
use crate::link::LinkReport;
use crate::moment::{FramePlace, LinePlace};
use crate::network::NetworkReport;
use crate::part::Part;
use crate::statistics::Statistics;
use afdx_frame::{Network, VlId};
use findings::{Findings, PerNetwork, RecorderFacts};
use ledger_text::{
    FoundLine, FrameLine, LedgerLine, LedgerReader, LedgerStop, LinesRefused, ReadFault,
};
use pcap_io::TapSource;
use std::alloc::{AllocError, Global};
use vl_config::Config;

/// The frames of a link that the table doesn't have.
#[derive(Clone, Copy, PartialEq, Eq)]
pub struct OutsideLink {
    /// How many; the rest is of no use where there is none.
    pub frames: u64,
    /// The network and the place of the first.
    pub network: Network,
    pub first: FramePlace,
}

impl OutsideLink {
    pub(crate) fn none() -> OutsideLink {
        OutsideLink {
            frames: 0,
            network: Network::A,
            first: FramePlace {
                stamp: 0,
                number: 0,
            },
        }
    }

    /// Counts a frame.
    pub(crate) fn count(&mut self, at: &LinePlace) {
        if self.frames == 0 {
            self.network = at.network;
            self.first = at.place;
        }
        self.frames = self.frames.saturating_add(1);
    }
}

/// The report on a ledger.
#[derive(Drop)]
pub struct Report {
    /// The timestamps of the first line and the last; 0 where there is none.
    pub start: u64,
    pub end: u64,
    /// The width of a bin, in nanoseconds.
    pub width: u64,
    /// Do its lines have the lengths of frames on the wire, as those of version 3?
    pub has_lengths: bool,
    pub networks: PerNetwork<NetworkReport>,
    /// One for each link of the table, in its order.
    pub links: Vec<LinkReport>,
    /// By identifier, the links outside the table; none where there is no such frame.
    pub outside: Vec<OutsideLink>,
    /// The findings, worst first.
    pub findings: Findings,
    /// The counts of the ledger's lines by their words.
    pub counts: FrameCounts,
    /// The lines that the report is about, where it isn't about all.
    pub part: Option<Part>,
    /// How the recordings end, where the ledger says so.
    pub endings: PerNetwork<Option<TapEnding>>,
    /// The first line whose verdict no account of its link in the table gives. Of a part of a ledger, which
    /// lacks lines before it, none is told.
    pub unheld: Option<UnheldLine>,
    /// Does the ledger have its last line?
    pub whole: bool,
    /// Where it ends, if it doesn't.
    pub stop: Option<LedgerStop>,
}

impl Report {
    /// The counts of the lines that the report is about.
    pub fn counted(&self) -> &FrameCounts {
        match &self.part {
            Some(part) => &part.counts,
            None => &self.counts,
        }
    }

    /// The links outside the table that have a frame.
    pub fn outside_link(&self, id: VlId) -> Option<OutsideLink> {
        match self.outside.get(usize::from(id.0)) {
            Some(link) if link.frames > 0 => Some(*link),
            _ => None,
        }
    }
}

/// The fault of a line that isn't taken.
fn line_fault(line: u64, refusal: Refusal) -> NoReport
    ensures { result ≡ line_fault line refusal }
{
    match refusal {
        Refusal::Wrong(wrong) => NoReport::Line { line, wrong },
        Refusal::Memory => NoReport::Memory,
    }
}

/// The fault of a reader that doesn't go on.
fn read_fault(fault: ReadFault) -> NoReport
    ensures { result ≡ read_fault fault }
{
    match fault {
        ReadFault::Line { number, fault } => NoReport::Line {
            line: number,
            wrong: WrongLine::Text(fault),
        },
        ReadFault::Device | ReadFault::Failed => NoReport::Read,
    }
}

/// The part that was read so far.
#[derive(Drop)]
struct Reading {
    counts: FrameCounts,
    frames: FrameLines,
    lines: CountsLines,
    statistics: Statistics,
}

/// Reads up to the ledger's end. Some: where it ends before its last line.
fn read_lines<S: TapSource>(
    alloc: Global,
    config: &Config,
    ledger: &mut LedgerReader<S>,
    reading: &mut Reading,
) -> Result<Option<LedgerStop>, NoReport>
    requires { ledger_failed ledger.old ≡ false }
    ensures { (bytes : Option (List ℕ)) (failures : ℕ)
        → HasNoted S.TapSource bytes failures config.now [] ledger.old
        reading.old.counts reading.old.frames reading.old.lines
        → MatchResult result
        (λ stop. IsRead bytes config.now stop reading.new.counts
        reading.new.lines.endings reading.new.lines.whole)
        (λ fault. IsRefused config.now (record { remaining = bytes; failures = failures })
        (source_at S.TapSource (source_of ledger.new)) fault) }
{
    loop {
        match ledger.advance() {
            Ok(FoundLine::Line(LedgerLine::Frame(frame))) => {
                reading.counts.count(&frame);
                if let Err(refusal) = reading.frames.take(config, &frame) {
                    return Err(line_fault(ledger.number(), refusal));
                }
                if let Err(AllocError) = reading.statistics.note(&frame, &reading.frames) {
                    return Err(NoReport::Memory);
                }
            }
            Ok(FoundLine::Line(LedgerLine::Head(_))) => {}
            Ok(FoundLine::Line(LedgerLine::Counts(kind))) => {
                let taken = reading
                    .lines
                    .take(alloc, config, &reading.counts, kind, ledger.line());
                if let Err(refusal) = taken {
                    return Err(line_fault(ledger.number(), refusal));
                }
            }
            Ok(FoundLine::Complete) => return Ok(None),
            Ok(FoundLine::Incomplete(stop)) => return Ok(Some(stop)),
            Err(fault) => return Err(read_fault(fault)),
        }
    }
}

/// Reads a ledger, and makes its report against the table that it was judged by.
///
/// One pass, numbers alone: the memory is bounded by the table's links, some 16 KB each, whatever the
/// ledger's length. All lines are checked; of those that `part` doesn't take the report has nothing else.
/// `recorders` says what the ledger doesn't tell of its recordings.
///
/// # Errors
///
/// `Line` names the first line that is none of a ledger, or contradicts the table or the lines before it, and
/// says what is wrong with it: of what `WrongLine` lists the first that holds. `disputed` is the link, where
/// the table may be what is wrong. `Read` says that the source failed. `Memory` may come at any line.
pub fn read_report<S: TapSource + Drop>(
    alloc: Global,
    config: &Config,
    source: S,
    part: Option<Part>,
    recorders: PerNetwork<RecorderFacts>,
) -> Result<Report, ReportRefused>
    ensures told { IfOk result (TellsLedger (S.remaining source) config.now) }
    ensures refused { IfErr result (λ refused. (after : S) × IsRefused config.now
        (source_at S.TapSource source) (source_at S.TapSource after) refused.fault) }
{
    let mut ledger = match LedgerReader::new(alloc, source) {
        Ok(ledger) => ledger,
        Err(LinesRefused { source: _ }) => {
            return Err(ReportRefused {
                fault: NoReport::Memory,
                disputed: None,
            });
        }
    };
    let mut reading = match Reading::new(alloc, config, part, recorders) {
        Ok(reading) => reading,
        Err(AllocError) => {
            return Err(ReportRefused {
                fault: NoReport::Memory,
                disputed: None,
            });
        }
    };
    let stop = match read_lines(alloc, config, &mut ledger, &mut reading) {
        Ok(stop) => stop,
        Err(fault) => {
            let disputed = reading.disputed(alloc, config, ledger.line(), fault);
            return Err(ReportRefused { fault, disputed });
        }
    };
    match reading.statistics.end(&reading.lines.endings) {
        Ok(()) => Ok(reading.into_report(stop)),
        Err(AllocError) => Err(ReportRefused {
            fault: NoReport::Memory,
            disputed: None,
        }),
    }
}

/// Notes the next line of a part of a ledger. That lines before it are missing isn't told as wrong.
fn note_partial(config: &Config, frame: &FrameLine, reading: &mut Reading) -> Result<(), Refusal> {
    match reading.frames.take(config, frame) {
        Ok(()) | Err(Refusal::Wrong(WrongLine::Copy | WrongLine::Skew)) => {}
        Err(refusal) => return Err(refusal),
    }
    reading.counts.count(frame);
    match reading.statistics.note(frame, &reading.frames) {
        Ok(()) => Ok(()),
        Err(AllocError) => Err(Refusal::Memory),
    }
}

/// Reads the lines of a part of a ledger up to its end. Some: within which line it ends.
fn read_partial<S: TapSource>(
    config: &Config,
    ledger: &mut LedgerReader<S>,
    reading: &mut Reading,
) -> Result<Option<LedgerStop>, NoReport> {
    // A ledger has at most 2^34 lines: its end comes before the loop's.
    for _ in 0..u64::MAX {
        match ledger.advance() {
            Ok(FoundLine::Line(LedgerLine::Frame(frame))) => {
                if let Err(refusal) = note_partial(config, &frame, reading) {
                    return Err(line_fault(ledger.number(), refusal));
                }
            }
            Ok(FoundLine::Line(LedgerLine::Head(_) | LedgerLine::Counts(_))) => {}
            Ok(FoundLine::Complete) => return Ok(None),
            Ok(FoundLine::Incomplete(end)) => return Ok(Some(end)),
            Err(fault) => return Err(read_fault(fault)),
        }
    }
    Err(NoReport::Read)
}

/// Reads a part of a ledger, a head and lines of frames of which others are left out, and makes its report.
/// A copy whose delivery is left out isn't wrong, and there are no counts to compare with.
///
/// # Errors
///
/// As [`read_report`], but for what lines that are left out would say.
pub fn read_part<S: TapSource + Drop>(
    alloc: Global,
    config: &Config,
    source: S,
    part: Option<Part>,
    recorders: PerNetwork<RecorderFacts>,
) -> Result<Report, NoReport> {
    let Ok(mut ledger) = LedgerReader::new(alloc, source) else {
        return Err(NoReport::Memory);
    };
    let Ok(mut reading) = Reading::new(alloc, config, part, recorders) else {
        return Err(NoReport::Memory);
    };
    let stop = read_partial(config, &mut ledger, &mut reading)?;
    let stop = stop.filter(|stop| stop.within_line);
    match reading.statistics.end(&reading.lines.endings) {
        Ok(()) => {
            let mut report = reading.into_report(stop);
            report.unheld = None;
            Ok(report)
        }
        Err(AllocError) => Err(NoReport::Memory),
    }
}

impl Reading {
    fn new(
        alloc: Global,
        config: &Config,
        part: Option<Part>,
        recorders: PerNetwork<RecorderFacts>,
    ) -> Result<Reading, AllocError>
        ensures counts { IfOk result (λ reading. AreCountsOf [] reading.counts) }
        ensures frames { IfOk result (λ reading. HasTaken [] reading.frames) }
        ensures lines { IfOk result (λ reading. HasCounted [] reading.lines) }
    {
        Ok(Reading {
            counts: FrameCounts::new(alloc)?,
            frames: FrameLines::new(alloc)?,
            lines: CountsLines::new(alloc),
            statistics: Statistics::new(alloc, config, part, recorders)?,
        })
    }

    /// On which link the line and the table differ that was refused for this.
    fn disputed(
        &self,
        alloc: Global,
        config: &Config,
        line: &[u8],
        fault: NoReport,
    ) -> Option<Disputed> {
        match fault {
            NoReport::Line {
                wrong: WrongLine::Counts,
                ..
            } => Disputed::of_counts(alloc, config, self.lines.links_before, line),
            NoReport::Line { wrong, .. } => Disputed::of_frame(config, &self.frames, line, wrong),
            NoReport::Read | NoReport::Memory => None,
        }
    }

    fn into_report(self, stop: Option<LedgerStop>) -> Report
        ensures counts { result.counts ≡ self.counts }
        ensures endings { result.endings ≡ self.lines.endings }
        ensures whole { result.whole ≡ self.lines.whole }
        ensures stop { result.stop ≡ stop }
    {
        let Reading {
            counts,
            frames: _,
            lines,
            statistics,
        } = self;
        let end = statistics.end_stamp();
        Report {
            start: statistics.start,
            end,
            width: statistics.width,
            has_lengths: statistics.has_lengths,
            networks: statistics.networks,
            links: statistics.links,
            outside: statistics.outside,
            findings: statistics.findings,
            counts,
            part: statistics.part,
            endings: lines.endings,
            unheld: statistics.accounts.unheld,
            whole: lines.whole,
            stop,
        }
    }
}
