//! From a ledger of transits to its report.

use crate::columns::TimeColumns;
use crate::fault_report::FaultReport;
use crate::link::LinkTransits;
use crate::reading::{Reading, Refusal};
use crate::silence::Silence;
use pcap_io::TapSource;
use std::alloc::Global;
use transit_ledger::{
    LatencyFigures, Outcome, OutcomeCounts, TransitFault, TransitFound, TransitReader, TransitRun,
};
use vl_config::Config;

/// The report on a ledger of transits.
#[derive(Drop)]
pub struct TransitReport {
    /// How the recordings were compared.
    pub run: TransitRun,
    /// How many lines of frames there are, and of each outcome.
    pub lines: u64,
    pub counts: OutcomeCounts,
    /// For how many frames there was an equal one.
    pub choices: u64,
    /// How long all frames took, if some came out unchanged.
    pub latency: Option<LatencyFigures>,
    /// The frames that hold no link, those of the table's links in its order, and those of other links.
    pub links: Vec<LinkTransits>,
    /// A report for each fault, in the order in which they are told.
    pub faults: Vec<FaultReport>,
    /// The times in which nothing came out, and in which nothing was seen to go in, the first hundred.
    pub silences_out: Vec<Silence>,
    pub silences_in: Vec<Silence>,
    /// When the first frame of either recording came, in nanoseconds.
    pub start: Option<u64>,
}

impl TransitReport {
    /// How many links have frames with a fault; frames that hold no link count as one.
    pub fn links_with(&self, fault: Outcome) -> u64 {
        let with = self.links.iter().filter(|link| link.counts.of(fault) > 0);
        with.count() as u64
    }

    /// The link with the most frames of a fault, the first of these, if there is one.
    pub fn worst_link(&self, fault: Outcome) -> Option<&LinkTransits> {
        let mut worst: Option<&LinkTransits> = None;
        for link in &self.links {
            let most = worst.map_or(0, |worst| worst.counts.of(fault));
            if link.counts.of(fault) > most {
                worst = Some(link);
            }
        }
        worst
    }
}

/// Takes a line.
fn take(
    reading: &mut Reading,
    table: &Config,
    found: &TransitFound,
    text: &[u8],
) -> Result<(), Refusal> {
    match found {
        TransitFound::Frame(line) => reading.take_frame(table, line),
        TransitFound::Link(line) => reading.take_link(table, line, text),
        TransitFound::Latency(line) => reading.take_latency(table, line),
        TransitFound::Tap(line) => reading.take_tap(line),
        TransitFound::Total(line) => reading.take_total(line),
        TransitFound::End => Ok(()),
    }
}

/// Reads a ledger's lines after the first two.
fn read_lines<S: TapSource + Drop>(
    reading: &mut Reading,
    table: &Config,
    reader: &mut TransitReader<S>,
) -> Result<(), TransitFault> {
    for _ in 0..u64::MAX {
        let found = reader.advance()?;
        if matches!(found, TransitFound::End) {
            break;
        }
        match take(reading, table, &found, reader.line()) {
            Ok(()) => {}
            Err(Refusal::Wrong(fault)) => return Err(reader.fault(fault)),
            Err(Refusal::Memory) => return Err(TransitFault::Memory),
        }
    }
    Ok(())
}

/// Reads a ledger of transits that was judged by this table, and counts its faults by these columns.
///
/// # Errors
///
/// The fault of the first line that is wrong, or contradicts the table or the lines before it; `NotWhole`,
/// `Read` or `Memory`.
pub fn read_transits<S: TapSource + Drop>(
    alloc: Global,
    table: &Config,
    source: S,
    columns: TimeColumns,
) -> Result<TransitReport, TransitFault> {
    let (mut reader, run) = match TransitReader::open(alloc, source) {
        Ok(opened) => opened,
        Err((fault, _)) => return Err(fault),
    };
    let mut reading = Reading::new(alloc, table, columns)?;
    read_lines(&mut reading, table, &mut reader)?;
    Ok(TransitReport {
        run,
        lines: reading.lines,
        counts: reading.counts,
        choices: reading.total.map_or(0, |total| total.choices),
        latency: reading.latency.and_then(|line| line.figures),
        links: reading.links,
        faults: reading.faults,
        silences_out: reading.out.list,
        silences_in: reading.into.list,
        start: reading.start,
    })
}
