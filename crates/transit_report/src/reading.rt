//! A ledger that is being read: the numbers of the lines so far.

use crate::columns::TimeColumns;
use crate::fault_report::FaultReport;
use crate::link::{LinkTransits, Transits};
use crate::silence::Silences;
use afdx_frame::{Network, VL_ID_COUNT, VlId};
use std::alloc::{AllocError, Global};
use transit_ledger::{
    LatencyLine, LineFault, LinkLine, Outcome, OutcomeCounts, TapLine, TotalLine, TransitLine,
    name_in,
};
use vl_config::{Class, Config};

/// Why a line isn't taken.
#[derive(Clone, Copy, PartialEq, Eq)]
pub(crate) enum Refusal {
    Wrong(LineFault),
    Memory,
}

impl From<AllocError> for Refusal {
    fn from(_error: AllocError) -> Refusal {
        Refusal::Memory
    }
}

/// The counts aren't those of the lines before.
const OTHER_COUNTS: Refusal = Refusal::Wrong(LineFault::Counts);

/// The numbers of the lines so far.
#[derive(Drop)]
pub(crate) struct Reading {
    columns: TimeColumns,
    /// The frames that hold no link, those of the table's links in its order, and those of other links in the
    /// order in which they are met.
    pub(crate) links: Vec<LinkTransits>,
    /// The place of each identifier's link. 0: it has none.
    index: Vec<u32>,
    pub(crate) lines: u64,
    pub(crate) counts: OutcomeCounts,
    transits: Transits,
    pub(crate) latency: Option<LatencyLine>,
    pub(crate) total: Option<TotalLine>,
    /// A report for each fault, in the order in which they are told.
    pub(crate) faults: Vec<FaultReport>,
    /// The times in which nothing came out, and in which nothing was seen to go in.
    pub(crate) out: Silences,
    pub(crate) into: Silences,
    /// When the first frame of either recording came.
    pub(crate) start: Option<u64>,
    /// How many lines of links were read.
    told: usize,
}

fn links_of(alloc: Global, table: &Config) -> Result<Vec<LinkTransits>, AllocError> {
    let mut links = Vec::with_capacity(alloc, table.links().len().saturating_add(1))?;
    links.push(LinkTransits::new(None))?;
    for link in table.links() {
        links.push(LinkTransits::new(Some(link.id)))?;
    }
    Ok(links)
}

fn index_of(alloc: Global, table: &Config) -> Result<Vec<u32>, AllocError> {
    let mut index = vec![in alloc; 0; VL_ID_COUNT]?;
    for (link, place) in table.links().iter().zip(1..u32::MAX) {
        if let Some(entry) = index.get_mut(usize::from(link.id.0)) {
            *entry = place;
        }
    }
    Ok(index)
}

fn faults_of(alloc: Global) -> Result<Vec<FaultReport>, AllocError> {
    let mut faults = Vec::with_capacity(alloc, Outcome::FAULTS.len())?;
    for fault in Outcome::FAULTS {
        faults.push(FaultReport::new(alloc, fault))?;
    }
    Ok(faults)
}

/// The lesser of two moments.
fn earlier(one: Option<u64>, other: u64) -> Option<u64> {
    Some(one.unwrap_or(other).min(other))
}

impl Reading {
    /// No line was read.
    pub(crate) fn new(
        alloc: Global,
        table: &Config,
        columns: TimeColumns,
    ) -> Result<Reading, AllocError> {
        Ok(Reading {
            columns,
            links: links_of(alloc, table)?,
            index: index_of(alloc, table)?,
            lines: 0,
            counts: OutcomeCounts::new(),
            transits: Transits::new(),
            latency: None,
            total: None,
            faults: faults_of(alloc)?,
            out: Silences::new(alloc),
            into: Silences::new(alloc),
            start: None,
            told: 0,
        })
    }

    fn place_of(&self, link: Option<VlId>) -> usize {
        match link {
            Some(id) => match self.index.get(usize::from(id.0)) {
                Some(place) => *place as usize,
                None => 0,
            },
            None => 0,
        }
    }

    /// Refuses a class that says otherwise than the table whether that has the link.
    fn check_class(&self, table: &Config, line: &TransitLine) -> Result<(), Refusal> {
        let place = self.place_of(line.link);
        let is_listed = place > 0 && place <= table.links().len();
        let is_right = match line.class {
            Class::Regular | Class::TooLong => is_listed,
            Class::Unconfigured => !is_listed,
            Class::Cut | Class::Runt | Class::Oversize | Class::Foreign => true,
        };
        if is_right {
            Ok(())
        } else {
            Err(Refusal::Wrong(LineFault::Link))
        }
    }

    /// Makes room for a link that the table lacks, where it has none.
    fn add_link(&mut self, line: &TransitLine) -> Result<(), AllocError> {
        let Some(id) = line.link else {
            return Ok(());
        };
        if self.place_of(line.link) > 0 {
            return Ok(());
        }
        let place = u32::try_from(self.links.len()).unwrap_or(0);
        self.links.push(LinkTransits::new(Some(id)))?;
        if let Some(entry) = self.index.get_mut(usize::from(id.0)) {
            *entry = place;
        }
        Ok(())
    }

    /// Takes the line of a frame.
    pub(crate) fn take_frame(&mut self, table: &Config, line: &TransitLine) -> Result<(), Refusal> {
        self.check_class(table, line)?;
        self.add_link(line)?;
        self.lines = self.lines.saturating_add(1);
        self.counts.count(line);
        self.transits.add(line);
        let place = self.place_of(line.link);
        if let Some(link) = self.links.get_mut(place) {
            link.count(line);
        }
        self.note_start(line);
        self.note_row(line, place)?;
        self.note_fault(line)?;
        Ok(())
    }

    /// The first frame of either recording: the partner of a frame may have come before it.
    fn note_start(&mut self, line: &TransitLine) {
        let came_out = line.time.saturating_add_signed(line.latency.unwrap_or(0));
        self.start = earlier(earlier(self.start, line.time), came_out);
    }

    /// Counts a frame in the row of those that the other recording lacks, or ends the rows.
    fn note_row(&mut self, line: &TransitLine, place: usize) -> Result<(), AllocError> {
        if line.outcome.is_paired() {
            return self.end_rows();
        }
        let Some(link) = self.links.get_mut(place) else {
            return Ok(());
        };
        match line.outcome {
            Outcome::Dropped => self.out.note(line.time, &mut link.dropped_row),
            Outcome::New => self.into.note(line.time, &mut link.new_row),
            _ => {}
        }
        Ok(())
    }

    fn end_rows(&mut self) -> Result<(), AllocError> {
        self.out.end()?;
        self.into.end()
    }

    fn note_fault(&mut self, line: &TransitLine) -> Result<(), AllocError> {
        let start = self.start.unwrap_or(line.time);
        let columns = self.columns;
        let place = Outcome::FAULTS
            .iter()
            .position(|fault| *fault == line.outcome);
        let Some(place) = place else {
            return Ok(());
        };
        match self.faults.get_mut(place) {
            Some(fault) => fault.note(line, start, columns),
            None => Ok(()),
        }
    }

    /// Takes the counts of the table's next link. `text` is the line.
    pub(crate) fn take_link(
        &mut self,
        table: &Config,
        line: &LinkLine,
        text: &[u8],
    ) -> Result<(), Refusal> {
        let Some(link) = table.links().get(self.told) else {
            return Err(OTHER_COUNTS);
        };
        self.told = self.told.saturating_add(1);
        let counts = match self.links.get(self.told) {
            Some(own) => own.counts,
            None => return Err(OTHER_COUNTS),
        };
        let is_named = name_in(text) == Some(link.name.as_bytes());
        if link.id == line.id && is_named && counts.is_as(&line.counts) {
            Ok(())
        } else {
            Err(OTHER_COUNTS)
        }
    }

    /// Takes how long the frames of the link took whose counts stand before, or all frames.
    pub(crate) fn take_latency(
        &mut self,
        table: &Config,
        line: &LatencyLine,
    ) -> Result<(), Refusal> {
        if line.link.is_none() {
            self.latency = Some(*line);
            self.end_rows()?;
            return self.expect(self.told == table.links().len() && self.transits.is_as(line));
        }
        match self.links.get_mut(self.told) {
            Some(link) if link.transits.is_as(line) => {
                link.latency = line.figures;
                Ok(())
            }
            _ => Err(OTHER_COUNTS),
        }
    }

    /// Takes how a recording ended.
    pub(crate) fn take_tap(&mut self, line: &TapLine) -> Result<(), Refusal> {
        self.expect(
            line.frames
                == match line.side {
                    Network::A => self.counts.before,
                    Network::B => self.counts.after,
                },
        )
    }

    /// Takes the counts of all frames.
    pub(crate) fn take_total(&mut self, line: &TotalLine) -> Result<(), Refusal> {
        self.total = Some(*line);
        self.expect(self.lines == line.lines && self.counts.is_as(&line.counts))
    }

    fn expect(&self, holds: bool) -> Result<(), Refusal> {
        if holds { Ok(()) } else { Err(OTHER_COUNTS) }
    }
}
