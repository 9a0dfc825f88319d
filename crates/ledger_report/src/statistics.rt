//! The statistics of a ledger: what each line adds to the numbers of its network and its link.

use crate::accounts::Accounts;
use crate::anomalies::Anomaly;
use crate::bounds::{BINS, FIRST_WIDTH};
use crate::counts_lines::{TapEnd, TapEnding};
use crate::frame_lines::FrameLines;
use crate::link::LinkReport;
use crate::moment::{FramePlace, LinePlace};
use crate::network::NetworkReport;
use crate::part::Part;
use crate::report::OutsideLink;
use crate::series::doublings_for;
use afdx_frame::{Network, VL_ID_COUNT, VlId};
use findings::{Analysis, Findings, Line, Noted, PerNetwork, RecorderFacts, RecordingEnd, Word};
use integrity::Integrity;
use ledger_text::FrameLine;
use std::alloc::{AllocError, Global};
use vl_config::{Class, Config};

/// No link of the table.
const NO_LINK: u16 = u16::MAX;

/// The rule by which a line's frame is discarded: its class, policing or integrity checking.
#[inline]
pub fn rule_of(line: &FrameLine) -> Option<Anomaly> {
    let verdict = &line.verdict;
    match verdict.class {
        Class::Cut => Some(Anomaly::Cut),
        Class::Runt => Some(Anomaly::Runt),
        Class::Oversize => Some(Anomaly::Oversize),
        Class::Foreign => Some(Anomaly::Foreign),
        Class::Unconfigured => Some(Anomaly::Unconfigured),
        Class::TooLong => Some(Anomaly::TooLong),
        Class::Regular if verdict.is_excess() => Some(Anomaly::Excess),
        Class::Regular if verdict.is_out() => Some(Anomaly::Out),
        Class::Regular => None,
    }
}

/// How many bytes a line's frame has: its length on the wire, or in version 2 those that the capture holds.
#[inline]
pub fn size_of(line: &FrameLine) -> Option<u32> {
    line.length.or(line.kept)
}

/// The numbers so far.
#[derive(Drop)]
pub struct Statistics {
    /// The timestamp of the first line, and the width of a bin.
    pub start: u64,
    pub width: u64,
    /// The timestamp of the latest line.
    latest: Option<u64>,
    /// Do the lines have the lengths of frames on the wire?
    pub has_lengths: bool,
    pub networks: PerNetwork<NetworkReport>,
    pub links: Vec<LinkReport>,
    /// By identifier, the index of the link.
    index: Vec<u16>,
    /// By identifier, the frames of a link outside the table; none where there is no such frame.
    pub outside: Vec<OutsideLink>,
    analysis: Analysis,
    /// The accounts of policing, as far as all lines tell them.
    pub(crate) accounts: Accounts,
    /// Which lines are noted, where not all are.
    pub part: Option<Part>,
    /// The findings, once the ledger has ended.
    pub findings: Findings,
}

/// The line of a frame, as the findings take it.
#[inline]
fn line_of(line: &FrameLine) -> Line {
    let verdict = &line.verdict;
    Line {
        network: line.network,
        stamp: line.stamp.0,
        class: verdict.class,
        link: line.link,
        number: line.sequence.unwrap_or(0),
        excess: verdict.is_excess(),
        reset: verdict.integrity == Some(Integrity::Reset),
        out: verdict.is_out(),
        delivered: verdict.is_delivered(),
    }
}

/// Is a recording read to its end, as far as the ledger says?
fn end_of(ending: &Option<TapEnding>) -> RecordingEnd {
    match ending {
        Some(
            TapEnding {
                end: TapEnd::Cut | TapEnd::Bad,
                ..
            },
        ) => RecordingEnd::Broken,
        _ => RecordingEnd::Whole,
    }
}

/// By identifier, the index of a table's link.
fn index_of(alloc: Global, config: &Config) -> Result<Vec<u16>, AllocError> {
    let mut index = vec![in alloc; NO_LINK; VL_ID_COUNT]?;
    let links = config.links();
    for (place, link) in links.iter().enumerate() {
        if let Some(held) = index.get_mut(usize::from(link.id.0)) {
            *held = place.min(usize::from(NO_LINK)) as u16;
        }
    }
    Ok(index)
}

/// A report of no line for each link.
fn links_of(alloc: Global, config: &Config) -> Result<Vec<LinkReport>, AllocError> {
    let mut links = Vec::with_capacity(alloc, config.links().len())?;
    for link in config.links() {
        links.push(LinkReport::new(alloc, link))?;
    }
    Ok(links)
}

/// Notes a line for its network.
#[inline]
fn note_on(own: &mut NetworkReport, line: &FrameLine, at: &LinePlace) -> Result<(), AllocError> {
    own.note(at, size_of(line))?;
    match rule_of(line) {
        Some(rule) => own.signs.hit(rule, at, 1),
        None => Ok(()),
    }
}

/// A sign of links that is shown by time.
fn anomaly_of(word: Word) -> Option<Anomaly> {
    match word {
        Word::Lost => Some(Anomaly::Lost),
        Word::Repeat => Some(Anomaly::Repeat),
        Word::Reset => Some(Anomaly::Reset),
        Word::Alone => Some(Anomaly::Alone),
        Word::Late => Some(Anomaly::Late),
        Word::Early => Some(Anomaly::Early),
        _ => None,
    }
}

/// Notes a sign of a link, where it is shown by time, at the latest line of its network by then.
fn note_sign(
    link: &mut LinkReport,
    networks: &mut PerNetwork<NetworkReport>,
    start: u64,
    noted: &Noted,
) -> Result<(), AllocError> {
    let Some(network) = noted.sign.network else {
        if noted.sign.word == Word::Both {
            link.note_both(noted.count);
        }
        return Ok(());
    };
    let Some(anomaly) = anomaly_of(noted.sign.word) else {
        return Ok(());
    };
    let own = networks.of_mut(network);
    let place = FramePlace {
        stamp: start.saturating_add(noted.at),
        number: own.number,
    };
    let at = LinePlace::of(network, place, start);
    own.signs.note(anomaly, &at, noted.count)?;
    link.lanes
        .of_mut(network)
        .signs
        .note(anomaly, &at, noted.count)
}

impl Statistics {
    pub(crate) fn new(
        alloc: Global,
        config: &Config,
        part: Option<Part>,
        recorders: PerNetwork<RecorderFacts>,
    ) -> Result<Statistics, AllocError> {
        Ok(Statistics {
            start: 0,
            width: FIRST_WIDTH,
            latest: None,
            has_lengths: false,
            networks: PerNetwork {
                a: NetworkReport::new(alloc),
                b: NetworkReport::new(alloc),
            },
            links: links_of(alloc, config)?,
            index: index_of(alloc, config)?,
            outside: Vec::new(alloc),
            analysis: Analysis::new(alloc, config, recorders)?,
            accounts: Accounts::new(alloc, config)?,
            part,
            findings: Findings::none(alloc),
        })
    }

    /// The timestamp of the latest line, or of none.
    pub(crate) fn end_stamp(&self) -> u64 {
        self.latest.unwrap_or(self.start)
    }

    /// Notes the ledger's next line of a frame, of which nothing is wrong, among the lines so far, if it is
    /// taken.
    pub(crate) fn note(&mut self, line: &FrameLine, lines: &FrameLines) -> Result<(), AllocError> {
        let place = line.link.map_or(usize::MAX, |id| self.place_of(id));
        self.accounts.note(line, place);
        self.has_lengths = line.length.is_some();
        let takes = match &mut self.part {
            Some(part) => part.takes(line),
            None => true,
        };
        if takes {
            self.note_taken(line, place, lines)
        } else {
            Ok(())
        }
    }

    /// Notes a line, whose link stands at this place in the table.
    fn note_taken(
        &mut self,
        line: &FrameLine,
        place: usize,
        lines: &FrameLines,
    ) -> Result<(), AllocError> {
        let frame = FramePlace {
            stamp: line.stamp.0,
            number: line.number,
        };
        if self.latest.replace(frame.stamp).is_none() {
            self.start = frame.stamp;
        }
        let at = LinePlace::of(line.network, frame, self.start);
        note_on(self.networks.of_mut(at.network), line, &at)?;
        self.analysis.note(&line_of(line))?;
        match line.link {
            Some(id) => self.note_link(line, (id, place), &at, lines),
            None => Ok(()),
        }
    }

    /// The place of a link in the table. More than there are: the table lacks it.
    #[inline]
    fn place_of(&self, id: VlId) -> usize {
        let place = self.index.get(usize::from(id.0));
        place.map_or(usize::MAX, |place| usize::from(*place))
    }

    /// Notes the line of a link.
    #[inline]
    fn note_link(
        &mut self,
        line: &FrameLine,
        (id, place): (VlId, usize),
        at: &LinePlace,
        lines: &FrameLines,
    ) -> Result<(), AllocError> {
        let Some(link) = self.links.get_mut(place) else {
            return self.note_outside(id, at);
        };
        if let Some(skew) = link.note(line, at, lines.delivery_of(line))? {
            self.networks.of_mut(at.network).skews.put(at.tick, skew)?;
        }
        for noted in self.analysis.noted() {
            note_sign(link, &mut self.networks, self.start, noted)?;
        }
        Ok(())
    }

    /// Notes a frame of a link outside the table.
    fn note_outside(&mut self, id: VlId, at: &LinePlace) -> Result<(), AllocError> {
        if self.outside.is_empty() {
            self.outside.resize(VL_ID_COUNT, OutsideLink::none())?;
        }
        if let Some(held) = self.outside.get_mut(usize::from(id.0)) {
            held.count(at);
        }
        Ok(())
    }

    /// Settles what is left once the ledger has ended, and has all bins as wide as they need to be for its
    /// last line.
    pub(crate) fn end(
        &mut self,
        endings: &PerNetwork<Option<TapEnding>>,
    ) -> Result<(), AllocError> {
        self.findings = self.analysis.end(end_of(&endings.a), end_of(&endings.b))?;
        for noted in self.analysis.noted() {
            if let Some(link) = self.links.get_mut(noted.link) {
                note_sign(link, &mut self.networks, self.start, noted)?;
            }
        }
        let last = self.end_stamp().saturating_sub(self.start) / FIRST_WIDTH;
        let doublings = doublings_for(last, BINS);
        let networks = &mut self.networks;
        self.width = FIRST_WIDTH.saturating_mul(2u64.saturating_pow(doublings));
        networks.a.align(doublings);
        networks.b.align(doublings);
        for (link, level) in self.links.iter_mut().zip(self.findings.levels.iter()) {
            link.late_greatest = level.late_skew;
        }
        for link in self.links.iter_mut() {
            link.end();
            // A link has half as many bins as a network.
            link.align(doublings.saturating_add(1));
        }
        Ok(())
    }
}
