//! The view that the page's parts share.

use crate::numbers::{MINUTE, quotient};
use crate::ranks::{LEVELS, Rank, ranks_of};
use crate::writer::{Pair, Part};
use afdx_frame::{Network, VlId};
use findings::Level;
use ledger_report::Anomaly::{self, Alone, Excess, Late, Lost, Out, TooLong};
use ledger_report::{
    BINS, CHANGES, FramePlace, LinkComparison, LinkReport, Report, WORSE, comparison_at,
};
use run_manifest::{Manifest, RecordingRecord};
use std::alloc::{AllocError, Global};
use vl_config::{Config, Link};

/// Links beyond these have no row of their own, and those in trouble beyond these no strip.
pub const ROWS: usize = 64;

pub const STRIPS: usize = 12;

/// A flight is long that takes more than an hour.
const LONG: u64 = 60 * MINUTE;

/// All signs, the reasons to discard a frame first.
pub const SIGNS: [Anomaly; 14] = [
    Anomaly::Cut,
    Anomaly::Runt,
    Anomaly::Oversize,
    Anomaly::Foreign,
    Anomaly::Unconfigured,
    TooLong,
    Excess,
    Out,
    Lost,
    Anomaly::Repeat,
    Anomaly::Reset,
    Alone,
    Late,
    Anomaly::Early,
];

/// So many of them are reasons to discard a frame, in the order of judgement,
pub const DISCARDS: usize = 8;
/// and so many after those tell of loss and redundancy.
pub const LOSSES: usize = 5;

/// The signs that count against a link.
pub const TROUBLES: [Anomaly; 6] = [TooLong, Excess, Out, Lost, Late, Alone];

/// Both networks.
pub const NETWORKS: [Network; 2] = [Network::A, Network::B];

/// Which part of a ledger a report is about, as it was asked for.
#[derive(Clone, Copy)]
pub struct Zoom<'a> {
    pub from: Option<&'a str>,
    pub to: Option<&'a str>,
    pub link: Option<&'a str>,
    pub network: Option<&'a str>,
    /// Does the ledger lack lines of frames, as `cut --ledger-only` writes it?
    pub partial: bool,
}

impl Zoom<'_> {
    /// Is the report about a part of a flight?
    pub fn is_part(&self) -> bool {
        self.is_asked() || self.partial
    }

    /// Is a part asked for?
    pub fn is_asked(&self) -> bool {
        self.from.is_some() || self.to.is_some() || self.link.is_some() || self.network.is_some()
    }
}

/// A report, and what it is shown with.
#[derive(Clone, Copy)]
pub struct Shown<'a> {
    pub report: &'a Report,
    /// The table that the ledger was judged by.
    pub config: &'a Config,
    /// Does the ledger tell the size of each frame?
    pub sizes: bool,
    /// The manifest of the ledger's run, if it is known.
    pub manifest: Option<&'a Manifest>,
    /// The report of an earlier flight, if there is one; its table, where it was judged by another one; and
    /// the path of its ledger.
    pub baseline: Option<&'a Report>,
    pub baseline_config: Option<&'a Config>,
    pub baseline_ledger: Option<&'a str>,
    /// The path of the ledger, and that of the table.
    pub ledger: &'a str,
    pub table: &'a str,
    /// The title of the page.
    pub title: &'a str,
    /// Which part of the ledger the report is about, as it was asked for.
    pub from: Option<&'a str>,
    pub to: Option<&'a str>,
    pub link: Option<&'a str>,
    pub network: Option<&'a str>,
    /// Does the ledger lack lines of frames, as `cut --ledger-only` writes it?
    pub partial: bool,
    /// The least level of the findings that it fails on, if it does.
    pub fail_on: Option<Level>,
    /// The section on a ledger of transits, in the form of what is written, if there is one.
    pub transit: Option<&'a str>,
}

/// So many bins of a network are one of a link.
const LINK_BIN: usize = 2;

/// How many bins a report uses.
fn bins_used(report: &Report) -> u64 {
    let length = report.end.saturating_sub(report.start).max(1);
    let bins = quotient(length, report.width).saturating_add(1);
    bins.min(BINS as u64)
}

/// The report with what is reckoned once for all parts.
#[derive(Drop)]
pub struct View<'a> {
    pub report: &'a Report,
    pub config: &'a Config,
    /// How many bins the page shows, and how long they are together.
    pub used: usize,
    pub span: u64,
    /// Does the ledger tell the size of each frame?
    pub sizes: bool,
    /// The links, worst first.
    pub ranks: Vec<Rank>,
    /// The report of an earlier flight.
    pub baseline: Option<&'a Report>,
    pub manifest: Option<&'a Manifest>,
    pub ledger: &'a str,
    pub table: &'a str,
    pub title: &'a str,
    pub zoom: Zoom<'a>,
    pub fail_on: Option<Level>,
    pub transit: Option<&'a str>,
}

/// The path of a recording; the name of none where it isn't known.
fn path_of<'a>(recording: Option<&'a RecordingRecord>, unknown: &'static str) -> &'a str {
    recording.map_or(unknown, |recording| recording.path.as_str())
}

/// Does a manifest have counts of what a recording's frames carry?
fn is_counted(recording: Option<&RecordingRecord>) -> bool {
    recording.is_some_and(|recording| recording.tagged.is_some())
}

impl<'a> View<'a> {
    /// The view of a report.
    ///
    /// # Errors
    ///
    /// `AllocError` if there is no memory for it.
    pub fn new(alloc: Global, shown: &Shown<'a>) -> Result<View<'a>, AllocError> {
        let Shown {
            report,
            config,
            sizes,
            manifest,
            baseline,
            baseline_config: _,
            baseline_ledger: _,
            ledger,
            table,
            title,
            from,
            to,
            link,
            network,
            partial,
            fail_on,
            transit,
        } = *shown;
        let zoom = Zoom {
            from,
            to,
            link,
            network,
            partial,
        };
        let used = bins_used(report);
        Ok(View {
            report,
            config,
            used: used as usize,
            span: used.saturating_mul(report.width),
            sizes,
            ranks: ranks_of(alloc, report)?,
            baseline,
            manifest,
            ledger,
            table,
            title,
            zoom,
            fail_on,
            transit,
        })
    }

    /// The view of the baseline's own report, if there is one.
    ///
    /// # Errors
    ///
    /// `AllocError` if there is no memory for it.
    pub fn of_baseline(alloc: Global, shown: &Shown<'a>) -> Result<Option<View<'a>>, AllocError> {
        let Some(report) = shown.baseline else {
            return Ok(None);
        };
        let own = Shown {
            report,
            config: shown.baseline_config.unwrap_or(shown.config),
            manifest: None,
            baseline: None,
            ledger: shown.baseline_ledger.unwrap_or(shown.ledger),
            ..*shown
        };
        match View::new(alloc, &own) {
            Ok(view) => Ok(Some(view)),
            Err(error) => Err(error),
        }
    }

    /// The manifest's part on the recording of network A.
    pub fn recording_a(&self) -> Option<&'a RecordingRecord> {
        self.manifest
            .and_then(|manifest| manifest.inputs.a.as_ref())
    }

    /// The same of network B.
    pub fn recording_b(&self) -> Option<&'a RecordingRecord> {
        self.manifest
            .and_then(|manifest| manifest.inputs.b.as_ref())
    }

    /// Does the manifest tell what frames carry beside what their ledger says?
    pub fn tells_traffic(&self) -> bool {
        is_counted(self.recording_a()) || is_counted(self.recording_b())
    }

    /// The paths of the recordings, or names for them.
    pub fn path_a(&self) -> &'a str {
        path_of(self.recording_a(), "a.pcap")
    }

    /// The path of the recording of network B.
    pub fn path_b(&self) -> &'a str {
        path_of(self.recording_b(), "b.pcap")
    }

    /// The timestamp of a time since the first line.
    pub fn stamp(&self, time: i64) -> u64 {
        self.report.start.saturating_add_signed(time)
    }

    /// Is the flight so long that its times need UTC too?
    pub fn is_long(&self) -> bool {
        self.report.end.saturating_sub(self.report.start) > LONG
    }

    /// A moment, so long after the first line: of a long flight in UTC too.
    fn moment(&self, since: u64) -> Part<'static> {
        if self.is_long() {
            Part::Moment(self.report.start.saturating_add(since), since)
        } else {
            Part::Since(since)
        }
    }

    /// A time since the first line.
    pub fn after_start(&self, time: i64) -> Part<'static> {
        self.moment(u64::try_from(time).unwrap_or(0))
    }

    /// How long the flight is.
    pub fn length(&self) -> Part<'static> {
        Part::Duration(self.report.end.saturating_sub(self.report.start))
    }

    /// The place of a link in the table.
    fn index_of(&self, id: VlId) -> Option<usize> {
        let links = self.config.links();
        links.binary_search_by_key(&id.0, |link| link.id.0).ok()
    }

    /// The name of a link.
    pub fn name_of(&self, id: VlId) -> Option<&'a str> {
        let link = self.config.links().get(self.index_of(id)?)?;
        Some(link.name.as_str())
    }

    /// Has a link a strip?
    pub fn has_strip_of(&self, id: VlId) -> bool {
        let index = self.index_of(id);
        let place = self
            .ranks
            .iter()
            .take(STRIPS)
            .position(|rank| Some(rank.index) == index);
        let rank = place.and_then(|place| self.ranks.get(place).map(|rank| has_strip(rank, place)));
        rank.unwrap_or(false)
    }

    /// How many frames each filter accepted: that of `--filter`, and those of the table.
    pub fn filters(&self) -> &'a [u64] {
        let accepted = self.report.counted().filters();
        let filters = self.config.filters().len().saturating_add(1);
        &accepted[..filters.min(accepted.len())]
    }

    /// The counts of a sign on both networks.
    pub fn total(&self, sign: Anomaly) -> Pair {
        let (a, b) = (&self.report.networks.a, &self.report.networks.b);
        Pair(a.signs.of(sign).count, b.signs.of(sign).count)
    }

    /// The time from the first line to a timestamp.
    pub fn since(&self, stamp: u64) -> Part<'static> {
        self.moment(stamp.saturating_sub(self.report.start))
    }

    /// A link's report and its configuration.
    pub fn link(&self, index: usize) -> Option<(&'a LinkReport, &'a Link)> {
        let link = self.report.links.get(index);
        link.zip(self.config.links().get(index))
    }

    /// How many links have a level.
    pub fn count_of(&self, level: Level) -> u64 {
        let ranks = self.ranks.iter().filter(|rank| rank.level == level);
        ranks.count() as u64
    }

    /// How many links there are, and how many are in trouble, of notice, silent and clean.
    pub fn levels(&self) -> [Part<'static>; 5] {
        let [trouble, notice, silent, clean] = LEVELS;
        [
            Part::Number(self.ranks.len() as u64),
            Part::Number(self.count_of(trouble)),
            Part::Number(self.count_of(notice)),
            Part::Number(self.count_of(silent)),
            Part::Number(self.count_of(clean)),
        ]
    }

    /// A link's numbers beside those of the baseline, if there is one, and its configuration.
    pub fn compared(&self, index: usize) -> Option<(LinkComparison, &'a Link)> {
        let compared = comparison_at(self.report, self.baseline?, index);
        compared.zip(self.config.links().get(index))
    }

    /// Is a link otherwise than in the baseline, and not worse?
    pub fn is_changed(&self, index: usize) -> bool {
        let compared = self.compared(index);
        let changed = |link: LinkComparison| CHANGES.iter().any(|how| link.is_changed(*how));
        !self.is_worse(index) && compared.is_some_and(|(link, _)| changed(link))
    }

    /// How many links are otherwise than in the baseline, and not worse.
    pub fn changed_links(&self) -> usize {
        let changed = self.ranks.iter().filter(|rank| self.is_changed(rank.index));
        changed.count()
    }

    /// Did a link get worse since the baseline?
    pub fn is_worse(&self, index: usize) -> bool {
        let compared = self.compared(index);
        compared.is_some_and(|(link, _)| WORSE.iter().any(|how| link.is_worse(*how)))
    }

    /// How many links got worse since the baseline.
    pub fn worse_links(&self) -> usize {
        let worse = self.ranks.iter().filter(|rank| self.is_worse(rank.index));
        worse.count()
    }

    /// How long a column of so many bins is.
    pub fn long(&self, per: usize) -> u64 {
        self.report.width.saturating_mul(per as u64)
    }

    /// How many bins make a column of a link's strip: the least power of two that is at least four BAG long,
    /// and no less than one of the link's own bins.
    pub fn column(&self, link: &LinkReport) -> usize {
        let mut column = LINK_BIN;
        for _ in 0..8 {
            let few = quotient(self.used as u64, column.saturating_mul(2) as u64) < 30;
            if few || self.long(column) >= link.bag.saturating_mul(4) {
                break;
            }
            column = column.saturating_mul(2);
        }
        column
    }
}

/// The counts of a link's sign on both networks.
pub fn counts_of(link: &LinkReport, sign: Anomaly) -> Pair {
    let (a, b) = (&link.lanes.a.signs, &link.lanes.b.signs);
    Pair(a.of(sign).count, b.of(sign).count)
}

/// The greatest skew of a link's copies, late ones too.
pub fn greatest_skew(link: &LinkReport) -> u64 {
    link.skew_greatest.max(link.late_greatest)
}

/// The word for so many links.
pub fn links_word(count: u64) -> Part<'static> {
    Part::Text(if count == 1 { "link" } else { "links" })
}

/// Does the link at this place of the order have a strip?
pub fn has_strip(rank: &Rank, at: usize) -> bool {
    rank.level == Level::Trouble && at < STRIPS
}

/// The network and the place of a link's first frame of a sign.
pub fn first_of(link: &LinkReport, sign: Anomaly) -> Option<(Network, FramePlace)> {
    let (a, b) = (&link.lanes.a.signs, &link.lanes.b.signs);
    match (a.of(sign).first, b.of(sign).first) {
        (Some(a), Some(b)) if b.stamp < a.stamp => Some((Network::B, b)),
        (Some(a), _) => Some((Network::A, a)),
        (None, first) => first.map(|b| (Network::B, b)),
    }
}

/// The network, the time and the number of a frame, if there is one; else the first is blank.
pub fn first_parts(view: &View<'_>, first: Option<(Network, FramePlace)>) -> [Part<'static>; 3] {
    let Some((network, place)) = first else {
        return [Part::Text(""); 3];
    };
    let number = Part::Grouped(u64::from(place.number));
    [Part::Letter(network), view.since(place.stamp), number]
}
