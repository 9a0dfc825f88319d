//! From accounts to findings: which links have one in common, how bad it is, and in which order they stand.
use crate::accounts::{Facts, Handle, NO_FACTS, SPANS, Span};
use crate::analysis::RecordingEnd;
use crate::finding::{Finding, Findings, LinkLevel, LinkRate};
use crate::flight::Flight;
use crate::kind::{Kind, Level};
use crate::link::LinkState;
use crate::long::{Long, SECOND, Time, ZERO};
use crate::signs::{Side, Sign, Signs, Word};
use afdx_frame::{Network, VlId};
use std::alloc::{AllocError, Global};
use std::mem;

/// From so many links on, one finding has all.
pub const MANY: usize = 5;

/// From so many on, where it is a cause of a link alone.
const MANY_ALONE: usize = 12;

/// Scattered signs are trouble from so many on, and from one in so many frames.
const SIGNS: u64 = 3;

const SHARE: u64 = 1000;

const NETWORKS: [Network; 2] = [Network::A, Network::B];

/// Kinds without a link, by network.
const OF_NETWORKS: [Kind; 5] = [
    Kind::Cut,
    Kind::Runt,
    Kind::Oversize,
    Kind::Foreign,
    Kind::Unconfigured,
];

/// Kinds that links have in common.
const IN_COMMON: [Kind; 13] = [
    Kind::Silence,
    Kind::ClockStep,
    Kind::SkewStep,
    Kind::Drift,
    Kind::Coarse,
    Kind::Absent,
    Kind::StartsLateOn,
    Kind::StopsOn,
    Kind::Outage,
    Kind::Stops,
    Kind::StartsLate,
    Kind::Reset,
    Kind::SkewMoves,
];

/// A link's own account that becomes a finding.
#[derive(Clone, Copy)]
struct Row {
    kind: Kind,
    side: Side,
    link: usize,
    account: Handle,
}

/// The sum of several accounts.
#[derive(Drop)]
struct Sum {
    signs: Signs,
    span: Option<Span>,
    facts: Facts,
    times: u64,
    frames: u64,
}

/// The findings so far.
#[derive(Drop)]
struct Telling<'a> {
    alloc: Global,
    flight: &'a mut Flight,
    links: &'a [LinkState],
    end: Time,
    all: Vec<Finding>,
}

/// Are there so many signs that a link is in trouble?
fn scattered(signs: u64, frames: u64) -> Level {
    if signs >= SIGNS && signs.saturating_mul(SHARE) >= frames {
        Level::Trouble
    } else {
        Level::Notice
    }
}

/// How many there are of which signs, and how bad that is, of a link's own finding.
fn weight(kind: Kind, sum: &Sum, links: u64) -> (u64, Level) {
    let count = |word| sum.signs.sum(word);
    let close = count(Word::Early).saturating_add(count(Word::Excess));
    let numbers = count(Word::Repeat).saturating_add(count(Word::Stray));
    let missing = count(Word::Lost);
    match kind {
        Kind::Lost if missing == 0 => (
            count(Word::Alone),
            scattered(count(Word::Alone), sum.frames),
        ),
        Kind::Lost => (missing, scattered(missing, sum.frames)),
        Kind::Absent => (missing, Level::Trouble),
        Kind::StopsOn | Kind::NeverOn => (count(Word::Alone), Level::Trouble),
        Kind::StartsLateOn => (count(Word::Alone), Level::Notice),
        Kind::Never => (links, Level::Silent),
        Kind::Stops => (links, Level::Trouble),
        Kind::StartsLate => (links, Level::Notice),
        Kind::Outage => (count(Word::Outage), Level::Trouble),
        Kind::Rate => (count(Word::Rate), Level::Notice),
        Kind::Bag => (close, Level::Trouble),
        Kind::Bunched if count(Word::Excess) > 0 => (close, Level::Trouble),
        Kind::Bunched => (close, Level::Notice),
        Kind::TooLong => (count(Word::TooLong), Level::Trouble),
        Kind::Reset => (resets(&sum.signs), Level::Notice),
        Kind::Stray | Kind::Old if missing > 0 && missing == numbers => (
            missing,
            scattered(missing, sum.frames),
        ),
        Kind::Stray => (
            count(Word::Stray),
            scattered(count(Word::Stray), sum.frames),
        ),
        Kind::Old | Kind::Twice => (count(Word::Repeat), Level::Notice),
        Kind::Stuck | Kind::NoNumber => (numbers, Level::Trouble),
        Kind::Late => (count(Word::Late), scattered(count(Word::Late), sum.frames)),
        Kind::Apart => (1, Level::Trouble),
        Kind::Skipped => (count(Word::Skipped), Level::Notice),
        Kind::Reordered => (count(Word::Reordered), Level::Notice),
        Kind::SkewMoves => (count(Word::Moved), Level::Notice),
        Kind::Jump => (count(Word::Jump), Level::Notice),
        Kind::Out => (count(Word::Out), Level::Notice),
        _ => (sum.total(), Level::Notice),
    }
}

/// How often numbers begin anew: each time on both networks, or on one.
fn resets(signs: &Signs) -> u64 {
    let on = |network| signs.count(Sign::on(Word::Reset, network));
    on(Network::A).max(on(Network::B))
}

impl Sum {
    fn none(alloc: Global) -> Sum {
        Sum {
            signs: Signs::none(alloc),
            span: None,
            facts: NO_FACTS,
            times: 0,
            frames: 0,
        }
    }

    fn total(&self) -> u64 {
        let mut total = 0u64;
        for one in self.signs.all() {
            total = total.saturating_add(one.count);
        }
        total
    }

    /// Adds an account.
    fn add(&mut self, flight: &Flight, account: Handle) -> Result<(), AllocError> {
        let Some(held) = flight.accounts.get(account) else {
            return Ok(());
        };
        self.signs.add_all(&held.signs)?;
        self.span = match (self.span, held.span) {
            (Some(span), Some(more)) => Some(span.with(more)),
            (span, more) => span.or(more),
        };
        self.facts.add(&held.facts);
        if self.facts.size == ZERO {
            self.facts.size = held.facts.size;
        }
        self.times = self.times.saturating_add(held.parts.max(1));
        Ok(())
    }
}

impl Telling<'_> {
    // ---- one finding

    /// Adds a finding of these links.
    fn push(
        &mut self,
        (kind, level, side): (Kind, Level, Side),
        sum: Sum,
        count: u64,
        places: &[usize],
    ) -> Result<(), AllocError> {
        let mut links = Vec::with_capacity(self.alloc, places.len())?;
        for link in places.iter().filter_map(|place| self.links.get(*place)) {
            links.push(VlId(link.id))?;
        }
        links.as_mut_slice().sort_unstable_by_key(|id| id.0);
        let first = places.first().and_then(|place| self.links.get(*place));
        let rate = first.map(|link| self.rate(link));
        self.all.push(Finding {
            kind,
            level,
            side,
            of_links: links.len() as u64,
            links,
            span: sum.span.unwrap_or(Span {
                from: ZERO,
                to: ZERO,
            }),
            count,
            signs: sum.signs,
            facts: sum.facts,
            times: sum.times,
            spans: Vec::new(self.alloc),
            frames: sum.frames,
            rate,
            together: false,
            anew: false,
            is_rest: false,
        })?;
        Ok(())
    }

    /// The rate of a link for a finding.
    fn rate(&self, link: &LinkState) -> LinkRate {
        let state = self.flight.skews.get(link.place);
        LinkRate {
            bag: link.bag.count(),
            jitter: link.jitter.count(),
            skew_max: link.skew_max.count(),
            interval: link.rate.interval.map(|interval| interval.count()),
            longest: link.rate.longest.count(),
            first_number: if link.a.begun {
                link.a.first_number
            } else {
                link.b.first_number
            },
            wraps: link.wraps,
            skew: state.and_then(|state| state.usual).map(|usual| usual.0),
        }
    }

    /// The latest finding, to be added to.
    fn latest(&mut self) -> Option<&mut Finding> {
        self.all.last_mut()
    }

    // ---- networks

    /// How a recording begins and ends, and its frames without a link.
    fn network(&mut self, network: Network, ending: RecordingEnd) -> Result<(), AllocError> {
        if ending == RecordingEnd::Broken {
            self.broken(network)?;
        }
        let Some(first) = self.flight.networks.of(network).first else {
            return self.no_frames(network);
        };
        let last = self.flight.networks.of(network).last.unwrap_or(first);
        let end = self.end;
        self.edge(
            Kind::Begins,
            network,
            Span {
                from: ZERO,
                to: first,
            },
        )?;
        self.edge(
            Kind::Ends,
            network,
            Span {
                from: last,
                to: end,
            },
        )?;
        self.torn(network)?;
        self.recorder(network)?;
        self.crossed(network)?;
        let lines = self.flight.networks.of(network).lines;
        for kind in OF_NETWORKS {
            self.class(kind, network, lines)?;
        }
        Ok(())
    }

    /// The sum of one of a network's own accounts.
    fn sum_of(&mut self, account: Handle) -> Result<Sum, AllocError> {
        let mut sum = Sum::none(self.alloc);
        sum.add(self.flight, account)?;
        Ok(sum)
    }

    /// A recording that isn't read on: what it lacks to the end is by that.
    fn broken(&mut self, network: Network) -> Result<(), AllocError> {
        let last = self.flight.networks.of(network).last.unwrap_or(ZERO);
        let account = match self.flight.accounts.release_of_network(Kind::Ends, network) {
            Some(account) => account,
            None => self
                .flight
                .accounts
                .open(Kind::Broken, None, Side::of(network))?,
        };
        self.flight
            .accounts
            .hit(account, Sign::on(Word::Ending, network), last)?;
        let mut sum = self.sum_of(account)?;
        let end = self.end;
        sum.span = Some(Span {
            from: last,
            to: end,
        });
        self.push(
            (Kind::Broken, Level::Trouble, Side::of(network)),
            sum,
            1,
            &[],
        )
    }

    /// A recording without a frame, where the other one has some.
    fn no_frames(&mut self, network: Network) -> Result<(), AllocError> {
        let account = self.flight.accounts.of_network(Kind::NoFrames, network)?;
        self.flight
            .accounts
            .hit(account, Sign::of(Word::NoFrames), ZERO)?;
        let mut sum = self.sum_of(account)?;
        let end = self.end;
        sum.span = Some(Span {
            from: ZERO,
            to: end,
        });
        self.push(
            (Kind::NoFrames, Level::Info, Side::of(network)),
            sum,
            1,
            &[],
        )
    }

    /// A recording that begins after the other, or ends before it.
    fn edge(&mut self, kind: Kind, network: Network, span: Span) -> Result<(), AllocError> {
        let Some(account) = self.flight.accounts.find_of_network(kind, network) else {
            return Ok(());
        };
        let mut sum = self.sum_of(account)?;
        let count = sum.signs.sum(Word::Unrecorded);
        if sum.total() == 0 {
            return Ok(());
        }
        sum.span = Some(span);
        let level = if span.length() >= SECOND {
            Level::Notice
        } else {
            Level::Info
        };
        self.push((kind, level, Side::of(network)), sum, count, &[])
    }

    /// The times that a recording lacks, since files of it are torn.
    fn torn(&mut self, network: Network) -> Result<(), AllocError> {
        let holes = &self.flight.networks.of(network).recorder.holes;
        let (Some(first), Some(last)) = (holes.first().copied(), holes.last().copied()) else {
            return Ok(());
        };
        let times = holes.len() as u64;
        let mut spans = Vec::new(self.alloc);
        for hole in holes.iter().take(SPANS) {
            spans.push(hole.span())?;
        }
        let account = self.flight.accounts.of_network(Kind::Torn, network)?;
        let mut sum = self.sum_of(account)?;
        let count = sum.signs.sum(Word::Unrecorded);
        sum.span = Some(first.span().with(last.span()));
        let kind = (Kind::Torn, Level::Notice, Side::of(network));
        self.push(kind, sum, count, &[])?;
        if let Some(finding) = self.latest() {
            finding.times = times;
            finding.spans = spans;
        }
        Ok(())
    }

    /// The packets that a recorder dropped, and the frames of it that have a tag.
    fn recorder(&mut self, network: Network) -> Result<(), AllocError> {
        let recorder = &self.flight.networks.of(network).recorder;
        let counts = [
            (Kind::Dropped, recorder.dropped),
            (Kind::Tagged, recorder.tagged),
        ];
        for (kind, count) in counts {
            if count > 0 {
                let mut sum = Sum::none(self.alloc);
                let (from, to) = (ZERO, self.end);
                sum.span = Some(Span { from, to });
                self.push((kind, Level::Notice, Side::of(network)), sum, count, &[])?;
            }
        }
        Ok(())
    }

    /// The links whose source addresses name the other network.
    fn crossed(&mut self, network: Network) -> Result<(), AllocError> {
        let mut sum = Sum::none(self.alloc);
        let mut places = Vec::new(self.alloc);
        let mut count = 0u64;
        for crossing in self.flight.networks.of(network).recorder.crossed.iter() {
            let id = crossing.link.0;
            let place = self.links.iter().position(|link| link.id == id);
            if let Some(place) = place {
                places.push(place)?;
                count = count.saturating_add(crossing.frames);
                let span = crossing.span();
                sum.span = Some(sum.span.map_or(span, |held| held.with(span)));
            }
        }
        if places.is_empty() {
            return Ok(());
        }
        let kind = (Kind::Crossed, Level::Trouble, Side::of(network));
        self.push(kind, sum, count, &places)
    }

    /// Frames of a class that has no link.
    fn class(&mut self, kind: Kind, network: Network, lines: u64) -> Result<(), AllocError> {
        let Some(account) = self.flight.accounts.find_of_network(kind, network) else {
            return Ok(());
        };
        let sum = self.sum_of(account)?;
        let words = [
            Word::Cut,
            Word::Runt,
            Word::Oversize,
            Word::Foreign,
            Word::Unconfigured,
        ];
        let mut count = 0u64;
        for word in words {
            count = count.saturating_add(sum.signs.sum(word));
        }
        let expected = match kind {
            Kind::Foreign => self.flight.networks.of(network).recorder.expected,
            _ => 0,
        };
        let told = count.saturating_sub(expected);
        let level = if told.saturating_mul(4) >= lines && told > 0 {
            Level::Trouble
        } else if kind == Kind::Foreign {
            Level::Info
        } else {
            Level::Notice
        };
        self.push((kind, level, Side::of(network)), sum, count, &[])
    }

    // ---- links

    /// The accounts of all links, by kind, side and link.
    fn rows(&self) -> Result<Vec<Row>, AllocError> {
        let mut rows = Vec::new(self.alloc);
        for link in self.links {
            for own in self.flight.accounts.own(link.place) {
                let account = self.flight.accounts.get(own.account);
                if account.is_some_and(|account| account.signs.are_some()) {
                    rows.push(Row {
                        kind: own.kind,
                        side: own.side,
                        link: link.place,
                        account: own.account,
                    })?;
                }
            }
        }
        let key = |row: &Row| (row.kind, row.side, row.link);
        rows.as_mut_slice().sort_unstable_by_key(key);
        Ok(rows)
    }

    /// The findings that links have for themselves.
    fn own(&mut self) -> Result<(), AllocError> {
        let rows = self.rows()?;
        let mut part: Vec<Row> = Vec::new(self.alloc);
        for row in rows.iter() {
            let same = part
                .last()
                .is_none_or(|last| last.kind == row.kind && last.side == row.side);
            if !same {
                self.part(&part)?;
                part.clear();
            }
            part.push(*row)?;
        }
        self.part(&part)
    }

    /// Links with the same kind on the same side: one finding for each, or of many one for all.
    fn part(&mut self, rows: &[Row]) -> Result<(), AllocError> {
        let Some(first) = rows.first() else {
            return Ok(());
        };
        let many = if first.kind.is_of_one_link() {
            MANY_ALONE
        } else {
            MANY
        };
        if rows.len() >= many {
            return self.of_rows(first, rows);
        }
        for row in rows {
            self.of_rows(row, &[*row])?;
        }
        Ok(())
    }

    /// One finding of these links.
    fn of_rows(&mut self, first: &Row, rows: &[Row]) -> Result<(), AllocError> {
        let mut sum = Sum::none(self.alloc);
        let mut places = Vec::new(self.alloc);
        for row in rows {
            sum.add(self.flight, row.account)?;
            places.push(row.link)?;
            let frames = self
                .links
                .get(row.link)
                .map_or(0, |link| frames_on(link, row.side));
            sum.frames = sum.frames.saturating_add(frames);
        }
        let (count, level) = weight(first.kind, &sum, rows.len() as u64);
        self.push((first.kind, level, first.side), sum, count, &places)?;
        if rows.len() == 1 {
            let (_, spans) = self.flight.accounts.take_parts(first.account);
            if let Some(finding) = self.latest() {
                finding.spans = spans;
                finding.anew = first.kind == Kind::Outage && finding.signs.sum(Word::Reset) > 0;
            }
        }
        Ok(())
    }

    // ---- what links have in common

    /// The findings of groups of links, and of networks and clocks.
    fn in_common(&mut self) -> Result<(), AllocError> {
        for kind in IN_COMMON {
            let kept = self.flight.take_kept(kind);
            for account in kept.accounts.iter() {
                self.group(kind, *account)?;
            }
            if let Some(more) = kept.more {
                self.rest(kind, more)?;
            }
        }
        Ok(())
    }

    /// Tells the findings of a kind beyond the ones that are told by themselves.
    fn rest(&mut self, kind: Kind, more: Handle) -> Result<(), AllocError> {
        let sum = self.sum_of(more)?;
        let count = self
            .flight
            .accounts
            .get(more)
            .map_or(0, |account| account.parts);
        self.push((kind, Level::Trouble, Side::Both), sum, count, &[])?;
        if let Some(finding) = self.latest() {
            finding.is_rest = true;
        }
        Ok(())
    }

    /// A finding that links have in common.
    fn group(&mut self, kind: Kind, account: Handle) -> Result<(), AllocError> {
        let mut sum = self.sum_of(account)?;
        if !sum.signs.are_some() || self.flight.accounts.is_absorbed(account) {
            return Ok(());
        }
        let anew = kind == Kind::Outage && sum.signs.sum(Word::Reset) > 0;
        let Some(held) = self.flight.accounts.get_mut(account) else {
            return Ok(());
        };
        let links = mem::replace(&mut held.links, Vec::new(self.alloc));
        let side = held.side;
        if let Some(span) = held.spans.first().filter(|_| !kind.is_of_a_moment()) {
            sum.span = Some(*span);
        }
        let (count, level, named) = common_weight(kind, &sum, links.len() as u64);
        let of_links = links.len() as u64;
        self.push(
            (kind, level, side),
            sum,
            count,
            if named { &links } else { &[] },
        )?;
        if let Some(finding) = self.latest() {
            finding.of_links = of_links;
            finding.together = named;
            finding.anew = anew;
        }
        Ok(())
    }

    /// How bad each link is: as the worst finding that names it.
    fn levels(&self) -> Result<Vec<LinkLevel>, AllocError> {
        let mut levels = Vec::with_capacity(self.alloc, self.links.len())?;
        let mut places = vec![in self.alloc; u16::MAX; 65536]?;
        for link in self.links {
            if let Some(place) = places.get_mut(usize::from(link.id)) {
                *place = u16::try_from(link.place).unwrap_or(u16::MAX);
            }
            let state = self.flight.skews.get(link.place);
            levels.push(LinkLevel {
                id: VlId(link.id),
                level: Level::Clean,
                late_skew: state.map_or(0, |state| state.late_most.count()),
            })?;
        }
        for finding in self
            .all
            .iter()
            .filter(|finding| finding.level != Level::Info)
        {
            for id in finding.links.iter() {
                let place = places
                    .get(usize::from(id.0))
                    .map_or(usize::MAX, |place| usize::from(*place));
                if let Some(held) = levels.get_mut(place) {
                    held.level = held.level.min(finding.level);
                }
            }
        }
        Ok(levels)
    }
}

/// How many frames a link has on these networks.
fn frames_on(link: &LinkState, side: Side) -> u64 {
    match side.network() {
        Some(network) => link.lane(network).frames,
        None => link.frames(),
    }
}

/// How many there are of a finding that links have in common, how bad it is, and whether it is about its
/// links rather than a network or a clock.
fn common_weight(kind: Kind, sum: &Sum, links: u64) -> (u64, Level, bool) {
    match kind {
        Kind::Silence => (sum.signs.sum(Word::Lost), Level::Trouble, false),
        Kind::ClockStep | Kind::Coarse => (1, Level::Trouble, false),
        Kind::Drift => (1, Level::Notice, false),
        Kind::SkewStep if sum.signs.sum(Word::Late) == 0 => (1, Level::Notice, false),
        Kind::SkewStep => (1, Level::Trouble, false),
        Kind::StartsLate | Kind::StartsLateOn | Kind::SkewMoves | Kind::Reset => {
            (links, Level::Notice, true)
        }
        _ => (links, Level::Trouble, true),
    }
}

/// The order of findings: the worst first; scattered losses by how many there are, all else by time.
fn key_of(finding: &Finding) -> (Level, u64, Time, Kind, Side) {
    let weight = if finding.kind == Kind::Lost {
        u64::MAX - finding.count
    } else {
        0
    };
    (
        finding.level,
        weight,
        finding.span.from,
        finding.kind,
        finding.side,
    )
}

/// A ledger without a frame.
fn of_nothing(telling: &mut Telling<'_>) -> Result<(), AllocError> {
    let account = telling
        .flight
        .accounts
        .open(Kind::NoFrames, None, Side::Both)?;
    telling
        .flight
        .accounts
        .hit(account, Sign::of(Word::NoFrames), ZERO)?;
    let mut places = Vec::new(telling.alloc);
    for link in telling.links {
        telling
            .flight
            .claim(account, link.place, Kind::Never, Side::Both)?;
        places.push(link.place)?;
    }
    let sum = telling.sum_of(account)?;
    telling.push(
        (Kind::NoFrames, Level::Trouble, Side::Both),
        sum,
        1,
        &places,
    )
}

/// All that is found once the ledger has ended at this time, if it has a frame, and its recordings so.
pub fn findings_of(
    flight: &mut Flight,
    links: &mut [LinkState],
    end: Option<Time>,
    endings: [RecordingEnd; 2],
) -> Result<Findings, AllocError> {
    if let Some(end) = end {
        flight.claim_all(links, end)?;
        flight.join_common()?;
    }
    let alloc = flight.alloc;
    let mut telling = Telling {
        alloc,
        flight,
        links,
        end: end.unwrap_or(ZERO),
        all: Vec::new(alloc),
    };
    if end.is_none() {
        of_nothing(&mut telling)?;
    } else {
        for (network, ending) in NETWORKS.iter().zip(endings.iter()) {
            telling.network(*network, *ending)?;
        }
        telling.in_common()?;
        telling.own()?;
    }
    let levels = telling.levels()?;
    let Telling {
        flight,
        mut all,
        ..
    } = telling;
    all.as_mut_slice().sort_unstable_by_key(key_of);
    let totals = mem::replace(&mut flight.accounts.totals, Signs::none(alloc));
    Ok(Findings {
        all,
        totals,
        levels,
        outside_a: flight.networks.a.take_outside(alloc),
        outside_b: flight.networks.b.take_outside(alloc),
    })
}
