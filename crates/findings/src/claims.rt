//! The claims of one cause to another's signs, once the ledger has ended.
use crate::accounts::{Account, Handle, Span};
use crate::clocks::{DriftFound, share};
use crate::flight::Flight;
use crate::kind::Kind;
use crate::link::LinkState;
use crate::long::{Long, SECOND, Time, ZERO};
use crate::network::common_divisor;
use crate::signs::{Side, Sign, Word};
use crate::tell::MANY;
use afdx_frame::Network;
use std::alloc::AllocError;

/// Timestamps in steps of this or more can't show what a table with jitters of some 100 us asks.
const COARSE: Time = Long(100_000);

/// So many lines say how coarse timestamps are.
const LINES: u64 = 64;

const NETWORKS: [Network; 2] = [Network::A, Network::B];

/// The kinds that a lane without numbers may be of.
const OF_NO_NUMBER: [Kind; 8] = [
    Kind::Stuck,
    Kind::Old,
    Kind::Stray,
    Kind::Lost,
    Kind::Absent,
    Kind::Jump,
    Kind::Twice,
    Kind::StartsLateOn,
];

/// Kinds that both lanes of a link have for one cause.
const ALIKE: [Kind; 12] = [
    Kind::TooLong,
    Kind::Reset,
    Kind::Stray,
    Kind::Old,
    Kind::Stuck,
    Kind::Twice,
    Kind::Reordered,
    Kind::Jump,
    Kind::Skipped,
    Kind::Out,
    Kind::Lost,
    Kind::Absent,
];

impl Flight {
    /// A link's own account of a kind becomes part of a whole.
    pub fn claim(
        &mut self,
        whole: Handle,
        link: usize,
        kind: Kind,
        side: Side,
    ) -> Result<(), AllocError> {
        match self.accounts.release(link, kind, side) {
            Some(part) => self.accounts.join(whole, part),
            None => Ok(()),
        }
    }

    /// How many signs with a word a link's own account of a kind has.
    pub fn own_count(&self, link: usize, kind: Kind, side: Side, word: Word) -> u64 {
        let account = self.accounts.find(link, kind, side);
        account.map_or(0, |account| self.accounts.sum(account, word))
    }

    /// All that one cause takes of another's signs.
    pub fn claim_all(&mut self, links: &mut [LinkState], end: Time) -> Result<(), AllocError> {
        let coarse = self.coarse(end)?;
        match coarse {
            Some(coarse) => {
                self.claim_moves(coarse, links, Long(i64::MAX))?;
                self.claim_steps(coarse)?;
            }
            None => self.claim_drift(links)?,
        }
        self.claim_resets(links)?;
        for &network in NETWORKS.iter() {
            self.claim_cut(links, network)?;
        }
        for link in links.iter_mut() {
            self.claim_link(link, coarse)?;
        }
        for &network in NETWORKS.iter() {
            self.claim_late_of_bunched(links, network)?;
        }
        self.claim_late_of_moved(links)?;
        self.claim_late_of_apart(links)
    }

    /// Recordings without a common time have no copies of each other's frames: none is late.
    fn claim_late_of_apart(&mut self, links: &[LinkState]) -> Result<(), AllocError> {
        let (a, b) = (&self.networks.a, &self.networks.b);
        let (Some(first_a), Some(first_b)) = (a.first, b.first) else {
            return Ok(());
        };
        let later = if first_b > a.last.unwrap_or(first_a) {
            Network::B
        } else if first_a > b.last.unwrap_or(first_b) {
            Network::A
        } else {
            return Ok(());
        };
        let begins = self.accounts.of_network(Kind::Begins, later)?;
        for link in links {
            for side in [Side::A, Side::B] {
                self.claim(begins, link.place, Kind::Late, side)?;
            }
        }
        Ok(())
    }

    // ---- clocks

    /// Claims the signs of drifting clocks: late copies, and closer frames on the slower clock's network.
    fn claim_drift(&mut self, links: &[LinkState]) -> Result<(), AllocError> {
        let Some(drift) = self.clocks.drift() else {
            return Ok(());
        };
        let account = self.accounts.open(Kind::Drift, None, Side::Both)?;
        self.accounts
            .hit(account, Sign::of(Word::Drift), drift.from)?;
        self.accounts.widen(
            account,
            Span {
                from: drift.from,
                to: drift.to,
            },
        );
        if let Some(facts) = self.accounts.facts_mut(account) {
            facts.size = drift.parts;
        }
        self.keep(account)?;
        for link in links {
            self.claim_drift_of(account, link, &drift)?;
        }
        self.claim_moves(account, links, drift.moved.abs())
    }

    /// Claims moves of links' skews by no more than so much: they are a clock's, and not a path's.
    fn claim_moves(
        &mut self,
        clock: Handle,
        links: &[LinkState],
        most: Long,
    ) -> Result<(), AllocError> {
        for link in links {
            let moved = self.accounts.find(link.place, Kind::SkewMoves, Side::Both);
            if let Some(moved) = moved.filter(|moved| self.size_of_move(*moved) <= most) {
                self.forget_moves(moved);
                self.claim(clock, link.place, Kind::SkewMoves, Side::Both)?;
            }
        }
        let count = self.kept(Kind::SkewMoves).len();
        for place in 0..count {
            let moved = self.kept(Kind::SkewMoves).get(place).copied();
            if let Some(moved) = moved.filter(|moved| self.size_of_move(*moved) <= most) {
                self.forget_moves(moved);
                self.accounts.absorb(clock, moved)?;
            }
        }
        Ok(())
    }

    /// Steps of the skews below two grains of the timestamps are none.
    fn claim_steps(&mut self, coarse: Handle) -> Result<(), AllocError> {
        let grain = self.accounts.facts(coarse).size;
        let count = self.kept(Kind::SkewStep).len();
        for place in 0..count {
            let step = self.kept(Kind::SkewStep).get(place).copied();
            let is_small = |step: &Handle| self.accounts.facts(*step).size.abs() < grain * 2;
            if let Some(step) = step.filter(is_small) {
                self.accounts.take(step, Sign::of(Word::Step), Long(1));
                self.accounts.absorb(coarse, step)?;
            }
        }
        Ok(())
    }

    /// The moves of a skew are none.
    fn forget_moves(&mut self, moved: Handle) {
        let sign = Sign::of(Word::Moved);
        let count = self.accounts.count(moved, sign);
        self.accounts.take(moved, sign, Long::of(count));
    }

    /// How far a skew moved.
    fn size_of_move(&self, moved: Handle) -> Long {
        let facts = self.accounts.facts(moved);
        facts
            .before
            .map_or(ZERO, |before| (facts.after - before).abs())
    }

    fn claim_drift_of(
        &mut self,
        drift: Handle,
        link: &LinkState,
        found: &DriftFound,
    ) -> Result<(), AllocError> {
        if found.moved.abs() * 2 > link.skew_max {
            self.claim(drift, link.place, Kind::Late, Side::A)?;
            self.claim(drift, link.place, Kind::Late, Side::B)?;
        }
        let (slow, fast) = if found.moved < ZERO {
            (Side::B, Side::A)
        } else {
            (Side::A, Side::B)
        };
        if self.accounts.find(link.place, Kind::Excess, fast).is_none() {
            self.claim(drift, link.place, Kind::Excess, slow)?;
        }
        if self.is_early_by(found, link, slow) {
            self.claim(drift, link.place, Kind::Early, slow)?;
        }
        Ok(())
    }

    /// Did no frame of the link's on the slower clock's network come earlier than by what that clock loses in a
    /// BAG? Twice as much may be, since the drift is measured, and two grains of the timestamps.
    fn is_early_by(&self, found: &DriftFound, link: &LinkState, slow: Side) -> bool {
        let Some(early) = self.accounts.find(link.place, Kind::Early, slow) else {
            return false;
        };
        let grain = slow
            .network()
            .map_or(ZERO, |network| self.networks.of(network).grain);
        let by_drift = share(found.parts.abs(), link.bag, SECOND) + grain;
        self.accounts.facts(early).most <= by_drift * 2
    }

    /// The account of timestamps that are too coarse, if they are.
    fn coarse(&mut self, end: Time) -> Result<Option<Handle>, AllocError> {
        let (a, b) = (&self.networks.a, &self.networks.b);
        let apart = match (a.first, b.first) {
            (Some(a), Some(b)) => (b - a).abs(),
            _ => ZERO,
        };
        let grain = common_divisor(common_divisor(a.grain, b.grain), apart);
        if grain < COARSE || a.lines.saturating_add(b.lines) < LINES {
            return Ok(None);
        }
        let account = self.accounts.open(Kind::Coarse, None, Side::Both)?;
        self.accounts.hit(account, Sign::of(Word::Coarse), ZERO)?;
        self.accounts.widen(
            account,
            Span {
                from: ZERO,
                to: end,
            },
        );
        if let Some(facts) = self.accounts.facts_mut(account) {
            facts.size = grain;
        }
        self.keep(account)?;
        Ok(Some(account))
    }

    /// A reset of one network alone is why its links count apart.
    fn claim_resets(&mut self, links: &[LinkState]) -> Result<(), AllocError> {
        let count = self.kept(Kind::Reset).len();
        for place in 0..count {
            let Some(reset) = self.kept(Kind::Reset).get(place).copied() else {
                continue;
            };
            let on = |network| self.accounts.count(reset, Sign::on(Word::Reset, network));
            if on(Network::A) > 0 && on(Network::B) > 0 {
                continue;
            }
            let apart = self.apart_of_all(reset, links);
            if let Some(apart) = apart {
                self.accounts.absorb(apart, reset)?;
            }
        }
        Ok(())
    }

    /// The account of the first link of a group, where all of its links count apart.
    fn apart_of_all(&self, group: Handle, links: &[LinkState]) -> Option<Handle> {
        let group = self.accounts.get(group)?;
        let apart = |place: usize| self.skews.get(place).and_then(|state| state.apart);
        let all = group
            .links
            .iter()
            .all(|place| *place < links.len() && apart(*place).is_some());
        if all {
            apart(*group.links.first()?)
        } else {
            None
        }
    }

    // ---- networks

    /// Frames that the recorder cut short are missing by number: at most as many as it cut. Where more are
    /// missing, those alone are taken that came on the other network.
    fn claim_cut(&mut self, links: &[LinkState], network: Network) -> Result<(), AllocError> {
        let Some(cut) = self.accounts.find_of_network(Kind::Cut, network) else {
            return Ok(());
        };
        let (side, most) = (Side::of(network), self.accounts.sum(cut, Word::Cut));
        for alone in [false, true] {
            if self.missing_on(links, side, alone) <= most {
                self.claim_missing(cut, links, side, alone)?;
                break;
            }
        }
        self.claim_never_whole(cut, links, side)
    }

    /// A link without a whole frame there is no one that never came, where the recorder cut as many frames.
    fn claim_never_whole(
        &mut self,
        cut: Handle,
        links: &[LinkState],
        side: Side,
    ) -> Result<(), AllocError> {
        let most = self.accounts.sum(cut, Word::Cut);
        for link in links {
            let alone = self.own_count(link.place, Kind::NeverOn, side, Word::Alone);
            let claimed = self.accounts.sum(cut, Word::Alone);
            if alone > 0 && claimed.saturating_add(alone) <= most {
                self.claim(cut, link.place, Kind::NeverOn, side)?;
            }
        }
        Ok(())
    }

    /// Did all numbers that an account of a link has as missing come on the other network, where it is asked?
    fn is_asked(&self, link: usize, kind: Kind, side: Side, alone: bool) -> bool {
        let count = |word| self.own_count(link, kind, side, word);
        !alone || count(Word::Alone) == count(Word::Lost)
    }

    /// How many numbers are missing on a network by its links' own accounts.
    fn missing_on(&self, links: &[LinkState], side: Side, alone: bool) -> u64 {
        let mut missing = 0u64;
        for link in links {
            for kind in [Kind::Lost, Kind::Absent] {
                if self.is_asked(link.place, kind, side, alone) {
                    let lost = self.own_count(link.place, kind, side, Word::Lost);
                    missing = missing.saturating_add(lost);
                }
            }
        }
        missing
    }

    /// One cause takes those numbers.
    fn claim_missing(
        &mut self,
        cause: Handle,
        links: &[LinkState],
        side: Side,
        alone: bool,
    ) -> Result<(), AllocError> {
        for link in links {
            for kind in [Kind::Lost, Kind::Absent] {
                if self.is_asked(link.place, kind, side, alone) {
                    self.claim(cause, link.place, kind, side)?;
                }
            }
        }
        Ok(())
    }

    /// Where frames of a link bunch on one network, those that are late there at that time are so by that.
    fn claim_late_of_bunched(
        &mut self,
        links: &[LinkState],
        network: Network,
    ) -> Result<(), AllocError> {
        let side = Side::of(network);
        let (mut count, mut span) = (0usize, None);
        for link in links {
            if let Some(account) = self.accounts.find(link.place, Kind::Bunched, side) {
                count = count.saturating_add(1);
                let held: Option<Span> = self.accounts.span(account);
                span = match (span, held) {
                    (Some(span), Some(held)) => Some(held.with(span)),
                    (span, held) => span.or(held),
                };
            }
        }
        let Some(Span { from, to }) = span else {
            return Ok(());
        };
        let room = Span {
            from: from - SECOND,
            to: to + SECOND,
        };
        for link in links {
            self.claim_late_during(link.place, side, room, count >= MANY)?;
        }
        Ok(())
    }

    /// Late frames of a link within this time are part of its bunched ones.
    fn claim_late_during(
        &mut self,
        link: usize,
        side: Side,
        room: Span,
        many: bool,
    ) -> Result<(), AllocError> {
        let Some(late) = self.accounts.find(link, Kind::Late, side) else {
            return Ok(());
        };
        let within = self
            .accounts
            .span(late)
            .is_some_and(|span| room.from <= span.from && span.to <= room.to);
        let bunched = self.accounts.find(link, Kind::Bunched, side).is_some();
        if within && (bunched || many) {
            let whole = self.accounts.of_link(link, Kind::Bunched, side)?;
            self.claim(whole, link, Kind::Late, side)?;
        }
        Ok(())
    }

    /// Frames are late since the link's path moved.
    fn claim_late_of_moved(&mut self, links: &[LinkState]) -> Result<(), AllocError> {
        for link in links {
            if let Some(moved) = self.accounts.find(link.place, Kind::SkewMoves, Side::Both) {
                self.claim_late_since(moved, link)?;
            }
        }
        let count = self.kept(Kind::SkewMoves).len();
        for place in 0..count {
            let Some(moved) = self.kept(Kind::SkewMoves).get(place).copied() else {
                continue;
            };
            for link in links {
                let has = |account: &Account| account.links.iter().any(|one| *one == link.place);
                if self.accounts.get(moved).is_some_and(has) {
                    self.claim_late_since(moved, link)?;
                }
            }
        }
        Ok(())
    }

    /// Its medians of five show a move some intervals after its first late frame.
    fn claim_late_since(&mut self, moved: Handle, link: &LinkState) -> Result<(), AllocError> {
        if self.accounts.sum(moved, Word::Moved) == 0 {
            return Ok(());
        }
        let room = SECOND.max(link.rate.typical() * 6);
        let from = self
            .accounts
            .span(moved)
            .map_or(ZERO, |span| span.from - room);
        for side in [Side::A, Side::B] {
            let late = self.accounts.find(link.place, Kind::Late, side);
            let span = late.and_then(|late| self.accounts.span(late));
            if span.is_some_and(|span| span.from >= from) {
                self.claim(moved, link.place, Kind::Late, side)?;
            }
        }
        Ok(())
    }

    // ---- links

    /// Lets one cause of a link take another's signs.
    fn claim_link(
        &mut self,
        link: &mut LinkState,
        coarse: Option<Handle>,
    ) -> Result<(), AllocError> {
        for &network in NETWORKS.iter() {
            self.claim_no_number(link, network)?;
            if let Some(coarse) = coarse {
                for kind in [Kind::Early, Kind::Excess, Kind::Late] {
                    self.claim(coarse, link.place, kind, Side::of(network))?;
                }
            }
        }
        for &network in NETWORKS.iter() {
            self.claim_nothing_left(link.place, Side::of(network))?;
            self.claim_nothing_lost(link.place, Side::of(network))?;
        }
        self.claim_begun_anew(link.place)?;
        for &network in NETWORKS.iter() {
            self.claim_late_of_reordered(link.place, Side::of(network))?;
        }
        self.claim_apart(link.place)?;
        self.claim_close(link)?;
        for kind in ALIKE {
            self.claim_alike(link.place, kind)?;
        }
        Ok(())
    }

    /// The last byte of a lane's frames is no number: this takes all that its numbers said.
    fn claim_no_number(
        &mut self,
        link: &mut LinkState,
        network: Network,
    ) -> Result<(), AllocError> {
        let (place, side) = (link.place, Side::of(network));
        let told = self.accounts.find(place, Kind::NoNumber, side).is_some();
        if !told && !link.lane(network).has_no_numbers() {
            return Ok(());
        }
        let whole = self.accounts.of_link(place, Kind::NoNumber, side)?;
        for kind in OF_NO_NUMBER {
            self.claim(whole, place, kind, side)?;
        }
        let long = self.own_count(place, Kind::TooLong, side, Word::TooLong);
        if long == link.lane(network).frames {
            self.claim(whole, place, Kind::TooLong, side)?;
        }
        self.claim(whole, place, Kind::Late, side)?;
        let other = Side::of(network.other());
        self.claim(whole, place, Kind::Lost, other)?;
        self.claim(whole, place, Kind::Late, other)?;
        link.give_start(self, whole)
    }

    /// A loss that was taken back whole is none.
    fn claim_nothing_lost(&mut self, link: usize, side: Side) -> Result<(), AllocError> {
        let Some(lost) = self.accounts.find(link, Kind::Lost, side) else {
            return Ok(());
        };
        if self.accounts.sum(lost, Word::Lost) > 0 || self.accounts.sum(lost, Word::Alone) > 0 {
            return Ok(());
        }
        let kind = match self.accounts.find(link, Kind::Reordered, side) {
            Some(_) => Kind::Reordered,
            None => Kind::Out,
        };
        let whole = self.accounts.of_link(link, kind, side)?;
        self.claim(whole, link, Kind::Lost, side)
    }

    /// Old numbers that showed what another account tells, and skipped ones that came, are none: what else
    /// their frames show is of that account, or of the loss.
    fn claim_nothing_left(&mut self, link: usize, side: Side) -> Result<(), AllocError> {
        let shown = [Kind::Jump, Kind::Stuck];
        let mut told = shown
            .iter()
            .filter(|kind| self.accounts.find(link, **kind, side).is_some());
        let of_old = told.next().copied().unwrap_or(Kind::Out);
        let rows = [
            (Kind::Old, Word::Repeat, of_old),
            (Kind::Skipped, Word::Skipped, Kind::Lost),
        ];
        for (kind, word, cause) in rows {
            let is_empty = self.own_count(link, kind, side, word) == 0;
            if self.accounts.find(link, kind, side).is_some() && is_empty {
                let whole = self.accounts.of_link(link, cause, side)?;
                self.claim(whole, link, kind, side)?;
            }
        }
        Ok(())
    }

    /// A link that pauses once and begins anew after it has one cause.
    fn claim_begun_anew(&mut self, link: usize) -> Result<(), AllocError> {
        let outage = self.accounts.find(link, Kind::Outage, Side::Both);
        let reset = self.accounts.find(link, Kind::Reset, Side::Both);
        let (Some(outage), Some(reset)) = (outage, reset) else {
            return Ok(());
        };
        let (Some(pause), Some(anew)) = (self.accounts.span(outage), self.accounts.span(reset))
        else {
            return Ok(());
        };
        let is_once = self.accounts.sum(outage, Word::Outage) == 1;
        if is_once && (anew.from - pause.to).is_within(SECOND) && anew.length() <= SECOND {
            self.claim(outage, link, Kind::Reset, Side::Both)?;
        }
        Ok(())
    }

    /// Few late frames beside reordered ones are late by that.
    fn claim_late_of_reordered(&mut self, link: usize, side: Side) -> Result<(), AllocError> {
        let Some(moved) = self.accounts.find(link, Kind::Reordered, side) else {
            return Ok(());
        };
        let Some(span) = self.accounts.span(moved) else {
            return Ok(());
        };
        let most = self.accounts.sum(moved, Word::Reordered).saturating_mul(2);
        for other in [Side::A, Side::B] {
            let late = self.accounts.find(link, Kind::Late, other);
            let at = late.and_then(|late| self.accounts.span(late));
            let beside = at.is_some_and(|at| at.from >= span.from - SECOND
                && at.to <= span.to + SECOND);
            if beside && self.own_count(link, Kind::Late, other, Word::Late) <= most {
                self.claim(moved, link, Kind::Late, other)?;
            }
        }
        Ok(())
    }

    /// The networks count apart since one of them jumped, or began anew alone.
    fn claim_apart(&mut self, link: usize) -> Result<(), AllocError> {
        let Some(apart) = self.accounts.find(link, Kind::Apart, Side::Both) else {
            return Ok(());
        };
        for (side, other) in [(Side::A, Side::B), (Side::B, Side::A)] {
            if self.accounts.find(link, Kind::Jump, other).is_none() {
                self.claim(apart, link, Kind::Jump, side)?;
            }
        }
        let reset = self.accounts.find(link, Kind::Reset, Side::Both);
        let on = |network| reset.map_or(
            0,
            |reset| self.accounts.count(reset, Sign::on(Word::Reset, network)),
        );
        if on(Network::A) == 0 || on(Network::B) == 0 {
            self.claim(apart, link, Kind::Reset, Side::Both)?;
        }
        Ok(())
    }

    /// Frames that came early or in excess on a network.
    fn close_on(&self, link: usize, side: Side) -> u64 {
        let early = self.own_count(link, Kind::Early, side, Word::Early);
        early.saturating_add(self.own_count(link, Kind::Excess, side, Word::Excess))
    }

    /// Frames that are close on both networks, or on the one that there is, are their sender's; on one
    /// network alone they are that network's.
    fn claim_close(&mut self, link: &LinkState) -> Result<(), AllocError> {
        let (a, b) = (
            self.close_on(link.place, Side::A),
            self.close_on(link.place, Side::B),
        );
        if a == 0 && b == 0 {
            return Ok(());
        }
        let alone = link.a.frames == 0 || link.b.frames == 0;
        let by_sender = alone || a.min(b).saturating_mul(4) >= a.max(b);
        for (side, count) in [(Side::A, a), (Side::B, b)] {
            if count > 0 {
                let (kind, on) = if by_sender {
                    (Kind::Bag, Side::Both)
                } else {
                    (Kind::Bunched, side)
                };
                let whole = self.accounts.of_link(link.place, kind, on)?;
                self.claim(whole, link.place, Kind::Early, side)?;
                self.claim(whole, link.place, Kind::Excess, side)?;
            }
        }
        self.claim_rate(link)
    }

    /// A link that breaks its BAG has another rate by that.
    fn claim_rate(&mut self, link: &LinkState) -> Result<(), AllocError> {
        let Some(bag) = self.accounts.find(link.place, Kind::Bag, Side::Both) else {
            return Ok(());
        };
        let rate = self.accounts.find(link.place, Kind::Rate, Side::Both);
        let fastest = rate.and_then(|rate| self.accounts.facts(rate).fastest);
        if fastest.is_some_and(|fastest| fastest * 16 < link.bag * 15) {
            self.claim(bag, link.place, Kind::Rate, Side::Both)?;
        }
        Ok(())
    }

    /// Makes one finding of the link of those that both lanes have alike.
    fn claim_alike(&mut self, link: usize, kind: Kind) -> Result<(), AllocError> {
        let a = self.accounts.find(link, kind, Side::A);
        let b = self.accounts.find(link, kind, Side::B);
        let (Some(a), Some(b)) = (a, b) else {
            return Ok(());
        };
        let both = self
            .accounts
            .sum(a, Word::Both)
            .saturating_add(self.accounts.sum(b, Word::Both));
        let lost = self
            .accounts
            .sum(a, Word::Lost)
            .saturating_add(self.accounts.sum(b, Word::Lost));
        if kind == Kind::Absent && both.saturating_mul(8) < lost.saturating_mul(3) {
            return Ok(());
        }
        let whole = self.accounts.of_link(link, kind, Side::Both)?;
        for (side, part) in [(Side::A, a), (Side::B, b)] {
            let (parts, spans) = self.accounts.take_parts(part);
            if let Some(held) = self.accounts.get_mut(whole) {
                held.parts = held.parts.max(parts);
                if held.spans.is_empty() {
                    held.spans = spans;
                } else if held.spans.len() == spans.len() {
                    for (span, other) in held.spans.iter_mut().zip(spans.iter()) {
                        *span = span.with(*other);
                    }
                }
            }
            self.claim(whole, link, kind, side)?;
        }
        Ok(())
    }
}
