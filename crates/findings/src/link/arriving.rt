//! A frame takes its position: what is missing before it, and what its time says of the link.
use super::{Arrival, LinkState, OUTAGES};
use crate::accounts::{Handle, Span};
use crate::flight::Flight;
use crate::groups::Event;
use crate::kind::Kind;
use crate::lane::{Edges, Lane, WINDOW};
use crate::long::{Long, Position, Time, ZERO};
use crate::passage::{Missing, Passage};
use crate::rate::{Proof, Rate};
use crate::signs::{Side, Sign, Word};
use afdx_frame::Network;
use std::alloc::AllocError;

impl LinkState {
    /// A frame takes its position. The account of the numbers that are missing before it.
    pub(super) fn accept(
        &mut self,
        flight: &mut Flight,
        arrival: &Arrival,
    ) -> Result<Option<Handle>, AllocError> {
        let (network, at) = (arrival.network, arrival.at);
        let least = self.least_interval();
        let redundancy = self.redundancy;
        let edges = self.edges(flight, network.other());
        let (lane, twin) = self.lanes(network);
        let from = lane.head;
        let step = arrival.position - from;
        let all = step - 1;
        let interval = at - lane.window.time(from);
        let early = all == ZERO && interval < least;
        lane.number = arrival.number;
        lane.head = arrival.position;
        lane.window.advance(step, arrival.delivered, early);
        lane.window.set_time(arrival.position, at);
        if all != ZERO {
            lane.base = arrival.position - Long(i64::from(arrival.number));
        }
        let back = twin.head - arrival.position;
        let came = twin.begun && twin.window.is_seen(back);
        let missing = count_missing(lane, twin, redundancy, from, all, (at, &edges));
        if twin.begun && !came && redundancy {
            self.pass(flight, arrival, back)?;
        }
        let target = self.note_missing(flight, arrival, from, missing)?;
        let lane = self.lane_mut(network);
        lane.strange = None;
        lane.strangers = ZERO;
        lane.forget_still();
        self.note_link(flight, arrival, target)?;
        if early {
            self.note_early(flight, arrival, interval, came.then_some(back))?;
        }
        self.note_skew(flight, arrival, came.then_some(back))?;
        Ok(target)
    }

    /// The other network's numbers went past this one, and it wasn't there: it came on this network alone.
    fn pass(
        &mut self,
        flight: &mut Flight,
        arrival: &Arrival,
        back: Long,
    ) -> Result<(), AllocError> {
        let (network, at) = (arrival.network, arrival.at);
        let other = network.other();
        let (_, twin) = self.lanes(network);
        let passed = back >= ZERO && back.0 < WINDOW && arrival.position > twin.first;
        let Some(loss) = twin.loss.filter(|_| passed) else {
            return Ok(());
        };
        let skipped = Sign::on(Word::Skipped, other);
        let was_skipped = flight.accounts.kind(loss) == Some(Kind::Skipped);
        let loss = if was_skipped && flight.accounts.retract(skipped, at, &[Some(loss)])? {
            // It came here: there it is lost, and not skipped by its sender.
            let loss = self.hit(flight, Kind::Lost, Word::Lost, other, at)?;
            self.lane_mut(other).loss = Some(loss);
            loss
        } else {
            loss
        };
        flight
            .accounts
            .hit(loss, Sign::on(Word::Alone, network), at)
    }

    /// Notes the numbers that are missing before an arrival, or that its lane paused.
    fn note_missing(
        &mut self,
        flight: &mut Flight,
        arrival: &Arrival,
        from: Position,
        missing: Missing,
    ) -> Result<Option<Handle>, AllocError> {
        let (network, at) = (arrival.network, arrival.at);
        let time = at - arrival.before;
        let strangers = self.lane(network).strangers;
        let some = missing.all.0 > 0;
        let no_room = self
            .rate
            .interval
            .is_some_and(|interval| time * 4 < interval * 3 * (missing.all + 1));
        if some && missing.alone.0 <= 0 && strangers != missing.all && no_room {
            let account = self.account(flight, Kind::Skipped, network)?;
            flight
                .accounts
                .note(account, Sign::on(Word::Skipped, network), at, missing.all)?;
            let lane = self.lane_mut(network);
            lane.loss = Some(account);
            lane.last = Some(account);
            return Ok(Some(account));
        }
        let pauses = self.rate.limit.is_some_and(|limit| time >= limit);
        if !some && !pauses {
            return Ok(None);
        }
        let passage = Passage {
            network,
            span: Span {
                from: arrival.before,
                to: at,
            },
            from,
            missing,
            guess: arrival.guess,
            sender: arrival.position > self.head && self.twin_pauses(network, at),
            anew: arrival.number == 0,
        };
        let target = passage.note(flight, self)?;
        if some {
            let lane = self.lane_mut(network);
            lane.loss = target;
            lane.last = target;
        }
        Ok(target)
    }

    /// Has the other network no frame of the link since three quarters of the limit?
    fn twin_pauses(&mut self, network: Network, at: Time) -> bool {
        let limit = self.rate.limit;
        let (_, twin) = self.lanes(network);
        match limit {
            Some(limit) if twin.begun => { (at - twin.window.time(twin.head)) * 4 >= limit * 3 }
            _ => true,
        }
    }

    /// Notes what the link as a whole did, whichever network came first: outages, and its rate.
    fn note_link(
        &mut self,
        flight: &mut Flight,
        arrival: &Arrival,
        target: Option<Handle>,
    ) -> Result<(), AllocError> {
        if arrival.position <= self.head {
            return Ok(());
        }
        let kind = target.and_then(|target| flight.accounts.kind(target));
        let steps = match kind {
            Some(Kind::Skipped) => Long(1),
            _ => arrival.position - self.head,
        };
        let (from, at) = (self.head_at, arrival.at);
        let time = at - from;
        let beyond = self
            .rate
            .interval
            .is_none_or(|interval| time - interval * steps >= interval * 3);
        let alone = at - arrival.before;
        let is_long = |limit: Time| time >= limit && alone * 4 >= limit * 3;
        let pauses = beyond && self.rate.limit.is_some_and(is_long);
        let common = matches!(
            kind,
            Some(Kind::Silence | Kind::ClockStep | Kind::Gap | Kind::Torn)
        );
        if pauses && !common && self.twin_pauses(arrival.network, at) {
            self.note_outage(flight, Span { from, to: at })?;
        }
        self.head = arrival.position;
        self.head_at = at;
        match self.rate.note(time / steps, from, pauses) {
            Some(proof) => self.note_proof(flight, &proof),
            None => Ok(()),
        }
    }

    /// The sender paused.
    fn note_outage(&mut self, flight: &mut Flight, span: Span) -> Result<(), AllocError> {
        let account = flight
            .accounts
            .open(Kind::Outage, Some(self.place), Side::Both)?;
        flight
            .accounts
            .hit(account, Sign::of(Word::Outage), span.from)?;
        flight.accounts.widen(account, span);
        if self.outages.len() < OUTAGES {
            self.outages.push(account)?;
        }
        let _root = flight.take(Event {
            kind: Kind::Outage,
            side: Side::Both,
            span,
            account,
            link: self.place,
            crosses: false,
            size: ZERO,
        })?;
        Ok(())
    }

    /// The link's interval is proven: does it differ from before, or did the link start late?
    fn note_proof(&mut self, flight: &mut Flight, proof: &Proof) -> Result<(), AllocError> {
        if proof.is_change() {
            self.note_rate(flight, proof)?;
        }
        self.outages.clear();
        if self.told_start {
            return Ok(());
        }
        self.told_start = true;
        let start = self.start(flight);
        let first = self.first_at.unwrap_or(start);
        if first - start >= proof.interval.max(self.bag) * 4 {
            self.note_late_start(
                flight,
                Span {
                    from: start,
                    to: first,
                },
                proof.interval,
            )?;
        }
        Ok(())
    }

    /// The link's interval is another one. What seemed to be outages since are its new intervals.
    fn note_rate(&mut self, flight: &mut Flight, proof: &Proof) -> Result<(), AllocError> {
        let account = flight.accounts.of_link(self.place, Kind::Rate, Side::Both)?;
        flight
            .accounts
            .hit(account, Sign::of(Word::Rate), proof.from)?;
        if let Some(held) = flight.accounts.get_mut(account) {
            held.add_part(None)?;
            held.facts.before = held.facts.before.or(proof.before);
            held.facts.after = proof.interval;
            let fastest = held
                .facts
                .fastest
                .map_or(proof.interval, |least| least.min(proof.interval));
            held.facts.fastest = Some(fastest);
        }
        for outage in self.outages.iter() {
            let since = flight
                .accounts
                .span(*outage)
                .is_some_and(|span| span.to >= proof.from);
            if since {
                flight
                    .accounts
                    .take(*outage, Sign::of(Word::Outage), Long(1));
            }
        }
        Ok(())
    }

    /// The first line of the networks on which the link was seen.
    fn start(&self, flight: &Flight) -> Time {
        let of = |network: Network| {
            let is_on = self.lane(network).frames > 0;
            flight.networks.of(network).first.filter(|_| is_on)
        };
        match (of(Network::A), of(Network::B)) {
            (Some(a), Some(b)) => a.min(b),
            (a, b) => a.or(b).unwrap_or(ZERO),
        }
    }

    /// The link starts after the others.
    fn note_late_start(
        &mut self,
        flight: &mut Flight,
        span: Span,
        interval: Time,
    ) -> Result<(), AllocError> {
        let account = flight
            .accounts
            .open(Kind::StartsLate, Some(self.place), Side::Both)?;
        flight
            .accounts
            .hit(account, Sign::of(Word::LateStart), span.to)?;
        flight.accounts.widen(account, span);
        let _root = flight.take(Event {
            kind: Kind::StartsLate,
            side: Side::Both,
            span: Span {
                from: span.to - interval * 2,
                to: span.to,
            },
            account,
            link: self.place,
            crosses: false,
            size: ZERO,
        })?;
        Ok(())
    }

    /// Notes a frame closer to the one before than its BAG allows, where the other network says so too, or
    /// even skew can't explain it.
    fn note_early(
        &mut self,
        flight: &mut Flight,
        arrival: &Arrival,
        interval: Time,
        back: Option<Long>,
    ) -> Result<(), AllocError> {
        let (network, at) = (arrival.network, arrival.at);
        let least = self.least_of_both();
        let (_, twin) = self.lanes(network);
        if interval < least || !twin.begun {
            return self.hit_early(flight, network, at, interval);
        }
        let Some(back) = back.filter(|back| twin.window.is_early(*back)) else {
            return Ok(());
        };
        let twin_at = twin.window.time(twin.head - back);
        let twin_interval = twin_at - twin.window.time(twin.head - back - 1);
        self.hit_early(flight, network, at, interval)?;
        if twin_interval >= least {
            self.hit_early(flight, network.other(), twin_at, twin_interval)?;
        }
        Ok(())
    }

    /// Notes a frame that came too early, so long after the one before.
    fn hit_early(
        &self,
        flight: &mut Flight,
        network: Network,
        at: Time,
        interval: Time,
    ) -> Result<(), AllocError> {
        let account = self.hit(flight, Kind::Early, Word::Early, network, at)?;
        if let Some(held) = flight.accounts.get_mut(account) {
            held.facts.most = held.facts.most.max(self.least_interval() - interval);
        }
        Ok(())
    }
}

/// Counts the numbers that an arrival passes over, and what the other network had of them.
fn count_missing(
    lane: &mut Lane,
    twin: &mut Lane,
    redundancy: bool,
    from: Position,
    all: Long,
    (at, edges): (Time, &Edges),
) -> Missing {
    if !twin.begun {
        if redundancy {
            twin.note_ahead(at, edges);
        }
        return Missing {
            all,
            alone: ZERO,
            both: ZERO,
        };
    }
    let back = twin.head - lane.head;
    let came = twin.window.is_seen(back);
    let mut alone = ZERO;
    if lane.ahead.0 > 0 {
        let after = if back.0 <= WINDOW {
            twin.window.seen_of_latest(back)
        } else {
            (lane.ahead - all - 1).max(ZERO)
        };
        let own = Long(i64::from(came || back.0 >= WINDOW));
        alone = (lane.ahead - after - own).max(ZERO);
        lane.ahead = after;
        lane.before_line = ZERO;
    }
    if back < ZERO {
        twin.note_ahead(at, edges);
    }
    lane.lead = if back.0 > -WINDOW { back } else { ZERO };
    let passed = (lane.head - 1).min(twin.head) - from;
    let both = if all.0 > 0 {
        passed.max(ZERO) - alone
    } else {
        ZERO
    };
    Missing {
        all,
        // Without redundancy management each network has frames of its own.
        alone: if redundancy { alone } else { ZERO },
        both: both.max(ZERO),
    }
}
