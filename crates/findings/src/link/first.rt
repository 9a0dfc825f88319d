//! The first frame of a lane: what the network had before it is unrecorded, or missing.
use super::{Begun, Frame, LinkState};
use crate::accounts::Span;
use crate::flight::Flight;
use crate::groups::{ABSENT, Event};
use crate::kind::Kind;
use crate::lane::{Edges, Lane, WINDOW};
use crate::long::{Long, ZERO};
use crate::signs::{Side, Sign, Word};
use afdx_frame::Network;
use std::alloc::AllocError;

impl LinkState {
    /// The lines of a network, with room for SkewMax.
    pub(super) fn edges(&self, flight: &Flight, network: Network) -> Edges {
        let lines = flight.networks.of(network);
        Edges {
            start: lines
                .first
                .map_or(Long(i64::MAX), |first| first + self.skew_max),
            line: lines
                .last
                .map_or(Long(i64::MIN), |last| last - self.skew_max),
        }
    }

    pub(super) fn begin(&mut self, flight: &mut Flight, frame: &Frame) -> Result<(), AllocError> {
        let network = flight.networks.of_mut(frame.network);
        network.lanes = network.lanes.saturating_add(1);
        let redundancy = self.redundancy;
        let edges = self.edges(flight, frame.network.other());
        let (lane, twin) = self.lanes(frame.network);
        lane.begin(twin, frame.number, frame.at);
        let head = lane.head;
        if !twin.begun {
            if redundancy {
                twin.note_ahead(frame.at, &edges);
            }
            self.head = head;
            self.head_at = frame.at;
            self.first_at = Some(frame.at);
            return Ok(());
        }
        if head > twin.head {
            twin.note_ahead(frame.at, &edges);
        }
        let missed = beyond(lane, twin);
        if head > self.head {
            self.head = head;
            self.head_at = frame.at;
        }
        if self.redundancy && missed.0 > 0 {
            self.miss_start(flight, frame, missed)?;
        }
        Ok(())
    }

    /// The other network had so many frames before a lane's first: those before the network's first line
    /// aren't recorded, the others are missing.
    fn miss_start(
        &mut self,
        flight: &mut Flight,
        frame: &Frame,
        count: Long,
    ) -> Result<(), AllocError> {
        let (network, at) = (frame.network, frame.at);
        let lane = self.lane(network);
        let (unrecorded, since) = (lane.before_start.min(count), lane.ahead_since.unwrap_or(at));
        if unrecorded.0 > 0 {
            let account = flight.accounts.of_network(Kind::Begins, network)?;
            let sign = Sign::on(Word::Unrecorded, network);
            flight.accounts.note(account, sign, since, unrecorded)?;
            self.begun = Some(Begun {
                account,
                sign,
                count: unrecorded,
            });
        }
        let missing = count - unrecorded;
        let first = flight.networks.of(network).first.unwrap_or(at);
        let from = since.max(first).min(at);
        if missing >= ABSENT {
            return self.note_late_on(flight, network, Span { from, to: at }, missing);
        }
        if missing.0 > 0 {
            let account = self.account(flight, Kind::Lost, network)?;
            self.lane_mut(network).loss = Some(account);
            flight.accounts.note(
                account,
                Sign::on(Word::Alone, network.other()),
                from,
                missing,
            )?;
            flight
                .accounts
                .note(account, Sign::on(Word::Lost, network), from, missing)?;
        }
        Ok(())
    }

    /// The link starts on one network after the other.
    fn note_late_on(
        &mut self,
        flight: &mut Flight,
        network: Network,
        span: Span,
        missing: Long,
    ) -> Result<(), AllocError> {
        let side = Side::of(network);
        let account = flight
            .accounts
            .open(Kind::StartsLateOn, Some(self.place), side)?;
        let alone = Sign::on(Word::Alone, network.other());
        flight.accounts.note(account, alone, span.from, missing)?;
        flight.accounts.widen(account, span);
        let _root = flight.take(Event {
            kind: Kind::StartsLateOn,
            side,
            span: Span {
                from: span.to - self.rate.usual() * 2,
                to: span.to,
            },
            account,
            link: self.place,
            crosses: false,
            size: ZERO,
        })?;
        Ok(())
    }
}

/// How many frames the other network has beyond a lane's first one, and had before it.
fn beyond(lane: &mut Lane, twin: &Lane) -> Long {
    let back = twin.head - lane.head;
    let mut before = lane.ahead;
    if back.0 > WINDOW {
        before = before - back;
        lane.ahead = back;
    } else {
        let seen = twin.window.seen_of_latest(back);
        before = before - seen;
        lane.ahead = seen;
    }
    if twin.window.is_seen(back) || back.0 >= WINDOW {
        before = before - 1;
    }
    lane.lead = back;
    before
}
