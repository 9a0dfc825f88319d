//! The times of a link's two networks, and networks that count apart.
use super::{Arrival, LinkState};
use crate::accounts::Handle;
use crate::flight::{Flight, Pair};
use crate::lane::{Lane, ROUND};
use crate::long::{Long, Position, Time, ZERO};
use afdx_frame::Network;
use std::alloc::AllocError;

impl LinkState {
    /// Notes when a frame came against the other network's.
    pub(super) fn note_skew(
        &mut self,
        flight: &mut Flight,
        arrival: &Arrival,
        back: Option<Long>,
    ) -> Result<(), AllocError> {
        if !self.redundancy {
            return Ok(());
        }
        let (network, at) = (arrival.network, arrival.at);
        let (place, skew_max) = (self.place, self.skew_max);
        let (lane, twin) = self.lanes(network);
        let difference = arrival.position - twin.head;
        let meets = twin.begun && difference != ZERO && at - twin.latest <= skew_max;
        let Some(back) = back else {
            return if meets {
                self.note_difference(flight, network, difference, at)
            } else {
                Ok(())
            };
        };
        let pair = Pair {
            link: place,
            network,
            skew: skew_of(network, at, twin.window.time(arrival.position)),
            at,
            late: arrival.delivered && twin.window.is_delivered(back),
            difference: difference_at(lane, twin, arrival.position),
        };
        if (pair.skew - flight.clocks.offset).is_within(skew_max) {
            if let Some(state) = flight.skews.get_mut(self.place) {
                state.alike = 0;
            }
        } else if meets {
            self.note_difference(flight, network, difference, at)?;
        }
        flight.note_pair(&pair)
    }

    /// Frames came at the same time whose numbers differ, while those with the same number don't meet.
    fn note_difference(
        &mut self,
        flight: &mut Flight,
        network: Network,
        ahead: Long,
        at: Time,
    ) -> Result<(), AllocError> {
        let near = ahead.is_within(Long(120)) || Long(ahead.0.rem_euclid(ROUND)) == ZERO;
        let Some(state) = flight.skews.get_mut(self.place).filter(|_| near) else {
            return Ok(());
        };
        let b_above = match network {
            Network::A => -ahead,
            Network::B => ahead,
        };
        let Some(found) = state.note_difference(b_above, at) else {
            return Ok(());
        };
        let (usual, since) = (state.usual, state.alike_since);
        state.alike = 0;
        let whole_rounds = Long(found.0.rem_euclid(ROUND)) == ZERO;
        let others = flight.usual_skew(self.place)?;
        let differs = usual.is_none_or(|usual| !(usual - others).is_within(self.skew_max));
        if whole_rounds || differs {
            self.realign(flight, found, whole_rounds, since)?;
        }
        Ok(())
    }

    /// B's numbers are so many above A's: B's positions go down by so many. By whole rounds of 255 only the
    /// scale was wrong; else the networks count apart.
    fn realign(
        &mut self,
        flight: &mut Flight,
        above: Long,
        whole_rounds: bool,
        since: Time,
    ) -> Result<(), AllocError> {
        let (a, b) = (&mut self.a, &mut self.b);
        b.head = b.head - above;
        b.base = b.base - above;
        b.first = b.first - above;
        b.window.renumber(above);
        let ahead = b.head - a.head;
        a.ahead = b.window.seen_of_latest(ahead);
        b.ahead = a.window.seen_of_latest(-ahead);
        a.lead = ahead;
        b.lead = -ahead;
        self.head = a.head.max(b.head);
        let difference = Long((a.base - b.base).0.rem_euclid(ROUND));
        if let Some(begun) = self.begun.take() {
            // The start was counted by the wrong numbers.
            flight.accounts.take(begun.account, begun.sign, begun.count);
        }
        let account = if whole_rounds {
            flight.clocks.last_step().map(|step| step.account)
        } else {
            Some(flight.apart(self.place, difference, since)?)
        };
        self.realign_skews(flight, account)
    }

    /// The skews of other pairs than before: late frames were late by that.
    fn realign_skews(
        &mut self,
        flight: &mut Flight,
        account: Option<Handle>,
    ) -> Result<(), AllocError> {
        let Some(state) = flight.skews.get_mut(self.place) else {
            return Ok(());
        };
        state.forget();
        state.forget_moves();
        let Some(account) = account else {
            return Ok(());
        };
        let (run, ended) = (state.run.take(), state.ended.take());
        if let Some(run) = run {
            flight.accounts.absorb(account, run)?;
        }
        match ended {
            Some(ended) => flight.accounts.absorb(account, ended.account),
            None => Ok(()),
        }
    }

    /// Takes back the signs that were counted as the start of a recording, and gives them to an account.
    pub fn give_start(&mut self, flight: &mut Flight, to: Handle) -> Result<(), AllocError> {
        let Some(begun) = self.begun.take() else {
            return Ok(());
        };
        flight.accounts.take(begun.account, begun.sign, begun.count);
        let from = flight.accounts.span(to).map_or(ZERO, |span| span.from);
        flight.accounts.note(to, begun.sign, from, begun.count)
    }
}

/// The time on B less that on A, of a frame on this network and the other one's.
fn skew_of(network: Network, at: Time, twin_at: Time) -> Long {
    match network {
        Network::A => twin_at - at,
        Network::B => at - twin_at,
    }
}

/// By how much A's number of a position is above B's, where neither began anew since.
fn difference_at(lane: &Lane, twin: &Lane, position: Position) -> Long {
    if position < lane.base_from.max(twin.base_from) {
        return ZERO;
    }
    let apart = match lane.network {
        Network::A => lane.base - twin.base,
        Network::B => twin.base - lane.base,
    };
    Long(apart.0.rem_euclid(ROUND))
}
