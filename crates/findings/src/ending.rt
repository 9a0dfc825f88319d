//! The end of a ledger, for a link: whether it stopped, and which frames the other network has alone.
use crate::accounts::{Handle, Span};
use crate::flight::Flight;
use crate::groups::Event;
use crate::kind::Kind;
use crate::lane::WINDOW;
use crate::link::LinkState;
use crate::long::{Long, Time, ZERO};
use crate::signs::{Side, Sign, Word};
use afdx_frame::Network;
use std::alloc::AllocError;

/// Fewer frames than these at the end are scattered losses.
const SOME: Long = Long(3);

const NETWORKS: [Network; 2] = [Network::A, Network::B];

impl LinkState {
    /// Settles what is left of a link, in a ledger whose last line is at this time.
    pub fn end(&mut self, flight: &mut Flight, end: Time) -> Result<(), AllocError> {
        flight.accounts.link = self.place;
        for &network in NETWORKS.iter() {
            if let Some(held) = self.lane_mut(network).held.take() {
                self.stray(flight, network, held)?;
            }
        }
        flight.end_run(self.place, None)?;
        let ended = flight
            .skews
            .get_mut(self.place)
            .and_then(|state| state.ended.take());
        if let Some(ended) = ended {
            flight.settle(self.place, ended.account)?;
        }
        if self.frames() == 0 {
            let account = flight
                .accounts
                .of_link(self.place, Kind::Never, Side::Both)?;
            return flight.accounts.hit(account, Sign::of(Word::Never), end);
        }
        self.end_stop(flight)?;
        if self.redundancy {
            self.end_lane(flight, Network::A)?;
            self.end_lane(flight, Network::B)?;
        }
        Ok(())
    }

    /// When a network's last line came after the link's last frame there, if the link has frames on it.
    fn last_line(&self, flight: &Flight, network: Network) -> Option<Time> {
        let last = flight.networks.of(network).last?;
        (self.lane(network).frames > 0).then_some(last)
    }

    /// Does the link lack a frame at the end of each network that goes on after it?
    fn end_stop(&mut self, flight: &mut Flight) -> Result<(), AllocError> {
        let interval = self.rate.interval;
        let least = match interval {
            Some(interval) => Some(interval.max(self.bag) * 8),
            None => self.rate.limit,
        };
        let Some(least) = least else {
            return Ok(());
        };
        let (mut goes_on, mut lacks, mut end) = (false, true, self.head_at);
        for &network in NETWORKS.iter() {
            let Some(last) = self.last_line(flight, network) else {
                continue;
            };
            end = end.max(last);
            if last > self.head_at {
                let seen = self.lane(network).latest.max(self.head_at - self.skew_max);
                goes_on = true;
                lacks = lacks && last - seen >= least;
            }
        }
        if !goes_on || !lacks {
            return Ok(());
        }
        let account = flight
            .accounts
            .open(Kind::Stops, Some(self.place), Side::Both)?;
        flight
            .accounts
            .hit(account, Sign::of(Word::Stop), self.head_at)?;
        let from = self.head_at;
        flight.accounts.widen(account, Span { from, to: end });
        let room = interval.unwrap_or(self.rate.longest) * 2;
        self.take_at_end(
            flight,
            Kind::Stops,
            Side::Both,
            account,
            Span {
                from,
                to: from + room,
            },
        )
    }

    fn take_at_end(
        &self,
        flight: &mut Flight,
        kind: Kind,
        side: Side,
        account: Handle,
        span: Span,
    ) -> Result<(), AllocError> {
        let _root = flight.take(Event {
            kind,
            side,
            span,
            account,
            link: self.place,
            crosses: false,
            size: ZERO,
        })?;
        Ok(())
    }

    /// Ends a lane: the numbers that the other network has and this one didn't get are missing.
    fn end_lane(&self, flight: &mut Flight, network: Network) -> Result<(), AllocError> {
        let lane = self.lane(network);
        let (ahead, since) = (lane.ahead, lane.ahead_since.unwrap_or(ZERO));
        if ahead.0 <= 0 || self.lane(network.other()).frames == 0 {
            return Ok(());
        }
        let Some(last) = flight.networks.of(network).last else {
            return note_unrecorded(flight, network, Kind::NoFrames, since, ahead);
        };
        let after_end = self.after_end(flight, network, last).min(ahead);
        let is_never_on = self.lane(network).frames == 0;
        let before_start = match is_never_on {
            true => self.lane(network).before_start.min(ahead - after_end),
            false => ZERO,
        };
        let missing = ahead - after_end - before_start;
        if is_never_on && missing.0 > 0 {
            let side = Side::of(network);
            let account = flight.accounts.of_link(self.place, Kind::NeverOn, side)?;
            let alone = Sign::on(Word::Alone, network.other());
            return flight.accounts.note(account, alone, since, ahead);
        }
        note_unrecorded(flight, network, Kind::Begins, since, before_start)?;
        note_unrecorded(flight, network, Kind::Ends, last, after_end)?;
        if self.lane(network).repeats_half() {
            self.note_behind(flight, network, Kind::NoNumber, since, missing)
        } else if missing < SOME || self.is_on_at(network, last) {
            self.note_behind(flight, network, Kind::Lost, since, missing)
        } else {
            self.note_stop_on(flight, network, since, missing)
        }
    }

    /// Does a network have the link's frames up to its last line, as far as 8 intervals tell?
    fn is_on_at(&self, network: Network, last: Time) -> bool {
        last - self.lane(network).latest < self.rate.usual().max(self.bag) * 8
    }

    /// How many frames of the other network came after a network's last line, SkewMax allowed: of those that
    /// aren't from before a line for sure, all but the ones that the window knows to be earlier.
    fn after_end(&self, flight: &Flight, network: Network, last: Time) -> Long {
        let offset = match network {
            Network::A => -flight.clocks.offset,
            Network::B => flight.clocks.offset,
        };
        let (lane, twin) = (self.lane(network), self.lane(network.other()));
        let open = lane.ahead - lane.before_line;
        let (mut count, mut later) = (ZERO, ZERO);
        for back in 0..WINDOW {
            let position = twin.head - back;
            let is_open = position > lane.head && count < open && twin.window.is_seen(Long(back));
            if is_open {
                count = count + 1;
                later = later
                    + i64::from(twin.window.time(position) + offset > last - self.skew_max);
            }
        }
        open - (count - later)
    }

    /// Notes so many frames that a network didn't get in the lane's account of a kind.
    fn note_behind(
        &self,
        flight: &mut Flight,
        network: Network,
        kind: Kind,
        since: Time,
        ahead: Long,
    ) -> Result<(), AllocError> {
        let account = flight
            .accounts
            .of_link(self.place, kind, Side::of(network))?;
        flight.accounts.note(
            account,
            Sign::on(Word::Alone, network.other()),
            since,
            ahead,
        )?;
        flight
            .accounts
            .note(account, Sign::on(Word::Lost, network), since, ahead)
    }

    /// The link stopped on one network, and goes on on the other.
    fn note_stop_on(
        &self,
        flight: &mut Flight,
        network: Network,
        since: Time,
        ahead: Long,
    ) -> Result<(), AllocError> {
        let side = Side::of(network);
        let account = flight.accounts.open(Kind::StopsOn, Some(self.place), side)?;
        flight.accounts.note(
            account,
            Sign::on(Word::Alone, network.other()),
            since,
            ahead,
        )?;
        flight
            .accounts
            .note(account, Sign::on(Word::Lost, network), since, ahead)?;
        let from = self.lane(network).latest;
        let to = flight.networks.of(network.other()).last.unwrap_or(from);
        flight.accounts.widen(account, Span { from, to });
        let room = self.rate.usual() * 2;
        self.take_at_end(
            flight,
            Kind::StopsOn,
            side,
            account,
            Span {
                from,
                to: from + room,
            },
        )
    }
}

/// Notes so many frames of the other network that a recording couldn't have.
fn note_unrecorded(
    flight: &mut Flight,
    network: Network,
    kind: Kind,
    at: Time,
    count: Long,
) -> Result<(), AllocError> {
    if count.0 <= 0 {
        return Ok(());
    }
    let account = flight.accounts.of_network(kind, network)?;
    let unrecorded = Sign::on(Word::Unrecorded, network);
    flight.accounts.note(account, unrecorded, at, count)
}
