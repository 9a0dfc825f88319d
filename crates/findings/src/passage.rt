//! Numbers that are missing on a network, or a pause of one: is its cause the network's own pause?
use crate::accounts::{Handle, Span};
use crate::fit::Guess;
use crate::flight::Flight;
use crate::groups::Event;
use crate::kind::Kind;
use crate::link::LinkState;
use crate::long::{Long, Position, Time, ZERO};
use crate::network::Pause;
use crate::signs::{Side, Sign, Word};
use afdx_frame::Network;
use std::alloc::AllocError;

/// From so many missing numbers on, other links may have lost theirs at the same time.
const SOME: Long = Long(3);

/// The numbers between, by a lane's arrival: how many are missing where.
#[derive(Clone, Copy)]
pub struct Missing {
    /// How many there are, how many of them came on the other network, and how many on neither.
    pub all: Long,
    pub alone: Long,
    pub both: Long,
}

/// Two frames of a lane, one after the other, with missing numbers or a pause between.
#[derive(Clone, Copy)]
pub struct Passage {
    pub network: Network,
    /// From the first of them to the second.
    pub span: Span,
    /// The position of the first.
    pub from: Position,
    pub missing: Missing,
    pub guess: Guess,
    /// Did neither network have a frame of the link?
    pub sender: bool,
    /// Do the numbers begin anew with the second?
    pub anew: bool,
}

impl Passage {
    fn time(&self) -> Time {
        self.span.length()
    }

    fn misses(&self) -> bool {
        self.missing.all.0 > 0
    }

    fn side(&self) -> Side {
        Side::of(self.network)
    }

    /// Notes what is missing, and says in which account.
    pub fn note(
        &self,
        flight: &mut Flight,
        link: &LinkState,
    ) -> Result<Option<Handle>, AllocError> {
        if let Some(hole) = flight.networks.of(self.network).hole_in(self.span) {
            return Ok(Some(self.note_torn(flight, hole)?));
        }
        let lane = link.lane(self.network);
        let in_place = lane.strange.filter(|_| lane.strangers == self.missing.all);
        let pause = flight
            .networks
            .of(self.network)
            .longest_since(self.span.from);
        let pause = pause.filter(|pause| self.is_by(flight, link, *pause));
        if let (Some(pause), true) = (pause, in_place.is_none()) {
            return Ok(Some(self.note_gap(flight, link, pause)?));
        }
        if !self.misses() {
            return Ok(None);
        }
        if in_place.is_none() && self.missing.all >= SOME {
            return Ok(Some(self.note_absence(flight, link)?));
        }
        // As many frames with another number may stand in their place.
        let account = match in_place {
            Some(strange) => strange,
            None => flight
                .accounts
                .of_link(link.place, Kind::Lost, self.side())?,
        };
        self.note_loss(flight, account)?;
        Ok(Some(account))
    }

    /// Does a pause of the network explain what is missing? It doesn't where a sender that was off begins anew.
    fn is_by(&self, flight: &Flight, link: &LinkState, pause: Pause) -> bool {
        if self.anew && !self.misses() {
            return false;
        }
        let typical = link.rate.typical();
        let length = pause.length;
        if !flight.networks.of(self.network).is_long(length) {
            return false;
        }
        if !self.misses() {
            let rest = self.time() - length;
            let usual = link.rate.limit.filter(|_| link.rate.interval.is_none());
            return rest <= typical * 2 + link.jitter || usual.is_some_and(|limit| rest < limit);
        }
        let slack = typical.max(link.bag) * 2;
        let missing = self.missing.all;
        let holds = (missing - 1) * link.bag <= length + link.bag;
        let enough = missing < SOME || length >= self.time() - missing * typical / 2 - slack;
        let alone = self.missing.alone.0 > 0;
        let whole = length >= self.time() - slack;
        if alone {
            holds && self.is_within(flight, link, pause)
        } else {
            holds && enough && whole
        }
    }

    /// Were the first and the last missing number on the other network during the pause, where that is known?
    fn is_within(&self, flight: &Flight, link: &LinkState, pause: Pause) -> bool {
        let twin = link.lane(self.network.other());
        let room = link.skew_max.min(pause.length / 2);
        let offset = match self.network {
            Network::A => -flight.clocks.offset,
            Network::B => flight.clocks.offset,
        };
        [self.from + 1, self.from + self.missing.all]
            .iter()
            .all(|position| {
                let at = twin.window.time(*position) + offset;
                !twin.window.is_seen(twin.head - *position)
                    || pause.from - room <= at && at <= pause.to() + room
            })
    }

    /// The recording lacks a part between the two frames: what is missing there isn't recorded.
    fn note_torn(&self, flight: &mut Flight, hole: Span) -> Result<Handle, AllocError> {
        let account = flight.accounts.of_network(Kind::Torn, self.network)?;
        let sign = Sign::on(Word::Unrecorded, self.network);
        flight
            .accounts
            .note(account, sign, hole.from, self.missing.all)?;
        Ok(account)
    }

    /// Notes the missing numbers.
    fn note_loss(&self, flight: &mut Flight, account: Handle) -> Result<(), AllocError> {
        let (network, at) = (self.network, self.span.to);
        let missing = self.missing;
        flight
            .accounts
            .note(account, Sign::on(Word::Lost, network), at, missing.all)?;
        let held = flight.networks.of_mut(network);
        held.lost = held.lost.saturating_add(missing.all.count());
        flight.accounts.note(
            account,
            Sign::on(Word::Alone, network.other()),
            at,
            missing.alone,
        )?;
        flight
            .accounts
            .note(account, Sign::of(Word::Both), at, missing.both)?;
        if let Some(facts) = flight.accounts.facts_mut(account) {
            if self.guess == Guess::Estimate {
                facts.estimated = facts.estimated + missing.all;
            }
            facts.at_least = facts.at_least || self.guess == Guess::AtLeast;
        }
        Ok(())
    }

    /// They are missing in a pause of the network.
    fn note_gap(
        &self,
        flight: &mut Flight,
        link: &LinkState,
        pause: Pause,
    ) -> Result<Handle, AllocError> {
        let account = flight
            .accounts
            .open(Kind::Gap, Some(link.place), self.side())?;
        flight.accounts.widen(account, self.span);
        self.note_loss(flight, account)?;
        let missing = self.missing.all;
        if let Some(facts) = flight.accounts.facts_mut(account) {
            facts.missing = missing;
            facts.sender = self.sender;
        }
        let interval = link.rate.interval;
        let few = |interval: Time| (missing + 2) * 2 < self.time() / interval;
        flight.take(Event {
            kind: Kind::Gap,
            side: self.side(),
            span: Span {
                from: pause.from,
                to: pause.to(),
            },
            account,
            link: link.place,
            crosses: missing == ZERO || interval.is_some_and(few),
            size: interval.map_or(
                pause.length,
                |interval| self.time() - interval * (missing + 1),
            ),
        })
    }

    /// They are missing while the network has other frames.
    fn note_absence(&self, flight: &mut Flight, link: &LinkState) -> Result<Handle, AllocError> {
        let account = flight
            .accounts
            .open(Kind::Absent, Some(link.place), self.side())?;
        flight.accounts.widen(account, self.span);
        self.note_loss(flight, account)?;
        flight.take(Event {
            kind: Kind::Absent,
            side: self.side(),
            span: self.span,
            account,
            link: link.place,
            crosses: false,
            size: ZERO,
        })
    }
}
