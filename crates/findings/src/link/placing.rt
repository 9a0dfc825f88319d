//! Where a frame's number puts it, and what numbers say that don't fit.
use super::{Arrival, Frame, LinkState, OLD_RUN};
use crate::accounts::Handle;
use crate::fit::{Fit, Guess, Seen, fit_of, goes_on};
use crate::flight::Flight;
use crate::kind::Kind;
use crate::lane::{HeldBack, WINDOW, steps_between};
use crate::long::{Long, Position, SECOND, Time, ZERO};
use crate::signs::{Side, Sign, Word};
use afdx_frame::Network;
use std::alloc::AllocError;

impl LinkState {
    /// The frame that was held back is decided by its successor. When the lane's frame before came.
    pub(super) fn settle_held(
        &mut self,
        flight: &mut Flight,
        frame: &Frame,
        before: Time,
    ) -> Result<Time, AllocError> {
        let lane = self.lane_mut(frame.network);
        let Some(held) = lane.held.take() else {
            return Ok(before);
        };
        let accepted = if held.number == 0 {
            (1..=3).contains(&frame.number)
        } else {
            !goes_on(lane.number, frame.number) && goes_on(held.number, frame.number)
        };
        if accepted {
            self.accept_held(flight, frame.network, held)?;
            return Ok(held.at);
        }
        self.stray(flight, frame.network, held)?;
        Ok(before)
    }

    /// The frame that was held back is a stray.
    pub fn stray(
        &mut self,
        flight: &mut Flight,
        network: Network,
        held: HeldBack,
    ) -> Result<(), AllocError> {
        let kind = self.kind_of_still(flight, network, held.number, (Kind::Stray, held.at))?;
        let account = self.strange(flight, kind, network, held.own, held.at)?;
        flight
            .accounts
            .hit(account, Sign::on(Word::Stray, network), held.at)?;
        if held.out {
            flight
                .accounts
                .hit(account, Sign::on(Word::Out, network), held.at)?;
        }
        let lane = self.lane_mut(network);
        lane.last = Some(account);
        lane.strange = Some(account);
        lane.strangers = lane.strangers + 1;
        Ok(())
    }

    /// The frame that was held back goes on from a new number: 0 as a reset, any other as a jump.
    fn accept_held(
        &mut self,
        flight: &mut Flight,
        network: Network,
        held: HeldBack,
    ) -> Result<(), AllocError> {
        let mut own = held.own;
        let position = if held.number == 0 {
            self.position_of_reset(network, held.at)
        } else {
            let account = match own {
                Some(account) => account,
                None => self.account(flight, Kind::Jump, network)?,
            };
            flight
                .accounts
                .hit(account, Sign::on(Word::Jump, network), held.at)?;
            own = Some(account);
            self.lane(network).head + 1
        };
        let lane = self.lane_mut(network);
        lane.base = position - Long(i64::from(held.number));
        lane.base_from = position;
        let target = self.accept(
            flight,
            &Arrival {
                network,
                position,
                number: held.number,
                at: held.at,
                before: held.before,
                delivered: held.delivered,
                guess: Guess::Sure,
            },
        )?;
        self.lane_mut(network).anew = held.at;
        if held.out {
            self.note_out(flight, network, held.at, target.or(own))?;
        }
        Ok(())
    }

    /// Where number 0 stands: the next position, or where the other network saw the same reset.
    fn position_of_reset(&mut self, network: Network, at: Time) -> Position {
        if self.lane(network).number == 255 {
            self.wraps = self.wraps.saturating_add(1);
        }
        let (lane, twin) = (self.lane(network), self.lane(network.other()));
        let next = lane.head + 1;
        let same = twin.begun && twin.base != lane.base && twin.anew >= at - SECOND * 2;
        if same && twin.base > lane.head - WINDOW {
            next.max(twin.base)
        } else {
            next
        }
    }

    /// A frame that is out has its sign in the account of what it is out by.
    pub(super) fn note_out(
        &mut self,
        flight: &mut Flight,
        network: Network,
        at: Time,
        by: Option<Handle>,
    ) -> Result<(), AllocError> {
        let account = match by.or(self.lane(network).last) {
            Some(account) => account,
            None => self.account(flight, Kind::Out, network)?,
        };
        flight
            .accounts
            .hit(account, Sign::on(Word::Out, network), at)
    }

    /// The account of a strange number, which takes its frame's sign of policing; a frame that is too long
    /// keeps both.
    fn strange(
        &mut self,
        flight: &mut Flight,
        kind: Kind,
        network: Network,
        own: Option<Handle>,
        at: Time,
    ) -> Result<Handle, AllocError> {
        match own {
            Some(own) if flight.accounts.kind(own) == Some(Kind::TooLong) => Ok(own),
            Some(own) => {
                let account = self.account(flight, kind, network)?;
                let excess = Sign::on(Word::Excess, network);
                flight.accounts.transfer(own, account, excess, at)?;
                Ok(account)
            }
            None => self.account(flight, kind, network),
        }
    }

    /// Places a frame by its number.
    pub(super) fn place_frame(
        &mut self,
        flight: &mut Flight,
        frame: &Frame,
        own: Option<Handle>,
        before: Time,
    ) -> Result<(), AllocError> {
        let network = frame.network;
        let seen = Seen {
            number: frame.number,
            at: frame.at,
            before,
        };
        let (bag, rate) = (self.bag, self.rate);
        let (lane, twin) = self.lanes(network);
        let (position, guess) = match fit_of(lane, twin, &rate, bag, &seen) {
            Fit::At { position, guess } => (position, guess),
            Fit::Again { back } => {
                if self.again(flight, frame, own, back)? {
                    return Ok(());
                }
                (self.go_on_from(frame, before), Guess::Sure)
            }
            Fit::Fills { back } => return self.fill(flight, frame, back),
            Fit::HeldBack => {
                lane.held = Some(held_back(frame, own, before));
                return Ok(());
            }
        };
        self.lane_mut(network).old_run = 0;
        let target = self.accept(
            flight,
            &Arrival {
                network,
                position,
                number: frame.number,
                at: frame.at,
                before,
                delivered: frame.delivered,
                guess,
            },
        )?;
        match frame.out {
            true => self.note_out(flight, network, frame.at, own.or(target)),
            false => Ok(()),
        }
    }

    /// The position of a frame whose sender goes on from an old number: the frames before it that showed it
    /// came too.
    fn go_on_from(&mut self, frame: &Frame, before: Time) -> Position {
        let (lane, twin) = self.lanes(frame.network);
        for _frame in 0..OLD_RUN {
            lane.head = lane.head + 1;
            lane.window.advance(Long(1), true, false);
            lane.window.set_time(lane.head, before);
        }
        lane.ahead = twin.window.seen_of_latest(twin.head - lane.head);
        let next = lane.head + 1;
        lane.base = next - Long(i64::from(frame.number));
        lane.base_from = next;
        lane.anew = frame.at;
        next
    }

    /// A number that came before. False: the sender goes on from an old number.
    fn again(
        &mut self,
        flight: &mut Flight,
        frame: &Frame,
        own: Option<Handle>,
        back: Long,
    ) -> Result<bool, AllocError> {
        let (network, at) = (frame.network, frame.at);
        let (skew_max, soon) = (self.skew_max, self.soon());
        let lane = self.lane_mut(network);
        lane.repeats = lane.repeats.saturating_add(1);
        let since = at - lane.window.time(lane.head - back);
        let follows = lane
            .old_number
            .is_some_and(|old| steps_between(old, frame.number) == Long(1));
        lane.old_number = Some(frame.number);
        if back != ZERO && follows && since > skew_max {
            lane.old_run = lane.old_run.saturating_add(1);
        } else if back != ZERO {
            lane.old_run = 0;
        }
        if lane.old_run >= OLD_RUN {
            lane.old_run = 0;
            self.jump_back(flight, network, at)?;
            return Ok(false);
        }
        let kind = if since < soon {
            Kind::Twice
        } else if back == ZERO {
            Kind::Stuck
        } else {
            self.kind_of_still(flight, network, frame.number, (Kind::Old, at))?
        };
        let account = self.strange(flight, kind, network, own, at)?;
        self.note_repeat(flight, frame, account, kind, since)?;
        Ok(true)
    }

    /// A frame so long after one with its number is that one again: half of the interval, or three quarters of
    /// it where jitter never brings the next frame so soon.
    fn soon(&self) -> Time {
        let usual = self.rate.usual();
        (usual / 2).max((usual * 3 / 4).min(self.least_interval()))
    }

    /// The kind of a number that doesn't fit, which is of this kind unless so many in a row have it that the
    /// number stands still. The frames that showed it do so too.
    fn kind_of_still(
        &mut self,
        flight: &mut Flight,
        network: Network,
        number: u8,
        (kind, at): (Kind, Time),
    ) -> Result<Kind, AllocError> {
        let run = self.lane_mut(network).note_still(number);
        if run <= OLD_RUN {
            return Ok(kind);
        }
        if run == OLD_RUN.saturating_add(1) {
            let still = self.account(flight, Kind::Stuck, network)?;
            self.move_shown(flight, network, (kind, at), still)?;
        }
        Ok(Kind::Stuck)
    }

    /// The sender goes on from an old number: the frames that showed it belong to the jump.
    fn jump_back(
        &mut self,
        flight: &mut Flight,
        network: Network,
        at: Time,
    ) -> Result<(), AllocError> {
        let jump = self.hit(flight, Kind::Jump, Word::Jump, network, at)?;
        self.move_shown(flight, network, (Kind::Old, at), jump)
    }

    /// Moves the signs of the latest frames in the lane's account of a kind, which showed what another
    /// account tells, to that.
    fn move_shown(
        &mut self,
        flight: &mut Flight,
        network: Network,
        (kind, at): (Kind, Time),
        to: Handle,
    ) -> Result<(), AllocError> {
        let Some(from) = flight.accounts.find(self.place, kind, Side::of(network)) else {
            return Ok(());
        };
        for word in [Word::Repeat, Word::Stray, Word::Out] {
            for _frame in 0..OLD_RUN {
                let sign = Sign::on(word, network);
                flight.accounts.transfer(from, to, sign, at)?;
            }
        }
        Ok(())
    }

    /// Notes a frame with a number that came before.
    fn note_repeat(
        &mut self,
        flight: &mut Flight,
        frame: &Frame,
        account: Handle,
        kind: Kind,
        since: Time,
    ) -> Result<(), AllocError> {
        let (network, at) = (frame.network, frame.at);
        flight
            .accounts
            .hit(account, Sign::on(Word::Repeat, network), at)?;
        if frame.out {
            flight
                .accounts
                .hit(account, Sign::on(Word::Out, network), at)?;
        }
        if let Some(facts) = flight
            .accounts
            .facts_mut(account)
            .filter(|_| kind == Kind::Twice)
        {
            facts.most = facts.most.max(since);
        }
        let lane = self.lane_mut(network);
        if kind == Kind::Old {
            lane.strange = Some(account);
            lane.strangers = lane.strangers + 1;
        }
        lane.last = Some(account);
        Ok(())
    }

    /// A number that was missing came after its successors: the loss that was counted is taken back.
    fn fill(&mut self, flight: &mut Flight, frame: &Frame, back: Long) -> Result<(), AllocError> {
        let (network, at) = (frame.network, frame.at);
        let account = self.hit(flight, Kind::Reordered, Word::Reordered, network, at)?;
        let redundancy = self.redundancy;
        let (lane, twin) = self.lanes(network);
        let position = lane.head - back;
        lane.window.fill(back, frame.delivered);
        lane.window.set_time(position, at);
        lane.last = Some(account);
        let twin_back = twin.head - position;
        let came = twin.begun && twin.window.is_seen(twin_back);
        let late = came && frame.delivered && twin.window.is_delivered(twin_back);
        if twin.begun && redundancy && twin_back < ZERO {
            twin.ahead = twin.ahead + 1;
        }
        let passed = twin.begun && redundancy && twin_back >= ZERO && twin_back.0 < WINDOW;
        let (loss, twin_loss) = (lane.loss, twin.loss);
        if loss.is_some() {
            let came = passed.then_some(came);
            self.take_loss_back(flight, frame, (loss, twin_loss), came)?;
        }
        if frame.out {
            flight
                .accounts
                .hit(account, Sign::on(Word::Out, network), at)?;
        }
        if late {
            flight
                .accounts
                .hit(account, Sign::on(Word::Late, network), at)?;
        }
        Ok(())
    }

    /// A number that was counted as missing came. `came`: did it on the other network, if that passed it?
    fn take_loss_back(
        &mut self,
        flight: &mut Flight,
        frame: &Frame,
        (loss, twin_loss): (Option<Handle>, Option<Handle>),
        came: Option<bool>,
    ) -> Result<(), AllocError> {
        let (network, at, side) = (frame.network, frame.at, Side::of(frame.network));
        let lost = flight.accounts.find(self.place, Kind::Lost, side);
        let absent = flight.accounts.find(self.place, Kind::Absent, side);
        let homes = [loss, lost, absent];
        let accounts = &mut flight.accounts;
        if !accounts.retract(Sign::on(Word::Lost, network), at, &homes)? {
            let _skipped = accounts.retract(Sign::on(Word::Skipped, network), at, &homes)?;
        }
        match came {
            Some(true) => {
                let alone = Sign::on(Word::Alone, network.other());
                let _alone = accounts.retract(alone, at, &homes)?;
                Ok(())
            }
            Some(false) => self.move_to_alone(flight, network, at, [loss, twin_loss, lost]),
            None => Ok(()),
        }
    }

    /// Moves numbers that were missing on both networks and came on this one after all.
    fn move_to_alone(
        &mut self,
        flight: &mut Flight,
        network: Network,
        at: Time,
        homes: [Option<Handle>; 3],
    ) -> Result<(), AllocError> {
        let _both = flight
            .accounts
            .retract(Sign::of(Word::Both), at, homes.as_slice())?;
        let [_, twin_loss, _] = homes;
        let account = match twin_loss {
            Some(account) => account,
            None => self.account(flight, Kind::Lost, network.other())?,
        };
        flight
            .accounts
            .hit(account, Sign::on(Word::Alone, network), at)
    }
}

/// A frame whose number doesn't fit.
fn held_back(frame: &Frame, own: Option<Handle>, before: Time) -> HeldBack {
    HeldBack {
        number: frame.number,
        at: frame.at,
        before,
        delivered: frame.delivered,
        out: frame.out,
        own,
    }
}
