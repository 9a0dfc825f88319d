//! How workers share a round without a lock: a number is claimed by one atomic step.
ghost use Rattle.std.specs.Prelude.{◌≡◌, ◌≢◌, ◌^◌, ◌<◌, ◌≤◌, IfOk, MatchResult};
ghost use Rattle.filter_workers.specs.Seats.{Claims, DrewAll, first_half, first_seat, joined_seat, second_half};

use crate::rule::{ClaimRule, Draw, Halve, Look, TakeIn};
use crate::view::SeatView;
use atomic_table::{Seat, Table};
use std::alloc::{AllocError, Global};
use std::marker::Model;

/// The seats of a desk: the first can be split into this many.
pub const DESK_SEATS: u64 = 128;

/// The most numbers of a desk.
pub const MAX_NUMBERS: u64 = 1 << 32;

/// Numbers from 0 on, which threads claim, each once. Contracts see which desk it is, and `len`,
/// how many numbers it has.
#[derive(Drop)]
pub struct ClaimDesk {
    table: Table<(), SeatView, u64, ClaimRule, Global>,
    len: u64,
}

impl Model for ClaimDesk {
    ghost use Rattle.std.specs.Prelude.{◌≡◌, ◌≤◌};
    ghost use Rattle.filter_workers.specs.Seats.{DeskId};
    ghost use Rattle.filter_workers.specs.declared.desk.TheConstants.{MAX_NUMBERS};

    ghost Value = { DeskId };

    ghost view = { λ d. record { table = d.table.shared.table_id; len = d.len } };

    ghost invariant = { λ d. (d.table.shared.key ≡ d.len) × (d.table.shared.table_id.words ≡ 1)
        × (d.table.shared.table_id.slots ≡ 0) × (d.len ≤ MAX_NUMBERS) };
}

/// A seat at a desk, for one thread at a time. Contracts see its desk, the numbers that it drew, its
/// room, and whether it has found that no number is left.
#[derive(Drop)]
pub struct DeskSeat {
    seat: Seat<(), SeatView>,
    room: u64,
    through: bool,
}

impl Model for DeskSeat {
    ghost use Rattle.std.specs.Prelude.{◌≡◌, ◌≤◌, []};
    ghost use Rattle.filter_workers.specs.Seats.{SeatState};

    ghost Value = { SeatState };

    ghost view = { λ s. record {
      desk = record { table = s.seat.table_id; len = s.seat.me.0.len };
      numbers = s.seat.me.0.numbers;
      room = s.room;
      through = s.through;
    } };

    ghost invariant = { λ s. (s.seat.me.1 ≡ []) × (s.seat.me.0.room ≡ s.room)
        × (s.seat.me.0.through ≡ s.through) × (1 ≤ s.room) };
}

impl ClaimDesk {
    /// A desk of `len` numbers, at most [`MAX_NUMBERS`], and its one seat, whose room is [`DESK_SEATS`].
    pub fn new(alloc: Global, len: u64) -> Result<(ClaimDesk, DeskSeat), AllocError>
        requires { len ≤ MAX_NUMBERS }
        ensures desk { IfOk result (λ made. made.0.len ≡ len) }
        ensures seat { IfOk result (λ made. made.1 ≡ first_seat made.0) }
    {
        let (table, seat) = Table::of_words(alloc, &[0], &len)?;
        let seat = DeskSeat {
            seat,
            room: DESK_SEATS,
            through: false,
        };
        Ok((ClaimDesk { table, len }, seat))
    }

    /// Claims the next number, or says that none is left. Either way the seat comes back.
    pub fn claim(&self, seat: DeskSeat) -> (Option<u64>, DeskSeat)
        requires { seat.desk ≡ self.now }
        ensures claim { Claims seat result.0 result.1 }
        ensures desk { result.1.desk ≡ self.now }
    {
        let mut seat = seat;
        if !seat.through {
            let number = self.table.shared.fetch_add::<Draw>(&mut seat.seat, 0, 1);
            if number < self.len {
                return (Some(number), seat);
            }
            seat.through = true;
        }
        (None, seat)
    }

    /// Splits a seat in two, each with half of its room; the first keeps the numbers, and the larger
    /// half of an odd room. A seat of room 1 comes back.
    pub fn split(&self, seat: DeskSeat) -> Result<(DeskSeat, DeskSeat), DeskSeat>
        requires { seat.desk ≡ self.now }
        ensures { MatchResult result
            (λ two. (1 < seat.room) × (two.0 ≡ first_half seat) × (two.1 ≡ second_half seat))
            (λ back. (seat.room ≡ 1) × (back ≡ seat)) }
    {
        if seat.room < 2 {
            return Err(seat);
        }
        let DeskSeat {
            mut seat,
            room,
            through,
        } = seat;
        let other = self.table.shared.split_seat::<Halve>(&mut seat);
        let half = room / 2;
        let kept = DeskSeat {
            seat,
            room: room - half,
            through,
        };
        let given = DeskSeat {
            seat: other,
            room: half,
            through,
        };
        Ok((kept, given))
    }

    /// Puts two seats together. The numbers of the second follow those of the first, and the rooms
    /// add up.
    pub fn join(&self, first: DeskSeat, second: DeskSeat) -> DeskSeat
        requires first { first.desk ≡ self.now }
        requires second { second.desk ≡ self.now }
        ensures { result ≡ joined_seat first second }
    {
        let DeskSeat {
            mut seat,
            room,
            through,
        } = first;
        let DeskSeat {
            seat: other,
            room: more,
            through: other_through,
        } = second;
        self.table.shared.join_seat::<TakeIn>(&mut seat, other);
        // It shows that the two rooms together are at most the desk's.
        self.table.shared.load::<Look>(&mut seat, 0);
        DeskSeat {
            seat,
            room: room + more,
            through: through || other_through,
        }
    }

    /// Closes the desk with the seat that has all its room, and returns how many of its numbers were
    /// drawn. With another seat both come back.
    pub fn close(self, seat: DeskSeat) -> Result<u64, (ClaimDesk, DeskSeat)>
        requires { seat.desk ≡ self }
        ensures { MatchResult result
            (λ drawn. (seat.room ≡ DESK_SEATS) × DrewAll seat drawn)
            (λ back. (seat.room ≢ DESK_SEATS) × (back.0 ≡ self) × (back.1 ≡ seat)) }
    {
        if seat.room != DESK_SEATS {
            return Err((self, seat));
        }
        let ClaimDesk { table, len } = self;
        let DeskSeat {
            seat,
            room: _,
            through: _,
        } = seat;
        let closed = table.close_with(seat);
        let next = closed.word(0);
        closed.free();
        Ok(next.min(len))
    }
}
