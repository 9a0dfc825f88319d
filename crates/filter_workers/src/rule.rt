//! The rule that any two steps of threads at a desk keep. The proofs need the names of the steps; they do
//! nothing when they run.
ghost use Rattle.filter_workers.specs.Claims.{Draws, Looks, first_view, joined, keeps_half, Keeps, other_half, spent};

use crate::view::SeatView;
use atomic_table::{Join, Play, Split, TableRule};

/// The rule of the one word of a desk, which is the next number to draw.
pub struct ClaimRule;

impl TableRule<(), SeatView, u64> for ClaimRule {
    ghost holds = { Keeps };

    ghost first = { first_view };
}

/// One `fetch_add` draws a number, or finds that none is left.
pub struct Draw;

impl Play<(), SeatView> for Draw {
    ghost then = { Draws };
}

/// A load that shows how much room a seat can have.
pub struct Look;

impl Play<(), SeatView> for Look {
    ghost then = { Looks };
}

/// A seat gives half of its room to a new one.
pub struct Halve;

impl Split<SeatView> for Halve {
    ghost left = { keeps_half };

    ghost right = { other_half };
}

/// A seat takes another in.
pub struct TakeIn;

impl Join<SeatView> for TakeIn {
    ghost both = { joined };

    ghost spent = { spent };
}
