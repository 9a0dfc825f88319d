//! Filters run on a frame, and how workers share a round of frames.
//!
//! [`filter_frame`] runs up to eight filters on a frame and returns a [`Decision`]: which filters accept
//! it, and the greatest of their return values.
//!
//! Which worker takes what is settled at a [`ClaimDesk`]: it has the numbers from 0 to a length, and a
//! [`DeskSeat`] for each worker. A claim is one atomic step and never waits. However the threads run, each
//! number is drawn once: a seat draws rising numbers, and the one seat that is left when all are joined
//! has drawn the numbers below some n in some order, all of them where it has found none left.
//!
//! ```
//! let (desk, seat) = ClaimDesk::new(alloc, 2)?;
//! let Ok((mine, theirs)) = desk.split(seat) else { unreachable!() };
//! let (first, mine) = desk.claim(mine);
//! let (second, theirs) = desk.claim(theirs);
//! let seat = desk.join(mine, theirs);
//! ```
//!
//! That the workers run at the same time isn't promised: a [`RunGate`] lets a test see it.
#![tactic(auto)]

mod decision;
mod desk;
mod gate;
mod rule;
mod view;

pub use decision::{Decision, MAX_FILTERS, answer_for, filter_frame};
pub use desk::{ClaimDesk, DESK_SEATS, DeskSeat, MAX_NUMBERS};
pub use gate::RunGate;
