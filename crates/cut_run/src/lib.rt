//! From a ledger and its recordings to the frames of selected lines.
//!
//! One pass over all three: each line of a frame is checked against its network's recording, selected or
//! not, and the frames of the selected lines are written in the ledger's order, whole as recorded.
#![tactic(auto)]

mod cut;
mod fault;
mod finder;
mod noting;
mod observer;
mod passed;
mod place;
mod print;
mod recordings;

pub use cut::{CutEnding, CutRun, cut_frames};
pub use fault::{CutFault, CutSource};
pub use finder::{FindFault, FrameFinder};
pub use noting::{NeighboursRun, neighbours_of};
pub use observer::{LineObserver, NoObserver};
pub use print::{LinesRun, print_lines};
