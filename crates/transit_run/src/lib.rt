//! A switch and the frames that went in: one pass over two recordings, made by one clock at a
//! port in and at a port out.
//!
//! A [`Pass`] is shown the frames of both recordings in the order of their moments, and writes a line for
//! each frame that went in, and for each that came out and never went in, as soon as what became of it is
//! certain. Then it has the counts. It holds the frames of twice the window, and no more.
#![tactic(auto)]

mod counts;
mod facts;
mod floor;
mod kind;
mod lane;
mod latency;
mod ledger;
mod line;
mod notes;
mod options;
mod order;
mod outcome;
mod pairing;
mod pass;
mod policer;
mod reach;
mod rows;
mod silence;
mod summary;
mod tally;

pub use floor::Step;
pub use kind::{FaultFrame, Faults, Kind, KindTally};
pub use lane::LinkTransits;
pub use latency::{BORDERS, Latency, ROWS};
pub use options::Options;
pub use outcome::{Fate, Origin, Pair, Passage, fate_of, origin_of};
pub use pass::Pass;
pub use silence::Silence;
pub use tally::Tally;
