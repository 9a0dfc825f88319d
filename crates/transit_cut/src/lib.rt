//! Cuts the frames of a switch's two recordings that lines of their ledger of transits select: a frame that
//! went in, and the one that came out of it, each with the line's outcome as its comment.
#![tactic(auto)]

mod bounds;
mod comment;
mod cut;
mod fault;
mod neighbours;
mod outcomes;
mod output;
mod selection;

pub use cut::{TransitChoice, TransitCutRun, cut_transits};
pub use fault::TransitCutFault;
pub use neighbours::{TransitNeighboursRun, transit_neighbours_of};
pub use outcomes::OutcomeSet;
pub use output::TransitFormat;
pub use selection::TransitSelection;
