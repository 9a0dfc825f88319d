//! A draft of the table of virtual links, from what a survey has seen of them and a document specifies.
//!
//! The draft is a TOML document that `vl_config` reads. Of each link it has what the document specifies, and
//! of what that leaves out what was seen; comments say which is which, and where both differ.
#![tactic(auto)]

mod beside;
mod checked;
mod differences;
mod draft;
mod estimate;
mod known;
mod left_out;
mod recordings;
mod text;

pub use beside::Comparison;
pub use draft::{Draft, DraftFault, Sources, draft_of};
pub use estimate::Estimate;
pub use known::Drafted;
pub use left_out::{LeftOut, Unspecified};
pub use recordings::Recordings;
