//! The texts that a run is set up by: filters in the numeric form or as a source, and the table of virtual
//! links.
//!
//! ```text
//! let program = filter_of(alloc, "1,6 0 0 64,", None)?;
//! ```
#![tactic(auto)]

mod inputs;
mod text;

pub use inputs::{filter_of, filter_of_source, load_filters, read_config, read_file};
pub use text::{MAX_TEXT, TextRefusal, read_text};
