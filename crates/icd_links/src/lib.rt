//! The virtual links that an interface control document (ICD) specifies, as separated values (RFC 4180).
//!
//! The first row that isn't blank has the heads of the columns, in any order: `id`, and those that the
//! document has of `name`, `bag_ms`, `jitter_us`, `smax`, `integrity`, `redundancy`, `skew_us` and `group`,
//! with the meaning, the units and the ranges of the table's keys of these names ([`vl_config::Key`]), or a
//! synonym of one of them. Other columns are passed over. A blank cell specifies nothing. The columns, their
//! synonyms and the values are this project's profile.
#![tactic(auto)]

mod cell;
mod columns;
mod document;
mod fault;
mod faults;
mod given;
mod head;
mod link;
mod links;
mod name;
mod quotes;
mod row;

pub use fault::{HeadFault, IcdFault};
pub use faults::{IcdCell, IcdFaults, IcdRefusal, ListedFault, MAX_LISTED};
pub use given::{GivenHeads, WrongColumn};
pub use link::IcdLink;
pub use links::IcdLinks;
