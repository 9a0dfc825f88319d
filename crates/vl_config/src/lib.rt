//! The table of virtual links: what the receiver is configured with, and the class of a frame under
//! it.
//!
//! The table is a TOML document. [`Config::read`] reads it, or returns its first fault; `vl_judge`
//! makes a lane for each [`Link`], and [`Config::class`] says which frames a link's judgements see.
//!
//! ```text
//! constant = 50331648        # 03 00 00 00, the first four bytes of each destination address
//! late_us = 0                # how far a timestamp may lie below an earlier one (0 if absent)
//! filters = []               # up to 7 more filters in the numeric form (none if absent)
//!
//! [[link]]
//! id = 5
//! name = "brake"
//! bag_ms = 1
//! jitter_us = 0
//! smax = 200
//! integrity = true
//! redundancy = true
//! skew_us = 1000
//! ```
#![tactic(auto)]

mod class;
mod config;
mod fault;
mod faulty;
mod key;
mod link;
mod read;
mod tables;

pub use class::{CHECK_LENGTH, Class, class_by};
pub use config::{Config, MAX_LINKS, MAX_TABLE_FILTERS};
pub use fault::ConfigFault;
pub use faulty::{FaultyKey, faulty_key};
pub use key::{Key, LINK_KEYS, TOP_KEYS};
pub use link::Link;
pub use tables::{
    is_missing, is_other_kind, is_out_of_range, is_unknown, number_at, text_at, values_at,
};
