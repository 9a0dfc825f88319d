//! A fault of a table, and what it is about.

use std::alloc::Global;
use vl_config::{ConfigFault, Key};

/// A fault of a table, and the key that it is about.
#[derive(Drop)]
pub struct TableFault {
    /// The fault, with the index of its link.
    pub fault: ConfigFault,
    /// The key. None: the fault is of an unknown one, or of no single key.
    pub key: Option<Key>,
    /// The name that is none of the table's keys; else empty.
    pub unknown: String,
}

/// A fault of no single key.
pub fn of_whole(alloc: Global, fault: ConfigFault) -> TableFault {
    TableFault {
        fault,
        key: None,
        unknown: String::new(alloc),
    }
}

/// The fault of a key.
pub fn of_key(alloc: Global, fault: ConfigFault, key: Key) -> TableFault {
    TableFault {
        fault,
        key: Some(key),
        unknown: String::new(alloc),
    }
}
