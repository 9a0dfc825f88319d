//! All faults of a document.

use crate::fault::IcdFault;
use std::alloc::{AllocError, AllocFailed, Global};

/// How many faults of a document are listed.
pub const MAX_LISTED: usize = 20;

/// How many characters of a cell are listed.
const MAX_CELL: usize = 40;

/// A cell that is wrong.
#[derive(Drop)]
pub struct IcdCell {
    /// Its column, from 0.
    pub place: usize,
    /// The head of its column: the first 40 characters, and `..` for further ones.
    pub head: String,
    /// The text that stands in it, likewise.
    pub text: String,
}

/// A fault, and the cell in which it lies, if that is one.
#[derive(Drop)]
pub struct ListedFault {
    pub fault: IcdFault,
    pub cell: Option<IcdCell>,
}

/// The faults of a document.
#[derive(Drop)]
pub struct IcdFaults {
    listed: Vec<ListedFault>,
    more: u64,
}

/// The beginning of a text that may be long.
fn beginning_of(alloc: Global, text: &str) -> Result<String, AllocError> {
    let mut beginning = String::new(alloc);
    for (count, character) in text.chars().enumerate() {
        if count == MAX_CELL {
            beginning.push_str("..")?;
            break;
        }
        beginning.push(character)?;
    }
    Ok(beginning)
}

impl IcdCell {
    /// A cell of this place, with its head and its text.
    pub fn of(alloc: Global, place: usize, head: &str, text: &str) -> Result<IcdCell, AllocError> {
        Ok(IcdCell {
            place,
            head: beginning_of(alloc, head)?,
            text: beginning_of(alloc, text)?,
        })
    }
}

impl IcdFaults {
    /// No fault.
    pub fn new(alloc: Global) -> IcdFaults {
        IcdFaults {
            listed: Vec::new(alloc),
            more: 0,
        }
    }

    /// Is there none?
    pub fn is_empty(&self) -> bool {
        self.listed.is_empty()
    }

    /// Are further faults only counted?
    pub fn is_full(&self) -> bool {
        self.listed.len() >= MAX_LISTED
    }

    /// Counts a fault that isn't listed.
    pub fn count(&mut self) {
        self.more = self.more.saturating_add(1);
    }

    /// Lists a fault.
    pub fn list(&mut self, fault: IcdFault, cell: Option<IcdCell>) -> Result<(), AllocError> {
        self.listed.push(ListedFault { fault, cell })?;
        Ok(())
    }

    /// The first [`MAX_LISTED`] faults: that of a quote alone; else those of rows of another length than the
    /// heads, then those of the heads, then those of the other rows. Each come as the document has them.
    pub fn listed(&self) -> &[ListedFault] {
        self.listed.as_slice()
    }

    /// How many faults aren't listed.
    pub fn more(&self) -> u64 {
        self.more
    }
}

/// Why there are no links.
#[derive(Drop)]
pub enum IcdRefusal {
    /// The document has these faults, one at least.
    Faults(IcdFaults),
    /// Out of memory.
    Memory,
}

impl IcdRefusal {
    /// The first fault.
    pub fn first(&self) -> IcdFault {
        match self {
            IcdRefusal::Faults(faults) => match faults.listed.first() {
                Some(listed) => listed.fault,
                None => IcdFault::Memory,
            },
            IcdRefusal::Memory => IcdFault::Memory,
        }
    }
}

impl From<AllocError> for IcdRefusal {
    fn from(_e: AllocError) -> IcdRefusal {
        IcdRefusal::Memory
    }
}

impl<T: Drop> From<AllocFailed<T>> for IcdRefusal {
    fn from(_e: AllocFailed<T>) -> IcdRefusal {
        IcdRefusal::Memory
    }
}
