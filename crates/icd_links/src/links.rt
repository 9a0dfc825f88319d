//! The links of a document.

use crate::document::{Document, is_blank};
use crate::fault::{HeadFault, IcdFault};
use crate::faults::{IcdFaults, IcdRefusal};
use crate::given::GivenHeads;
use crate::link::IcdLink;
use crate::quotes::stray_quote;
use crate::row::Reading;
use csv::StringRecord;
use std::alloc::Global;

/// The virtual links that a document specifies, no two of one identifier or one name.
#[derive(Drop)]
pub struct IcdLinks {
    links: Vec<IcdLink>,
}

impl IcdLinks {
    /// No link.
    pub fn new(alloc: Global) -> IcdLinks {
        IcdLinks {
            links: Vec::new(alloc),
        }
    }

    /// Reads a document, or returns its faults.
    ///
    /// # Errors
    ///
    /// The first fault is of a quote that isn't closed or that text follows, wherever it stands; of it
    /// nothing else is known. Then come rows of another length than the heads, whose cells aren't read; then
    /// the heads; then row by row each cell that has none of its column's values, an identifier and a name
    /// that an earlier row has, and the row after the first [`vl_config::MAX_LINKS`] links, the last that is
    /// read.
    /// `Memory` if there is none.
    pub fn read(alloc: Global, text: &str, given: &GivenHeads<'_>) -> Result<IcdLinks, IcdRefusal> {
        let document = Document::of(text);
        if let Some(at) = stray_quote(document.text.as_bytes(), document.separator) {
            let line = document.line_at(at as u64);
            return Err(refusal_of(alloc, IcdFault::Quote { line }));
        }
        let Ok(rows) = document.rows(alloc) else {
            return Err(IcdRefusal::Memory);
        };
        let Some(heads) = rows.iter().position(|row| !is_blank(row)) else {
            let wrong = HeadFault::NoId;
            return Err(refusal_of(alloc, IcdFault::Head { line: 1, wrong }));
        };
        read_rows(alloc, document, &rows, heads, given)
    }

    /// The links by rising identifier.
    pub fn links(&self) -> &[IcdLink] {
        self.links.as_slice()
    }
}

/// A document is refused with this one fault.
fn refusal_of(alloc: Global, fault: IcdFault) -> IcdRefusal {
    let mut faults = IcdFaults::new(alloc);
    match faults.list(fault, None) {
        Ok(()) => IcdRefusal::Faults(faults),
        Err(_) => IcdRefusal::Memory,
    }
}

/// The links of rows of which that of this index has the heads.
fn read_rows(
    alloc: Global,
    document: Document<'_>,
    rows: &[StringRecord],
    heads: usize,
    given: &GivenHeads<'_>,
) -> Result<IcdLinks, IcdRefusal> {
    let Some((first, rows)) = rows.get(heads..).and_then(|rows| rows.split_first()) else {
        return Err(IcdRefusal::Memory);
    };
    let mut reading = Reading::new(alloc, document, first, given)?;
    for row in rows {
        reading.check_length(row)?;
    }
    reading.check_heads(given)?;
    for row in rows {
        if reading.is_aligned(row) && !reading.read_row(row)? {
            break;
        }
    }
    let Reading {
        mut links,
        faults,
        ..
    } = reading;
    if !faults.is_empty() {
        return Err(IcdRefusal::Faults(faults));
    }
    links.sort_by_key(|link| link.id.0)?;
    Ok(IcdLinks { links })
}
