//! The rows of a document, read one after another.

use crate::cell::{CellFault, flag_of, number_of};
use crate::columns::{Columns, Place, place_of};
use crate::document::{Document, cell_at, is_blank, start_of};
use crate::fault::{HeadFault, IcdFault};
use crate::faults::{IcdCell, IcdFaults};
use crate::given::GivenHeads;
use crate::link::IcdLink;
use crate::name::{group_of, is_held, made_of};
use afdx_frame::VlId;
use csv::StringRecord;
use std::alloc::{AllocError, Global};
use vl_config::{Key, LINK_KEYS, MAX_LINKS};

/// How many identifiers there are.
const IDS: usize = 65536;

/// The faults of a row.
#[derive(Clone, Copy)]
enum RowFault {
    Length,
    Value(Key),
    /// The row that begins there has the identifier.
    TwiceId(u64),
    /// The row that begins there has the name.
    TwiceName(u64),
    TooMany,
}

impl RowFault {
    /// The key whose cell is wrong.
    fn key(self) -> Option<Key> {
        match self {
            RowFault::Length | RowFault::TooMany => None,
            RowFault::Value(key) => Some(key),
            RowFault::TwiceId(_) => Some(Key::Id),
            RowFault::TwiceName(_) => Some(Key::Name),
        }
    }
}

/// Are both texts there, and the same?
fn are_same(one: &Option<String>, other: &Option<String>) -> bool {
    match (one, other) {
        (Some(one), Some(other)) => one.as_str() == other.as_str(),
        _ => false,
    }
}

/// A document that is read: the links and the faults of its rows so far.
#[derive(Drop)]
pub struct Reading<'a> {
    alloc: Global,
    document: Document<'a>,
    heads: &'a StringRecord,
    columns: Columns,
    /// Of each identifier 1 more than where its row begins; 0 where none has it.
    starts: Vec<u64>,
    pub links: Vec<IcdLink>,
    pub faults: IcdFaults,
}

impl<'a> Reading<'a> {
    /// The heads alone are read.
    pub fn new(
        alloc: Global,
        document: Document<'a>,
        heads: &'a StringRecord,
        given: &GivenHeads<'_>,
    ) -> Result<Reading<'a>, AllocError> {
        Ok(Reading {
            alloc,
            document,
            heads,
            columns: Columns::of(alloc, heads, given)?,
            starts: vec![in alloc; 0; IDS]?,
            links: Vec::new(alloc),
            faults: IcdFaults::new(alloc),
        })
    }

    /// Has a row as many cells as the heads, or none that is filled?
    pub fn is_aligned(&self, row: &StringRecord) -> bool {
        row.len() == self.heads.len() || is_blank(row)
    }

    /// Lists a row that has another length than the heads.
    pub fn check_length(&mut self, row: &StringRecord) -> Result<(), AllocError> {
        if self.is_aligned(row) {
            return Ok(());
        }
        self.refuse(row, RowFault::Length)
    }

    /// Lists what is wrong with the heads.
    pub fn check_heads(&mut self, given: &GivenHeads<'_>) -> Result<(), AllocError> {
        for key in LINK_KEYS {
            let place = place_of(self.alloc, self.heads, given, key)?;
            let (wrong, place) = match place {
                Place::None if key == Key::Id => (HeadFault::NoId, None),
                Place::None | Place::At(_) => continue,
                Place::Twice(place) => (HeadFault::Twice(key), Some(place)),
                Place::Absent => (HeadFault::Absent(key), None),
                Place::OtherUnit(place) => (HeadFault::Unit(key), Some(place)),
            };
            if self.faults.is_full() {
                self.faults.count();
                continue;
            }
            let line = self.document.line_at(start_of(self.heads));
            let cell = match place {
                Some(place) => Some(self.cell_of(self.heads, place)?),
                None => None,
            };
            self.faults.list(IcdFault::Head { line, wrong }, cell)?;
        }
        Ok(())
    }

    /// A cell of a row.
    fn cell_of(&self, row: &StringRecord, place: usize) -> Result<IcdCell, AllocError> {
        let head = cell_at(self.heads, Some(place));
        IcdCell::of(self.alloc, place, head, cell_at(row, Some(place)))
    }

    /// Lists what is wrong with a row, or counts it.
    fn refuse(&mut self, row: &StringRecord, wrong: RowFault) -> Result<(), AllocError> {
        if self.faults.is_full() {
            self.faults.count();
            return Ok(());
        }
        let line = self.document.line_at(start_of(row));
        let fault = match wrong {
            RowFault::Length => IcdFault::Length {
                line,
                cells: row.len(),
                heads: self.heads.len(),
            },
            RowFault::Value(column) => IcdFault::Value { line, column },
            RowFault::TwiceId(start) => IcdFault::TwiceId {
                line,
                earlier: self.document.line_at(start),
            },
            RowFault::TwiceName(start) => IcdFault::TwiceName {
                line,
                earlier: self.document.line_at(start),
            },
            RowFault::TooMany => IcdFault::TooMany { line },
        };
        let cell = match wrong.key().and_then(|key| self.columns.place(key)) {
            Some(place) => Some(self.cell_of(row, place)?),
            None => None,
        };
        self.faults.list(fault, cell)
    }

    /// The value of a cell, if it has one: else its column's fault is listed.
    fn taken<T: Copy>(
        &mut self,
        row: &StringRecord,
        key: Key,
        value: Result<Option<T>, CellFault>,
    ) -> Result<Option<T>, AllocError> {
        match value {
            Ok(value) => Ok(value),
            Err(CellFault::Value) => {
                self.refuse(row, RowFault::Value(key))?;
                Ok(None)
            }
            Err(CellFault::Memory) => Err(AllocError),
        }
    }

    fn number(&mut self, row: &StringRecord, key: Key) -> Result<Option<u64>, AllocError> {
        let (cell, commas) = (self.cell(row, key), self.document.has_decimal_commas());
        let value = number_of(self.alloc, key, cell, commas);
        self.taken(row, key, value)
    }

    fn flag(&mut self, row: &StringRecord, key: Key) -> Result<Option<bool>, AllocError> {
        let value = flag_of(self.cell(row, key), self.document.has_decimal_commas());
        self.taken(row, key, value)
    }

    /// The text in a row of a key's column.
    fn cell<'b>(&self, row: &'b StringRecord, key: Key) -> &'b str {
        cell_at(row, self.columns.place(key))
    }

    /// The identifier of a row. None: it is a fault, or no column has it.
    fn id(&mut self, row: &StringRecord) -> Result<Option<VlId>, AllocError> {
        let is_missing = self.columns.place(Key::Id).is_some()
            && self.cell(row, Key::Id).is_empty();
        if is_missing {
            self.refuse(row, RowFault::Value(Key::Id))?;
            return Ok(None);
        }
        let Some(id) = self.number(row, Key::Id)? else {
            return Ok(None);
        };
        Ok(u16::try_from(id).ok().map(VlId))
    }

    /// The link of a row, without its name.
    fn link_of(&mut self, row: &StringRecord, id: VlId) -> Result<IcdLink, AllocError> {
        let bag_ms = self.number(row, Key::BagMs)?;
        let jitter_us = self.number(row, Key::JitterUs)?;
        let smax = self.number(row, Key::Smax)?;
        let integrity = self.flag(row, Key::Integrity)?;
        let redundancy = self.flag(row, Key::Redundancy)?;
        let skew_us = self.number(row, Key::SkewUs)?;
        Ok(IcdLink {
            id,
            name: None,
            original: None,
            bag_ms,
            jitter_us,
            smax,
            integrity,
            redundancy,
            skew_us,
            group: self.group(row)?,
        })
    }

    /// The group of a row's link, if it has one, in the characters that a table holds.
    fn group(&self, row: &StringRecord) -> Result<Option<String>, AllocError> {
        let group = group_of(self.alloc, self.cell(row, Key::Group))?;
        Ok(if group.is_empty() { None } else { Some(group) })
    }

    /// Gives a link the name of its row.
    fn name_link(&mut self, row: &StringRecord, link: &mut IcdLink) -> Result<(), AllocError> {
        let cell = self.cell(row, Key::Name);
        if cell.is_empty() {
            return Ok(());
        }
        let alloc = self.alloc;
        if is_held(alloc, cell)? {
            link.name = Some(String::from_str(alloc, cell)?);
        } else {
            link.name = Some(made_of(alloc, cell, link.id)?);
            link.original = Some(String::from_str(alloc, cell)?);
        }
        match self.start_of_name(link) {
            Some(start) => self.refuse(row, RowFault::TwiceName(start)),
            None => Ok(()),
        }
    }

    /// Where the row begins that has the name of this link, in the table or in the document.
    fn start_of_name(&self, of: &IcdLink) -> Option<u64> {
        let named = self.links.iter().find(|link| {
            are_same(&link.name, &of.name) || are_same(&link.original, &of.original)
        })?;
        self.start_of_id(named.id)
    }

    /// Where the row begins that has this identifier.
    fn start_of_id(&self, id: VlId) -> Option<u64> {
        self.starts.get(usize::from(id.0))?.checked_sub(1)
    }

    /// Says a row nothing of a link? A group alone may head the rows below it.
    fn is_empty_row(&self, row: &StringRecord) -> bool {
        LINK_KEYS.iter().all(|key| *key == Key::Group || self.cell(row, *key).is_empty())
    }

    /// Reads a row that has as many cells as the heads. False: it has a link more than a table, and no
    /// further row is read.
    pub fn read_row(&mut self, row: &StringRecord) -> Result<bool, AllocError> {
        if self.is_empty_row(row) {
            return Ok(true);
        }
        let id = self.id(row)?;
        let mut link = self.link_of(row, id.unwrap_or(VlId(0)))?;
        if id.is_none() {
            return Ok(true);
        }
        if let Some(start) = self.start_of_id(link.id) {
            self.refuse(row, RowFault::TwiceId(start))?;
            return Ok(true);
        }
        self.name_link(row, &mut link)?;
        if self.links.len() >= MAX_LINKS {
            self.refuse(row, RowFault::TooMany)?;
            return Ok(false);
        }
        if let Some(start) = self.starts.get_mut(usize::from(link.id.0)) {
            *start = start_of(row).saturating_add(1);
        }
        self.links.push(link)?;
        Ok(true)
    }
}
