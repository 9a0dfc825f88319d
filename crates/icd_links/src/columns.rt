//! Which cell of a row is of which key, by the heads.

use crate::document::cell_at;
use crate::given::GivenHeads;
use crate::head::{Naming, naming_of};
use csv::StringRecord;
use std::alloc::{AllocError, Global};
use vl_config::Key;

/// The place of a key's column in a row, or why there is no one column.
#[derive(Clone, Copy)]
pub enum Place {
    /// The document has no such column.
    None,
    At(usize),
    /// The heads of two columns name the key; this is the second.
    Twice(usize),
    /// The head that is given for the key isn't there.
    Absent,
    /// The head has another unit than the key, or lacks it.
    OtherUnit(usize),
}

impl Place {
    /// The place of the one column.
    fn found(self) -> Option<usize> {
        match self {
            Place::At(place) => Some(place),
            _ => None,
        }
    }
}

/// The places of the columns in a row. None: the document has no such column, or no one column of it.
#[derive(Clone, Copy)]
pub struct Columns {
    id: Option<usize>,
    name: Option<usize>,
    bag_ms: Option<usize>,
    jitter_us: Option<usize>,
    smax: Option<usize>,
    integrity: Option<usize>,
    redundancy: Option<usize>,
    skew_us: Option<usize>,
    group: Option<usize>,
}

impl Columns {
    /// The columns of which these are the heads.
    pub fn of(
        alloc: Global,
        heads: &StringRecord,
        given: &GivenHeads<'_>,
    ) -> Result<Columns, AllocError> {
        Ok(Columns {
            id: place_of(alloc, heads, given, Key::Id)?.found(),
            name: place_of(alloc, heads, given, Key::Name)?.found(),
            bag_ms: place_of(alloc, heads, given, Key::BagMs)?.found(),
            jitter_us: place_of(alloc, heads, given, Key::JitterUs)?.found(),
            smax: place_of(alloc, heads, given, Key::Smax)?.found(),
            integrity: place_of(alloc, heads, given, Key::Integrity)?.found(),
            redundancy: place_of(alloc, heads, given, Key::Redundancy)?.found(),
            skew_us: place_of(alloc, heads, given, Key::SkewUs)?.found(),
            group: place_of(alloc, heads, given, Key::Group)?.found(),
        })
    }

    /// The place of a key's column.
    pub fn place(&self, key: Key) -> Option<usize> {
        match key {
            Key::Id => self.id,
            Key::Name => self.name,
            Key::BagMs => self.bag_ms,
            Key::JitterUs => self.jitter_us,
            Key::Smax => self.smax,
            Key::Integrity => self.integrity,
            Key::Redundancy => self.redundancy,
            Key::SkewUs => self.skew_us,
            Key::Group => self.group,
            _ => None,
        }
    }
}

/// The place of a key's column: by the head that is given for it, else by its name, else by a synonym.
pub fn place_of(
    alloc: Global,
    heads: &StringRecord,
    given: &GivenHeads<'_>,
    key: Key,
) -> Result<Place, AllocError> {
    let given = given.head(key);
    if given == Some("") {
        return Ok(Place::None);
    }
    let exact = place_named(alloc, heads, key, given, Naming::Exact)?;
    match (exact, given) {
        (Place::None, Some(_)) => return Ok(Place::Absent),
        (Place::None, None) => {}
        _ => return Ok(exact),
    }
    let synonym = place_named(alloc, heads, key, None, Naming::Synonym)?;
    if !matches!(synonym, Place::None) {
        return Ok(synonym);
    }
    match place_named(alloc, heads, key, None, Naming::OtherUnit)? {
        Place::At(place) | Place::Twice(place) => Ok(Place::OtherUnit(place)),
        other => Ok(other),
    }
}

/// The place of the head that names a key so.
fn place_named(
    alloc: Global,
    heads: &StringRecord,
    key: Key,
    given: Option<&str>,
    naming: Naming,
) -> Result<Place, AllocError> {
    let mut found = Place::None;
    for place in 0..heads.len() {
        let head = cell_at(heads, Some(place));
        if naming_of(alloc, key, given, head)? != Some(naming) {
            continue;
        }
        match found {
            Place::None => found = Place::At(place),
            // An ICD often has the LRU and its port: the first says the group.
            _ if key == Key::Group && naming == Naming::Synonym => return Ok(found),
            _ => return Ok(Place::Twice(place)),
        }
    }
    Ok(found)
}
