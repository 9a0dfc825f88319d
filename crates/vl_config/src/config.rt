//! The entry point: the text of a table comes in here, and what crates above ask of it is answered.

ghost use Rattle.std.specs.Prelude.{◌≡◌, ◌≢◌, ◌≤◌, length, Some, None, IfOk, IfErr, OnOk, map, string_bytes};
ghost use Rattle.std.specs.Option.{option_copied, option_map};
ghost use Rattle.toml.specs.View.{table_view};
ghost use Rattle.vl_config.specs.Class.{class_of, link_with};
ghost use Rattle.vl_config.specs.Keys.{keys_fault, top_keys};
ghost use Rattle.vl_config.specs.Document.{document_fault, first_fault, MayAllocate, IsTableOf, IsTableOfText, IsVlTable};

use crate::class::{Class, class_by};
use crate::fault::ConfigFault;
use crate::key::{Key, TOP_KEYS};
use crate::link::Link;
use crate::read::{MICROSECOND, check_twice, read_filters, read_links, sort_by_id};
use crate::tables::{check_keys, number_at, values_at};
use afdx_frame::{TapFrame, VlId};
use std::alloc::Global;
use std::marker::Model;
use toml::Table;

/// The most links of a table.
pub const MAX_LINKS: usize = 4096;

/// The most filters of a table. A run has one more, that of the command line.
pub const MAX_TABLE_FILTERS: usize = 7;

/// The table of virtual links: the constant field of the system's addresses, its links, and what the
/// analyser is told beside them.
#[derive(Drop)]
pub struct Config {
    constant: u32,
    links: Vec<Link>,
    late: u64,
    filters: Vec<String>,
}

impl Model for Config {
    ghost use Rattle.std.specs.Prelude.{map, string_bytes};
    ghost use Rattle.vl_config.specs.Document.{VlTable, IsVlTable};

    ghost Value = { VlTable };

    ghost view = { λ config. record {
      constant = config.constant;
      links = config.links.items;
      late = config.late;
      filters = map string_bytes config.filters.items;
    } };

    ghost invariant = { λ config. IsVlTable (record {
      constant = config.constant;
      links = config.links.items;
      late = config.late;
      filters = map string_bytes config.filters.items;
    }) };
}

impl Config {
    /// Reads the table of a TOML document, or returns its first fault, in this order: `Text`; of the
    /// top table `Missing`, `Kind`, `Range` and `UnknownKey`; `TooMany` links or filters; of each
    /// link in turn `Missing`, `Kind`, `Range` and `UnknownKey`; and then for each link `TwiceId`
    /// and `TwiceName` against the links before it. `Memory` comes only where the text has more than
    /// blanks and comments, or the keys of its top table have no fault.
    pub fn read(alloc: Global, text: &str) -> Result<Config, ConfigFault>
        ensures table { IfOk result (λ config. IsTableOfText text.now config) }
        ensures no_fault { OnOk result (first_fault text.now ≡ None) }
        ensures fault { IfErr result (λ fault. fault ≢ ConfigFault.Memory →
            first_fault text.now ≡ Some fault) }
        ensures memory { IfErr result (λ fault. fault ≡ ConfigFault.Memory →
            MayAllocate text.now) }
    {
        match toml::table_from_str(alloc, text) {
            Ok(table) => read_table(alloc, &table),
            Err(error) if error.is_memory() => Err(ConfigFault::Memory),
            Err(_) => Err(ConfigFault::Text),
        }
    }

    /// The constant field: the first four bytes of each destination address.
    pub fn constant(&self) -> u32
        ensures { result ≡ self.now.constant }
    {
        self.constant
    }

    /// The links by rising identifier, at most [`MAX_LINKS`], no two of one identifier.
    pub fn links(&self) -> &[Link]
        ensures value { result.now ≡ self.now.links }
        ensures table { IsVlTable self.now }
    {
        self.links.as_slice()
    }

    /// The link with this identifier, found by a binary search.
    pub fn link(&self, id: VlId) -> Option<&Link>
        ensures { option_copied result ≡ link_with self.now.links id }
    {
        match self.links.binary_search_by_key(&id.0, |link| link.id.0) {
            Ok(index) => Some(&self.links[index]),
            Err(_) => None,
        }
    }

    /// How far a timestamp may lie below an earlier one of its tap, in nanoseconds: at most 1 s.
    pub fn late(&self) -> u64
        ensures value { result ≡ self.now.late }
        ensures bound { result ≤ 1000000000 }
    {
        self.late
    }

    /// The same table with another window for late timestamps, in nanoseconds: at most 1 s.
    pub fn with_late(self, late: u64) -> Config
        requires { late ≤ 1000000000 }
        ensures { result ≡ record self { late = late } }
    {
        let mut config = self;
        config.late = late;
        config
    }

    /// The table's filters in the numeric form, at most [`MAX_TABLE_FILTERS`]. None of them is read here.
    pub fn filters(&self) -> &[String]
        ensures value { map string_bytes result.now ≡ self.now.filters }
        ensures bound { length result.now ≤ MAX_TABLE_FILTERS }
    {
        self.filters.as_slice()
    }

    /// The class of a frame under the table: the first that fits.
    pub fn class(&self, frame: &TapFrame) -> Class
        ensures { result ≡ class_of self.now frame.now }
    {
        let smax = match frame.view().vl() {
            Some(id) => self.smax(id),
            None => None,
        };
        class_by(self.constant, smax, &frame.lent())
    }

    fn smax(&self, id: VlId) -> Option<u32>
        ensures { result ≡ option_map (λ link. link.smax) (link_with self.now.links id) }
    {
        match self.link(id) {
            Some(link) => Some(link.smax),
            None => None,
        }
    }
}

/// Reads the table of a document's top table, or finds its first fault.
fn read_table(alloc: Global, table: &Table) -> Result<Config, ConfigFault>
    ensures table { IfOk result (λ config. IsTableOf (table_view table.now) config) }
    ensures no_fault { OnOk result (document_fault (table_view table.now) ≡ None) }
    ensures fault { IfErr result (λ fault. fault ≢ ConfigFault.Memory →
        document_fault (table_view table.now) ≡ Some fault) }
    ensures memory { IfErr result (λ fault. fault ≡ ConfigFault.Memory →
        keys_fault top_keys None (table_view table.now) ≡ None) }
{
    check_keys(&TOP_KEYS, None, table)?;
    let values = values_at(table, Key::Link);
    let texts = values_at(table, Key::Filters);
    if values.len() > MAX_LINKS || texts.len() > MAX_TABLE_FILTERS {
        return Err(ConfigFault::TooMany);
    }
    let mut links = read_links(alloc, values)?;
    check_twice(&links)?;
    let filters = read_filters(alloc, texts)?;
    sort_by_id(&mut links)?;
    Ok(Config {
        constant: number_at(table, Key::Constant) as u32,
        links,
        late: number_at(table, Key::LateUs) * MICROSECOND,
        filters,
    })
}
