//! The keys of the table: their names, types and ranges.

ghost use Rattle.std.specs.Prelude.{◌≡◌, is_some};
ghost use Rattle.vl_config.specs.Keys.{key_name, is_required, is_kind, in_range, allows, natural_in};
ghost use Rattle.vl_config.specs.Link.{is_name, is_name_byte};
ghost use Rattle.std.specs.List.{list_all};
ghost use Rattle.toml.specs.Data.{as_str, as_table};
ghost use Rattle.toml.specs.View.{view};

use toml::Value;

/// A key of the top table or of a link.
#[derive(Clone, Copy, Debug, PartialEq, Eq)]
pub enum Key {
    Constant,
    Link,
    LateUs,
    Filters,
    Id,
    Name,
    BagMs,
    JitterUs,
    Smax,
    Integrity,
    Redundancy,
    SkewUs,
    Group,
}

/// The keys of the top table.
pub const TOP_KEYS: [Key; 4] = [Key::Constant, Key::Link, Key::LateUs, Key::Filters];

/// The keys of a link.
pub const LINK_KEYS: [Key; 9] = [
    Key::Id,
    Key::Name,
    Key::BagMs,
    Key::JitterUs,
    Key::Smax,
    Key::Integrity,
    Key::Redundancy,
    Key::SkewUs,
    Key::Group,
];

impl Key {
    /// The key as the document writes it.
    pub fn name(self) -> &'static str
        ensures { result.now ≡ key_name self }
    {
        match self {
            Key::Constant => "constant",
            Key::Link => "link",
            Key::LateUs => "late_us",
            Key::Filters => "filters",
            Key::Id => "id",
            Key::Name => "name",
            Key::BagMs => "bag_ms",
            Key::JitterUs => "jitter_us",
            Key::Smax => "smax",
            Key::Integrity => "integrity",
            Key::Redundancy => "redundancy",
            Key::SkewUs => "skew_us",
            Key::Group => "group",
        }
    }

    /// The values that the key may have, in words.
    pub fn allowed(self) -> &'static str {
        match self {
            Key::Constant => "constant is an integer, 0 to 4294967295, with bits 24 and 25 set",
            Key::Link => "each link is a table of its own, which begins with [[link]]",
            Key::LateUs => "late_us is an integer, 0 to 1000000",
            Key::Filters => "filters is an array of at most 7 strings",
            Key::Id => "id is an integer, 0 to 65535",
            Key::Name => "name is a string of 1 to 32 letters, digits, _ and -",
            Key::BagMs => "bag_ms is 1, 2, 4, 8, 16, 32, 64 or 128",
            Key::JitterUs => "jitter_us is an integer, 0 to 100000",
            Key::Smax => "smax is an integer, 64 to 1518",
            Key::Integrity => "integrity is true or false",
            Key::Redundancy => "redundancy is true or false",
            Key::SkewUs => "skew_us is an integer, 0 to 1000000",
            Key::Group => "group is a string of 1 to 32 letters, digits, _ and -",
        }
    }

    /// Must the table have the key?
    pub fn is_required(self) -> bool
        ensures { result ≡ is_required self }
    {
        !matches!(self, Key::Link | Key::LateUs | Key::Filters | Key::Group)
    }

    /// Has the value the key's type?
    pub fn is_kind(self, value: &Value) -> bool
        ensures { result ≡ is_kind self (view value.now) }
    {
        match self {
            Key::Name | Key::Group => value.is_str(),
            Key::Integrity | Key::Redundancy => value.is_bool(),
            Key::Link => is_array_of_tables(value),
            Key::Filters => is_array_of_strings(value),
            _ => value.is_integer(),
        }
    }

    /// Is the value in the key's range? Only a value of the key's type is asked.
    pub fn is_in_range(self, value: &Value) -> bool
        ensures { result ≡ in_range self (view value.now) }
    {
        match self {
            Key::Name | Key::Group => match value.as_str() {
                Some(name) => is_name(name.as_bytes()),
                None => false,
            },
            Key::Integrity | Key::Redundancy | Key::Link | Key::Filters => true,
            _ => match natural(value) {
                Some(number) => self.allows(number),
                None => false,
            },
        }
    }

    /// The range of the key of a number.
    fn allows(self, number: u64) -> bool
        ensures { result ≡ allows self number }
    {
        match self {
            Key::Constant => number <= 0xffff_ffff && (number >> 24) % 4 == 3,
            Key::Id => number <= 0xffff,
            Key::BagMs => matches!(number, 1 | 2 | 4 | 8 | 16 | 32 | 64 | 128),
            Key::JitterUs => number <= 100_000,
            Key::Smax => (64..=1518).contains(&number),
            _ => number <= 1_000_000,
        }
    }
}

/// The integer of a value, where it is 0 or more.
pub fn natural(value: &Value) -> Option<u64>
    ensures { result ≡ natural_in (view value.now) }
{
    match value.as_integer() {
        Some(number) if number >= 0 => Some(number as u64),
        _ => None,
    }
}

/// 1 to 32 ASCII letters, digits, `_` and `-`.
fn is_name(bytes: &[u8]) -> bool
    ensures { result ≡ is_name bytes.now }
{
    !bytes.is_empty() && bytes.len() <= 32 && has_name_bytes(bytes)
}

fn has_name_bytes(bytes: &[u8]) -> bool
    ensures { result ≡ list_all is_name_byte bytes.now }
{
    bytes.iter().all(|byte| is_name_byte(*byte))
}

fn is_name_byte(byte: u8) -> bool
    ensures { result ≡ is_name_byte byte }
{
    matches!(byte, b'a'..=b'z' | b'A'..=b'Z' | b'0'..=b'9' | b'_' | b'-')
}

#[tactic(auto, using(crate::proofs::Items::all_items_view))]
fn is_array_of_tables(value: &Value) -> bool
    ensures { result ≡ is_kind Key.Link (view value.now) }
{
    match value.as_array() {
        Some(values) => are_tables(values),
        None => false,
    }
}

fn are_tables(values: &[Value]) -> bool
    ensures { result ≡ list_all (λ value. is_some (as_table (view value))) values.now }
{
    values.iter().all(|value| value.is_table())
}

#[tactic(auto, using(crate::proofs::Items::all_items_view))]
fn is_array_of_strings(value: &Value) -> bool
    ensures { result ≡ is_kind Key.Filters (view value.now) }
{
    match value.as_array() {
        Some(values) => are_strings(values),
        None => false,
    }
}

fn are_strings(values: &[Value]) -> bool
    ensures { result ≡ list_all (λ value. is_some (as_str (view value))) values.now }
{
    values.iter().all(|value| value.is_str())
}
