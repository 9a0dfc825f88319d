//! Sets of links, from text.
ghost use Rattle.std.specs.Prelude.{◌≡◌, ◌↔◌, ◌⊎◌, ℕ, true, IsTrue, IfOk, IfErr, OnOk, SomeIff, MatchResult};
ghost use Rattle.std.specs.Option.{option_copied};
ghost use Rattle.std.specs.List.{All};
ghost use Rattle.std.specs.Str.Parse.{digits_value};
ghost use Rattle.ledger_text.specs.LinkList.{HasMatch, IsItemFault, IsLinkSetFault, IsNamed, IsNumber};
ghost use Rattle.ledger_text.specs.LinkList.{IsRange, IsRangeFault, IsRight, IsTakenByOne, Takes};
ghost use Rattle.ledger_text.specs.LinkList.{high_text, low_text};
ghost use Rattle.ledger_text.specs.Links.{has_link};
ghost use Rattle.ledger_text.specs.Words.{items_of};

use crate::link_set::LinkSet;
use crate::pattern::matches;
use afdx_frame::VlId;
use std::alloc::{AllocError, Global};
use thiserror::Error;
use vl_config::{Config, Link};

/// The faults of an item of a list of links.
#[derive(Clone, Copy, Debug, PartialEq, Eq, Error)]
pub enum ItemFault {
    /// There is nothing between two commas, or at an end.
    #[error("it is empty")]
    Empty,
    /// It begins with a digit and is no number below 65536, nor two of them with a dash between.
    #[error("it is no link number, nor a range of them")]
    Number,
    /// The first number of the range is above the last.
    #[error("its first number is above its last")]
    Order,
    /// A name, where there is no table of links.
    #[error("a link's name needs a table")]
    NeedsTable,
    /// No link of the table has the name.
    #[error("no link has this name")]
    NoSuchLink,
}

/// The faults of a list of links.
#[derive(Clone, Copy, Debug, PartialEq, Eq, Error)]
pub enum LinkSetFault {
    /// The first item that is wrong, counted from 0, and why.
    #[error("item {0}: {1}")]
    Item(usize, ItemFault),
    /// Out of memory.
    #[error("out of memory")]
    Memory,
}

impl From<AllocError> for LinkSetFault {
    ghost use Rattle.std.specs.Prelude.{◌≡◌};
    ghost use Rattle.ledger_text.specs.declared.link_list.LinkSetFault.TheVariants.{Memory};

    ghost from_gives = { λ _ e. e ≡ Memory };

    fn from(_error: AllocError) -> LinkSetFault {
        LinkSetFault::Memory
    }
}

/// The number that decimal digits write; leading zeros don't matter.
fn number(text: &str) -> Option<u16>
    ensures { SomeIff result (IsNumber text.now) (digits_value 10 text.now) }
{
    if text.starts_with('+') {
        return None;
    }
    text.parse::<u16>().ok()
}

/// The two ends of a range, and a number twice.
fn ends(item: &str) -> (&str, &str)
    ensures low { result.0.now ≡ low_text item.now }
    ensures high { result.1.now ≡ high_text item.now }
{
    match item.split_once('-') {
        Some(ends) => ends,
        None => (item, item),
    }
}

/// The first and the last link of a range, or of a number.
fn range(item: &str) -> Result<(VlId, VlId), ItemFault>
    ensures range { OnOk result (IsRange item.now) }
    ensures low { IfOk result (λ range. range.0.0 ≡ digits_value 10 (low_text item.now)) }
    ensures high { IfOk result (λ range. range.1.0 ≡ digits_value 10 (high_text item.now)) }
    ensures fault { IfErr result (IsRangeFault item.now) }
{
    let (low, high) = ends(item);
    let (Some(low), Some(high)) = (number(low), number(high)) else {
        return Err(ItemFault::Number);
    };
    if low > high {
        return Err(ItemFault::Order);
    }
    Ok((VlId(low), VlId(high)))
}

impl LinkSet {
    /// Puts each link whose name the pattern matches into the set. Is there one?
    fn insert_named(&mut self, pattern: &str, links: &[Link]) -> bool
        ensures held { (id : ℕ) → (has_link self.new id ≡ true)
            ↔ ((has_link self.old id ≡ true) ⊎ IsNamed links.now pattern.now id) }
        ensures found { IsTrue result ↔ HasMatch links.now pattern.now }
    {
        let mut found = false;
        for link in links {
            if matches(pattern.as_bytes(), link.name.as_bytes()) {
                self.insert_range(link.id, link.id);
                found = true;
            }
        }
        found
    }

    /// Puts the links that an item takes into the set.
    fn insert_item(&mut self, item: &str, table: Option<&Config>) -> Result<(), ItemFault>
        ensures held { OnOk result ((id : ℕ) → (has_link self.new id ≡ true)
            ↔ ((has_link self.old id ≡ true) ⊎ Takes (option_copied table.entry) item.now id)) }
        ensures right { OnOk result (IsRight (option_copied table.entry) item.now) }
        ensures fault { IfErr result (IsItemFault (option_copied table.entry) item.now) }
    {
        match item.as_bytes() {
            [] => return Err(ItemFault::Empty),
            [b'0'..=b'9', ..] => {
                let (first, last) = range(item)?;
                self.insert_range(first, last);
            }
            _ => {
                let table = table.ok_or(ItemFault::NeedsTable)?;
                if !self.insert_named(item, table.links()) {
                    return Err(ItemFault::NoSuchLink);
                }
            }
        }
        Ok(())
    }

    /// Reads a set of links. Commas separate the items: a link's number (`301`), a range of them
    /// (`301-305`, both among them), or, beginning with no digit, the name of a link of the table, in which
    /// each `*` stands for any letters, also none. Numbers are decimal, below 65536, and may have leading
    /// zeros but no sign. `Memory` may come at any text.
    pub fn read(alloc: Global, text: &str, table: Option<&Config>) -> Result<LinkSet, LinkSetFault>
        ensures links { IfOk result (λ set. (id : ℕ) → (has_link set id ≡ true)
            ↔ IsTakenByOne (option_copied table.entry) (items_of text.now) id) }
        ensures whole { OnOk result (All (IsRight (option_copied table.entry)) (items_of text.now)) }
        ensures fault { IfErr result (IsLinkSetFault (option_copied table.entry) (items_of text.now)) }
    {
        let mut set = LinkSet::new(alloc)?;
        let mut index: usize = 0;
        for item in text.split(',') {
            if let Err(why) = set.insert_item(item, table) {
                return Err(LinkSetFault::Item(index, why));
            }
            // A text has at most one item more than bytes.
            index = text.len().min(index.saturating_add(1));
        }
        Ok(set)
    }
}
