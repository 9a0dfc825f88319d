//! A set of virtual links.
ghost use Rattle.std.specs.Prelude.{◌≡◌, vec_len};

use afdx_frame::{VL_ID_COUNT, VlId};
use std::alloc::{AllocError, Global};

/// A set of virtual links: a table with a place for each of the 65536 identifiers, 64 KiB.
#[derive(Drop)]
pub struct LinkSet {
    held: Vec<bool>,
    ghost whole: { vec_len held ≡ 65536 },
}

impl LinkSet {
    ghost use Rattle.std.specs.Prelude.{◌≡◌, ◌&&◌, ◌||◌, IfOk, ℕ, false, nat_le};
    ghost use Rattle.ledger_text.specs.Links.{has_link};

    /// The set that holds no link. `Err` where the table gets no memory.
    pub fn new(alloc: Global) -> Result<LinkSet, AllocError>
        ensures { IfOk result (λ set. (id : ℕ) → has_link set id ≡ false) }
    {
        let held = vec![in alloc; false; VL_ID_COUNT]?;
        Ok(LinkSet { held })
    }

    /// Is the link in the set?
    #[inline]
    pub fn contains(&self, id: VlId) -> bool
        ensures { result ≡ has_link self.now id.0 }
    {
        self.held[usize::from(id.0)]
    }

    /// Puts the links from one identifier to another into the set, both among them; none where the first is
    /// above the last.
    pub fn insert_range(&mut self, first: VlId, last: VlId)
        ensures { (id : ℕ) → has_link self.new id
            ≡ (has_link self.old id || (nat_le first.0 id && nat_le id last.0)) }
    {
        for id in usize::from(first.0)..usize::from(last.0) + 1 {
            self.held[id] = true;
        }
    }
}
