//! The selection of a ledger's lines.
ghost use Rattle.std.specs.Prelude.{IsTrue, ◌↔◌, IfSome, ◌≡◌, ◌≢◌, ◌≤◌, bit_and};
ghost use Rattle.ledger_text.specs.Selection.{IsIn, IsTaken, SaysOne, moment_of};

use crate::frame::FrameLine;
use crate::link_set::LinkSet;
use crate::moment::Moment;
use crate::word::{Word, says_one};
use afdx_frame::{Network, Stamp};

/// Which lines of a ledger are taken: those that meet each part that is given.
#[derive(Drop)]
pub struct Selection {
    /// The line has a link, and it is in the set.
    pub links: Option<LinkSet>,
    /// The line is of this network.
    pub network: Option<Network>,
    /// One of the line's words in fields 6 to 9 is among these.
    pub words: Option<Vec<Word>>,
    /// The line's timestamp is not below this moment.
    pub from: Option<Moment>,
    /// The line's timestamp is not above this moment.
    pub to: Option<Moment>,
    /// A filter of this mask accepts the frame: bit i is that of filter i.
    pub filters: Option<u8>,
}

impl Selection {
    /// Is the line taken? `first` is the timestamp of the ledger's first frame, which moments of a day
    /// count from.
    #[inline]
    pub fn takes(&self, first: Stamp, line: &FrameLine) -> bool
        ensures { IsTrue result ↔ IsTaken self.now first line.now }
    {
        self.has_link(line)
            && self.has_network(line)
            && self.has_word(line)
            && self.is_since(first, line)
            && self.is_until(first, line)
            && self.has_filter(line)
    }

    #[inline]
    fn has_link(&self, line: &FrameLine) -> bool
        ensures { IsTrue result ↔ IfSome self.now.links (λ set. IsIn set line.now.link) }
    {
        match (&self.links, line.link) {
            (None, _) => true,
            (Some(set), Some(id)) => set.contains(id),
            (Some(_), None) => false,
        }
    }

    #[inline]
    fn has_network(&self, line: &FrameLine) -> bool
        ensures { IsTrue result ↔ IfSome self.now.network (λ network. line.now.network ≡ network) }
    {
        match self.network {
            None => true,
            Some(network) => line.network == network,
        }
    }

    #[inline]
    fn has_word(&self, line: &FrameLine) -> bool
        ensures { IsTrue result ↔ IfSome self.now.words (λ words. SaysOne line.now words.items) }
    {
        match &self.words {
            None => true,
            Some(words) => says_one(line, words.as_slice()),
        }
    }

    #[inline]
    fn is_since(&self, first: Stamp, line: &FrameLine) -> bool
        ensures { IsTrue result
            ↔ IfSome self.now.from (λ moment. moment_of first moment ≤ line.now.stamp.0) }
    {
        match self.from {
            None => true,
            Some(moment) => moment.nanoseconds(first) <= u128::from(line.stamp.0),
        }
    }

    #[inline]
    fn is_until(&self, first: Stamp, line: &FrameLine) -> bool
        ensures { IsTrue result
            ↔ IfSome self.now.to (λ moment. line.now.stamp.0 ≤ moment_of first moment) }
    {
        match self.to {
            None => true,
            Some(moment) => u128::from(line.stamp.0) <= moment.nanoseconds(first),
        }
    }

    #[inline]
    fn has_filter(&self, line: &FrameLine) -> bool
        ensures { IsTrue result ↔ IfSome self.now.filters (λ mask. bit_and line.now.mask mask ≢ 0) }
    {
        match self.filters {
            None => true,
            Some(mask) => line.mask & mask != 0,
        }
    }
}
