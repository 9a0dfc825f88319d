//! Frames whose lines aren't written yet.

ghost use Rattle.std.specs.Prelude.{◌≡◌};
ghost use Rattle.transit_run.specs.Line.{link_number, link_of, sequence_of};
ghost use Rattle.transit_run.specs.Told.{is_cut, pair_of};

use crate::outcome::Pair;
use afdx_frame::VlId;
use vl_config::Class;

/// The head of a line: a frame before its outcome.
#[derive(Clone, Copy)]
pub(crate) struct Head {
    /// When it went in; or when it came out, later by what clocks may be off. In nanoseconds.
    pub(crate) moment: u64,
    pub(crate) number: u64,
    pub(crate) class: Class,
    /// The link and the sequence number, where the class says that the bytes hold them.
    pub(crate) address: Option<(VlId, u8)>,
    /// The length on the wire, in bytes.
    pub(crate) whole: u32,
    /// The place of its lane.
    pub(crate) place: usize,
}

impl Head {
    /// True if some of the frame's bytes aren't recorded.
    pub(crate) fn is_cut(&self) -> bool
        ensures { result ≡ is_cut self.now.class }
    {
        matches!(self.class, Class::Cut)
    }

    /// The link that the frame names.
    pub(crate) fn link(&self) -> Option<VlId>
        ensures { result ≡ link_of self.now }
    {
        match self.address {
            Some((link, _)) => Some(link),
            None => None,
        }
    }

    /// That link's number.
    pub(crate) fn link_number(&self) -> Option<u64>
        ensures { result ≡ link_number self.now }
    {
        match self.address {
            Some((VlId(link), _)) => Some(u64::from(link)),
            None => None,
        }
    }

    /// The frame's sequence number.
    pub(crate) fn sequence(&self) -> Option<u64>
        ensures { result ≡ sequence_of self.now }
    {
        match self.address {
            Some((_, sequence)) => Some(u64::from(sequence)),
            None => None,
        }
    }
}

/// The frame of a pair that came out.
#[derive(Clone, Copy)]
pub(crate) struct Partner {
    pub(crate) number: u64,
    /// When it came out, in nanoseconds.
    pub(crate) moment: u64,
    /// The first byte that differs. None: they are alike.
    pub(crate) differs: Option<usize>,
}

/// A frame that went in.
#[derive(Drop)]
pub(crate) struct GoneIn {
    pub(crate) head: Head,
    /// Its bytes, once none that is alike to it may come.
    pub(crate) bytes: Vec<u8>,
    pub(crate) partner: Option<Partner>,
    pub(crate) is_overtaken: bool,
}

impl GoneIn {
    /// How the frame is paired.
    pub(crate) fn pair(&self) -> Pair
        ensures { result ≡ pair_of self.now.partner }
    {
        match self.partner {
            None => Pair::Without,
            Some(Partner { differs: None, .. }) => Pair::Alike,
            Some(_) => Pair::Changed,
        }
    }
}

/// A frame that came out and isn't alike to one that went in.
#[derive(Drop)]
pub(crate) struct ComeOut {
    pub(crate) head: Head,
    pub(crate) bytes: Vec<u8>,
    pub(crate) is_twice: bool,
    pub(crate) is_paired: bool,
}

/// The number that stands for a link and a sequence number.
pub(crate) fn place_of(address: (VlId, u8)) -> u32 {
    u32::from(address.0.0) * 256 + u32::from(address.1)
}

/// The first byte at which two frames differ: where the shorter ends, if none does.
pub(crate) fn first_difference(one: &[u8], other: &[u8]) -> usize {
    let shorter = one.len().min(other.len());
    one.iter()
        .zip(other)
        .position(|(a, b)| a != b)
        .unwrap_or(shorter)
}
