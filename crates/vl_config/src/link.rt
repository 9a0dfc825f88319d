//! A link as the table has it, in nanoseconds and bytes, whatever the units of the document.

ghost use Rattle.std.specs.Prelude.{◌≡◌};
ghost use Rattle.vl_config.specs.Link.{VirtualLink};

use afdx_frame::VlId;
use std::marker::Model;

/// A virtual link as the table configures it. Times are in nanoseconds, sizes in bytes.
///
/// The type keeps the ranges of the fields. BAG, jitter, Smax and SkewMax are the parameters of ARINC
/// 664 Part 7; their ranges, and the name, are this project's profile.
#[derive(Debug, Drop)]
pub struct Link {
    /// The identifier.
    pub id: VlId,
    /// The name: 1 to 32 ASCII letters, digits, `_` and `-`.
    pub name: String,
    /// The bandwidth allocation gap: 1, 2, 4, 8, 16, 32, 64 or 128 ms, in nanoseconds.
    pub bag: u64,
    /// The greatest jitter, in nanoseconds: at most 100 ms.
    pub jitter: u64,
    /// Smax, the size of the largest frame with its frame check sequence: 64 to 1518 bytes.
    pub smax: u32,
    /// Is integrity checking on?
    pub integrity: bool,
    /// Is redundancy management on?
    pub redundancy: bool,
    /// SkewMax, the greatest difference of time between the two copies of a frame, in nanoseconds:
    /// at most 1 s.
    pub skew: u64,
    /// The group that it belongs to, as an LRU or a port, if it has one: a text like a name.
    pub group: Option<String>,
}

impl Model for Link {
    ghost use Rattle.std.specs.Prelude.{string_bytes};
    ghost use Rattle.std.specs.Option.{option_map};
    ghost use Rattle.vl_config.specs.Link.{VirtualLink, IsLink};

    ghost Value = { VirtualLink };

    ghost view = { λ link. record {
      id = link.id;
      name = string_bytes link.name;
      bag = link.bag;
      jitter = link.jitter;
      smax = link.smax;
      integrity = link.integrity;
      redundancy = link.redundancy;
      skew = link.skew;
      group = option_map string_bytes link.group;
    } };

    ghost invariant = { λ link. IsLink (record {
      id = link.id;
      name = string_bytes link.name;
      bag = link.bag;
      jitter = link.jitter;
      smax = link.smax;
      integrity = link.integrity;
      redundancy = link.redundancy;
      skew = link.skew;
      group = option_map string_bytes link.group;
    }) };
}
