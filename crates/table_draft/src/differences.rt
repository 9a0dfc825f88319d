//! Where a link was seen otherwise than it is specified.

use crate::known::Seen;
use icd_links::IcdLink;
use std::fmt;
use std::fmt::{Display, Formatter};
use vl_config::Key;

/// How a value that was seen stands to the one that is specified.
#[derive(Clone, Copy, PartialEq, Eq)]
pub enum Stand {
    /// It is the same, or none was seen.
    Same,
    /// A limit that the frames don't need, or a BAG that they don't use up.
    Within,
    /// The frames contradict what is specified.
    Beyond,
    /// It isn't specified.
    Unspecified,
    /// It is neither specified nor seen.
    Unknown,
}

/// A value of a key.
#[derive(Clone, Copy, PartialEq, Eq)]
pub enum KeyValue {
    Number(u64),
    Flag(bool),
}

impl Display for KeyValue {
    fn fmt<W: fmt::Write>(&self, f: &mut Formatter<W>) -> fmt::Result {
        match self {
            KeyValue::Number(number) => write!(f, "{number}"),
            KeyValue::Flag(flag) => write!(f, "{flag}"),
        }
    }
}

/// A key of a link, and what was seen of it beside what is specified.
#[derive(Clone, Copy)]
pub struct Difference {
    pub key: Key,
    pub seen: Option<KeyValue>,
    pub stand: Stand,
}

/// How many keys a draft has of a link beside its identifier and name.
pub const COMPARED: usize = 6;

/// How the greatest that was seen stands to a limit. The BAG is the least interval: a longer one that was
/// seen is within it.
fn stand_to(key: Key, specified: u64, seen: u64) -> Stand {
    let (limit, reached) = match key {
        Key::BagMs => (seen, specified),
        _ => (specified, seen),
    };
    if reached > limit {
        Stand::Beyond
    } else if reached < limit {
        Stand::Within
    } else {
        Stand::Same
    }
}

fn of(key: Key, specified: Option<KeyValue>, seen: Option<KeyValue>) -> Difference {
    let stand = match (specified, seen) {
        (Some(KeyValue::Number(specified)), Some(KeyValue::Number(seen))) => {
            stand_to(key, specified, seen)
        }
        (Some(specified), Some(seen)) if specified != seen => Stand::Beyond,
        (Some(_), _) => Stand::Same,
        (None, Some(_)) => Stand::Unspecified,
        (None, None) => Stand::Unknown,
    };
    Difference { key, seen, stand }
}

fn of_number(key: Key, specified: Option<u64>, seen: Option<u64>) -> Difference {
    of(
        key,
        specified.map(KeyValue::Number),
        seen.map(KeyValue::Number),
    )
}

fn of_flag(key: Key, specified: Option<bool>, seen: Option<bool>) -> Difference {
    of(key, specified.map(KeyValue::Flag), seen.map(KeyValue::Flag))
}

/// The jitter at the BAG that was seen, and how that which the frames need at the specified BAG stands to the
/// specified one. Where only the BAG differs, the jitter that goes with it stands as it does.
fn of_jitter(specified: &IcdLink, seen: &Seen, bag: Stand) -> Difference {
    let needed = of_number(Key::JitterUs, specified.jitter_us, seen.needed_us);
    let own = of_number(Key::JitterUs, specified.jitter_us, seen.jitter_us);
    if needed.stand == Stand::Same && own.stand != Stand::Same {
        return Difference { stand: bag, ..own };
    }
    Difference {
        stand: needed.stand,
        ..own
    }
}

/// How the values of a link that were seen stand to those that are specified.
pub fn differences(specified: &IcdLink, seen: &Seen) -> [Difference; COMPARED] {
    let bag = of_number(Key::BagMs, specified.bag_ms, seen.bag_ms);
    [
        bag,
        of_jitter(specified, seen, bag.stand),
        of_number(Key::Smax, specified.smax, seen.smax),
        of_flag(Key::Integrity, specified.integrity, seen.integrity),
        of_flag(Key::Redundancy, specified.redundancy, seen.redundancy),
        of_number(Key::SkewUs, specified.skew_us, seen.skew_us),
    ]
}

/// Does one of them stand so?
pub fn has(differences: &[Difference], stand: Stand) -> bool {
    differences
        .iter()
        .any(|difference| difference.stand == stand)
}
