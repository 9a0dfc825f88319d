//! Where an item of the numeric form stands, for a message that points at it.

ghost use Rattle.std.specs.Prelude.{◌≡◌};
ghost use Rattle.bpf_isa.specs.Numeric.{items_in, offset_in};

use crate::numeric::part::Part;

/// The byte offset of the item at an index of those in a part.
#[tactic(auto, using(crate::proofs::NumericPlace::further))]
fn offset_in(part: Part<'_>, index: usize) -> Option<usize>
    ensures { result ≡ offset_in index (items_in part.entry.at part.entry.bytes.now) }
{
    let (item, rest) = part.next_item()?;
    if index == 0 {
        Some(item.first.at)
    } else {
        offset_in(rest, index - 1)
    }
}

/// The byte offset of the item at an index: the number of instructions at 0, and the first instruction at 1.
pub fn item_offset(text: &str, index: usize) -> Option<usize>
    ensures { result ≡ offset_in index (items_in 0 text.now) }
{
    let whole = Part {
        at: 0,
        bytes: text.as_bytes(),
    };
    offset_in(whole, index)
}
