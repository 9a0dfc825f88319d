//! The order of frames.
ghost use Rattle.std.specs.Prelude.{◌≡◌};
ghost use Rattle.std.specs.Ordering.{is_lt};
ghost use Rattle.afdx_frame.specs.Frame.{key_cmp};

use afdx_frame::{Key, key_order};

/// True if the first key is below the second.
#[inline(always)]
pub(crate) fn comes_before(first: Key, second: Key) -> bool
    ensures { result ≡ is_lt (key_cmp first second) }
{
    key_order();
    first < second
}
