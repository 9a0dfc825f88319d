//! The frames that were passed, and that may still be asked for.
ghost use Rattle.std.specs.Prelude.{◌≡◌, IsOk, IsTrue, IsSome, ◌↔◌, OnOk, OnErr, None, true, false};
ghost use Rattle.cut_run.specs.Places.{IsBelow, place_of};
ghost use Rattle.cut_run.specs.Passed.{Forgets, KeepsLater, Takes, passed_at};
ghost use Rattle.cut_run.specs.declared.place.SearchPlace.{SearchPlace};

use crate::place::{SearchPlace, is_below, place_order};
use afdx_frame::TapFrame;
use std::collections::BTreeMap;

/// True if a frame was passed that is below the place.
#[inline(always)]
fn has_below(passed: &BTreeMap<SearchPlace, TapFrame>, place: SearchPlace) -> bool
    ensures below { result ≡ true → (q : SearchPlace) × IsSome (passed_at passed.now q) × IsBelow q place }
    ensures none { result ≡ false → (q : SearchPlace)
        → IsSome (passed_at passed.now q) → IsBelow q place → ⊥ }
{
    place_order();
    match passed.first_key_value() {
        Some((first, _)) => is_below(*first, place),
        None => false,
    }
}

/// Drops the frames below the place.
#[inline]
pub(crate) fn forget_below(passed: &mut BTreeMap<SearchPlace, TapFrame>, place: SearchPlace)
    ensures { Forgets place passed.old passed.new }
{
    place_order();
    while has_below(passed, place) {
        passed.pop_first();
    }
}

/// Takes out the frame at the place.
pub(crate) fn take_at(
    passed: &mut BTreeMap<SearchPlace, TapFrame>,
    place: SearchPlace,
) -> Option<TapFrame>
    ensures found { result ≡ passed_at passed.old place }
    ensures taken { Takes place passed.old passed.new }
{
    place_order();
    passed.remove(&place)
}

/// Keeps a frame, if it is later than the place. None: there was no memory to keep it.
pub(crate) fn keep_later(
    passed: &mut BTreeMap<SearchPlace, TapFrame>,
    place: SearchPlace,
    frame: TapFrame,
) -> Option<()>
    ensures kept { IsSome result → KeepsLater place frame passed.old passed.new }
    ensures refused { result ≡ None → IsBelow place (place_of frame) }
{
    place_order();
    let at = SearchPlace::of(&frame);
    if !is_below(place, at) {
        return Some(());
    }
    match passed.insert(at, frame) {
        Ok(_) => Some(()),
        Err(_) => None,
    }
}
