//! The order in which frames are asked for.
ghost use Rattle.std.specs.Prelude.{◌≡◌, true};
ghost use Rattle.cut_run.specs.Places.{is_below, place_cmp, place_of};
ghost use Rattle.cut_run.specs.declared.place.SearchPlace.{SearchPlace};

use afdx_frame::{Stamp, TapFrame};

/// The place of a frame in the order of its recording's timestamps: by timestamp, then by index.
#[derive(Clone, Copy, Debug, PartialEq, Eq, PartialOrd, Ord)]
pub(crate) struct SearchPlace {
    pub(crate) stamp: Stamp,
    pub(crate) number: u64,
}

impl SearchPlace {
    /// The frame's place.
    #[inline(always)]
    pub(crate) fn of(frame: &TapFrame) -> SearchPlace
        ensures { result ≡ place_of frame.now }
    {
        SearchPlace {
            stamp: frame.stamp(),
            number: frame.number(),
        }
    }
}

/// The order of places: the timestamp decides, then the index.
pub(crate) fn place_order()
    ensures { (p q : SearchPlace) → ⟦<SearchPlace as Ord>⟧.cmp p q ≡ place_cmp p q }
{}

/// True if the first place is below the second.
#[inline(always)]
pub(crate) fn is_below(first: SearchPlace, second: SearchPlace) -> bool
    ensures { result ≡ is_below first second }
{
    place_order();
    first < second
}

/// True if the frame is of the place.
#[inline(always)]
pub(crate) fn is_of(frame: &TapFrame, place: SearchPlace) -> bool
    ensures same { result ≡ true → place_of frame.now ≡ place }
    ensures other { place_of frame.now ≡ place → result ≡ true }
{
    frame.stamp().0 == place.stamp.0 && frame.number() == place.number
}
