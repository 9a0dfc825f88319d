//! Laws of merging, which hold of the definitions alone.
ghost use Rattle.ordered_merge.specs.Laws.{CutFollows, EndFollows, EndedIsSafe, FetchFollows, NewFollows, OneOrder, RoundsAreOneList, RunIsOrder};

/// The frames of two lists have one order.
pub fn one_order()
    ensures { OneOrder }
{}

/// The order that a merger keeps along a run: the frames that it cut, followed by those pending, are in order
/// and are all that it fetched, and no frame that may still come has a key below a cut one. A new merger
/// begins so, and each call keeps it.
pub fn runs_follow()
    ensures new { NewFollows }
    ensures fetch { FetchFollows }
    ensures end { EndFollows }
    ensures cut { CutFollows }
{}

/// At the end, with both networks ended and all safe frames cut, the cut frames are all, in order.
pub fn runs_end_in_order()
    ensures order { RunIsOrder }
    ensures all_safe { EndedIsSafe }
{}

/// Cuts of any sizes give, one after another, one list.
pub fn rounds_are_one_list()
    ensures { RoundsAreOneList }
{}
