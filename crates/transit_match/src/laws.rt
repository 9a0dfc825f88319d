//! Laws of the pairing, which hold of its definition alone.

ghost use Rattle.transit_match.specs.Laws.{NoneMissedIn, NoneMissedOut, OnePairing, OnePartner, OrderKept, Symmetry};

/// A frame has at most one partner, and frames determine their pairs.
pub fn one_pairing<K: PartialEq>()
    ensures partner { OnePartner K.eq }
    ensures pairing { OnePairing K.eq }
{}

/// Frames of one key keep their order.
pub fn order_is_kept<K: PartialEq>()
    ensures { OrderKept K.eq }
{}

/// A frame stays without a partner only where all that it may be have one that came earlier.
pub fn none_is_missed<K: PartialEq>()
    ensures out { NoneMissedOut K.eq }
    ensures in_ { NoneMissedIn K.eq }
{}

/// Neither recording is favoured: the pairs are the same where each frame that went in takes the first
/// that came out.
pub fn pairing_is_symmetric<K: PartialEq>()
    ensures { Symmetry K.eq }
{}
