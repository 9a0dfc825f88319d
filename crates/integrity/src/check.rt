//! The state of integrity checking, and its step.

ghost use Rattle.std.specs.Prelude.{◌≡◌, ℕ, List, [], ◌∷◌, ◌++◌, length};
ghost use Rattle.integrity.specs.Sequence.{next_number, verdict_against, verdict_at, StandsAfter};

use crate::verdict::Integrity;
use std::marker::Model;

/// Integrity checking of one virtual link on one network. It keeps the sequence number of the frame
/// before, valid or not.
#[derive(Drop)]
pub struct Check {
    last: Option<u8>,
}

impl Model for Check {
    ghost use Rattle.std.specs.Prelude.{ℕ, Option};

    ghost Value = { Option ℕ };

    ghost view = { λ check. check.last };
}

impl Check {
    /// A check that has seen no frame, as at the start of a recording (the receiver's only reset,
    /// by this project's profile).
    pub fn new() -> Check
        ensures { StandsAfter result [] }
    {
        Check { last: None }
    }

    /// Judges the frame with this sequence number, and remembers the number. `on` says whether the
    /// link has integrity checking on; where it is off, each frame is `Off`.
    #[tactic(auto, using(crate::proofs::Ends::verdict_at_append, crate::proofs::Ends::stands_after_append))]
    #[inline(always)]
    pub fn judge(&mut self, on: bool, sn: u8) -> Integrity
        ensures verdict { (numbers : List ℕ) → StandsAfter self.old numbers →
            result ≡ verdict_at on (numbers ++ sn ∷ []) (length numbers) }
        ensures after { (numbers : List ℕ) → StandsAfter self.old numbers →
            StandsAfter self.new (numbers ++ sn ∷ []) }
    {
        let before = self.last.replace(sn);
        if on {
            verdict_against(before, sn)
        } else {
            Integrity::Off
        }
    }
}

/// The verdict of a number by the number before it, which is None for the first frame.
fn verdict_against(before: Option<u8>, sn: u8) -> Integrity
    ensures { result ≡ verdict_against before sn }
{
    let Some(before) = before else {
        return Integrity::First;
    };
    let next = number_after(before);
    if sn == 0 {
        Integrity::Reset
    } else if sn == next {
        Integrity::Next
    } else if sn == number_after(next) {
        Integrity::Skip
    } else {
        Integrity::Out
    }
}

/// The sequence number that follows: 1 to 255, then 1 again (ARINC 664 Part 7; 0 stands only after
/// a reset).
fn number_after(number: u8) -> u8
    ensures { result ≡ next_number number }
{
    if number == u8::MAX { 1 } else { number + 1 }
}
