//! Words of a line's fields 6 to 9.
ghost use Rattle.std.specs.Prelude.{IsTrue, ◌↔◌};
ghost use Rattle.ledger_text.specs.Selection.{Says, SaysOne};

use crate::frame::FrameLine;
use integrity::Integrity;
use policing::Policing;
use redundancy::Redundancy;
use vl_config::Class;

/// A word of fields 6 to 9.
#[derive(Clone, Copy, PartialEq, Eq)]
pub enum Word {
    /// Field 6: the class.
    Class(Class),
    /// Field 7: what policing says.
    Policing(Policing),
    /// Field 8: what integrity checking says.
    Integrity(Integrity),
    /// Field 9: what redundancy management says.
    Redundancy(Redundancy),
}

/// Does the line say the word?
#[inline]
pub fn says(line: &FrameLine, word: Word) -> bool
    ensures { IsTrue result ↔ Says line.now word }
{
    let verdict = &line.verdict;
    match word {
        Word::Class(class) => verdict.class == class,
        Word::Policing(policing) => verdict.policing == Some(policing),
        Word::Integrity(integrity) => verdict.integrity == Some(integrity),
        Word::Redundancy(redundancy) => verdict.redundancy == Some(redundancy),
    }
}

/// Does the line say one of the words?
#[inline]
pub fn says_one(line: &FrameLine, words: &[Word]) -> bool
    ensures { IsTrue result ↔ SaysOne line.now words.now }
{
    for word in words {
        if says(line, *word) {
            return true;
        }
    }
    false
}
