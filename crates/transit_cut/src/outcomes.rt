//! Outcomes that a person names.

use transit_ledger::Outcome;

/// A set of outcomes: bit `n` is that of outcome `n` of `Outcome::ALL`.
#[derive(Clone, Copy, PartialEq, Eq)]
pub struct OutcomeSet(u16);

/// The bits of the outcomes that a word names: `faults` names all that are a fault of the switch.
fn bits_of(word: &str) -> u16 {
    let mut bits = 0;
    let mut bit: u16 = 1;
    for outcome in Outcome::ALL {
        if word == outcome.word() || (word == "faults" && outcome.is_fault()) {
            bits |= bit;
        }
        bit = bit.rotate_left(1);
    }
    bits
}

impl OutcomeSet {
    /// Reads words of field 8 of a ledger of transits with commas between them; `faults` stands for all
    /// that are a fault of the switch.
    ///
    /// # Errors
    ///
    /// The index of the first item that is no such word, from 0.
    pub fn read(text: &str) -> Result<OutcomeSet, usize> {
        let mut set = 0;
        for (item, word) in text.split(',').enumerate() {
            let bits = bits_of(word.trim());
            if bits == 0 {
                return Err(item);
            }
            set |= bits;
        }
        Ok(OutcomeSet(set))
    }

    /// Is the outcome in the set?
    pub fn contains(self, outcome: Outcome) -> bool {
        self.0 & bits_of(outcome.word()) != 0
    }
}
