//! Words of fields 6 to 9, from text.
ghost use Rattle.std.specs.Prelude.{◌≡◌, ◌≢◌, [], IfOk, IfErr, OnOk, flat_map};
ghost use Rattle.std.specs.List.{All};
ghost use Rattle.ledger_text.specs.Words.{IsWordFault, fault_text, group_text, items_of, names};
ghost use Rattle.ledger_text.specs.Words.{word_text, words_named};

use crate::word::Word;
use integrity::Integrity;
use policing::Policing;
use redundancy::Redundancy;
use std::alloc::{AllocError, Global};
use thiserror::Error;
use vl_config::Class;

/// The faults of a list of words.
#[derive(Clone, Copy, Debug, PartialEq, Eq, Error)]
pub enum WordFault {
    /// The first item that names no word, counted from 0.
    #[error("item {0} is no word of fields 6 to 9")]
    Item(usize),
    /// Out of memory.
    #[error("out of memory")]
    Memory,
}

impl From<AllocError> for WordFault {
    ghost use Rattle.std.specs.Prelude.{◌≡◌};
    ghost use Rattle.ledger_text.specs.declared.word_list.WordFault.TheVariants.{Memory};

    ghost from_gives = { λ _ e. e ≡ Memory };

    fn from(_error: AllocError) -> WordFault {
        WordFault::Memory
    }
}

/// All words, field by field.
const WORDS: [Word; 18] = [
    Word::Class(Class::Cut),
    Word::Class(Class::Runt),
    Word::Class(Class::Oversize),
    Word::Class(Class::Foreign),
    Word::Class(Class::Unconfigured),
    Word::Class(Class::TooLong),
    Word::Class(Class::Regular),
    Word::Policing(Policing::Within),
    Word::Policing(Policing::Excess),
    Word::Integrity(Integrity::First),
    Word::Integrity(Integrity::Reset),
    Word::Integrity(Integrity::Next),
    Word::Integrity(Integrity::Skip),
    Word::Integrity(Integrity::Off),
    Word::Integrity(Integrity::Out),
    Word::Redundancy(Redundancy::Deliver),
    Word::Redundancy(Redundancy::Copy),
    Word::Redundancy(Redundancy::Both),
];

/// A word as the ledger writes it.
fn text_of(word: Word) -> &'static str
    ensures { result.now ≡ word_text word }
{
    match word {
        Word::Class(class) => class.word(),
        Word::Policing(policing) => policing.word(),
        Word::Integrity(integrity) => integrity.word(),
        Word::Redundancy(redundancy) => redundancy.word(),
    }
}

/// The fate of a frame whose last word this is; the word itself where it is no last one.
fn group_of(word: Word) -> &'static str
    ensures { result.now ≡ group_text word }
{
    match word {
        Word::Class(Class::Regular) | Word::Policing(Policing::Within) => text_of(word),
        Word::Class(_) | Word::Policing(Policing::Excess) => "discarded",
        Word::Integrity(Integrity::Out) | Word::Redundancy(Redundancy::Copy) => "discarded",
        Word::Redundancy(_) => "delivered",
        Word::Integrity(_) => text_of(word),
    }
}

/// The name of all faults, if a frame whose last word this is was discarded, and not as a copy; else the word
/// itself.
fn fault_of(word: Word) -> &'static str
    ensures { result.now ≡ fault_text word }
{
    match word {
        Word::Class(Class::Regular) | Word::Policing(Policing::Within) => text_of(word),
        Word::Class(_) | Word::Policing(Policing::Excess) => "faults",
        Word::Integrity(Integrity::Out) => "faults",
        Word::Integrity(_) | Word::Redundancy(_) => text_of(word),
    }
}

/// Does the item stand for the word?
fn names(item: &str, word: Word) -> bool
    ensures { result ≡ names item.now word }
{
    item == text_of(word) || item == group_of(word) || item == fault_of(word)
}

/// The words that an item stands for.
#[tactic(auto, unfolding(crate::specs::Words::words_named))]
fn words_named(alloc: Global, item: &str) -> Result<Vec<Word>, AllocError>
    ensures { IfOk result (λ words. words.items ≡ words_named item.now) }
{
    WORDS
        .iter()
        .copied()
        .filter(|word| names(item, *word))
        .collect(alloc)
}

/// Reads words of fields 6 to 9, as the ledger writes them, separated by commas. `discarded` stands for each
/// word that says that a frame was, and `delivered` likewise; `faults` for those that `discarded` stands for,
/// but `copy`. The words stand in the order of the items, and those of one item in that of the fields.
/// `Memory` may come at any text.
pub fn read_words(alloc: Global, text: &str) -> Result<Vec<Word>, WordFault>
    ensures words { IfOk result (λ words. words.items ≡ flat_map words_named (items_of text.now)) }
    ensures whole { OnOk result (All (λ item. words_named item ≢ []) (items_of text.now)) }
    ensures fault { IfErr result (IsWordFault (items_of text.now)) }
{
    let mut words = Vec::new(alloc);
    let mut index: usize = 0;
    for item in text.split(',') {
        let found = words_named(alloc, item)?;
        let named = found.as_slice();
        if named.is_empty() {
            return Err(WordFault::Item(index));
        }
        words.extend_from_slice(named)?;
        // A text has at most one item more than bytes.
        index = text.len().min(index.saturating_add(1));
    }
    Ok(words)
}
