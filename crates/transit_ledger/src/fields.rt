//! The fields of a line.

use crate::number::{number_of, signed_of};

/// The fields of a line that are left, from one space to the next.
#[derive(Clone, Copy)]
pub(crate) struct Fields<'a> {
    rest: Option<&'a [u8]>,
}

impl<'a> Fields<'a> {
    /// All fields of a line.
    pub(crate) fn new(line: &'a [u8]) -> Fields<'a> {
        Fields { rest: Some(line) }
    }

    /// The next field. None: there is none.
    pub(crate) fn next(&mut self) -> Option<&'a [u8]> {
        let rest = self.rest?;
        match rest.iter().position(|byte| *byte == b' ') {
            Some(at) => {
                self.rest = rest.get(at.saturating_add(1)..);
                rest.get(..at)
            }
            None => {
                self.rest = None;
                Some(rest)
            }
        }
    }

    /// Passes the next field. None: it isn't this word.
    pub(crate) fn pass(&mut self, word: &str) -> Option<()> {
        if self.next()? == word.as_bytes() {
            Some(())
        } else {
            None
        }
    }

    /// The field after this word.
    pub(crate) fn after(&mut self, word: &str) -> Option<&'a [u8]> {
        self.pass(word)?;
        self.next()
    }

    /// The number after this word.
    pub(crate) fn number_after(&mut self, word: &str) -> Option<u64> {
        number_of(self.after(word)?)
    }

    /// The number after this word, which may be below 0.
    pub(crate) fn signed_after(&mut self, word: &str) -> Option<i64> {
        signed_of(self.after(word)?)
    }

    /// Is no field left?
    pub(crate) fn is_at_end(&self) -> bool {
        self.rest.is_none()
    }

    /// The value of a line of which no field is left.
    pub(crate) fn ended<T: Copy>(&self, value: T) -> Option<T> {
        if self.is_at_end() { Some(value) } else { None }
    }
}
