//! A value for each sequence number of a link.

ghost use Rattle.std.specs.Prelude.{◌≡◌, ◌==◌, ◌≤◌, ℕ, [], Some, None, OnOk, if◌then◌else◌, slice_index_or, vec_len};

use std::alloc::{AllocError, Global};

/// How many sequence numbers there are.
const NUMBERS: usize = 256;

/// A value for some of the sequence numbers. Allocates at the first one alone.
#[derive(Drop)]
pub struct PerNumber<T> {
    held: Vec<Option<T>>,
}

impl<T: Copy> PerNumber<T> {
    /// No value.
    pub(crate) fn new(alloc: Global) -> PerNumber<T>
        ensures { result.held.items ≡ [] }
    {
        PerNumber {
            held: Vec::new(alloc),
        }
    }

    /// The value of a number.
    #[inline]
    pub(crate) fn get(&self, number: u8) -> Option<T>
        ensures { result ≡ slice_index_or self.now.held.items number None }
    {
        match self.held.get(usize::from(number)) {
            Some(value) => *value,
            None => None,
        }
    }

    /// Sets the value of a number.
    #[inline]
    pub(crate) fn set(&mut self, number: u8, value: T) -> Result<(), AllocError>
        ensures { OnOk result ((n : ℕ) → slice_index_or self.new.held.items n None
            ≡ (if number == n then Some value else slice_index_or self.old.held.items n None)) }
    {
        self.widen()?;
        self.held[usize::from(number)] = Some(value);
        Ok(())
    }

    /// Has a place for each number.
    #[inline]
    fn widen(&mut self) -> Result<(), AllocError>
        ensures room { OnOk result (256 ≤ vec_len self.new.held) }
        ensures same { OnOk result ((n : ℕ) → slice_index_or self.new.held.items n None
            ≡ slice_index_or self.old.held.items n None) }
    {
        if self.held.len() < NUMBERS {
            self.held.resize(NUMBERS, None)?;
        }
        Ok(())
    }

    /// Takes the value of a number away.
    #[inline]
    pub(crate) fn remove(&mut self, number: u8) {
        if let Some(value) = self.held.get_mut(usize::from(number)) {
            *value = None;
        }
    }
}
