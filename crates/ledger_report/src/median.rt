//! The median of values and those of other ranks, from counts of classes of them.

ghost use Rattle.std.specs.Prelude.{◌<◌, ◌≤◌};

use std::alloc::{AllocError, Global};

/// How many classes there are: values below 32 have one each, and each octave above has 16, up to 2^31.
const CLASSES: usize = 448;
/// A greater value counts as this one.
const GREATEST: u64 = 2_147_483_647;

/// Counts of values by their five leading binary digits. The skews of a link lie near each other, so that few
/// classes of all take memory.
#[derive(Drop)]
pub struct Classes {
    /// The least class that came, and the counts from it up to the greatest that came.
    first: usize,
    counts: Vec<u64>,
}

/// The leading binary digits of a value, and how many come after them.
#[derive(Clone, Copy)]
struct Leading {
    digits: u64,
    more: u32,
}

/// The class of a value.
#[inline]
fn class_of(value: u64) -> usize {
    let Leading { digits, more } = leading_of(value.min(GREATEST));
    (more as usize * 16).saturating_add(digits as usize)
}

/// The five leading digits of a value, or all where it has fewer.
#[inline]
fn leading_of(value: u64) -> Leading
    requires { value ≤ 2147483647 }
{
    if value < 32 {
        return Leading {
            digits: value,
            more: 0,
        };
    }
    let more = (value / 16).ilog2();
    Leading {
        digits: value >> more,
        more,
    }
}

/// The least value of a class.
fn least_of(class: usize) -> u64
    requires { class < 448 }
{
    if class < 32 {
        return class as u64;
    }
    (16 + class as u64 % 16) << (class as u32 / 16 - 1)
}

impl Classes {
    pub(crate) fn new(alloc: Global) -> Classes {
        Classes {
            first: 0,
            counts: Vec::new(alloc),
        }
    }

    /// Counts a value.
    #[inline]
    pub(crate) fn add(&mut self, value: u64) -> Result<(), AllocError> {
        let class = class_of(value);
        if let Some(place) = class.checked_sub(self.first)
            && let Some(count) = self.counts.get_mut(place)
        {
            *count = count.saturating_add(1);
            return Ok(());
        }
        self.widen(class)?;
        if let Some(count) = self.counts.get_mut(class.saturating_sub(self.first)) {
            *count = 1;
        }
        Ok(())
    }

    /// Has a count for this class.
    #[cold]
    fn widen(&mut self, class: usize) -> Result<(), AllocError> {
        if self.counts.is_empty() {
            self.first = class;
        }
        let count = self.counts.len();
        let below = self.first.saturating_sub(class);
        let most = count.max(class.saturating_sub(self.first).saturating_add(1));
        self.counts.resize(most.saturating_add(below), 0)?;
        self.counts.rotate_right(below);
        self.first = self.first.min(class);
        Ok(())
    }

    /// The lower median of so many values, rounded down to its five leading binary digits.
    pub(crate) fn median(&self, count: u64) -> u64 {
        self.ranked(count.saturating_sub(1) / 2)
    }

    /// The value at this index of the values in rising order, from 0, rounded down to its five leading binary
    /// digits; 0 where there is none.
    pub(crate) fn ranked(&self, index: u64) -> u64 {
        let mut left = index.saturating_add(1);
        for (place, held) in self.counts.iter().enumerate() {
            if left <= *held {
                return least_of(self.first.saturating_add(place).min(CLASSES - 1));
            }
            left = left.saturating_sub(*held);
        }
        0
    }
}
