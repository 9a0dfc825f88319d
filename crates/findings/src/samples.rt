//! A few numbers, and their median.
use crate::long::{Long, ZERO};

/// Up to so many numbers.
#[derive(Clone, Copy)]
pub struct Samples<const N: usize> {
    values: [Long; N],
    count: usize,
}

impl<const N: usize> Samples<N> {
    /// No sample.
    pub fn none() -> Samples<N> {
        Samples {
            values: [ZERO; N],
            count: 0,
        }
    }

    /// How many samples there are.
    pub fn len(&self) -> usize {
        self.count
    }

    /// Is there no room for another?
    pub fn is_full(&self) -> bool {
        self.count >= N
    }

    /// They, in the order in which they came.
    pub fn values(&self) -> &[Long] {
        match self.values.as_slice().get(..self.count) {
            Some(values) => values,
            None => &[],
        }
    }

    /// Takes one more, where there is room.
    pub fn put(&mut self, value: Long) {
        if let Some(place) = self.values.as_mut_slice().get_mut(self.count) {
            *place = value;
            self.count = self.count.saturating_add(1);
        }
    }

    /// The one that stands at a share of so many parts of so many, from least to greatest.
    pub fn at(&self, part: usize, of: usize) -> Long {
        let mut sorted = self.values;
        let count = self.count.min(N);
        let sorted = sorted.as_mut_slice();
        let Some(held) = sorted.get_mut(..count) else {
            return ZERO;
        };
        held.sort_unstable();
        let place = count.saturating_mul(part).checked_div(of).unwrap_or(0);
        held.get(place).copied().unwrap_or(ZERO)
    }

    /// The middle sample by size.
    pub fn median(&self) -> Long {
        self.at(1, 2)
    }

    /// The least sample.
    pub fn least(&self) -> Long {
        self.values().iter().copied().min().unwrap_or(ZERO)
    }

    /// The greatest sample.
    pub fn greatest(&self) -> Long {
        self.values().iter().copied().max().unwrap_or(ZERO)
    }

    /// Without its first.
    pub fn drop_first(&mut self) {
        let before = self.values;
        for (place, value) in self.values.as_mut_slice().iter_mut().enumerate() {
            let next = before.as_slice().get(place.saturating_add(1));
            *value = next.copied().unwrap_or(ZERO);
        }
        self.count = self.count.saturating_sub(1);
    }
}
