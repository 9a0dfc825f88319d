//! How long frames took.

use std::alloc::{AllocError, Global};

/// The borders by which transits are counted exactly, in nanoseconds: 1, 2, 5, 10 .. microseconds.
pub const BORDERS: [i64; 27] = [
    1_000,
    2_000,
    5_000,
    10_000,
    20_000,
    50_000,
    100_000,
    200_000,
    500_000,
    1_000_000,
    2_000_000,
    5_000_000,
    10_000_000,
    20_000_000,
    50_000_000,
    100_000_000,
    200_000_000,
    500_000_000,
    1_000_000_000,
    2_000_000_000,
    5_000_000_000,
    10_000_000_000,
    20_000_000_000,
    50_000_000_000,
    100_000_000_000,
    200_000_000_000,
    500_000_000_000,
];

/// How many rows there are: below the first border, from each border to the next, and from the last one on.
pub const ROWS: usize = BORDERS.len() + 1;

/// The transits of frames, in nanoseconds. A transit below 0 is that of clocks which are apart.
#[derive(Drop)]
pub struct Latency {
    /// How many there are.
    pub count: u64,
    /// Their sum.
    pub sum: i128,
    /// The shortest and the longest.
    pub range: Option<(i64, i64)>,
    /// How many were longer than the bound.
    pub over: u64,
    /// How many were below 0.
    pub negative: u64,
    /// The lengths, rounded, from the shortest on, and how many there are of each.
    bins: Vec<(i64, u64)>,
    /// How many there are in each row.
    rows: [u64; ROWS],
}

impl Latency {
    /// Of no frame. Allocates nothing.
    pub fn new(alloc: Global) -> Latency {
        Latency {
            count: 0,
            sum: 0,
            range: None,
            over: 0,
            negative: 0,
            bins: Vec::new(alloc),
            rows: [0; ROWS],
        }
    }

    /// Counts a transit.
    ///
    /// # Errors
    ///
    /// `AllocError` if there is no memory for a length that is met for the first time.
    pub fn add(&mut self, transit: i64, bound: Option<u64>) -> Result<(), AllocError> {
        self.count_bin(rounded(transit))?;
        if let Some(row) = self.rows.as_mut_slice().get_mut(row_of(transit)) {
            *row = row.saturating_add(1);
        }
        self.count = self.count.saturating_add(1);
        self.sum = self.sum.saturating_add(i128::from(transit));
        self.range = match self.range {
            Some((least, greatest)) => Some((least.min(transit), greatest.max(transit))),
            None => Some((transit, transit)),
        };
        if transit < 0 {
            self.negative = self.negative.saturating_add(1);
        } else if bound.is_some_and(|bound| transit.unsigned_abs() > bound) {
            self.over = self.over.saturating_add(1);
        }
        Ok(())
    }

    fn count_bin(&mut self, bin: i64) -> Result<(), AllocError> {
        let place = self.place_of(bin);
        if let Some(held) = self.bins.get_mut(place) {
            if held.0 == bin {
                held.1 = held.1.saturating_add(1);
                return Ok(());
            }
        }
        self.bins.insert(place.min(self.bins.len()), (bin, 1))?;
        Ok(())
    }

    /// The place of a rounded length, or where it is put. The lengths mostly follow each other without a gap,
    /// so that the first one tells it.
    fn place_of(&self, bin: i64) -> usize {
        let first = match self.bins.first() {
            Some((first, _)) => *first,
            None => return 0,
        };
        let steps = step_of(bin).saturating_sub(step_of(first));
        let place = usize::try_from(steps).unwrap_or(0);
        match self.bins.get(place) {
            Some((held, _)) if *held == bin => place,
            _ => match self.bins.binary_search_by(|held| held.0.cmp(&bin)) {
                Ok(place) | Err(place) => place,
            },
        }
    }

    /// Their mean, rounded down. None: there is none.
    pub fn mean(&self) -> Option<i64> {
        if self.count == 0 {
            return None;
        }
        let mean = self.sum.div_euclid(i128::from(self.count));
        i64::try_from(mean).ok()
    }

    /// The lengths of transits, rounded, from the shortest on, and how many there are of each.
    pub fn bins(&self) -> &[(i64, u64)] {
        &self.bins
    }

    /// How many transits there are in each row by [`BORDERS`].
    pub fn rows(&self) -> &[u64; ROWS] {
        &self.rows
    }

    /// The length, rounded, that so many of a thousand transits don't exceed. None: there is none.
    pub fn rank(&self, thousandths: u64) -> Option<i64> {
        let mut left = u128::from(self.count) * u128::from(thousandths);
        for (bin, count) in &self.bins {
            let these = u128::from(*count) * 1000;
            if left <= these {
                return Some(*bin);
            }
            left -= these;
        }
        None
    }
}

/// The row of a transit: one of a border's length is in the row that begins there.
fn row_of(transit: i64) -> usize {
    match BORDERS.binary_search(&transit) {
        Ok(place) => place.saturating_add(1),
        Err(place) => place,
    }
}

/// How many binary digits of a size are rounded away, so that eight are left.
fn digits_off(size: u64) -> u32 {
    56_u32.saturating_sub(size.leading_zeros())
}

/// Towards zero, to eight leading binary digits: less than 0.8 % off.
fn rounded(transit: i64) -> i64 {
    let size = transit.unsigned_abs();
    let low = digits_off(size);
    let size = i64::try_from(size.wrapping_shr(low).wrapping_shl(low)).unwrap_or(i64::MAX);
    if transit < 0 {
        0_i64.saturating_sub(size)
    } else {
        size
    }
}

/// How many rounded lengths there are from 0 to this one.
fn step_of(bin: i64) -> i64 {
    let size = bin.unsigned_abs();
    let low = digits_off(size);
    let digits = i64::try_from(size.wrapping_shr(low)).unwrap_or(0);
    let steps = i64::from(low).saturating_mul(128).saturating_add(digits);
    if bin < 0 {
        0_i64.saturating_sub(steps)
    } else {
        steps
    }
}
