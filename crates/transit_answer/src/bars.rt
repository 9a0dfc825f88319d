//! The transits of all frames as rows of bars, by lengths of 1, 2, 5, 10 .. microseconds.

use std::alloc::AllocError;
use std::fmt::Write;
use transit_run::{BORDERS, Latency, ROWS};

/// The most rows that are shown.
const MOST: usize = 7;

/// The most characters of a bar.
const WIDTH: u128 = 44;

/// The counts of the rows, and which are shown: those outside stand in the first and the last of them.
#[derive(Drop)]
struct Bars {
    counts: [u64; ROWS],
    first: usize,
    last: usize,
    /// Are shorter transits in the first row, and longer ones in the last?
    has_below: bool,
    has_above: bool,
}

impl Bars {
    fn of(latency: &Latency) -> Bars {
        let mut counts = [0u64; ROWS];
        for row in 0..ROWS {
            counts[row] = latency.rows()[row];
        }
        let first = counts.iter().position(|count| *count > 0).unwrap_or(0);
        let last = counts.iter().rposition(|count| *count > 0).unwrap_or(first);
        let mut bars = Bars {
            counts,
            first,
            last,
            has_below: false,
            has_above: false,
        };
        for _ in 0..ROWS {
            if bars.last.saturating_sub(bars.first) < MOST {
                break;
            }
            bars.narrow();
        }
        bars
    }

    /// Puts the smaller of the first row and the last into its neighbour.
    fn narrow(&mut self) {
        let (first, last) = (self.first.min(ROWS - 2), self.last.clamp(1, ROWS - 1));
        if self.counts[first] <= self.counts[last] {
            let count = self.counts[first];
            self.counts[first + 1] = self.counts[first + 1].saturating_add(count);
            self.first = first + 1;
            self.has_below = true;
        } else {
            let count = self.counts[last];
            self.counts[last - 1] = self.counts[last - 1].saturating_add(count);
            self.last = last - 1;
            self.has_above = true;
        }
    }

    /// The most that a row counts.
    fn most(&self) -> u64 {
        let mut most = 0u64;
        for row in self.first..=self.last {
            most = most.max(self.counts.get(row).copied().unwrap_or(0));
        }
        most
    }

    /// Appends a row.
    fn push_row(&self, out: &mut String, row: usize, most: u64) -> Result<(), AllocError> {
        let count = self.counts.get(row).copied().unwrap_or(0);
        let low = row
            .checked_sub(1)
            .and_then(|row| BORDERS.get(row))
            .copied()
            .unwrap_or(0)
            / 1000;
        let high = BORDERS.get(row).copied().unwrap_or(0) / 1000;
        if row == 0 || (row == self.first && self.has_below) {
            write!(out, "   below    {high:>8} us")?;
        } else if high == 0 || (row == self.last && self.has_above) {
            write!(out, "{low:>9} or more  us")?;
        } else {
            write!(out, "{low:>8} to {high:>8} us")?;
        }
        write!(out, "{count:>11}")?;
        let length = (u128::from(count) * WIDTH).div_ceil(u128::from(most.max(1)));
        if length > 0 {
            out.push_str(" ")?;
        }
        for _ in 0..length.min(WIDTH) {
            out.push_str("#")?;
        }
        out.push_str("\n")
    }
}

/// Appends the rows.
pub(crate) fn push_bars(out: &mut String, latency: &Latency) -> Result<(), AllocError> {
    let bars = Bars::of(latency);
    let most = bars.most();
    for row in bars.first..=bars.last {
        bars.push_row(out, row, most)?;
    }
    Ok(())
}
