//! The thresholds and bounds of a report.

/// How many bins a series has.
pub const BINS: usize = 240;
/// How many bins the series of a link have, each as wide as two of a network's.
pub const LINK_BINS: usize = 120;
/// The width of a bin at first, in nanoseconds: 5^9, of which 2^9 make a second.
pub const FIRST_WIDTH: u64 = 1_953_125;
