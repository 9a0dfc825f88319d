//! The bounds of a ledger. Its counts and its masks rest on them.

/// The most lines of frames of a ledger: two recordings have fewer together. No count of a ledger comes
/// near 2^64.
pub const MAX_LINES: u64 = 1 << 34;

/// The most filters of a ledger: the mask of a line has a bit for each.
pub const MAX_FILTERS: usize = 8;
