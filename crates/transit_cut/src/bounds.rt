//! The bounds of a cut by a ledger of transits.

use run_fault::MAX_FRAMES;

/// More lines than a ledger has: two recordings' frames, and counts.
pub const MAX_LINES: u64 = 4 * MAX_FRAMES;
