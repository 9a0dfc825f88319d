//! The bounds of a ledger's lines.
ghost use Rattle.std.specs.Prelude.{◌≡◌, ◌^◌};
ghost use Rattle.ledger_text.specs.declared.bounds.TheConstants.{BLOCK_LEN, MAX_LINES};

/// The bytes of the block that a source is read into. A line and its newline have room in it.
pub const BLOCK_LEN: usize = 65_536;

/// The most lines that are read: more than two recordings of 2^32 frames, with their counts, can have.
pub const MAX_LINES: u64 = 1 << 34;

/// A line and its newline have room in 65536 bytes, and at most 2^34 lines are read: docs/LEDGER.md states
/// both under "What is read".
pub fn bounds_are_documented()
    ensures block { BLOCK_LEN ≡ 65536 }
    ensures lines { MAX_LINES ≡ 2 ^ 34 }
{}
