//! The look at each recording beside the pass: for check sequences, and at the bytes of the first frames,
//! by which clocks that are far apart show.

use afdx_frame::{LentFrame, Network};
use std::alloc::{AllocError, Global};
use traffic_survey::ends_with_check;

/// How many frames of a recording are looked at for check sequences.
const CHECKED: u64 = 64;

/// How many frames of a recording are kept by their bytes' hash.
const SAMPLED: usize = 65536;

/// The first value of FNV-1a of 64 bits.
const OFFSET_BASIS: u64 = 0xcbf2_9ce4_8422_2325;

/// An odd number by which words are mixed.
const MIXER: u64 = 0x9e37_79b9_7f4a_7c15;

/// The hash of a frame's bytes, and its moment in nanoseconds.
pub(crate) type Sample = (u64, u64);

/// The look at one recording.
#[derive(Drop)]
pub(crate) struct Look {
    /// How many frames were looked at for check sequences, and how many end with theirs.
    checked: u64,
    with_check: u64,
    /// The first frames.
    pub(crate) samples: Vec<Sample>,
}

/// The looks at both recordings.
#[derive(Drop)]
pub struct Looks {
    pub(crate) before: Look,
    pub(crate) after: Look,
}

/// The word that eight bytes hold, or fewer at a frame's end.
fn word_of(bytes: &[u8]) -> u64 {
    match bytes {
        [a, b, c, d, e, f, g, h] => u64::from_le_bytes([*a, *b, *c, *d, *e, *f, *g, *h]),
        _ => bytes.iter().fold(
            0,
            |word: u64, byte| word.wrapping_mul(256) | u64::from(*byte),
        ),
    }
}

/// The hash of some bytes, of eight at a time.
fn hash_of(bytes: &[u8]) -> u64 {
    let mut hash = OFFSET_BASIS;
    for chunk in bytes.chunks(8) {
        let mixed = (hash ^ word_of(chunk)).wrapping_mul(MIXER);
        hash = mixed ^ mixed.wrapping_shr(32);
    }
    hash
}

impl Look {
    fn new(alloc: Global) -> Look {
        Look {
            checked: 0,
            with_check: 0,
            samples: Vec::new(alloc),
        }
    }

    fn see(&mut self, frame: &LentFrame<'_>) -> Result<(), AllocError> {
        let bytes = frame.view().bytes();
        if self.checked < CHECKED {
            self.checked = self.checked.saturating_add(1);
            let ends = u64::from(ends_with_check(bytes));
            self.with_check = self.with_check.saturating_add(ends);
        }
        if self.samples.len() < SAMPLED {
            self.samples.push((hash_of(bytes), frame.stamp().0))?;
        }
        Ok(())
    }

    /// Do nine in ten of the first frames end with their check sequences?
    pub(crate) fn has_checks(&self) -> bool {
        self.checked > 0 && self.checked.saturating_mul(9) <= self.with_check.saturating_mul(10)
    }
}

impl Looks {
    /// At no frame. Allocates nothing.
    pub(crate) fn new(alloc: Global) -> Looks {
        Looks {
            before: Look::new(alloc),
            after: Look::new(alloc),
        }
    }

    /// Looks at a frame, of network A where it went in.
    #[inline]
    pub(crate) fn see(&mut self, frame: &LentFrame<'_>) -> Result<(), AllocError> {
        let look = match frame.network() {
            Network::A => &mut self.before,
            Network::B => &mut self.after,
        };
        if look.samples.len() < SAMPLED {
            look.see(frame)?;
        }
        Ok(())
    }
}
