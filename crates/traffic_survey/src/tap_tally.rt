//! The counts of one recording, whatever its links.

use crate::checksum::ends_with_check;
use crate::clocks::Sample;
use crate::crossed::Crossed;
use crate::decide::Marks;
use crate::kinds::ethertype_of;
use crate::silences::Silences;
use afdx_frame::{LentFrame, Network, Stamp};
use vl_config::Class;

/// Of how many frames at most the frame check sequence is looked for.
const CHECKED: u64 = 64;

/// The EtherType of an 802.1Q tag.
pub(crate) const TAG: u16 = 0x8100;

/// The place of the last byte of a frame's source address.
const INTERFACE: usize = 11;

/// The counts of a recording's frames.
#[derive(Clone, Copy)]
pub struct TapTally {
    /// How many frames there are, and the source addresses of how many name a network.
    pub(crate) marks: Marks,
    /// Frames of which the check sequence was looked for, and those that have it.
    pub(crate) checked: u64,
    pub(crate) with_check: u64,
    /// A number that all timestamps, lengths and ends of frames make.
    digest: u64,
    /// Frames of another constant field than the table's.
    pub(crate) foreign: u64,
    /// Frames longer than their link's Smax allows.
    pub(crate) long: u64,
    /// Frames of links that the table lacks.
    pub(crate) unlisted: u64,
    /// Frames of the table's links whose source address names a network, by which.
    pub(crate) crossed: Crossed,
    /// When frames of the table's links came.
    pub(crate) silences: Silences,
    /// Frames with an 802.1Q tag.
    pub(crate) tagged: u64,
    /// Frames that the recording doesn't hold whole, and the most bytes that it holds of one of them.
    pub(crate) cut: u64,
    pub(crate) snaplen: u64,
}

/// An odd number with bits in all places.
const MULTIPLIER: u64 = 0x9e37_79b9_7f4a_7c15;

impl TapTally {
    /// Of no frame.
    pub(crate) fn new() -> TapTally {
        TapTally {
            marks: Marks {
                frames: 0,
                as_a: 0,
                as_b: 0,
            },
            checked: 0,
            with_check: 0,
            digest: 0,
            foreign: 0,
            long: 0,
            unlisted: 0,
            crossed: Crossed::new(),
            silences: Silences::new(),
            tagged: 0,
            cut: 0,
            snaplen: 0,
        }
    }

    /// Counts a frame, and its class where there is a table.
    #[inline]
    pub(crate) fn see(&mut self, frame: &LentFrame<'_>, class: Option<Class>) {
        let bytes = frame.view().bytes();
        self.see_class(class, bytes.len());
        let shape = ends_of(bytes) << 32 | u64::from(frame.whole());
        self.digest = (self.digest ^ frame.stamp().0)
            .wrapping_mul(MULTIPLIER)
            .wrapping_add(shape);
        self.see_source(bytes);
        self.see_check(bytes, frame.whole());
        if ethertype_of(bytes) == TAG {
            self.tagged = self.tagged.saturating_add(1);
        }
        if matches!(class, Some(Class::TooLong | Class::Regular)) {
            self.see_listed(frame.network(), bytes, frame.stamp());
        }
    }

    /// Counts a frame of the table's links.
    #[inline]
    fn see_listed(&mut self, on: Network, bytes: &[u8], stamp: Stamp) {
        self.crossed.see(on, named_network(bytes), stamp);
        self.silences.see(Sample {
            stamp: stamp.0,
            number: 0,
        });
    }

    /// Counts a frame by its class, of which so many bytes are held.
    #[inline]
    fn see_class(&mut self, class: Option<Class>, held: usize) {
        match class {
            Some(Class::Foreign) => self.foreign = self.foreign.saturating_add(1),
            Some(Class::TooLong) => self.long = self.long.saturating_add(1),
            Some(Class::Unconfigured) => self.unlisted = self.unlisted.saturating_add(1),
            Some(Class::Cut) => {
                self.cut = self.cut.saturating_add(1);
                self.snaplen = self.snaplen.max(held as u64);
            }
            Some(_) | None => {}
        }
    }

    /// Looks for the frame check sequence in the first frames that were recorded whole.
    #[inline]
    fn see_check(&mut self, bytes: &[u8], whole: u32) {
        if self.checked < CHECKED && bytes.len() == whole as usize {
            self.checked += 1;
            if ends_with_check(bytes) {
                self.with_check = self.with_check.saturating_add(1);
            }
        }
    }

    /// Counts a frame, and what network its source address names.
    #[inline]
    fn see_source(&mut self, bytes: &[u8]) {
        let marks = &mut self.marks;
        marks.frames = marks.frames.saturating_add(1);
        match named_network(bytes) {
            Some(Network::A) => marks.as_a = marks.as_a.saturating_add(1),
            Some(Network::B) => marks.as_b = marks.as_b.saturating_add(1),
            None => {}
        }
    }

    /// How many frames there are.
    pub fn frames(&self) -> u64 {
        self.marks.frames
    }

    /// Have both recordings the same frames, by their number, timestamps, lengths and ends? Two taps never
    /// stamp all frames alike.
    pub(crate) fn is_same(&self, other: &TapTally) -> bool {
        0 < self.frames() && self.frames() == other.frames() && self.digest == other.digest
    }
}

/// The network that a frame's source address names: its last byte begins with the bits 001 on network A,
/// and with 010 on B (ARINC 664 Part 7).
#[inline]
pub(crate) fn named_network(bytes: &[u8]) -> Option<Network> {
    match bytes.get(INTERFACE).map(|byte| *byte >> 5) {
        Some(1) => Some(Network::A),
        Some(2) => Some(Network::B),
        Some(_) | None => None,
    }
}

/// A frame's identifier and its last byte, as a number. 0 for a frame below 7 bytes.
#[inline]
fn ends_of(bytes: &[u8]) -> u64 {
    match bytes {
        [_, _, _, _, high, low, .., last] => {
            u64::from(*high) << 24 | u64::from(*low) << 16 | u64::from(*last)
        }
        _ => 0,
    }
}
