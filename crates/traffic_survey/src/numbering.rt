//! The order of a link's sequence numbers: how many follow the one before.

use integrity::{Check, Integrity};

/// The verdicts of integrity checking on the sequence numbers of a link's frames on one network.
#[derive(Drop)]
pub struct Numbering {
    check: Check,
    /// How many numbers follow the one before.
    pub next: u64,
    /// How many don't.
    pub others: u64,
}

impl Numbering {
    /// Of no frame.
    pub(crate) fn new() -> Numbering {
        Numbering {
            check: Check::new(),
            next: 0,
            others: 0,
        }
    }

    /// Counts the frame with this number.
    #[inline(always)]
    pub(crate) fn see(&mut self, number: u8) {
        match self.check.judge(true, number) {
            Integrity::Next => self.next = self.next.saturating_add(1),
            Integrity::Skip | Integrity::Reset | Integrity::Out => {
                self.others = self.others.saturating_add(1);
            }
            Integrity::First | Integrity::Off => {}
        }
    }
}
