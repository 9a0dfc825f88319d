//! The recordings of which a draft is made.

use traffic_survey::Recorded;

/// How the recordings of networks A and B were read. None: there is none.
#[derive(Clone, Copy)]
pub struct Recordings {
    pub a: Option<Recorded>,
    pub b: Option<Recorded>,
}

impl Recordings {
    /// How far a timestamp lies below the greatest one before it, in microseconds, rounded up.
    pub fn late_us(&self) -> u64 {
        let a = self.a.map_or(0, |a| a.late);
        let b = self.b.map_or(0, |b| b.late);
        a.max(b).div_ceil(1000)
    }

    /// The window that a draft has for late timestamps, in microseconds: twice what was seen, at least 100
    /// and at most 1000000.
    pub fn window_us(&self) -> u64 {
        self.late_us().saturating_mul(2).max(100).min(1_000_000)
    }

    /// Are both networks recorded?
    pub fn are_both(&self) -> bool {
        self.a.is_some() && self.b.is_some()
    }

    /// Is a network recorded?
    pub fn is_any(&self) -> bool {
        self.a.is_some() || self.b.is_some()
    }
}
