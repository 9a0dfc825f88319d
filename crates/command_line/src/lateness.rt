//! How late a timestamp may be, as a person writes it.
ghost use Rattle.std.specs.Prelude.{◌≡◌};
ghost use Rattle.command_line.specs.Lateness.{lateness_in, lateness_within, nanoseconds_of};

use crate::moment::read_number;

/// The most microseconds of a window for late timestamps.
pub const MAX_LATE_MICROS: u64 = 1_000_000;

/// By how much a timestamp may lie below the greatest one before it in its recording.
#[derive(Clone, Copy, PartialEq, Eq)]
pub enum Lateness {
    /// By so many microseconds, at most [`MAX_LATE_MICROS`].
    Micros(u64),
    /// Timestamps may stand in any order.
    Any,
}

impl Lateness {
    /// The window in nanoseconds.
    pub fn nanoseconds(self) -> u64
        ensures { result ≡ nanoseconds_of self }
    {
        match self {
            Lateness::Micros(micros) => micros.saturating_mul(1000),
            Lateness::Any => u64::MAX,
        }
    }
}

/// The window of so many microseconds, if there is one.
fn lateness_within(micros: u64) -> Option<Lateness>
    ensures { result ≡ lateness_within micros }
{
    if MAX_LATE_MICROS < micros {
        None
    } else {
        Some(Lateness::Micros(micros))
    }
}

/// Reads `any`, or microseconds in decimal digits.
pub(crate) fn read_lateness(text: &str) -> Option<Lateness>
    ensures { result ≡ lateness_in text.now }
{
    if text == "any" {
        return Some(Lateness::Any);
    }
    lateness_within(read_number(text)?)
}
