//! Moments that a person names.
ghost use Rattle.std.specs.Prelude.{◌≡◌};
ghost use Rattle.ledger_text.specs.Selection.{moment_of, until_of_day};

use afdx_frame::Stamp;

/// The length of a day, in nanoseconds.
const DAY: u64 = 86_400_000_000_000;

/// Half of it.
const HALF_DAY: u64 = DAY / 2;

/// A moment that a person names.
#[derive(Clone, Copy, PartialEq, Eq)]
pub enum Moment {
    /// This timestamp.
    At(Stamp),
    /// So many nanoseconds after the ledger's first frame.
    Since(u64),
    /// Nanoseconds since midnight UTC of the day of the ledger's first frame. They may be more than a day's.
    OfDay(u64),
    /// The first moment of this time of day (nanoseconds since midnight UTC) that is at most twelve hours
    /// earlier than the ledger's first frame. So a flight that goes past midnight has both of its days, and
    /// a time just before the first frame is of the same day.
    Near(u64),
    /// So many nanoseconds before the first moment of this time of day (nanoseconds since midnight UTC) that
    /// isn't earlier than so many nanoseconds after the ledger's first frame.
    Next {
        of_day: u64,
        after: u64,
        before: u64,
    },
}

/// How many nanoseconds after `earliest`, in nanoseconds since 1970, the first moment of a time of day is:
/// less than a day's, and 0 where that is the moment itself.
#[inline]
pub fn until_of_day(earliest: u128, of_day: u64) -> u64
    ensures { result ≡ until_of_day earliest of_day }
{
    let passed = (earliest % u128::from(DAY)) as u64;
    (of_day % DAY + (DAY - passed)) % DAY
}

impl Moment {
    /// The moment in nanoseconds since 1970, by the timestamp of the ledger's first frame. It may lie past
    /// the last timestamp. A moment before 1970 is 0.
    #[inline]
    pub fn nanoseconds(self, first: Stamp) -> u128
        ensures { result ≡ moment_of first self }
    {
        match self {
            Moment::At(stamp) => u128::from(stamp.0),
            Moment::Since(after) => u128::from(first.0) + u128::from(after),
            Moment::OfDay(since) => u128::from(first.0 - first.0 % DAY) + u128::from(since),
            Moment::Near(of_day) => {
                let earliest = u128::from(first.0.saturating_sub(HALF_DAY));
                earliest + u128::from(until_of_day(earliest, of_day))
            }
            Moment::Next {
                of_day,
                after,
                before,
            } => {
                let earliest = u128::from(first.0) + u128::from(after);
                let found = earliest + u128::from(until_of_day(earliest, of_day));
                found.saturating_sub(u128::from(before))
            }
        }
    }
}
