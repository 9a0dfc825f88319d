//! Numbers as the answer writes them.

use jiff::Timestamp;
use std::fmt;
use std::fmt::{Display, Formatter};

/// A length of time in nanoseconds, in a unit that suits it.
#[derive(Clone, Copy)]
pub(crate) struct Length(pub(crate) i64);

impl Display for Length {
    fn fmt<W: fmt::Write>(&self, f: &mut Formatter<W>) -> fmt::Result {
        if self.0 < 0 {
            f.write_str("-")?;
        }
        let nanos = self.0.unsigned_abs();
        if nanos < 10_000_000 {
            let (whole, tenth) = (nanos / 1000, nanos % 1000 / 100);
            write!(f, "{whole}.{tenth} us")
        } else if nanos < 1_000_000_000 {
            let (whole, tenth) = (nanos / 1_000_000, nanos % 1_000_000 / 100_000);
            write!(f, "{whole}.{tenth} ms")
        } else {
            let (whole, part) = (nanos / 1_000_000_000, nanos % 1_000_000_000 / 1_000_000);
            write!(f, "{whole}.{part:03} s")
        }
    }
}

/// A length of time that isn't negative, in nanoseconds.
pub(crate) fn length_of(nanos: u64) -> Length {
    Length(i64::try_from(nanos).unwrap_or(i64::MAX))
}

/// A timestamp in nanoseconds since 1970, as RFC 3339 writes it in UTC.
#[derive(Clone, Copy)]
pub(crate) struct Utc(pub(crate) u64);

impl Display for Utc {
    fn fmt<W: fmt::Write>(&self, f: &mut Formatter<W>) -> fmt::Result {
        let nanos = self.0;
        match Timestamp::from_nanosecond(i128::from(nanos)) {
            Ok(timestamp) => write!(f, "{timestamp}"),
            Err(_) => write!(f, "{nanos} ns"),
        }
    }
}

/// A number of things, with an s where there isn't one of them.
#[derive(Clone, Copy)]
pub(crate) struct Counted(pub(crate) u64, pub(crate) &'static str);

impl Display for Counted {
    fn fmt<W: fmt::Write>(&self, f: &mut Formatter<W>) -> fmt::Result {
        let (count, kind) = (self.0, self.1);
        let ending = if count == 1 { "" } else { "s" };
        write!(f, "{count} {kind}{ending}")
    }
}
