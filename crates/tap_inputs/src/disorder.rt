//! By how much the frame that ends a recording is out of order, and which option takes it.
use command_line::{Invocation, MAX_LATE_MICROS};
use pcap_io::{BadReason, Ending};
use std::fmt;
use std::fmt::{Display, Formatter};

/// The ways to take a frame that is out of order.
#[derive(Clone, Copy)]
enum Taken {
    By(u64),
    /// The key `late_us` of the table, as `check` has no option for it.
    ByTable(u64),
    InAnyOrder,
    ByNone,
    /// It isn't said what does: that isn't a packet's time.
    NoTime,
}

/// A day, in nanoseconds. No recorder's clock is set back so far on a flight.
const DAY: u64 = 86_400_000_000_000;

/// By how many nanoseconds a frame is out of order, after the note that says so.
#[derive(Clone, Copy)]
pub struct Disorder {
    late: u64,
    taken: Taken,
}

impl Disorder {
    /// Of the frame that ends a command's recording, if one does.
    pub fn of(command: Invocation<'_>, ending: Ending) -> Option<Disorder> {
        let Ending::Bad(_, BadReason::StampBack { by: late }) = ending else {
            return None;
        };
        let taken = taken_by(command, late);
        Some(Disorder { late, taken })
    }
}

/// The way to take a frame so late in a command.
fn taken_by(command: Invocation<'_>, late: u64) -> Taken {
    let micros = late.div_ceil(1000);
    match command {
        _ if late >= DAY => Taken::NoTime,
        Invocation::Capture(_)
        | Invocation::Debug(_)
        | Invocation::Watch(_)
        | Invocation::Transit(_)
            if micros <= MAX_LATE_MICROS => { Taken::By(micros) }
        Invocation::Capture(_) | Invocation::Debug(_) => Taken::InAnyOrder,
        Invocation::Check(_) if micros <= MAX_LATE_MICROS => Taken::ByTable(micros),
        _ => Taken::ByNone,
    }
}

/// A length of time, in a unit that suits it.
#[derive(Clone, Copy)]
pub struct Amount(pub u64);

impl Display for Amount {
    fn fmt<W: fmt::Write>(&self, f: &mut Formatter<W>) -> fmt::Result {
        let nanos = self.0;
        let (micros, millis, seconds) = (
            nanos / 1000,
            nanos / 1_000_000 % 1000,
            nanos / 1_000_000_000,
        );
        if micros == 0 {
            write!(f, "{nanos} ns")
        } else if seconds == 0 {
            write!(f, "{micros} us")
        } else {
            write!(f, "{seconds}.{millis:03} s")
        }
    }
}

/// The likely content of a file where a packet comes a day before another, after the words that say so.
const NO_TIME: &str = "\
by more than a day: zeros or noise stand in the file there (a bad sector, a hole), or a clock was reset";

impl Display for Disorder {
    fn fmt<W: fmt::Write>(&self, f: &mut Formatter<W>) -> fmt::Result {
        let amount = Amount(self.late);
        match self.taken {
            Taken::By(micros) => write!(f, " by {amount} (--late-us {micros} takes it)"),
            Taken::ByTable(micros) => {
                write!(f, " by {amount} (late_us = {micros} of the table takes it)")
            }
            Taken::InAnyOrder => write!(f, " by {amount} (--late-us any takes it)"),
            Taken::ByNone => write!(f, " by {amount}"),
            Taken::NoTime => write!(f, " {NO_TIME}"),
        }
    }
}
