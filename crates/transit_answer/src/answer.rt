//! The answer's parts.

use crate::look::Looks;
use pcap_io::Ending;
use traffic_survey::Recorded;
use transit_run::Pass;

/// The recording at the port into the switch, and that at the port out of it.
#[derive(Clone, Copy, PartialEq, Eq)]
pub enum Side {
    Before,
    After,
}

impl Side {
    /// Both.
    pub const ALL: [Side; 2] = [Side::Before, Side::After];

    /// Its word, as the option that names the recording has it.
    pub fn word(self) -> &'static str {
        match self {
            Side::Before => "before",
            Side::After => "after",
        }
    }
}

/// The answer on two recordings.
#[derive(Clone, Copy)]
pub struct Answer<'a, 't> {
    /// The pass over both.
    pub pass: &'a Pass<'t>,
    /// The looks at both recordings beside it.
    pub looks: &'a Looks,
    /// How the recordings were read.
    pub before: Recorded,
    pub after: Recorded,
    /// The names of the recordings for a person.
    pub name_before: &'a str,
    pub name_after: &'a str,
    /// The letter of the network, if it is given.
    pub network: Option<&'a str>,
    /// The nanoseconds that were added to each timestamp of the recording at the port out.
    pub shift: i64,
}

impl Answer<'_, '_> {
    /// How a recording was read.
    pub fn recorded(&self, side: Side) -> Recorded {
        match side {
            Side::Before => self.before,
            Side::After => self.after,
        }
    }

    /// How many frames a recording has.
    pub fn frames(&self, side: Side) -> u64 {
        self.recorded(side).ending.frames()
    }

    /// A timestamp of a recording, with the shift of that at the port out.
    pub fn moment(&self, side: Side, stamp: u64) -> u64 {
        match side {
            Side::Before => stamp,
            Side::After => stamp.saturating_add_signed(self.shift),
        }
    }

    /// Does a recording end early?
    pub fn ends_early(&self, side: Side) -> bool {
        !matches!(self.recorded(side).ending, Ending::Clean(_))
    }
}
