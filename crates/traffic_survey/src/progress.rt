//! How far a recording was read.

use crate::recorded::{Recorded, Times};
use afdx_frame::Stamp;
use pcap_io::Ending;

/// How far a recording was read, of which so many frames are wanted.
#[derive(Clone, Copy)]
pub(crate) struct Progress {
    /// How many more frames are wanted.
    room: u64,
    times: Times,
    /// The ending, once the recording was read to it.
    ending: Option<Ending>,
}

impl Progress {
    /// Of no frame.
    pub(crate) fn new(room: u64) -> Progress {
        Progress {
            room,
            times: Times::new(),
            ending: None,
        }
    }

    /// Notes the next frame, if it is wanted.
    #[inline(always)]
    pub(crate) fn takes(&mut self, stamp: Stamp) -> bool {
        if self.room == 0 {
            return false;
        }
        self.room -= 1;
        self.times.note(stamp.0);
        true
    }

    /// Notes the ending.
    pub(crate) fn end(&mut self, ending: Ending) {
        self.ending = Some(ending);
    }

    /// The facts of the recording, of which so many frames were wanted.
    pub(crate) fn recorded(self, most: u64) -> Recorded {
        let Times { span, late } = self.times;
        Recorded {
            ending: self.ending.unwrap_or(Ending::Clean(most)),
            whole: self.ending.is_some(),
            span,
            late,
        }
    }
}
