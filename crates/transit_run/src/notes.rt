//! The findings on the frames, beside their lines and counts.

ghost use Rattle.std.specs.Prelude.{◌≡◌};
ghost use Rattle.transit_run.specs.Waits.{queues_of};

use crate::floor::Floor;
use crate::kind::{FaultFrame, Faults, Kind};
use crate::lane::{Lane, is_first_dropped, is_first_new, note_fate, note_fault, note_transit};
use crate::latency::Latency;
use crate::outcome::{Fate, Origin, Pair};
use crate::rows::{GoneIn, Head};
use crate::silence::Silences;
use std::alloc::{AllocError, Global};

/// The byte of a frame that names its network (ARINC 664 Part 7).
const NETWORK_BYTE: usize = 11;

/// The findings on the frames whose lines are written.
#[derive(Drop)]
pub(crate) struct Notes {
    pub(crate) latency: Latency,
    pub(crate) faults: Faults,
    /// The times in which nothing came out, and in which nothing was seen to go in.
    pub(crate) silences_out: Silences,
    pub(crate) silences_in: Silences,
    pub(crate) floor: Floor,
    /// How many changed frames differ first in the source address's byte that names the network.
    pub(crate) other_network: u64,
}

impl Notes {
    /// Of no frame. Allocates nothing.
    pub(crate) fn new(alloc: Global) -> Notes {
        Notes {
            latency: Latency::new(alloc),
            faults: Faults::new(alloc),
            silences_out: Silences::new(alloc),
            silences_in: Silences::new(alloc),
            floor: Floor::new(alloc),
            other_network: 0,
        }
    }

    /// Notes the transit of a frame that came out with its bytes, and the row of its link's frames.
    pub(crate) fn note_transit(
        &mut self,
        lanes: &mut Vec<Lane>,
        row: &GoneIn,
        ended: (Fate, Option<i64>),
        bound: Option<u64>,
    ) -> Result<(), AllocError>
        ensures { queues_of lanes.new.items ≡ queues_of lanes.old.items }
    {
        let (fate, transit) = ended;
        let transit = if row.pair() == Pair::Alike {
            transit
        } else {
            None
        };
        if let Some(transit) = transit {
            self.latency.add(transit, bound)?;
            self.floor.note(row.head.moment, transit)?;
        }
        note_fate(lanes, row.head.place, fate, row.partner.is_some());
        match transit {
            Some(transit) => note_transit(lanes, row.head.place, transit, bound),
            None => Ok(()),
        }
    }

    /// Notes a frame that went in among the faults, and in the row of those that didn't come out. The
    /// recordings begin at `start`.
    pub(crate) fn note_before(
        &mut self,
        lanes: &mut Vec<Lane>,
        row: &GoneIn,
        fate: Fate,
        start: u64,
    ) -> Result<(), AllocError>
        ensures { queues_of lanes.new.items ≡ queues_of lanes.old.items }
    {
        let head = row.head;
        if row.partner.is_some() {
            self.end_rows()?;
        } else if fate == Fate::Dropped {
            let number = self.silences_out.row;
            let is_new = is_first_dropped(lanes, head.place, number);
            self.silences_out.note(head.moment, is_new);
        }
        if row
            .partner
            .is_some_and(|partner| partner.differs == Some(NETWORK_BYTE))
        {
            self.other_network = self.other_network.saturating_add(1);
        }
        match Kind::of_fate(fate) {
            Some(kind) => self.note_fault(lanes, &head, (head.moment, false, kind), start),
            None => Ok(()),
        }
    }

    /// Notes a frame without a partner that came out among the faults, and in the row of such.
    pub(crate) fn note_after(
        &mut self,
        lanes: &mut Vec<Lane>,
        head: &Head,
        came: (u64, Origin),
        start: u64,
    ) -> Result<(), AllocError>
        ensures { queues_of lanes.new.items ≡ queues_of lanes.old.items }
    {
        let (moment, origin) = came;
        if origin == Origin::New {
            let number = self.silences_in.row;
            let is_new = is_first_new(lanes, head.place, number);
            self.silences_in.note(moment, is_new);
        }
        match Kind::of_origin(origin) {
            Some(kind) => self.note_fault(lanes, head, (moment, true, kind), start),
            None => Ok(()),
        }
    }

    fn note_fault(
        &mut self,
        lanes: &mut Vec<Lane>,
        head: &Head,
        fault: (u64, bool, Kind),
        start: u64,
    ) -> Result<(), AllocError>
        ensures { queues_of lanes.new.items ≡ queues_of lanes.old.items }
    {
        let (moment, is_after, kind) = fault;
        note_fault(lanes, head.place, moment);
        let frame = FaultFrame {
            moment,
            is_after,
            number: head.number,
            address: head.address,
            kind,
        };
        self.faults.note(start, frame)
    }

    /// A frame has a partner, or none follows: rows of frames without one end.
    pub(crate) fn end_rows(&mut self) -> Result<(), AllocError> {
        self.silences_out.end()?;
        self.silences_in.end()
    }
}
