//! The lane of one link, or of all frames that have none.

ghost use Rattle.std.specs.Prelude.{◌≡◌, [], OnOk};
ghost use Rattle.transit_run.specs.Waits.{Adds, Forgets, IsFree, Takes, queue_of, queues_of, window_of};

use crate::facts::LinkFacts;
use crate::latency::Latency;
use crate::options::Options;
use crate::outcome::Fate;
use crate::policer::Policer;
use crate::rows::{GoneIn, Head, place_of};
use crate::tally::Tally;
use afdx_frame::VlId;
use std::alloc::{AllocError, Global};
use transit_match::Waiting;
use transit_policing::Policed;
use vl_config::{CHECK_LENGTH, Class, Link};

/// The frames of one link, or of all frames whose bytes hold none.
#[derive(Clone, Copy)]
pub struct LinkTransits<'a> {
    pub id: Option<VlId>,
    pub tally: &'a Tally,
    pub latency: &'a Latency,
    /// The most frames in a row that were dropped.
    pub row: u64,
    /// When the first frame with a fault went in or came out, in nanoseconds.
    pub first_fault: Option<u64>,
}

/// Frames of one lane can be each other; no frame of another lane can.
#[derive(Drop)]
pub(crate) struct Lane {
    /// By their bytes.
    pub(crate) alike: Waiting<Vec<u8>>,
    /// How many of those have no partner.
    pub(crate) free: u64,
    /// By their links and sequence numbers, those that have no partner with their bytes.
    pub(crate) placed: Waiting<u32>,
    pub(crate) policer: Option<Policer>,
    pub(crate) facts: LinkFacts,
    pub(crate) latency: Latency,
    /// How many frames in a row were dropped last, and the most.
    row: u64,
    pub(crate) most_in_a_row: u64,
    /// When the first frame with a fault went in or came out, in nanoseconds.
    pub(crate) first_fault: Option<u64>,
}

impl Lane {
    /// Of no frame of a link of the table, or of others.
    pub(crate) fn new(alloc: Global, link: Option<&Link>, options: &Options) -> Lane
        ensures { queue_of result ≡ record {
          entries = [];
          free = 0;
          window = window_of options.now;
        } }
    {
        Lane {
            alike: Waiting::new(alloc, options.window()),
            free: 0,
            placed: Waiting::new(alloc, options.window()),
            policer: link.map(Policer::new),
            facts: LinkFacts::new(),
            latency: Latency::new(alloc),
            row: 0,
            most_in_a_row: 0,
            first_fault: None,
        }
    }

    /// A frame goes in, and has this place among all that do.
    pub(crate) fn add(&mut self, head: &Head, place: u64, bytes: Vec<u8>) -> Result<(), AllocError>
        ensures { OnOk result (Adds head.now bytes.items place (queue_of self.old) (queue_of self.new)) }
    {
        self.facts.first_in = Some(self.facts.first_in.unwrap_or(head.moment));
        if !head.is_cut() {
            self.alike.add(head.moment, place, bytes)?;
            self.free = self.free.saturating_add(1);
        }
        Ok(())
    }

    /// The place of the frame that comes out with these bytes. None: it is alike to none without a partner.
    pub(crate) fn take(&mut self, bytes: &Vec<u8>, moment: u64) -> Option<u64>
        ensures { IsFree (queue_of self.old) → Takes (record { moment = moment; key = bytes.now.items })
            (queue_of self.old) (queue_of self.new) result }
    {
        if self.free == 0 {
            return None;
        }
        let place = self.alike.take(bytes, moment)?;
        self.free = self.free.saturating_sub(1);
        Some(place)
    }

    /// True if a frame that comes out with these bytes may be one without a partner.
    pub(crate) fn has(&self, bytes: &Vec<u8>, moment: u64) -> bool {
        self.free > 0 && self.alike.has(bytes, moment)
    }

    /// The next frame that went in, free or not, is alike to none that comes out from this moment on. If it
    /// is free, it may be one that came out with other bytes. Its own bytes.
    pub(crate) fn expire(
        &mut self,
        head: &Head,
        place: u64,
        over: u64,
        is_free: bool,
    ) -> Result<Option<Vec<u8>>, AllocError>
        ensures { OnOk result (Forgets head.now over is_free (queue_of self.old) (queue_of self.new)) }
    {
        let key = self.forget(head, over, is_free);
        match head.address {
            Some(address) if is_free => self.placed.add(head.moment, place, place_of(address))?,
            _ => {}
        }
        Ok(key)
    }

    /// The queue of alike frames without its first.
    fn forget(&mut self, head: &Head, over: u64, is_free: bool) -> Option<Vec<u8>>
        ensures { Forgets head.now over is_free (queue_of self.old) (queue_of self.new) }
    {
        if head.is_cut() {
            return None;
        }
        let key = self.alike.forget_first(over);
        self.free = self.free.saturating_sub(u64::from(is_free));
        key
    }

    /// A frame that went in has this fate, and came out or didn't.
    pub(crate) fn note_fate(&mut self, fate: Fate, came_out: bool)
        ensures { queue_of self.new ≡ queue_of self.old }
    {
        if fate == Fate::Dropped {
            self.row = self.row.saturating_add(1);
            self.most_in_a_row = self.most_in_a_row.max(self.row);
        } else if came_out {
            self.row = 0;
        }
    }

    /// A frame has a fault at this moment.
    pub(crate) fn note_fault(&mut self, moment: u64)
        ensures { queue_of self.new ≡ queue_of self.old }
    {
        self.first_fault = Some(self.first_fault.unwrap_or(moment));
    }
}

/// Judges a frame that went in. None: policing doesn't see it.
pub(crate) fn police(lanes: &mut Vec<Lane>, row: &GoneIn, options: &Options) -> Option<Policed>
    ensures { queues_of lanes.new.items ≡ queues_of lanes.old.items }
{
    if row.head.class != Class::Regular {
        return None;
    }
    let lane = lanes.get_mut(row.head.place)?;
    let policer = lane.policer.as_mut()?;
    let size = row.head.whole.saturating_add(CHECK_LENGTH);
    Some(policer.judge(row.head.moment, size, row.partner.is_some(), options))
}

/// A frame of the lane at this place has a fault at this moment.
pub(crate) fn note_fault(lanes: &mut Vec<Lane>, place: usize, moment: u64)
    ensures { queues_of lanes.new.items ≡ queues_of lanes.old.items }
{
    let Some(lane) = lanes.get_mut(place) else {
        return;
    };
    lane.note_fault(moment);
}

/// A frame of the lane at this place was dropped in this row of frames. True: it is the row's first of the
/// lane.
pub(crate) fn is_first_dropped(lanes: &mut Vec<Lane>, place: usize, row: u64) -> bool
    ensures { queues_of lanes.new.items ≡ queues_of lanes.old.items }
{
    let Some(lane) = lanes.get_mut(place) else {
        return false;
    };
    lane.facts.dropped_in.replace(row) != Some(row)
}

/// The same of a frame that is new.
pub(crate) fn is_first_new(lanes: &mut Vec<Lane>, place: usize, row: u64) -> bool
    ensures { queues_of lanes.new.items ≡ queues_of lanes.old.items }
{
    let Some(lane) = lanes.get_mut(place) else {
        return false;
    };
    lane.facts.new_in.replace(row) != Some(row)
}

/// A frame of the lane at this place has this fate, and came out or didn't.
pub(crate) fn note_fate(lanes: &mut Vec<Lane>, place: usize, fate: Fate, came_out: bool)
    ensures { queues_of lanes.new.items ≡ queues_of lanes.old.items }
{
    let Some(lane) = lanes.get_mut(place) else {
        return;
    };
    lane.note_fate(fate, came_out);
}

/// A frame of the lane at this place came out with its bytes, after so long.
pub(crate) fn note_transit(
    lanes: &mut Vec<Lane>,
    place: usize,
    transit: i64,
    bound: Option<u64>,
) -> Result<(), AllocError>
    ensures { queues_of lanes.new.items ≡ queues_of lanes.old.items }
{
    let Some(lane) = lanes.get_mut(place) else {
        return Ok(());
    };
    lane.latency.add(transit, bound)
}
