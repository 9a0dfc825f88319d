//! The pairs of frames, and the frames whose lines aren't written yet.

ghost use Rattle.std.specs.Prelude.{◌≡◌, ℕ, ◌+◌, ◌-◌, ◌*◌, ◌^◌, ◌<◌, ◌↔◌, [], ◌∷◌, ◌++◌, Some, IfOk, IfSome, IsSome, IsTrue, MatchOption, OnOk, length, min, nat_lt, if◌then◌else◌};
ghost use Rattle.transit_run.specs.Held.{Keeps, SameMarks, count_of, held, held_out, mark_of, out_mark, partner_mark, unpaired_mark};
ghost use Rattle.transit_run.specs.Waits.{Enters, Expires, IsDone, IsFirstAt, Leads, Leaves, PairsAt, ForgetsIn, Settles, Stays, TakesIn, partner_of, queues_of, state_of, window_of, with_expired};

use crate::lane::Lane;
use crate::options::Options;
use crate::rows::{ComeOut, GoneIn, Head, Partner, first_difference, place_of};
use std::alloc::{AllocError, Global};
use std::collections::VecDeque;

/// Which frame that came out is which that went in.
///
/// Moments of coming out are later by what clocks may be off, so that no frame comes out before it went in.
#[derive(Drop)]
pub(crate) struct Pairing {
    alloc: Global,
    /// How much later a frame comes out at most, and by how much its moment is taken later. In nanoseconds.
    window: u64,
    early: u64,
    /// Of frames that name no link, and of each link.
    pub(crate) lanes: Vec<Lane>,
    befores: VecDeque<GoneIn>,
    /// How many frames that went in were taken.
    taken: u64,
    /// How many of those that weren't are alike to none that may come yet.
    expired: usize,
    afters: VecDeque<ComeOut>,
    /// How many of those whose partner is certain.
    settled: usize,
    /// The bytes of the frame that comes out.
    bytes: Vec<u8>,
    /// Room for the bytes of frames that go in.
    spare: Vec<Vec<u8>>,
}

/// True if so much time, and more, is past since the moment. None: all of it is.
fn is_past(now: Option<u64>, moment: u64, time: u64) -> bool
    ensures all { now ≡ None → IsTrue result }
    ensures past { (it : ℕ) → now ≡ Some it → (result ≡ nat_lt time (it - moment)) × (it < 2 ^ 64) }
{
    match now {
        Some(now) => now.saturating_sub(moment) > time,
        None => true,
    }
}

impl Pairing {
    /// Of no frame, in these lanes.
    pub(crate) fn new(alloc: Global, lanes: Vec<Lane>, options: &Options) -> Pairing
        ensures frames { held result ≡ [] }
        ensures out { held_out result ≡ [] }
        ensures early { result.early ≡ options.now.early }
        ensures state { state_of result ≡ record {
          window = window_of options.now;
          taken = 0;
          expired = 0;
          looks = [];
          queues = queues_of lanes.items;
        } }
    {
        Pairing {
            alloc,
            window: options.window(),
            early: options.early,
            lanes,
            befores: VecDeque::new(alloc),
            taken: 0,
            expired: 0,
            afters: VecDeque::new(alloc),
            settled: 0,
            bytes: Vec::new(alloc),
            spare: Vec::new(alloc),
        }
    }

    /// A frame goes in.
    #[tactic(auto, using(crate::proofs::Keeping::enters))]
    pub(crate) fn goes_in(&mut self, head: Head, bytes: &[u8]) -> Result<(), AllocError>
        ensures frames { OnOk result (held self.new ≡ held self.old ++ mark_of head ∷ []) }
        ensures early { self.new.early ≡ self.old.early }
        ensures out { OnOk result (SameMarks (held_out self.new) (held_out self.old)) }
        ensures window { self.new.window ≡ self.old.window }
        ensures lanes { length self.new.lanes.items ≡ length self.old.lanes.items }
        ensures waits { OnOk result (Enters head bytes.now (state_of self.old) (state_of self.new)) }
    {
        let key = self.copy_of(bytes)?;
        let place = self.taken.saturating_add(self.befores.len() as u64);
        self.befores.push_back(GoneIn {
            head,
            bytes: Vec::new(self.alloc),
            partner: None,
            is_overtaken: false,
        })?;
        if let Some(lane) = self.lanes.get_mut(head.place) {
            lane.add(&head, place, key)?;
        }
        Ok(())
    }

    /// A copy of some bytes, in spare room if there is any.
    fn copy_of(&mut self, bytes: &[u8]) -> Result<Vec<u8>, AllocError>
        ensures keeps { Keeps [] self.old self.new }
        ensures state { state_of self.new ≡ state_of self.old }
        ensures copy { IfOk result (λ copy. copy.items ≡ bytes.now) }
    {
        let mut copy = match self.spare.pop() {
            Some(room) => room,
            None => Vec::new(self.alloc),
        };
        copy.clear();
        copy.extend_from_slice(bytes)?;
        Ok(copy)
    }

    /// A frame comes out. True if another frame that went in may be it, too.
    #[tactic(auto, using(crate::proofs::Keeping::comes_paired, crate::proofs::Keeping::comes_alone))]
    pub(crate) fn comes_out(&mut self, head: Head, bytes: &[u8]) -> Result<bool, AllocError>
        ensures keeps { OnOk result (Keeps (out_mark self.old.early head ∷ []) self.old self.new) }
        ensures window { OnOk result (self.new.window ≡ self.old.window) }
        ensures lanes { OnOk result (length self.new.lanes.items ≡ length self.old.lanes.items) }
        ensures waits { OnOk result (Leaves head bytes.now self.old.early (state_of self.old)
            (state_of self.new)) }
    {
        self.bytes.clear();
        self.bytes.extend_from_slice(bytes)?;
        let (partner, is_twice, is_choice) = self.take_alike(&head);
        if !self.pair_alike(partner, &head) {
            self.hold_alone(head, bytes, is_twice)?;
        }
        Ok(is_choice)
    }

    /// The place of the frame that went in with the bytes of one that comes out. None: there is none, or all
    /// came out. Then, whether one did, and whether another may be it, too.
    #[tactic(auto, using(crate::proofs::Keeping::keeps_same))]
    fn take_alike(&mut self, head: &Head) -> (Option<u64>, bool, bool)
        ensures keeps { Keeps [] self.old self.new }
        ensures window { self.new.window ≡ self.old.window }
        ensures lanes { length self.new.lanes.items ≡ length self.old.lanes.items }
        ensures takes { TakesIn head.now self.old.bytes.items (state_of self.old) (state_of self.new)
            result.0 }
    {
        let came_out = self.came_out(head);
        let Some(lane) = self.lanes.get_mut(head.place) else {
            return (None, false, false);
        };
        lane.facts.first_out = Some(lane.facts.first_out.unwrap_or(came_out));
        if head.is_cut() {
            return (None, false, false);
        }
        match lane.take(&self.bytes, head.moment) {
            Some(place) => (Some(place), false, lane.has(&self.bytes, head.moment)),
            None => (None, lane.alike.knows(&self.bytes, head.moment), false),
        }
    }

    /// Holds a frame that came out and has no partner.
    #[tactic(auto, using(crate::proofs::Keeping::keeps_alone))]
    fn hold_alone(&mut self, head: Head, bytes: &[u8], is_twice: bool) -> Result<(), AllocError>
        ensures keeps { OnOk result (Keeps (out_mark self.old.early head ∷ []) self.old self.new) }
        ensures window { self.new.window ≡ self.old.window }
        ensures lanes { length self.new.lanes.items ≡ length self.old.lanes.items }
        ensures state { state_of self.new ≡ state_of self.old }
    {
        self.afters.push_back(ComeOut {
            head,
            bytes: Vec::from_slice(self.alloc, bytes)?,
            is_twice,
            is_paired: false,
        })?;
        Ok(())
    }

    /// The frame that went in at this place is the one that came out. False: none without a partner is held
    /// there.
    fn pair_alike(&mut self, place: Option<u64>, head: &Head) -> bool
        ensures keeps { Keeps (if result then out_mark self.old.early head.now ∷ [] else []) self.old
            self.new }
        ensures window { self.new.window ≡ self.old.window }
        ensures lanes { length self.new.lanes.items ≡ length self.old.lanes.items }
        ensures pairs { PairsAt (partner_of (out_mark self.old.early head.now)) (state_of self.old)
            (state_of self.new) place result }
    {
        let Some(place) = place else {
            return false;
        };
        let came_out = self.came_out(head);
        let index = place.saturating_sub(self.taken) as usize;
        let Some(row) = self.befores.get_mut(index) else {
            return false;
        };
        if row.partner.is_some() {
            return false;
        }
        row.partner = Some(Partner {
            number: head.number,
            moment: came_out,
            differs: None,
        });
        if head.address.is_some() {
            if let Some(lane) = self.lanes.get_mut(head.place) {
                row.is_overtaken = lane.facts.overtakes(row.head.moment, came_out);
            }
        }
        true
    }

    /// All pairs that are certain where no frame before this moment follows; None: where none follows.
    #[tactic(auto, using(crate::proofs::Keeping::keeps_then))]
    pub(crate) fn settle(&mut self, now: Option<u64>) -> Result<(), AllocError>
        ensures keeps { Keeps [] self.old self.new }
        ensures settles { OnOk result (Settles (state_of self.old) (state_of self.new) now) }
        ensures done { OnOk result ((moment : ℕ) → now ≡ Some moment → IsDone moment (state_of self.new)) }
    {
        self.expire(now)?;
        self.pair_changed(now);
        Ok(())
    }

    #[tactic(auto, using(crate::proofs::Keeping::keeps_then))]
    fn expire(&mut self, now: Option<u64>) -> Result<(), AllocError>
        ensures keeps { Keeps [] self.old self.new }
        ensures settles { OnOk result (Settles (state_of self.old) (state_of self.new) now) }
        ensures done { OnOk result ((moment : ℕ) → now ≡ Some moment → IsDone moment (state_of self.new)) }
    {
        for _ in self.expired..self.befores.len() {
            if !self.expire_next(now)? {
                break;
            }
        }
        Ok(())
    }

    /// The next frame that went in, where it is alike to none that comes yet: if it has no partner, it may
    /// still be one that came out with other bytes.
    #[tactic(auto, using(crate::proofs::Keeping::keeps_then, crate::proofs::Keeping::keeps_same))]
    fn expire_next(&mut self, now: Option<u64>) -> Result<bool, AllocError>
        ensures keeps { Keeps [] self.old self.new }
        ensures settles { OnOk result (Settles (state_of self.old) (state_of self.new) now) }
        ensures turn { IfOk result (Expires now (state_of self.old) (state_of self.new)) }
    {
        let (head, is_free) = match self.befores.get(self.expired) {
            Some(row) => (row.head, row.partner.is_none()),
            None => return Ok(false),
        };
        if !is_past(now, head.moment, self.window) {
            return Ok(false);
        }
        self.expire_row(&head, is_free)?;
        Ok(true)
    }

    /// The next frame that went in, free or not, is alike to none that comes.
    #[tactic(auto, using(crate::proofs::Keeping::keeps_then, crate::proofs::Keeping::keeps_same))]
    fn expire_row(&mut self, head: &Head, is_free: bool) -> Result<(), AllocError>
        ensures keeps { Keeps [] self.old self.new }
        ensures expired { OnOk result (self.new.expired ≡ min (self.old.expired + 1) (2 ^ 64 - 1)) }
        ensures forgets { OnOk result (ForgetsIn head.now is_free (state_of self.old)
            (with_expired self.old.expired (state_of self.new))) }
    {
        if let Some(key) = self.forget_alike(head, is_free)? {
            self.give_back(key, is_free)?;
        }
        self.expired = self.expired.saturating_add(1);
        Ok(())
    }

    /// Its lane forgets it: its bytes.
    #[tactic(auto, using(crate::proofs::Keeping::keeps_same))]
    fn forget_alike(&mut self, head: &Head, is_free: bool) -> Result<Option<Vec<u8>>, AllocError>
        ensures keeps { Keeps [] self.old self.new }
        ensures forgets { OnOk result (ForgetsIn head.now is_free (state_of self.old)
            (state_of self.new)) }
    {
        let place = self.taken.saturating_add(self.expired as u64);
        let over = head.moment.saturating_add(self.window).saturating_add(1);
        match self.lanes.get_mut(head.place) {
            Some(lane) => lane.expire(head, place, over, is_free),
            None => Ok(None),
        }
    }

    /// The bytes of the next frame that went in: it has them while it may still be one that came out with
    /// other bytes.
    fn give_back(&mut self, key: Vec<u8>, is_free: bool) -> Result<(), AllocError>
        ensures keeps { Keeps [] self.old self.new }
        ensures state { state_of self.new ≡ state_of self.old }
    {
        if !is_free {
            self.spare.push(key)?;
            return Ok(());
        }
        let Some(row) = self.befores.get_mut(self.expired) else {
            return Ok(());
        };
        row.bytes = key;
        Ok(())
    }

    #[tactic(auto, using(crate::proofs::Keeping::keeps_then))]
    fn pair_changed(&mut self, now: Option<u64>)
        ensures keeps { Keeps [] self.old self.new }
        ensures stays { Stays (state_of self.old) (state_of self.new) }
    {
        for _ in self.settled..self.afters.len() {
            if !self.pair_next(now) {
                break;
            }
        }
    }

    /// The next frame that came out and is alike to none, where all that it may be went in.
    #[tactic(auto, using(crate::proofs::Keeping::keeps_then, crate::proofs::Keeping::keeps_same))]
    fn pair_next(&mut self, now: Option<u64>) -> bool
        ensures keeps { Keeps [] self.old self.new }
        ensures stays { Stays (state_of self.old) (state_of self.new) }
    {
        let (head, is_twice) = match self.afters.get(self.settled) {
            Some(row) => (row.head, row.is_twice),
            None => return false,
        };
        if !is_past(now, head.moment, self.window) {
            return false;
        }
        if !is_twice {
            if let Some(place) = self.take_placed(&head) {
                self.change(place);
            }
        }
        self.settled = self.settled.saturating_add(1);
        true
    }

    /// The place of the frame that went in with the link and the sequence number of one that came out.
    fn take_placed(&mut self, head: &Head) -> Option<u64>
        ensures keeps { Keeps [] self.old self.new }
        ensures state { state_of self.new ≡ state_of self.old }
    {
        let address = head.address?;
        let lane = self.lanes.get_mut(head.place)?;
        lane.placed.take(&place_of(address), head.moment)
    }

    /// The frame that went in at this place is the next that came out, with other bytes.
    fn change(&mut self, place: u64)
        ensures keeps { Keeps [] self.old self.new }
        ensures stays { Stays (state_of self.old) (state_of self.new) }
    {
        let early = self.early;
        let index = place.saturating_sub(self.taken) as usize;
        // One that may still be alike to one that comes isn't changed.
        if index >= self.expired {
            return;
        }
        let Some(after) = self.afters.get_mut(self.settled) else {
            return;
        };
        let Some(row) = self.befores.get_mut(index) else {
            return;
        };
        if after.is_paired || row.partner.is_some() {
            return;
        }
        row.partner = Some(Partner {
            number: after.head.number,
            moment: after.head.moment.saturating_sub(early),
            differs: Some(first_difference(&row.bytes, &after.bytes)),
        });
        after.is_paired = true;
    }

    /// When the first frame that went in did so, of those that weren't taken.
    pub(crate) fn first_before(&self) -> Option<u64>
        ensures some { IsSome result ↔ (0 < length self.now.befores.items) }
        ensures first { IfSome result (λ moment. IsFirstAt moment (state_of self.now)) }
    {
        match self.befores.front() {
            Some(row) => Some(row.head.moment),
            None => None,
        }
    }

    /// When the first frame that came out did so, of those that aren't alike to one that went in and weren't
    /// taken.
    pub(crate) fn first_after(&self) -> Option<u64>
        ensures { IsSome result ↔ (0 < length self.now.afters.items) }
    {
        match self.afters.front() {
            Some(row) => Some(self.came_out(&row.head)),
            None => None,
        }
    }

    /// When a frame came out.
    pub(crate) fn came_out(&self, head: &Head) -> u64
        ensures { result ≡ head.now.moment - self.now.early }
    {
        head.moment.saturating_sub(self.early)
    }

    /// How many frames weren't taken.
    pub(crate) fn count(&self) -> usize
        ensures { result ≡ count_of self.now }
    {
        self.befores.len().saturating_add(self.afters.len())
    }

    /// True if all is known that decides on a frame of this moment, where no frame before `now` follows.
    pub(crate) fn is_certain(&self, now: Option<u64>, moment: u64) -> bool
        ensures bound { self.now.window < 2 ^ 64 }
        ensures all { now ≡ None → IsTrue result }
        ensures past { (it : ℕ) → now ≡ Some it →
            result ≡ nat_lt (min (self.now.window * 2) (2 ^ 64 - 1)) (it - moment) }
    {
        is_past(now, moment, self.window.saturating_mul(2))
    }

    /// Takes the first frame that went in.
    #[tactic(auto, using(crate::proofs::Keeping::taken_before, crate::proofs::Keeping::keeps_same))]
    pub(crate) fn take_before(&mut self) -> Option<GoneIn>
        ensures frames { MatchOption result (held self.new ≡ held self.old)
            (λ row. held self.old ≡ mark_of row.head ∷ held self.new) }
        ensures early { self.new.early ≡ self.old.early }
        ensures out { MatchOption result (Keeps [] self.old self.new)
            (λ row. SameMarks (held_out self.old) (partner_mark row.partner ++ held_out self.new)) }
        ensures count { MatchOption result (length self.old.befores.items ≡ 0)
            (λ _. count_of self.new + 1 ≡ count_of self.old) }
        ensures leads { MatchOption result (state_of self.new ≡ state_of self.old)
            (λ row. Leads row.partner (state_of self.old) (state_of self.new)) }
    {
        let row = self.befores.pop_front()?;
        self.taken = self.taken.saturating_add(1);
        self.expired = self.expired.saturating_sub(1);
        let over = row
            .head
            .moment
            .saturating_add(self.window)
            .saturating_add(1);
        if let Some(lane) = self.lanes.get_mut(row.head.place) {
            lane.placed.forget_first(over);
        }
        Some(row)
    }

    /// Takes the first frame that came out and isn't alike to one that went in.
    #[tactic(auto, using(crate::proofs::Keeping::taken_after, crate::proofs::Keeping::keeps_same))]
    pub(crate) fn take_after(&mut self) -> Option<ComeOut>
        ensures frames { held self.new ≡ held self.old }
        ensures early { self.new.early ≡ self.old.early }
        ensures out { MatchOption result (Keeps [] self.old self.new)
            (λ row. SameMarks (held_out self.old) (unpaired_mark self.old.early row ++ held_out self.new)) }
        ensures count { MatchOption result (length self.old.afters.items ≡ 0)
            (λ _. count_of self.new + 1 ≡ count_of self.old) }
        ensures state { state_of self.new ≡ state_of self.old }
    {
        let row = self.afters.pop_front()?;
        self.settled = self.settled.saturating_sub(1);
        Some(row)
    }
}
