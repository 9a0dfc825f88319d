//! The frames that went in and may still come out.

ghost use Rattle.std.specs.Prelude.{◌≡◌, ℕ, ◌<◌, ◌≤◌, List, [], ◌∷◌, ◌++◌, OnOk, OnErr, drop, find, length, position};
ghost use Rattle.std.specs.List.{list_any};
ghost use Rattle.std.specs.Option.{option_map};
ghost use Rattle.std.specs.VecDeque.{deque_capacity, deque_len};
ghost use Rattle.transit_match.specs.Pairing.{Row, Arrival, is_within};
ghost use Rattle.transit_match.specs.Forgetting.{first_key, key_over, without_over};
ghost use Rattle.transit_match.specs.Waiting.{IsAfter, Stands, entered, entry_of, first_free, fits, may_take, paired, starts_over, with_taken};

use std::alloc::{AllocError, Global};
use std::collections::VecDeque;

/// A frame that went in, for as long as its window lasts.
#[derive(Drop)]
pub struct Entry<K> {
    moment: u64,
    place: u64,
    key: K,
    taken: bool,
}

/// The frames that went in and whose window isn't over, in order.
#[derive(Drop)]
pub struct Waiting<K> {
    window: u64,
    queue: VecDeque<Entry<K>>,
}

impl<K: PartialEq + Drop> Waiting<K> {
    /// No frame went in. A frame comes out at most `window` nanoseconds after it went in. Allocates
    /// nothing.
    pub fn new(alloc: Global, window: u64) -> Waiting<K>
        ensures after { Stands K.eq result 0 [] [] }
        ensures empty { result.queue.items ≡ [] }
        ensures window { result.window ≡ window }
    {
        Waiting {
            window,
            queue: VecDeque::new(alloc),
        }
    }

    /// A frame goes in at this moment, in nanoseconds, after all that came out so far. `place` is what
    /// [`take`](Waiting::take) gives of it.
    pub fn add(&mut self, moment: u64, place: u64, key: K) -> Result<(), AllocError>
        ensures after { OnOk result ((floor : ℕ) (rows : List (Row K)) (arrivals : List (Arrival K)) →
            Stands K.eq self.old floor rows arrivals → IsAfter moment arrivals →
            Stands K.eq self.new floor (rows ++ entered moment place key ∷ []) arrivals) }
        ensures entry { OnOk result (self.new.queue.items
            ≡ self.old.queue.items ++ entry_of (entered moment place key) ∷ []) }
        ensures unchanged { OnErr result (self.new.queue.items ≡ self.old.queue.items) }
        // It asks for memory only where the queue is full.
        ensures memory { OnErr result (deque_capacity self.old.queue ≤ deque_len self.old.queue) }
        ensures window { self.new.window ≡ self.old.window }
    {
        self.queue.push_back(Entry {
            moment,
            place,
            key,
            taken: false,
        })?;
        Ok(())
    }

    /// A frame comes out at this moment with this key. It is the first one of that key that went in no
    /// more than the window before and hasn't come out yet: `take` gives its place.
    pub fn take(&mut self, key: &K, moment: u64) -> Option<u64>
        ensures place { (floor : ℕ) (rows : List (Row K)) (arrivals : List (Arrival K)) →
            Stands K.eq self.old floor rows arrivals → floor ≤ moment →
            result ≡ option_map (λ row. row.place)
            (first_free K.eq self.old.window (record { moment = moment; key = key.now }) rows) }
        ensures after { (floor : ℕ) (rows : List (Row K)) (arrivals : List (Arrival K)) →
            Stands K.eq self.old floor rows arrivals → floor ≤ moment →
            Stands K.eq self.new floor
            (paired K.eq self.old.window (record { moment = moment; key = key.now }) (length arrivals) rows)
            (arrivals ++ record { moment = moment; key = key.now } ∷ []) }
        // Of the entries that are kept it takes the first that it may take.
        ensures found { result ≡ option_map (λ entry. entry.place) (find
            (may_take K.eq self.old.window (record { moment = moment; key = key.now }))
            self.old.queue.items) }
        ensures taken { self.new.queue.items ≡ with_taken
            (may_take K.eq self.old.window (record { moment = moment; key = key.now }))
            self.old.queue.items }
        ensures window { self.new.window ≡ self.old.window }
    {
        let index = self.find(key, moment)?;
        let entry = &mut self.queue[index];
        entry.taken = true;
        Some(entry.place)
    }

    /// The index of the frame that [`take`](Waiting::take) takes.
    fn find(&self, key: &K, moment: u64) -> Option<usize>
        ensures { result ≡ position
            (may_take K.eq self.now.window (record { moment = moment; key = key.now })) self.now.queue.items }
    {
        let window = self.window;
        self.queue.iter().position(|entry| !entry.taken
            && is_within(window, entry.moment, moment)
            && entry.key == *key)
    }

    /// True if a frame of this key went in no more than the window before, even if it has come out.
    pub fn knows(&self, key: &K, moment: u64) -> bool
        ensures { (floor : ℕ) (rows : List (Row K)) (arrivals : List (Arrival K)) →
            Stands K.eq self.now floor rows arrivals → floor ≤ moment →
            result ≡ list_any (λ row. fits K.eq self.now.window (record { moment = moment; key = key.now })
            (entry_of row)) rows }
    {
        self.keeps(key, moment)
    }

    /// True if a frame that is kept fits, even one that is taken.
    fn keeps(&self, key: &K, moment: u64) -> bool
        ensures { result ≡ list_any (fits K.eq self.now.window (record { moment = moment; key = key.now }))
            self.now.queue.items }
    {
        let window = self.window;
        self.queue.iter().any(|entry| is_within(window, entry.moment, moment) && entry.key == *key)
    }

    /// True if a frame of this key went in no more than the window before and hasn't come out yet.
    pub fn has(&self, key: &K, moment: u64) -> bool
        ensures { (floor : ℕ) (rows : List (Row K)) (arrivals : List (Arrival K)) →
            Stands K.eq self.now floor rows arrivals → floor ≤ moment →
            result ≡ list_any (λ row. may_take K.eq self.now.window
            (record { moment = moment; key = key.now }) (entry_of row)) rows }
    {
        self.keeps_free(key, moment)
    }

    /// True if a frame that is kept and isn't taken fits.
    fn keeps_free(&self, key: &K, moment: u64) -> bool
        ensures { result ≡ list_any
            (may_take K.eq self.now.window (record { moment = moment; key = key.now })) self.now.queue.items }
    {
        let window = self.window;
        self.queue.iter().any(|entry| !entry.taken
            && is_within(window, entry.moment, moment)
            && entry.key == *key)
    }

    /// Forgets the first frame, where its window ended before this moment, and gives its key back. No frame
    /// comes out at an earlier one from now on.
    pub fn forget_first(&mut self, moment: u64) -> Option<K>
        ensures after { (floor : ℕ) (rows : List (Row K)) (arrivals : List (Arrival K)) →
            Stands K.eq self.old floor rows arrivals → floor ≤ moment →
            Stands K.eq self.new moment rows arrivals }
        ensures rest { self.new.queue.items
            ≡ without_over self.old.window moment self.old.queue.items }
        ensures key { result ≡ key_over self.old.window moment self.old.queue.items }
        ensures window { self.new.window ≡ self.old.window }
    {
        if self.starts_over(moment) {
            self.pop()
        } else {
            None
        }
    }

    /// Takes out the first frame: its key.
    fn pop(&mut self) -> Option<K>
        ensures rest { self.new.queue.items ≡ drop 1 self.old.queue.items }
        ensures key { result ≡ first_key self.old.queue.items }
        ensures window { self.new.window ≡ self.old.window }
    {
        match self.queue.pop_front() {
            Some(Entry { key, .. }) => Some(key),
            None => None,
        }
    }

    /// True if the window of the first frame ended before this moment.
    fn starts_over(&self, moment: u64) -> bool
        ensures { result ≡ starts_over self.now.window moment self.now.queue.items }
    {
        match self.queue.front() {
            Some(entry) => moment.saturating_sub(entry.moment) > self.window,
            None => false,
        }
    }
}

/// True if the moment of coming out is in the window of that of going in.
fn is_within(window: u64, in_moment: u64, out_moment: u64) -> bool
    ensures { result ≡ is_within window in_moment out_moment }
{
    in_moment <= out_moment && out_moment - in_moment <= window
}
