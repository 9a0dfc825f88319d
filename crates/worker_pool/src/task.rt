//! The task that a pool is started for.
ghost use Rattle.std.specs.Prelude.{◌≡◌, ◌<◌, ◌≤◌, ℕ};

/// The work on a chunk of a round.
pub trait Task: Send + Sync + Drop {
    /// A round of items. The workers share it, and only read it.
    type Round: Send + Sync + Drop;

    /// The result of a chunk. Its memory is used again.
    type Batch: Send + Drop;

    /// How many items a round has.
    ghost len: { Self → Self.Round → ℕ };

    /// This batch is that of the items from a number on up to another.
    ghost is_batch: { Self → Self.Round → ℕ → ℕ → Self.Batch → Type 0 };

    /// How many items the round has.
    fn len(&self, round: &Self::Round) -> usize
        ensures { result ≡ len self.now round.now };

    /// A batch of no items, whose memory is not used before.
    fn spare(&self) -> Self::Batch;

    /// Works on the items from number `from` up to `to`, which is left out, in the memory of `spare`,
    /// whatever batch it was.
    fn work(&self, round: &Self::Round, from: usize, to: usize, spare: Self::Batch) -> Self::Batch
        requires { (from < to) × (to ≤ len self.now round.now) }
        ensures { is_batch self.now round.now from to result };
}
