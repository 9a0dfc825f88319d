//! The share of a round that a thread hands back.
ghost use Rattle.std.specs.Prelude.{◌≡◌, IfOk, IsPermutation, map};
ghost use Rattle.std.specs.List.Sorted.{IsNonDecreasingBy};

use filter_workers::{ClaimDesk, DeskSeat};
use std::alloc::{AllocError, Global};

/// The batch of a chunk, by the chunk's number.
#[derive(Drop)]
pub struct Numbered<B> {
    pub(crate) number: u64,
    pub(crate) batch: B,
}

/// A thread's seat at the desk of a round, the batch of each chunk that it claimed there, and batches
/// whose memory may be used.
#[derive(Drop)]
pub struct Share<B> {
    pub(crate) seat: DeskSeat,
    pub(crate) done: Vec<Numbered<B>>,
    pub(crate) spares: Vec<B>,
}

impl<B: Drop> Share<B> {
    ghost use Rattle.std.specs.Prelude.{[]};
    ghost use Rattle.worker_pool.specs.Shares.{AreJoined};

    /// A share with which nothing was done yet.
    pub(crate) fn new(alloc: Global, seat: DeskSeat, spares: Vec<B>) -> Share<B>
        ensures seat { result.seat ≡ seat }
        ensures done { result.done.items ≡ [] }
    {
        Share {
            seat,
            done: Vec::new(alloc),
            spares,
        }
    }

    /// Puts the shares of two seats together.
    pub(crate) fn join(self, desk: &ClaimDesk, other: Share<B>) -> Result<Share<B>, AllocError>
        requires first { self.seat.desk ≡ desk.now }
        requires second { other.seat.desk ≡ desk.now }
        ensures { IfOk result (AreJoined self other) }
    {
        let Share {
            seat,
            mut done,
            mut spares,
        } = self;
        let Share {
            seat: other_seat,
            done: mut more,
            spares: mut other_spares,
        } = other;
        done.append(&mut more)?;
        spares.append(&mut other_spares)?;
        let seat = desk.join(seat, other_seat);
        Ok(Share { seat, done, spares })
    }
}

/// The batches without their numbers.
pub(crate) fn batches_of<B: Drop>(
    alloc: Global,
    done: Vec<Numbered<B>>,
) -> Result<Vec<B>, AllocError>
    ensures { IfOk result (λ batches. batches.items ≡ map (λ one. one.batch) done.items) }
{
    done.into_iter().map(|one| one.batch).collect(alloc)
}

/// Puts batches into the order of their numbers.
pub(crate) fn sort_by_number<B>(done: &mut [Numbered<B>])
    ensures same { IsPermutation done.old done.new }
    ensures order { IsNonDecreasingBy (λ one. one.number) done.new }
{
    done.sort_unstable_by_key(|one| one.number);
}
