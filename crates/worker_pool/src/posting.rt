//! A round as its workers share it.
ghost use Rattle.std.specs.Prelude.{◌≡◌, ◌<◌, ◌≤◌, IfOk};
ghost use Rattle.std.specs.Arc.{arc_value};

use crate::chunk::{count_of_chunks, size_of_chunk};
use crate::fault::PoolFault;
use crate::share::{Numbered, Share, batches_of, sort_by_number};
use crate::task::Task;
use filter_workers::{ClaimDesk, DeskSeat, MAX_NUMBERS};
use std::alloc::Global;
use std::marker::Model;
use std::sync::Arc;

/// A round that is done.
#[derive(Drop)]
pub struct Done<N, B> {
    /// The round itself.
    pub round: N,
    /// How many items a chunk has; the last one may have fewer.
    pub chunk: usize,
    /// A batch for each chunk, in order.
    pub batches: Vec<B>,
}

/// A round, and the desk at which the numbers of its chunks are claimed. Contracts see the task, the
/// round, which desk it is, and the size of a chunk.
#[derive(Drop)]
pub struct Posting<T: Task> {
    pub(crate) task: Arc<T, Global>,
    pub(crate) round: T::Round,
    pub(crate) desk: ClaimDesk,
    pub(crate) size: usize,
}

impl<T: Task> Model for Posting<T> {
    ghost use Rattle.std.specs.Prelude.{◌≡◌, ◌<◌};
    ghost use Rattle.std.specs.Arc.{arc_value};
    ghost use Rattle.worker_pool.specs.Chunks.{Posted, chunk_count};

    ghost Value = { Posted T T.Round };

    ghost view = { λ p. record { task = arc_value p.task; round = p.round; desk = p.desk; size = p.size } };

    ghost invariant = { λ p. (0 < p.size)
        × (p.desk.len ≡ chunk_count p.size (T.len (arc_value p.task) p.round)) };
}

impl<T: Task> Posting<T> {
    ghost use Rattle.std.specs.Prelude.{◌⊎◌, IfErr};
    ghost use Rattle.filter_workers.specs.Seats.{first_seat};
    ghost use Rattle.worker_pool.specs.declared.fault.PoolFault.TheVariants.{Long, Memory};
    ghost use Rattle.filter_workers.specs.declared.desk.TheConstants.{DESK_SEATS};
    ghost use Rattle.worker_pool.specs.Chunks.{AreBatches, IsTooLong, chunk_size, posted};
    ghost use Rattle.worker_pool.specs.Shares.{IsOfChunk, IsShare};

    /// A round that so many threads share in chunks of at most `most` items, and the one seat at its desk.
    pub(crate) fn new(
        alloc: Global,
        task: Arc<T, Global>,
        round: T::Round,
        most: usize,
        threads: usize,
    ) -> Result<(Posting<T>, DeskSeat), PoolFault>
        requires { (0 < threads) × (threads ≤ 65536) }
        ensures posting { IfOk result (λ made. made.0 ≡ posted (arc_value task) round made.0.desk
            (chunk_size most threads (T.len (arc_value task) round))) }
        ensures seat { IfOk result (λ made. made.1 ≡ first_seat made.0.desk) }
        ensures fault { IfErr result (λ fault. (fault ≡ Memory) ⊎ ((fault ≡ Long)
            × IsTooLong most threads (T.len (arc_value task) round))) }
    {
        let len = task.len(&round);
        let size = size_of_chunk(most, threads, len);
        let count = count_of_chunks(size, len) as u64;
        if count > MAX_NUMBERS {
            return Err(PoolFault::Long);
        }
        let (desk, seat) = ClaimDesk::new(alloc, count)?;
        let posting = Posting {
            task,
            round,
            desk,
            size,
        };
        Ok((posting, seat))
    }

    /// The batch of the chunk of this number.
    fn work_on(&self, number: u64, spare: T::Batch) -> Numbered<T::Batch>
        requires { number < self.now.desk.len }
        ensures number { result.number ≡ number }
        ensures batch { IsOfChunk T.len T.is_batch self.now result }
    {
        let len = self.task.len(&self.round);
        let from = number as usize * self.size;
        let to = from.saturating_add(self.size).min(len);
        let batch = self.task.work(&self.round, from, to, spare);
        Numbered { number, batch }
    }

    /// Claims chunks until none is left, and works on each. It stops sooner where there is no memory to
    /// keep one more batch, before it claims: what it leaves is done by the other threads.
    pub(crate) fn run(&self, share: Share<T::Batch>) -> Share<T::Batch>
        requires { IsShare T.len T.is_batch self.now share.seat.room share }
        ensures { IsShare T.len T.is_batch self.now share.seat.room result }
    {
        let Share {
            mut seat,
            mut done,
            mut spares,
        } = share;
        while done.reserve(1).is_ok() {
            let (number, after) = self.desk.claim(seat);
            seat = after;
            let Some(number) = number else {
                break;
            };
            let spare = match spares.pop() {
                Some(spare) => spare,
                None => self.task.spare(),
            };
            done.push_reserved(self.work_on(number, spare));
        }
        Share { seat, done, spares }
    }

    /// Takes a posting apart, whose desk is closed with the share of all its seats. Beside the
    /// round come batches whose memory wasn't used.
    pub(crate) fn close(
        self,
        alloc: Global,
        share: Share<T::Batch>,
    ) -> Result<(Done<T::Round, T::Batch>, Vec<T::Batch>), PoolFault>
        requires { IsShare T.len T.is_batch self DESK_SEATS share }
        ensures round { IfOk result (λ r. r.0.round ≡ self.round) }
        ensures size { IfOk result (λ r. r.0.chunk ≡ self.size) }
        ensures batches { IfOk result (λ r. AreBatches (T.is_batch self.task self.round)
            self.size (T.len self.task self.round) 0 r.0.batches.items) }
        ensures fault { IfErr result (λ fault. fault ≡ Memory) }
    {
        let Posting {
            task,
            round,
            desk,
            size,
        } = self;
        let count = count_of_chunks(size, task.len(&round)) as u64;
        let Share {
            seat,
            done: mut numbered,
            spares,
        } = share;
        let Ok(drawn) = desk.close(seat) else {
            unreachable!()
        };
        if drawn < count {
            return Err(PoolFault::Memory);
        }
        sort_by_number(numbered.as_mut_slice());
        let batches = batches_of(alloc, numbered)?;
        let done = Done {
            round,
            chunk: size,
            batches,
        };
        Ok((done, spares))
    }
}
