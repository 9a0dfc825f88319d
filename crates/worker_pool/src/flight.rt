//! A round that workers are at.
ghost use Rattle.std.specs.Prelude.{◌≡◌, ◌<◌, IfOk, IfSome, Some};
ghost use Rattle.std.specs.Arc.{arc_value};
ghost use Rattle.rtrb.specs.Ring.{known_free, received};

use crate::bell::{Bells, pop};
use crate::fault::PoolFault;
use crate::job::Job;
use crate::posting::Posting;
use crate::protocol::{Replies, reply_ring};
use crate::share::Share;
use crate::task::Task;
use filter_workers::DeskSeat;
use rtrb::Producer;
use std::alloc::Global;
use std::marker::Model;
use std::sync::{Arc, Wait};

/// A thread that waits for rounds.
#[derive(Drop)]
pub struct Worker<T: Task> {
    pub(crate) jobs: Producer<Job<T>>,
    pub(crate) bells: Arc<Bells, Global>,
}

/// A share that a worker is at.
#[derive(Drop)]
pub struct Waiting<T: Task> {
    pub(crate) replies: Replies<T>,
    pub(crate) bells: Arc<Bells, Global>,
}

/// A round that workers are at. Contracts see the task, the round, the desk of the round, and how many
/// items a chunk has.
#[derive(Drop)]
pub struct InFlight<T: Task> {
    pub(crate) posting: Arc<Posting<T>, Global>,
    /// The calling thread's own.
    pub(crate) share: Share<T::Batch>,
    pub(crate) waiting: Vec<Waiting<T>>,
}

impl<T: Task> Model for InFlight<T> {
    ghost use Rattle.std.specs.Prelude.{◌≡◌, ◌+◌, [], All, sum_by};
    ghost use Rattle.std.specs.Arc.{arc_value};
    ghost use Rattle.filter_workers.specs.declared.desk.TheConstants.{DESK_SEATS};
    ghost use Rattle.worker_pool.specs.Chunks.{Posted};
    ghost use Rattle.worker_pool.specs.Flights.{IsAsked, room_asked};

    ghost Value = { Posted T T.Round };

    ghost view = { λ f. arc_value f.posting };

    ghost invariant = { λ f. (f.share.seat.desk ≡ (arc_value f.posting).desk)
        × (f.share.seat.numbers ≡ []) × (f.share.done.items ≡ [])
        × All (IsAsked (arc_value f.posting)) f.waiting.items
        × (f.share.seat.room + sum_by room_asked f.waiting.items ≡ DESK_SEATS) };
}

impl<T: Task> Waiting<T> {
    ghost use Rattle.worker_pool.specs.Replies.{asked_share};
    ghost use Rattle.worker_pool.specs.Shares.{IsShare};

    /// Waits for the share. None: it was lost.
    fn take<R: Wait>(self, rt: &R) -> Option<Share<T::Batch>>
        ensures { IfSome result (λ s. IfSome (asked_share (received self.replies))
            (λ q. IsShare T.len T.is_batch q.posted q.room s)) }
    {
        let Waiting { mut replies, bells } = self;
        let Some(reply) = pop(rt, &mut replies, &bells.caller) else {
            return None;
        };
        reply.into_share()
    }
}

impl<T: Task> Worker<T> {
    ghost use Rattle.std.specs.Prelude.{[], IfErr, IsTrue};
    ghost use Rattle.worker_pool.specs.declared.fault.PoolFault.TheVariants.{Memory};
    ghost use Rattle.worker_pool.specs.Replies.{asked_share, question};

    /// True if the worker can be asked once more.
    fn has_room(&mut self) -> bool
        ensures { IsTrue result → 0 < known_free self.new.jobs }
    {
        !self.jobs.is_full() && !self.jobs.is_abandoned()
    }

    /// Asks the worker for the share of this seat.
    fn ask(
        &mut self,
        alloc: Global,
        posting: &Arc<Posting<T>, Global>,
        seat: DeskSeat,
        spares: Vec<T::Batch>,
    ) -> Result<Waiting<T>, PoolFault>
        requires room { 0 < known_free self.old.jobs }
        requires desk { seat.desk ≡ (arc_value posting.now).desk }
        requires fresh { seat.numbers ≡ [] }
        ensures asked { IfOk result (λ w. asked_share (received w.replies)
            ≡ Some (question (arc_value posting.now) seat.room)) }
        ensures fault { IfErr result (λ fault. fault ≡ Memory) }
    {
        let bells = Arc::try_clone(&self.bells)?;
        let (replier, replies) = reply_ring(alloc, &**posting, &seat)?;
        let job = Job {
            posting: Arc::try_clone(posting)?,
            share: Share::new(alloc, seat, spares),
            replier,
        };
        self.jobs.push_reserved(job);
        self.bells.worker.wake();
        Ok(Waiting { replies, bells })
    }
}

/// So many of the spares, or none where there is no memory to hand them on.
fn part_of<B: Drop>(alloc: Global, spares: &mut Vec<B>, count: usize) -> Vec<B> {
    let at = spares.len().saturating_sub(count);
    spares.split_off(at).unwrap_or(Vec::new(alloc))
}

impl<T: Task> InFlight<T> {
    ghost use Rattle.std.specs.Prelude.{◌⊎◌, IfErr};
    ghost use Rattle.worker_pool.specs.declared.fault.PoolFault.TheVariants.{Lost, Memory};
    ghost use Rattle.filter_workers.specs.Seats.{first_seat};
    ghost use Rattle.filter_workers.specs.declared.desk.TheConstants.{DESK_SEATS};
    ghost use Rattle.worker_pool.specs.Shares.{IsShare};

    /// A round that only the calling thread is at, so far.
    pub(crate) fn new(
        alloc: Global,
        posting: Posting<T>,
        seat: DeskSeat,
        spares: Vec<T::Batch>,
    ) -> Result<InFlight<T>, PoolFault>
        requires { seat ≡ first_seat posting.desk }
        ensures posting { IfOk result (λ flight. flight ≡ posting) }
        ensures fault { IfErr result (λ fault. fault ≡ Memory) }
    {
        let Ok(posting) = Arc::new(alloc, posting) else {
            return Err(PoolFault::Memory);
        };
        Ok(InFlight {
            posting,
            share: Share::new(alloc, seat, spares),
            waiting: Vec::new(alloc),
        })
    }

    /// Asks one more worker, who gets so many of the spares, and half of the seat's room. Where there is
    /// no room, of the seat or in the worker's ring, the worker gets nothing.
    pub(crate) fn ask(
        self,
        alloc: Global,
        worker: &mut Worker<T>,
        count: usize,
    ) -> Result<InFlight<T>, PoolFault>
        ensures same { IfOk result (λ flight. flight ≡ self) }
        ensures fault { IfErr result (λ fault. fault ≡ Memory) }
    {
        if !worker.has_room() {
            return Ok(self);
        }
        let InFlight {
            posting,
            share,
            mut waiting,
        } = self;
        let Share {
            seat,
            done,
            mut spares,
        } = share;
        waiting.reserve(1)?;
        let (seat, theirs) = match posting.desk.split(seat) {
            Ok(two) => two,
            Err(seat) => {
                return Ok(InFlight {
                    posting,
                    share: Share { seat, done, spares },
                    waiting,
                });
            }
        };
        let part = part_of(alloc, &mut spares, count);
        waiting.push_reserved(worker.ask(alloc, &posting, theirs, part)?);
        Ok(InFlight {
            posting,
            share: Share { seat, done, spares },
            waiting,
        })
    }

    /// Claims chunks until none is left, and waits for the workers' shares.
    pub(crate) fn gather<R: Wait>(
        self,
        rt: &R,
    ) -> Result<(Arc<Posting<T>, Global>, Share<T::Batch>), PoolFault>
        ensures posting { IfOk result (λ r. arc_value r.0 ≡ self) }
        ensures share { IfOk result (λ r. IsShare T.len T.is_batch self DESK_SEATS r.1) }
        ensures fault { IfErr result (λ fault. (fault ≡ Memory) ⊎ (fault ≡ Lost)) }
    {
        let InFlight {
            posting,
            share,
            mut waiting,
        } = self;
        let mut share = posting.run(share);
        while let Some(one) = waiting.pop() {
            let Some(other) = one.take(rt) else {
                return Err(PoolFault::Lost);
            };
            share = share.join(&posting.desk, other)?;
        }
        Ok((posting, share))
    }
}
