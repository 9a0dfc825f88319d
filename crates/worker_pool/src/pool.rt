//! The pool.
ghost use Rattle.std.specs.Prelude.{◌≡◌, ◌<◌, ◌≤◌, max, vec_len, IfOk};
ghost use Rattle.std.specs.Arc.{arc_value};

use crate::bell::Bells;
use crate::chunk::MAX_CHUNK;
use crate::fault::PoolFault;
use crate::flight::{InFlight, Worker};
use crate::job::Station;
use crate::posting::{Done, Posting};
use crate::task::Task;
use rtrb::RingBuffer;
use std::alloc::{AllocError, Global};
use std::marker::Model;
use std::mem;
use std::sync::{Arc, Wait};
use std::thread::{Scope, Threads};

/// The most workers of a pool, with the calling thread.
pub const MAX_WORKERS: u32 = 8;

/// How many rounds a worker can be asked for before it has come to the first.
const MAX_JOBS: usize = 4;

/// Workers that wait for rounds. Contracts see the task, how many threads share a round, and the most items
/// of a chunk.
#[derive(Drop)]
pub struct Pool<T: Task> {
    alloc: Global,
    task: Arc<T, Global>,
    workers: Vec<Worker<T>>,
    /// Batches that were given back.
    spares: Vec<T::Batch>,
    /// The most items of a chunk.
    most: usize,
}

impl<T: Task> Model for Pool<T> {
    ghost use Rattle.std.specs.Prelude.{◌<◌, ◌+◌, vec_len};
    ghost use Rattle.std.specs.Arc.{arc_value};
    ghost use Rattle.worker_pool.specs.Flights.{PoolView};
    ghost use Rattle.worker_pool.specs.declared.pool.TheConstants.{MAX_WORKERS};

    ghost Value = { PoolView T };

    ghost view = { λ p. record {
      task = arc_value p.task;
      threads = vec_len p.workers + 1;
      most = p.most;
    } };

    ghost invariant = { λ p. vec_len p.workers < MAX_WORKERS };
}

/// Starts a worker. None: there is no memory or no thread for it.
fn start_worker<'s, E, R: Wait + Sync, T: Task + 's>(
    scope: &Scope<'s, E>,
    rt: &'s R,
    alloc: Global,
) -> Option<Worker<T>> {
    let (jobs, ring) = RingBuffer::new(alloc, MAX_JOBS).ok()?;
    let bells = Arc::new(alloc, Bells::new()).ok()?;
    let station: Station<T> = Station {
        jobs: ring,
        bells: Arc::try_clone(&bells).ok()?,
    };
    scope.spawn(move || station.work(rt)).ok()?;
    Some(Worker { jobs, bells })
}

/// Starts threads for so many workers, of which the calling thread is one, or as many as can be started.
fn start_workers<'s, E, R: Threads + Wait + Sync, T: Task + 's>(
    scope: &Scope<'s, E>,
    rt: &'s R,
    alloc: Global,
    workers: u32,
) -> Vec<Worker<T>>
    ensures { vec_len result < max workers 1 }
{
    let mut started = Vec::new(alloc);
    for _thread in 1..workers {
        let Some(worker) = start_worker(scope, rt, alloc) else {
            return started;
        };
        if started.push(worker).is_err() {
            return started;
        }
    }
    started
}

impl<T: Task> Pool<T> {
    ghost use Rattle.std.specs.Prelude.{◌⊎◌, IfErr};
    ghost use Rattle.worker_pool.specs.Chunks.{AreBatches, IsTooLong, chunk_size};
    ghost use Rattle.worker_pool.specs.declared.chunk.TheConstants.{MAX_CHUNK};
    ghost use Rattle.worker_pool.specs.declared.fault.PoolFault.TheVariants.{Long, Lost, Memory};

    /// Starts a pool of so many workers, of which the calling thread is one, for the rounds of a task.
    /// They are at most [`MAX_WORKERS`]. A thread that can't be started is no fault: the others do its
    /// share, down to the calling thread alone.
    ///
    /// # Errors
    ///
    /// `AllocError` if there is no memory to share the task.
    pub fn start<'s, E, R: Threads + Wait + Sync>(
        scope: &Scope<'s, E>,
        rt: &'s R,
        alloc: Global,
        task: T,
        workers: u32,
    ) -> Result<Pool<T>, AllocError>
    where
        T: 's,
        ensures task { IfOk result (λ pool. pool.task ≡ task) }
        ensures threads { IfOk result (λ pool. (1 ≤ pool.threads) × (pool.threads ≤ max workers 1)) }
        ensures chunk { IfOk result (λ pool. pool.most ≡ MAX_CHUNK) }
    {
        let Ok(task) = Arc::new(alloc, task) else {
            return Err(AllocError);
        };
        Ok(Pool {
            alloc,
            task,
            workers: start_workers(scope, rt, alloc, workers.min(MAX_WORKERS)),
            spares: Vec::new(alloc),
            most: MAX_CHUNK,
        })
    }

    /// The same pool, whose chunks have at most `len` items, at least 1, and not [`MAX_CHUNK`].
    pub fn with_chunk_len(self, len: usize) -> Pool<T>
        ensures { result ≡ record self { most = len } }
    {
        let mut pool = self;
        pool.most = len;
        pool
    }

    /// Hands a round to all workers, and returns at once. The calling thread may do other work while
    /// they are at it, and put another round, before it takes the batches.
    ///
    /// # Errors
    ///
    /// `Memory` if there is no memory to share the round, `Long` if it has more than 2^32 chunks. The
    /// round is dropped, and the pool goes on.
    pub fn put(&mut self, round: T::Round) -> Result<InFlight<T>, PoolFault>
        ensures pool { self.new ≡ self.old }
        ensures task { IfOk result (λ flight. flight.task ≡ self.old.task) }
        ensures round { IfOk result (λ flight. flight.round ≡ round) }
        ensures size { IfOk result (λ flight. flight.size
            ≡ chunk_size self.old.most self.old.threads (T.len self.old.task round)) }
        ensures fault { IfErr result (λ fault. (fault ≡ Memory) ⊎ ((fault ≡ Long)
            × IsTooLong self.old.most self.old.threads (T.len self.old.task round))) }
    {
        let alloc = self.alloc;
        let threads = self.workers.len() + 1;
        let task = Arc::try_clone(&self.task)?;
        let (posting, seat) = Posting::new(alloc, task, round, self.most, threads)?;
        let spares = mem::replace(&mut self.spares, Vec::new(alloc));
        let part = spares.len() / threads;
        let mut flight = InFlight::new(alloc, posting, seat, spares)?;
        for worker in &mut self.workers {
            flight = flight.ask(alloc, worker, part)?;
        }
        Ok(flight)
    }

    /// Claims chunks of the round beside the workers until none is left, and waits for what they did:
    /// the round itself, and a batch for each chunk of it, in order.
    ///
    /// # Errors
    ///
    /// `Lost` if a worker's share didn't come or a worker still holds the round, `Memory` if there is no
    /// memory for the list of the batches. The round is dropped, and the pool goes on.
    pub fn take<R: Wait>(
        &mut self,
        rt: &R,
        flight: InFlight<T>,
    ) -> Result<Done<T::Round, T::Batch>, PoolFault>
        ensures pool { self.new ≡ self.old }
        ensures round { IfOk result (λ done. done.round ≡ flight.round) }
        ensures size { IfOk result (λ done. done.chunk ≡ flight.size) }
        ensures batches { IfOk result (λ done. AreBatches (T.is_batch flight.task flight.round)
            flight.size (T.len flight.task flight.round) 0 done.batches.items) }
        ensures fault { IfErr result (λ fault. (fault ≡ Memory) ⊎ (fault ≡ Lost)) }
    {
        let (posting, share) = flight.gather(rt)?;
        let Ok(posting) = Arc::try_unwrap(posting) else {
            return Err(PoolFault::Lost);
        };
        let (done, spares) = posting.close(self.alloc, share)?;
        self.give_back(spares);
        Ok(done)
    }

    /// Hands batches back, in whose memory later ones are made. No clause says what becomes of them.
    pub fn give_back(&mut self, batches: Vec<T::Batch>)
        ensures { self.new ≡ self.old }
    {
        let mut batches = batches;
        let _ = self.spares.append(&mut batches);
    }

    /// Lets the workers end. They end as well where the pool is dropped, but only after some
    /// milliseconds.
    pub fn close(self) {
        let Pool {
            alloc: _,
            task: _,
            workers,
            spares: _,
            most: _,
        } = self;
        for worker in workers {
            let Worker { jobs, bells } = worker;
            drop(jobs);
            bells.worker.wake();
        }
    }
}
