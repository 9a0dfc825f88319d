//! Workers that last as long as a run, and claim the chunks of each round.
//!
//! A [`Task`] says what is done with a chunk of a round. [`Pool::start`] starts the workers once.
//! [`Pool::put`] hands a round to all of them and returns at once; [`Pool::take`] works beside them until
//! no chunk is left, and returns the round with a batch for each chunk, in order. Between the two calls
//! the calling thread may do other work, and put a second round, so that workers needn't be idle
//! while it writes the round before and gathers the next.
//!
//! ```
//! thread::scope(thread::scope_env(), rt, |scope| {
//!     let mut pool = Pool::start(scope, rt, alloc, task, 4)?;
//!     let flight = pool.put(round)?;
//!     // .. here the calling thread does other work ..
//!     let done = pool.take(rt, flight)?;
//!     for batch in &done.batches {
//!         // .. the batch of the next chunk ..
//!     }
//!     pool.give_back(done.batches);
//!     pool.close();
//!     Ok(())
//! })
//! ```
//!
//! A round is cut into chunks of [`MAX_CHUNK`] items, or fewer in a small round, so that each worker gets
//! some. A chunk is claimed by one atomic step at the round's
//! [`ClaimDesk`](filter_workers::ClaimDesk), whichever thread comes first. Where `take` is `Ok`, the
//! batches are those of all chunks of the round that was put, each once and in order.
//!
//! No clause says that a worker runs, that an answer comes, or that the work is spread evenly. Batches
//! that are given back are used again: after the first rounds a chunk allocates nothing but what its
//! task does; a round allocates its desk, its list of batches, and a ring and two lists for each worker.
#![tactic(auto)]

mod bell;
mod chunk;
mod fault;
mod flight;
mod job;
mod pool;
mod posting;
mod protocol;
mod reply;
mod share;
mod task;

pub use chunk::MAX_CHUNK;
pub use fault::PoolFault;
pub use flight::InFlight;
pub use pool::{MAX_WORKERS, Pool};
pub use posting::Done;
pub use task::Task;
