//! The job that a worker is asked, and its doing.
ghost use Rattle.std.specs.Prelude.{◌≡◌, Some, []};
ghost use Rattle.std.specs.Arc.{arc_value};
ghost use Rattle.rtrb.specs.Ring.{sent};
ghost use Rattle.worker_pool.specs.Replies.{asked_share, question};

use crate::bell::{Bells, pop};
use crate::posting::Posting;
use crate::protocol::Replier;
use crate::reply::Reply;
use crate::share::Share;
use crate::task::Task;
use rtrb::Consumer;
use std::alloc::Global;
use std::sync::{Arc, Wait};

/// A round, a share of it with which nothing was done yet, and the end of the ring that the share goes
/// into.
#[derive(Drop)]
pub struct Job<T: Task> {
    pub(crate) posting: Arc<Posting<T>, Global>,
    pub(crate) share: Share<T::Batch>,
    pub(crate) replier: Replier<T>,
    ghost of_desk: { share.seat.desk ≡ (arc_value posting).desk },
    ghost no_numbers: { share.seat.numbers ≡ [] },
    ghost none_done: { share.done.items ≡ [] },
    ghost asked: { asked_share (sent replier) ≡ Some (question (arc_value posting) share.seat.room) },
}

impl<T: Task> Job<T> {
    /// Does the share, and hands it back. The hold on the round is let go before.
    fn run(self) {
        let Job {
            posting,
            share,
            mut replier,
        } = self;
        let share = posting.run(share);
        drop(posting);
        let _ = replier.push(Reply::Answered(share));
    }
}

/// The things that a worker's thread has for the whole run.
#[derive(Drop)]
pub struct Station<T: Task> {
    pub(crate) jobs: Consumer<Job<T>>,
    pub(crate) bells: Arc<Bells, Global>,
}

impl<T: Task> Station<T> {
    /// Runs jobs until the ring is left.
    pub(crate) fn work<R: Wait>(self, rt: &R) {
        let Station { mut jobs, bells } = self;
        for _ in rt.forever() {
            let Some(job) = pop(rt, &mut jobs, &bells.worker) else {
                return;
            };
            job.run();
            bells.caller.wake();
        }
    }
}
