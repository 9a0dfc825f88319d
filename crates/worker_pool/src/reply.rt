//! The items that go through a reply ring.
ghost use Rattle.std.specs.Prelude.{◌≡◌, IfSome};

use crate::posting::Posting;
use crate::share::Share;
use crate::task::Task;
use filter_workers::DeskSeat;
use std::snapshot::Snapshot;

/// A question: to claim chunks of this round with this seat. It is put by the thread that asks, and
/// taken out again at once, so that both ends of the ring know it, and the end that answers may go to
/// any thread.
#[derive(Drop)]
pub struct Ask<T: Task> {
    pub(crate) posting: Snapshot<Posting<T>>,
    pub(crate) seat: Snapshot<DeskSeat>,
}

/// The things that go through a reply ring: the question, and then the worker's share.
#[derive(Drop)]
pub enum Reply<T: Task> {
    Asked(Ask<T>),
    Answered(Share<T::Batch>),
}

impl<T: Task> Reply<T> {
    ghost use Rattle.worker_pool.specs.declared.reply.Reply.TheVariants.{Answered};

    /// The share, if it is one.
    pub(crate) fn into_share(self) -> Option<Share<T::Batch>>
        ensures { IfSome result (λ s. self ≡ Answered s) }
    {
        match self {
            Reply::Asked(_ask) => None,
            Reply::Answered(share) => Some(share),
        }
    }
}
