//! The protocol of a reply ring: what the end that answers owes the end that asked.
ghost use Rattle.std.specs.Prelude.{◌≡◌, Some, IfOk};
ghost use Rattle.rtrb.specs.Ring.{received, sent};
ghost use Rattle.worker_pool.specs.Replies.{Allows, asked_share, question};

use crate::posting::Posting;
use crate::reply::{Ask, Reply};
use crate::task::Task;
use filter_workers::DeskSeat;
use rtrb::{Consumer, Producer, Protocol, RingBuffer};
use std::alloc::{AllocError, Global};
use std::snapshot::Snapshot;

/// A share is one of what was asked first.
#[derive(Clone, Copy)]
pub struct AsAsked;

impl<T: Task> Protocol<Reply<T>> for AsAsked {
    ghost allows = { Allows T.len T.is_batch };
}

/// The end that answers.
pub(crate) type Replier<T> = Producer<Reply<T>, Global, AsAsked>;

/// The end that asked.
pub(crate) type Replies<T> = Consumer<Reply<T>, Global, AsAsked>;

/// A ring for the share of this seat, both of whose ends know what was asked.
pub(crate) fn reply_ring<T: Task>(
    alloc: Global,
    posting: &Posting<T>,
    seat: &DeskSeat,
) -> Result<(Replier<T>, Replies<T>), AllocError>
    ensures replier { IfOk result (λ ends. asked_share (sent ends.0)
        ≡ Some (question posting.now seat.now.room)) }
    ensures replies { IfOk result (λ ends. asked_share (received ends.1)
        ≡ Some (question posting.now seat.now.room)) }
{
    let (mut replier, mut replies) = RingBuffer::with_protocol::<Global, AsAsked>(alloc, 1)?;
    let posting = Snapshot::of(posting);
    let seat = Snapshot::of(seat);
    replier.push_reserved(Reply::Asked(Ask { posting, seat }));
    replies.slots_beside(&mut replier);
    let _asked = replies.pop_known();
    Ok((replier, replies))
}
