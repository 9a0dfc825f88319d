//! A recording's items on their way from the thread that reads it to the thread that takes them.
//!
//! [`tap_ring`] makes a ring of 4 batches of items with its two ends. [`feed`] runs on a thread of its
//! own: it puts what a [`TapReader`](pcap_io::TapReader) gives, up to the recording's ending or a
//! fault, and waits where the ring is full. [`TapEnd::take`] gives the items in order, and
//! [`TapEnd::take_batch`] those that came together; both wait where the ring is empty. Once the thread has
//! come to its end, [`TapEnd::settle`] shows that all was taken that was put, and gives the recording's
//! source back. Frames stand in the reader's blocks, which it fills again once they are gone.
//!
//! ```
//! let (put, mut end) = tap_ring(alloc, Network::A, late)?;
//! // on a thread of its own: let fed = feed(rt, alloc, reader, put, &gate);
//! while let TapItem::Frame(frame) = end.take(rt)? {
//!     println!(rt; "{}", frame.stamp().0)?;
//! }
//! let source = end.settle(fed)?;
//! ```
//!
//! No call says that the other thread goes on. What was taken is tied to the recording by `settle`
//! alone; until then `take` checks each frame by itself: its network, its number and its stamp.
#![tactic(auto)]

mod bell;
mod end;
mod feeding;
mod gate;
mod item;
mod next_frame;
mod ring;

pub use end::TapEnd;
pub use feeding::{Fed, feed, fill};
pub use gate::TapGate;
pub use item::{RingLost, TapBatch, TapItem};
pub use ring::{BATCH_LEN, RING_LEN, RingSizes, TapPut, sized_tap_ring, tap_ring};
