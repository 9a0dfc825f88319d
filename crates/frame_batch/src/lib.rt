//! Frames by tables of records, so that frames move and wait without their bytes.
//!
//! A reader makes a [`FrameBatch`] of the frames that it finds in a block: the block, shared once, and a
//! [`FrameRecord`] for each frame. What takes frames of several batches in an order of its own makes a
//! [`RoundDraft`], with one share of each block, and then a [`Round`], which lends each frame as a
//! [`LentFrame`](afdx_frame::LentFrame).
#![tactic(auto)]

mod batch;
mod cursor;
mod draft;
mod frame_record;
mod part;
mod queue;
mod round;

pub use batch::FrameBatch;
pub use cursor::QueueCursor;
pub use draft::RoundDraft;
pub use frame_record::FrameRecord;
pub use part::RoundPart;
pub use queue::FrameQueue;
pub use round::Round;
