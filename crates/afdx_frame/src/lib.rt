//! Frames of an AFDX tap (ARINC 664 Part 7): what a recording holds of each, its place in the order of
//! both taps, and borrowed views of its bytes.
//!
//! A reader of recordings (the crate `pcap_io`) finds frames and lends them as [`LentFrame`]s, out of
//! its own block, or gives them as [`TapFrame`]s, which last: their bytes ([`FrameBytes`]) are their own or
//! stand in a block that frames share. Both keep the same bounds.
//! Filters and analysers look at a frame's bytes through its [`FrameView`], and put frames of both
//! networks in order by their [`Key`]s.
//!
//! ```
//! let frame = TapFrame::new(Network::A, 0, Stamp(1_000_000_000), 60, bytes)?;
//! let view = frame.view();
//! if let (Some(vl), Some(sequence)) = (view.vl(), view.sequence()) {
//!     println!(rt; "link {} number {sequence}, {} bytes", vl.0, frame.whole())?;
//! }
//! ```
#![tactic(auto)]

mod bounds;
mod facts;
mod frame;
mod frame_bytes;
mod key;
mod lent_frame;
mod view;

pub use bounds::MAX_SNAPLEN;
pub use facts::Facts;
pub use frame::TapFrame;
pub use frame_bytes::{FrameBlock, FrameBytes};
pub use key::{Key, Network, Stamp, VL_ID_COUNT, VlId, key_order};
pub use lent_frame::LentFrame;
pub use view::FrameView;
