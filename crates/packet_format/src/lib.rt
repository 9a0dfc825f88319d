//! The formats of captures: what a capture begins with, and its packets, of which those of pcapng may have
//! the verdict of their line in a ledger as a comment.
//!
//! ```text
//! VL 301 engine_1 SN 163: excess (policing)
//! VL 301 engine_1 SN 164: deliver (redundancy)
//! runt (class)
//! ```
//!
//! - [`PacketFormat`], the formats.
//! - [`append_comment`], the text of a line.
#![tactic(auto)]

mod comment;
mod format;
mod words;
mod writer;

pub use comment::append_comment;
pub use format::PacketFormat;
pub use writer::{PacketFault, PacketWriter, head_of};
