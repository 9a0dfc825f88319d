//! Recordings of a network tap in the pcap savefile format 2.4, read and written a frame at a time.
//!
//! A tap of an AFDX network writes its frames to a pcap file: a file header, and then one packet for
//! each frame. [`TapReader`] reads such a recording from a [`TapSource`], checks each packet, and
//! lends one frame after another out of its own block of bytes, up to the recording's [`Ending`].
//! [`CaptureWriter`] writes the frames that a filter accepts to an [`OutSink`], as a recording that
//! the reader reads back. Filters are in the crates `bpf_loader` and `bpf_machine`; the crate
//! `analyser` puts all of them together.
//!
//! ```
//! let source = ReadSource::new(File::open(path)?);
//! let Ok(mut reader) = TapReader::open(source, Network::A, 1 << 32, 0) else { return };
//! let Ok(mut writer) = CaptureWriter::begin(WriteSink::new(output)) else { return };
//! while let Found::Frame = reader.advance(alloc)? {
//!     let frame = reader.frame();
//!     let captured = frame.view().bytes().len() as u32;
//!     writer.put_lent(&frame, captured.min(96))?;
//! }
//! ```
//!
//! - [`TapReader`], with [`Found`], [`Item`], [`Batched`], [`Ending`] and [`BadReason`], and its faults
//!   [`OpenFault`] and [`ReadFault`].
//! - [`CaptureWriter`], with its [`WriteFault`].
//! - [`TapSource`] and [`OutSink`], the devices: [`ReadSource`] and [`WriteSink`] over the readers and
//!   writers of std, [`MemSource`] and [`MemSink`] over memory, which fail as a [`Script`] says. A source of
//!   another format says by [`Told`] what pcap can't.
//! - Laws: each recording parses in one way ([`every_recording_parses`], [`one_parse`]), a reader's
//!   calls give that parse ([`reading_gives_the_parse`]), they tell where another file begins
//!   ([`file_header_is_told`]), and a capture gives its frames back ([`capture_is_read`]).
#![tactic(auto)]

mod block;
mod device;
mod item;
mod laws;
mod layout;
mod mem_sink;
mod mem_source;
mod memory;
mod packet_header;
mod position;
mod read_source;
mod reader;
mod recording;
mod script;
mod told;
mod transfer;
mod write_sink;
mod writer;

pub use block::BlockSource;
pub use device::{DeviceFault, OutSink, TapSource};
pub use item::{Batched, Found, Item, ReadFault};
pub use laws::{
    capture_is_read, every_recording_parses, file_header_is_told, one_parse,
    reading_gives_the_parse,
};
pub use layout::{
    ByteOrder, FILE_HEADER_LEN, HeaderFault, Layout, Precision, layout_of, read_u16, read_u32,
};
pub use mem_sink::MemSink;
pub use mem_source::MemSource;
pub use packet_header::{MAX_PACKET_LEN, PACKET_HEADER_LEN, PacketHeader};
pub use read_source::ReadSource;
pub use reader::{OpenFault, OpenRefused, TapReader};
pub use recording::{BadReason, Ending};
pub use script::Script;
pub use told::Told;
pub use transfer::{fill, write_all};
pub use write_sink::WriteSink;
pub use writer::{CaptureWriter, WriteFault, append_header, append_packet, capture_header};
