//! Recordings in the pcapng format (draft-ietf-opsawg-pcapng, version 1.0), read as pcap.
//!
//! A [`RecordingSource`] stands on another source, and gives the bytes of the nanosecond pcap that its
//! recording stands for. So a `TapReader` reads recordings of either format:
//!
//! ```
//! let file = ReadSource::new(File::open(path)?);
//! let Ok(source) = RecordingSource::new(alloc, file, Choice::Any) else { return };
//! let Ok(reader) = TapReader::open(source, Network::A, 1 << 32, 0) else { return };
//! ```
//!
//! A recording of any other format is handed on as it is. What pcap can't say of a pcapng recording, the
//! source tells at the end ([`Told`](pcap_io::Told)): the reader then names the fault or the reason.
//!
//! What the source gives is stated and proved for every recording: the pcap that a pcapng file stands for,
//! block by block, and the bytes themselves of any other. By a law a reader of pcap reads the file's packets.
#![tactic(auto)]

mod block;
mod choice;
mod comment;
mod converter;
mod head;
mod interface;
mod interfaces;
mod laws;
mod options;
mod packet;
mod parts;
mod read_back;
mod section;
mod source;
mod text;
mod written;

pub use block::{
    BlockKind, BlockStart, MAX_BLOCK_LEN, SECTION_HEADER, START_LEN, check_interface_end,
};
pub use choice::{Choice, InterfaceName, MAX_NAME_LEN};
pub use comment::{Comment, MAX_COMMENT_LEN};
pub use head::append_head;
pub use interface::{Interface, Offset, Resolution};
pub use interfaces::Interfaces;
pub use laws::{block_is_read_first, bounds_are_documented, file_is_read, header_fault_is_told};
pub use packet::append_packet;
pub use read_back::{written_capture_is_given, written_capture_is_read};
pub use section::{MAX_INTERFACES, Met};
pub use source::{RecordingSource, Refused};
pub use text::packet_header;
pub use written::{capture_is_stepped_over, packet_reads_back};
