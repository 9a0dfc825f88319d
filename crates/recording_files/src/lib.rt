//! Recordings in several files, read as one.
//!
//! A recorder that begins a new file every so often leaves a recording in several files. A
//! [`JoinedSource`] takes them from a [`FileSupply`], one after another, and gives the bytes of the
//! nanosecond pcap that they stand for together. So a `TapReader` reads them as one recording:
//!
//! ```
//! let Ok(reader) = TapReader::open(JoinedSource::new(alloc, files), Network::A, 1 << 32, 0) else {
//!     return
//! };
//! ```
//!
//! Each file is a source of pcap bytes of any layout that `pcap_io` reads, as a `RecordingSource`
//! of `pcapng` makes them of pcapng too. A file that ends clean is followed by the next one. One that
//! ends in another way ends the recording, and the source tells the reader how ([`Told`](pcap_io::Told)).
//!
//! What the source gives is stated and proved for files whose bytes are exposed. By laws a reader
//! reads the packets of one file after another ([`files_are_read`]), ends as the last one does
//! ([`last_file_is_read`]), and of one file reads what it holds alone ([`one_file_is_read`]).
#![tactic(auto)]

mod files;
mod input;
mod joined;
mod laws;
mod pending;
mod run;
mod stage;
mod supply;

pub use files::RecordingFiles;
pub use joined::JoinedSource;
pub use laws::{files_are_read, first_fault_is_told, last_file_is_read, one_file_is_read};
pub use supply::{FileSupply, ReadFile};
