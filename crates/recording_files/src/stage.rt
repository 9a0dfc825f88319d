//! How far the files of a recording were read.
ghost use Rattle.std.specs.Prelude.{◌≤◌};
ghost use Rattle.afdx_frame.specs.declared.bounds.TheConstants.{MAX_SNAPLEN};

use pcap_io::{Layout, PacketHeader, Told};

/// Which of the files.
#[derive(Clone, Copy)]
pub enum WhichFile {
    First,
    /// One after it.
    Next,
}

/// A packet of which the header was read.
#[derive(Clone, Copy)]
pub struct Packet {
    pub layout: Layout,
    /// The header that is given for it.
    pub header: PacketHeader,
    ghost bounded: { header.captured_len ≤ MAX_SNAPLEN },
}

/// The stages of the files, by what comes next.
#[derive(Clone, Copy)]
pub enum FilesStage {
    /// A file.
    File(WhichFile),
    /// The file header of the file that was opened last.
    FileHeader(WhichFile),
    /// A packet's header, in this layout.
    Header(Layout),
    /// The bytes of a packet.
    Body(Packet),
    /// The bytes of a packet that were read, from this one on, are given. None: its file is
    /// truncated there.
    Given(Option<Layout>, usize),
    /// Nothing, and this is told.
    Ended(Told),
}
