//! The capture that a cut writes.

use crate::comment::push_comment;
use crate::fault::TransitCutFault;
use afdx_frame::LentFrame;
use pcap_io::{CaptureWriter, OutSink};
use pcapng::{Comment, Interfaces};
use std::alloc::{AllocError, Global};
use transit_ledger::TransitLine;
use vl_config::Config;

/// In which format a capture is written.
#[derive(Clone, Copy)]
pub enum TransitFormat<'a> {
    /// A pcap file, with timestamps in nanoseconds.
    Pcap,
    /// A pcapng file with the interfaces `before` and `after`, and comments with the names of links that
    /// the table has.
    Pcapng(Option<&'a Config>),
}

/// The beginning of a pcapng file: the section header, and an interface for each side, of Ethernet, a
/// snapshot length of 262144 bytes, and nanoseconds.
const HEAD: [u8; 116] = [
    0x0a, 0x0d, 0x0d, 0x0a, 28, 0, 0, 0, 0x4d, 0x3c, 0x2b, 0x1a, 1, 0, 0, 0, 255, 255, 255, 255,
    255, 255, 255, 255, 28, 0, 0, 0, 1, 0, 0, 0, 44, 0, 0, 0, 1, 0, 0, 0, 0, 0, 4, 0, 2, 0, 6, 0,
    b'b', b'e', b'f', b'o', b'r', b'e', 0, 0, 9, 0, 1, 0, 9, 0, 0, 0, 0, 0, 0, 0, 44, 0, 0, 0, 1,
    0, 0, 0, 44, 0, 0, 0, 1, 0, 0, 0, 0, 0, 4, 0, 2, 0, 5, 0, b'a', b'f', b't', b'e', b'r', 0, 0,
    0, 9, 0, 1, 0, 9, 0, 0, 0, 0, 0, 0, 0, 44, 0, 0, 0,
];

/// A capture that is being written.
#[derive(Drop)]
pub(crate) struct CutOutput<'a, W> {
    writer: CaptureWriter<W>,
    format: TransitFormat<'a>,
    /// Memory for a packet, and for its comment.
    packet: Vec<u8>,
    text: String,
}

impl<'a, W: OutSink> CutOutput<'a, W> {
    /// Writes what a capture in the format begins with. A sink that fails comes back.
    pub(crate) fn begin(
        alloc: Global,
        format: TransitFormat<'a>,
        sink: W,
    ) -> Result<CutOutput<'a, W>, W> {
        let writer = match format {
            TransitFormat::Pcap => CaptureWriter::begin(sink)?,
            TransitFormat::Pcapng(_) => CaptureWriter::begin_with(sink, &HEAD)?,
        };
        Ok(CutOutput {
            writer,
            format,
            packet: Vec::new(alloc),
            text: String::new(alloc),
        })
    }

    /// The packet of a frame, in memory.
    fn make(&mut self, frame: &LentFrame<'_>, line: &TransitLine) -> Result<(), AllocError> {
        self.packet.clear();
        let whole = frame.view().bytes().len() as u32;
        match self.format {
            TransitFormat::Pcap => pcap_io::append_packet(&mut self.packet, frame, whole),
            TransitFormat::Pcapng(names) => {
                self.text.clear();
                push_comment(&mut self.text, names, line)?;
                let comment = Comment::new(self.text.as_bytes());
                pcapng::append_packet(
                    &mut self.packet,
                    Interfaces::Networks,
                    frame,
                    whole,
                    comment,
                )
            }
        }
    }

    /// Writes a frame, with its line's words as comment.
    pub(crate) fn put(
        &mut self,
        frame: &LentFrame<'_>,
        line: &TransitLine,
    ) -> Result<(), TransitCutFault> {
        if self.make(frame, line).is_err() {
            return Err(TransitCutFault::Memory);
        }
        match self.writer.put_packets(&self.packet) {
            Ok(()) => Ok(()),
            Err(_) => Err(TransitCutFault::Write),
        }
    }

    /// The sink. Nothing more is written.
    pub(crate) fn finish(self) -> W {
        self.writer.finish()
    }
}
