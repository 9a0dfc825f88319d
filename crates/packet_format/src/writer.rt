//! The writer, and why a packet isn't written.
ghost use Rattle.std.specs.Prelude.{◌≡◌, ◌≤◌, false, length, IfErr, IfOk, OnErr, OnOk};
ghost use Rattle.std.specs.Option.{option_map};
ghost use Rattle.packet_format.specs.Packets.{format_of, head_by, packet_by};
ghost use Rattle.packet_format.specs.Writer.{HoldsHead, IsPcapng};
ghost use Rattle.pcap_io.specs.Device.{Writes};
ghost use Rattle.pcap_io.specs.Writer.{has_failed as output_failed, sink_after as output_after};

use crate::PacketFormat;
use afdx_frame::LentFrame;
use ledger_text::FrameLine;
use pcap_io::{CaptureWriter, OutSink};
use std::alloc::{AllocError, Global};

/// Why a packet wasn't written.
#[derive(Clone, Copy, Debug, PartialEq, Eq)]
pub enum PacketFault {
    /// The sink failed. It took a prefix of the packet.
    Device,
    /// There is no memory for the packet. Nothing of it was written.
    Memory,
}

/// Makes what a pcapng file begins with. For a pcap file nothing is made, and no memory is needed.
///
/// # Errors
///
/// There is no memory for it.
pub fn head_of(alloc: Global, format: PacketFormat<'_>) -> Result<Vec<u8>, AllocError>
    ensures head { IfOk result (λ head. HoldsHead (format_of format.entry) head.items) }
    ensures memory { OnErr result (IsPcapng (format_of format.entry)) }
{
    let mut head = Vec::new(alloc);
    match format {
        PacketFormat::Pcap => Ok(head),
        PacketFormat::Pcapng { .. } => {
            format.append_head(&mut head)?;
            Ok(head)
        }
    }
}

/// Writes what a capture in the format begins with, of which that of a pcapng file is given.
fn write_head<W: OutSink>(
    format: PacketFormat<'_>,
    head: &[u8],
    sink: W,
) -> Result<CaptureWriter<W>, W>
    requires { HoldsHead (format_of format) head.now }
    ensures written { Writes result (W.contents sink) (W.contents (output_after result))
        (W.failures sink) (W.failures (output_after result)) (head_by (format_of format.entry)) }
    ensures going { IfOk result (λ output. output_failed output ≡ false) }
{
    match format {
        PacketFormat::Pcap => CaptureWriter::begin(sink),
        PacketFormat::Pcapng { .. } => CaptureWriter::begin_with(sink, head),
    }
}

/// Writes a capture in one format to a sink that it holds. A packet is written in one go where the sink
/// takes it so.
#[derive(Drop)]
pub struct PacketWriter<'a, W> {
    output: CaptureWriter<W>,
    format: PacketFormat<'a>,
    /// Memory for a packet, and for its comment.
    packet: Vec<u8>,
    text: Vec<u8>,
}

impl<'a, W: OutSink> PacketWriter<'a, W> {
    ghost use Rattle.packet_format.specs.Writer.{LeavesOutput, Puts};
    ghost use Rattle.packet_format.specs.Writer.{format_in, has_failed, sink_after, sink_of};

    /// Writes what a capture in the format begins with, which [`head_of`] made. An `Err` gives the sink back,
    /// which failed after a prefix of it.
    pub fn begin(
        alloc: Global,
        format: PacketFormat<'a>,
        head: Vec<u8>,
        sink: W,
    ) -> Result<PacketWriter<'a, W>, W>
        requires { HoldsHead (format_of format) head.items }
        ensures written { Writes result (W.contents sink) (W.contents (sink_after result))
            (W.failures sink) (W.failures (sink_after result)) (head_by (format_of format.entry)) }
        ensures going { IfOk result (λ writer. has_failed writer ≡ false) }
        ensures format { IfOk result (λ writer. format_in writer ≡ format_of format.entry) }
    {
        match write_head(format, &head, sink) {
            Ok(output) => Ok(PacketWriter {
                output,
                format,
                packet: head,
                text: Vec::new(alloc),
            }),
            Err(sink) => Err(sink),
        }
    }

    /// Writes the packet of a frame, with the first `keep` of its bytes. In a pcapng file it has the verdict
    /// of the frame's line as its comment, where a line is given.
    ///
    /// # Errors
    ///
    /// `Device`, after which no more packets are taken. `Memory` only in a pcapng file: a pcap file's packet
    /// is written in two parts where there is none.
    #[inline]
    pub fn put(
        &mut self,
        frame: &LentFrame<'_>,
        keep: u32,
        line: Option<&FrameLine>,
    ) -> Result<(), PacketFault>
        requires within { keep ≤ length frame.now.bytes }
        requires going { has_failed self.old ≡ false }
        ensures written { Puts (format_in self.old) result
            (W.contents (sink_of self.old)) (W.contents (sink_of self.new))
            (W.failures (sink_of self.old)) (W.failures (sink_of self.new))
            (packet_by (format_in self.old) frame.now keep
            (option_map (λ l. l.now) line.entry)) }
        ensures format { format_in self.new ≡ format_in self.old }
        ensures going { OnOk result (has_failed self.new ≡ false) }
        ensures after_fault { IfErr result (λ fault. LeavesOutput fault self.old.output self.new.output) }
    {
        self.packet.clear();
        match self
            .format
            .append_packet(&mut self.packet, &mut self.text, frame, keep, line)
        {
            Ok(()) => match self.output.put_packets(&self.packet) {
                Ok(()) => Ok(()),
                Err(_) => Err(PacketFault::Device),
            },
            Err(AllocError) => self.put_unmade(frame, keep, line),
        }
    }

    /// Writes a packet that there is no memory to make, in two parts. That of a pcapng file isn't written.
    #[cold]
    #[inline(never)]
    fn put_unmade(
        &mut self,
        frame: &LentFrame<'_>,
        keep: u32,
        line: Option<&FrameLine>,
    ) -> Result<(), PacketFault>
        requires within { keep ≤ length frame.now.bytes }
        requires going { has_failed self.old ≡ false }
        ensures written { Puts (format_in self.old) result
            (W.contents (sink_of self.old)) (W.contents (sink_of self.new))
            (W.failures (sink_of self.old)) (W.failures (sink_of self.new))
            (packet_by (format_in self.old) frame.now keep
            (option_map (λ l. l.now) line.entry)) }
        ensures format { format_in self.new ≡ format_in self.old }
        ensures going { OnOk result (has_failed self.new ≡ false) }
        ensures after_fault { IfErr result (λ fault. LeavesOutput fault self.old.output self.new.output) }
    {
        match self.format {
            PacketFormat::Pcap => match self.output.put_lent(frame, keep) {
                Ok(()) => Ok(()),
                Err(_) => Err(PacketFault::Device),
            },
            PacketFormat::Pcapng { .. } => Err(PacketFault::Memory),
        }
    }

    /// The sink. Nothing more is written.
    pub fn finish(self) -> W
        ensures { result ≡ sink_of self.entry }
    {
        self.output.finish()
    }
}
