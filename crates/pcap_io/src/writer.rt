//! The other direction of a reader: what is written here, a reader reads back.
ghost use Rattle.std.specs.Prelude.{◌≡◌, ◌+◌, ◌<◌, ◌≤◌, ◌^◌, ◌++◌, true, false, length, Err, IsOk, IfOk, IfErr, OnOk, OnErr};
ghost use Rattle.pcap_io.specs.Device.{Writes};
ghost use Rattle.pcap_io.specs.Capture.{capture_header, packet_header, packet_text};

use crate::device::{DeviceFault, OutSink};
use crate::layout::FILE_HEADER_LEN;
use crate::packet_header::PACKET_HEADER_LEN;
use crate::transfer::write_all;
use afdx_frame::{LentFrame, TapFrame};
use byteorder::{ByteOrder, LittleEndian};
use std::alloc::AllocError;
use thiserror::Error;

/// Why a packet wasn't written.
#[derive(Clone, Copy, Debug, PartialEq, Eq, Error)]
pub enum WriteFault {
    /// The sink failed. It took a prefix of the packet.
    #[error("the device failed")]
    Device,
    /// The writer had failed before.
    #[error("the writer has failed before")]
    Failed,
}

/// The file header of a capture.
const HEADER: [u8; FILE_HEADER_LEN] = [
    0x4d, 0x3c, 0xb2, 0xa1, 2, 0, 4, 0, 0, 0, 0, 0, 0, 0, 0, 0, 0, 0, 4, 0, 1, 0, 0, 0,
];

/// The file header of a capture: nanoseconds, little-endian, version 2.4, a snapshot length of 262144 bytes,
/// Ethernet.
#[tactic(auto, unfolding(crate::specs::Capture::capture_header))]
pub fn capture_header() -> [u8; FILE_HEADER_LEN]
    ensures { result ≡ capture_header }
{
    HEADER
}

/// The header of a frame's packet.
#[inline]
fn packet_header(frame: &LentFrame<'_>, keep: u32) -> [u8; PACKET_HEADER_LEN]
    ensures { result ≡ packet_header frame.now keep }
{
    let stamp = frame.stamp().0;
    let mut header = [0u8; PACKET_HEADER_LEN];
    LittleEndian::write_u32(&mut header, (stamp / 1_000_000_000) as u32);
    LittleEndian::write_u32(&mut header[4..], (stamp % 1_000_000_000) as u32);
    LittleEndian::write_u32(&mut header[8..], keep);
    LittleEndian::write_u32(&mut header[12..], frame.whole());
    header
}

/// Appends both slices, or neither.
#[inline(always)]
fn append_both(bytes: &mut Vec<u8>, first: &[u8], second: &[u8]) -> Result<(), AllocError>
    requires { length first.now + length second.now < 2 ^ 63 }
    ensures both { OnOk result (bytes.new.items ≡ bytes.old.items ++ (first.now ++ second.now)) }
    ensures memory { OnErr result (bytes.new.items ≡ bytes.old.items) }
{
    bytes.reserve(first.len() + second.len())?;
    bytes.extend_from_slice(first).unwrap();
    bytes.extend_from_slice(second).unwrap();
    Ok(())
}

/// Appends a frame's packet: the header, and then the first `keep` of its bytes. What
/// [`put`](CaptureWriter::put) writes.
///
/// # Errors
///
/// There is no memory for the packet. The bytes are as they were.
#[inline]
pub fn append_packet(
    bytes: &mut Vec<u8>,
    frame: &LentFrame<'_>,
    keep: u32,
) -> Result<(), AllocError>
    requires { keep ≤ length frame.now.bytes }
    ensures packet { OnOk result (bytes.new.items
        ≡ bytes.old.items ++ packet_text frame.now keep) }
    ensures memory { OnErr result (bytes.new.items ≡ bytes.old.items) }
{
    let captured = frame.view().bytes();
    append_both(
        bytes,
        &packet_header(frame, keep),
        &captured[..keep as usize],
    )
}

/// Appends the file header of a capture.
///
/// # Errors
///
/// There is no memory for it. The bytes are as they were.
#[tactic(auto, unfolding(crate::specs::Capture::capture_header))]
pub fn append_header(bytes: &mut Vec<u8>) -> Result<(), AllocError>
    ensures header { OnOk result (bytes.new.items ≡ bytes.old.items ++ capture_header) }
    ensures memory { OnErr result (bytes.new.items ≡ bytes.old.items) }
{
    bytes.extend_from_slice(&HEADER)
}

/// Writes a frame's packet: the header, and then the first `keep` of its bytes.
#[inline]
fn write_packet<W: OutSink>(
    sink: &mut W,
    frame: &LentFrame<'_>,
    keep: u32,
) -> Result<(), DeviceFault>
    requires { keep ≤ length frame.now.bytes }
    ensures { Writes result (W.contents sink.old) (W.contents sink.new)
        (W.failures sink.old) (W.failures sink.new)
        (packet_text frame.now keep) }
{
    write_all(sink, &packet_header(frame, keep))?;
    let bytes = frame.view().bytes();
    write_all(sink, &bytes[..keep as usize])
}

/// Writes a capture to a sink that it holds: a file header, and then packets.
#[derive(Drop)]
pub struct CaptureWriter<W> {
    sink: W,
    failed: bool,
}

impl<W: OutSink> CaptureWriter<W> {
    ghost use Rattle.pcap_io.specs.declared.writer.WriteFault.TheVariants.{Device, Failed};
    ghost use Rattle.pcap_io.specs.Writer.{sink_of, has_failed, sink_after};

    /// Writes the file header. An `Err` gives the sink back, which failed after a prefix of it.
    #[tactic(auto, unfolding(crate::specs::Capture::capture_header))]
    pub fn begin(sink: W) -> Result<CaptureWriter<W>, W>
        ensures written { Writes result (W.contents sink) (W.contents (sink_after result))
            (W.failures sink) (W.failures (sink_after result)) capture_header }
        ensures going { IfOk result (λ w. has_failed w ≡ false) }
    {
        CaptureWriter::begin_with(sink, &HEADER)
    }

    /// Writes what a capture begins with in some format. An `Err` gives the sink back, which failed after a
    /// prefix of it.
    pub fn begin_with(sink: W, head: &[u8]) -> Result<CaptureWriter<W>, W>
        ensures written { Writes result (W.contents sink) (W.contents (sink_after result))
            (W.failures sink) (W.failures (sink_after result)) head.now }
        ensures going { IfOk result (λ w. has_failed w ≡ false) }
    {
        let mut sink = sink;
        match write_all(&mut sink, head) {
            Ok(()) => Ok(CaptureWriter {
                sink,
                failed: false,
            }),
            Err(DeviceFault) => Err(sink),
        }
    }

    /// Writes the packet of a frame, with the first `keep` of its bytes. After a fault each later
    /// call returns `Failed` and writes nothing.
    #[inline]
    pub fn put(&mut self, frame: &TapFrame, keep: u32) -> Result<(), WriteFault>
        requires { keep ≤ length frame.now.bytes }
        ensures written { has_failed self.old ≡ false → Writes result
            (W.contents (sink_of self.old)) (W.contents (sink_of self.new))
            (W.failures (sink_of self.old)) (W.failures (sink_of self.new))
            (packet_text frame.now keep) }
        ensures fault { has_failed self.old ≡ false → IfErr result (λ f. f ≡ Device) }
        ensures failed { has_failed self.old ≡ true
            → (result ≡ Err Failed) × (self.new ≡ self.old) }
        ensures going { OnOk result
            ((has_failed self.old ≡ false) × (has_failed self.new ≡ false)) }
        ensures after_fault { OnErr result (has_failed self.new ≡ true) }
    {
        self.put_lent(&frame.lent(), keep)
    }

    /// As `put`, of a frame whose bytes are borrowed.
    #[inline]
    pub fn put_lent(&mut self, frame: &LentFrame<'_>, keep: u32) -> Result<(), WriteFault>
        requires { keep ≤ length frame.now.bytes }
        ensures written { has_failed self.old ≡ false → Writes result
            (W.contents (sink_of self.old)) (W.contents (sink_of self.new))
            (W.failures (sink_of self.old)) (W.failures (sink_of self.new))
            (packet_text frame.now keep) }
        ensures fault { has_failed self.old ≡ false → IfErr result (λ f. f ≡ Device) }
        ensures failed { has_failed self.old ≡ true
            → (result ≡ Err Failed) × (self.new ≡ self.old) }
        ensures going { OnOk result
            ((has_failed self.old ≡ false) × (has_failed self.new ≡ false)) }
        ensures after_fault { OnErr result (has_failed self.new ≡ true) }
    {
        if self.failed {
            return Err(WriteFault::Failed);
        }
        let written = write_packet(&mut self.sink, frame, keep);
        self.note(written)
    }

    /// Notes a fault of the sink.
    #[inline(always)]
    fn note(&mut self, written: Result<(), DeviceFault>) -> Result<(), WriteFault>
        ensures sink { sink_of self.new ≡ sink_of self.old }
        ensures ok { OnOk written ((IsOk result) × (has_failed self.new ≡ has_failed self.old)) }
        ensures fault { OnErr written ((result ≡ Err Device) × (has_failed self.new ≡ true)) }
    {
        match written {
            Ok(()) => Ok(()),
            Err(DeviceFault) => {
                self.failed = true;
                Err(WriteFault::Device)
            }
        }
    }

    /// Writes packets that were made in memory, as by [`append_packet`], in one go where the sink takes them
    /// so. After a fault each later call returns `Failed` and writes nothing.
    pub fn put_packets(&mut self, packets: &[u8]) -> Result<(), WriteFault>
        ensures written { has_failed self.old ≡ false → Writes result
            (W.contents (sink_of self.old)) (W.contents (sink_of self.new))
            (W.failures (sink_of self.old)) (W.failures (sink_of self.new))
            packets.now }
        ensures fault { has_failed self.old ≡ false → IfErr result (λ f. f ≡ Device) }
        ensures failed { has_failed self.old ≡ true
            → (result ≡ Err Failed) × (self.new ≡ self.old) }
        ensures going { OnOk result
            ((has_failed self.old ≡ false) × (has_failed self.new ≡ false)) }
        ensures after_fault { OnErr result (has_failed self.new ≡ true) }
    {
        if self.failed {
            return Err(WriteFault::Failed);
        }
        let written = write_all(&mut self.sink, packets);
        self.note(written)
    }

    /// The sink. Nothing more is written.
    pub fn finish(self) -> W
        ensures { result ≡ sink_of self }
    {
        self.sink
    }
}
