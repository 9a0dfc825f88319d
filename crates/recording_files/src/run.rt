//! Packets that are given as they stand in their file.
ghost use Rattle.std.specs.Prelude.{◌≡◌, ◌≤◌, [], length, take, true, false, IfSome, IsTrue};
ghost use Rattle.pcap_io.specs.declared.layout.Layout.{Layout};
ghost use Rattle.std.specs.Io.KnownBytes.{Consumes, Keeps};
ghost use Rattle.afdx_frame.specs.declared.bounds.TheConstants.{MAX_SNAPLEN};
ghost use Rattle.pcap_io.specs.Block.{block_remaining, block_source, unread_bytes};
ghost use Rattle.pcap_io.specs.Told.{StaysTold};
ghost use Rattle.recording_files.specs.Input.{left_of, tells_of};
ghost use Rattle.recording_files.specs.Run.{BeginsPassed, IsGivenLayout, IsRun};

use crate::pending::copy_some;
use afdx_frame::MAX_SNAPLEN;
use pcap_io::{
    BlockSource, ByteOrder, Layout, PACKET_HEADER_LEN, PacketHeader, Precision, TapSource,
};
use std::alloc::Global;

/// Whole packets that are given as they stand, one after another.
#[derive(Clone, Copy)]
pub struct Run {
    /// How many bytes they have.
    pub len: usize,
    /// How many packets they are.
    pub frames: u64,
    /// Their greatest timestamp, in nanoseconds. 0: there is none.
    pub greatest: u64,
}

impl Run {
    /// No packet.
    #[inline(always)]
    fn nothing() -> Run
        ensures len { result.len ≡ 0 }
        ensures packets { (layout : Layout) → IsRun layout [] result.frames result.greatest }
    {
        Run {
            len: 0,
            frames: 0,
            greatest: 0,
        }
    }
}

/// True if a packet of this layout may be given as it stands: the layout has the byte order of what is
/// given, and counts nanoseconds.
#[inline(always)]
pub fn is_given_layout(layout: Layout) -> bool
    ensures { IsTrue result → IsGivenLayout layout }
{
    match (layout.order, layout.precision) {
        (ByteOrder::Little, Precision::Nanoseconds) => true,
        _ => false,
    }
}

/// The length and the timestamp of the packet that the bytes begin with, where it is whole, nothing is
/// wrong with it, and its length on the wire is no less than that of its bytes.
#[inline(always)]
fn first_packet(layout: Layout, bytes: &[u8]) -> Option<(usize, u64)>
    ensures { IfSome result (λ p. BeginsPassed layout bytes.now p.0 p.1) }
{
    if bytes.len() < PACKET_HEADER_LEN {
        return None;
    }
    let header = PacketHeader::read(layout, &bytes[..PACKET_HEADER_LEN]);
    let captured = header.captured_len as usize;
    if captured > bytes.len() - PACKET_HEADER_LEN || header.captured_len > header.original_len {
        return None;
    }
    match header.reason(layout, 0, 0) {
        Some(_) => None,
        None => Some((PACKET_HEADER_LEN + captured, header.stamp(layout))),
    }
}

/// The packets that the bytes begin with, up to the first that can't be given as it stands.
#[inline]
pub fn run_of(layout: Layout, bytes: &[u8]) -> Run
    ensures within { result.len ≤ length bytes.now }
    ensures packets { IsRun layout (take result.len bytes.now) result.frames result.greatest }
{
    let (mut len, mut frames, mut greatest) = (0usize, 0u64, 0u64);
    while len < bytes.len() {
        let Some((packet, stamp)) = first_packet(layout, &bytes[len..]) else {
            break;
        };
        len += packet;
        frames += 1;
        greatest = greatest.max(stamp);
    }
    Run {
        len,
        frames,
        greatest,
    }
}

/// Draws bytes that were read ahead. False: they aren't drawn.
#[inline]
fn draw_ahead<F: TapSource>(alloc: Global, input: &mut BlockSource<F>, len: usize) -> bool
    requires few { len ≤ MAX_SNAPLEN }
    requires ahead { len ≤ length (unread_bytes input.old) }
    ensures drawn { result ≡ true → Consumes (block_remaining F.remaining input.old)
        (block_remaining F.remaining input.new) (take len (unread_bytes input.old)) }
    ensures kept { result ≡ false → Keeps (block_remaining F.remaining input.old)
        (block_remaining F.remaining input.new) }
    ensures told { StaysTold (block_remaining F.remaining input.old)
        (F.told (block_source input.old)) (F.told (block_source input.new)) }
{
    match input.draw(alloc, len) {
        Ok(all) => all,
        Err(_) => false,
    }
}

/// Moves the packets that were read ahead whole into the buffer, as many as fit, up to the first that
/// can't be given as it stands. It reads nothing of a device, and allocates nothing.
#[inline]
pub fn move_run<F: TapSource>(
    alloc: Global,
    layout: Layout,
    input: &mut Option<BlockSource<F>>,
    buf: &mut [u8],
) -> Run
    ensures within { result.len ≤ length buf.new }
    ensures bytes { Consumes (left_of F.remaining input.old)
        (left_of F.remaining input.new) (take result.len buf.new) }
    ensures told { StaysTold (left_of F.remaining input.old)
        (tells_of F.told input.old) (tells_of F.told input.new) }
    ensures packets { IsRun layout (take result.len buf.new) result.frames result.greatest }
{
    let Some(input) = input else {
        return Run::nothing();
    };
    let unread = input.unread();
    let len = unread.len().min(buf.len()).min(MAX_SNAPLEN);
    let run = run_of(layout, &unread[..len]);
    let _ = copy_some(buf, &unread[..run.len]);
    if draw_ahead(alloc, input, run.len) {
        run
    } else {
        // This doesn't come, as bytes that were read ahead are drawn without a device.
        Run::nothing()
    }
}
