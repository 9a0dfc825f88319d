//! The file that is read.
ghost use Rattle.std.specs.Prelude.{◌≡◌, ◌≤◌, ◌<◌, ◌==◌, if◌then◌else◌, true, false, [], length, IfOk, OnOk, OnErr};
ghost use Rattle.std.specs.Io.KnownBytes.{Consumes, IsAtEnd, Keeps};
ghost use Rattle.afdx_frame.specs.declared.bounds.TheConstants.{MAX_SNAPLEN};
ghost use Rattle.pcap_io.specs.Layout.{fractions_of};
ghost use Rattle.pcap_io.specs.Told.{StaysTold, Tells, told_ending};
ghost use Rattle.pcap_io.specs.declared.recording.Ending.TheVariants.{Cut};
ghost use Rattle.recording_files.specs.Given.{given_header};
ghost use Rattle.recording_files.specs.Input.{ReadsHeader, ReadsStart, IsOver, drawn_of, file_of, left_of, tells_of};

use crate::stage::Packet;
use pcap_io::{
    BlockSource, DeviceFault, Ending, FILE_HEADER_LEN, HeaderFault, Layout, PACKET_HEADER_LEN,
    PacketHeader, TapSource, Told, layout_of,
};
use std::alloc::Global;

/// The bytes that were drawn last of the file that is read.
#[inline]
pub fn drawn<F: TapSource>(input: &Option<BlockSource<F>>) -> &[u8]
    ensures { result.now ≡ drawn_of input.now }
{
    match input {
        Some(input) => input.drawn(),
        None => &[],
    }
}

/// The file that is read. What was read ahead is lost.
pub fn into_file<F: TapSource>(input: Option<BlockSource<F>>) -> Option<F>
    ensures { result ≡ file_of input }
{
    let Some(input) = input else {
        return None;
    };
    Some(input.into_source())
}

/// Draws the next `len` bytes of the file that is read. False: fewer were left, and they are drawn.
#[inline]
pub fn draw<F: TapSource>(
    alloc: Global,
    input: &mut Option<BlockSource<F>>,
    len: usize,
) -> Result<bool, DeviceFault>
    requires { len ≤ MAX_SNAPLEN }
    ensures bytes { OnOk result (Consumes (left_of F.remaining input.old)
        (left_of F.remaining input.new) (drawn_of input.new)) }
    ensures complete { IfOk result (λ all. all ≡ true → length (drawn_of input.new) ≡ len) }
    ensures short { IfOk result (λ all. all ≡ false → (length (drawn_of input.new) < len)
        × IsAtEnd (left_of F.remaining input.new)) }
    ensures over { IfOk result (λ all. all ≡ false → IsOver F.is_over input.new) }
    ensures told { StaysTold (left_of F.remaining input.old)
        (tells_of F.told input.old) (tells_of F.told input.new) }
    ensures kept { OnErr result (Keeps (left_of F.remaining input.old)
        (left_of F.remaining input.new)) }
{
    let Some(input) = input else {
        return Ok(len == 0);
    };
    match input.draw(alloc, len) {
        Ok(all) => Ok(all),
        Err(_) => Err(DeviceFault),
    }
}

/// The word at its end of the file that is read.
fn told_by<F: TapSource>(input: &Option<BlockSource<F>>) -> Told
    ensures { IsOver F.is_over input.now
        → Tells (left_of F.remaining input.now) result (tells_of F.told input.now) }
{
    match input {
        Some(input) => input.source().told(),
        None => Told::Nothing,
    }
}

/// Reads the header of the file.
pub fn read_file_header<F: TapSource>(
    alloc: Global,
    input: &mut Option<BlockSource<F>>,
) -> Result<Result<Layout, HeaderFault>, DeviceFault>
    ensures read { IfOk result (ReadsHeader (tells_of F.told input.old)
        (left_of F.remaining input.old) (left_of F.remaining input.new)) }
    ensures told { StaysTold (left_of F.remaining input.old)
        (tells_of F.told input.old) (tells_of F.told input.new) }
    ensures kept { OnErr result (Keeps (left_of F.remaining input.old)
        (left_of F.remaining input.new)) }
{
    if !draw(alloc, input, FILE_HEADER_LEN)? {
        return Ok(Err(told_by(input).fault()));
    }
    Ok(layout_of(drawn(input)))
}

/// The header that is given for a packet's: its time in nanoseconds, and a length on the wire of no
/// less than its bytes.
#[inline]
fn given_header(layout: Layout, header: &PacketHeader) -> PacketHeader
    requires { header.now.fraction < fractions_of layout.precision }
    ensures { result ≡ given_header layout header.now }
{
    let stamp = header.stamp(layout);
    PacketHeader {
        seconds: (stamp / 1_000_000_000) as u32,
        fraction: (stamp % 1_000_000_000) as u32,
        captured_len: header.captured_len,
        original_len: header.original_len.max(header.captured_len),
    }
}

/// How a file ends that has fewer bytes left than a packet's header, and tells this.
fn ending_in(bytes: &[u8], told: Told) -> Ending
    ensures { result ≡ if length bytes.now == 0 then told_ending told 1 0 else Cut 0 }
{
    if bytes.is_empty() {
        told.ending(0, 1)
    } else {
        Ending::Cut(0)
    }
}

/// Reads the header of the next packet, or finds how the file ends. Times may come in any order: who
/// reads what is given judges them.
#[inline]
pub fn read_header<F: TapSource>(
    alloc: Global,
    layout: Layout,
    input: &mut Option<BlockSource<F>>,
) -> Result<Result<Packet, Ending>, DeviceFault>
    ensures read { IfOk result (ReadsStart layout (tells_of F.told input.old)
        (left_of F.remaining input.old) (left_of F.remaining input.new)) }
    ensures told { StaysTold (left_of F.remaining input.old)
        (tells_of F.told input.old) (tells_of F.told input.new) }
    ensures kept { OnErr result (Keeps (left_of F.remaining input.old)
        (left_of F.remaining input.new)) }
{
    if !draw(alloc, input, PACKET_HEADER_LEN)? {
        return Ok(Err(ending_in(drawn(input), told_by(input))));
    }
    let header = PacketHeader::read(layout, drawn(input));
    match header.reason(layout, 0, 0) {
        Some(reason) => Ok(Err(Ending::Bad(0, reason))),
        None => Ok(Ok(Packet {
            layout,
            header: given_header(layout, &header),
        })),
    }
}
