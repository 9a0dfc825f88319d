//! One tap, one filter, a capture.
ghost use Rattle.std.specs.Prelude.{◌≡◌, ◌≤◌, None, Some, IfOk, IfErr, IfSome, IsSome, OnOk, false};
ghost use Rattle.packet_format.specs.Packets.{format_of};
ghost use Rattle.packet_format.specs.Writer.{format_in, has_failed, sink_of};
ghost use Rattle.pcap_io.specs.Reader.{position_of, reading_of, unread_of};
ghost use Rattle.pcap_io.specs.declared.recording.Stage.TheVariants.{Going};
ghost use Rattle.capture_run.specs.OneCapture.{IsAbortedBy, IsCapturedBy};
ghost use Rattle.run_fault.specs.Device.{devices_of};
ghost use Rattle.run_fault.specs.Fault.{open_fault};
ghost use Rattle.capture_run.specs.Copy.{IsCopied, StopsCopy, WritesAccepted, copying_of};

use afdx_frame::{LentFrame, Network};
use bpf_loader::Program;
use filter_workers::answer_for;
use packet_format::{PacketFault, PacketFormat, PacketWriter, head_of};
use pcap_io::{Ending, Found, OpenFault, OpenRefused, OutSink, ReadFault, TapReader, TapSource};
use run_fault::{CAPTURE_FAILED, MAX_FRAMES, Output, WatchFault, WatchRefused, fault_of_open};
use std::alloc::{AllocError, Global};

/// Writes the frame's packet, if the filter accepts the frame.
#[inline]
fn write_accepted<W: OutSink>(
    program: &Program,
    frame: &LentFrame<'_>,
    writer: &mut PacketWriter<'_, W>,
) -> Result<(), WatchFault>
    requires { has_failed writer.old ≡ false }
    ensures written { WritesAccepted (format_in writer.old) program.now frame.now result
        (W.contents (sink_of writer.old)) (W.contents (sink_of writer.new))
        (W.failures (sink_of writer.old)) (W.failures (sink_of writer.new)) }
    ensures format { format_in writer.new ≡ format_in writer.old }
    ensures going { OnOk result (has_failed writer.new ≡ false) }
{
    let answer = answer_for(program, &frame.view(), frame.whole());
    if answer == 0 {
        return Ok(());
    }
    let keep = answer.min(frame.view().bytes().len() as u32);
    match writer.put(frame, keep, None) {
        Ok(()) => Ok(()),
        Err(PacketFault::Device) => Err(WatchFault::Write {
            output: Output::Capture,
        }),
        Err(PacketFault::Memory) => Err(WatchFault::Memory),
    }
}

/// Copies what is left of a recording, up to its ending.
fn copy_accepted<S: TapSource, W: OutSink>(
    alloc: Global,
    program: &Program,
    reader: &mut TapReader<S>,
    writer: &mut PacketWriter<'_, W>,
) -> Result<Ending, WatchFault>
    requires reading { (position_of reader.old).stage ≡ Going }
    requires bounded { (position_of reader.old).count ≤ (position_of reader.old).most }
    requires writing { has_failed writer.old ≡ false }
    ensures copied { IfOk result (λ ending. IsCopied (format_in writer.old) program.now ending
        (copying_of (reading_of S.remaining S.failures S.told reader.old) (unread_of reader.old)
        (W.contents (sink_of writer.old)) (W.failures (sink_of writer.old)))
        (copying_of (reading_of S.remaining S.failures S.told reader.new) (unread_of reader.new)
        (W.contents (sink_of writer.new)) (W.failures (sink_of writer.new)))) }
    ensures stopped { IfErr result (λ fault. StopsCopy (format_in writer.old) program.now fault
        (copying_of (reading_of S.remaining S.failures S.told reader.old) (unread_of reader.old)
        (W.contents (sink_of writer.old)) (W.failures (sink_of writer.old)))
        (copying_of (reading_of S.remaining S.failures S.told reader.new) (unread_of reader.new)
        (W.contents (sink_of writer.new)) (W.failures (sink_of writer.new)))) }
{
    loop {
        match reader.advance(alloc) {
            Ok(Found::Frame) => {
                let frame = reader.frame();
                write_accepted(program, &frame, writer)?;
            }
            Ok(Found::End(ending)) => return Ok(ending),
            Err(ReadFault::Device) => {
                return Err(WatchFault::Read {
                    network: Network::A,
                });
            }
            Err(ReadFault::Memory) => return Err(WatchFault::Memory),
            Err(ReadFault::Failed) => unreachable!(),
        }
    }
}

/// A capture that was aborted.
fn refused<S, W>(fault: WatchFault, source: S, sink: W) -> WatchRefused<S, (), W, ()>
    ensures { result ≡ record { fault = fault; a = Some source; b = None; capture = sink; ledger = tt } }
{
    WatchRefused {
        fault,
        a: Some(source),
        b: None,
        capture: sink,
        ledger: (),
    }
}

/// Copies the frames of a recording that the filter accepts, each cut to the filter's return value, into a
/// capture in a format, and returns how the recording ended.
///
/// The tap is read as network A, up to 2^32 frames, in which a timestamp may lie by `late` nanoseconds
/// below the greatest one before it. The frames stand in the capture as in the recording, and the packets
/// have no comments. Both devices come back. The source may have been read ahead of the last frame, by no
/// more than 262144 bytes.
///
/// # Errors
///
/// `Header` or `Read` if the recording can't be opened, and then nothing was written. `Read` or `Memory`
/// after some of its frames: the sink has the whole capture of them, and no frame that the source gave
/// whole is left out. `Write` if the sink failed: it has a prefix of the capture. In a pcapng file also
/// `Memory` before anything was read or written, or at an accepted frame: the sink has the whole capture of
/// the frames before that.
pub fn capture_within<S: TapSource, W: OutSink>(
    alloc: Global,
    program: &Program,
    late: u64,
    format: PacketFormat<'_>,
    source: S,
    sink: W,
) -> Result<(Ending, S, W), WatchRefused<S, (), W, ()>>
    ensures captured { IfOk result (λ done. IsCapturedBy (format_of format.entry) late program.now done.0
        (devices_of S.TapSource W.OutSink source sink)
        (devices_of S.TapSource W.OutSink done.1 done.2)) }
    ensures aborted { IfErr result (λ refused. IfSome refused.a (λ a.
        IsAbortedBy (format_of format.entry) late program.now refused.fault
        (devices_of S.TapSource W.OutSink source sink)
        (devices_of S.TapSource W.OutSink a refused.capture))) }
    ensures back { IfErr result (λ refused. IsSome refused.a × (refused.b ≡ None)) }
{
    let head = match head_of(alloc, format) {
        Ok(head) => head,
        Err(AllocError) => return Err(refused(WatchFault::Memory, source, sink)),
    };
    let mut reader = match TapReader::open(source, Network::A, MAX_FRAMES, late) {
        Ok(reader) => reader,
        Err(OpenRefused { source, fault }) => {
            return Err(refused(fault_of_open(Network::A, fault), source, sink));
        }
    };
    let mut writer = match PacketWriter::begin(alloc, format, head, sink) {
        Ok(writer) => writer,
        Err(sink) => return Err(refused(CAPTURE_FAILED, reader.into_source(), sink)),
    };
    let copied = copy_accepted(alloc, program, &mut reader, &mut writer);
    let source = reader.into_source();
    let sink = writer.finish();
    match copied {
        Ok(ending) => Ok((ending, source, sink)),
        Err(fault) => Err(refused(fault, source, sink)),
    }
}
