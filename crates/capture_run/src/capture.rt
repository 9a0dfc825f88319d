//! The command `capture`: the frames of a recording that a filter accepts are copied.
ghost use Rattle.run_fault.specs.Device.{devices_of};
ghost use Rattle.packet_format.specs.Packets.{format_of};
ghost use Rattle.capture_run.specs.Capture.{IsCaptureBy};

use crate::copy::capture_within;
use bpf_loader::Program;
use command_line::Fault;
use packet_format::PacketFormat;
use pcap_io::{Ending, OutSink, TapSource};
use run_fault::WatchRefused;
use std::alloc::Global;

/// A capture that has ended, with the devices that it was given.
#[derive(Drop)]
pub struct CaptureRun<S, W> {
    /// How the recording ended, or why the capture was aborted.
    pub outcome: Result<Ending, Fault>,
    /// The recording's source.
    pub source: S,
    /// The capture's sink.
    pub sink: W,
}

/// Copies the frames of the recording that a filter accepts, in a format. A timestamp may lie by `late`
/// nanoseconds below the greatest one before it.
pub fn capture_by<S: TapSource, W: OutSink>(
    alloc: Global,
    program: &Program,
    late: u64,
    format: PacketFormat<'_>,
    source: S,
    sink: W,
) -> CaptureRun<S, W>
    ensures { IsCaptureBy (format_of format.entry) late program.now result.outcome
        (devices_of S.TapSource W.OutSink source sink)
        (devices_of S.TapSource W.OutSink result.source result.sink) }
{
    match capture_within(alloc, program, late, format, source, sink) {
        Ok((ending, source, sink)) => CaptureRun {
            outcome: Ok(ending),
            source,
            sink,
        },
        Err(refused) => {
            let WatchRefused {
                fault,
                a,
                b: _,
                capture: sink,
                ledger: _,
            } = refused;
            let Some(source) = a else { unreachable!() };
            CaptureRun {
                outcome: Err(Fault::Watch(fault)),
                source,
                sink,
            }
        }
    }
}
