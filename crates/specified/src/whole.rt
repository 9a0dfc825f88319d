//! Whole commands over any sources and sinks, with the status and the fault line of each. `afdxmon` opens
//! devices of its own, and calls what they call.
ghost use Rattle.std.specs.Prelude.{◌≡◌, ℕ, List, None, Option, Result, IfErr, IfOk, IfSome, IsSome, option_map, string_bytes};
ghost use Rattle.command_line.specs.declared.fault.Fault.{Fault};
ghost use Rattle.filter_run.specs.Asm.{IsAsmRun};
ghost use Rattle.pcap_io.specs.declared.recording.Ending.{Ending};
ghost use Rattle.run_fault.specs.Device.{devices_of, sink_at, source_at};
ghost use Rattle.specified.specs.Whole.{IsAborted, IsCaptured, IsCaptureRun, IsDebugRun, IsRan, IsTextRan, debug_devices};

use bpf_loader::Program;
use capture_run::{CaptureRun, capture_by, capture_within};
use command_line::{Fault, fault_line};
use filter_run::{HeldTap, TapRead, read_tap, run_asm, run_session};
use packet_format::PacketFormat;
use pcap_io::{Ending, OutSink, TapSource};
use run_fault::WatchRefused;
use run_inputs::filter_of;
use std::alloc::Global;

/// Copies the frames of a recording that the filter accepts, each cut to the filter's return value, into a
/// pcap file, and returns how the recording ended.
///
/// The tap is read as network A, up to 2^32 frames, with no window for late timestamps. Both devices
/// come back. The source may have been read ahead of the last frame, by no more than 262144 bytes.
///
/// # Errors
///
/// `Header` or `Read` if the recording can't be opened, and then nothing was written. `Read` or `Memory`
/// after some of its frames: the sink has the whole capture of them, and no frame that the source gave
/// whole is left out. `Write` if the sink failed: it has a prefix of the capture.
pub fn capture_one<S: TapSource, W: OutSink>(
    alloc: Global,
    program: &Program,
    source: S,
    sink: W,
) -> Result<(Ending, S, W), WatchRefused<S, (), W, ()>>
    ensures captured { IfOk result (λ done. IsCaptured program.now done.0
        (devices_of S.TapSource W.OutSink source sink)
        (devices_of S.TapSource W.OutSink done.1 done.2)) }
    ensures aborted { IfErr result (λ refused. IfSome refused.a (λ a. IsAborted program.now refused.fault
        (devices_of S.TapSource W.OutSink source sink)
        (devices_of S.TapSource W.OutSink a refused.capture))) }
    ensures back { IfErr result (λ refused. IsSome refused.a × (refused.b ≡ None)) }
{
    capture_within(alloc, program, 0, PacketFormat::Pcap, source, sink)
}

/// The end of a command: the program's exit status, the line for standard error, without its
/// newline, and the sink. There is no line at status 0, and a line may be missing after a fault: it
/// takes memory.
#[derive(Drop)]
pub struct Ran<W> {
    pub status: u8,
    pub line: Option<String>,
    pub sink: W,
}

/// The end of a command that has printed a text, or met a fault.
fn text_ran<W>(alloc: Global, outcome: Result<(), Fault>, sink: W) -> Ran<W>
    ensures ran { IsTextRan outcome result.status (option_map string_bytes result.line) }
    ensures sink { result.sink ≡ sink }
{
    let (status, line) = match outcome {
        Ok(()) => (0, None),
        Err(fault) => (1, fault_line(alloc, &fault).ok()),
    };
    Ran { status, line, sink }
}

/// The command `capture` with the filter's numeric form in hand: reads the filter, and copies the frames of
/// the recording that it accepts into a pcap file. A filter that doesn't load leaves both devices as they
/// are.
pub fn run_capture<S: TapSource, W: OutSink>(
    alloc: Global,
    code: &str,
    source: S,
    sink: W,
) -> CaptureRun<S, W>
    ensures { IsCaptureRun code.now result.outcome
        (devices_of S.TapSource W.OutSink source sink)
        (devices_of S.TapSource W.OutSink result.source result.sink) }
{
    match filter_of(alloc, code, None) {
        Ok(program) => capture_by(alloc, &program, 0, PacketFormat::Pcap, source, sink),
        Err(fault) => CaptureRun {
            outcome: Err(fault),
            source,
            sink,
        },
    }
}

/// The command `capture` with its status and its fault line. The source is dropped.
pub fn capture_over<S: TapSource + Drop, W: OutSink>(
    alloc: Global,
    code: &str,
    source: S,
    sink: W,
) -> Ran<W>
    ensures { (outcome : Result Ending Fault) × (rest : S)
        × IsCaptureRun code.now outcome
        (devices_of S.TapSource W.OutSink source sink)
        (devices_of S.TapSource W.OutSink rest result.sink)
        × IsRan outcome result.status (option_map string_bytes result.line) }
{
    let run = run_capture(alloc, code, source, sink);
    let (status, line) = match run.outcome {
        Ok(_) => (0, None),
        Err(fault) => (1, fault_line(alloc, &fault).ok()),
    };
    Ran {
        status,
        line,
        sink: run.sink,
    }
}

/// The command `asm` with its status and its fault line. The source is dropped.
pub fn asm_over<S: TapSource + Drop, W: OutSink>(alloc: Global, source: S, sink: W) -> Ran<W>
    ensures { (text : Option (List ℕ)) × (outcome : Result (Unit {0}) Fault) × (rest : S)
        × IsAsmRun text outcome
        (devices_of S.TapSource W.OutSink source sink)
        (devices_of S.TapSource W.OutSink rest result.sink)
        × IsTextRan outcome result.status (option_map string_bytes result.line) }
{
    let run = run_asm(alloc, source, sink);
    text_ran(alloc, run.outcome, run.sink)
}

/// A session that has ended, with the devices that it was given.
#[derive(Drop)]
pub struct DebugRun<S, C, W> {
    /// True if all commands were answered, or why they weren't.
    pub outcome: Result<(), Fault>,
    /// Where the recording was read from.
    pub tap: S,
    /// Where the commands were read from.
    pub commands: C,
    /// Where the replies were printed.
    pub sink: W,
}

/// The command `debug`: reads the filter from its numeric form, then the recording whole as network A, and
/// runs a session over the commands.
pub fn run_debug<S: TapSource, C: TapSource, W: OutSink>(
    alloc: Global,
    filter: &str,
    tap: S,
    commands: C,
    sink: W,
) -> DebugRun<S, C, W>
    ensures { IsDebugRun filter.now result.outcome
        (debug_devices (source_at S.TapSource tap)
        (source_at C.TapSource commands) (sink_at W.OutSink sink))
        (debug_devices (source_at S.TapSource result.tap)
        (source_at C.TapSource result.commands)
        (sink_at W.OutSink result.sink)) }
{
    let program = match filter_of(alloc, filter, None) {
        Ok(program) => program,
        Err(fault) => {
            return DebugRun {
                outcome: Err(fault),
                tap,
                commands,
                sink,
            };
        }
    };
    let TapRead {
        outcome,
        source: tap,
    } = read_tap(alloc, 0, tap);
    let HeldTap { frames, ending: _ } = match outcome {
        Ok(tap) => tap,
        Err(fault) => {
            return DebugRun {
                outcome: Err(Fault::Watch(fault)),
                tap,
                commands,
                sink,
            };
        }
    };
    let (mut commands, mut sink) = (commands, sink);
    let outcome = run_session(alloc, program, frames, &mut commands, &mut sink);
    DebugRun {
        outcome,
        tap,
        commands,
        sink,
    }
}

/// The command `debug` with its status and its fault line. The sources are dropped.
pub fn debug_over<S: TapSource + Drop, C: TapSource + Drop, W: OutSink>(
    alloc: Global,
    filter: &str,
    tap: S,
    commands: C,
    sink: W,
) -> Ran<W>
    ensures { (outcome : Result (Unit {0}) Fault) × (tap' : S) × (commands' : C)
        × IsDebugRun filter.now outcome
        (debug_devices (source_at S.TapSource tap)
        (source_at C.TapSource commands) (sink_at W.OutSink sink))
        (debug_devices (source_at S.TapSource tap')
        (source_at C.TapSource commands')
        (sink_at W.OutSink result.sink))
        × IsTextRan outcome result.status (option_map string_bytes result.line) }
{
    let run = run_debug(alloc, filter, tap, commands, sink);
    text_ran(alloc, run.outcome, run.sink)
}
