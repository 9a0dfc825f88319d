//! Two recordings analysed whole, on one thread and on several: worked examples, devices that fail, and what
//! is told of a run.

// further: mod aborts;
// further: mod comparing;
mod counted;
// further: mod devices;
// further: mod each_byte;
// further: mod gates;
// further: mod generated;
// further: mod long;
// further: mod many;
// further: mod pauses;
// further: mod safe;
// further: mod sizes;
// further: mod smallest;
// further: mod stopping;
mod told;
// further: mod worked;

use crate::support::{HEADER, SOUND, loaded};
use crate::watch::counted::Counted;
use bpf_loader::Program;
use filter_workers::RunGate;
use pcap_io::{Ending, MemSink, MemSource, Script};
use run_fault::{WatchFault, WatchRefused};
use std::alloc::{AllocError, Global};
use std::sync::Wait;
use std::test::Fail;
use std::thread::Threads;
use tap_queue::TapGate;
use verdict_ledger::Totals;
use vl_config::Config;
use watch_run::{OpenGate, RunObserver, Watched, watch, watch_whole};

/// A filter that rejects the sequence number 1 and keeps 64 bytes of any other frame.
pub const NOT_FIRST: &str = "4,48 0 0 59,21 1 0 1,6 0 0 64,6 0 0 0,";

/// The inputs of a run: the text of the table, the filters, and the bytes of both recordings.
#[derive(Clone, Copy)]
pub struct Given<'a> {
    pub table: &'a str,
    pub filters: &'a [&'a str],
    pub a: &'a [u8],
    pub b: &'a [u8],
}

/// The scripts of a run's devices.
#[derive(Clone, Copy)]
pub struct Scripts {
    pub a: Script,
    pub b: Script,
    pub capture: Script,
    pub ledger: Script,
}

/// A sink with room for the outputs of a worked example.
pub const WIDE: Script = Script {
    most: 2048,
    ..SOUND
};

/// Devices that never fail.
pub const NO_FAILURE: Scripts = Scripts {
    a: SOUND,
    b: SOUND,
    capture: WIDE,
    ledger: WIDE,
};

/// How a run is done.
#[derive(Clone, Copy)]
pub enum Way {
    /// On the calling thread.
    OneThread,
    /// On threads, of which so many are workers.
    Workers(u32),
}

/// On one thread, and with the fewest workers, some, and the most.
pub const WAYS: [Way; 4] = [
    Way::OneThread,
    Way::Workers(1),
    Way::Workers(2),
    Way::Workers(8),
];

/// How the recordings of a run ended, and its counts.
#[derive(Clone, Copy)]
pub struct WatchCounts {
    pub a: Ending,
    pub b: Ending,
    pub totals: Totals,
}

pub type Source = Counted<MemSource>;

pub type Sink = Counted<MemSink>;

/// The remains of a run.
#[derive(Drop)]
pub struct Ran {
    pub outcome: Result<WatchCounts, WatchFault>,
    pub a: Option<Source>,
    pub b: Option<Source>,
    pub capture: Sink,
    pub ledger: Sink,
}

impl Ran {
    fn of(
        done: Result<Watched<Source, Source, Sink, Sink>, WatchRefused<Source, Source, Sink, Sink>>,
    ) -> Ran {
        match done {
            Ok(watched) => Ran {
                outcome: Ok(WatchCounts {
                    a: watched.endings[0],
                    b: watched.endings[1],
                    totals: *watched.totals(),
                }),
                a: Some(watched.a),
                b: Some(watched.b),
                capture: watched.capture,
                ledger: watched.ledger,
            },
            Err(refused) => Ran {
                outcome: Err(refused.fault),
                a: refused.a,
                b: refused.b,
                capture: refused.capture,
                ledger: refused.ledger,
            },
        }
    }

    /// How often the sources have failed, and then the sinks. None: a source is lost.
    pub fn failures(&self) -> Option<[u64; 4]> {
        let (a, b) = (self.a.as_ref()?, self.b.as_ref()?);
        Some([
            a.failures,
            b.failures,
            self.capture.failures,
            self.ledger.failures,
        ])
    }
}

/// The devices of a run.
#[derive(Drop)]
pub struct DeviceSet {
    pub a: Source,
    pub b: Source,
    pub capture: Sink,
    pub ledger: Sink,
}

/// Devices that follow the scripts.
pub fn devices_by(
    alloc: Global,
    given: Given<'_>,
    scripts: Scripts,
) -> Result<DeviceSet, AllocError> {
    let a = MemSource::new(Vec::from_slice(alloc, given.a)?, scripts.a);
    let b = MemSource::new(Vec::from_slice(alloc, given.b)?, scripts.b);
    Ok(DeviceSet {
        a: Counted::new(a),
        b: Counted::new(b),
        capture: Counted::new(MemSink::new(alloc, scripts.capture)?),
        ledger: Counted::new(MemSink::new(alloc, scripts.ledger)?),
    })
}

/// The run over these devices. On threads it is told to the gate.
pub fn run_over<R: Threads + Wait + Sync + AllocGlobal, G: RunGate + TapGate + RunObserver + Sync>(
    rt: &R,
    way: Way,
    config: &Config,
    programs: &[Program],
    devices: DeviceSet,
    gate: &G,
) -> Ran {
    let alloc = rt.alloc();
    let DeviceSet {
        a,
        b,
        capture,
        ledger,
    } = devices;
    Ran::of(match way {
        Way::OneThread => watch_whole(alloc, config, programs, a, b, capture, ledger),
        Way::Workers(workers) => {
            watch(
                rt, alloc, config, programs, workers, a, b, capture, ledger, gate,
            )
        }
    })
}

/// The programs of these texts in the numeric form.
pub fn programs_of(alloc: Global, filters: &[&str]) -> Result<Vec<Program>, Fail> {
    let mut programs = Vec::new(alloc);
    for filter in filters {
        programs.push(loaded(alloc, filter)?)?;
    }
    Ok(programs)
}

/// The run of what is given, over devices that follow the scripts. On threads it is told to the
/// gate.
pub fn run_past<R: Threads + Wait + Sync + AllocGlobal, G: RunGate + TapGate + RunObserver + Sync>(
    rt: &R,
    way: Way,
    given: Given<'_>,
    scripts: Scripts,
    gate: &G,
) -> Result<Ran, Fail> {
    let config = Config::read(rt.alloc(), given.table)?;
    let programs = programs_of(rt.alloc(), given.filters)?;
    let devices = devices_by(rt.alloc(), given, scripts)?;
    Ok(run_over(rt, way, &config, &programs, devices, gate))
}

/// The run of what is given, over devices that follow the scripts.
pub fn run<R: Threads + Wait + Sync + AllocGlobal>(
    rt: &R,
    way: Way,
    given: Given<'_>,
    scripts: Scripts,
) -> Result<Ran, Fail> {
    run_past(rt, way, given, scripts, &OpenGate)
}

/// A recording of frames of 60 bytes of virtual link 5, each a timestamp in nanoseconds and a
/// sequence number.
pub fn recording(alloc: Global, frames: &[(u32, u8)]) -> Result<Vec<u8>, AllocError> {
    let mut bytes = Vec::from_slice(alloc, &HEADER)?;
    for (stamp, number) in frames {
        push_packet(&mut bytes, *stamp, 5, 60, *number)?;
    }
    Ok(bytes)
}

/// Appends a packet that holds the first bytes of a frame of 60 bytes.
pub fn push_packet(
    bytes: &mut Vec<u8>,
    stamp: u32,
    link: u16,
    captured: u8,
    number: u8,
) -> Result<(), AllocError> {
    let mut frame = [0; 60];
    frame[0] = 3;
    [frame[4], frame[5]] = link.to_be_bytes();
    frame[59] = number;
    let captured = captured.min(60);
    bytes.extend_from_slice(&[0; 4])?;
    bytes.extend_from_slice(&stamp.to_le_bytes())?;
    bytes.extend_from_slice(&[captured, 0, 0, 0, 60, 0, 0, 0])?;
    bytes.extend_from_slice(&frame[..usize::from(captured)])
}
