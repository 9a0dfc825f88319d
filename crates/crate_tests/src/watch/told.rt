//! Tests of what a run on threads tells: each frame, as it is judged and as it is filtered, each tap once,
//! and a fault that ends it once.

use crate::support::{SOUND, TABLE};
use crate::watch::{Given, NO_FAILURE, NOT_FIRST, Scripts, Way, recording, run_past};
use afdx_frame::Network;
use filter_workers::RunGate;
use frame_batch::Round;
use pcap_io::Script;
use run_fault::{Output, WatchFault};
use std::process::Abort;
use std::sync::atomic::AtomicU64;
use std::sync::atomic::Ordering::SeqCst;
use std::test::Fail;
use tap_queue::TapGate;
use watch_run::RunObserver;

/// How often frames and taps were told, and the fault of the capture.
#[derive(Drop)]
struct Told {
    judged: AtomicU64,
    frames: AtomicU64,
    taps_a: AtomicU64,
    taps_b: AtomicU64,
    aborts: AtomicU64,
}

impl Told {
    fn new() -> Told {
        Told {
            judged: AtomicU64::new(0),
            frames: AtomicU64::new(0),
            taps_a: AtomicU64::new(0),
            taps_b: AtomicU64::new(0),
            aborts: AtomicU64::new(0),
        }
    }
}

impl RunGate for Told {
    fn run(&self, _worker: u32, _number: u64) {
        self.frames.fetch_add(1, SeqCst);
    }
}

impl TapGate for Told {
    fn tap(&self, network: Network) {
        let taps = match network {
            Network::A => &self.taps_a,
            Network::B => &self.taps_b,
        };
        taps.fetch_add(1, SeqCst);
    }
}

impl RunObserver for Told {
    fn judges(&self, round: &Round) {
        self.judged.fetch_add(round.len() as u64, SeqCst);
    }

    fn aborts(&self, fault: WatchFault) {
        let output = Output::Capture;
        if fault == (WatchFault::Write { output }) {
            self.aborts.fetch_add(1, SeqCst);
        }
    }
}

/// How often the fault is told where the capture's sink takes so many bytes.
const ABORTS: [(usize, u64); 2] = [(2048, 0), (30, 1)];

#[test]
fn each_is_told_once(rt: HostRuntime) -> Result<(), Fail> {
    let a = recording(rt.alloc(), &[(0, 1), (100, 2)])?;
    let b = recording(rt.alloc(), &[(200, 2)])?;
    let given = Given {
        table: TABLE,
        filters: &[NOT_FIRST],
        a: &a,
        b: &b,
    };
    for (most, aborts) in &ABORTS {
        let capture = Script {
            most: *most,
            ..SOUND
        };
        let scripts = Scripts {
            capture,
            ..NO_FAILURE
        };
        let told = Told::new();
        let ran = run_past(&rt, Way::Workers(2), given, scripts, &told)?;
        assert!(rt; ran.outcome.is_ok() == (*aborts == 0));
        for count in [&told.judged, &told.frames] {
            assert!(rt; ran.outcome.is_err() || count.load(SeqCst) == 3);
        }
        assert!(rt; told.taps_a.load(SeqCst) == 1 && told.taps_b.load(SeqCst) == 1);
        assert!(rt; told.aborts.load(SeqCst) == *aborts);
    }
    Ok(())
}
