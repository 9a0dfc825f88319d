//! Watches a run over two recordings: what was written is handed to the system before the program waits for
//! more, and a fault is told before the program waits for its threads.
use afdx_frame::Network;
use command_line::{Fault, Invocation, WatchArguments};
use filter_workers::RunGate;
use frame_batch::Round;
use messages::{CommandEnd, tell};
use run_fault::{Output, WatchFault};
use std::io;
use std::sync::Mutex;
use std::sync::atomic::{AtomicBool, Ordering};
use tap_inputs::{Cause, Outcome, Pauses, Progress, SharedBlocks, Taps};
use tap_queue::TapGate;
use traffic_survey::Traffic;
use watch_run::RunObserver;

/// The reporter that tells standard error of a run.
#[derive(Drop)]
pub struct Reporter {
    /// Was its fault told?
    pub told: AtomicBool,
    /// Is a person told all of it?
    pub full: bool,
}

/// Watches a run over two recordings: before it waits for them, what was written is handed to the system,
/// and before it waits for the threads that read them, its fault is told.
#[derive(Drop)]
pub struct Watcher<'a> {
    rt: &'a HostRuntime,
    given: WatchArguments<'a>,
    taps: &'a Taps,
    capture: SharedBlocks,
    ledger: SharedBlocks,
    progress: Option<&'a Progress>,
    pauses: Option<&'a Pauses>,
    reporter: &'a Reporter,
    /// The counts of what frames carry, if the manifest is to have them.
    traffic: Mutex<Option<Traffic<'a>>>,
}

impl<'a> Watcher<'a> {
    /// Of the capture and the ledger.
    pub fn new(
        rt: &'a HostRuntime,
        (given, taps): (WatchArguments<'a>, &'a Taps),
        outputs: (SharedBlocks, SharedBlocks),
        progress: Option<&'a Progress>,
        pauses: Option<&'a Pauses>,
        reporter: &'a Reporter,
    ) -> Watcher<'a> {
        let (capture, ledger) = outputs;
        Watcher {
            rt,
            given,
            taps,
            capture,
            ledger,
            progress,
            pauses,
            reporter,
            traffic: Mutex::new(None),
        }
    }

    /// The same, which counts what frames carry.
    pub fn counting(self, traffic: Option<Traffic<'a>>) -> Watcher<'a> {
        Watcher {
            traffic: Mutex::new(traffic),
            ..self
        }
    }

    /// The counts of what frames carry, if they are whole.
    pub fn take_traffic(&self) -> Option<Traffic<'a>> {
        self.traffic.try_lock()?.take()
    }

    /// Counts the frames of a round. Without memory for all counts there are none.
    fn count(&self, round: &Round) {
        let Some(mut counted) = self.traffic.try_lock() else {
            return;
        };
        let Some(traffic) = counted.as_mut() else {
            return;
        };
        let mut whole = true;
        for index in 0..round.len() {
            whole &= traffic.see(&round.frame(index)).is_ok();
        }
        if !whole {
            *counted = None;
        }
    }

    /// Hands the system what was written to both outputs. Which doesn't take it, and why?
    fn hand_over(&self) -> Result<(), (Output, io::Error)> {
        let capture = self.capture.hand_over();
        let ledger = self.ledger.hand_over();
        capture.map_err(|error| (Output::Capture, error))?;
        ledger.map_err(|error| (Output::Ledger, error))
    }

    /// Tells standard error of the first fault, and for which reason an output wasn't written.
    fn tell_fault(&self, fault: WatchFault, refused: Option<io::Error>) {
        if self.reporter.told.load(Ordering::SeqCst) {
            return;
        }
        if let Some(pauses) = self.pauses {
            pauses.end();
        }
        if let Some(progress) = self.progress {
            progress.erase(self.rt);
        }
        // Where standard error can't be written, the status alone tells of it.
        let outcome = Outcome {
            cause: refused.map(|error| Cause::System(error)),
            ..Outcome::from(Fault::Watch(fault))
        };
        let known = CommandEnd {
            outcome: &outcome,
            taps: self.taps,
            full: self.reporter.full,
        };
        let _ = tell(self.rt, Invocation::Watch(self.given), known);
        self.reporter.told.store(true, Ordering::SeqCst);
    }
}

impl RunObserver for Watcher<'_> {
    fn judges(&self, round: &Round) {
        if let Some(progress) = self.progress {
            progress.add_frames(round.len());
        }
        self.count(round);
    }

    /// Tells at once that an output can't be written. No thread can end the read that another waits in, so
    /// the run goes on until that comes to its end.
    fn waits(&self) {
        if let Err((output, error)) = self.hand_over() {
            self.tell_fault(WatchFault::Write { output }, Some(error));
        }
    }

    fn aborts(&self, fault: WatchFault) {
        let refused = self.hand_over().err().map(|(_, error)| error);
        self.tell_fault(fault, refused);
    }
}

impl RunGate for Watcher<'_> {
    fn run(&self, _worker: u32, _number: u64) {}
}

impl TapGate for Watcher<'_> {
    fn tap(&self, _network: Network) {}
}
