//! The observer of a run, and a gate that lets all through.

use afdx_frame::Network;
use filter_workers::RunGate;
use frame_batch::Round;
use run_fault::WatchFault;
use tap_queue::TapGate;

/// Is told how a run on threads gets on. No clause speaks of it.
pub trait RunObserver {
    /// These frames came next of both recordings, in their one order, and are judged now.
    fn judges(&self, _round: &Round) {}

    /// Nothing came of the recordings for some milliseconds. What is safe was handed to the sinks. Told again
    /// and again until something comes.
    fn waits(&self) {}

    /// The run is aborted by this fault. The threads that read the recordings are still to be waited for.
    fn aborts(&self, _fault: WatchFault) {}
}

/// A gate of both kinds that lets all through: what a run is told that no test watches.
#[derive(Clone, Copy)]
pub struct OpenGate;

impl RunGate for OpenGate {
    fn run(&self, _worker: u32, _number: u64) {}
}

impl TapGate for OpenGate {
    fn tap(&self, _network: Network) {}
}

impl RunObserver for OpenGate {}
