//! A way for a test to see the threads: the decisions are the same whatever the schedule.

/// A worker calls it for each frame, before the filters run on it. A test sees by it that workers run at
/// the same time, and that no frame is left out or taken twice.
pub trait RunGate {
    /// A worker is about to run the filters on the frame of this number. Worker 0 is the caller.
    fn run(&self, worker: u32, number: u64);
}
