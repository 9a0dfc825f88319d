//! A run that gives its devices back.
ghost use Rattle.std.specs.Prelude.{◌≡◌, Some};

use crate::fault::WatchFault;

/// An analysis that was aborted, with the devices that it was given: its sources, where they could
/// be had back, and its sinks.
#[derive(Drop)]
pub struct WatchRefused<S, T, W, L> {
    /// Why.
    pub fault: WatchFault,
    /// The source of network A.
    pub a: Option<S>,
    /// The source of network B.
    pub b: Option<T>,
    /// The sink of the capture.
    pub capture: W,
    /// The sink of the ledger.
    pub ledger: L,
}

impl<S, T, W, L> WatchRefused<S, T, W, L> {
    /// With both sources.
    pub fn new(fault: WatchFault, a: S, b: T, capture: W, ledger: L) -> WatchRefused<S, T, W, L>
        ensures { result ≡ record {
          fault = fault;
          a = Some a;
          b = Some b;
          capture = capture;
          ledger = ledger;
        } }
    {
        WatchRefused {
            fault,
            a: Some(a),
            b: Some(b),
            capture,
            ledger,
        }
    }
}
