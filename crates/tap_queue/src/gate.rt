//! A hook at the start of a recording, by which tests see what threads do.

use afdx_frame::Network;

/// A hook that is called when a recording is about to be read. By it a test sees that both taps are
/// read at the same time.
pub trait TapGate {
    /// The recording of this network is about to be read.
    fn tap(&self, network: Network);
}
