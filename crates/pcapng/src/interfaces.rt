//! The interfaces that a capture describes.
ghost use Rattle.std.specs.Prelude.{◌≡◌};
ghost use Rattle.pcapng.specs.Blocks.{interface_of};

use afdx_frame::Network;

/// The interfaces of a capture. Both have link type 1, Ethernet, and timestamps in nanoseconds.
#[derive(Clone, Copy, PartialEq, Eq)]
pub enum Interfaces {
    /// One without a name, for the packets of one recording.
    One,
    /// One for each network, with the names `A` and `B`.
    Networks,
}

impl Interfaces {
    /// The number of the interface of a network's packets.
    #[inline(always)]
    pub fn number(self, network: Network) -> u32
        ensures { result ≡ interface_of self network }
    {
        match (self, network) {
            (Interfaces::One, _) | (Interfaces::Networks, Network::A) => 0,
            (Interfaces::Networks, Network::B) => 1,
        }
    }
}
