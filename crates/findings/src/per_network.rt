//! One value for each network.

use afdx_frame::Network;

/// One value for each of the two networks.
#[derive(Drop)]
pub struct PerNetwork<T> {
    /// That of network A.
    pub a: T,
    /// That of network B.
    pub b: T,
}

impl<T> PerNetwork<T> {
    /// The value of a network.
    #[inline(always)]
    pub fn of(&self, network: Network) -> &T {
        match network {
            Network::A => &self.a,
            Network::B => &self.b,
        }
    }

    /// The value of a network, to be changed.
    #[inline(always)]
    pub fn of_mut(&mut self, network: Network) -> &mut T {
        match network {
            Network::A => &mut self.a,
            Network::B => &mut self.b,
        }
    }
}
