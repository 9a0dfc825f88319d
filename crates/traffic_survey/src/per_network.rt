//! A value for each network.

use afdx_frame::Network;

/// A value for network A, and one for B.
#[derive(Clone, Copy, Drop)]
pub(crate) struct PerNetwork<T> {
    pub(crate) a: T,
    pub(crate) b: T,
}

impl<T> PerNetwork<T> {
    /// The value of a network.
    #[inline(always)]
    pub(crate) fn of(&self, network: Network) -> &T {
        match network {
            Network::A => &self.a,
            Network::B => &self.b,
        }
    }

    /// The same, to be changed.
    #[inline(always)]
    pub(crate) fn of_mut(&mut self, network: Network) -> &mut T {
        match network {
            Network::A => &mut self.a,
            Network::B => &mut self.b,
        }
    }
}
