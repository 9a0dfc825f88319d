//! Two recordings as their frames are lent.

use crate::lent_tap::LentTap;
use crate::pair::{Unopened, open_readers};
use crate::recorded::Extent;
use crate::run::Pass;
use afdx_frame::Network;
use pcap_io::TapSource;
use run_fault::WatchFault;

/// Both recordings.
#[derive(Drop)]
pub(crate) struct LentPair<S> {
    pub(crate) a: LentTap<S>,
    pub(crate) b: LentTap<S>,
}

impl<S: TapSource> LentPair<S> {
    /// Opens the recordings of networks A and B, in this order. A refusal gives both back.
    pub(crate) fn open(extent: Extent, a: S, b: S) -> Result<LentPair<S>, Unopened<S>> {
        let (a, b) = open_readers(extent.late, a, b)?;
        Ok(LentPair {
            a: LentTap::new(a, Network::A, extent.frames),
            b: LentTap::new(b, Network::B, extent.frames),
        })
    }

    /// A network's recording.
    #[inline(always)]
    pub(crate) fn of_mut(&mut self, network: Network) -> &mut LentTap<S> {
        match network {
            Network::A => &mut self.a,
            Network::B => &mut self.b,
        }
    }

    /// The recording whose frame comes first: of two at one time that of A. None: both are over.
    #[inline(always)]
    pub(crate) fn earlier(&mut self) -> Option<&mut LentTap<S>> {
        match (self.a.next(), self.b.next()) {
            (None, None) => None,
            (Some(a), Some(b)) if b < a => Some(&mut self.b),
            (None, Some(_)) => Some(&mut self.b),
            (Some(_), _) => Some(&mut self.a),
        }
    }

    /// The pass over both, which were read as far as was wanted, or up to a fault.
    pub(crate) fn finish(self, extent: Extent, read: Result<(), WatchFault>) -> Pass<S> {
        let (a, of_a) = self.a.finish(extent.frames);
        let (b, of_b) = self.b.finish(extent.frames);
        Pass {
            outcome: read.map(|()| (of_a, of_b)),
            a,
            b,
        }
    }
}
