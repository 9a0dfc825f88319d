//! Two recordings, read and merged as far as is wanted.

use crate::observer::Observer;
use crate::recorded::Extent;
use crate::tap::Tap;
use afdx_frame::Network;
use frame_batch::Round;
use ordered_merge::Merger;
use pcap_io::{OpenRefused, TapReader, TapSource};
use run_fault::{MAX_FRAMES, WatchFault, fault_of_open};
use std::alloc::Global;

/// How many frames are merged before a round of them is shown, and the most frames of a round.
const ROUND: usize = 1024;

/// Recordings that weren't opened, and why.
#[derive(Drop)]
pub(crate) struct Unopened<S> {
    pub(crate) fault: WatchFault,
    pub(crate) a: S,
    pub(crate) b: S,
}

/// Opens the recordings of networks A and B, in this order. A refusal gives both back.
pub(crate) fn open_readers<S: TapSource>(
    late: u64,
    a: S,
    b: S,
) -> Result<(TapReader<S>, TapReader<S>), Unopened<S>> {
    let a = match TapReader::open(a, Network::A, MAX_FRAMES, late) {
        Ok(reader) => reader,
        Err(OpenRefused { source, fault }) => {
            let fault = fault_of_open(Network::A, fault);
            return Err(Unopened {
                fault,
                a: source,
                b,
            });
        }
    };
    match TapReader::open(b, Network::B, MAX_FRAMES, late) {
        Ok(b) => Ok((a, b)),
        Err(OpenRefused { source, fault }) => Err(Unopened {
            fault: fault_of_open(Network::B, fault),
            a: a.into_source(),
            b: source,
        }),
    }
}

/// Both recordings, and the merger of their frames.
#[derive(Drop)]
pub(crate) struct Pair<S> {
    pub(crate) a: Tap<S>,
    pub(crate) b: Tap<S>,
    pub(crate) merger: Merger,
}

impl<S: TapSource> Pair<S> {
    /// Opens the recordings of networks A and B, in this order. A refusal gives both back.
    pub(crate) fn open(alloc: Global, extent: Extent, a: S, b: S) -> Result<Pair<S>, Unopened<S>> {
        let (a, b) = open_readers(extent.late, a, b)?;
        Ok(Pair {
            a: Tap::new(a, extent.frames),
            b: Tap::new(b, extent.frames),
            merger: Merger::new(alloc, extent.late),
        })
    }

    /// Merges some items, each of the network whose turn it is. False: the reading of both is over.
    fn merge_some<O: Observer>(
        &mut self,
        alloc: Global,
        observer: &mut O,
    ) -> Result<bool, WatchFault> {
        for count in 0..ROUND {
            let Some(network) = self.merger.wants() else {
                return Ok(count > 0);
            };
            match network {
                Network::A => self.a.step(alloc, network, &mut self.merger, observer)?,
                Network::B => self.b.step(alloc, network, &mut self.merger, observer)?,
            }
        }
        Ok(true)
    }

    /// The next frames in order; there may be none yet. None: the reading of both recordings is over, and all
    /// their frames were given.
    pub(crate) fn next_round<O: Observer>(
        &mut self,
        alloc: Global,
        observer: &mut O,
    ) -> Result<Option<Round>, WatchFault> {
        let goes_on = self.merge_some(alloc, observer)?;
        match self.merger.cut(ROUND) {
            Ok(round) if goes_on || !round.is_empty() => Ok(Some(round)),
            Ok(_) => Ok(None),
            Err(_) => Err(WatchFault::Memory),
        }
    }
}
