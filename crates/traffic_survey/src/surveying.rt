//! A survey whose frames wait without their bytes.

use crate::backlog::Backlog;
use crate::brief::Brief;
use crate::cut_links::CutLinks;
use crate::lent_pair::LentPair;
use crate::survey::Survey;
use afdx_frame::Network;
use pcap_io::TapSource;
use run_fault::{MAX_FRAMES, WatchFault};
use std::alloc::{AllocError, Global};

/// How many frames are read before those are counted that none can come before any more.
const ROUND: usize = 1024;

/// More rounds than two recordings give: each but the last reads a frame.
const MAX_ROUNDS: u64 = 2 * MAX_FRAMES + 2;

/// A survey, and the frames that wait for it.
#[derive(Drop)]
pub(crate) struct Surveying {
    pub(crate) survey: Survey,
    /// The links of frames that weren't recorded whole.
    pub(crate) cut: CutLinks,
    backlog: Backlog,
}

impl Surveying {
    /// Of no frame. A timestamp may lie so many nanoseconds below the greatest one of its recording.
    pub(crate) fn new(alloc: Global, wanted: Option<u32>, late: u64) -> Surveying {
        Surveying {
            survey: Survey::new(alloc, wanted),
            cut: CutLinks::new(alloc),
            backlog: Backlog::new(alloc, late),
        }
    }

    /// Reads the next frame of a network's recording, or that there is none.
    #[inline]
    fn read_next<S: TapSource>(
        &mut self,
        alloc: Global,
        network: Network,
        pair: &mut LentPair<S>,
    ) -> Result<(), WatchFault> {
        let tap = pair.of_mut(network);
        tap.advance(alloc)?;
        let Some(frame) = tap.frame() else {
            self.backlog.end(network);
            return Ok(());
        };
        self.backlog.reach(network, frame.stamp().0);
        match Brief::of(&frame) {
            Some(brief) => self.backlog.put(network, brief)?,
            None => {
                self.survey.skip();
                self.cut.note(alloc, &frame)?;
            }
        }
        Ok(())
    }

    /// Reads some frames, each of the network whose turn it is. False: both recordings are over.
    fn read_some<S: TapSource>(
        &mut self,
        alloc: Global,
        pair: &mut LentPair<S>,
    ) -> Result<bool, WatchFault> {
        for _frame in 0..ROUND {
            let Some(network) = self.backlog.wants() else {
                return Ok(false);
            };
            self.read_next(alloc, network, pair)?;
        }
        Ok(true)
    }

    /// Counts the frames that none can come before any more.
    fn count_closed(&mut self, alloc: Global) -> Result<(), AllocError> {
        let time = self.backlog.closed_before();
        for _frame in 0..u64::MAX {
            let Some((network, brief)) = self.backlog.take_before(time) else {
                break;
            };
            self.survey.see(alloc, network, &brief)?;
        }
        Ok(())
    }

    /// Reads both recordings, and counts all their frames.
    pub(crate) fn see_both<S: TapSource>(
        &mut self,
        alloc: Global,
        pair: &mut LentPair<S>,
    ) -> Result<(), WatchFault> {
        for _round in 0..MAX_ROUNDS {
            let goes_on = self.read_some(alloc, pair)?;
            self.count_closed(alloc)?;
            if !goes_on {
                break;
            }
        }
        Ok(())
    }
}
