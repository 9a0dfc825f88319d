//! Frames of both recordings that wait until none before them can come.

use crate::brief::Brief;
use crate::per_network::PerNetwork;
use afdx_frame::Network;
use std::alloc::{AllocError, Global};
use std::collections::VecDeque;

/// The frames of a recording that wait, in the order of timestamp and number.
#[derive(Drop)]
struct Waiting {
    briefs: VecDeque<Brief>,
    /// The greatest timestamp that came.
    high: Option<u64>,
    ended: bool,
}

impl Waiting {
    fn new(alloc: Global) -> Waiting {
        Waiting {
            briefs: VecDeque::new(alloc),
            high: None,
            ended: false,
        }
    }

    /// The time from which on frames may come, where a timestamp may lie so far below the greatest one.
    fn open_from(&self, late: u64) -> u64 {
        if self.ended {
            u64::MAX
        } else {
            self.high.map_or(0, |high| high.saturating_sub(late))
        }
    }

    /// Puts a frame after all that come before it.
    #[inline]
    fn put(&mut self, brief: Brief) -> Result<(), AllocError> {
        let is_late = self
            .briefs
            .back()
            .is_some_and(|last| brief.stamp < last.stamp);
        if is_late {
            return self.put_late(brief);
        }
        self.briefs.push_back(brief)?;
        Ok(())
    }

    #[cold]
    fn put_late(&mut self, brief: Brief) -> Result<(), AllocError> {
        let later = self
            .briefs
            .iter()
            .rev()
            .take_while(|held| brief.stamp < held.stamp)
            .count();
        let place = self.briefs.len().saturating_sub(later);
        match self.briefs.insert(place, brief) {
            Ok(()) => Ok(()),
            Err(_) => Err(AllocError),
        }
    }

    #[inline(always)]
    fn first(&self) -> Option<u64> {
        self.briefs.front().map(|brief| brief.stamp.0)
    }
}

/// The frames of both recordings that wait.
#[derive(Drop)]
pub(crate) struct Backlog {
    late: u64,
    taps: PerNetwork<Waiting>,
}

impl Backlog {
    /// Of no frame. A timestamp may lie so many nanoseconds below the greatest one of its recording.
    pub(crate) fn new(alloc: Global, late: u64) -> Backlog {
        Backlog {
            late,
            taps: PerNetwork {
                a: Waiting::new(alloc),
                b: Waiting::new(alloc),
            },
        }
    }

    /// The network to read next: of those that haven't ended the one that got less far. None: both have.
    #[inline]
    pub(crate) fn wants(&self) -> Option<Network> {
        let (a, b) = (&self.taps.a, &self.taps.b);
        match (a.ended, b.ended) {
            (true, true) => None,
            (false, true) => Some(Network::A),
            (true, false) => Some(Network::B),
            (false, false) if b.high < a.high => Some(Network::B),
            (false, false) => Some(Network::A),
        }
    }

    /// Notes that a network's recording has got to this timestamp.
    #[inline]
    pub(crate) fn reach(&mut self, network: Network, stamp: u64) {
        let tap = self.taps.of_mut(network);
        tap.high = tap.high.max(Some(stamp));
    }

    /// Adds a network's next frame.
    #[inline]
    pub(crate) fn put(&mut self, network: Network, brief: Brief) -> Result<(), AllocError> {
        self.taps.of_mut(network).put(brief)
    }

    /// None of a network's frames follows.
    pub(crate) fn end(&mut self, network: Network) {
        self.taps.of_mut(network).ended = true;
    }

    /// The time before which no frame can come any more.
    pub(crate) fn closed_before(&self) -> u64 {
        let a = self.taps.a.open_from(self.late);
        a.min(self.taps.b.open_from(self.late))
    }

    /// Takes out the first of all, with its network, if it came before a time.
    #[inline]
    pub(crate) fn take_before(&mut self, time: u64) -> Option<(Network, Brief)> {
        let (a, b) = (self.taps.a.first(), self.taps.b.first());
        let (network, first) = match (a, b) {
            (Some(a), Some(b)) if b < a => (Network::B, b),
            (Some(a), _) => (Network::A, a),
            (None, Some(b)) => (Network::B, b),
            (None, None) => return None,
        };
        if first >= time {
            return None;
        }
        let brief = self.taps.of_mut(network).briefs.pop_front()?;
        Some((network, brief))
    }
}
