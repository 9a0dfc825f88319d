//! The counts of a link of the table.

ghost use Rattle.std.specs.Prelude.{◌≤◌};

use crate::clocks::{Meeting, Sample, first_meeting};
use crate::copies::Copies;
use crate::course::Course;
use crate::doubles::Doubles;
use crate::last::LastFrames;
use crate::per_network::PerNetwork;
use crate::silences::Silences;
use crate::unlike::Unlike;
use afdx_frame::{Network, Stamp};
use std::alloc::{AllocError, Global};

/// How many of a link's first frames are kept, on each network.
const STARTS: usize = 32;

/// How many frames of a link came on one network, and the first of them.
#[derive(Drop)]
struct Starts {
    frames: u64,
    samples: [Sample; 32],
    kept: usize,
    ghost within: { kept ≤ 32 },
}

impl Starts {
    fn new() -> Starts {
        let none = Sample {
            stamp: 0,
            number: 0,
        };
        Starts {
            frames: 0,
            samples: [none; STARTS],
            kept: 0,
        }
    }

    #[inline(always)]
    fn see(&mut self, sample: Sample) {
        self.frames = self.frames.saturating_add(1);
        if self.kept < STARTS {
            self.samples[self.kept] = sample;
            self.kept += 1;
        }
    }

    fn as_slice(&self) -> &[Sample] {
        &self.samples[..self.kept]
    }
}

/// The frames of a link of the table.
#[derive(Drop)]
pub struct LinkTally {
    starts: PerNetwork<Starts>,
    copies: Copies,
    last: LastFrames,
    /// How many frames on each network have a source address that names the other.
    crossed: PerNetwork<u64>,
    doubles: PerNetwork<Doubles>,
    silences: PerNetwork<Silences>,
    course: Course,
    unlike: Unlike,
}

impl LinkTally {
    /// Of no frame. A copy comes at most `skew` nanoseconds after the first frame, a double less than `near`.
    pub(crate) fn new(alloc: Global, skew: u64, near: u64) -> LinkTally {
        LinkTally {
            starts: PerNetwork {
                a: Starts::new(),
                b: Starts::new(),
            },
            copies: Copies::within(skew),
            last: LastFrames::new(),
            crossed: PerNetwork { a: 0, b: 0 },
            doubles: PerNetwork {
                a: Doubles::within(alloc, near),
                b: Doubles::within(alloc, near),
            },
            silences: PerNetwork {
                a: Silences::new(),
                b: Silences::new(),
            },
            course: Course::new(),
            unlike: Unlike::new(),
        }
    }

    /// Counts a frame with this sequence number.
    ///
    /// # Errors
    ///
    /// `AllocError` if there is no memory for its bytes.
    #[inline]
    pub(crate) fn see(
        &mut self,
        network: Network,
        stamp: Stamp,
        number: u8,
        bytes: &[u8],
    ) -> Result<(), AllocError> {
        let sample = Sample {
            stamp: stamp.0,
            number,
        };
        self.starts.of_mut(network).see(sample);
        self.silences.of_mut(network).see(sample);
        let skew = self.copies.see(network, number, stamp);
        if let Some(skew) = skew {
            self.see_meeting(network, sample, skew);
        }
        if self.copies.is_copy(skew) {
            self.see_copy(network, sample, bytes);
        }
        self.last.see(network, sample);
        self.doubles.of_mut(network).see(bytes, stamp)
    }

    /// Notes a frame that comes so much later than the same of the other network.
    #[inline]
    fn see_meeting(&mut self, network: Network, sample: Sample, skew: u64) {
        let other = Sample {
            stamp: sample.stamp.saturating_sub(skew),
            number: sample.number,
        };
        self.course.see(Meeting::of(network, sample, other));
    }

    /// Compares a copy with its frame, where that is the last one of the other network.
    #[inline]
    fn see_copy(&mut self, network: Network, sample: Sample, bytes: &[u8]) {
        let other = network.other();
        let is_last = match self.last.of(other) {
            Some(last) => last.number == sample.number,
            None => false,
        };
        if let Some(frame) = self.doubles.of(other).bytes()
            && is_last
        {
            self.unlike.see(frame, bytes, Stamp(sample.stamp));
        }
    }

    /// The frames on a network that have all bytes of the one before.
    pub(crate) fn doubles(&self, on: Network) -> &Doubles {
        self.doubles.of(on)
    }

    /// The silences on a network.
    pub(crate) fn silences(&self, on: Network) -> &Silences {
        self.silences.of(on)
    }

    /// Frames that both networks have, from the first on.
    pub(crate) fn course(&self) -> &[Meeting] {
        self.course.as_slice()
    }

    /// The copies that were compared with their frames.
    pub(crate) fn unlike(&self) -> &Unlike {
        &self.unlike
    }

    /// Notes the network that the source address of a frame on a network names.
    #[inline]
    pub(crate) fn see_source(&mut self, on: Network, named: Network) {
        if named != on {
            let count = self.crossed.of_mut(on);
            *count = count.saturating_add(1);
        }
    }

    /// Has a frame on this network a source address that names the other?
    pub(crate) fn is_crossed(&self, on: Network) -> bool {
        *self.crossed.of(on) > 0
    }

    /// The last frame that both networks brought, one after the other.
    pub fn last_meeting(&self) -> Option<Meeting> {
        self.last.met
    }

    /// The first frames on a network.
    pub fn starts(&self, network: Network) -> &[Sample] {
        self.starts.of(network).as_slice()
    }

    /// How many frames there are on a network.
    pub fn frames(&self, network: Network) -> u64 {
        self.starts.of(network).frames
    }

    /// How many of them are copies.
    pub fn copies(&self) -> u64 {
        self.copies.count
    }

    /// The first frame on network B that network A has too, by its number, among the first of both.
    pub fn meeting(&self) -> Option<Meeting> {
        first_meeting(self.starts(Network::A), self.starts(Network::B))
    }
}
