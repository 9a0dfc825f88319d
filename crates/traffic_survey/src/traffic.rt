//! The traffic of a run beside what its ledger tells: other traffic by kind, tags, and source addresses that
//! name the other network.

use crate::crossed::Crossed;
use crate::inputs::places_of;
use crate::kinds::{Kinds, ethertype_of};
use crate::per_network::PerNetwork;
use crate::tap_tally::{TAG, named_network};
use afdx_frame::{LentFrame, Network, VlId};
use std::alloc::{AllocError, Global};
use vl_config::{Class, Config, Link, class_by};

/// The frames of a link on a network whose source addresses name the other one (ARINC 664 Part 7: the last
/// byte of a source address names its network).
#[derive(Clone, Copy)]
pub struct CrossedFrames {
    pub link: VlId,
    /// How many there are, and how many frames the link has there in all.
    pub frames: u64,
    pub of: u64,
    /// The timestamps of the first and the last, in nanoseconds since 1970.
    pub first: u64,
    pub last: u64,
}

/// The counts of a run's frames, in memory bounded by the table's links.
#[derive(Drop)]
pub struct Traffic<'t> {
    constant: u32,
    links: &'t [Link],
    /// The place of each identifier's link, or the number of links where the table lacks it.
    places: Vec<u16>,
    /// By a link's place.
    crossed: PerNetwork<Vec<Crossed>>,
    kinds: PerNetwork<Kinds>,
    tagged: PerNetwork<u64>,
}

impl<'t> Traffic<'t> {
    /// Of no frame, against a table.
    ///
    /// # Errors
    ///
    /// `AllocError` if the system is out of memory.
    pub fn new(alloc: Global, config: &'t Config) -> Result<Traffic<'t>, AllocError> {
        let links = config.links();
        Ok(Traffic {
            constant: config.constant(),
            links,
            places: places_of(alloc, links)?,
            crossed: PerNetwork {
                a: vec![in alloc; Crossed::new(); links.len()]?,
                b: vec![in alloc; Crossed::new(); links.len()]?,
            },
            kinds: PerNetwork {
                a: Kinds::new(alloc, &[])?,
                b: Kinds::new(alloc, &[])?,
            },
            tagged: PerNetwork { a: 0, b: 0 },
        })
    }

    /// Counts a frame.
    ///
    /// # Errors
    ///
    /// `AllocError` if there is no memory for one more kind.
    #[inline]
    pub fn see(&mut self, frame: &LentFrame<'_>) -> Result<(), AllocError> {
        let view = frame.view();
        let place = match view.vl() {
            Some(id) => self.places.get(usize::from(id.0)).copied(),
            None => None,
        };
        let place = place.map_or(self.links.len(), |place| usize::from(place));
        let smax = self.links.get(place).map(|link| link.smax);
        let network = frame.network();
        if ethertype_of(view.bytes()) == TAG {
            let tagged = self.tagged.of_mut(network);
            *tagged = tagged.saturating_add(1);
        }
        match class_by(self.constant, smax, frame) {
            Class::Foreign => {
                let _other = self.kinds.of_mut(network).see(ethertype_of(view.bytes()))?;
            }
            Class::TooLong | Class::Regular => {
                if let Some(crossed) = self.crossed.of_mut(network).get_mut(place) {
                    crossed.see(network, named_network(view.bytes()), frame.stamp());
                }
            }
            Class::Cut | Class::Runt | Class::Oversize | Class::Unconfigured => {}
        }
        Ok(())
    }

    /// The foreign frames of a network by what they carry.
    pub fn kinds(&self, network: Network) -> &Kinds {
        self.kinds.of(network)
    }

    /// How many frames of a network have an 802.1Q tag.
    pub fn tagged(&self, network: Network) -> u64 {
        *self.tagged.of(network)
    }

    /// The links on a network whose source addresses name the other one, by identifier; only where nearly all
    /// source addresses of a link name a network.
    ///
    /// # Errors
    ///
    /// `AllocError` if there is no memory for them.
    pub fn crossed(
        &self,
        alloc: Global,
        network: Network,
    ) -> Result<Vec<CrossedFrames>, AllocError> {
        let mut found = Vec::new(alloc);
        for (link, crossed) in self.links.iter().zip(self.crossed.of(network).iter()) {
            if let Some(others) = crossed.others() {
                found.push(CrossedFrames {
                    link: link.id,
                    frames: others.frames,
                    of: others.of,
                    first: others.first.0,
                    last: others.last.0,
                })?;
            }
        }
        Ok(found)
    }
}
