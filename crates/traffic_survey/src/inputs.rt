//! The counts of both recordings against a table.

use crate::kinds::{Kinds, ethertype_of};
use crate::link::LinkTally;
use crate::observer::Observer;
use crate::per_network::PerNetwork;
use crate::survey::MAX_CONSTANTS;
use crate::tap_tally::{TapTally, named_network};
use afdx_frame::{LentFrame, Network, TapFrame, VL_ID_COUNT, VlId};
use run_fault::WatchFault;
use std::alloc::{AllocError, Global};
use vl_config::{Class, Config, Link, class_by};

/// How many frames have a constant field.
#[derive(Clone, Copy, Debug)]
pub struct Constant {
    pub constant: u32,
    pub frames: u64,
}

/// The table's part of the counts.
#[derive(Drop)]
struct Listed<'a> {
    constant: u32,
    links: &'a [Link],
    /// The place of each identifier's link, or the number of links where the table lacks it.
    places: Vec<u16>,
    tallies: Vec<LinkTally>,
    /// How many frames have each identifier that the table lacks.
    unlisted: Vec<u32>,
    constants: Vec<Constant>,
    kinds: Kinds,
}

/// Two recordings as they were seen, and the links of the table if there is one.
#[derive(Drop)]
pub struct Inputs<'a> {
    taps: PerNetwork<TapTally>,
    listed: Option<Listed<'a>>,
}

/// The place of each identifier's link.
pub(crate) fn places_of(alloc: Global, links: &[Link]) -> Result<Vec<u16>, AllocError> {
    let none = links.len().min(usize::from(u16::MAX)) as u16;
    let mut places = vec![in alloc; none; VL_ID_COUNT]?;
    for (link, number) in links.iter().zip(0..none) {
        if let Some(place) = places.get_mut(usize::from(link.id.0)) {
            *place = number;
        }
    }
    Ok(places)
}

/// The counts of each link, of no frame. Without redundancy management no copy comes later than its frame.
/// With integrity checking a sender's frames of half of a BAG have other numbers: equal ones are doubles.
fn tallies_of(alloc: Global, links: &[Link]) -> Result<Vec<LinkTally>, AllocError> {
    let mut tallies = Vec::with_capacity(alloc, links.len())?;
    for link in links {
        let skew = if link.redundancy { link.skew } else { 0 };
        let near = if link.integrity { link.bag / 2 } else { 0 };
        tallies.push(LinkTally::new(alloc, skew, near))?;
    }
    Ok(tallies)
}

impl<'a> Listed<'a> {
    fn new(alloc: Global, config: &'a Config, expected: &[u16]) -> Result<Listed<'a>, AllocError> {
        let links = config.links();
        Ok(Listed {
            constant: config.constant(),
            links,
            places: places_of(alloc, links)?,
            tallies: tallies_of(alloc, links)?,
            unlisted: vec![in alloc; 0; VL_ID_COUNT]?,
            constants: Vec::new(alloc),
            kinds: Kinds::new(alloc, expected)?,
        })
    }

    /// The place of a frame's link, or the number of links where the table lacks it.
    #[inline(always)]
    fn place(&self, frame: &LentFrame<'_>) -> usize {
        let place = match frame.view().vl() {
            Some(id) => self.places.get(usize::from(id.0)).copied(),
            None => None,
        };
        place.map_or(self.links.len(), |place| usize::from(place))
    }

    /// Counts a frame by its class under the table.
    #[inline]
    fn see(&mut self, frame: &LentFrame<'_>) -> Result<Class, AllocError> {
        let place = self.place(frame);
        let smax = self.links.get(place).map(|link| link.smax);
        let class = class_by(self.constant, smax, frame);
        match class {
            Class::Cut | Class::Runt | Class::Oversize => {}
            Class::Foreign => self.see_foreign(frame)?,
            Class::Unconfigured => self.see_unlisted(frame),
            Class::TooLong | Class::Regular => self.see_link(place, frame)?,
        }
        Ok(class)
    }

    fn see_foreign(&mut self, frame: &LentFrame<'_>) -> Result<(), AllocError> {
        let is_expected = self.kinds.see(ethertype_of(frame.view().bytes()))?;
        if is_expected {
            return Ok(());
        }
        let constant = frame.view().constant().unwrap_or(0);
        see_constant(&mut self.constants, constant)
    }

    #[inline]
    fn see_unlisted(&mut self, frame: &LentFrame<'_>) {
        if let Some(VlId(id)) = frame.view().vl() {
            if let Some(count) = self.unlisted.get_mut(usize::from(id)) {
                *count = count.saturating_add(1);
            }
        }
    }

    #[inline]
    fn see_link(&mut self, place: usize, frame: &LentFrame<'_>) -> Result<(), AllocError> {
        let (network, stamp) = (frame.network(), frame.stamp());
        let view = frame.view();
        let Some(tally) = self.tallies.get_mut(place) else {
            return Ok(());
        };
        if let Some(named) = named_network(view.bytes()) {
            tally.see_source(network, named);
        }
        tally.see(network, stamp, view.sequence().unwrap_or(0), view.bytes())
    }
}

/// Counts a frame of another constant field.
fn see_constant(constants: &mut Vec<Constant>, constant: u32) -> Result<(), AllocError> {
    let held = constants.iter_mut().find(|held| held.constant == constant);
    if let Some(held) = held {
        held.frames = held.frames.saturating_add(1);
        return Ok(());
    }
    if constants.len() < MAX_CONSTANTS {
        constants.push(Constant {
            constant,
            frames: 1,
        })?;
    }
    Ok(())
}

impl<'a> Inputs<'a> {
    /// Of no frame. Foreign frames of some EtherTypes are expected; 0 stands for a length.
    ///
    /// # Errors
    ///
    /// `AllocError` if the system is out of memory.
    pub fn new(
        alloc: Global,
        config: Option<&'a Config>,
        expected: &[u16],
    ) -> Result<Inputs<'a>, AllocError> {
        let listed = match config {
            Some(config) => Some(Listed::new(alloc, config, expected)?),
            None => None,
        };
        Ok(Inputs {
            taps: PerNetwork {
                a: TapTally::new(),
                b: TapTally::new(),
            },
            listed,
        })
    }

    /// The counts of a recording.
    pub fn tap(&self, network: Network) -> &TapTally {
        self.taps.of(network)
    }

    /// The links of the table with their counts, none without a table.
    pub fn links(&self) -> &[Link] {
        match &self.listed {
            Some(listed) => listed.links,
            None => &[],
        }
    }

    /// The counts of the table's links, in their order.
    pub fn tallies(&self) -> &[LinkTally] {
        match &self.listed {
            Some(listed) => listed.tallies.as_slice(),
            None => &[],
        }
    }

    /// How many frames of an identifier there are that the table lacks.
    pub fn unlisted(&self, id: VlId) -> u32 {
        let count = match &self.listed {
            Some(listed) => listed.unlisted.get(usize::from(id.0)).copied(),
            None => None,
        };
        count.unwrap_or(0)
    }

    /// The foreign frames by what they carry, if there is a table.
    pub fn kinds(&self) -> Option<&Kinds> {
        match &self.listed {
            Some(listed) => Some(&listed.kinds),
            None => None,
        }
    }

    /// How many foreign frames are expected.
    pub(crate) fn expected(&self) -> u64 {
        self.kinds().map_or(0, |kinds| kinds.expected_frames())
    }

    /// The first constant fields that were met beside the table's, in the order of their first frames.
    pub(crate) fn constants(&self) -> &[Constant] {
        match &self.listed {
            Some(listed) => listed.constants.as_slice(),
            None => &[],
        }
    }
}

impl Observer for Inputs<'_> {
    /// Frames wait as they are.
    #[inline(always)]
    fn keep(&mut self, _alloc: Global, frame: TapFrame) -> Result<TapFrame, AllocError> {
        Ok(frame)
    }

    #[inline]
    fn see(&mut self, _alloc: Global, frame: &LentFrame<'_>) -> Result<(), WatchFault> {
        let class = match &mut self.listed {
            Some(listed) => Some(listed.see(frame)?),
            None => None,
        };
        self.taps.of_mut(frame.network()).see(frame, class);
        Ok(())
    }
}
