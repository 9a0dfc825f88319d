//! The links of one constant field.

use crate::arrivals::Arrivals;
use crate::brief::Brief;
use crate::copies::{Copies, MAX_SKEW};
use afdx_frame::{Network, VL_ID_COUNT, VlId};
use std::alloc::{AllocError, Global};

/// The most links of a table.
pub(crate) const MAX_LINKS: usize = 4096;

/// No link yet.
const NO_LINK: u16 = u16::MAX;

/// One link by its frames.
#[derive(Drop)]
pub struct LinkSurvey {
    pub id: VlId,
    /// On network A.
    pub a: Arrivals,
    /// On network B.
    pub b: Arrivals,
    /// Of both networks.
    pub copies: Copies,
}

/// The links of one constant field, by their identifiers.
#[derive(Drop)]
pub struct Links {
    /// The place of each identifier's link.
    places: Vec<u16>,
    links: Vec<LinkSurvey>,
    /// How many frames were of links beyond the first 4096.
    pub refused: u64,
}

impl LinkSurvey {
    #[inline(never)]
    fn new(id: VlId) -> LinkSurvey {
        LinkSurvey {
            id,
            a: Arrivals::new(),
            b: Arrivals::new(),
            copies: Copies::within(MAX_SKEW),
        }
    }

    #[inline(always)]
    fn see(&mut self, network: Network, brief: &Brief) {
        match network {
            Network::A => self.a.see(brief),
            Network::B => self.b.see(brief),
        }
        let _skew = self.copies.see(network, brief.number, brief.stamp);
    }
}

impl Links {
    /// No link.
    pub(crate) fn new(alloc: Global) -> Result<Links, AllocError> {
        Ok(Links {
            places: vec![in alloc; NO_LINK; VL_ID_COUNT]?,
            links: Vec::new(alloc),
            refused: 0,
        })
    }

    /// The place of an identifier's link, if it has one.
    #[inline(always)]
    fn place(&self, id: VlId) -> usize {
        let place = self.places.get(usize::from(id.0)).copied();
        usize::from(place.unwrap_or(NO_LINK))
    }

    /// Counts a frame of a link: it allocates at the link's first frame alone.
    ///
    /// # Errors
    ///
    /// `AllocError` if there is no memory for a new link.
    #[inline]
    pub(crate) fn see(&mut self, network: Network, brief: &Brief) -> Result<(), AllocError> {
        let place = self.place(brief.link);
        match self.links.get_mut(place) {
            Some(link) => {
                link.see(network, brief);
                Ok(())
            }
            None => self.see_first(network, brief),
        }
    }

    /// Counts the first frame of a link, or one of a link beyond the most. It stands apart since a link takes
    /// much of the stack, which is cleared at each call.
    #[cold]
    #[inline(never)]
    fn see_first(&mut self, network: Network, brief: &Brief) -> Result<(), AllocError> {
        if self.links.len() >= MAX_LINKS {
            self.refused = self.refused.saturating_add(1);
            return Ok(());
        }
        let mut link = LinkSurvey::new(brief.link);
        link.see(network, brief);
        let next = self.links.len() as u16;
        if let Some(place) = self.places.get_mut(usize::from(brief.link.0)) {
            *place = next;
        }
        self.links.push(link)?;
        Ok(())
    }

    /// The link of an identifier.
    pub fn link(&self, id: VlId) -> Option<&LinkSurvey> {
        self.links.get(self.place(id))
    }
}
