//! The survey of a network by its recordings: its constant field and its links.

use crate::brief::Brief;
use crate::links::Links;
use afdx_frame::{LentFrame, Network};
use std::alloc::{AllocError, Global};

/// How many constant fields are kept.
pub(crate) const MAX_CONSTANTS: usize = 8;

/// The bits that a constant field has set: a group address, locally administered (IEEE 802.3).
pub const GROUP_BITS: u32 = 0x0300_0000;
/// An Ethernet frame's lengths without its frame check sequence, in bytes (IEEE 802.3).
const LEAST_LENGTH: u32 = 60;

const GREATEST_LENGTH: u32 = 1514;

/// Was a frame recorded whole, and has it an Ethernet frame's length?
#[inline(always)]
pub(crate) fn is_ethernet(frame: &LentFrame<'_>) -> bool {
    let whole = frame.whole();
    whole as usize <= frame.view().bytes().len()
        && LEAST_LENGTH <= whole
        && whole <= GREATEST_LENGTH
}

/// The frames of one constant field.
#[derive(Drop)]
pub struct Field {
    pub constant: u32,
    pub frames: u64,
    pub links: Links,
}

/// The survey of a network.
#[derive(Drop)]
pub struct Survey {
    wanted: Option<u32>,
    /// The constant fields that were kept, in the order of their first frames.
    pub fields: Vec<Field>,
    /// How many frames had a constant field that wasn't kept.
    pub others: u64,
    /// How many frames weren't recorded whole, or are below 60 or above 1514 bytes.
    pub unusable: u64,
}

impl Survey {
    /// Of no frame. With `wanted` the frames of that constant field alone are looked at.
    pub(crate) fn new(alloc: Global, wanted: Option<u32>) -> Survey {
        Survey {
            wanted,
            fields: Vec::new(alloc),
            others: 0,
            unusable: 0,
        }
    }

    /// Counts a frame that can't be counted by its link.
    pub(crate) fn skip(&mut self) {
        self.unusable = self.unusable.saturating_add(1);
    }

    /// Counts the next frame of a network.
    ///
    /// # Errors
    ///
    /// `AllocError` if there is no memory for a new constant field or a new link.
    #[inline]
    pub(crate) fn see(
        &mut self,
        alloc: Global,
        network: Network,
        brief: &Brief,
    ) -> Result<(), AllocError> {
        let place = self.place_of(alloc, brief.constant)?;
        match self.fields.get_mut(place) {
            Some(field) => {
                field.frames = field.frames.saturating_add(1);
                field.links.see(network, brief)
            }
            None => {
                self.others = self.others.saturating_add(1);
                Ok(())
            }
        }
    }

    /// The place of a constant field, which is made at its first frame. The number of fields: it isn't kept.
    #[inline]
    fn place_of(&mut self, alloc: Global, constant: u32) -> Result<usize, AllocError> {
        let held = self
            .fields
            .iter()
            .position(|field| field.constant == constant);
        let place = held.unwrap_or(self.fields.len());
        if held.is_none() && place < MAX_CONSTANTS && self.is_kept(constant) {
            self.fields.push(Field {
                constant,
                frames: 0,
                links: Links::new(alloc)?,
            })?;
        }
        Ok(place)
    }

    fn is_kept(&self, constant: u32) -> bool {
        match self.wanted {
            Some(wanted) => constant == wanted,
            None => constant & GROUP_BITS == GROUP_BITS,
        }
    }

    /// The constant field that most frames have, the first seen of several. None: no frame has one.
    pub fn main_field(&self) -> Option<&Field> {
        let mut main: Option<&Field> = None;
        for field in &self.fields {
            let more = match main {
                Some(best) => field.frames > best.frames,
                None => true,
            };
            if more {
                main = Some(field);
            }
        }
        main
    }
}
