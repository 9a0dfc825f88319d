//! The links of frames that weren't recorded whole.

use crate::survey::GROUP_BITS;
use afdx_frame::{LentFrame, VL_ID_COUNT, VlId};
use std::alloc::{AllocError, Global};

/// The links that have a frame that wasn't recorded whole. It is for the eye alone: no clause says what
/// it holds.
#[derive(Drop)]
pub struct CutLinks {
    /// By identifier the constant field of the first such frame, 0 where there is none. Empty until
    /// there is one.
    constants: Vec<u32>,
}

impl CutLinks {
    /// Of no frame. Allocates nothing.
    pub(crate) fn new(alloc: Global) -> CutLinks {
        CutLinks {
            constants: Vec::new(alloc),
        }
    }

    /// Notes a frame, if it wasn't recorded whole and its first bytes have a link.
    #[cold]
    pub(crate) fn note(&mut self, alloc: Global, frame: &LentFrame<'_>) -> Result<(), AllocError> {
        let (Some(constant), Some(id)) = (frame.constant(), frame.link()) else {
            return Ok(());
        };
        let is_whole = frame.captured() >= frame.whole() as usize;
        if is_whole || constant & GROUP_BITS != GROUP_BITS {
            return Ok(());
        }
        if self.constants.is_empty() {
            self.constants = vec![in alloc; 0; VL_ID_COUNT]?;
        }
        if let Some(held) = self.constants.get_mut(usize::from(id.0)) {
            if *held == 0 {
                *held = constant;
            }
        }
        Ok(())
    }

    /// The constant field of the first frame of a link that wasn't recorded whole, if it has one.
    pub fn constant_of(&self, id: VlId) -> Option<u32> {
        match self.constants.get(usize::from(id.0)) {
            Some(constant) if *constant > 0 => Some(*constant),
            _ => None,
        }
    }
}
