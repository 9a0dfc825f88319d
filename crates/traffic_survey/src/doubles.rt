//! Frames that a recording has twice, as a mirror port brings them.

use afdx_frame::Stamp;
use std::alloc::{AllocError, Global};

/// The frames of a link on one network that have all bytes of the one before, at nearly its time.
#[derive(Drop)]
pub(crate) struct Doubles {
    /// A frame comes so many nanoseconds after the one before, or later, where it is no double. 0: none is.
    near: u64,
    /// The bytes of the last frame, and when it came.
    bytes: Vec<u8>,
    stamp: Stamp,
    /// How many there are, and when the first and the last of them came.
    pub(crate) frames: u64,
    pub(crate) first: Stamp,
    pub(crate) last: Stamp,
}

impl Doubles {
    /// Of no frame.
    pub(crate) fn within(alloc: Global, near: u64) -> Doubles {
        Doubles {
            near,
            bytes: Vec::new(alloc),
            stamp: Stamp(0),
            frames: 0,
            first: Stamp(0),
            last: Stamp(0),
        }
    }

    /// The bytes of the last frame. None: they aren't held.
    #[inline]
    pub(crate) fn bytes(&self) -> Option<&[u8]> {
        if self.bytes.is_empty() {
            None
        } else {
            Some(self.bytes.as_slice())
        }
    }

    /// Looks at a frame.
    ///
    /// # Errors
    ///
    /// `AllocError` if there is no memory for its bytes.
    #[inline]
    pub(crate) fn see(&mut self, bytes: &[u8], stamp: Stamp) -> Result<(), AllocError> {
        if self.near == 0 {
            return Ok(());
        }
        let is_near = stamp.0.saturating_sub(self.stamp.0) < self.near;
        self.stamp = stamp;
        if is_near && self.bytes.as_slice() == bytes {
            self.count(stamp);
            return Ok(());
        }
        self.bytes.clear();
        self.bytes.extend_from_slice(bytes)
    }

    #[cold]
    fn count(&mut self, stamp: Stamp) {
        if self.frames == 0 {
            self.first = stamp;
        }
        self.last = stamp;
        self.frames = self.frames.saturating_add(1);
    }
}
