//! The facts that a frame's bytes say: its address, and its place among its link's frames.
ghost use Rattle.afdx_frame.specs.Facts.{AreFactsOf};

use crate::view::FrameView;

/// The address and the sequence number of a frame, read once, so that who judges the frame needn't touch its
/// bytes. Each is 0 where too few bytes were captured.
#[derive(Clone, Copy, Debug)]
pub struct Facts {
    /// The constant field of the destination address.
    pub constant: u32,
    /// The virtual link's identifier.
    pub link: u16,
    /// The last byte.
    pub sequence: u8,
}

impl Facts {
    /// The facts that these bytes say.
    #[inline(always)]
    pub fn of(bytes: &[u8]) -> Facts
        ensures { AreFactsOf bytes.now result }
    {
        let view = FrameView::new(bytes);
        Facts {
            constant: view.constant().unwrap_or(0),
            link: match view.vl() {
                Some(id) => id.0,
                None => 0,
            },
            sequence: view.sequence().unwrap_or(0),
        }
    }
}
