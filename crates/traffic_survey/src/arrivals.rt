//! All that is kept of a link's frames on one network.

use crate::brief::Brief;
use crate::gaps::Gaps;
use crate::needs::Needs;
use crate::numbering::Numbering;
use afdx_frame::Stamp;

/// The parameters of a link by its frames on one network.
#[derive(Drop)]
pub struct Arrivals {
    /// How many frames there are.
    pub frames: u64,
    /// The greatest length, in bytes without the frame check sequence.
    pub greatest_len: u32,
    last: Option<Stamp>,
    /// The gaps between frames.
    pub gaps: Gaps,
    /// The jitter that the frames need, for each BAG.
    pub needs: Needs,
    /// The verdicts on the sequence numbers.
    pub numbering: Numbering,
}

impl Arrivals {
    /// No frame.
    pub(crate) fn new() -> Arrivals {
        Arrivals {
            frames: 0,
            greatest_len: 0,
            last: None,
            gaps: Gaps::new(),
            needs: Needs::new(),
            numbering: Numbering::new(),
        }
    }

    /// Counts a frame. Before a timestamp below that of the frame before the gap counts as 0.
    #[inline(always)]
    pub(crate) fn see(&mut self, brief: &Brief) {
        let stamp = brief.stamp;
        self.frames = self.frames.saturating_add(1);
        self.greatest_len = self.greatest_len.max(brief.whole);
        self.numbering.see(brief.number);
        if let Some(last) = self.last.replace(stamp) {
            let gap = stamp.0.saturating_sub(last.0);
            self.gaps.step(gap);
            self.needs.step(gap, stamp);
        }
    }
}
