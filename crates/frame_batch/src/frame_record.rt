//! Where a frame stands in its block.
ghost use Rattle.std.specs.Prelude.{◌≡◌, ◌≤◌, ℕ, List, IfErr, IfOk, length, slice_range};
ghost use Rattle.afdx_frame.specs.Frame.{IsFrame, frame_with, key_of};
ghost use Rattle.afdx_frame.specs.FrameBytes.{block_bytes};
ghost use Rattle.frame_batch.specs.Batch.{IsRecordOf, record_facts, record_frame};

use afdx_frame::{Facts, FrameBlock, FrameBytes, Key, LentFrame, Network, Stamp, TapFrame};

/// Where the captured bytes of a frame stand in a block, and all else that is known of the frame. It has 32
/// bytes.
#[derive(Clone, Copy)]
pub struct FrameRecord {
    stamp: Stamp,
    number: u32,
    whole: u32,
    from: u32,
    to: u32,
    constant: u32,
    link: u16,
    sequence: u8,
    network: Network,
}

impl FrameRecord {
    /// The record of a frame whose bytes stand in a block from one index up to another.
    #[inline(always)]
    pub fn new(
        network: Network,
        number: u64,
        stamp: Stamp,
        whole: u32,
        block: &[u8],
        from: u32,
        to: u32,
    ) -> FrameRecord
        requires ordered { from ≤ to }
        requires within { to ≤ length block.now }
        requires bounds { IsFrame (frame_with network number stamp.0 whole (slice_range block.now from to)) }
        ensures frame { record_frame block.now result
            ≡ frame_with network number stamp.0 whole (slice_range block.now from to) }
        ensures fits { IsRecordOf block.now result }
    {
        let Facts {
            constant,
            link,
            sequence,
        } = Facts::of(&block[from as usize..to as usize]);
        FrameRecord {
            stamp,
            number: number as u32,
            whole,
            from,
            to,
            constant,
            link,
            sequence,
            network,
        }
    }

    /// The block and the record of a frame. An `Err` gives it back: it stands beyond 4 GiB of its block.
    pub fn of(frame: TapFrame) -> Result<(FrameBlock, FrameRecord), TapFrame>
        ensures frame { IfOk result (λ p. record_frame (block_bytes p.0) p.1 ≡ frame) }
        ensures fits { IfOk result (λ p. IsRecordOf (block_bytes p.0) p.1) }
        ensures given_back { IfErr result (λ f. f ≡ frame) }
    {
        let (network, number, stamp, whole, bytes) = frame.into_parts();
        let (block, from, to) = bytes.into_parts();
        match (u32::try_from(from), u32::try_from(to)) {
            (Ok(from), Ok(to)) => {
                let bytes = block.bytes();
                let entry = FrameRecord::new(network, number, stamp, whole, bytes, from, to);
                Ok((block, entry))
            }
            _ => {
                let bytes = FrameBytes::of(block, from, to);
                Err(TapFrame::sharing(network, number, stamp, whole, bytes).unwrap())
            }
        }
    }

    /// The frame, whose bytes stay in the block.
    #[inline(always)]
    pub fn lent<'a>(&self, block: &'a [u8]) -> LentFrame<'a>
        requires { IsRecordOf block.now self.now }
        ensures { result ≡ record_frame block.now self.now }
    {
        LentFrame::of(
            self.network,
            u64::from(self.number),
            self.stamp,
            self.whole,
            &block[self.from as usize..self.to as usize],
            self.facts(),
        )
    }

    /// The frame with its block.
    #[inline]
    pub fn frame(&self, block: FrameBlock) -> TapFrame
        requires { IsRecordOf (block_bytes block) self.now }
        ensures { result ≡ record_frame (block_bytes block) self.now }
    {
        let bytes = FrameBytes::of(block, self.from as usize, self.to as usize);
        TapFrame::sharing(
            self.network,
            u64::from(self.number),
            self.stamp,
            self.whole,
            bytes,
        )
        .unwrap()
    }

    /// The facts of the frame's bytes.
    #[inline(always)]
    fn facts(&self) -> Facts
        ensures { result ≡ record_facts self.now }
    {
        Facts {
            constant: self.constant,
            link: self.link,
            sequence: self.sequence,
        }
    }

    /// When the frame came.
    #[inline(always)]
    pub fn stamp(&self) -> Stamp
        ensures { result ≡ self.now.stamp }
    {
        self.stamp
    }

    /// The frame's place in the order of both taps.
    #[inline(always)]
    pub fn key(&self) -> Key
        ensures { (block : List ℕ) → result ≡ key_of (record_frame block self.now) }
    {
        Key {
            stamp: self.stamp,
            network: self.network,
            number: u64::from(self.number),
        }
    }
}
