//! The part of a reader that needs no source: its place, and what the bytes at that place begin.
ghost use Rattle.std.specs.Prelude.{◌≡◌, ◌<◌, ◌≤◌, ◌^◌, length, slice_range};
ghost use Rattle.frame_batch.specs.Batch.{IsRecordOf, record_frame};
ghost use Rattle.pcap_io.specs.Bytes.{IsBytes};
ghost use Rattle.pcap_io.specs.Layout.{fractions_of};
ghost use Rattle.pcap_io.specs.Position.{EndsShort, IsStartOf, frame_at, after_frame};

use crate::layout::Layout;
use crate::packet_header::{PACKET_HEADER_LEN, PacketHeader};
use crate::recording::{BadReason, Ending, Stage};
use crate::told::Told;
use afdx_frame::{MAX_SNAPLEN, Network, Stamp};
use frame_batch::FrameRecord;

/// Where a reader stands in its recording.
#[derive(Clone, Copy)]
pub struct Position {
    pub network: Network,
    pub layout: Layout,
    /// How many packets are read at most.
    pub most: u64,
    /// How far below the greatest timestamp before it a timestamp may lie, in nanoseconds.
    pub late: u64,
    /// How many packets were read.
    pub count: u64,
    /// Their greatest timestamp, 0 where there is none.
    pub high: u64,
    pub stage: Stage,
}

impl Position {
    /// Goes past a frame of this timestamp.
    #[inline(always)]
    pub fn pass_frame(&mut self, stamp: u64)
        requires { self.old.count < self.old.most }
        ensures { self.new ≡ after_frame self.old stamp }
    {
        self.count += 1;
        self.high = self.high.max(stamp);
    }

    /// The frame of a packet that stands here, whose bytes stand in a block from one index up to another.
    #[inline(always)]
    pub fn record(&self, header: &PacketHeader, block: &[u8], from: usize, to: usize) -> FrameRecord
        requires bounded { self.now.count < 2 ^ 32 }
        requires within_second { header.now.fraction < fractions_of self.now.layout.precision }
        requires ordered { from ≤ to }
        requires within { to ≤ length block.now }
        requires few_bytes { length block.now ≤ MAX_SNAPLEN }
        ensures frame { record_frame block.now result
            ≡ frame_at self.now header.now (slice_range block.now from to) }
        ensures fits { IsRecordOf block.now result }
    {
        let stamp = Stamp(header.stamp(self.layout));
        let whole = header.original_len.max((to - from) as u32);
        FrameRecord::new(
            self.network,
            self.count,
            stamp,
            whole,
            block,
            from as u32,
            to as u32,
        )
    }
}

/// The kinds of things that stand at a reader's place.
#[derive(Clone, Copy)]
pub enum Start {
    /// The header of a packet that may stand there.
    Header(PacketHeader),
    /// The ending.
    End(Ending),
}

/// The thing that the bytes at a reader's place begin, the first `came` of which are there. Where none is,
/// the source says this.
#[inline(always)]
pub fn start_of(position: &Position, bytes: &[u8], came: usize, told: Told) -> Start
    requires size { length bytes.now ≡ PACKET_HEADER_LEN }
    requires within { came ≤ PACKET_HEADER_LEN }
    ensures found { IsStartOf position.now told bytes.now came result }
    ensures short { EndsShort came result }
    ensures fits { IsBytes bytes.now }
{
    let count = position.count;
    if came == 0 {
        return Start::End(told.ending(count, position.most));
    }
    if count == position.most {
        return Start::End(Ending::Bad(count, BadReason::TooMany));
    }
    if came < PACKET_HEADER_LEN {
        return Start::End(Ending::Cut(count));
    }
    let header = PacketHeader::read(position.layout, bytes);
    match header.reason(position.layout, position.late, position.high) {
        Some(reason) => Start::End(Ending::Bad(count, reason)),
        None => Start::Header(header),
    }
}
