//! Reads the frames of a recording.
ghost use Rattle.std.specs.Prelude.{◌≡◌, true, ◌+◌, ◌<◌, ◌≤◌, ◌^◌, [], length, drop, Some, Ok, Err, IfOk, IfErr, OnOk, OnErr, IfSome, IsFalse, IsTrue, max, ◌↔◌};
ghost use Rattle.afdx_frame.specs.Frame.{IsFrame};
ghost use Rattle.pcap_io.specs.Batches.{AddsFrame, AddsFrames, GivesBatch, HasAtMost, IsHeld, taken_item};
ghost use Rattle.pcap_io.specs.Device.{CountsFailure, TakesAtMost, TakesFewer};
ghost use Rattle.pcap_io.specs.Layout.{header_of};
ghost use Rattle.afdx_frame.specs.declared.bounds.TheConstants.{MAX_SNAPLEN};
ghost use Rattle.pcap_io.specs.declared.layout.TheConstants.{FILE_HEADER_LEN};
ghost use Rattle.pcap_io.specs.declared.packet_header.TheConstants.{PACKET_HEADER_LEN};
ghost use Rattle.pcap_io.specs.Position.{Advances, HasRoom, HoldsPacket, IsNext, IsOpenFault, IsReadFault, IsStart, ItemLeaves, LacksBytes, Opens, StartLeaves, TakesAPacket, after_item, found_item, start_at};
ghost use Rattle.pcap_io.specs.Told.{StaysTold, Tells};

use crate::block::BlockSource;
use crate::device::{DeviceFault, TapSource};
use crate::item::{Batched, Found, Item, ReadFault, Taken};
use crate::layout::{FILE_HEADER_LEN, HeaderFault, Layout, layout_of};
use crate::packet_header::{PACKET_HEADER_LEN, PacketHeader};
use crate::position::{Position, Start, start_of};
use crate::recording::{Ending, Stage};
use crate::told::Told;
use crate::transfer::fill;
use afdx_frame::{LentFrame, Network, Stamp};
use frame_batch::FrameBatch;
use std::alloc::Global;
use thiserror::Error;

/// Why a reader wasn't opened.
#[derive(Clone, Copy, Debug, PartialEq, Eq, Error)]
pub enum OpenFault {
    /// The bytes don't begin with a file header that is read here.
    #[error("{0}")]
    Header(HeaderFault),
    /// The source failed.
    #[error("the device failed")]
    Device,
}

impl From<DeviceFault> for OpenFault {
    ghost use Rattle.pcap_io.specs.declared.reader.OpenFault.TheVariants.{Device};

    ghost from_gives = { λ _ e. e ≡ Device };

    fn from(_fault: DeviceFault) -> OpenFault {
        OpenFault::Device
    }
}

impl From<HeaderFault> for OpenFault {
    ghost use Rattle.pcap_io.specs.declared.reader.OpenFault.TheVariants.{Header};

    ghost from_gives = { λ f e. e ≡ Header f };

    fn from(fault: HeaderFault) -> OpenFault {
        OpenFault::Header(fault)
    }
}

/// A source that no reader was opened on, and why.
#[derive(Drop)]
pub struct OpenRefused<S> {
    pub source: S,
    pub fault: OpenFault,
}

/// Reads the file header.
fn read_layout<S: TapSource>(source: &mut S) -> Result<Layout, OpenFault>
    ensures layout { IfOk result (Opens (S.told source.old)
        (S.remaining source.old) (S.remaining source.new)) }
    ensures no_failure { OnOk result (S.failures source.new ≡ S.failures source.old) }
    ensures told { StaysTold (S.remaining source.old) (S.told source.old) (S.told source.new) }
    ensures fault { IfErr result (IsOpenFault (S.told source.old) (S.remaining source.old)
        (S.failures source.old) (S.failures source.new)) }
    ensures taken { OnErr result
        (TakesAtMost FILE_HEADER_LEN (S.remaining source.old) (S.remaining source.new)) }
    ensures unfinished { result ≡ Err OpenFault.Device
        → TakesFewer FILE_HEADER_LEN (S.remaining source.old) (S.remaining source.new) }
{
    let mut header = [0u8; FILE_HEADER_LEN];
    let came = fill(source, &mut header)?;
    if came < FILE_HEADER_LEN {
        return Err(OpenFault::Header(source.told().fault()));
    }
    Ok(layout_of(&header)?)
}

/// Reads the frames of one network's recording (pcap savefile format 2.4), one after another.
///
/// It reads the data of its source ahead, a block of 64 KiB at a time, or more for a longer packet.
/// `advance` goes on to the next frame, which `frame` lends out of the block; `next` gives a frame
/// that lasts, whose bytes stand in the block: that is filled again once no such frame is left.
#[derive(Drop)]
pub struct TapReader<S> {
    input: BlockSource<S>,
    position: Position,
    /// The index, the timestamp and the length on the wire of the frame that was found last.
    number: u64,
    stamp: u64,
    whole: u32,
    ghost bounded: { position.count ≤ position.most },
    ghost most: { position.most ≤ 2 ^ 32 },
}

impl<S: TapSource> TapReader<S> {
    ghost use Rattle.pcap_io.specs.declared.recording.Stage.TheVariants.{Going, Ended, Failed};
    ghost use Rattle.pcap_io.specs.declared.item.Batched.TheVariants as batches;
    ghost use Rattle.pcap_io.specs.declared.item.Item.TheVariants as items;
    ghost use Rattle.pcap_io.specs.declared.item.Taken.TheVariants as takes;
    ghost use Rattle.pcap_io.specs.declared.item.Found.TheVariants as founds;
    ghost use Rattle.pcap_io.specs.declared.item.ReadFault.TheVariants as faults;
    ghost use Rattle.pcap_io.specs.declared.recording.Ending.{Ending};
    ghost use Rattle.pcap_io.specs.Reader.{block_of, lent_of, position_of, reading_of, remaining_of};
    ghost use Rattle.pcap_io.specs.Reader.{source_of, unread_of};

    /// Reads the file header, and stands at the first packet. At most `most` packets are read, and
    /// a timestamp may lie `late` nanoseconds below the greatest before it. A refusal gives the source
    /// back. Allocates nothing.
    pub fn open(
        source: S,
        network: Network,
        most: u64,
        late: u64,
    ) -> Result<TapReader<S>, OpenRefused<S>>
        requires { most ≤ 2 ^ 32 }
        // The header's layout is kept, and the header is gone. Nothing is read ahead.
        ensures opened { IfOk result (λ r. Opens (S.told source) (S.remaining source)
            (S.remaining (source_of r)) (position_of r).layout) }
        ensures unread { IfOk result (λ r. unread_of r ≡ []) }
        ensures remaining { IfOk result (λ r.
            remaining_of S.remaining r ≡ S.remaining (source_of r)) }
        ensures start { IfOk result (λ r.
            position_of r ≡ start_at network (position_of r).layout most late) }
        ensures no_failure { IfOk result (λ r. S.failures (source_of r) ≡ S.failures source) }
        ensures told { IfOk result (λ r. StaysTold (S.remaining source)
            (S.told source) (S.told (source_of r))) }
        ensures fault { IfErr result (λ e. IsOpenFault (S.told source) (S.remaining source)
            (S.failures source) (S.failures e.source) e.fault) }
        // No more than a file header is gone from the source that is given back.
        ensures taken { IfErr result (λ e.
            TakesAtMost FILE_HEADER_LEN (S.remaining source) (S.remaining e.source)) }
        ensures unfinished { IfErr result (λ e. e.fault ≡ OpenFault.Device
            → TakesFewer FILE_HEADER_LEN (S.remaining source) (S.remaining e.source)) }
    {
        let mut source = source;
        match read_layout(&mut source) {
            Ok(layout) => Ok(TapReader {
                input: BlockSource::new(source),
                position: Position {
                    network,
                    layout,
                    most,
                    late,
                    count: 0,
                    high: 0,
                    stage: Stage::Going,
                },
                number: 0,
                stamp: 0,
                whole: 0,
            }),
            Err(fault) => Err(OpenRefused { source, fault }),
        }
    }

    /// The same reader, which reads ahead in blocks of `len` bytes, at most
    /// [`MAX_SNAPLEN`](afdx_frame::MAX_SNAPLEN), and not of 64 KiB. A longer packet still has its room.
    /// A reader that has found frames keeps the block that it has.
    pub fn with_block_len(self, len: usize) -> TapReader<S>
        ensures position { position_of result ≡ position_of self }
        ensures source { source_of result ≡ source_of self }
        ensures unread { unread_of result ≡ unread_of self }
        ensures lent { lent_of result ≡ lent_of self }
    {
        let mut reader = self;
        reader.input = reader.input.with_block_len(len);
        reader
    }

    /// The source's word, where the bytes of a packet's header were to come and none did.
    #[inline(always)]
    fn told_after(&self, came: usize) -> Told
        ensures { came ≡ 0 → S.is_over (source_of self.now) ≡ true
            → Tells (remaining_of S.remaining self.now) result (S.told (source_of self.now)) }
    {
        if came > 0 {
            return Told::Nothing;
        }
        self.input.source().told()
    }

    /// Reads the header of the next packet.
    #[inline(always)]
    fn read_header(&mut self) -> Result<Start, DeviceFault>
        ensures start { IfOk result (IsStart (position_of self.old) (S.told (source_of self.old))
            (remaining_of S.remaining self.old) (remaining_of S.remaining self.new)) }
        ensures position { position_of self.new ≡ position_of self.old }
        ensures told { StaysTold (remaining_of S.remaining self.old)
            (S.told (source_of self.old)) (S.told (source_of self.new)) }
        ensures no_failure { OnOk result
            (S.failures (source_of self.new) ≡ S.failures (source_of self.old)) }
        ensures fault { OnErr result (CountsFailure
            (S.failures (source_of self.old)) (S.failures (source_of self.new))) }
        ensures taken { TakesAtMost PACKET_HEADER_LEN
            (remaining_of S.remaining self.old) (remaining_of S.remaining self.new) }
        ensures unfinished { OnErr result (TakesFewer PACKET_HEADER_LEN
            (remaining_of S.remaining self.old) (remaining_of S.remaining self.new)) }
        ensures none_unread { OnErr result (unread_of self.new ≡ []) }
        ensures left { IfOk result (StartLeaves
            (remaining_of S.remaining self.old) (remaining_of S.remaining self.new)) }
    {
        let mut bytes = [0u8; PACKET_HEADER_LEN];
        let came = self.input.draw_into(&mut bytes)?;
        Ok(start_of(&self.position, &bytes, came, self.told_after(came)))
    }

    /// Draws the next packet, or finds the ending.
    #[inline(always)]
    fn find(&mut self, alloc: Global) -> Result<Found, ReadFault>
        ensures item { IfOk result (λ a. IsNext (position_of self.old) (S.told (source_of self.old))
            (remaining_of S.remaining self.old) (remaining_of S.remaining self.new)
            (found_item (lent_of self.new) a)) }
        ensures room { IfOk result (λ a. HasRoom (position_of self.old) (found_item (lent_of self.new) a)) }
        ensures position { position_of self.new ≡ position_of self.old }
        ensures told { StaysTold (remaining_of S.remaining self.old)
            (S.told (source_of self.old)) (S.told (source_of self.new)) }
        ensures no_failure { OnOk result
            (S.failures (source_of self.new) ≡ S.failures (source_of self.old)) }
        ensures fault { IfErr result (IsReadFault (position_of self.old)
            (remaining_of S.remaining self.old) (remaining_of S.remaining self.new)
            (S.failures (source_of self.old)) (S.failures (source_of self.new))) }
        ensures unfinished { OnErr result (LacksBytes (position_of self.old)
            (remaining_of S.remaining self.old) (remaining_of S.remaining self.new)
            (unread_of self.new)) }
        ensures taken { TakesAPacket
            (remaining_of S.remaining self.old) (remaining_of S.remaining self.new) }
        ensures left { IfOk result (λ a. ItemLeaves (remaining_of S.remaining self.old)
            (remaining_of S.remaining self.new) (found_item (lent_of self.new) a)) }
        ensures frame { result ≡ Ok founds.Frame → IsFrame (lent_of self.new) }
    {
        let header = match self.read_header()? {
            Start::Header(header) => header,
            Start::End(ending) => return Ok(Found::End(ending)),
        };
        if !self.input.draw(alloc, header.captured_len as usize)? {
            return Ok(Found::End(Ending::Cut(self.position.count)));
        }
        self.number = self.position.count;
        self.stamp = header.stamp(self.position.layout);
        self.whole = header.original_len.max(header.captured_len);
        Ok(Found::Frame)
    }

    /// Draws the next packet, with a share of the block, or finds the ending.
    #[inline(always)]
    fn take(&mut self, alloc: Global) -> Result<Taken, ReadFault>
        requires { (position_of self.old).stage ≡ Going }
        ensures item { IfOk result (λ a. IsNext (position_of self.old) (S.told (source_of self.old))
            (remaining_of S.remaining self.old) (remaining_of S.remaining self.new) (taken_item a)) }
        ensures room { IfOk result (λ a. HasRoom (position_of self.old) (taken_item a)) }
        ensures held { IfOk result (IsHeld (position_of self.new) (block_of self.new)) }
        ensures position { position_of self.new ≡ position_of self.old }
        ensures told { StaysTold (remaining_of S.remaining self.old)
            (S.told (source_of self.old)) (S.told (source_of self.new)) }
        ensures no_failure { OnOk result
            (S.failures (source_of self.new) ≡ S.failures (source_of self.old)) }
        ensures fault { IfErr result (IsReadFault (position_of self.old)
            (remaining_of S.remaining self.old) (remaining_of S.remaining self.new)
            (S.failures (source_of self.old)) (S.failures (source_of self.new))) }
        ensures taken { TakesAPacket
            (remaining_of S.remaining self.old) (remaining_of S.remaining self.new) }
        ensures left { IfOk result (λ a. ItemLeaves (remaining_of S.remaining self.old)
            (remaining_of S.remaining self.new) (taken_item a)) }
        ensures unfinished { result ≡ Err faults.Device → LacksBytes (position_of self.old)
            (remaining_of S.remaining self.old) (remaining_of S.remaining self.new)
            (unread_of self.new) }
    {
        let header = match self.read_header()? {
            Start::Header(header) => header,
            Start::End(ending) => return Ok(Taken::End(ending)),
        };
        match self.input.draw_shared(alloc, header.captured_len as usize)? {
            Some(part) => {
                let block = part.block.bytes();
                let record = self.position.record(&header, block, part.from, part.to);
                Ok(Taken::Frame(part.block, record))
            }
            None => Ok(Taken::End(Ending::Cut(self.position.count))),
        }
    }

    /// Goes on to the next frame, which `frame` lends, or to the ending, which is found again at
    /// each later call. After a fault each later call returns `Failed`.
    ///
    /// It allocates only where a block is first made, and where a packet is longer than the block.
    #[inline(always)]
    pub fn advance(&mut self, alloc: Global) -> Result<Found, ReadFault>
        ensures advances { Advances (found_item (lent_of self.new))
            (reading_of S.remaining S.failures S.told self.old)
            (reading_of S.remaining S.failures S.told self.new) result }
        // Fewer bytes came than the next packet needs: no frame that came whole is lost.
        ensures unfinished { (position_of self.old).stage ≡ Going → OnErr result
            (LacksBytes (position_of self.old) (remaining_of S.remaining self.old)
            (remaining_of S.remaining self.new) (unread_of self.new)) }
        // The frame stands to be lent.
        ensures frame { result ≡ Ok founds.Frame → IsFrame (lent_of self.new) }
        ensures ended { (e : Ending) → (position_of self.old).stage ≡ Ended e
            → (result ≡ Ok (founds.End e)) × (self.new ≡ self.old) }
        ensures failed { (position_of self.old).stage ≡ Failed
            → (result ≡ Err faults.Failed) × (self.new ≡ self.old) }
    {
        match self.position.stage {
            Stage::Failed => return Err(ReadFault::Failed),
            Stage::Ended(ending) => return Ok(Found::End(ending)),
            Stage::Going => {}
        }
        match self.find(alloc) {
            Ok(Found::Frame) => {
                self.position.pass_frame(self.stamp);
                Ok(Found::Frame)
            }
            Ok(Found::End(ending)) => {
                self.position.stage = Stage::Ended(ending);
                Ok(Found::End(ending))
            }
            Err(fault) => {
                self.position.stage = Stage::Failed;
                Err(fault)
            }
        }
    }

    /// The frame that the last `advance` found. Its bytes are lent out of the reader's block until
    /// the next call.
    #[inline(always)]
    pub fn frame(&self) -> LentFrame<'_>
        requires { IsFrame (lent_of self.now) }
        ensures { result ≡ lent_of self.now }
    {
        LentFrame::new(
            self.position.network,
            self.number,
            Stamp(self.stamp),
            self.whole,
            self.input.drawn(),
        )
        .unwrap()
    }

    /// Goes on to the next frame, which it gives with a share of the block, or to the ending.
    #[inline(always)]
    fn advance_shared(&mut self, alloc: Global) -> Result<Taken, ReadFault>
        ensures advances { Advances taken_item (reading_of S.remaining S.failures S.told self.old)
            (reading_of S.remaining S.failures S.told self.new) result }
        ensures held { IfOk result (IsHeld (position_of self.new) (block_of self.new)) }
        ensures unfinished { (position_of self.old).stage ≡ Going → result ≡ Err faults.Device
            → LacksBytes (position_of self.old) (remaining_of S.remaining self.old)
            (remaining_of S.remaining self.new) (unread_of self.new) }
        ensures ended { (e : Ending) → (position_of self.old).stage ≡ Ended e
            → (result ≡ Ok (takes.End e)) × (self.new ≡ self.old) }
        ensures failed { (position_of self.old).stage ≡ Failed
            → (result ≡ Err faults.Failed) × (self.new ≡ self.old) }
    {
        match self.position.stage {
            Stage::Failed => return Err(ReadFault::Failed),
            Stage::Ended(ending) => return Ok(Taken::End(ending)),
            Stage::Going => {}
        }
        match self.take(alloc) {
            Ok(Taken::Frame(block, record)) => {
                self.position.pass_frame(record.stamp().0);
                Ok(Taken::Frame(block, record))
            }
            Ok(Taken::End(ending)) => {
                self.position.stage = Stage::Ended(ending);
                Ok(Taken::End(ending))
            }
            Err(fault) => {
                self.position.stage = Stage::Failed;
                Err(fault)
            }
        }
    }

    /// The next frame, whose bytes stand in the reader's block, or the ending, which is given again at
    /// each later call. After a fault each later call returns `Failed`.
    ///
    /// A block that frames still share stays as it is, and the reader goes on in another one. So it allocates
    /// where a frame is longer than the block or the first of one, and where no earlier block has
    /// come free. `Memory` may come for any packet of at least one byte, as the contract of an `Arc` lets it
    /// refuse another owner at any time.
    pub fn next(&mut self, alloc: Global) -> Result<Item, ReadFault>
        ensures advances { Advances (λ item. item) (reading_of S.remaining S.failures S.told self.old)
            (reading_of S.remaining S.failures S.told self.new) result }
        // The source failed before it gave a whole packet: no frame that came whole is lost.
        ensures unfinished { (position_of self.old).stage ≡ Going → result ≡ Err faults.Device
            → LacksBytes (position_of self.old) (remaining_of S.remaining self.old)
            (remaining_of S.remaining self.new) (unread_of self.new) }
        ensures ended { (e : Ending) → (position_of self.old).stage ≡ Ended e
            → (result ≡ Ok (items.End e)) × (self.new ≡ self.old) }
        ensures failed { (position_of self.old).stage ≡ Failed
            → (result ≡ Err faults.Failed) × (self.new ≡ self.old) }
    {
        match self.advance_shared(alloc) {
            Ok(Taken::Frame(block, record)) => Ok(Item::Frame(record.frame(block))),
            Ok(Taken::End(ending)) => Ok(Item::End(ending)),
            Err(fault) => Err(fault),
        }
    }

    /// The next frames, in one block: what [`next`](TapReader::next) would give, and then the good frames
    /// that stand whole in the block already, at most `most` in all, or one where that is 0. The ending and a
    /// fault come alone, as those of `next`.
    ///
    /// It gives fewer frames where there is no memory for a table of them, and one alone where the first has
    /// no bytes.
    pub fn next_batch(&mut self, alloc: Global, most: usize) -> Result<Batched, ReadFault>
        ensures gives { GivesBatch (reading_of S.remaining S.failures S.told self.old)
            (reading_of S.remaining S.failures S.told self.new) result }
        ensures count { IfOk result (HasAtMost most) }
        ensures unfinished { (position_of self.old).stage ≡ Going → result ≡ Err faults.Device
            → LacksBytes (position_of self.old) (remaining_of S.remaining self.old)
            (remaining_of S.remaining self.new) (unread_of self.new) }
        ensures ended { (e : Ending) → (position_of self.old).stage ≡ Ended e
            → (result ≡ Ok (batches.End e)) × (self.new ≡ self.old) }
        ensures failed { (position_of self.old).stage ≡ Failed
            → (result ≡ Err faults.Failed) × (self.new ≡ self.old) }
    {
        let (block, first) = match self.advance_shared(alloc) {
            Ok(Taken::Frame(block, first)) => (block, first),
            Ok(Taken::End(ending)) => return Ok(Batched::End(ending)),
            Err(fault) => return Err(fault),
        };
        let headers = self.input.unread().len() / PACKET_HEADER_LEN;
        let mut batch = FrameBatch::begin(alloc, block, first, headers.min(most.saturating_sub(1)));
        if batch.bytes().is_empty() {
            return Ok(Batched::Frames(batch));
        }
        self.add_all_held(&mut batch, most);
        Ok(Batched::Frames(batch))
    }

    /// Adds the good frames that follow and stand whole in the block to a batch of one frame, up to `most`
    /// in all.
    #[inline]
    fn add_all_held(&mut self, batch: &mut FrameBatch, most: usize)
        requires going { (position_of self.old).stage ≡ Going }
        requires block { batch.old.block ≡ block_of self.old }
        requires one { length batch.old.left ≡ 1 }
        ensures adds { AddsFrames (reading_of S.remaining S.failures S.told self.old)
            (reading_of S.remaining S.failures S.told self.new) batch.old batch.new }
        ensures some { 0 < length batch.new.left }
        ensures few { length batch.new.left ≤ max most 1 }
    {
        let mut count = 1;
        while count < most {
            if !self.add_held(batch) {
                return;
            }
            count += 1;
        }
    }

    /// Adds the next frame to a batch, where its packet is good and stands whole in the block. False: it
    /// isn't, or the batch has no room, and nothing has changed.
    #[inline(always)]
    fn add_held(&mut self, batch: &mut FrameBatch) -> bool
        requires going { (position_of self.old).stage ≡ Going }
        requires block { batch.old.block ≡ block_of self.old }
        ensures added { IsTrue result → AddsFrame (reading_of S.remaining S.failures S.told self.old)
            (reading_of S.remaining S.failures S.told self.new) batch.old batch.new }
        ensures going { (position_of self.new).stage ≡ Going }
        ensures block { batch.new.block ≡ block_of self.new }
        ensures unchanged { IsFalse result → (reading_of S.remaining S.failures S.told self.new
            ≡ reading_of S.remaining S.failures S.told self.old) × (batch.new ≡ batch.old) }
    {
        let (start, end) = self.input.unread_place();
        if end - start < PACKET_HEADER_LEN {
            return false;
        }
        let bytes = self.input.bytes();
        let from = start + PACKET_HEADER_LEN;
        let Start::Header(header) = start_of(
            &self.position,
            &bytes[start..from],
            PACKET_HEADER_LEN,
            Told::Nothing,
        ) else {
            return false;
        };
        let captured = header.captured_len as usize;
        if end - from < captured {
            return false;
        }
        let record = self.position.record(&header, bytes, from, from + captured);
        if !batch.push(record) {
            return false;
        }
        self.input.draw_held(PACKET_HEADER_LEN + captured);
        self.position.pass_frame(record.stamp().0);
        true
    }

    /// True if the next packet was read ahead whole: then the next call reads nothing of the source, and
    /// doesn't wait for it.
    pub fn holds_packet(&self) -> bool
        ensures { IsTrue result ↔ HoldsPacket (position_of self.now).layout (unread_of self.now) }
    {
        let unread = self.input.unread();
        if unread.len() < PACKET_HEADER_LEN {
            return false;
        }
        let header = PacketHeader::read(self.position.layout, &unread[..PACKET_HEADER_LEN]);
        header.captured_len as usize <= unread.len() - PACKET_HEADER_LEN
    }

    /// The source, which stands after what was read ahead.
    pub fn source(&self) -> &S
        ensures { result.now ≡ source_of self.now }
    {
        self.input.source()
    }

    /// The source. What was read ahead of the reader's position is lost, at most
    /// [`MAX_SNAPLEN`](afdx_frame::MAX_SNAPLEN) bytes.
    pub fn into_source(self) -> S
        ensures source { result ≡ source_of self }
        ensures lost { length (unread_of self) ≤ MAX_SNAPLEN }
    {
        self.input.into_source()
    }
}
