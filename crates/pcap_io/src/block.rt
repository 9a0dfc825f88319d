//! A source that is read a block at a time, and lends what is drawn from it.
ghost use Rattle.std.specs.Prelude.{◌≡◌, ◌+◌, ◌-◌, ◌<◌, ◌≤◌, ℕ, List, [], true, false, length, min, max, slice_range, take, Ok, Err, None, IfOk, IfErr, IfSome, OnOk, OnErr};
ghost use Rattle.std.specs.Io.KnownBytes.{Consumes, IsAtEnd, Keeps, prepend_known};
ghost use Rattle.afdx_frame.specs.FrameBytes.{block_bytes};
ghost use Rattle.afdx_frame.specs.declared.bounds.TheConstants.{MAX_SNAPLEN};
ghost use Rattle.pcap_io.specs.Device.{CountsFailure, TakesAtMost, TakesFewer};
ghost use Rattle.pcap_io.specs.declared.item.ReadFault.TheVariants.{Device};
ghost use Rattle.pcap_io.specs.Items.{items_of, IsUnshared};
ghost use Rattle.pcap_io.specs.Told.{StaysTold};

use crate::device::{DeviceFault, TapSource};
use crate::item::ReadFault;
use crate::memory::{BlockMemory, Spares, copy_to_front};
use crate::transfer::fill;
use afdx_frame::{FrameBlock, MAX_SNAPLEN};
use std::alloc::{AllocError, Global};
use std::mem;

/// The bytes of a block, unless its source asks for others or a packet is longer.
const BLOCK_LEN: usize = 65_536;

/// A source, and a block of the bytes that were read ahead from it.
#[derive(Drop)]
pub struct BlockSource<S> {
    source: S,
    /// The length of the block, unless a packet is longer.
    block_len: usize,
    /// Empty until bytes are drawn that it has to hold.
    block: BlockMemory,
    /// Blocks before it.
    spares: Spares,
    /// Where the bytes start that were drawn last. They end where the unread ones start.
    from: usize,
    /// Where the unread bytes start, and where they end.
    start: usize,
    end: usize,
    ghost drawn: { from ≤ start },
    ghost ordered: { start ≤ end },
    ghost in_bounds: { end ≤ length (items_of block) },
    ghost bounded: { length (items_of block) ≤ MAX_SNAPLEN },
    ghost bounded_len: { block_len ≤ MAX_SNAPLEN },
}

/// Bytes that were drawn: a share of the block that they stand in, and from which index up to which.
#[derive(Drop)]
pub struct DrawnPart {
    pub block: FrameBlock,
    pub from: usize,
    pub to: usize,
    ghost ordered: { from ≤ to },
    ghost within: { to ≤ length (block_bytes block) },
    ghost bounded: { length (block_bytes block) ≤ MAX_SNAPLEN },
}

/// Reads into the bytes from the index `end` on, until at least `len` stand there or the source ends.
/// Returns how many stand there then, after a fault too.
fn read_until<S: TapSource>(
    source: &mut S,
    bytes: &mut [u8],
    end: usize,
    len: usize,
) -> (usize, Result<(), DeviceFault>)
    requires within { end ≤ length bytes.old }
    requires room { len ≤ length bytes.old }
    ensures within { result.0 ≤ length bytes.new }
    ensures kept { Keeps (prepend_known (take end bytes.old) (S.remaining source.old))
        (prepend_known (take result.0 bytes.new) (S.remaining source.new)) }
    ensures end { OnOk result.1 (result.0 < len → IsAtEnd (S.remaining source.new)) }
    ensures over { OnOk result.1 (result.0 < len → S.is_over source.new ≡ true) }
    ensures told { StaysTold (S.remaining source.old) (S.told source.old) (S.told source.new) }
    ensures no_failure { OnOk result.1 (S.failures source.new ≡ S.failures source.old) }
    ensures fault { OnErr result.1 (CountsFailure (S.failures source.old) (S.failures source.new)) }
    ensures unfinished { OnErr result.1 (result.0 < len) }
{
    let mut end = end;
    while end < len {
        match source.read(&mut bytes[end..]) {
            Ok(0) => return (end, Ok(())),
            Ok(n) => end += n,
            Err(fault) => return (end, Err(fault)),
        }
    }
    (end, Ok(()))
}

impl<S: TapSource> BlockSource<S> {
    ghost use Rattle.pcap_io.specs.Block.{IsDrawFault, block_remaining, block_source};
    ghost use Rattle.pcap_io.specs.Block.{IsShareOf, block_items, drawn_bytes, part_bytes, unread_bytes};

    /// A source of which nothing was read ahead. Allocates nothing.
    pub fn new(source: S) -> BlockSource<S>
        ensures source { block_source result ≡ source }
        ensures unread { unread_bytes result ≡ [] }
    {
        BlockSource {
            source,
            block_len: BLOCK_LEN,
            block: BlockMemory::Empty,
            spares: Spares::new(),
            from: 0,
            start: 0,
            end: 0,
        }
    }

    /// The same source, whose block will have `len` bytes, at most [`MAX_SNAPLEN`], unless a packet is
    /// longer. A block that was made before stays.
    pub fn with_block_len(self, len: usize) -> BlockSource<S>
        ensures source { block_source result ≡ block_source self }
        ensures unread { unread_bytes result ≡ unread_bytes self }
        ensures drawn { drawn_bytes result ≡ drawn_bytes self }
    {
        let mut input = self;
        input.block_len = len.min(MAX_SNAPLEN);
        input
    }

    /// The bytes of the block.
    #[inline(always)]
    pub(crate) fn bytes(&self) -> &[u8]
        ensures { result.now ≡ block_items self.now }
    {
        self.block.bytes()
    }

    /// Where the unread bytes start in the block, and where they end.
    #[inline(always)]
    pub(crate) fn unread_place(&self) -> (usize, usize)
        ensures start { result.0 ≡ self.now.start }
        ensures end { result.1 ≡ self.now.end }
        ensures ordered { result.0 ≤ result.1 }
        ensures within { result.1 ≤ length (block_items self.now) }
        ensures bounded { length (block_items self.now) ≤ MAX_SNAPLEN }
    {
        (self.start, self.end)
    }

    /// Draws bytes that stand in the block.
    #[inline(always)]
    pub(crate) fn draw_held(&mut self, len: usize)
        requires { self.old.start + len ≤ self.old.end }
        ensures left { block_remaining S.remaining self.new
            ≡ prepend_known (slice_range (block_items self.old) (self.old.start + len) self.old.end)
            (S.remaining (block_source self.old)) }
        ensures items { block_items self.new ≡ block_items self.old }
        ensures source { block_source self.new ≡ block_source self.old }
    {
        self.from = self.start;
        self.start += len;
    }

    /// Moves the next bytes into the buffer, and returns how many came: all, or fewer at the end.
    /// Allocates nothing.
    #[inline(always)]
    pub fn draw_into(&mut self, buf: &mut [u8]) -> Result<usize, DeviceFault>
        ensures bound { IfOk result (λ n. n ≤ length buf.new) }
        ensures bytes { IfOk result (λ n. Consumes (block_remaining S.remaining self.old)
            (block_remaining S.remaining self.new) (take n buf.new)) }
        ensures end { IfOk result (λ n. n < length buf.new
            → IsAtEnd (block_remaining S.remaining self.new)) }
        ensures over { IfOk result (λ n. n < length buf.new
            → S.is_over (block_source self.new) ≡ true) }
        ensures told { StaysTold (S.remaining (block_source self.old))
            (S.told (block_source self.old)) (S.told (block_source self.new)) }
        ensures no_failure { OnOk result
            (S.failures (block_source self.new) ≡ S.failures (block_source self.old)) }
        ensures fault { OnErr result (CountsFailure
            (S.failures (block_source self.old)) (S.failures (block_source self.new))) }
        ensures taken { OnErr result (TakesAtMost (length buf.old)
            (block_remaining S.remaining self.old) (block_remaining S.remaining self.new)) }
        ensures unfinished { OnErr result (TakesFewer (length buf.old)
            (block_remaining S.remaining self.old) (block_remaining S.remaining self.new)) }
        ensures none_unread { OnErr result (unread_bytes self.new ≡ []) }
    {
        let start = self.start;
        let len = buf.len();
        if len <= self.end - start {
            buf.copy_from_slice(&self.bytes()[start..start + len]);
            self.start = start + len;
            return Ok(len);
        }
        self.draw_across(buf)
    }

    /// Moves the next bytes into a buffer that the unread ones don't fill.
    #[cold]
    #[inline(never)]
    fn draw_across(&mut self, buf: &mut [u8]) -> Result<usize, DeviceFault>
        requires { self.old.end - self.old.start < length buf.old }
        ensures bound { IfOk result (λ n. n ≤ length buf.new) }
        ensures bytes { IfOk result (λ n. Consumes (block_remaining S.remaining self.old)
            (block_remaining S.remaining self.new) (take n buf.new)) }
        ensures end { IfOk result (λ n. n < length buf.new
            → IsAtEnd (block_remaining S.remaining self.new)) }
        ensures over { IfOk result (λ n. n < length buf.new
            → S.is_over (block_source self.new) ≡ true) }
        ensures told { StaysTold (S.remaining (block_source self.old))
            (S.told (block_source self.old)) (S.told (block_source self.new)) }
        ensures no_failure { OnOk result
            (S.failures (block_source self.new) ≡ S.failures (block_source self.old)) }
        ensures fault { OnErr result (CountsFailure
            (S.failures (block_source self.old)) (S.failures (block_source self.new))) }
        ensures taken { OnErr result (TakesAtMost (length buf.old)
            (block_remaining S.remaining self.old) (block_remaining S.remaining self.new)) }
        ensures unfinished { OnErr result (TakesFewer (length buf.old)
            (block_remaining S.remaining self.old) (block_remaining S.remaining self.new)) }
        ensures none_unread { OnErr result (unread_bytes self.new ≡ []) }
    {
        let (start, end) = (self.start, self.end);
        let unread = end - start;
        buf[..unread].copy_from_slice(&self.bytes()[start..end]);
        self.start = end;
        let came = fill(&mut self.source, &mut buf[unread..])?;
        Ok(unread + came)
    }

    /// Draws the next `len` bytes, which `drawn` lends until the next draw. False: fewer were left,
    /// and they are gone.
    #[inline(always)]
    pub fn draw(&mut self, alloc: Global, len: usize) -> Result<bool, ReadFault>
        requires { len ≤ MAX_SNAPLEN }
        ensures complete { IfOk result (λ all. all ≡ true
            → length (drawn_bytes self.new) ≡ len) }
        ensures bytes { OnOk result (Consumes (block_remaining S.remaining self.old)
            (block_remaining S.remaining self.new) (drawn_bytes self.new)) }
        ensures short { IfOk result (λ all. all ≡ false
            → (length (drawn_bytes self.new) < len)
            × IsAtEnd (block_remaining S.remaining self.new)) }
        ensures over { IfOk result (λ all. all ≡ false
            → S.is_over (block_source self.new) ≡ true) }
        ensures told { StaysTold (S.remaining (block_source self.old))
            (S.told (block_source self.old)) (S.told (block_source self.new)) }
        ensures no_failure { OnOk result
            (S.failures (block_source self.new) ≡ S.failures (block_source self.old)) }
        ensures fault { IfErr result (IsDrawFault len
            (S.failures (block_source self.old)) (S.failures (block_source self.new))) }
        ensures kept { OnErr result (Keeps (block_remaining S.remaining self.old)
            (block_remaining S.remaining self.new)) }
        ensures unfinished { OnErr result (length (unread_bytes self.new) < len) }
    {
        if len <= self.end - self.start {
            self.from = self.start;
            self.start += len;
            return Ok(true);
        }
        self.draw_more(alloc, len)
    }

    /// Draws where too few bytes stand in the block.
    #[cold]
    #[inline(never)]
    fn draw_more(&mut self, alloc: Global, len: usize) -> Result<bool, ReadFault>
        requires room { len ≤ MAX_SNAPLEN }
        requires some { 0 < len }
        requires short { self.old.end - self.old.start < len }
        ensures complete { IfOk result (λ all. all ≡ true
            → length (drawn_bytes self.new) ≡ len) }
        ensures bytes { OnOk result (Consumes (block_remaining S.remaining self.old)
            (block_remaining S.remaining self.new) (drawn_bytes self.new)) }
        ensures short { IfOk result (λ all. all ≡ false
            → (length (drawn_bytes self.new) < len)
            × IsAtEnd (block_remaining S.remaining self.new)) }
        ensures over { IfOk result (λ all. all ≡ false
            → S.is_over (block_source self.new) ≡ true) }
        ensures told { StaysTold (S.remaining (block_source self.old))
            (S.told (block_source self.old)) (S.told (block_source self.new)) }
        ensures no_failure { OnOk result
            (S.failures (block_source self.new) ≡ S.failures (block_source self.old)) }
        ensures fault { IfErr result (IsDrawFault len
            (S.failures (block_source self.old)) (S.failures (block_source self.new))) }
        ensures kept { OnErr result (Keeps (block_remaining S.remaining self.old)
            (block_remaining S.remaining self.new)) }
        ensures unfinished { OnErr result (length (unread_bytes self.new) < len) }
    {
        self.make_room(alloc, len)?;
        self.read_ahead(len)?;
        self.from = 0;
        self.start = len.min(self.end);
        Ok(len <= self.end)
    }

    /// Makes room for `len` bytes at the start of a block that no frame shares, and puts the unread ones
    /// there.
    fn make_room(&mut self, alloc: Global, len: usize) -> Result<(), AllocError>
        requires fits { len ≤ MAX_SNAPLEN }
        requires short { self.old.end - self.old.start < len }
        ensures unread { unread_bytes self.new ≡ unread_bytes self.old }
        ensures source { block_source self.new ≡ block_source self.old }
        ensures from { OnOk result (self.new.from ≡ 0) }
        ensures start { OnOk result (self.new.start ≡ 0) }
        ensures room { OnOk result (len ≤ length (items_of self.new.block)) }
        ensures own { OnOk result (IsUnshared self.new.block) }
    {
        if self.block.reclaim() {
            self.move_to_front();
            return self.grow(alloc, len);
        }
        self.change_block(alloc, len)
    }

    /// Moves the unread bytes to the start of the block.
    fn move_to_front(&mut self)
        requires { IsUnshared self.old.block }
        ensures unread { unread_bytes self.new ≡ unread_bytes self.old }
        ensures source { block_source self.new ≡ block_source self.old }
        ensures own { IsUnshared self.new.block }
        ensures from { self.new.from ≡ 0 }
        ensures start { self.new.start ≡ 0 }
    {
        let (start, end) = (self.start, self.end);
        if let BlockMemory::Own(block) = &mut self.block {
            block.copy_within(start..end, 0);
        }
        self.from = 0;
        self.start = 0;
        self.end = end - start;
    }

    /// Makes room for `len` bytes in the block.
    fn grow(&mut self, alloc: Global, len: usize) -> Result<(), AllocError>
        requires room { len ≤ MAX_SNAPLEN }
        requires own { IsUnshared self.old.block }
        ensures unread { unread_bytes self.new ≡ unread_bytes self.old }
        ensures source { block_source self.new ≡ block_source self.old }
        ensures own { IsUnshared self.new.block }
        ensures from { self.new.from ≡ self.old.from }
        ensures start { self.new.start ≡ self.old.start }
        ensures room { OnOk result (len ≤ length (items_of self.new.block)) }
    {
        match &mut self.block {
            BlockMemory::Own(block) => {
                if block.len() < len {
                    block.resize(len, 0)?;
                }
            }
            _ => {
                let block = self.spares.take(alloc, len.max(self.block_len))?;
                self.block = BlockMemory::Own(block);
            }
        }
        Ok(())
    }

    /// Puts the unread bytes to the start of another block, which no frame shares, with room for `len`
    /// bytes.
    fn change_block(&mut self, alloc: Global, len: usize) -> Result<(), AllocError>
        requires fits { len ≤ MAX_SNAPLEN }
        requires short { self.old.end - self.old.start < len }
        ensures unread { unread_bytes self.new ≡ unread_bytes self.old }
        ensures source { block_source self.new ≡ block_source self.old }
        ensures from { OnOk result (self.new.from ≡ 0) }
        ensures start { OnOk result (self.new.start ≡ 0) }
        ensures room { OnOk result (len ≤ length (items_of self.new.block)) }
        ensures own { OnOk result (IsUnshared self.new.block) }
    {
        let (start, end) = (self.start, self.end);
        let mut block = self.spares.take(alloc, len.max(self.block_len))?;
        copy_to_front(block.as_mut_slice(), &self.block.bytes()[start..end]);
        let before = mem::replace(&mut self.block, BlockMemory::Own(block));
        self.from = 0;
        self.start = 0;
        self.end = end - start;
        self.spares.keep(alloc, before);
        Ok(())
    }

    /// Reads into the block, from whose start on the unread bytes stand, until `len` of them stand
    /// there or the source ends.
    fn read_ahead(&mut self, len: usize) -> Result<(), DeviceFault>
        requires from { self.old.from ≡ 0 }
        requires start { self.old.start ≡ 0 }
        requires room { len ≤ length (items_of self.old.block) }
        requires own { IsUnshared self.old.block }
        ensures from { self.new.from ≡ 0 }
        ensures start { self.new.start ≡ 0 }
        ensures kept { Keeps (block_remaining S.remaining self.old)
            (block_remaining S.remaining self.new) }
        ensures end { OnOk result (self.new.end < len
            → IsAtEnd (S.remaining (block_source self.new))) }
        ensures over { OnOk result (self.new.end < len
            → S.is_over (block_source self.new) ≡ true) }
        ensures told { StaysTold (S.remaining (block_source self.old))
            (S.told (block_source self.old)) (S.told (block_source self.new)) }
        ensures no_failure { OnOk result
            (S.failures (block_source self.new) ≡ S.failures (block_source self.old)) }
        ensures fault { OnErr result (CountsFailure
            (S.failures (block_source self.old)) (S.failures (block_source self.new))) }
        ensures unfinished { OnErr result (self.new.end < len) }
    {
        let BlockMemory::Own(block) = &mut self.block else {
            return Ok(());
        };
        let (end, answer) = read_until(&mut self.source, block.as_mut_slice(), self.end, len);
        self.end = end;
        answer
    }

    /// Draws the next `len` bytes, with a share of the block for frames whose bytes stand there. None: fewer
    /// were left, and they are gone. No bytes are given with a block of none.
    #[inline(always)]
    pub(crate) fn draw_shared(
        &mut self,
        alloc: Global,
        len: usize,
    ) -> Result<Option<DrawnPart>, ReadFault>
        requires { len ≤ MAX_SNAPLEN }
        ensures complete { IfOk result (λ all. IfSome all (λ part. (length (part_bytes part) ≡ len)
            × Consumes (block_remaining S.remaining self.old)
            (block_remaining S.remaining self.new) (part_bytes part)
            × IsShareOf (block_items self.new) (block_bytes part.block))) }
        ensures short { result ≡ Ok None → ((gone : List ℕ) × (length gone < len)
            × Consumes (block_remaining S.remaining self.old) (block_remaining S.remaining self.new) gone)
            × IsAtEnd (block_remaining S.remaining self.new) }
        ensures told { StaysTold (S.remaining (block_source self.old))
            (S.told (block_source self.old)) (S.told (block_source self.new)) }
        ensures no_failure { OnOk result
            (S.failures (block_source self.new) ≡ S.failures (block_source self.old)) }
        ensures fault { IfErr result (IsDrawFault len
            (S.failures (block_source self.old)) (S.failures (block_source self.new))) }
        ensures kept { OnErr result (Keeps (block_remaining S.remaining self.old)
            (block_remaining S.remaining self.new)) }
        ensures unfinished { result ≡ Err Device → length (unread_bytes self.new) < len }
    {
        if !self.draw(alloc, len)? {
            return Ok(None);
        }
        if len == 0 {
            return Ok(Some(DrawnPart {
                block: FrameBlock::Own(Vec::new(alloc)),
                from: 0,
                to: 0,
            }));
        }
        let (from, to) = (self.from, self.start);
        match self.block.share(alloc) {
            Ok(block) => Ok(Some(DrawnPart { block, from, to })),
            Err(AllocError) => {
                // Not drawn.
                self.start = from;
                Err(ReadFault::Memory)
            }
        }
    }

    /// The bytes that the last draw gave.
    #[inline(always)]
    pub fn drawn(&self) -> &[u8]
        ensures { result.now ≡ drawn_bytes self.now }
    {
        let (from, start) = (self.from, self.start);
        &self.bytes()[from..start]
    }

    /// The bytes that were read ahead and not drawn.
    #[inline(always)]
    pub fn unread(&self) -> &[u8]
        ensures { result.now ≡ unread_bytes self.now }
    {
        let (start, end) = (self.start, self.end);
        &self.bytes()[start..end]
    }

    /// The source, from which more may have been read than was drawn.
    pub fn source(&self) -> &S
        ensures { result.now ≡ block_source self.now }
    {
        &self.source
    }

    /// The source. What was read ahead is lost.
    pub fn into_source(self) -> S
        ensures { result ≡ block_source self }
    {
        self.source
    }
}
