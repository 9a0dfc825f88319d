//! The part of a source that needs no other: what was read ahead, and what it is converted to.
ghost use Rattle.std.specs.Prelude.{◌≡◌, ◌≤◌, ◌<◌, ◌+◌, ◌-◌, ◌++◌, ◌≢◌, slice_range, [], ℕ, List, min, take, drop, length, Some, vec_capacity, vec_len, Ok, Err, IfOk, OnOk, OnErr, IsTrue, ◌↔◌};
ghost use Rattle.std.specs.Io.KnownBytes.{IsAtEnd, Keeps, prepend_known};
ghost use Rattle.pcap_io.specs.Device.{CountsFailure, NoFailure};
ghost use Rattle.pcapng.specs.Block.{fields_of, shortest_of};
ghost use Rattle.pcapng.specs.declared.block.BlockKind.TheVariants as kinds;
ghost use Rattle.pcapng.specs.declared.converter.Reached.TheVariants as stages;
ghost use Rattle.pcapng.specs.declared.block.TheConstants.{MAX_BLOCK_LEN};
ghost use Rattle.pcap_io.specs.declared.layout.TheConstants.{FILE_HEADER_LEN};

use crate::block::{
    BlockKind, BlockStart, CAPTURED_AT, FirstSection, MAX_BLOCK_LEN, PacketFields, SECTION_HEADER,
    START_LEN, check_interface_end, check_section, first_section, later_reason,
};
use crate::choice::Choice;
use crate::interface::Interface;
use crate::section::{Role, Section};
use crate::text::packet_header;
use afdx_frame::MAX_SNAPLEN;
use pcap_io::{
    BadReason, ByteOrder, DeviceFault, FILE_HEADER_LEN, HeaderFault, PACKET_HEADER_LEN, TapSource,
    Told, capture_header, read_u32,
};
use std::alloc::{AllocError, Global};

/// How many bytes are read ahead at a time.
const PIECE_LEN: usize = 65_536;

/// How far a recording was read.
#[derive(Clone, Copy, PartialEq, Eq)]
pub enum Reached {
    /// Nothing of it was judged.
    Start,
    /// It isn't pcapng, and is handed on.
    Untouched,
    /// Its first section header comes next.
    FirstSection,
    /// A block comes next.
    Blocks,
    /// So many bytes are left of a block of this length that is skipped.
    Skipping { left: u32, len: u32 },
    /// Nothing follows, and this is told.
    Ended(Told),
}

/// The outcome of a step.
#[derive(Clone, Copy)]
pub enum Step {
    /// It went on.
    Done,
    /// More than the unread bytes are needed: so many in all.
    Needs(usize),
}

/// The converter of a recording: its bytes that were read ahead, and those that are given for them.
#[derive(Drop)]
pub struct Converter {
    stage: Reached,
    section: Section,
    /// How many packets of interfaces that aren't Ethernet were skipped.
    skipped: u64,
    /// The bytes that were read ahead.
    block: Vec<u8>,
    /// Where the unread ones start, and where they end.
    start: usize,
    end: usize,
    /// The bytes that are given next: part of a header, and then bytes of the block, before the unread ones.
    header: [u8; FILE_HEADER_LEN],
    header_from: usize,
    header_to: usize,
    body_from: usize,
    body_to: usize,
    ghost room: { MAX_BLOCK_LEN ≤ vec_capacity block },
    ghost ordered: { start ≤ end },
    ghost in_block: { end ≤ vec_len block },
    ghost in_header: { header_to ≤ FILE_HEADER_LEN },
    ghost header_ordered: { header_from ≤ header_to },
    ghost body_ordered: { body_from ≤ body_to },
    ghost body_before: { body_to ≤ start },
}

/// Copies as many of the bytes as fit to the start of the buffer, and returns how many.
#[inline]
fn copy_some(buf: &mut [u8], bytes: &[u8]) -> usize
    ensures count { result ≡ min (length bytes.now) (length buf.new) }
    ensures bytes { take result buf.new ≡ take result bytes.now }
{
    let count = bytes.len().min(buf.len());
    buf[..count].copy_from_slice(&bytes[..count]);
    count
}

/// Moves the bytes from one place up to another to the front.
#[inline]
fn move_to_front(block: &mut Vec<u8>, start: usize, end: usize)
    requires ordered { start ≤ end }
    requires within { end ≤ vec_len block.old }
    ensures bytes { slice_range block.new.items 0 (end - start)
        ≡ slice_range block.old.items start end }
    ensures len { vec_len block.new ≡ vec_len block.old }
    ensures capacity { vec_capacity block.new ≡ vec_capacity block.old }
{
    if start > 0 {
        block.copy_within(start..end, 0);
    }
}

/// Makes room for so many bytes, of which those before `end` stay.
#[inline]
fn grow(block: &mut Vec<u8>, end: usize, needed: usize)
    requires fits { needed ≤ vec_capacity block.old }
    requires within { end ≤ vec_len block.old }
    ensures bytes { slice_range block.new.items 0 end ≡ slice_range block.old.items 0 end }
    ensures room { needed ≤ vec_len block.new }
    ensures len { vec_len block.old ≤ vec_len block.new }
    ensures capacity { vec_capacity block.old ≤ vec_capacity block.new }
{
    if block.len() < needed {
        block.resize(needed, 0).unwrap();
    }
}

/// Reads once, to where `end` stands. Returns how many came.
#[inline]
fn read_behind<S: TapSource>(
    source: &mut S,
    block: &mut [u8],
    end: usize,
) -> Result<usize, DeviceFault>
    requires { end < length block.old }
    ensures within { IfOk result (λ n. end + n ≤ length block.new) }
    ensures read { IfOk result (λ n. Keeps
        (prepend_known (slice_range block.old 0 end) (S.remaining source.old))
        (prepend_known (slice_range block.new 0 (end + n)) (S.remaining source.new))) }
    ensures end { result ≡ Ok 0 → (slice_range block.new 0 end ≡ slice_range block.old 0 end)
        × IsAtEnd (S.remaining source.new) }
    ensures kept { OnErr result (slice_range block.new 0 end ≡ slice_range block.old 0 end) }
    ensures left { OnErr result (Keeps (S.remaining source.old) (S.remaining source.new)) }
    ensures no_failure { OnOk result (NoFailure (S.failures source.old) (S.failures source.new)) }
    ensures fault { OnErr result (CountsFailure (S.failures source.old) (S.failures source.new)) }
{
    let to = block.len().min(end + PIECE_LEN);
    source.read(&mut block[end..to])
}

impl Converter {
    ghost use Rattle.pcap_io.specs.declared.layout.ByteOrder.TheVariants.{Little};
    ghost use Rattle.pcapng.specs.File.{interface_read, packet_read, passed};
    ghost use Rattle.pcapng.specs.File.{read_of, read_with, section_read};
    ghost use Rattle.pcapng.specs.Handed.{EndsWithin, GivesLast, HandsOn, KeepsGiven, KeepsRest, Lacks};
    ghost use Rattle.pcapng.specs.Handed.{StillGiven, block_of, handed, handed_known, pending_of};
    ghost use Rattle.pcapng.specs.Handed.{told_at, unread_of};
    ghost use Rattle.pcapng.specs.Section.{known_of, unknown};
    ghost use Rattle.pcap_io.specs.declared.told.Told.TheVariants as tolds;

    /// Nothing was read. Allocates all the memory that it will need.
    pub fn new(alloc: Global, choice: Choice) -> Result<Converter, AllocError>
        ensures start { IfOk result (λ c. c.stage ≡ stages.Start) }
        ensures pending { IfOk result (λ c. pending_of c ≡ []) }
        ensures unread { IfOk result (λ c. unread_of c ≡ []) }
        ensures known { IfOk result (λ c. known_of c.section ≡ unknown choice Little) }
    {
        let section = Section::new(alloc, choice)?;
        let mut block = Vec::with_capacity(alloc, MAX_BLOCK_LEN)?;
        block.resize(PIECE_LEN, 0).unwrap();
        Ok(Converter {
            stage: Reached::Start,
            section,
            skipped: 0,
            block,
            start: 0,
            end: 0,
            header: [0; FILE_HEADER_LEN],
            header_from: 0,
            header_to: 0,
            body_from: 0,
            body_to: 0,
        })
    }

    /// How far the recording was read.
    #[inline]
    pub fn stage(&self) -> Reached
        ensures { result ≡ self.now.stage }
    {
        self.stage
    }

    /// How many packets of interfaces that aren't Ethernet were skipped so far.
    pub fn skipped(&self) -> u64
        ensures { result ≡ self.now.skipped }
    {
        self.skipped
    }

    /// The interfaces that the current section described so far.
    pub fn interfaces(&self) -> &[Interface]
        ensures { result.now ≡ self.now.section.interfaces.items }
    {
        self.section.interfaces()
    }

    /// Nothing is read ahead.
    #[inline]
    pub fn is_read(&self) -> bool
        ensures { IsTrue result → unread_of self.now ≡ [] }
    {
        self.start == self.end
    }

    /// Moves what is given next into the buffer, as much as fits, and returns how much.
    #[inline]
    pub fn give(&mut self, buf: &mut [u8]) -> usize
        ensures bound { result ≤ length buf.new }
        ensures gives { pending_of self.old ≡ take result buf.new ++ pending_of self.new }
        ensures stage { self.new.stage ≡ self.old.stage }
        ensures unread { unread_of self.new ≡ unread_of self.old }
        ensures section { self.new.section ≡ self.old.section }
        ensures all { result < length buf.new → pending_of self.new ≡ [] }
    {
        let header = copy_some(buf, &self.header[self.header_from..self.header_to]);
        self.header_from += header;
        let body = copy_some(
            &mut buf[header..],
            &self.block[self.body_from..self.body_to],
        );
        self.body_from += body;
        header + body
    }

    /// Ends, and tells this.
    fn end_with(&mut self, told: Told)
        requires { pending_of self.old ≡ [] }
        ensures { GivesLast self.new told }
    {
        self.stage = Reached::Ended(told);
    }

    /// Ends for a reason.
    #[cold]
    #[inline(never)]
    fn end_bad(&mut self, reason: BadReason)
        requires { pending_of self.old ≡ [] }
        ensures { GivesLast self.new (tolds.Bad reason) }
    {
        self.end_with(Told::Bad(reason));
    }

    /// Ends for a fault of the first section header.
    #[cold]
    #[inline(never)]
    fn end_at_header(&mut self, fault: HeaderFault)
        requires { pending_of self.old ≡ [] }
        ensures { GivesLast self.new (tolds.NoHeader fault) }
    {
        self.end_with(Told::NoHeader(fault));
    }

    /// The word on the recording, at its end.
    pub fn told(&self) -> Told
        ensures { result ≡ told_at self.now.stage }
    {
        match self.stage {
            Reached::Ended(told) => told,
            _ => Told::Nothing,
        }
    }

    /// Ends where the source does.
    pub fn end_here(&mut self)
        requires given { pending_of self.old ≡ [] }
        requires within { EndsWithin self.old }
        ensures { handed self.new [] ≡ handed self.old [] }
    {
        match self.stage {
            Reached::Start => self.stage = Reached::Untouched,
            Reached::Blocks if self.start == self.end => {
                if self.section.is_described() {
                    self.stage = Reached::Ended(Told::Nothing);
                } else {
                    self.end_bad(BadReason::NoSuchInterface);
                }
            }
            Reached::Blocks | Reached::Skipping { .. } => self.end_with(Told::Cut),
            Reached::FirstSection => self.end_with(Told::Nothing),
            Reached::Untouched | Reached::Ended(_) => {}
        }
    }

    /// The unread bytes are given next, as they are.
    fn hand_on(&mut self)
        ensures { pending_of self.old ≡ [] → self.old.stage ≡ stages.Untouched → HandsOn self.old self.new }
    {
        self.body_from = self.start;
        self.body_to = self.end;
        self.start = self.end;
    }

    /// Reads on, so that the unread bytes become `needed`: once. Returns how many came.
    pub fn refill<S: TapSource>(
        &mut self,
        source: &mut S,
        needed: usize,
    ) -> Result<usize, DeviceFault>
        requires fits { needed ≤ MAX_BLOCK_LEN }
        requires lacks { length (unread_of self.old) < needed }
        requires given { pending_of self.old ≡ [] }
        ensures kept { KeepsGiven (handed_known self.old (S.remaining source.old))
            (handed_known self.new (S.remaining source.new)) }
        ensures given { pending_of self.new ≡ [] }
        ensures stage { self.new.stage ≡ self.old.stage }
        ensures section { self.new.section ≡ self.old.section }
        ensures end { result ≡ Ok 0 → (unread_of self.new ≡ unread_of self.old)
            × IsAtEnd (S.remaining source.new) }
        ensures no_failure { OnOk result (NoFailure (S.failures source.old) (S.failures source.new)) }
        ensures fault { OnErr result (CountsFailure (S.failures source.old) (S.failures source.new)) }
    {
        self.body_from = 0;
        self.body_to = 0;
        move_to_front(&mut self.block, self.start, self.end);
        self.end -= self.start;
        self.start = 0;
        grow(&mut self.block, self.end, needed);
        let came = read_behind(source, self.block.as_mut_slice(), self.end)?;
        self.end += came;
        Ok(came)
    }

    /// Tells the format by the first four bytes.
    fn begin(&mut self) -> Step
        requires start { self.old.stage ≡ stages.Start }
        requires given { pending_of self.old ≡ [] }
        ensures lacks { Lacks self.new result }
        ensures kept { HandsOn self.old self.new }
        ensures given { StillGiven self.new result (pending_of self.old) }
    {
        let start = self.start;
        if self.end - start < 4 {
            return Step::Needs(4);
        }
        self.body_from = 0;
        self.body_to = 0;
        let magic = read_u32(ByteOrder::Big, &self.block[start..start + 4]);
        if magic == SECTION_HEADER {
            self.stage = Reached::FirstSection;
            return Step::Done;
        }
        self.stage = Reached::Untouched;
        Step::Done
    }

    /// Reads the first section header.
    fn first_section(&mut self) -> Step
        requires start { self.old.stage ≡ stages.FirstSection }
        requires given { pending_of self.old ≡ [] }
        ensures lacks { Lacks self.new result }
        ensures kept { HandsOn self.old self.new }
        ensures given { StillGiven self.new result (pending_of self.old) }
    {
        let unread = &self.block[self.start..self.end];
        if unread.len() < START_LEN {
            return Step::Needs(START_LEN);
        }
        match first_section(unread) {
            FirstSection::Needs(needed) => return Step::Needs(needed),
            FirstSection::Wrong(fault) => self.end_at_header(fault),
            FirstSection::Begins { order, len } => {
                self.section.begin(order);
                self.header = capture_header();
                self.header_from = 0;
                self.header_to = FILE_HEADER_LEN;
                self.stage = Reached::Blocks;
                self.start += len;
            }
        }
        Step::Done
    }

    /// Reads the next block.
    #[inline]
    fn next_block(&mut self) -> Step
        requires start { self.old.stage ≡ stages.Blocks }
        requires given { pending_of self.old ≡ [] }
        ensures lacks { Lacks self.new result }
        ensures kept { HandsOn self.old self.new }
        ensures given { StillGiven self.new result (pending_of self.old) }
    {
        let unread = &self.block[self.start..self.end];
        if unread.len() < START_LEN {
            return Step::Needs(START_LEN);
        }
        let begun = match BlockStart::read(self.section.order, unread) {
            Ok(begun) => begun,
            Err(fault) => {
                self.end_bad(fault.reason());
                return Step::Done;
            }
        };
        if begun.kind == BlockKind::Other {
            self.stage = Reached::Skipping {
                left: begun.len - 4,
                len: begun.len,
            };
            return Step::Done;
        }
        if unread.len() < begun.len as usize {
            return Step::Needs(begun.len as usize);
        }
        if let Err(reason) = self.whole_block(&begun) {
            self.end_bad(reason);
        }
        Step::Done
    }

    /// Reads a block that is there whole.
    #[inline]
    fn whole_block(&mut self, begun: &BlockStart) -> Result<(), BadReason>
        requires given { pending_of self.old ≡ [] }
        requires long { shortest_of begun.now.kind ≤ begun.now.len }
        requires whole { self.old.start + begun.now.len ≤ self.old.end }
        requires read { begun.now.kind ≢ kinds.Other }
        ensures value { read_of (known_of self.old.section) begun.now (block_of self.old begun.now.len)
            ≡ read_with (pending_of self.new) (known_of self.new.section) result }
        ensures passed { OnOk result ((self.new.stage ≡ self.old.stage)
            × (unread_of self.new ≡ drop begun.now.len (unread_of self.old))) }
        ensures wrong { OnErr result (pending_of self.new ≡ []) }
    {
        match begun.kind {
            BlockKind::Packet | BlockKind::ObsoletePacket => return self.packet(begun),
            BlockKind::SimplePacket => return Err(BadReason::SimplePacket),
            BlockKind::Section => self.later_section(begun)?,
            BlockKind::Interface => self.interface(begun)?,
            BlockKind::Other => {}
        }
        self.start += begun.len as usize;
        Ok(())
    }

    /// Reads the header of a later section.
    fn later_section(&mut self, begun: &BlockStart) -> Result<(), BadReason>
        requires long { 28 ≤ begun.now.len }
        requires whole { self.old.start + begun.now.len ≤ self.old.end }
        ensures value { section_read (known_of self.old.section) begun.now.order
            (block_of self.old begun.now.len) ≡ passed (known_of self.new.section) result }
        ensures kept { KeepsRest self.old self.new }
    {
        let block = &self.block[self.start..self.start + begun.len as usize];
        if let Err(fault) = check_section(begun.order, block) {
            return Err(later_reason(fault));
        }
        self.section.begin(begun.order);
        Ok(())
    }

    /// Reads an interface description.
    fn interface(&mut self, begun: &BlockStart) -> Result<(), BadReason>
        requires long { 20 ≤ begun.now.len }
        requires whole { self.old.start + begun.now.len ≤ self.old.end }
        ensures value { interface_read (known_of self.old.section) begun.now.order
            (block_of self.old begun.now.len) ≡ passed (known_of self.new.section) result }
        ensures kept { KeepsRest self.old self.new }
    {
        let block = &self.block[self.start..self.start + begun.len as usize];
        let number = self.section.next_number()?;
        let interface = Interface::described(begun.order, number, block)?;
        check_interface_end(begun.order, block)?;
        self.section.add(interface);
        Ok(())
    }

    /// Reads a packet: it is given next, or passed.
    #[inline]
    fn packet(&mut self, begun: &BlockStart) -> Result<(), BadReason>
        requires given { pending_of self.old ≡ [] }
        requires long { 32 ≤ begun.now.len }
        requires whole { self.old.start + begun.now.len ≤ self.old.end }
        ensures value { packet_read (known_of self.old.section) begun.now.order
            (fields_of begun.now.order begun.now.kind (block_of self.old begun.now.len))
            (block_of self.old begun.now.len)
            ≡ read_with (pending_of self.new) (known_of self.new.section) result }
        ensures passed { OnOk result ((self.new.stage ≡ self.old.stage)
            × (unread_of self.new ≡ drop begun.now.len (unread_of self.old))) }
        ensures wrong { OnErr result (pending_of self.new ≡ []) }
    {
        let (start, len) = (self.start, begun.len as usize);
        let block = &self.block[start..start + len];
        let fields = PacketFields::read(begun.order, begun.kind, block);
        let role = self.section.role(fields.interface)?;
        if role == Role::Taken {
            let stamp = self.section.stamp(fields.interface, fields.timestamp)?;
            if fields.captured_len as usize > MAX_SNAPLEN {
                return Err(BadReason::Length);
            }
            fields.check_end(begun.order, block)?;
            self.header = packet_header(
                (stamp / 1_000_000_000) as u32,
                (stamp % 1_000_000_000) as u32,
                fields.captured_len,
                fields.original_len,
            );
            self.header_from = 0;
            self.header_to = PACKET_HEADER_LEN;
            self.body_from = start + CAPTURED_AT;
            self.body_to = start + CAPTURED_AT + fields.captured_len as usize;
        } else {
            fields.check_end(begun.order, block)?;
            if role == Role::Counted {
                self.skipped = self.skipped.saturating_add(1);
            }
        }
        self.section.note_packet(fields.interface, role);
        self.start = start + len;
        Ok(())
    }

    /// Passes what is unread of a block that is skipped.
    fn skip(&mut self, left: u32, len: u32) -> Step
        requires start { self.old.stage ≡ stages.Skipping left len }
        requires given { pending_of self.old ≡ [] }
        ensures kept { HandsOn self.old self.new }
        ensures lacks { Lacks self.new result }
        ensures given { StillGiven self.new result (pending_of self.old) }
    {
        let unread = self.end - self.start;
        if (left as usize) > unread {
            self.start = self.end;
            self.stage = Reached::Skipping {
                left: left - unread as u32,
                len,
            };
            return Step::Needs(1);
        }
        self.start += left as usize;
        self.stage = Reached::Skipping { left: 0, len };
        if self.end - self.start < 4 {
            return Step::Needs(4);
        }
        let last = read_u32(self.section.order, &self.block[self.start..self.end]);
        if last == len {
            self.start += 4;
            self.stage = Reached::Blocks;
        } else {
            self.end_bad(BadReason::BlockLengthsDiffer);
        }
        Step::Done
    }

    /// Goes on where nothing is left to give.
    #[inline]
    pub fn step(&mut self) -> Step
        requires { pending_of self.old ≡ [] }
        ensures lacks { Lacks self.new result }
        ensures kept { HandsOn self.old self.new }
        ensures given { StillGiven self.new result [] }
    {
        match self.stage {
            Reached::Start => self.begin(),
            Reached::FirstSection => self.first_section(),
            Reached::Blocks => self.next_block(),
            Reached::Skipping { left, len } => self.skip(left, len),
            Reached::Untouched => {
                self.hand_on();
                Step::Done
            }
            Reached::Ended(_) => Step::Done,
        }
    }
}
