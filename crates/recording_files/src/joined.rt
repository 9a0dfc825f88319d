//! The source that gives the files of a recording as one.
ghost use Rattle.std.specs.Prelude.{◌≡◌, ◌≤◌, ◌<◌, ◌+◌, ◌-◌, ◌^◌, min, [], length, take, IfSome, IfOk, OnOk, OnErr, IsTrue, true};
ghost use Rattle.pcap_io.specs.Device.{CountsFailure};
ghost use Rattle.recording_files.specs.Given.{no_header};
ghost use Rattle.recording_files.specs.Handed.{is_over};

use crate::input::{draw, drawn, into_file, read_file_header, read_header};
use crate::pending::{Pending, copy_some};
use crate::run::{is_given_layout, move_run};
use crate::stage::{FilesStage, Packet, WhichFile};
use crate::supply::{FileSupply, ReadFile};
use pcap_io::{
    BadReason, BlockSource, DeviceFault, Ending, FILE_HEADER_LEN, HeaderFault, Layout,
    PACKET_HEADER_LEN, TapSource, Told,
};
use std::alloc::Global;

/// The files of a supply, as one recording.
///
/// Of each file it reads 64 KiB ahead, or a packet that is longer. It allocates where a file's first
/// bytes are read, and where a packet is longer than any before it in its file: memory that is missing
/// counts as a failure of the device. After a failure the next call goes on where this one stopped.
#[derive(Drop)]
pub struct JoinedSource<P, F> {
    alloc: Global,
    supply: P,
    /// How often the supply or a file has failed, or memory was missing.
    failures: u64,
    /// The file that is read.
    input: Option<BlockSource<F>>,
    /// How many frames the file gave, and their greatest timestamp.
    frames: u64,
    greatest: u64,
    /// How many files were opened.
    opened: u64,
    stage: FilesStage,
    /// The bytes that are given next.
    pending: Pending,
}

/// The word on a file that has no header.
fn no_header(place: WhichFile, fault: HeaderFault) -> Told
    ensures { result ≡ no_header place fault }
{
    match place {
        WhichFile::First => Told::NoHeader(fault),
        WhichFile::Next => Told::Bad(BadReason::NextFile),
    }
}

impl<F: TapSource + Drop, P: FileSupply<F>> JoinedSource<P, F> {
    ghost use Rattle.pcap_io.specs.Bytes.{bytes_of};
    ghost use Rattle.recording_files.specs.Counts.{CountsBody, CountsRun, read_file_of};
    ghost use Rattle.recording_files.specs.Given.{given_of};
    ghost use Rattle.recording_files.specs.Handed.{ConsumesGiven, GivesBody, body_of, known_of, pending_of};
    ghost use Rattle.recording_files.specs.Handed.{remaining_of, told_of};
    ghost use Rattle.pcapng.specs.Handed.{KeepsGiven};
    ghost use Rattle.recording_files.specs.Input.{drawn_of, file_of};
    ghost use Rattle.recording_files.specs.Run.{IsGivenLayout};
    ghost use Rattle.recording_files.specs.declared.stage.FilesStage.TheVariants as stages;

    /// Reads the files of a supply. It takes none yet, and allocates nothing.
    pub fn new(alloc: Global, supply: P) -> JoinedSource<P, F>
        ensures no_failure { ⟦<JoinedSource<P, F> as TapSource>⟧.failures result ≡ 0 }
        // The bytes that are given for the files, where each of theirs is a byte.
        ensures whole { IfSome (P.files supply) (λ files.
            (remaining_of F.remaining F.told P.files result ≡ bytes_of (given_of files).bytes)
            × (told_of F.remaining F.told P.files result ≡ (given_of files).told)) }
    {
        JoinedSource {
            alloc,
            supply,
            failures: 0,
            input: None,
            frames: 0,
            greatest: 0,
            opened: 0,
            stage: FilesStage::File(WhichFile::First),
            pending: Pending::nothing(),
        }
    }

    /// The supply, and the file that is read, if one is. What was read ahead of that is lost.
    pub fn into_parts(self) -> (P, Option<F>)
        ensures supply { result.0 ≡ self.supply }
        ensures file { result.1 ≡ file_of self.input }
    {
        (self.supply, into_file(self.input))
    }

    /// Which file is read, or was read last, counted from 0.
    pub fn file(&self) -> u64
        ensures { result ≡ self.now.opened - 1 }
    {
        self.opened.saturating_sub(1)
    }

    /// A device failed, or memory was missing.
    fn count_failure(&mut self) -> DeviceFault
        ensures failures { CountsFailure self.old.failures self.new.failures }
        ensures kept { known_of F.remaining F.told P.files self.new
            ≡ known_of F.remaining F.told P.files self.old }
    {
        self.failures = self.failures.saturating_add(1);
        DeviceFault
    }

    /// Moves bytes of the packet that was read into the buffer, as many as fit. Returns how many.
    #[inline]
    fn give_body(&mut self, buf: &mut [u8]) -> usize
        ensures count { result ≡ min (length (body_of self.old.stage (drawn_of self.old.input)))
            (length buf.new) }
        ensures bytes { take result buf.new
            ≡ take result (body_of self.old.stage (drawn_of self.old.input)) }
        ensures given { GivesBody self.old self.new result }
    {
        let FilesStage::Given(layout, from) = self.stage else {
            return 0;
        };
        let bytes = drawn(&self.input);
        let from = from.min(bytes.len());
        let count = copy_some(buf, &bytes[from..]);
        self.stage = FilesStage::Given(layout, from + count);
        count
    }

    /// Moves what is given next into the buffer, as much as fits, and returns how much.
    #[inline]
    fn give(&mut self, buf: &mut [u8]) -> usize
        ensures bound { result ≤ length buf.new }
        ensures bytes { ConsumesGiven (known_of F.remaining F.told P.files self.old)
            (known_of F.remaining F.told P.files self.new) (take result buf.new) }
        ensures all { result < length buf.new → pending_of self.new ≡ [] }
        ensures failures { self.new.failures ≡ self.old.failures }
    {
        let header = self.pending.give(buf);
        header + self.give_body(&mut buf[header..])
    }

    /// The layout of the packets that come next, where they may be given as they stand.
    #[inline]
    fn given_layout(&self) -> Option<Layout>
        ensures { IfSome result (λ layout. (self.now.stage ≡ stages.Header layout)
            × IsGivenLayout layout) }
    {
        match self.stage {
            FilesStage::Header(layout) if is_given_layout(layout) => Some(layout),
            _ => None,
        }
    }

    /// Gives the packets that were read ahead whole, as many as fit, as they stand in their file, up to the
    /// first that can't be given so. Returns how many bytes that is.
    #[inline]
    fn give_run(&mut self, layout: Layout, buf: &mut [u8]) -> usize
        requires stage { self.old.stage ≡ stages.Header layout }
        requires layout { IsGivenLayout layout }
        requires given { pending_of self.old ≡ [] }
        ensures bound { result ≤ length buf.new }
        ensures bytes { ConsumesGiven (known_of F.remaining F.told P.files self.old)
            (known_of F.remaining F.told P.files self.new) (take result buf.new) }
        ensures given { pending_of self.new ≡ [] }
        ensures failures { self.new.failures ≡ self.old.failures }
        ensures counted { CountsRun layout self.old self.new (take result buf.new) }
    {
        let run = move_run(self.alloc, layout, &mut self.input, buf);
        self.frames = self.frames.saturating_add(run.frames);
        self.greatest = self.greatest.max(run.greatest);
        run.len
    }

    /// Gives packets as they stand in their file, where that may be. Returns how many bytes.
    #[inline]
    fn give_packets(&mut self, buf: &mut [u8]) -> usize
        requires given { pending_of self.old ≡ [] }
        ensures bound { result ≤ length buf.new }
        ensures bytes { ConsumesGiven (known_of F.remaining F.told P.files self.old)
            (known_of F.remaining F.told P.files self.new) (take result buf.new) }
        ensures given { pending_of self.new ≡ [] }
        ensures failures { self.new.failures ≡ self.old.failures }
    {
        match self.given_layout() {
            Some(layout) => self.give_run(layout, buf),
            None => 0,
        }
    }

    /// Takes away the file that was read.
    fn take_read(&mut self) -> Option<ReadFile<F>>
        ensures left { self.new ≡ record self.old { input = None; frames = 0; greatest = 0 } }
        // It comes back with what was counted of it.
        ensures file { result ≡ read_file_of self.old (file_of self.old.input) }
    {
        let (frames, greatest) = (self.frames, self.greatest);
        self.frames = 0;
        self.greatest = 0;
        let source = self.input.take()?.into_source();
        Some(ReadFile {
            source,
            frames,
            greatest,
        })
    }

    /// Opens the next file.
    fn open_next(&mut self, place: WhichFile) -> Result<(), DeviceFault>
        requires stage { self.old.stage ≡ stages.File place }
        requires given { pending_of self.old ≡ [] }
        ensures kept { KeepsGiven (known_of F.remaining F.told P.files self.old)
            (known_of F.remaining F.told P.files self.new) }
        ensures failures { self.new.failures ≡ self.old.failures }
        // A file that was opened is counted, and is one of those that were to come.
        ensures opened { self.new.stage ≡ stages.FileHeader place
            → self.new.opened ≡ min (self.old.opened + 1) (2 ^ 64 - 1) }
        ensures one { self.new.stage ≡ stages.FileHeader place
            → P.left self.old.supply ≡ P.left self.new.supply + 1 }
        // Nothing more is read only where no file was to come.
        ensures all { is_over self.new.stage ≡ true → P.left self.old.supply ≡ 0 }
        // It fails only where the supply does, which has as many files to come as before.
        ensures fault { OnErr result
            (CountsFailure (P.failures self.old.supply) (P.failures self.new.supply)) }
        ensures same { OnErr result (P.left self.new.supply ≡ P.left self.old.supply) }
    {
        let last = self.take_read();
        match (self.supply.next_file(last)?, place) {
            (Some(file), _) => {
                self.input = Some(BlockSource::new(file));
                self.opened = self.opened.saturating_add(1);
                self.stage = FilesStage::FileHeader(place);
            }
            (None, WhichFile::First) => {
                self.stage = FilesStage::Ended(Told::NoHeader(HeaderFault::Short));
            }
            (None, WhichFile::Next) => self.stage = FilesStage::Ended(Told::Nothing),
        }
        Ok(())
    }

    /// Reads the header of the file.
    fn begin_file(&mut self, place: WhichFile) -> Result<(), DeviceFault>
        requires stage { self.old.stage ≡ stages.FileHeader place }
        requires given { pending_of self.old ≡ [] }
        ensures kept { KeepsGiven (known_of F.remaining F.told P.files self.old)
            (known_of F.remaining F.told P.files self.new) }
        ensures failures { self.new.failures ≡ self.old.failures }
    {
        match read_file_header(self.alloc, &mut self.input)? {
            Ok(layout) => {
                self.pending = Pending::file(place);
                self.stage = FilesStage::Header(layout);
            }
            Err(fault) => self.stage = FilesStage::Ended(no_header(place, fault)),
        }
        Ok(())
    }

    /// Reads the header of the next packet. The file may end here.
    #[inline]
    fn next_packet(&mut self, layout: Layout) -> Result<(), DeviceFault>
        requires stage { self.old.stage ≡ stages.Header layout }
        requires given { pending_of self.old ≡ [] }
        ensures kept { KeepsGiven (known_of F.remaining F.told P.files self.old)
            (known_of F.remaining F.told P.files self.new) }
        ensures failures { self.new.failures ≡ self.old.failures }
    {
        match read_header(self.alloc, layout, &mut self.input)? {
            Ok(packet) => {
                self.pending = Pending::packet(&packet.header);
                self.stage = FilesStage::Body(packet);
            }
            Err(Ending::Clean(_)) => self.stage = FilesStage::File(WhichFile::Next),
            Err(Ending::Cut(_)) => self.stage = FilesStage::Ended(Told::Cut),
            Err(Ending::Bad(_, reason)) => self.stage = FilesStage::Ended(Told::Bad(reason)),
        }
        Ok(())
    }

    /// Reads the bytes of the packet, or those that its file has of it.
    #[inline]
    fn read_body(&mut self, packet: Packet) -> Result<(), DeviceFault>
        requires stage { self.old.stage ≡ stages.Body packet }
        requires given { pending_of self.old ≡ [] }
        ensures kept { KeepsGiven (known_of F.remaining F.told P.files self.old)
            (known_of F.remaining F.told P.files self.new) }
        ensures failures { self.new.failures ≡ self.old.failures }
        ensures counted { OnOk result
            (CountsBody self.old self.new packet.header self.new.stage) }
    {
        let len = packet.header.captured_len as usize;
        if draw(self.alloc, &mut self.input, len)? {
            self.frames = self.frames.saturating_add(1);
            // The header that is given counts nanoseconds.
            let stamp = u64::from(packet.header.seconds) * 1_000_000_000
                + u64::from(packet.header.fraction);
            self.greatest = self.greatest.max(stamp);
            self.stage = FilesStage::Given(Some(packet.layout), 0);
        } else {
            self.stage = FilesStage::Given(None, 0);
        }
        Ok(())
    }

    /// Goes on where nothing is left to give.
    #[inline]
    fn step(&mut self) -> Result<(), DeviceFault>
        requires given { pending_of self.old ≡ [] }
        ensures kept { KeepsGiven (known_of F.remaining F.told P.files self.old)
            (known_of F.remaining F.told P.files self.new) }
        ensures failures { self.new.failures ≡ self.old.failures }
        // Between two files it fails only where the supply does, and ends only where no file was to come.
        ensures fault { OnErr result ((place : WhichFile) → self.old.stage ≡ stages.File place
            → CountsFailure (P.failures self.old.supply) (P.failures self.new.supply)) }
        ensures all { (place : WhichFile) → self.old.stage ≡ stages.File place
            → is_over self.new.stage ≡ true → P.left self.old.supply ≡ 0 }
    {
        match self.stage {
            FilesStage::File(place) => self.open_next(place),
            FilesStage::FileHeader(place) => self.begin_file(place),
            FilesStage::Header(layout) => self.next_packet(layout),
            FilesStage::Body(packet) => self.read_body(packet),
            FilesStage::Given(Some(layout), _) => {
                self.stage = FilesStage::Header(layout);
                Ok(())
            }
            FilesStage::Given(None, _) => {
                self.stage = FilesStage::Ended(Told::Nothing);
                Ok(())
            }
            FilesStage::Ended(_) => Ok(()),
        }
    }

    /// True if what comes next may have to wait for a device.
    #[inline]
    fn waits(&self) -> bool {
        let needed = match self.stage {
            FilesStage::File(_) => return true,
            FilesStage::FileHeader(_) => FILE_HEADER_LEN,
            FilesStage::Header(_) => PACKET_HEADER_LEN,
            FilesStage::Body(packet) => packet.header.captured_len as usize,
            FilesStage::Given(_, _) | FilesStage::Ended(_) => 0,
        };
        match &self.input {
            Some(input) => input.unread().len() < needed,
            None => true,
        }
    }

    /// Nothing more is read.
    #[inline]
    fn is_ended(&self) -> bool
        ensures { IsTrue result → is_over self.now.stage ≡ true }
    {
        matches!(self.stage, FilesStage::Ended(_))
    }

    /// The outcome of a read that meets a fault: after some bytes it comes again at the next call.
    fn fault_after(&mut self, done: usize) -> Result<usize, DeviceFault>
        ensures done { IfOk result (λ n. (n ≡ done) × (0 < done)) }
        ensures none { OnErr result (done ≡ 0) }
        ensures no_failure { OnOk result (self.new.failures ≡ self.old.failures) }
        ensures fault { OnErr result (CountsFailure self.old.failures self.new.failures) }
        ensures kept { known_of F.remaining F.told P.files self.new
            ≡ known_of F.remaining F.told P.files self.old }
    {
        if done > 0 {
            Ok(done)
        } else {
            Err(self.count_failure())
        }
    }
}

impl<F: TapSource + Drop, P: FileSupply<F>> TapSource for JoinedSource<P, F> {
    ghost use Rattle.pcap_io.specs.Bytes.{known_bytes-are_bytes};
    ghost use Rattle.pcapng.specs.Handed.{bytes_in};
    ghost use Rattle.recording_files.specs.Handed.{is_over, known_of, remaining_of, told_of};

    ghost remaining = { λ s. remaining_of F.remaining F.told P.files s };

    ghost told = { λ s. told_of F.remaining F.told P.files s };

    ghost is_over = { λ s. is_over s.stage };

    ghost failures = { λ s. s.failures };

    ghost gives_bytes = { λ s. known_bytes-are_bytes
        (bytes_in (known_of F.remaining F.told P.files s)) };

    fn read(&mut self, buf: &mut [u8]) -> Result<usize, DeviceFault> {
        if self.failures == u64::MAX {
            return Err(DeviceFault);
        }
        let mut done = 0;
        for _ in 0..u64::MAX {
            done += self.give(&mut buf[done..]);
            if done == buf.len() {
                return Ok(done);
            }
            done += self.give_packets(&mut buf[done..]);
            if self.is_ended() {
                return Ok(done);
            }
            if done > 0 && self.waits() {
                return Ok(done);
            }
            if self.step().is_err() {
                return self.fault_after(done);
            }
        }
        // So many steps are never taken.
        self.fault_after(done)
    }

    fn told(&self) -> Told {
        match self.stage {
            FilesStage::Ended(told) => told,
            _ => Told::Nothing,
        }
    }
}
