//! The source that gives a recording of either format as pcap.
ghost use Rattle.std.specs.Prelude.{◌≡◌, ◌≤◌, ◌<◌, [], length, take, Some, IfSome, Ok, Err, IfOk, IfErr, OnOk, OnErr};
ghost use Rattle.std.specs.Io.KnownBytes.{Consumes, Keeps, ReadConsumes};
ghost use Rattle.pcap_io.specs.Device.{CountsFailure};
ghost use Rattle.pcap_io.specs.Told.{StaysTold};
ghost use Rattle.pcapng.specs.declared.block.TheConstants.{MAX_BLOCK_LEN};

use crate::block::MAX_BLOCK_LEN;
use crate::choice::Choice;
use crate::converter::{Converter, Reached, Step};
use crate::interface::Interface;
use pcap_io::{DeviceFault, TapSource, Told};
use std::alloc::Global;

/// A source that nothing was made of, as there was no memory.
#[derive(Drop)]
pub struct Refused<S> {
    pub source: S,
}

/// A recording of either format, handed on as pcap.
///
/// A recording that doesn't begin as pcapng is handed on as it is. Of a pcapng recording the packets
/// of one Ethernet interface are given. It reads its source ahead, at most 64 KiB at a time. The source is a
/// device or a file, which tells nothing: what another one tells isn't handed on.
#[derive(Drop)]
pub struct RecordingSource<S> {
    source: S,
    /// How often the source has failed.
    failures: u64,
    converter: Converter,
}

impl<S: TapSource> RecordingSource<S> {
    ghost use Rattle.pcapng.specs.Handed.{EndsWithin, Lacks, StillGiven};
    ghost use Rattle.pcapng.specs.Handed.{given_of, pending_of, remaining_of, told_of, unread_of};
    ghost use Rattle.pcapng.specs.declared.converter.Reached.TheVariants.{Untouched};

    /// Hands on the recording of a source. It reads nothing yet, and allocates all that it will need:
    /// a block of 2^20 bytes, of which it touches no more than 64 KiB unless a longer block comes, and
    /// room for the interfaces of a section.
    ///
    /// # Errors
    ///
    /// There is no memory for these. The source comes back.
    pub fn new(alloc: Global, source: S, choice: Choice) -> Result<RecordingSource<S>, Refused<S>>
        ensures no_failure { IfOk result (λ s. ⟦<RecordingSource<S> as TapSource>⟧.failures s ≡ 0) }
        ensures whole { IfOk result (λ s. IfSome (S.remaining source) (λ bytes.
            (remaining_of S.remaining s ≡ Some (given_of choice bytes).bytes)
            × (told_of S.remaining s ≡ (given_of choice bytes).told))) }
        ensures refused { IfErr result (λ r. r.source ≡ source) }
    {
        match Converter::new(alloc, choice) {
            Ok(converter) => Ok(RecordingSource {
                source,
                failures: 0,
                converter,
            }),
            Err(_) => Err(Refused { source }),
        }
    }

    /// The source. What was read ahead of it is lost.
    pub fn into_source(self) -> S
        ensures { result ≡ self.source }
    {
        self.source
    }

    /// How many packets of interfaces that aren't Ethernet were skipped so far.
    pub fn skipped(&self) -> u64
        ensures { result ≡ self.now.converter.skipped }
    {
        self.converter.skipped()
    }

    /// The interfaces that the current section described so far.
    pub fn interfaces(&self) -> &[Interface]
        ensures { result.now ≡ self.now.converter.section.interfaces.items }
    {
        self.converter.interfaces()
    }

    /// The source failed.
    fn count_failure(&mut self) -> DeviceFault
        ensures failures { CountsFailure self.old.failures self.new.failures }
        ensures source { self.new.source ≡ self.old.source }
        ensures converter { self.new.converter ≡ self.old.converter }
    {
        self.failures = self.failures.saturating_add(1);
        DeviceFault
    }

    /// Moves what is given next into the buffer, as much as fits, and returns how much.
    #[inline]
    fn give(&mut self, buf: &mut [u8]) -> usize
        ensures bound { result ≤ length buf.new }
        ensures bytes { Consumes (remaining_of S.remaining self.old)
            (remaining_of S.remaining self.new) (take result buf.new) }
        ensures told { StaysTold (remaining_of S.remaining self.old)
            (told_of S.remaining self.old) (told_of S.remaining self.new) }
        ensures all { result < length buf.new → pending_of self.new.converter ≡ [] }
        ensures failures { self.new.failures ≡ self.old.failures }
    {
        self.converter.give(buf)
    }

    /// Goes on where nothing is left to give.
    #[inline]
    fn step(&mut self) -> Step
        requires { pending_of self.old.converter ≡ [] }
        ensures kept { Keeps (remaining_of S.remaining self.old)
            (remaining_of S.remaining self.new) }
        ensures told { StaysTold (remaining_of S.remaining self.old)
            (told_of S.remaining self.old) (told_of S.remaining self.new) }
        ensures lacks { Lacks self.new.converter result }
        ensures given { StillGiven self.new.converter result [] }
        ensures failures { self.new.failures ≡ self.old.failures }
    {
        self.converter.step()
    }

    /// Reads the source into the buffer, where the recording is handed on as it is.
    #[inline]
    fn pass(&mut self, buf: &mut [u8]) -> Result<usize, DeviceFault>
        requires given { pending_of self.old.converter ≡ [] }
        requires read { unread_of self.old.converter ≡ [] }
        requires untouched { self.old.converter.stage ≡ Untouched }
        ensures bytes { ReadConsumes (remaining_of S.remaining self.old)
            (remaining_of S.remaining self.new) result buf.new }
        ensures told { StaysTold (remaining_of S.remaining self.old)
            (told_of S.remaining self.old) (told_of S.remaining self.new) }
        ensures stage { self.new.converter.stage ≡ self.old.converter.stage }
        ensures bound { IfOk result (λ n. n ≤ length buf.new) }
        ensures no_failure { OnOk result (self.new.failures ≡ self.old.failures) }
        ensures fault { OnErr result (CountsFailure self.old.failures self.new.failures) }
    {
        match self.source.read(buf) {
            Ok(came) => Ok(came),
            Err(DeviceFault) => Err(self.count_failure()),
        }
    }

    /// Reads on, or finds the end of the source.
    #[inline]
    fn refill(&mut self, needed: usize) -> Result<(), DeviceFault>
        requires fits { needed ≤ MAX_BLOCK_LEN }
        requires lacks { length (unread_of self.old.converter) < needed }
        requires ends { EndsWithin self.old.converter }
        requires given { pending_of self.old.converter ≡ [] }
        ensures kept { Keeps (remaining_of S.remaining self.old)
            (remaining_of S.remaining self.new) }
        ensures told { StaysTold (remaining_of S.remaining self.old)
            (told_of S.remaining self.old) (told_of S.remaining self.new) }
        ensures no_failure { OnOk result (self.new.failures ≡ self.old.failures) }
        ensures fault { OnErr result (CountsFailure self.old.failures self.new.failures) }
    {
        match self.converter.refill(&mut self.source, needed) {
            Ok(0) => {
                self.converter.end_here();
                Ok(())
            }
            Ok(_) => Ok(()),
            Err(DeviceFault) => Err(self.count_failure()),
        }
    }
}

impl<S: TapSource> TapSource for RecordingSource<S> {
    ghost use Rattle.pcap_io.specs.Bytes.{known_bytes-are_bytes};
    ghost use Rattle.pcapng.specs.Handed.{bytes_in, handed_known, is_over, remaining_of, told_of};

    ghost remaining = { λ s. remaining_of S.remaining s };

    ghost told = { λ s. told_of S.remaining s };

    ghost is_over = { λ s. is_over s.converter.stage };

    ghost failures = { λ s. s.failures };

    ghost gives_bytes = { λ s. known_bytes-are_bytes
        (bytes_in (handed_known s.converter (S.remaining s.source))) };

    fn read(&mut self, buf: &mut [u8]) -> Result<usize, DeviceFault> {
        if self.failures == u64::MAX {
            return Err(DeviceFault);
        }
        let mut done = 0;
        for _ in 0..u64::MAX {
            done += self.give(&mut buf[done..]);
            if done == buf.len() {
                return Ok(done);
            }
            match self.converter.stage() {
                Reached::Ended(_) => return Ok(done),
                Reached::Untouched if self.converter.is_read() => {
                    return if done > 0 { Ok(done) } else { self.pass(buf) };
                }
                _ => {}
            }
            if let Step::Needs(needed) = self.step() {
                if done > 0 {
                    return Ok(done);
                }
                self.refill(needed)?;
            }
        }
        // So many steps are never taken.
        if done > 0 {
            Ok(done)
        } else {
            Err(self.count_failure())
        }
    }

    fn told(&self) -> Told {
        self.converter.told()
    }
}
