//! Recordings in several files: reads that fail, and files that come back. What is read of them, and how they
//! end, are cases of the program (`tests/several.py`).
ghost use Rattle.std.specs.Prelude.{◌≡◌, IfOk, None, OnErr, OnOk};
ghost use Rattle.std.specs.VecDeque.{deque_len};
ghost use Rattle.pcap_io.specs.Device.{CountsFailure, NoFailure};
ghost use Rattle.pcap_io.specs.declared.told.Told.TheVariants.{Nothing};
ghost use Rattle.recording_files.specs.Supply.{CountsNext, GivesNext, KeepsFiles};

use crate::support::{HEADER, SOUND};
use pcap_io::{DeviceFault, MemSource, Script, TapSource};
use recording_files::{FileSupply, JoinedSource, ReadFile};
use std::alloc::{AllocError, Global};
use std::collections::VecDeque;

// further: mod given;

/// Files in memory. One call for the next of them fails.
#[derive(Drop)]
struct Files {
    files: VecDeque<MemSource>,
    calls: u64,
    miss: Option<u64>,
    failures: u64,
    /// Of the files that came back: how many frames they gave, and their greatest timestamp.
    frames: u64,
    greatest: u64,
}

impl FileSupply<MemSource> for Files {
    ghost left = { λ s. deque_len s.files };

    ghost failures = { λ s. s.failures };

    fn next_file(
        &mut self,
        last: Option<ReadFile<MemSource>>,
    ) -> Result<Option<MemSource>, DeviceFault>
        ensures next { IfOk result (GivesNext (λ _. None) (λ _. Nothing) None None) }
        ensures kept { OnErr result (KeepsFiles None None) }
        ensures count { IfOk result (CountsNext (deque_len self.old.files) (deque_len self.new.files)) }
        ensures same { OnErr result (deque_len self.new.files ≡ deque_len self.old.files) }
        ensures no_failure { OnOk result (NoFailure self.old.failures self.new.failures) }
        ensures fault { OnErr result (CountsFailure self.old.failures self.new.failures) }
    {
        if let Some(file) = last {
            self.frames = self.frames.saturating_add(file.frames);
            self.greatest = self.greatest.max(file.greatest);
        }
        let call = self.calls;
        self.calls = call.saturating_add(1);
        if self.failures == u64::MAX || self.miss == Some(call) {
            self.failures = self.failures.saturating_add(1);
            return Err(DeviceFault);
        }
        match self.files.pop_front() {
            Some(file) => Ok(Some(file)),
            None => Ok(None),
        }
    }
}

/// A file, and to how many bytes it is truncated.
type Part = (&'static [u8], usize);

const WHOLE: usize = usize::MAX;

/// A source of these files, each of which behaves so.
fn joined(
    alloc: Global,
    parts: &[Part],
    script: Script,
    miss: Option<u64>,
) -> Result<JoinedSource<Files, MemSource>, AllocError> {
    let mut files = VecDeque::new(alloc);
    for (file, len) in parts {
        let bytes = Vec::from_slice(alloc, &file[..file.len().min(*len)])?;
        files.push_back(MemSource::new(bytes, script))?;
    }
    Ok(JoinedSource::new(
        alloc,
        Files {
            files,
            calls: 0,
            miss,
            failures: 0,
            frames: 0,
            greatest: 0,
        },
    ))
}

/// Files of one packet: 2 bytes of 60 on the wire.
const NANO_LITTLE: &[u8] = &[
    0x4d, 0x3c, 0xb2, 0xa1, 2, 0, 4, 0, 0, 0, 0, 0, 0, 0, 0, 0, 0, 0, 4, 0, 1, 0, 0, 0, 1, 0, 0, 0,
    5, 0, 0, 0, 2, 0, 0, 0, 60, 0, 0, 0, 7, 8,
];

const NANO_BIG: &[u8] = &[
    0xa1, 0xb2, 0x3c, 0x4d, 0, 2, 0, 4, 0, 0, 0, 0, 0, 0, 0, 0, 0, 4, 0, 0, 0, 0, 0, 1, 0, 0, 0, 2,
    0, 0, 0, 5, 0, 0, 0, 2, 0, 0, 0, 60, 7, 8,
];

const MICRO_BIG: &[u8] = &[
    0xa1, 0xb2, 0xc3, 0xd4, 0, 2, 0, 4, 0, 0, 0, 0, 0, 0, 0, 0, 0, 4, 0, 0, 0, 0, 0, 1, 0, 0, 0, 4,
    0, 0, 0, 5, 0, 0, 0, 2, 0, 0, 0, 60, 7, 8,
];

/// Reads up to the end, a piece at a time, going on after each failure. Returns how many bytes came,
/// what they sum to, and how often a read failed.
fn sums(source: &mut JoinedSource<Files, MemSource>) -> (usize, u64, u64) {
    let (mut count, mut sum, mut failures) = (0usize, 0u64, 0u64);
    let mut buf = [0u8; 10];
    for _ in 0..10_000 {
        match source.read(&mut buf) {
            Ok(0) => break,
            Ok(came) => {
                count = count.saturating_add(came);
                for byte in &buf[..came.min(10)] {
                    sum = sum.wrapping_mul(31).wrapping_add(u64::from(*byte));
                }
            }
            Err(DeviceFault) => failures = failures.saturating_add(1),
        }
    }
    (count, sum, failures)
}

/// Files that are read to the end: whether the last is kept, and the frames and the greatest timestamp of
/// those that came back.
const BACK: [(&[Part], bool, u64, u64); 2] = [
    (
        &[(MICRO_BIG, WHOLE), (&HEADER, WHOLE), (NANO_LITTLE, WHOLE)],
        false,
        2,
        4_000_005_000,
    ),
    (
        &[(NANO_LITTLE, WHOLE), (NANO_BIG, 41)],
        true,
        1,
        1_000_000_005,
    ),
];

#[test]
fn a_file_that_was_read_comes_back(rt: HostRuntime) -> Result<(), AllocError> {
    for (parts, kept, frames, greatest) in &BACK {
        let mut source = joined(rt.alloc(), parts, SOUND, None)?;
        let _ = sums(&mut source);
        let (files, last) = source.into_parts();
        assert!(rt; last.is_some() == *kept);
        assert!(rt; files.frames == *frames && files.greatest == *greatest);
    }
    Ok(())
}

#[test]
fn reads_go_on_after_a_failure(rt: HostRuntime) -> Result<(), AllocError> {
    let parts = &[(NANO_LITTLE, WHOLE), (MICRO_BIG, WHOLE), (NANO_BIG, WHOLE)];
    let (count, sum, failures) = sums(&mut joined(rt.alloc(), parts, SOUND, None)?);
    assert!(rt; count == 78 && failures == 0);
    for call in 0..4 {
        let missed = sums(&mut joined(rt.alloc(), parts, SOUND, Some(call))?);
        assert!(rt; missed == (count, sum, 1));
        let failing = Script {
            miss: Some(call),
            ..SOUND
        };
        let missed = sums(&mut joined(rt.alloc(), parts, failing, None)?);
        assert!(rt; missed.0 == count && missed.1 == sum);
    }
    Ok(())
}
