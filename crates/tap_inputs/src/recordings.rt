//! The bytes that a command reads of a recording: of one file its own, of several those of one after another.
ghost use Rattle.std.specs.Prelude.{◌≡◌, IfOk, None, OnErr, OnOk};
ghost use Rattle.pcap_io.specs.Device.{CountsFailure, NoFailure};
ghost use Rattle.pcap_io.specs.declared.told.Told.TheVariants.{Nothing};
ghost use Rattle.recording_files.specs.Supply.{CountsNext, GivesNext, KeepsFiles};
ghost use Rattle.tap_inputs.specs.Files.{left_of};

use crate::blocks::{LiveInput, SharedBlocks};
use crate::opening::{open_tap, recording_of};
use crate::outcome::Outcome;
use crate::pauses::Pauses;
use crate::progress::{Progress, Recording};
use crate::streams::Input;
use crate::taps::{Tap, TapFile, Taps};
use afdx_frame::Network;
use command_line::Fault;
use pcap_io::{DeviceFault, Ending, ReadSource};
use pcapng::RecordingSource;
use recording_files::{FileSupply, JoinedSource, ReadFile, RecordingFiles};
use run_manifest::Sum;
use std::alloc::AllocError;
use traffic_survey::Format;

/// The receivers of news of the reading of a recording.
#[derive(Clone, Copy)]
pub struct Reading<'p> {
    pub rt: &'p HostRuntime,
    pub network: Network,
    /// Are the bytes hashed?
    pub hashed: bool,
    pub progress: Option<&'p Progress>,
    pub pauses: Option<&'p Pauses>,
}

impl<'p> Reading<'p> {
    /// Nobody is told.
    pub fn quiet(rt: &'p HostRuntime, network: Network) -> Reading<'p> {
        Reading {
            rt,
            network,
            hashed: false,
            progress: None,
            pauses: None,
        }
    }
}

/// A file of a recording, in either format.
type FileSource<'p> = RecordingSource<ReadSource<Recording<'p>>>;

/// The files of a recording of several, of which one is open at a time.
#[derive(Drop)]
pub struct FileList<'p> {
    reading: Reading<'p>,
    tap: &'p Tap,
    /// The output that is handed over before a file is read that may pause.
    output: Option<SharedBlocks>,
    /// The first file, until it is its turn.
    first: Option<Input>,
    /// How many files were opened.
    begun: usize,
    /// How often one couldn't be opened.
    failures: u64,
    /// The knowledge of those that were read.
    ended: TapEnd,
}

impl<'p> FileList<'p> {
    /// The file of this number, if it can be opened.
    fn open(&self, number: usize, first: Option<Input>) -> Option<FileSource<'p>> {
        let Reading { rt, .. } = self.reading;
        let file = self.tap.files.get(number)?;
        let input = match first {
            Some(first) => Ok(first),
            None => Input::open(rt, &file.path),
        };
        let input = match input {
            Ok(input) => input,
            Err(error) => {
                self.tap.fails(number, error);
                return None;
            }
        };
        let output = match &self.output {
            Some(output) => Some(output.share().ok()?),
            None => None,
        };
        let input = LiveInput::new(input, output);
        let recording = Recording::new(input, self.reading, (self.tap, number));
        recording_of(rt, ReadSource::new(recording), file.choice).ok()
    }

    /// The next file, once one was read, if it can be opened. One that can't stays the next.
    fn next(&mut self, last: Option<ReadFile<FileSource<'p>>>) -> Result<Option<FileSource<'p>>, ()>
        ensures count { IfOk result (CountsNext (left_of self.old) (left_of self.new)) }
        ensures same { OnErr result (left_of self.new ≡ left_of self.old) }
    {
        if let Some(file) = last {
            self.ended.add_read(file).map_err(|_| ())?;
        }
        if self.begun >= self.tap.files.len() {
            return Ok(None);
        }
        let first = self.first.take();
        let Some(file) = self.open(self.begun, first) else {
            return Err(());
        };
        self.begun += 1;
        Ok(Some(file))
    }

    /// The number of the file that is read, or else of the one that couldn't be opened, or of the last.
    fn file(&self, is_read: bool) -> usize {
        if is_read || self.begun == self.tap.files.len() {
            return self.begun.saturating_sub(1);
        }
        self.begun
    }
}

impl<'p> FileSupply<FileSource<'p>> for FileList<'p> {
    ghost left = { λ s. left_of s };

    ghost failures = { λ s. s.failures };

    fn next_file(
        &mut self,
        last: Option<ReadFile<FileSource<'p>>>,
    ) -> Result<Option<FileSource<'p>>, DeviceFault>
        ensures next { IfOk result (GivesNext (λ _. None) (λ _. Nothing) None None) }
        ensures kept { OnErr result (KeepsFiles None None) }
        ensures count { IfOk result (CountsNext (left_of self.old) (left_of self.new)) }
        ensures same { OnErr result (left_of self.new ≡ left_of self.old) }
        ensures no_failure { OnOk result (NoFailure self.old.failures self.new.failures) }
        ensures fault { OnErr result (CountsFailure self.old.failures self.new.failures) }
    {
        let failures = self.failures;
        if failures == u64::MAX {
            return Err(DeviceFault);
        }
        let next = self.next(last);
        self.failures = failures;
        match next {
            Ok(file) => Ok(file),
            Err(()) => {
                self.failures = failures.saturating_add(1);
                Err(DeviceFault)
            }
        }
    }
}

/// A recording as it is read.
pub type TapFiles<'p> = RecordingFiles<FileList<'p>, FileSource<'p>>;

/// The knowledge of a recording that was read.
#[derive(Drop)]
pub struct TapEnd {
    /// How many packets that are not of Ethernet were skipped.
    pub skipped: u64,
    /// The number of the file that was read last, or that couldn't be opened.
    pub file: usize,
    /// The frames of the files that were read to their ends, with all before.
    frames: Vec<u64>,
    /// The greatest timestamps of these, with all before, in nanoseconds since 1970. 0: there was no frame.
    pub greatest: Vec<u64>,
    /// The sums of the files that were read.
    pub sums: Vec<Sum>,
    /// The format of the first one, if it is known.
    pub format: Option<Format>,
}

impl TapEnd {
    /// Nothing was read.
    fn new(rt: &HostRuntime) -> TapEnd {
        TapEnd {
            skipped: 0,
            file: 0,
            frames: Vec::new(rt.alloc()),
            greatest: Vec::new(rt.alloc()),
            sums: Vec::new(rt.alloc()),
            format: None,
        }
    }

    /// A file was read to its end too.
    fn add_read(&mut self, file: ReadFile<FileSource<'_>>) -> Result<(), AllocError> {
        let before = self.frames.last().copied().unwrap_or(0);
        self.frames.push(before.saturating_add(file.frames))?;
        let greatest = self.greatest.last().copied().unwrap_or(0);
        self.greatest.push(greatest.max(file.greatest))?;
        self.add(file.source)
    }

    /// The number of the file in which the recording ended so.
    pub fn file_of(&self, ending: Ending) -> usize {
        let count = ending.frames();
        self.frames
            .iter()
            .filter(|frames| **frames <= count)
            .count()
            .min(self.file)
    }

    /// A file was read too.
    fn add(&mut self, file: FileSource<'_>) -> Result<(), AllocError> {
        self.skipped = self.skipped.saturating_add(file.skipped());
        let recording = file.into_source().into_reader();
        if self.sums.is_empty() {
            self.format = recording.format();
        }
        self.sums.push(recording.into_sum())?;
        Ok(())
    }
}

/// The recording of a network, of which the first file is open. `output` is handed over before a file is read
/// that may pause.
pub fn files_of<'p>(
    reading: Reading<'p>,
    tap: &'p Tap,
    first: Input,
    output: Option<SharedBlocks>,
) -> Result<TapFiles<'p>, Fault> {
    let Reading { rt, .. } = reading;
    if !tap.is_of_several() {
        let recording = Recording::new(LiveInput::new(first, output), reading, (tap, 0));
        let source = recording_of(rt, ReadSource::new(recording), tap.choice())?;
        return Ok(RecordingFiles::One(source));
    }
    let files = FileList {
        reading,
        tap,
        output,
        first: Some(first),
        begun: 0,
        failures: 0,
        ended: TapEnd::new(rt),
    };
    Ok(RecordingFiles::Several(JoinedSource::new(rt.alloc(), files)))
}

/// The knowledge of a recording now that it was read.
pub fn end_of(rt: &HostRuntime, files: TapFiles<'_>) -> TapEnd {
    let (mut ended, last) = match files {
        RecordingFiles::One(file) => (TapEnd::new(rt), Some(file)),
        RecordingFiles::Several(source) => {
            let (files, last) = source.into_parts();
            let file = files.file(last.is_some());
            let mut ended = files.ended;
            ended.file = file;
            (ended, last)
        }
    };
    if let Some(file) = last {
        // Without memory for one more sum the file has none.
        let _ = ended.add(file);
    }
    ended
}

/// Opens both recordings of a command that shows no progress, and looks at them. A timestamp may lie `late`
/// nanoseconds below the greatest one before it.
pub fn open_both<'p>(
    rt: &'p HostRuntime,
    (a, b): (Option<&str>, Option<&str>),
    taps: &'p Taps,
    late: u64,
) -> Result<(TapFiles<'p>, TapFiles<'p>), Outcome> {
    let first_a = open_tap(rt, a, Network::A, None)?;
    let first_b = open_tap(rt, b, Network::B, None)?;
    taps.look(rt, &first_a, &first_b, late)?;
    let (tap_a, tap_b) = (taps.of_network(Network::A), taps.of_network(Network::B));
    let a = files_of(Reading::quiet(rt, Network::A), tap_a, first_a, None)?;
    let b = files_of(Reading::quiet(rt, Network::B), tap_b, first_b, None)?;
    Ok((a, b))
}
