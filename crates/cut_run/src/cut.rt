//! From a ledger and its recordings to a capture.
ghost use Rattle.std.specs.Prelude.{◌≡◌, ◌≤◌, ◌<◌, ◌++◌, ◌∷◌, length, List, Option, Err, OnOk, MatchResult, false, []};
ghost use Rattle.afdx_frame.specs.Frame.{Frame};
ghost use Rattle.afdx_frame.specs.declared.bounds.TheConstants.{MAX_SNAPLEN};
ghost use Rattle.cut_run.specs.Finder.{finder_source, finding_of};
ghost use Rattle.ledger_text.specs.declared.frame.FrameLine.{FrameLine};
ghost use Rattle.afdx_frame.specs.declared.key.Network.{Network};
ghost use Rattle.ledger_text.specs.declared.bounds.TheConstants.{BLOCK_LEN, MAX_LINES};
ghost use Rattle.ledger_text.specs.Neighbours.{AreNoted, Around, HasAsked};
ghost use Rattle.packet_format.specs.Packets.{Format, format_of};
ghost use Rattle.packet_format.specs.Writer.{format_in, has_failed, sink_of};
ghost use Rattle.run_fault.specs.Device.{SinkView, SourceView};
ghost use Rattle.ledger_text.specs.Ledger.{has_failed as ledger_failed};
ghost use Rattle.ledger_text.specs.Lines.{unread_of};
ghost use Rattle.ledger_text.specs.Reader.{source_of};
ghost use Rattle.cut_run.specs.Cut.{CutDevices, devices_at, IsCutRun, ledger_fault};
ghost use Rattle.cut_run.specs.Cutting.{EndsCut, HasCut, HasTaken, StopsCut, StopsTaking, TakesMore, WritesTaken};
ghost use Rattle.cut_run.specs.Lines.{Choice};

use crate::fault::{CutFault, CutSource};
use crate::observer::LineObserver;
use crate::recordings::{Recordings, Unopened, is_read};
use afdx_frame::{Network, TapFrame};
use ledger_text::{
    Chooser, FoundLine, FrameLine, LedgerLine, LedgerReader, LedgerStop, LinesRefused, Neighbours,
    ReadFault, Selection,
};
use packet_format::{PacketFault, PacketFormat, PacketWriter, head_of};
use pcap_io::{OutSink, TapSource};
use std::alloc::{AllocError, Global};

/// How the ledger of a cut ended.
#[derive(Clone, Copy, PartialEq, Eq)]
pub enum CutEnding {
    /// After its line `total`.
    Complete,
    /// Before that, maybe within a line: its run was stopped, or goes on.
    Incomplete(LedgerStop),
}

/// A cut that has ended, with the devices that it was given.
#[derive(Drop)]
pub struct CutRun<L, S, T, W> {
    /// How the ledger ended, or why the cut was aborted.
    pub outcome: Result<CutEnding, CutFault>,
    /// The ledger's source.
    pub ledger: L,
    /// The source of network A.
    pub a: S,
    /// The source of network B.
    pub b: T,
    /// The output's sink.
    pub output: W,
}

/// The frames of a cut: where they are found, and where those that are taken are written.
#[derive(Drop)]
pub(crate) struct Taking<'a, S, T, W> {
    recordings: Recordings<S, T>,
    output: PacketWriter<'a, W>,
    chooser: Chooser,
}

/// Why a reader of the ledger doesn't go on.
pub(crate) fn ledger_fault(fault: ReadFault) -> CutFault
    ensures { result ≡ ledger_fault fault }
{
    match fault {
        ReadFault::Line { number, fault } => CutFault::Ledger {
            line: number,
            fault,
        },
        ReadFault::Device | ReadFault::Failed => CutFault::Read {
            source: CutSource::Ledger,
        },
    }
}

/// The source that a reader of a ledger reads. No more than a block was read ahead of it.
pub(crate) fn into_ledger<L: TapSource>(reader: LedgerReader<L>) -> L
    ensures source { result ≡ source_of reader }
    ensures lost { length (unread_of reader.lines) ≤ BLOCK_LEN }
{
    reader.into_source()
}

impl<S: TapSource, T: TapSource, W: OutSink> Taking<'_, S, T, W> {
    /// Writes the packet of the ledger's next line and its frame, if the line is taken.
    #[inline]
    fn write_taken<O: LineObserver>(
        &mut self,
        observer: &O,
        selection: &Selection,
        line: &FrameLine,
        frame: &TapFrame,
    ) -> Result<(), CutFault>
        requires { has_failed self.old.output ≡ false }
        ensures recordings { self.new.recordings ≡ self.old.recordings }
        ensures written { (format : Format) (around : Option Around) (skips : Option Network)
            (before : List FrameLine) → length before < MAX_LINES → format_in self.old.output ≡ format
            → HasAsked selection.now around before self.old.chooser
            → HasAsked selection.now around (before ++ line.now ∷ []) self.new.chooser
            × WritesTaken W.OutSink format
            (record { selection = selection.now; around = around; skips = skips })
            before line.now frame.now result self.old self.new }
        ensures format { format_in self.new.output ≡ format_in self.old.output }
        ensures going { OnOk result (has_failed self.new.output ≡ false) }
    {
        if !self.chooser.takes(selection, line) {
            return Ok(());
        }
        let whole = frame.view().bytes().len() as u32;
        observer.writes(line);
        match self.output.put(&frame.lent(), whole, Some(line)) {
            Ok(()) => Ok(()),
            Err(PacketFault::Device) => Err(CutFault::Write),
            Err(PacketFault::Memory) => Err(CutFault::Memory),
        }
    }

    /// Passes over the ledger's next line.
    #[inline]
    fn pass_over<O: LineObserver>(&mut self, observer: &O, selection: &Selection, line: &FrameLine)
        ensures recordings { self.new.recordings ≡ self.old.recordings }
        ensures output { self.new.output ≡ self.old.output }
        ensures asked { (around : Option Around) (before : List FrameLine) → length before < MAX_LINES
            → HasAsked selection.now around before self.old.chooser
            → HasAsked selection.now around (before ++ line.now ∷ []) self.new.chooser }
    {
        if self.chooser.takes(selection, line) {
            observer.passes(line);
        }
    }

    /// Finds the frame of the ledger's next line, whose number this is, and writes it, if the line is taken.
    /// A line of the network that is skipped is passed over.
    #[inline]
    fn cut_line<O: LineObserver>(
        &mut self,
        alloc: Global,
        observer: &O,
        selection: &Selection,
        skips: Option<Network>,
        line: &FrameLine,
        number: u64,
    ) -> Result<(), CutFault>
        requires { has_failed self.old.output ≡ false }
        ensures cut { (format : Format) (around : Option Around) (a b : SourceView) (output : SinkView)
            (vs : List FrameLine) (fs : List Frame) (taken : List (FrameLine × Frame))
            (frames_a frames_b : List Frame) → length vs < MAX_LINES
            → (let choice : Choice = record { selection = selection.now; around = around; skips = skips } in
            HasTaken S.TapSource T.TapSource W.OutSink format choice a b output vs fs taken
            frames_a frames_b self.old
            → MatchResult result
            (λ _. TakesMore S.TapSource T.TapSource W.OutSink format choice a b output vs fs line.now
            self.new)
            (λ fault. StopsTaking S.TapSource T.TapSource W.OutSink format choice a b output vs fs taken
            line.now number fault self.new)) }
        ensures going { OnOk result (has_failed self.new.output ≡ false) }
    {
        observer.reads(line);
        if !is_read(skips, line.network) {
            self.pass_over(observer, selection, line);
            return Ok(());
        }
        let frame = self.recordings.find(alloc, line, number)?;
        self.write_taken(observer, selection, line, &frame)
    }

    /// The sources and the sink.
    fn into_devices(self) -> (S, T, W)
        ensures devices { result ≡ (
          finder_source self.entry.recordings.a,
          finder_source self.entry.recordings.b,
          sink_of self.entry.output,
        ) }
        ensures lost { (length (finding_of S.TapSource self.entry.recordings.a).unread
            ≤ MAX_SNAPLEN)
            × (length (finding_of T.TapSource self.entry.recordings.b).unread ≤ MAX_SNAPLEN) }
    {
        let Taking {
            recordings,
            output,
            chooser: _,
        } = self;
        let (a, b) = recordings.into_sources();
        (a, b, output.finish())
    }
}

/// Cuts up to the ledger's end.
fn cut_lines<L: TapSource, S: TapSource, T: TapSource, W: OutSink, O: LineObserver>(
    alloc: Global,
    observer: &O,
    selection: &Selection,
    skips: Option<Network>,
    ledger: &mut LedgerReader<L>,
    taking: &mut Taking<'_, S, T, W>,
) -> Result<CutEnding, CutFault>
    requires sound { ledger_failed ledger.old ≡ false }
    requires going { has_failed taking.old.output ≡ false }
    ensures { (format : Format) (around : Option Around) (before : CutDevices)
        → (let choice : Choice = record { selection = selection.now; around = around; skips = skips } in
        HasCut L.TapSource S.TapSource T.TapSource W.OutSink format choice before [] [] [] [] []
        ledger.old taking.old
        → MatchResult result
        (λ e. EndsCut L.TapSource S.TapSource T.TapSource W.OutSink format choice e before
        ledger.new taking.new)
        (λ fault. StopsCut L.TapSource S.TapSource T.TapSource W.OutSink format choice fault before
        ledger.new taking.new)) }
{
    loop {
        match ledger.advance() {
            Ok(FoundLine::Line(LedgerLine::Frame(line))) => {
                taking.cut_line(alloc, observer, selection, skips, &line, ledger.number())?;
            }
            Ok(FoundLine::Line(LedgerLine::Head(_))) => {}
            Ok(FoundLine::Line(LedgerLine::Counts(_))) => {}
            Ok(FoundLine::Complete) => return Ok(CutEnding::Complete),
            Ok(FoundLine::Incomplete(stop)) => return Ok(CutEnding::Incomplete(stop)),
            Err(fault) => return Err(ledger_fault(fault)),
        }
    }
}

/// A cut that wasn't begun.
fn refused<L, S, T, W>(fault: CutFault, ledger: L, a: S, b: T, output: W) -> CutRun<L, S, T, W>
    ensures { result ≡ record { outcome = Err fault; ledger = ledger; a = a; b = b; output = output } }
{
    CutRun {
        outcome: Err(fault),
        ledger,
        a,
        b,
        output,
    }
}

/// Writes a capture in some format of the frames whose lines in a ledger the selection takes, whole as
/// recorded and in the ledger's order. A pcapng packet has the verdict of its line as its comment. Each line
/// of a frame is checked against its network's recording, taken or not. Lines of the network that is
/// skipped, as one without a recording, are passed over.
///
/// With neighbours, which [`neighbours_of`](crate::neighbours_of) has found by the same selection, the lines
/// near selected ones are taken too. `observer` is told each line of a frame, and that of each packet before
/// it is written.
///
/// One pass over all three files. It allocates a block for each of them, a packet, and room for the frames
/// that a recording with late timestamps has before those that the ledger names earlier. All devices
/// come back. Sources may have been read ahead.
///
/// # Errors
///
/// `Header` or `Read` if a recording can't be opened, and then nothing was written. Later the output has
/// the whole capture of the frames up to the fault: `Ledger`, `Order` and `Absent` name the first
/// wrong line. After `Write` it has a prefix of that.
pub fn cut_frames<L: TapSource, S: TapSource, T: TapSource, W: OutSink, O: LineObserver>(
    alloc: Global,
    selection: &Selection,
    neighbours: Option<Neighbours>,
    skips: Option<Network>,
    ledger: L,
    a: S,
    b: T,
    format: PacketFormat<'_>,
    output: W,
    observer: &O,
) -> CutRun<L, S, T, W>
    ensures { (around : Option Around) → AreNoted selection.now around neighbours
        → IsCutRun (format_of format.entry)
        (record { selection = selection.now; around = around; skips = skips }) result.outcome
        (devices_at L.TapSource S.TapSource T.TapSource W.OutSink ledger a b output)
        (devices_at L.TapSource S.TapSource T.TapSource W.OutSink
        result.ledger result.a result.b result.output) }
{
    let head = match head_of(alloc, format) {
        Ok(head) => head,
        Err(AllocError) => return refused(CutFault::Memory, ledger, a, b, output),
    };
    let ledger = match LedgerReader::new(alloc, ledger) {
        Ok(reader) => reader,
        Err(LinesRefused { source }) => return refused(CutFault::Memory, source, a, b, output),
    };
    let recordings = match Recordings::open(alloc, a, b) {
        Ok(recordings) => recordings,
        Err(Unopened { fault, a, b }) => {
            return refused(fault, ledger.into_source(), a, b, output);
        }
    };
    let output = match PacketWriter::begin(alloc, format, head, output) {
        Ok(writer) => writer,
        Err(sink) => {
            let (a, b) = recordings.into_sources();
            return refused(CutFault::Write, ledger.into_source(), a, b, sink);
        }
    };
    let mut ledger = ledger;
    let mut taking = Taking {
        recordings,
        output,
        chooser: Chooser::new(neighbours),
    };
    let outcome = cut_lines(alloc, observer, selection, skips, &mut ledger, &mut taking);
    let (a, b, output) = taking.into_devices();
    CutRun {
        outcome,
        ledger: into_ledger(ledger),
        a,
        b,
        output,
    }
}
