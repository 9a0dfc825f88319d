//! The lines of a ledger that a selection takes, as they stand.
ghost use Rattle.std.specs.Prelude.{◌≡◌, ◌≢◌, ◌<◌, ◌++◌, ◌∷◌, [], ℕ, false, length, List, Option, IfErr, MatchResult};
ghost use Rattle.afdx_frame.specs.declared.key.Network.{Network};
ghost use Rattle.ledger_text.specs.Ledger.{has_failed as ledger_failed};
ghost use Rattle.ledger_text.specs.declared.bounds.TheConstants.{MAX_LINES};
ghost use Rattle.ledger_text.specs.declared.frame.FrameLine.{FrameLine};
ghost use Rattle.ledger_text.specs.Neighbours.{AreNoted, Around, HasAsked};
ghost use Rattle.pcap_io.specs.Device.{Writes};
ghost use Rattle.cut_run.specs.Lines.{Choice};
ghost use Rattle.cut_run.specs.Printed.{GivesBack, HasChecked, HasPrintedLedger, HasPrintedLines};
ghost use Rattle.cut_run.specs.Printed.{IsLinesRun, LeavesLines, LineDevices, PrintsMore, PrintsTaken};
ghost use Rattle.cut_run.specs.Printed.{Sources, StopsAtText, StopsChecking, line_devices_at, whole_line};
ghost use Rattle.cut_run.specs.declared.fault.CutFault.TheVariants as faults;

use crate::cut::{CutEnding, into_ledger, ledger_fault};
use crate::fault::CutFault;
use crate::observer::LineObserver;
use crate::recordings::{Recordings, Unopened, is_read};
use afdx_frame::Network;
use ledger_text::{
    Chooser, FoundLine, FrameLine, LedgerLine, LedgerReader, LinesRefused, Neighbours, Selection,
};
use pcap_io::{DeviceFault, OutSink, TapSource, write_all};
use std::alloc::Global;

/// A run that printed lines of a ledger, with the devices that it was given.
#[derive(Drop)]
pub struct LinesRun<L, S, T, W> {
    /// How the ledger ended, or why the run was aborted.
    pub outcome: Result<CutEnding, CutFault>,
    /// The ledger's source.
    pub ledger: L,
    /// The sources of networks A and B, where lines were checked against them.
    pub recordings: Option<(S, T)>,
    /// The output's sink.
    pub output: W,
}

/// Where lines are checked and printed.
#[derive(Drop)]
struct Printing<S, T, W> {
    recordings: Option<Recordings<S, T>>,
    output: W,
    chooser: Chooser,
}

/// Writes a line and its newline.
#[inline]
fn write_line<W: OutSink>(output: &mut W, line: &[u8]) -> Result<(), DeviceFault>
    ensures { Writes result (W.contents output.old) (W.contents output.new)
        (W.failures output.old) (W.failures output.new) (whole_line line.now) }
{
    write_all(output, line)?;
    write_all(output, b"\n")
}

/// Finds the frame of the ledger's next line, whose number this is, if there are recordings.
#[inline]
fn check<S: TapSource, T: TapSource>(
    recordings: &mut Option<Recordings<S, T>>,
    alloc: Global,
    line: &FrameLine,
    number: u64,
) -> Result<(), CutFault>
    ensures { (before : Option Sources) (vs : List FrameLine)
        → HasChecked S.TapSource T.TapSource before vs recordings.old
        → MatchResult result
        (λ _. HasChecked S.TapSource T.TapSource before (vs ++ line.now ∷ []) recordings.new)
        (λ fault. StopsChecking S.TapSource T.TapSource before vs line.now number fault
        recordings.new × (fault ≢ faults.Write)) }
{
    match recordings {
        None => Ok(()),
        Some(recordings) => {
            recordings.find(alloc, line, number)?;
            Ok(())
        }
    }
}

impl<S: TapSource, T: TapSource, W: OutSink> Printing<S, T, W> {
    /// Prints the ledger's next line, if it is taken.
    #[inline]
    fn print_taken<O: LineObserver>(
        &mut self,
        observer: &O,
        selection: &Selection,
        line: &FrameLine,
        text: &[u8],
    ) -> Result<(), CutFault>
        ensures recordings { self.new.recordings ≡ self.old.recordings }
        ensures written { (around : Option Around) (skips : Option Network) (before : List FrameLine)
            → length before < MAX_LINES → HasAsked selection.now around before self.old.chooser
            → HasAsked selection.now around (before ++ line.now ∷ []) self.new.chooser
            × PrintsTaken W.OutSink (record { selection = selection.now; around = around; skips = skips })
            before line.now text.now result self.old self.new }
        ensures fault { IfErr result (λ fault. fault ≡ faults.Write) }
    {
        if !self.chooser.takes(selection, line) {
            return Ok(());
        }
        observer.writes(line);
        match write_line(&mut self.output, text) {
            Ok(()) => Ok(()),
            Err(DeviceFault) => Err(CutFault::Write),
        }
    }

    /// Passes over the ledger's next line.
    #[inline]
    fn pass_over<O: LineObserver>(&mut self, observer: &O, selection: &Selection, line: &FrameLine)
        ensures recordings { self.new.recordings ≡ self.old.recordings }
        ensures output { self.new.output ≡ self.old.output }
        ensures asked { (around : Option Around) (before : List FrameLine) → length before < MAX_LINES
            → HasAsked selection.now around before self.old.chooser
            → HasAsked selection.now around (before ++ line.now ∷ []) self.new.chooser }
    {
        if self.chooser.takes(selection, line) {
            observer.passes(line);
        }
    }

    /// Prints the ledger's next line, whose number this is, if it is taken. Where there are recordings, its
    /// frame is found first, taken or not. A line of the network that is skipped is passed over.
    #[inline]
    fn print_line<O: LineObserver>(
        &mut self,
        alloc: Global,
        observer: &O,
        selection: &Selection,
        skips: Option<Network>,
        line: &FrameLine,
        number: u64,
        text: &[u8],
    ) -> Result<(), CutFault>
        ensures { (around : Option Around) (before : LineDevices) (vs : List FrameLine)
            (texts printed : List (List ℕ)) → length vs < MAX_LINES
            → (let choice : Choice = record { selection = selection.now; around = around; skips = skips } in
            HasPrintedLines S.TapSource T.TapSource W.OutSink choice before vs texts printed self.old
            → MatchResult result
            (λ _. PrintsMore S.TapSource T.TapSource W.OutSink choice before vs texts line.now text.now
            self.new)
            (λ fault. StopsAtText S.TapSource T.TapSource W.OutSink choice before vs texts printed
            line.now text.now number fault self.new)) }
    {
        observer.reads(line);
        if !is_read(skips, line.network) {
            self.pass_over(observer, selection, line);
            return Ok(());
        }
        check(&mut self.recordings, alloc, line, number)?;
        self.print_taken(observer, selection, line, text)
    }

    /// The sources and the sink.
    fn into_devices(self) -> (Option<(S, T)>, W)
        ensures sources { GivesBack S.TapSource T.TapSource self.recordings result.0 }
        ensures output { result.1 ≡ self.output }
    {
        let Printing {
            recordings,
            output,
            chooser: _,
        } = self;
        match recordings {
            Some(recordings) => (Some(recordings.into_sources()), output),
            None => (None, output),
        }
    }
}

/// Prints up to the ledger's end.
fn print_all<L: TapSource, S: TapSource, T: TapSource, W: OutSink, O: LineObserver>(
    alloc: Global,
    observer: &O,
    selection: &Selection,
    skips: Option<Network>,
    ledger: &mut LedgerReader<L>,
    printing: &mut Printing<S, T, W>,
) -> Result<CutEnding, CutFault>
    requires sound { ledger_failed ledger.old ≡ false }
    ensures { (around : Option Around) (before : LineDevices)
        → (let choice : Choice = record { selection = selection.now; around = around; skips = skips } in
        HasPrintedLedger L.TapSource S.TapSource T.TapSource W.OutSink choice before [] []
        ledger.old printing.old
        → LeavesLines L.TapSource S.TapSource T.TapSource W.OutSink choice result before
        ledger.new printing.new) }
{
    loop {
        match ledger.advance() {
            Ok(FoundLine::Line(LedgerLine::Frame(line))) => {
                printing.print_line(
                    alloc,
                    observer,
                    selection,
                    skips,
                    &line,
                    ledger.number(),
                    ledger.line(),
                )?;
            }
            Ok(FoundLine::Line(LedgerLine::Head(_))) => {}
            Ok(FoundLine::Line(LedgerLine::Counts(_))) => {}
            Ok(FoundLine::Complete) => return Ok(CutEnding::Complete),
            Ok(FoundLine::Incomplete(stop)) => return Ok(CutEnding::Incomplete(stop)),
            Err(fault) => return Err(ledger_fault(fault)),
        }
    }
}

/// A run that was aborted before its first line.
fn not_begun<L, S, T, W>(
    fault: CutFault,
    ledger: L,
    recordings: Option<(S, T)>,
    output: W,
) -> LinesRun<L, S, T, W>
    ensures { result ≡ record {
      outcome = Err fault;
      ledger = ledger;
      recordings = recordings;
      output = output;
    } }
{
    LinesRun {
        outcome: Err(fault),
        ledger,
        recordings,
        output,
    }
}

/// Prints the lines of frames that the selection takes, as they stand in the ledger and in its order. Where
/// there are recordings, each line of a frame is checked against its network's, taken or not. With
/// neighbours the lines near selected ones are taken too, and lines of the network that is skipped are passed
/// over, as in [`cut_frames`](crate::cut_frames).
///
/// One pass. It allocates a block for each file that it reads. All devices come back. Sources may have
/// been read ahead.
///
/// # Errors
///
/// As those of [`cut_frames`](crate::cut_frames), and those that name a recording only if there are
/// recordings. The output has the whole lines up to the fault, and after `Write` a prefix of the next
/// one.
pub fn print_lines<L: TapSource, S: TapSource, T: TapSource, W: OutSink, O: LineObserver>(
    alloc: Global,
    selection: &Selection,
    neighbours: Option<Neighbours>,
    skips: Option<Network>,
    ledger: L,
    recordings: Option<(S, T)>,
    output: W,
    observer: &O,
) -> LinesRun<L, S, T, W>
    ensures { (around : Option Around) → AreNoted selection.now around neighbours
        → IsLinesRun (record { selection = selection.now; around = around; skips = skips }) result.outcome
        (line_devices_at L.TapSource S.TapSource T.TapSource W.OutSink ledger recordings output)
        (line_devices_at L.TapSource S.TapSource T.TapSource W.OutSink
        result.ledger result.recordings result.output) }
{
    let mut ledger = match LedgerReader::new(alloc, ledger) {
        Ok(reader) => reader,
        Err(LinesRefused { source }) => {
            return not_begun(CutFault::Memory, source, recordings, output);
        }
    };
    let recordings = match recordings {
        None => None,
        Some((a, b)) => match Recordings::open(alloc, a, b) {
            Ok(recordings) => Some(recordings),
            Err(Unopened { fault, a, b }) => {
                return not_begun(fault, ledger.into_source(), Some((a, b)), output);
            }
        },
    };
    let mut printing = Printing {
        recordings,
        output,
        chooser: Chooser::new(neighbours),
    };
    let outcome = print_all(
        alloc,
        observer,
        selection,
        skips,
        &mut ledger,
        &mut printing,
    );
    let (recordings, output) = printing.into_devices();
    LinesRun {
        outcome,
        ledger: into_ledger(ledger),
        recordings,
        output,
    }
}
