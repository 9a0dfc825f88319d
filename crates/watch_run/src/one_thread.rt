//! Two recordings, up to eight filters: the capture of the accepted frames in one order, and the
//! ledger of all verdicts.
ghost use Rattle.std.specs.Prelude.{◌≡◌, ◌≤◌, IfErr, IfOk, IfSome, IsSome, List, OnOk, false, length, map, [], Some};
ghost use Rattle.vl_config.specs.Document.{VlTable};
ghost use Rattle.pcap_io.specs.Reader.{reading_of};
ghost use Rattle.pcap_io.specs.Writer.{sink_of};
ghost use Rattle.verdict_ledger.specs.Ledger.{has_failed as ledger_has_failed, sink_of as ledger_sink};
ghost use Rattle.watch_run.specs.Run.{IsWatching, StopsWatching};
ghost use Rattle.tap_merge.specs.Taps.{HasEnded};
ghost use Rattle.run_fault.specs.Device.{sink_at, source_at};
ghost use Rattle.watch_run.specs.Sized.{HasAborted, HasWatched};
ghost use Rattle.watch_run.specs.Watch.{AbortsRun, IsWatchAborted, IsWatched};
ghost use Rattle.run_fault.specs.Opening.{WatchDevices, devices_at, watch_devices};
ghost use Rattle.watch_run.specs.Filters.{Making, making_of, pcap_of};
ghost use Rattle.watch_run.specs.Round.{IsFilterCount};

use crate::entries::Entries;
use crate::outputs::{Outputs, Unwritten};
use crate::plan::Plan;
use crate::sizes::RunSizes;
use bpf_loader::Program;
use filter_workers::MAX_FILTERS;
use pcap_io::{Ending, OutSink, TapSource};
use run_fault::{WatchFault, WatchRefused};
use std::alloc::Global;
use std::num::NonZeroUsize;
use tap_merge::{Taps, Unopened};
use verdict_ledger::{Tally, Totals};
use vl_config::Config;

/// A whole analysis of two recordings, with the devices that it was given.
#[derive(Drop)]
pub struct Watched<S, T, W, L> {
    /// How the recordings of networks A and B ended.
    pub endings: [Ending; 2],
    /// The counts of all frames, and of each link's.
    pub tally: Tally,
    /// The source of network A.
    pub a: S,
    /// The source of network B.
    pub b: T,
    /// The sink of the capture.
    pub capture: W,
    /// The sink of the ledger.
    pub ledger: L,
}

impl<S, T, W, L> Watched<S, T, W, L> {
    /// The counts of all frames.
    pub fn totals(&self) -> &Totals
        ensures { result.now ≡ self.now.tally.totals }
    {
        self.tally.totals()
    }
}

/// Reads, judges, filters and writes all frames, a round of at most `round_len` at a time.
fn write_rounds<S: TapSource, T: TapSource, W: OutSink, L: OutSink>(
    alloc: Global,
    round_len: NonZeroUsize,
    plan: &Plan<'_>,
    taps: &mut Taps<S, T>,
    outputs: &mut Outputs<W, L>,
) -> Result<(), WatchFault>
    requires few { length plan.now.programs.now ≤ 8 }
    requires begun { (vl_table : VlTable) × (before : WatchDevices)
        × IsWatching S.TapSource T.TapSource W.OutSink L.OutSink
        (making_of plan.now) vl_table before taps.old outputs.old }
    ensures watching { OnOk result ((vl_table : VlTable) (before : WatchDevices)
        → IsWatching S.TapSource T.TapSource W.OutSink L.OutSink
        (making_of plan.now) vl_table before taps.old outputs.old
        → IsWatching S.TapSource T.TapSource W.OutSink L.OutSink
        (making_of plan.now) vl_table before taps.new outputs.new) }
    ensures ended { OnOk result (HasEnded taps.new × (taps.new.merger.pending ≡ [])) }
    ensures stopped { IfErr result (λ fault. (vl_table : VlTable) (before : WatchDevices)
        → IsWatching S.TapSource T.TapSource W.OutSink L.OutSink
        (making_of plan.now) vl_table before taps.old outputs.old
        → StopsWatching fault (making_of plan.now) vl_table before
        (reading_of S.remaining S.failures S.told taps.new.a)
        (reading_of T.remaining T.failures T.told taps.new.b)
        (sink_at W.OutSink (sink_of outputs.new.capture))
        (sink_at L.OutSink (ledger_sink outputs.new.ledger))) }
{
    let mut entries = Entries::new(alloc);
    while let Some(round) = taps.next_round(alloc, round_len)? {
        outputs.write_round(plan, &round, &mut entries)?;
    }
    Ok(())
}

/// A run that has begun and was aborted.
fn stopped<S: TapSource, T: TapSource, W: OutSink, L: OutSink>(
    fault: WatchFault,
    taps: Taps<S, T>,
    outputs: Outputs<W, L>,
) -> WatchRefused<S, T, W, L>
    ensures aborted { IfSome result.a (λ a. IfSome result.b (λ b.
        (ps : Making) (vl_table : VlTable) (before : WatchDevices)
        → StopsWatching fault ps vl_table before
        (reading_of S.remaining S.failures S.told taps.a)
        (reading_of T.remaining T.failures T.told taps.b)
        (sink_at W.OutSink (sink_of outputs.capture))
        (sink_at L.OutSink (ledger_sink outputs.ledger))
        → AbortsRun result.fault ps vl_table before
        (devices_at S.TapSource T.TapSource W.OutSink L.OutSink
        a b result.capture result.ledger))) }
    ensures back { IsSome result.a × IsSome result.b }
{
    let (a, b) = taps.into_sources();
    let (capture, ledger) = outputs.into_sinks();
    WatchRefused::new(fault, a, b, capture, ledger)
}

/// Writes what follows the lines of frames, after both recordings have ended.
fn finish<S: TapSource, T: TapSource, W: OutSink, L: OutSink>(
    taps: Taps<S, T>,
    outputs: Outputs<W, L>,
) -> Result<Watched<S, T, W, L>, WatchRefused<S, T, W, L>>
    requires ended { HasEnded taps }
    requires all { taps.merger.pending ≡ [] }
    requires going { ledger_has_failed outputs.ledger ≡ false }
    ensures watched { IfOk result (λ done.
        (ps : Making) (vl_table : VlTable) (before : WatchDevices)
        → IsWatching S.TapSource T.TapSource W.OutSink L.OutSink ps vl_table before taps outputs
        → IsFilterCount (length ps.filters) → IsWatched ps vl_table done.endings done.tally before
        (devices_at S.TapSource T.TapSource W.OutSink L.OutSink
        done.a done.b done.capture done.ledger)) }
    ensures aborted { IfErr result (λ refused. IfSome refused.a (λ a. IfSome refused.b (λ b.
        (ps : Making) (vl_table : VlTable) (before : WatchDevices)
        → IsWatching S.TapSource T.TapSource W.OutSink L.OutSink ps vl_table before taps outputs
        → AbortsRun refused.fault ps vl_table before
        (devices_at S.TapSource T.TapSource W.OutSink L.OutSink
        a b refused.capture refused.ledger)))) }
    ensures back { IfErr result (λ refused. IsSome refused.a × IsSome refused.b) }
{
    let (Some(end_a), Some(end_b)) = (taps.end_a, taps.end_b) else {
        unreachable!()
    };
    let (a, b) = taps.into_sources();
    match outputs.finish(end_a, end_b) {
        Ok((capture, ledger, tally)) => Ok(Watched {
            endings: [end_a, end_b],
            tally,
            a,
            b,
            capture,
            ledger,
        }),
        Err(
            Unwritten {
                fault,
                capture,
                ledger,
            },
        ) => Err(WatchRefused::new(fault, a, b, capture, ledger)),
    }
}

/// Analyses two recordings on the calling thread. Of the frames of both, in rising order of timestamp,
/// network and number, it writes those that a filter accepts to the capture, each cut to the greatest
/// return value, and a line for each, with its verdict by the table, to the ledger.
///
/// Stamps may go back within the table's window. Each recording is read up to 2^32 frames. All devices
/// come back. A source may have been read ahead of the last frame, by no more than 262144 bytes.
///
/// Its memory is flat, however long the recordings are: it holds the frames that may still be preceded
/// by others, a round of 1024, and a block of each recording.
///
/// # Errors
///
/// `Filters` if there are not 1 to 8 programs; `Header` or `Read` if a recording can't be opened, that of
/// A first. Up to there nothing was written. Later `Read`, `Write` or `Memory`: each output has a prefix of
/// what belongs to the frames that were read; after `Read` it ends with a whole packet and a whole line, and
/// the capture ends with a whole packet or its file header unless it couldn't be written; after `Memory` it
/// may have nothing yet.
pub fn watch_whole<S: TapSource, T: TapSource, W: OutSink, L: OutSink>(
    alloc: Global,
    config: &Config,
    programs: &[Program],
    a: S,
    b: T,
    capture: W,
    ledger: L,
) -> Result<Watched<S, T, W, L>, WatchRefused<S, T, W, L>>
    ensures watched { IfOk result (λ done. IsWatched (pcap_of programs.now) config.now
        done.endings done.tally
        (devices_at S.TapSource T.TapSource W.OutSink L.OutSink a b capture ledger)
        (devices_at S.TapSource T.TapSource W.OutSink L.OutSink
        done.a done.b done.capture done.ledger)) }
    ensures aborted { IfErr result (λ refused. IfSome refused.a (λ a'. IfSome refused.b (λ b'.
        IsWatchAborted (pcap_of programs.now) config.now refused.fault
        (devices_at S.TapSource T.TapSource W.OutSink L.OutSink a b capture ledger)
        (devices_at S.TapSource T.TapSource W.OutSink L.OutSink
        a' b' refused.capture refused.ledger)))) }
    ensures back { IfErr result (λ refused. IsSome refused.a × IsSome refused.b) }
{
    let sizes = RunSizes::default();
    let plan = Plan::pcap(programs);
    sized_watch_whole(alloc, sizes, config, &plan, a, b, capture, ledger)
}

/// [`watch_whole`] with these sizes, by a plan: a capture in its format. Of the sizes it takes those of
/// blocks and of rounds.
///
/// # Errors
///
/// Those of [`watch_whole`].
pub fn sized_watch_whole<S: TapSource, T: TapSource, W: OutSink, L: OutSink>(
    alloc: Global,
    sizes: RunSizes,
    config: &Config,
    plan: &Plan<'_>,
    a: S,
    b: T,
    capture: W,
    ledger: L,
) -> Result<Watched<S, T, W, L>, WatchRefused<S, T, W, L>>
    ensures watched { IfOk result (HasWatched S.TapSource T.TapSource W.OutSink L.OutSink
        (making_of plan.now) config.now a b capture ledger) }
    ensures aborted { IfErr result (HasAborted S.TapSource T.TapSource W.OutSink L.OutSink
        (making_of plan.now) config.now a b capture ledger) }
    ensures back { IfErr result (λ refused. IsSome refused.a × IsSome refused.b) }
{
    if plan.programs.is_empty() || plan.programs.len() > MAX_FILTERS {
        return Err(WatchRefused::new(WatchFault::Filters, a, b, capture, ledger));
    }
    let mut taps = match Taps::open(alloc, config.late(), sizes.block, a, b) {
        Ok(taps) => taps,
        Err(Unopened { fault, a, b }) => {
            return Err(WatchRefused::new(fault, a, b, capture, ledger));
        }
    };
    let mut outputs = match Outputs::begin(alloc, config, plan, capture, ledger) {
        Ok(outputs) => outputs,
        Err(
            Unwritten {
                fault,
                capture,
                ledger,
            },
        ) => {
            let (a, b) = taps.into_sources();
            return Err(WatchRefused::new(fault, a, b, capture, ledger));
        }
    };
    match write_rounds(alloc, sizes.round, plan, &mut taps, &mut outputs) {
        Ok(()) => finish(taps, outputs),
        Err(fault) => Err(stopped(fault, taps, outputs)),
    }
}
