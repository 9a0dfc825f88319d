//! A run whose taps are read into rings, by threads of their own where they can be had.
ghost use Rattle.std.specs.Prelude.{◌≡◌, ◌∷◌, List, Some, false, length, true, [], is_some, IfErr, IfOk, IfSome, OnOk};
ghost use Rattle.std.specs.Option.{option_map};
ghost use Rattle.pcap_io.specs.Reader.{reading_of};
ghost use Rattle.pcap_io.specs.Writer.{sink_of};
ghost use Rattle.tap_queue.specs.Ring.{SameEnd};
ghost use Rattle.vl_config.specs.Document.{VlTable};
ghost use Rattle.watch_run.specs.Feeds.{AreFeeding, FeedOn, KeepFeeding};
ghost use Rattle.watch_run.specs.Running.{AbortsBegun, GoesOn, IsRunning, IsSharing, Steps, StopsRunning};
ghost use Rattle.tap_merge.specs.Threads.{IsStarted, promise_of};
ghost use Rattle.watch_run.specs.Outputs.{HasWritten, IsFinished, StopsFinishing};
ghost use Rattle.run_fault.specs.Device.{SinkView};
ghost use Rattle.watch_run.specs.Filters.{Making, making_of};
ghost use Rattle.watch_run.specs.Round.{IsFilterCount};
ghost use Rattle.watch_run.specs.Watch.{IsWatched};
ghost use Rattle.run_fault.specs.Opening.{WatchDevices, devices_at};
ghost use Rattle.run_fault.specs.Device.{sink_at, source_at};
ghost use Rattle.run_fault.specs.Opening.{watch_devices};
ghost use Rattle.verdict_ledger.specs.Ledger.{has_failed as ledger_has_failed, sink_of as ledger_sink};
ghost use Rattle.afdx_frame.specs.Frame.{Frame};

use crate::entries::Entries;
use crate::gate::RunObserver;
use crate::one_thread::Watched;
use crate::outputs::{Outputs, Unwritten};
use crate::shared::Formatting;
use crate::sizes::RunSizes;
use afdx_frame::Network;
use filter_workers::RunGate;
use pcap_io::{Ending, OutSink, TapSource};
use run_fault::{WatchFault, WatchRefused};
use std::alloc::{AllocError, Global};
use std::num::NonZeroUsize;
use std::sync::Wait;
use std::thread::{Scope, Threads};
use tap_merge::{Rings, TapFeed, leave_tap, settle_tap};
use worker_pool::{InFlight, Pool};

/// Writes the round that workers are at where nothing more comes for some milliseconds, and tells of it.
fn settle_idle<'a, R: Wait, W: OutSink, L: OutSink, G: RunGate + RunObserver + Sync>(
    rt: &R,
    gate: &G,
    pool: &mut Pool<Formatting<'a, G>>,
    rings: &mut Rings,
    outputs: &mut Outputs<W, L>,
    flight: &mut Option<InFlight<Formatting<'a, G>>>,
    entries: &mut Entries,
) -> Result<(), WatchFault>
    requires begun { (vl_table : VlTable) × (capture : SinkView) × (ledger : SinkView)
        × IsSharing W.OutSink L.OutSink
        (making_of pool.old.task.plan) vl_table capture ledger rings.old outputs.old flight.old }
    requires task { IfSome flight.old (λ p. p.task ≡ pool.old.task) }
    ensures pool { pool.new ≡ pool.old }
    ensures task { IfSome flight.new (λ p. p.task ≡ pool.old.task) }
    ensures a { SameEnd rings.old.a rings.new.a }
    ensures b { SameEnd rings.old.b rings.new.b }
    ensures sharing { OnOk result ((vl_table : VlTable) (capture ledger : SinkView)
        → IsSharing W.OutSink L.OutSink
        (making_of pool.old.task.plan) vl_table capture ledger rings.old outputs.old flight.old
        → IsSharing W.OutSink L.OutSink
        (making_of pool.old.task.plan) vl_table capture ledger rings.new outputs.new flight.new) }
    ensures stopped { IfErr result (λ fault. (vl_table : VlTable) (capture ledger : SinkView)
        → IsSharing W.OutSink L.OutSink
        (making_of pool.old.task.plan) vl_table capture ledger rings.old outputs.old flight.old
        → StopsRunning fault (making_of pool.old.task.plan) vl_table capture ledger rings.new.a rings.new.b
        (sink_at W.OutSink (sink_of outputs.new.capture))
        (sink_at L.OutSink (ledger_sink outputs.new.ledger))) }
{
    if rings.is_soon_ready(rt) {
        return Ok(());
    }
    outputs.settle_round(rt, pool, flight, entries)?;
    gate.waits();
    Ok(())
}

/// Takes and merges the next frames, hands a round of them to the workers of a pool, and writes the one
/// before, which they were at. False: both recordings have ended, and all is written.
fn write_next<'a, R: Wait, W: OutSink, L: OutSink, G: RunGate + RunObserver + Sync>(
    rt: &R,
    round_len: NonZeroUsize,
    gate: &G,
    pool: &mut Pool<Formatting<'a, G>>,
    rings: &mut Rings,
    outputs: &mut Outputs<W, L>,
    flight: &mut Option<InFlight<Formatting<'a, G>>>,
    entries: &mut Entries,
) -> Result<bool, WatchFault>
    requires begun { (vl_table : VlTable) × (capture : SinkView) × (ledger : SinkView)
        × IsSharing W.OutSink L.OutSink
        (making_of pool.old.task.plan) vl_table capture ledger rings.old outputs.old flight.old }
    requires task { IfSome flight.old (λ p. p.task ≡ pool.old.task) }
    ensures pool { pool.new ≡ pool.old }
    ensures task { IfSome flight.new (λ p. p.task ≡ pool.old.task) }
    ensures stepped { Steps W.OutSink L.OutSink (making_of pool.old.task.plan)
        rings.old outputs.old flight.old rings.new outputs.new flight.new result }
{
    match rings.next_round(rt, round_len) {
        Ok(Some(round)) => {
            gate.judges(&round);
            outputs.share_round(rt, pool, flight, round, entries)?;
            Ok(true)
        }
        Ok(None) => {
            outputs.settle_round(rt, pool, flight, entries)?;
            Ok(false)
        }
        Err(fault) => {
            outputs.settle_round(rt, pool, flight, entries)?;
            Err(fault)
        }
    }
}

/// Takes and merges all frames, and shares each round of them among the workers of a pool, until both
/// recordings have ended.
fn write_rounds<'a, R: Wait, S, T, W: OutSink, L: OutSink, G: RunGate + RunObserver + Sync>(
    rt: &R,
    alloc: Global,
    round_len: NonZeroUsize,
    gate: &G,
    pool: &mut Pool<Formatting<'a, G>>,
    feeds: &mut Feeds<S, T>,
    rings: &mut Rings,
    outputs: Outputs<W, L>,
) -> Result<Outputs<W, L>, Unwritten<W, L>>
where
    S: TapSource + Drop,
    T: TapSource + Drop,
    requires feeding { AreFeeding S.TapSource T.TapSource feeds.old }
    requires begun { (vl_table : VlTable) × (capture : SinkView) × (ledger : SinkView)
        × IsRunning W.OutSink L.OutSink
        (making_of pool.old.task.plan) vl_table capture ledger rings.old outputs }
    ensures pool { pool.new ≡ pool.old }
    ensures feeding { KeepFeeding S.TapSource T.TapSource feeds.old feeds.new }
    ensures written { GoesOn W.OutSink L.OutSink
        (making_of pool.old.task.plan) rings.old outputs rings.new result }
{
    let mut outputs = outputs;
    let mut entries = Entries::new(alloc);
    let mut flight = None;
    for _ in rt.forever() {
        let idle = settle_idle(
            rt,
            gate,
            pool,
            rings,
            &mut outputs,
            &mut flight,
            &mut entries,
        );
        if let Err(fault) = idle {
            return Err(outputs.unwritten(fault));
        }
        feeds.fill(alloc);
        match write_next(
            rt,
            round_len,
            gate,
            pool,
            rings,
            &mut outputs,
            &mut flight,
            &mut entries,
        ) {
            Ok(true) => {}
            Ok(false) => return Ok(outputs),
            Err(fault) => return Err(outputs.unwritten(fault)),
        }
    }
    unreachable!()
}

/// Starts the workers of a run, and takes, merges and writes all frames with them. A worker that can't be
/// started is no fault: the others do its share.
pub fn write_all<'s, E, R, S, T, W: OutSink, L: OutSink, G: RunGate + RunObserver + Sync>(
    scope: &Scope<'s, E>,
    rt: &'s R,
    alloc: Global,
    task: Formatting<'s, G>,
    workers: u32,
    sizes: RunSizes,
    feeds: &mut Feeds<S, T>,
    rings: &mut Rings,
    outputs: Outputs<W, L>,
) -> Result<Outputs<W, L>, Unwritten<W, L>>
where
    R: Threads + Wait + Sync,
    S: TapSource + Drop,
    T: TapSource + Drop,
    requires feeding { AreFeeding S.TapSource T.TapSource feeds.old }
    requires begun { (vl_table : VlTable) × (capture : SinkView) × (ledger : SinkView)
        × IsRunning W.OutSink L.OutSink
        (making_of task.plan) vl_table capture ledger rings.old outputs }
    ensures feeding { KeepFeeding S.TapSource T.TapSource feeds.old feeds.new }
    ensures written { GoesOn W.OutSink L.OutSink
        (making_of task.entry.plan) rings.old outputs rings.new result }
{
    let gate = task.gate;
    let mut pool = match Pool::start(scope, rt, alloc, task, workers) {
        Ok(pool) => pool.with_chunk_len(sizes.chunk),
        Err(AllocError) => return Err(outputs.unwritten(WatchFault::Memory)),
    };
    let round_len = sizes.round;
    let written = write_rounds(rt, alloc, round_len, gate, &mut pool, feeds, rings, outputs);
    pool.close();
    written
}

/// Writes what follows the lines of frames, for sources that came back.
fn finish_outputs<S, T, W: OutSink, L: OutSink>(
    outputs: Outputs<W, L>,
    end_a: Ending,
    end_b: Ending,
    a: S,
    b: T,
) -> Result<Watched<S, T, W, L>, WatchRefused<S, T, W, L>>
    requires going { ledger_has_failed outputs.ledger ≡ false }
    ensures endings { IfOk result (λ done. done.endings ≡ end_a ∷ end_b ∷ []) }
    ensures sources { IfOk result (λ done. (done.a ≡ a) × (done.b ≡ b)) }
    ensures back { IfErr result (λ refused. (refused.a ≡ Some a) × (refused.b ≡ Some b)) }
    ensures finished { IfOk result (λ done. (ps : Making) (vl_table : VlTable)
        (capture ledger : SinkView) (frames : List Frame)
        → HasWritten W.OutSink L.OutSink
        ps vl_table capture ledger frames outputs
        → IsFinished ps vl_table capture ledger (sink_at W.OutSink done.capture)
        (sink_at L.OutSink done.ledger) frames end_a end_b done.tally) }
    ensures stopped { IfErr result (λ refused. (ps : Making) (vl_table : VlTable)
        (capture ledger : SinkView) (frames : List Frame)
        → HasWritten W.OutSink L.OutSink
        ps vl_table capture ledger frames outputs
        → StopsFinishing refused.fault ps vl_table capture ledger
        (sink_at W.OutSink refused.capture)
        (sink_at L.OutSink refused.ledger) frames end_a end_b) }
{
    match outputs.finish(end_a, end_b) {
        Ok((capture, ledger, tally)) => Ok(Watched {
            endings: [end_a, end_b],
            tally,
            a,
            b,
            capture,
            ledger,
        }),
        Err(
            Unwritten {
                fault,
                capture,
                ledger,
            },
        ) => Err(WatchRefused::new(fault, a, b, capture, ledger)),
    }
}

/// How both taps are read.
#[derive(Drop)]
pub struct Feeds<S: TapSource, T: TapSource> {
    pub a: TapFeed<S>,
    pub b: TapFeed<T>,
}

impl<S: TapSource + Drop, T: TapSource + Drop> Feeds<S, T> {
    /// Reads on until the rings are full, where no thread does.
    fn fill(&mut self, alloc: Global)
        requires { AreFeeding S.TapSource T.TapSource self.old }
        ensures kept { KeepFeeding S.TapSource T.TapSource self.old self.new }
        ensures filled { FeedOn self.old self.new }
    {
        self.a.fill(alloc);
        self.b.fill(alloc);
    }
}

/// A run that has begun.
#[derive(Drop)]
pub struct Running<S: TapSource, T: TapSource> {
    pub rings: Rings,
    pub feeds: Feeds<S, T>,
}

impl<S: TapSource + Drop, T: TapSource + Drop> Running<S, T> {
    ghost use Rattle.tap_queue.specs.Ring.{IsRing, has_lost};
    ghost use Rattle.watch_run.specs.Running.{ComesBack, fault_told};

    /// Settles both rings of a run whose recordings have ended, and writes what follows the lines of
    /// frames.
    pub fn finish<R: Threads, W: OutSink, L: OutSink>(
        self,
        rt: &R,
        outputs: Outputs<W, L>,
    ) -> Result<Watched<S, T, W, L>, WatchRefused<S, T, W, L>>
        requires feeding { AreFeeding S.TapSource T.TapSource self.feeds }
        requires ring_a { IsRing (promise_of self.feeds.a).put.value self.rings.a }
        requires ring_b { IsRing (promise_of self.feeds.b).put.value self.rings.b }
        requires ended { (is_some self.rings.end_a ≡ true) × (is_some self.rings.end_b ≡ true) }
        requires all { self.rings.merger.pending ≡ [] }
        requires going { ledger_has_failed outputs.ledger ≡ false }
        ensures watched { IfOk result (λ done.
            (ps : Making) (vl_table : VlTable) (before : WatchDevices)
            → IsStarted Network.A vl_table.late before.a
            (reading_of S.remaining S.failures S.told (promise_of self.feeds.a).reader.value)
            → IsStarted Network.B vl_table.late before.b
            (reading_of T.remaining T.failures T.told (promise_of self.feeds.b).reader.value)
            → IsRunning W.OutSink L.OutSink
            ps vl_table before.capture before.ledger self.rings outputs
            → IsFilterCount (length ps.filters) → IsWatched ps vl_table done.endings done.tally before
            (devices_at S.TapSource T.TapSource W.OutSink L.OutSink
            done.a done.b done.capture done.ledger)) }
        ensures aborted { IfErr result (λ refused.
            (ps : Making) (vl_table : VlTable) (before : WatchDevices)
            → IsStarted Network.A vl_table.late before.a
            (reading_of S.remaining S.failures S.told (promise_of self.feeds.a).reader.value)
            → IsStarted Network.B vl_table.late before.b
            (reading_of T.remaining T.failures T.told (promise_of self.feeds.b).reader.value)
            → IsRunning W.OutSink L.OutSink
            ps vl_table before.capture before.ledger self.rings outputs
            → AbortsBegun refused.fault ps vl_table before
            (option_map (source_at S.TapSource) refused.a)
            (option_map (source_at T.TapSource) refused.b)
            (sink_at W.OutSink refused.capture)
            (sink_at L.OutSink refused.ledger)) }
    {
        let Running { rings, feeds } = self;
        let Feeds { a, b } = feeds;
        let (Some(end_a), Some(end_b)) = (rings.end_a, rings.end_b) else {
            unreachable!()
        };
        let Rings {
            a: ring_a,
            b: ring_b,
            merger: _,
            end_a: _,
            end_b: _,
            fault: _,
        } = rings;
        match (settle_tap(rt, ring_a, a), settle_tap(rt, ring_b, b)) {
            (Some(a), Some(b)) => finish_outputs(outputs, end_a, end_b, a, b),
            (a, b) => {
                let (capture, ledger) = outputs.into_sinks();
                Err(WatchRefused {
                    fault: WatchFault::RingLost,
                    a,
                    b,
                    capture,
                    ledger,
                })
            }
        }
    }

    /// Aborts a run: has the threads stop, waits for them, and gives the sources back.
    pub fn abort<R: Threads, W: OutSink, L: OutSink>(
        self,
        rt: &R,
        unwritten: Unwritten<W, L>,
    ) -> WatchRefused<S, T, W, L>
        requires feeding { AreFeeding S.TapSource T.TapSource self.feeds }
        requires ring_a { IsRing (promise_of self.feeds.a).put.value self.rings.a }
        requires ring_b { IsRing (promise_of self.feeds.b).put.value self.rings.b }
        ensures back_a { ComesBack self.rings.a result.a }
        ensures back_b { ComesBack self.rings.b result.b }
        ensures told { result.fault
            ≡ fault_told (has_lost self.rings.a) (has_lost self.rings.b) unwritten.fault }
        ensures aborted { (ps : Making) (vl_table : VlTable) (before : WatchDevices)
            → IsStarted Network.A vl_table.late before.a
            (reading_of S.remaining S.failures S.told (promise_of self.feeds.a).reader.value)
            → IsStarted Network.B vl_table.late before.b
            (reading_of T.remaining T.failures T.told (promise_of self.feeds.b).reader.value)
            → StopsRunning unwritten.fault ps vl_table before.capture before.ledger
            self.rings.a self.rings.b
            (sink_at W.OutSink unwritten.capture)
            (sink_at L.OutSink unwritten.ledger)
            → AbortsBegun result.fault ps vl_table before
            (option_map (source_at S.TapSource) result.a)
            (option_map (source_at T.TapSource) result.b)
            (sink_at W.OutSink result.capture)
            (sink_at L.OutSink result.ledger) }
    {
        let Running { rings, feeds } = self;
        let Feeds { a, b } = feeds;
        let Rings {
            a: ring_a,
            b: ring_b,
            merger: _,
            end_a: _,
            end_b: _,
            fault: _,
        } = rings;
        ring_a.stop();
        ring_b.stop();
        let Unwritten {
            fault,
            capture,
            ledger,
        } = unwritten;
        match (leave_tap(rt, ring_a, a), leave_tap(rt, ring_b, b)) {
            (Some(a), Some(b)) => WatchRefused::new(fault, a, b, capture, ledger),
            (a, b) => WatchRefused {
                fault: WatchFault::RingLost,
                a,
                b,
                capture,
                ledger,
            },
        }
    }
}
