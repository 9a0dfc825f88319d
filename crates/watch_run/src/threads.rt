//! Two recordings, up to eight filters, on threads: each tap is read by one of its own, and each round of
//! frames is shared among workers.
ghost use Rattle.std.specs.Prelude.{◌≡◌, ◌≤◌, List, None, length, is_some, IfErr, IfOk, IfSome, IsSome, if◌then◌else◌};
ghost use Rattle.std.specs.Option.{option_map};
ghost use Rattle.pcap_io.specs.Writer.{sink_of};
ghost use Rattle.verdict_ledger.specs.Ledger.{sink_of as ledger_sink};
ghost use Rattle.vl_config.specs.Document.{VlTable};
ghost use Rattle.watch_run.specs.Feeds.{AreFeeding};
ghost use Rattle.watch_run.specs.Ready.{AreNew, AreTwoRings, IsReady, IsStartedOf, Runs, ready_of};
ghost use Rattle.watch_run.specs.Running.{IsNotBegun, IsRunningAborted};
ghost use Rattle.filter_workers.specs.declared.decision.TheConstants.{MAX_FILTERS};
ghost use Rattle.watch_run.specs.Filters.{making_of, pcap_of};
ghost use Rattle.watch_run.specs.Round.{IsFilterCount, IsWorkerCount};
ghost use Rattle.watch_run.specs.Sized.{HasRun, HasStopped};
ghost use Rattle.watch_run.specs.Watch.{IsWatched};
ghost use Rattle.run_fault.specs.Opening.{WatchDevices, devices_at};
ghost use Rattle.run_fault.specs.Device.{sink_at, source_at};
ghost use Rattle.run_fault.specs.Opening.{watch_devices};

use crate::gate::RunObserver;
use crate::one_thread::Watched;
use crate::outputs::{Outputs, Unwritten};
use crate::plan::Plan;
use crate::running::{Feeds, Running, write_all};
use crate::shared::Formatting;
use crate::sizes::RunSizes;
use afdx_frame::Network;
use bpf_loader::Program;
use filter_workers::{MAX_FILTERS, RunGate};
use pcap_io::{OutSink, TapReader, TapSource};
use run_fault::{WatchFault, WatchRefused};
use std::alloc::{AllocError, Global};
use std::sync::Wait;
use std::thread;
use std::thread::{Scope, Threads};
use tap_merge::{Rings, Taps, Unopened, start_tap};
use tap_queue::{RingSizes, TapEnd, TapGate, TapPut, sized_tap_ring};
use vl_config::Config;
use worker_pool::MAX_WORKERS;

/// A run that is ready to start: opened readers, the rings that they are read into, and the outputs, which
/// have begun.
#[derive(Drop)]
pub struct Ready<S, T, W, L> {
    pub a: TapReader<S>,
    pub b: TapReader<T>,
    pub put_a: TapPut,
    pub put_b: TapPut,
    pub rings: Rings,
    pub outputs: Outputs<W, L>,
}

impl<S: TapSource + Drop + Send, T: TapSource + Drop + Send, W: OutSink, L: OutSink> Ready<
    S,
    T,
    W,
    L,
> {
    /// Starts the threads that read the taps. Where one can't be started the calling thread reads that tap.
    fn start<'s, E, R: Threads + Wait + Sync, G: TapGate + Sync>(
        self,
        scope: &Scope<'s, E>,
        rt: &'s R,
        alloc: Global,
        gate: &'s G,
    ) -> (Running<S, T>, Outputs<W, L>)
    where
        S: 's,
        T: 's,
        requires new { AreNew self }
        ensures started { IsStartedOf self result.0 }
        ensures feeding { AreFeeding S.TapSource T.TapSource result.0.feeds }
        ensures outputs { result.1 ≡ self.outputs }
    {
        let Ready {
            a,
            b,
            put_a,
            put_b,
            rings,
            outputs,
        } = self;
        let feeds = Feeds {
            a: start_tap(scope, rt, alloc, gate, a, put_a),
            b: start_tap(scope, rt, alloc, gate, b, put_b),
        };
        (Running { rings, feeds }, outputs)
    }
}

/// Runs what is ready, to its end.
fn run_ready<'s, E, R, S, T, W, L, G>(
    scope: &Scope<'s, E>,
    rt: &'s R,
    alloc: Global,
    task: Formatting<'s, G>,
    workers: u32,
    sizes: RunSizes,
    ready: Ready<S, T, W, L>,
) -> Result<Watched<S, T, W, L>, WatchRefused<S, T, W, L>>
where
    R: Threads + Wait + Sync,
    S: TapSource + Drop + Send + 's,
    T: TapSource + Drop + Send + 's,
    W: OutSink,
    L: OutSink,
    G: RunGate + TapGate + RunObserver + Sync,
    requires new { AreNew ready }
    requires ready { (vl_table : VlTable) × (before : WatchDevices)
        × IsReady S.TapSource T.TapSource W.OutSink L.OutSink
        (making_of task.plan) vl_table before ready }
    ensures { Runs S.TapSource T.TapSource W.OutSink L.OutSink (making_of task.entry.plan) ready result }
{
    let gate = task.gate;
    let (mut running, outputs) = ready.start(scope, rt, alloc, gate);
    let Running { feeds, rings } = &mut running;
    match write_all(
        scope, rt, alloc, task, workers, sizes, feeds, rings, outputs,
    ) {
        Ok(outputs) => running.finish(rt, outputs),
        Err(unwritten) => {
            gate.aborts(unwritten.fault);
            Err(running.abort(rt, unwritten))
        }
    }
}

/// Opens the recordings, begins the outputs and makes the rings of a run.
fn prepare<S: TapSource, T: TapSource, W: OutSink, L: OutSink>(
    alloc: Global,
    sizes: RunSizes,
    config: &Config,
    plan: &Plan<'_>,
    a: S,
    b: T,
    capture: W,
    ledger: L,
) -> Result<Ready<S, T, W, L>, WatchRefused<S, T, W, L>>
    requires number { IsFilterCount (length plan.now.programs.now) }
    ensures new { IfOk result AreNew }
    ensures ready { IfOk result (IsReady S.TapSource T.TapSource W.OutSink L.OutSink
        (making_of plan.now) config.now
        (devices_at S.TapSource T.TapSource W.OutSink L.OutSink a b capture ledger)) }
    ensures refused { IfErr result (λ refused. IfSome refused.a (λ a'. IfSome refused.b (λ b'.
        IsNotBegun (making_of plan.now) config.now refused.fault
        (devices_at S.TapSource T.TapSource W.OutSink L.OutSink a b capture ledger)
        (devices_at S.TapSource T.TapSource W.OutSink L.OutSink
        a' b' refused.capture refused.ledger)))) }
    ensures back { IfErr result (λ refused. IsSome refused.a × IsSome refused.b) }
{
    let late = config.late();
    let taps = match Taps::open(alloc, late, sizes.block, a, b) {
        Ok(taps) => taps,
        Err(Unopened { fault, a, b }) => {
            return Err(WatchRefused::new(fault, a, b, capture, ledger));
        }
    };
    let outputs = match Outputs::begin(alloc, config, plan, capture, ledger) {
        Ok(outputs) => outputs,
        Err(
            Unwritten {
                fault,
                capture,
                ledger,
            },
        ) => {
            let (a, b) = taps.into_sources();
            return Err(WatchRefused::new(fault, a, b, capture, ledger));
        }
    };
    match two_rings(alloc, late, sizes.ring) {
        Ok(ends) => Ok(Ready::of(ends, taps, outputs)),
        Err(AllocError) => {
            let (a, b) = taps.into_sources();
            let (capture, ledger) = outputs.into_sinks();
            Err(WatchRefused::new(WatchFault::Memory, a, b, capture, ledger))
        }
    }
}

/// The ends of the rings of networks A and B.
type TwoRings = ((TapPut, TapEnd), (TapPut, TapEnd));

/// The rings of networks A and B.
fn two_rings(alloc: Global, late: u64, sizes: RingSizes) -> Result<TwoRings, AllocError>
    ensures { IfOk result (AreTwoRings late) }
{
    let a = sized_tap_ring(alloc, Network::A, late, sizes)?;
    let b = sized_tap_ring(alloc, Network::B, late, sizes)?;
    Ok((a, b))
}

impl<S, T, W, L> Ready<S, T, W, L> {
    /// The parts that are ready.
    fn of(ends: TwoRings, taps: Taps<S, T>, outputs: Outputs<W, L>) -> Ready<S, T, W, L>
        ensures { result ≡ ready_of ends.0.0 ends.0.1 ends.1.0 ends.1.1 taps outputs }
    {
        let ((put_a, a), (put_b, b)) = ends;
        let Taps {
            a: reader_a,
            b: reader_b,
            merger,
            end_a,
            end_b,
        } = taps;
        Ready {
            a: reader_a,
            b: reader_b,
            put_a,
            put_b,
            rings: Rings {
                a,
                b,
                merger,
                end_a,
                end_b,
                fault: None,
            },
            outputs,
        }
    }
}

/// Analyses two recordings on threads, with the outputs of [`watch_whole`](crate::watch_whole), byte for
/// byte: each tap is read by a thread of its own into a ring of batches; the calling thread merges the
/// frames, cuts them into rounds of at most 1024 and judges them; `workers` workers, of which it is one,
/// filter each round and make its packets and lines, which it then writes. A thread that can't be started is
/// no fault: the other workers do a worker's share, and the calling thread reads a tap, so that a run needs
/// no thread but that one.
///
/// Stamps may go back within the table's window. Each recording is read up to 2^32 frames. The gate is told
/// of each tap before its first frame is read, and of each frame before the filters run on it.
///
/// Its memory is flat, however long the recordings are: it holds the frames that may still be preceded
/// by others, those of rounds that are still to be cut and those in both rings, each by the whole block of
/// its recording that it came in, and at most 32 blocks of 64 KiB a tap that are filled again.
///
/// # Errors
///
/// `Workers` if there are not 1 to 8 workers, then `Filters` if there are not 1 to 8 programs; `Header` or
/// `Read` if a recording can't be opened, that of A first. Up to there nothing was written. `Write` or
/// `Memory` before the threads start: of the recordings the file headers alone were read.
///
/// Later `Read`, `Write` or `Memory`: each output has a prefix of what belongs to the frames that were read,
/// after `Read` with whole packets and lines, and the capture with a whole packet or its file header unless
/// it couldn't be written; after `Memory` it may have nothing yet. Both recordings were read on to their
/// endings, or until they failed; of several faults one is told. All devices come back. A source may have
/// been read ahead by no more than 262144 bytes, and after a fault by a packet more.
///
/// `RingLost` if the items of a ring aren't what its reader put into it, or what a worker made was
/// lost: sources may be lost.
pub fn watch<R, S, T, W, L, G>(
    rt: &R,
    alloc: Global,
    config: &Config,
    programs: &[Program],
    workers: u32,
    a: S,
    b: T,
    capture: W,
    ledger: L,
    gate: &G,
) -> Result<Watched<S, T, W, L>, WatchRefused<S, T, W, L>>
where
    R: Threads + Wait + Sync,
    S: TapSource + Drop + Send,
    T: TapSource + Drop + Send,
    W: OutSink + Drop,
    L: OutSink + Drop,
    G: RunGate + TapGate + RunObserver + Sync,
    ensures watched { IfOk result (λ done. IsWorkerCount workers × IsWatched (pcap_of programs.now) config.now
        done.endings done.tally
        (devices_at S.TapSource T.TapSource W.OutSink L.OutSink a b capture ledger)
        (devices_at S.TapSource T.TapSource W.OutSink L.OutSink
        done.a done.b done.capture done.ledger)) }
    ensures aborted { IfErr result (λ refused.
        IsRunningAborted workers (pcap_of programs.now) config.now refused.fault
        (devices_at S.TapSource T.TapSource W.OutSink L.OutSink a b capture ledger)
        (option_map (source_at S.TapSource) refused.a)
        (option_map (source_at T.TapSource) refused.b)
        (sink_at W.OutSink refused.capture)
        (sink_at L.OutSink refused.ledger)) }
{
    let sizes = RunSizes::default();
    let plan = Plan::pcap(programs);
    sized_watch(
        rt, alloc, sizes, config, plan, workers, a, b, capture, ledger, gate,
    )
}

/// [`watch`] with these sizes, by a plan: a capture in its format.
///
/// # Errors
///
/// Those of [`watch`].
pub fn sized_watch<R, S, T, W, L, G>(
    rt: &R,
    alloc: Global,
    sizes: RunSizes,
    config: &Config,
    plan: Plan<'_>,
    workers: u32,
    a: S,
    b: T,
    capture: W,
    ledger: L,
    gate: &G,
) -> Result<Watched<S, T, W, L>, WatchRefused<S, T, W, L>>
where
    R: Threads + Wait + Sync,
    S: TapSource + Drop + Send,
    T: TapSource + Drop + Send,
    W: OutSink + Drop,
    L: OutSink + Drop,
    G: RunGate + TapGate + RunObserver + Sync,
    ensures watched { IfOk result (HasRun S.TapSource T.TapSource W.OutSink L.OutSink
        workers (making_of plan.entry) config.now a b capture ledger) }
    ensures aborted { IfErr result (HasStopped S.TapSource T.TapSource W.OutSink L.OutSink
        workers (making_of plan.entry) config.now a b capture ledger) }
{
    if workers == 0 || workers > MAX_WORKERS {
        return Err(WatchRefused::new(WatchFault::Workers, a, b, capture, ledger));
    }
    if plan.programs.is_empty() || plan.programs.len() > MAX_FILTERS {
        return Err(WatchRefused::new(WatchFault::Filters, a, b, capture, ledger));
    }
    let ready = match prepare(alloc, sizes, config, &plan, a, b, capture, ledger) {
        Ok(ready) => ready,
        Err(refused) => return Err(refused),
    };
    run_threads(rt, alloc, plan, workers, sizes, gate, ready)
}

/// Runs what is ready, and returns when each thread has come to its end.
fn run_threads<R, S, T, W, L, G>(
    rt: &R,
    alloc: Global,
    plan: Plan<'_>,
    workers: u32,
    sizes: RunSizes,
    gate: &G,
    ready: Ready<S, T, W, L>,
) -> Result<Watched<S, T, W, L>, WatchRefused<S, T, W, L>>
where
    R: Threads + Wait + Sync,
    S: TapSource + Drop + Send,
    T: TapSource + Drop + Send,
    W: OutSink + Drop,
    L: OutSink + Drop,
    G: RunGate + TapGate + RunObserver + Sync,
    requires few { length plan.programs.now ≤ MAX_FILTERS }
    requires new { AreNew ready }
    requires ready { (vl_table : VlTable) × (before : WatchDevices)
        × IsReady S.TapSource T.TapSource W.OutSink L.OutSink
        (making_of plan) vl_table before ready }
    ensures { Runs S.TapSource T.TapSource W.OutSink L.OutSink (making_of plan.entry) ready result }
{
    let mut slot = Some((Formatting { alloc, plan, gate }, ready));
    thread::scope(
        thread::scope_env(),
        rt,
        |scope| -> Result<Watched<S, T, W, L>, WatchRefused<S, T, W, L>>
            requires { IsSome slot
                × IfSome slot (λ both. AreNew both.1 × ((vl_table : VlTable) × (before : WatchDevices)
                × IsReady S.TapSource T.TapSource W.OutSink L.OutSink
                (making_of both.0.plan) vl_table before both.1)) }
            ensures { IfSome slot.entry (λ both. Runs S.TapSource T.TapSource W.OutSink L.OutSink
                (making_of both.0.plan) both.1 result) }
        {
            let (task, ready) = slot.take().unwrap();
            run_ready(scope, rt, alloc, task, workers, sizes, ready)
        },
    )
}
