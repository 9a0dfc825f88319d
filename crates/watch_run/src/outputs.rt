//! The outputs of a run: the capture and the ledger of rounds of frames.
ghost use Rattle.std.specs.Prelude.{◌≡◌, ◌⊎◌, ◌+◌, ◌≤◌, ◌++◌, [], List, None, length, IfErr, IfOk, IfSome, OnOk, false};
ghost use Rattle.afdx_frame.specs.Frame.{Frame};
ghost use Rattle.filter_workers.specs.declared.decision.TheConstants.{MAX_FILTERS};
ghost use Rattle.packet_format.specs.Packets.{format_of, head_by};
ghost use Rattle.pcap_io.specs.Device.{Writes};
ghost use Rattle.pcap_io.specs.Writer.{has_failed, sink_of};
ghost use Rattle.watch_run.specs.Entries.{AreEntries, AreVerdicts};
ghost use Rattle.watch_run.specs.Filters.{Making, making_of};
ghost use Rattle.watch_run.specs.Outputs.{HasShared, HasWritten, IsFinished, StopsFinishing, StopsWriting, effect_of, frames_at, ledger_fault, outputs_of};
ghost use Rattle.run_fault.specs.Device.{SinkView, sink_at};
ghost use Rattle.verdict_ledger.specs.Ledger.{has_failed as ledger_has_failed, totals_in};
ghost use Rattle.verdict_ledger.specs.Ledger.{sink_of as ledger_sink};
ghost use Rattle.verdict_ledger.specs.declared.bounds.TheConstants.{MAX_LINES};
ghost use Rattle.vl_config.specs.Document.{VlTable};
ghost use Rattle.vl_judge.specs.Lanes.{FollowsOn, LanesState, StandsAfter};

use crate::entries::Entries;
use crate::plan::Plan;
use crate::shared::{Formatting, JudgedRound};
use filter_workers::RunGate;
use frame_batch::Round;
use packet_format::PacketFormat;
use pcap_io::{CaptureWriter, Ending, OutSink};
use run_fault::{CAPTURE_FAILED, Output, WatchFault};
use std::alloc::{AllocError, Global};
use std::sync::Wait;
use verdict_ledger::{Ledger, LedgerFault, LedgerRefused, Tally};
use vl_config::Config;
use vl_judge::{Lanes, Verdict};
use worker_pool::{Done, InFlight, Pool, PoolFault};

/// Writes the packets of a round's accepted frames.
fn write_packets<W: OutSink>(
    capture: &mut CaptureWriter<W>,
    packets: &[u8],
) -> Result<(), WatchFault>
    requires going { has_failed capture.old ≡ false }
    ensures written { Writes result
        (W.contents (sink_of capture.old)) (W.contents (sink_of capture.new))
        (W.failures (sink_of capture.old)) (W.failures (sink_of capture.new))
        packets.now }
    ensures going { OnOk result (has_failed capture.new ≡ false) }
    ensures fault { IfErr result (λ fault. fault ≡ WatchFault.Write Output.Capture) }
{
    capture.put_packets(packets).map_err(|_| CAPTURE_FAILED)
}

/// Writes the packets and the lines of a round.
fn write_entries<W: OutSink, L: OutSink>(
    capture: &mut CaptureWriter<W>,
    ledger: &mut Ledger<L>,
    round: &Round,
    verdicts: &[Verdict],
    entries: &Entries,
) -> Result<(), WatchFault>
    requires verdicts { length verdicts.now ≡ length round.now }
    requires entries { (ps : Making) × AreEntries ps round.now verdicts.now entries.now }
    requires room { (totals_in ledger.old).frames + length round.now ≤ MAX_LINES }
    requires capture_going { has_failed capture.old ≡ false }
    requires ledger_going { ledger_has_failed ledger.old ≡ false }
    ensures written { OnOk result ((ps : Making) (vl_table : VlTable)
        (capture_view ledger_view : SinkView) (frames : List Frame) (before after : LanesState)
        → HasWritten W.OutSink L.OutSink
        ps vl_table capture_view ledger_view frames (outputs_of before capture.old ledger.old)
        → AreVerdicts vl_table frames round.now verdicts.now
        → AreEntries ps round.now verdicts.now entries.now
        → StandsAfter after vl_table (frames ++ round.now)
        → HasWritten W.OutSink L.OutSink
        ps vl_table capture_view ledger_view (frames ++ round.now)
        (outputs_of after capture.new ledger.new)) }
    ensures capture_going { OnOk result (has_failed capture.new ≡ false) }
    ensures ledger_going { OnOk result (ledger_has_failed ledger.new ≡ false) }
    ensures stopped { IfErr result (λ fault. (ps : Making) (vl_table : VlTable)
        (capture_view ledger_view : SinkView) (frames : List Frame) (before : LanesState)
        → HasWritten W.OutSink L.OutSink
        ps vl_table capture_view ledger_view frames (outputs_of before capture.old ledger.old)
        → AreVerdicts vl_table frames round.now verdicts.now
        → AreEntries ps round.now verdicts.now entries.now
        → StopsWriting fault ps vl_table capture_view ledger_view
        (sink_at W.OutSink (sink_of capture.new))
        (sink_at L.OutSink (ledger_sink ledger.new)) (frames ++ round.now)) }
{
    write_packets(capture, &entries.packets)?;
    match ledger.round_text(
        &entries.lines,
        round,
        verdicts,
        &entries.keeps,
        &entries.masks,
    ) {
        Ok(()) => Ok(()),
        Err(fault) => Err(fault_of_ledger(fault)),
    }
}

/// The lanes of a table, and what a capture begins with.
fn lanes_and_head(
    alloc: Global,
    config: &Config,
    format: PacketFormat<'_>,
) -> Result<(Lanes, Vec<u8>), AllocError>
    ensures lanes { IfOk result (λ made. StandsAfter made.0 config.now []) }
    ensures head { IfOk result (λ made. made.1.items ≡ head_by (format_of format.entry)) }
{
    let lanes = Lanes::new(alloc, config)?;
    let mut head = Vec::new(alloc);
    format.append_head(&mut head)?;
    Ok((lanes, head))
}

/// The lanes, the capture and the ledger of a run.
#[derive(Drop)]
pub struct Outputs<W, L> {
    pub lanes: Lanes,
    pub capture: CaptureWriter<W>,
    pub ledger: Ledger<L>,
}

/// The ledger's device failed.
pub const LEDGER_FAILED: WatchFault = WatchFault::Write {
    output: Output::Ledger,
};

/// The fault of a run for a fault of the ledger.
fn fault_of_ledger(fault: LedgerFault) -> WatchFault
    ensures { result ≡ ledger_fault fault }
{
    match fault {
        LedgerFault::Device | LedgerFault::Failed => LEDGER_FAILED,
        LedgerFault::Memory => WatchFault::Memory,
    }
}

/// Waits for the workers of a pool, of which this thread is one, until what is written of a round is made,
/// and gives the round back.
fn gather<'a, R: Wait, G: RunGate + Sync>(
    rt: &R,
    pool: &mut Pool<Formatting<'a, G>>,
    flight: InFlight<Formatting<'a, G>>,
    entries: &mut Entries,
) -> Result<JudgedRound, WatchFault>
    ensures pool { pool.new ≡ pool.old }
    ensures round { IfOk result (λ back. back ≡ flight.entry.round) }
    ensures entries { OnOk result (AreEntries (making_of flight.entry.task.plan)
        flight.entry.round.frames flight.entry.round.verdicts.items entries.new) }
    ensures fault { IfErr result (λ fault. (fault ≡ WatchFault.Memory) ⊎ (fault ≡ WatchFault.RingLost)) }
{
    let Done {
        round,
        chunk: _,
        batches,
    } = match pool.take(rt, flight) {
        Ok(done) => done,
        Err(fault) => return Err(fault_of_pool(fault)),
    };
    entries.gather(&batches)?;
    pool.give_back(batches);
    Ok(round)
}

/// Writes a round that workers are at, once what is written of it is made.
fn write_flight<'a, R: Wait, W: OutSink, L: OutSink, G: RunGate + Sync>(
    rt: &R,
    pool: &mut Pool<Formatting<'a, G>>,
    flight: InFlight<Formatting<'a, G>>,
    capture: &mut CaptureWriter<W>,
    ledger: &mut Ledger<L>,
    entries: &mut Entries,
) -> Result<(), WatchFault>
    requires room { (totals_in ledger.old).frames + length flight.round.frames ≤ MAX_LINES }
    requires capture_going { has_failed capture.old ≡ false }
    requires ledger_going { ledger_has_failed ledger.old ≡ false }
    ensures pool { pool.new ≡ pool.old }
    ensures written { OnOk result ((vl_table : VlTable)
        (capture_view ledger_view : SinkView) (frames : List Frame) (before after : LanesState)
        → HasWritten W.OutSink L.OutSink
        (making_of flight.entry.task.plan) vl_table capture_view ledger_view frames
        (outputs_of before capture.old ledger.old)
        → AreVerdicts vl_table frames flight.entry.round.frames flight.entry.round.verdicts.items
        → StandsAfter after vl_table (frames ++ flight.entry.round.frames)
        → HasWritten W.OutSink L.OutSink
        (making_of flight.entry.task.plan) vl_table capture_view ledger_view
        (frames ++ flight.entry.round.frames)
        (outputs_of after capture.new ledger.new)) }
    ensures capture_going { OnOk result (has_failed capture.new ≡ false) }
    ensures ledger_going { OnOk result (ledger_has_failed ledger.new ≡ false) }
    ensures stopped { IfErr result (λ fault. (vl_table : VlTable)
        (capture_view ledger_view : SinkView) (frames : List Frame) (before : LanesState)
        → HasWritten W.OutSink L.OutSink
        (making_of flight.entry.task.plan) vl_table capture_view ledger_view frames
        (outputs_of before capture.old ledger.old)
        → AreVerdicts vl_table frames flight.entry.round.frames flight.entry.round.verdicts.items
        → StopsWriting (effect_of fault) (making_of flight.entry.task.plan) vl_table capture_view ledger_view
        (sink_at W.OutSink (sink_of capture.new))
        (sink_at L.OutSink (ledger_sink ledger.new)) (frames ++ flight.entry.round.frames)) }
{
    let done = match gather(rt, pool, flight, entries) {
        Ok(round) => round,
        Err(fault) => return Err(fault),
    };
    write_entries(capture, ledger, &done.frames, &done.verdicts, entries)
}

/// The fault of a run for a fault of a pool. No round of a run has too many chunks.
fn fault_of_pool(fault: PoolFault) -> WatchFault
    ensures { (result ≡ WatchFault.Memory) ⊎ (result ≡ WatchFault.RingLost) }
{
    match fault {
        PoolFault::Memory | PoolFault::Long => WatchFault::Memory,
        PoolFault::Lost => WatchFault::RingLost,
    }
}

/// Outputs that weren't written, and why.
#[derive(Drop)]
pub struct Unwritten<W, L> {
    pub fault: WatchFault,
    pub capture: W,
    pub ledger: L,
}

impl<W: OutSink, L: OutSink> Unwritten<W, L> {
    /// After a fault of outputs that had begun.
    fn after(fault: WatchFault, capture: CaptureWriter<W>, ledger: Ledger<L>) -> Unwritten<W, L>
        ensures { result ≡ record { fault = fault; capture = sink_of capture; ledger = ledger_sink ledger } }
    {
        Unwritten {
            fault,
            capture: capture.finish(),
            ledger: ledger.into_sink(),
        }
    }
}

impl<W: OutSink, L: OutSink> Outputs<W, L> {
    /// Begins the capture, and then the ledger of a table, for the 1 to 8 filters of a plan. A refusal gives
    /// both sinks back.
    pub fn begin(
        alloc: Global,
        config: &Config,
        plan: &Plan<'_>,
        capture: W,
        ledger: L,
    ) -> Result<Outputs<W, L>, Unwritten<W, L>>
        requires some { 1 ≤ length plan.now.programs.now }
        requires few { length plan.now.programs.now ≤ MAX_FILTERS }
        ensures written { IfOk result (HasWritten W.OutSink L.OutSink (making_of plan.now) config.now
            (sink_at W.OutSink capture) (sink_at L.OutSink ledger) []) }
        ensures capture_going { IfOk result (λ outputs. has_failed outputs.capture ≡ false) }
        ensures ledger_going { IfOk result (λ outputs. ledger_has_failed outputs.ledger ≡ false) }
        ensures stopped { IfErr result (λ e. StopsWriting e.fault (making_of plan.now) config.now
            (sink_at W.OutSink capture) (sink_at L.OutSink ledger)
            (sink_at W.OutSink e.capture)
            (sink_at L.OutSink e.ledger) []) }
    {
        let (lanes, head) = match lanes_and_head(alloc, config, plan.format) {
            Ok(made) => made,
            Err(AllocError) => {
                return Err(Unwritten {
                    fault: WatchFault::Memory,
                    capture,
                    ledger,
                });
            }
        };
        let capture = match CaptureWriter::begin_with(capture, &head) {
            Ok(writer) => writer,
            Err(capture) => {
                return Err(Unwritten {
                    fault: CAPTURE_FAILED,
                    capture,
                    ledger,
                });
            }
        };
        let filters = plan.programs.len() as u32;
        match Ledger::begin(alloc, config, filters, plan.version, ledger) {
            Ok(ledger) => Ok(Outputs {
                lanes,
                capture,
                ledger,
            }),
            Err(LedgerRefused { sink, fault }) => Err(Unwritten {
                fault: fault_of_ledger(fault),
                capture: capture.finish(),
                ledger: sink,
            }),
        }
    }

    /// Writes the rest of the ledger, by how both recordings ended, and gives the sinks and the counts.
    pub fn finish(self, a: Ending, b: Ending) -> Result<(W, L, Tally), Unwritten<W, L>>
        requires going { ledger_has_failed self.ledger ≡ false }
        ensures finished { IfOk result (λ done. (ps : Making) (vl_table : VlTable)
            (capture ledger : SinkView) (frames : List Frame)
            → HasWritten W.OutSink L.OutSink
            ps vl_table capture ledger frames self
            → IsFinished ps vl_table capture ledger (sink_at W.OutSink done.0)
            (sink_at L.OutSink done.1) frames a b done.2) }
        ensures stopped { IfErr result (λ e. (ps : Making) (vl_table : VlTable)
            (capture ledger : SinkView) (frames : List Frame)
            → HasWritten W.OutSink L.OutSink
            ps vl_table capture ledger frames self
            → StopsFinishing e.fault ps vl_table capture ledger
            (sink_at W.OutSink e.capture)
            (sink_at L.OutSink e.ledger) frames a b) }
    {
        let Outputs {
            lanes: _,
            capture,
            ledger,
        } = self;
        let capture = capture.finish();
        match ledger.close(a, b) {
            Ok((ledger, tally)) => Ok((capture, ledger, tally)),
            Err(LedgerRefused { sink, fault }) => Err(Unwritten {
                fault: fault_of_ledger(fault),
                capture,
                ledger: sink,
            }),
        }
    }

    /// A run of these outputs stops, and nothing more is written.
    pub fn unwritten(self, fault: WatchFault) -> Unwritten<W, L>
        ensures { result ≡ record {
          fault = fault;
          capture = sink_of self.capture;
          ledger = ledger_sink self.ledger;
        } }
    {
        let Outputs {
            lanes: _,
            capture,
            ledger,
        } = self;
        Unwritten::after(fault, capture, ledger)
    }

    /// The sinks. Nothing more is written.
    pub fn into_sinks(self) -> (W, L)
        ensures { result ≡ (sink_of self.capture, ledger_sink self.ledger) }
    {
        let Outputs {
            lanes: _,
            capture,
            ledger,
        } = self;
        (capture.finish(), ledger.into_sink())
    }

    /// Judges and filters a round's frames, which follow on all before, and writes their packets and
    /// their lines, by the memory of an earlier round's.
    pub fn write_round(
        &mut self,
        plan: &Plan<'_>,
        round: &Round,
        entries: &mut Entries,
    ) -> Result<(), WatchFault>
        requires few { length plan.now.programs.now ≤ MAX_FILTERS }
        requires follows { FollowsOn self.old.lanes.last round.now }
        requires room { (totals_in self.old.ledger).frames + length round.now ≤ MAX_LINES }
        requires capture_going { has_failed self.old.capture ≡ false }
        requires ledger_going { ledger_has_failed self.old.ledger ≡ false }
        ensures written { OnOk result ((vl_table : VlTable) (capture ledger : SinkView)
            (frames : List Frame)
            → HasWritten W.OutSink L.OutSink
            (making_of plan.now) vl_table capture ledger frames self.old
            → HasWritten W.OutSink L.OutSink
            (making_of plan.now) vl_table capture ledger (frames ++ round.now) self.new) }
        ensures capture_going { OnOk result (has_failed self.new.capture ≡ false) }
        ensures ledger_going { OnOk result (ledger_has_failed self.new.ledger ≡ false) }
        ensures stopped { IfErr result (λ fault. (vl_table : VlTable) (capture ledger : SinkView)
            (frames : List Frame)
            → HasWritten W.OutSink L.OutSink
            (making_of plan.now) vl_table capture ledger frames self.old
            → StopsWriting fault (making_of plan.now) vl_table capture ledger
            (sink_at W.OutSink (sink_of self.new.capture))
            (sink_at L.OutSink (ledger_sink self.new.ledger))
            (frames ++ round.now)) }
    {
        let verdicts = self.lanes.judge_frames(round)?;
        entries.fill(plan, &round.all(), &verdicts)?;
        write_entries(
            &mut self.capture,
            &mut self.ledger,
            round,
            &verdicts,
            entries,
        )
    }

    /// Judges a round's frames, which follow on all before, and hands it to the workers of a pool, which run
    /// the filters and make the packets and the lines. Then writes the round that they were at before.
    ///
    /// # Errors
    ///
    /// `Write` if a sink failed, `Memory`, and `RingLost` if what a worker made was lost. The round is lost.
    pub fn share_round<'a, R: Wait, G: RunGate + Sync>(
        &mut self,
        rt: &R,
        pool: &mut Pool<Formatting<'a, G>>,
        flight: &mut Option<InFlight<Formatting<'a, G>>>,
        round: Round,
        entries: &mut Entries,
    ) -> Result<(), WatchFault>
        requires follows { FollowsOn self.old.lanes.last round }
        requires room { (totals_in self.old.ledger).frames + length (frames_at flight.old) ≤ MAX_LINES }
        requires task { IfSome flight.old (λ p. p.task ≡ pool.old.task) }
        requires capture_going { has_failed self.old.capture ≡ false }
        requires ledger_going { ledger_has_failed self.old.ledger ≡ false }
        ensures pool { pool.new ≡ pool.old }
        ensures task { IfSome flight.new (λ p. p.task ≡ pool.old.task) }
        ensures written { OnOk result ((vl_table : VlTable) (capture ledger : SinkView)
            (frames : List Frame)
            → HasShared W.OutSink L.OutSink
            (making_of pool.old.task.plan) vl_table capture ledger frames self.old flight.old
            → HasShared W.OutSink L.OutSink
            (making_of pool.old.task.plan) vl_table capture ledger (frames ++ round) self.new flight.new) }
        ensures capture_going { OnOk result (has_failed self.new.capture ≡ false) }
        ensures ledger_going { OnOk result (ledger_has_failed self.new.ledger ≡ false) }
        ensures stopped { IfErr result (λ fault. (vl_table : VlTable) (capture ledger : SinkView)
            (frames : List Frame)
            → HasShared W.OutSink L.OutSink
            (making_of pool.old.task.plan) vl_table capture ledger frames self.old flight.old
            → StopsWriting (effect_of fault) (making_of pool.old.task.plan) vl_table capture ledger
            (sink_at W.OutSink (sink_of self.new.capture))
            (sink_at L.OutSink (ledger_sink self.new.ledger))
            (frames ++ round)) }
    {
        let verdicts = self.lanes.judge_frames(&round)?;
        let judged = JudgedRound {
            frames: round,
            verdicts,
        };
        let next = match pool.put(judged) {
            Ok(next) => next,
            Err(fault) => return Err(fault_of_pool(fault)),
        };
        self.settle_round(rt, pool, flight, entries)?;
        *flight = Some(next);
        Ok(())
    }

    /// Writes the round that the workers of a pool are at, if there is one, once what is written of it is
    /// made.
    ///
    /// # Errors
    ///
    /// As [`share_round`](Outputs::share_round).
    pub fn settle_round<'a, R: Wait, G: RunGate + Sync>(
        &mut self,
        rt: &R,
        pool: &mut Pool<Formatting<'a, G>>,
        flight: &mut Option<InFlight<Formatting<'a, G>>>,
        entries: &mut Entries,
    ) -> Result<(), WatchFault>
        requires room { (totals_in self.old.ledger).frames + length (frames_at flight.old) ≤ MAX_LINES }
        requires task { IfSome flight.old (λ p. p.task ≡ pool.old.task) }
        requires capture_going { has_failed self.old.capture ≡ false }
        requires ledger_going { ledger_has_failed self.old.ledger ≡ false }
        ensures pool { pool.new ≡ pool.old }
        ensures none { flight.new ≡ None }
        ensures lanes { self.new.lanes ≡ self.old.lanes }
        ensures written { OnOk result ((vl_table : VlTable) (capture ledger : SinkView)
            (frames : List Frame) (after : LanesState)
            → HasShared W.OutSink L.OutSink
            (making_of pool.old.task.plan) vl_table capture ledger frames
            (outputs_of after self.old.capture self.old.ledger) flight.old
            → HasWritten W.OutSink L.OutSink
            (making_of pool.old.task.plan) vl_table capture ledger frames
            (outputs_of after self.new.capture self.new.ledger)) }
        ensures capture_going { OnOk result (has_failed self.new.capture ≡ false) }
        ensures ledger_going { OnOk result (ledger_has_failed self.new.ledger ≡ false) }
        ensures stopped { IfErr result (λ fault. (vl_table : VlTable) (capture ledger : SinkView)
            (frames : List Frame) (after : LanesState)
            → HasShared W.OutSink L.OutSink
            (making_of pool.old.task.plan) vl_table capture ledger frames
            (outputs_of after self.old.capture self.old.ledger) flight.old
            → StopsWriting (effect_of fault) (making_of pool.old.task.plan) vl_table capture ledger
            (sink_at W.OutSink (sink_of self.new.capture))
            (sink_at L.OutSink (ledger_sink self.new.ledger)) frames) }
    {
        let Some(flight) = flight.take() else {
            return Ok(());
        };
        write_flight(
            rt,
            pool,
            flight,
            &mut self.capture,
            &mut self.ledger,
            entries,
        )
    }
}
