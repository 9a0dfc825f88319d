//! The ledger: lines of frames, and then the counts.
ghost use Rattle.std.specs.Prelude.{◌≡◌, ◌+◌, ◌≢◌, ◌<◌, ◌≤◌, ◌∷◌, ◌++◌, ℕ, List, [], true, false, length, Ok, Err, IfOk, IfErr, OnOk, OnErr};
ghost use Rattle.vl_config.specs.Document.{VlTable};
ghost use Rattle.verdict_ledger.specs.Entry.{Entry, entry_with, entries_of};
ghost use Rattle.verdict_ledger.specs.Tally.{totals_of};
ghost use Rattle.verdict_ledger.specs.Text.{ledger_head, line_text, lines_text, rest_text};
ghost use Rattle.verdict_ledger.specs.Writing.{IsAppended, fault_of, refusal_of};
ghost use Rattle.verdict_ledger.specs.declared.bounds.TheConstants.{MAX_FILTERS, MAX_LINES};

use crate::fault::{LedgerFault, LedgerRefused};
use crate::kept::kept_of;
use crate::spool::Spool;
use crate::tally::Tally;
use crate::totals::Totals;
use crate::version::LedgerVersion;
use afdx_frame::LentFrame;
use frame_batch::Round;
use pcap_io::{DeviceFault, Ending, OutSink, write_all};
use std::alloc::{AllocError, Global};
use vl_config::{Config, Link};
use vl_judge::Verdict;

/// A ledger that is being written to a sink, which it holds.
///
/// Its memory is flat, however many frames there are: it holds the table's links, the counts, and text,
/// at most that of its largest round or 65536 bytes and a line.
#[derive(Debug, Drop)]
pub struct Ledger<W> {
    spool: Spool<W>,
    failed: bool,
    version: LedgerVersion,
    links: Vec<Link>,
    filters: u32,
    tally: Tally,
    ghost few_filters: { filters ≤ MAX_FILTERS },
}

impl<W: OutSink> Ledger<W> {
    ghost use Rattle.verdict_ledger.specs.declared.fault.LedgerFault.TheVariants.{Memory, Failed};
    ghost use Rattle.verdict_ledger.specs.Ledger.{StandsAfter, begun_sink, finished_sink};
    ghost use Rattle.verdict_ledger.specs.Ledger.{has_failed, sink_of, tally_in, totals_in, version_in};

    /// Writes the first line of the ledger of a table, in this version, for 1 to
    /// [`MAX_FILTERS`](crate::MAX_FILTERS) filters.
    ///
    /// # Errors
    ///
    /// `Device` if the sink failed, after a prefix of the line, and `Memory` before anything was
    /// written. Either gives the sink back. Whatever the table, the counts of all identifiers are
    /// allocated, so `Memory` may come for any.
    pub fn begin(
        alloc: Global,
        config: &Config,
        filters: u32,
        version: LedgerVersion,
        sink: W,
    ) -> Result<Ledger<W>, LedgerRefused<W>>
        requires some_filters { 1 ≤ filters }
        requires few_filters { filters ≤ MAX_FILTERS }
        ensures written { IsAppended (refusal_of result)
            (W.contents sink) (W.contents (begun_sink result))
            (W.failures sink) (W.failures (begun_sink result)) (ledger_head version) }
        ensures memory { IfErr result (λ r. r.fault ≡ Memory → r.sink ≡ sink) }
        ensures going { IfOk result (λ ledger. has_failed ledger ≡ false) }
        ensures version { IfOk result (λ ledger. version_in ledger ≡ version) }
        ensures after { IfOk result (λ ledger. StandsAfter ledger config.now filters []) }
    {
        let (links, tally) = match kept_of(alloc, config) {
            Ok(kept) => kept,
            Err(AllocError) => {
                return Err(LedgerRefused {
                    sink,
                    fault: LedgerFault::Memory,
                });
            }
        };
        let mut sink = sink;
        match write_all(&mut sink, version.head().as_bytes()) {
            Ok(()) => Ok(Ledger {
                spool: Spool::new(sink, Vec::new(alloc)),
                failed: false,
                version,
                links,
                filters,
                tally,
            }),
            Err(DeviceFault) => Err(LedgerRefused {
                sink,
                fault: LedgerFault::Device,
            }),
        }
    }

    /// Writes the line of a frame, and counts it. `verdict` is its verdict under the ledger's table,
    /// `keep` how many of its captured bytes are kept, where a filter accepts it, and bit i of `mask` is
    /// set where filter i does. A ledger has at most [`MAX_LINES`](crate::MAX_LINES) lines.
    ///
    /// # Errors
    ///
    /// `Device` if the sink failed, after a prefix of the line, and `Memory` before anything was
    /// written, which may come for any line; the frame isn't counted. Each later call returns `Failed`,
    /// and writes nothing.
    pub fn line(
        &mut self,
        frame: &LentFrame<'_>,
        verdict: &Verdict,
        keep: Option<u32>,
        mask: u8,
    ) -> Result<(), LedgerFault>
        requires { (totals_in self.old).frames < MAX_LINES }
        ensures written { has_failed self.old ≡ false → IsAppended (fault_of result)
            (W.contents (sink_of self.old)) (W.contents (sink_of self.new))
            (W.failures (sink_of self.old)) (W.failures (sink_of self.new))
            (line_text (version_in self.old) (entry_with frame.now verdict.now keep mask)) }
        ensures memory { result ≡ Err Memory → sink_of self.new ≡ sink_of self.old }
        ensures failed { has_failed self.old ≡ true
            → (result ≡ Err Failed) × (self.new ≡ self.old) }
        ensures version { version_in self.new ≡ version_in self.old }
        ensures going { OnOk result
            ((has_failed self.old ≡ false) × (has_failed self.new ≡ false)) }
        ensures after_fault { OnErr result (has_failed self.new ≡ true) }
        ensures counted { OnOk result
            ((vl_table : VlTable) (filters : ℕ) (entries : List Entry)
            → StandsAfter self.old vl_table filters entries
            → StandsAfter self.new vl_table filters
            (entries ++ entry_with frame.now verdict.now keep mask ∷ [])) }
        ensures not_counted { OnErr result
            ((vl_table : VlTable) (filters : ℕ) (entries : List Entry)
            → StandsAfter self.old vl_table filters entries
            → StandsAfter self.new vl_table filters entries) }
    {
        if self.failed {
            return Err(LedgerFault::Failed);
        }
        let version = self.version;
        match self.spool.write_line(version, frame, verdict, keep, mask) {
            Ok(()) => {
                self.tally.count(frame, verdict, keep, mask);
                Ok(())
            }
            Err(fault) => {
                self.failed = true;
                Err(fault)
            }
        }
    }

    /// Writes the lines of a round's frames, each with what stands at its place in the other lists, and
    /// counts them: what as many calls of `line` do, with one write.
    ///
    /// # Errors
    ///
    /// `Device` if the sink failed, after a prefix of the lines, and `Memory` before anything was
    /// written; none of the frames is counted. Each later call returns `Failed`, and writes nothing.
    /// `Memory` comes only of a round with frames.
    pub fn round(
        &mut self,
        frames: &Round,
        verdicts: &[Verdict],
        keeps: &[Option<u32>],
        masks: &[u8],
    ) -> Result<(), LedgerFault>
        requires verdicts { length verdicts.now ≡ length frames.now }
        requires keeps { length keeps.now ≡ length frames.now }
        requires masks { length masks.now ≡ length frames.now }
        requires room { (totals_in self.old).frames + length frames.now ≤ MAX_LINES }
        ensures written { has_failed self.old ≡ false → IsAppended (fault_of result)
            (W.contents (sink_of self.old)) (W.contents (sink_of self.new))
            (W.failures (sink_of self.old)) (W.failures (sink_of self.new))
            (lines_text (version_in self.old) (entries_of frames.now verdicts.now keeps.now masks.now)) }
        ensures memory { result ≡ Err Memory → 0 < length frames.now }
        ensures unwritten { result ≡ Err Memory → sink_of self.new ≡ sink_of self.old }
        ensures failed { has_failed self.old ≡ true
            → (result ≡ Err Failed) × (self.new ≡ self.old) }
        ensures version { version_in self.new ≡ version_in self.old }
        ensures going { OnOk result
            ((has_failed self.old ≡ false) × (has_failed self.new ≡ false)) }
        ensures after_fault { OnErr result (has_failed self.new ≡ true) }
        ensures counted { OnOk result
            ((vl_table : VlTable) (filters : ℕ) (entries : List Entry)
            → StandsAfter self.old vl_table filters entries
            → StandsAfter self.new vl_table filters
            (entries ++ entries_of frames.now verdicts.now keeps.now masks.now)) }
        ensures not_counted { OnErr result
            ((vl_table : VlTable) (filters : ℕ) (entries : List Entry)
            → StandsAfter self.old vl_table filters entries
            → StandsAfter self.new vl_table filters entries) }
    {
        if self.failed {
            return Err(LedgerFault::Failed);
        }
        let written = self
            .spool
            .write_lines(self.version, frames, verdicts, keeps, masks);
        self.settle(written, frames, verdicts, keeps, masks)
    }

    /// Writes the text of a round's frames, and counts them: what `round` does, where the text is that of
    /// [`append_lines`](crate::append_lines) in the ledger's version, but it allocates nothing.
    ///
    /// # Errors
    ///
    /// `Device` if the sink failed, after a prefix of the text; none of the frames is counted. Each
    /// later call returns `Failed`, and writes nothing.
    pub fn round_text(
        &mut self,
        text: &[u8],
        frames: &Round,
        verdicts: &[Verdict],
        keeps: &[Option<u32>],
        masks: &[u8],
    ) -> Result<(), LedgerFault>
        requires verdicts { length verdicts.now ≡ length frames.now }
        requires keeps { length keeps.now ≡ length frames.now }
        requires masks { length masks.now ≡ length frames.now }
        requires room { (totals_in self.old).frames + length frames.now ≤ MAX_LINES }
        ensures written { has_failed self.old ≡ false → IsAppended (fault_of result)
            (W.contents (sink_of self.old)) (W.contents (sink_of self.new))
            (W.failures (sink_of self.old)) (W.failures (sink_of self.new)) text.now }
        ensures memory { result ≢ Err Memory }
        ensures failed { has_failed self.old ≡ true
            → (result ≡ Err Failed) × (self.new ≡ self.old) }
        ensures version { version_in self.new ≡ version_in self.old }
        ensures going { OnOk result
            ((has_failed self.old ≡ false) × (has_failed self.new ≡ false)) }
        ensures after_fault { OnErr result (has_failed self.new ≡ true) }
        ensures counted { OnOk result
            ((vl_table : VlTable) (filters : ℕ) (entries : List Entry)
            → StandsAfter self.old vl_table filters entries
            → StandsAfter self.new vl_table filters
            (entries ++ entries_of frames.now verdicts.now keeps.now masks.now)) }
        ensures not_counted { OnErr result
            ((vl_table : VlTable) (filters : ℕ) (entries : List Entry)
            → StandsAfter self.old vl_table filters entries
            → StandsAfter self.new vl_table filters entries) }
    {
        if self.failed {
            return Err(LedgerFault::Failed);
        }
        let written = self.spool.write_text(text);
        self.settle(written, frames, verdicts, keeps, masks)
    }

    /// Counts the frames of a round where their lines were written, and else notes the fault.
    #[inline]
    fn settle(
        &mut self,
        written: Result<(), LedgerFault>,
        frames: &Round,
        verdicts: &[Verdict],
        keeps: &[Option<u32>],
        masks: &[u8],
    ) -> Result<(), LedgerFault>
        requires verdicts { length verdicts.now ≡ length frames.now }
        requires keeps { length keeps.now ≡ length frames.now }
        requires masks { length masks.now ≡ length frames.now }
        requires room { (totals_in self.old).frames + length frames.now ≤ MAX_LINES }
        ensures same { result ≡ written }
        ensures sink { sink_of self.new ≡ sink_of self.old }
        ensures version { version_in self.new ≡ version_in self.old }
        ensures going { OnOk result (has_failed self.new ≡ has_failed self.old) }
        ensures after_fault { OnErr result (has_failed self.new ≡ true) }
        ensures counted { OnOk result
            ((vl_table : VlTable) (filters : ℕ) (entries : List Entry)
            → StandsAfter self.old vl_table filters entries
            → StandsAfter self.new vl_table filters
            (entries ++ entries_of frames.now verdicts.now keeps.now masks.now)) }
        ensures not_counted { OnErr result
            ((vl_table : VlTable) (filters : ℕ) (entries : List Entry)
            → StandsAfter self.old vl_table filters entries
            → StandsAfter self.new vl_table filters entries) }
    {
        match written {
            Ok(()) => self.tally.count_round(frames, verdicts, keeps, masks),
            Err(_) => self.failed = true,
        }
        written
    }

    /// The counts of the frames so far.
    pub fn totals(&self) -> &Totals
        ensures value { result.now ≡ totals_in self.now }
        ensures counts { (vl_table : VlTable) (filters : ℕ) (entries : List Entry)
            → StandsAfter self.now vl_table filters entries → result.now ≡ totals_of entries }
    {
        self.tally.totals()
    }

    /// Does what [`close`](Ledger::close) does, and gives the sink and the counts of all frames alone.
    ///
    /// # Errors
    ///
    /// Those of [`close`](Ledger::close).
    pub fn finish(self, a: Ending, b: Ending) -> Result<(W, Totals), LedgerRefused<W>>
        ensures written { has_failed self ≡ false
            → (vl_table : VlTable) (filters : ℕ) (entries : List Entry)
            → StandsAfter self vl_table filters entries → IsAppended (refusal_of result)
            (W.contents (sink_of self)) (W.contents (finished_sink result))
            (W.failures (sink_of self)) (W.failures (finished_sink result))
            (rest_text vl_table filters entries a b) }
        ensures failed { has_failed self ≡ true
            → result ≡ Err (record { sink = sink_of self; fault = Failed }) }
        ensures going { OnOk result (has_failed self ≡ false) }
        ensures totals { IfOk result (λ finished. finished.1 ≡ totals_in self) }
    {
        match self.close(a, b) {
            Ok((sink, tally)) => Ok((sink, *tally.totals())),
            Err(refused) => Err(refused),
        }
    }

    /// Writes the lines of the links, by rising identifier, of the filters, of how the recordings of
    /// networks A and B ended, and of all frames. Gives the sink and all counts, those of links too.
    ///
    /// # Errors
    ///
    /// `Device` if the sink failed and `Memory`, each after a prefix of the lines; `Failed` if a call
    /// has met a fault before, and then nothing is written. Each gives the sink back. There are always
    /// lines to write, so `Memory` may come for any ledger.
    pub fn close(self, a: Ending, b: Ending) -> Result<(W, Tally), LedgerRefused<W>>
        ensures written { has_failed self ≡ false
            → (vl_table : VlTable) (filters : ℕ) (entries : List Entry)
            → StandsAfter self vl_table filters entries → IsAppended (refusal_of result)
            (W.contents (sink_of self)) (W.contents (finished_sink result))
            (W.failures (sink_of self)) (W.failures (finished_sink result))
            (rest_text vl_table filters entries a b) }
        ensures failed { has_failed self ≡ true
            → result ≡ Err (record { sink = sink_of self; fault = Failed }) }
        ensures going { OnOk result (has_failed self ≡ false) }
        ensures tally { IfOk result (λ closed. closed.1 ≡ tally_in self) }
    {
        let Ledger {
            mut spool,
            failed,
            version: _,
            links,
            filters,
            tally,
        } = self;
        if failed {
            return Err(LedgerRefused {
                sink: spool.into_sink(),
                fault: LedgerFault::Failed,
            });
        }
        match spool.write_summary(&links, &tally, filters, a, b) {
            Ok(()) => Ok((spool.into_sink(), tally)),
            Err(fault) => Err(LedgerRefused {
                sink: spool.into_sink(),
                fault,
            }),
        }
    }

    /// The sink. Nothing more is written.
    pub fn into_sink(self) -> W
        ensures { result ≡ sink_of self }
    {
        self.spool.into_sink()
    }
}
