//! Text on its way to a sink.
ghost use Rattle.std.specs.Prelude.{◌≡◌, ◌<◌, ◌≤◌, [], List, length, Err, IfErr, OnErr, OnOk};
ghost use Rattle.verdict_ledger.specs.Entry.{Entry, entry_with, entries_of};
ghost use Rattle.verdict_ledger.specs.Tally.{totals_of, link_counts};
ghost use Rattle.verdict_ledger.specs.Ledger.{IsTallyOf};
ghost use Rattle.verdict_ledger.specs.Text.{line_text, lines_text, link_line, link_lines, summary_text};
ghost use Rattle.verdict_ledger.specs.Writing.{IsAppended, IsSpooled, fault_of};
ghost use Rattle.verdict_ledger.specs.declared.fault.LedgerFault.TheVariants.{Device, Memory};
ghost use Rattle.verdict_ledger.specs.declared.bounds.TheConstants.{MAX_FILTERS};

use crate::fault::LedgerFault;
use crate::line::push_line;
use crate::lines::append_lines;
use crate::link_counts::LinkCounts;
use crate::summary::{push_end, push_link};
use crate::tally::Tally;
use crate::version::LedgerVersion;
use afdx_frame::LentFrame;
use frame_batch::Round;
use pcap_io::{Ending, OutSink, write_all};
use vl_config::Link;
use vl_judge::Verdict;

/// How many bytes of text are gathered before they are written.
const BLOCK: usize = 65536;

/// A sink, and the text that waits to be written to it. The text's memory is used again.
#[derive(Debug, Drop)]
pub struct Spool<W> {
    sink: W,
    text: Vec<u8>,
}

impl<W: OutSink> Spool<W> {
    /// A sink, and memory for text.
    pub fn new(sink: W, text: Vec<u8>) -> Spool<W>
        ensures { result.sink ≡ sink }
    {
        Spool { sink, text }
    }

    /// The sink.
    pub fn into_sink(self) -> W
        ensures { result ≡ self.sink }
    {
        self.sink
    }

    /// Writes the text that waits.
    fn flush(&mut self) -> Result<(), LedgerFault>
        ensures written { IsSpooled (fault_of result)
            (W.contents self.old.sink) (W.contents self.new.sink)
            (W.failures self.old.sink) (W.failures self.new.sink)
            self.old.text.items self.new.text.items [] }
        ensures empty { OnOk result (self.new.text.items ≡ []) }
        ensures fault { IfErr result (λ fault. fault ≡ Device) }
    {
        write_all(&mut self.sink, &self.text)?;
        self.text.clear();
        Ok(())
    }

    /// Writes the text that waits, where it is a block or more.
    #[inline]
    fn flush_block(&mut self) -> Result<(), LedgerFault>
        ensures { IsSpooled (fault_of result)
            (W.contents self.old.sink) (W.contents self.new.sink)
            (W.failures self.old.sink) (W.failures self.new.sink)
            self.old.text.items self.new.text.items [] }
    {
        if self.text.len() < BLOCK {
            return Ok(());
        }
        self.flush()
    }

    /// Adds the line of a link.
    fn add_link(&mut self, link: &Link, counts: &LinkCounts) -> Result<(), LedgerFault>
        ensures { IsSpooled (fault_of result)
            (W.contents self.old.sink) (W.contents self.new.sink)
            (W.failures self.old.sink) (W.failures self.new.sink)
            self.old.text.items self.new.text.items (link_line link.now counts.now) }
    {
        push_link(&mut self.text, link, counts)?;
        self.flush_block()
    }

    /// Adds the lines of the links.
    fn add_links(&mut self, links: &[Link], tally: &Tally) -> Result<(), LedgerFault>
        ensures { (entries : List Entry) → IsTallyOf entries tally.now → IsSpooled (fault_of result)
            (W.contents self.old.sink) (W.contents self.new.sink)
            (W.failures self.old.sink) (W.failures self.new.sink)
            self.old.text.items self.new.text.items
            (link_lines (link_counts entries) links.now) }
    {
        for link in links {
            self.add_link(link, tally.link(link.id))?;
        }
        Ok(())
    }

    /// Writes the line of a frame.
    #[inline]
    pub fn write_line(
        &mut self,
        version: LedgerVersion,
        frame: &LentFrame<'_>,
        verdict: &Verdict,
        keep: Option<u32>,
        mask: u8,
    ) -> Result<(), LedgerFault>
        ensures written { IsAppended (fault_of result)
            (W.contents self.old.sink) (W.contents self.new.sink)
            (W.failures self.old.sink) (W.failures self.new.sink)
            (line_text version (entry_with frame.now verdict.now keep mask)) }
        ensures memory { result ≡ Err Memory → self.new.sink ≡ self.old.sink }
    {
        self.text.clear();
        push_line(&mut self.text, version, frame, verdict, keep, mask)?;
        self.flush()
    }

    /// Writes the lines of a round's frames. A round of no frames needs no memory.
    pub fn write_lines(
        &mut self,
        version: LedgerVersion,
        frames: &Round,
        verdicts: &[Verdict],
        keeps: &[Option<u32>],
        masks: &[u8],
    ) -> Result<(), LedgerFault>
        requires verdicts { length verdicts.now ≡ length frames.now }
        requires keeps { length keeps.now ≡ length frames.now }
        requires masks { length masks.now ≡ length frames.now }
        ensures written { IsAppended (fault_of result)
            (W.contents self.old.sink) (W.contents self.new.sink)
            (W.failures self.old.sink) (W.failures self.new.sink)
            (lines_text version (entries_of frames.now verdicts.now keeps.now masks.now)) }
        ensures some { result ≡ Err Memory → 0 < length frames.now }
        ensures memory { result ≡ Err Memory → self.new.sink ≡ self.old.sink }
    {
        self.text.clear();
        append_lines(
            &mut self.text,
            version,
            &frames.all(),
            verdicts,
            keeps,
            masks,
        )?;
        self.flush()
    }

    /// Writes text that the caller has formatted.
    pub fn write_text(&mut self, text: &[u8]) -> Result<(), LedgerFault>
        ensures written { IsAppended (fault_of result)
            (W.contents self.old.sink) (W.contents self.new.sink)
            (W.failures self.old.sink) (W.failures self.new.sink) text.now }
        ensures fault { IfErr result (λ fault. fault ≡ Device) }
    {
        write_all(&mut self.sink, text)?;
        Ok(())
    }

    /// Writes all lines after those of the frames.
    pub fn write_summary(
        &mut self,
        links: &[Link],
        tally: &Tally,
        filters: u32,
        a: Ending,
        b: Ending,
    ) -> Result<(), LedgerFault>
        requires { filters ≤ MAX_FILTERS }
        ensures { (entries : List Entry) → IsTallyOf entries tally.now
            → IsAppended (fault_of result)
            (W.contents self.old.sink) (W.contents self.new.sink)
            (W.failures self.old.sink) (W.failures self.new.sink)
            (summary_text links.now (link_counts entries) (totals_of entries) filters a b) }
    {
        self.text.clear();
        self.add_links(links, tally)?;
        push_end(&mut self.text, tally.totals(), filters, a, b)?;
        self.flush()
    }
}
