//! How many lines say what: all of them, those of each network and those of each link of the table.

ghost use Rattle.std.specs.Prelude.{◌≡◌, ◌<◌, List, [], ◌∷◌, ◌++◌, ℕ, length, slice_index, IfOk};
ghost use Rattle.ledger_text.specs.declared.bounds.TheConstants.{MAX_LINES};
ghost use Rattle.ledger_text.specs.declared.frame.FrameLine.{FrameLine};
ghost use Rattle.ledger_report.specs.Counts.{counts_of, filter_count, is_on, network_counts};
ghost use Rattle.verdict_ledger.specs.declared.bounds.TheConstants.{MAX_FILTERS};

use afdx_frame::{Network, VlId};
use ledger_text::FrameLine;
use std::alloc::{AllocError, Global};
use verdict_ledger::{LinkCounts, MAX_FILTERS, Tally, Totals};

/// The counts of all lines, of each network's, of each link's and of each filter's.
#[derive(Drop)]
pub struct FrameCounts {
    tally: Tally,
    a: Totals,
    b: Totals,
}

impl FrameCounts {
    ghost use Rattle.ledger_report.specs.Counts.{AreCountsOf, link_counts};

    pub(crate) fn new(alloc: Global) -> Result<FrameCounts, AllocError>
        ensures { IfOk result (AreCountsOf []) }
    {
        Ok(FrameCounts {
            tally: Tally::new(alloc)?,
            a: Totals::new(),
            b: Totals::new(),
        })
    }

    /// The counts of all lines.
    pub fn all(&self) -> &Totals
        ensures { (lines : List FrameLine) → AreCountsOf lines self.now → result.now ≡ counts_of lines }
    {
        self.tally.totals()
    }

    /// The counts of a network's lines.
    pub fn network(&self, network: Network) -> &Totals
        ensures { (lines : List FrameLine) → AreCountsOf lines self.now
            → result.now ≡ network_counts lines network }
    {
        match network {
            Network::A => &self.a,
            Network::B => &self.b,
        }
    }

    /// The counts of a link's lines of class `toolong` or `regular`.
    pub fn link(&self, id: VlId) -> &LinkCounts
        ensures { (lines : List FrameLine) → AreCountsOf lines self.now
            → result.now ≡ link_counts lines id.0 }
    {
        self.tally.link(id)
    }

    /// How many frames each filter accepts.
    pub fn filters(&self) -> &[u64]
        ensures count { length result.now ≡ 8 }
        ensures each { (lines : List FrameLine) (filter : ℕ) → AreCountsOf lines self.now → filter < 8
            → slice_index result.now filter ≡ filter_count lines filter }
    {
        slice_of(&self.tally.totals().filters)
    }

    /// Counts one more line, of no more than a ledger may have.
    #[inline]
    pub(crate) fn count(&mut self, line: &FrameLine)
        ensures { (lines : List FrameLine) → length lines < MAX_LINES → AreCountsOf lines self.old
            → AreCountsOf (lines ++ line.now ∷ []) self.new }
    {
        self.tally
            .count_by(line.link, &line.verdict, line.kept, line.mask);
        count_on(&mut self.a, Network::A, line);
        count_on(&mut self.b, Network::B, line);
    }
}

/// Counts one more line, where it is on this network.
#[inline]
fn count_on(counts: &mut Totals, network: Network, line: &FrameLine)
    ensures { (lines : List FrameLine) → length lines < MAX_LINES
        → counts.old ≡ network_counts lines network
        → counts.new ≡ network_counts (lines ++ line.now ∷ []) network }
{
    if is_on(network, line) {
        counts.count(&line.verdict, line.kept, line.mask);
    }
}

/// The counts of all filters.
#[inline(always)]
fn slice_of(filters: &[u64; MAX_FILTERS]) -> &[u64]
    ensures count { length result.now ≡ MAX_FILTERS }
    ensures same { result.now ≡ filters.now }
{
    filters.as_slice()
}

/// Is the line on this network?
#[inline(always)]
pub(crate) fn is_on(network: Network, line: &FrameLine) -> bool
    ensures { result ≡ is_on network line.now }
{
    match (network, line.network) {
        (Network::A, Network::A) | (Network::B, Network::B) => true,
        _ => false,
    }
}
