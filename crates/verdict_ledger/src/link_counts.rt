//! The counts of a line `link`, and which verdicts count in which column.
ghost use Rattle.std.specs.Prelude.{◌≡◌, ◌+◌, ◌<◌, List, [], ◌∷◌, ◌++◌, length, cond};
ghost use Rattle.verdict_ledger.specs.Entry.{Entry};
ghost use Rattle.vl_judge.specs.Judgement.{is_excess, is_out, is_copy, is_delivered};
ghost use Rattle.verdict_ledger.specs.Tally.{counts_of, is_class};
ghost use Rattle.verdict_ledger.specs.declared.bounds.TheConstants.{MAX_LINES};

use vl_config::Class;
use vl_judge::Verdict;

/// The counts of the frames of a link that are too long or regular. `frames` is the sum of all from
/// `toolong` to `delivered`.
#[derive(Clone, Copy, Debug, PartialEq, Eq)]
pub struct LinkCounts {
    /// All frames.
    pub frames: u64,
    /// The frames that a filter accepts. The line doesn't say them.
    pub accepted: u64,
    /// The frames of the class `TooLong`.
    pub toolong: u64,
    /// The frames that policing drops.
    pub excess: u64,
    /// The frames that integrity checking drops.
    pub out: u64,
    /// The second ones of pairs, which redundancy management drops.
    pub copy: u64,
    /// The frames that are delivered.
    pub delivered: u64,
}

impl LinkCounts {
    /// The counts of no frame.
    #[tactic(auto, unfolding(crate::specs::Tally::counts_of))]
    pub fn new() -> LinkCounts
        ensures { result ≡ counts_of [] }
    {
        LinkCounts {
            frames: 0,
            accepted: 0,
            toolong: 0,
            excess: 0,
            out: 0,
            copy: 0,
            delivered: 0,
        }
    }

    /// Counts one more frame, which has this verdict, and of which a filter keeps so many bytes.
    #[inline]
    pub fn count(&mut self, verdict: &Verdict, keep: Option<u32>)
        ensures { (entries : List Entry) (e : Entry) → length entries < MAX_LINES
            → verdict.now ≡ e.verdict → keep ≡ e.keep → self.old ≡ counts_of entries
            → self.new ≡ counts_of (entries ++ e ∷ []) }
    {
        count_where(&mut self.frames, true);
        count_where(&mut self.accepted, keep.is_some());
        count_where(&mut self.toolong, is_class(Class::TooLong, verdict.class));
        count_where(&mut self.excess, verdict.is_excess());
        count_where(&mut self.out, verdict.is_out());
        count_where(&mut self.copy, verdict.is_copy());
        count_where(&mut self.delivered, verdict.is_delivered());
    }
}

/// The count, and one more where a frame counts. It never comes near 2^64: a ledger has at most
/// [`MAX_LINES`](crate::MAX_LINES) lines.
#[inline(always)]
pub fn plus(count: u64, counts: bool) -> u64
    ensures { count < MAX_LINES → result ≡ count + cond counts 1 0 }
{
    count.saturating_add(u64::from(counts))
}

/// Counts one more where a frame counts, and writes nothing where it doesn't.
#[inline(always)]
pub fn count_where(count: &mut u64, counts: bool)
    ensures { count.old < MAX_LINES → count.new ≡ count.old + cond counts 1 0 }
{
    if counts {
        *count = plus(*count, true);
    }
}

/// Is it this class?
#[inline(always)]
pub fn is_class(class: Class, other: Class) -> bool
    ensures { result ≡ is_class class other }
{
    class == other
}
