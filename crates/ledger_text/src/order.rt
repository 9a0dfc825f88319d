//! Which lines a ledger has, and in which order.
ghost use Rattle.std.specs.Prelude.{◌≡◌, ◌≢◌, MatchOption};
ghost use Rattle.std.specs.Bool.{MatchBool};
ghost use Rattle.verdict_ledger.specs.declared.version.LedgerVersion.{LedgerVersion};
ghost use Rattle.ledger_text.specs.Reads.{Any, Reads};
ghost use Rattle.ledger_text.specs.Order.{IsLineRead, counts_word, head_line, may_follow};
ghost use Rattle.ledger_text.specs.Fields.{fields_of, first_field};

use crate::fault::LineFault;
use crate::fields::Fields;
use crate::frame::{FrameLine, read_frame};
use verdict_ledger::LedgerVersion;

/// The lines of counts, by their first word, in the order in which they stand.
#[derive(Clone, Copy, Debug, PartialEq, Eq)]
pub enum Counts {
    /// `link`: the counts of a virtual link.
    Link,
    /// `filter`: how many frames a filter accepts.
    Filter,
    /// `tap`: how a recording ends.
    Tap,
    /// `total`: the counts of all frames. Nothing follows it.
    Total,
}

/// The stages of a ledger, by what stands before the next line.
#[derive(Clone, Copy, PartialEq, Eq)]
pub enum LedgerStage {
    /// Nothing: the head is next.
    Head,
    /// The head, or the line of a frame, of a ledger of this version.
    Frames(LedgerVersion),
    /// A line of counts.
    Counts(Counts),
}

/// A line of a ledger.
#[derive(Clone, Copy, PartialEq, Eq)]
pub enum LedgerLine {
    /// The head, of this version.
    Head(LedgerVersion),
    /// The line of a frame.
    Frame(FrameLine),
    /// A line of counts.
    Counts(Counts),
}

/// The line of counts that begins with this word.
#[inline]
fn counts_of(word: &[u8]) -> Option<Counts>
    ensures { Reads Any counts_word word.now result }
{
    match word {
        b"link" => Some(Counts::Link),
        b"filter" => Some(Counts::Filter),
        b"tap" => Some(Counts::Tap),
        b"total" => Some(Counts::Total),
        _ => None,
    }
}

/// May such a line stand after that one?
#[inline]
fn may_follow(last: Counts, next: Counts) -> bool
    ensures { result ≡ may_follow last next }
{
    match (last, next) {
        (Counts::Link, _) => true,
        (Counts::Filter, Counts::Filter | Counts::Tap | Counts::Total) => true,
        (Counts::Tap, Counts::Tap | Counts::Total) => true,
        _ => false,
    }
}

/// The first field of a line.
#[inline]
fn first_word(line: &[u8]) -> &[u8]
    ensures { result.now ≡ first_field (fields_of line.now) }
{
    Fields::new(line).next()
}

/// Is this the head of a ledger of this version?
#[inline]
fn is_head(line: &[u8], version: LedgerVersion) -> bool
    ensures { MatchBool result (line.now ≡ head_line version) (line.now ≢ head_line version) }
{
    match version {
        LedgerVersion::Two => line == b"afdx-ledger 2".as_slice(),
        LedgerVersion::Three => line == b"afdx-ledger 3".as_slice(),
    }
}

/// The version of the ledger whose head this is.
#[inline]
#[tactic(auto, using(crate::proofs::Heads::no_head))]
fn version_of(line: &[u8]) -> Option<LedgerVersion>
    ensures { MatchOption result ((version : LedgerVersion) → line.now ≢ head_line version)
        (λ version. line.now ≡ head_line version) }
{
    if is_head(line, LedgerVersion::Two) {
        Some(LedgerVersion::Two)
    } else if is_head(line, LedgerVersion::Three) {
        Some(LedgerVersion::Three)
    } else {
        None
    }
}

/// Reads a line, without its newline, that stands at this place.
#[inline(always)]
pub fn read_line(stage: LedgerStage, line: &[u8]) -> Result<LedgerLine, LineFault>
    ensures { IsLineRead stage line.now result }
{
    match stage {
        LedgerStage::Head => match version_of(line) {
            Some(version) => Ok(LedgerLine::Head(version)),
            None => Err(LineFault::Head),
        },
        LedgerStage::Frames(version) => match counts_of(first_word(line)) {
            Some(counts) => Ok(LedgerLine::Counts(counts)),
            None => match read_frame(version, line) {
                Ok(frame) => Ok(LedgerLine::Frame(frame)),
                Err(fault) => Err(LineFault::Frame(fault)),
            },
        },
        LedgerStage::Counts(last) => match counts_of(first_word(line)) {
            Some(counts) if may_follow(last, counts) => Ok(LedgerLine::Counts(counts)),
            _ => Err(LineFault::Order),
        },
    }
}
