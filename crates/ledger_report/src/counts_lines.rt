//! A ledger's lines of counts, compared with what its lines of frames give.

ghost use Rattle.std.specs.Prelude.{◌≡◌, ◌≢◌, ◌+◌, ◌++◌, ℕ, List, [], codes, true, IfErr, IfOk, MatchOption, OnOk};
ghost use Rattle.std.specs.String.{string_bytes};
ghost use Rattle.vl_config.specs.Document.{VlTable};
ghost use Rattle.ledger_text.specs.declared.frame.FrameLine.{FrameLine};
ghost use Rattle.ledger_text.specs.declared.order.Counts.TheVariants as kinds;
ghost use Rattle.ledger_report.specs.Counts.{AreCountsOf};
ghost use Rattle.ledger_report.specs.CountsLines.{HasCounted, IsRightLine, Moves, TakesEnding, TakesWhere, tap_frames, tap_network, taps_in};
ghost use Rattle.ledger_report.specs.TapLines.{IsReason, IsTapLine, Said, reason_text, said_in};
ghost use Rattle.ledger_report.specs.declared.fault.Refusal.TheVariants as refusals;
ghost use Rattle.ledger_report.specs.declared.fault.WrongLine.TheVariants as wrongs;

use crate::counts::FrameCounts;
use crate::fault::{Refusal, WrongLine};
use afdx_frame::Network;
use findings::PerNetwork;
use ledger_text::Counts as CountsLine;
use std::alloc::{AllocError, Global};
use std::fmt::Write;
use verdict_ledger::{push_filter, push_link, push_total};
use vl_config::Config;

/// How a recording ends.
#[derive(Clone, Copy, PartialEq, Eq)]
pub enum TapEnd {
    /// After a frame.
    Clean,
    /// Within a frame.
    Cut,
    /// It isn't read on.
    Bad,
}

/// How a recording ends, and after how many frames.
#[derive(Drop)]
pub struct TapEnding {
    pub end: TapEnd,
    pub frames: u64,
    /// Why it isn't read on: a word of the ledger, empty where the recording ends clean or cut.
    pub reason: String,
}

/// The longest reason that is taken.
const MAX_REASON: usize = 32;

/// Which lines of counts stood so far.
#[derive(Drop)]
pub struct CountsLines {
    links: usize,
    /// How many lines of links stood before the line of counts that came last.
    pub(crate) links_before: usize,
    filters: usize,
    pub endings: PerNetwork<Option<TapEnding>>,
    pub whole: bool,
    text: Vec<u8>,
}

/// The rest after the words that are expected.
fn after<'a>(line: &'a [u8], words: &str) -> Option<&'a [u8]>
    ensures { MatchOption result ((rest : List ℕ) → line.now ≡ words.now ++ rest → ⊥)
        (λ rest. line.now ≡ words.now ++ rest.now) }
{
    line.strip_prefix(words.as_bytes())
}

/// The text before the newline at the end.
fn before_newline(text: &[u8]) -> Option<&[u8]>
    ensures { MatchOption result ((front : List ℕ) → text.now ≢ front ++ codes "\n")
        (λ front. text.now ≡ front.now ++ codes "\n") }
{
    text.strip_suffix("\n".as_bytes())
}

impl CountsLines {
    pub(crate) fn new(alloc: Global) -> CountsLines
        ensures { HasCounted [] result }
    {
        CountsLines {
            links: 0,
            links_before: 0,
            filters: 0,
            endings: PerNetwork { a: None, b: None },
            whole: false,
            text: Vec::new(alloc),
        }
    }

    /// Compares a line with the text that was made, which ends in a newline.
    fn compare(&self, line: &[u8]) -> Result<(), Refusal>
        ensures same { OnOk result (self.now.text.items ≡ line.now ++ codes "\n") }
        ensures differs { IfErr result (λ refusal. (refusal ≡ refusals.Wrong wrongs.Counts)
            × (self.now.text.items ≢ line.now ++ codes "\n")) }
    {
        let Some(text) = before_newline(&self.text) else {
            return Err(Refusal::Wrong(WrongLine::Counts));
        };
        if text == line {
            Ok(())
        } else {
            Err(Refusal::Wrong(WrongLine::Counts))
        }
    }

    /// Takes the next line of counts, which is refused where it isn't that of the lines before it.
    pub(crate) fn take(
        &mut self,
        alloc: Global,
        config: &Config,
        counts: &FrameCounts,
        kind: CountsLine,
        line: &[u8],
    ) -> Result<(), Refusal>
        ensures right { (lines : List FrameLine) → AreCountsOf lines counts.now
            → TakesWhere (IsRightLine config.now lines self.old.links self.old.filters
            (taps_in self.old.endings) kind line.now) result }
        ensures moves { OnOk result ((lines : List FrameLine) → AreCountsOf lines counts.now
            → Moves lines kind line.now self.old self.new) }
    {
        self.text.clear();
        self.links_before = self.links;
        match kind {
            CountsLine::Link => self.take_link(config, counts, line),
            CountsLine::Filter => self.take_filter(config, counts, line),
            CountsLine::Tap => self.take_tap(alloc, config, counts, line),
            CountsLine::Total => self.take_total(counts, line),
        }
    }

    fn take_link(
        &mut self,
        config: &Config,
        counts: &FrameCounts,
        line: &[u8],
    ) -> Result<(), Refusal>
        requires { self.old.text.items ≡ [] }
        ensures place { OnOk result (self.new.links ≡ self.old.links + 1) }
        ensures right { (lines : List FrameLine) → AreCountsOf lines counts.now
            → TakesWhere (IsRightLine config.now lines self.old.links self.old.filters
            (taps_in self.old.endings) kinds.Link line.now) result }
        ensures rest { self.new ≡ record self.old { links = self.new.links; text = self.new.text } }
    {
        let Some(link) = config.links().get(self.links) else {
            return Err(Refusal::Wrong(WrongLine::Counts));
        };
        self.links = self.links.saturating_add(1);
        let of_link = counts.link(link.id);
        push_link(&mut self.text, link, of_link)?;
        self.compare(line)
    }

    fn take_filter(
        &mut self,
        config: &Config,
        counts: &FrameCounts,
        line: &[u8],
    ) -> Result<(), Refusal>
        requires { self.old.text.items ≡ [] }
        ensures place { OnOk result (self.new.filters ≡ self.old.filters + 1) }
        ensures right { (lines : List FrameLine) → AreCountsOf lines counts.now
            → TakesWhere (IsRightLine config.now lines self.old.links self.old.filters
            (taps_in self.old.endings) kinds.Filter line.now) result }
        ensures rest { self.new ≡ record self.old { filters = self.new.filters; text = self.new.text } }
    {
        let filter = self.filters;
        let missing = self.links < config.links().len();
        let Some(accepted) = counts.filters().get(filter) else {
            return Err(Refusal::Wrong(WrongLine::Counts));
        };
        if missing || filter > config.filters().len() {
            return Err(Refusal::Wrong(WrongLine::Counts));
        }
        self.filters = filter.saturating_add(1);
        push_filter(&mut self.text, filter, *accepted)?;
        self.compare(line)
    }

    fn take_tap(
        &mut self,
        alloc: Global,
        config: &Config,
        counts: &FrameCounts,
        line: &[u8],
    ) -> Result<(), Refusal>
        ensures right { (lines : List FrameLine) → AreCountsOf lines counts.now
            → TakesWhere (IsRightLine config.now lines self.old.links self.old.filters
            (taps_in self.old.endings) kinds.Tap line.now) result }
        ensures endings { OnOk result ((lines : List FrameLine) → AreCountsOf lines counts.now
            → TakesEnding (tap_network (taps_in self.old.endings))
            (tap_frames lines (tap_network (taps_in self.old.endings))) line.now
            self.old.endings self.new.endings) }
        ensures rest { self.new ≡ record self.old { endings = self.new.endings } }
    {
        let network = if self.endings.a.is_none() {
            Network::A
        } else {
            Network::B
        };
        let frames = counts.network(network).frames;
        let complete = self.filters > config.filters().len() && self.endings.b.is_none();
        match ending_of(alloc, network, frames, line)? {
            Some(ending) if complete => {
                put_ending(&mut self.endings, network, ending);
                Ok(())
            }
            _ => Err(Refusal::Wrong(WrongLine::Counts)),
        }
    }

    fn take_total(&mut self, counts: &FrameCounts, line: &[u8]) -> Result<(), Refusal>
        requires { self.old.text.items ≡ [] }
        ensures whole { OnOk result (self.new.whole ≡ true) }
        ensures right { (table : VlTable) (lines : List FrameLine) → AreCountsOf lines counts.now
            → TakesWhere (IsRightLine table lines self.old.links self.old.filters
            (taps_in self.old.endings) kinds.Total line.now) result }
        ensures rest { self.new ≡ record self.old { whole = self.new.whole; text = self.new.text } }
    {
        if self.endings.b.is_none() {
            return Err(Refusal::Wrong(WrongLine::Counts));
        }
        self.whole = true;
        push_total(&mut self.text, counts.all())?;
        self.compare(line)
    }
}

/// Makes the ending of a network known.
fn put_ending(endings: &mut PerNetwork<Option<TapEnding>>, network: Network, ending: TapEnding)
    ensures { (frames : ℕ) (line : List ℕ) → IsTapLine network frames (said_in ending) line
        → TakesEnding network frames line endings.old endings.new }
{
    match network {
        Network::A => endings.a = Some(ending),
        Network::B => endings.b = Some(ending),
    }
}

/// The ending that a line `tap` says of this network, which has so many frames.
fn ending_of(
    alloc: Global,
    network: Network,
    frames: u64,
    line: &[u8],
) -> Result<Option<TapEnding>, AllocError>
    ensures { IfOk result (λ ending. MatchOption ending
        ((said : Said) → IsTapLine network frames said line.now → ⊥)
        (λ ending. IsTapLine network frames (said_in ending) line.now)) }
{
    let start = match network {
        Network::A => "tap A ",
        Network::B => "tap B ",
    };
    let Some(said) = after(line, start) else {
        return Ok(None);
    };
    let (end, rest) = if let Some(rest) = after(said, "clean ") {
        (TapEnd::Clean, rest)
    } else if let Some(rest) = after(said, "cut ") {
        (TapEnd::Cut, rest)
    } else if let Some(rest) = after(said, "bad ") {
        (TapEnd::Bad, rest)
    } else {
        return Ok(None);
    };
    let mut number = String::new(alloc);
    write!(number, "{frames}")?;
    let Some(rest) = after(rest, number.as_str()) else {
        return Ok(None);
    };
    Ok(reason_of(alloc, rest, end)?.map(|reason| TapEnding {
        end,
        frames,
        reason,
    }))
}

/// The reason after a number: a space and a word in lower case where the recording is bad, else nothing.
fn reason_of(alloc: Global, rest: &[u8], end: TapEnd) -> Result<Option<String>, AllocError>
    ensures { IfOk result (λ reason. MatchOption reason
        ((word : List ℕ) → IsReason end word → rest.now ≡ reason_text end word → ⊥)
        (λ reason. IsReason end (string_bytes reason)
        × (rest.now ≡ reason_text end (string_bytes reason)))) }
{
    let reason = match (end, rest) {
        (TapEnd::Bad, [b' ', word @ ..]) if !word.is_empty() => word,
        (TapEnd::Clean | TapEnd::Cut, []) => rest,
        _ => return Ok(None),
    };
    if reason.len() > MAX_REASON || !reason.iter().all(u8::is_ascii_lowercase) {
        return Ok(None);
    }
    match str::from_utf8(reason) {
        Ok(text) => Ok(Some(String::from_str(alloc, text)?)),
        Err(_) => Ok(None),
    }
}
