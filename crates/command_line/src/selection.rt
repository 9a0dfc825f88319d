//! The selection of a ledger's lines, from the texts of the options.
ghost use Rattle.std.specs.Prelude.{◌≡◌, IfErr, IfOk, Ok, false, option_map};
ghost use Rattle.std.specs.Option.{option_copied};
ghost use Rattle.command_line.specs.Numbers.{text_of};
ghost use Rattle.command_line.specs.declared.fault.Fault.TheVariants as faults;
ghost use Rattle.command_line.specs.declared.fault.SelectionOption.TheVariants as options;
ghost use Rattle.command_line.specs.Selections.{AreLinks, IsLinksFault, IsMask, IsMaskFault, IsSelectionFault, IsSpan, IsSpanFault, IsWordsFault, ends_before, first_in, first_of, first_of_day, is_within_day, last_after, last_in, last_of, last_of_day, network_in, words_in};

use crate::arguments::CutArguments;
use crate::fault::{Fault, SelectionOption};
use crate::moment::{MomentText, read_moment, read_span};
use afdx_frame::{Network, Stamp};
use cut_run::CutFault;
use ledger_text::{
    LinkSet, LinkSetFault, Moment, Selection, Word, WordFault, read_mask, read_words, until_of_day,
};
use std::alloc::Global;
use vl_config::Config;

/// There is no memory for a selection.
const NO_SELECTION: Fault = Fault::Cut(CutFault::Memory);

/// An item of an option's text that is none of the option's.
fn wrong(option: SelectionOption, item: usize) -> Fault
    ensures { result ≡ faults.Selection option item }
{
    Fault::Selection { option, item }
}

/// The links of `--link`.
fn links_of(
    alloc: Global,
    text: Option<&str>,
    config: Option<&Config>,
) -> Result<Option<LinkSet>, Fault>
    ensures links { IfOk result
        (AreLinks (option_copied config.entry) (option_map text_of text.entry)) }
    ensures fault { IfErr result
        (IsLinksFault (option_copied config.entry) (option_map text_of text.entry)) }
{
    let Some(text) = text else {
        return Ok(None);
    };
    match LinkSet::read(alloc, text, config) {
        Ok(links) => Ok(Some(links)),
        Err(LinkSetFault::Item(item, _)) => Err(wrong(SelectionOption::Link, item)),
        Err(LinkSetFault::Memory) => Err(NO_SELECTION),
    }
}

/// The network of `--network`, whose letter is one of two.
fn network_of(text: Option<&str>) -> Option<Network>
    ensures { result ≡ option_map network_in (option_map text_of text.entry) }
{
    match text {
        Some("A") => Some(Network::A),
        Some(_) => Some(Network::B),
        None => None,
    }
}

/// The words of `--verdict`.
fn words_of(alloc: Global, text: Option<&str>) -> Result<Option<Vec<Word>>, Fault>
    ensures words { IfOk result (λ words. option_map (λ held. held.items) words
        ≡ option_map words_in (option_map text_of text.entry)) }
    ensures fault { IfErr result (IsWordsFault (option_map text_of text.entry)) }
{
    let Some(text) = text else {
        return Ok(None);
    };
    match read_words(alloc, text) {
        Ok(words) => Ok(Some(words)),
        Err(WordFault::Item(item)) => Err(wrong(SelectionOption::Verdict, item)),
        Err(WordFault::Memory) => Err(NO_SELECTION),
    }
}

/// The length of a day, in nanoseconds.
const DAY: u64 = 86_400_000_000_000;

/// The end of a span of time.
#[derive(Clone, Copy, PartialEq, Eq)]
pub(crate) enum Last {
    /// Nothing.
    Open,
    /// The moment of `--to`.
    At(MomentText),
    /// The length of `--span`, in nanoseconds.
    After(u64),
}

/// Reads `--from`.
fn first_text(text: Option<&str>) -> Result<Option<MomentText>, Fault>
    ensures { result ≡ first_in (option_map text_of text.entry) }
{
    let Some(text) = text else {
        return Ok(None);
    };
    match read_moment(text) {
        Some(moment) => Ok(Some(moment)),
        None => Err(wrong(SelectionOption::From, 0)),
    }
}

/// Reads `--to` and `--span`, of which one is given at most.
fn last_text(to: Option<&str>, span: Option<&str>) -> Result<Last, Fault>
    ensures { result ≡ last_in (option_map text_of to.entry) (option_map text_of span.entry) }
{
    if let Some(text) = to {
        return match read_moment(text) {
            Some(moment) => Ok(Last::At(moment)),
            None => Err(wrong(SelectionOption::To, 0)),
        };
    }
    let Some(text) = span else {
        return Ok(Last::Open);
    };
    match read_span(text) {
        Some(length) => Ok(Last::After(length)),
        None => Err(wrong(SelectionOption::Span, 0)),
    }
}

/// True if the end of a span lies before its start: of two timestamps, or two times after the ledger's first
/// frame, the later one stands first.
fn ends_before(from: Option<MomentText>, last: Last) -> bool
    ensures { result ≡ ends_before from last }
{
    match (from, last) {
        (Some(MomentText::At(from)), Last::At(MomentText::At(to))) => to < from,
        (Some(MomentText::Since(from)), Last::At(MomentText::Since(to))) => to < from,
        _ => false,
    }
}

/// Is a time of day so much later on the same day?
fn is_within_day(from: u64, length: u64) -> bool
    ensures { result ≡ is_within_day from length }
{
    from.saturating_add(length) < DAY
}

/// The first moment of a span from a time of day on, on the day of the ledger's first frame. Where a span
/// within a day is over before that frame, it is the next day's. A span whose end isn't told by a time of day
/// or a length begins at the first such moment from twelve hours before that frame on.
fn first_of_day(from: u64, last: Last) -> Moment
    ensures { result ≡ first_of_day from last }
{
    match last {
        Last::At(MomentText::OfDay(to)) if from <= to => Moment::Next {
            of_day: to,
            after: 0,
            before: to - from,
        },
        Last::After(length) if is_within_day(from, length) => Moment::Next {
            of_day: from.saturating_add(length),
            after: 0,
            before: length,
        },
        Last::At(MomentText::OfDay(_)) | Last::After(_) => Moment::OfDay(from),
        Last::Open | Last::At(_) => Moment::Near(from),
    }
}

/// The first moment of a span.
fn first_of(from: Option<MomentText>, last: Last) -> Option<Moment>
    ensures { result ≡ first_of from last }
{
    match from? {
        MomentText::At(nanoseconds) => Some(Moment::At(Stamp(nanoseconds))),
        MomentText::Since(after) => Some(Moment::Since(after)),
        MomentText::OfDay(since) => Some(first_of_day(since, last)),
    }
}

/// The last moment of a span that ends at a time of day: the first such moment that isn't earlier than the
/// span's first moment, or where there is none than the ledger's first frame.
fn last_of_day(from: Option<MomentText>, to: u64) -> Moment
    ensures { result ≡ last_of_day from to }
{
    let after = match from {
        Some(MomentText::At(from)) => {
            let wait = until_of_day(u128::from(from), to);
            return Moment::At(Stamp(from.saturating_add(wait)));
        }
        Some(MomentText::OfDay(from)) if to < from => {
            return Moment::OfDay(to.saturating_add(DAY));
        }
        Some(MomentText::Since(after)) => after,
        Some(MomentText::OfDay(_)) | None => 0,
    };
    Moment::Next {
        of_day: to,
        after,
        before: 0,
    }
}

/// The last moment of a span of this length.
fn last_after(from: Option<MomentText>, length: u64) -> Moment
    ensures { result ≡ last_after from length }
{
    match from {
        None => Moment::Since(length),
        Some(MomentText::At(from)) => Moment::At(Stamp(from.saturating_add(length))),
        Some(MomentText::Since(after)) => Moment::Since(after.saturating_add(length)),
        Some(MomentText::OfDay(from)) if is_within_day(from, length) => Moment::Next {
            of_day: from.saturating_add(length),
            after: 0,
            before: 0,
        },
        Some(MomentText::OfDay(from)) => Moment::OfDay(from.saturating_add(length)),
    }
}

/// The last moment of a span.
fn last_of(from: Option<MomentText>, last: Last) -> Option<Moment>
    ensures { result ≡ last_of from last }
{
    match last {
        Last::Open => None,
        Last::At(MomentText::At(nanoseconds)) => Some(Moment::At(Stamp(nanoseconds))),
        Last::At(MomentText::Since(after)) => Some(Moment::Since(after)),
        Last::At(MomentText::OfDay(to)) => Some(last_of_day(from, to)),
        Last::After(length) => Some(last_after(from, length)),
    }
}

/// The moments of `--from`, `--to` and `--span`.
fn span_of(
    from: Option<&str>,
    to: Option<&str>,
    span: Option<&str>,
) -> Result<(Option<Moment>, Option<Moment>), Fault>
    ensures span { IfOk result (λ found. IsSpan (option_map text_of from.entry)
        (option_map text_of to.entry) (option_map text_of span.entry) found.0 found.1) }
    ensures fault { IfErr result (IsSpanFault (option_map text_of from.entry)
        (option_map text_of to.entry) (option_map text_of span.entry)) }
{
    let first = first_text(from)?;
    let last = last_text(to, span)?;
    if ends_before(first, last) {
        return Err(wrong(SelectionOption::To, 0));
    }
    Ok((first_of(first, last), last_of(first, last)))
}

/// The mask of `--filters`.
fn filters_of(text: Option<&str>) -> Result<Option<u8>, Fault>
    ensures mask { IfOk result (IsMask (option_map text_of text.entry)) }
    ensures fault { IfErr result (IsMaskFault (option_map text_of text.entry)) }
{
    let Some(text) = text else {
        return Ok(None);
    };
    match read_mask(text) {
        Some(mask) => Ok(Some(mask)),
        None => Err(wrong(SelectionOption::Filters, 0)),
    }
}

/// The selection of the arguments of `cut`. The table has the names of links, where there is one.
///
/// # Errors
///
/// `Selection` of the first option, in the order of `--link`, `--verdict`, `--from`, `--to`, `--span` and
/// `--filters`, whose text has a wrong item, or of `--to` where it lies before `--from`; `Cut(Memory)` for
/// the links or the words. `--span` counts only where there is no `--to`.
pub fn selection_of(
    alloc: Global,
    given: &CutArguments<'_>,
    config: Option<&Config>,
) -> Result<Selection, Fault>
    ensures links { IfOk result (λ selection. AreLinks (option_copied config.entry)
        (option_map text_of given.now.link) selection.links) }
    ensures network { IfOk result (λ selection. selection.network
        ≡ option_map network_in (option_map text_of given.now.network)) }
    ensures words { IfOk result (λ selection. option_map (λ held. held.items) selection.words
        ≡ option_map words_in (option_map text_of given.now.verdict)) }
    ensures span { IfOk result (λ selection. IsSpan (option_map text_of given.now.from)
        (option_map text_of given.now.to) (option_map text_of given.now.span)
        selection.from selection.to) }
    ensures filters { IfOk result (λ selection. IsMask
        (option_map text_of given.now.filters) selection.filters) }
    ensures fault { IfErr result
        (IsSelectionFault (option_copied config.entry) given.now) }
{
    let links = links_of(alloc, given.link, config)?;
    let words = words_of(alloc, given.verdict)?;
    let (from, to) = span_of(given.from, given.to, given.span)?;
    Ok(Selection {
        links,
        network: network_of(given.network),
        words,
        from,
        to,
        filters: filters_of(given.filters)?,
    })
}
