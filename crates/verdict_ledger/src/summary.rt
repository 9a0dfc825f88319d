//! The lines after those of the frames.
ghost use Rattle.std.specs.Prelude.{◌≡◌, ◌≤◌, ◌++◌, OnOk, take, length, codes, decimal};
ghost use Rattle.verdict_ledger.specs.Text.{number_field, count_field, judged_text, classes_text, ending_text, end_text, link_line, filter_lines, filter_line, tap_line, total_line};
ghost use Rattle.verdict_ledger.specs.declared.bounds.TheConstants.{MAX_FILTERS};

use crate::link_counts::LinkCounts;
use crate::totals::Totals;
use crate::words::network_field;
use afdx_frame::Network;
use itoa::Buffer;
use pcap_io::Ending;
use std::alloc::AllocError;
use vl_config::Link;

/// Appends a number in decimal.
fn push_number(text: &mut Vec<u8>, number: u64) -> Result<(), AllocError>
    ensures { OnOk result (text.new.items ≡ text.old.items ++ decimal number) }
{
    let mut digits = Buffer::new();
    text.extend_from_slice(digits.format(number).as_bytes())
}

/// Appends a word.
fn push_word(text: &mut Vec<u8>, word: &str) -> Result<(), AllocError>
    ensures { OnOk result (text.new.items ≡ text.old.items ++ word.now) }
{
    text.extend_from_slice(word.as_bytes())
}

/// Appends a space and a number.
fn push_number_field(text: &mut Vec<u8>, number: u64) -> Result<(), AllocError>
    ensures { OnOk result (text.new.items ≡ text.old.items ++ number_field number) }
{
    push_word(text, " ")?;
    push_number(text, number)
}

/// Appends a word, and a space and a count.
#[tactic(auto, unfolding(crate::specs::Text::count_field))]
fn push_count(text: &mut Vec<u8>, word: &str, count: u64) -> Result<(), AllocError>
    ensures { OnOk result (text.new.items ≡ text.old.items ++ count_field word.now count) }
{
    push_word(text, word)?;
    push_number_field(text, count)
}

/// Appends the counts of what the judgements say, and the end of the line.
#[tactic(auto, unfolding(crate::specs::Text::judged_text))]
fn push_judged(
    text: &mut Vec<u8>,
    toolong: u64,
    excess: u64,
    out: u64,
    copy: u64,
    delivered: u64,
) -> Result<(), AllocError>
    ensures { OnOk result (text.new.items
        ≡ text.old.items ++ judged_text toolong excess out copy delivered) }
{
    push_count(text, " toolong", toolong)?;
    push_count(text, " excess", excess)?;
    push_count(text, " out", out)?;
    push_count(text, " copy", copy)?;
    push_count(text, " delivered", delivered)?;
    push_word(text, "\n")
}

/// Appends the line of a link.
#[tactic(auto, unfolding(crate::specs::Text::link_line))]
pub fn push_link(text: &mut Vec<u8>, link: &Link, counts: &LinkCounts) -> Result<(), AllocError>
    ensures { OnOk result (text.new.items ≡ text.old.items ++ link_line link.now counts.now) }
{
    push_count(text, "link", u64::from(link.id.0))?;
    push_word(text, " ")?;
    push_word(text, &link.name)?;
    push_count(text, " frames", counts.frames)?;
    push_judged(
        text,
        counts.toolong,
        counts.excess,
        counts.out,
        counts.copy,
        counts.delivered,
    )
}

/// Appends the line of a filter.
#[tactic(auto, unfolding(crate::specs::Text::filter_line))]
pub fn push_filter(text: &mut Vec<u8>, filter: usize, accepted: u64) -> Result<(), AllocError>
    ensures { OnOk result (text.new.items ≡ text.old.items ++ filter_line filter accepted) }
{
    push_count(text, "filter", filter as u64)?;
    push_count(text, " accepted", accepted)?;
    push_word(text, "\n")
}

/// Appends the lines of the first filters.
pub fn push_filters(text: &mut Vec<u8>, counts: &[u64]) -> Result<(), AllocError>
    ensures { OnOk result (text.new.items ≡ text.old.items ++ filter_lines 0 counts.now) }
{
    for (filter, accepted) in counts.iter().enumerate() {
        push_filter(text, filter, *accepted)?;
    }
    Ok(())
}

/// Appends how a recording ended.
fn push_ending(text: &mut Vec<u8>, ending: Ending) -> Result<(), AllocError>
    ensures { OnOk result (text.new.items ≡ text.old.items ++ ending_text ending) }
{
    match ending {
        Ending::Clean(frames) => push_count(text, " clean", frames),
        Ending::Cut(frames) => push_count(text, " cut", frames),
        Ending::Bad(frames, reason) => {
            push_count(text, " bad", frames)?;
            push_word(text, " ")?;
            push_word(text, reason.word())
        }
    }
}

/// Appends the line of a tap.
#[tactic(auto, unfolding(crate::specs::Text::tap_line))]
pub fn push_tap(text: &mut Vec<u8>, network: Network, ending: Ending) -> Result<(), AllocError>
    ensures { OnOk result (text.new.items ≡ text.old.items ++ tap_line network ending) }
{
    push_word(text, "tap")?;
    push_word(text, network_field(network))?;
    push_ending(text, ending)?;
    push_word(text, "\n")
}

/// Appends the counts of the frames that no judgement sees.
#[tactic(auto, unfolding(crate::specs::Text::classes_text))]
fn push_classes(text: &mut Vec<u8>, totals: &Totals) -> Result<(), AllocError>
    ensures { OnOk result (text.new.items ≡ text.old.items ++ classes_text totals.now) }
{
    push_count(text, " cut", totals.cut)?;
    push_count(text, " runt", totals.runt)?;
    push_count(text, " oversize", totals.oversize)?;
    push_count(text, " foreign", totals.foreign)?;
    push_count(text, " unconfigured", totals.unconfigured)
}

/// Appends the line of all frames.
#[tactic(auto, unfolding(crate::specs::Text::total_line))]
pub fn push_total(text: &mut Vec<u8>, totals: &Totals) -> Result<(), AllocError>
    ensures { OnOk result (text.new.items ≡ text.old.items ++ total_line totals.now) }
{
    push_count(text, "total frames", totals.frames)?;
    push_count(text, " accepted", totals.accepted)?;
    push_classes(text, totals)?;
    push_judged(
        text,
        totals.toolong,
        totals.excess,
        totals.out,
        totals.copy,
        totals.delivered,
    )
}

/// Appends the lines after those of the links.
pub fn push_end(
    text: &mut Vec<u8>,
    totals: &Totals,
    filters: u32,
    a: Ending,
    b: Ending,
) -> Result<(), AllocError>
    requires { filters ≤ MAX_FILTERS }
    ensures { OnOk result (text.new.items ≡ text.old.items ++ end_text totals.now filters a b) }
{
    push_filters(text, &totals.filters[..filters as usize])?;
    push_tap(text, Network::A, a)?;
    push_tap(text, Network::B, b)?;
    push_total(text, totals)
}
