//! The answer as text, for a person: at most some thirty lines of 80 columns; those of advice have up to 100.

use crate::advice::QuestionAdvice;
use crate::answer::{Answer, Side};
use crate::bars::push_bars;
use crate::notes::Note;
use crate::questions::Question;
use crate::words::{Counted, Length, Utc, length_of};
use command_line::{push_advice, push_wrapped};
use std::alloc::{AllocError, Global};
use std::fmt::Write;
use transit_run::{Fate, Kind, KindTally, Latency, LinkTransits, Origin, Pass};

/// How many columns a line has at most.
const COLUMNS: usize = 80;

/// How many of the slowest links are shown.
const SLOWEST: usize = 5;

/// The head of the slowest links.
const SLOWEST_HEAD: &str =
    " link slowest                  in     out   least    mean    99 %  most us\n";

/// The head of the faults.
const FAULTS_HEAD: &str = "fault        frames        first    most in a second  links\n";

/// A second, in nanoseconds.
const SECOND: u64 = 1_000_000_000;

/// How many links have frames of a fate, by a count of each.
fn links_with(pass: &Pass<'_>, fate: Fate) -> u64 {
    let mut links = 0u64;
    for place in 0..pass.link_count() {
        let has = pass
            .link(place)
            .is_some_and(|link| link.tally.fates(fate) > 0);
        links = links.saturating_add(u64::from(has));
    }
    links
}

/// How many links have frames that came of another port.
fn links_elsewhere(pass: &Pass<'_>) -> u64 {
    let mut links = 0u64;
    for place in 0..pass.link_count() {
        let has = pass
            .link(place)
            .is_some_and(|link| link.tally.origins(Origin::Elsewhere) > 0);
        links = links.saturating_add(u64::from(has));
    }
    links
}

/// Appends the head: how many frames, and which time both recordings cover.
fn push_head(out: &mut String, answer: &Answer<'_, '_>) -> Result<(), AllocError> {
    out.push_str("transit")?;
    if let Some(network) = answer.network {
        write!(out, " of network {network}")?;
    }
    let (before, after) = (answer.frames(Side::Before), answer.frames(Side::After));
    let before = Counted(before, "frame");
    writeln!(out, ": {before} in, {after} out")?;
    match answer.pass.common() {
        Some((first, last)) => {
            let common = length_of(last.saturating_sub(first));
            let (first, last) = (Utc(first), Utc(last));
            writeln!(out, "  {common} in common, from {first}\n  to {last}")
        }
        None => out.push_str("  no common time\n"),
    }
}

/// Appends what is no fault, in one sentence.
fn push_right(out: &mut String, alloc: Global, pass: &Pass<'_>) -> Result<(), AllocError> {
    let tally = pass.tally();
    let mut line = String::new(alloc);
    let (passed, refused) = (tally.fates(Fate::Passed), tally.fates(Fate::Refused));
    write!(line, "{passed} passed")?;
    if refused > 0 {
        write!(line, "; {refused} refused by the rules")?;
    }
    let unrouted = tally.fates(Fate::Unrouted);
    if unrouted > 0 {
        let links = Counted(links_with(pass, Fate::Unrouted), "link");
        write!(line, "; {unrouted} of {links} not come out so far")?;
    }
    let elsewhere = tally.origins(Origin::Elsewhere);
    if elsewhere > 0 {
        let links = Counted(links_elsewhere(pass), "link");
        write!(line, "; {elsewhere} of {links} not gone in so far")?;
    }
    let open = tally
        .fates(Fate::Open)
        .saturating_add(tally.origins(Origin::Open));
    if open > 0 {
        write!(line, "; {open} at the ends, not judged")?;
    }
    let cut = tally
        .fates(Fate::Cut)
        .saturating_add(tally.origins(Origin::Cut));
    if cut > 0 {
        write!(line, "; {cut} cut short, not judged")?;
    }
    push_wrapped(out, COLUMNS, 2, &line)
}

/// The name of a link in a row of faults.
fn push_link_name(
    out: &mut String,
    pass: &Pass<'_>,
    link: LinkTransits<'_>,
) -> Result<(), AllocError> {
    let Some(id) = link.id else {
        return out.push_str("no link");
    };
    let number = id.0;
    write!(out, "{number}")?;
    for row in pass.table().links() {
        if row.id == id {
            let name = row.name.as_str();
            write!(out, " {name}")?;
        }
    }
    Ok(())
}

/// The place of the link with the most frames of a kind, if there is one.
fn worst_link(pass: &Pass<'_>, kind: Kind) -> Option<usize> {
    let mut worst: Option<(u64, usize)> = None;
    for place in 0..pass.link_count() {
        let count = pass.link(place).map_or(0, |link| link.tally.faults(kind));
        if count > worst.map_or(0, |worst| worst.0) {
            worst = Some((count, place));
        }
    }
    worst.map(|worst| worst.1)
}

/// Appends the row of a kind of fault.
fn push_kind(
    out: &mut String,
    pass: &Pass<'_>,
    kind: Kind,
    tally: KindTally,
) -> Result<(), AllocError> {
    let start = pass.start().unwrap_or(tally.first);
    let since = tally.first.saturating_sub(start);
    let (seconds, part) = (since / SECOND, since % SECOND / 100_000);
    let (word, frames) = (kind.word(), tally.frames);
    let (most, second) = (tally.most, tally.second);
    write!(
        out,
        "{word:<10}{frames:>9} {seconds:>7}.{part:04} s {most:>8} at {second:>6} s  "
    )?;
    let links = pass.links_with(kind);
    if let Some(link) = worst_link(pass, kind).and_then(|place| pass.link(place)) {
        push_link_name(out, pass, link)?;
        if links > 1 {
            let (count, more) = (link.tally.faults(kind), links.saturating_sub(1));
            write!(out, " ({count}) and {more} more")?;
        }
    }
    out.push_str("\n")
}

/// Appends the table of faults.
fn push_faults(out: &mut String, pass: &Pass<'_>) -> Result<(), AllocError> {
    if Kind::ALL
        .iter()
        .all(|kind| pass.faults().of(*kind).is_none())
    {
        return out.push_str("faults: none\n");
    }
    out.push_str(FAULTS_HEAD)?;
    for kind in Kind::ALL {
        if let Some(tally) = pass.faults().of(kind) {
            push_kind(out, pass, kind, tally)?;
        }
    }
    Ok(())
}

/// Appends the transits of all pairs.
fn push_latency(out: &mut String, latency: &Latency, bound: Option<u64>) -> Result<(), AllocError> {
    let (Some((least, greatest)), Some(mean)) = (latency.range, latency.mean()) else {
        return Ok(());
    };
    let (least, greatest, mean) = (Length(least), Length(greatest), Length(mean));
    let most = Length(latency.rank(990).unwrap_or(0));
    let nearly_all = Length(latency.rank(999).unwrap_or(0));
    writeln!(
        out,
        "latency: least {least}, mean {mean}, 99 % {most}, 99.9 % {nearly_all},"
    )?;
    write!(out, "         greatest {greatest}")?;
    if let Some(bound) = bound {
        let (bound, over, count) = (length_of(bound), latency.over, latency.count);
        write!(out, "; above {bound}: {over} of {count}")?;
    }
    out.push_str("\n")?;
    push_bars(out, latency)
}

/// The greatest transit of a link.
fn slowness(link: Option<LinkTransits<'_>>) -> Option<i64> {
    let range = link?.latency.range?;
    Some(range.1)
}

/// The places of the slowest links, the slowest first.
fn slowest(alloc: Global, pass: &Pass<'_>) -> Result<Vec<(i64, usize)>, AllocError> {
    let mut places = Vec::new(alloc);
    for place in 1..pass.link_count() {
        if let Some(greatest) = slowness(pass.link(place)) {
            places.push((greatest.saturating_neg(), place))?;
        }
    }
    places.sort_unstable();
    places.truncate(SLOWEST);
    Ok(places)
}

/// Appends a row of the slowest links.
fn push_slow(out: &mut String, pass: &Pass<'_>, link: LinkTransits<'_>) -> Result<(), AllocError> {
    let latency = link.latency;
    let (Some((least, greatest)), Some(mean)) = (latency.range, latency.mean()) else {
        return Ok(());
    };
    let id = link.id.map_or(0, |id| id.0);
    let mut name = "-";
    for row in pass.table().links() {
        if Some(row.id) == link.id {
            name = row.name.as_str();
        }
    }
    let (went_in, came_out) = (link.tally.before, latency.count);
    let (least, mean, greatest) = (least / 1000, mean / 1000, greatest / 1000);
    let most = latency.rank(990).unwrap_or(0) / 1000;
    write!(out, "{id:>5} {name:<18.18} {went_in:>8}{came_out:>8}")?;
    writeln!(out, "{least:>8}{mean:>8}{most:>8}{greatest:>9}")
}

/// Appends the slowest links.
fn push_slowest(out: &mut String, alloc: Global, pass: &Pass<'_>) -> Result<(), AllocError> {
    let places = slowest(alloc, pass)?;
    if places.is_empty() {
        return Ok(());
    }
    out.push_str(SLOWEST_HEAD)?;
    for (_, place) in &places {
        if let Some(link) = pass.link(*place) {
            push_slow(out, pass, link)?;
        }
    }
    Ok(())
}

/// Appends the notes and the questions, with what to do below each, and whether the answer is sound.
fn push_end(
    out: &mut String,
    alloc: Global,
    questions: &[Question],
    notes: &[Note],
) -> Result<(), AllocError> {
    for note in notes {
        let mut line = String::from_str(alloc, "note: ")?;
        line.push_str(&note.text)?;
        push_wrapped(out, COLUMNS, 0, &line)?;
        push_advice(out, &note.advice)?;
    }
    for question in questions {
        let (mut line, advice) = (String::new(alloc), QuestionAdvice(question));
        write!(line, "question: {question}")?;
        push_wrapped(out, COLUMNS, 0, &line)?;
        let advice = advice.to_string(alloc)?;
        push_advice(out, &advice)?;
    }
    if questions.is_empty() {
        return out.push_str("sound: yes\n");
    }
    let count = Counted(questions.len() as u64, "question");
    writeln!(out, "sound: no, {count}")
}

/// The answer as text.
///
/// # Errors
///
/// `AllocError` if the system is out of memory.
pub fn text_of(
    alloc: Global,
    answer: &Answer<'_, '_>,
    questions: &[Question],
    notes: &[Note],
) -> Result<String, AllocError> {
    let (pass, mut out) = (answer.pass, String::new(alloc));
    push_head(&mut out, answer)?;
    push_right(&mut out, alloc, pass)?;
    push_faults(&mut out, pass)?;
    push_latency(&mut out, pass.latency(), pass.options().bound)?;
    push_slowest(&mut out, alloc, pass)?;
    push_end(&mut out, alloc, questions, notes)?;
    Ok(out)
}
