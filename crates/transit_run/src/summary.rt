//! The counts at the end of a ledger of transits.

use crate::counts::LinkCounts;
use crate::lane::Lane;
use crate::latency::Latency;
use crate::line::TransitOrDash;
use crate::outcome::{Fate, Origin};
use crate::tally::Tally;
use std::alloc::AllocError;
use vl_config::Link;

/// The outcomes of frames that went in, as the lines of counts order them.
const FATES: [Fate; 10] = [
    Fate::Passed,
    Fate::Slow,
    Fate::Overtaken,
    Fate::Changed,
    Fate::Lax,
    Fate::Leak,
    Fate::Dropped,
    Fate::Refused,
    Fate::Unrouted,
    Fate::Open,
];

/// The outcomes of frames that came out, likewise.
const ORIGINS: [Origin; 4] = [Origin::Twice, Origin::New, Origin::Elsewhere, Origin::Open];

fn write_fates(text: &mut String, tally: &Tally) -> Result<(), AllocError> {
    for fate in FATES {
        let word = fate.word();
        let count = tally.fates(fate);
        write!(text, " {word} {count}")?;
    }
    Ok(())
}

fn write_origins(text: &mut String, tally: &Tally) -> Result<(), AllocError> {
    for origin in ORIGINS {
        let word = origin.word();
        let count = tally.origins(origin);
        write!(text, " {word} {count}")?;
    }
    Ok(())
}

/// Writes the counts of a link.
fn write_link(text: &mut String, link: &Link, tally: &Tally) -> Result<(), AllocError> {
    let (id, name) = (link.id.0, link.name.as_str());
    let (before, after) = (tally.before, tally.after);
    write!(text, "link {id} {name} before {before}")?;
    write_fates(text, tally)?;
    write!(text, " after {after}")?;
    write_origins(text, tally)?;
    writeln!(text)
}

/// Writes the transits of some frames, after what the line says of which.
fn write_latency(text: &mut String, latency: &Latency) -> Result<(), AllocError> {
    let (count, sum) = (latency.count, latency.sum);
    let least = TransitOrDash(latency.range.map(|range| range.0));
    let greatest = TransitOrDash(latency.range.map(|range| range.1));
    let (p50, p99) = (
        TransitOrDash(latency.rank(500)),
        TransitOrDash(latency.rank(990)),
    );
    let p999 = TransitOrDash(latency.rank(999));
    write!(text, " count {count} sum {sum} least {least}")?;
    writeln!(text, " p50 {p50} p99 {p99} p999 {p999} greatest {greatest}")
}

/// Writes the counts and the transits of each link, and all transits.
pub(crate) fn write_links(
    text: &mut String,
    links: &[Link],
    counts: &[LinkCounts],
    lanes: &[Lane],
    all: &Latency,
) -> Result<(), AllocError> {
    for ((link, counts), lane) in links.iter().zip(counts).zip(lanes) {
        write_link(text, link, &counts.tally)?;
        let id = link.id.0;
        write!(text, "latency {id}")?;
        write_latency(text, &lane.latency)?;
    }
    write!(text, "latency all")?;
    write_latency(text, all)
}

/// Writes the counts of all frames, and with them the ledger's last line.
pub(crate) fn write_total(text: &mut String, tally: &Tally) -> Result<(), AllocError> {
    let (before, after, choices) = (tally.before, tally.after, tally.choices);
    let lines = tally.lines();
    let (in_cut, out_cut) = (tally.fates(Fate::Cut), tally.origins(Origin::Cut));
    write!(text, "total frames {lines} before {before} cut {in_cut}")?;
    write_fates(text, tally)?;
    write!(text, " after {after} cut {out_cut}")?;
    write_origins(text, tally)?;
    writeln!(text, " choice {choices}")
}
