//! The section as JSON.

use crate::faults::name_of;
use afdx_frame::Network;
use report_page::Page;
use std::alloc::{AllocError, Global};
use transit_ledger::{LatencyFigures, Outcome, OutcomeCounts, TransitRun};
use transit_report::{FaultReport, LinkTransits, Silence, TransitReport};
use vl_config::Config;

/// Appends a comma before each value but the first.
fn separate(page: &mut Page, at: usize) {
    page.text(if at > 0 { "," } else { "" });
}

/// Appends a member that is a number.
fn push_number(page: &mut Page, name: &str, number: u64) {
    page.text(",\"");
    page.text(name);
    page.path(&[("\":", number)]);
}

/// Appends a member that is a number which may be below 0.
fn push_signed(page: &mut Page, name: &str, number: i64) {
    page.text(",\"");
    page.text(name);
    page.text(if number < 0 { "\":-" } else { "\":" });
    page.path(&[("", number.unsigned_abs())]);
}

/// Appends a member that is a timestamp, or null.
fn push_stamp(page: &mut Page, name: &str, stamp: Option<u64>) {
    page.text(",\"");
    page.text(name);
    match stamp {
        Some(stamp) => {
            page.path(&[("\":\"", stamp)]);
            page.text("\"");
        }
        None => page.text("\":null"),
    }
}

/// Appends how the recordings were compared.
fn push_run(page: &mut Page, run: &TransitRun) {
    page.text("{\"network\":");
    match run.network {
        Some(network) => page.quoted(network.letter()),
        None => page.text("null"),
    }
    push_number(page, "within_ns", run.within);
    push_number(page, "early_ns", run.early);
    push_signed(page, "shift_ns", run.shift);
    match run.bound {
        Some(bound) => push_number(page, "bound_ns", bound),
        None => page.text(",\"bound_ns\":null"),
    }
    page.text(",\"police\":");
    page.quoted(if run.by_frames { "frames" } else { "bytes" });
    push_number(page, "grace_ns", run.grace);
    page.text(",\"routed\":");
    push_routed(page, run);
}

/// Appends the links that are routed to the port out.
fn push_routed(page: &mut Page, run: &TransitRun) {
    let Some(routed) = &run.routed else {
        return page.text("null");
    };
    page.text("[");
    for (at, id) in routed.iter().enumerate() {
        separate(page, at);
        page.path(&[("", u64::from(id.0))]);
    }
    page.text("]");
}

/// Appends the counts of the outcomes that links have.
fn push_counts(page: &mut Page, counts: &OutcomeCounts) {
    for outcome in Outcome::ALL {
        match outcome {
            Outcome::Open | Outcome::Cut => {}
            _ => push_number(page, outcome.word(), counts.of(outcome)),
        }
    }
    push_number(page, "open_before", counts.on(Network::A, Outcome::Open));
    push_number(page, "open_after", counts.on(Network::B, Outcome::Open));
}

/// Appends how many frames there are of each outcome.
fn push_total(page: &mut Page, transit: &TransitReport) {
    let counts = &transit.counts;
    page.path(&[(",\"total\":{\"lines\":", transit.lines)]);
    push_number(page, "before", counts.before);
    push_number(page, "after", counts.after);
    push_counts(page, counts);
    push_number(page, "cut_before", counts.on(Network::A, Outcome::Cut));
    push_number(page, "cut_after", counts.on(Network::B, Outcome::Cut));
    push_number(page, "choice", transit.choices);
    page.text("}");
}

/// Appends how long frames took, or null.
fn push_latency(page: &mut Page, latency: Option<LatencyFigures>) {
    let Some(latency) = latency else {
        return page.text(",\"latency\":null");
    };
    page.path(&[(",\"latency\":{\"count\":", latency.count)]);
    push_signed(page, "least", latency.least);
    push_signed(page, "p50", latency.p50);
    push_signed(page, "p99", latency.p99);
    push_signed(page, "p999", latency.p999);
    push_signed(page, "greatest", latency.greatest);
    page.text("}");
}

/// Appends a fault.
fn push_kind(page: &mut Page, transit: &TransitReport, fault: &FaultReport) {
    page.quoted(fault.fault.word());
    page.path(&[(":{\"frames\":", fault.frames)]);
    push_number(page, "links", transit.links_with(fault.fault));
    push_stamp(page, "first", fault.first.map(|place| place.time));
    push_stamp(page, "last", fault.last.map(|place| place.time));
    push_number(page, "most_in_a_second", fault.most);
    push_number(page, "second", fault.second);
    page.text(",\"bins\":[");
    for (at, frames) in fault.columns.iter().enumerate() {
        separate(page, at);
        page.path(&[("", *frames)]);
    }
    page.text("]}");
}

/// Appends the faults that occur.
fn push_kinds(page: &mut Page, transit: &TransitReport) {
    page.text(",\"kinds\":{");
    let occur = transit.faults.iter().filter(|fault| fault.frames > 0);
    for (at, fault) in occur.enumerate() {
        separate(page, at);
        push_kind(page, transit, fault);
    }
    page.text("}");
}

/// Appends the silences of a recording.
fn push_silences(page: &mut Page, silences: &[Silence]) {
    page.text("[");
    for (at, silence) in silences.iter().enumerate() {
        separate(page, at);
        page.path(&[("{\"frames\":", silence.frames)]);
        push_number(page, "links", silence.links);
        push_stamp(page, "from", Some(silence.from));
        push_stamp(page, "to", Some(silence.to));
        page.text("}");
    }
    page.text("]");
}

/// Appends a link.
fn push_link(page: &mut Page, config: &Config, link: &LinkTransits) {
    let Some(id) = link.id else {
        return;
    };
    page.path(&[("{\"id\":", u64::from(id.0))]);
    page.text(",\"name\":");
    match name_of(config, id) {
        "" => page.text("null"),
        name => page.quoted(name),
    }
    push_number(page, "before", link.counts.before);
    push_number(page, "after", link.counts.after);
    push_counts(page, &link.counts);
    push_latency(page, link.latency);
    page.text("}");
}

/// Appends the links: those of the table in its order, and then others.
fn push_links(page: &mut Page, config: &Config, transit: &TransitReport) {
    page.text(",\"links\":[");
    for (at, link) in transit.links.iter().skip(1).enumerate() {
        separate(page, at);
        push_link(page, config, link);
    }
    page.text("]}");
}

/// The section's numbers as one JSON object. Timestamps are decimal strings.
///
/// # Errors
///
/// The system is out of memory.
pub fn json_of(
    alloc: Global,
    config: &Config,
    transit: &TransitReport,
) -> Result<String, AllocError> {
    let mut page = Page::plain(alloc);
    push_run(&mut page, &transit.run);
    push_stamp(&mut page, "start", transit.start);
    push_total(&mut page, transit);
    push_latency(&mut page, transit.latency);
    push_kinds(&mut page, transit);
    page.text(",\"silences\":{\"before\":");
    push_silences(&mut page, &transit.silences_in);
    page.text(",\"after\":");
    push_silences(&mut page, &transit.silences_out);
    page.text("}");
    push_links(&mut page, config, transit);
    page.into_text()
}
