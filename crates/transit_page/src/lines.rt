//! The lines for a terminal.

use crate::lengths::push_length;
use report_page::Page;
use report_page::Part::{Number, Text};
use std::alloc::{AllocError, Global};
use transit_ledger::Outcome;
use transit_report::TransitReport;

/// How many faults a line has.
const FAULTS_A_LINE: usize = 3;

const TOTALS: &str = "\
switch$?network$ of network $network$$/$: in $before$, out $after$, passed $passed$, refused $refused$, \
not judged $others$\n";

/// How many frames are no faults, and neither passed nor refused.
fn others_of(transit: &TransitReport) -> u64 {
    let kinds = [
        Outcome::Open,
        Outcome::Cut,
        Outcome::Unrouted,
        Outcome::Elsewhere,
    ];
    let counts = kinds.iter().map(|kind| transit.counts.of(*kind));
    counts.fold(0u64, |sum, count| sum.saturating_add(count))
}

/// Appends how many frames went in and came out.
fn push_totals(page: &mut Page, transit: &TransitReport) {
    let counts = &transit.counts;
    let network = transit.run.network.map_or("", |network| network.letter());
    page.fill(
        TOTALS,
        &[
            ("network", Text(network)),
            ("before", Number(counts.before)),
            ("after", Number(counts.after)),
            ("passed", Number(counts.of(Outcome::Passed))),
            ("refused", Number(counts.of(Outcome::Refused))),
            ("others", Number(others_of(transit))),
        ],
    );
}

/// Appends the faults that occur, some in a line.
fn push_faults(page: &mut Page, transit: &TransitReport) {
    page.text("faults of the switch:");
    let mut told = 0usize;
    for fault in transit.faults.iter().filter(|fault| fault.frames > 0) {
        let is_first = told > 0 && told.checked_rem(FAULTS_A_LINE) == Some(0);
        page.text(if is_first { "\n " } else { "" });
        page.fill(
            " $word$ $frames$",
            &[
                ("word", Text(fault.fault.word())),
                ("frames", Number(fault.frames)),
            ],
        );
        told = told.saturating_add(1);
    }
    page.text(if told == 0 { " none\n" } else { "\n" });
}

/// Appends how long frames took.
fn push_latency(page: &mut Page, transit: &TransitReport) {
    let Some(latency) = transit.latency else {
        return;
    };
    page.text("latency: least ");
    push_length(page, latency.least);
    page.text(", median ");
    push_length(page, latency.p50);
    page.text(", 99 % ");
    push_length(page, latency.p99);
    page.text(", greatest ");
    push_length(page, latency.greatest);
    page.text("\n");
}

/// The section as lines: totals, faults, latency and silences.
///
/// # Errors
///
/// The system is out of memory.
pub fn lines_of(alloc: Global, transit: &TransitReport) -> Result<String, AllocError> {
    let mut page = Page::plain(alloc);
    push_totals(&mut page, transit);
    push_faults(&mut page, transit);
    push_latency(&mut page, transit);
    let (out, into) = (transit.silences_out.len(), transit.silences_in.len());
    if out > 0 || into > 0 {
        page.path(&[("silences: after ", out as u64), (", before ", into as u64)]);
        page.text("\n");
    }
    page.into_text()
}
