//! The section of the page.

use crate::faults::{outside, push_faults, push_strips};
use crate::latency::push_latencies;
use crate::lengths::moment;
use report_page::Part::{Duration, Given, Grouped, Text};
use report_page::{Page, Shown, View, flag};
use std::alloc::{AllocError, Global};
use transit_ledger::Outcome;
use transit_report::{Silence, TransitReport};

/// How many silences of a recording have a line.
const SILENCES: usize = 16;

const HEAD: &str = "\
<section class=\"tl\"><h2>What the switch did <small>by the ledger of transits $path$\
$?network$, network $network$$/$: $before$ frames went in, $after$ came out</small></h2>\
<p class=\"ids\">passed $passed$ &#183; refused by the rules $refused$ &#183; not judged: \
at the ends $open$, cut short $cut$, of links not come out so far $unrouted$, \
not gone in so far $elsewhere$$?choice$ &#183; $choice$ had an equal one$/$</p>";

const NOTES: &str = "\
$?part$<p class=\"ids\">The section is of the whole ledger of transits.</p>$/$\
$?outside$<p class=\"ids\">In none of the columns lie $outside$ of the frames with faults: they are of \
another time than the page.</p>$/$";

/// Appends the head: how many frames there are that aren't faults.
fn push_head(page: &mut Page, transit: &TransitReport, path: &str) {
    let counts = &transit.counts;
    let network = transit.run.network.map_or("", |network| network.letter());
    page.fill(
        HEAD,
        &[
            ("path", Given(path)),
            ("network", Text(network)),
            ("before", Grouped(counts.before)),
            ("after", Grouped(counts.after)),
            ("passed", Grouped(counts.of(Outcome::Passed))),
            ("refused", Grouped(counts.of(Outcome::Refused))),
            ("open", Grouped(counts.of(Outcome::Open))),
            ("cut", Grouped(counts.of(Outcome::Cut))),
            ("unrouted", Grouped(counts.of(Outcome::Unrouted))),
            ("elsewhere", Grouped(counts.of(Outcome::Elsewhere))),
            ("choice", Grouped(transit.choices)),
        ],
    );
}

/// Appends what the section isn't about.
fn push_notes(page: &mut Page, view: &View<'_>, transit: &TransitReport) {
    page.fill(
        NOTES,
        &[
            ("part", flag(view.zoom.is_part())),
            ("outside", Grouped(outside(view, transit))),
        ],
    );
}

const SILENCE: &str = "\
<p class=\"none\">$word$ for $length$ from $at$: $frames$ frames of $links$ link$?several$s$/$</p>";

/// Appends the silences of a recording.
fn push_side(page: &mut Page, view: &View<'_>, silences: &[Silence], word: &'static str) {
    for silence in silences.iter().take(SILENCES) {
        page.fill(
            SILENCE,
            &[
                ("word", Text(word)),
                ("length", Duration(silence.to.saturating_sub(silence.from))),
                ("at", moment(view, silence.from)),
                ("frames", Grouped(silence.frames)),
                ("links", Grouped(silence.links)),
                ("several", flag(silence.links != 1)),
            ],
        );
    }
    let more = Grouped(silences.len().saturating_sub(SILENCES) as u64);
    page.fill(
        "$?more$<p class=\"none\">and $more$ more</p>$/$",
        &[("more", more)],
    );
}

/// Appends the times in which nothing came.
fn push_silences(page: &mut Page, view: &View<'_>, transit: &TransitReport) {
    if transit.silences_out.is_empty() && transit.silences_in.is_empty() {
        return;
    }
    page.text("<h4>Silences: 64 frames or more in a row that the other recording lacks</h4>");
    push_side(page, view, &transit.silences_out, "nothing came out");
    push_side(
        page,
        view,
        &transit.silences_in,
        "nothing was seen to go in",
    );
}

/// The section on a ledger of transits, which stands at this path, in the page of a report.
///
/// # Errors
///
/// The system is out of memory.
pub fn section_of(
    alloc: Global,
    shown: &Shown<'_>,
    transit: &TransitReport,
    path: &str,
) -> Result<String, AllocError> {
    let view = View::new(alloc, shown)?;
    let mut page = Page::new(alloc);
    push_head(&mut page, transit, path);
    push_notes(&mut page, &view, transit);
    push_faults(&mut page, &view, transit);
    push_strips(&mut page, &view, transit);
    push_latencies(&mut page, alloc, &view, transit)?;
    push_silences(&mut page, &view, transit);
    page.text("</section>");
    page.into_text()
}
