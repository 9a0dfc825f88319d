//! How long frames took, by link.

use crate::faults::name_of;
use crate::lengths::push_length;
use crate::scale::{LogScale, WIDTH};
use report_page::Part::{Duration, Grouped, Hundredths, Number, Text};
use report_page::{Page, View};
use std::alloc::{AllocError, Global};
use transit_ledger::LatencyFigures;
use transit_report::TransitReport;

/// How many links are shown.
const ROWS: usize = 64;

/// How high a bar's drawing is.
const HEIGHT: u64 = 12;

/// The most powers of ten on a scale.
const MARKS: u32 = 20;

/// The places of the links whose frames came out, the slowest first: by their greatest transits.
fn slowest(alloc: Global, transit: &TransitReport) -> Result<Vec<(i64, usize)>, AllocError> {
    let mut places = Vec::new(alloc);
    for (place, link) in transit.links.iter().enumerate() {
        if let Some(latency) = link.latency {
            places.push((latency.greatest.saturating_neg(), place))?;
        }
    }
    places.sort_unstable();
    Ok(places)
}

/// A transit on a scale that begins above 0.
fn size_of(nanos: i64) -> u64 {
    u64::try_from(nanos).unwrap_or(0)
}

/// The scale that all links' transits share.
fn scale_of(transit: &TransitReport) -> LogScale {
    let (mut least, mut greatest) = (u64::MAX, 0);
    for link in &transit.links {
        if let Some(latency) = link.latency {
            let (low, high) = (size_of(latency.least), size_of(latency.greatest));
            greatest = greatest.max(high);
            least = if low > 0 { least.min(low) } else { least };
        }
    }
    LogScale::of(least.min(greatest), greatest)
}

const BEGIN: &str = "\
<div class=\"row\"><span class=\"lb\">$name$$?id$<small>$id$</small>$/$</span>\
<svg class=\"g\" viewBox=\"0 0 $wide$ $high$\" style=\"--h:$high$px\" preserveAspectRatio=\"none\" \
role=\"img\"><title>least to greatest, thick from the median to 99 %</title><path class=\"gr\" d=\"";

const BAR: &str = "\
\"/><rect class=\"ka\" x=\"$least$\" y=\"5\" width=\"$all$\" height=\"2\"/>\
<rect class=\"fa\" x=\"$median$\" y=\"1\" width=\"$most$\" height=\"10\"/>";

/// Appends the bar of some frames.
fn push_bar(page: &mut Page, scale: LogScale, latency: &LatencyFigures) {
    for powers in 0..MARKS {
        if let Some(mark) = scale.mark(powers) {
            page.path(&[("M", scale.place(mark)), (" 0V", HEIGHT)]);
        }
    }
    let least = scale.place(size_of(latency.least));
    let median = scale.place(size_of(latency.p50));
    let most = scale.place(size_of(latency.p99)).saturating_sub(median);
    let all = scale.place(size_of(latency.greatest)).saturating_sub(least);
    page.fill(
        BAR,
        &[
            ("least", Number(least)),
            ("all", Number(all.max(2))),
            ("median", Number(median)),
            ("most", Number(most.max(2))),
        ],
    );
}

/// Appends the line of the bound, if there is one on the scale.
fn push_bound(page: &mut Page, scale: LogScale, bound: Option<u64>) {
    if let Some(bound) = bound {
        page.text("<path class=\"lim\" d=\"");
        page.path(&[("M", scale.place(bound)), (" 0V", HEIGHT)]);
        page.text("\"/>");
    }
}

/// Appends the row of some frames.
fn push_row(
    page: &mut Page,
    (scale, bound): (LogScale, Option<u64>),
    (name, id): (&str, u64),
    latency: &LatencyFigures,
) {
    page.fill(
        BEGIN,
        &[
            ("name", Text(name)),
            ("id", Number(id)),
            ("wide", Number(WIDTH)),
            ("high", Number(HEIGHT)),
        ],
    );
    push_bar(page, scale, latency);
    push_bound(page, scale, bound);
    page.text("</svg><span class=\"vl\">");
    push_length(page, latency.p50);
    page.text("<i>/</i>");
    push_length(page, latency.p99);
    page.text("<small>");
    push_length(page, latency.least);
    page.text(" &#8211; ");
    push_length(page, latency.greatest);
    page.text("</small></span></div>");
}

/// Appends the scale's axis.
fn push_scale(page: &mut Page, scale: LogScale) {
    page.text("<div class=\"row axr\"><span></span><div class=\"ax\">");
    for powers in 0..MARKS {
        if let Some(mark) = scale.mark(powers) {
            let left = scale.place(mark).saturating_mul(10);
            page.fill(
                "<b style=\"left:$left$%\">$mark$</b>",
                &[("left", Hundredths(left)), ("mark", Duration(mark))],
            );
        }
    }
    page.text("</div><span></span></div>");
}

const TITLE: &str = "\
<h4>Latency by link, slowest first: from least to greatest, thick from the median to 99 % (median / 99 %); \
the scale is logarithmic$?bound$; dashed: the bound of $bound$$/$</h4>";

/// Appends how long the frames of each link took, and all frames.
pub(crate) fn push_latencies(
    page: &mut Page,
    alloc: Global,
    view: &View<'_>,
    transit: &TransitReport,
) -> Result<(), AllocError> {
    let Some(all) = transit.latency else {
        return Ok(());
    };
    let places = slowest(alloc, transit)?;
    let (scale, bound) = (scale_of(transit), transit.run.bound);
    page.fill(TITLE, &[("bound", Duration(bound.unwrap_or(0)))]);
    push_row(page, (scale, bound), ("all links", 0), &all);
    for (_, place) in places.iter().take(ROWS) {
        let link = transit.links.get(*place);
        let id = link.and_then(|link| link.id);
        if let (Some(id), Some(latency)) = (id, link.and_then(|link| link.latency)) {
            let named = (name_of(view.config, id), u64::from(id.0));
            push_row(page, (scale, bound), named, &latency);
        }
    }
    push_scale(page, scale);
    let more = Grouped(places.len().saturating_sub(ROWS) as u64);
    page.fill(
        "$?more$<p class=\"none\">and $more$ more links</p>$/$",
        &[("more", more)],
    );
    Ok(())
}
