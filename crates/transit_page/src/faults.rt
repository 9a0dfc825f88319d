//! The table of faults, and a strip of each.

use crate::lengths::moment;
use afdx_frame::{Network, VlId};
use report_page::Part::{Given, Grouped, Number, Text};
use report_page::{Page, View, begin_row, flag, push_axis};
use transit_ledger::Outcome;
use transit_report::{FaultPlace, FaultReport, TransitReport};
use vl_config::Config;

/// A second, in nanoseconds.
const SECOND: u64 = 1_000_000_000;

/// How high a strip is drawn.
const HEIGHT: u64 = 20;

/// The meaning of a fault's word.
fn meaning(fault: Outcome) -> &'static str {
    match fault {
        Outcome::Dropped => "didn't come out, though the rules pass it",
        Outcome::Lax => "came out, though the rules discard it",
        Outcome::Leak => "came out, though its link isn't routed there",
        Outcome::Slow => "came out later than the bound",
        Outcome::Overtaken => "came out after a frame of its link that went in later",
        Outcome::Changed => "came out with other bytes",
        Outcome::Twice => "came out before",
        Outcome::New => "came out, and never went in",
        _ => "",
    }
}

/// The name of a link in the table, or nothing.
pub(crate) fn name_of(config: &Config, id: VlId) -> &str {
    match config.link(id) {
        Some(link) => link.name.as_str(),
        None => "",
    }
}

/// The word of a recording's side.
pub(crate) fn side_word(side: Network) -> &'static str {
    match side {
        Network::A => "before",
        Network::B => "after",
    }
}

const TITLES: &str = "\
<div class=\"scroll\" tabindex=\"0\"><table><thead><tr><th>fault</th><th class=\"r\">frames</th>\
<th>first</th><th>most in a second</th><th class=\"r\">links</th><th>most of them</th>\
<th>a frame that</th></tr></thead><tbody>";

const NAMED: &str = "<tr><td class=\"nm\">$word$</td><td class=\"r$?frames$ w$/$\">$frames$</td>";

const NUMBERS: &str = "\
<td>$at$ <i>$side$ #$number$</i></td><td>$most$ <i>from</i> $second$</td><td class=\"r\">$links$</td>";

const NO_NUMBERS: &str = "<td></td><td></td><td></td><td></td>";

/// Appends the cell of the link with the most frames of a fault.
fn push_worst(page: &mut Page, view: &View<'_>, transit: &TransitReport, fault: Outcome) {
    page.text("<td>");
    let worst = transit.worst_link(fault);
    let frames = worst.map_or(0, |link| link.counts.of(fault));
    match worst.and_then(|link| link.id) {
        Some(id) => page.fill(
            "$id$ $name$ <i>$count$</i>",
            &[
                ("id", Number(u64::from(id.0))),
                ("name", Text(name_of(view.config, id))),
                ("count", Grouped(frames)),
            ],
        ),
        None => page.fill("no link <i>$count$</i>", &[("count", Grouped(frames))]),
    }
    page.text("</td>");
}

/// Appends the cells of a fault's numbers.
fn push_numbers(
    page: &mut Page,
    view: &View<'_>,
    transit: &TransitReport,
    fault: &FaultReport,
    first: FaultPlace,
) {
    let start = transit.start.unwrap_or(first.time);
    let second = start.saturating_add(fault.second.saturating_mul(SECOND));
    page.fill(
        NUMBERS,
        &[
            ("at", moment(view, first.time)),
            ("side", Text(side_word(first.side))),
            ("number", Grouped(first.number)),
            ("most", Grouped(fault.most)),
            ("second", moment(view, second)),
            ("links", Grouped(transit.links_with(fault.fault))),
        ],
    );
    push_worst(page, view, transit, fault.fault);
}

/// Appends the row of a fault.
fn push_fault(page: &mut Page, view: &View<'_>, transit: &TransitReport, fault: &FaultReport) {
    page.fill(
        NAMED,
        &[
            ("word", Text(fault.fault.word())),
            ("frames", Grouped(fault.frames)),
        ],
    );
    match fault.first {
        Some(first) => push_numbers(page, view, transit, fault, first),
        None => page.text(NO_NUMBERS),
    }
    page.fill(
        "<td><i>$meaning$</i></td></tr>",
        &[("meaning", Given(meaning(fault.fault)))],
    );
}

/// Appends the table of faults.
pub(crate) fn push_faults(page: &mut Page, view: &View<'_>, transit: &TransitReport) {
    page.text(TITLES);
    for fault in &transit.faults {
        push_fault(page, view, transit, fault);
    }
    page.text("</tbody></table></div>");
}

/// The columns that the page shows.
fn shown_columns<'a>(view: &View<'_>, fault: &'a FaultReport) -> &'a [u64] {
    let columns = fault.columns.as_slice();
    columns.get(..view.used).unwrap_or(columns)
}

/// How many frames with faults lie in no column that the page shows.
pub(crate) fn outside(view: &View<'_>, transit: &TransitReport) -> u64 {
    let mut outside = 0u64;
    for fault in &transit.faults {
        let inside = shown_columns(view, fault)
            .iter()
            .fold(0u64, |sum, frames| sum.saturating_add(*frames));
        outside = outside.saturating_add(fault.frames.saturating_sub(inside));
    }
    outside
}

/// The height of a column.
fn height_of(frames: u64, peak: u64) -> u64 {
    let high = u128::from(frames) * u128::from(HEIGHT - 1);
    let high = high.checked_div(u128::from(peak)).unwrap_or(0);
    u64::try_from(high).unwrap_or(HEIGHT).max(1)
}

const COUNT: &str = "</svg><span class=\"vl\">$frames$<small>peak $peak$</small></span></div>";

/// Appends the strip of a fault.
fn push_strip(page: &mut Page, view: &View<'_>, fault: &FaultReport) {
    let columns = shown_columns(view, fault);
    let peak = columns.iter().copied().max().unwrap_or(0);
    let texts = (fault.fault.word(), "", "frames per column");
    begin_row(page, view, texts, HEIGHT);
    page.text("<path class=\"mt\" d=\"");
    for (column, frames) in columns.iter().enumerate() {
        if *frames > 0 {
            let top = HEIGHT.saturating_sub(height_of(*frames, peak));
            page.path(&[("M", column as u64), (" ", HEIGHT), ("V", top)]);
            page.path(&[("h", 1), ("V", HEIGHT)]);
            page.text("z");
        }
    }
    page.text("\"/>");
    page.fill(
        COUNT,
        &[("frames", Grouped(fault.frames)), ("peak", Grouped(peak))],
    );
}

/// Appends the words of the faults that no frame has.
fn push_absent(page: &mut Page, transit: &TransitReport) {
    let mut none = false;
    for fault in &transit.faults {
        if fault.frames == 0 {
            page.text(if none {
                ", "
            } else {
                "<p class=\"none\">none: "
            });
            page.text(fault.fault.word());
            none = true;
        }
    }
    page.fill("$?none$</p>$/$", &[("none", flag(none))]);
}

/// Appends a strip of each fault that occurs, over the columns of the page's timeline.
pub(crate) fn push_strips(page: &mut Page, view: &View<'_>, transit: &TransitReport) {
    page.text("<h4>Faults by time</h4>");
    let mut some = false;
    for fault in &transit.faults {
        if fault.frames > 0 {
            push_strip(page, view, fault);
            some = true;
        }
    }
    push_absent(page, transit);
    if some {
        push_axis(page, view);
    }
}
