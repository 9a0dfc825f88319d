//! The rows that are drawn by time: the timeline of both networks, and the strips of the worst links.

use crate::charts::Kind::{Greatest, Sum};
use crate::charts::{
    Classes, Drawing, Pauses, push_axis, push_events, push_intervals, push_link_row, push_row,
};
use crate::numbers::{quotient, share};
use crate::ranks::mark_of;
use crate::view::{
    DISCARDS, LOSSES, SIGNS, STRIPS, View, counts_of, first_of, first_parts, greatest_skew,
};
use crate::writer::Part::{self, Both, Duration, Grouped, Letter, Millionths, Number, Text};
use crate::writer::{Page, Pair, flag};
use afdx_frame::Network::{self, A, B};
use findings::Level;
use ledger_report::Anomaly::{self, Alone, Excess, Late, Lost, Out, Repeat, Reset, TooLong};
use ledger_report::{LinkReport, Measure};
use vl_config::Link;

/// The shapes of what comes, of what is discarded, and of skews.
const FRAMES: Classes = ("fa", "fb");

const DISCARDED: Classes = ("xa", "xb");

const SKEWS: Classes = ("ka", "kb");

/// A drawing of sums of so many bins.
fn sums(height: u64, classes: Classes, per: usize, limit: u64) -> Drawing {
    Drawing {
        height,
        classes,
        kind: Sum,
        per,
        limit,
        pauses: Pauses::OfNone,
    }
}

/// A drawing of the greatest skews of so many bins.
fn skews(height: u64, per: usize, limit: u64) -> Drawing {
    Drawing {
        kind: Greatest,
        ..sums(height, SKEWS, per, limit)
    }
}

/// The value of a row: counts, and the peak of its columns.
const PEAK: &str = "$counts$<small>peak $peak$</small></span></div>";

/// Ends a row with counts and its peak.
fn end_row(page: &mut Page, counts: Pair, peak: u64) {
    fill!(page; PEAK; counts = Both(counts), peak = Grouped(peak));
}

fn push_frames(page: &mut Page, view: &View<'_>) {
    let (a, b) = (&view.report.networks.a, &view.report.networks.b);
    let texts = ("frames", "", "frames per column, A above, B below");
    let drawing = sums(64, FRAMES, 1, 0);
    let peak = push_row(page, view, texts, drawing, (&a.lines, &b.lines));
    end_row(page, Pair(a.frames, b.frames), peak);
}

/// Bytes in a time as megabits a second.
fn megabits(bytes: u64, time: u64) -> Part<'static> {
    Millionths(share(bytes, 8_000_000_000, time))
}

const LOAD: &str = "\
<span class=\"a\">$a$</span><i>/</i><span class=\"b\">$b$</span>\
<small>Mbit/s, peak $peak$</small></span></div>";

fn push_load(page: &mut Page, view: &View<'_>) {
    let (a, b) = (&view.report.networks.a, &view.report.networks.b);
    let texts = ("load", "", "bits on the wire, A above, B below");
    let drawing = sums(40, FRAMES, 1, 0);
    let peak = push_row(page, view, texts, drawing, (&a.loads, &b.loads));
    let length = view.report.end.saturating_sub(view.report.start).max(1);
    fill!(page; LOAD; a = megabits(a.wire_bytes, length), b = megabits(b.wire_bytes, length),
        peak = megabits(peak, view.report.width));
}

/// Appends the rows of those of some signs that occur.
fn push_signs(page: &mut Page, view: &View<'_>, (skip, count): (usize, usize), classes: Classes) {
    let (a, b) = (&view.report.networks.a.signs, &view.report.networks.b.signs);
    for sign in SIGNS.iter().skip(skip).take(count) {
        let counts = view.total(*sign);
        if counts.sum() > 0 {
            let texts = (sign.word(), "", "per column, A above, B below");
            let bins = (&a.of(*sign).bins, &b.of(*sign).bins);
            let peak = push_row(page, view, texts, sums(26, classes, 1, 0), bins);
            end_row(page, counts, peak);
        }
    }
    push_absent(page, view, (skip, count));
}

/// The beginning of a line of signs that don't occur.
const ABSENT: &str = "<p class=\"none\">none: ";

/// Appends a line that names those that don't.
fn push_absent(page: &mut Page, view: &View<'_>, (skip, count): (usize, usize)) {
    let mut none = false;
    for sign in SIGNS.iter().skip(skip).take(count) {
        if view.total(*sign).sum() == 0 {
            page.text(if none { ", " } else { ABSENT });
            page.text(sign.word());
            none = true;
        }
    }
    page.text(if none { "</p>" } else { "" });
}

const SKEWS_TITLE: &str = "greatest skew of a copy: above, the copy came on A; below, on B";

fn push_skews(page: &mut Page, view: &View<'_>) {
    let (a, b) = (&view.report.networks.a, &view.report.networks.b);
    let texts = ("skew of copies", "", SKEWS_TITLE);
    let peak = push_row(page, view, texts, skews(34, 1, 0), (&a.skews, &b.skews));
    fill!(page; "<small>greatest</small>$peak$</span></div>"; peak = Duration(peak));
}

/// Appends the timeline.
pub fn push_timeline(page: &mut Page, view: &View<'_>) {
    push_events(page, view);
    push_frames(page, view);
    if view.sizes {
        push_load(page, view);
    }
    page.text("<h4>Discards, in the order of judgement</h4>");
    push_signs(page, view, (0, DISCARDS), DISCARDED);
    page.text("<h4>Loss and redundancy</h4>");
    push_signs(page, view, (DISCARDS, LOSSES), FRAMES);
    if view.report.counted().all().copy > 0 {
        push_skews(page, view);
    }
    push_axis(page, view);
}

/// The signs that have a row in a strip where they occur.
const STRIP_SIGNS: [Anomaly; 8] = [TooLong, Excess, Out, Lost, Repeat, Alone, Late, Reset];

fn push_link_frames(page: &mut Page, view: &View<'_>, link: &LinkReport, per: usize) {
    let (a, b) = (&link.lanes.a, &link.lanes.b);
    let title = "frames per column; dashed: one per BAG";
    let limit = quotient(view.long(per), link.bag).max(1);
    let drawing = sums(48, FRAMES, per, limit);
    let texts = ("frames", "dashed: one per BAG", title);
    let peak = push_link_row(page, view, texts, drawing, (link, Measure::Lines));
    end_row(page, Pair(a.frames, b.frames), peak);
}

fn push_link_bytes(page: &mut Page, view: &View<'_>, link: &LinkReport, per: usize) {
    let title = "bytes per column; dashed: Smax per BAG";
    let limit = share(view.long(per), u64::from(link.smax), link.bag).max(1);
    let texts = ("bytes", "dashed: Smax per BAG", title);
    let drawing = sums(36, FRAMES, per, limit);
    let peak = push_link_row(page, view, texts, drawing, (link, Measure::Bytes));
    fill!(page; "<small>peak $percent$ %</small></span></div>"; percent = Number(share(peak, 100, limit)));
}

const INTERVALS_TITLE: &str =
    "least to greatest interval: 0 below, BAG in the middle, 2 BAG or more above";

const INTERVALS: &str = "\
$least$ &#8211; $most$ ms<small>mean $mean$, $early$ early</small></span></div>";

/// Appends the row of a link's intervals on a network, if there are some.
fn push_link_intervals(
    page: &mut Page,
    view: &View<'_>,
    link: &LinkReport,
    network: Network,
    per: usize,
) {
    let (label, class) = match network {
        A => ("interval A", "fa"),
        B => ("interval B", "fb"),
    };
    let lane = link.lanes.of(network);
    if lane.intervals == 0 {
        return;
    }
    let texts = (label, "dashed: BAG &#177; J", INTERVALS_TITLE);
    let drawing = sums(36, (class, ""), per, 0).of(link);
    push_intervals(page, view, texts, drawing, link, network);
    fill!(page; INTERVALS; least = Millionths(lane.least), most = Millionths(lane.greatest),
        mean = Millionths(quotient(lane.interval_sum, lane.intervals)),
        early = Grouped(lane.signs.of(Anomaly::Early).count));
}

fn push_link_skews(page: &mut Page, view: &View<'_>, link: &LinkReport, per: usize) {
    let title = "greatest skew of a copy per column";
    let texts = ("skew", "up: A came second<br/>dashed: SkewMax", title);
    let drawing = skews(44, per, link.skew_max);
    push_link_row(page, view, texts, drawing, (link, Measure::Skew));
    fill!(page; "$median$<small>median; most $most$</small></span></div>";
        median = Duration(link.skew_median), most = Duration(greatest_skew(link)));
}

/// Appends the row of a link's sign, if it occurs.
fn push_link_sign(page: &mut Page, view: &View<'_>, link: &LinkReport, sign: Anomaly, per: usize) {
    let (a, b) = (link.lanes.a.signs.of(sign), link.lanes.b.signs.of(sign));
    let counts = counts_of(link, sign);
    if counts.sum() == 0 {
        return;
    }
    let is_discard = SIGNS.iter().take(DISCARDS).any(|discard| *discard == sign);
    let classes = if is_discard { DISCARDED } else { FRAMES };
    let texts = (sign.word(), "", "per column");
    let drawing = sums(20, classes, per, 0).of(link);
    push_row(page, view, texts, drawing, (&a.bins, &b.bins));
    let [n, at, number] = first_parts(view, first_of(link, sign));
    fill!(page; FIRST; counts = Both(counts), n, at, number);
}

const FIRST: &str = "$counts$$?n$<small>from $at$ ($n$ #$number$)</small>$/$</span></div>";

/// Appends the rows of a link.
fn push_link_rows(page: &mut Page, view: &View<'_>, link: &LinkReport, per: usize) {
    push_link_frames(page, view, link, per);
    if view.sizes {
        push_link_bytes(page, view, link, per);
    }
    push_link_intervals(page, view, link, A, per);
    push_link_intervals(page, view, link, B, per);
    if link.redundancy && (link.copies > 0 || link.late_greatest > 0) {
        push_link_skews(page, view, link, per);
    }
    for &sign in &STRIP_SIGNS {
        push_link_sign(page, view, link, sign, per);
    }
}

/// The facts of a link beside its rows.
const FACTS: &str = "\
<p class=\"facts\">lost on both networks: $lost$\
$?a$ &#183; an excess on A came $a$ sooner than BAG less jitter$/$\
$?b$ &#183; an excess on B came $b$ sooner than BAG less jitter$/$</p>";

fn push_facts(page: &mut Page, link: &LinkReport) {
    fill!(page; FACTS; lost = Grouped(link.lost_both), a = Duration(link.lanes.a.excess_lead),
        b = Duration(link.lanes.b.excess_lead));
}

const STRIP: &str = "\
<section class=\"det\" id=\"v$id$\"><h3><svg class=\"mk $mark$</svg>$name$ \
<span class=\"id\">link $id$</span>\
<span class=\"pp\">BAG $bag$ ms &#183; J $jitter$ &#183; Smax $smax$ &#183; SkewMax $skew$\
$?integrity$ &#183; integrity off$/$$?redundancy$ &#183; redundancy off$/$ \
&#183; a column is $column$</span></h3>";

/// Appends the strip of a link.
fn push_strip(page: &mut Page, view: &View<'_>, link: &LinkReport, configured: &Link) {
    let per = view.column(link);
    fill!(page; STRIP; id = Number(u64::from(link.id.0)), mark = Text(mark_of(Level::Trouble)),
        name = Text(&configured.name), bag = Number(link.bag / 1_000_000), jitter = Duration(link.jitter),
        smax = Number(u64::from(link.smax)), skew = Duration(link.skew_max),
        integrity = flag(!link.integrity), redundancy = flag(!link.redundancy),
        column = Duration(view.long(per)));
    push_link_rows(page, view, link, per);
    push_axis(page, view);
    push_facts(page, link);
    page.text("</section>");
}

/// Appends the strips.
pub fn push_strips(page: &mut Page, view: &View<'_>) {
    let troubled = view.count_of(Level::Trouble);
    for rank in view.ranks.iter().take(STRIPS.min(troubled as usize)) {
        if let Some((report, link)) = view.link(rank.index) {
            push_strip(page, view, report, link);
        }
    }
    fill!(page; NO_STRIPS; none = flag(troubled == 0), more = Number(troubled.saturating_sub(STRIPS as u64)));
}

const NO_STRIPS: &str = "\
$?none$<p class=\"none\">none</p>$/$\
$?more$<p class=\"none\">$more$ more links in trouble have no strip.</p>$/$";
