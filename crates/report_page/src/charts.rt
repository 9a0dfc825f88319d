//! Charts: drawings with no text, in whole numbers but for ticks.

use crate::numbers::{MINUTE, quotient, share};
use crate::view::View;
use crate::writer::Page;
use crate::writer::Part::{self, Clock, Hundredths, Number, Tenths, Text, Tick};
use afdx_frame::{Network, VlId};
use findings::{Finding, Kind as Found, Side, Span};
use ledger_report::{BINS, LaneReport, LinkReport, Measure, Series};

/// How the bins of a column become one number.
#[derive(Clone, Copy, PartialEq, Eq)]
pub enum Kind {
    Sum,
    Least,
    Greatest,
}

/// A column in which nothing came, of least numbers.
const NOTHING: u64 = u64::MAX;

/// Numbers by columns of so many bins.
#[derive(Clone, Copy)]
pub struct Columns {
    kind: Kind,
    per: usize,
    count: usize,
    values: [u64; BINS],
}

impl Columns {
    /// Columns in which nothing came.
    pub fn new(view: &View<'_>, kind: Kind, per: usize) -> Columns {
        let per = per.max(1);
        let nothing = if kind == Kind::Least { NOTHING } else { 0 };
        Columns {
            kind,
            per,
            count: view.used.div_ceil(per),
            values: [nothing; BINS],
        }
    }

    /// Puts the number of one of so many bins into its column.
    fn put(&mut self, bin: usize, bins: usize, value: u64) {
        let first = bin.saturating_mul(BINS).checked_div(bins).unwrap_or(0);
        let column = first.checked_div(self.per).unwrap_or(0);
        if let Some(held) = self.values.get_mut(column) {
            *held = match self.kind {
                Kind::Sum => held.saturating_add(value),
                Kind::Least => (*held).min(value),
                Kind::Greatest => (*held).max(value),
            };
        }
    }

    /// These with the numbers of a series.
    pub fn with(mut self, series: &Series) -> Columns {
        let bins = series.bins();
        for (bin, value) in bins.iter().enumerate() {
            self.put(bin, bins.len(), *value);
        }
        self
    }

    /// These with a number of a lane's lines.
    pub fn with_lane(mut self, lane: &LaneReport, measure: Measure) -> Columns {
        let bins = lane.activity.bins();
        for (bin, held) in bins.iter().enumerate() {
            self.put(bin, bins.len(), held.number(measure));
        }
        self
    }

    /// The greatest number.
    pub fn peak(&self) -> u64 {
        let shown = self.values.iter().take(self.count);
        shown.copied().max().unwrap_or(0)
    }
}

/// The number and the height of the greatest column that a drawing has room for.
pub type Scale = (u64, u64);

/// Where the base line of a shape of steps is, and whether the shape is above or below it.
#[derive(Clone, Copy)]
pub enum Stair {
    Above(u64),
    Below(u64),
}

impl Stair {
    fn base(self) -> u64 {
        match self {
            Stair::Above(base) | Stair::Below(base) => base,
        }
    }

    /// The point so far from the base line.
    fn at(self, height: u64) -> u64 {
        match self {
            Stair::Above(base) => base.saturating_sub(height),
            Stair::Below(base) => base.saturating_add(height),
        }
    }

    /// Where a number stands.
    fn y(self, (top, height): Scale, value: u64) -> u64 {
        self.at(share(value.min(top), height, top).max(value.min(1)))
    }
}

const PATH: &str = "<path class=\"$class$\" d=\"";

/// Appends the path of an area in steps, if it isn't empty.
pub fn push_stair(page: &mut Page, class: &str, columns: &Columns, scale: Scale, stair: Stair) {
    if columns.peak() == 0 {
        return;
    }
    fill!(page; PATH; class = Text(class));
    let base = stair.base();
    let mut at = base;
    for (column, value) in columns.values.iter().take(columns.count).enumerate() {
        let x = column.saturating_mul(columns.per) as u64;
        let y = stair.y(scale, *value);
        if y != at && at == base {
            page.path(&[("M", x), (" ", at), ("V", y)]);
        } else if y != at {
            page.path(&[("H", x), ("V", y)]);
        }
        at = y;
    }
    if at != base {
        let end = columns.count.saturating_mul(columns.per);
        page.path(&[("H", end as u64), ("V", base)]);
    }
    page.text("\"/>");
}

/// The distance of two ticks of the axis: 1, 2 or 5 by a power of ten, so that there are at most 12.
fn tick_step(span: u64) -> u64 {
    let mut unit = 1_000_000u64;
    for at in 0..39 {
        let step = unit.saturating_mul([1, 2, 5][at % 3]);
        if quotient(span, step) <= 12 {
            return step.max(1);
        }
        if at % 3 == 2 {
            unit = unit.saturating_mul(10);
        }
    }
    unit
}

/// A horizontal place in tenths of a bin.
fn across(view: &View<'_>, since: u64) -> Part<'static> {
    Tenths(share(since, 10, view.report.width))
}

/// The distances of two ticks of a long flight's axis, in minutes.
const CLOCK_STEPS: [u64; 10] = [5, 10, 15, 30, 60, 120, 180, 360, 720, 1440];

/// The distance of two ticks of a long flight's axis: the first of these that makes at most 12, or days.
fn clock_step(span: u64) -> u64 {
    for &minutes in &CLOCK_STEPS {
        let step = MINUTE.saturating_mul(minutes);
        if quotient(span, step) <= 12 {
            return step;
        }
    }
    let day = MINUTE.saturating_mul(1440);
    day.saturating_mul(quotient(span, day.saturating_mul(12)).saturating_add(1))
}

/// Where the axis has ticks, after the first line: the first one, and their distance.
#[derive(Clone, Copy)]
struct Ticks {
    first: u64,
    step: u64,
}

impl Ticks {
    /// At round times since the first line, of a long flight at round times of the day in UTC.
    fn of(view: &View<'_>) -> Ticks {
        if !view.is_long() {
            return Ticks {
                first: 0,
                step: tick_step(view.span),
            };
        }
        let step = clock_step(view.span);
        let past = view.report.start.checked_rem(step).unwrap_or(0);
        let first = if past == 0 {
            0
        } else {
            step.saturating_sub(past)
        };
        Ticks { first, step }
    }

    fn at(self, tick: u64) -> u64 {
        self.first.saturating_add(tick.saturating_mul(self.step))
    }
}

/// Appends the grid.
fn push_grid(page: &mut Page, view: &View<'_>, height: u64) {
    let ticks = Ticks::of(view);
    page.text("<path class=\"gr\" d=\"");
    for tick in 0..13u64 {
        let at = ticks.at(tick);
        if at <= view.span {
            fill!(page; "M$x$ 0V$height$"; x = across(view, at), height = Number(height));
        }
    }
    page.text("\"/>");
}

/// A band of time, which a browser names where the pointer is.
const BAND: &str = "\
<rect class=\"$class$\" y=\"$y$\" height=\"$height$\" x=\"$x$\" width=\"$width$\">\
<title>$title$</title></rect>";

/// Where a network's half of a drawing begins, and how high it is.
type Half = (u64, u64);

/// The class of a band, and what it is.
type Band = (&'static str, &'static str);

/// A network has nothing recorded.
const UNRECORDED: Band = ("nr", "nothing recorded");

/// Appends a band from one time to another, after the first line. It is at least half a bin wide.
fn push_band(page: &mut Page, view: &View<'_>, half: Half, band: Band, (from, to): (u64, u64)) {
    let wide = to.saturating_sub(from).max(view.report.width / 2);
    fill!(page; BAND; class = Text(band.0), y = Number(half.0), height = Number(half.1),
        x = across(view, from), width = across(view, wide), title = Text(band.1));
}

/// Is a finding a silence of this network?
pub fn is_silence(finding: &Finding, network: Network) -> bool {
    let is_on = finding.side == Side::Both || finding.side == Side::of(network);
    finding.kind == Found::Silence && is_on && !finding.is_rest
}

/// Of which links a drawing marks outages.
#[derive(Clone, Copy, PartialEq, Eq)]
pub enum Pauses {
    /// Of no link: the drawing is of the networks.
    OfNone,
    OfAll,
    Of(VlId),
}

impl Pauses {
    /// Is the finding about one of these links?
    fn has(self, finding: &Finding) -> bool {
        match self {
            Pauses::OfNone => false,
            Pauses::OfAll => true,
            Pauses::Of(id) => finding.links.iter().any(|link| *link == id),
        }
    }
}

/// How a finding is marked on a network's half, if it is.
fn band_of(finding: &Finding, network: Network, pauses: Pauses) -> Option<Band> {
    let is_on = finding.side == Side::Both || finding.side == Side::of(network);
    if finding.is_rest || !is_on {
        return None;
    }
    match finding.kind {
        Found::Silence => Some(("si", "network silent")),
        Found::ClockStep => Some(("st", "clock step")),
        Found::SkewStep => Some(("st", "all skews step")),
        Found::Outage if pauses.has(finding) => Some(("ou", "link pauses")),
        _ => None,
    }
}

/// The most findings that a drawing marks on a network, and the most times of each.
const MARKED: usize = 64;

const MARKED_TIMES: usize = 32;

/// Appends the bands of a finding.
fn push_bands(page: &mut Page, view: &View<'_>, half: Half, band: Band, finding: &Finding) {
    let ends = |span: &Span| (span.from.0.unsigned_abs(), span.to.0.unsigned_abs());
    if finding.spans.is_empty() {
        return push_band(page, view, half, band, ends(&finding.span));
    }
    for span in finding.spans.iter().take(MARKED_TIMES) {
        push_band(page, view, half, band, ends(span));
    }
}

/// Appends silences, steps and outages on a network's half.
fn push_marks(page: &mut Page, view: &View<'_>, network: Network, half: Half, pauses: Pauses) {
    let findings = view.report.findings.all.iter();
    for finding in findings
        .filter(|one| band_of(one, network, pauses).is_some())
        .take(MARKED)
    {
        if let Some(band) = band_of(finding, network, pauses) {
            push_bands(page, view, half, band, finding);
        }
    }
}

/// Appends the times that weren't recorded on a network's half.
fn push_blind_half(page: &mut Page, view: &View<'_>, network: Network, half: Half) {
    let (report, side) = (view.report, view.report.networks.of(network));
    let end = view.span;
    let none = side.frames == 0;
    let (first, last) = if none {
        (end, end)
    } else {
        let since = |stamp: u64| stamp.saturating_sub(report.start);
        (since(side.first), since(side.last))
    };
    if none || first > report.width {
        push_band(page, view, half, UNRECORDED, (0, first));
    }
    if report.end.saturating_sub(report.start).saturating_sub(last) > report.width {
        push_band(page, view, half, UNRECORDED, (last, end));
    }
}

/// A row's label, its detail, and the title of its drawing.
pub type Texts<'a> = (&'a str, &'a str, &'a str);

/// The classes of the shapes of A and B.
pub type Classes = (&'static str, &'static str);

/// A drawing with A upwards and B downwards.
#[derive(Clone, Copy)]
pub struct Drawing {
    pub height: u64,
    pub classes: Classes,
    pub kind: Kind,
    /// So many bins make a column.
    pub per: usize,
    /// A dashed line at this number on both sides, if it is above 0.
    pub limit: u64,
    pub pauses: Pauses,
}

impl Drawing {
    /// The same of a link, whose outages it marks.
    pub fn of(self, link: &LinkReport) -> Drawing {
        Drawing {
            pauses: Pauses::Of(link.id),
            ..self
        }
    }
}

/// The beginning of a row with a drawing.
const BEGIN: &str = "\
<div class=\"row\"><span class=\"lb\">$label$$?detail$<small>$detail$</small>$/$</span>\
<svg class=\"g\" viewBox=\"0 0 $used$ $height$\" style=\"--h:$height$px\" \
preserveAspectRatio=\"none\" role=\"img\"><title>$title$</title>";

/// Appends the beginning of a row, and the grid of its drawing.
pub fn begin_row(page: &mut Page, view: &View<'_>, texts: Texts<'_>, height: u64) {
    fill!(page; BEGIN; label = Text(texts.0), detail = Text(texts.1), title = Text(texts.2),
        used = Number(view.used as u64), height = Number(height));
    push_grid(page, view, height);
}

/// Appends what is marked on both halves of a drawing.
fn push_halves(page: &mut Page, view: &View<'_>, base: u64, pauses: Pauses) {
    for (network, half) in [(Network::A, (0, base)), (Network::B, (base, base))] {
        push_blind_half(page, view, network, half);
        push_marks(page, view, network, half, pauses);
    }
}

/// How many findings of this kind are marked.
fn marked(view: &View<'_>, kind: Found) -> u64 {
    let findings = view.report.findings.all.iter();
    findings
        .filter(|one| one.kind == kind && !one.is_rest)
        .count() as u64
}

/// Appends the row of silences, steps and outages, if there are some.
pub fn push_events(page: &mut Page, view: &View<'_>) {
    let (silences, outages) = (marked(view, Found::Silence), marked(view, Found::Outage));
    let steps = marked(view, Found::ClockStep).saturating_add(marked(view, Found::SkewStep));
    if silences == 0 && steps == 0 && outages == 0 {
        return;
    }
    begin_row(page, view, EVENTS_TEXTS, 24);
    push_halves(page, view, 12, Pauses::OfAll);
    fill!(page; EVENTS; silences = Number(silences), steps = Number(steps), outages = Number(outages));
}

const EVENTS_TEXTS: Texts<'static> = (
    "events",
    "",
    "silences, clock steps and outages, A above, B below",
);

const EVENTS: &str = "\
</svg><span class=\"vl\"><small>silences $silences$, steps $steps$, outages $outages$</small></span></div>";

/// Appends dashed lines across a drawing.
fn push_limits(page: &mut Page, view: &View<'_>, high: u64, low: u64) {
    let used = view.used as u64;
    page.text("<path class=\"lim\" d=\"");
    page.path(&[("M0 ", high), ("H", used), ("M0 ", low), ("H", used)]);
    page.text("\"/>");
}

/// Appends a row of series up to its value, and gives its greatest number, at least 1.
pub fn push_row(
    page: &mut Page,
    view: &View<'_>,
    texts: Texts<'_>,
    drawing: Drawing,
    series: (&Series, &Series),
) -> u64 {
    let empty = Columns::new(view, drawing.kind, drawing.per);
    let (a, b) = (empty.with(series.0), empty.with(series.1));
    push_columns(page, view, texts, drawing, (&a, &b))
}

/// The same of a number of a link's lines.
pub fn push_link_row(
    page: &mut Page,
    view: &View<'_>,
    texts: Texts<'_>,
    drawing: Drawing,
    (link, measure): (&LinkReport, Measure),
) -> u64 {
    let empty = Columns::new(view, drawing.kind, drawing.per);
    let a = empty.with_lane(&link.lanes.a, measure);
    let b = empty.with_lane(&link.lanes.b, measure);
    push_columns(page, view, texts, drawing.of(link), (&a, &b))
}

/// Appends a row of columns up to its value, and gives its greatest number, at least 1.
fn push_columns(
    page: &mut Page,
    view: &View<'_>,
    texts: Texts<'_>,
    drawing: Drawing,
    (a, b): (&Columns, &Columns),
) -> u64 {
    let (peak, base) = (a.peak().max(b.peak()).max(1), drawing.height / 2);
    let top = peak.max(share(drawing.limit, 115, 100));
    let high = base.saturating_sub(1);
    let (above, below) = (Stair::Above(base), Stair::Below(base));
    begin_row(page, view, texts, drawing.height);
    push_halves(page, view, base, drawing.pauses);
    push_stair(page, drawing.classes.0, a, (top, high), above);
    push_stair(page, drawing.classes.1, b, (top, high), below);
    page.text("<path class=\"zl\" d=\"");
    page.path(&[("M0 ", base), ("H", view.used as u64)]);
    page.text("\"/>");
    if drawing.limit > 0 {
        let high = share(drawing.limit.min(top), high, top);
        push_limits(page, view, above.at(high), below.at(high));
    }
    page.text("</svg><span class=\"vl\">");
    peak
}

/// Where an interval stands in a band of this height: 0 at the bottom, BAG in the middle, two BAG or more at
/// the top, by the signed root of its distance from BAG.
fn interval_y(interval: u64, bag: u64, height: u64) -> u64 {
    let half = height / 2;
    let away = interval.abs_diff(bag).min(bag);
    // The root of away / bag in thousandths.
    let root = share(away, 1_000_000, bag).isqrt();
    let moved = share(root, half.saturating_sub(1), 1000);
    if interval > bag {
        half.saturating_sub(moved)
    } else {
        half.saturating_add(moved)
    }
}

/// Appends the area between the least and the greatest interval of each column, broken where there is none.
fn push_interval_band(page: &mut Page, least: &Columns, greatest: &Columns, bag: u64, height: u64) {
    let wide = least.per as u64;
    let both = least.values.iter().zip(greatest.values.iter());
    for (column, (low, high)) in both.take(least.count).enumerate() {
        if *low != NOTHING {
            let top = interval_y(*high, bag, height);
            let low = interval_y(*low, bag, height).max(top.saturating_add(2));
            let deep = low.saturating_sub(top);
            let x = wide.saturating_mul(column as u64);
            page.path(&[("M", x), (" ", top), ("h", wide)]);
            page.path(&[("v", deep), ("h-", wide)]);
            page.text("z");
        }
    }
}

/// Appends the row of a lane's intervals, up to its value.
pub fn push_intervals(
    page: &mut Page,
    view: &View<'_>,
    texts: Texts<'_>,
    drawing: Drawing,
    link: &LinkReport,
    network: Network,
) {
    let (bag, height) = (link.bag, drawing.height);
    let lane = link.lanes.of(network);
    let least = Columns::new(view, Kind::Least, drawing.per).with_lane(lane, Measure::Least);
    let greatest = Columns::new(view, Kind::Greatest, drawing.per).with_lane(
        lane,
        Measure::Greatest,
    );
    begin_row(page, view, texts, height);
    push_marks(page, view, network, (0, height), drawing.pauses);
    fill!(page; PATH; class = Text(drawing.classes.0));
    push_interval_band(page, &least, &greatest, bag, height);
    page.text("\"/>");
    let low = interval_y(bag.saturating_sub(link.jitter), bag, height);
    let high = interval_y(bag.saturating_add(link.jitter), bag, height);
    push_limits(page, view, low, high);
    page.text("</svg><span class=\"vl\">");
}

/// A label of the axis.
const LABEL: &str = "<b style=\"left:$left$%\">$at$$unit$</b>";

/// Appends the labels of a long flight's axis, times of the day in UTC.
fn push_clock_labels(page: &mut Page, view: &View<'_>, ticks: Ticks) {
    fill!(page; LABEL; left = Number(0), at = Text("UTC"));
    for tick in 0..13u64 {
        let at = ticks.at(tick);
        let place = share(at, 10_000, view.span);
        if (500..9_850).contains(&place) {
            fill!(page; LABEL; left = Hundredths(place), at = Clock(view.report.start.saturating_add(at)));
        }
    }
}

/// Appends the labels of an axis, seconds since the first line.
fn push_labels(page: &mut Page, view: &View<'_>, ticks: Ticks) {
    for tick in 0..13u64 {
        let at = ticks.at(tick);
        let place = share(at, 10_000, view.span);
        if place < 9_850 {
            fill!(page; LABEL; left = Hundredths(place), at = Tick(at),
                unit = Text(if tick == 0 { " s" } else { "" }));
        }
    }
}

/// Appends the axis.
pub fn push_axis(page: &mut Page, view: &View<'_>) {
    let ticks = Ticks::of(view);
    page.text("<div class=\"row axr\"><span></span><div class=\"ax\">");
    if view.is_long() {
        push_clock_labels(page, view, ticks);
    } else {
        push_labels(page, view, ticks);
    }
    page.text("</div><span></span></div>");
}
