//! The tables of links: all, worst first; and beside those of a baseline.

use crate::charts::Stair::{Above, Below};
use crate::charts::{Columns, Kind, push_stair};
use crate::compared::{
    REVISIONS, Revision, count_of, is_first, is_only_in, is_revised, links_for, only_in,
};
use crate::groups::{group_of, has_groups};
use crate::numbers::share;
use crate::ranks::{LEVELS, Rank, frames_of, level_at, mark_of, word_of};
use crate::sentences::push_sentence;
use crate::view::{ROWS, TROUBLES, View, counts_of, greatest_skew, has_strip};
use crate::writer::Part::{
    self, Both, Cell, Duration, Grouped, Millionths, Milliseconds, Number, Tenths, Text,
    Thousandths, Utc,
};
use crate::writer::{Page, Pair, flag};
use afdx_frame::Network;
use findings::{Findings, Level};
use ledger_report::Anomaly::{self, Alone, Early, Excess, Late, Lost, Out, TooLong};
use ledger_report::{
    CHANGES, COUNTS, Change, Count, LinkComparison, LinkNumbers, LinkReport, Measure, WORSE, Worse,
};
use vl_config::Config;

/// How many links a row of the map has.
const MAP_COLUMNS: usize = 128;
/// How many links in trouble without a row are named.
const NAMED: usize = 512;

/// The mark in the place of a number that isn't known.
const UNKNOWN: Part<'static> = Text("&#8211;");

/// The beginning of a drawing of activity.
const SPARK: &str = "\
<svg class=\"g sp\" viewBox=\"0 0 $used$ 28\" style=\"--h:28px\" preserveAspectRatio=\"none\" role=\"img\">";

/// Appends a link's activity: A over B, and a strip under the columns with signs.
fn push_spark(page: &mut Page, view: &View<'_>, link: &LinkReport) {
    let empty = Columns::new(view, Kind::Sum, view.column(link));
    let a = empty.with_lane(&link.lanes.a, Measure::Lines);
    let b = empty.with_lane(&link.lanes.b, Measure::Lines);
    let mut marks = empty;
    for &sign in &TROUBLES {
        marks = marks.with(&link.lanes.a.signs.of(sign).bins);
        marks = marks.with(&link.lanes.b.signs.of(sign).bins);
    }
    let scale = (a.peak().max(b.peak()).max(1), 11);
    fill!(page; SPARK; used = Number(view.used as u64));
    push_stair(page, "fa", &a, scale, Above(11));
    push_stair(page, "fb", &b, scale, Below(12));
    push_stair(page, "mt", &marks, (1, 3), Above(28));
    page.text("</svg>");
}

/// The class of a cell with a number, which may be wrong.
fn class_of(wrong: bool) -> Part<'static> {
    Text(if wrong { "r w" } else { "r" })
}

/// The cell of a sign's counts, of which there are none where the rule is off for the link.
fn counted(link: &LinkReport, is_on: bool, sign: Anomaly) -> Part<'static> {
    Cell(is_on.then_some(counts_of(link, sign)))
}

/// Appends the cells of what was judged.
fn push_judged(page: &mut Page, view: &View<'_>, link: &LinkReport) {
    let skew = greatest_skew(link);
    let known = link.copies > 0 || skew > 0;
    fill!(page; JUDGED; some = flag(view.total(TooLong).sum() > 0), toolong = counted(link, true, TooLong),
        excess = counted(link, true, Excess), out = counted(link, true, Out),
        lost = counted(link, link.integrity, Lost), alone = counted(link, link.redundancy, Alone),
        late = counted(link, link.redundancy, Late), class = class_of(skew > link.skew_max),
        most = if known { Grouped(skew / 1_000) } else { UNKNOWN });
}

/// The first cells of a link's row, and those after the drawing of its activity.
const LINK: &str = "\
<tr class=\"$level$\"><td><svg class=\"mk $mark$</svg></td><td class=\"r id\">$id$</td><td class=\"nm\">\
$?strip$<a href=\"#v$id$\">$/$$name$$?strip$</a>$/$</td>$?groups$<td>$group$</td>$/$<td class=\"spk\">";

const NUMBERS: &str = "\
$?none$<i class=\"z\">no frame</i>$/$</td><td class=\"p fr\">$frames$</td><td class=\"r\">$bag$</td>\
<td class=\"$early$\">$least$</td><td class=\"r ms\">$most$</td>$?sizes$<td class=\"r u\">$used$</td>$/$";

const JUDGED: &str = "\
$?some$$toolong$$/$$excess$$out$$lost$$alone$$late$<td class=\"$class$\">$most$</td></tr>";

/// How much of its allocation a link uses on a network, in tenths of a percent.
fn used_tenths(view: &View<'_>, link: &LinkReport, network: Network) -> u64 {
    let (side, lane) = (view.report.networks.of(network), link.lanes.of(network));
    let length = side.last.saturating_sub(side.first);
    let frames = share(lane.bytes, 1000, u64::from(link.smax));
    share(frames, link.bag, length)
}

/// Appends the numbers of a link's row up to what was judged.
fn push_numbers(page: &mut Page, view: &View<'_>, link: &LinkReport) {
    let (a, b) = (&link.lanes.a, &link.lanes.b);
    let used = used_tenths(view, link, Network::A).max(used_tenths(view, link, Network::B));
    let (least, most) = (a.least.min(b.least), a.greatest.max(b.greatest));
    let known = a.intervals > 0 || b.intervals > 0;
    let whole = used == 0 || used >= 100;
    fill!(page; NUMBERS; none = flag(frames_of(link) == 0), frames = Both(Pair(a.frames, b.frames)),
        bag = Number(link.bag / 1_000_000), early = class_of(counts_of(link, Early).sum() > 0),
        least = if known { Millionths(least) } else { UNKNOWN },
        most = if known { Milliseconds(most) } else { UNKNOWN },
        sizes = flag(view.sizes), used = if whole { Number(used / 10) } else { Tenths(used) });
}

/// Appends the row of a link.
fn push_link(page: &mut Page, view: &View<'_>, rank: &Rank, strip: bool) {
    let Some((link, configured)) = view.link(rank.index) else {
        return;
    };
    fill!(page; LINK; level = Text(word_of(rank.level)), mark = Text(mark_of(rank.level)),
        strip = flag(strip), id = Number(u64::from(configured.id.0)), name = Text(&configured.name),
        groups = flag(has_groups(view)), group = Text(group_of(configured).unwrap_or("")));
    if frames_of(link) > 0 {
        push_spark(page, view, link);
    }
    push_numbers(page, view, link);
    push_judged(page, view, link);
}

/// The head of the table.
const TITLES: &str = "\
<p class=\"wide\">Where the window is narrower than the table, the table scrolls: to the right are more \
columns.</p><div class=\"scroll\" tabindex=\"0\"><table><thead><tr><th></th><th class=\"r\">id</th>\
<th>link</th>$?groups$<th>group</th>$/$\
<th>activity<small>A over B, signs under it</small></th>\
<th class=\"p\">frames</th><th class=\"r\">BAG<small>ms</small></th>\
<th class=\"r\">least<small>ms apart</small></th><th class=\"r ms\">most<small>ms apart</small></th>\
$?sizes$<th class=\"r\">used<small>% of Smax/BAG</small></th>$/$\
$?toolong$<th class=\"p\">toolong</th>$/$\
<th class=\"p\">excess</th><th class=\"p\">out</th><th class=\"p\">lost</th>\
<th class=\"p\">alone</th><th class=\"p\">late</th>\
<th class=\"r\">skew<small>&#181;s, most</small></th></tr></thead><tbody>";

/// Appends the table, and a map where it doesn't have all links.
pub fn push_links(page: &mut Page, view: &View<'_>) {
    fill!(page; TITLES; groups = flag(has_groups(view)), sizes = flag(view.sizes),
        toolong = Both(view.total(TooLong)));
    for (at, rank) in view.ranks.iter().take(ROWS).enumerate() {
        push_link(page, view, rank, has_strip(rank, at));
    }
    page.text("</tbody></table></div>");
    if view.ranks.len() > ROWS {
        push_map(page, view);
        push_rest(page, view);
    }
}

/// The class of a level's squares on the map, their inset and their side.
fn square_of(level: Level) -> (&'static str, u64, u64) {
    match level {
        Level::Trouble => ("kt", 0, 9),
        Level::Notice => ("kn", 2, 6),
        Level::Silent => ("ks", 2, 6),
        Level::Info | Level::Clean => ("kc", 3, 3),
    }
}

/// The words on so many links of a level.
fn square_word(level: Level) -> &'static str {
    match level {
        Level::Trouble => "in trouble",
        Level::Notice => "with a notice",
        Level::Silent => "never seen",
        Level::Info | Level::Clean => "clean",
    }
}

/// Appends the squares of a level, where links are by rising identifier.
fn push_squares(page: &mut Page, view: &View<'_>, level: Level) {
    let (class, inset, side) = square_of(level);
    fill!(page; "<path class=\"$class$\" d=\""; class = Text(class));
    for index in 0..view.report.links.len() {
        if level_at(view.report, index) == level {
            let x = (index % MAP_COLUMNS).saturating_mul(10) as u64;
            let y = (index / MAP_COLUMNS).saturating_mul(10) as u64;
            page.path(&[
                ("M", x.saturating_add(inset)),
                (" ", y.saturating_add(inset)),
            ]);
            page.path(&[("h", side), ("v", side), ("h-", side)]);
            page.text("z");
        }
    }
    page.text("\"/>");
}

/// Appends the map of all links.
fn push_map(page: &mut Page, view: &View<'_>) {
    let links = view.report.links.len();
    fill!(page; "<h3 class=\"mh\">All $links$ links by rising id, $columns$ to a row";
        links = Grouped(links as u64), columns = Number(MAP_COLUMNS as u64));
    for &level in &LEVELS {
        fill!(page; ", <svg class=\"mk $mark$</svg> $count$ $word$"; mark = Text(mark_of(level)),
            count = Grouped(view.count_of(level)), word = Text(square_word(level)));
    }
    let height = links.div_ceil(MAP_COLUMNS).saturating_mul(10) as u64;
    fill!(page; "</h3><svg class=\"rest\" viewBox=\"0 0 $width$ $height$\">";
        width = Number(MAP_COLUMNS as u64 * 10), height = Number(height));
    for &level in &LEVELS {
        push_squares(page, view, level);
    }
    page.text("</svg>");
}

/// Appends the identifiers of links in trouble that have no row.
fn push_rest(page: &mut Page, view: &View<'_>) {
    let troubled = view.count_of(Level::Trouble) as usize;
    let rest = troubled.saturating_sub(ROWS);
    let before = "<p class=\"ids\">In trouble without a row above, by id, worst first:";
    page.text(if rest > 0 { before } else { "" });
    for rank in view.ranks.iter().skip(ROWS).take(rest.min(NAMED)) {
        if let Some((link, _)) = view.link(rank.index) {
            page.path(&[(" ", u64::from(link.id.0))]);
        }
    }
    let more = Number(rest.saturating_sub(NAMED) as u64);
    fill!(page; "$?more$ and $more$ more$/$$?rest$</p>$/$"; more, rest = flag(rest > 0));
}

/// The word of a count.
pub fn count_word(count: Count) -> &'static str {
    match count {
        Count::TooLong => "toolong",
        Count::Excess => "excess",
        Count::Out => "out",
        Count::Lost => "lost",
        Count::LostBoth => "lost_both",
        Count::Repeat => "repeat",
        Count::Reset => "reset",
        Count::Alone => "alone",
        Count::Late => "late",
    }
}

/// The word of a way to get worse: that of the count that grew.
pub fn worse_word(how: Worse) -> &'static str {
    match how {
        Worse::LostCopies => "lost_copies",
        Worse::New => "new",
        Worse::Silent => "silent",
        Worse::Grew(count) => count_word(count),
    }
}

/// The word of a way to be otherwise: that of the count that changed.
pub fn change_word(how: Change) -> &'static str {
    match how {
        Change::Rate => "rate",
        Change::Skew => "skew",
        Change::Share(count) => count_word(count),
    }
}

/// The title of the section on a baseline, and of the columns of its table.
const COMPARISON: &str = "\
<section><h2>Compared with the baseline <small>today over baseline, whose t = 0 is $start$, \
with $frames$ frames in $length$; $worse$ of $links$ links got worse: a count did where it is at least \
3 more, and more than twice as many by frame; $changed$ more are otherwise: in rate by more than a quarter, \
in median skew to more than twice or less than half and by 10 &#181;s, or in a count to less than half\
</small></h2>@findings@@tables@\
<div class=\"scroll\"><table><thead><tr><th class=\"r\">id</th><th>link</th><th>otherwise</th>\
<th class=\"r\">frames<small>by second</small></th><th class=\"r\">copies</th>\
<th class=\"r\">least<small>ms apart</small></th><th class=\"r\">skew<small>&#181;s, most</small></th>";

/// A cell: today's number over the baseline's.
const CELL: &str = "<td class=\"$class$\">$today$<br/><i>$before$</i></td>";

/// Thousandths, where they are known.
fn thousandths(number: Option<u64>) -> Part<'static> {
    number.map_or(UNKNOWN, |number| Thousandths(number))
}

/// How many there are in a thousand frames of a link in a flight.
fn share_in(numbers: Option<LinkNumbers>, count: Count) -> Part<'static> {
    thousandths(numbers.and_then(|numbers| numbers.share(count)))
}

/// The cells of a link's numbers in a flight, but those of counts.
fn cells_of(numbers: Option<LinkNumbers>) -> [Part<'static>; 4] {
    let Some(numbers) = numbers else {
        return [UNKNOWN; 4];
    };
    [
        thousandths(numbers.rate()),
        Grouped(numbers.copies),
        numbers.least.map_or(UNKNOWN, |least| Millionths(least)),
        numbers.skew.map_or(UNKNOWN, |skew| Grouped(skew / 1_000)),
    ]
}

/// Appends in which ways a link is otherwise, but not worse.
fn push_changes(page: &mut Page, link: &LinkComparison) {
    page.text("<i>");
    for how in CHANGES.iter().filter(|how| link.is_changed(**how)) {
        let is_told = matches!(how, Change::Share(count) if link.is_worse(Worse::Grew(*count)));
        if !is_told {
            fill!(page; "$word$ "; word = Text(change_word(*how)));
        }
    }
    page.text("</i>");
}

/// Appends the row of a link beside that of the baseline.
fn push_compared(page: &mut Page, view: &View<'_>, index: usize) {
    let Some((link, configured)) = view.compared(index) else {
        return;
    };
    fill!(page; "<tr><td class=\"r id\">$id$</td><td class=\"nm\">$name$</td><td class=\"w\">";
        id = Number(u64::from(link.link.0)), name = Text(&configured.name));
    for how in WORSE.iter().filter(|how| link.is_worse(**how)) {
        fill!(page; "$word$ "; word = Text(worse_word(*how)));
    }
    push_changes(page, &link);
    page.text("</td>");
    let (cells, past) = (cells_of(link.today), cells_of(link.baseline));
    for (today, before) in cells.iter().zip(past.iter()) {
        fill!(page; CELL; class = Text("r"), today = *today, before = *before);
    }
    for &count in &COUNTS {
        fill!(page; CELL; class = class_of(link.is_worse(Worse::Grew(count))),
            today = share_in(link.today, count), before = share_in(link.baseline, count));
    }
    page.text("</tr>");
}

/// Is a link worse, else otherwise, than in the baseline?
type Group = (bool, bool);

/// Appends the rows of the first links of a group, so many at most.
fn push_rows(page: &mut Page, view: &View<'_>, group: Group, most: usize) {
    let ranks = view.ranks.iter();
    for rank in ranks
        .filter(|rank| (view.is_worse(rank.index), view.is_changed(rank.index)) == group)
        .take(most)
    {
        push_compared(page, view, rank.index);
    }
}

/// Appends the section, where there is a baseline: links that got worse first.
pub fn push_comparison(page: &mut Page, view: &View<'_>, before: Option<&View<'_>>) {
    let Some(before) = before else {
        return;
    };
    let baseline = before.report;
    let (links, worse) = (view.ranks.len(), view.worse_links());
    let changed = view.changed_links();
    let parts =
        parts! { start = Utc(baseline.start), frames = Grouped(baseline.counted().all().frames),
        length = Duration(baseline.end.saturating_sub(baseline.start)), worse = Grouped(worse as u64),
        changed = Grouped(changed as u64), links = Grouped(links as u64) };
    for (at, piece) in COMPARISON.split('@').enumerate() {
        match (at, piece) {
            (1, _) => push_gone(page, view, before),
            (3, _) => push_revisions(page, view.config, before.config),
            _ => page.fill(piece, &parts),
        }
    }
    push_compared_links(page, view, links, (worse, changed));
}

/// How many findings of the baseline that are gone have a line.
const GONE: usize = 24;

/// Appends the findings that the baseline has alone, and how many of each kind there are in both.
fn push_gone(page: &mut Page, view: &View<'_>, before: &View<'_>) {
    let (today, then) = (&view.report.findings, &before.report.findings);
    fill!(page; FOUND; new = Number(only_in(today, then)), gone = Number(only_in(then, today)));
    push_kinds(page, today, then, true);
    push_kinds(page, then, today, false);
    page.text("</p>");
    for finding in then
        .all
        .iter()
        .filter(|one| is_only_in(one, today))
        .take(GONE)
    {
        page.text("<p class=\"ids\">gone: ");
        push_sentence(page, before, finding, ("<b>", "</b>"), false);
        page.text("</p>");
    }
}

const FOUND: &str = "\
<p class=\"ids\">Findings new since the baseline: $new$, gone: $gone$. By kind, today over baseline:";

/// Appends how many findings of each kind there are: of the kinds of today, or of those of the baseline
/// alone.
fn push_kinds(page: &mut Page, own: &Findings, others: &Findings, is_today: bool) {
    for (at, finding) in own.all.iter().enumerate() {
        let (here, there) = (count_of(own, finding.kind), count_of(others, finding.kind));
        if is_first(own, at) && (is_today || there == 0) {
            let (today, then) = if is_today {
                (here, there)
            } else {
                (there, here)
            };
            fill!(page; " &#183; $word$ $today$/$then$"; word = Text(finding.kind.word()),
                today = Grouped(today), then = Grouped(then));
        }
    }
}

/// How many links of a revision are named.
const REVISED: usize = 24;

/// Appends in which links the tables differ.
fn push_revisions(page: &mut Page, today: &Config, before: &Config) {
    for &how in &REVISIONS {
        push_revision(page, today, before, how);
    }
}

/// Appends the links in which the tables differ so.
fn push_revision(page: &mut Page, today: &Config, before: &Config, how: Revision) {
    let mut named = 0usize;
    let links = links_for(today, before, how).iter();
    for link in links.filter(|link| is_revised(today, before, how, link.id)) {
        if named == 0 {
            fill!(page; "<p class=\"ids\">Links of the table $word$:"; word = Text(how.word()));
        }
        if named < REVISED {
            fill!(page; " $id$ $name$"; id = Number(u64::from(link.id.0)), name = Text(&link.name));
        }
        named = named.saturating_add(1);
    }
    let more = named.saturating_sub(REVISED) as u64;
    fill!(page; "$?more$ and $more$ more$/$$?some$</p>$/$"; more = Number(more), some = flag(named > 0));
}

/// Appends the heads of the counts' columns, and the rows: those that got worse first.
fn push_compared_links(
    page: &mut Page,
    view: &View<'_>,
    links: usize,
    (worse, changed): (usize, usize),
) {
    for &count in &COUNTS {
        let word = Text(count_word(count));
        fill!(page; "<th class=\"r\">$word$<small>in 1000 frames</small></th>"; word);
    }
    page.text("</tr></thead><tbody>");
    push_rows(page, view, (true, false), ROWS);
    push_rows(page, view, (false, true), ROWS.saturating_sub(worse));
    push_rows(
        page,
        view,
        (false, false),
        ROWS.saturating_sub(worse).saturating_sub(changed),
    );
    let more = Grouped(links.saturating_sub(ROWS) as u64);
    fill!(page; "</tbody></table></div>$?more$<p class=\"ids\">and $more$ more links</p>$/$</section>"; more);
}
