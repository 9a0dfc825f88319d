//! The first part of the report as lines for a terminal.

use crate::compared::{REVISIONS, is_new, is_only_in, is_revised, links_for, only_in};
use crate::page::{asked, push_stop};
use crate::ranks::word_of;
use crate::sentences::push_sentence;
use crate::tables::{change_word, count_word, worse_word};
use crate::view::{Shown, View, links_word};
use crate::writer::Part::{Duration, Number, Since, Text, Thousandths};
use crate::writer::{Page, Part, flag};
use findings::{Finding, Level};
use ledger_report::{CHANGES, LinkComparison, LinkNumbers, WORSE, Worse};
use std::alloc::{AllocError, Global};
use vl_config::Config;

/// How many findings are told.
const FINDINGS: usize = 20;
/// How many links that got worse since a baseline have a line.
const WORSE_LINKS: usize = 14;
/// How many columns a line has, and how many a level's word takes.
const COLUMNS: usize = 80;

const LEVEL_COLUMNS: usize = 9;

const PART: &str = "\
a part:$?from$ from $from$$/$$?to$ to $to$$/$$?link$ links $link$$/$$?network$ network $network$$/$\
$?partial$ lines of cut --ledger-only$/$\n";

/// Appends of which part of a ledger the text is, if it is of one.
fn push_part(page: &mut Page, view: &View<'_>) {
    let zoom = view.zoom;
    if zoom.is_part() {
        fill!(page; PART; from = asked(zoom.from), to = asked(zoom.to), link = asked(zoom.link),
            network = asked(zoom.network), partial = flag(zoom.partial));
    }
}

fn push_head(page: &mut Page, view: &View<'_>) {
    push_part(page, view);
    let all = view.report.counted().all();
    fill!(page; "length $length$, frames $frames$, delivered $delivered$, copies $copies$\n";
        length = Since(view.report.end.saturating_sub(view.report.start)), frames = Number(all.frames),
        delivered = Number(all.delivered), copies = Number(all.copy));
    let [links, trouble, notice, silent, clean] = view.levels();
    fill!(page; LINKS; links, trouble, notice, silent, clean);
    if let Some(stop) = view.report.stop {
        push_stop(page, stop);
        page.text("\n");
    }
}

const LINKS: &str = "\
links $links$: $trouble$ in trouble, $notice$ with a notice, $silent$ never seen, $clean$ clean\n";

/// Appends a text in lines, those after the first indented as the level's word is wide.
fn push_wrapped(page: &mut Page, text: &str) {
    let mut column = LEVEL_COLUMNS;
    for (at, word) in text.split(' ').enumerate() {
        let width = word.chars().count().saturating_add(1);
        if at > 0 && column.saturating_add(width) > COLUMNS {
            page.text("\n         ");
            column = LEVEL_COLUMNS;
        } else if at > 0 {
            page.text(" ");
        }
        page.text(word);
        column = column.saturating_add(width);
    }
    page.text("\n");
}

/// Appends a finding.
fn push_finding(page: &mut Page, alloc: Global, view: &View<'_>, finding: &Finding) {
    let mut text = Page::plain(alloc);
    text.text(if is_new(view, finding) { "new: " } else { "" });
    push_sentence(&mut text, view, finding, ("", ""), false);
    page.level(word_of(finding.level));
    let text = page.written_on(&text);
    push_wrapped(page, text);
}

/// How many findings beyond those that are told have a level.
fn beyond(view: &View<'_>, level: Level) -> u64 {
    let findings = view.report.findings.all.iter().skip(FINDINGS);
    findings.filter(|finding| finding.level == level).count() as u64
}

const MORE: &str = "\
and $more$ more, by level:$?trouble$ trouble $trouble$$/$$?notice$ notice $notice$$/$\
$?silent$ silent $silent$$/$$?info$ info $info$$/$\n";

const NOTHING: &str = "\
Nothing found: each number, interval, skew and verdict was looked at. A ledger\n\
doesn't tell what frames hold, nor their source addresses and tags.\n";

/// The same, where a manifest tells more.
const NOTHING_BY_MANIFEST: &str = "\
Nothing found: each number, interval, skew and verdict was looked at. By the\n\
manifest no source address and no tag is wrong, and no packet was dropped. A\n\
ledger doesn't tell what frames hold.\n";

/// Appends the findings, worst first.
fn push_findings(page: &mut Page, alloc: Global, view: &View<'_>) {
    let findings = view.report.findings.all.as_slice();
    for finding in findings.iter().take(FINDINGS) {
        push_finding(page, alloc, view, finding);
    }
    let more = findings.len().saturating_sub(FINDINGS) as u64;
    if more > 0 {
        fill!(page; MORE; more = Number(more), trouble = Number(beyond(view, Level::Trouble)),
            notice = Number(beyond(view, Level::Notice)), silent = Number(beyond(view, Level::Silent)),
            info = Number(beyond(view, Level::Info)));
    }
    let none = findings.iter().all(|finding| finding.level == Level::Info);
    page.text(match (none, view.tells_traffic()) {
        (false, _) => "",
        (true, false) => NOTHING,
        (true, true) => NOTHING_BY_MANIFEST,
    });
}

/// Appends the line of a link that got worse: frames by second today and in the baseline, and in which ways.
fn push_worse(page: &mut Page, view: &View<'_>, link: &LinkComparison, name: &str) {
    page.columns("worse", u64::from(link.link.0));
    fill!(page; " $name$"; name = Text(name));
    for (word, numbers) in [("frames/s", link.today), ("baseline", link.baseline)] {
        let rate = numbers.map_or(Some(0), |numbers| numbers.rate());
        let rate = rate.map_or(Text("-"), |rate| Thousandths(rate));
        fill!(page; " $word$ $rate$"; word = Text(word), rate);
    }
    for how in WORSE.iter().filter(|how| link.is_worse(**how)) {
        match (how, link.today, link.baseline) {
            (Worse::Grew(count), Some(today), Some(before)) => {
                fill!(page; " $word$ $now$ baseline $then$"; word = Text(count_word(*count)),
                    now = Number(today.count(*count)), then = Number(before.count(*count)));
            }
            _ => fill!(page; " $word$"; word = Text(worse_word(*how))),
        }
    }
    page.text("\n");
}

/// Appends how many findings are new since the baseline, and those that are gone.
fn push_gone(page: &mut Page, alloc: Global, view: &View<'_>, before: &View<'_>) {
    let (today, then) = (&view.report.findings, &before.report.findings);
    fill!(page; "findings new since the baseline: $new$, gone: $gone$\n"; new = Number(only_in(today, then)),
        gone = Number(only_in(then, today)));
    for finding in then
        .all
        .iter()
        .filter(|one| is_only_in(one, today))
        .take(FINDINGS)
    {
        let mut text = Page::plain(alloc);
        push_sentence(&mut text, before, finding, ("", ""), false);
        page.level("gone");
        let text = page.written_on(&text);
        push_wrapped(page, text);
    }
}

/// Appends how many links of the tables differ, if some do.
fn push_revisions(page: &mut Page, today: &Config, before: &Config) {
    for &how in &REVISIONS {
        let links = links_for(today, before, how).iter();
        let links = links.filter(|link| is_revised(today, before, how, link.id));
        fill!(page; "$?links$links $word$ in the table: $links$\n$/$"; links = Number(links.count() as u64),
            word = Text(how.word()));
    }
}

/// A link's frames a second.
fn rate_part(numbers: Option<LinkNumbers>) -> Part<'static> {
    match numbers.and_then(|numbers| numbers.rate()) {
        Some(rate) => Thousandths(rate),
        None => Text("-"),
    }
}

/// A link's median skew.
fn skew_part(numbers: Option<LinkNumbers>) -> Part<'static> {
    match numbers.and_then(|numbers| numbers.skew_median) {
        Some(skew) => Duration(skew),
        None => Text("-"),
    }
}

/// Appends the line of a link that is otherwise, and not worse.
fn push_changed(page: &mut Page, link: &LinkComparison, name: &str) {
    page.columns("changed", u64::from(link.link.0));
    fill!(page; " $name$"; name = Text(name));
    for how in CHANGES.iter().filter(|how| link.is_changed(**how)) {
        fill!(page; " $word$"; word = Text(change_word(*how)));
    }
    fill!(page; ": frames/s $today$ baseline $before$"; today = rate_part(link.today),
        before = rate_part(link.baseline));
    fill!(page; ", skew $today$ baseline $before$\n"; today = skew_part(link.today),
        before = skew_part(link.baseline));
}

/// Appends a line for each of the first links that are otherwise than in the baseline, and not worse.
fn push_changes(page: &mut Page, view: &View<'_>) {
    let changed = view.changed_links();
    fill!(page; "links otherwise than in the baseline: $changed$\n"; changed = Number(changed as u64));
    let ranks = view.ranks.iter().filter(|rank| view.is_changed(rank.index));
    for rank in ranks.take(WORSE_LINKS) {
        if let Some((link, configured)) = view.compared(rank.index) {
            push_changed(page, &link, &configured.name);
        }
    }
    let more = changed.saturating_sub(WORSE_LINKS) as u64;
    fill!(page; "$?more$and $more$ more $links$\n$/$"; more = Number(more), links = links_word(more));
}

/// Appends a line for each of the first links that got worse since the baseline.
fn push_comparison(page: &mut Page, view: &View<'_>) {
    let worse = view.worse_links();
    fill!(page; "links worse than in the baseline: $worse$\n"; worse = Number(worse as u64));
    let ranks = view.ranks.iter().filter(|rank| view.is_worse(rank.index));
    for rank in ranks.take(WORSE_LINKS) {
        if let Some((link, configured)) = view.compared(rank.index) {
            push_worse(page, view, &link, &configured.name);
        }
    }
    let more = worse.saturating_sub(WORSE_LINKS) as u64;
    fill!(page; "$?more$and $more$ more $links$ got worse\n$/$"; more = Number(more),
        links = links_word(more));
}

/// The first part of a report as text: its findings in lines of at most 80 columns. Where there is a
/// baseline, a line for each of the first links that got worse stands before them.
///
/// # Errors
///
/// The system is out of memory.
pub fn summary_of(alloc: Global, shown: &Shown<'_>) -> Result<String, AllocError> {
    let view = View::new(alloc, shown)?;
    let mut page = Page::plain(alloc);
    push_head(&mut page, &view);
    page.text(view.transit.unwrap_or(""));
    if let Some(before) = View::of_baseline(alloc, shown)? {
        push_revisions(&mut page, view.config, before.config);
        push_comparison(&mut page, &view);
        push_changes(&mut page, &view);
        push_gone(&mut page, alloc, &view, &before);
    }
    push_findings(&mut page, alloc, &view);
    page.into_text()
}
