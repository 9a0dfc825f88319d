//! The list of what to look at first: the findings, worst first.

use crate::compared::is_new;
use crate::cut_command::push_cut;
use crate::ranks::mark_of;
use crate::sentences::push_sentence;
use crate::tables::{change_word, worse_word};
use crate::view::View;
use crate::writer::Part::{Grouped, Number, Text, Utc};
use crate::writer::{Page, flag};
use afdx_frame::VlId;
use findings::Level;
use ledger_report::{Change, Count, Report, WORSE, Worse, is_new_outside};

/// The most findings that are told on a page.
const SHOWN: usize = 200;

const ITEM: &str = "<li><svg class=\"mk $mark$</svg><span>";

const WHEN: &str = "\
<details><summary>when, and how to cut it</summary><p>from $from$ to $to$: $count$ sign$s$</p><code>";

/// The mark before a finding that the baseline doesn't have.
const NEW: &str = "<i class=\"new\">new</i> ";

/// How many links a sentence on the baseline names.
const NAMED: usize = 3;

/// The beginning of the sentence on links that got worse so.
fn title_of(how: Worse) -> &'static str {
    match how {
        Worse::LostCopies => "Lost its copies since the baseline",
        Worse::New => "New since the baseline",
        Worse::Silent => "Silent since the baseline",
        Worse::Grew(Count::LostBoth) => "More missing on both networks (lost) than in the baseline",
        Worse::Grew(_) => "More $word$ than in the baseline",
    }
}

/// Appends which links got worse so since the baseline.
fn push_worse(page: &mut Page, view: &View<'_>, how: Worse) {
    let mut named = 0usize;
    for rank in view.ranks.iter() {
        let Some((link, configured)) = view.compared(rank.index) else {
            continue;
        };
        if !link.is_worse(how) {
            continue;
        }
        if named == 0 {
            fill!(page; ITEM; mark = Text(mark_of(Level::Trouble)));
            page.text("<b>");
            fill!(page; title_of(how); word = Text(worse_word(how)));
            page.text(":</b> ");
        }
        if named < NAMED {
            fill!(page; "$?follows$, $/$$name$"; follows = flag(named > 0), name = Text(&configured.name));
        }
        named = named.saturating_add(1);
    }
    if named > 0 {
        let more = named.saturating_sub(NAMED) as u64;
        fill!(page; "$?more$ and $more$ more$/$</span></li>"; more = Number(more));
    }
}

/// Appends which links that didn't get worse have another rate or skew since the baseline.
fn push_changed(page: &mut Page, view: &View<'_>, how: Change) {
    let mut named = 0usize;
    for rank in view.ranks.iter() {
        let Some((link, configured)) = view.compared(rank.index) else {
            continue;
        };
        if view.is_worse(rank.index) || !link.is_changed(how) {
            continue;
        }
        if named == 0 {
            fill!(page; ITEM; mark = Text(mark_of(Level::Notice)));
            fill!(page; "<b>Another $word$ than in the baseline:</b> "; word = Text(change_word(how)));
        }
        if named < NAMED {
            fill!(page; "$?follows$, $/$$name$"; follows = flag(named > 0), name = Text(&configured.name));
        }
        named = named.saturating_add(1);
    }
    if named > 0 {
        let more = named.saturating_sub(NAMED) as u64;
        fill!(page; "$?more$ and $more$ more$/$</span></li>"; more = Number(more));
    }
}

/// Appends the links outside the table that the baseline doesn't have.
fn push_new_outside(page: &mut Page, view: &View<'_>, baseline: &Report) {
    let mut named = 0usize;
    for id in (0..=u16::MAX).filter(|id| is_new_outside(view.report, baseline, VlId(*id))) {
        if named == 0 {
            fill!(page; ITEM; mark = Text(mark_of(Level::Notice)));
            page.text("<b>New since the baseline, outside the table:</b> ");
        }
        if named < NAMED {
            fill!(page; "$?follows$, $/$link $id$"; follows = flag(named > 0), id = Number(u64::from(id)));
        }
        named = named.saturating_add(1);
    }
    if named > 0 {
        let more = named.saturating_sub(NAMED) as u64;
        fill!(page; "$?more$ and $more$ more$/$</span></li>"; more = Number(more));
    }
}

/// Appends the findings, with a baseline what got worse before them.
pub fn push_findings(page: &mut Page, view: &View<'_>) {
    if let Some(baseline) = view.baseline {
        for &how in &WORSE {
            push_worse(page, view, how);
        }
        for how in [Change::Rate, Change::Skew] {
            push_changed(page, view, how);
        }
        push_new_outside(page, view, baseline);
    }
    push_all(page, view);
}

/// Appends the findings.
fn push_all(page: &mut Page, view: &View<'_>) {
    let findings = view.report.findings.all.as_slice();
    for finding in findings.iter().take(SHOWN) {
        fill!(page; ITEM; mark = Text(mark_of(finding.level)));
        page.text(if is_new(view, finding) { NEW } else { "" });
        push_sentence(page, view, finding, ("<b>", "</b>"), true);
        let (from, to) = (
            view.stamp(finding.span.from.0),
            view.stamp(finding.span.to.0),
        );
        fill!(page; WHEN; from = Utc(from), to = Utc(to), count = Grouped(finding.count),
            s = Text(if finding.count == 1 { "" } else { "s" }));
        push_cut(page, view, finding);
        page.text("</code></details></span></li>");
    }
    page.text("</ol>");
    let more = findings.len().saturating_sub(SHOWN) as u64;
    fill!(page; "$?more$<p class=\"none\">and $more$ more</p>$/$"; more = Number(more));
    let none = findings.iter().all(|finding| finding.level == Level::Info);
    if none {
        push_nothing(page, view);
    }
}

const NOTHING: &str = "\
<p class=\"none\">Nothing found: $frames$ frames of $links$ links in $length$ were looked at, each \
number, interval, \
skew and verdict. $?told$By the manifest no source address and no tag is wrong, and no packet was \
dropped. A ledger doesn't tell what frames hold.$/$$?untold$A ledger doesn't tell what frames hold, nor \
their source addresses and tags.$/$</p>";

/// Appends that nothing was found, and what was looked at.
fn push_nothing(page: &mut Page, view: &View<'_>) {
    let told = view.tells_traffic();
    fill!(page; NOTHING; told = flag(told), untold = flag(!told),
        frames = Grouped(view.report.counted().all().frames),
        links = Grouped(view.report.links.len() as u64), length = view.length());
}
