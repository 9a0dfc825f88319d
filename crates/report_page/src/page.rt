//! The page.

use crate::charts::is_silence;
use crate::finding_list::push_findings;
use crate::numbers::quotient;
use crate::rows::{push_strips, push_timeline};
use crate::tables::{push_comparison, push_links};
use crate::text;
use crate::view::{DISCARDS, SIGNS, Shown, View, greatest_skew};
use crate::writer::Part::{self, Both, Duration, Given, Grouped, Number, Percent, Text, Utc};
use crate::writer::{Named, Page, Pair, flag};
use afdx_frame::Network::{self, A, B};
use ledger_report::Anomaly::{Alone, Late, Lost};
use ledger_report::{LinkReport, TapEnd, TapEnding};
use ledger_text::LedgerStop;
use run_manifest::{FileRecord, Manifest, RecordingRecord};
use std::alloc::{AllocError, Global};
use vl_config::Link;

/// A text that may be absent.
pub(crate) fn given_if(text: &Option<String>) -> Part<'_> {
    text.as_ref().map_or(Text(""), |text| Given(text))
}

fn push_file<'x>(page: &mut Page, word: &'x str, file: Option<&'x FileRecord>) {
    if let Some(file) = file {
        fill!(page; text::FILE; word = Text(word), path = Given(&file.path), bytes = Grouped(file.bytes),
            sha256 = given_if(&file.sha256));
    }
}

fn push_recording<'x>(page: &mut Page, word: &'x str, file: Option<&'x RecordingRecord>) {
    let Some(file) = file else {
        return;
    };
    let spans = file.first_utc.is_some() && file.last_utc.is_some();
    let files = match &file.files {
        Some(files) => files.as_slice(),
        None => &[],
    };
    let more = (files.len() as u64).saturating_sub(1);
    let dropped = file.dropped.unwrap_or(0);
    fill!(page; text::FILE; word = Text(word), path = Given(&file.path), one = flag(more == 1),
        more = Number(if more > 1 { more } else { 0 }), spans = flag(spans),
        first = given_if(&file.first_utc), last = given_if(&file.last_utc),
        bytes = Grouped(file.bytes.unwrap_or(0)), frames = Grouped(file.frames.unwrap_or(0)),
        counted = flag(file.frames.is_some()), end = given_if(&file.end), reason = given_if(&file.reason),
        sha256 = given_if(&file.sha256), dropped = Grouped(dropped), several = flag(dropped > 1));
    for (at, file) in files.iter().enumerate() {
        fill!(page; text::ONE_FILE; word = Text(word), number = Number(at as u64 + 1),
            path = Given(&file.path), bytes = Grouped(file.bytes), sha256 = given_if(&file.sha256));
    }
}

/// Appends the program that ran, its command line, and its files; where they aren't known, the table that
/// the ledger is taken to be of.
fn push_run(page: &mut Page, view: &View<'_>) {
    let Some(manifest) = view.manifest else {
        fill!(page; text::UNTIED; table = Given(view.table));
        return;
    };
    let (program, inputs, outputs) = (&manifest.program, &manifest.inputs, &manifest.outputs);
    fill!(page; text::RUN; name = Given(&program.name), version = Given(&program.version),
        commit = Given(&program.commit));
    for argument in &manifest.command {
        fill!(page; "$argument$ "; argument = Given(argument));
    }
    fill!(page; "</code>$?fault$<br/>it met a fault: $fault$$/$"; fault = given_if(&manifest.fault));
    push_file(page, "table", Some(&inputs.config));
    push_file(page, "filter", inputs.filter.as_ref());
    push_recording(page, "A", inputs.a.as_ref());
    push_recording(page, "B", inputs.b.as_ref());
    push_file(page, "capture", outputs.capture.as_ref());
    push_file(page, "ledger", Some(&outputs.ledger));
    page.text("</p>");
}

/// Appends how many frames each filter of the table accepted.
fn push_filters(page: &mut Page, view: &View<'_>) {
    for (filter, accepted) in view.filters().iter().enumerate() {
        fill!(page; " &#183; filter $filter$ accepted $accepted$"; filter = Number(filter as u64),
            accepted = Grouped(*accepted));
    }
}

/// How many frames were discarded.
fn discards_of(view: &View<'_>) -> u64 {
    let mut discards = 0u64;
    for sign in SIGNS.iter().take(DISCARDS) {
        discards = discards.saturating_add(view.total(*sign).sum());
    }
    discards
}

/// Appends the counts of the reasons for which frames were discarded.
fn push_reasons(page: &mut Page, view: &View<'_>) {
    let mut shown = false;
    for sign in SIGNS.iter().take(DISCARDS) {
        let count = view.total(*sign).sum();
        if count > 0 {
            page.text(if shown { " &#183; " } else { "" });
            fill!(page; "$word$ $count$"; word = Text(sign.word()), count = Grouped(count));
            shown = true;
        }
    }
    page.text(if shown { "" } else { "none" });
}

/// How long a network is silent.
fn silent_on(view: &View<'_>, network: Network) -> Part<'static> {
    let mut silent = 0u64;
    for finding in &view.report.findings.all {
        if is_silence(finding, network) {
            silent = silent.saturating_add(finding.span.length().0.unsigned_abs());
        }
    }
    Duration(silent)
}

/// Appends the greatest skew in ratio to SkewMax, and the link that has it.
fn push_skew(page: &mut Page, view: &View<'_>) {
    let mut worst: Option<(u64, &LinkReport, &Link)> = None;
    for (link, configured) in view.report.links.iter().zip(view.config.links().iter()) {
        let skew = greatest_skew(link).saturating_mul(1000);
        let ratio = quotient(skew, link.skew_max.max(1));
        if link.copies > 0 && worst.is_none_or(|(most, _, _)| ratio > most) {
            worst = Some((ratio, link, configured));
        }
    }
    let Some((_, link, configured)) = worst else {
        return page.text("&#8211;</p><p class=\"sub\">no pair of copies");
    };
    fill!(page; "$skew$</p><p class=\"sub\">$name$, SkewMax $most$ &#183; $late$ late";
        skew = Duration(greatest_skew(link)), name = Text(&configured.name), most = Duration(link.skew_max),
        late = Grouped(view.total(Late).sum()));
}

/// Is the recording read to its end, and whole?
pub fn is_clean(ending: &Option<TapEnding>) -> bool {
    matches!(ending, Some(ending) if ending.end == TapEnd::Clean)
}

/// How a recording ends, in a word.
pub fn end_word(end: TapEnd) -> &'static str {
    match end {
        TapEnd::Clean => "clean",
        TapEnd::Cut => "cut",
        TapEnd::Bad => "bad",
    }
}

/// Appends how a recording ends.
pub fn push_ending(page: &mut Page, ending: &Option<TapEnding>) {
    match ending {
        Some(ending) =>
            fill!(page; "$end$ $frames$$?reason$ $reason$$/$"; end = Text(end_word(ending.end)),
                frames = Grouped(ending.frames), reason = Text(&ending.reason)),
        None => page.text("not told"),
    }
}

/// Appends where a ledger ends that isn't whole.
pub fn push_stop(page: &mut Page, stop: LedgerStop) {
    fill!(page; text::STOP; within = flag(stop.within_line), without = flag(!stop.within_line),
        next = Number(stop.lines.saturating_add(1)), lines = Number(stop.lines));
}

/// The text that was asked for, if it was.
pub fn asked(text: Option<&str>) -> Part<'_> {
    text.map_or(Text(""), |text| Given(text))
}

/// Appends of which part of a ledger the page is, if it is of one.
fn push_part(page: &mut Page, view: &View<'_>) {
    let zoom = view.zoom;
    if zoom.is_part() {
        fill!(page; text::PART; from = asked(zoom.from), to = asked(zoom.to), link = asked(zoom.link),
            network = asked(zoom.network), partial = flag(zoom.partial));
    }
}

/// Appends what a hole `@name@` of the skeleton stands for.
fn push_section(page: &mut Page, view: &View<'_>, before: Option<&View<'_>>, name: &str) {
    match name {
        "filters" => push_filters(page, view),
        "part" => push_part(page, view),
        "run" => push_run(page, view),
        "reasons" => push_reasons(page, view),
        "skew" => push_skew(page, view),
        "ending a" => push_ending(page, &view.report.endings.a),
        "ending b" => push_ending(page, &view.report.endings.b),
        "findings" => push_findings(page, view),
        "timeline" => push_timeline(page, view),
        "transit" => page.text(view.transit.unwrap_or("")),
        "links" => push_links(page, view),
        "strips" => push_strips(page, view),
        "comparison" => push_comparison(page, view, before),
        _ => match view.report.stop {
            _ if view.zoom.partial => page.text(text::PARTIAL),
            None => page.text(text::WHOLE),
            Some(stop) => push_stop(page, stop),
        },
    }
}

/// The words on what ties the table to the ledger.
fn tie_of(manifest: Option<&Manifest>) -> &'static str {
    match manifest {
        None => text::NOT_TIED,
        Some(manifest) if manifest.outputs.ledger.sha256.is_some() => text::TIED_BY_DIGESTS,
        Some(_) => text::TIED,
    }
}

/// The words on how the ledger tells sizes.
fn sizes_text(view: &View<'_>) -> &'static str {
    if view.report.has_lengths {
        text::LENGTHS
    } else if view.sizes {
        text::SIZES
    } else {
        text::NO_SIZES
    }
}

/// The parts of the skeleton.
fn parts_of<'a>(view: &View<'a>) -> [Named<'a>; 27] {
    let (report, networks, all) = (
        view.report,
        &view.report.networks,
        view.report.counted().all(),
    );
    let (lost, alone) = (view.total(Lost), view.total(Alone));
    let estimated = estimated_of(view);
    let ends = !is_clean(&report.endings.a) || !is_clean(&report.endings.b);
    let (discards, none) = (discards_of(view), all.frames == 0);
    let [links, trouble, notice, silent, clean] = view.levels();
    parts! { style = Text(text::STYLE), title = Given(view.title),
        start = if none { Text("no frames") } else { Utc(report.start) },
        length = Duration(report.end.saturating_sub(report.start)), rows = Grouped(report.links.len() as u64),
        links, trouble, notice, silent, clean, frames = Grouped(all.frames),
        pair = Both(Pair(networks.a.frames, networks.b.frames)), delivered = Grouped(all.delivered),
        copies = Grouped(all.copy), discards = Grouped(discards),
        share = Percent(discards, all.frames.max(1)), lost = Both(lost), estimated = Grouped(estimated),
        missing = flag(lost.sum() > 0), alone = Both(alone), late = Grouped(view.total(Late).sum()),
        ends = flag(ends), silent_a = silent_on(view, A), silent_b = silent_on(view, B),
        column = Duration(report.width), tie = Text(tie_of(view.manifest)),
        sizes = Text(sizes_text(view)) }
}

/// How many of the missing numbers are estimates.
fn estimated_of(view: &View<'_>) -> u64 {
    let mut estimated = 0u64;
    for finding in &view.report.findings.all {
        estimated = estimated.saturating_add(finding.facts.estimated.0.unsigned_abs());
    }
    estimated
}

/// The page of a report.
///
/// # Errors
///
/// The system is out of memory.
pub fn page_of(alloc: Global, shown: &Shown<'_>) -> Result<String, AllocError> {
    let view = View::new(alloc, shown)?;
    let before = View::of_baseline(alloc, shown)?;
    let mut page = Page::new(alloc);
    let parts = parts_of(&view);
    for (at, piece) in text::PAGE.split('@').enumerate() {
        if at % 2 == 0 {
            page.fill(piece, &parts);
        } else {
            push_section(&mut page, &view, before.as_ref(), piece);
        }
    }
    page.into_text()
}
