//! The report as JSON.

use self::Value::{Flag, Known, Number, Quoted, Stamp, Stamped};
use crate::compared::{
    REVISIONS, count_of, is_first, is_only_in, is_revised, keys_of, link_in, links_for,
};
use crate::cut_command::push_cut;
use crate::groups::{group_of, shared_group};
use crate::page::end_word;
use crate::ranks::{failing, level_at, signs_of, word_of};
use crate::sentences::push_sentence;
use crate::tables::{change_word, count_word, worse_word};
use crate::view::{SIGNS, Shown, View, Zoom};
use crate::writer::{Page, Part};
use afdx_frame::Network::{self, A, B};
use afdx_frame::VlId;
use findings::{Finding, Findings, Sign, Signs};
use ledger_report::{
    Anomalies, Anomaly, AnomalyTally, CHANGES, COUNTS, FramePlace, LinkComparison, LinkCounts,
    LinkNumbers, LinkReport, OutsideLink, Report, Series, Totals, WORSE, is_new_outside,
};
use serde_json::Error;
use std::alloc::Global;
use vl_config::{Config, Link};

/// A value without members.
#[derive(Clone, Copy)]
enum Value<'a> {
    Flag(bool),
    Number(u64),
    /// A number, if it is known.
    Known(Option<u64>),
    /// A timestamp: a decimal string, since it may need more than 53 bits.
    Stamp(u64),
    Stamped(Option<u64>),
    /// A word or a name, without a character to be escaped.
    Quoted(&'a str),
}

/// A JSON text as it is written.
#[derive(Drop)]
struct Json {
    alloc: Global,
    page: Page,
    /// Does a comma stand before the next value?
    follows: bool,
}

/// Appends members: `members!(json; name = value, ..)`, or numbers by the names of their fields:
/// `members!(json; lane: frames, bytes)`.
macro_rules! members {
    ($json:expr; $($name:ident = $value:expr),*) => { $($json.value(stringify!($name), $value);)* };
    ($json:expr; $from:ident: $($name:ident),*) => {
        $($json.value(stringify!($name), Number($from.$name));)*
    };
}

/// Appends an object of such members.
macro_rules! object {
    ($json:expr; $name:expr; $($members:tt)*) => {{
        $json.open($name, "{");
        members!($json; $($members)*);
        $json.close("}");
    }};
}

/// Appends an object of what there is, or `null`.
macro_rules! object_if {
    ($json:expr; $name:expr; $some:expr => $held:ident; $($members:tt)*) => {
        match $some {
            Some($held) => object!($json; $name; $($members)*),
            None => $json.value($name, Known(None)),
        }
    };
}

/// Appends an array, or an object, of what a call appends for each of several:
/// `each!(json; "signs", "[", "]"; &sign in &SIGNS => json.sign(sign))`.
macro_rules! each {
    ($json:expr; $name:expr, $open:expr, $close:expr; $one:pat in $all:expr => $call:expr) => {{
        $json.open($name, $open);
        for $one in $all {
            $call;
        }
        $json.close($close);
    }};
}

impl Json {
    /// Begins a value, a member's with its name.
    fn name(&mut self, name: &str) {
        self.page.text(if self.follows { "," } else { "" });
        self.follows = true;
        fill!(self.page; "$?name$\"$name$\":$/$"; name = Part::Text(name));
    }

    fn open(&mut self, name: &str, bracket: &str) {
        self.name(name);
        self.page.text(bracket);
        self.follows = false;
    }

    fn close(&mut self, bracket: &str) {
        self.page.text(bracket);
        self.follows = true;
    }

    fn value(&mut self, name: &str, value: Value<'_>) {
        self.name(name);
        match value {
            Known(None) | Stamped(None) => self.page.text("null"),
            Flag(holds) => self.page.text(if holds { "true" } else { "false" }),
            Number(number) | Known(Some(number)) => self.page.path(&[("", number)]),
            Stamp(stamp) | Stamped(Some(stamp)) => {
                self.page.path(&[("\"", stamp)]);
                self.page.text("\"");
            }
            Quoted(text) => fill!(self.page; "\"$text$\""; text = Part::Text(text)),
        }
    }

    fn list(&mut self, name: &str, numbers: &[u64]) {
        each!(self; name, "[", "]"; number in numbers => self.value("", Number(*number)));
    }

    /// A text of whatever characters.
    fn text(&mut self, name: &str, text: &Page) {
        self.name(name);
        let text = self.page.written_on(text);
        self.page.quoted(text);
    }

    /// How many signs there are, by word and network.
    fn tally(&mut self, name: &str, signs: &Signs) {
        self.open(name, "{");
        for one in signs.all().iter().filter(|one| one.count > 0) {
            self.sign_name(one.sign);
            self.page.path(&[("", one.count)]);
        }
        self.close("}");
    }

    /// The name of a member that is a sign.
    fn sign_name(&mut self, sign: Sign) {
        self.page.text(if self.follows { "," } else { "" });
        self.follows = true;
        let letter = sign.network.map_or("", |network| network.letter());
        fill!(self.page; "\"$word$$?letter$.$letter$$/$\":"; word = Part::Text(sign.word.text()),
            letter = Part::Text(letter));
    }

    /// The signs that aren't in exactly one finding: there are none.
    fn unaccounted(&mut self, findings: &Findings) {
        self.open("unaccounted", "{");
        for one in findings.totals.all() {
            let mut found = 0u64;
            for finding in &findings.all {
                found = found.saturating_add(finding.signs.count(one.sign));
            }
            if found != one.count {
                self.sign_name(one.sign);
                self.page.path(&[("[", one.count), (",", found)]);
                self.page.text("]");
            }
        }
        self.close("}");
    }

    fn finding(&mut self, view: &View<'_>, finding: &Finding) {
        self.open("", "{");
        members!(self; kind = Quoted(finding.kind.word()), level = Quoted(word_of(finding.level)),
            networks = Quoted(finding.side.letters()));
        each!(self; "links", "[", "]"; id in finding.links.iter() =>
            self.value("", Number(u64::from(id.0))));
        self.given("group", shared_group(view, finding));
        members!(self; from = Stamp(view.stamp(finding.span.from.0)),
            to = Stamp(view.stamp(finding.span.to.0)), count = Number(finding.count));
        self.tally("signs", &finding.signs);
        let mut text = Page::plain(self.alloc);
        push_sentence(&mut text, view, finding, ("", ""), false);
        self.text("text", &text);
        let mut cut = Page::plain(self.alloc);
        push_cut(&mut cut, view, finding);
        self.text("cut", &cut);
        self.close("}");
    }

    /// Writes the findings, how many signs there are in all, and how bad each link is.
    fn findings(&mut self, view: &View<'_>) {
        let found = &view.report.findings;
        each!(self; "findings", "[", "]"; finding in &found.all => self.finding(view, finding));
        self.tally("totals", &found.totals);
        self.unaccounted(found);
    }

    fn place(&mut self, name: &str, place: Option<FramePlace>) {
        object_if!(self; name; place => held; stamp = Stamp(held.stamp),
            number = Number(u64::from(held.number)));
    }

    fn counts(&mut self, counts: &Totals) {
        object!(self; "counts"; counts: frames, accepted, cut, runt, oversize, foreign, unconfigured, toolong,
            excess, out, copy, delivered);
    }

    /// The counts of a link, which has no frame of the classes that no judgement sees.
    fn link_counts(&mut self, counts: &LinkCounts) {
        self.counts(&Totals {
            frames: counts.frames,
            accepted: counts.accepted,
            toolong: counts.toolong,
            excess: counts.excess,
            out: counts.out,
            copy: counts.copy,
            delivered: counts.delivered,
            ..Totals::new()
        });
    }

    /// A sign, if it occurs.
    fn sign(&mut self, sign: Anomaly, tally: &AnomalyTally) {
        if tally.count > 0 {
            self.open("", "{");
            members!(self; sign = Quoted(sign.word()), count = Number(tally.count));
            self.place("first", tally.first);
            self.place("last", tally.last);
            self.close("}");
        }
    }

    fn signs(&mut self, signs: &Anomalies) {
        each!(self; "signs", "[", "]"; &sign in &SIGNS => self.sign(sign, signs.of(sign)));
    }

    fn lane(&mut self, link: &LinkReport, network: Network, sizes: bool) {
        let lane = link.lanes.of(network);
        let some = lane.intervals > 0;
        self.open(member_of(network), "{");
        members!(self; frames = Number(lane.frames), bytes = Known(sizes.then_some(lane.bytes)),
            least = Known(some.then_some(lane.least)), greatest = Known(some.then_some(lane.greatest)));
        members!(self; lane: interval_sum, intervals, excess_lead);
        self.signs(&lane.signs);
        self.close("}");
    }

    fn link(&mut self, view: &View<'_>, index: usize) {
        let Some((link, configured)) = view.link(index) else {
            return;
        };
        self.open("", "{");
        members!(self; id = Number(u64::from(link.id.0)), name = Quoted(&configured.name));
        self.given("group", group_of(configured));
        members!(self; level = Quoted(word_of(level_at(view.report, index))), signs = Number(signs_of(link)));
        self.link_counts(view.report.counted().link(link.id));
        members!(self; link: copies, skew_sum, skew_greatest, skew_median, late_greatest, lost_both);
        self.lane(link, A, view.sizes);
        self.lane(link, B, view.sizes);
        self.close("}");
    }

    /// A row of a timeline, unless nothing came in it: a number for each bin.
    fn row(&mut self, row: &str, series: &Series) {
        if !series.bins().is_empty() {
            self.open("", "{");
            members!(self; row = Quoted(row));
            self.list("bins", series.bins());
            self.close("}");
        }
    }

    fn network(&mut self, report: &Report, network: Network, sizes: bool) {
        let (side, counts) = (
            report.networks.of(network),
            report.counted().network(network),
        );
        let some = side.frames > 0;
        self.open(member_of(network), "{");
        members!(self; frames = Number(side.frames), first = Stamped(some.then_some(side.first)),
            last = Stamped(some.then_some(side.last)), bytes = Known(sizes.then_some(side.bytes)));
        self.counts(counts);
        object_if!(self; "ending"; report.endings.of(network) => held; end = Quoted(end_word(held.end)),
            frames = Number(held.frames), reason = Quoted(&held.reason));
        self.signs(&side.signs);
        self.open("timeline", "[");
        self.row("frames", &side.lines);
        self.row("load", &side.loads);
        self.row("skew", &side.skews);
        for &sign in &SIGNS {
            self.row(sign.word(), &side.signs.of(sign).bins);
        }
        self.close("]}");
    }

    fn outside(&mut self, report: &Report) {
        each!(self; "outside", "[", "]"; id in 0..=u16::MAX =>
            self.outside_link(id, report.outside_link(VlId(id))));
    }

    /// A link outside the table, if it is there.
    fn outside_link(&mut self, id: u16, link: Option<OutsideLink>) {
        if let Some(link) = link {
            self.open("", "{");
            members!(self; id = Number(u64::from(id)), frames = Number(link.frames),
                network = Quoted(link.network.letter()));
            self.place("first", Some(link.first));
            self.close("}");
        }
    }

    /// When a flight begins and ends.
    fn flight(&mut self, report: &Report) {
        let some = report.counted().all().frames > 0;
        members!(self; start = Stamped(some.then_some(report.start)),
            end = Stamped(some.then_some(report.end)));
    }

    /// Writes the members before the networks.
    fn head(&mut self, view: &View<'_>) {
        let report = view.report;
        members!(self; version = Number(2), whole = Flag(report.whole));
        object_if!(self; "fail_on"; view.fail_on => level; level = Quoted(word_of(level)),
            findings = Number(failing(&report.findings, level)));
        self.part(&view.zoom);
        object_if!(self; "stopped"; report.stop => stop; lines = Number(stop.lines),
            within_line = Flag(stop.within_line));
        members!(self; sizes = Flag(view.sizes));
        self.flight(report);
        members!(self; report: width);
        self.counts(report.counted().all());
        self.list("filters", view.filters());
        self.findings(view);
    }

    /// A text that was given to the program, if it was.
    fn given(&mut self, name: &str, text: Option<&str>) {
        self.name(name);
        match text {
            Some(text) => self.page.quoted(text),
            None => self.page.text("null"),
        }
    }

    /// Of which part of a ledger the report is, if it is of one.
    fn part(&mut self, zoom: &Zoom<'_>) {
        if !zoom.is_part() {
            return self.value("part", Known(None));
        }
        self.open("part", "{");
        self.given("from", zoom.from);
        self.given("to", zoom.to);
        self.given("link", zoom.link);
        self.given("network", zoom.network);
        members!(self; partial = Flag(zoom.partial));
        self.close("}");
    }

    fn report(&mut self, view: &View<'_>, before: Option<&View<'_>>, manifest: &str) {
        let report = view.report;
        self.open("", "{");
        self.head(view);
        self.network(report, A, view.sizes);
        self.network(report, B, view.sizes);
        each!(self; "links", "[", "]"; index in 0..report.links.len() => self.link(view, index));
        self.outside(report);
        self.name("manifest");
        self.page.text(manifest);
        self.name("transit");
        self.page.text(view.transit.unwrap_or("null"));
        if let Some(before) = before {
            self.baseline(view, before);
        }
        self.close("}");
    }

    /// A link in a flight, and how often what is counted comes in a thousand frames, in thousandths.
    fn numbers(&mut self, name: &str, numbers: Option<LinkNumbers>) {
        let Some(numbers) = numbers else {
            return self.value(name, Known(None));
        };
        self.open(name, "{");
        members!(self; frames = Number(numbers.frames), rate = Known(numbers.rate()),
            copies = Number(numbers.copies), least = Known(numbers.least), skew = Known(numbers.skew),
            skew_median = Known(numbers.skew_median));
        each!(self; "counts", "{", "}"; &count in &COUNTS =>
            self.value(count_word(count), Number(numbers.count(count))));
        each!(self; "shares", "{", "}}"; &count in &COUNTS =>
            self.value(count_word(count), Number(numbers.share(count).unwrap_or(0))));
    }

    /// A link in both flights.
    fn compared(&mut self, compared: Option<(LinkComparison, &Link)>) {
        let Some((link, configured)) = compared else {
            return;
        };
        self.open("", "{");
        members!(self; id = Number(u64::from(configured.id.0)), name = Quoted(&configured.name));
        let worse = WORSE.iter().filter(|how| link.is_worse(**how));
        each!(self; "worse", "[", "]"; how in worse => self.value("", Quoted(worse_word(*how))));
        let changed = CHANGES.iter().filter(|how| link.is_changed(**how));
        each!(self; "changed", "[", "]"; how in changed => self.value("", Quoted(change_word(*how))));
        self.numbers("today", link.today);
        self.numbers("baseline", link.baseline);
        self.close("}");
    }

    /// The links in which the tables differ.
    fn table(&mut self, today: &Config, before: &Config) {
        self.open("table", "{");
        for &how in &REVISIONS {
            let links = links_for(today, before, how).iter();
            let links = links.filter(|link| is_revised(today, before, how, link.id));
            each!(self; how.word(), "[", "]"; link in links => self.revised(today, before, link.id));
        }
        self.close("}");
    }

    /// A link in which the tables differ: its names, and the keys that do.
    fn revised(&mut self, today: &Config, before: &Config, id: VlId) {
        let (now, then) = (link_in(today, id), link_in(before, id));
        self.open("", "{");
        members!(self; id = Number(u64::from(id.0)));
        self.given("name", now.map(|link| link.name.as_str()));
        self.given("before", then.map(|link| link.name.as_str()));
        self.open("keys", "[");
        if let (Some(now), Some(then)) = (now, then) {
            self.keys(now, then);
        }
        self.close("]}");
    }

    /// The keys of a link's row that differ.
    fn keys(&mut self, now: &Link, then: &Link) {
        for (key, differs) in keys_of(now, then) {
            if differs {
                self.value("", Quoted(key));
            }
        }
    }

    /// How many findings of each kind both flights have: of the kinds of one, or of those of it alone.
    fn kinds(&mut self, own: &Findings, others: &Findings, is_today: bool) {
        for (at, finding) in own.all.iter().enumerate() {
            let (here, there) = (count_of(own, finding.kind), count_of(others, finding.kind));
            if is_first(own, at) && (is_today || there == 0) {
                let (today, then) = if is_today {
                    (here, there)
                } else {
                    (there, here)
                };
                self.open("", "{");
                members!(self; kind = Quoted(finding.kind.word()), today = Number(today),
                    baseline = Number(then));
                self.close("}");
            }
        }
    }

    /// Writes the findings of one of two flights alone, and how many findings of each kind they have.
    fn found(&mut self, view: &View<'_>, before: &View<'_>) {
        let (today, then) = (&view.report.findings, &before.report.findings);
        self.open("findings", "{");
        let new = today.all.iter().filter(|one| is_only_in(one, then));
        each!(self; "new", "[", "]"; finding in new => self.finding(view, finding));
        let gone = then.all.iter().filter(|one| is_only_in(one, today));
        each!(self; "gone", "[", "]"; finding in gone => self.finding(before, finding));
        self.open("kinds", "[");
        self.kinds(today, then, true);
        self.kinds(then, today, false);
        self.close("]}");
    }

    /// The flight that the report is compared with.
    fn baseline(&mut self, view: &View<'_>, before: &View<'_>) {
        let baseline = before.report;
        self.open("baseline", "{");
        members!(self; whole = Flag(baseline.whole));
        self.flight(baseline);
        self.counts(baseline.counted().all());
        self.table(view.config, before.config);
        self.found(view, before);
        each!(self; "links", "[", "]"; index in 0..view.config.links().len() =>
            self.compared(view.compared(index)));
        let ids = (0..=u16::MAX).filter(|id| is_new_outside(view.report, baseline, VlId(*id)));
        each!(self; "new_outside", "[", "]}"; id in ids => self.value("", Number(u64::from(id))));
    }
}

fn member_of(network: Network) -> &'static str {
    match network {
        A => "a",
        B => "b",
    }
}

/// The report's findings and numbers as one JSON object. Timestamps are decimal strings.
///
/// # Errors
///
/// The system is out of memory.
pub fn json_of(alloc: Global, shown: &Shown<'_>) -> Result<String, Error> {
    let view = View::new(alloc, shown)?;
    let mut json = Json {
        alloc,
        page: Page::new(alloc),
        follows: false,
    };
    let before = View::of_baseline(alloc, shown)?;
    json.report(
        &view,
        before.as_ref(),
        &serde_json::to_string(alloc, &shown.manifest)?,
    );
    Ok(json.page.into_text()?)
}
