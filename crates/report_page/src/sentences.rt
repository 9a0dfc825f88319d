//! The sentences of findings.

use crate::groups::{links_in, shared_group};
use crate::page::{given_if, push_ending};
use crate::view::View;
use crate::writer::Part::{Duration, Grouped, Number, Tenths, Text};
use crate::writer::{Named, Page, Part, flag, name_in, part_of};
use afdx_frame::{Network, VlId};
use findings::{Finding, Kind, Outside, Side, Sign, Span, Word};
use run_manifest::RecordingRecord;

/// How many links, spans and links outside the table a sentence names.
const NAMED: usize = 6;

const SPANS: usize = 5;

const OUTSIDE: usize = 8;

/// A recording that begins or ends within less than this of the other one isn't late.
const AT_ONCE: i64 = 100_000_000;

// The templates: what is found stands between `b` and `e`. `@who@` are the links, or their group, `@spans@`
// the times at which it happened, `@outside@` links outside the table, `@ending@` how a recording ends.

const SILENCE: &str = "\
$b$$?two$Networks A and B$/$$?one$Network $n$$/$ silent$e$ for $long$, from $from$ to $to$: \
$?least$at least $/$$lost$ numbers of $links$ link$links_s$ are missing$?est$ ($est$ of them estimated)$/$\
$?two$: $lost_a$ on A, $lost_b$ on B, $both$ of them on both$/$";

const CLOCK_STEP: &str = "\
$b$$?two$The clocks of A and B$/$$?one$The clock of $n$$/$ went forward by $size$$e$ at $from$\
$?two$ (or all senders paused)$/$: no silence, and no frame is missing for that ($links$ links go on with \
the next number)$?late$; $late$ frames are late by it$/$$?lost$; $lost$ numbers seem missing by it$/$";

const SKEW_STEP: &str = "\
$b$The skew of all links steps by $size$$e$ at $from$: $n$'s clock went forward, $o$'s back, or $n$'s path \
became longer$?late$; $late$ frames are late by it$/$";

const DRIFT: &str = "\
$b$The clocks of the taps drift$e$: that of $n$ is $ppm$ ppm faster$?late$; $late$ frames are late by it$/$\
$?excess$; $excess$ are excess by it$/$$?early$; $early$ are early by it$/$. Synchronise them (PTP), or judge \
short parts";

const COARSE: &str = "\
$b$All timestamps are multiples of $size$$e$: what jitter, skew and policing say isn't known ($excess$ \
frames excess, $early$ early, $late$ late by that)";

const BROKEN: &str = "\
$b$Recording $n$ ends: @ending@$e$, at $from$$?unrecorded$; $unrecorded$ frames of $o$ have no copy \
after it$/$";

const BEGINS: &str = "\
$?far$$b$Recording $n$ begins $long$ after the other$e$: $count$ frame$s$ of $o$ $have$ no copy in it$/$\
$?near$$count$ frame$s$ at the very start $have$ no copy on $n$: the recordings begin $long$ apart$/$";

const ENDS: &str = "\
$?far$$b$Recording $n$ ends $long$ before the other$e$: $count$ frame$s$ of $o$ $have$ no copy in it$/$\
$?near$$count$ frame$s$ at the very end $have$ no copy on $n$: the recordings end $long$ apart$/$";

const BEGINS_IN_PART: &str = "\
$b$Network $n$ has no frame in the first $long$ that are told$e$: $count$ frame$s$ of $o$ $have$ no copy";

const ENDS_IN_PART: &str = "\
$b$Network $n$ has no frame in the last $long$ that are told$e$: $count$ frame$s$ of $o$ $have$ no copy";

const NO_FRAMES_IN_PART: &str = "\
$b$$?two$The part has no frame$/$$?one$Network $n$ has no frame in the part$/$$e$";

const TORN: &str = "\
$b$Recording $n$ lacks $?many$$times$ parts$/$$?once$a part$/$$e$ (@spans@), since files of it are torn: \
$unrecorded$ numbers are missing there, which the recorder lost";

const DROPPED: &str = "\
$b$The recorder of $n$ dropped $count$ packet$s$$e$, as its recording says: numbers that are missing on \
$n$ may be these";

const CROSSED: &str = "\
$b$$count$ frame$s$ of @who@ on $n$ $have$ source addresses of network $o$$e$, from $from$ to $to$: are \
cables swapped?";

const TAGGED: &str = "\
$b$$count$ frame$s$ on $n$ $have$ an 802.1Q tag$e$, 4 bytes that the tap or a switch added";

const NO_FRAMES: &str = "\
$b$$?two$The ledger has no frame$/$$?one$Recording $n$ has no frame$/$$e$$?one$: redundancy can't be \
judged$/$";

const CUT: &str = "\
$b$$count$ frame$s$ on $n$ $are$ cut short by the recorder$e$$?lost$; $lost$ missing number$lost_s$ there \
may be due to that$/$$?never$; $never$ frames came whole on $o$ only, of links that have none on $n$$/$";

const RUNT: &str = "$b$$count$ frame$s$ on $n$ $are$ below 60 bytes$e$ (runt)";

const OVERSIZE: &str = "$b$$count$ frame$s$ on $n$ $are$ above 1514 bytes$e$ (oversize)";

const FOREIGN: &str =
    "$b$$count$ frame$s$ on $n$ $have$ another constant field$e$ (foreign@kinds@)";

const UNCONFIGURED: &str = "\
$b$$count$ frame$s$ on $n$ $are$ of links outside the table$e$ (unconfigured): @outside@";

const LOST: &str = "\
$?two$$b$Numbers are missing$e$ from $from$ to $to$: $?least$at least $/$$lost_a$ on A, $lost_b$ on B, \
$both$ of them on both: @who@$/$\
$?one$$b$$?least$at least $/$$count$ number$s$ $are$ missing on $n$$e$, scattered from $from$ to $to$: @who@\
$?alone$; $alone$ of them came on $o$$/$$?both$; $both$ came on neither network$/$$/$";

const ABSENT: &str = "\
$b$@who@ absent from $n$$e$ $?many$$times$ times $/$(@spans@): $?least$at least $/$$lost$ numbers are missing\
$?est$ ($est$ of them estimated)$/$$?two$: $lost_a$ on A, $lost_b$ on B, $both$ of them on both$/$\
$?one$$?alone$; $alone$ of them came on $o$$/$$?both$; $both$ came on neither network$/$$/$";

const OUTAGE: &str = "\
$b$$?together$$links$ links pause at the same time: $/$@who@$e$$?alone$ $/$$?single$ pauses $count$ \
time$s$$/$ \
(@spans@)$?anew$, and begin$?single$s$/$ anew with number 0: the sender was off$/$\
$?same$: the numbers go on, so the sender paused$/$";

const STOPS: &str =
    "$b$@who@ $?single$stops$/$$?several$stop$/$ at $from$$e$ on both networks$?usual$ (usual \
interval $usual$)$/$";

const STOPS_ON: &str = "\
$b$@who@ not seen on $n$ after $from$$e$; $alone$ frames came on $o$ only";

const STARTS_LATE: &str = "\
$b$@who@ $?single$starts$/$$?several$start$/$ at $to$$e$$?single$, with number $first$$/$";

const STARTS_LATE_ON: &str = "\
$b$@who@ first seen on $n$ at $to$$e$; $alone$ frames before it came on $o$ only";

const NEVER: &str = "$b$In the table, never seen:$e$ @who@";

const NEVER_ON: &str = "$b$@who@ never seen on $n$$e$; $alone$ frames came on $o$ only";

const NO_NUMBER: &str = "\
$b$The last byte of @who@ on $n$ is no sequence number$e$: it is nearly always the same ($count$ frame$s$)\
$?toolong$, and all are longer than Smax: does the tap append bytes, as a check sequence?$/$";

const RATE: &str = "\
$b$@who@: the usual interval changes$e$ at $from$$?single$ from $before$ to $after$$/$";

const BAG: &str = "\
$b$@who@ breaks its BAG$e$$?single$ (BAG $bag$, jitter $jitter$$?usual$, usual interval $usual$$/$)$/$: \
$early$ frames early, $excess$ excess, from $from$ to $to$";

const BUNCHED: &str = "\
$b$Frames of @who@ bunch on $n$$e$, not on $o$: $early$ early, $excess$ excess, $late$ late, from $from$ \
to $to$: delayed in this network, or by its recorder's clock";

const TOO_LONG: &str = "\
$b$$count$ of $frames$ frames of @who@ on $n$ are longer than Smax$e$ (toolong), from $from$ to $to$";

const RESET: &str = "\
$b$@who@: number 0 $count$ time$s$$e$, from $from$ to $to$\
$?wraps$: always after 255, so the sender counts 255, 0$/$$?begins$: the sender began anew$/$";

const STRAY: &str = "\
$?inplace$$b$$count$ frame$s$ of @who@ on $n$ $have$ a wrong number$e$ (bit errors, or old frames) in the \
place of \
the right one, which is missing$/$$?extra$$b$$count$ frame$s$ of @who@ on $n$ $have$ a number out of \
order$e$, and \
the numbers go on without it: bit errors, misaddressed or old frames$/$, from $from$ to $to$";

const OLD: &str = "\
$?inplace$$b$$count$ frame$s$ of @who@ on $n$ $have$ a wrong number$e$ (bit errors, or old frames) in the \
place of the right one, which is missing$/$$?extra$$b$$count$ frame$s$ of @who@ on $n$ $have$ an old number \
again$e$$/$, from \
$from$ to $to$";

const TWICE: &str = "\
$b$$count$ frame$s$ on $n$ $come$ twice$e$, at most $most$ apart, from $from$ to $to$: @who@\
$?every$: recorded twice, or both networks in one recording?$/$";

const STUCK: &str =
    "$b$The number of @who@ stands still on $n$$e$, from $from$ to $to$: $count$ frame$s$";

const REORDERED: &str = "\
$b$$count$ frame$s$ of @who@ on $n$ came after the next ones$e$, from $from$ to $to$: no number is \
missing for that";

const LATE: &str = "\
$b$$count$ frame$s$ of @who@ came on $n$ later than SkewMax$e$ ($skew_max$), and $are$ delivered twice, \
from $from$ to $to$: $most$ at most$?skew$, usually $skew$$/$";

const SKEW_MOVES: &str = "\
$b$The skew of @who@ moves$e$ at $from$, of one from $before$ to $after$: another path on one network\
$?late$; $late$ frames are late by it$/$";

const APART: &str = "\
$b$@who@: the networks count apart$e$ from $from$ on$?single$ (B's number is A's and $size_number$)$/$\
$?late$; $late$ frames are delivered twice by that$/$";

const JUMP: &str = "\
$b$@who@ on $n$: the numbers jump $count$ time$s$$e$, from $from$ to $to$, and go on from there";

const SKIPPED: &str = "\
$b$@who@ skips $count$ number$s$ on $n$$e$, from $from$ to $to$, but no frame is missing: the \
interval stays";

const OUT: &str = "$b$$count$ frame$s$ of @who@ on $n$ $are$ out$e$, from $from$ to $to$";

const OTHER: &str = "$b$@who@: $count$ $word$ on $n$$e$, from $from$ to $to$";

const REST: &str = "and $count$ more: $word$";

/// The template of a kind.
fn template_of(kind: Kind) -> &'static str {
    match kind {
        Kind::Silence => SILENCE,
        Kind::ClockStep => CLOCK_STEP,
        Kind::SkewStep => SKEW_STEP,
        Kind::Drift => DRIFT,
        Kind::Coarse => COARSE,
        Kind::Broken => BROKEN,
        Kind::Begins => BEGINS,
        Kind::Ends => ENDS,
        Kind::Torn => TORN,
        Kind::Dropped => DROPPED,
        Kind::Crossed => CROSSED,
        Kind::Tagged => TAGGED,
        Kind::NoFrames => NO_FRAMES,
        Kind::Cut => CUT,
        Kind::Runt => RUNT,
        Kind::Oversize => OVERSIZE,
        Kind::Foreign => FOREIGN,
        Kind::Unconfigured => UNCONFIGURED,
        Kind::Lost => LOST,
        Kind::Absent => ABSENT,
        Kind::Outage => OUTAGE,
        Kind::Stops => STOPS,
        Kind::StopsOn => STOPS_ON,
        Kind::StartsLate => STARTS_LATE,
        Kind::StartsLateOn => STARTS_LATE_ON,
        Kind::Never => NEVER,
        Kind::NeverOn => NEVER_ON,
        _ => template_of_numbers(kind),
    }
}

/// The template of a kind where a part of a ledger is told, or one that was stopped: where recordings begin
/// and end isn't known.
fn template_in_part(kind: Kind) -> &'static str {
    match kind {
        Kind::Begins => BEGINS_IN_PART,
        Kind::Ends => ENDS_IN_PART,
        Kind::NoFrames => NO_FRAMES_IN_PART,
        _ => template_of(kind),
    }
}

/// The template of a kind that is about a link's numbers or times.
fn template_of_numbers(kind: Kind) -> &'static str {
    match kind {
        Kind::NoNumber => NO_NUMBER,
        Kind::Rate => RATE,
        Kind::Bag => BAG,
        Kind::Bunched => BUNCHED,
        Kind::TooLong => TOO_LONG,
        Kind::Reset => RESET,
        Kind::Stray => STRAY,
        Kind::Old => OLD,
        Kind::Twice => TWICE,
        Kind::Stuck => STUCK,
        Kind::Reordered => REORDERED,
        Kind::Late => LATE,
        Kind::SkewMoves => SKEW_MOVES,
        Kind::Apart => APART,
        Kind::Jump => JUMP,
        Kind::Skipped => SKIPPED,
        Kind::Out => OUT,
        _ => OTHER,
    }
}

/// A length of time, of either sign.
fn length(nanoseconds: i64) -> Part<'static> {
    Duration(nanoseconds.unsigned_abs())
}

/// The networks that a finding is about, the one that it isn't about, and its time.
fn parts_of_place(view: &View<'_>, finding: &Finding) -> [Named<'static>; 9] {
    let other = finding
        .side
        .network()
        .map_or("", |network| network.other().letter());
    let (n, o) = match (finding.kind, finding.facts.size.0) {
        (Kind::SkewStep | Kind::Drift, size) if size < 0 => ("A", "B"),
        (Kind::SkewStep | Kind::Drift, _) => ("B", "A"),
        _ if finding.side == Side::Both => ("both networks", ""),
        _ => (finding.side.letters(), other),
    };
    let Span { from, to } = finding.span;
    let is_near = to.0.saturating_sub(from.0) < AT_ONCE;
    parts! { n = Text(n), o = Text(o), from = view.after_start(from.0), to = view.after_start(to.0),
        long = length(to.0.saturating_sub(from.0)), one = flag(finding.side != Side::Both),
        two = flag(finding.side == Side::Both), near = flag(is_near), far = flag(!is_near) }
}

/// The form of a word for so many.
fn form(count: u64, one: &'static str, more: &'static str) -> Part<'static> {
    Text(if count == 1 { one } else { more })
}

/// The forms of words for so many.
fn parts_of_count(finding: &Finding) -> [Named<'static>; 5] {
    let count = finding.count;
    parts! { s = form(count, "", "s"), are = form(count, "is", "are"), have = form(count, "has", "have"),
        come = form(count, "comes", "come"), lost_s = form(finding.signs.sum(Word::Lost), "", "s") }
}

/// How many signs a finding has.
fn parts_of_signs(finding: &Finding) -> [Named<'static>; 13] {
    let sum = |word| Grouped(finding.signs.sum(word));
    let lost = |network| Grouped(finding.signs.count(Sign::on(Word::Lost, network)));
    let never = finding
        .signs
        .sum(Word::Alone)
        .saturating_sub(finding.signs.sum(Word::Lost));
    parts! { count = Grouped(finding.count), lost = sum(Word::Lost), lost_a = lost(Network::A),
        lost_b = lost(Network::B), alone = sum(Word::Alone), both = sum(Word::Both), early = sum(Word::Early),
        excess = sum(Word::Excess), late = sum(Word::Late), toolong = sum(Word::TooLong),
        unrecorded = sum(Word::Unrecorded), frames = Grouped(finding.frames), never = Grouped(never) }
}

/// The facts of a finding beside its signs, by name.
fn parts_of_facts(finding: &Finding) -> [Named<'static>; 12] {
    let facts = &finding.facts;
    let single = finding.links.len() == 1;
    let missing = finding.signs.sum(Word::Lost);
    let numbers = finding
        .signs
        .sum(Word::Stray)
        .saturating_add(finding.signs.sum(Word::Repeat));
    let in_place = missing > 0 && missing == numbers;
    parts! { least = flag(facts.at_least), est = Grouped(facts.estimated.0.unsigned_abs()),
        size = length(facts.size.0), size_number = Number(facts.size.0.unsigned_abs()),
        ppm = Tenths(facts.size.0.unsigned_abs() / 100), most = length(facts.most.0),
        before = length(facts.before.map_or(0, |before| before.0)), after = length(facts.after.0),
        single = flag(single), several = flag(!single), inplace = flag(in_place), extra = flag(!in_place) }
}

/// The words on how often it happened and to which links, by name.
fn parts_of_links(finding: &Finding) -> [Named<'static>; 16] {
    let rate = finding.rate.as_ref().filter(|_| finding.links.len() == 1);
    let time = |of: Option<u64>| of.map_or(Text(""), |time| Duration(time));
    let skew = rate
        .and_then(|rate| rate.skew)
        .map(|skew| skew.unsigned_abs());
    let wraps = rate.is_some_and(|rate| rate.wraps.saturating_mul(2) >= finding.count);
    let every = finding.of_links >= 3 && finding.kind == Kind::Twice;
    parts! { links = Number(finding.of_links), times = Number(finding.times), many = flag(finding.times > 1),
        once = flag(finding.times <= 1),
        together = flag(finding.together), anew = flag(finding.anew), same = flag(!finding.anew),
        every = flag(every), links_s = form(finding.of_links, "", "s"),
        bag = time(rate.map(|rate| rate.bag)), jitter = time(rate.map(|rate| rate.jitter)),
        usual = time(rate.and_then(|rate| rate.interval)),
        skew_max = time(finding.rate.as_ref().map(|rate| rate.skew_max)),
        first = Number(rate.map_or(0, |rate| u64::from(rate.first_number))), skew = time(skew),
        wraps = flag(wraps) }
}

const NAME: &str = "\
$?follows$, $/$$?strip$<a href=\"#v$id$\">$name$</a>$/$$?plain$$name$$/$";

/// Appends the links of a finding: by their group where several are of one, and by name unless they are all
/// of it.
fn push_who(page: &mut Page, view: &View<'_>, finding: &Finding, linked: bool) {
    let links = finding.links.len();
    let Some(group) = shared_group(view, finding).filter(|_| links > 1) else {
        return push_names(page, view, finding, linked);
    };
    let whole = links_in(view, group) == links;
    fill!(page; "$?whole$all $/$$links$ links of $group$"; whole = flag(whole),
        links = Number(links as u64), group = Text(group));
    if !whole {
        page.text(" (");
        push_names(page, view, finding, linked);
        page.text(")");
    }
}

/// Appends the names of the first links. `linked`: they lead to their strips.
fn push_names(page: &mut Page, view: &View<'_>, finding: &Finding, linked: bool) {
    for (at, id) in finding.links.iter().take(NAMED).enumerate() {
        let name = view.name_of(*id).unwrap_or("");
        let strip = linked && view.has_strip_of(*id);
        fill!(page; NAME; follows = flag(at > 0), strip = flag(strip), plain = flag(!strip),
            name = Text(name), id = Number(u64::from(id.0)));
    }
    let more = finding.links.len().saturating_sub(NAMED) as u64;
    fill!(page; "$?more$ and $more$ more$/$"; more = Number(more));
}

/// Appends a span of time.
fn push_span(page: &mut Page, view: &View<'_>, at: usize, span: Span) {
    fill!(page; "$?follows$, $/$$from$ to $to$"; follows = flag(at > 0),
        from = view.after_start(span.from.0), to = view.after_start(span.to.0));
}

/// Appends the times at which it happened first.
fn push_spans(page: &mut Page, view: &View<'_>, finding: &Finding) {
    if finding.spans.is_empty() {
        return push_span(page, view, 0, finding.span);
    }
    for (at, span) in finding.spans.iter().take(SPANS).enumerate() {
        push_span(page, view, at, *span);
    }
    let more = finding.times.saturating_sub(SPANS as u64);
    fill!(page; "$?more$ and $more$ more$/$"; more = Number(more));
}

/// Appends the links outside the table, as they came.
fn push_outside(page: &mut Page, outside: &[Outside]) {
    for (at, one) in outside.iter().take(OUTSIDE).enumerate() {
        fill!(page; "$?follows$, $/$link $id$ ($frames$)"; follows = flag(at > 0),
            id = Number(u64::from(one.id)), frames = Grouped(one.frames));
    }
    fill!(page; "$?more$, ..$/$"; more = flag(outside.len() > OUTSIDE));
}

/// Foreign frames of a kind.
const KIND: &str = "\
$?first$: $/$$?follows$, $/$$frames$ $name$$?typed$of EtherType $ethertype$$/$$?further$of further kinds$/$";

/// Appends the foreign frames of a recording by what they carry, where the manifest says so.
fn push_kinds(page: &mut Page, recording: Option<&RecordingRecord>) {
    let Some(kinds) = recording.and_then(|recording| recording.foreign.as_ref()) else {
        return;
    };
    for (at, kind) in kinds.iter().enumerate() {
        let unnamed = kind.name.is_none();
        let further = kind.ethertype.is_none();
        fill!(page; KIND;
            first = flag(at == 0), follows = flag(at > 0), frames = Grouped(kind.frames),
            name = given_if(&kind.name), typed = flag(unnamed && !further),
            ethertype = given_if(&kind.ethertype), further = flag(further));
    }
}

/// Appends what a hole of a template stands for.
fn push_hole(page: &mut Page, view: &View<'_>, finding: &Finding, name: &str, linked: bool) {
    let (found, endings) = (&view.report.findings, &view.report.endings);
    match (name, finding.side) {
        ("who", _) => push_who(page, view, finding, linked),
        ("spans", _) => push_spans(page, view, finding),
        ("kinds", Side::B) => push_kinds(page, view.recording_b()),
        ("kinds", _) => push_kinds(page, view.recording_a()),
        ("outside", Side::B) => push_outside(page, &found.outside_b),
        ("outside", _) => push_outside(page, &found.outside_a),
        (_, Side::B) => push_ending(page, &endings.b),
        (_, _) => push_ending(page, &endings.a),
    }
}

/// The parts of all templates.
#[derive(Clone, Copy)]
struct Parts {
    word: [Named<'static>; 1],
    place: [Named<'static>; 9],
    count: [Named<'static>; 5],
    signs: [Named<'static>; 13],
    facts: [Named<'static>; 12],
    links: [Named<'static>; 16],
}

impl Parts {
    fn of(view: &View<'_>, finding: &Finding) -> Parts {
        Parts {
            word: parts! { word = Text(finding.kind.word()) },
            place: parts_of_place(view, finding),
            count: parts_of_count(finding),
            signs: parts_of_signs(finding),
            facts: parts_of_facts(finding),
            links: parts_of_links(finding),
        }
    }

    /// The part of a name, blank where there is none.
    fn named(&self, name: &str) -> Part<'static> {
        part_of(self.place.as_slice(), name)
            .or(part_of(self.count.as_slice(), name))
            .or(part_of(self.signs.as_slice(), name))
            .or(part_of(self.facts.as_slice(), name))
            .or(part_of(self.links.as_slice(), name))
            .or(part_of(self.word.as_slice(), name))
            .unwrap_or(Text(""))
    }
}

/// Appends a piece of a template that has no holes, with marks before and after what is found.
fn push_piece(page: &mut Page, piece: &str, parts: &Parts, before: &str, after: &str) {
    for (at, inner) in piece.split('$').enumerate() {
        match inner {
            "b" if at % 2 == 1 => page.shown_text(before),
            "e" if at % 2 == 1 => page.shown_text(after),
            _ => page.piece(at, inner, parts.named(name_in(at, inner))),
        }
    }
}

/// Appends what a finding says, with marks before and after what is found. `linked`: names lead to strips.
pub fn push_sentence(
    page: &mut Page,
    view: &View<'_>,
    finding: &Finding,
    (before, after): (&str, &str),
    linked: bool,
) {
    let parts = Parts::of(view, finding);
    let is_part = view.zoom.is_part() || !view.report.whole && finding.kind == Kind::Ends;
    let template = if finding.is_rest {
        REST
    } else if is_part {
        template_in_part(finding.kind)
    } else {
        template_of(finding.kind)
    };
    for (at, piece) in template.split('@').enumerate() {
        if at % 2 == 0 {
            push_piece(page, piece, &parts, before, after);
        } else if page.is_shown() {
            push_hole(page, view, finding, piece, linked);
        }
    }
}
