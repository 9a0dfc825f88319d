//! The command-line arguments: what a command line asks for, read from what clap found.

use crate::kinds::are_kinds;
use crate::lateness::{Lateness, read_lateness};
use crate::misuse::Misuse;
use crate::options::{named_command, whole_command};
use clap::{ArgMatches, Error};
use icd_links::GivenHeads;
use std::alloc::{AllocError, Global};

/// The request that the arguments make.
#[derive(Clone, Copy, PartialEq, Eq)]
pub enum Invocation<'a> {
    /// Copy the frames of a recording that a filter accepts.
    Capture(CaptureArguments<'a>),
    /// Assemble a filter's source from standard input, and print its numeric form.
    Asm,
    /// Judge the frames of two recordings, and write those that a filter accepts.
    Watch(WatchArguments<'a>),
    /// Step through a filter on the frames of a recording.
    Debug(DebugArguments<'a>),
    /// Copy the frames of two recordings that a selection of their ledger's lines names.
    Cut(CutArguments<'a>),
    /// Copy the frames of a switch's recordings that a selection of their ledger's lines names.
    TransitCut(TransitCutArguments<'a>),
    /// Draft a table of virtual links from what recordings have.
    Links(LinksArguments<'a>),
    /// Write a page on what a ledger says.
    Report(ReportArguments<'a>),
    /// Say whether a run over two recordings would be sound.
    Check(CheckArguments<'a>),
    /// Say what a switch did with the frames that went in.
    Transit(TransitArguments<'a>),
}

/// The request of a command line.
#[derive(Clone, Copy, PartialEq, Eq)]
pub struct CommandLine<'a> {
    pub command: Invocation<'a>,
    /// Is standard error, whatever it is, told what a terminal is told?
    pub verbose: bool,
}

/// A filter, by how it is given.
#[derive(Clone, Copy, PartialEq, Eq)]
pub enum FilterArgument<'a> {
    /// The text of its numeric form.
    Code(&'a str),
    /// The path of a file that has its numeric form.
    Numeric(&'a str),
    /// The path of a file that has its source.
    Source(&'a str),
}

/// A filter, and the files of a capture. `-` is standard input or output.
#[derive(Clone, Copy, PartialEq, Eq)]
pub struct CaptureArguments<'a> {
    pub filter: FilterArgument<'a>,
    /// The recording.
    pub recording: &'a str,
    /// The capture that is written.
    pub output: &'a str,
    /// Is the capture a pcapng file?
    pub pcapng: bool,
    /// How late a timestamp may be. Without it none is.
    pub late: Option<Lateness>,
}

/// The files of a run over two recordings, its number of workers, and what it tells. `-` is standard input
/// or output.
#[derive(Clone, Copy, PartialEq, Eq)]
pub struct WatchArguments<'a> {
    /// The table of virtual links, a TOML document.
    pub config: &'a str,
    /// The filter, in the numeric form. There is one where a capture is written; without it no frame is
    /// accepted.
    pub filter: Option<&'a str>,
    /// The recording of network A. A network without one has no frames; one of the two has one.
    pub a: Option<&'a str>,
    /// The recording of network B.
    pub b: Option<&'a str>,
    /// The capture that is written, if one is.
    pub capture: Option<&'a str>,
    /// The ledger that is written.
    pub ledger: &'a str,
    /// Is it of version 3, with the length of each frame on the wire?
    pub details: bool,
    /// The manifest that is written, if one is.
    pub manifest: Option<&'a str>,
    /// Are the recordings and the outputs hashed for it?
    pub digest: bool,
    /// How many workers there are to be.
    pub workers: u8,
    /// Is a terminal to be told of faults and notes alone?
    pub quiet: bool,
    /// Does a recording that ends early make the run fail?
    pub strict: bool,
    /// Does a recording go on with its next file behind one that ends within a packet, or is damaged?
    pub resumes: bool,
    /// Is the capture a pcapng file, whose packets have their verdicts as comments?
    pub pcapng: bool,
    /// How late a timestamp may be, in place of what the table says.
    pub late: Option<Lateness>,
}

/// A filter, which is never given by its text, and the recording of a session.
#[derive(Clone, Copy, PartialEq, Eq)]
pub struct DebugArguments<'a> {
    pub filter: FilterArgument<'a>,
    /// The recording.
    pub tap: &'a str,
    /// How late a timestamp may be. Without it none is.
    pub late: Option<Lateness>,
}

/// A ledger, its recordings, and what selects frames of it, as texts that nothing has read yet. Where an
/// option isn't given, it leaves every frame selected. `-` is standard input or output.
#[derive(Clone, Copy, PartialEq, Eq)]
pub struct CutArguments<'a> {
    /// The ledger.
    pub ledger: &'a str,
    /// The recording of network A. One of the two is given, unless the ledger's lines alone are printed.
    pub a: Option<&'a str>,
    /// The recording of network B.
    pub b: Option<&'a str>,
    /// The table of virtual links, which has their names.
    pub config: Option<&'a str>,
    /// Virtual links: identifiers, ranges of them, or names.
    pub link: Option<&'a str>,
    /// A network's letter: `A` or `B`.
    pub network: Option<&'a str>,
    /// Words of a ledger's verdicts.
    pub verdict: Option<&'a str>,
    /// The first moment.
    pub from: Option<&'a str>,
    /// The last moment.
    pub to: Option<&'a str>,
    /// How long after the first moment the last one is, in place of that.
    pub span: Option<&'a str>,
    /// A mask of filters, of which one is to accept the frame.
    pub filters: Option<&'a str>,
    /// How many frames of the same link are taken before and after each selected one.
    pub around: u16,
    /// Are the ledger's lines printed in place of packets?
    pub ledger_only: bool,
    /// Does a recording go on with its next file behind one that ends within a packet, or is damaged?
    pub resumes: bool,
    /// Are the packets written as a pcapng file, with their verdicts as comments?
    pub pcapng: bool,
    /// Where packets or lines are written.
    pub output: &'a str,
}

/// The recordings from which a table is drafted. `-` is standard input.
#[derive(Clone, Copy, PartialEq, Eq)]
pub struct LinksArguments<'a> {
    /// The recording of network A. One of the two is given, or a document.
    pub a: Option<&'a str>,
    /// The recording of network B.
    pub b: Option<&'a str>,
    /// Does a recording go on with its next file behind one that ends within a packet, or is damaged?
    pub resumes: bool,
    /// The text of the constant field that the links' frames have, a number of 32 bits. Without it the
    /// draft has the most common one.
    pub constant: Option<&'a str>,
    /// The document that specifies links, separated values.
    pub icd: Option<&'a str>,
    /// Which heads its columns have, where they aren't the usual ones.
    pub columns: GivenHeads<'a>,
}

/// Which findings make a report fail.
#[derive(Clone, Copy, PartialEq, Eq)]
pub enum FailOn {
    /// Findings of level trouble.
    Trouble,
    /// These, and those of level notice.
    Notice,
}

/// A table and a ledger, and the page or the numbers that are written of them. `-` is standard input or
/// output.
#[derive(Clone, Copy, PartialEq, Eq)]
pub struct ReportArguments<'a> {
    /// The table of virtual links, a TOML document.
    pub config: &'a str,
    /// The ledger.
    pub ledger: &'a str,
    /// The manifest of the ledger's run, if it is known.
    pub manifest: Option<&'a str>,
    /// The kinds of other traffic that the networks are to have.
    pub expected: Option<&'a str>,
    /// The ledger of an earlier flight that the ledger is compared with.
    pub baseline: Option<&'a str>,
    /// The table of that flight, where it was another one.
    pub baseline_config: Option<&'a str>,
    /// The ledger of transits through a switch that it tells of too.
    pub transit: Option<&'a str>,
    /// The part of the ledger that it is about: a first moment, a last one, links, a network.
    pub from: Option<&'a str>,
    pub to: Option<&'a str>,
    pub link: Option<&'a str>,
    pub network: Option<&'a str>,
    /// Are the numbers written as JSON in place of a page?
    pub json: bool,
    /// The table of links that is written as comma-separated values, if one is.
    pub csv: Option<&'a str>,
    /// The title of the page.
    pub title: Option<&'a str>,
    /// Which findings make it fail, if some do.
    pub fail_on: Option<FailOn>,
    /// Where the page or the numbers are written.
    pub output: &'a str,
}

/// The inputs of a run over two recordings, and the form of the answer. `-` is standard input.
#[derive(Clone, Copy, PartialEq, Eq)]
pub struct CheckArguments<'a> {
    /// The table of virtual links, a TOML document.
    pub config: &'a str,
    /// The filter, in the numeric form.
    pub filter: Option<&'a str>,
    /// The recording of network A.
    pub a: Option<&'a str>,
    /// The recording of network B.
    pub b: Option<&'a str>,
    /// The kinds of other traffic that the networks are to have.
    pub expected: Option<&'a str>,
    /// Are the recordings read to their ends?
    pub whole: bool,
    /// Does a recording go on with its next file behind one that ends within a packet, or is damaged?
    pub resumes: bool,
    /// Is the answer written as JSON in place of text?
    pub json: bool,
}

/// The recordings at a port into a switch and at a port out of it, and how they are compared. Times are in
/// nanoseconds. `-` is standard input or output.
#[derive(Clone, Copy, PartialEq, Eq)]
pub struct TransitArguments<'a> {
    /// The table of virtual links, a TOML document.
    pub config: &'a str,
    /// The recording at the port in.
    pub before: &'a str,
    /// The recording at the port out, by the same clock.
    pub after: &'a str,
    /// The letter of the network, for the ledger and the answer.
    pub network: Option<&'a str>,
    /// The longest transit that is looked for.
    pub within: u64,
    /// How far clocks and stamps may be off.
    pub early: u64,
    /// The longest transit that isn't told as slow.
    pub bound: Option<u64>,
    /// The links that are routed to the port out.
    pub routed: Option<&'a str>,
    /// The nanoseconds that are added to each timestamp of the recording at the port out.
    pub shift: i64,
    /// Does policing charge each frame its link's Smax, not its size?
    pub by_frames: bool,
    /// How far the switch's and the tap's times between two frames may differ.
    pub grace: u32,
    /// How late a timestamp may be, in place of what the table says.
    pub late: Option<Lateness>,
    /// Does a recording go on with its next file behind one that ends within a packet, or is damaged?
    pub resumes: bool,
    /// The ledger of transits that is written, if one is.
    pub ledger: Option<&'a str>,
    /// Is the answer written as JSON in place of text?
    pub json: bool,
}

/// A ledger of transits, its recordings, and which of its lines are taken. `-` is standard input or output.
#[derive(Clone, Copy, PartialEq, Eq)]
pub struct TransitCutArguments<'a> {
    /// The ledger of transits.
    pub ledger: &'a str,
    /// The recording at the port in. One of the two is given.
    pub before: Option<&'a str>,
    /// The recording at the port out.
    pub after: Option<&'a str>,
    /// The table of virtual links, which has their names.
    pub config: Option<&'a str>,
    /// Virtual links: identifiers, ranges of them, or names.
    pub link: Option<&'a str>,
    /// Words of the ledger's outcomes.
    pub verdict: Option<&'a str>,
    /// The first moment.
    pub from: Option<&'a str>,
    /// The last moment.
    pub to: Option<&'a str>,
    /// How long after the first moment the last one is, in place of that.
    pub span: Option<&'a str>,
    /// So many lines of the same link are taken before and after each selected one too.
    pub around: u16,
    /// Does a recording go on with its next file behind one that ends within a packet, or is damaged?
    pub resumes: bool,
    /// Are the packets written as a pcapng file, with their outcomes as comments?
    pub pcapng: bool,
    /// Where packets are written.
    pub output: &'a str,
}

/// The text of an argument that clap requires or has a default for.
fn needed<'a>(given: &ArgMatches<'a>, name: &str) -> Result<&'a str, Misuse> {
    given.get_str(name).ok_or(Misuse::Incomplete)
}

/// True if a flag is given.
fn flag(given: &ArgMatches<'_>, name: &str) -> Result<bool, Misuse> {
    given.get_one(name).ok_or(Misuse::Incomplete)
}

/// The one filter that is given by its text, as a file in the numeric form or as a source.
fn filter_argument<'a>(given: &ArgMatches<'a>) -> Result<FilterArgument<'a>, Misuse> {
    match (
        given.get_str("code"),
        given.get_str("filter"),
        given.get_str("source"),
    ) {
        (Some(code), None, None) => Ok(FilterArgument::Code(code)),
        (None, Some(path), None) => Ok(FilterArgument::Numeric(path)),
        (None, None, Some(path)) => Ok(FilterArgument::Source(path)),
        (None, None, None) => Err(Misuse::NoFilter),
        _ => Err(Misuse::TwoFilters),
    }
}

/// How late a timestamp may be, if it is given.
fn lateness(given: &ArgMatches<'_>) -> Result<Option<Lateness>, Misuse> {
    match given.get_str("late-us") {
        Some(text) => match read_lateness(text) {
            Some(late) => Ok(Some(late)),
            None => Err(Misuse::NoLateness),
        },
        None => Ok(None),
    }
}

/// The arguments of `capture`.
fn capture_arguments<'a>(given: &ArgMatches<'a>) -> Result<CaptureArguments<'a>, Misuse> {
    let late = lateness(given)?;
    Ok(CaptureArguments {
        filter: filter_argument(given)?,
        recording: needed(given, "recording")?,
        output: needed(given, "output")?,
        pcapng: flag(given, "pcapng")?,
        late,
    })
}

/// The options of `watch`.
fn watch_arguments<'a>(given: &ArgMatches<'a>) -> Result<WatchArguments<'a>, Misuse> {
    let watch = WatchArguments {
        late: lateness(given)?,
        config: needed(given, "config")?,
        filter: given.get_str("filter"),
        a: given.get_str("a"),
        b: given.get_str("b"),
        capture: given.get_str("capture"),
        ledger: needed(given, "ledger")?,
        details: flag(given, "details")?,
        manifest: given.get_str("manifest"),
        digest: flag(given, "digest")?,
        resumes: flag(given, "resume-after-cut")?,
        workers: given.get_one("workers").ok_or(Misuse::Incomplete)?,
        quiet: flag(given, "quiet")?,
        strict: flag(given, "strict")?,
        pcapng: flag(given, "pcapng")?,
    };
    check_watch(&watch)?;
    Ok(watch)
}

/// Refuses a run without a recording, one that writes a capture without a filter, a format of a capture that
/// isn't written, digests for a manifest that isn't, and timestamps in any order.
fn check_watch(given: &WatchArguments<'_>) -> Result<(), Misuse> {
    if given.a.is_none() && given.b.is_none() {
        return Err(Misuse::NoRecording);
    }
    if given.capture.is_some() && given.filter.is_none() {
        return Err(Misuse::Unfiltered);
    }
    if given.pcapng && given.capture.is_none() {
        return Err(Misuse::Uncaptured);
    }
    if given.digest && given.manifest.is_none() {
        return Err(Misuse::NoManifest);
    }
    if matches!(given.late, Some(Lateness::Any)) {
        return Err(Misuse::Unordered);
    }
    Ok(())
}

/// The options of `debug`.
fn debug_arguments<'a>(given: &ArgMatches<'a>) -> Result<DebugArguments<'a>, Misuse> {
    let late = lateness(given)?;
    Ok(DebugArguments {
        filter: filter_argument(given)?,
        tap: needed(given, "tap")?,
        late,
    })
}

/// The options of `cut`, whatever ledger it is by.
fn cut_options<'a>(given: &ArgMatches<'a>) -> Result<CutArguments<'a>, Misuse> {
    Ok(CutArguments {
        ledger: needed(given, "ledger")?,
        a: given.get_str("a"),
        b: given.get_str("b"),
        config: given.get_str("config"),
        link: given.get_str("link"),
        network: given.get_str("network"),
        verdict: given.get_str("verdict"),
        from: given.get_str("from"),
        to: given.get_str("to"),
        span: given.get_str("span"),
        filters: given.get_str("filters"),
        around: given.get_one("around").ok_or(Misuse::Incomplete)?,
        ledger_only: flag(given, "ledger-only")?,
        resumes: flag(given, "resume-after-cut")?,
        pcapng: flag(given, "pcapng")?,
        output: needed(given, "output")?,
    })
}

/// The options of `cut` by a ledger of transits. Those of a ledger of `watch` alone are refused.
fn transit_cut_arguments<'a>(given: &ArgMatches<'a>) -> Result<TransitCutArguments<'a>, Misuse> {
    let cut = cut_options(given)?;
    let is_of_watch = cut.a.is_some()
        || cut.b.is_some()
        || cut.network.is_some()
        || cut.filters.is_some()
        || cut.ledger_only;
    if is_of_watch {
        return Err(Misuse::OfWatch);
    }
    if cut.to.is_some() && cut.span.is_some() {
        return Err(Misuse::TwoEnds);
    }
    Ok(TransitCutArguments {
        ledger: cut.ledger,
        before: given.get_str("before"),
        after: given.get_str("after"),
        config: cut.config,
        link: cut.link,
        verdict: cut.verdict,
        from: cut.from,
        to: cut.to,
        span: cut.span,
        around: cut.around,
        resumes: cut.resumes,
        pcapng: cut.pcapng,
        output: cut.output,
    })
}

/// The request of `cut`: by a ledger of transits where a recording of a switch is given.
fn cut_invocation<'a>(given: &ArgMatches<'a>) -> Result<Invocation<'a>, Misuse> {
    if given.get_str("before").is_some() || given.get_str("after").is_some() {
        return Ok(Invocation::TransitCut(transit_cut_arguments(given)?));
    }
    let cut = cut_options(given)?;
    check_cut(&cut)?;
    Ok(Invocation::Cut(cut))
}

/// Refuses packets without a recording, a format of packets where none are written, two ends of a span, and a
/// network that is neither A nor B.
fn check_cut(given: &CutArguments<'_>) -> Result<(), Misuse> {
    if !given.ledger_only && given.a.is_none() && given.b.is_none() {
        return Err(Misuse::NoRecording);
    }
    if given.ledger_only && given.pcapng {
        return Err(Misuse::NoPackets);
    }
    if given.to.is_some() && given.span.is_some() {
        return Err(Misuse::TwoEnds);
    }
    check_network(given.network)
}

/// Which heads the columns of a document have.
fn given_heads<'a>(given: &ArgMatches<'a>) -> Result<GivenHeads<'a>, Misuse> {
    let mut heads = GivenHeads::none();
    for text in given.get_strs("column").unwrap_or(&[]) {
        heads = match heads.with(*text) {
            Ok(heads) => heads,
            Err(_) => return Err(Misuse::NoColumn),
        };
    }
    Ok(heads)
}

/// The options of `links`: a recording or a document, or both, and heads of a document alone.
fn links_arguments<'a>(given: &ArgMatches<'a>) -> Result<LinksArguments<'a>, Misuse> {
    let links = LinksArguments {
        a: given.get_str("a"),
        b: given.get_str("b"),
        resumes: flag(given, "resume-after-cut")?,
        constant: given.get_str("constant"),
        icd: given.get_str("icd"),
        columns: given_heads(given)?,
    };
    if links.icd.is_none() && !links.columns.is_empty() {
        return Err(Misuse::NoDocument);
    }
    if links.a.is_none() && links.b.is_none() && links.icd.is_none() {
        return Err(Misuse::NoLinks);
    }
    Ok(links)
}

/// Which findings make a report fail, if that is given.
fn fail_on(given: &ArgMatches<'_>) -> Result<Option<FailOn>, Misuse> {
    match given.get_str("fail-on") {
        Some("trouble") => Ok(Some(FailOn::Trouble)),
        Some("notice") => Ok(Some(FailOn::Notice)),
        Some(_) => Err(Misuse::NoLevel),
        None => Ok(None),
    }
}

/// The options of `report`.
fn report_arguments<'a>(given: &ArgMatches<'a>) -> Result<ReportArguments<'a>, Misuse> {
    let report = ReportArguments {
        config: needed(given, "config")?,
        ledger: needed(given, "ledger")?,
        manifest: given.get_str("manifest"),
        expected: expected(given)?,
        baseline: given.get_str("baseline"),
        baseline_config: given.get_str("baseline-config"),
        transit: given.get_str("transit"),
        from: given.get_str("from"),
        to: given.get_str("to"),
        link: given.get_str("link"),
        network: given.get_str("network"),
        json: flag(given, "json")?,
        csv: given.get_str("csv"),
        title: given.get_str("title"),
        fail_on: fail_on(given)?,
        output: needed(given, "output")?,
    };
    check_network(report.network)?;
    if report.baseline_config.is_some() && report.baseline.is_none() {
        return Err(Misuse::NoBaseline);
    }
    if report.expected.is_some() && report.manifest.is_none() {
        return Err(Misuse::NoKinds);
    }
    Ok(report)
}

/// Refuses a network that is neither A nor B.
fn check_network(network: Option<&str>) -> Result<(), Misuse> {
    match network {
        Some("A" | "B") | None => Ok(()),
        Some(_) => Err(Misuse::NoNetwork),
    }
}

/// The kinds of other traffic that are expected, if some are.
fn expected<'a>(given: &ArgMatches<'a>) -> Result<Option<&'a str>, Misuse> {
    match given.get_str("expected") {
        Some(text) if !are_kinds(text) => Err(Misuse::NoKind),
        kinds => Ok(kinds),
    }
}

/// The options of `check`.
fn check_arguments<'a>(given: &ArgMatches<'a>) -> Result<CheckArguments<'a>, Misuse> {
    Ok(CheckArguments {
        config: needed(given, "config")?,
        filter: given.get_str("filter"),
        a: given.get_str("a"),
        b: given.get_str("b"),
        expected: expected(given)?,
        whole: flag(given, "whole")?,
        resumes: flag(given, "resume-after-cut")?,
        json: flag(given, "json")?,
    })
}

/// Does policing charge each frame its link's Smax?
fn is_by_frames(given: &ArgMatches<'_>) -> Result<bool, Misuse> {
    match needed(given, "police")? {
        "bytes" => Ok(false),
        "frames" => Ok(true),
        _ => Err(Misuse::NoPolicing),
    }
}

/// The nanoseconds of an option in microseconds that clap has a default for.
fn micros(given: &ArgMatches<'_>, name: &str) -> Result<u64, Misuse> {
    let micros: u64 = given.get_one(name).ok_or(Misuse::Incomplete)?;
    Ok(micros.saturating_mul(1000))
}

/// The grace of policing, in nanoseconds.
fn grace(given: &ArgMatches<'_>) -> Result<u32, Misuse> {
    Ok(u32::try_from(micros(given, "grace-us")?).unwrap_or(u32::MAX))
}

/// The longest transit that isn't slow, in nanoseconds, if it is given.
fn bound(given: &ArgMatches<'_>) -> Option<u64> {
    let micros: u64 = given.get_one("bound-us")?;
    Some(micros.saturating_mul(1000))
}

/// The options of `transit`.
fn transit_arguments<'a>(given: &ArgMatches<'a>) -> Result<TransitArguments<'a>, Misuse> {
    let transit = TransitArguments {
        config: needed(given, "config")?,
        before: needed(given, "before")?,
        after: needed(given, "after")?,
        network: given.get_str("network"),
        within: micros(given, "within-us")?,
        early: micros(given, "early-us")?,
        bound: bound(given),
        routed: given.get_str("routed"),
        shift: given.get_one("shift-ns").ok_or(Misuse::Incomplete)?,
        by_frames: is_by_frames(given)?,
        grace: grace(given)?,
        late: lateness(given)?,
        resumes: flag(given, "resume-after-cut")?,
        ledger: given.get_str("ledger"),
        json: flag(given, "json")?,
    };
    check_network(transit.network)?;
    if matches!(transit.late, Some(Lateness::Any)) {
        return Err(Misuse::Unordered);
    }
    Ok(transit)
}

/// The request of a command of a name and its arguments.
fn invocation_of<'a>(name: &str, given: &ArgMatches<'a>) -> Result<Invocation<'a>, Misuse> {
    match name {
        "capture" => Ok(Invocation::Capture(capture_arguments(given)?)),
        "asm" => Ok(Invocation::Asm),
        "watch" => Ok(Invocation::Watch(watch_arguments(given)?)),
        "debug" => Ok(Invocation::Debug(debug_arguments(given)?)),
        "cut" => cut_invocation(given),
        "links" => Ok(Invocation::Links(links_arguments(given)?)),
        "report" => Ok(Invocation::Report(report_arguments(given)?)),
        "check" => Ok(Invocation::Check(check_arguments(given)?)),
        "transit" => Ok(Invocation::Transit(transit_arguments(given)?)),
        _ => Err(Misuse::Incomplete),
    }
}

/// The request of the matches of a command line.
fn arguments_of<'a>(matches: &ArgMatches<'a>) -> Result<CommandLine<'a>, Misuse> {
    let (name, given) = matches.subcommand().ok_or(Misuse::Incomplete)?;
    Ok(CommandLine {
        command: invocation_of(name, given)?,
        verbose: flag(given, "verbose")?,
    })
}

/// The error of a command that refuses its arguments, with its usage.
fn refusal(alloc: Global, command: Option<&str>, misuse: Misuse) -> Result<Error, AllocError> {
    named_command(alloc, command)?.error(misuse.kind(), misuse.message())
}

/// Reads the command-line arguments, the program's own name first.
///
/// # Errors
///
/// clap's error if clap's rules or the command's own refuse the arguments, or out of memory. It prints as
/// the text for the user. A request for help or for the version is one too.
pub fn read_arguments<'a>(
    alloc: Global,
    arguments: &'a [String],
) -> Result<CommandLine<'a>, Error> {
    let command = whole_command(alloc)?;
    let matches = command.try_get_matches_from(arguments)?;
    match arguments_of(&matches) {
        Ok(asked) => Ok(asked),
        Err(misuse) => Err(refusal(alloc, matches.subcommand_name(), misuse)?),
    }
}
