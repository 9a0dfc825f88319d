//! The table of the commands and their arguments, and the commands of clap that it makes.

use crate::usage::{
    ASM_EXAMPLE, CAPTURE_EXAMPLE, CAPTURE_USAGE, CHECK_EXAMPLE, CHECK_USAGE, CUT_EXAMPLE,
    CUT_USAGE, DEBUG_EXAMPLE, DEBUG_USAGE, LINKS_EXAMPLE, LINKS_USAGE, REPORT_EXAMPLE,
    REPORT_USAGE, TRANSIT_EXAMPLE, TRANSIT_USAGE, WATCH_EXAMPLE, WATCH_USAGE,
};
use clap::builder::ValueParser;
use clap::{Arg, ArgAction, Command};
use std::alloc::{AllocError, Global};

/// The version that `--version` prints. In a copy of the linked program `tools/stamp` puts the commit in the
/// place of the 12 letters; `tools/release` holds the toolchain to be that which proved the program.
const VERSION: &str = "1.0.0 (commit unknown-tree) proved by rattle-kit-13b";

/// The version, the commit of the program's sources, and the toolchain that proved them:
/// `1.0.0 (commit 0123456789ab) proved by rattle-kit-13b`.
pub fn version() -> &'static str {
    VERSION
}

/// How an argument is given.
#[derive(Clone, Copy)]
pub(crate) enum Form {
    /// An option without a value, which says yes where it is given.
    Flag,
    /// The same with a short name.
    ShortFlag(char),
    /// An option that has to be given, with what stands for its value in the help.
    Needed(&'static str),
    /// An option that may be given.
    Free(&'static str),
    /// An option that may be given several times.
    Repeated(&'static str),
    /// An option with a number of 8 bits, and the text of the one that it is where it isn't given.
    Number8(&'static str),
    /// The same with a number of 16 bits.
    Number16(&'static str),
    /// An option with a number from the first of these to the second, and the text of the one that it is
    /// where it isn't given.
    Between(u64, u64, &'static str),
    /// The same that is nothing where it isn't given.
    FreeBetween(u64, u64),
    /// An option with a number of 64 bits that may be negative, 0 where it isn't given.
    Signed,
    /// An option with one of these words, and the one that it is where it isn't given.
    Choice(&'static str, &'static str),
    /// The file that is written, which `-o` names too: standard output where it isn't given.
    Output,
    /// A word that no option stands before: standard input where it isn't given.
    Word(&'static str),
}

/// An argument: its name, how it is given, and what the help says of it.
#[derive(Clone, Copy)]
pub(crate) struct Argument(&'static str, Form, &'static str);

/// A command: its texts, and its arguments in the order of the help.
#[derive(Clone, Copy)]
pub(crate) struct CommandRow {
    name: &'static str,
    about: &'static str,
    /// How it is called, where clap's own text doesn't say enough.
    usage: Option<&'static str>,
    /// The text after the arguments in the help.
    example: &'static str,
    arguments: &'static [Argument],
}

const FILE: Form = Form::Free("FILE");

const CONFIG: Argument = Argument(
    "config",
    Form::Needed("FILE"),
    "The table of virtual links, a TOML document",
);

const FILTER: Argument = Argument(
    "filter",
    FILE,
    "The filter in the numeric form, as `afdxmon asm` prints it",
);

const SOURCE: Argument = Argument(
    "source",
    FILE,
    "The filter's source, as `afdxmon asm` reads it",
);

const A: Argument = Argument(
    "a",
    FILE,
    "The recording of network A, pcap or pcapng files, or @LIST of paths",
);

const B: Argument = Argument(
    "b",
    FILE,
    "The recording of network B, pcap or pcapng files, or @LIST of paths",
);

/// The help of what writes a capture.
const CAPTURE_HELP: &str = "The capture to write, a nanosecond pcap file";

/// The form of a capture that has a ledger beside it.
const COMMENTED: Argument = Argument(
    "pcapng",
    Form::Flag,
    "Write the capture as pcapng, with verdicts as packet comments",
);

const VERBOSE: Argument = Argument(
    "verbose",
    Form::ShortFlag('v'),
    "Tell standard error, whatever it is, what a terminal is told but progress",
);

/// A recording of several files goes on behind a torn one.
const RESUMES: Argument = Argument(
    "resume-after-cut",
    Form::Flag,
    "Go on with the next file of a recording behind one that is cut or damaged",
);

const EXPECTED: Argument = Argument(
    "expected",
    Form::Free("LIST"),
    "Kinds of other traffic that the networks are to have, as 'ptp,lldp,0x88cc'",
);

/// How late a timestamp may be, where any order will do.
const LATE: Argument = Argument(
    "late-us",
    Form::Free("N|any"),
    "Take timestamps that are out of order by N microseconds, or in any order",
);

/// The arguments of each command.
const CAPTURE: [Argument; 8] = [
    Argument(
        "code",
        Form::Free("TEXT"),
        "The filter in the numeric form, as `tcpdump -ddd` prints it",
    ),
    FILTER,
    SOURCE,
    Argument("output", Form::Output, CAPTURE_HELP),
    Argument("pcapng", Form::Flag, "Write the capture as pcapng"),
    LATE,
    Argument(
        "recording",
        Form::Word("RECORDING"),
        "The recording, pcap or pcapng files, or @LIST of paths",
    ),
    VERBOSE,
];

const ASM: [Argument; 1] = [VERBOSE];

const WATCH: [Argument; 16] = [
    CONFIG,
    FILTER,
    A,
    B,
    Argument("capture", FILE, CAPTURE_HELP),
    Argument(
        "ledger",
        Form::Needed("FILE"),
        "The ledger of verdicts to write",
    ),
    Argument(
        "details",
        Form::Flag,
        "Write a ledger of version 3, with each frame's length on the wire",
    ),
    Argument(
        "manifest",
        FILE,
        "The manifest to write: a JSON text of what the run was of",
    ),
    Argument(
        "digest",
        Form::Flag,
        "Take the SHA-256 of recordings and outputs into the manifest",
    ),
    Argument(
        "workers",
        Form::Number8("2"),
        "The number of workers, 1 to 8",
    ),
    Argument(
        "late-us",
        Form::Free("N"),
        "Take timestamps out of order by N microseconds, in place of the table's late_us",
    ),
    Argument(
        "quiet",
        Form::Flag,
        "Leave out progress and summary at a terminal",
    ),
    Argument(
        "strict",
        Form::Flag,
        "End with status 3 where a recording ends early or a file is torn, not with 0",
    ),
    RESUMES,
    COMMENTED,
    VERBOSE,
];

const DEBUG: [Argument; 5] = [
    FILTER,
    SOURCE,
    Argument(
        "tap",
        Form::Needed("FILE"),
        "The recording, pcap or pcapng files, or @LIST of paths",
    ),
    LATE,
    VERBOSE,
];

const CUT: [Argument; 19] = [
    Argument(
        "ledger",
        Form::Needed("FILE"),
        "The ledger of the recordings",
    ),
    A,
    B,
    Argument(
        "before",
        FILE,
        "By a ledger of transits: the recording at the port in",
    ),
    Argument(
        "after",
        FILE,
        "By a ledger of transits: the recording at the port out",
    ),
    Argument(
        "config",
        FILE,
        "The table of virtual links: --link may then have their names",
    ),
    Argument(
        "link",
        Form::Free("LIST"),
        "Virtual links, as '301-305,42' or 'engine_*'; '*' stands for any letters",
    ),
    Argument("network", Form::Free("A|B"), "The network"),
    Argument(
        "verdict",
        Form::Free("LIST"),
        "Words of the ledger's fields 6 to 9, 'discarded', 'faults' or 'delivered'",
    ),
    Argument("from", Form::Free("TIME"), "The first moment"),
    Argument("to", Form::Free("TIME"), "The last moment"),
    Argument(
        "span",
        Form::Free("LENGTH"),
        "How long after --from the last moment is: '2s', '250ms', '80us'",
    ),
    Argument(
        "filters",
        Form::Free("MASK"),
        "A mask of filters in hexadecimal: '06' is what filter 1 or 2 accepts",
    ),
    Argument(
        "around",
        Form::Number16("0"),
        "Take N frames of the same link before and after each selected one too",
    ),
    Argument(
        "ledger-only",
        Form::Flag,
        "Print the ledger's lines of the selected frames in place of packets",
    ),
    RESUMES,
    COMMENTED,
    Argument(
        "output",
        Form::Output,
        "The nanosecond pcap file to write, or the text file of lines",
    ),
    VERBOSE,
];

const LINKS: [Argument; 7] = [
    A,
    B,
    Argument(
        "constant",
        Form::Free("NUMBER"),
        "The constant field of the links' frames, as 0x03000000",
    ),
    Argument(
        "icd",
        FILE,
        "The links that are specified: values separated by commas, semicolons or tabs",
    ),
    Argument(
        "column",
        Form::Repeated("KEY=HEAD"),
        "The head of a key's column in the ICD, as id='VL-Nr'; may be given again",
    ),
    RESUMES,
    VERBOSE,
];

const REPORT: [Argument; 17] = [
    CONFIG,
    Argument(
        "ledger",
        Form::Needed("FILE"),
        "The ledger of verdicts, as `afdxmon watch` writes it",
    ),
    Argument(
        "manifest",
        FILE,
        "The manifest of the run, as `afdxmon watch` writes it",
    ),
    EXPECTED,
    Argument(
        "baseline",
        FILE,
        "The ledger of an earlier flight to compare with",
    ),
    Argument(
        "baseline-config",
        FILE,
        "The table of that flight, where it was another one",
    ),
    Argument(
        "transit",
        FILE,
        "A ledger of transits to tell of too, as `afdxmon transit` writes it",
    ),
    Argument(
        "from",
        Form::Free("TIME"),
        "The first moment of what is told",
    ),
    Argument("to", Form::Free("TIME"), "The last moment"),
    Argument(
        "link",
        Form::Free("LIST"),
        "The virtual links, as '301-305,42' or 'engine_*'",
    ),
    Argument("network", Form::Free("A|B"), "The network"),
    Argument(
        "json",
        Form::Flag,
        "Write the page's numbers as JSON in place of the page",
    ),
    Argument(
        "csv",
        FILE,
        "Write the links too, a row each of comma-separated values",
    ),
    Argument("title", Form::Free("TEXT"), "The title of the page"),
    Argument(
        "fail-on",
        Form::Free("LEVEL"),
        "End with status 3 where there are findings of trouble, or by 'notice' of notice too",
    ),
    Argument(
        "output",
        Form::Output,
        "The page to write, or the JSON text",
    ),
    VERBOSE,
];

const CHECK: [Argument; 9] = [
    CONFIG,
    FILTER,
    A,
    B,
    EXPECTED,
    Argument(
        "whole",
        Form::Flag,
        "Read the recordings to their ends, not their first 1000000 frames",
    ),
    RESUMES,
    Argument(
        "json",
        Form::Flag,
        "Write the answer as JSON in place of text",
    ),
    VERBOSE,
];

const TRANSIT: [Argument; 16] = [
    CONFIG,
    Argument(
        "before",
        Form::Needed("FILE"),
        "The recording at the port in, pcap or pcapng files, or @LIST of paths",
    ),
    Argument(
        "after",
        Form::Needed("FILE"),
        "The recording at the port out, by the same clock",
    ),
    Argument(
        "network",
        Form::Free("A|B"),
        "The network, for the ledger's second line",
    ),
    Argument(
        "within-us",
        Form::Between(1, 10_000_000, "10000"),
        "The longest transit that is looked for",
    ),
    Argument(
        "early-us",
        Form::Between(0, 1_000_000, "1000"),
        "How far clocks and stamps may be off",
    ),
    Argument(
        "bound-us",
        Form::FreeBetween(0, 10_000_000),
        "Tell frames whose transit was longer",
    ),
    Argument(
        "routed",
        Form::Free("LIST"),
        "The links that are routed to the port out, as '301-305,42' or 'engine_*'",
    ),
    Argument(
        "shift-ns",
        Form::Signed,
        "Add this to each timestamp of --after",
    ),
    Argument(
        "police",
        Form::Choice("bytes|frames", "bytes"),
        "How the switch polices: by a frame's bytes, or each as its link's Smax",
    ),
    Argument(
        "grace-us",
        Form::Between(0, 1_000_000, "1"),
        "How far the switch's and the taps' times between frames may differ",
    ),
    Argument(
        "late-us",
        Form::Free("N"),
        "Take timestamps out of order by N microseconds, in place of the table's late_us",
    ),
    RESUMES,
    Argument("ledger", FILE, "The ledger of transits to write"),
    Argument(
        "json",
        Form::Flag,
        "Write the answer as JSON in place of text",
    ),
    VERBOSE,
];

/// Does an option of `capture` take the next word as its value?
pub(crate) fn takes_value(option: &str) -> bool {
    if option == "-o" {
        return true;
    }
    CAPTURE.iter().any(|Argument(name, form, _)| match form {
        Form::Flag | Form::ShortFlag(_) | Form::Word(_) => false,
        _ => option.strip_prefix("--") == Some(*name),
    })
}

/// The commands in the order of the help.
const COMMANDS: [CommandRow; 9] = [
    CommandRow {
        name: "capture",
        about: "Copies the frames of a recording that a filter accepts",
        usage: Some(CAPTURE_USAGE),
        example: CAPTURE_EXAMPLE,
        arguments: &CAPTURE,
    },
    CommandRow {
        name: "asm",
        about: "Assembles a filter's source from standard input, and prints its numeric form",
        usage: None,
        example: ASM_EXAMPLE,
        arguments: &ASM,
    },
    CommandRow {
        name: "watch",
        about: "Judges the frames of two recordings, and writes those that a filter accepts",
        usage: Some(WATCH_USAGE),
        example: WATCH_EXAMPLE,
        arguments: &WATCH,
    },
    CommandRow {
        name: "debug",
        about: "Steps through a filter on the frames of a recording, by commands from standard input",
        usage: Some(DEBUG_USAGE),
        example: DEBUG_EXAMPLE,
        arguments: &DEBUG,
    },
    CommandRow {
        name: "cut",
        about: "Copies the frames of two recordings that a ledger's lines select",
        usage: Some(CUT_USAGE),
        example: CUT_EXAMPLE,
        arguments: &CUT,
    },
    CommandRow {
        name: "links",
        about: "Prints a draft of the table of virtual links that recordings have",
        usage: Some(LINKS_USAGE),
        example: LINKS_EXAMPLE,
        arguments: &LINKS,
    },
    CommandRow {
        name: "report",
        about: "Writes an HTML page on what a ledger says, or its numbers",
        usage: Some(REPORT_USAGE),
        example: REPORT_EXAMPLE,
        arguments: &REPORT,
    },
    CommandRow {
        name: "check",
        about: "Tells whether a run of watch with these inputs would be sound",
        usage: Some(CHECK_USAGE),
        example: CHECK_EXAMPLE,
        arguments: &CHECK,
    },
    CommandRow {
        name: "transit",
        about: "Tells what a switch did with the frames that went in",
        usage: Some(TRANSIT_USAGE),
        example: TRANSIT_EXAMPLE,
        arguments: &TRANSIT,
    },
];

/// An option with a value, which may be given.
fn option<'a>(alloc: Global, name: &'a str, value: &'a str, help: &'a str) -> Arg<'a> {
    Arg::new(alloc, name)
        .long(name)
        .value_name(value)
        .help(help)
        .action(ArgAction::Set)
}

/// An argument of the table, as clap has it.
fn clap_argument<'a>(alloc: Global, row: &Argument) -> Arg<'a> {
    let Argument(name, form, help) = *row;
    match form {
        Form::Flag => Arg::new(alloc, name)
            .long(name)
            .help(help)
            .action(ArgAction::SetTrue),
        Form::ShortFlag(short) => Arg::new(alloc, name)
            .long(name)
            .short(short)
            .help(help)
            .action(ArgAction::SetTrue),
        Form::Needed(value) => option(alloc, name, value, help).required(true),
        Form::Free(value) => option(alloc, name, value, help),
        Form::Repeated(value) => option(alloc, name, value, help).action(ArgAction::Append),
        Form::Number8(default) => option(alloc, name, "N", help)
            .value_parser(clap::value_parser!(u8))
            .default_value(default),
        Form::Number16(default) => option(alloc, name, "N", help)
            .value_parser(clap::value_parser!(u16))
            .default_value(default),
        Form::Between(least, most, default) => option(alloc, name, "N", help)
            .value_parser(ValueParser::unsigned(least, most))
            .default_value(default),
        Form::FreeBetween(least, most) => {
            option(alloc, name, "N", help).value_parser(ValueParser::unsigned(least, most))
        }
        Form::Signed => option(alloc, name, "N", help)
            .value_parser(ValueParser::signed(i64::MIN, i64::MAX))
            .allow_negative_numbers(true)
            .default_value("0"),
        Form::Choice(words, default) => option(alloc, name, words, help).default_value(default),
        Form::Output => option(alloc, name, "FILE", help)
            .short('o')
            .default_value("-"),
        Form::Word(value) => Arg::new(alloc, name)
            .value_name(value)
            .help(help)
            .default_value("-")
            .action(ArgAction::Set),
    }
}

/// A command of the table, as clap has it.
fn clap_command<'a>(alloc: Global, row: &CommandRow) -> Result<Command<'a>, AllocError> {
    let mut command = Command::new(alloc, row.name)
        .about(row.about)
        .after_help(row.example);
    if let Some(usage) = row.usage {
        command = command.override_usage(usage);
    }
    for argument in row.arguments {
        command = command.arg(clap_argument(alloc, argument))?;
    }
    Ok(command)
}

/// The program's command, as clap has it.
pub(crate) fn whole_command<'a>(alloc: Global) -> Result<Command<'a>, AllocError> {
    let mut command = Command::new(alloc, "afdxmon")
        .about("Analyses recordings of AFDX networks (ARINC 664 Part 7)")
        .version(version())
        .subcommand_required(true);
    for row in &COMMANDS {
        command = command.subcommand(clap_command(alloc, row)?)?;
    }
    Ok(command)
}

/// The command of a name, else the program's.
pub(crate) fn named_command<'a>(
    alloc: Global,
    name: Option<&str>,
) -> Result<Command<'a>, AllocError> {
    match COMMANDS.iter().find(|row| name == Some(row.name)) {
        Some(row) => clap_command(alloc, row),
        None => whole_command(alloc),
    }
}
