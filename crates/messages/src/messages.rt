//! The words on a command's end for standard error: the fault line or the notes, and at a terminal which file
//! it is about, why, and what to do. What a file is found to be by then is only told, and decides nothing.
use afdx_frame::Network;
use bpf_asm::AsmFault;
use command_line::{
    Advice, EndingAdvice, Exit, Fault, FileOption, GivenFile, HEAD_LEN, Invocation, ManifestFault,
    Note, ReportFault, Shown, TEXT_ADVICE, TO_A_TERMINAL, TapNote, UNWRITTEN_ADVICE, caret_at,
    compressed_advice, file_of, header_advice, is_standard, load_offset, numeric_advice,
    numeric_offset, place_at, source_offset, written_as,
};
use cut_run::CutFault;
use ledger_text::LedgerStop;
use pcap_io::{Ending, HeaderFault};
use run_fault::WatchFault;
use run_manifest::read_manifest;
use std::fmt::{Display, Formatter};
use std::fs::File;
use std::io::Read;
use std::{fmt, fs, io};
use table_check::{key_offset, slip_of};
use tap_inputs::{Cause, Detail, Disorder, MAX_TEXT, Outcome, Tap, TapFailure, Taps};
use transit_cut::TransitCutFault;
use transit_ledger::TransitFault;
use vl_config::{Config, ConfigFault};

/// Where a ledger ends whose run was stopped, or goes on.
#[derive(Clone, Copy)]
struct StopNote<'a> {
    name: Shown<'a>,
    stop: LedgerStop,
}

impl Display for StopNote<'_> {
    fn fmt<W: fmt::Write>(&self, f: &mut Formatter<W>) -> fmt::Result {
        let name = self.name;
        let LedgerStop { lines, within_line } = self.stop;
        write!(f, "afdxmon: note: {name} ")?;
        if within_line {
            let next = lines.saturating_add(1);
            write!(f, "ends within line {next}")?;
        } else if lines == 0 {
            f.write_str("is empty")?;
        } else {
            write!(f, "ends after line {lines}, without its total")?;
        }
        write!(f, ": its run was stopped, or goes on; whole lines: {lines}")
    }
}

/// The end of a command, for its messages.
#[derive(Clone, Copy)]
pub struct CommandEnd<'a> {
    pub outcome: &'a Outcome,
    pub taps: &'a Taps,
    /// Is a person told all of it? Else there is the fault line, or the notes.
    pub full: bool,
}

impl<'a> CommandEnd<'a> {
    /// The filter's source in which a fault lies.
    fn source(&self) -> Option<&'a str> {
        match &self.outcome.detail {
            Some(Detail::Source(text)) => Some(text),
            _ => None,
        }
    }

    /// The interfaces, the files or the faults of a document that a fault is about.
    fn listed(&self) -> Option<&'a str> {
        match &self.outcome.detail {
            Some(Detail::Listed(text)) => Some(text),
            _ => None,
        }
    }

    /// How a line of a ledger and the table differ.
    fn disputed(&self) -> Option<&'a str> {
        match &self.outcome.detail {
            Some(Detail::Disputed(text)) => Some(text),
            _ => None,
        }
    }

    /// The fault of a stream.
    fn stream(&self) -> Option<&'a str> {
        match &self.outcome.detail {
            Some(Detail::Stream(text)) => Some(text),
            _ => None,
        }
    }

    /// The reason why standard input is no text.
    fn text(&self) -> Option<&'a str> {
        match &self.outcome.detail {
            Some(Detail::Text(text)) => Some(text),
            _ => None,
        }
    }

    /// Why the file of an option can't be had. That of a recording is known from who read it.
    fn cause(&self, file: FileOption) -> Option<Cause> {
        match tap_of(self.taps, file).and_then(|tap| tap.failure()) {
            Some(failure) => Some(failure.cause),
            None => self.outcome.cause,
        }
    }
}

/// The path that an option was given, if it is no standard stream.
fn path_of<'a>(command: Invocation<'a>, file: FileOption) -> Option<&'a str> {
    let path = command.file_of(file)?.path?;
    if is_standard(path) { None } else { Some(path) }
}

/// The recording that an option names, if it names one.
fn tap_of<'a>(taps: &'a Taps, file: FileOption) -> Option<&'a Tap> {
    match file {
        FileOption::A | FileOption::Recording | FileOption::Tap | FileOption::Before => {
            Some(taps.of_network(Network::A))
        }
        FileOption::B | FileOption::After => Some(taps.of_network(Network::B)),
        _ => None,
    }
}

/// Is the file standard input, in a list of several?
fn is_standard_among(command: Invocation<'_>, file: FileOption, taps: &Taps) -> bool {
    tap_of(taps, file).is_some_and(|tap| tap.is_of_several()) && path_of(command, file).is_none()
}

/// The advice on a ledger or a manifest that is read. None: it is none, or is written.
fn read_advice(command: Invocation<'_>, file: FileOption) -> Option<&'static str> {
    if command.file_of(file).is_some_and(|file| file.is_written) {
        return None;
    }
    match file {
        FileOption::Ledger => Some(LEDGER_ADVICE),
        FileOption::Baseline => Some(BASELINE_ADVICE),
        FileOption::Transit => Some(TRANSIT_ADVICE),
        FileOption::Manifest => Some(MANIFEST_ADVICE),
        _ => None,
    }
}

/// The name of a file for a person: its path, or the stream or option that is in its place.
fn name_of<'a>(command: Invocation<'a>, file: FileOption) -> Option<Shown<'a>> {
    match command.file_of(file) {
        Some(
            GivenFile {
                path: Some(path),
                is_written,
                ..
            },
        ) => Some(Shown(if !is_standard(path) {
            path
        } else if is_written {
            "standard output"
        } else {
            "standard input"
        })),
        _ if file == FileOption::Filter => command.code().map(|_| Shown("--code")),
        _ => None,
    }
}

/// The file of the filter's source.
fn source_of<'a>(command: Invocation<'a>) -> Option<&'a str> {
    let file = command.file_of(FileOption::Source)?;
    if file.option == FileOption::Source {
        file.path
    } else {
        None
    }
}

/// The first bytes of a regular file.
fn head_of(rt: &HostRuntime, path: &str) -> io::Result<[u8; HEAD_LEN]> {
    let mut head = [0; HEAD_LEN];
    if fs::metadata(rt, path)?.is_file() {
        File::open(rt, path)?.read_exact(&mut head)?;
    }
    Ok(head)
}

/// Tells what to do, after the name of the file that it is about.
fn advise<D: Display + Drop>(
    rt: &HostRuntime,
    name: Option<Shown<'_>>,
    advice: D,
) -> io::Result<()> {
    match name {
        Some(name) => eprintln!(rt; "{name}: {advice}"),
        None => rt.eprintln(advice),
    }
}

/// The text of a file that was read before, if it is a regular file.
fn text_again(rt: &HostRuntime, path: &str) -> Option<String> {
    let found = fs::metadata(rt, path).ok()?;
    if found.is_file() && found.len() <= MAX_TEXT as u64 {
        fs::read_to_string(rt, path).ok()
    } else {
        None
    }
}

/// Shows the line of a text with a place, and what is found there, if that is known.
fn show_place(
    rt: &HostRuntime,
    name: Shown<'_>,
    text: &str,
    at: usize,
    found: Option<Shown<'_>>,
) -> io::Result<()> {
    match (place_at(text, at), found) {
        (Some(place), Some(found)) => eprintln!(rt; "{name}:{place}: {found}")?,
        (Some(place), None) => eprintln!(rt; "{name}:{place}")?,
        (None, Some(found)) => eprintln!(rt; "{name}: {found}")?,
        (None, None) => {}
    }
    show_caret(rt, text, at)
}

/// Shows the line of a text with a place, and a caret under that.
fn show_caret(rt: &HostRuntime, text: &str, at: usize) -> io::Result<()> {
    match caret_at(rt.alloc(), text, at) {
        Some(caret) => rt.eprintln(caret),
        None => Ok(()),
    }
}

/// The advice on a ledger that is read.
const LEDGER_ADVICE: &str =
    "Let --ledger name a ledger that can be read: a file of watch, or a pipe";

/// The advice on the ledger of an earlier flight.
const BASELINE_ADVICE: &str =
    "Let --baseline name a ledger that can be read: a file of watch, or a pipe";

/// The advice on a ledger of transits that is read.
const TRANSIT_ADVICE: &str =
    "Let --transit name a ledger of transits that can be read: a file of transit, or a pipe";

/// The advice on a manifest that is read.
const MANIFEST_ADVICE: &str =
    "Let --manifest name a manifest that can be read: a file of watch, at most 16 MiB of UTF-8";

/// The advice on a document of links whose faults are listed.
const ICD_ADVICE: &str = "Correct these lines, or name the heads of columns by --column KEY=HEAD";

/// The advice on a ledger and a table that differ on a link.
const DISPUTED_ADVICE: &str = "Take the table of the run, and the ledger as watch wrote it";

/// The words for a person who names standard input beside other files of a recording.
pub const STANDARD_AMONG: &str = "\
'-' can't be one of several files of a recording
Name standard input /dev/stdin there";

/// Tells why a file can't be opened, read or written, and which to name.
fn explain_file(
    rt: &HostRuntime,
    command: Invocation<'_>,
    file: FileOption,
    fault: &Fault,
    cause: Option<Cause>,
) -> io::Result<()> {
    let name = match (name_of(command, file), cause) {
        (Some(name), Some(cause)) => {
            eprintln!(rt; "{name}: {cause}")?;
            None
        }
        (name, _) => name,
    };
    match read_advice(command, file) {
        Some(advice) => advise(rt, name, advice),
        None => advise(rt, name, Advice(fault)),
    }
}

/// Tells which file of a recording can't be read, and why.
fn explain_read(
    rt: &HostRuntime,
    command: Invocation<'_>,
    file: FileOption,
    fault: &Fault,
    known: CommandEnd<'_>,
) -> io::Result<()> {
    let tap = tap_of(known.taps, file);
    let failed = tap.and_then(|tap| {
        let TapFailure { number, cause } = tap.failure()?;
        Some((tap.path_at(number)?, cause))
    });
    match failed {
        Some((path, cause)) if !is_standard(path) => {
            let path = Shown(path);
            eprintln!(rt; "{path}: {cause}")?;
            rt.eprintln(Advice(fault))
        }
        _ => explain_file(rt, command, file, fault, known.cause(file)),
    }
}

/// Shows what is wrong with a table: the key in its line, what stands there, and by what to correct it.
fn explain_table(rt: &HostRuntime, command: Invocation<'_>, fault: ConfigFault) -> io::Result<()> {
    let Some(path) = path_of(command, FileOption::Config) else {
        return rt.eprintln(Advice(&Fault::Config(fault)));
    };
    let slip = match text_again(rt, path) {
        Some(text) => match slip_of(rt.alloc(), &text, fault) {
            Some(slip) => Some((text, slip)),
            None => None,
        },
        None => None,
    };
    let name = Shown(path);
    let Some((text, slip)) = slip else {
        return advise(rt, Some(name), Advice(&Fault::Config(fault)));
    };
    let found = Shown(&slip.found);
    match slip.at {
        Some(at) => show_place(rt, name, &text, at, Some(found))?,
        None => eprintln!(rt; "{name}: {found}")?,
    }
    let allowed = slip.allowed.as_str();
    eprintln!(rt; "Correct it: {allowed}")
}

/// Tells all that is wrong with a document of links, each fault after its line.
fn explain_icd(
    rt: &HostRuntime,
    name: Option<Shown<'_>>,
    fault: &Fault,
    listed: Option<&str>,
) -> io::Result<()> {
    let (Some(name), Some(listed)) = (name, listed) else {
        return advise(rt, name, Advice(fault));
    };
    for line in listed.lines() {
        eprintln!(rt; "{name}:{line}")?;
    }
    rt.eprintln(ICD_ADVICE)
}

/// Tells what is wrong with a manifest first, where its text can be had again.
fn explain_manifest(
    rt: &HostRuntime,
    command: Invocation<'_>,
    name: Option<Shown<'_>>,
    fault: &Fault,
) -> io::Result<()> {
    let text = path_of(command, FileOption::Manifest).and_then(|path| text_again(rt, path));
    match (name, text) {
        (Some(name), Some(text)) => {
            if let Err(run_manifest::ManifestFault::Form(error)) = read_manifest(
                rt.alloc(),
                &text,
            ) {
                let told = error.to_string(rt.alloc())?;
                let told = Shown(&told);
                eprintln!(rt; "{name}: {told}")?;
            }
            rt.eprintln(Advice(fault))
        }
        _ => advise(rt, name, Advice(fault)),
    }
}

/// Shows where in a filter's source a fault lies.
fn explain_source(
    rt: &HostRuntime,
    command: Invocation<'_>,
    fault: AsmFault,
    source: Option<&str>,
) -> io::Result<()> {
    let name = name_of(command, FileOption::Source).unwrap_or(Shown("standard input"));
    if let Some(source) = source {
        if let Some(at) = source_offset(rt.alloc(), fault, source) {
            show_place(rt, name, source, at, None)?;
        }
    }
    rt.eprintln(Advice(&Fault::Asm(fault)))
}

/// Where in the numeric form of a filter a fault lies. In a blank text it is nowhere.
fn filter_offset(fault: &Fault, text: &str) -> Option<usize> {
    match *fault {
        Fault::Numeric { fault, .. } if !text.trim().is_empty() => numeric_offset(fault, text),
        Fault::Load { fault, .. } => load_offset(fault, text),
        _ => None,
    }
}

/// Tells what to do with a text that is no filter, by what it looks like.
fn advise_filter(
    rt: &HostRuntime,
    name: Option<Shown<'_>>,
    text: &str,
    fault: &Fault,
) -> io::Result<()> {
    match *fault {
        Fault::Numeric { fault, .. } => {
            advise(
                rt,
                name,
                numeric_advice(fault, written_as(rt.alloc(), text)),
            )
        }
        _ => advise(rt, name, Advice(fault)),
    }
}

/// Shows where in a filter's text a fault lies.
fn show_filter(rt: &HostRuntime, name: Shown<'_>, text: &str, fault: &Fault) -> io::Result<()> {
    match filter_offset(fault, text) {
        Some(at) => {
            show_place(rt, name, text, at, None)?;
            advise_filter(rt, None, text, fault)
        }
        None => advise_filter(rt, Some(name), text, fault),
    }
}

/// Shows where in a filter of the table a fault lies: the place of the filters, and the filter's own text.
fn show_table_filter(
    rt: &HostRuntime,
    path: &str,
    table: &str,
    number: u8,
    fault: &Fault,
) -> io::Result<()> {
    let alloc = rt.alloc();
    let (path, found) = (Shown(path), format!(in alloc; "filter {number}")?);
    match key_offset(alloc, table, None, "filters") {
        Some(at) => show_place(rt, path, table, at, Some(Shown(&found)))?,
        None => eprintln!(rt; "{path}: {found}")?,
    }
    let Ok(config) = Config::read(alloc, table) else {
        return rt.eprintln(Advice(fault));
    };
    let Some(text) = config.filters().get(usize::from(number).saturating_sub(1)) else {
        return rt.eprintln(Advice(fault));
    };
    if let Some(at) = filter_offset(fault, text) {
        show_caret(rt, text, at)?;
    }
    advise_filter(rt, None, text, fault)
}

/// Shows where in a filter a fault lies: in that of the arguments or of a file, or in a numbered one of the
/// table.
fn explain_filter(
    rt: &HostRuntime,
    command: Invocation<'_>,
    fault: &Fault,
    number: Option<u8>,
) -> io::Result<()> {
    if let Some(code) = command.code() {
        return show_filter(rt, Shown("--code"), code, fault);
    }
    if let Some(path) = source_of(command) {
        return advise(rt, Some(Shown(path)), Advice(fault));
    }
    let Some(path) = file_of(fault).and_then(|file| path_of(command, file)) else {
        return rt.eprintln(Advice(fault));
    };
    match (text_again(rt, path), number) {
        (Some(text), None) => show_filter(rt, Shown(path), &text, fault),
        (Some(text), Some(number)) => show_table_filter(rt, path, &text, number, fault),
        (None, _) => advise(rt, Some(Shown(path)), Advice(fault)),
    }
}

/// Tells what is wrong with a recording's file header.
fn explain_header(
    rt: &HostRuntime,
    command: Invocation<'_>,
    file: FileOption,
    fault: HeaderFault,
) -> io::Result<()> {
    let name = name_of(command, file);
    let Some(Ok(head)) = path_of(command, file).map(|path| head_of(rt, path)) else {
        return advise(rt, name, header_advice(fault, &[]));
    };
    let given = command.file_of(file);
    match given.and_then(|given| compressed_advice(&head, given)) {
        Some(advice) if fault == HeaderFault::Magic => advise(rt, name, advice),
        Some(_) | None => advise(rt, name, header_advice(fault, &head)),
    }
}

/// Tells what is wrong with a file that an option names.
fn explain_named(
    rt: &HostRuntime,
    command: Invocation<'_>,
    file: FileOption,
    fault: &Fault,
    known: CommandEnd<'_>,
) -> io::Result<()> {
    if is_standard_among(command, file, known.taps) {
        return rt.eprintln(STANDARD_AMONG);
    }
    match (known.stream(), known.text()) {
        (Some(told), _) => rt.eprintln(Shown(told)),
        (None, Some(told)) => {
            rt.eprintln(Shown(told))?;
            rt.eprintln(TEXT_ADVICE)
        }
        (None, None) => explain_file(rt, command, file, fault, known.cause(file)),
    }
}

/// Tells what is wrong with a recording or an output of a run.
fn explain_watch(
    rt: &HostRuntime,
    command: Invocation<'_>,
    file: FileOption,
    fault: WatchFault,
    known: CommandEnd<'_>,
) -> io::Result<()> {
    let told = Fault::Watch(fault);
    match (fault, known.stream()) {
        (_, Some(closed)) => rt.eprintln(Shown(closed)),
        (WatchFault::Read { .. }, None) => explain_read(rt, command, file, &told, known),
        (WatchFault::Header { fault, .. }, None) => explain_header(rt, command, file, fault),
        _ => advise(rt, name_of(command, file), Advice(&told)),
    }
}

/// Tells what is wrong with a file of a cut.
fn explain_cut(
    rt: &HostRuntime,
    command: Invocation<'_>,
    file: FileOption,
    fault: CutFault,
    known: CommandEnd<'_>,
) -> io::Result<()> {
    let told = Fault::Cut(fault);
    match fault {
        CutFault::Read { .. } => explain_read(rt, command, file, &told, known),
        CutFault::Header { fault, .. } => explain_header(rt, command, file, fault),
        _ => advise(rt, name_of(command, file), Advice(&told)),
    }
}

/// Tells what is wrong with a file that a report is made of. `told` is the fault line.
fn explain_report(
    rt: &HostRuntime,
    command: Invocation<'_>,
    file: FileOption,
    fault: ReportFault,
    told: &Fault,
    known: CommandEnd<'_>,
) -> io::Result<()> {
    let name = name_of(command, file);
    match (fault, name, known.disputed()) {
        (ReportFault::Read, ..) => explain_file(rt, command, file, told, known.cause(file)),
        (ReportFault::Contradiction { line, .. }, Some(name), Some(disputed)) => {
            eprintln!(rt; "{name}: line {line}: {disputed}")?;
            rt.eprintln(DISPUTED_ADVICE)
        }
        (ReportFault::Manifest(ManifestFault::Form { .. }), ..) => {
            explain_manifest(rt, command, name, told)
        }
        _ => advise(rt, name, Advice(told)),
    }
}

/// Does a fault say that an output couldn't be written?
fn is_of_write(fault: &Fault) -> bool {
    matches!(
        fault,
        Fault::Watch(WatchFault::Write { .. })
            | Fault::Transit(WatchFault::Write { .. })
            | Fault::Cut(CutFault::Write)
            | Fault::TransitCut(TransitCutFault::Write)
            | Fault::Manifest
            | Fault::File(FileOption::Standard)
    )
}

/// Tells why an output couldn't be written, and what to do.
fn explain_unwritten(rt: &HostRuntime, name: Shown<'_>, cause: Cause) -> io::Result<()> {
    eprintln!(rt; "{name}: {cause}")?;
    rt.eprintln(UNWRITTEN_ADVICE)
}

/// Tells a person what a fault line means: the file and the place in it, why it can't be had or taken, and
/// what to do.
fn explain(
    rt: &HostRuntime,
    command: Invocation<'_>,
    fault: &Fault,
    known: CommandEnd<'_>,
) -> io::Result<()> {
    let file = file_of(fault);
    let name = file.and_then(|file| name_of(command, file));
    if let (true, Some(cause)) = (is_of_write(fault), known.outcome.cause) {
        return explain_unwritten(rt, name.unwrap_or(Shown("standard output")), cause);
    }
    match (*fault, file) {
        (Fault::File(_), Some(file)) => explain_named(rt, command, file, fault, known),
        (Fault::Watch(fault), Some(file)) => explain_watch(rt, command, file, fault, known),
        (Fault::Transit(fault), Some(file)) => explain_watch(rt, command, file, fault, known),
        (Fault::Cut(fault), Some(file)) => explain_cut(rt, command, file, fault, known),
        (Fault::Report(found), Some(file)) => {
            explain_report(rt, command, file, found, fault, known)
        }
        (Fault::Baseline(found), Some(file)) => {
            explain_report(rt, command, file, found, fault, known)
        }
        (Fault::TransitLedger(TransitFault::Read), Some(file)) => {
            explain_file(rt, command, file, fault, known.cause(file))
        }
        (Fault::Config(fault), _) => explain_table(rt, command, fault),
        (Fault::Icd(_), _) => explain_icd(rt, name, fault, known.listed()),
        (Fault::Asm(fault), _) => explain_source(rt, command, fault, known.source()),
        (Fault::Numeric { filter, .. } | Fault::Load { filter, .. }, _) => {
            explain_filter(rt, command, fault, filter)
        }
        _ => advise(rt, name, Advice(fault)),
    }
}

/// Notes how a recording ended, and where a frame out of order ended it, by how much.
fn tell_ending<D: Display + Drop>(
    rt: &HostRuntime,
    command: Invocation<'_>,
    (tap, at): (&Tap, usize),
    ending: Ending,
    note: D,
) -> io::Result<()> {
    match Disorder::of(command, ending) {
        Some(disorder) => eprintln!(rt; "{note}{disorder}")?,
        None => rt.eprintln(note)?,
    }
    tell_unread(rt, tap, at)
}

/// Notes which of a recording's files ended it, and how many after it weren't read.
fn tell_unread(rt: &HostRuntime, tap: &Tap, at: usize) -> io::Result<()> {
    let (Some(path), true) = (tap.path_at(at), tap.is_of_several()) else {
        return Ok(());
    };
    let (path, number, count) = (Shown(path), at.saturating_add(1), tap.files.len());
    match count.saturating_sub(number) {
        0 => eprintln!(rt; "afdxmon: note: it ended in {path}, the last of its {count} files"),
        1 => {
            eprintln!(rt;
                "afdxmon: note: it ended in {path}, file {number} of {count}: 1 was not read"
            )
        }
        unread => {
            eprintln!(rt;
                "afdxmon: note: it ended in {path}, file {number} of {count}: {unread} were not read"
            )
        }
    }
}

/// Tells a person what to do with a recording that ended early.
fn explain_ending(
    rt: &HostRuntime,
    command: Invocation<'_>,
    file: FileOption,
    ending: Ending,
    full: bool,
) -> io::Result<()> {
    match name_of(command, file) {
        Some(name) if full => {
            let advice = EndingAdvice(ending);
            eprintln!(rt; "{name}: {advice}")
        }
        Some(_) | None => Ok(()),
    }
}

/// Notes how one of two recordings ended, where that wasn't its end.
fn note_ending(
    rt: &HostRuntime,
    command: Invocation<'_>,
    network: Network,
    ending: Ending,
    known: CommandEnd<'_>,
) -> io::Result<()> {
    if let Ending::Clean(_) = ending {
        return Ok(());
    }
    let (file, at) = match network {
        Network::A => (FileOption::A, known.outcome.at[0]),
        Network::B => (FileOption::B, known.outcome.at[1]),
    };
    let recording = (known.taps.of_network(network), at);
    tell_ending(rt, command, recording, ending, TapNote(network, ending))?;
    explain_ending(rt, command, file, ending, known.full)
}

/// Notes where a ledger ends before its line `total`.
fn tell_stop(rt: &HostRuntime, command: Invocation<'_>, stop: LedgerStop) -> io::Result<()> {
    let name = name_of(command, FileOption::Ledger).unwrap_or(Shown("ledger"));
    rt.eprintln(StopNote { name, stop })
}

/// Tells standard error how a command ended: the fault line or the notes, and in full which file it is about,
/// where in it a fault lies, and what to do.
pub fn tell(rt: &HostRuntime, command: Invocation<'_>, known: CommandEnd<'_>) -> io::Result<()> {
    match &known.outcome.exit {
        Exit::Success => Ok(()),
        Exit::Terminal => rt.eprintln(TO_A_TERMINAL),
        Exit::Note(ending) => {
            let recording = (known.taps.of_network(Network::A), known.outcome.at[0]);
            tell_ending(rt, command, recording, *ending, Note(*ending))?;
            explain_ending(rt, command, FileOption::A, *ending, known.full)
        }
        Exit::Watched(run) => {
            note_ending(rt, command, Network::A, run.a, known)?;
            note_ending(rt, command, Network::B, run.b, known)
        }
        Exit::WithoutTotal(stop) => tell_stop(rt, command, *stop),
        Exit::Found(found) => {
            if let Some(stop) = found.stop {
                tell_stop(rt, command, stop)?;
            }
            rt.eprintln(*found)
        }
        Exit::Fault(fault) => {
            match (fault, known.listed()) {
                (Fault::Interfaces(_) | Fault::Order(_), Some(listed)) => {
                    let listed = Shown(listed);
                    eprintln!(rt; "{fault}: {listed}")?
                }
                _ => rt.eprintln(*fault)?,
            }
            if !known.full {
                return Ok(());
            }
            explain(rt, command, fault, known)?;
            match &known.outcome.unread {
                Some(unread) => explain(rt, command, unread, known),
                None => Ok(()),
            }
        }
    }
}
