//! The page on what a ledger says.
use crate::disputed::KnownTable;
use crate::files::refuse_shared;
use crate::inputs::{is_at_terminal, shown_path, text_of};
use crate::outputs::create;
use afdx_frame::VlId;
use command_line::{
    Contradiction, CutArguments, Exit, FailOn, Fault, FileOption, Found, Invocation, ManifestFault,
    ReportArguments, ReportFault, kinds_in, selection_of,
};
use findings::Level;
use ledger_report::{
    BINS, Crossing, Difference, Disputed, Hole, NoReport, Part, PerNetwork, RecorderFacts, Report,
    WrongLine, read_part, read_report,
};
use ledger_text::LineFault;
use pcap_io::ReadSource;
use report_page::{Shown, csv_of, failing, has_sizes, json_of, page_of, summary_of};
use run_inputs::read_config;
use run_manifest::{Digesting, Manifest, RecordingRecord, Sum, read_manifest, sum_of};
use std::alloc::{AllocError, Global};
use std::io;
use std::io::{Read, Write};
use tap_inputs::{Cause, Detail, Input, Noting, Outcome, Taps, open};
use transit_ledger::TransitFault;
use transit_report::{TimeColumns, TransitReport, read_transits};
use verdict_ledger::LedgerVersion;
use vl_config::Config;

/// There is no memory for a report.
const NO_REPORT: Fault = Fault::Report(ReportFault::Memory);

/// The fault of a wrong line.
fn line_fault(line: u64, wrong: WrongLine) -> ReportFault {
    let found = match wrong {
        WrongLine::Text(fault) => return ReportFault::Ledger { line, fault },
        WrongLine::Order => {
            return ReportFault::Ledger {
                line,
                fault: LineFault::Order,
            };
        }
        WrongLine::UnknownLink | WrongLine::KnownLink | WrongLine::Off => Contradiction::Link,
        WrongLine::Copy | WrongLine::Skew => Contradiction::Copy,
        WrongLine::Counts => Contradiction::Counts,
    };
    ReportFault::Contradiction { line, found }
}

/// Why there is no report.
fn fault_of(fault: NoReport) -> ReportFault {
    match fault {
        NoReport::Line { line, wrong } => line_fault(line, wrong),
        NoReport::Read => ReportFault::Read,
        NoReport::Memory => ReportFault::Memory,
    }
}

/// The fault of a baseline of which there is no report.
fn baseline_fault(fault: ReportFault) -> Fault {
    match fault {
        ReportFault::Memory => NO_REPORT,
        fault => Fault::Baseline(fault),
    }
}

/// The fault of a manifest that isn't that of the report's files.
fn not_of(fault: ManifestFault) -> Fault {
    Fault::Report(ReportFault::Manifest(fault))
}

/// The fault of a text that is no manifest.
fn no_manifest(fault: run_manifest::ManifestFault) -> Fault {
    match fault {
        run_manifest::ManifestFault::Form(error) if error.is_memory() => NO_REPORT,
        run_manifest::ManifestFault::Form(error) => not_of(ManifestFault::Form {
            line: error.line() as u64,
        }),
        run_manifest::ManifestFault::Version => not_of(ManifestFault::Version),
    }
}

/// The manifest of the run, if it is given. It has the digest of the table.
fn manifest_of(
    rt: &HostRuntime,
    given: &ReportArguments<'_>,
    table: &str,
) -> Result<Option<Manifest>, Outcome> {
    let Some(path) = given.manifest else {
        return Ok(None);
    };
    let text = text_of(rt, path, FileOption::Manifest)?;
    let manifest = read_manifest(rt.alloc(), &text).map_err(no_manifest)?;
    let config = &manifest.inputs.config;
    let may_be = config.may_be_of(rt.alloc(), sum_of(table.as_bytes(), true));
    if config.sha256.is_none() || !may_be.map_err(|_| NO_REPORT)? {
        return Err(Outcome::from(not_of(ManifestFault::Table)));
    }
    Ok(Some(manifest))
}

/// Refuses a ledger whose bytes aren't those of the manifest.
fn refuse_other(rt: &HostRuntime, manifest: Option<&Manifest>, ledger: Sum) -> Result<(), Fault> {
    let Some(manifest) = manifest else {
        return Ok(());
    };
    match manifest.outputs.ledger.may_be_of(rt.alloc(), ledger) {
        Ok(true) => Ok(()),
        Ok(false) => Err(not_of(ManifestFault::Ledger)),
        Err(_) => Err(NO_REPORT),
    }
}

/// A ledger that is open. Why the system gives no more of it is kept.
type OpenLedger = Noting<Input>;

/// The part of the ledger that the options take, if they don't take all.
fn part_of(
    rt: &HostRuntime,
    given: &ReportArguments<'_>,
    config: &Config,
) -> Result<Option<Part>, Outcome> {
    if !is_of_part(given) {
        return Ok(None);
    }
    let selected = CutArguments {
        ledger: given.ledger,
        a: None,
        b: None,
        config: Some(given.config),
        link: given.link,
        network: given.network,
        verdict: None,
        from: given.from,
        to: given.to,
        span: None,
        filters: None,
        around: 0,
        ledger_only: true,
        resumes: false,
        pcapng: false,
        output: given.output,
    };
    let selection = selection_of(rt.alloc(), &selected, Some(config))?;
    match Part::new(rt.alloc(), selection) {
        Ok(part) => Ok(Some(part)),
        Err(AllocError) => Err(Outcome::from(NO_REPORT)),
    }
}

/// Is a part of the ledger asked for?
fn is_of_part(given: &ReportArguments<'_>) -> bool {
    given.from.is_some() || given.to.is_some() || given.link.is_some() || given.network.is_some()
}

/// How many spaces the line of a frame has in a ledger of version 3.
const SPACES_WITH_LENGTH: usize = 11;

/// How many bytes of a ledger are read to see how it begins: more than the line of a frame has.
const BEGINNING: usize = 128;

/// How a ledger begins: its first line, as far as it has room. That of a frame begins with a digit, so the
/// ledger is a part then.
#[derive(Clone, Copy)]
struct Beginning {
    bytes: [u8; BEGINNING],
    count: usize,
}

impl Beginning {
    /// Of a ledger that nothing was read of. Where it can't be read, that is met again as its lines are.
    fn read(ledger: &mut OpenLedger) -> Beginning {
        let mut beginning = Beginning {
            bytes: [0; BEGINNING],
            count: 0,
        };
        for _ in 0..BEGINNING {
            if beginning.has_line() || beginning.read_more(ledger) == 0 {
                return beginning;
            }
        }
        beginning
    }

    /// Reads on. How many bytes there were: none where there is no room.
    fn read_more(&mut self, ledger: &mut OpenLedger) -> usize {
        let Some(room) = self.bytes.get_mut(self.count..) else {
            return 0;
        };
        let most = room.len();
        let count = ledger.read(room).unwrap_or(0).min(most);
        self.count = self.count.saturating_add(count).min(BEGINNING);
        count
    }

    /// Is all known that is to be seen: of a part the whole first line, else its first byte?
    fn has_line(&self) -> bool {
        self.count > 0 && (!self.is_part() || self.bytes().contains(&b'\n'))
    }

    fn is_part(&self) -> bool {
        self.bytes()
            .first()
            .is_some_and(|byte| byte.is_ascii_digit())
    }

    /// The version of the ledger that a part is of: with a length, its first line has a field more.
    fn version(&self) -> LedgerVersion {
        let line = self
            .bytes()
            .split(|byte| *byte == b'\n')
            .next()
            .unwrap_or(b"");
        match line.iter().filter(|byte| **byte == b' ').count() {
            SPACES_WITH_LENGTH => LedgerVersion::Three,
            _ => LedgerVersion::Two,
        }
    }

    /// The bytes that the ledger's reader has before the rest: of a part a head, and those that were read.
    fn head(&self) -> &'static [u8] {
        if self.is_part() {
            self.version().head().as_bytes()
        } else {
            b""
        }
    }

    /// The bytes that were read.
    fn bytes(&self) -> &[u8] {
        self.bytes.get(..self.count).unwrap_or(b"")
    }
}

/// The ledger of the baseline, if one is given.
fn open_baseline(
    rt: &HostRuntime,
    given: &ReportArguments<'_>,
) -> Result<Option<OpenLedger>, Outcome> {
    match given.baseline {
        Some(path) => Ok(Some(Noting::new(open(rt, path, FileOption::Baseline)?))),
        None => Ok(None),
    }
}

/// There is no report, maybe since a line differs from the table on a link, or the system gave no more of a
/// ledger.
fn no_report(
    rt: &HostRuntime,
    fault: Fault,
    (table, disputed): (KnownTable<'_>, Option<Disputed>),
    refused: Option<io::Error>,
) -> Outcome {
    Outcome {
        cause: refused.map(|error| Cause::System(error)),
        detail: table
            .tell(rt.alloc(), disputed)
            .map(|told| Detail::Disputed(told)),
        ..Outcome::from(fault)
    }
}

/// Refuses a ledger with a verdict that the table can't give.
fn refuse_unheld(
    rt: &HostRuntime,
    report: &Report,
    table: KnownTable<'_>,
    of_baseline: bool,
) -> Result<(), Outcome> {
    let Some(unheld) = report.unheld else {
        return Ok(());
    };
    let fault = ReportFault::Contradiction {
        line: unheld.line,
        found: Contradiction::Verdict,
    };
    let fault = if of_baseline {
        baseline_fault(fault)
    } else {
        Fault::Report(fault)
    };
    let disputed = Disputed {
        id: unheld.id,
        how: Difference::Unheld(unheld.why),
    };
    Err(no_report(rt, fault, (table, Some(disputed)), None))
}

/// The report of the baseline's ledger, if there is one.
fn baseline_of(
    rt: &HostRuntime,
    ledger: Option<OpenLedger>,
    table: KnownTable<'_>,
) -> Result<Option<Report>, Outcome> {
    let Some(mut ledger) = ledger else {
        return Ok(None);
    };
    let recorders = PerNetwork {
        a: RecorderFacts::none(rt.alloc()),
        b: RecorderFacts::none(rt.alloc()),
    };
    let source = ReadSource::new(&mut ledger);
    match read_report(rt.alloc(), table.config, source, None, recorders) {
        Ok(report) => {
            refuse_unheld(rt, &report, table, true)?;
            Ok(Some(report))
        }
        Err(refused) => {
            let fault = baseline_fault(fault_of(refused.fault));
            Err(no_report(rt, fault, (table, refused.disputed), ledger.refused()))
        }
    }
}

/// The table of the baseline, where it is another one than that of the report.
fn baseline_table(
    rt: &HostRuntime,
    given: &ReportArguments<'_>,
) -> Result<Option<Config>, Outcome> {
    let Some(path) = given.baseline_config else {
        return Ok(None);
    };
    let text = text_of(rt, path, FileOption::BaselineConfig)?;
    match read_config(rt.alloc(), &text) {
        Ok(config) => Ok(Some(config)),
        Err(_) => Err(Outcome::from(Fault::File(FileOption::BaselineConfig))),
    }
}

/// The ledger of transits, if one is given.
fn open_transits(
    rt: &HostRuntime,
    given: &ReportArguments<'_>,
) -> Result<Option<OpenLedger>, Outcome> {
    match given.transit {
        Some(path) => Ok(Some(Noting::new(open(rt, path, FileOption::Transit)?))),
        None => Ok(None),
    }
}

/// The fault of a ledger of transits of which there is no report.
fn transit_fault(fault: TransitFault) -> Fault {
    match fault {
        TransitFault::Memory => NO_REPORT,
        fault => Fault::TransitLedger(fault),
    }
}

/// The report of the ledger of transits by the columns of the report's timeline, if there is one.
fn transits_of(
    rt: &HostRuntime,
    ledger: Option<OpenLedger>,
    config: &Config,
    report: &Report,
) -> Result<Option<TransitReport>, Outcome> {
    let Some(mut ledger) = ledger else {
        return Ok(None);
    };
    let columns = TimeColumns {
        start: report.start,
        width: report.width,
        count: BINS,
    };
    match read_transits(rt.alloc(), config, ReadSource::new(&mut ledger), columns) {
        Ok(transits) => Ok(Some(transits)),
        Err(fault) => Err(Outcome {
            cause: ledger.refused().map(|error| Cause::System(error)),
            ..Outcome::from(transit_fault(fault))
        }),
    }
}

/// The section on a ledger of transits in the form of what is written, if there is one.
fn section_for(
    rt: &HostRuntime,
    given: &ReportArguments<'_>,
    shown: &Shown<'_>,
    transits: Option<&TransitReport>,
) -> Result<Option<String>, Fault> {
    let (Some(path), Some(transits)) = (given.transit, transits) else {
        return Ok(None);
    };
    let alloc = rt.alloc();
    let text = if given.json {
        transit_page::json_of(alloc, shown.config, transits)
    } else if is_at_terminal(rt, given.output) {
        transit_page::lines_of(alloc, transits)
    } else {
        transit_page::section_of(alloc, shown, transits, shown_path(path))
    };
    match text {
        Ok(text) => Ok(Some(text)),
        Err(AllocError) => Err(NO_REPORT),
    }
}

/// The page, the numbers, or at a terminal the first part as text.
fn text_for(
    rt: &HostRuntime,
    given: &ReportArguments<'_>,
    shown: &Shown<'_>,
) -> Result<String, Fault> {
    let alloc = rt.alloc();
    let text = if given.json {
        json_of(alloc, shown).ok()
    } else if is_at_terminal(rt, given.output) {
        summary_of(alloc, shown).ok()
    } else {
        page_of(alloc, shown).ok()
    };
    text.ok_or(NO_REPORT)
}

/// Writes what is asked for of a report.
fn write_report(
    rt: &HostRuntime,
    given: &ReportArguments<'_>,
    shown: &Shown<'_>,
    transits: Option<&TransitReport>,
) -> Result<(), Outcome> {
    let section = section_for(rt, given, shown, transits)?;
    let transit = section.as_ref().map(|text| text.as_str());
    let shown = Shown { transit, ..*shown };
    let text = text_for(rt, given, &shown)?;
    write_out(rt, given.output, &text, FileOption::Output)?;
    let Some(path) = given.csv else {
        return Ok(());
    };
    match csv_of(rt.alloc(), &shown) {
        Ok(links) => write_out(rt, path, &links, FileOption::Csv),
        Err(AllocError) => Err(Outcome::from(NO_REPORT)),
    }
}

/// The facts of a manifest on a recording beside its ledger. Foreign frames of some EtherTypes are expected.
fn recorder_of(
    alloc: Global,
    recording: Option<&RecordingRecord>,
    expected: &[u16],
) -> Result<RecorderFacts, AllocError> {
    let mut facts = RecorderFacts::none(alloc);
    let Some(recording) = recording else {
        return Ok(facts);
    };
    facts.dropped = recording.dropped.unwrap_or(0);
    facts.tagged = recording.tagged.unwrap_or(0);
    for kind in recording.foreign.as_deref().unwrap_or(&[]) {
        if kind
            .number()
            .is_some_and(|number| expected.contains(&number))
        {
            facts.expected = facts.expected.saturating_add(kind.frames);
        }
    }
    for torn in recording.torn.as_deref().unwrap_or(&[]) {
        if let Some((from, to)) = torn.hole() {
            facts.holes.push(Hole { from, to })?;
        }
    }
    for crossed in recording.crossed.as_deref().unwrap_or(&[]) {
        if let Some((from, to)) = crossed.span() {
            facts.crossed.push(Crossing {
                link: VlId(crossed.link),
                frames: crossed.frames,
                from,
                to,
            })?;
        }
    }
    Ok(facts)
}

/// The same of both recordings.
fn recorders_of(
    alloc: Global,
    given: &ReportArguments<'_>,
    manifest: Option<&Manifest>,
) -> Result<PerNetwork<RecorderFacts>, AllocError> {
    let expected = kinds_in(alloc, given.expected.unwrap_or(""))?;
    let (a, b) = match manifest {
        Some(manifest) => (manifest.inputs.a.as_ref(), manifest.inputs.b.as_ref()),
        None => (None, None),
    };
    Ok(PerNetwork {
        a: recorder_of(alloc, a, &expected)?,
        b: recorder_of(alloc, b, &expected)?,
    })
}

/// Reads a ledger: all of it, or a part.
fn read_ledger(
    rt: &HostRuntime,
    ledger: &mut Digesting<OpenLedger>,
    table: KnownTable<'_>,
    (part, recorders): (Option<Part>, PerNetwork<RecorderFacts>),
    beginning: Beginning,
) -> Result<Report, Outcome> {
    let (alloc, config) = (rt.alloc(), table.config);
    ledger.tally.pass(beginning.bytes());
    let before = beginning.head().chain(beginning.bytes());
    let source = ReadSource::new(before.chain(&mut *ledger));
    let read = if beginning.is_part() {
        read_part(alloc, config, source, part, recorders).map_err(|fault| (fault, None))
    } else {
        let read = read_report(alloc, config, source, part, recorders);
        read.map_err(|refused| (refused.fault, refused.disputed))
    };
    match read {
        Ok(report) => {
            refuse_unheld(rt, &report, table, false)?;
            Ok(report)
        }
        Err((fault, disputed)) => {
            let fault = Fault::Report(fault_of(fault));
            Err(no_report(rt, fault, (table, disputed), ledger.inner.refused()))
        }
    }
}

/// The least level of the findings that a report fails on.
fn level_of(fail_on: FailOn) -> Level {
    match fail_on {
        FailOn::Trouble => Level::Trouble,
        FailOn::Notice => Level::Notice,
    }
}

/// How the program ends that has told of a ledger.
fn exit_of(given: &ReportArguments<'_>, report: &Report) -> Exit {
    let stop = report.stop;
    if let Some(level) = given.fail_on {
        let count = failing(&report.findings, level_of(level));
        if count > 0 {
            return Exit::Found(Found { level, count, stop });
        }
    }
    match stop {
        None => Exit::Success,
        Some(stop) => Exit::WithoutTotal(stop),
    }
}

/// The report with what it is shown with, without its section on a ledger of transits.
fn shown_of<'a>(
    given: &ReportArguments<'a>,
    (report, config): (&'a Report, &'a Config),
    manifest: Option<&'a Manifest>,
    (baseline, baseline_config): (Option<&'a Report>, Option<&'a Config>),
    partial: bool,
) -> Shown<'a> {
    Shown {
        report,
        config,
        sizes: has_sizes(report, config),
        manifest,
        baseline,
        baseline_config,
        baseline_ledger: given.baseline,
        ledger: given.ledger,
        table: shown_path(given.config),
        title: given.title.unwrap_or(TITLE),
        from: given.from,
        to: given.to,
        link: given.link,
        network: given.network,
        partial,
        fail_on: given.fail_on.map(|fail_on| level_of(fail_on)),
        transit: None,
    }
}

/// Writes a page on what a ledger says, or its numbers. The output is touched only once there is something to
/// write.
pub fn report(
    rt: &HostRuntime,
    given: &ReportArguments<'_>,
    taps: &Taps,
) -> Result<Outcome, Outcome> {
    let text = text_of(rt, given.config, FileOption::Config)?;
    let manifest = manifest_of(rt, given, &text)?;
    let manifest = manifest.as_ref();
    let config = read_config(rt.alloc(), &text)?;
    let table = KnownTable {
        name: shown_path(given.config),
        config: &config,
    };
    let hashed = manifest.is_some_and(|manifest| manifest.outputs.ledger.sha256.is_some());
    let part = part_of(rt, given, &config)?;
    let ledger = Noting::new(open(rt, given.ledger, FileOption::Ledger)?);
    let mut ledger = Digesting::new(ledger, hashed);
    let baseline = open_baseline(rt, given)?;
    let earlier = baseline_table(rt, given)?;
    let transits = open_transits(rt, given)?;
    refuse_shared(rt, Invocation::Report(*given), taps)?;
    let beginning = Beginning::read(&mut ledger.inner);
    let Ok(recorders) = recorders_of(rt.alloc(), given, manifest) else {
        return Err(Outcome::from(NO_REPORT));
    };
    let report = read_ledger(rt, &mut ledger, table, (part, recorders), beginning)?;
    refuse_other(rt, manifest, ledger.tally.end())?;
    let baseline = match &earlier {
        Some(earlier) => {
            let name = shown_path(given.baseline_config.unwrap_or(given.config));
            let config = earlier;
            baseline_of(rt, baseline, KnownTable { name, config })?
        }
        None => baseline_of(rt, baseline, table)?,
    };
    let transits = transits_of(rt, transits, &config, &report)?;
    let shown = shown_of(
        given,
        (&report, &config),
        manifest,
        (baseline.as_ref(), earlier.as_ref()),
        beginning.is_part(),
    );
    write_report(rt, given, &shown, transits.as_ref())?;
    Ok(Outcome::from(exit_of(given, &report)))
}

/// The title of a page that is given none.
const TITLE: &str = "AFDX recording";

/// Writes a text to the file of an option.
fn write_out(rt: &HostRuntime, path: &str, text: &str, option: FileOption) -> Result<(), Outcome> {
    let mut output = create(rt, path, option)?;
    let written = match output.write_all(text.as_bytes()) {
        Ok(()) => output.flush(),
        Err(error) => Err(error),
    };
    written.map_err(|error| Outcome::of_file(option, Cause::System(error)))
}
