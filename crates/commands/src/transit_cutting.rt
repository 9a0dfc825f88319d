//! The frames of a ledger of transits' lines, cut from the recordings of a switch.
use crate::cutting::open_twice;
use crate::files::refuse_shared;
use crate::inputs::{MAX_LATE, is_at_terminal, table_of};
use crate::outputs::create;
use afdx_frame::Network;
use command_line::{
    CutArguments, Exit, Fault, FileOption, Invocation, SelectionOption, TransitCutArguments,
    selection_of,
};
use ledger_text::{Neighbours, Selection};
use pcap_io::{ReadSource, WriteSink};
use tap_inputs::{
    Blocks, Cause, Input, Noting, Outcome, Skipped, TapFiles, Taps, end_of, open, open_both,
};
use transit_cut::{
    OutcomeSet, TransitChoice, TransitCutFault, TransitCutRun, TransitFormat, TransitNeighboursRun,
    TransitSelection, cut_transits as cut_by, transit_neighbours_of,
};
use vl_config::Config;

/// The outcomes that are taken, if they are given.
fn outcomes_of(text: Option<&str>) -> Result<Option<OutcomeSet>, Fault> {
    let Some(text) = text else {
        return Ok(None);
    };
    match OutcomeSet::read(text) {
        Ok(outcomes) => Ok(Some(outcomes)),
        Err(item) => Err(Fault::Selection {
            option: SelectionOption::Outcome,
            item,
        }),
    }
}

/// The lines that are taken: links and moments as of a ledger of `watch`, and outcomes.
fn transit_selection(
    rt: &HostRuntime,
    given: &TransitCutArguments<'_>,
    config: Option<&Config>,
) -> Result<TransitSelection, Fault> {
    let of_watch = CutArguments {
        ledger: given.ledger,
        a: None,
        b: None,
        config: given.config,
        link: given.link,
        network: None,
        verdict: None,
        from: given.from,
        to: given.to,
        span: given.span,
        filters: None,
        around: 0,
        ledger_only: false,
        resumes: false,
        pcapng: false,
        output: given.output,
    };
    let Selection {
        links,
        from,
        to,
        ..
    } = selection_of(rt.alloc(), &of_watch, config)?;
    Ok(TransitSelection {
        links,
        outcomes: outcomes_of(given.verdict)?,
        from,
        to,
    })
}

/// The lines around those that are selected, where such are asked for. The ledger is read for that.
fn neighbours(
    rt: &HostRuntime,
    given: &TransitCutArguments<'_>,
    selection: &TransitSelection,
) -> Result<Option<Neighbours>, Outcome> {
    if given.around == 0 {
        return Ok(None);
    }
    let ledger = open_twice(rt, given.ledger)?;
    let TransitNeighboursRun { outcome, ledger } = transit_neighbours_of(
        rt.alloc(),
        selection,
        u32::from(given.around),
        ReadSource::new(Noting::new(ledger)),
    );
    match outcome {
        Ok(found) => Ok(Some(found)),
        Err(fault) => Err(Outcome {
            cause: ledger
                .into_reader()
                .refused()
                .map(|error| Cause::System(error)),
            ..Outcome::from(Fault::TransitCut(fault))
        }),
    }
}

/// The recording that isn't given, of which no frame is taken.
fn skipped_side(given: &TransitCutArguments<'_>) -> Option<Network> {
    match (given.before, given.after) {
        (Some(_), None) => Some(Network::B),
        (None, Some(_)) => Some(Network::A),
        _ => None,
    }
}

fn format_by<'a>(given: &TransitCutArguments<'_>, config: Option<&'a Config>) -> TransitFormat<'a> {
    if given.pcapng {
        TransitFormat::Pcapng(config)
    } else {
        TransitFormat::Pcap
    }
}

/// Writes the frames of a switch's recordings that a selection of their ledger's lines takes: the one that
/// went in, and the one that came out. What was written before a fault is handed to the system too.
pub fn cut_transits(
    rt: &HostRuntime,
    given: &TransitCutArguments<'_>,
    taps: &Taps,
) -> Result<Outcome, Outcome> {
    if is_at_terminal(rt, given.output) {
        return Ok(Outcome::from(Exit::Terminal));
    }
    let config = table_of(rt, given.config)?;
    let config = config.as_ref();
    let selection = transit_selection(rt, given, config)?;
    let choice = TransitChoice {
        selection: &selection,
        neighbours: neighbours(rt, given, &selection)?,
        skips: skipped_side(given),
    };
    let ledger = ReadSource::new(Noting::new(open(rt, given.ledger, FileOption::Ledger)?));
    let recordings = open_both(rt, (given.before, given.after), taps, MAX_LATE)?;
    refuse_shared(rt, Invocation::TransitCut(*given), taps)?;
    let output = WriteSink::new(create(rt, given.output, FileOption::Output)?);
    let run = cut_by(
        rt.alloc(),
        choice,
        MAX_LATE,
        ledger,
        recordings,
        format_by(given, config),
        output,
    );
    Ok(cut_ended(rt, run))
}

/// How a cut ended, whose output is handed to the system.
fn cut_ended(
    rt: &HostRuntime,
    run: TransitCutRun<ReadSource<Noting<Input>>, TapFiles<'_>, WriteSink<Blocks>>,
) -> Outcome {
    let TransitCutRun {
        outcome,
        packets,
        ledger,
        before,
        after,
        output,
    } = run;
    let refused = output.into_writer().finish(outcome.is_ok()).err();
    let (before, after) = (end_of(rt, before), end_of(rt, after));
    let is_written = refused.is_none();
    let cause = refused.or(ledger.into_reader().refused());
    if outcome.is_ok() && is_written && packets == 0 {
        let _ = rt.eprintln("afdxmon: note: no line is selected");
    }
    let exit = if is_written {
        Exit::of_cut(outcome.map_err(Fault::TransitCut), true)
    } else {
        Exit::Fault(Fault::TransitCut(TransitCutFault::Write))
    };
    Outcome {
        skipped: Skipped::two(before.skipped, after.skipped),
        at: [before.file, after.file],
        cause: cause.map(|error| Cause::System(error)),
        ..Outcome::from(exit)
    }
}
