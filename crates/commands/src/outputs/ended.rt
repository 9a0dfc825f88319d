//! The words for a person on a run that ended.
use afdx_frame::Network;
use command_line::{Exit, Summary, hint_of};
use std::io;
use tap_inputs::{Outcome, TapEnd, Taps};

/// The number of the file in which a command's recording ended, or that was read last.
pub fn file_in(end: &TapEnd, exit: &Exit, network: Network) -> usize {
    match (exit, network) {
        (Exit::Note(ending), _) => end.file_of(*ending),
        (Exit::Watched(run), Network::A) => end.file_of(run.a),
        (Exit::Watched(run), Network::B) => end.file_of(run.b),
        _ => end.file,
    }
}

/// The hint where hardly a frame is a copy.
const FEW_COPIES: &str =
    "afdxmon: hint: hardly a frame is a copy of another: do the clocks of the taps drift? \
     afdxmon check tells";

/// The hint where both recordings may be one.
const ONE_RECORDING: &str =
    "afdxmon: hint: each frame has its copy: are --a and --b two names of one recording?";

/// The likely fault of both recordings, where the counts alone give no hint: fewer frames than one in
/// sixteen of the shorter recording are copies, or each that is delivered has one, and both begin alike.
fn hint_at_both(rt: &HostRuntime, summary: &Summary, taps: &Taps) -> Option<&'static str> {
    let totals = &summary.totals;
    if hint_of(summary.a, summary.b, totals).is_some() {
        return None;
    }
    let shorter = summary.a.frames().min(summary.b.frames());
    if totals.copy < shorter / 16 {
        Some(FEW_COPIES)
    } else if totals.copy > 0 && totals.copy == totals.delivered && taps.may_be_one(rt) {
        Some(ONE_RECORDING)
    } else {
        None
    }
}

/// Tells a person what a run over two recordings came to.
pub fn summarise(rt: &HostRuntime, ended: &Outcome, taps: &Taps) -> io::Result<()> {
    let Exit::Watched(summary) = &ended.exit else {
        return Ok(());
    };
    rt.eprintln(*summary)?;
    if let Some(hint) = hint_at_both(rt, summary, taps) {
        rt.eprintln(hint)?;
    }
    match &ended.worst {
        Some(worst) => rt.eprintln(worst),
        None => Ok(()),
    }
}
