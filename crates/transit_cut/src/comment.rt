//! The comment of a packet.

use std::alloc::AllocError;
use std::fmt::Write;
use transit_ledger::{Outcome, TransitLine};
use vl_config::Config;

/// The word of an outcome for a person.
fn word_of(outcome: Outcome) -> &'static str {
    match outcome {
        Outcome::Cut => "recorded in part",
        other => other.word(),
    }
}

/// The link's number, name and the sequence number, where the line has them.
fn push_address(
    text: &mut String,
    config: Option<&Config>,
    line: &TransitLine,
) -> Result<(), AllocError> {
    let Some(id) = line.link else {
        return Ok(());
    };
    let number = id.0;
    write!(text, "VL {number}")?;
    let link = match config {
        Some(config) => config.link(id),
        None => None,
    };
    if let Some(link) = link {
        let name = link.name.as_str();
        write!(text, " {name}")?;
    }
    if let Some(sequence) = line.sequence {
        write!(text, " SN {sequence}")?;
    }
    text.push_str(": ")
}

/// Appends what the line says: `VL 103 brake_1 SN 214: changed at byte 50 after 18.1 us (transit)`.
pub(crate) fn push_comment(
    text: &mut String,
    config: Option<&Config>,
    line: &TransitLine,
) -> Result<(), AllocError> {
    push_address(text, config, line)?;
    text.push_str(word_of(line.outcome))?;
    if let Some(byte) = line.differs {
        write!(text, " at byte {byte}")?;
    }
    if let Some(latency) = line.latency {
        let sign = if latency < 0 { "-" } else { "" };
        let nanos = latency.unsigned_abs();
        let (whole, tenth) = (nanos / 1000, nanos % 1000 / 100);
        write!(text, " after {sign}{whole}.{tenth} us")?;
    }
    text.push_str(" (transit)")
}
