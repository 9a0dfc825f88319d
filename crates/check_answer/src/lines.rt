//! The lines on the links of the table and on those that it lacks.

use crate::words::Counted;
use afdx_frame::{Network, VlId};
use std::alloc::AllocError;
use std::fmt::Write;
use traffic_survey::{Inputs, Kind};

/// How many links a line names at most.
const MAX_NAMED: u64 = 20;

/// How many links more there are than were named.
fn push_more(out: &mut String, count: u64) -> Result<(), AllocError> {
    if count > MAX_NAMED {
        let more = count - MAX_NAMED;
        write!(out, " and {more} more")?;
    }
    out.push_str("\n")
}

/// How many links of the table no frame names.
pub fn count_absent(inputs: &Inputs<'_>) -> u64 {
    let mut count = 0u64;
    for tally in inputs.tallies() {
        if tally.frames(Network::A) == 0 && tally.frames(Network::B) == 0 {
            count = count.saturating_add(1);
        }
    }
    count
}

/// How many links the table lacks that frames name.
pub fn count_unlisted(inputs: &Inputs<'_>) -> u64 {
    let mut count = 0u64;
    for id in 0..=u16::MAX {
        if inputs.unlisted(VlId(id)) > 0 {
            count = count.saturating_add(1);
        }
    }
    count
}

/// A note of the links of the table that no frame names.
pub fn push_absent(out: &mut String, inputs: &Inputs<'_>) -> Result<(), AllocError> {
    let count = count_absent(inputs);
    if count == 0 {
        return Ok(());
    }
    let links = Counted(count, "link");
    write!(out, "note: no frame is of {links} of the table:")?;
    let mut named = 0u64;
    for (link, tally) in inputs.links().iter().zip(inputs.tallies()) {
        let is_absent = tally.frames(Network::A) == 0 && tally.frames(Network::B) == 0;
        if is_absent && named < MAX_NAMED {
            let (id, name) = (link.id.0, link.name.as_str());
            write!(out, " {id} {name}")?;
            named = named.saturating_add(1);
            if named < count.min(MAX_NAMED) {
                out.push_str(",")?;
            }
        }
    }
    push_more(out, count)
}

/// A note of the links that the table lacks.
pub fn push_unlisted(out: &mut String, inputs: &Inputs<'_>) -> Result<(), AllocError> {
    let count = count_unlisted(inputs);
    if count == 0 {
        return Ok(());
    }
    let links = Counted(count, "link");
    write!(out, "note: the table lacks {links}:")?;
    let mut named = 0u64;
    for id in 0..=u16::MAX {
        let frames = inputs.unlisted(VlId(id));
        if frames > 0 && named < MAX_NAMED {
            let frames = Counted(u64::from(frames), "frame");
            write!(out, " {id} ({frames})")?;
            named = named.saturating_add(1);
            if named < count.min(MAX_NAMED) {
                out.push_str(",")?;
            }
        }
    }
    push_more(out, count)
}

/// Writes kinds with their frames, and how many frames there are of further ones.
fn push_kinds(out: &mut String, kinds: &[Kind], others: u64) -> Result<(), AllocError> {
    for (index, kind) in kinds.iter().enumerate() {
        if index > 0 {
            out.push_str(",")?;
        }
        push_kind(out, *kind)?;
    }
    if others > 0 {
        write!(out, " and {others} more")?;
    }
    out.push_str("\n")
}

fn push_kind(out: &mut String, kind: Kind) -> Result<(), AllocError> {
    let Kind { ethertype, frames } = kind;
    match kind.name() {
        Some(word) => write!(out, " {frames} {word}"),
        None => write!(out, " {frames} of EtherType 0x{ethertype:04x}"),
    }
}

/// Notes of the foreign frames by what they carry, and of those that are expected.
pub fn push_foreign(out: &mut String, inputs: &Inputs<'_>) -> Result<(), AllocError> {
    let Some(kinds) = inputs.kinds() else {
        return Ok(());
    };
    if !kinds.expected().is_empty() {
        let frames = Counted(kinds.expected_frames(), "frame");
        write!(out, "note: expected traffic, {frames}:")?;
        push_kinds(out, kinds.expected(), 0)?;
    }
    let others = kinds.others();
    let count = kinds
        .kinds()
        .iter()
        .fold(others, |sum: u64, kind| sum.saturating_add(kind.frames));
    if count == 0 {
        return Ok(());
    }
    let frames = Counted(count, "frame");
    write!(out, "note: foreign traffic, {frames}:")?;
    push_kinds(out, kinds.kinds(), others)
}
