//! The line that says how the recordings were compared.

use crate::fields::Fields;
use crate::line::id_of;
use crate::number::number_of;
use afdx_frame::{Network, VlId};
use std::alloc::{AllocError, Global};

/// How the recordings were compared. Times are in nanoseconds.
#[derive(Drop)]
pub struct TransitRun {
    /// The network, if it was given.
    pub network: Option<Network>,
    /// The longest transit that was looked for, and how far clocks may be off.
    pub within: u64,
    pub early: u64,
    /// The number that was added to each timestamp of the recording at the port out.
    pub shift: i64,
    /// The longest transit that isn't slow.
    pub bound: Option<u64>,
    /// Policing charged each frame its link's Smax, not its size.
    pub by_frames: bool,
    /// By how much the switch's and the tap's times between two frames may differ.
    pub grace: u64,
    /// The links that are routed to the port out, where that is known.
    pub routed: Option<Vec<VlId>>,
}

/// The values of the line before the list of links.
#[derive(Clone, Copy)]
struct Head {
    network: Option<Network>,
    within: u64,
    early: u64,
    shift: i64,
    bound: Option<u64>,
    by_frames: bool,
    grace: u64,
}

fn network_of(field: &[u8]) -> Option<Option<Network>> {
    match field {
        b"-" => Some(None),
        _ => Some(Some(Network::from_letter(field)?)),
    }
}

fn bound_of(field: &[u8]) -> Option<Option<u64>> {
    match field {
        b"-" => Some(None),
        _ => Some(Some(number_of(field)?)),
    }
}

fn is_by_frames(field: &[u8]) -> Option<bool> {
    match field {
        b"frames" => Some(true),
        b"bytes" => Some(false),
        _ => None,
    }
}

fn head_of(fields: &mut Fields<'_>) -> Option<Head> {
    fields.pass("run")?;
    Some(Head {
        network: network_of(fields.after("network")?)?,
        within: fields.number_after("within")?,
        early: fields.number_after("early")?,
        shift: fields.signed_after("shift")?,
        bound: bound_of(fields.after("bound")?)?,
        by_frames: is_by_frames(fields.after("police")?)?,
        grace: fields.number_after("grace")?,
    })
}

/// The items of a list that are left, from one comma to the next.
#[derive(Clone, Copy)]
struct Items<'a> {
    rest: Option<&'a [u8]>,
}

impl<'a> Items<'a> {
    fn next(&mut self) -> Option<&'a [u8]> {
        let rest = self.rest?;
        match rest.iter().position(|byte| *byte == b',') {
            Some(at) => {
                self.rest = rest.get(at.saturating_add(1)..);
                rest.get(..at)
            }
            None => {
                self.rest = None;
                Some(rest)
            }
        }
    }
}

/// Reads the list of links. None: it isn't one.
fn read_list(alloc: Global, field: &[u8]) -> Result<Option<Vec<VlId>>, AllocError> {
    let mut links = Vec::new(alloc);
    let mut items = Items {
        rest: if field.is_empty() { None } else { Some(field) },
    };
    for _ in 0..=field.len() {
        let Some(item) = items.next() else {
            break;
        };
        let Some(id) = id_of(item) else {
            return Ok(None);
        };
        links.push(id)?;
    }
    Ok(Some(links))
}

/// Reads the line. None: it isn't one of a ledger of transits.
pub(crate) fn read_run(alloc: Global, line: &[u8]) -> Result<Option<TransitRun>, AllocError> {
    let mut fields = Fields::new(line);
    let Some(head) = head_of(&mut fields) else {
        return Ok(None);
    };
    let field = match fields.after("routed") {
        Some(field) if fields.is_at_end() => field,
        _ => return Ok(None),
    };
    let routed = if field == b"-".as_slice() {
        None
    } else {
        match read_list(alloc, field)? {
            Some(links) => Some(links),
            None => return Ok(None),
        }
    };
    Ok(Some(TransitRun {
        network: head.network,
        within: head.within,
        early: head.early,
        shift: head.shift,
        bound: head.bound,
        by_frames: head.by_frames,
        grace: head.grace,
        routed,
    }))
}
