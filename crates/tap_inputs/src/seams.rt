//! Gaps between the files of a recording, as a person is told of them.
use crate::disorder::Amount;
use crate::recordings::TapEnd;
use crate::taps::Tap;
use afdx_frame::Network;
use command_line::{FileOption, Shown};
use std::io;

/// The longest gap that is no news, in nanoseconds.
const LONGEST: u64 = 1_000_000_000;

/// How many gaps are told at most.
const MAX_TOLD: u32 = 8;

/// For how long nothing was recorded after a file, if the next one may be read again.
fn gap_after(rt: &HostRuntime, tap: &Tap, end: &TapEnd, number: usize) -> Option<u64> {
    let next = tap.files.get(number.saturating_add(1))?;
    let first = next.look(rt, FileOption::A).ok()??.first?;
    let last = *end.greatest.get(number)?;
    if last == 0 {
        return None;
    }
    Some(first.saturating_sub(last))
}

/// Notes where nothing was recorded for more than a second between two files that were read.
pub fn tell_gaps(rt: &HostRuntime, network: Network, tap: &Tap, end: &TapEnd) -> io::Result<()> {
    let letter = network.letter();
    let mut told: u32 = 0;
    for number in 0..end.greatest.len() {
        let Some(gap) = gap_after(rt, tap, end, number).filter(|gap| *gap > LONGEST) else {
            continue;
        };
        if told == MAX_TOLD {
            return eprintln!(rt; "afdxmon: note: network {letter} has more gaps between its files");
        }
        let after = Shown(tap.path_at(number).unwrap_or(""));
        let before = Shown(tap.path_at(number.saturating_add(1)).unwrap_or(""));
        let gap = Amount(gap);
        eprintln!(rt;
            "afdxmon: note: network {letter}: a gap of {gap} between {after} and {before}"
        )?;
        told = told.saturating_add(1);
    }
    Ok(())
}
