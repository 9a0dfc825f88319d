//! Both recordings, a frame at a time.

use crate::cut_links::CutLinks;
use crate::lent_pair::LentPair;
use crate::lent_tap::LentTap;
use crate::observer::Observer;
use crate::pair::{Pair, Unopened};
use crate::recorded::{Extent, Recorded};
use crate::survey::Survey;
use crate::surveying::Surveying;
use frame_batch::Round;
use pcap_io::TapSource;
use run_fault::{MAX_FRAMES, WatchFault};
use std::alloc::Global;

/// A pass that has ended, with the sources that it was given.
#[derive(Drop)]
pub struct Pass<S> {
    /// How the recordings of networks A and B were read, or why the pass was aborted.
    pub outcome: Result<(Recorded, Recorded), WatchFault>,
    /// The source of network A.
    pub a: S,
    /// The source of network B.
    pub b: S,
}

/// A survey that has ended, with the sources that it was given.
#[derive(Drop)]
pub struct SurveyRun<S> {
    /// The survey and the recordings of networks A and B as they were read, or the fault that aborted it.
    pub outcome: Result<(Survey, Recorded, Recorded), WatchFault>,
    /// The links of frames that weren't recorded whole.
    pub cut: CutLinks,
    /// The source of network A.
    pub a: S,
    /// The source of network B.
    pub b: S,
}

/// More rounds than two recordings give: each but the last two has merged a frame of one of them, or has cut
/// some.
const MAX_ROUNDS: u64 = 4 * MAX_FRAMES + 4;

/// Shows the frames of a round.
#[inline]
fn show_round<O: Observer>(
    alloc: Global,
    round: &Round,
    observer: &mut O,
) -> Result<(), WatchFault> {
    for index in 0..round.len() {
        observer.see(alloc, &round.frame(index))?;
    }
    Ok(())
}

/// Shows the frames of both recordings, as far as they are read.
fn show_rounds<S: TapSource, O: Observer>(
    alloc: Global,
    pair: &mut Pair<S>,
    observer: &mut O,
) -> Result<(), WatchFault> {
    for _round in 0..MAX_ROUNDS {
        let Some(round) = pair.next_round(alloc, observer)? else {
            break;
        };
        show_round(alloc, &round, observer)?;
    }
    Ok(())
}

/// Reads both recordings once, as far as it is told, and shows what is kept of their frames to the observer.
/// Both sources come back.
///
/// # Errors
///
/// `Header` or `Read` if a recording can't be opened, `Read`, `Memory` or the observer's own later.
pub fn show_both<S: TapSource, O: Observer>(
    alloc: Global,
    extent: Extent,
    a: S,
    b: S,
    observer: &mut O,
) -> Pass<S> {
    let mut pair = match Pair::open(alloc, extent, a, b) {
        Ok(pair) => pair,
        Err(Unopened { fault, a, b }) => {
            return Pass {
                outcome: Err(fault),
                a,
                b,
            };
        }
    };
    let shown = show_rounds(alloc, &mut pair, observer);
    let Pair { a, b, merger: _ } = pair;
    let (a, of_a) = a.finish(extent.frames);
    let (b, of_b) = b.finish(extent.frames);
    Pass {
        outcome: shown.map(|()| (of_a, of_b)),
        a,
        b,
    }
}

/// Goes on to the next frame of a recording, and tells the observer of it.
#[inline(always)]
fn go_on<S: TapSource, O: Observer>(
    alloc: Global,
    tap: &mut LentTap<S>,
    observer: &mut O,
) -> Result<(), WatchFault> {
    tap.advance(alloc)?;
    tap.tell(observer);
    Ok(())
}

/// Shows the frames of both recordings, in which no timestamp lies below one before it.
fn show_lent<S: TapSource, O: Observer>(
    alloc: Global,
    pair: &mut LentPair<S>,
    observer: &mut O,
) -> Result<(), WatchFault> {
    go_on(alloc, &mut pair.a, observer)?;
    go_on(alloc, &mut pair.b, observer)?;
    for _frame in 0..MAX_ROUNDS {
        let Some(tap) = pair.earlier() else {
            break;
        };
        if let Some(frame) = tap.frame() {
            observer.see(alloc, &frame)?;
        }
        go_on(alloc, tap, observer)?;
    }
    Ok(())
}

/// Reads both recordings once, as far as it is told, and shows their frames to the observer. Both sources
/// come back.
///
/// Where timestamps may lie below the greatest one before them, what is kept of the frames of so much time
/// waits in memory.
///
/// # Errors
///
/// `Header` or `Read` if a recording can't be opened, `Read`, `Memory` or the observer's own later.
pub fn show_recordings<S: TapSource, O: Observer>(
    alloc: Global,
    extent: Extent,
    a: S,
    b: S,
    observer: &mut O,
) -> Pass<S> {
    if extent.late > 0 {
        return show_both(alloc, extent, a, b, observer);
    }
    match LentPair::open(extent, a, b) {
        Ok(mut pair) => {
            let shown = show_lent(alloc, &mut pair, observer);
            pair.finish(extent, shown)
        }
        Err(Unopened { fault, a, b }) => Pass {
            outcome: Err(fault),
            a,
            b,
        },
    }
}

/// Reads both recordings to their endings, once, and says what was seen. Both sources come back.
///
/// Timestamps may lie up to a second below the greatest one before them: of the frames of so much time what
/// is counted waits in memory.
///
/// # Errors
///
/// `Header` or `Read` if a recording can't be opened, `Read` or `Memory` later.
pub fn survey_recordings<S: TapSource>(
    alloc: Global,
    wanted: Option<u32>,
    a: S,
    b: S,
) -> SurveyRun<S> {
    let extent = Extent::whole();
    let mut surveying = Surveying::new(alloc, wanted, extent.late);
    let Pass { outcome, a, b } = match LentPair::open(extent, a, b) {
        Ok(mut pair) => {
            let seen = surveying.see_both(alloc, &mut pair);
            pair.finish(extent, seen)
        }
        Err(Unopened { fault, a, b }) => Pass {
            outcome: Err(fault),
            a,
            b,
        },
    };
    let Surveying { survey, cut, .. } = surveying;
    SurveyRun {
        outcome: outcome.map(|(of_a, of_b)| (survey, of_a, of_b)),
        cut,
        a,
        b,
    }
}
