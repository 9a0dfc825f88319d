//! Filters on a round of frames.
ghost use Rattle.std.specs.Prelude.{◌≡◌, ◌<◌, ◌≤◌, IfErr, IfOk, length};
ghost use Rattle.filter_workers.specs.declared.decision.TheConstants.{MAX_FILTERS};
ghost use Rattle.specified.specs.Filters.{decisions_by};

use bpf_loader::Program;
use filter_workers::{Decision, filter_frame};
use frame_batch::Round;
use std::alloc::{AllocError, Global};

/// Runs at most [`MAX_FILTERS`](filter_workers::MAX_FILTERS) filters on each frame of a round: the decision
/// at index i is that on frame i.
///
/// # Errors
///
/// `AllocError` if there is no memory for the decisions. No frames need none.
pub fn filter_round(
    alloc: Global,
    programs: &[Program],
    frames: &Round,
) -> Result<Vec<Decision>, AllocError>
    requires { length programs.now ≤ MAX_FILTERS }
    ensures decisions { IfOk result (λ all. all.items ≡ decisions_by programs.now frames.now) }
    ensures memory { IfErr result (λ _. 0 < length frames.now) }
{
    let mut decisions = Vec::with_capacity(alloc, frames.len())?;
    for index in 0..frames.len() {
        decisions.push(filter_frame(programs, &frames.frame(index)))?;
    }
    Ok(decisions)
}
