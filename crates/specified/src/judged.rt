//! A round of frames judged.
ghost use Rattle.std.specs.Prelude.{◌≡◌, ◌<◌, ◌++◌, List, IfErr, IfOk, length};
ghost use Rattle.afdx_frame.specs.Frame.{Frame};
ghost use Rattle.vl_config.specs.Document.{VlTable};
ghost use Rattle.vl_judge.specs.Lanes.{FollowsOn, StandsAfter, last_key};
ghost use Rattle.vl_judge.specs.Verdicts.{verdicts};

use frame_batch::Round;
use std::alloc::AllocError;
use vl_judge::{Lanes, Verdict};

/// Judges a round of frames, and gives the lanes back: verdict i is that of frame i.
///
/// # Errors
///
/// `AllocError` if there is no memory for the verdicts. No frames need none. The lanes are gone then.
pub fn judge_round(lanes: Lanes, round: &Round) -> Result<(Lanes, Vec<Verdict>), AllocError>
    requires { FollowsOn lanes.last round.now }
    ensures verdicts { IfOk result (λ said. (vl_table : VlTable) (frames : List Frame) →
        StandsAfter lanes vl_table frames →
        verdicts vl_table (frames ++ round.now) ≡ verdicts vl_table frames ++ said.1.items) }
    ensures after { IfOk result (λ said. (vl_table : VlTable) (frames : List Frame) →
        StandsAfter lanes vl_table frames →
        StandsAfter said.0 vl_table (frames ++ round.now)) }
    ensures complete { IfOk result (λ said. length said.1.items ≡ length round.now) }
    ensures last { IfOk result (λ said. said.0.last ≡ last_key lanes.last round.now) }
    ensures fault { IfErr result (λ _. 0 < length round.now) }
{
    let mut lanes = lanes;
    let said = lanes.judge_frames(round)?;
    Ok((lanes, said))
}
