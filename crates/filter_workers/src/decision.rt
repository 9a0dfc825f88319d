//! The decision of filters on a frame.
ghost use Rattle.std.specs.Prelude.{◌≡◌, ◌≤◌, length};
ghost use Rattle.afdx_frame.specs.View.{view_bytes};
ghost use Rattle.bpf_machine.specs.Run.{answer_of};
ghost use Rattle.filter_workers.specs.Filters.{accepts_bit, decision_by};

use afdx_frame::{FrameView, LentFrame};
use bpf_loader::Program;
use bpf_machine::run;

/// The most filters of a run: a bit of a mask for each.
pub const MAX_FILTERS: usize = 8;

/// The decision of the filters on a frame.
#[derive(Clone, Copy, PartialEq, Eq)]
pub struct Decision {
    /// Bit i is set where filter i accepts the frame.
    pub mask: u8,
    /// The greatest of the return values.
    pub answer: u32,
}

/// The return value of a filter for a frame: the number of bytes to keep, 0 to reject it. `whole` is
/// the frame's length on the wire in bytes.
#[inline(never)]
pub fn answer_for(program: &Program, view: &FrameView<'_>, whole: u32) -> u32
    ensures { result ≡ answer_of program.now (view_bytes view.now) whole }
{
    // This is never inlined, so that the loop over the filter's instructions has the registers to itself.
    let (answer, _steps) = run(program, view, whole);
    answer
}

/// 1 if the filter accepts the frame, by its return value.
fn accepts_bit(answer: u32) -> u32
    ensures bit { result ≡ accepts_bit answer }
    ensures small { result ≤ 1 }
{
    if answer == 0 { 0 } else { 1 }
}

/// Runs each filter on a frame, at most [`MAX_FILTERS`] of them.
pub fn filter_frame(programs: &[Program], frame: &LentFrame<'_>) -> Decision
    requires { length programs.now ≤ MAX_FILTERS }
    ensures { result ≡ decision_by programs.now frame.now }
{
    let mut mask = 0u32;
    let mut answer = 0u32;
    for index in (0..programs.len()).rev() {
        let one = answer_for(&programs[index], &frame.view(), frame.whole());
        mask = mask * 2 + accepts_bit(one);
        answer = answer.max(one);
    }
    Decision {
        mask: mask as u8,
        answer,
    }
}
