//! Arithmetic and conditional jumps take k or X as their second operand, and share the type of it.

ghost use Rattle.std.specs.Prelude.{◌≡◌};
ghost use Rattle.bpf_isa.specs.Values.{source_value};

use crate::state::State;

/// The second operand of arithmetic and comparisons (`BPF_K`, `BPF_X`). The code with X is the code
/// with k plus 8.
#[derive(Clone, Copy, Debug, PartialEq, Eq)]
pub enum Source {
    /// The constant k.
    K(u32),
    /// The index register.
    X,
}

impl Source {
    /// The value of the operand: the constant, or X.
    #[inline(always)]
    pub(crate) fn value(self, state: &State) -> u32
        ensures { result ≡ source_value self state.now }
    {
        match self {
            Source::K(k) => k,
            Source::X => state.x,
        }
    }
}
