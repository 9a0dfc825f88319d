//! The state that an instruction works on, and the two limits that bound a pc and a slot.

ghost use Rattle.std.specs.Prelude.{◌≡◌};
ghost use Rattle.bpf_isa.specs.Machine.{start};

/// The greatest number of instructions of a program (`BPF_MAXINSNS`).
pub const MAX_INSNS: usize = 4096;

/// The number of scratch memory slots, M[0] to M[15] (`BPF_MEMWORDS`).
pub const SCRATCH_SLOTS: usize = 16;

/// The state of the machine between two instructions (McCanne and Jacobson 1993, section 3).
#[derive(Clone, Copy, PartialEq, Eq)]
pub struct State {
    /// The program counter: the index of the next instruction, from 0.
    pub place: usize,
    /// The accumulator.
    pub a: u32,
    /// The index register.
    pub x: u32,
    /// The scratch memory, M[0] to M[15].
    pub scratch: [u32; SCRATCH_SLOTS],
}

impl State {
    /// The state before the first instruction: all is 0. (That the scratch memory begins as 0 is
    /// this project's profile.)
    #[inline(always)]
    pub fn start() -> State
        ensures { result ≡ start }
    {
        State {
            place: 0,
            a: 0,
            x: 0,
            scratch: [0; SCRATCH_SLOTS],
        }
    }
}

/// The outcome of one instruction.
#[derive(Clone, Copy, PartialEq, Eq)]
pub enum Outcome {
    /// The filter continues from this state.
    On(State),
    /// The filter returns this value: how many bytes of the frame to keep, 0 to reject it.
    Done(u32),
}
