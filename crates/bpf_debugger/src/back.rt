//! A step back restores one record, so that no step is ever made again.

ghost use Rattle.std.specs.Prelude.{◌≡◌};
ghost use Rattle.bpf_debugger.specs.Records.{state_before};

use crate::record::Undo;
use bpf_isa::State;

/// The state before the step that led to this one, by the record of that step. Allocates nothing.
pub fn undo(undo: &Undo, mut state: State) -> State
    ensures { result ≡ state_before undo.now state }
{
    if let Some(slot) = undo.slot {
        state.scratch[slot.index] = slot.value;
    }
    State {
        place: undo.pc,
        a: undo.a,
        x: undo.x,
        scratch: state.scratch,
    }
}
