//! A step overwrites little, so a record of that is enough to go back, and a run needs no saved states.

ghost use Rattle.std.specs.Prelude.{◌≡◌, ◌<◌, ℕ, List, Some, true, length, IfSome};
ghost use Rattle.bpf_isa.specs.declared.state.State.{State};
ghost use Rattle.bpf_isa.specs.declared.state.Outcome.TheVariants.{On};
ghost use Rattle.bpf_machine.specs.Run.{program_step};
ghost use Rattle.bpf_isa.specs.declared.state.TheConstants.{SCRATCH_SLOTS};
ghost use Rattle.bpf_isa.specs.Table.{canonical_form, stores_scratch};
ghost use Rattle.bpf_debugger.specs.Records.{record_of, slot_of, state_before};

use bpf_isa::{Family, Packed, State, Store};
use bpf_loader::Program;
use std::marker::Model;

/// A scratch memory slot with its old value.
#[derive(Clone, Copy)]
pub(crate) struct Slot {
    pub(crate) index: usize,
    pub(crate) value: u32,
}

/// The values that one step of the machine overwrites: the pc, A and X, and the value of the scratch memory
/// slot that a store changes. No step changes more.
#[derive(Drop)]
pub struct Undo {
    pub(crate) pc: usize,
    pub(crate) a: u32,
    pub(crate) x: u32,
    pub(crate) slot: Option<Slot>,
}

impl Model for Undo {
    ghost use Rattle.std.specs.Prelude.{◌<◌};
    ghost use Rattle.std.specs.Option.{ForSome};
    ghost use Rattle.bpf_isa.specs.declared.state.TheConstants.{SCRATCH_SLOTS};
    ghost use Rattle.bpf_debugger.specs.Records.{Record};

    ghost Value = { Record };

    ghost view = { λ u. record { pc = u.pc; a = u.a; x = u.x; slot = u.slot } };

    ghost invariant = { λ u. ForSome u.slot (λ slot. slot.index < SCRATCH_SLOTS) };
}

impl Undo {
    /// The record of a state, before the program's step from it. Allocates nothing.
    pub fn of(program: &Program, state: &State) -> Undo
        requires { state.now.place < length program.now }
        ensures record { result ≡ record_of program.now state.now }
        ensures reverses { (frame : List ℕ) (whole : ℕ) (next : State)
            → program_step program.now frame whole state.now ≡ Some (On next)
            → state_before result next ≡ state.now }
    {
        let slot = slot_of(program.insns()[state.place], state);
        Undo {
            pc: state.place,
            a: state.a,
            x: state.x,
            slot,
        }
    }
}

/// The scratch memory slot that an instruction stores, with its value in the state.
fn slot_of(insn: Packed, state: &State) -> Option<Slot>
    requires canonical { canonical_form insn ≡ insn }
    requires in_range { stores_scratch insn.code ≡ true → insn.k < SCRATCH_SLOTS }
    ensures slot { result ≡ slot_of state.now (Some insn) }
    ensures exists { IfSome result (λ slot. slot.index < SCRATCH_SLOTS) }
{
    let (Store::A(k) | Store::X(k)) = Store::unpack(insn)?;
    Some(Slot {
        index: k as usize,
        value: state.scratch[k as usize],
    })
}
