//! The faults that an instruction has by itself, at its pc. They are checked before any path is.

ghost use Rattle.std.specs.Prelude.{◌≡◌, ◌<◌, MatchResult};
ghost use Rattle.bpf_isa.specs.Table.{returns_answer};
ghost use Rattle.bpf_loader.specs.Faults.{fault_of_packed, HasNoInsnFault, IsFirstInsnFault};
ghost use Rattle.bpf_loader.specs.Faults.{ends_in_return};
ghost use Rattle.bpf_loader.specs.Typed.{fault_of_load, fault_of_load_x, fault_of_store};
ghost use Rattle.bpf_loader.specs.Typed.{fault_of_alu, fault_of_jump, fault_of_insn};

use crate::fault::LoadFault;
use bpf_isa::{Alu, Insn, Jump, Load, LoadX, Operator, Packed, SCRATCH_SLOTS, Source, Store};

/// Absolute offsets are below this one (this project's profile).
const OFFSET_END: u32 = 1 << 31;

fn load_fault(pc: usize, load: Load) -> Option<LoadFault>
    ensures { result ≡ fault_of_load pc load }
{
    match load {
        Load::Absolute(_, k) if k >= OFFSET_END => Some(LoadFault::Offset { at: pc }),
        Load::Scratch(k) if k as usize >= SCRATCH_SLOTS => Some(LoadFault::Scratch { at: pc }),
        _ => None,
    }
}

fn load_x_fault(pc: usize, load: LoadX) -> Option<LoadFault>
    ensures { result ≡ fault_of_load_x pc load }
{
    match load {
        LoadX::HeaderLength(k) if k >= OFFSET_END => Some(LoadFault::Offset { at: pc }),
        LoadX::Scratch(k) if k as usize >= SCRATCH_SLOTS => Some(LoadFault::Scratch { at: pc }),
        _ => None,
    }
}

fn store_fault(pc: usize, store: Store) -> Option<LoadFault>
    ensures { result ≡ fault_of_store pc store }
{
    let (Store::A(k) | Store::X(k)) = store;
    if k as usize >= SCRATCH_SLOTS {
        Some(LoadFault::Scratch { at: pc })
    } else {
        None
    }
}

fn alu_fault(pc: usize, alu: Alu) -> Option<LoadFault>
    ensures { result ≡ fault_of_alu pc alu }
{
    match alu {
        Alu::Binary(Operator::Div | Operator::Mod, Source::K(0)) => {
            Some(LoadFault::ZeroDivisor { at: pc })
        }
        Alu::Binary(Operator::Lsh | Operator::Rsh, Source::K(k)) if k >= u32::BITS => {
            Some(LoadFault::Shift { at: pc })
        }
        _ => None,
    }
}

fn jump_fault(len: usize, pc: usize, jump: Jump) -> Option<LoadFault>
    requires { pc < len }
    ensures { result ≡ fault_of_jump len pc jump }
{
    let farthest = match jump {
        Jump::Always(k) => k as usize,
        Jump::If(_, _, jt, jf) => jt.max(jf) as usize,
    };
    if farthest >= len - (pc + 1) {
        Some(LoadFault::Jump { at: pc })
    } else {
        None
    }
}

/// The first fault of an instruction at its pc in a program of this length.
pub(crate) fn insn_fault(len: usize, pc: usize, packed: Packed) -> Option<LoadFault>
    requires { pc < len }
    ensures { result ≡ fault_of_packed len pc packed }
{
    let Some(insn) = Insn::decode(&packed) else {
        return Some(LoadFault::UnknownCode { at: pc });
    };
    match insn {
        Insn::Load(load) => load_fault(pc, load),
        Insn::LoadX(load) => load_x_fault(pc, load),
        Insn::Store(store) => store_fault(pc, store),
        Insn::Alu(alu) => alu_fault(pc, alu),
        Insn::Jump(jump) => jump_fault(len, pc, jump),
        Insn::Return(_) | Insn::Move(_) => None,
    }
}

/// Refuses the first instruction that has a fault of its own.
pub(crate) fn check_insns(insns: &[Packed]) -> Result<(), LoadFault>
    ensures { MatchResult result
        (λ _. HasNoInsnFault insns.now)
        (λ fault. IsFirstInsnFault insns.now fault) }
{
    for (pc, packed) in insns.iter().enumerate() {
        if let Some(fault) = insn_fault(insns.len(), pc, *packed) {
            return Err(fault);
        }
    }
    Ok(())
}

fn is_return(packed: Packed) -> bool
    ensures { result ≡ returns_answer packed.code }
{
    match Insn::decode(&packed) {
        Some(insn) => matches!(insn, Insn::Return(_)),
        None => false,
    }
}

/// True if the last instruction is a return.
pub(crate) fn ends_in_return(insns: &[Packed]) -> bool
    ensures { result ≡ ends_in_return insns.now }
{
    match insns.last() {
        Some(last) => is_return(*last),
        None => false,
    }
}
