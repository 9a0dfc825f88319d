//! The check of scratch memory: no path loads a slot that it hasn't stored.

ghost use Rattle.std.specs.Prelude.{◌≡◌, ℕ, true, ◌<◌, ◌≤◌, ◌-◌, ◌^◌, length, slice_index};
ghost use Rattle.std.specs.Prelude.{All, IfSome, MatchBool, MatchResult};
ghost use Rattle.std.specs.Int.{bit_at};
ghost use Rattle.bpf_loader.specs.Typed.{successors_of, loaded_slot, stored_slot};
ghost use Rattle.bpf_loader.specs.Masks.{mask_after, intersect_masks, CanCarry, Carries, Lacks};
ghost use Rattle.bpf_isa.specs.declared.state.TheConstants.{MAX_INSNS, SCRATCH_SLOTS};
ghost use Rattle.bpf_loader.specs.Faults.{HasLength, HasNoInsnFault, StoresBeforeReads};
ghost use Rattle.bpf_loader.specs.Faults.{ends_in_return, IsFirstFault};

use crate::fault::LoadFault;
use bpf_isa::{Insn, Jump, Load, LoadX, MAX_INSNS, Packed, Store};

/// The scratch memory slot that the instruction loads.
fn loaded_slot(insn: Insn) -> Option<u32>
    ensures { result ≡ loaded_slot insn }
{
    match insn {
        Insn::Load(Load::Scratch(slot)) | Insn::LoadX(LoadX::Scratch(slot)) => Some(slot),
        _ => None,
    }
}

/// The scratch memory slot that the instruction stores.
fn stored_slot(insn: Insn) -> Option<u32>
    ensures { result ≡ stored_slot insn }
{
    match insn {
        Insn::Store(Store::A(slot) | Store::X(slot)) => Some(slot),
        _ => None,
    }
}

/// True if the mask has the slot.
fn has_stored(mask: u16, slot: u32) -> bool
    requires { slot < SCRATCH_SLOTS }
    ensures { MatchBool result (bit_at mask slot ≡ 1) (bit_at mask slot ≡ 0) }
{
    mask >> slot & 1 == 1
}

/// The mask after the instruction: one bit for each slot that every path so far has stored.
fn mask_after(insn: Insn, before: u16) -> u16
    requires { IfSome (stored_slot insn) (λ slot. slot < SCRATCH_SLOTS) }
    ensures { result ≡ mask_after (stored_slot insn) before }
{
    match stored_slot(insn) {
        Some(slot) => before | 1 << slot,
        None => before,
    }
}

/// Takes the slots that this mask lacks out of the masks of the instruction's successors.
fn intersect(masks: &mut [u16], pc: usize, insn: Insn, mask: u16)
    requires { All (λ next. next < length masks.old) (successors_of pc insn) }
    ensures { masks.new ≡ intersect_masks masks.old (successors_of pc insn) mask }
{
    match insn {
        Insn::Return(_) => {}
        Insn::Jump(Jump::Always(skipped)) => masks[pc + 1 + skipped as usize] &= mask,
        Insn::Jump(Jump::If(_, _, jt, jf)) => {
            masks[pc + 1 + jt as usize] &= mask;
            masks[pc + 1 + jf as usize] &= mask;
        }
        _ => masks[pc + 1] &= mask,
    }
}

/// Carries the masks over the instruction at the pc, unless it loads a slot that its mask lacks.
fn carry(masks: &mut [u16], pc: usize, insn: Insn) -> Result<(), LoadFault>
    requires { CanCarry masks.old pc insn }
    ensures { MatchResult result
        (λ _. Carries masks.old masks.new pc insn)
        (λ fault. Lacks masks.old pc insn fault) }
{
    let before = masks[pc];
    if let Some(slot) = loaded_slot(insn)
        && !has_stored(before, slot)
    {
        return Err(LoadFault::Unstored { at: pc, word: slot });
    }
    intersect(masks, pc, insn, mask_after(insn, before));
    Ok(())
}

/// The masks before the pass: no slot is stored at the first instruction, and no path has come to
/// another.
fn masks_at_start() -> [u16; MAX_INSNS]
    ensures size { length result ≡ MAX_INSNS }
    ensures first { slice_index result 0 ≡ 0 }
    ensures others { (pc : ℕ) → 1 ≤ pc → pc < MAX_INSNS → slice_index result pc ≡ 2 ^ 16 - 1 }
{
    let mut masks = [u16::MAX; MAX_INSNS];
    masks[0] = 0;
    masks
}

/// Refuses the first load of a slot that some path from instruction 0 hasn't stored. Since jumps go
/// forward, one pass in order has seen every path to a pc before it comes there.
pub(crate) fn check_scratch(insns: &[Packed]) -> Result<(), LoadFault>
    requires has_length { HasLength insns.now }
    requires no_insn_fault { HasNoInsnFault insns.now }
    requires returns { ends_in_return insns.now ≡ true }
    ensures { MatchResult result
        (λ _. StoresBeforeReads insns.now)
        (λ fault. IsFirstFault insns.now fault) }
{
    let mut masks = masks_at_start();
    for (pc, packed) in insns.iter().enumerate() {
        let Some(insn) = Insn::decode(packed) else {
            unreachable!()
        };
        carry(&mut masks, pc, insn)?;
    }
    Ok(())
}
