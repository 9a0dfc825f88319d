//! Which instruction a mnemonic and its operand are, once every distance is known.

ghost use Rattle.std.specs.Prelude.{◌≡◌};
ghost use Rattle.std.specs.Option.{option_map};
ghost use Rattle.bpf_isa.specs.Families.{condition_code, operator_code, packed_k};
ghost use Rattle.bpf_isa.specs.Insns.{packed_insn};
ghost use Rattle.bpf_text.specs.Meaning.{operand_of};
ghost use Rattle.bpf_asm.specs.Rows.{alu_code, bare_code, branch_code, immediate_code, inverse_code};
ghost use Rattle.bpf_asm.specs.Rows.{absolute_code, indirect_code, one_way_packed, plain_packed};
ghost use Rattle.bpf_asm.specs.Rows.{scratch_code, two_way_packed};
ghost use Rattle.bpf_asm.specs.Typed.{absolute_load_code, indirect_load_code, source_of};

use bpf_isa::{
    Alu, Condition, Insn, Jump, Load, LoadX, Move, Operator, Return, Size, Source, Store,
};
use bpf_text::{Mnemonic, Operand, Source as Value};

/// The second operand as the instruction holds it.
fn source_of(source: Value) -> Source
    ensures { result ≡ source_of source }
{
    match source {
        Value::K(k) => Source::K(k),
        Value::X => Source::X,
    }
}

/// The instruction without an operand.
fn bare(mnemonic: Mnemonic) -> Option<Insn>
    ensures { option_map packed_insn result ≡ option_map (λ code. packed_k code 0) (bare_code mnemonic) }
{
    match mnemonic {
        Mnemonic::Neg => Some(Insn::Alu(Alu::Negate)),
        Mnemonic::Tax => Some(Insn::Move(Move::AToX)),
        Mnemonic::Txa => Some(Insn::Move(Move::XToA)),
        _ => None,
    }
}

/// The instruction of `#k`.
fn immediate(mnemonic: Mnemonic, k: u32) -> Option<Insn>
    ensures { option_map packed_insn result
        ≡ option_map (λ code. packed_k code k) (immediate_code mnemonic) }
{
    match mnemonic {
        Mnemonic::Ld | Mnemonic::Ldi => Some(Insn::Load(Load::Immediate(k))),
        Mnemonic::Ldx | Mnemonic::Ldxi => Some(Insn::LoadX(LoadX::Immediate(k))),
        Mnemonic::Ret => Some(Insn::Return(Return::K(k))),
        _ => None,
    }
}

/// How many bytes of the packet a load reads.
fn size_of(mnemonic: Mnemonic) -> Option<Size>
    ensures absolute { option_map absolute_load_code result ≡ absolute_code mnemonic }
    ensures indirect { option_map indirect_load_code result ≡ indirect_code mnemonic }
{
    match mnemonic {
        Mnemonic::Ld => Some(Size::Word),
        Mnemonic::Ldh => Some(Size::Half),
        Mnemonic::Ldb => Some(Size::Byte),
        _ => None,
    }
}

/// The instruction of `M[k]`.
fn scratch(mnemonic: Mnemonic, k: u32) -> Option<Insn>
    ensures { option_map packed_insn result
        ≡ option_map (λ code. packed_k code k) (scratch_code mnemonic) }
{
    match mnemonic {
        Mnemonic::Ld => Some(Insn::Load(Load::Scratch(k))),
        Mnemonic::Ldx => Some(Insn::LoadX(LoadX::Scratch(k))),
        Mnemonic::St => Some(Insn::Store(Store::A(k))),
        Mnemonic::Stx => Some(Insn::Store(Store::X(k))),
        _ => None,
    }
}

/// The operation of an arithmetic instruction.
fn operator_of(mnemonic: Mnemonic) -> Option<Operator>
    ensures { option_map operator_code result ≡ alu_code mnemonic }
{
    match mnemonic {
        Mnemonic::Add => Some(Operator::Add),
        Mnemonic::Sub => Some(Operator::Sub),
        Mnemonic::Mul => Some(Operator::Mul),
        Mnemonic::Div => Some(Operator::Div),
        Mnemonic::Mod => Some(Operator::Mod),
        Mnemonic::And => Some(Operator::And),
        Mnemonic::Or => Some(Operator::Or),
        Mnemonic::Xor => Some(Operator::Xor),
        Mnemonic::Lsh => Some(Operator::Lsh),
        Mnemonic::Rsh => Some(Operator::Rsh),
        _ => None,
    }
}

/// The instruction of a statement that is no jump. None: it is one, or the mnemonic doesn't take the
/// operand.
pub fn plain_insn(mnemonic: Mnemonic, operand: Operand<'_>) -> Option<Insn>
    ensures { option_map packed_insn result ≡ plain_packed mnemonic (operand_of operand.entry) }
{
    match operand {
        Operand::None => bare(mnemonic),
        Operand::Immediate(k) => immediate(mnemonic, k),
        Operand::Absolute(k) => Some(Insn::Load(Load::Absolute(size_of(mnemonic)?, k))),
        Operand::Indirect(k) => Some(Insn::Load(Load::Indirect(size_of(mnemonic)?, k))),
        Operand::Scratch(k) => scratch(mnemonic, k),
        Operand::HeaderLength(k) => match mnemonic {
            Mnemonic::Ldx | Mnemonic::Ldxb => Some(Insn::LoadX(LoadX::HeaderLength(k))),
            _ => None,
        },
        Operand::Len => match mnemonic {
            Mnemonic::Ld => Some(Insn::Load(Load::Length)),
            Mnemonic::Ldx => Some(Insn::LoadX(LoadX::Length)),
            _ => None,
        },
        Operand::Source(source) => Some(Insn::Alu(Alu::Binary(
            operator_of(mnemonic)?,
            source_of(source),
        ))),
        Operand::A => match mnemonic {
            Mnemonic::Ret => Some(Insn::Return(Return::A)),
            _ => None,
        },
        Operand::Target(_) | Operand::Branch(..) => None,
    }
}

/// The comparison of a conditional jump that goes to its first target where it holds.
fn condition_of(mnemonic: Mnemonic) -> Option<Condition>
    ensures { option_map condition_code result ≡ branch_code mnemonic }
{
    match mnemonic {
        Mnemonic::Jeq => Some(Condition::Equal),
        Mnemonic::Jgt => Some(Condition::Greater),
        Mnemonic::Jge => Some(Condition::AtLeast),
        Mnemonic::Jset => Some(Condition::SharesBits),
        _ => None,
    }
}

/// The comparison of a conditional jump that goes to its target where it fails.
fn inverse_of(mnemonic: Mnemonic) -> Option<Condition>
    ensures { option_map condition_code result ≡ inverse_code mnemonic }
{
    match mnemonic {
        Mnemonic::Jne | Mnemonic::Jneq => Some(Condition::Equal),
        Mnemonic::Jlt => Some(Condition::AtLeast),
        Mnemonic::Jle => Some(Condition::Greater),
        _ => None,
    }
}

/// A conditional jump with one target, which skips so many instructions.
pub fn one_way_insn(mnemonic: Mnemonic, source: Value, distance: u8) -> Option<Insn>
    ensures { option_map packed_insn result ≡ one_way_packed mnemonic source distance }
{
    let source = source_of(source);
    if let Some(condition) = condition_of(mnemonic) {
        return Some(Insn::Jump(Jump::If(condition, source, distance, 0)));
    }
    let condition = inverse_of(mnemonic)?;
    Some(Insn::Jump(Jump::If(condition, source, 0, distance)))
}

/// A conditional jump with two targets, by how many instructions each skips.
pub fn two_way_insn(mnemonic: Mnemonic, source: Value, first: u8, second: u8) -> Option<Insn>
    ensures { option_map packed_insn result ≡ two_way_packed mnemonic source first second }
{
    let condition = condition_of(mnemonic)?;
    let source = source_of(source);
    Some(Insn::Jump(Jump::If(condition, source, first, second)))
}
