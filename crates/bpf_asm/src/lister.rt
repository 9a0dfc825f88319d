//! The way back: from a loaded program to source that assembles to it.

ghost use Rattle.std.specs.Prelude.{◌≡◌, ◌++◌, ◌<◌, IfNone, IfOk, IfSome, None, OnOk, slice_get};
ghost use Rattle.std.specs.Prelude.{string_bytes};
ghost use Rattle.bpf_isa.specs.Insns.{packed_insn};
ghost use Rattle.bpf_isa.specs.Numeric.{IsPacked};
ghost use Rattle.bpf_isa.specs.Table.{canonical_form, row};
ghost use Rattle.bpf_asm.specs.Assembly.{IsSourceOf};
ghost use Rattle.bpf_isa.specs.declared.state.TheConstants.{MAX_INSNS};
ghost use Rattle.bpf_asm.specs.Listing.{IsListing, condition_name, line_text, operator_name};

use bpf_isa::{
    Alu, Condition, Family, Insn, Jump, Load, LoadX, Move, Operator, Packed, Return, Size, Source,
    Store,
};
use bpf_loader::Program;
use std::alloc::{AllocError, Global};
use std::fmt;
use std::fmt::{Display, Formatter, Write};

/// A second operand.
#[derive(Clone, Copy)]
struct SourceText(Source);

impl Display for SourceText {
    ghost use Rattle.std.specs.Prelude.{Some};
    ghost use Rattle.bpf_asm.specs.Listing.{source_text};

    ghost output = { λ text. Some (source_text text.0) };

    fn fmt<W: fmt::Write>(&self, f: &mut Formatter<W>) -> fmt::Result {
        match self.0 {
            Source::K(k) => write!(f, "#{k}"),
            Source::X => f.write_str("x"),
        }
    }
}

#[derive(Clone, Copy)]
struct LoadText(Load);

impl Display for LoadText {
    ghost use Rattle.std.specs.Prelude.{Some};
    ghost use Rattle.bpf_asm.specs.Listing.{load_text};

    ghost output = { λ text. Some (load_text text.0) };

    fn fmt<W: fmt::Write>(&self, f: &mut Formatter<W>) -> fmt::Result {
        match self.0 {
            Load::Immediate(k) => write!(f, "ld #{k}"),
            Load::Absolute(Size::Word, k) => write!(f, "ld [{k}]"),
            Load::Absolute(Size::Half, k) => write!(f, "ldh [{k}]"),
            Load::Absolute(Size::Byte, k) => write!(f, "ldb [{k}]"),
            Load::Indirect(Size::Word, k) => write!(f, "ld [x + {k}]"),
            Load::Indirect(Size::Half, k) => write!(f, "ldh [x + {k}]"),
            Load::Indirect(Size::Byte, k) => write!(f, "ldb [x + {k}]"),
            Load::Scratch(k) => write!(f, "ld M[{k}]"),
            Load::Length => f.write_str("ld len"),
        }
    }
}

#[derive(Clone, Copy)]
struct LoadXText(LoadX);

impl Display for LoadXText {
    ghost use Rattle.std.specs.Prelude.{Some};
    ghost use Rattle.bpf_asm.specs.Listing.{load_x_text};

    ghost output = { λ text. Some (load_x_text text.0) };

    fn fmt<W: fmt::Write>(&self, f: &mut Formatter<W>) -> fmt::Result {
        match self.0 {
            LoadX::Immediate(k) => write!(f, "ldx #{k}"),
            LoadX::Scratch(k) => write!(f, "ldx M[{k}]"),
            LoadX::Length => f.write_str("ldx len"),
            LoadX::HeaderLength(k) => write!(f, "ldxb 4*([{k}]&0xf)"),
        }
    }
}

fn operator_name(operator: Operator) -> &'static str
    ensures { result.now ≡ operator_name operator }
{
    match operator {
        Operator::Add => "add",
        Operator::Sub => "sub",
        Operator::Mul => "mul",
        Operator::Div => "div",
        Operator::Or => "or",
        Operator::And => "and",
        Operator::Lsh => "lsh",
        Operator::Rsh => "rsh",
        Operator::Mod => "mod",
        Operator::Xor => "xor",
    }
}

fn condition_name(condition: Condition) -> &'static str
    ensures { result.now ≡ condition_name condition }
{
    match condition {
        Condition::Equal => "jeq",
        Condition::Greater => "jgt",
        Condition::AtLeast => "jge",
        Condition::SharesBits => "jset",
    }
}

#[derive(Clone, Copy)]
struct AluText(Alu);

impl Display for AluText {
    ghost use Rattle.std.specs.Prelude.{Some};
    ghost use Rattle.bpf_asm.specs.Listing.{alu_text};

    ghost output = { λ text. Some (alu_text text.0) };

    fn fmt<W: fmt::Write>(&self, f: &mut Formatter<W>) -> fmt::Result {
        match self.0 {
            Alu::Binary(operator, source) => {
                let (name, source) = (operator_name(operator), SourceText(source));
                write!(f, "{name} {source}")
            }
            Alu::Negate => f.write_str("neg"),
        }
    }
}

/// A jump, with the index of its instruction.
#[derive(Clone, Copy)]
struct JumpText {
    at: u32,
    jump: Jump,
}

impl Display for JumpText {
    ghost use Rattle.std.specs.Prelude.{Some};
    ghost use Rattle.bpf_asm.specs.Listing.{jump_text};

    ghost output = { λ text. Some (jump_text text.at text.jump) };

    fn fmt<W: fmt::Write>(&self, f: &mut Formatter<W>) -> fmt::Result {
        let next = self.at as u64 + 1;
        match self.jump {
            Jump::Always(k) => {
                let target = next + k as u64;
                write!(f, "ja L{target}")
            }
            Jump::If(condition, source, jt, jf) => {
                let (name, source) = (condition_name(condition), SourceText(source));
                let (holds, fails) = (next + jt as u64, next + jf as u64);
                write!(f, "{name} {source}, L{holds}, L{fails}")
            }
        }
    }
}

/// An instruction, with its index.
#[derive(Clone, Copy)]
struct InsnText {
    at: u32,
    insn: Insn,
}

impl Display for InsnText {
    ghost use Rattle.std.specs.Prelude.{Some};
    ghost use Rattle.bpf_asm.specs.Listing.{insn_text};

    ghost output = { λ text. Some (insn_text text.at text.insn) };

    fn fmt<W: fmt::Write>(&self, f: &mut Formatter<W>) -> fmt::Result {
        match self.insn {
            Insn::Load(load) => write!(f, "{}", LoadText(load)),
            Insn::LoadX(load) => write!(f, "{}", LoadXText(load)),
            Insn::Store(Store::A(k)) => write!(f, "st M[{k}]"),
            Insn::Store(Store::X(k)) => write!(f, "stx M[{k}]"),
            Insn::Alu(alu) => write!(f, "{}", AluText(alu)),
            Insn::Jump(jump) => write!(f, "{}", JumpText { at: self.at, jump }),
            Insn::Return(Return::K(k)) => write!(f, "ret #{k}"),
            Insn::Return(Return::A) => f.write_str("ret a"),
            Insn::Move(Move::AToX) => f.write_str("tax"),
            Insn::Move(Move::XToA) => f.write_str("txa"),
        }
    }
}

fn push_line(text: &mut String, at: usize, insn: Insn) -> Result<(), AllocError>
    requires { at < MAX_INSNS }
    ensures { OnOk result
        (string_bytes text.new ≡ string_bytes text.old ++ line_text at insn) }
{
    let insn = InsnText {
        at: at as u32,
        insn,
    };
    write!(text, "L{at}: {insn}\n")
}

/// The typed instruction of a packed one.
fn insn_of(packed: Packed) -> Option<Insn>
    ensures found { IfSome result (λ insn. packed_insn insn ≡ canonical_form packed) }
    ensures unlisted { IfNone result (row packed.code ≡ None) }
    ensures fits { IsPacked packed }
{
    Insn::decode(&packed)
}

/// The program as source, a line for each instruction, which ends with a newline: its label, and the
/// instruction as `bpf_asm` takes it. The label is `L` and the index of the instruction, numbers are
/// decimal, and a conditional jump names both targets. The listing is source of the same program.
///
/// # Errors
///
/// `AllocError` if there is no memory for the text. Every program needs some: each has a line.
#[tactic(auto, using(crate::proofs::Lines::all_listed))]
pub fn listing(alloc: Global, program: &Program) -> Result<String, AllocError>
    ensures listing { IfOk result (λ text. IsListing program.now (string_bytes text)) }
    ensures source { IfOk result (λ text. IsSourceOf (string_bytes text) program.now) }
{
    let mut text = String::new(alloc);
    for (at, packed) in program.insns().iter().enumerate() {
        // Each code of a loaded program is listed.
        if let Some(insn) = insn_of(*packed) {
            push_line(&mut text, at, insn)?;
        }
    }
    Ok(text)
}
