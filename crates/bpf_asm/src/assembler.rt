//! Two passes over the statements: the labels come first, since every jump names a later one.

ghost use Rattle.std.specs.Prelude.{◌≡◌, List, length, map, true, Some, None, IfOk, IfErr, OnOk};
ghost use Rattle.bpf_isa.specs.Insns.{packed_insn};
ghost use Rattle.bpf_text.specs.Grammar.{Statement as Stated};
ghost use Rattle.bpf_text.specs.Meaning.{operand_of, statement_of};
ghost use Rattle.bpf_asm.specs.Rows.{takes};
ghost use Rattle.bpf_asm.specs.Assembly.{Assembles, HasCount, IsCountFault, IsRow};
ghost use Rattle.bpf_asm.specs.Assembly.{IsSourceOf, IsStatementFault, IsTextFault, operand_fault};
ghost use Rattle.bpf_asm.specs.Typed.{AllTake, AreRows, IsRowFault, Knows};

use crate::fault::AsmFault;
use crate::labels::Labels;
use crate::row::{one_way_insn, plain_insn, two_way_insn};
use bpf_isa::{Family, Insn, Jump, MAX_INSNS, Packed};
use bpf_text::{Operand, Statement, statements};
use std::alloc::Global;

/// The instruction of the statement at an index, or the first fault of its targets.
fn insn_of(labels: &Labels<'_>, at: usize, statement: &Statement<'_>) -> Result<Insn, AsmFault>
    requires { takes statement.now.mnemonic (operand_of statement.now.operand) ≡ true }
    ensures row { IfOk result (λ insn. (ss : List Stated) → Knows labels.now.indices.entries ss →
        IsRow ss at statement.now.mnemonic (operand_of statement.now.operand) (packed_insn insn)) }
    ensures no_fault { OnOk result ((ss : List Stated) → Knows labels.now.indices.entries ss →
        operand_fault ss at (operand_of statement.now.operand) ≡ None) }
    ensures fault { IfErr result (λ fault. (ss : List Stated) → Knows labels.now.indices.entries ss →
        operand_fault ss at (operand_of statement.now.operand) ≡ Some fault) }
{
    let mnemonic = statement.mnemonic;
    let insn = match statement.operand {
        Operand::Target(name) => Some(Insn::Jump(Jump::Always(labels.distance(at, name)?))),
        Operand::Branch(source, first, None) => {
            one_way_insn(mnemonic, source, labels.near(at, first)?)
        }
        Operand::Branch(source, first, Some(second)) => {
            let first = labels.near(at, first)?;
            two_way_insn(mnemonic, source, first, labels.near(at, second)?)
        }
        operand => plain_insn(mnemonic, operand),
    };
    Ok(insn.unwrap())
}

/// True if a program may have as many statements.
fn check_count(statements: &[Statement<'_>]) -> Result<(), AsmFault>
    ensures count { OnOk result (HasCount (map statement_of statements.now)) }
    ensures fault { IfErr result (IsCountFault (map statement_of statements.now)) }
{
    if statements.is_empty() {
        return Err(AsmFault::Empty);
    }
    if statements.len() > MAX_INSNS {
        return Err(AsmFault::TooMany);
    }
    Ok(())
}

/// The instructions of the statements, or the first fault of a target.
#[tactic(auto, using(crate::proofs::Program::rows_more, crate::proofs::Program::first_fault))]
fn insns_of(
    alloc: Global,
    labels: &Labels<'_>,
    statements: &[Statement<'_>],
) -> Result<Vec<Packed>, AsmFault>
    requires knows { Knows labels.now.indices.entries (map statement_of statements.now) }
    requires takes { AllTake (map statement_of statements.now) }
    ensures rows { IfOk result (λ insns.
        AreRows (map statement_of statements.now) (length statements.now) insns.items) }
    ensures fault { IfErr result (IsRowFault (map statement_of statements.now)) }
{
    let mut insns = Vec::with_capacity(alloc, statements.len())?;
    for (at, statement) in statements.iter().enumerate() {
        insns.push(insn_of(labels, at, statement)?.pack())?;
    }
    Ok(insns)
}

/// The program of these statements, or their first fault.
fn program_of(alloc: Global, statements: &[Statement<'_>]) -> Result<Vec<Packed>, AsmFault>
    requires { AllTake (map statement_of statements.now) }
    ensures assembled { IfOk result (λ insns.
        Assembles (map statement_of statements.now) insns.items) }
    ensures fault { IfErr result (IsStatementFault (map statement_of statements.now)) }
{
    check_count(statements)?;
    let labels = Labels::new(alloc, statements)?;
    insns_of(alloc, &labels, statements)
}

/// The program of a source text: one instruction for each statement, in the order of the text. It may
/// still have a fault that only its loading finds, as a division by 0 or a path without a return.
///
/// # Errors
///
/// The first fault, as [`AsmFault`] orders them. `Memory` can only come of a text that is source of 1
/// to 4096 statements, `Text(Memory)` only of one that begins with a whole statement.
#[tactic(auto, using(crate::proofs::Forms::sources_take))]
pub fn assemble(alloc: Global, text: &str) -> Result<Vec<Packed>, AsmFault>
    ensures assembled { IfOk result (λ insns. IsSourceOf text.now insns.items) }
    ensures fault { IfErr result (IsTextFault text.now) }
{
    let statements = statements(alloc, text)?;
    program_of(alloc, &statements)
}
