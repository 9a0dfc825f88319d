//! Where in a filter's text a fault lies: in its source, or in the numeric form.

use bpf_asm::AsmFault;
use bpf_isa::{NumericFault, item_offset};
use bpf_loader::LoadFault;
use bpf_text::{Operand, Statement, TextFault, name_offset, statements};
use std::alloc::Global;

/// The farthest that a conditional jump leads: over 255 statements.
const FARTHEST: usize = 256;

/// Can the conditional jump at an index not lead to a label?
fn is_refused(statements: &[Statement<'_>], at: usize, target: &str) -> bool {
    let label = Some(target);
    match statements
        .iter()
        .position(|statement| statement.label == label)
    {
        Some(index) => index <= at || index - at > FARTHEST,
        None => true,
    }
}

/// The label that the statement at an index names and can't jump to, if it is one of these statements that
/// has such a label: of two the first that is refused.
fn refused_target<'a>(
    statements: &[Statement<'_>],
    at: usize,
    operand: Operand<'a>,
) -> Option<&'a str> {
    match operand {
        Operand::Target(target) => Some(target),
        Operand::Branch(_, target, other) => {
            if is_refused(statements, at, target) {
                Some(target)
            } else {
                other
            }
        }
        _ => None,
    }
}

/// Where the statement at an index names the label that it can't jump to.
fn target_offset(text: &str, statements: &[Statement<'_>], at: usize) -> Option<usize> {
    let statement = statements.get(at)?;
    let target = refused_target(statements, at, statement.operand)?;
    // Its own label stands first, and may be the target.
    let label = statement.label.map_or(0, |label| label.len());
    name_offset(text, statement.at.checked_add(label)?, target)
}

/// Where a source names the label that the statement at an index can't jump to.
fn label_offset(alloc: Global, text: &str, at: usize) -> Option<usize> {
    let statements = statements(alloc, text).ok()?;
    target_offset(text, &statements, at)
}

/// Where the statement at an index begins.
fn statement_offset(alloc: Global, text: &str, at: usize) -> Option<usize> {
    let statements = statements(alloc, text).ok()?;
    Some(statements.get(at)?.at)
}

/// The byte offset in a source where a fault lies: that of the token, of the label that is refused, or of
/// the statement. None: the fault has no place, or there is no memory to find it.
pub fn source_offset(alloc: Global, fault: AsmFault, text: &str) -> Option<usize> {
    match fault {
        AsmFault::Text(
            TextFault::Character { at }
            | TextFault::Number { at }
            | TextFault::Form { at }
            | TextFault::ReservedLabel { at },
        ) => Some(at),
        AsmFault::TwiceLabel { at } => statement_offset(alloc, text, at),
        AsmFault::NoLabel { at } | AsmFault::Backward { at } | AsmFault::TooFar { at } => {
            label_offset(alloc, text, at)
        }
        AsmFault::Text(TextFault::Memory)
        | AsmFault::Empty
        | AsmFault::TooMany
        | AsmFault::Memory => None,
    }
}

/// The byte offset in a text where it isn't the numeric form of a filter. A wrong number of instructions is
/// shown at the number that is said first.
pub fn numeric_offset(fault: NumericFault, text: &str) -> Option<usize> {
    match fault {
        NumericFault::Character { at }
        | NumericFault::Number { at }
        | NumericFault::Form { at }
        | NumericFault::TooMany { at } => Some(at),
        NumericFault::Count { .. } => item_offset(text, 0),
        NumericFault::Memory => None,
    }
}

/// The byte offset in the numeric form of the instruction that isn't loaded. None: it is no single one.
pub fn load_offset(fault: LoadFault, text: &str) -> Option<usize> {
    match fault {
        LoadFault::UnknownCode { at }
        | LoadFault::ZeroDivisor { at }
        | LoadFault::Shift { at }
        | LoadFault::Scratch { at }
        | LoadFault::Offset { at }
        | LoadFault::Jump { at }
        | LoadFault::Unstored { at, .. } => item_offset(text, at.checked_add(1)?),
        LoadFault::Length | LoadFault::NoReturn => None,
    }
}

/// The likeness of a text that isn't the numeric form of a filter.
#[derive(Clone, Copy, PartialEq, Eq)]
pub enum Written {
    /// A filter's source: `afdxmon asm` assembles it.
    Source,
    /// An expression, as tcpdump takes it: `tcpdump -ddd` compiles it.
    Expression,
    /// Neither: the numeric form has a mistake.
    Numeric,
}

/// The likeness of a text: a source, if statements stand in it up to its end or up to a fault in a later
/// line, and else an expression, if it begins with a letter, `!` or `(`.
pub fn written_as(alloc: Global, text: &str) -> Written {
    if is_source(alloc, text) {
        return Written::Source;
    }
    match text.trim_start().as_bytes() {
        [b'a'..=b'z' | b'A'..=b'Z' | b'!' | b'(', ..] => Written::Expression,
        _ => Written::Numeric,
    }
}

/// Where the first line ends that isn't blank.
fn first_line_end(text: &str) -> usize {
    let rest = text.trim_start();
    let blank = text.len().saturating_sub(rest.len());
    blank.saturating_add(rest.find('\n').unwrap_or(rest.len()))
}

fn is_source(alloc: Global, text: &str) -> bool {
    match statements(alloc, text) {
        Ok(statements) => !statements.is_empty(),
        Err(
            TextFault::Character { at }
            | TextFault::Number { at }
            | TextFault::Form { at }
            | TextFault::ReservedLabel { at },
        ) => first_line_end(text) < at,
        Err(TextFault::Memory) => false,
    }
}
