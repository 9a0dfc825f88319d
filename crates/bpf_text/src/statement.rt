//! The statements of a source text, before any label is looked up: the assembler gives it instructions.

use crate::keyword::Mnemonic;

/// A statement of the source: an instruction, with the label before it.
#[derive(Clone, Copy, PartialEq, Eq)]
pub struct Statement<'a> {
    /// The byte offset of the statement's first token in the text, from 0. That is the label's,
    /// where there is one.
    pub at: usize,
    /// The label, byte for byte as the text has it.
    pub label: Option<&'a str>,
    /// The instruction's name.
    pub mnemonic: Mnemonic,
    /// The instruction's operand, one of those that the mnemonic takes.
    pub operand: Operand<'a>,
}

/// The second value of an arithmetic instruction or a comparison. The first one is A.
#[derive(Clone, Copy, Debug, PartialEq, Eq)]
pub enum Source {
    /// A number, as `#5`.
    K(u32),
    /// Register X: `x` or `%x`.
    X,
}

/// The operand of an instruction. A number is taken modulo 2^32, so `#-1` is 4294967295.
#[derive(Clone, Copy, PartialEq, Eq)]
pub enum Operand<'a> {
    /// No operand: neg, tax, txa.
    None,
    /// `#5`, of ldi and ldxi also `5`: ld, ldi, ldx, ldxi, ret.
    Immediate(u32),
    /// `[5]`, an offset in the packet: ld, ldh, ldb.
    Absolute(u32),
    /// `[x + 5]`, an offset in the packet: ld, ldh, ldb.
    Indirect(u32),
    /// `M[5]`, a scratch memory slot: ld, ldx, st, stx.
    Scratch(u32),
    /// `4*([5]&0xf)`, the length of the IPv4 header at the offset: ldx, ldxb.
    HeaderLength(u32),
    /// `len` or `#len`, the packet's length: ld, ldx.
    Len,
    /// `#5`, `x` or `%x`: the arithmetic instructions.
    Source(Source),
    /// `a` or `%a`, register A: ret.
    A,
    /// The target of jmp and ja.
    Target(&'a str),
    /// The comparison of a conditional jump and its target. jeq, jgt, jge and jset may have a
    /// second target, for where the comparison fails.
    Branch(Source, &'a str, Option<&'a str>),
}
