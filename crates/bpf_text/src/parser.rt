//! Tokens to statements, in one pass that looks at most one token ahead.

ghost use Rattle.std.specs.Prelude.{◌≡◌, map, option_map, MatchResult};
ghost use Rattle.bpf_text.specs.Tokens.{Parses};
ghost use Rattle.bpf_text.specs.Views.{items, token_of};
ghost use Rattle.bpf_text.specs.Reading.{mark_rule, positive, negative, number_after, number_rule};
ghost use Rattle.bpf_text.specs.Reading.{exact_rule, is_x, is_a, after_percent, indirect_rule};
ghost use Rattle.bpf_text.specs.Reading.{packet_rule, scratch_rule, header_rule, hash_rule};
ghost use Rattle.bpf_text.specs.Reading.{immediate_rule, source_rule, target_at, target_rule};
ghost use Rattle.bpf_text.specs.Reading.{ld_rule, ldi_rule, ldh_rule, ldx_rule, ldxb_rule, st_rule};
ghost use Rattle.bpf_text.specs.Reading.{jump_rule, branch_rule, one_way_rule, two_way_rule};
ghost use Rattle.bpf_text.specs.Reading.{alu_rule, ret_rule, operand_rule, instruction_rule};
ghost use Rattle.bpf_text.specs.Reading.{labelled_at, labelled_rule, statement_at, statement_rule};
ghost use Rattle.bpf_text.specs.Meaning.{operand_of, statement_of, Sources, FaultFits};

use crate::fault::TextFault;
use crate::keyword::{Keyword, Mnemonic};
use crate::lexer::{Lexeme, Lexer, Token};
use crate::statement::{Operand, Source, Statement};
use std::alloc::Global;

/// The largest number after a `-`.
const MAX_NEGATIVE: u64 = 1 << 31;

/// Reads the mark.
#[tactic(auto, unfolding(crate::specs::Reading::mark_rule))]
fn expect_mark(lexer: &mut Lexer<'_>, mark: u8) -> Result<(), TextFault>
    ensures { Parses (λ x. x) result (items lexer.new) (mark_rule mark (items lexer.old)) }
{
    let lexeme = lexer.next()?;
    match lexeme.token {
        Token::Mark(byte) if byte == mark => Ok(()),
        _ => Err(TextFault::Form { at: lexeme.at }),
    }
}

/// The value of a number without a sign or after `+`.
#[tactic(auto, unfolding(crate::specs::Reading::positive))]
fn positive(lexeme: Lexeme<'_>) -> Result<u32, TextFault>
    ensures { result ≡ positive lexeme.entry.at (token_of lexeme.entry.token) }
{
    match lexeme.token {
        Token::Number(size) if size < 1 << 32 => Ok(size as u32),
        Token::Number(_) => Err(TextFault::Number { at: lexeme.at }),
        _ => Err(TextFault::Form { at: lexeme.at }),
    }
}

/// The value of a number after `-`, modulo 2^32.
#[tactic(auto, unfolding(crate::specs::Reading::negative))]
fn negative(lexeme: Lexeme<'_>) -> Result<u32, TextFault>
    ensures { result ≡ negative lexeme.entry.at (token_of lexeme.entry.token) }
{
    match lexeme.token {
        Token::Number(size) if size <= MAX_NEGATIVE => Ok((size as u32).wrapping_neg()),
        Token::Number(_) => Err(TextFault::Number { at: lexeme.at }),
        _ => Err(TextFault::Form { at: lexeme.at }),
    }
}

/// Reads a number with at most one sign. Its first token is read already.
#[tactic(auto, unfolding(crate::specs::Reading::number_after))]
fn number_after(lexer: &mut Lexer<'_>, first: Lexeme<'_>) -> Result<u32, TextFault>
    ensures { Parses (λ x. x) result (items lexer.new)
        (number_after first.entry.at (token_of first.entry.token) (items lexer.old)) }
{
    match first.token {
        Token::Mark(b'+') => positive(lexer.next()?),
        Token::Mark(b'-') => negative(lexer.next()?),
        _ => positive(first),
    }
}

/// Reads a number with at most one sign.
#[tactic(auto, unfolding(crate::specs::Reading::number_rule))]
fn number(lexer: &mut Lexer<'_>) -> Result<u32, TextFault>
    ensures { Parses (λ x. x) result (items lexer.new) (number_rule (items lexer.old)) }
{
    let first = lexer.next()?;
    number_after(lexer, first)
}

/// Reads this number, in any radix and without a sign.
#[tactic(auto, unfolding(crate::specs::Reading::exact_rule))]
fn expect_number(lexer: &mut Lexer<'_>, number: u64) -> Result<(), TextFault>
    ensures { Parses (λ x. x) result (items lexer.new) (exact_rule number (items lexer.old)) }
{
    let lexeme = lexer.next()?;
    match lexeme.token {
        Token::Number(size) if size == number => Ok(()),
        _ => Err(TextFault::Form { at: lexeme.at }),
    }
}

/// Reads the `x` of `%x`.
#[tactic(auto, unfolding(crate::specs::Reading::after_percent))]
fn expect_x(lexer: &mut Lexer<'_>) -> Result<(), TextFault>
    ensures { Parses (λ x. x) result (items lexer.new) (after_percent is_x (items lexer.old)) }
{
    let lexeme = lexer.next()?;
    match lexeme.token {
        Token::Keyword(Keyword::X) => Ok(()),
        _ => Err(TextFault::Form { at: lexeme.at }),
    }
}

/// Reads the `a` of `%a`.
#[tactic(auto, unfolding(crate::specs::Reading::after_percent))]
fn expect_a(lexer: &mut Lexer<'_>) -> Result<(), TextFault>
    ensures { Parses (λ x. x) result (items lexer.new) (after_percent is_a (items lexer.old)) }
{
    let lexeme = lexer.next()?;
    match lexeme.token {
        Token::Keyword(Keyword::A) => Ok(()),
        _ => Err(TextFault::Form { at: lexeme.at }),
    }
}

/// Reads `+ n]`, what follows `[x`.
#[tactic(auto, unfolding(crate::specs::Reading::indirect_rule))]
fn indirect<'a>(lexer: &mut Lexer<'a>) -> Result<Operand<'a>, TextFault>
    ensures { Parses operand_of result (items lexer.new) (indirect_rule (items lexer.old)) }
{
    expect_mark(lexer, b'+')?;
    let offset = number(lexer)?;
    expect_mark(lexer, b']')?;
    Ok(Operand::Indirect(offset))
}

/// Reads `n]` or `x + n]`, what follows `[`.
#[tactic(auto, unfolding(crate::specs::Reading::packet_rule))]
fn packet<'a>(lexer: &mut Lexer<'a>) -> Result<Operand<'a>, TextFault>
    ensures { Parses operand_of result (items lexer.new) (packet_rule (items lexer.old)) }
{
    let first = lexer.next()?;
    match first.token {
        Token::Keyword(Keyword::X) => indirect(lexer),
        Token::Mark(b'%') => {
            expect_x(lexer)?;
            indirect(lexer)
        }
        _ => {
            let offset = number_after(lexer, first)?;
            expect_mark(lexer, b']')?;
            Ok(Operand::Absolute(offset))
        }
    }
}

/// Reads `[n]`, what follows `M`.
#[tactic(auto, unfolding(crate::specs::Reading::scratch_rule))]
fn scratch<'a>(lexer: &mut Lexer<'a>) -> Result<Operand<'a>, TextFault>
    ensures { Parses operand_of result (items lexer.new) (scratch_rule (items lexer.old)) }
{
    expect_mark(lexer, b'[')?;
    let slot = number(lexer)?;
    expect_mark(lexer, b']')?;
    Ok(Operand::Scratch(slot))
}

/// Reads `*([n]&0xf)`, what follows `4`.
#[tactic(auto, unfolding(crate::specs::Reading::header_rule))]
fn header_length<'a>(lexer: &mut Lexer<'a>) -> Result<Operand<'a>, TextFault>
    ensures { Parses operand_of result (items lexer.new) (header_rule (items lexer.old)) }
{
    expect_mark(lexer, b'*')?;
    expect_mark(lexer, b'(')?;
    expect_mark(lexer, b'[')?;
    let offset = number(lexer)?;
    expect_mark(lexer, b']')?;
    expect_mark(lexer, b'&')?;
    expect_number(lexer, 0xf)?;
    expect_mark(lexer, b')')?;
    Ok(Operand::HeaderLength(offset))
}

/// Reads a number or `len`, what follows `#`.
#[tactic(auto, unfolding(crate::specs::Reading::hash_rule))]
fn immediate_or_len<'a>(lexer: &mut Lexer<'a>) -> Result<Operand<'a>, TextFault>
    ensures { Parses operand_of result (items lexer.new) (hash_rule (items lexer.old)) }
{
    let first = lexer.next()?;
    match first.token {
        Token::Keyword(Keyword::Len) => Ok(Operand::Len),
        _ => Ok(Operand::Immediate(number_after(lexer, first)?)),
    }
}

/// Reads a number, what follows `#`.
#[tactic(auto, unfolding(crate::specs::Reading::immediate_rule))]
fn immediate<'a>(lexer: &mut Lexer<'a>) -> Result<Operand<'a>, TextFault>
    ensures { Parses operand_of result (items lexer.new) (immediate_rule (items lexer.old)) }
{
    Ok(Operand::Immediate(number(lexer)?))
}

/// Reads `#n`, `x` or `%x`.
#[tactic(auto, unfolding(crate::specs::Reading::source_rule))]
fn source(lexer: &mut Lexer<'_>) -> Result<Source, TextFault>
    ensures { Parses (λ x. x) result (items lexer.new) (source_rule (items lexer.old)) }
{
    let first = lexer.next()?;
    match first.token {
        Token::Mark(b'#') => Ok(Source::K(number(lexer)?)),
        Token::Keyword(Keyword::X) => Ok(Source::X),
        Token::Mark(b'%') => {
            expect_x(lexer)?;
            Ok(Source::X)
        }
        _ => Err(TextFault::Form { at: first.at }),
    }
}

/// Reads the name of a target.
#[tactic(auto, unfolding(crate::specs::Reading::target_rule, crate::specs::Reading::target_at))]
fn target<'a>(lexer: &mut Lexer<'a>) -> Result<&'a str, TextFault>
    ensures { Parses (λ name. name.now) result (items lexer.new) (target_rule (items lexer.old)) }
{
    let lexeme = lexer.next()?;
    match lexeme.token {
        Token::Name(name) => Ok(name),
        Token::Keyword(_) => Err(TextFault::ReservedLabel { at: lexeme.at }),
        _ => Err(TextFault::Form { at: lexeme.at }),
    }
}

/// Reads the operand of ld.
#[tactic(auto, unfolding(crate::specs::Reading::ld_rule))]
fn ld_operand<'a>(lexer: &mut Lexer<'a>) -> Result<Operand<'a>, TextFault>
    ensures { Parses operand_of result (items lexer.new) (ld_rule (items lexer.old)) }
{
    let first = lexer.next()?;
    match first.token {
        Token::Mark(b'[') => packet(lexer),
        Token::Mark(b'#') => immediate_or_len(lexer),
        Token::Keyword(Keyword::M) => scratch(lexer),
        Token::Keyword(Keyword::Len) => Ok(Operand::Len),
        _ => Err(TextFault::Form { at: first.at }),
    }
}

/// Reads the operand of ldi and ldxi.
#[tactic(auto, unfolding(crate::specs::Reading::ldi_rule))]
fn ldi_operand<'a>(lexer: &mut Lexer<'a>) -> Result<Operand<'a>, TextFault>
    ensures { Parses operand_of result (items lexer.new) (ldi_rule (items lexer.old)) }
{
    let first = lexer.next()?;
    match first.token {
        Token::Mark(b'#') => immediate(lexer),
        _ => Ok(Operand::Immediate(number_after(lexer, first)?)),
    }
}

/// Reads the operand of ldh and ldb.
#[tactic(auto, unfolding(crate::specs::Reading::ldh_rule))]
fn ldh_operand<'a>(lexer: &mut Lexer<'a>) -> Result<Operand<'a>, TextFault>
    ensures { Parses operand_of result (items lexer.new) (ldh_rule (items lexer.old)) }
{
    expect_mark(lexer, b'[')?;
    packet(lexer)
}

/// Reads the operand of ldx.
#[tactic(auto, unfolding(crate::specs::Reading::ldx_rule))]
fn ldx_operand<'a>(lexer: &mut Lexer<'a>) -> Result<Operand<'a>, TextFault>
    ensures { Parses operand_of result (items lexer.new) (ldx_rule (items lexer.old)) }
{
    let first = lexer.next()?;
    match first.token {
        Token::Mark(b'#') => immediate_or_len(lexer),
        Token::Keyword(Keyword::M) => scratch(lexer),
        Token::Keyword(Keyword::Len) => Ok(Operand::Len),
        Token::Number(4) => header_length(lexer),
        _ => Err(TextFault::Form { at: first.at }),
    }
}

/// Reads the operand of ldxb.
#[tactic(auto, unfolding(crate::specs::Reading::ldxb_rule))]
fn ldxb_operand<'a>(lexer: &mut Lexer<'a>) -> Result<Operand<'a>, TextFault>
    ensures { Parses operand_of result (items lexer.new) (ldxb_rule (items lexer.old)) }
{
    expect_number(lexer, 4)?;
    header_length(lexer)
}

/// Reads the operand of st and stx.
#[tactic(auto, unfolding(crate::specs::Reading::st_rule))]
fn st_operand<'a>(lexer: &mut Lexer<'a>) -> Result<Operand<'a>, TextFault>
    ensures { Parses operand_of result (items lexer.new) (st_rule (items lexer.old)) }
{
    let first = lexer.next()?;
    match first.token {
        Token::Keyword(Keyword::M) => scratch(lexer),
        _ => Err(TextFault::Form { at: first.at }),
    }
}

/// Reads the operand of jmp and ja.
#[tactic(auto, unfolding(crate::specs::Reading::jump_rule))]
fn jump_operand<'a>(lexer: &mut Lexer<'a>) -> Result<Operand<'a>, TextFault>
    ensures { Parses operand_of result (items lexer.new) (jump_rule (items lexer.old)) }
{
    Ok(Operand::Target(target(lexer)?))
}

/// Reads a comparison and its target.
#[tactic(auto, unfolding(crate::specs::Reading::branch_rule))]
fn branch<'a>(lexer: &mut Lexer<'a>) -> Result<(Source, &'a str), TextFault>
    ensures { Parses (λ b. (b.0, b.1.now)) result (items lexer.new)
        (branch_rule (items lexer.old)) }
{
    let source = source(lexer)?;
    expect_mark(lexer, b',')?;
    Ok((source, target(lexer)?))
}

/// Reads the operand of jneq, jne, jlt and jle.
#[tactic(auto, unfolding(crate::specs::Reading::one_way_rule))]
fn one_way_operand<'a>(lexer: &mut Lexer<'a>) -> Result<Operand<'a>, TextFault>
    ensures { Parses operand_of result (items lexer.new) (one_way_rule (items lexer.old)) }
{
    let (source, then) = branch(lexer)?;
    Ok(Operand::Branch(source, then, None))
}

/// Reads the operand of jeq, jgt, jge and jset.
#[tactic(auto, unfolding(crate::specs::Reading::two_way_rule))]
fn two_way_operand<'a>(lexer: &mut Lexer<'a>) -> Result<Operand<'a>, TextFault>
    ensures { Parses operand_of result (items lexer.new) (two_way_rule (items lexer.old)) }
{
    let (source, then) = branch(lexer)?;
    if lexer.skip_mark(b',') {
        Ok(Operand::Branch(source, then, Some(target(lexer)?)))
    } else {
        Ok(Operand::Branch(source, then, None))
    }
}

/// Reads the operand of an arithmetic instruction.
#[tactic(auto, unfolding(crate::specs::Reading::alu_rule))]
fn alu_operand<'a>(lexer: &mut Lexer<'a>) -> Result<Operand<'a>, TextFault>
    ensures { Parses operand_of result (items lexer.new) (alu_rule (items lexer.old)) }
{
    Ok(Operand::Source(source(lexer)?))
}

/// Reads the operand of ret.
#[tactic(auto, unfolding(crate::specs::Reading::ret_rule))]
fn ret_operand<'a>(lexer: &mut Lexer<'a>) -> Result<Operand<'a>, TextFault>
    ensures { Parses operand_of result (items lexer.new) (ret_rule (items lexer.old)) }
{
    let first = lexer.next()?;
    match first.token {
        Token::Mark(b'#') => immediate(lexer),
        Token::Keyword(Keyword::A) => Ok(Operand::A),
        Token::Mark(b'%') => {
            expect_a(lexer)?;
            Ok(Operand::A)
        }
        _ => Err(TextFault::Form { at: first.at }),
    }
}

/// Reads the operand of a mnemonic.
#[tactic(auto, unfolding(crate::specs::Reading::operand_rule))]
fn operand<'a>(lexer: &mut Lexer<'a>, mnemonic: Mnemonic) -> Result<Operand<'a>, TextFault>
    ensures { Parses operand_of result (items lexer.new) (operand_rule mnemonic (items lexer.old)) }
{
    match mnemonic {
        Mnemonic::Ld => ld_operand(lexer),
        Mnemonic::Ldi | Mnemonic::Ldxi => ldi_operand(lexer),
        Mnemonic::Ldh | Mnemonic::Ldb => ldh_operand(lexer),
        Mnemonic::Ldx => ldx_operand(lexer),
        Mnemonic::Ldxb => ldxb_operand(lexer),
        Mnemonic::St | Mnemonic::Stx => st_operand(lexer),
        Mnemonic::Jmp | Mnemonic::Ja => jump_operand(lexer),
        Mnemonic::Jeq | Mnemonic::Jgt | Mnemonic::Jge | Mnemonic::Jset => two_way_operand(lexer),
        Mnemonic::Jneq | Mnemonic::Jne | Mnemonic::Jlt | Mnemonic::Jle => one_way_operand(lexer),
        Mnemonic::Neg | Mnemonic::Tax | Mnemonic::Txa => Ok(Operand::None),
        Mnemonic::Ret => ret_operand(lexer),
        _ => alu_operand(lexer),
    }
}

/// Reads the operand of an instruction, and gives the statement.
#[tactic(auto, unfolding(crate::specs::Reading::instruction_rule))]
fn instruction<'a>(
    lexer: &mut Lexer<'a>,
    at: usize,
    label: Option<&'a str>,
    mnemonic: Mnemonic,
) -> Result<Statement<'a>, TextFault>
    ensures { Parses statement_of result (items lexer.new)
        (instruction_rule at (option_map (λ name. name.now) label.entry) mnemonic
        (items lexer.old)) }
{
    let operand = operand(lexer, mnemonic)?;
    Ok(Statement {
        at,
        label,
        mnemonic,
        operand,
    })
}

/// Reads the colon and the instruction after a label.
#[tactic(auto, unfolding(crate::specs::Reading::labelled_rule, crate::specs::Reading::labelled_at))]
fn labelled<'a>(
    lexer: &mut Lexer<'a>,
    at: usize,
    label: &'a str,
) -> Result<Statement<'a>, TextFault>
    ensures { Parses statement_of result (items lexer.new)
        (labelled_rule at label.now (items lexer.old)) }
{
    expect_mark(lexer, b':')?;
    let lexeme = lexer.next()?;
    match lexeme.token {
        Token::Keyword(Keyword::Mnemonic(mnemonic)) => {
            instruction(lexer, at, Some(label), mnemonic)
        }
        _ => Err(TextFault::Form { at: lexeme.at }),
    }
}

/// Reads a statement. A mnemonic before a colon is in the place of a label.
#[tactic(auto, unfolding(crate::specs::Reading::statement_rule, crate::specs::Reading::statement_at))]
fn statement<'a>(lexer: &mut Lexer<'a>) -> Result<Statement<'a>, TextFault>
    ensures { Parses statement_of result (items lexer.new) (statement_rule (items lexer.old)) }
{
    let Lexeme { at, token } = lexer.next()?;
    match token {
        Token::Keyword(Keyword::Mnemonic(mnemonic)) => {
            if lexer.skip_mark(b':') {
                return Err(TextFault::ReservedLabel { at });
            }
            instruction(lexer, at, None, mnemonic)
        }
        Token::Keyword(_) => Err(TextFault::ReservedLabel { at }),
        Token::Name(label) => labelled(lexer, at, label),
        _ => Err(TextFault::Form { at }),
    }
}

/// Reads the statements, one after the other.
fn read_statements<'a>(alloc: Global, text: &'a str) -> Result<Vec<Statement<'a>>, TextFault>
    ensures { MatchResult result
        (λ statements. Sources text.now (map statement_of statements.items))
        (λ fault. FaultFits text.now fault) }
{
    let mut lexer = Lexer::new(text);
    let mut statements = Vec::new(alloc);
    while !lexer.is_at_end() {
        statements.push(statement(&mut lexer)?)?;
    }
    Ok(statements)
}

/// Reads the text of a filter into its statements, in order. Blanks are space, tab, carriage return
/// and line feed. A comment goes from `/*` to the next `*/`, or from `;` or a `#` that is the first
/// byte of a line to the line's end.
///
/// The text is refused with the fault at the least byte offset ([`TextFault`]). Names and offsets
/// are those of the text. Only the statements are allocated, so `Memory` can come only where at
/// least one whole statement stands at the text's front.
pub fn statements<'a>(alloc: Global, text: &'a str) -> Result<Vec<Statement<'a>>, TextFault>
    ensures { MatchResult result
        (λ statements. Sources text.now (map statement_of statements.items))
        (λ fault. FaultFits text.now fault) }
{
    read_statements(alloc, text)
}
