//! Commands as a person types them.

ghost use Rattle.std.specs.Prelude.{◌≡◌, ◌∷◌, [], MatchOption, length};
ghost use Rattle.std.specs.Char.{is_ascii_digit};
ghost use Rattle.std.specs.List.{list_all, prefix_len, position_or_len};
ghost use Rattle.bpf_debugger.specs.Lines.{bare_command, command_of, command_with, distance_of};
ghost use Rattle.bpf_debugger.specs.Lines.{is_number, is_space, number_of, small_value_of, words_of};

use crate::command::Command;

/// Reads a command from its line, without the newline. Words stand between spaces; a tab or a carriage
/// return is part of its word. A number is written in decimal digits, leading zeros allowed, and is at
/// most 4294967295. None for any other line, blank lines among them. Allocates nothing.
///
/// `select <n>`, `step <n>`, `step +<n>`, `step -<n>`, `breakpoint <n>`, `cont`, `disassemble`, `tally`,
/// `quit`
pub fn read_command(line: &str) -> Option<Command>
    ensures { result ≡ command_of (words_of line.now) }
{
    let (name, rest) = next_word(line.as_bytes())?;
    let Some((operand, rest)) = next_word(rest) else {
        return bare_command(name);
    };
    match next_word(rest) {
        None => command_with(name, operand),
        Some(_) => None,
    }
}

/// The number of leading spaces.
fn space_len(text: &[u8]) -> usize
    ensures { result ≡ prefix_len is_space text.now }
{
    text.iter().take_while(|byte| **byte == b' ').count()
}

/// The number of bytes before the first space.
fn word_len(text: &[u8]) -> usize
    ensures { result ≡ position_or_len is_space text.now }
{
    text.iter().take_while(|byte| **byte != b' ').count()
}

/// The first word of a text, and the bytes after it.
fn next_word(text: &[u8]) -> Option<(&[u8], &[u8])>
    ensures { MatchOption result
        (words_of text.now ≡ [])
        (λ x. words_of text.now ≡ x.0.now ∷ words_of x.1.now) }
{
    let (_, rest) = text.split_at(space_len(text));
    if rest.is_empty() {
        return None;
    }
    Some(rest.split_at(word_len(rest)))
}

#[tactic(auto, unfolding(crate::specs::Lines::bare_command))]
fn bare_command(name: &[u8]) -> Option<Command>
    ensures { result ≡ bare_command name.now }
{
    if name == "cont".as_bytes() {
        Some(Command::Cont)
    } else if name == "disassemble".as_bytes() {
        Some(Command::Disassemble)
    } else if name == "tally".as_bytes() {
        Some(Command::Tally)
    } else if name == "quit".as_bytes() {
        Some(Command::Quit)
    } else {
        None
    }
}

#[tactic(auto, unfolding(crate::specs::Lines::command_with))]
fn command_with(name: &[u8], operand: &[u8]) -> Option<Command>
    ensures { result ≡ command_with name.now operand.now }
{
    if name == "select".as_bytes() {
        number_of(operand).map(Command::Select)
    } else if name == "step".as_bytes() {
        distance_of(operand).map(Command::Step)
    } else if name == "breakpoint".as_bytes() {
        number_of(operand).map(Command::Breakpoint)
    } else {
        None
    }
}

/// How far to step: a number, with a sign before it or none.
#[tactic(auto, unfolding(crate::specs::Lines::distance_of))]
fn distance_of(word: &[u8]) -> Option<i64>
    ensures { result ≡ distance_of word.now }
{
    match word {
        [b'+', digits @ ..] => number_of(digits).map(i64::from),
        [b'-', digits @ ..] => number_of(digits).map(|n| -i64::from(n)),
        _ => number_of(word).map(i64::from),
    }
}

#[tactic(auto, unfolding(crate::specs::Lines::number_of))]
fn number_of(word: &[u8]) -> Option<u32>
    ensures { result ≡ number_of word.now }
{
    if is_number(word) {
        value_of(word)
    } else {
        None
    }
}

/// True if the word is one digit or more, and nothing else.
fn is_number(word: &[u8]) -> bool
    ensures { result ≡ is_number word.now }
{
    !word.is_empty() && are_digits(word)
}

fn are_digits(bytes: &[u8]) -> bool
    ensures { result ≡ list_all is_ascii_digit bytes.now }
{
    bytes.iter().all(|byte| byte.is_ascii_digit())
}

/// The value of digits, if it fits 32 bits.
fn value_of(digits: &[u8]) -> Option<u32>
    ensures { result ≡ small_value_of digits.now }
{
    let mut value: u64 = 0;
    for digit in digits {
        value = value * 10 + u64::from(digit.saturating_sub(b'0'));
        // Checked at each digit, since there may be any number of them.
        if value > u64::from(u32::MAX) {
            return None;
        }
    }
    Some(value as u32)
}
