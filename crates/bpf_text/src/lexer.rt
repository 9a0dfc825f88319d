//! Bytes to tokens. Comments and blanks end here, so that the parser never sees them.

ghost use Rattle.std.specs.Prelude.{◌≡◌, ◌+◌, ◌<◌, ◌≤◌, ◌==◌, take, drop, length, IfSome};
ghost use Rattle.std.specs.List.{prefix_len, position_or_len};
ghost use Rattle.bpf_text.specs.Tokens.{is_word_byte, is_mark, close_at, comment_len};
ghost use Rattle.bpf_text.specs.Tokens.{blank_len};

use crate::fault::TextFault;
use crate::keyword::Keyword;
use crate::word::{slice_word, word_token};

/// A token. The language is that of bpf_asm's tools/bpf/bpf_exp.l.
#[derive(Clone, Copy)]
pub(crate) enum Token<'a> {
    /// A mnemonic, `x`, `a`, `M` or `len`, in either case.
    Keyword(Keyword),
    /// Any other name.
    Name(&'a str),
    /// A number without its sign. 2^32 stands for any larger one.
    Number(u64),
    /// One of the bytes `:,#%[]()+-*&`.
    Mark(u8),
}

/// A token and the byte offset where it begins.
#[derive(Clone, Copy)]
pub(crate) struct Lexeme<'a> {
    pub(crate) at: usize,
    pub(crate) token: Token<'a>,
}

/// The rest of a text, from a byte offset on.
#[derive(Clone, Copy)]
pub(crate) struct Lexer<'a> {
    text: &'a str,
    at: usize,
    ghost within: { at ≤ length text.now },
}

fn is_word_byte(byte: u8) -> bool
    ensures { result ≡ is_word_byte byte }
{
    byte.is_ascii_alphanumeric() || byte == b'_'
}

fn is_mark(byte: u8) -> bool
    ensures { result ≡ is_mark byte }
{
    matches!(
        byte,
        b':' | b',' | b'#' | b'%' | b'[' | b']' | b'(' | b')' | b'+' | b'-' | b'*' | b'&'
    )
}

/// The number of letters, digits and `_` at the front.
fn word_len(bytes: &[u8]) -> usize
    ensures { result ≡ prefix_len is_word_byte bytes.now }
{
    bytes.iter().take_while(|b| is_word_byte(**b)).count()
}

/// The number of bytes before the line's end.
fn line_len(bytes: &[u8]) -> usize
    ensures { result ≡ position_or_len (λ b. b == 10) bytes.now }
{
    bytes.iter().take_while(|b| **b != b'\n').count()
}

/// The index of the first `*/`.
fn close_at(bytes: &[u8]) -> Option<usize>
    ensures { result ≡ close_at bytes.now }
{
    bytes
        .iter()
        .zip(bytes.iter().skip(1))
        .position(|(star, slash)| *star == b'*' && *slash == b'/')
}

/// The length of the comment that begins with a `/` before the bytes, 0 where there is none or it
/// isn't closed.
fn comment_len(bytes: &[u8]) -> usize
    ensures len { result ≡ comment_len bytes.now }
    ensures within { result ≤ 1 + length bytes.now }
{
    match bytes {
        [b'*', comment @ ..] => match close_at(comment) {
            Some(at) => at + 4,
            None => 0,
        },
        _ => 0,
    }
}

/// The length of the blank or the comment at the front, 0 where there is none. The byte before the
/// front is `before`.
fn blank_len(before: u8, bytes: &[u8]) -> usize
    ensures len { result ≡ blank_len before bytes.now }
    ensures within { result ≤ length bytes.now }
{
    match bytes {
        [b' ' | b'\t' | b'\r' | b'\n', ..] => 1,
        [b';', line @ ..] => 1 + line_len(line),
        [b'#', line @ ..] if before == b'\n' => 1 + line_len(line),
        [b'/', comment @ ..] => comment_len(comment),
        _ => 0,
    }
}

impl<'a> Lexer<'a> {
    ghost use Rattle.std.specs.Prelude.{◌≡◌, true, ◌+◌, ◌<◌, take, drop, length, slice_index, MatchOption};
    ghost use Rattle.std.specs.List.{prefix_len};
    ghost use Rattle.bpf_text.specs.Tokens.{is_word_byte, is_mark, blank_len, byte_before};
    ghost use Rattle.bpf_text.specs.Tokens.{after_mark, next_token, at_end, Parses};
    ghost use Rattle.bpf_text.specs.Views.{items, lexeme_of};

    /// The whole text.
    pub(crate) fn new(text: &'a str) -> Lexer<'a>
        ensures { (result.text.now ≡ text.now) × (result.at ≡ 0) }
    {
        Lexer { text, at: 0 }
    }

    /// The text from a byte on.
    pub(crate) fn new_at(text: &'a str, at: usize) -> Option<Lexer<'a>> {
        if at <= text.len() {
            Some(Lexer { text, at })
        } else {
            None
        }
    }

    /// True if only blanks and comments are left. Skips the blanks and comments at the front.
    pub(crate) fn is_at_end(&mut self) -> bool
        ensures items { items self.new ≡ items self.old }
        ensures end { result ≡ at_end (items self.old) }
    {
        self.skip_blanks();
        self.at == self.text.len()
    }

    /// Skips the mark, if it is the next token.
    pub(crate) fn skip_mark(&mut self, mark: u8) -> bool
        requires { is_mark mark ≡ true }
        ensures { (result, items self.new) ≡ after_mark mark (items self.old) }
    {
        self.skip_blanks();
        match self.peek() {
            Some(byte) if byte == mark => {
                self.at += 1;
                true
            }
            _ => false,
        }
    }

    /// The next token. `Form` at the text's end.
    pub(crate) fn next(&mut self) -> Result<Lexeme<'a>, TextFault>
        ensures { Parses lexeme_of result (items self.new) (next_token (items self.old)) }
    {
        self.skip_blanks();
        let at = self.at;
        let Some(first) = self.peek() else {
            return Err(TextFault::Form { at });
        };
        if is_word_byte(first) {
            let token = word_token(at, self.word())?;
            Ok(Lexeme { at, token })
        } else if is_mark(first) {
            self.at += 1;
            Ok(Lexeme {
                at,
                token: Token::Mark(first),
            })
        } else {
            Err(TextFault::Character { at })
        }
    }

    /// The first byte that is left.
    fn peek(&self) -> Option<u8>
        ensures { MatchOption result
            (self.now.at ≡ length self.now.text.now)
            (λ byte. (self.now.at < length self.now.text.now)
            × (byte ≡ slice_index self.now.text.now self.now.at)) }
    {
        if self.at == self.text.len() {
            None
        } else {
            Some(self.text.as_bytes()[self.at])
        }
    }

    /// The bytes that are left.
    fn rest(&self) -> &'a [u8]
        ensures { result.now ≡ drop self.now.at self.now.text.now }
    {
        &self.text.as_bytes()[self.at..]
    }

    /// The byte before the bytes that are left, a line feed at the text's start.
    fn byte_before(&self) -> u8
        ensures { result ≡ byte_before self.now.text.now self.now.at }
    {
        if self.at == 0 {
            b'\n'
        } else {
            self.text.as_bytes()[self.at - 1]
        }
    }

    /// Skips the blanks and comments at the front.
    fn skip_blanks(&mut self)
        ensures text { self.new.text ≡ self.old.text }
        ensures items { items self.new ≡ items self.old }
        ensures none { blank_len (byte_before self.new.text.now self.new.at)
            (drop self.new.at self.new.text.now) ≡ 0 }
    {
        loop {
            let len = blank_len(self.byte_before(), self.rest());
            if len == 0 {
                return;
            }
            self.at += len;
        }
    }

    /// Skips the word at the front.
    fn word(&mut self) -> &'a str
        requires { is_word_byte (slice_index (drop self.old.at self.old.text.now) 0) ≡ true }
        ensures text { self.new.text ≡ self.old.text }
        ensures at { self.new.at
            ≡ self.old.at + prefix_len is_word_byte (drop self.old.at self.old.text.now) }
        ensures word { result.now
            ≡ take (prefix_len is_word_byte (drop self.old.at self.old.text.now))
            (drop self.old.at self.old.text.now) }
    {
        let len = word_len(self.rest());
        let word = slice_word(self.text, self.at, len);
        self.at += len;
        word
    }
}
