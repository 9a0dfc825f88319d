//! Where in a text a name stands, for a message that points at it.

ghost use Rattle.std.specs.Prelude.{◌≡◌, ◌+◌, length, IfSome};
ghost use Rattle.std.specs.List.{slice_range};

use crate::lexer::{Lexer, Token};

/// The byte offset of the first name token from a byte on that is this name.
fn next_name(text: &str, from: usize, name: &str) -> Option<usize> {
    let mut lexer = Lexer::new_at(text, from)?;
    for _ in 0..text.len() {
        let lexeme = lexer.next().ok()?;
        match lexeme.token {
            Token::Name(found) if found == name => return Some(lexeme.at),
            _ => {}
        }
    }
    None
}

/// The byte offset where a name, as that of a label, stands first as a token from a byte on. The byte begins
/// or ends a token. None: it doesn't stand there.
pub fn name_offset(text: &str, from: usize, name: &str) -> Option<usize>
    ensures { IfSome result (λ at. slice_range text.now at (at + length name.now) ≡ name.now) }
{
    let at = next_name(text, from, name)?;
    let end = at.checked_add(name.len())?;
    if text.get(at..end)? == name {
        Some(at)
    } else {
        None
    }
}
