//! Texts that come from outside, as a terminal and a log get them.

use crate::words::BETWEEN_FILES;
use std::fmt;
use std::fmt::{Display, Formatter};

/// A character that comes from outside. One that acts on a terminal in place of being seen stands escaped.
#[derive(Clone, Copy)]
struct ShownCharacter(char);

/// Does the character act on a terminal in place of being seen there? These are the controls, the separators
/// of lines and paragraphs, and the marks of the direction of writing.
pub(crate) fn is_unseen(character: char) -> bool {
    character.is_control()
        || matches!(
            character,
            '\u{200e}' | '\u{200f}' | '\u{2028}'..='\u{202e}' | '\u{2066}'..='\u{2069}'
        )
}

impl Display for ShownCharacter {
    fn fmt<W: fmt::Write>(&self, f: &mut Formatter<W>) -> fmt::Result {
        if is_unseen(self.0) {
            let code = u32::from(self.0);
            write!(f, "\\u{{{code:x}}}")
        } else {
            f.write_char(self.0)
        }
    }
}

/// A text that comes from outside, as the path of a file: a control character in it, which could move a
/// terminal's cursor or begin a line, stands escaped, as `\u{1b}`.
#[derive(Clone, Copy)]
pub struct Shown<'a>(pub &'a str);

impl Display for Shown<'_> {
    fn fmt<W: fmt::Write>(&self, f: &mut Formatter<W>) -> fmt::Result {
        for character in self.0.chars() {
            let shown = ShownCharacter(character);
            write!(f, "{shown}")?;
        }
        Ok(())
    }
}

/// Lines of text in which words of a command line stand as they were typed, with a space between files. Other
/// control characters than a line's end stand escaped.
#[derive(Clone, Copy)]
pub struct Typed<'a>(pub &'a str);

impl Display for Typed<'_> {
    fn fmt<W: fmt::Write>(&self, f: &mut Formatter<W>) -> fmt::Result {
        for character in self.0.chars() {
            let shown = ShownCharacter(character);
            match character {
                BETWEEN_FILES => f.write_char(' ')?,
                '\n' => f.write_char('\n')?,
                _ => write!(f, "{shown}")?,
            }
        }
        Ok(())
    }
}
