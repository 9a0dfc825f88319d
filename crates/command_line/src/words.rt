//! The words of a command line, of which several in a row may be the files of one recording.

use crate::files::is_standard;
use crate::options::takes_value;
use std::alloc::{AllocError, Global};

/// The character between the paths of a recording's files where they are one word: no path has it.
pub const BETWEEN_FILES: char = '\0';

/// The options whose value is a recording.
const RECORDINGS: [&str; 5] = ["--a", "--b", "--tap", "--before", "--after"];

/// The command whose recording no option stands before.
const CAPTURE: &str = "capture";

/// The role of a word.
#[derive(Clone, Copy, PartialEq, Eq)]
enum Role {
    /// An option whose value is a recording.
    Recording,
    /// An option of `capture` that has another value.
    Valued,
    /// The first file of a recording.
    FirstFile,
    /// A file after it.
    NextFile,
    /// Anything else.
    Other,
}

/// Does a word begin with a hyphen, and is more than that? A hyphen alone is standard input or output.
fn is_option(word: &str) -> bool {
    word.len() > 1 && word.starts_with('-')
}

/// The role of a word that stands after one of this role.
fn role_after(before: Role, is_capture: bool, word: &str) -> Role {
    if is_option(word) {
        return if RECORDINGS.contains(&word) {
            Role::Recording
        } else if is_capture && takes_value(word) {
            Role::Valued
        } else {
            Role::Other
        };
    }
    match before {
        Role::Recording => Role::FirstFile,
        Role::FirstFile | Role::NextFile => Role::NextFile,
        Role::Valued => Role::Other,
        Role::Other if is_capture => Role::FirstFile,
        Role::Other => Role::Other,
    }
}

/// The words of a command line, the program's own name first, in which the files of each recording are one
/// word, with [`BETWEEN_FILES`] between them. They are the words after `--a`, `--b`, `--tap`, `--before` or
/// `--after` up to the next option, and of `capture` those that no option takes.
pub fn gathered(alloc: Global, words: &[String]) -> Result<Vec<String>, AllocError> {
    let mut gathered: Vec<String> = Vec::with_capacity(alloc, words.len())?;
    let is_capture = words.get(1).is_some_and(|word| word.as_str() == CAPTURE);
    let mut role = Role::Other;
    for (index, word) in words.iter().enumerate() {
        // The program's name and the command's are no files.
        role = if index < 2 {
            Role::Other
        } else {
            role_after(role, is_capture, word)
        };
        match gathered.last_mut() {
            Some(files) if role == Role::NextFile => {
                files.push(BETWEEN_FILES)?;
                files.push_str(word)?;
            }
            _ => gathered.push(String::from_str(alloc, word)?)?,
        }
    }
    Ok(gathered)
}

/// Is standard input one of several files of a recording? No option takes such a word.
pub fn has_standard_among(gathered: &[String]) -> bool {
    gathered.iter().any(|word| word.contains(BETWEEN_FILES)
        && word.split(BETWEEN_FILES).any(is_standard))
}
