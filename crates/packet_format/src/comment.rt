//! The text of a line.
ghost use Rattle.std.specs.Prelude.{◌≡◌, ◌+◌, ◌≤◌, ◌++◌, OnOk, OnErr, decimal, length, vec_len};
ghost use Rattle.std.specs.Option.{option_map};
ghost use Rattle.std.specs.Vec.{vec_capacity};
ghost use Rattle.packet_format.specs.Comment.{address_text, comment_text, name_field, name_of, sequence_field};
ghost use Rattle.packet_format.specs.declared.comment.TheConstants.{MAX_TEXT, NAME_FIELD, NUMBER};

use crate::words::{OUTCOME, outcome_of};
use afdx_frame::VlId;
use itoa::Buffer;
use ledger_text::FrameLine;
use std::alloc::AllocError;
use vl_config::Config;

/// The most digits of a number below 2^16.
const NUMBER: usize = 5;

/// The most bytes of an address without its name: "VL ", the link, a space, " SN ", the sequence number
/// and ": ".
const ADDRESS: usize = 10 + 2 * NUMBER;

/// The most bytes of a link's name and of the space before it.
const NAME_FIELD: usize = 33;

/// The most bytes of a comment.
pub(crate) const MAX_TEXT: usize = ADDRESS + NAME_FIELD + OUTCOME;

/// The name of a link in the table, if it is there.
#[inline]
fn name_of<'a>(config: Option<&'a Config>, link: Option<VlId>) -> Option<&'a str>
    ensures name { option_map (λ name. name.now) result
        ≡ name_of (option_map (λ c. c.now) config.entry) link }
    ensures short { length (name_field (option_map (λ name. name.now) result)) ≤ NAME_FIELD }
{
    match (config, link) {
        (Some(config), Some(id)) => match config.link(id) {
            Some(link) => Some(link.name.as_str()),
            None => None,
        },
        _ => None,
    }
}

/// Appends a number.
#[inline]
fn push_number(text: &mut Vec<u8>, number: u16)
    requires { vec_len text.old + NUMBER ≤ vec_capacity text.old }
    ensures items { text.new.items ≡ text.old.items ++ decimal number }
    ensures len { vec_len text.new ≤ vec_len text.old + NUMBER }
    ensures capacity { vec_capacity text.old ≤ vec_capacity text.new }
{
    let mut digits = Buffer::new();
    text.extend_from_slice(digits.format(number).as_bytes())
        .unwrap();
}

/// Appends a name, after a space, if there is one.
#[inline]
fn push_name(text: &mut Vec<u8>, name: Option<&str>)
    requires { vec_len text.old + length (name_field (option_map (λ n. n.now) name)) ≤ vec_capacity text.old }
    ensures items { text.new.items ≡ text.old.items ++ name_field (option_map (λ n. n.now) name.entry) }
    ensures capacity { vec_capacity text.old ≤ vec_capacity text.new }
{
    if let Some(name) = name {
        text.extend_from_slice(b" ").unwrap();
        text.extend_from_slice(name.as_bytes()).unwrap();
    }
}

/// Appends a sequence number, if there is one.
#[inline]
fn push_sequence(text: &mut Vec<u8>, sequence: Option<u8>)
    requires { vec_len text.old + (4 + NUMBER) ≤ vec_capacity text.old }
    ensures items { text.new.items ≡ text.old.items ++ sequence_field sequence }
    ensures len { vec_len text.new ≤ vec_len text.old + (4 + NUMBER) }
    ensures capacity { vec_capacity text.old ≤ vec_capacity text.new }
{
    if let Some(number) = sequence {
        text.extend_from_slice(b" SN ").unwrap();
        push_number(text, u16::from(number));
    }
}

/// Appends the link, its name and the sequence number, if the line has a link.
#[inline]
fn push_address(text: &mut Vec<u8>, line: &FrameLine, name: Option<&str>)
    requires { vec_len text.old + (ADDRESS + length (name_field (option_map (λ n. n.now) name)))
        ≤ vec_capacity text.old }
    ensures items { text.new.items ≡ text.old.items
        ++ address_text (option_map (λ n. n.now) name.entry) line.now }
    ensures len { vec_len text.new ≤ vec_len text.old
        + (ADDRESS + length (name_field (option_map (λ n. n.now) name.entry))) }
    ensures capacity { vec_capacity text.old ≤ vec_capacity text.new }
{
    let Some(id) = line.link else {
        return;
    };
    text.extend_from_slice(b"VL ").unwrap();
    push_number(text, id.0);
    push_name(text, name);
    push_sequence(text, line.sequence);
    text.extend_from_slice(b": ").unwrap();
}

/// Appends the verdict of a line in words, with its link's name, where the table has the link.
///
/// # Errors
///
/// There is no memory for it. The text is as it was.
pub fn append_comment(
    text: &mut Vec<u8>,
    config: Option<&Config>,
    line: &FrameLine,
) -> Result<(), AllocError>
    ensures comment { OnOk result (text.new.items ≡ text.old.items
        ++ comment_text (option_map (λ c. c.now) config.entry) line.now) }
    ensures short { OnOk result (vec_len text.new ≤ vec_len text.old + MAX_TEXT) }
    ensures memory { OnErr result (text.new.items ≡ text.old.items) }
{
    let name = name_of(config, line.link);
    text.reserve(MAX_TEXT)?;
    push_address(text, line, name);
    let (word, judge) = outcome_of(line);
    text.extend_from_slice(word.as_bytes()).unwrap();
    text.extend_from_slice(judge.as_bytes()).unwrap();
    Ok(())
}
