//! Texts that are read whole.
use crate::outcome::{Cause, MAX_TEXT};
use crate::streams::Input;
use std::io::Read;

/// Reads what is left of an input as a text of at most 16777216 bytes of UTF-8.
pub fn text_in(rt: &HostRuntime, input: Input) -> Result<String, Cause> {
    let length = input.length(rt);
    let mut bytes = Vec::new(rt.alloc());
    let mut start = input.take(MAX_TEXT as u64 + 1);
    start.read_to_end(&mut bytes)?;
    if bytes.len() > MAX_TEXT {
        return Err(length.map_or(Cause::Longer, Cause::TooLong));
    }
    String::from_utf8(bytes).map_err(|error| Cause::NotUtf8(error.utf8_error().valid_up_to()))
}
