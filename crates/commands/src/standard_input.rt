//! Standard input that is read as a text, and why it is none.
use std::io;
use std::io::{Read, Stdin};
use tap_inputs::{Cause, Detail, MAX_TEXT};

/// Standard input, whose bytes are kept: a pipe can't be read again for why they are no text.
#[derive(Drop)]
pub struct StandardInput {
    stdin: Stdin,
    bytes: Vec<u8>,
    /// Are these all bytes that were read?
    is_whole: bool,
    refused: Option<io::Error>,
}

impl StandardInput {
    /// Nothing was read yet.
    pub fn new(rt: &HostRuntime) -> StandardInput {
        StandardInput {
            stdin: rt.stdin(),
            bytes: Vec::new(rt.alloc()),
            is_whole: true,
            refused: None,
        }
    }

    /// Why no text was read, as far as that is known.
    fn cause(&self) -> Option<Cause> {
        if let Some(error) = self.refused {
            return Some(Cause::System(error));
        }
        if !self.is_whole {
            return None;
        }
        if self.bytes.len() > MAX_TEXT {
            return Some(Cause::Longer);
        }
        match str::from_utf8(&self.bytes) {
            Err(error) => Some(Cause::NotUtf8(error.valid_up_to())),
            Ok(_) => None,
        }
    }

    /// The detail of that, for a person.
    pub fn told(&self, rt: &HostRuntime) -> Option<Detail> {
        let cause = self.cause()?;
        let told = format!(in rt.alloc(); "standard input: {cause}").ok()?;
        Some(Detail::Text(told))
    }

    fn keep(&mut self, bytes: &[u8]) {
        if self.is_whole && self.bytes.extend_from_slice(bytes).is_err() {
            self.is_whole = false;
        }
    }
}

impl Read for StandardInput {
    fn read(&mut self, buf: &mut [u8]) -> io::Result<usize> {
        let read = self.stdin.read(buf);
        match read {
            Ok(count) => {
                // Bytes that were refused before, as by a signal, were read now.
                self.refused = None;
                self.keep(&buf[..count]);
            }
            Err(error) => self.refused = Some(error),
        }
        read
    }
}
