//! Texts that are read whole from a source.
ghost use Rattle.std.specs.Prelude.{◌≡◌, IfErr, IfOk, OnOk, length, string_bytes};
ghost use Rattle.run_inputs.specs.Text.{IsTextRefusal, IsWhole, IsWholeText};
ghost use Rattle.run_inputs.specs.declared.text.TextRefusal.TheVariants as refusals;

use pcap_io::{DeviceFault, TapSource, fill};
use std::alloc::{AllocError, Global};

/// The most bytes of a text: 16 MiB.
pub const MAX_TEXT: usize = 16_777_216;

/// How many bytes are asked for first.
const FIRST: usize = 65_536;

/// Why a text wasn't read.
#[derive(Clone, Copy, PartialEq, Eq)]
pub enum TextRefusal {
    /// The source failed.
    Device,
    /// The source has more bytes than a text may have.
    TooLong,
    /// The bytes are not UTF-8.
    NotUtf8,
    /// Out of memory for the text.
    Memory,
}

impl From<DeviceFault> for TextRefusal {
    ghost from_gives = { λ _ e. e ≡ refusals.Device };

    fn from(_fault: DeviceFault) -> TextRefusal {
        TextRefusal::Device
    }
}

impl From<AllocError> for TextRefusal {
    ghost from_gives = { λ _ e. e ≡ refusals.Memory };

    fn from(_e: AllocError) -> TextRefusal {
        TextRefusal::Memory
    }
}

/// Reads all that is left of the source, up to one byte more than a text may have.
fn read_bytes<S: TapSource>(alloc: Global, source: &mut S) -> Result<Vec<u8>, TextRefusal>
    ensures whole { IfOk result (λ bytes.
        IsWhole (S.remaining source.old) (S.remaining source.new) bytes.items) }
    ensures no_failure { OnOk result (S.failures source.new ≡ S.failures source.old) }
    ensures refused { IfErr result (IsTextRefusal
        (S.remaining source.old) (S.remaining source.new)
        (S.failures source.old) (S.failures source.new)) }
{
    let mut bytes = Vec::new(alloc);
    let mut len = 0;
    while len <= MAX_TEXT {
        // The room doubles, so that each byte is moved a few times at most.
        let room = (2 * len).max(FIRST).min(MAX_TEXT + 1);
        bytes.resize(room, 0)?;
        len += fill(source, &mut bytes[len..])?;
        if len < room {
            bytes.truncate(len);
            return Ok(bytes);
        }
    }
    Err(TextRefusal::TooLong)
}

/// Reads a text of at most [`MAX_TEXT`] bytes, which is all that is left of the source. Room is made
/// before anything is read, so there may be no memory even for an empty text.
pub fn read_text<S: TapSource>(alloc: Global, source: &mut S) -> Result<String, TextRefusal>
    ensures whole { IfOk result (λ text.
        IsWholeText (S.remaining source.old) (S.remaining source.new) (string_bytes text)) }
    ensures no_failure { OnOk result (S.failures source.new ≡ S.failures source.old) }
    ensures refused { IfErr result (IsTextRefusal
        (S.remaining source.old) (S.remaining source.new)
        (S.failures source.old) (S.failures source.new)) }
{
    let bytes = read_bytes(alloc, source)?;
    match String::from_utf8(bytes) {
        Ok(text) => Ok(text),
        Err(_) => Err(TextRefusal::NotUtf8),
    }
}
