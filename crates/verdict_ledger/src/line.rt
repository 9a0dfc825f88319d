//! The line of a frame.
ghost use Rattle.std.specs.Prelude.{◌≡◌, ◌+◌, ◌*◌, ◌^◌, ◌<◌, ◌≤◌, ◌++◌, OnOk, OnErr, decimal, codes, drop, length};
ghost use Rattle.afdx_frame.specs.View.{sequence_of};
ghost use Rattle.verdict_ledger.specs.Entry.{entry_with};
ghost use Rattle.verdict_ledger.specs.Room.{IsStart};
ghost use Rattle.afdx_frame.specs.Frame.{network_letter};
ghost use Rattle.verdict_ledger.specs.Text.{word_field, number_field, optional_field, address_text, verdict_text, mask_text, length_text, link_number, line_text};
ghost use Rattle.verdict_ledger.specs.declared.line.TheConstants.{KEY, LENGTH, MASK, MAX_LINE, NUMBER_FIELD};
ghost use Rattle.verdict_ledger.specs.declared.words.TheConstants.{VERDICT};

use crate::version::LedgerVersion;
use crate::words::{VERDICT, network_field, verdict_field};
use afdx_frame::LentFrame;
use itoa::write_digits;
use std::alloc::AllocError;
use vl_config::Class;
use vl_judge::Verdict;

/// The most bytes of a number below 2^32 and of the space before it.
const NUMBER_FIELD: usize = 11;

/// The most bytes of a timestamp (19), of the network (2) and of the frame's number.
const KEY: usize = 21 + NUMBER_FIELD;

/// The bytes of the mask, and of the space before it.
const MASK: usize = 3;

/// The most bytes of the length on the wire, of the space before it and of the newline.
const LENGTH: usize = NUMBER_FIELD + 1;

/// Room for a line. The link, the sequence number and the count of bytes kept have that of a number each.
const MAX_LINE: usize = KEY + 2 * NUMBER_FIELD + VERDICT + NUMBER_FIELD + MASK + LENGTH;

/// The hexadecimal digits.
const DIGITS: [u8; 16] = *b"0123456789abcdef";

// A line is written from its end to its start, since a division gives a number's last digit first. Each
// function below writes its text so that it ends at `end`, and returns where it starts.

/// Writes bytes.
#[inline(always)]
fn write_bytes(bytes: &[u8], line: &mut [u8], end: usize) -> usize
    requires room { length bytes.now ≤ end }
    requires within { end ≤ length line.old }
    ensures start { result + length bytes.now ≡ end }
    ensures written { drop result line.new ≡ bytes.now ++ drop end line.old }
{
    let start = end - bytes.len();
    line[start..end].copy_from_slice(bytes);
    start
}

/// Writes a space and a number below 2^32.
#[inline(always)]
#[tactic(auto, using(crate::proofs::Lengths::number_short))]
fn write_number_field(number: u64, line: &mut [u8], end: usize) -> usize
    requires bound { number < 2 ^ 32 }
    requires room { NUMBER_FIELD ≤ end }
    requires within { end ≤ length line.old }
    ensures start { IsStart NUMBER_FIELD end result }
    ensures written { drop result line.new ≡ number_field number ++ drop end line.old }
{
    let start = write_digits(number, line, end);
    write_bytes(b" ", line, start)
}

/// Writes a space, and a number or a dash.
#[inline(always)]
fn write_optional_field(number: Option<u32>, line: &mut [u8], end: usize) -> usize
    requires room { NUMBER_FIELD ≤ end }
    requires within { end ≤ length line.old }
    ensures start { IsStart NUMBER_FIELD end result }
    ensures written { drop result line.new ≡ optional_field number ++ drop end line.old }
{
    match number {
        Some(number) => write_number_field(u64::from(number), line, end),
        None => write_bytes(b" -", line, end),
    }
}

/// The identifier of the frame's link, where the frame has the bytes.
#[inline]
fn link_number(frame: &LentFrame<'_>) -> Option<u32>
    ensures { result ≡ link_number frame.now }
{
    match frame.link() {
        Some(id) => Some(u32::from(id.0)),
        None => None,
    }
}

/// The sequence number, where the frame has a byte.
#[inline]
fn sequence_number(frame: &LentFrame<'_>) -> Option<u32>
    ensures { result ≡ sequence_of frame.now.bytes }
{
    match frame.sequence() {
        Some(number) => Some(u32::from(number)),
        None => None,
    }
}

/// Writes the link and the sequence number, or dashes.
#[inline(always)]
fn write_address(class: Class, frame: &LentFrame<'_>, line: &mut [u8], end: usize) -> usize
    requires room { 2 * NUMBER_FIELD ≤ end }
    requires within { end ≤ length line.old }
    ensures start { IsStart (2 * NUMBER_FIELD) end result }
    ensures written { drop result line.new ≡ address_text class frame.now ++ drop end line.old }
{
    if !class.is_addressed() {
        return write_bytes(b" - -", line, end);
    }
    let start = write_optional_field(sequence_number(frame), line, end);
    write_optional_field(link_number(frame), line, start)
}

/// Writes the words of a verdict.
#[inline(always)]
fn write_verdict(verdict: &Verdict, line: &mut [u8], end: usize) -> usize
    requires room { VERDICT ≤ end }
    requires within { end ≤ length line.old }
    ensures start { IsStart VERDICT end result }
    ensures written { drop result line.new ≡ verdict_text verdict.now ++ drop end line.old }
{
    write_bytes(verdict_field(verdict).as_bytes(), line, end)
}

/// Writes the mask of the filters that accept a frame.
#[inline(always)]
fn write_mask(mask: u8, line: &mut [u8], end: usize) -> usize
    requires room { MASK ≤ end }
    requires within { end ≤ length line.old }
    ensures start { IsStart MASK end result }
    ensures written { drop result line.new ≡ word_field (mask_text mask) ++ drop end line.old }
{
    let high = DIGITS[usize::from(mask / 16)];
    let low = DIGITS[usize::from(mask % 16)];
    write_bytes(&[b' ', high, low], line, end)
}

/// Writes the length on the wire, in a version that has it, and the end of the line.
#[inline(always)]
fn write_length(version: LedgerVersion, whole: u32, line: &mut [u8], end: usize) -> usize
    requires room { LENGTH ≤ end }
    requires within { end ≤ length line.old }
    ensures start { IsStart LENGTH end result }
    ensures written { drop result line.new
        ≡ length_text version whole ++ (codes "\n" ++ drop end line.old) }
{
    let end = write_bytes(b"\n", line, end);
    match version {
        LedgerVersion::Two => end,
        LedgerVersion::Three => write_number_field(u64::from(whole), line, end),
    }
}

/// Writes the timestamp, the network and the number of a frame.
#[inline(always)]
#[tactic(auto, using(crate::proofs::Lengths::stamp_short))]
fn write_key(frame: &LentFrame<'_>, line: &mut [u8], end: usize) -> usize
    requires room { KEY ≤ end }
    requires within { end ≤ length line.old }
    ensures start { result ≤ end }
    ensures written { drop result line.new ≡ decimal frame.now.stamp
        ++ (word_field (network_letter frame.now.network)
        ++ (number_field frame.now.number ++ drop end line.old)) }
{
    let number = write_number_field(frame.number(), line, end);
    let network = write_bytes(network_field(frame.network()).as_bytes(), line, number);
    write_digits(frame.stamp().0, line, network)
}

/// Writes the line of a frame at the end of the room, and returns where it starts.
#[inline(always)]
#[tactic(auto, unfolding(crate::specs::Text::line_text))]
fn write_line(
    line: &mut [u8; MAX_LINE],
    version: LedgerVersion,
    frame: &LentFrame<'_>,
    verdict: &Verdict,
    keep: Option<u32>,
    mask: u8,
) -> usize
    ensures within { result ≤ MAX_LINE }
    ensures written { drop result line.new
        ≡ line_text version (entry_with frame.now verdict.now keep mask) }
{
    let end = write_length(version, frame.whole(), line, MAX_LINE);
    let end = write_mask(mask, line, end);
    let end = write_optional_field(keep, line, end);
    let end = write_verdict(verdict, line, end);
    let end = write_address(verdict.class, frame, line, end);
    write_key(frame, line, end)
}

/// Appends the line of a frame, in this version.
#[inline]
pub fn push_line(
    text: &mut Vec<u8>,
    version: LedgerVersion,
    frame: &LentFrame<'_>,
    verdict: &Verdict,
    keep: Option<u32>,
    mask: u8,
) -> Result<(), AllocError>
    ensures line { OnOk result (text.new.items
        ≡ text.old.items ++ line_text version (entry_with frame.now verdict.now keep mask)) }
    ensures memory { OnErr result (text.new.items ≡ text.old.items) }
{
    let mut line = [0; MAX_LINE];
    let start = write_line(&mut line, version, frame, verdict, keep, mask);
    text.extend_from_slice(&line[start..])
}
