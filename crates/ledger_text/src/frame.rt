//! The line of a frame.
ghost use Rattle.std.specs.Prelude.{◌≡◌, ◌≢◌, ◌^◌, [], IfSome, MatchResult, decimal, is_some};
ghost use Rattle.verdict_ledger.specs.Entry.{entry_with};
ghost use Rattle.vl_config.specs.Class.{class_word, is_addressed};
ghost use Rattle.verdict_ledger.specs.Text.{mask_text};
ghost use Rattle.ledger_text.specs.Fields.{left_of};
ghost use Rattle.ledger_text.specs.FrameText.{IsLengthRead, IsMaskOf, IsReadOf, link_fits, link_text, shown, version_of};
ghost use Rattle.ledger_text.specs.declared.fault.FrameFault.TheVariants as faults;
ghost use Rattle.verdict_ledger.specs.declared.version.LedgerVersion.TheVariants.{Two};
ghost use Rattle.ledger_text.specs.Reads.{Below, Optional, Reads, dash_or};

use crate::fault::FrameFault;
use crate::fields::Fields;
use crate::number::number_of;
use crate::words::{integrity_of, mask_of, policing_of, redundancy_of};

/// Timestamps are below 2^32 seconds, in nanoseconds.
const STAMP_BOUND: u64 = 1_000_000_000 << 32;

use afdx_frame::{LentFrame, Network, Stamp, VlId};
use verdict_ledger::LedgerVersion;
use vl_config::Class;
use vl_judge::Verdict;

/// The content of the line of a frame.
#[derive(Clone, Copy, PartialEq, Eq)]
pub struct FrameLine {
    /// The timestamp.
    pub stamp: Stamp,
    /// The network.
    pub network: Network,
    /// The index of the frame in its network's recording, from 0.
    pub number: u32,
    /// The virtual link, where the class has one.
    pub link: Option<VlId>,
    /// The sequence number, where the class has a link.
    pub sequence: Option<u8>,
    /// The verdict.
    pub verdict: Verdict,
    /// How many bytes the capture holds, where a filter accepts the frame.
    pub kept: Option<u32>,
    /// The mask of the filters that accept the frame: bit i is that of filter i.
    pub mask: u8,
    /// The frame's length on the wire, in bytes, where the ledger is of version 3.
    pub length: Option<u32>,
}

impl FrameLine {
    /// The line of version 2 of a frame that has this verdict, of which a filter keeps so many bytes, and
    /// which these filters accept.
    #[inline]
    pub fn of(frame: &LentFrame<'_>, verdict: &Verdict, kept: Option<u32>, mask: u8) -> FrameLine
        ensures { result ≡ shown Two (entry_with frame.now verdict.now kept mask) }
    {
        let (link, sequence) = if verdict.class.is_addressed() {
            (frame.view().vl(), frame.view().sequence())
        } else {
            (None, None)
        };
        FrameLine {
            stamp: frame.stamp(),
            network: frame.network(),
            number: frame.number() as u32,
            link,
            sequence,
            verdict: *verdict,
            kept,
            mask,
            length: None,
        }
    }

    /// The version of a ledger that has this line.
    #[inline]
    pub fn version(&self) -> LedgerVersion
        ensures { result ≡ version_of self.now }
    {
        match self.length {
            None => LedgerVersion::Two,
            Some(_) => LedgerVersion::Three,
        }
    }
}

/// A link, or a dash.
#[inline]
fn link_of(field: &[u8]) -> Option<Option<VlId>>
    ensures { Reads (λ link. IfSome link link_fits) (dash_or link_text) field.now result }
{
    match field {
        b"-" => Some(None),
        _ => Some(Some(VlId(number_of(field, 1 << 16)? as u16))),
    }
}

/// A sequence number where there is a link, and a dash elsewhere.
#[inline(always)]
fn sequence_of(field: &[u8], link: Option<VlId>) -> Option<Option<u8>>
    ensures { Reads (Optional (Below (2 ^ 8)) (is_some link)) (dash_or decimal) field.now result }
{
    match field {
        _ if link.is_some() => Some(Some(number_of(field, 1 << 8)? as u8)),
        b"-" => Some(None),
        _ => None,
    }
}

/// A class that has a link, or one that has none, as the line does.
#[inline(always)]
fn class_with(field: &[u8], link: Option<VlId>) -> Option<Class>
    ensures { Reads (λ class. is_addressed class ≡ is_some link) class_word field.now result }
{
    let class = Class::from_word(field)?;
    if class.is_addressed() == link.is_some() {
        Some(class)
    } else {
        None
    }
}

/// A count of bytes, or a dash.
#[inline]
fn kept_of(field: &[u8]) -> Option<Option<u32>>
    ensures { Reads (λ kept. IfSome kept (Below (2 ^ 32))) (dash_or decimal) field.now result }
{
    match field {
        b"-" => Some(None),
        _ => Some(Some(number_of(field, 1 << 32)? as u32)),
    }
}

/// A mask that names a filter where bytes are kept, and none elsewhere.
#[inline(always)]
fn mask_with(field: &[u8], kept: Option<u32>) -> Option<u8>
    ensures { Reads (IsMaskOf kept) mask_text field.now result }
{
    let mask = mask_of(field)?;
    if (mask > 0) == kept.is_some() {
        Some(mask)
    } else {
        None
    }
}

/// The length, if no field is left after it.
#[inline(always)]
fn last_of(length: Option<u32>, fields: Fields<'_>) -> Result<Option<u32>, FrameFault>
    ensures { MatchResult result (λ last. (last ≡ length) × (left_of fields.entry ≡ []))
        (λ fault. (fault ≡ faults.Fields) × (left_of fields.entry ≢ [])) }
{
    if fields.is_at_end() {
        Ok(length)
    } else {
        Err(FrameFault::Fields)
    }
}

/// The length on the wire, where a line of this version has it, if that is all that is left.
#[inline(always)]
fn length_of(version: LedgerVersion, mut fields: Fields<'_>) -> Result<Option<u32>, FrameFault>
    ensures { IsLengthRead version (left_of fields.entry) result }
{
    match version {
        LedgerVersion::Two => last_of(None, fields),
        LedgerVersion::Three => {
            let length = number_of(fields.next(), 1 << 32).ok_or(FrameFault::Length)?;
            last_of(Some(length as u32), fields)
        }
    }
}

/// Reads the line of a frame of a ledger of this version, without its newline.
#[inline]
pub fn read_frame(version: LedgerVersion, line: &[u8]) -> Result<FrameLine, FrameFault>
    ensures { IsReadOf version line.now result }
{
    let mut fields = Fields::new(line);
    let stamp = number_of(fields.next(), STAMP_BOUND).ok_or(FrameFault::Timestamp)?;
    let network = Network::from_letter(fields.next()).ok_or(FrameFault::Network)?;
    let number = number_of(fields.next(), 1 << 32).ok_or(FrameFault::Index)?;
    let link = link_of(fields.next()).ok_or(FrameFault::Link)?;
    let sequence = sequence_of(fields.next(), link).ok_or(FrameFault::Sequence)?;
    let class = class_with(fields.next(), link).ok_or(FrameFault::Class)?;
    let policing = policing_of(fields.next(), class).ok_or(FrameFault::Policing)?;
    let integrity = integrity_of(fields.next(), policing).ok_or(FrameFault::Integrity)?;
    let redundancy = redundancy_of(fields.next(), integrity).ok_or(FrameFault::Redundancy)?;
    let verdict = Verdict {
        class,
        policing,
        integrity,
        redundancy,
    };
    let kept = kept_of(fields.next()).ok_or(FrameFault::Kept)?;
    let mask = mask_with(fields.next(), kept).ok_or(FrameFault::Mask)?;
    let length = length_of(version, fields)?;
    Ok(FrameLine {
        stamp: Stamp(stamp),
        network,
        number: number as u32,
        link,
        sequence,
        verdict,
        kept,
        mask,
        length,
    })
}
