//! A ledger's lines of frames, each checked against the table and the lines before it.

ghost use Rattle.std.specs.Prelude.{◌≡◌, List, [], ◌∷◌, Option, IfOk, OnOk, find};
ghost use Rattle.std.specs.Option.{option_map};
ghost use Rattle.ledger_text.specs.declared.frame.FrameLine.{FrameLine};
ghost use Rattle.ledger_report.specs.FrameLines.{HasTaken, delivered_of};
ghost use Rattle.ledger_report.specs.Held.{held_in};
ghost use Rattle.ledger_report.specs.Wrongs.{TellsWrong, is_link_wrong, is_off_against, is_unconfigured};
ghost use Rattle.ledger_report.specs.Wrongs.{is_unordered, key_of, number_of, wrong_of};
ghost use Rattle.ledger_report.specs.declared.fault.WrongLine.TheVariants as wrongs;

use crate::counts::is_on;
use crate::deliveries::{Delivered, Deliveries};
use crate::fault::{Refusal, WrongLine};
use afdx_frame::{Key, key_order};
use integrity::Integrity;
use ledger_text::FrameLine;
use redundancy::Redundancy;
use std::alloc::{AllocError, Global};
use vl_config::{Class, Config, Link};

/// The greatest SkewMax that a table can have, in nanoseconds. `vl_config` has it as the range of its key.
const MAX_SKEW: u64 = 1_000_000_000;

/// How many numbers a link delivers after one before an equal one counts as another: half of all there are.
const SINCE: usize = 128;

/// The demands of the lines of frames so far on the next one.
#[derive(Drop)]
pub struct FrameLines {
    /// Where the latest line's frame stands in the order of both networks.
    latest: Option<Key>,
    deliveries: Deliveries,
}

/// Where a line's frame stands in the order of both networks.
#[inline]
fn key_of(line: &FrameLine) -> Key
    ensures { result ≡ key_of line.now }
{
    Key {
        stamp: line.stamp,
        network: line.network,
        number: u64::from(line.number),
    }
}

/// Does the line say that the table doesn't have its link?
#[inline]
fn is_unconfigured(line: &FrameLine) -> bool
    ensures { result ≡ is_unconfigured line.now }
{
    matches!(line.verdict.class, Class::Unconfigured)
}

/// Its sequence number; 0 where it has none.
#[inline]
fn number_of(line: &FrameLine) -> u8
    ensures { result ≡ number_of line.now }
{
    line.sequence.unwrap_or(0)
}

/// Is integrity checking or redundancy management off in the line and on in the table, or the other way
/// round?
#[inline]
fn is_off_against(link: &Link, line: &FrameLine) -> bool
    ensures { result ≡ is_off_against link.now line.now }
{
    let integrity = match line.verdict.integrity {
        Some(word) => (word == Integrity::Off) == link.integrity,
        None => false,
    };
    let redundancy = match line.verdict.redundancy {
        Some(word) => (word == Redundancy::Both) == link.redundancy,
        None => false,
    };
    integrity || redundancy
}

impl FrameLines {
    pub(crate) fn new(alloc: Global) -> Result<FrameLines, AllocError>
        ensures { IfOk result (HasTaken []) }
    {
        Ok(FrameLines {
            latest: None,
            deliveries: Deliveries::new(alloc)?,
        })
    }

    /// Takes the ledger's next line of a frame, which is refused for what is wrong with it.
    #[inline]
    pub(crate) fn take(&mut self, config: &Config, line: &FrameLine) -> Result<(), Refusal>
        ensures wrong { (before : List FrameLine) → HasTaken before self.old
            → TellsWrong (wrong_of config.now.links before line.now) result }
        ensures taken { OnOk result ((before : List FrameLine) → HasTaken before self.old
            → HasTaken (line.now ∷ before) self.new) }
    {
        if let Some(wrong) = self.wrong(config, line) {
            return Err(Refusal::Wrong(wrong));
        }
        self.note(line)?;
        Ok(())
    }

    /// The latest delivery of a line's number, on its link.
    #[inline]
    pub(crate) fn delivery_of(&self, line: &FrameLine) -> Option<Delivered> {
        self.deliveries.latest(line.link?, number_of(line))
    }

    /// The fault of the next line: the first that holds.
    #[inline]
    fn wrong(&self, config: &Config, line: &FrameLine) -> Option<WrongLine>
        ensures { (before : List FrameLine) → HasTaken before self.now
            → result ≡ wrong_of config.now.links before line.now }
    {
        if self.is_unordered(key_of(line)) {
            return Some(WrongLine::Order);
        }
        let Some(id) = line.link else {
            return None;
        };
        match config.link(id) {
            Some(_) if is_unconfigured(line) => Some(WrongLine::KnownLink),
            Some(link) if is_off_against(link, line) => Some(WrongLine::Off),
            Some(link) => self.copy_wrong(link, line),
            None if is_unconfigured(line) => None,
            None => Some(WrongLine::UnknownLink),
        }
    }

    /// Isn't it later than the latest line?
    #[inline]
    fn is_unordered(&self, key: Key) -> bool
        ensures { result ≡ is_unordered self.now.latest key }
    {
        match self.latest {
            Some(latest) => {
                key_order();
                !(latest < key)
            }
            None => false,
        }
    }

    /// The fault of a line of this link, where it is a copy.
    #[inline]
    fn copy_wrong(&self, link: &Link, line: &FrameLine) -> Option<WrongLine>
        ensures { (delivery : Option FrameLine)
            → held_in self.now.deliveries.links.items link.now.id.0 (number_of line.now)
            ≡ option_map delivered_of delivery
            → result ≡ find (is_link_wrong link.now delivery line.now) (wrongs.Copy ∷ wrongs.Skew ∷ []) }
    {
        if !line.verdict.is_copy() {
            return None;
        }
        match self.deliveries.latest(link.id, number_of(line)) {
            Some(before) if !is_on(before.network, line) => {
                let skew = line.stamp.0.saturating_sub(before.stamp);
                if skew > link.skew {
                    Some(WrongLine::Skew)
                } else {
                    None
                }
            }
            _ => Some(WrongLine::Copy),
        }
    }

    /// How many nanoseconds a line's copy comes after its delivery. None: that is so long ago, or the link
    /// has delivered so much since, that another frame may have had the number.
    pub(crate) fn late_by(&self, line: &FrameLine) -> Option<u64> {
        let id = line.link?;
        let delivered = self.deliveries.latest(id, number_of(line))?.stamp;
        let late = line.stamp.0.saturating_sub(delivered);
        if late > MAX_SKEW || self.deliveries.count_after(id, delivered) >= SINCE {
            return None;
        }
        Some(late)
    }

    /// Remembers the line.
    #[inline]
    fn note(&mut self, line: &FrameLine) -> Result<(), AllocError>
        ensures { OnOk result ((before : List FrameLine) → HasTaken before self.old
            → HasTaken (line.now ∷ before) self.new) }
    {
        self.latest = Some(key_of(line));
        match line.link {
            Some(id) if line.verdict.is_delivered() => {
                let delivered = Delivered {
                    network: line.network,
                    stamp: line.stamp.0,
                };
                self.deliveries.note(id, number_of(line), delivered)
            }
            _ => Ok(()),
        }
    }
}
