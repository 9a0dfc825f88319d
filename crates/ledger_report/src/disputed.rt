//! Of a line that contradicts the table, which link it is about, and how both differ.

use crate::accounts::Unheld;
use crate::fault::WrongLine;
use crate::frame_lines::FrameLines;
use afdx_frame::VlId;
use ledger_text::{FrameLine, read_frame};
use std::alloc::Global;
use verdict_ledger::LedgerVersion;
use vl_config::Config;

/// How a line and the table differ on a link.
#[derive(Drop)]
pub enum Difference {
    /// The table doesn't have the link.
    Lacks,
    /// The table has the link, and the line says that it hasn't.
    Has,
    /// A check is on in one of them, and off in the other.
    Checks,
    /// The line is a copy so many nanoseconds after its delivery, more than the table's SkewMax.
    Skew { apart: u64, most: u64 },
    /// The link has this name in the line, and another one in the table.
    Named(String),
    /// The table has the link, and the lines of counts don't.
    Uncounted,
    /// The line has a verdict that no account of the link in the table gives.
    Unheld(Unheld),
}

/// A link on which a line and the table differ.
#[derive(Drop)]
pub struct Disputed {
    pub id: VlId,
    pub how: Difference,
}

impl Disputed {
    /// Of the line of a frame. None: the table isn't what is wrong.
    pub(crate) fn of_frame(
        config: &Config,
        frames: &FrameLines,
        line: &[u8],
        wrong: WrongLine,
    ) -> Option<Disputed> {
        let line = frame_of(line)?;
        let id = line.link?;
        let how = match wrong {
            WrongLine::UnknownLink => Difference::Lacks,
            WrongLine::KnownLink => Difference::Has,
            WrongLine::Off => Difference::Checks,
            WrongLine::Skew => {
                Difference::Skew {
                    apart: frames.late_by(&line)?,
                    most: config.link(id)?.skew,
                }
            }
            _ => return None,
        };
        Some(Disputed { id, how })
    }

    /// Of a line of counts that stands after those of so many links. None: the table isn't what is wrong.
    pub(crate) fn of_counts(
        alloc: Global,
        config: &Config,
        links: usize,
        line: &[u8],
    ) -> Option<Disputed> {
        let next = config.links().get(links);
        let Some(counts) = line.strip_prefix("link ".as_bytes()) else {
            return Some(Disputed {
                id: next?.id,
                how: Difference::Uncounted,
            });
        };
        let (id, name) = link_in(counts)?;
        let Some(link) = config.link(id) else {
            return Some(Disputed {
                id,
                how: Difference::Lacks,
            });
        };
        if link.name.as_str() != name {
            let name = String::from_str(alloc, name).ok()?;
            return Some(Disputed {
                id,
                how: Difference::Named(name),
            });
        }
        let next = next?.id;
        // The line of a link before it is a second one.
        if id.0 <= next.0 {
            return None;
        }
        Some(Disputed {
            id: next,
            how: Difference::Uncounted,
        })
    }
}

/// The line of a frame of either version. None: it isn't of that form.
fn frame_of(line: &[u8]) -> Option<FrameLine> {
    match read_frame(LedgerVersion::Two, line) {
        Ok(line) => Some(line),
        Err(_) => read_frame(LedgerVersion::Three, line).ok(),
    }
}

/// The link of a line of counts and its name, after the line's first word. None: it isn't of that form.
fn link_in(counts: &[u8]) -> Option<(VlId, &str)> {
    let mut words = str::from_utf8(counts).ok()?.split(' ');
    let id = words.next()?.parse::<u16>().ok()?;
    let name = words.next()?;
    if words.next()? == "frames" {
        Some((VlId(id), name))
    } else {
        None
    }
}
