//! The links that a draft leaves out.

use crate::draft::Sources;
use afdx_frame::VlId;
use std::fmt;
use std::fmt::{Display, Formatter};

/// How many links are named.
const NAMED: u32 = 8;

/// The links that a draft leaves out, since none of their frames was recorded whole. Its text is
/// their identifiers: `101, 102`, or the first eight `and 3 more`.
#[derive(Clone, Copy)]
pub struct LeftOut<'a>(pub &'a Sources<'a>);

impl LeftOut<'_> {
    /// Is a link left out? It isn't specified, and no frame of it was recorded whole.
    fn has(&self, id: VlId) -> bool {
        let sources = self.0;
        let Some(constant) = sources.cut.constant_of(id) else {
            return false;
        };
        let main = sources.survey.main_field();
        let (drafted, is_seen) = match (main, sources.constant) {
            (Some(main), _) => (main.constant, main.links.link(id).is_some()),
            (None, Some(wanted)) => (wanted, false),
            (None, None) => (constant, false),
        };
        let is_specified = match sources.icd {
            Some(icd) => icd.links().iter().any(|link| link.id == id),
            None => false,
        };
        constant == drafted && !is_seen && !is_specified
    }

    /// Is none left out?
    pub fn is_empty(&self) -> bool {
        for id in 0..=u16::MAX {
            if self.has(VlId(id)) {
                return false;
            }
        }
        true
    }
}

impl Display for LeftOut<'_> {
    fn fmt<W: fmt::Write>(&self, f: &mut Formatter<W>) -> fmt::Result {
        let mut count = 0u32;
        for id in 0..=u16::MAX {
            if !self.has(VlId(id)) {
                continue;
            }
            if count > 0 && count < NAMED {
                f.write_str(", ")?;
            }
            if count < NAMED {
                write!(f, "{id}")?;
            }
            count = count.saturating_add(1);
        }
        let more = count.saturating_sub(NAMED);
        if more > 0 {
            write!(f, " and {more} more")?;
        }
        Ok(())
    }
}

/// The links that were seen and that the document lacks, with the frames of each: `999 (4 frames)`, or the
/// first eight `and 3 more`.
#[derive(Clone, Copy)]
pub struct Unspecified<'a>(pub &'a Sources<'a>);

impl Unspecified<'_> {
    /// How many frames were seen of a link that the document lacks.
    fn frames(&self, id: VlId) -> u64 {
        let Some(icd) = self.0.icd else {
            return 0;
        };
        let seen = match self.0.survey.main_field() {
            Some(main) => main.links.link(id),
            None => None,
        };
        match seen {
            Some(seen) if !icd.links().iter().any(|link| link.id == id) => {
                seen.a.frames.saturating_add(seen.b.frames)
            }
            _ => 0,
        }
    }

    /// Is there none?
    pub fn is_empty(&self) -> bool {
        for id in 0..=u16::MAX {
            if self.frames(VlId(id)) > 0 {
                return false;
            }
        }
        true
    }
}

impl Display for Unspecified<'_> {
    fn fmt<W: fmt::Write>(&self, f: &mut Formatter<W>) -> fmt::Result {
        let mut count = 0u32;
        for id in 0..=u16::MAX {
            let frames = self.frames(VlId(id));
            if frames == 0 {
                continue;
            }
            if count < NAMED {
                let before = if count > 0 { ", " } else { "" };
                let ending = if frames == 1 { "" } else { "s" };
                write!(f, "{before}{id} ({frames} frame{ending})")?;
            }
            count = count.saturating_add(1);
        }
        let more = count.saturating_sub(NAMED);
        if more > 0 {
            write!(f, " and {more} more")?;
        }
        Ok(())
    }
}
