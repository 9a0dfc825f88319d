//! In comments, how a link was seen beside what is specified of it.

use crate::differences::{Difference, Stand, differences, has};
use crate::known::Known;
use crate::recordings::Recordings;
use std::alloc::AllocError;
use std::fmt;
use std::fmt::{Display, Formatter};

/// How many characters of a text a comment has.
const MAX_COMMENTED: usize = 200;

/// How many links were seen otherwise than they are specified.
#[derive(Clone, Copy, PartialEq, Eq)]
pub struct Comparison {
    /// Links whose frames contradict what is specified.
    pub beyond: u32,
    /// Other links that were seen otherwise, within what is specified.
    pub within: u32,
    /// Links that are specified, and of which the recordings have no frame.
    pub unseen: u32,
    /// Links that were seen, and aren't specified.
    pub unspecified: u32,
}

impl Comparison {
    /// Of no link.
    pub fn new() -> Comparison {
        Comparison {
            beyond: 0,
            within: 0,
            unseen: 0,
            unspecified: 0,
        }
    }

    /// Is there nothing to tell?
    pub fn is_empty(&self) -> bool {
        *self == Comparison::new()
    }
}

/// How many links there are of each kind that has some.
impl Display for Comparison {
    fn fmt<W: fmt::Write>(&self, f: &mut Formatter<W>) -> fmt::Result {
        let counts = [
            ("links seen beyond the ICD", self.beyond),
            ("within it", self.within),
            ("not seen", self.unseen),
            ("seen and not in it", self.unspecified),
        ];
        let mut before = "";
        for (kind, count) in counts {
            if count > 0 {
                write!(f, "{before}{kind}: {count}")?;
                before = ", ";
            }
        }
        Ok(())
    }
}

/// A text of a document, as a comment of TOML may have it: the first 200 characters, of which the controls
/// stand escaped, and `..` for further ones.
#[derive(Clone, Copy)]
struct Commented<'a>(&'a str);

impl Display for Commented<'_> {
    fn fmt<W: fmt::Write>(&self, f: &mut Formatter<W>) -> fmt::Result {
        for (count, character) in self.0.chars().enumerate() {
            if count == MAX_COMMENTED {
                return f.write_str("..");
            }
            if character.is_control() {
                let code = u32::from(character);
                write!(f, "\\u{{{code:x}}}")?;
            } else {
                f.write_char(character)?;
            }
        }
        Ok(())
    }
}

/// Says how the frames of a link, which the draft has with this BAG, stand to what is specified of it, and
/// counts it.
pub fn write_beside(
    text: &mut String,
    link: &Known<'_>,
    bag_ms: u64,
    recordings: Recordings,
    comparison: &mut Comparison,
) -> Result<(), AllocError> {
    let Some(specified) = link.specified else {
        return Ok(());
    };
    if let Some(original) = &specified.original {
        let shown = Commented(original);
        write!(text, "# Its name in the ICD: \"{shown}\".\n")?;
    }
    if link.seen.is_none() && recordings.is_any() {
        comparison.unseen = comparison.unseen.saturating_add(1);
        text.push_str("# No frame was seen.\n")?;
    }
    let seen = link.seen_beside(bag_ms, recordings.are_both());
    let all = differences(specified, &seen);
    write_stand(
        text,
        "# Not in the ICD, but seen:",
        &all,
        Stand::Unspecified,
    )?;
    write_stand(text, "# Neither in the ICD nor seen:", &all, Stand::Unknown)?;
    write_stand(text, "# Seen beyond the ICD:", &all, Stand::Beyond)?;
    write_stand(text, "# Seen within the ICD:", &all, Stand::Within)?;
    if has(&all, Stand::Beyond) {
        comparison.beyond = comparison.beyond.saturating_add(1);
    } else if has(&all, Stand::Within) {
        comparison.within = comparison.within.saturating_add(1);
    }
    Ok(())
}

/// Says which keys stand so, if there are any, and what was seen of those that are specified.
fn write_stand(
    text: &mut String,
    heading: &str,
    differences: &[Difference],
    stand: Stand,
) -> Result<(), AllocError> {
    let mut before = heading;
    for difference in differences {
        if difference.stand == stand {
            let name = difference.key.name();
            write!(text, "{before} {name}")?;
            match (stand, difference.seen) {
                (Stand::Beyond | Stand::Within, Some(seen)) => write!(text, " {seen}")?,
                _ => {}
            }
            before = ",";
        }
    }
    if before == "," {
        text.push_str(".\n")
    } else {
        Ok(())
    }
}
