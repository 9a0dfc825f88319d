//! The text of a draft.

use crate::estimate::{Estimate, MAX_JITTER_US};
use crate::known::Drafted;
use afdx_frame::Stamp;
use jiff::Timestamp;
use pcap_io::Ending;
use std::alloc::AllocError;
use std::fmt;
use std::fmt::{Display, Formatter};
use traffic_survey::{Arrivals, Field, LinkSurvey, Recorded, Survey};

/// How a draft begins.
pub const HEADER: &str = "\
# A draft of the table of virtual links: what was seen in recordings, and not what was specified.
# Check each value against the ICD.
";

/// How a draft begins that a document has a part in.
pub const ICD_HEADER: &str = "\
# A draft of the table of virtual links: what an ICD specifies, and what was seen in \
recordings where it leaves a value out.
";

/// A length of time in nanoseconds, rounded half up to a microsecond, from 1 ms on to three digits, and from
/// 1 s on to a millisecond.
#[derive(Clone, Copy)]
struct About(u64);

impl Display for About {
    fn fmt<W: fmt::Write>(&self, f: &mut Formatter<W>) -> fmt::Result {
        // Half of the last digit.
        let half = match self.0 {
            0..=999_999 => 500,
            1_000_000..=9_999_999 => 5_000,
            10_000_000..=99_999_999 => 50_000,
            _ => 500_000,
        };
        let micros = (self.0 / half).div_ceil(2).saturating_mul(half / 500);
        let (millis, rest) = (micros / 1000, micros % 1000);
        if millis == 0 {
            write!(f, "{micros} us")
        } else if rest == 0 {
            write!(f, "{millis} ms")
        } else if rest % 100 == 0 {
            let tenths = rest / 100;
            write!(f, "{millis}.{tenths} ms")
        } else {
            let hundredths = rest / 10;
            write!(f, "{millis}.{hundredths:02} ms")
        }
    }
}

/// A number of frames.
#[derive(Clone, Copy)]
struct Frames(u64);

impl Display for Frames {
    fn fmt<W: fmt::Write>(&self, f: &mut Formatter<W>) -> fmt::Result {
        let count = self.0;
        match count {
            1 => f.write_str("1 frame"),
            _ => write!(f, "{count} frames"),
        }
    }
}

/// A time in UTC, as RFC 3339 writes it.
#[derive(Clone, Copy)]
struct DraftTime(Stamp);

impl Display for DraftTime {
    fn fmt<W: fmt::Write>(&self, f: &mut Formatter<W>) -> fmt::Result {
        let nanos = self.0.0;
        match Timestamp::from_nanosecond(i128::from(nanos)) {
            Ok(timestamp) => write!(f, "{timestamp}"),
            Err(_) => write!(f, "{nanos} ns"),
        }
    }
}

/// How a network's recording was read.
pub fn write_ending(
    text: &mut String,
    network: &str,
    recorded: Option<Recorded>,
) -> Result<(), AllocError> {
    match recorded.map(|recorded| recorded.ending) {
        None => Ok(()),
        Some(Ending::Clean(frames)) => {
            let frames = Frames(frames);
            write!(text, "# Network {network}: {frames}.\n")
        }
        Some(Ending::Cut(frames)) => {
            let frames = Frames(frames);
            write!(
                text,
                "# Network {network}: {frames}, then the recording is truncated.\n"
            )
        }
        Some(Ending::Bad(frames, _)) => {
            let frames = Frames(frames);
            write!(
                text,
                "# Network {network}: {frames}, then a packet that can't be read.\n"
            )
        }
    }
}

/// The constant field, and in comments the others.
pub fn write_constants(text: &mut String, survey: &Survey, main: &Field) -> Result<(), AllocError> {
    for field in &survey.fields {
        if field.constant != main.constant {
            let (constant, frames) = (field.constant, Frames(field.frames));
            write!(text, "# Another constant field: {constant}, in {frames}.\n")?;
        }
    }
    match survey.others {
        0 => {}
        1 => text.push_str("# 1 frame has a further constant field.\n")?,
        others => write!(text, "# {others} frames have further constant fields.\n")?,
    }
    match main.links.refused {
        0 => {}
        1 => text.push_str("# 1 frame is of a link beyond the first 4096.\n")?,
        refused => {
            write!(
                text,
                "# {refused} frames are of links beyond the first 4096.\n"
            )?
        }
    }
    let (constant, frames) = (main.constant, Frames(main.frames));
    write!(text, "\nconstant = {constant}  # {frames}\n")
}

/// How many frames no draft is made of.
pub fn write_unusable(text: &mut String, unusable: u64) -> Result<(), AllocError> {
    match unusable {
        0 => Ok(()),
        1 => text.push_str("# 1 frame wasn't recorded whole, or isn't of 60 to 1514 bytes.\n"),
        _ => {
            write!(
                text,
                "# {unusable} frames weren't recorded whole, or aren't of 60 to 1514 bytes.\n"
            )
        }
    }
}

/// In comments what was seen of a link, which the draft has with this BAG.
pub fn write_seen(text: &mut String, link: &LinkSurvey, bag_ms: u64) -> Result<(), AllocError> {
    write_arrivals(text, "A", &link.a)?;
    write_arrivals(text, "B", &link.b)?;
    write_need(text, "A", &link.a, bag_ms)?;
    write_need(text, "B", &link.b, bag_ms)?;
    let copies = Frames(link.copies.count);
    write!(text, "# {copies} came on both networks.\n")
}

/// The keys of a link.
pub fn write_keys(text: &mut String, drafted: &Drafted) -> Result<(), AllocError> {
    let (id, name) = (drafted.id.0, drafted.name.as_str());
    let Estimate {
        bag_ms,
        jitter_us,
        smax,
        integrity,
        redundancy,
        skew_us,
    } = drafted.values;
    write!(text, "id = {id}\nname = \"{name}\"\n")?;
    write!(text, "bag_ms = {bag_ms}\njitter_us = {jitter_us}\n")?;
    write!(
        text,
        "smax = {smax}\nintegrity = {integrity}\nredundancy = {redundancy}\n"
    )?;
    write!(text, "skew_us = {skew_us}\n")?;
    match &drafted.group {
        Some(group) => {
            let group = group.as_str();
            write!(text, "group = \"{group}\"\n")
        }
        None => Ok(()),
    }
}

/// Writes the arrivals of a link on a network.
fn write_arrivals(text: &mut String, network: &str, arrivals: &Arrivals) -> Result<(), AllocError> {
    let frames = match arrivals.frames {
        0 => return write!(text, "# {network}: no frame.\n"),
        1 => return write!(text, "# {network}: 1 frame.\n"),
        frames => frames,
    };
    let (follow, others) = (arrivals.numbering.next, arrivals.numbering.others);
    write!(
        text,
        "# {network}: {frames} frames; of their numbers {follow} follow, {others} don't.\n"
    )?;
    let gaps = &arrivals.gaps;
    let Some(median) = gaps.median() else {
        return Ok(());
    };
    let (least, greatest) = (gaps.least / 1000, gaps.greatest / 1000);
    // The median's bucket may begin below the least interval.
    let about = About(median.from.max(gaps.least));
    write!(
        text,
        "# {network}: intervals {least} to {greatest} us, median about {about}.\n"
    )
}

/// Writes the jitter that the frames of a network need.
fn write_need(
    text: &mut String,
    network: &str,
    arrivals: &Arrivals,
    bag_ms: u64,
) -> Result<(), AllocError> {
    let Some(need) = arrivals.needs.at(bag_ms) else {
        return Ok(());
    };
    let needed = need.greatest.div_ceil(1000);
    if needed == 0 {
        return Ok(());
    }
    let at = DraftTime(need.at);
    write!(text, "# {network}: largest need {needed} us, at {at}")?;
    if needed > MAX_JITTER_US {
        text.push_str(", more than a table allows")?;
    }
    match need.all_but(arrivals.frames / 1000) {
        // Where nearly all frames need as much as the one, that says nothing.
        Some(below) if below < needed => {
            write!(
                text,
                "; all but 0.1 per cent of the frames need less than {below} us.\n"
            )
        }
        _ => text.push_str(".\n"),
    }
}
