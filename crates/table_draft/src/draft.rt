//! A draft: its text, and how what was seen stands to what is specified.

ghost use Rattle.std.specs.Prelude.{◌≡◌, IfOk, None, string_bytes};
ghost use Rattle.vl_config.specs.Document.{first_fault};
ghost use Rattle.table_draft.specs.Drafts.{ReadsBack};

use crate::beside::{Comparison, write_beside};
use crate::checked::is_table_of;
use crate::known::{Drafted, Known};
use crate::left_out::LeftOut;
use crate::recordings::Recordings;
use crate::text::{
    HEADER, ICD_HEADER, write_constants, write_ending, write_keys, write_seen, write_unusable,
};
use afdx_frame::VlId;
use icd_links::IcdLinks;
use std::alloc::{AllocError, Global};
use traffic_survey::{CutLinks, Field, LinkSurvey, Survey};
use vl_config::{Config, ConfigFault};

/// The constant field of a draft where none was seen or asked for: the bits of a group address, locally
/// administered (IEEE 802.3), and nothing else.
const USUAL_CONSTANT: u32 = 0x0300_0000;

/// The sources of a draft.
#[derive(Clone, Copy)]
pub struct Sources<'a> {
    /// The frames as they were seen.
    pub survey: &'a Survey,
    /// The links of frames that weren't recorded whole.
    pub cut: &'a CutLinks,
    pub recordings: Recordings,
    /// The constant field that was asked for.
    pub constant: Option<u32>,
    /// The links as they are specified.
    pub icd: Option<&'a IcdLinks>,
}

/// The draft of a table.
#[derive(Drop)]
pub struct Draft {
    /// A TOML document that [`Config::read`] takes. The table that it says has what follows, and no filter.
    pub text: String,
    /// The constant field.
    pub constant: u32,
    /// The window for late timestamps, in microseconds.
    pub late_us: u64,
    /// The links, by rising identifier.
    pub links: Vec<Drafted>,
    /// How what was seen stands to what is specified.
    pub comparison: Comparison,
}

/// Why there is no draft.
#[derive(Clone, Copy, PartialEq, Eq)]
pub enum DraftFault {
    /// Its links make no table: there are more than 4096, or two have one name.
    NoTable(ConfigFault),
    /// The text that was written says another table than the draft is to have. No input is known that leads
    /// here.
    Unlike,
    /// The system is out of memory, at whatever piece of the text.
    Memory,
}

impl From<AllocError> for DraftFault {
    fn from(_e: AllocError) -> DraftFault {
        DraftFault::Memory
    }
}

/// The draft of a table, a TOML document. It is read back before it is given: [`Config::read`] takes it, and
/// the table has the constant field, and the links that the document specifies, or without a document those
/// that were seen, each with its values, and no other. Links that the document lacks stand in comments.
///
/// # Errors
///
/// `NoTable` if the document and the recordings have more than 4096 links together, or the document gives a
/// link the name that the draft has for another. `Memory` if the system is out of memory.
pub fn draft_of(alloc: Global, sources: &Sources<'_>) -> Result<Draft, DraftFault>
    ensures no_fault { IfOk result (λ draft. first_fault (string_bytes draft.text) ≡ None) }
    ensures reads_back { IfOk result ReadsBack }
{
    let draft = written(alloc, sources)?;
    match Config::read(alloc, draft.text.as_str()) {
        Ok(table) if is_table_of(&table, &draft) => Ok(draft),
        Ok(_) => Err(DraftFault::Unlike),
        Err(ConfigFault::Memory) => Err(DraftFault::Memory),
        Err(fault) => Err(DraftFault::NoTable(fault)),
    }
}

/// The draft, as it is written before it is read back.
fn written(alloc: Global, sources: &Sources<'_>) -> Result<Draft, AllocError> {
    let main = sources.survey.main_field();
    let constant = match main {
        Some(main) => main.constant,
        None => sources.constant.unwrap_or(USUAL_CONSTANT),
    };
    let mut draft = Draft {
        text: String::new(alloc),
        constant,
        late_us: sources.recordings.window_us(),
        links: Vec::new(alloc),
        comparison: Comparison::new(),
    };
    write_head(&mut draft.text, sources)?;
    write_constant(&mut draft.text, sources, main, constant)?;
    write_window(&mut draft.text, sources.recordings, draft.late_us)?;
    write_links(alloc, &mut draft, sources, main)?;
    Ok(draft)
}

/// Writes the draft's head: its title, and how the recordings were read.
fn write_head(text: &mut String, sources: &Sources<'_>) -> Result<(), AllocError> {
    match sources.icd {
        Some(_) => text.push_str(ICD_HEADER)?,
        None => text.push_str(HEADER)?,
    }
    write_ending(text, "A", sources.recordings.a)?;
    write_ending(text, "B", sources.recordings.b)?;
    write_unusable(text, sources.survey.unusable)?;
    write_left_out(text, LeftOut(sources))
}

/// Which links the draft leaves out.
fn write_left_out(text: &mut String, links: LeftOut<'_>) -> Result<(), AllocError> {
    if links.is_empty() {
        return Ok(());
    }
    write!(
        text,
        "# Links that aren't here, since all their frames are cut short: {links}.\n"
    )
}

/// Why a draft has a constant field that no frame has.
fn absent_constant(sources: &Sources<'_>) -> &'static str {
    if !sources.recordings.is_any() {
        "No recording was given"
    } else if sources.constant.is_some() {
        "No frame has this constant field"
    } else {
        "No frame has a constant field with bits 24 and 25 set"
    }
}

/// The constant field.
fn write_constant(
    text: &mut String,
    sources: &Sources<'_>,
    main: Option<&Field>,
    constant: u32,
) -> Result<(), AllocError> {
    if let Some(main) = main {
        return write_constants(text, sources.survey, main);
    }
    let absent = absent_constant(sources);
    write!(text, "# {absent}")?;
    if sources.constant.is_none() {
        write!(text, ": 0x{constant:08x} is assumed")?;
    }
    write!(text, ".\nconstant = {constant}\n")
}

/// The window for late timestamps.
fn write_window(text: &mut String, recordings: Recordings, late_us: u64) -> Result<(), AllocError> {
    write!(
        text,
        "late_us = {late_us}  # room for timestamps out of order"
    )?;
    if !recordings.is_any() {
        return text.push_str(": no recording was given\n");
    }
    match recordings.late_us() {
        0 => text.push_str(": none was seen\n"),
        late => write!(text, ": one was {late} us late\n"),
    }
}

/// The links that are specified or seen, by rising identifier.
fn write_links(
    alloc: Global,
    draft: &mut Draft,
    sources: &Sources<'_>,
    main: Option<&Field>,
) -> Result<(), AllocError> {
    // The links of the document come by rising identifier too: so many of them were met.
    let mut met = 0usize;
    for id in 0u16..=u16::MAX {
        let link = known_of(sources.icd, met, main, VlId(id));
        met = met.saturating_add(usize::from(link.specified.is_some()));
        if link.is_any() {
            let drafted = link.drafted(alloc)?;
            match link.seen {
                Some(seen) if sources.icd.is_some() && link.specified.is_none() => {
                    write_unspecified(alloc, draft, seen, &drafted)?;
                }
                _ => {
                    write_link(draft, sources, &link, &drafted)?;
                    draft.links.push(drafted)?;
                }
            }
        }
    }
    Ok(())
}

/// The knowledge of a link: the document's next link, if it is this one, and the frames that were seen.
fn known_of<'a>(
    icd: Option<&'a IcdLinks>,
    next: usize,
    main: Option<&'a Field>,
    id: VlId,
) -> Known<'a> {
    let next = icd.and_then(|icd| icd.links().get(next));
    Known {
        id,
        specified: next.filter(|link| link.id == id),
        seen: main.and_then(|main| main.links.link(id)),
    }
}

/// A link's table.
fn write_link(
    draft: &mut Draft,
    sources: &Sources<'_>,
    link: &Known<'_>,
    drafted: &Drafted,
) -> Result<(), AllocError> {
    let (text, bag_ms) = (&mut draft.text, drafted.values.bag_ms);
    text.push_str("\n[[link]]\n")?;
    if let Some(seen) = link.seen {
        write_seen(text, seen, bag_ms)?;
    }
    if sources.icd.is_some() {
        let comparison = &mut draft.comparison;
        write_beside(text, link, bag_ms, sources.recordings, comparison)?;
    }
    write_keys(text, drafted)
}

/// A link that was seen and that the document lacks, in comments: a person who knows it may take them off.
fn write_unspecified(
    alloc: Global,
    draft: &mut Draft,
    seen: &LinkSurvey,
    drafted: &Drafted,
) -> Result<(), AllocError> {
    let mut block = String::new(alloc);
    block.push_str("[[link]]\n")?;
    write_seen(&mut block, seen, drafted.values.bag_ms)?;
    write_keys(&mut block, drafted)?;
    let comparison = &mut draft.comparison;
    comparison.unspecified = comparison.unspecified.saturating_add(1);
    let text = &mut draft.text;
    text.push_str("\n# The ICD has no such link: its frames are unconfigured.\n")?;
    for line in block.lines() {
        let mark = if line.starts_with('#') { "" } else { "# " };
        write!(text, "{mark}{line}\n")?;
    }
    Ok(())
}
