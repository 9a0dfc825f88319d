//! The virtual links with the most discards, for a person at a terminal.
use integrity::Integrity;
use policing::Policing;
use std::alloc::{AllocError, Global};
use std::fmt;
use std::fmt::{Display, Formatter};
use verdict_ledger::{LinkCounts, Tally};
use vl_config::{Class, Config, Link};

/// How many links are told.
const MOST: usize = 5;

/// A link, and the counts of its frames.
#[derive(Clone, Copy)]
struct Discards<'c> {
    link: &'c Link,
    counts: LinkCounts,
}

impl Discards<'_> {
    fn count(&self) -> u64 {
        let counts = self.counts;
        counts
            .toolong
            .saturating_add(counts.excess)
            .saturating_add(counts.out)
    }
}

/// Writes a count and its word after the text before them, unless it is 0. Gives the text before the next.
fn write_count<W: fmt::Write>(
    f: &mut Formatter<W>,
    before: &'static str,
    count: u64,
    word: &'static str,
) -> Result<&'static str, fmt::Error> {
    if count == 0 {
        return Ok(before);
    }
    write!(f, "{before}{count} {word}")?;
    Ok(", ")
}

/// `301 engine_1 (10 excess, 3 out)`.
impl Display for Discards<'_> {
    fn fmt<W: fmt::Write>(&self, f: &mut Formatter<W>) -> fmt::Result {
        let link: &Link = self.link;
        let (id, name, counts) = (link.id.0, &link.name, self.counts);
        write!(f, "{id} {name}")?;
        let next = write_count(f, " (", counts.toolong, Class::TooLong.word())?;
        let next = write_count(f, next, counts.excess, Policing::Excess.word())?;
        write_count(f, next, counts.out, Integrity::Out.word())?;
        f.write_str(")")
    }
}

/// The links with discards, at most so many as are told: those with the most come first, and of as many the
/// least identifier.
fn worst_of<'c>(
    alloc: Global,
    config: &'c Config,
    tally: &Tally,
) -> Result<Vec<Discards<'c>>, AllocError> {
    let mut worst: Vec<Discards<'c>> = Vec::new(alloc);
    for link in config.links() {
        let found = Discards {
            link,
            counts: *tally.link(link.id),
        };
        let count = found.count();
        let before = worst.iter().filter(|link| link.count() >= count).count();
        if count > 0 && before < MOST {
            worst.insert(before.min(worst.len()), found)?;
            worst.truncate(MOST);
        }
    }
    Ok(worst)
}

/// The words on the links with the most discards, by the counts of a run. None: no link has any,
/// or there is no memory.
pub fn worst_links(alloc: Global, config: &Config, tally: &Tally) -> Option<String> {
    let worst = worst_of(alloc, config, tally).ok()?;
    let mut line = String::new(alloc);
    let mut before = "afdxmon: summary: worst links: ";
    for link in &worst {
        write!(line, "{before}{link}").ok()?;
        before = ", ";
    }
    if line.is_empty() { None } else { Some(line) }
}
