//! How bad each link is.

use crate::view::{TROUBLES, counts_of};
use findings::{Finding, Findings, Level};
use ledger_report::{LinkReport, Report};
use std::alloc::{AllocError, Global};

/// The levels of links.
pub const LEVELS: [Level; 4] = [Level::Trouble, Level::Notice, Level::Silent, Level::Clean];

/// Where a link stands.
#[derive(Clone, Copy)]
pub struct Rank {
    pub index: usize,
    pub level: Level,
    pub signs: u64,
}

/// How many signs count against a link.
pub fn signs_of(link: &LinkReport) -> u64 {
    let mut signs = 0u64;
    for &sign in &TROUBLES {
        signs = signs.saturating_add(counts_of(link, sign).sum());
    }
    signs
}

/// How many lines a link has.
pub fn frames_of(link: &LinkReport) -> u64 {
    link.lanes.a.frames.saturating_add(link.lanes.b.frames)
}

/// How bad the link at a place of the table is.
pub fn level_at(report: &Report, index: usize) -> Level {
    let level = report.findings.levels.get(index);
    level.map_or(Level::Clean, |level| level.level)
}

/// How many findings are of this level, or of a worse one.
pub fn failing(findings: &Findings, level: Level) -> u64 {
    let of_level = |finding: &&Finding| finding.level as u8 <= level as u8;
    findings.all.iter().filter(of_level).count() as u64
}

/// The word of a level.
pub fn word_of(level: Level) -> &'static str {
    match level {
        Level::Trouble => "trouble",
        Level::Notice => "notice",
        Level::Silent => "silent",
        Level::Info => "info",
        Level::Clean => "clean",
    }
}

/// The outline of a level's mark: they differ in shape.
pub fn mark_of(level: Level) -> &'static str {
    match level {
        Level::Trouble => r#"t" viewBox="0 0 10 10"><path d="M5 0 10 9.4H0z"/>"#,
        Level::Notice => r#"n" viewBox="0 0 10 10"><path d="M5 0 10 5 5 10 0 5z"/>"#,
        Level::Silent => r#"s" viewBox="0 0 10 10"><path d="M1 1h8v8h-8z"/>"#,
        Level::Info | Level::Clean => {
            r#"c" viewBox="0 0 10 10"><circle cx="5" cy="5" r="3.4"/>"#
        }
    }
}

/// The order of a table: by level, then the most signs first, then by identifier.
fn key_of(rank: &Rank) -> (u8, u64, usize) {
    (rank.level as u8, u64::MAX - rank.signs, rank.index)
}

/// The links, worst first.
pub fn ranks_of(alloc: Global, report: &Report) -> Result<Vec<Rank>, AllocError> {
    let mut ranks = Vec::with_capacity(alloc, report.links.len())?;
    for (index, link) in report.links.iter().enumerate() {
        let (level, signs) = (level_at(report, index), signs_of(link));
        ranks.push(Rank {
            index,
            level,
            signs,
        })?;
    }
    ranks.sort_by_key(key_of)?;
    Ok(ranks)
}
