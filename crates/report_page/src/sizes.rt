//! The ledgers that tell the sizes of frames, by their version or by their tables.

use ledger_report::Report;
use vl_config::Config;

/// The least number of bytes to keep that takes every frame whole: the largest capture length of libpcap.
const WHOLE: u64 = 262_144;

/// The code of the instruction `ret #k`.
const RETURN: &str = "6";

/// Is this filter, in the numeric form, one `ret #k` that takes every frame whole?
fn takes_whole(filter: &str) -> bool {
    let mut parts = filter.split(',');
    let count = parts.next().unwrap_or("").trim();
    let mut fields = parts.next().unwrap_or("").split_whitespace();
    let code = fields.next().unwrap_or("");
    // After the jumps of a condition.
    let kept = fields.nth(2).unwrap_or("").parse::<u64>().unwrap_or(0);
    count == "1" && code == RETURN && kept >= WHOLE
}

/// Does the ledger tell the size of each frame: by its lengths on the wire, or since a filter of the table
/// takes every frame whole, so that the bytes kept are those of the frames?
pub fn has_sizes(report: &Report, config: &Config) -> bool {
    report.has_lengths || config.filters().iter().any(|filter| takes_whole(filter))
}
