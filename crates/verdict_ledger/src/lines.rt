//! The lines of frames.
ghost use Rattle.std.specs.Prelude.{◌≡◌, ◌<◌, ◌++◌, OnOk, OnErr, length};
ghost use Rattle.verdict_ledger.specs.Entry.{entries_of};
ghost use Rattle.verdict_ledger.specs.Text.{lines_text};

use crate::line::push_line;
use crate::version::LedgerVersion;
use frame_batch::RoundPart;
use std::alloc::AllocError;
use vl_judge::Verdict;

/// Appends the lines of frames, each with what stands at its place in the other lists: what
/// [`Ledger::round`](crate::Ledger::round) of a ledger of this version writes of them.
///
/// # Errors
///
/// There is no memory for a line. The text is as it was.
pub fn append_lines(
    text: &mut Vec<u8>,
    version: LedgerVersion,
    frames: &RoundPart<'_>,
    verdicts: &[Verdict],
    keeps: &[Option<u32>],
    masks: &[u8],
) -> Result<(), AllocError>
    requires verdicts { length verdicts.now ≡ length frames.now }
    requires keeps { length keeps.now ≡ length frames.now }
    requires masks { length masks.now ≡ length frames.now }
    ensures lines { OnOk result (text.new.items ≡ text.old.items
        ++ lines_text version (entries_of frames.now verdicts.now keeps.now masks.now)) }
    ensures memory { OnErr result (text.new.items ≡ text.old.items) }
    ensures some { OnErr result (0 < length frames.now) }
{
    let before = text.len();
    for index in 0..frames.len() {
        match push_line(
            text,
            version,
            &frames.frame(index),
            &verdicts[index],
            keeps[index],
            masks[index],
        ) {
            Ok(()) => {}
            Err(fault) => {
                text.truncate(before);
                return Err(fault);
            }
        }
    }
    Ok(())
}
