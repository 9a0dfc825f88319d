//! The word of what became of a frame, and who says so.
ghost use Rattle.std.specs.Prelude.{◌≡◌, ◌≤◌, ◌+◌, ◌++◌, length};
ghost use Rattle.packet_format.specs.Comment.{outcome_text};
ghost use Rattle.packet_format.specs.declared.words.TheConstants.{OUTCOME};

use ledger_text::FrameLine;

/// The most bytes of an outcome: those of "deliver (redundancy)".
pub const OUTCOME: usize = 20;

/// The last word that the line says of its frame, and who says it.
#[inline]
#[tactic(auto, using(crate::proofs::Lengths::short_words))]
pub fn outcome_of(line: &FrameLine) -> (&'static str, &'static str)
    ensures text { result.0.now ++ result.1.now ≡ outcome_text line.now }
    ensures short { length result.0.now + length result.1.now ≤ OUTCOME }
{
    let verdict = &line.verdict;
    match (verdict.redundancy, verdict.integrity, verdict.policing) {
        (Some(redundancy), _, _) => (redundancy.word(), " (redundancy)"),
        (None, Some(integrity), _) => (integrity.word(), " (integrity)"),
        (None, None, Some(policing)) => (policing.word(), " (policing)"),
        (None, None, None) => (verdict.class.word(), " (class)"),
    }
}
