//! The command line: the arguments that a person types, and what the program answers on standard error:
//! fault lines, notes, exit statuses, and for a terminal advice and a caret under a refused place.
#![tactic(auto)]

mod arguments;
mod caret;
mod exit;
mod fault;
mod files;
mod icd;
mod kinds;
mod lateness;
mod line;
mod meaning;
mod message;
mod misuse;
mod moment;
mod options;
mod place;
mod refused;
mod selection;
mod shown;
mod summary;
mod usage;
mod words;
mod wrapped;

pub use arguments::{
    CaptureArguments, CheckArguments, CommandLine, CutArguments, DebugArguments, FailOn,
    FilterArgument, Invocation, LinksArguments, ReportArguments, TransitArguments,
    TransitCutArguments, WatchArguments, read_arguments,
};
pub use caret::{Caret, Place, caret_at, place_at};
pub use exit::{Exit, FAILED, Found, TO_A_TERMINAL, USAGE};
pub use fault::{Contradiction, Fault, FileOption, ManifestFault, ReportFault, SelectionOption};
pub use files::{GivenFile, Inode, MAX_FILES, Named, NamedFile, is_standard, refuse_shared};
pub use icd::IcdLines;
pub use kinds::kinds_in;
pub use lateness::{Lateness, MAX_LATE_MICROS};
pub use line::fault_line;
pub use meaning::{
    Advice, CompressedAdvice, EndingAdvice, HEAD_LEN, TEXT_ADVICE, UNWRITTEN_ADVICE,
    compressed_advice, header_advice, numeric_advice,
};
pub use message::{DroppedNote, Note, SkippedNote, TapNote, reason_words};
pub use misuse::Misuse;
pub use moment::{MomentText, read_moment, read_span};
pub use options::version;
pub use place::file_of;
pub use refused::{Written, load_offset, numeric_offset, source_offset, written_as};
pub use selection::selection_of;
pub use shown::{Shown, Typed};
pub use summary::{Hint, Summary, hint_of};
pub use words::{BETWEEN_FILES, gathered, has_standard_among};
pub use wrapped::{join_advice, push_advice, push_wrapped};
