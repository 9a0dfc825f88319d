//! The recordings that a command reads, and the streams that it reads and writes.
//!
//! - [`Taps`]: what a command line says of recordings; each has one file or several, of either format, and is
//!   looked at before it is read.
//! - [`files_of`]: a recording as a run reads it; [`TapEnd`]: what is known of it afterwards.
//! - [`Progress`] and [`Pauses`]: what a person at a terminal sees meanwhile.
//! - [`Input`], [`OutputStream`] and [`Blocks`]: files and standard streams.
//!
//! All stands over the system's files, so what is read and written is tested, and proved not to panic.
#![tactic(auto)]

mod blocks;
mod described;
mod disorder;
mod drops;
mod interface;
mod limits;
mod lost;
mod opening;
mod outcome;
mod pauses;
mod progress;
mod recordings;
mod seams;
mod streams;
mod taps;
mod texts;
mod torn;
mod whole;

pub use blocks::{BLOCK, Blocks, LiveInput, SharedBlocks};
pub use disorder::{Amount, Disorder};
pub use drops::tell_dropped;
pub use interface::{Skipped, status_of};
pub use limits::{Limited, print, standard_output, takes_messages};
pub use opening::{open, open_tap};
pub use outcome::{Cause, Detail, MAX_TEXT, NO_RUN, Outcome};
pub use pauses::Pauses;
pub use progress::{Progress, Recording};
pub use recordings::{FileList, Reading, TapEnd, TapFiles, end_of, files_of, open_both};
pub use seams::tell_gaps;
pub use streams::{Input, Noting, OutputFile, OutputStream};
pub use taps::{Tap, TapFailure, TapFile, Taps, option_of};
pub use texts::text_in;
pub use torn::TornFile;
pub use whole::Torn;
