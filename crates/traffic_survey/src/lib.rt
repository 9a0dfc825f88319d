//! One pass over one or two recordings, and what it says of each virtual link (ARINC 664 Part 7).
//!
//! Frames of both recordings come in the order of timestamp, network and number. Memory is bounded by links
//! and by the frames of a second, since a timestamp may lie so far below one before it: a link costs some
//! 14 KB from its first frame on, and a frame that waits for a survey 24 bytes.
//!
//! [`Survey`] says what the frames say of each link's parameters. [`Inputs`] looks at the first frames
//! beside a table of links, and counts: memory is bounded by the links of the table, some 10 KB each.
//! [`questions_of`] then asks what looks wrong of the inputs of a run of `watch`: whether the recordings
//! belong together, and to the table.
#![tactic(auto)]

mod arrivals;
mod backlog;
mod brief;
mod checksum;
mod clocks;
mod copies;
mod course;
mod crossed;
mod cut_links;
mod decide;
mod doubles;
mod drift;
mod format;
mod gaps;
mod inputs;
mod kinds;
mod last;
mod lent_pair;
mod lent_tap;
mod link;
mod links;
mod need;
mod needs;
mod numbering;
mod observer;
mod pair;
mod per_network;
mod progress;
mod questions;
mod recorded;
mod run;
mod silences;
mod steps;
mod survey;
mod surveying;
mod tap;
mod tap_tally;
mod traffic;
mod twice;
mod unlike;

pub use arrivals::Arrivals;
pub use checksum::ends_with_check;
pub use clocks::{Meeting, Sample};
pub use copies::Copies;
pub use cut_links::CutLinks;
pub use decide::{Overlap, Reach, Wiring, is_nearly_all};
pub use drift::{Drift, link_questions};
pub use format::{FORMAT_LEN, Format, format_of};
pub use gaps::{Gaps, Range};
pub use inputs::{Constant, Inputs};
pub use kinds::{Kind, Kinds};
pub use link::LinkTally;
pub use links::{LinkSurvey, Links};
pub use need::Need;
pub use needs::{BAGS_MS, Needs};
pub use numbering::Numbering;
pub use observer::Observer;
pub use questions::{Affected, Difference, Look, Question, questions_of};
pub use recorded::{Extent, Recorded, Span};
pub use run::{Pass, SurveyRun, show_both, show_recordings, survey_recordings};
pub use steps::Step;
pub use survey::{Field, GROUP_BITS, Survey};
pub use tap_tally::TapTally;
pub use traffic::{CrossedFrames, Traffic};
