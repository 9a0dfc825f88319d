//! The manifest beside a ledger: what a run was of, and what it wrote (docs/FORMATS.md).
//!
//! - [`Digesting`] stands before a reader or a writer: it counts the bytes that pass, and may hash them.
//! - [`Manifest`] has a run's facts. [`manifest_text`] writes them as JSON, [`read_manifest`] reads them.
#![tactic(auto)]

mod digesting;
mod manifest;

pub use digesting::{Digesting, Sum, Tally, sum_of};
pub use manifest::{
    CrossedRecord, FileRecord, Inputs, KindRecord, MANIFEST_VERSION, Manifest, ManifestFault,
    Outputs, Program, RecordingRecord, Span, TornRecord, manifest_text, read_manifest,
};
