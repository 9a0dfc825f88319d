//! The report as a page, as lines for a terminal, and as JSON.
//!
//! - [`page_of`]: one HTML page with no script and no link out, which prints on A4.
//! - [`summary_of`]: what to look at first, in lines of at most 80 columns.
//! - [`has_sizes`]: whether the ledger tells the sizes of frames.
//! - [`csv_of`]: its links as comma-separated values.
//! - [`failing`]: how many findings a report fails on.
//! - [`json_of`]: the same numbers as one JSON object; docs/REPORT.md has its members.
//! - [`Page`], [`View`], [`begin_row`], [`push_axis`]: what a section of another crate is written with. It
//!   stands in the page by [`Shown`]'s `transit`.
//!
//! Each takes the report of an earlier flight, a baseline, and then tells what got worse.
//!
//! Texts are templates with named holes, which `fill!` fills as `write!` does. So they stand whole beside the
//! numbers, and a part costs a proof next to nothing.
#![tactic(auto)]

/// A part with its name: `name = part`, or `name` of a local that has it.
macro_rules! part {
    ($name:ident) => { (stringify!($name), $name) };
    ($name:ident = $part:expr) => { (stringify!($name), $part) };
}

/// Parts with their names.
macro_rules! parts {
    ($($name:ident $(= $part:expr)?),*) => { [$(part!($name $(= $part)?)),*] };
}

/// Appends a template with its parts to a page: `fill!(page; "$name$ of $all$"; name = part, all)`.
macro_rules! fill {
    ($page:expr; $template:expr; $($name:ident $(= $part:expr)?),*) => {
        $page.fill($template, &[$(part!($name $(= $part)?)),*])
    };
}

mod charts;
mod compared;
mod csv;
mod cut_command;
mod finding_list;
mod groups;
mod json;
mod numbers;
mod page;
mod ranks;
mod rows;
mod sentences;
mod sizes;
mod summary;
mod tables;
mod text;
mod view;
mod writer;

pub use charts::{Texts, begin_row, push_axis};
pub use csv::csv_of;
pub use json::json_of;
pub use page::page_of;
pub use ranks::failing;
pub use sizes::has_sizes;
pub use summary::summary_of;
pub use view::{Shown, View};
pub use writer::{Named, Page, Part, flag};
