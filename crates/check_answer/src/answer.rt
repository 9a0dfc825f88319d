//! The findings on the inputs of a run.

use command_line::Fault;
use table_check::TableFault;
use tap_inputs::{Disorder, Tap};
use traffic_survey::{Format, Inputs, Look, Question, Recorded};
use vl_config::Config;

/// A filter: that of the command line has no number, those of the table are counted from 1.
#[derive(Drop)]
pub struct FilterAnswer {
    pub number: Option<u8>,
    /// How many instructions it has, or why it isn't loaded.
    pub loaded: Result<usize, Fault>,
}

/// A recording that was read.
#[derive(Clone, Copy)]
pub struct TapAnswer<'a> {
    /// The name for a person.
    pub name: &'a str,
    /// Its files, which may be torn.
    pub tap: &'a Tap,
    pub format: Option<Format>,
    pub recorded: Recorded,
    /// How many per cent of its bytes were read, if its files' lengths are known.
    pub percent: Option<u64>,
    /// By how much the frame is out of order that ends it, if one does.
    pub disorder: Option<Disorder>,
    /// How many packets aren't of Ethernet.
    pub skipped: u64,
    /// How many packets its recorder says that it dropped.
    pub dropped: u64,
}

/// The answer on all inputs.
#[derive(Clone, Copy)]
pub struct Answer<'a> {
    /// The name of the table for a person.
    pub table: &'a str,
    /// The table's text.
    pub text: &'a str,
    /// All its faults. None of them: there is a table.
    pub faults: &'a [TableFault],
    pub config: Option<&'a Config>,
    pub filters: &'a [FilterAnswer],
    /// The recordings of networks A and B. None: none is given, or none was read.
    pub a: Option<TapAnswer<'a>>,
    pub b: Option<TapAnswer<'a>>,
    /// Why the recordings weren't read.
    pub unread: Option<Fault>,
    pub inputs: &'a Inputs<'a>,
    pub look: Look,
    pub questions: &'a [Question],
}
