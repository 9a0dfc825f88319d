//! Replies are values; their text stands apart, so that a program can print them its own way.

ghost use Rattle.std.specs.Prelude.{◌≡◌, IfOk, string_bytes};
ghost use Rattle.bpf_debugger.specs.Texts.{done_text, reply_text, state_text, tally_text};

use bpf_isa::{Outcome, State};
use std::alloc::{AllocError, Global};
use std::fmt::Write;

/// The replies to commands.
#[derive(PartialEq, Eq, Drop)]
pub enum Reply {
    /// The position after a move.
    At {
        /// The number of steps made since the start of the run.
        m: usize,
        /// The state after them, or the filter's return value after the last.
        shown: Outcome,
    },
    /// A breakpoint was set or cleared.
    Breakpoint {
        /// The index of the instruction.
        at: u32,
        /// True if the breakpoint is set now.
        set: bool,
    },
    /// The program as source, a line for each instruction.
    Listing(String),
    /// How many frames the filter accepts, and how many it rejects.
    Tally {
        /// The filter's return value isn't 0.
        accepted: usize,
        /// It is 0.
        rejected: usize,
    },
    /// The session is over.
    Bye,
}

/// The text of a reply, which ends with a newline: a line, or the listing.
///
/// # Errors
///
/// `AllocError` if there is no memory for the text. Every reply needs some but an empty `Listing`.
pub fn render(alloc: Global, reply: &Reply) -> Result<String, AllocError>
    ensures { IfOk result (λ text. string_bytes text ≡ reply_text reply.now) }
{
    match reply {
        Reply::At {
            m,
            shown: Outcome::On(state),
        } => state_line(alloc, *m, state),
        Reply::At {
            m,
            shown: Outcome::Done(answer),
        } => done_line(alloc, *m, *answer),
        Reply::Breakpoint { at, set: true } => format!(in alloc; "breakpoint {at} set\n"),
        Reply::Breakpoint { at, set: false } => format!(in alloc; "breakpoint {at} cleared\n"),
        Reply::Listing(text) => String::from_str(alloc, text),
        Reply::Tally { accepted, rejected } => tally_line(alloc, *accepted, *rejected),
        Reply::Bye => String::from_str(alloc, "bye\n"),
    }
}

fn state_line(alloc: Global, m: usize, state: &State) -> Result<String, AllocError>
    ensures { IfOk result (λ text. string_bytes text ≡ state_text m state.now) }
{
    let State {
        place: pc,
        a,
        x,
        scratch,
    } = state;
    let mut text = format!(in alloc; "at {m} pc {pc} A {a} X {x} M")?;
    for slot in scratch {
        write!(text, " {slot}")?;
    }
    text.push_str("\n")?;
    Ok(text)
}

fn done_line(alloc: Global, m: usize, answer: u32) -> Result<String, AllocError>
    ensures { IfOk result (λ text. string_bytes text ≡ done_text m answer) }
{
    format!(in alloc; "at {m} done {answer}\n")
}

fn tally_line(alloc: Global, accepted: usize, rejected: usize) -> Result<String, AllocError>
    ensures { IfOk result (λ text. string_bytes text ≡ tally_text accepted rejected) }
{
    format!(in alloc; "tally accepted {accepted} rejected {rejected}\n")
}
