//! The texts that a command is given: filters, a table, a window for late timestamps.
use bpf_loader::Program;
use command_line::{FileOption, FilterArgument, Lateness, MAX_LATE_MICROS, is_standard};
use run_inputs::{filter_of, filter_of_source, read_config};
use std::io::{ErrorKind, IsTerminal};
use tap_inputs::{Cause, Detail, NO_RUN, Outcome, open, text_in};
use vl_config::Config;

/// The greatest window for late timestamps of a run over two recordings, in nanoseconds.
pub const MAX_LATE: u64 = MAX_LATE_MICROS * 1000;

/// The name of an input for a person.
pub(crate) fn shown_path(path: &str) -> &str {
    if is_standard(path) {
        "standard input"
    } else {
        path
    }
}

/// The text of a file.
pub fn text_of(rt: &HostRuntime, path: &str, file: FileOption) -> Result<String, Outcome> {
    text_in(rt, open(rt, path, file)?).map_err(|cause| match cause {
        Cause::System(error) if error.kind() == ErrorKind::OutOfMemory => Outcome::from(NO_RUN),
        _ => Outcome::of_file(file, cause),
    })
}

/// The table of virtual links, if it is given.
pub(crate) fn table_of(rt: &HostRuntime, path: Option<&str>) -> Result<Option<Config>, Outcome> {
    let Some(path) = path else {
        return Ok(None);
    };
    let text = text_of(rt, path, FileOption::Config)?;
    Ok(Some(read_config(rt.alloc(), &text)?))
}

/// The filter that a command is given.
pub(crate) fn filter(rt: &HostRuntime, given: FilterArgument<'_>) -> Result<Program, Outcome> {
    match given {
        FilterArgument::Code(code) => Ok(filter_of(rt.alloc(), code, None)?),
        FilterArgument::Numeric(path) => {
            let code = text_of(rt, path, FileOption::Filter)?;
            Ok(filter_of(rt.alloc(), &code, None)?)
        }
        FilterArgument::Source(path) => {
            let text = text_of(rt, path, FileOption::Source)?;
            match filter_of_source(rt.alloc(), &text) {
                Ok(program) => Ok(program),
                Err(fault) => Err(Outcome::from(fault).with(Detail::Source(text))),
            }
        }
    }
}

/// Is this path standard output, and that a terminal?
pub fn is_at_terminal(rt: &HostRuntime, path: &str) -> bool {
    is_standard(path) && rt.stdout().is_terminal()
}

/// How late a timestamp may be, in nanoseconds: not at all where no option says so.
pub(crate) fn late_of(late: Option<Lateness>) -> u64 {
    late.map_or(0, |late| late.nanoseconds())
}
