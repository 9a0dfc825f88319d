//! Commands are values, so that a program can send them without any text.

/// The next thing to do. Frames and instructions are counted from 0.
#[derive(Clone, Copy, PartialEq, Eq)]
pub enum Command {
    /// Selects a frame, and shows the state before the first step.
    Select(u32),
    /// Makes this many steps, or undoes as many where negative, held within the start and the end.
    Step(i64),
    /// Makes steps up to a state whose pc has a breakpoint, at least one, or to the end.
    Cont,
    /// Sets a breakpoint at an instruction, or clears it where it is set.
    Breakpoint(u32),
    /// Lists the program.
    Disassemble,
    /// Runs the filter on all frames, and counts those that it accepts.
    Tally,
    /// Ends the session.
    Quit,
}
