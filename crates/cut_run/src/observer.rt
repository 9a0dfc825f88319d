//! The observer of a cut, which is told of the lines while it runs.

use ledger_text::FrameLine;

/// Is told of the ledger's lines of frames as they are read, and which of them are written, as who counts
/// them.
pub trait LineObserver {
    /// The next line of a frame is this one.
    fn reads(&self, _line: &FrameLine) {}

    /// The next packet that the output gets is that of this line's frame, or the next line is this one.
    fn writes(&self, _line: &FrameLine) {}

    /// This line is selected, or near one that is, and passed over: its network is one that is skipped.
    fn passes(&self, _line: &FrameLine) {}
}

/// Looks at no line.
#[derive(Clone, Copy)]
pub struct NoObserver;

impl LineObserver for NoObserver {
    fn reads(&self, _line: &FrameLine) {}

    fn writes(&self, _line: &FrameLine) {}

    fn passes(&self, _line: &FrameLine) {}
}
