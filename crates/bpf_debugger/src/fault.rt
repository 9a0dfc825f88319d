//! A refusal is a line of its own to the person, and a value to the program.

ghost use Rattle.std.specs.Prelude.{◌≡◌};
ghost use Rattle.bpf_debugger.specs.Texts.{bad_command_text, fault_text};

use afdx_frame::TapFrame;
use bpf_loader::Program;
use thiserror::Error;

/// Why a command is refused. The session stays as it was.
#[derive(Clone, Copy, Debug, PartialEq, Eq, Error)]
pub enum DebugFault {
    /// A step, or `cont`, with no frame selected.
    #[error("no frame is selected")]
    NoFrame,
    /// No frame has this number.
    #[error("no such frame")]
    NoSuchFrame,
    /// No instruction has this index.
    #[error("no such instruction")]
    NoSuchInsn,
    /// The system is out of memory.
    #[error("out of memory")]
    Memory,
}

impl DebugFault {
    /// The line that reports the fault, which ends with a newline. Allocates nothing.
    pub fn line(self) -> &'static str
        ensures { result.now ≡ fault_text self }
    {
        match self {
            DebugFault::NoFrame => "fault 1 NoFrame\n",
            DebugFault::NoSuchFrame => "fault 2 NoSuchFrame\n",
            DebugFault::NoSuchInsn => "fault 3 NoSuchInsn\n",
            DebugFault::Memory => "fault 4 Memory\n",
        }
    }
}

/// The line that answers a line that is no command, which ends with a newline. Allocates nothing.
pub fn bad_command_line() -> &'static str
    ensures { result.now ≡ bad_command_text }
{
    "fault 0 BadCommand\n"
}

/// A session that there is no memory for, with what the caller passed.
#[derive(Debug, Drop, Error)]
#[error("out of memory")]
pub struct NewRefused {
    /// The program.
    pub program: Program,
    /// The frames.
    pub frames: Vec<TapFrame>,
}
