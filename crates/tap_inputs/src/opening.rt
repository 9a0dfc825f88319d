//! Opens recordings and other files that are read.
use crate::outcome::{Cause, NO_RUN, Outcome};
use crate::pauses::Pauses;
use crate::streams::Input;
use afdx_frame::Network;
use command_line::{Fault, FileOption};
use pcap_io::TapSource;
use pcapng::{Choice, RecordingSource};

/// Opens a file that is read.
pub fn open(rt: &HostRuntime, path: &str, file: FileOption) -> Result<Input, Outcome> {
    Input::open(rt, path).map_err(|error| Outcome::of_file(file, Cause::System(error)))
}

/// Opens the recording of a network. A network without one has no frames. A pipe is open once somebody writes
/// to it.
pub fn open_tap(
    rt: &HostRuntime,
    path: Option<&str>,
    network: Network,
    pauses: Option<&Pauses>,
) -> Result<Input, Outcome> {
    let Some(path) = path else {
        return Ok(Input::empty_recording());
    };
    if let Some(pauses) = pauses {
        pauses.begin_read(rt, network);
    }
    let file = match network {
        Network::A => FileOption::A,
        Network::B => FileOption::B,
    };
    let opened = open(rt, path, file);
    if let Some(pauses) = pauses {
        pauses.end_read(rt, network, opened.is_err());
    }
    opened
}

/// The reader of a recording of either format, as pcap.
pub fn recording_of<S: TapSource + Drop>(
    rt: &HostRuntime,
    source: S,
    choice: Choice,
) -> Result<RecordingSource<S>, Fault> {
    RecordingSource::new(rt.alloc(), source, choice).map_err(|_| NO_RUN)
}
