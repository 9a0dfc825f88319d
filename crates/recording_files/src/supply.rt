//! Where files come from.
ghost use Rattle.std.specs.Prelude.{◌≡◌, ℕ, List, Option, None, IfOk, OnOk, OnErr};
ghost use Rattle.pcap_io.specs.Device.{CountsFailure, NoFailure};
ghost use Rattle.pcapng.specs.Given.{Given};
ghost use Rattle.recording_files.specs.Supply.{CountsNext, GivesNext, KeepsFiles};

use pcap_io::{DeviceFault, TapSource};

/// A file of a recording that was read to its end.
#[derive(Drop)]
pub struct ReadFile<F> {
    pub source: F,
    /// How many frames it gave; the count stays at 2^64 - 1 once there.
    pub frames: u64,
    /// Their greatest timestamp, in nanoseconds since 1970. 0: it gave none.
    pub greatest: u64,
}

/// The files of a recording, one after another.
///
/// It counts its failures, and the count stays at 2^64 - 1 once there.
pub trait FileSupply<F: TapSource> {
    /// The bytes of each file that is still to come, and what it tells at its end, where the supply exposes
    /// them.
    ghost files: { Self → Option (List Given) } = { λ _. None };

    /// How many files are still to come.
    ghost left: { Self → ℕ };

    /// How often the supply has failed.
    ghost failures: { Self → ℕ };

    /// Opens the next file, after the one that was read, which comes back. None: there is no further one.
    fn next_file(&mut self, last: Option<ReadFile<F>>) -> Result<Option<F>, DeviceFault>
        // A fault takes no file.
        ensures next { IfOk result (GivesNext F.remaining F.told (files self.old) (files self.new)) }
        ensures kept { OnErr result (KeepsFiles (files self.old) (files self.new)) }
        ensures count { IfOk result (CountsNext (left self.old) (left self.new)) }
        ensures same { OnErr result (left self.new ≡ left self.old) }
        ensures no_failure { OnOk result (NoFailure (failures self.old) (failures self.new)) }
        ensures fault { OnErr result (CountsFailure (failures self.old) (failures self.new)) };
}
