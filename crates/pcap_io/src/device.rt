//! Where bytes come from and go to.
ghost use Rattle.std.specs.Prelude.{◌≡◌, ◌<◌, ◌≤◌, ℕ, Bool, true, List, Option, None, Ok, length, IfOk, IfSome, OnOk, OnErr};
ghost use Rattle.std.specs.Io.KnownBytes.{ReadConsumes, WriteAppends};
ghost use Rattle.pcap_io.specs.Bytes.{IsBytes};
ghost use Rattle.pcap_io.specs.Device.{CountsFailure, NoFailure};
ghost use Rattle.pcap_io.specs.Std.{failures_after};
ghost use Rattle.pcap_io.specs.Told.{StaysTold, Tells};
ghost use Rattle.pcap_io.specs.declared.told.Told.{Told};
ghost use Rattle.pcap_io.specs.declared.told.Told.TheVariants.{Nothing};

use crate::told::Told;
use thiserror::Error;

/// A device failed. The bytes that it took or gave before stand.
#[derive(Clone, Copy, Debug, PartialEq, Eq, Error)]
#[error("the device failed")]
pub struct DeviceFault;

/// A device that a recording is read from.
///
/// It counts its failures, and the count stays at 2^64 - 1 once there.
pub trait TapSource {
    /// The bytes that reads give from here on, where the device exposes them.
    ghost remaining: { Self → Option (List ℕ) } = { λ _. None };

    /// How often the device has failed.
    ghost failures: { Self → ℕ };

    /// The word that it has of its recording once it has given all bytes.
    ghost told: { Self → Told } = { λ _. Nothing };

    /// True if it has come to the end.
    ghost is_over: { Self → Bool } = { λ _. true };

    /// Reads the next bytes into a prefix of the buffer, and returns how many. 0 for a buffer with
    /// room is the end.
    fn read(&mut self, buf: &mut [u8]) -> Result<usize, DeviceFault>
        ensures bound { IfOk result (λ n. n ≤ length buf.new) }
        // The bytes that it gives leave the device, none only at the end; a fault gives nothing.
        ensures bytes { ReadConsumes (remaining self.old) (remaining self.new) result buf.new }
        ensures told { StaysTold (remaining self.old) (told self.old) (told self.new) }
        ensures over { result ≡ Ok 0 → 0 < length buf.new → is_over self.new ≡ true }
        ensures no_failure { OnOk result (NoFailure (failures self.old) (failures self.new)) }
        ensures fault { OnErr result (CountsFailure (failures self.old) (failures self.new)) };

    /// The word that it has of its recording, at its end. A device says nothing; a reader of another
    /// format tells what pcap can't say.
    fn told(&self) -> Told
        ensures { is_over self.now ≡ true → Tells (remaining self.now) result (told self.now) };

    /// It exposes bytes alone.
    ghost gives_bytes: { (s : Self) → IfSome (remaining s) IsBytes };
}

/// A device that a capture is written to.
///
/// It counts its failures, and the count stays at 2^64 - 1 once there.
pub trait OutSink {
    /// The bytes that the device has taken, where it exposes them.
    ghost contents: { Self → Option (List ℕ) } = { λ _. None };

    /// How often the device has failed.
    ghost failures: { Self → ℕ };

    /// Writes a prefix of the bytes, and returns its length: at least 1 where there are any.
    fn write(&mut self, bytes: &[u8]) -> Result<usize, DeviceFault>
        ensures bound { IfOk result (λ n. n ≤ length bytes.now) }
        ensures some { IfOk result (λ n. 0 < length bytes.now → 0 < n) }
        // The bytes that it took stand at the end; a fault takes nothing.
        ensures bytes { WriteAppends (contents self.old) (contents self.new) result bytes.now }
        ensures no_failure { OnOk result (NoFailure (failures self.old) (failures self.new)) }
        ensures fault { OnErr result (CountsFailure (failures self.old) (failures self.new)) };
}

/// How often a device has failed, once it gave this answer.
#[inline]
pub fn failures_after(failures: u64, answer: &Result<usize, DeviceFault>) -> u64
    ensures { result ≡ failures_after failures answer.now }
{
    match answer {
        Ok(_) => failures,
        Err(DeviceFault) => failures.saturating_add(1),
    }
}
