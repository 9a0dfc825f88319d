//! Reads and writes in as many calls as the device takes.
ghost use Rattle.std.specs.Prelude.{◌≡◌, ◌<◌, ◌≤◌, true, length, take, IfOk, OnOk, OnErr};
ghost use Rattle.std.specs.Io.KnownBytes.{Consumes, IsAtEnd};
ghost use Rattle.pcap_io.specs.Device.{CountsFailure, TakesAtMost, TakesFewer, Writes};
ghost use Rattle.pcap_io.specs.Told.{StaysTold};

use crate::device::{DeviceFault, OutSink, TapSource};

/// Fills the buffer from its start, and returns how many bytes came: all, or fewer at the end.
pub fn fill<S: TapSource>(source: &mut S, buf: &mut [u8]) -> Result<usize, DeviceFault>
    ensures bound { IfOk result (λ n. n ≤ length buf.new) }
    ensures bytes { IfOk result (λ n.
        Consumes (S.remaining source.old) (S.remaining source.new) (take n buf.new)) }
    ensures end { IfOk result (λ n. n < length buf.new → IsAtEnd (S.remaining source.new)) }
    ensures over { IfOk result (λ n. n < length buf.new → S.is_over source.new ≡ true) }
    ensures told { StaysTold (S.remaining source.old) (S.told source.old) (S.told source.new) }
    ensures no_failure { OnOk result (S.failures source.new ≡ S.failures source.old) }
    ensures fault { OnErr result (CountsFailure (S.failures source.old) (S.failures source.new)) }
    ensures taken { OnErr result
        (TakesAtMost (length buf.old) (S.remaining source.old) (S.remaining source.new)) }
    ensures unfinished { OnErr result
        (TakesFewer (length buf.old) (S.remaining source.old) (S.remaining source.new)) }
{
    let mut done = 0;
    while done < buf.len() {
        let n = source.read(&mut buf[done..])?;
        if n == 0 {
            return Ok(done);
        }
        done += n;
    }
    Ok(done)
}

/// Writes all the bytes. After a fault the device took a prefix of them.
#[inline]
pub fn write_all<W: OutSink>(sink: &mut W, bytes: &[u8]) -> Result<(), DeviceFault>
    ensures { Writes result (W.contents sink.old) (W.contents sink.new)
        (W.failures sink.old) (W.failures sink.new) bytes.now }
{
    let mut done = 0;
    while done < bytes.len() {
        done += sink.write(&bytes[done..])?;
    }
    Ok(())
}
