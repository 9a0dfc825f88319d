//! Files, pipes and other writers of std as sinks: their errors become counted failures.
ghost use Rattle.std.specs.Prelude.{◌≡◌};
ghost use Rattle.pcap_io.specs.Std.{write_answer};

use crate::device::{DeviceFault, OutSink, failures_after};
use std::io;
use std::io::Write;

/// A sink over a writer. It exposes what the writer exposes: of a file or a pipe nothing is known.
#[derive(Drop)]
pub struct WriteSink<W> {
    writer: W,
    failures: u64,
}

impl<W: Write> WriteSink<W> {
    /// A sink that hasn't failed.
    pub fn new(writer: W) -> WriteSink<W>
        ensures contents { ⟦<WriteSink<W> as OutSink>⟧.contents result ≡ W.contents writer }
        ensures no_failure { ⟦<WriteSink<W> as OutSink>⟧.failures result ≡ 0 }
    {
        WriteSink {
            writer,
            failures: 0,
        }
    }

    /// The writer, with the bytes that it took.
    pub fn into_writer(self) -> W
        ensures { W.contents result ≡ ⟦<WriteSink<W> as OutSink>⟧.contents self }
    {
        self.writer
    }
}

/// The answer of a sink whose writer was given so many bytes and returned this. One that took none
/// of some bytes has failed.
#[inline]
fn write_answer(asked: usize, returned: io::Result<usize>) -> Result<usize, DeviceFault>
    ensures { result ≡ write_answer asked returned }
{
    match returned {
        Ok(0) if asked > 0 => Err(DeviceFault),
        Ok(count) => Ok(count),
        Err(_) => Err(DeviceFault),
    }
}

impl<W: Write> OutSink for WriteSink<W> {
    ghost contents = { λ s. W.contents s.writer };

    ghost failures = { λ s. s.failures };

    #[inline]
    fn write(&mut self, bytes: &[u8]) -> Result<usize, DeviceFault> {
        if self.failures == u64::MAX {
            return Err(DeviceFault);
        }
        let answer = write_answer(bytes.len(), self.writer.write(bytes));
        self.failures = failures_after(self.failures, &answer);
        answer
    }
}
