//! Files, pipes and other readers of std as sources: their errors become counted failures.
ghost use Rattle.std.specs.Prelude.{◌≡◌};
ghost use Rattle.pcap_io.specs.Bytes.{known_bytes};
ghost use Rattle.pcap_io.specs.Std.{read_answer};

use crate::device::{DeviceFault, TapSource, failures_after};
use crate::told::Told;
use std::io;
use std::io::Read;

/// A source over a reader. It exposes what the reader exposes: of a file or a pipe nothing is known.
#[derive(Drop)]
pub struct ReadSource<R> {
    reader: R,
    failures: u64,
}

impl<R: Read> ReadSource<R> {
    /// A source that hasn't failed.
    pub fn new(reader: R) -> ReadSource<R>
        ensures remaining { ⟦<ReadSource<R> as TapSource>⟧.remaining result
            ≡ known_bytes (R.remaining reader) }
        ensures no_failure { ⟦<ReadSource<R> as TapSource>⟧.failures result ≡ 0 }
    {
        ReadSource {
            reader,
            failures: 0,
        }
    }

    /// The reader, with what it has left.
    pub fn into_reader(self) -> R
        ensures { known_bytes (R.remaining result)
            ≡ ⟦<ReadSource<R> as TapSource>⟧.remaining self }
    {
        self.reader
    }
}

/// The answer of a source whose reader returned this.
#[inline]
fn read_answer(returned: io::Result<usize>) -> Result<usize, DeviceFault>
    ensures { result ≡ read_answer returned }
{
    match returned {
        Ok(count) => Ok(count),
        Err(_) => Err(DeviceFault),
    }
}

impl<R: Read> TapSource for ReadSource<R> {
    ghost use Rattle.pcap_io.specs.Bytes.{known_bytes-are_bytes};

    ghost remaining = { λ s. known_bytes (R.remaining s.reader) };

    ghost failures = { λ s. s.failures };

    ghost gives_bytes = { λ s. known_bytes-are_bytes (R.remaining s.reader) };

    #[inline]
    fn read(&mut self, buf: &mut [u8]) -> Result<usize, DeviceFault> {
        if self.failures == u64::MAX {
            return Err(DeviceFault);
        }
        let answer = read_answer(self.reader.read(buf));
        self.failures = failures_after(self.failures, &answer);
        answer
    }

    fn told(&self) -> Told {
        Told::Nothing
    }
}
