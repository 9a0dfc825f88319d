//! Devices whose calls are counted.

ghost use Rattle.std.specs.Prelude.{◌≡◌, OnErr, OnOk};
ghost use Rattle.pcap_io.specs.Device.{CountsFailure};

use pcap_io::{DeviceFault, MemSink, OutSink, TapSource, Told};

/// A device, how many bytes it has passed, and how often it has failed.
#[derive(Drop)]
pub struct Counted<D> {
    device: D,
    pub passed: u64,
    pub failures: u64,
}

impl<D> Counted<D> {
    /// A device that nothing was asked of.
    pub fn new(device: D) -> Counted<D> {
        Counted {
            device,
            passed: 0,
            failures: 0,
        }
    }

    /// Counts what a call answered.
    fn count(&mut self, answer: &Result<usize, DeviceFault>)
        ensures device { self.new.device ≡ self.old.device }
        ensures passed { OnOk answer.now (self.new.failures ≡ self.old.failures) }
        ensures failed { OnErr answer.now (CountsFailure self.old.failures self.new.failures) }
    {
        match answer {
            Ok(count) => self.passed = self.passed.saturating_add(*count as u64),
            Err(DeviceFault) => self.failures = self.failures.saturating_add(1),
        }
    }
}

impl Counted<MemSink> {
    /// The bytes that the sink took.
    pub fn taken(&self) -> &[u8] {
        self.device.taken()
    }
}

impl<S: TapSource> TapSource for Counted<S> {
    ghost remaining = { λ s. S.remaining s.device };

    ghost failures = { λ s. s.failures };

    ghost told = { λ s. S.told s.device };

    ghost is_over = { λ s. S.is_over s.device };

    ghost gives_bytes = { λ s. S.gives_bytes s.device };

    fn read(&mut self, buf: &mut [u8]) -> Result<usize, DeviceFault> {
        if self.failures == u64::MAX {
            return Err(DeviceFault);
        }
        let answer = self.device.read(buf);
        self.count(&answer);
        answer
    }

    fn told(&self) -> Told {
        self.device.told()
    }
}

impl<W: OutSink> OutSink for Counted<W> {
    ghost contents = { λ s. W.contents s.device };

    ghost failures = { λ s. s.failures };

    fn write(&mut self, bytes: &[u8]) -> Result<usize, DeviceFault> {
        if self.failures == u64::MAX {
            return Err(DeviceFault);
        }
        let answer = self.device.write(bytes);
        self.count(&answer);
        answer
    }
}
