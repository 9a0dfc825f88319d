//! Failures on demand: devices over memory share them, so that reads and writes fail alike.
ghost use Rattle.std.specs.Prelude.{◌≡◌, IsTrue, ◌↔◌};

use crate::device::DeviceFault;

/// How a device over memory behaves. A call passes as many bytes as it can.
#[derive(Clone, Copy, PartialEq, Eq)]
pub struct Script {
    /// The most bytes that one call passes; 0 counts as 1.
    pub piece: usize,
    /// The most bytes that pass in all: the device fails at each call after them.
    pub most: usize,
    /// The call, from 0, that fails alone and passes nothing.
    pub miss: Option<u64>,
}

/// Where a device stands in its script.
#[derive(Clone, Copy, PartialEq, Eq)]
pub struct ScriptState {
    pub piece: usize,
    /// How many bytes may still pass.
    pub left: usize,
    /// How many calls still come before the one that fails alone.
    pub miss: Option<u64>,
    /// How often the device has failed.
    pub failures: u64,
}

impl ScriptState {
    ghost use Rattle.pcap_io.specs.Script.{start_of, fails, answer_of, after_call};

    /// The start of a script.
    pub fn new(script: Script) -> ScriptState
        ensures { result ≡ start_of script }
    {
        ScriptState {
            piece: script.piece,
            left: script.most,
            miss: script.miss,
            failures: 0,
        }
    }

    /// The next call fails.
    fn fails(&self) -> bool
        ensures { result ≡ fails self.now }
    {
        self.left == 0 || self.miss == Some(0) || self.failures == u64::MAX
    }

    /// One call that is asked to pass so many bytes: how many pass.
    pub fn call(&mut self, asked: usize) -> Result<usize, DeviceFault>
        ensures answer { result ≡ answer_of self.old asked }
        ensures after { self.new ≡ after_call self.old asked }
    {
        let fails = self.fails();
        self.miss = match self.miss {
            None | Some(0) => None,
            Some(calls) => Some(calls - 1),
        };
        if fails {
            self.failures = self.failures.saturating_add(1);
            return Err(DeviceFault);
        }
        let passed = asked.min(self.left.min(self.piece.max(1)));
        self.left -= passed;
        Ok(passed)
    }
}
