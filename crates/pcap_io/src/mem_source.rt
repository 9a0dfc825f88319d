//! A source for tests and laws: its bytes are known, and it fails where its script says so.
ghost use Rattle.std.specs.Prelude.{◌≡◌, ◌++◌, ◌≤◌, Some, take, drop, length, IfOk, OnOk, OnErr};
ghost use Rattle.std.specs.Io.KnownBytes.{ReadConsumes};
ghost use Rattle.pcap_io.specs.Script.{start_of, passed_count, answer_of, after_call};
ghost use Rattle.pcap_io.specs.Device.{CountsFailure, NoFailure};
ghost use Rattle.pcap_io.specs.Bytes.{bytes_of};
ghost use Rattle.pcap_io.specs.Supply.{asked};

use crate::device::{DeviceFault, TapSource};
use crate::script::{Script, ScriptState};
use crate::told::Told;
use std::marker::Model;

/// A source that gives bytes of memory as its script says, and exposes them.
#[derive(Drop)]
pub struct MemSource {
    bytes: Vec<u8>,
    at: usize,
    state: ScriptState,
}

impl Model for MemSource {
    ghost use Rattle.std.specs.Prelude.{◌≤◌, drop, vec_len};
    ghost use Rattle.pcap_io.specs.Supply.{Supply};

    ghost Value = { Supply };

    ghost view = { λ s. record { rest = drop s.at s.bytes.items; state = s.state } };

    ghost invariant = { λ s. s.at ≤ vec_len s.bytes };
}

impl MemSource {
    /// A source of these bytes.
    pub fn new(bytes: Vec<u8>, script: Script) -> MemSource
        ensures value { result ≡ record { rest = bytes.items; state = start_of script } }
        // It exposes all of them.
        ensures exposed { bytes_of bytes.items ≡ Some bytes.items }
    {
        MemSource {
            bytes,
            at: 0,
            state: ScriptState::new(script),
        }
    }
}

impl TapSource for MemSource {
    ghost use Rattle.pcap_io.specs.Bytes.{bytes_of-are_bytes};

    ghost remaining = { λ s. bytes_of s.rest };

    ghost failures = { λ s. s.state.failures };

    ghost gives_bytes = { λ s. bytes_of-are_bytes s.rest };

    fn read(&mut self, buf: &mut [u8]) -> Result<usize, DeviceFault>
        ensures answer { result ≡ answer_of self.old.state (asked self.old buf.old) }
        ensures filled { let n = passed_count self.old.state (asked self.old buf.old) in
            buf.new ≡ take n self.old.rest ++ drop n buf.old }
        ensures rest { let n = passed_count self.old.state (asked self.old buf.old) in
            self.new.rest ≡ drop n self.old.rest }
        ensures state { self.new.state ≡ after_call self.old.state (asked self.old buf.old) }
        ensures bound { IfOk result (λ n. n ≤ length buf.new) }
        ensures bytes { ReadConsumes (bytes_of self.old.rest) (bytes_of self.new.rest) result buf.new }
        ensures no_failure { OnOk result (NoFailure self.old.state.failures self.new.state.failures) }
        ensures fault { OnErr result
            (CountsFailure self.old.state.failures self.new.state.failures) }
    {
        let left = self.bytes.len() - self.at;
        let passed = self.state.call(buf.len().min(left))?;
        let from = self.at;
        buf[..passed].copy_from_slice(&self.bytes[from..from + passed]);
        self.at = from + passed;
        Ok(passed)
    }

    fn told(&self) -> Told {
        Told::Nothing
    }
}
