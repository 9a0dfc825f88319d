//! A sink for tests and laws: its bytes can be looked at, and it fails where its script says so.
ghost use Rattle.std.specs.Prelude.{◌≡◌, ◌++◌, ◌≤◌, ◌<◌, [], Some, take, length, IfOk, OnOk, OnErr};
ghost use Rattle.std.specs.Io.KnownBytes.{WriteAppends};
ghost use Rattle.pcap_io.specs.Script.{start_of, passed_count, answer_of, after_call};
ghost use Rattle.pcap_io.specs.Device.{CountsFailure, NoFailure};

use crate::device::{DeviceFault, OutSink};
use crate::script::{Script, ScriptState};
use std::alloc::{AllocError, Global};
use std::marker::Model;

/// A sink that takes bytes into memory as its script says, and exposes them.
#[derive(Drop)]
pub struct MemSink {
    bytes: Vec<u8>,
    state: ScriptState,
}

impl Model for MemSink {
    ghost use Rattle.std.specs.Prelude.{◌≤◌, ◌+◌, vec_len, vec_capacity};
    ghost use Rattle.pcap_io.specs.Supply.{Store};

    ghost Value = { Store };

    ghost view = { λ s. record { bytes = s.bytes.items; state = s.state } };

    // There is room for all that may still pass.
    ghost invariant = { λ s. vec_len s.bytes + s.state.left ≤ vec_capacity s.bytes };
}

impl MemSink {
    /// An empty sink, with room for all that its script lets pass.
    pub fn new(alloc: Global, script: Script) -> Result<MemSink, AllocError>
        ensures value { IfOk result (λ s. s ≡ record { bytes = []; state = start_of script }) }
        // Memory is missing only where some bytes may pass.
        ensures out_of_memory { OnErr result (0 < script.most) }
    {
        Ok(MemSink {
            bytes: Vec::with_capacity(alloc, script.most)?,
            state: ScriptState::new(script),
        })
    }

    /// The bytes that it took.
    pub fn taken(&self) -> &[u8]
        ensures { result.now ≡ self.now.bytes }
    {
        &self.bytes
    }
}

impl OutSink for MemSink {
    ghost contents = { λ s. Some s.bytes };

    ghost failures = { λ s. s.state.failures };

    fn write(&mut self, bytes: &[u8]) -> Result<usize, DeviceFault>
        ensures answer { result ≡ answer_of self.old.state (length bytes.now) }
        ensures taken { let n = passed_count self.old.state (length bytes.now) in
            self.new.bytes ≡ self.old.bytes ++ take n bytes.now }
        ensures state { self.new.state ≡ after_call self.old.state (length bytes.now) }
        ensures bound { IfOk result (λ n. n ≤ length bytes.now) }
        ensures some { IfOk result (λ n. 0 < length bytes.now → 0 < n) }
        ensures bytes { WriteAppends (Some self.old.bytes) (Some self.new.bytes) result bytes.now }
        ensures no_failure { OnOk result (NoFailure self.old.state.failures self.new.state.failures) }
        ensures fault { OnErr result
            (CountsFailure self.old.state.failures self.new.state.failures) }
    {
        let passed = self.state.call(bytes.len())?;
        self.bytes.extend_from_slice(&bytes[..passed]).unwrap();
        Ok(passed)
    }
}
