//! The command `asm`: a filter's source is assembled and printed in the numeric form.
ghost use Rattle.std.specs.Prelude.{◌≡◌, IfErr, IfOk, option_map, string_bytes};
ghost use Rattle.bpf_asm.specs.Assembly.{IsTextFault};
ghost use Rattle.filter_run.specs.Asm.{IsAsmRun, IsAssembledAs, Prints, text_fault};
ghost use Rattle.run_fault.specs.Device.{devices_of};

use bpf_asm::{AsmFault, assemble};
use bpf_isa::write_numeric;
use command_line::{Fault, FileOption};
use pcap_io::{OutSink, TapSource, write_all};
use run_inputs::{TextRefusal, read_text};
use std::alloc::Global;

/// An assembly that has ended, with the devices that it was given.
#[derive(Drop)]
pub struct AsmRun<S, W> {
    /// True if the program was printed, or why it wasn't.
    pub outcome: Result<(), Fault>,
    /// The filter's source, if it was read.
    pub text: Option<String>,
    /// Where it was read from.
    pub source: S,
    /// Where the program was printed.
    pub sink: W,
}

/// The fault for a text that wasn't read.
fn fault_of_text(refusal: TextRefusal) -> Fault
    ensures { result ≡ text_fault refusal }
{
    match refusal {
        TextRefusal::Device | TextRefusal::TooLong | TextRefusal::NotUtf8 => {
            Fault::File(FileOption::Standard)
        }
        TextRefusal::Memory => Fault::Asm(AsmFault::Memory),
    }
}

/// The numeric form of a source text's program, and a newline.
fn numeric_of(alloc: Global, text: &str) -> Result<String, AsmFault>
    ensures numeric { IfOk result (λ numeric. IsAssembledAs text.now (string_bytes numeric)) }
    ensures fault { IfErr result (λ fault. IsTextFault text.now fault) }
{
    let words = assemble(alloc, text)?;
    let mut numeric = write_numeric(alloc, &words)?;
    numeric.push_str("\n")?;
    Ok(numeric)
}

/// Writes the numeric form of a source text's program, and a newline.
fn print_numeric<W: OutSink>(alloc: Global, text: &str, sink: &mut W) -> Result<(), Fault>
    ensures { Prints text.now (W.contents sink.old) (W.contents sink.new)
        (W.failures sink.old) (W.failures sink.new) result }
{
    let numeric = match numeric_of(alloc, text) {
        Ok(numeric) => numeric,
        Err(fault) => return Err(Fault::Asm(fault)),
    };
    match write_all(sink, numeric.as_bytes()) {
        Ok(()) => Ok(()),
        Err(_) => Err(Fault::File(FileOption::Standard)),
    }
}

/// The command `asm`: reads the source of a filter, at most 16777216 bytes, assembles it and writes its
/// numeric form and a newline.
pub fn run_asm<S: TapSource, W: OutSink>(alloc: Global, source: S, sink: W) -> AsmRun<S, W>
    ensures { IsAsmRun (option_map string_bytes result.text) result.outcome
        (devices_of S.TapSource W.OutSink source sink)
        (devices_of S.TapSource W.OutSink result.source result.sink) }
{
    let (mut source, mut sink) = (source, sink);
    let text = match read_text(alloc, &mut source) {
        Ok(text) => text,
        Err(refusal) => {
            return AsmRun {
                outcome: Err(fault_of_text(refusal)),
                text: None,
                source,
                sink,
            };
        }
    };
    let outcome = print_numeric(alloc, &text, &mut sink);
    AsmRun {
        outcome,
        text: Some(text),
        source,
        sink,
    }
}
