//! The texts that a run is set up by: filters in the numeric form, and the table of virtual links.
ghost use Rattle.std.specs.Prelude.{◌≡◌, ◌+◌, ◌≤◌, ◌∷◌, ◌++◌, IfErr, IfOk, List, None, OnOk, length, map, string_bytes, vec_capacity, vec_len};
ghost use Rattle.bpf_isa.specs.declared.packed.Packed.{Packed};
ghost use Rattle.vl_config.specs.Document.{IsTableOfText, first_fault};
ghost use Rattle.run_inputs.specs.Inputs.{AreFilters, IsConfigFault, IsFilter, IsFilterFault, IsFiltersFault, IsFirstFilterFault, IsSourceFault, IsSourceFilter, file_fault};
ghost use Rattle.run_inputs.specs.Text.{IsTextRefusal, IsWholeText};
ghost use Rattle.run_inputs.specs.declared.text.TextRefusal.{TextRefusal};

use crate::text::{TextRefusal, read_text};
use bpf_asm::assemble;
use bpf_isa::read_numeric;
use bpf_loader::Program;
use command_line::{Fault, FileOption};
use pcap_io::TapSource;
use run_fault::WatchFault;
use std::alloc::Global;
use vl_config::Config;

/// The filter that a text in the numeric form holds. `number` is its place in the table, from 1; the
/// command line's filter has none.
pub fn filter_of(alloc: Global, code: &str, number: Option<u8>) -> Result<Program, Fault>
    ensures filter { IfOk result (λ program. IsFilter code.now program) }
    ensures fault { IfErr result (λ fault. IsFilterFault code.now number fault) }
{
    let words = read_numeric(alloc, code).map_err(|fault| Fault::Numeric {
        fault,
        filter: number,
    })?;
    Program::load(words).map_err(|refused| Fault::Load {
        fault: refused.fault,
        filter: number,
    })
}

/// The filter that a source text holds.
///
/// # Errors
///
/// `Fault::Asm` if the text isn't the source of a program, `Fault::Load` if the program isn't a filter.
pub fn filter_of_source(alloc: Global, text: &str) -> Result<Program, Fault>
    ensures filter { IfOk result (λ program. IsSourceFilter text.now program) }
    ensures fault { IfErr result (λ fault. IsSourceFault text.now fault) }
{
    let words = match assemble(alloc, text) {
        Ok(words) => words,
        Err(fault) => return Err(Fault::Asm(fault)),
    };
    match Program::load(words) {
        Ok(program) => Ok(program),
        Err(refused) => Err(Fault::Load {
            fault: refused.fault,
            filter: None,
        }),
    }
}

/// The fault for a file whose text wasn't read.
fn fault_of_file(file: FileOption, refusal: TextRefusal) -> Fault
    ensures { result ≡ file_fault file refusal }
{
    match refusal {
        TextRefusal::Device | TextRefusal::TooLong | TextRefusal::NotUtf8 => Fault::File(file),
        TextRefusal::Memory => Fault::Watch(WatchFault::Memory),
    }
}

/// Reads the text of a file, at most 16777216 bytes.
pub fn read_file<S: TapSource>(
    alloc: Global,
    file: FileOption,
    source: &mut S,
) -> Result<String, Fault>
    ensures whole { IfOk result (λ text.
        IsWholeText (S.remaining source.old) (S.remaining source.new) (string_bytes text)) }
    ensures no_failure { OnOk result (S.failures source.new ≡ S.failures source.old) }
    ensures refused { IfErr result (λ fault. (refusal : TextRefusal) × (fault ≡ file_fault file refusal)
        × IsTextRefusal (S.remaining source.old) (S.remaining source.new)
        (S.failures source.old) (S.failures source.new) refusal) }
{
    match read_text(alloc, source) {
        Ok(text) => Ok(text),
        Err(refusal) => Err(fault_of_file(file, refusal)),
    }
}

/// Reads a table of virtual links.
pub fn read_config(alloc: Global, text: &str) -> Result<Config, Fault>
    ensures table { IfOk result (λ config. IsTableOfText text.now config) }
    ensures no_fault { OnOk result (first_fault text.now ≡ None) }
    ensures fault { IfErr result (IsConfigFault text.now) }
{
    match Config::read(alloc, text) {
        Ok(config) => Ok(config),
        Err(fault) => Err(Fault::Config(fault)),
    }
}

/// Appends the filters of a table, of which that of the first text has the number 1.
fn load_table_filters(
    alloc: Global,
    texts: &[String],
    programs: &mut Vec<Program>,
) -> Result<(), Fault>
    requires few { length texts.now ≤ 7 }
    requires room { vec_len programs.old + length texts.now ≤ vec_capacity programs.old }
    ensures filters { OnOk result ((ps : List (List Packed))
        × AreFilters (map string_bytes texts.now) ps
        × (programs.new.items ≡ programs.old.items ++ ps)) }
    ensures fault { IfErr result (IsFirstFilterFault 1 (map string_bytes texts.now)) }
{
    for index in 0..texts.len() {
        let program = filter_of(alloc, &texts[index], Some(index as u8 + 1))?;
        programs.push_reserved(program);
    }
    Ok(())
}

/// The filters of a run: that of the command line, and those of the table. The first text that holds
/// no filter is the fault. `Watch(Memory)`, for the list of them, comes only where the command line's
/// text holds one.
pub fn load_filters(alloc: Global, code: &str, config: &Config) -> Result<Vec<Program>, Fault>
    ensures filters { IfOk result (λ programs.
        AreFilters (code.now ∷ config.now.filters) programs.items) }
    ensures fault { IfErr result (IsFiltersFault code.now config.now.filters) }
{
    let texts = config.filters();
    let first = filter_of(alloc, code, None)?;
    let Ok(mut programs) = Vec::with_capacity(alloc, texts.len() + 1) else {
        return Err(Fault::Watch(WatchFault::Memory));
    };
    programs.push_reserved(first);
    load_table_filters(alloc, texts, &mut programs)?;
    Ok(programs)
}
