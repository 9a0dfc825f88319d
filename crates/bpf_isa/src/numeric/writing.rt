//! From instructions to text, in the one spelling that the program prints.

ghost use Rattle.std.specs.Prelude.{◌≡◌, ◌++◌, ◌≤◌, length, Ok, IfOk, OnOk};
ghost use Rattle.std.specs.String.{string_bytes};
ghost use Rattle.bpf_isa.specs.Numeric.{packed_text, numeric_text, IsPacked, numeric_of};
ghost use Rattle.bpf_isa.specs.declared.state.TheConstants.{MAX_INSNS};

use crate::packed::Packed;
use std::alloc::{AllocError, Global};
use std::fmt::Write;

fn push_insn(text: &mut String, insn: &Packed) -> Result<(), AllocError>
    ensures text { OnOk result
        (string_bytes text.new ≡ string_bytes text.old ++ packed_text insn.now) }
    ensures fits { IsPacked insn.now }
{
    let Packed { code, jt, jf, k } = *insn;
    write!(text, "{code} {jt} {jf} {k},")
}

/// Writes a program in the numeric form: the count and a comma, then `code jt jf k,` for each
/// instruction, in decimal with single spaces and without a newline.
///
/// # Errors
///
/// `AllocError` if there is no memory for the text. Every list needs some: none has an empty text.
pub fn write_numeric(alloc: Global, insns: &[Packed]) -> Result<String, AllocError>
    ensures text { IfOk result (λ s. string_bytes s ≡ numeric_text insns.now) }
    // It reads back as the same instructions, if a program may have as many.
    ensures reads_back { length insns.now ≤ MAX_INSNS
        → IfOk result (λ s. numeric_of (string_bytes s) ≡ Ok insns.now) }
{
    let mut text = String::new(alloc);
    let count = insns.len();
    write!(text, "{count},")?;
    for insn in insns {
        push_insn(&mut text, insn)?;
    }
    Ok(text)
}
