//! From text to instructions. The count comes first, so that one allocation of a known size serves.

ghost use Rattle.std.specs.Prelude.{◌≡◌, ◌<◌, ◌≤◌, ℕ, List, [], ◌∷◌, Err, position, not};
ghost use Rattle.std.specs.Prelude.{IfOk, MatchOption};
ghost use Rattle.bpf_isa.specs.declared.numeric.fault.NumericFault.TheVariants.{Form, Memory};
ghost use Rattle.bpf_isa.specs.declared.state.TheConstants.{MAX_INSNS};
ghost use Rattle.bpf_isa.specs.Numeric.{Gives, is_allowed, numbers_in, items_in, number_of};
ghost use Rattle.bpf_isa.specs.Numeric.{count_of, packed_of, counted_insns, numeric_of, HasCount};

use crate::numeric::fault::NumericFault;
use crate::numeric::part::{Item, Part, is_allowed};
use crate::packed::Packed;
use crate::state::MAX_INSNS;
use std::alloc::Global;

/// The value of a decimal number, which is at most `most`.
#[tactic(auto, unfolding(crate::specs::Numeric::number_of, crate::specs::Numeric::value_of))]
fn read_number(digits: Part<'_>, most: u32) -> Result<u32, NumericFault>
    ensures value { result ≡ number_of most (digits.entry.at, digits.entry.bytes.now) }
    ensures bounded { IfOk result (λ n. n ≤ most) }
{
    let mut value: u64 = 0;
    for digit in digits.bytes {
        value = value * 10 + u64::from(digit.saturating_sub(b'0'));
        // Checked at each digit, since there may be any number of them.
        if value > u64::from(most) {
            return Err(NumericFault::Number { at: digits.at });
        }
    }
    Ok(value as u32)
}

#[tactic(auto, unfolding(crate::specs::Numeric::count_of))]
fn read_count(item: Item<'_>) -> Result<usize, NumericFault>
    ensures value { result ≡ count_of (item.entry.first.at, item.entry.first.bytes.now)
        (numbers_in item.entry.others.at item.entry.others.bytes.now) }
    ensures bounded { IfOk result (λ n. n ≤ MAX_INSNS) }
{
    let at = item.first.at;
    if item.others.next_number().is_some() {
        return Err(NumericFault::Form { at });
    }
    let count = read_number(item.first, u32::MAX)?;
    if count as usize > MAX_INSNS {
        return Err(NumericFault::TooMany { at });
    }
    Ok(count as usize)
}

/// The three numbers after an item's first, if there are exactly three.
#[tactic(auto, unfolding(crate::specs::Numeric::packed_of))]
fn last_three(others: Part<'_>) -> Option<(Part<'_>, Part<'_>, Part<'_>)>
    ensures { MatchOption result
        ((code : ℕ × List ℕ) → packed_of code (numbers_in others.entry.at others.entry.bytes.now)
        ≡ Err (Form code.0))
        (λ x. numbers_in others.entry.at others.entry.bytes.now
        ≡ (x.0.at, x.0.bytes.now) ∷ (x.1.at, x.1.bytes.now) ∷ (x.2.at, x.2.bytes.now) ∷ []) }
{
    let (jt, rest) = others.next_number()?;
    let (jf, rest) = rest.next_number()?;
    let (k, rest) = rest.next_number()?;
    match rest.next_number() {
        None => Some((jt, jf, k)),
        Some(_) => None,
    }
}

#[tactic(auto, unfolding(crate::specs::Numeric::packed_of))]
fn read_insn(item: Item<'_>) -> Result<Packed, NumericFault>
    ensures { result ≡ packed_of (item.entry.first.at, item.entry.first.bytes.now)
        (numbers_in item.entry.others.at item.entry.others.bytes.now) }
{
    let Some((jt, jf, k)) = last_three(item.others) else {
        return Err(NumericFault::Form { at: item.first.at });
    };
    let code = read_number(item.first, u32::from(u16::MAX))?;
    let jt = read_number(jt, u32::from(u8::MAX))?;
    let jf = read_number(jf, u32::from(u8::MAX))?;
    let k = read_number(k, u32::MAX)?;
    Ok(Packed {
        code: code as u16,
        jt: jt as u8,
        jf: jf as u8,
        k,
    })
}

/// The instructions of a text of `end` bytes that claims `count` of them. The allocation follows
/// the count and not the text: surplus items are checked and not kept.
fn read_insns(
    alloc: Global,
    count: usize,
    end: usize,
    text: Part<'_>,
) -> Result<Vec<Packed>, NumericFault>
    ensures exact { Gives (λ v. v.items) result
        (counted_insns end count (items_in text.entry.at text.entry.bytes.now)) }
    ensures memory { result ≡ Err Memory → 0 < count }
{
    let mut insns = Vec::with_capacity(alloc, count)?;
    let mut surplus = false;
    let mut rest = text;
    while let Some((item, after)) = rest.next_item() {
        let insn = read_insn(item)?;
        if insns.len() < count {
            insns.push(insn)?;
        } else {
            surplus = true;
        }
        rest = after;
    }
    if surplus || insns.len() < count {
        return Err(NumericFault::Count { at: end });
    }
    Ok(insns)
}

/// The offset of the first byte that the form doesn't have.
fn unknown_at(bytes: &[u8]) -> Option<usize>
    ensures { result ≡ position (λ b. not (is_allowed b)) bytes.now }
{
    bytes.iter().position(|b| !is_allowed(*b))
}

/// Reads a program in the numeric form, as `tcpdump -ddd` prints it, with commas or newlines.
///
/// Leading zeros are allowed, and blanks around a number. A text with several faults is refused
/// with the first by the order that [`NumericFault`] states, or with `Memory`. The call allocates
/// once, for the instructions, after it has read a count of at most [`MAX_INSNS`].
#[tactic(auto, unfolding(crate::specs::Numeric::numeric_of, crate::specs::Numeric::program_of))]
pub fn read_numeric(alloc: Global, text: &str) -> Result<Vec<Packed>, NumericFault>
    // The instructions of the text or its first fault, or out of memory.
    ensures exact { Gives (λ v. v.items) result (numeric_of text.now) }
    // It runs out of memory only if the text begins with a count of at least 1.
    ensures memory { result ≡ Err Memory → HasCount text.now }
{
    let bytes = text.as_bytes();
    if let Some(at) = unknown_at(bytes) {
        return Err(NumericFault::Character { at });
    }
    let Some((first, rest)) = (Part { at: 0, bytes }).next_item() else {
        return Err(NumericFault::Form { at: bytes.len() });
    };
    let count = read_count(first)?;
    read_insns(alloc, count, bytes.len(), rest)
}
