//! The form in which filters come from outside: four numbers, which may be no instruction.

ghost use Rattle.std.specs.Prelude.{◌≡◌};
ghost use Rattle.bpf_isa.specs.Families.{packed_k};

/// One instruction as the kernel and libpcap pack it (`struct sock_filter`, `struct bpf_insn`).
#[derive(Clone, Copy, Debug, PartialEq, Eq)]
pub struct Packed {
    /// The operation. Its three lowest bits are the class (`BPF_CLASS`).
    pub code: u16,
    /// How many instructions a conditional jump skips if its comparison holds.
    pub jt: u8,
    /// How many it skips if the comparison fails.
    pub jf: u8,
    /// The operand.
    pub k: u32,
}

impl Packed {
    /// The instruction with jt and jf 0.
    #[inline(always)]
    pub(crate) fn with_k(code: u16, k: u32) -> Packed
        ensures { result ≡ packed_k code k }
    {
        Packed {
            code,
            jt: 0,
            jf: 0,
            k,
        }
    }
}
