//! The instruction set of classic BPF (McCanne and Jacobson 1993; Linux's filter.rst).
//!
//! A capture filter is a program of at most [`MAX_INSNS`] packed instructions, each a
//! [`Packed`]: code, jt, jf and k. [`read_numeric`] reads a program from the text that
//! `tcpdump -ddd` prints, and [`write_numeric`] writes it back. `bpf_loader` accepts or refuses the
//! program, and `bpf_machine` runs it on frames.
//!
//! ```
//! // ld [0]; ret a: the return value is the frame's first four bytes.
//! let insns = read_numeric(alloc, "2,32 0 0 0,22 0 0 0,")?;
//! let insn = Insn::unpack(insns[0]);
//! assert_eq!(insn, Some(Insn::Load(Load::Absolute(Size::Word, 0))));
//! assert_eq!(insn.map(Insn::pack), Some(insns[0]));
//! ```
//!
//! [`Insn`] is one of the table's 49 instructions with its operands. It joins seven families:
//! [`Load`], [`LoadX`], [`Store`], [`Alu`], [`Jump`], [`Return`] and [`Move`]. Each is a
//! [`Family`]: it packs to a [`Packed`], unpacks from one, and is carried out on a [`State`], the
//! registers A and X and the scratch memory M[0] to M[15]. The outcome of a step is the next state
//! or the filter's return value ([`Outcome`]).
#![tactic(auto)]

mod alu;
mod family;
mod insn;
mod jump;
mod laws;
mod load;
mod load_x;
mod moves;
mod numeric;
mod packed;
mod returns;
mod source;
mod state;
mod store;

pub use alu::{Alu, Operator};
pub use family::Family;
pub use insn::{Insn, canonical};
pub use jump::{Condition, Jump};
pub use laws::{canonical_steps_alike, families_are_disjoint, families_cover_their_classes};
pub use load::{Load, Size};
pub use load_x::LoadX;
pub use moves::Move;
pub use numeric::{NumericFault, item_offset, read_numeric, write_numeric};
pub use packed::Packed;
pub use returns::Return;
pub use source::Source;
pub use state::{MAX_INSNS, Outcome, SCRATCH_SLOTS, State};
pub use store::Store;
