//! The numeric form of a program: what `tcpdump -ddd` prints, with commas or newlines.
//!
//! A comma or a newline ends an item. The first item is the number of instructions; each further
//! one is an instruction, the four numbers code, jt, jf and k with blanks (space, tab or carriage
//! return) between them. Items of blanks alone are left out.

mod fault;
mod part;
mod place;
mod reading;
mod writing;

pub use fault::NumericFault;
pub use place::item_offset;
pub use reading::read_numeric;
pub use writing::write_numeric;
