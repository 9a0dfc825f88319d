//! The support that the test crates share: recordings and devices, tables of virtual links, filters, a fixed
//! generator of numbers.

mod generator;
mod recordings;
mod tables;

pub use generator::Generator;
pub use recordings::{EVERY, FIRST_RUN, HEADER, ONE_LINK, ROOM, SOUND, TAP_A, WIDE, frame, loaded};
pub use tables::{TABLE, TWO_TAPS};
