//! The frame check sequence at the end of a frame's bytes, which recordings of AFDX are not to hold.

/// The polynomial of Ethernet's check (IEEE 802.3), least significant bit first.
const POLYNOMIAL: u32 = 0xedb8_8320;

/// The register after a frame and its check sequence.
const REMAINDER: u32 = 0xdebb_20e3;

fn after_bit(register: u32) -> u32 {
    if register % 2 == 1 {
        (register / 2) ^ POLYNOMIAL
    } else {
        register / 2
    }
}

fn after_byte(register: u32, byte: u8) -> u32 {
    let first = register ^ u32::from(byte);
    (0..8).fold(first, |register, _| after_bit(register))
}

/// Do these bytes of a frame end with its frame check sequence? Of others one in 2^32 does by chance.
pub fn ends_with_check(bytes: &[u8]) -> bool {
    let register = bytes
        .iter()
        .fold(u32::MAX, |register, byte| after_byte(register, *byte));
    register == REMAINDER
}
