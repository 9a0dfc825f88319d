//! The options at the end of a block.
ghost use Rattle.std.specs.Prelude.{◌≡◌, ◌<◌, ◌≤◌, ◌^◌, length, take, drop, option_map, IfSome, MatchOption};
ghost use Rattle.pcap_io.specs.Layout.{number_in};
ghost use Rattle.pcapng.specs.Options.{fit, option_len, options_of, padded_len, value_len, value_of};

use pcap_io::{ByteOrder, read_u16};

/// The code of the option that ends them.
const END_OF_OPTIONS: u16 = 0;

/// So many bytes, with those that pad them to a multiple of 4.
#[inline]
pub fn padded_len(len: usize) -> usize
    requires { len < 2 ^ 32 }
    ensures { result ≡ padded_len len }
{
    len.div_ceil(4) * 4
}

/// An option: its code, its value, and where the next one starts.
#[derive(Clone, Copy)]
struct BlockOption<'a> {
    code: u16,
    value: &'a [u8],
    next: usize,
}

/// The option at the front. None: fewer bytes are left than it claims.
fn first_option(order: ByteOrder, bytes: &[u8]) -> Option<BlockOption<'_>>
    ensures fits { MatchOption result (length bytes.now < option_len order bytes.now)
        (λ o. option_len order bytes.now ≤ length bytes.now) }
    ensures code { IfSome result (λ o. o.code ≡ number_in order 2 bytes.now) }
    ensures value { IfSome result (λ o.
        o.value.now ≡ take (value_len order bytes.now) (drop 4 bytes.now)) }
    ensures next { IfSome result (λ o. o.next ≡ option_len order bytes.now) }
{
    if bytes.len() < 4 {
        return None;
    }
    let code = read_u16(order, bytes);
    let len = usize::from(read_u16(order, &bytes[2..]));
    let padded = padded_len(len);
    if padded > bytes.len() - 4 {
        return None;
    }
    Some(BlockOption {
        code,
        value: &bytes[4..4 + len],
        next: 4 + padded,
    })
}

/// The options end before their block does: no one reaches beyond it.
pub fn options_fit(order: ByteOrder, options: &[u8]) -> bool
    ensures { result ≡ fit (options_of order options.now) }
{
    let mut at = 0;
    while at < options.len() {
        let rest = &options[at..];
        if rest.len() >= 4 && read_u16(order, rest) == END_OF_OPTIONS {
            return true;
        }
        match first_option(order, rest) {
            Some(option) => at += option.next,
            None => return false,
        }
    }
    true
}

/// The value of the first option of this code, where there is one.
pub fn find_option(order: ByteOrder, options: &[u8], code: u16) -> Option<&[u8]>
    ensures { option_map (λ v. v.now) result ≡ value_of code (options_of order options.now) }
{
    let mut at = 0;
    while at < options.len() {
        let Some(option) = first_option(order, &options[at..]) else {
            return None;
        };
        if option.code == END_OF_OPTIONS {
            return None;
        }
        if option.code == code {
            return Some(option.value);
        }
        at += option.next;
    }
    None
}
