//! Interfaces of a section, and the time that their timestamps stand for.
ghost use Rattle.std.specs.Prelude.{◌≡◌, ℕ, ◌*◌, ◌<◌, ◌≤◌, ◌^◌, length, Ok, Err, false, IfOk, IfSome, MatchOption, MatchResult};
ghost use Rattle.pcap_io.specs.Layout.{number_in};
ghost use Rattle.pcapng.specs.Interface.{bytes_of_name, described_of, has_name, interface_of, name_bytes, name_from, nanoseconds_of, offset_from, offset_of, resolution_from, resolution_of, time_of};
ghost use Rattle.pcapng.specs.Options.{options_of, value_of};

use crate::choice::InterfaceName;
use crate::options::find_option;
use byteorder::{BigEndian, ByteOrder as Endian, LittleEndian};
use pcap_io::{BadReason, ByteOrder, read_u16};

/// The codes of the options that are read (draft-ietf-opsawg-pcapng, Interface Description Block).
const IF_NAME: u16 = 2;

const IF_TSRESOL: u16 = 9;

const IF_TSOFFSET: u16 = 14;

/// The link type of Ethernet.
const ETHERNET: u16 = 1;

/// Where the options of an interface description start.
const OPTIONS_AT: usize = 16;

/// From this number of nanoseconds on a timestamp isn't read: 2^32 seconds.
const END_OF_TIME: u128 = 4_294_967_296_000_000_000;

/// The powers of 10 below 2^64.
const POWERS_OF_TEN: [u64; 20] = [
    1,
    10,
    100,
    1_000,
    10_000,
    100_000,
    1_000_000,
    10_000_000,
    100_000_000,
    1_000_000_000,
    10_000_000_000,
    100_000_000_000,
    1_000_000_000_000,
    10_000_000_000_000,
    100_000_000_000_000,
    1_000_000_000_000_000,
    10_000_000_000_000_000,
    100_000_000_000_000_000,
    1_000_000_000_000_000_000,
    10_000_000_000_000_000_000,
];

/// 10 to this power. None: it is 2^64 or more.
#[inline]
fn power_of_ten(power: u8) -> Option<u64>
    ensures { MatchOption result (20 ≤ power) (λ n. (power < 20) × (n ≡ 10 ^ power)) }
{
    let power = usize::from(power);
    if power < POWERS_OF_TEN.len() {
        Some(POWERS_OF_TEN[power])
    } else {
        None
    }
}

/// The part of a second that timestamps count.
#[derive(Clone, Copy, Debug, PartialEq, Eq)]
pub enum Resolution {
    /// 10 to the minus this.
    Decimal(u8),
    /// 2 to the minus this.
    Binary(u8),
}

impl Resolution {
    /// That of the option `if_tsresol`: where the top bit is set, the rest is the power of 2.
    fn of_option(value: u8) -> Resolution
        ensures { result ≡ resolution_of value }
    {
        if value < 128 {
            Resolution::Decimal(value)
        } else {
            Resolution::Binary(value - 128)
        }
    }

    /// So many counts in nanoseconds, cut down to whole ones.
    #[inline]
    fn nanoseconds(self, count: u64) -> u128
        ensures value { result ≡ nanoseconds_of self count }
        ensures bound { result < 2 ^ 94 }
    {
        match self {
            Resolution::Decimal(6) => u128::from(count) * 1000,
            Resolution::Decimal(9) => u128::from(count),
            Resolution::Decimal(power) if power < 9 => {
                u128::from(count) * u128::from(POWERS_OF_TEN[9 - usize::from(power)])
            }
            Resolution::Decimal(power) => match power_of_ten(power - 9) {
                Some(counts) => u128::from(count / counts),
                None => 0,
            },
            Resolution::Binary(power) if power < 128 => {
                (u128::from(count) * 1_000_000_000) >> u32::from(power)
            }
            Resolution::Binary(_) => 0,
        }
    }
}

/// The seconds that are added to an interface's timestamps.
#[derive(Clone, Copy, Debug, PartialEq, Eq)]
pub enum Offset {
    Later(u64),
    Earlier(u64),
}

impl Offset {
    /// That of the option `if_tsoffset`, a signed number of 64 bits.
    fn of_option(value: u64) -> Offset
        ensures { result ≡ offset_of value }
    {
        if value < 1 << 63 {
            Offset::Later(value)
        } else {
            Offset::Earlier(value.wrapping_neg())
        }
    }
}

/// An interface of a section.
#[derive(Clone, Copy, Debug)]
pub struct Interface {
    /// Its number in its section, from 0.
    pub number: u32,
    /// Its name, where it has one of at most [`MAX_NAME_LEN`](crate::MAX_NAME_LEN) bytes.
    pub name: Option<InterfaceName>,
    /// Its link type is Ethernet.
    pub ethernet: bool,
    /// It has had packets.
    pub has_packets: bool,
    pub resolution: Resolution,
    pub offset: Offset,
}

/// The number in the first eight bytes.
fn read_u64(order: ByteOrder, bytes: &[u8]) -> u64
    requires { 8 ≤ length bytes.now }
    ensures { result ≡ number_in order 8 bytes.now }
{
    match order {
        ByteOrder::Little => LittleEndian::read_u64(bytes),
        ByteOrder::Big => BigEndian::read_u64(bytes),
    }
}

/// The name that the options give, where it is no longer than one that can be chosen.
fn name_in(order: ByteOrder, options: &[u8]) -> Option<InterfaceName>
    ensures { bytes_of_name result ≡ name_from (value_of 2 (options_of order options.now)) }
{
    match find_option(order, options, IF_NAME) {
        Some(name) => InterfaceName::new(name),
        None => None,
    }
}

/// The part of a second that the options give. None: theirs has another length.
fn resolution_in(order: ByteOrder, options: &[u8]) -> Option<Resolution>
    ensures { result ≡ resolution_from (value_of 9 (options_of order options.now)) }
{
    match find_option(order, options, IF_TSRESOL) {
        Some([value]) => Some(Resolution::of_option(*value)),
        Some(_) => None,
        None => Some(Resolution::Decimal(6)),
    }
}

/// The offset that the options give. None: theirs has another length.
fn offset_in(order: ByteOrder, options: &[u8]) -> Option<Offset>
    ensures { result ≡ offset_from order (value_of 14 (options_of order options.now)) }
{
    match find_option(order, options, IF_TSOFFSET) {
        Some(value) if value.len() == 8 => Some(Offset::of_option(read_u64(order, value))),
        Some(_) => None,
        None => Some(Offset::Later(0)),
    }
}

impl Interface {
    /// The next interface of a section, which so many stand before. The block is whole, and its
    /// options lie within it.
    pub fn described(order: ByteOrder, number: u32, block: &[u8]) -> Result<Interface, BadReason>
        requires { 20 ≤ length block.now }
        ensures value { MatchResult result
            (λ i. interface_of order number block.now ≡ Ok (described_of i))
            (λ reason. interface_of order number block.now ≡ Err reason) }
        ensures no_packets { IfOk result (λ i. i.has_packets ≡ false) }
    {
        let options = &block[OPTIONS_AT..block.len() - 4];
        let Some(resolution) = resolution_in(order, options) else {
            return Err(BadReason::BlockBounds);
        };
        let Some(offset) = offset_in(order, options) else {
            return Err(BadReason::BlockBounds);
        };
        Ok(Interface {
            number,
            name: name_in(order, options),
            ethernet: read_u16(order, &block[8..]) == ETHERNET,
            has_packets: false,
            resolution,
            offset,
        })
    }

    /// True if it has this name.
    pub fn is_named(&self, name: &InterfaceName) -> bool
        ensures { result ≡ has_name (name_bytes name.now) (bytes_of_name self.now.name) }
    {
        match &self.name {
            Some(own) => own.as_bytes() == name.as_bytes(),
            None => false,
        }
    }

    /// The time of a timestamp in nanoseconds since 1970. None: it lies before that, or 2^32 seconds
    /// or more after it.
    #[inline]
    pub fn stamp(&self, count: u64) -> Option<u64>
        ensures value { result ≡ time_of self.now.resolution self.now.offset count }
        ensures bound { IfSome result (λ n. n < 2 ^ 32 * 1000000000) }
    {
        let nanoseconds = self.resolution.nanoseconds(count);
        let total = match self.offset {
            Offset::Later(0) => nanoseconds,
            Offset::Later(seconds) => {
                nanoseconds.checked_add(u128::from(seconds) * 1_000_000_000)?
            }
            Offset::Earlier(seconds) => {
                nanoseconds.checked_sub(u128::from(seconds) * 1_000_000_000)?
            }
        };
        if total < END_OF_TIME {
            Some(total as u64)
        } else {
            None
        }
    }
}
