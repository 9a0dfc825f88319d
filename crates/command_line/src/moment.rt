//! A moment as a person writes it.
ghost use Rattle.std.specs.Prelude.{◌≡◌, ◌≤◌, ◌*◌, ◌^◌, [], codes, option_and_then, option_map};
ghost use Rattle.std.specs.Result.{result_ok};
ghost use Rattle.jiff_fmt.specs.Temporal.{parse_time, parse_timestamp, time_parts};
ghost use Rattle.command_line.specs.Numbers.{number_in, text_of};
ghost use Rattle.command_line.specs.Moment.{clock_nanoseconds, decimal_in, digits_in, has_clock_bytes, has_colons, instant_in, length_in, is_clock_byte, is_digits, is_of_minutes, is_utc, is_m, is_s, is_u, moment_in, number_before, places_of, since_in, span_in, within};

use jiff::Timestamp;
use jiff::civil::Time;

/// The moment that a text names.
#[derive(Clone, Copy, PartialEq, Eq)]
pub enum MomentText {
    /// Nanoseconds since 1970 (UTC).
    At(u64),
    /// Nanoseconds since midnight, of a day that the text doesn't say.
    OfDay(u64),
    /// Nanoseconds since a beginning that the text doesn't say.
    Since(u64),
}

/// How many decimals of a length of time in seconds, milliseconds or microseconds are whole nanoseconds.
#[derive(Clone, Copy)]
enum Unit {
    Second,
    Millisecond,
    Microsecond,
}

/// The first nanosecond since 1970 that no recording has: its seconds are numbers of 32 bits.
const MOMENT_LIMIT: u64 = 4_294_967_296_000_000_000;

/// The nanoseconds since 1970, if a recording may have them.
fn within(nanoseconds: u64) -> Option<u64>
    ensures { result ≡ within nanoseconds }
{
    if nanoseconds < MOMENT_LIMIT {
        Some(nanoseconds)
    } else {
        None
    }
}

/// Are these digits alone?
fn is_digits(text: &str) -> bool
    ensures { result ≡ is_digits text.now }
{
    text.as_bytes().iter().all(|byte| byte.is_ascii_digit())
}

/// May the byte stand in a clock's text?
fn is_clock_byte(byte: u8) -> bool
    ensures { result ≡ is_clock_byte byte }
{
    byte.is_ascii_digit() || byte == b':' || byte == b'.'
}

/// Has the text nothing but digits, colons and points?
fn has_clock_bytes(text: &str) -> bool
    ensures { result ≡ has_clock_bytes text.now }
{
    text.as_bytes().iter().all(|byte| is_clock_byte(*byte))
}

/// Do colons stand where `HH:MM:SS` has them?
fn has_colons(text: &str) -> bool
    ensures { result ≡ has_colons text.now }
{
    let bytes = text.as_bytes();
    bytes.len() >= 8 && bytes[2] == b':' && bytes[5] == b':'
}

/// Has the text the length of `HH:MM`, and its colon?
fn is_of_minutes(text: &str) -> bool
    ensures { result ≡ is_of_minutes text.now }
{
    let bytes = text.as_bytes();
    bytes.len() == 5 && bytes[2] == b':'
}

/// Does the text end as one in UTC?
fn is_utc(text: &str) -> bool
    ensures { result ≡ is_utc text.now }
{
    let bytes = text.as_bytes();
    !bytes.is_empty() && bytes[bytes.len() - 1] == b'Z'
}

/// The nanoseconds since midnight of a time of day.
fn clock_nanoseconds(time: Time) -> u64
    ensures { result ≡ clock_nanoseconds (time_parts time) }
{
    let hour = time.hour() as u64;
    let minute = time.minute() as u64;
    let second = time.second() as u64;
    let subsecond = time.subsec_nanosecond() as u64;
    ((hour * 60 + minute) * 60 + second) * 1_000_000_000 + subsecond
}

/// The number of 64 bits that digits say.
pub(crate) fn read_number(text: &str) -> Option<u64>
    ensures { result ≡ number_in 64 text.now }
{
    match text.parse::<u64>() {
        Ok(number) => Some(number),
        Err(_) => None,
    }
}

/// The nanoseconds since 1970 that digits say.
fn read_nanoseconds(text: &str) -> Option<u64>
    ensures { result ≡ option_and_then within (number_in 64 text.now) }
{
    within(read_number(text)?)
}

/// The nanoseconds since midnight of a clock's text.
fn read_clock(text: &str) -> Option<u64>
    ensures { result ≡ option_map clock_nanoseconds (result_ok (parse_time text.now)) }
{
    match text.parse::<Time>() {
        Ok(time) => Some(clock_nanoseconds(time)),
        Err(_) => None,
    }
}

/// The nanoseconds since 1970 of a date and time.
fn read_instant(text: &str) -> Option<u64>
    ensures { result ≡ option_and_then instant_in (result_ok (parse_timestamp text.now)) }
{
    match text.parse::<Timestamp>() {
        Ok(instant) => match u64::try_from(instant.as_nanosecond()) {
            Ok(nanoseconds) => within(nanoseconds),
            Err(_) => None,
        },
        Err(_) => None,
    }
}

/// The decimals of a unit.
fn places_of(unit: Unit) -> usize
    ensures { result ≡ places_of unit }
{
    match unit {
        Unit::Second => 9,
        Unit::Millisecond => 6,
        Unit::Microsecond => 3,
    }
}

/// A number with so many zeros after it, at most nine.
fn with_zeros(number: u32, zeros: usize) -> u64
    ensures value { zeros ≤ 9 → result ≡ number * 10 ^ zeros }
    ensures bound { result ≤ number * 1000000000 }
{
    let number = u64::from(number);
    match zeros {
        0 => number,
        1 => number * 10,
        2 => number * 100,
        3 => number * 1000,
        4 => number * 10_000,
        5 => number * 100_000,
        6 => number * 1_000_000,
        7 => number * 10_000_000,
        8 => number * 100_000_000,
        _ => number * 1_000_000_000,
    }
}

/// The number below 2^32 that a text holds; a plus may stand first.
fn parse_digits(text: &str) -> Option<u32>
    ensures { result ≡ number_in 32 text.now }
{
    match text.parse::<u32>() {
        Ok(number) => Some(number),
        Err(_) => None,
    }
}

/// The number below 2^32 that digits write, without a sign.
fn read_digits(text: &str) -> Option<u32>
    ensures { result ≡ digits_in text.now }
{
    if is_digits(text) {
        parse_digits(text)
    } else {
        None
    }
}

/// The nanoseconds of a length of time that digits say, which may have a point and decimals after it.
fn read_decimal(text: &str, unit: Unit) -> Option<u64>
    ensures { result ≡ decimal_in (places_of unit) text.now }
{
    let places = places_of(unit);
    match text.split_once('.') {
        None => Some(with_zeros(read_digits(text)?, places)),
        Some((whole, decimals)) => {
            let count = decimals.len();
            if count > places {
                return None;
            }
            let (whole, part) = (read_digits(whole)?, read_digits(decimals)?);
            Some(with_zeros(whole, places) + with_zeros(part, places - count))
        }
    }
}

/// The text before `ms`.
fn before_ms(text: &str) -> Option<&str>
    ensures { option_map text_of result ≡ number_before is_m (codes "s") text.now }
{
    match text.split_once('m') {
        Some((number, "s")) => Some(number),
        _ => None,
    }
}

/// The text before `us`.
fn before_us(text: &str) -> Option<&str>
    ensures { option_map text_of result ≡ number_before is_u (codes "s") text.now }
{
    match text.split_once('u') {
        Some((number, "s")) => Some(number),
        _ => None,
    }
}

/// The text before `s`.
fn before_s(text: &str) -> Option<&str>
    ensures { option_map text_of result ≡ number_before is_s [] text.now }
{
    match text.split_once('s') {
        Some((number, "")) => Some(number),
        _ => None,
    }
}

/// The nanoseconds of a length of time: a number, which may have decimals, and `s`, `ms` or `us`. None where
/// the text is anything else, or has decimals below a nanosecond.
pub fn read_span(text: &str) -> Option<u64>
    ensures { result ≡ span_in text.now }
{
    match (before_ms(text), before_us(text), before_s(text)) {
        (Some(number), _, _) => read_decimal(number, Unit::Millisecond),
        (None, Some(number), _) => read_decimal(number, Unit::Microsecond),
        (None, None, Some(number)) => read_decimal(number, Unit::Second),
        (None, None, None) => None,
    }
}

/// The nanoseconds of a length of time, or of seconds without a unit.
fn read_length(text: &str) -> Option<u64>
    ensures { result ≡ length_in text.now }
{
    match read_span(text) {
        Some(length) => Some(length),
        None => read_decimal(text, Unit::Second),
    }
}

/// The nanoseconds since a beginning that a plus and a length of time say.
fn read_since(text: &str) -> Option<u64>
    ensures { result ≡ since_in text.now }
{
    match text.split_once('+') {
        Some(("", length)) => read_length(length),
        _ => None,
    }
}

/// The moment that a text says: nanoseconds since 1970, by digits alone; a time of day, `HH:MM`, or
/// `HH:MM:SS` with a fraction of up to nine digits; a date and time in UTC, as RFC 3339 writes it with a `Z`;
/// or a length of time since a beginning, after a plus, in seconds where it has no unit. Second 60 is read as
/// 59. None where it is none of these, before 1970, or past the 32 bits of a recording's seconds.
pub fn read_moment(text: &str) -> Option<MomentText>
    ensures { result ≡ moment_in text.now }
{
    if is_digits(text) {
        return Some(MomentText::At(read_nanoseconds(text)?));
    }
    if (has_colons(text) || is_of_minutes(text)) && has_clock_bytes(text) {
        return Some(MomentText::OfDay(read_clock(text)?));
    }
    if is_utc(text) {
        return Some(MomentText::At(read_instant(text)?));
    }
    Some(MomentText::Since(read_since(text)?))
}
