//! The lexer of the numeric form. Each piece keeps its byte offset, which the faults name.

ghost use Rattle.std.specs.Prelude.{◌≡◌, ◌+◌, ◌^◌, ◌<◌, ◌≤◌, ℕ, [], ◌∷◌, take, drop, length};
ghost use Rattle.std.specs.Prelude.{MatchOption, IfSome};
ghost use Rattle.std.specs.List.{prefix_len, position_or_len};
ghost use Rattle.bpf_isa.specs.Numeric.{is_blank, is_separator, is_space, is_allowed};
ghost use Rattle.bpf_isa.specs.Numeric.{numbers_in, items_in};

/// Some bytes of the text, and the offset of the first.
#[derive(Clone, Copy)]
pub(super) struct Part<'a> {
    pub(super) at: usize,
    pub(super) bytes: &'a [u8],
    ghost within: { at + length bytes.now < 2 ^ 64 },
}

/// An item: its first number, and the bytes after it.
#[derive(Clone, Copy)]
pub(super) struct Item<'a> {
    pub(super) first: Part<'a>,
    pub(super) others: Part<'a>,
}

fn is_blank(byte: u8) -> bool
    ensures { result ≡ is_blank byte }
{
    matches!(byte, b' ' | b'\t' | b'\r')
}

fn is_separator(byte: u8) -> bool
    ensures { result ≡ is_separator byte }
{
    matches!(byte, b',' | b'\n')
}

/// True if the numeric form has the byte.
pub(super) fn is_allowed(byte: u8) -> bool
    ensures { result ≡ is_allowed byte }
{
    byte.is_ascii_digit() || is_blank(byte) || is_separator(byte)
}

/// The number of leading blanks and separators.
fn space_len(bytes: &[u8]) -> usize
    ensures { result ≡ prefix_len is_space bytes.now }
{
    bytes
        .iter()
        .take_while(|b| is_blank(**b) || is_separator(**b))
        .count()
}

/// The number of leading blanks.
fn blank_len(bytes: &[u8]) -> usize
    ensures { result ≡ prefix_len is_blank bytes.now }
{
    bytes.iter().take_while(|b| is_blank(**b)).count()
}

/// The number of bytes before the first blank.
fn number_len(bytes: &[u8]) -> usize
    ensures { result ≡ position_or_len is_blank bytes.now }
{
    bytes.iter().take_while(|b| !is_blank(**b)).count()
}

/// The number of bytes before the first separator.
fn item_len(bytes: &[u8]) -> usize
    ensures { result ≡ position_or_len is_separator bytes.now }
{
    bytes.iter().take_while(|b| !is_separator(**b)).count()
}

impl<'a> Part<'a> {
    fn split_at(self, mid: usize) -> (Part<'a>, Part<'a>)
        requires { mid ≤ length self.bytes.now }
        ensures prefix { (result.0.at ≡ self.entry.at)
            × (result.0.bytes.now ≡ take mid self.entry.bytes.now) }
        ensures suffix { (result.1.at ≡ self.entry.at + mid)
            × (result.1.bytes.now ≡ drop mid self.entry.bytes.now) }
    {
        let (prefix, suffix) = self.bytes.split_at(mid);
        (
            Part {
                at: self.at,
                bytes: prefix,
            },
            Part {
                at: self.at + mid,
                bytes: suffix,
            },
        )
    }

    /// The first number of an item, and the bytes after it.
    pub(super) fn next_number(self) -> Option<(Part<'a>, Part<'a>)>
        ensures { MatchOption result
            (numbers_in self.entry.at self.entry.bytes.now ≡ [])
            (λ x. numbers_in self.entry.at self.entry.bytes.now
            ≡ (x.0.at, x.0.bytes.now) ∷ numbers_in x.1.at x.1.bytes.now) }
    {
        let (_, rest) = self.split_at(blank_len(self.bytes));
        if rest.bytes.is_empty() {
            return None;
        }
        Some(rest.split_at(number_len(rest.bytes)))
    }

    /// The first item that has a number, and the bytes after the item.
    pub(super) fn next_item(self) -> Option<(Item<'a>, Part<'a>)>
        ensures items { MatchOption result
            (items_in self.entry.at self.entry.bytes.now ≡ [])
            (λ x. items_in self.entry.at self.entry.bytes.now
            ≡ ((x.0.first.at, x.0.first.bytes.now), numbers_in x.0.others.at x.0.others.bytes.now)
            ∷ items_in x.1.at x.1.bytes.now) }
        ensures shorter { IfSome result (λ x. length x.1.bytes.now < length self.entry.bytes.now) }
    {
        let (_, rest) = self.split_at(space_len(self.bytes));
        if rest.bytes.is_empty() {
            return None;
        }
        let (item, after) = rest.split_at(item_len(rest.bytes));
        let (first, others) = item.split_at(number_len(item.bytes));
        Some((Item { first, others }, after))
    }
}
