//! Which names the language takes for itself: none of them can be a label.

ghost use Rattle.std.specs.Prelude.{◌≡◌, map};
ghost use Rattle.bpf_text.specs.Keywords.{keywords, with_first, keyword_in, keyword_of};

/// The operation of an instruction, by its name in the source.
#[derive(Clone, Copy, PartialEq, Eq)]
pub enum Mnemonic {
    /// Loads A: a word of the packet, a scratch memory slot, a number or the packet's length.
    Ld,
    /// Loads a number into A.
    Ldi,
    /// Loads a half-word (2 bytes) of the packet into A.
    Ldh,
    /// Loads a byte of the packet into A.
    Ldb,
    /// Loads X.
    Ldx,
    /// Loads a number into X.
    Ldxi,
    /// Loads the length of an IPv4 header into X.
    Ldxb,
    /// Stores A in a scratch memory slot.
    St,
    /// Stores X in a scratch memory slot.
    Stx,
    /// Jumps.
    Jmp,
    /// Jumps: `jmp` by its other name.
    Ja,
    /// Jumps where A is equal.
    Jeq,
    /// Jumps where A isn't equal.
    Jneq,
    /// Jumps where A isn't equal: `jneq` by its other name.
    Jne,
    /// Jumps where A is less.
    Jlt,
    /// Jumps where A is less or equal.
    Jle,
    /// Jumps where A is greater.
    Jgt,
    /// Jumps where A is greater or equal.
    Jge,
    /// Jumps where A has a bit of the operand.
    Jset,
    /// Adds to A.
    Add,
    /// Subtracts from A.
    Sub,
    /// Multiplies A.
    Mul,
    /// Divides A.
    Div,
    /// Takes A modulo the operand.
    Mod,
    /// Negates A.
    Neg,
    /// Bitwise and.
    And,
    /// Bitwise or.
    Or,
    /// Bitwise exclusive or.
    Xor,
    /// Shifts A left.
    Lsh,
    /// Shifts A right.
    Rsh,
    /// Copies A to X.
    Tax,
    /// Copies X to A.
    Txa,
    /// Ends the filter with a return value.
    Ret,
}

/// A word that can't be a label.
#[derive(Clone, Copy, PartialEq, Eq)]
pub(crate) enum Keyword {
    Mnemonic(Mnemonic),
    X,
    A,
    M,
    Len,
}

// The keywords in lower case, by their first letter. The source has them in either case.
static WITH_A: [(&str, Keyword); 3] = [
    ("add", Keyword::Mnemonic(Mnemonic::Add)),
    ("and", Keyword::Mnemonic(Mnemonic::And)),
    ("a", Keyword::A),
];

static WITH_D: [(&str, Keyword); 1] = [("div", Keyword::Mnemonic(Mnemonic::Div))];

static WITH_J: [(&str, Keyword); 10] = [
    ("jmp", Keyword::Mnemonic(Mnemonic::Jmp)),
    ("ja", Keyword::Mnemonic(Mnemonic::Ja)),
    ("jeq", Keyword::Mnemonic(Mnemonic::Jeq)),
    ("jneq", Keyword::Mnemonic(Mnemonic::Jneq)),
    ("jne", Keyword::Mnemonic(Mnemonic::Jne)),
    ("jlt", Keyword::Mnemonic(Mnemonic::Jlt)),
    ("jle", Keyword::Mnemonic(Mnemonic::Jle)),
    ("jgt", Keyword::Mnemonic(Mnemonic::Jgt)),
    ("jge", Keyword::Mnemonic(Mnemonic::Jge)),
    ("jset", Keyword::Mnemonic(Mnemonic::Jset)),
];

static WITH_L: [(&str, Keyword); 9] = [
    ("ld", Keyword::Mnemonic(Mnemonic::Ld)),
    ("ldi", Keyword::Mnemonic(Mnemonic::Ldi)),
    ("ldh", Keyword::Mnemonic(Mnemonic::Ldh)),
    ("ldb", Keyword::Mnemonic(Mnemonic::Ldb)),
    ("ldx", Keyword::Mnemonic(Mnemonic::Ldx)),
    ("ldxi", Keyword::Mnemonic(Mnemonic::Ldxi)),
    ("ldxb", Keyword::Mnemonic(Mnemonic::Ldxb)),
    ("lsh", Keyword::Mnemonic(Mnemonic::Lsh)),
    ("len", Keyword::Len),
];

static WITH_M: [(&str, Keyword); 3] = [
    ("mul", Keyword::Mnemonic(Mnemonic::Mul)),
    ("mod", Keyword::Mnemonic(Mnemonic::Mod)),
    ("m", Keyword::M),
];

static WITH_N: [(&str, Keyword); 1] = [("neg", Keyword::Mnemonic(Mnemonic::Neg))];

static WITH_O: [(&str, Keyword); 1] = [("or", Keyword::Mnemonic(Mnemonic::Or))];

static WITH_R: [(&str, Keyword); 2] = [
    ("rsh", Keyword::Mnemonic(Mnemonic::Rsh)),
    ("ret", Keyword::Mnemonic(Mnemonic::Ret)),
];

static WITH_S: [(&str, Keyword); 3] = [
    ("st", Keyword::Mnemonic(Mnemonic::St)),
    ("stx", Keyword::Mnemonic(Mnemonic::Stx)),
    ("sub", Keyword::Mnemonic(Mnemonic::Sub)),
];

static WITH_T: [(&str, Keyword); 2] = [
    ("tax", Keyword::Mnemonic(Mnemonic::Tax)),
    ("txa", Keyword::Mnemonic(Mnemonic::Txa)),
];

static WITH_X: [(&str, Keyword); 2] = [
    ("xor", Keyword::Mnemonic(Mnemonic::Xor)),
    ("x", Keyword::X),
];

/// The keywords with this first letter. The letter is in lower case.
fn keywords_with(first: u8) -> &'static [(&'static str, Keyword)]
    ensures { map (λ row. (row.0.now, row.1)) result.now ≡ with_first first keywords }
{
    match first {
        b'a' => &WITH_A,
        b'd' => &WITH_D,
        b'j' => &WITH_J,
        b'l' => &WITH_L,
        b'm' => &WITH_M,
        b'n' => &WITH_N,
        b'o' => &WITH_O,
        b'r' => &WITH_R,
        b's' => &WITH_S,
        b't' => &WITH_T,
        b'x' => &WITH_X,
        _ => &[],
    }
}

/// The keyword of the first row that the name spells, in either case.
fn keyword_in(rows: &[(&'static str, Keyword)], name: &str) -> Option<Keyword>
    ensures { result ≡ keyword_in (map (λ row. (row.0.now, row.1)) rows.now) name.now }
{
    for (word, keyword) in rows {
        if word.eq_ignore_ascii_case(name) {
            return Some(*keyword);
        }
    }
    None
}

/// The keyword that the name spells, in either case.
pub(crate) fn keyword_of(name: &str) -> Option<Keyword>
    ensures { result ≡ keyword_of name.now }
{
    match name.as_bytes() {
        [first, ..] => keyword_in(keywords_with(first.to_ascii_lowercase()), name),
        [] => None,
    }
}
