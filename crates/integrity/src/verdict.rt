//! The verdict, apart from the state that it is judged by, since crates above count and print it.

ghost use Rattle.std.specs.Prelude.{◌≡◌, ◌↔◌};
ghost use Rattle.integrity.specs.Sequence.{is_valid};
ghost use Rattle.integrity.specs.Word.{integrity_word};

/// The verdict of integrity checking on a frame. All but [`Integrity::Out`] are valid: redundancy
/// management sees the frame.
///
/// From ARINC 664 Part 7: the next number and the one after it are accepted. The other cases are
/// this project's profile.
#[derive(Clone, Copy, Debug, PartialEq, Eq)]
pub enum Integrity {
    /// No frame of the link came on this network before.
    First,
    /// The number is 0, and it isn't the first: the sender has been reset.
    Reset,
    /// The number follows the one before.
    Next,
    /// The number follows the one before but one: one frame is missing.
    Skip,
    /// The link has integrity checking off.
    Off,
    /// Any other number. The frame is not valid.
    Out,
}

impl Integrity {
    /// Is the frame valid? Every verdict but `Out` says so.
    #[inline(always)]
    pub fn is_valid(self) -> bool
        ensures { result ≡ is_valid self }
    {
        !matches!(self, Integrity::Out)
    }

    /// The word of the verdict.
    pub fn word(self) -> &'static str
        ensures { result.now ≡ integrity_word self }
    {
        match self {
            Integrity::First => "first",
            Integrity::Reset => "reset",
            Integrity::Next => "next",
            Integrity::Skip => "skip",
            Integrity::Off => "off",
            Integrity::Out => "out",
        }
    }

    /// The verdict whose word the bytes are.
    #[inline]
    pub fn from_word(word: &[u8]) -> Option<Integrity>
        ensures { (integrity : Integrity)
            → (integrity_word integrity ≡ word.now) ↔ (result ≡ Some integrity) }
    {
        match word {
            b"next" => Some(Integrity::Next),
            b"first" => Some(Integrity::First),
            b"reset" => Some(Integrity::Reset),
            b"skip" => Some(Integrity::Skip),
            b"off" => Some(Integrity::Off),
            b"out" => Some(Integrity::Out),
            _ => None,
        }
    }
}
