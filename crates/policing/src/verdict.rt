//! The verdict, apart from the state that it is judged by, since crates above count and print it.

ghost use Rattle.std.specs.Prelude.{◌≡◌, ◌↔◌};
ghost use Rattle.policing.specs.Word.{policing_word};

/// The verdict of policing on a frame.
#[derive(Clone, Copy, Debug, PartialEq, Eq)]
pub enum Policing {
    /// The frame fits what the account holds, and is charged.
    Within,
    /// The frame is larger than what the account holds. It is dropped, and costs nothing.
    Excess,
}

impl Policing {
    /// The word of the verdict.
    pub fn word(self) -> &'static str
        ensures { result.now ≡ policing_word self }
    {
        match self {
            Policing::Within => "within",
            Policing::Excess => "excess",
        }
    }

    /// The verdict whose word the bytes are.
    #[inline]
    pub fn from_word(word: &[u8]) -> Option<Policing>
        ensures { (policing : Policing) → (policing_word policing ≡ word.now) ↔ (result ≡ Some policing) }
    {
        match word {
            b"within" => Some(Policing::Within),
            b"excess" => Some(Policing::Excess),
            _ => None,
        }
    }
}
