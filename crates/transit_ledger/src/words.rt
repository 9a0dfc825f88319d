//! The verdicts of policing in a ledger of transits.

/// The verdict of policing on a frame.
#[derive(Clone, Copy, PartialEq, Eq)]
pub enum PolicingWord {
    /// It sees regular frames that went in, and no others.
    None,
    /// Each account had to pass the frame.
    Within,
    /// No account could have passed it.
    Excess,
    /// Neither is certain.
    Unsure,
}

impl PolicingWord {
    /// The word of the ledger.
    pub fn word(self) -> &'static str {
        match self {
            PolicingWord::None => "-",
            PolicingWord::Within => "within",
            PolicingWord::Excess => "excess",
            PolicingWord::Unsure => "unsure",
        }
    }

    /// The verdict whose word the bytes are.
    pub fn from_word(word: &[u8]) -> Option<PolicingWord> {
        match word {
            b"-" => Some(PolicingWord::None),
            b"within" => Some(PolicingWord::Within),
            b"excess" => Some(PolicingWord::Excess),
            b"unsure" => Some(PolicingWord::Unsure),
            _ => None,
        }
    }
}
