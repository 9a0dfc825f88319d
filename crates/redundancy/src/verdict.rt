//! The verdict, apart from the state that it is judged by, since crates above count and print it.

ghost use Rattle.std.specs.Prelude.{◌≡◌, ◌↔◌};
ghost use Rattle.redundancy.specs.Deliveries.{is_delivered};
ghost use Rattle.redundancy.specs.Word.{redundancy_word};

/// The verdict of redundancy management on a frame. `Deliver` and `Both` are delivered.
#[derive(Clone, Copy, Debug, PartialEq, Eq)]
pub enum Redundancy {
    /// The frame is delivered.
    Deliver,
    /// The frame is the second of a pair: the other network delivered its sequence number at most
    /// SkewMax earlier.
    Copy,
    /// The link has redundancy management off, so the frames of both networks are delivered.
    Both,
}

impl Redundancy {
    /// Is the frame delivered? Every verdict but `Copy` says so.
    #[inline(always)]
    pub fn is_delivered(self) -> bool
        ensures { result ≡ is_delivered self }
    {
        !matches!(self, Redundancy::Copy)
    }

    /// The word of the verdict.
    pub fn word(self) -> &'static str
        ensures { result.now ≡ redundancy_word self }
    {
        match self {
            Redundancy::Deliver => "deliver",
            Redundancy::Copy => "copy",
            Redundancy::Both => "both",
        }
    }

    /// The verdict whose word the bytes are.
    #[inline]
    pub fn from_word(word: &[u8]) -> Option<Redundancy>
        ensures { (redundancy : Redundancy)
            → (redundancy_word redundancy ≡ word.now) ↔ (result ≡ Some redundancy) }
    {
        match word {
            b"deliver" => Some(Redundancy::Deliver),
            b"copy" => Some(Redundancy::Copy),
            b"both" => Some(Redundancy::Both),
            _ => None,
        }
    }
}
