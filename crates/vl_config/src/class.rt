//! The class of a frame before any judgement, which decides whether policing sees it.

ghost use Rattle.std.specs.Prelude.{◌≡◌, ◌↔◌};
ghost use Rattle.afdx_frame.specs.View.{constant_of};
ghost use Rattle.vl_config.specs.Class.{class_by, class_word, has_constant, is_addressed, is_on_a_link};

use afdx_frame::LentFrame;

/// The class of a frame: the first that fits. Only `Regular` frames are policed.
///
/// The order, and the bounds of 60 and 1514 bytes, are this project's profile; the constant field,
/// the virtual link and Smax are from ARINC 664 Part 7.
#[derive(Clone, Copy, Debug, PartialEq, Eq)]
pub enum Class {
    /// The recording holds fewer bytes than were on the wire.
    Cut,
    /// Below 60 bytes on the wire.
    Runt,
    /// Above 1514 bytes on the wire.
    Oversize,
    /// Another constant field than the table's.
    Foreign,
    /// The table does not have the virtual link.
    Unconfigured,
    /// With its frame check sequence the frame is larger than its link's Smax.
    TooLong,
    /// None of these.
    Regular,
}

impl Class {
    /// The word of the class.
    pub fn word(self) -> &'static str
        ensures { result.now ≡ class_word self }
    {
        match self {
            Class::Cut => "cut",
            Class::Runt => "runt",
            Class::Oversize => "oversize",
            Class::Foreign => "foreign",
            Class::Unconfigured => "unconfigured",
            Class::TooLong => "toolong",
            Class::Regular => "regular",
        }
    }

    /// The class whose word the bytes are.
    #[inline]
    pub fn from_word(word: &[u8]) -> Option<Class>
        ensures { (class : Class) → (class_word class ≡ word.now) ↔ (result ≡ Some class) }
    {
        match word {
            b"regular" => Some(Class::Regular),
            b"cut" => Some(Class::Cut),
            b"runt" => Some(Class::Runt),
            b"oversize" => Some(Class::Oversize),
            b"foreign" => Some(Class::Foreign),
            b"unconfigured" => Some(Class::Unconfigured),
            b"toolong" => Some(Class::TooLong),
            _ => None,
        }
    }

    /// Do the bytes of a frame of this class hold its link and its sequence number for certain?
    #[inline(always)]
    pub fn is_addressed(self) -> bool
        ensures { result ≡ is_addressed self }
    {
        match self {
            Class::Unconfigured | Class::TooLong | Class::Regular => true,
            Class::Cut | Class::Runt | Class::Oversize | Class::Foreign => false,
        }
    }

    /// Is the link of a frame of this class configured?
    #[inline(always)]
    pub fn is_on_a_link(self) -> bool
        ensures { result ≡ is_on_a_link self }
    {
        matches!(self, Class::TooLong | Class::Regular)
    }
}

/// An Ethernet frame's least length without its frame check sequence, in bytes (IEEE 802.3).
const LEAST_LENGTH: u32 = 60;
/// An Ethernet frame's greatest length without its frame check sequence, in bytes (IEEE 802.3).
const GREATEST_LENGTH: u32 = 1514;
/// The length of the frame check sequence, in bytes. Recordings do not hold it.
pub const CHECK_LENGTH: u32 = 4;

/// The class of a frame by the table's constant field, and by the Smax of the frame's link in bytes,
/// None where the table does not have the link. For a caller that finds links by an index of its
/// own; [`crate::Config::class`] finds the link itself.
#[inline(always)]
pub fn class_by(constant: u32, smax: Option<u32>, frame: &LentFrame<'_>) -> Class
    ensures { result ≡ class_by constant smax frame.now }
{
    let whole = frame.whole();
    if frame.captured() < whole as usize {
        Class::Cut
    } else if whole < LEAST_LENGTH {
        Class::Runt
    } else if whole > GREATEST_LENGTH {
        Class::Oversize
    } else if !has_constant(constant, frame) {
        Class::Foreign
    } else {
        match smax {
            None => Class::Unconfigured,
            Some(smax) if whole + CHECK_LENGTH > smax => Class::TooLong,
            Some(_) => Class::Regular,
        }
    }
}

#[inline(always)]
fn has_constant(constant: u32, frame: &LentFrame<'_>) -> bool
    ensures { result ≡ has_constant constant (constant_of frame.now.bytes) }
{
    match frame.constant() {
        Some(field) => field == constant,
        None => false,
    }
}
