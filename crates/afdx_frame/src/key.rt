//! Networks, links, timestamps, and the order of both taps' frames.
ghost use Rattle.std.specs.Prelude.{◌≡◌, ◌↔◌};
ghost use Rattle.afdx_frame.specs.Frame.{key_cmp, network_letter, other_network};
ghost use Rattle.afdx_frame.specs.declared.key.Key.{Key};

/// One of the two redundant networks of an AFDX system (ARINC 664 Part 7). A sender puts each frame
/// on both.
#[derive(Clone, Copy, Debug, PartialEq, Eq, PartialOrd, Ord, Hash)]
pub enum Network {
    A,
    B,
}

impl Network {
    /// The letter of the network.
    pub fn letter(self) -> &'static str
        ensures { result.now ≡ network_letter self }
    {
        match self {
            Network::A => "A",
            Network::B => "B",
        }
    }

    /// The network whose letter the bytes are.
    #[inline]
    pub fn from_letter(letter: &[u8]) -> Option<Network>
        ensures { (network : Network) → (network_letter network ≡ letter.now) ↔ (result ≡ Some network) }
    {
        match letter {
            b"A" => Some(Network::A),
            b"B" => Some(Network::B),
            _ => None,
        }
    }

    /// The other network.
    #[inline(always)]
    pub fn other(self) -> Network
        ensures { result ≡ other_network self }
    {
        match self {
            Network::A => Network::B,
            Network::B => Network::A,
        }
    }
}

/// The identifier of a virtual link, the 16 lowest bits of the destination address (ARINC 664 Part
/// 7).
#[derive(Clone, Copy, Debug, PartialEq, Eq, PartialOrd, Ord, Hash)]
pub struct VlId(pub u16);

/// How many virtual link identifiers there are: they have 16 bits.
pub const VL_ID_COUNT: usize = 65536;

/// A moment in nanoseconds since the epoch of the recording (pcap 2.4 counts from 1970).
#[derive(Clone, Copy, Debug, PartialEq, Eq, PartialOrd, Ord, Hash)]
pub struct Stamp(pub u64);

/// The place of a frame in the order of both taps: by timestamp, then network A before B, then the
/// frame's number in its recording. (That A comes first is this project's profile.)
#[derive(Clone, Copy, Debug, PartialEq, Eq, PartialOrd, Ord, Hash)]
pub struct Key {
    /// When the frame came.
    pub stamp: Stamp,
    /// The network of its tap.
    pub network: Network,
    /// Its place in the tap's recording, from 0.
    pub number: u64,
}

/// The order of keys that `Ord` gives: the timestamp decides, then network A before B, then the number.
pub fn key_order()
    ensures { (k l : Key) → ⟦<Key as Ord>⟧.cmp k l ≡ key_cmp k l }
{}
