//! Which interface of a recording is read.
ghost use Rattle.std.specs.Prelude.{◌≡◌, ◌<◌, ◌≤◌, length, take, None, MatchOption};
ghost use Rattle.pcapng.specs.declared.choice.TheConstants.{MAX_NAME_LEN};

/// The bytes of the longest name that can be chosen.
pub const MAX_NAME_LEN: usize = 64;

/// The name of an interface, of at most [`MAX_NAME_LEN`] bytes.
#[derive(Clone, Copy, Debug, PartialEq, Eq)]
pub struct InterfaceName {
    /// The name, and zeros behind it.
    bytes: [u8; MAX_NAME_LEN],
    len: usize,
    ghost bounded: { len ≤ MAX_NAME_LEN },
}

impl InterfaceName {
    /// The name of these bytes. None: they are more than [`MAX_NAME_LEN`].
    pub fn new(name: &[u8]) -> Option<InterfaceName>
        ensures { MatchOption result (MAX_NAME_LEN < length name.now) (λ n.
            (take n.len n.bytes ≡ name.now) × (length name.now ≤ MAX_NAME_LEN)) }
    {
        if name.len() > MAX_NAME_LEN {
            return None;
        }
        let mut bytes = [0u8; MAX_NAME_LEN];
        bytes[..name.len()].copy_from_slice(name);
        Some(InterfaceName {
            bytes,
            len: name.len(),
        })
    }

    /// Its bytes, which are UTF-8 in a recording that keeps to the format.
    pub fn as_bytes(&self) -> &[u8]
        ensures { result.now ≡ take self.now.len self.now.bytes }
    {
        &self.bytes[..self.len]
    }
}

/// Which packets of a pcapng recording are read. Of no other format anything is chosen.
#[derive(Clone, Copy, Debug, PartialEq, Eq)]
pub enum Choice {
    /// The packets of the only Ethernet interface that has some.
    Any,
    /// The packets of the interface of this number in its section.
    Number(u32),
    /// The packets of the first interface of this name in its section.
    Name(InterfaceName),
}
