//! The frames of other traffic than AFDX, by what they carry.

use std::alloc::{AllocError, Global};

/// How many kinds are told apart.
const MAX_KINDS: usize = 8;

/// The least EtherType: a lower number is a length (IEEE 802.3).
const LEAST_TYPE: u16 = 0x0600;

/// How many frames have an EtherType. 0 stands for all that are lengths.
#[derive(Clone, Copy)]
pub struct Kind {
    pub ethertype: u16,
    pub frames: u64,
}

impl Kind {
    /// The protocol of the EtherType. None: it is told as a number.
    pub fn name(&self) -> Option<&'static str> {
        match self.ethertype {
            0 => Some("without an EtherType"),
            0x0800 => Some("IPv4"),
            0x0806 => Some("ARP"),
            0x8100 => Some("802.1Q"),
            0x86dd => Some("IPv6"),
            0x88cc => Some("LLDP"),
            0x88f7 => Some("PTP"),
            _ => None,
        }
    }
}

/// Frames by EtherType.
#[derive(Drop)]
pub struct Kinds {
    /// The expected ones.
    expected: Vec<Kind>,
    kinds: Vec<Kind>,
    others: u64,
}

/// The EtherType of a frame, 0 if it has a length there; of a frame that is too short too.
pub(crate) fn ethertype_of(bytes: &[u8]) -> u16 {
    match bytes.get(12..14) {
        Some([high, low]) => {
            let number = u16::from_be_bytes([*high, *low]);
            if number < LEAST_TYPE { 0 } else { number }
        }
        _ => 0,
    }
}

/// Counts a frame, if its EtherType is one of these.
fn is_counted(kinds: &mut Vec<Kind>, ethertype: u16) -> bool {
    let held = kinds.iter_mut().find(|held| held.ethertype == ethertype);
    if let Some(held) = held {
        held.frames = held.frames.saturating_add(1);
        return true;
    }
    false
}

impl Kinds {
    /// Of no frame. Frames of some EtherTypes are expected; 0 stands for a length.
    pub(crate) fn new(alloc: Global, ethertypes: &[u16]) -> Result<Kinds, AllocError> {
        let mut expected = Vec::new(alloc);
        for ethertype in ethertypes {
            expected.push(Kind {
                ethertype: *ethertype,
                frames: 0,
            })?;
        }
        Ok(Kinds {
            expected,
            kinds: Vec::new(alloc),
            others: 0,
        })
    }

    /// Counts a frame of an EtherType. False: it isn't expected.
    pub(crate) fn see(&mut self, ethertype: u16) -> Result<bool, AllocError> {
        if is_counted(&mut self.expected, ethertype) {
            return Ok(true);
        }
        if is_counted(&mut self.kinds, ethertype) {
            return Ok(false);
        }
        if self.kinds.len() >= MAX_KINDS {
            self.others = self.others.saturating_add(1);
            return Ok(false);
        }
        self.kinds.push(Kind {
            ethertype,
            frames: 1,
        })?;
        Ok(false)
    }

    /// The kinds that are expected, with their frames.
    pub fn expected(&self) -> &[Kind] {
        self.expected.as_slice()
    }

    /// How many frames are of them.
    pub fn expected_frames(&self) -> u64 {
        let mut frames = 0u64;
        for kind in &self.expected {
            frames = frames.saturating_add(kind.frames);
        }
        frames
    }

    /// The first other kinds that were met, in the order of their first frames.
    pub fn kinds(&self) -> &[Kind] {
        self.kinds.as_slice()
    }

    /// How many frames are of a further kind.
    pub fn others(&self) -> u64 {
        self.others
    }
}
