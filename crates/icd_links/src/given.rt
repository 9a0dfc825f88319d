//! The heads that a person says a document has.

use vl_config::{Key, LINK_KEYS};

/// The text isn't `KEY=HEAD` with a link's key, or the key is given twice.
#[derive(Clone, Copy, PartialEq, Eq)]
pub struct WrongColumn;

/// Which head the column of a key has, in place of its name and its synonyms. An empty head: the document has
/// no such column.
#[derive(Clone, Copy, PartialEq, Eq)]
pub struct GivenHeads<'a> {
    id: Option<&'a str>,
    name: Option<&'a str>,
    bag_ms: Option<&'a str>,
    jitter_us: Option<&'a str>,
    smax: Option<&'a str>,
    integrity: Option<&'a str>,
    redundancy: Option<&'a str>,
    skew_us: Option<&'a str>,
    group: Option<&'a str>,
}

/// The key of a link that has this name.
fn key_of(name: &str) -> Option<Key> {
    LINK_KEYS.iter().copied().find(|key| key.name() == name)
}

impl<'a> GivenHeads<'a> {
    /// None is given.
    pub fn none() -> GivenHeads<'a> {
        GivenHeads {
            id: None,
            name: None,
            bag_ms: None,
            jitter_us: None,
            smax: None,
            integrity: None,
            redundancy: None,
            skew_us: None,
            group: None,
        }
    }

    /// Is none given?
    pub fn is_empty(&self) -> bool {
        *self == GivenHeads::none()
    }

    /// The head of a key, if one is given.
    pub fn head(&self, key: Key) -> Option<&'a str> {
        match key {
            Key::Id => self.id,
            Key::Name => self.name,
            Key::BagMs => self.bag_ms,
            Key::JitterUs => self.jitter_us,
            Key::Smax => self.smax,
            Key::Integrity => self.integrity,
            Key::Redundancy => self.redundancy,
            Key::SkewUs => self.skew_us,
            Key::Group => self.group,
            _ => None,
        }
    }

    /// The same, with what a text as `id=VL-Nr` says.
    pub fn with(self, text: &'a str) -> Result<GivenHeads<'a>, WrongColumn> {
        let Some((name, head)) = text.split_once('=') else {
            return Err(WrongColumn);
        };
        match key_of(name) {
            Some(key) if self.head(key).is_none() => Ok(self.with_head(key, head.trim())),
            _ => Err(WrongColumn),
        }
    }

    /// The same, with the head of a key.
    fn with_head(self, key: Key, head: &'a str) -> GivenHeads<'a> {
        let given = Some(head);
        match key {
            Key::Id => GivenHeads { id: given, ..self },
            Key::Name => GivenHeads {
                name: given,
                ..self
            },
            Key::BagMs => GivenHeads {
                bag_ms: given,
                ..self
            },
            Key::JitterUs => GivenHeads {
                jitter_us: given,
                ..self
            },
            Key::Smax => GivenHeads {
                smax: given,
                ..self
            },
            Key::Integrity => GivenHeads {
                integrity: given,
                ..self
            },
            Key::Redundancy => GivenHeads {
                redundancy: given,
                ..self
            },
            Key::SkewUs => GivenHeads {
                skew_us: given,
                ..self
            },
            Key::Group => GivenHeads {
                group: given,
                ..self
            },
            _ => self,
        }
    }
}
