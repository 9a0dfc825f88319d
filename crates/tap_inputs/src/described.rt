//! The interfaces that the sections of a pcapng file describe, for a person who has to choose one.
ghost use Rattle.std.specs.Prelude.{◌≤◌};

use pcap_io::ByteOrder;
use pcapng::{
    BlockKind, BlockStart, Interface, MAX_INTERFACES, Met, START_LEN, check_interface_end,
};
use std::fs::File;
use std::io::{BufReader, Read};

/// An interface of one section or of several.
#[derive(Clone, Copy)]
pub struct Described {
    /// As it was described last.
    pub met: Met,
    /// Its number means another interface in another section, or it has another number there.
    pub is_mixed: bool,
}

/// The blocks of a pcapng file, passed one after the other.
#[derive(Drop)]
struct Walk {
    file: BufReader<File>,
    /// The byte order of the section.
    order: ByteOrder,
    /// How many interfaces the section has described.
    described: u32,
    /// The Ethernet interfaces of all sections, each once.
    found: Vec<Described>,
    /// How many of them earlier sections have described.
    earlier: usize,
    /// Which of them had each number first.
    holders: [Option<usize>; MAX_INTERFACES],
}

impl Walk {
    /// A section of this byte order begins.
    fn begin_section(&mut self, order: ByteOrder) {
        self.order = order;
        self.described = 0;
        self.earlier = self.found.len();
    }

    /// Which interface of earlier sections this one is: that of its name, else, where one of the two has
    /// none, that of its number.
    fn known_as(&self, interface: &Interface) -> Option<usize> {
        let mut named = self.found.iter().take(self.earlier);
        let mut numbered = self.found.iter().take(self.earlier);
        let by_name = match interface.name {
            Some(name) => named.position(|known| known.met.name == Some(name)),
            None => None,
        };
        by_name.or(numbered.position(|known| known.met.is_same(interface.number, interface)))
    }

    /// Adds an interface. One of an earlier section has the number and the name that it had last. None: the
    /// section has more interfaces than are read.
    fn add(&mut self, interface: &Interface) -> Option<()> {
        let (number, name) = (interface.number, interface.name);
        let index = match self.known_as(interface) {
            Some(index) => index,
            None => {
                let met = Met { number, name };
                let is_mixed = false;
                self.found.push(Described { met, is_mixed }).ok()?;
                self.found.len() - 1
            }
        };
        let holder = *self.holders.get_mut(number as usize)?.get_or_insert(index);
        self.found.get_mut(holder)?.is_mixed |= holder != index;
        let known = self.found.get_mut(index)?;
        known.is_mixed |= holder != index || known.met.number != number;
        known.met = Met {
            number,
            name: name.or(known.met.name),
        };
        Some(())
    }

    /// Reads the interface description whose start was read.
    fn read_interface(&mut self, rt: &HostRuntime, begun: BlockStart) -> Option<()>
        requires { 20 ≤ begun.len }
    {
        let mut block = Vec::new(rt.alloc());
        block.resize(begun.len as usize, 0).ok()?;
        self.file.seek_relative(-(START_LEN as i64)).ok()?;
        self.file.read_exact(&mut block).ok()?;
        check_interface_end(self.order, &block).ok()?;
        let interface = Interface::described(self.order, self.described, &block).ok()?;
        self.described = self.described.saturating_add(1);
        if interface.ethernet {
            self.add(&interface)
        } else {
            Some(())
        }
    }

    /// Passes the next block, and gives its length. None: no block stands there that is read.
    fn pass_block(&mut self, rt: &HostRuntime) -> Option<u32> {
        let mut start = [0; START_LEN];
        self.file.read_exact(&mut start).ok()?;
        let begun = BlockStart::read(self.order, &start).ok()?;
        if begun.kind == BlockKind::Section {
            self.begin_section(begun.order);
        }
        if begun.kind == BlockKind::Interface {
            self.read_interface(rt, begun)?;
        } else {
            let rest = i64::from(begun.len) - START_LEN as i64;
            self.file.seek_relative(rest).ok()?;
        }
        Some(begun.len)
    }
}

/// The Ethernet interfaces that the sections in the first bytes of a pcapng file describe. An interface of
/// two sections comes once. There are no more than a section may have, as nobody reads so many.
pub fn described_in(rt: &HostRuntime, path: &str, bytes: u64) -> Option<Vec<Described>> {
    let file = BufReader::new(rt.alloc(), File::open(rt, path).ok()?).ok()?;
    let mut walk = Walk {
        file,
        order: ByteOrder::Little,
        described: 0,
        found: Vec::new(rt.alloc()),
        earlier: 0,
        holders: [None; MAX_INTERFACES],
    };
    let mut left = bytes;
    for _ in 0..u64::MAX {
        let Some(len) = walk.pass_block(rt) else {
            break;
        };
        left = left.saturating_sub(u64::from(len));
        if left == 0 || walk.found.len() >= MAX_INTERFACES {
            break;
        }
    }
    Some(walk.found)
}
