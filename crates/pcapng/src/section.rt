//! A section of a recording: its byte order, its interfaces, and which of them is read.
ghost use Rattle.std.specs.Prelude.{◌≡◌, ◌≤◌, ◌<◌, ◌*◌, ◌^◌, length, map, vec_capacity, vec_len, Err, IfOk, OnErr, OnOk};
ghost use Rattle.pcapng.specs.Interface.{bytes_of_name, described_of};
ghost use Rattle.pcapng.specs.declared.section.TheConstants.{MAX_INTERFACES};

use crate::choice::{Choice, InterfaceName};
use crate::interface::Interface;
use pcap_io::{BadReason, ByteOrder};
use std::alloc::{AllocError, Global};

/// How many interfaces of a section are read at most.
pub const MAX_INTERFACES: usize = 256;

/// The use that is made of a whole packet.
#[derive(Clone, Copy, PartialEq, Eq)]
pub enum Role {
    /// It is given.
    Taken,
    /// Its interface isn't Ethernet: it is skipped and counted.
    Counted,
    /// Its interface isn't the chosen one: it is skipped.
    Skipped,
}

/// An interface that had packets in earlier sections, which count their interfaces anew.
#[derive(Clone, Copy, Debug)]
pub struct Met {
    /// Its number in the last of them that had packets of it.
    pub number: u32,
    /// The name that it had last.
    pub name: Option<InterfaceName>,
}

impl Met {
    ghost use Rattle.pcapng.specs.Section.{is_same, remembered_of};

    /// True if the interface of this number of a later section is the same: by the names, or, where one of
    /// the two has none, by the numbers.
    pub fn is_same(&self, number: u32, interface: &Interface) -> bool
        ensures { result ≡ is_same (remembered_of self.now) number
            (bytes_of_name interface.now.name) }
    {
        match (&self.name, &interface.name) {
            (Some(name), Some(own)) => name.as_bytes() == own.as_bytes(),
            _ => self.number == number,
        }
    }
}

/// A section, and what is known of the choice.
#[derive(Debug, Drop)]
pub struct Section {
    pub choice: Choice,
    pub order: ByteOrder,
    interfaces: Vec<Interface>,
    /// The number of the interface of which a packet of this section was given last.
    taken: Option<u32>,
    /// The interface of which packets of earlier sections were given.
    met: Option<Met>,
    /// The number of the section's first interface of the chosen name.
    named: Option<u32>,
    /// The chosen interface was described, in this section or an earlier one.
    described: bool,
    ghost room: { MAX_INTERFACES ≤ vec_capacity interfaces },
}

impl Section {
    ghost use Rattle.pcap_io.specs.declared.layout.ByteOrder.TheVariants.{Little};
    ghost use Rattle.pcapng.specs.Section.{first_named, in_section, is_chosen, known_of, next_number, noted};
    ghost use Rattle.pcapng.specs.Section.{before_next, remembered_of, role_among, role_of, stamp_of};
    ghost use Rattle.pcapng.specs.Section.{taken_if, unknown, with_interface};
    ghost use Rattle.pcapng.specs.declared.choice.Choice.TheVariants.{Any};
    ghost use Rattle.std.specs.Option.{option_map};

    /// No section yet. Allocates the memory of its interfaces.
    pub fn new(alloc: Global, choice: Choice) -> Result<Section, AllocError>
        ensures { IfOk result (λ s. known_of s ≡ unknown choice Little) }
    {
        Ok(Section {
            choice,
            order: ByteOrder::Little,
            interfaces: Vec::with_capacity(alloc, MAX_INTERFACES)?,
            taken: None,
            met: None,
            named: None,
            described: choice == Choice::Any,
        })
    }

    /// Its interfaces so far.
    pub fn interfaces(&self) -> &[Interface]
        ensures { result.now ≡ self.now.interfaces.items }
    {
        self.interfaces.as_slice()
    }

    /// True if the chosen interface was described.
    pub fn is_described(&self) -> bool
        ensures { result ≡ self.now.described }
    {
        self.described
    }

    /// The interface of which packets of this section were given, or of earlier ones.
    fn met_by_now(&self) -> Option<Met>
        ensures { option_map remembered_of result ≡ before_next (known_of self.now).taken
            (known_of self.now).interfaces (known_of self.now).before }
    {
        let Some(number) = self.taken else {
            return self.met;
        };
        let Some(interface) = self.interfaces.get(number as usize) else {
            return self.met;
        };
        let name = match (interface.name, self.met) {
            (None, Some(met)) => met.name,
            (name, _) => name,
        };
        Some(Met { number, name })
    }

    /// A section of this byte order begins, with no interfaces.
    pub fn begin(&mut self, order: ByteOrder)
        ensures { known_of self.new ≡ in_section order (known_of self.old) }
    {
        self.met = self.met_by_now();
        self.order = order;
        self.taken = None;
        self.interfaces.clear();
        self.named = None;
    }

    /// True if the described interface is the chosen one.
    fn is_chosen(&self, interface: &Interface) -> bool
        ensures { result ≡ is_chosen self.now.choice self.now.named (described_of interface.now) }
    {
        match &self.choice {
            Choice::Any => true,
            Choice::Number(number) => interface.number == *number,
            Choice::Name(_) => self.named == Some(interface.number),
        }
    }

    /// The number of the section's first interface of the chosen name, once this one is described.
    fn first_named(&self, interface: &Interface) -> Option<u32>
        ensures { result ≡ first_named self.now.choice self.now.named (described_of interface.now) }
    {
        match (&self.choice, self.named) {
            (Choice::Name(name), None) if interface.is_named(name) => Some(interface.number),
            (_, named) => named,
        }
    }

    /// The number of the interface that is described next.
    pub fn next_number(&self) -> Result<u32, BadReason>
        ensures { result ≡ next_number (vec_len self.now.interfaces) }
    {
        let number = self.interfaces.len();
        if number < MAX_INTERFACES {
            Ok(number as u32)
        } else {
            Err(BadReason::TooManyInterfaces)
        }
    }

    /// The time of a timestamp of the interface of this number.
    #[inline]
    pub fn stamp(&self, number: u32, count: u64) -> Result<u64, BadReason>
        requires { number < vec_len self.now.interfaces }
        ensures value { result ≡ stamp_of (known_of self.now) number count }
        ensures bound { IfOk result (λ n. n < 2 ^ 32 * 1000000000) }
    {
        match self.interfaces[number as usize].stamp(count) {
            Some(stamp) => Ok(stamp),
            None => Err(BadReason::StampRange),
        }
    }

    /// One more interface.
    pub fn add(&mut self, interface: Interface)
        requires { vec_len self.old.interfaces < MAX_INTERFACES }
        ensures { known_of self.new ≡ with_interface (described_of interface) (known_of self.old) }
    {
        self.named = self.first_named(&interface);
        if self.is_chosen(&interface) {
            self.described = true;
        }
        self.interfaces.push(interface).unwrap();
    }

    /// True if the interface of this number is the only one so far of which packets were given.
    #[inline]
    fn is_only(&self, number: u32, interface: &Interface) -> bool
        ensures { taken_if result ≡ role_among Any self.now.taken (known_of self.now).before number
            (bytes_of_name interface.now.name) }
    {
        match (self.taken, &self.met) {
            (Some(taken), _) => taken == number,
            (None, Some(met)) => met.is_same(number, interface),
            (None, None) => true,
        }
    }

    /// The use that is made of a packet of the interface of this number.
    #[inline]
    pub fn role(&self, number: u32) -> Result<Role, BadReason>
        ensures value { result ≡ role_of (known_of self.now) number }
        ensures known { IfOk result (λ r. number < vec_len self.now.interfaces) }
    {
        let Some(interface) = self.interfaces.get(number as usize) else {
            return Err(BadReason::UnknownInterface);
        };
        if !self.is_chosen(interface) {
            return Ok(Role::Skipped);
        }
        if !interface.ethernet {
            return Ok(Role::Counted);
        }
        if self.choice != Choice::Any || self.is_only(number, interface) {
            Ok(Role::Taken)
        } else {
            Err(BadReason::SeveralInterfaces)
        }
    }

    /// The interface of this number had a packet.
    #[inline]
    pub fn note_packet(&mut self, number: u32, role: Role)
        requires { number < vec_len self.old.interfaces }
        ensures { known_of self.new ≡ noted number role (known_of self.old) }
    {
        self.interfaces[number as usize].has_packets = true;
        match role {
            Role::Taken => self.taken = Some(number),
            Role::Counted | Role::Skipped => {}
        }
    }
}
