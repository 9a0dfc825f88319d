//! The state of a link, and what each of its frames says.

mod arriving;
mod first;
mod pairing;
mod placing;

use crate::accounts::{Handle, Span};
use crate::fit::Guess;
use crate::flight::Flight;
use crate::groups::Event;
use crate::kind::Kind;
use crate::lane::Lane;
use crate::long::{Long, Position, Time, ZERO};
use crate::rate::Rate;
use crate::signs::{Side, Sign, Word};
use afdx_frame::Network;
use std::alloc::{AllocError, Global};
use vl_config::{Class, Link};

/// So many outages may turn out to be another rate: a proof takes 64 intervals.
const OUTAGES: usize = 64;

/// So many old numbers in a row, each after the other, are a sender that jumped back.
const OLD_RUN: u32 = 16;

/// The content of the line of a frame of a link.
#[derive(Clone, Copy)]
pub struct Frame {
    pub network: Network,
    pub at: Time,
    pub number: u8,
    pub class: Class,
    pub excess: bool,
    pub reset: bool,
    pub out: bool,
    pub delivered: bool,
}

/// A frame that takes a position.
#[derive(Clone, Copy)]
struct Arrival {
    network: Network,
    position: Position,
    number: u8,
    at: Time,
    /// When the lane's frame before came.
    before: Time,
    delivered: bool,
    guess: Guess,
}

/// The signs that were taken for the start of a recording.
#[derive(Clone, Copy)]
pub struct Begun {
    pub account: Handle,
    pub sign: Sign,
    pub count: Long,
}

/// The state of a link.
#[derive(Drop)]
pub struct LinkState {
    /// Its place in the table, and its identifier.
    pub place: usize,
    pub id: u16,
    pub bag: Time,
    pub jitter: Time,
    pub skew_max: Time,
    pub redundancy: bool,
    pub a: Lane,
    pub b: Lane,
    pub rate: Rate,
    /// The greatest position on either network, and when it came first; when the link's first frame came.
    head: Position,
    pub head_at: Time,
    pub first_at: Option<Time>,
    /// Was it told that the link starts late?
    told_start: bool,
    /// The latest outages that may be another rate.
    pub outages: Vec<Handle>,
    pub begun: Option<Begun>,
    /// How often number 0 came after 255.
    pub wraps: u64,
}

impl LinkState {
    /// A link without frames, at its place in the table.
    pub fn new(alloc: Global, place: usize, link: &Link) -> LinkState {
        let bag = Long::of(link.bag);
        LinkState {
            place,
            id: link.id.0,
            bag,
            jitter: Long::of(link.jitter),
            skew_max: Long::of(link.skew),
            redundancy: link.redundancy,
            a: Lane::new(Network::A),
            b: Lane::new(Network::B),
            rate: Rate::new(bag),
            head: ZERO,
            head_at: ZERO,
            first_at: None,
            told_start: false,
            outages: Vec::new(alloc),
            begun: None,
            wraps: 0,
        }
    }

    /// The link's lane on a network.
    pub fn lane(&self, network: Network) -> &Lane {
        match network {
            Network::A => &self.a,
            Network::B => &self.b,
        }
    }

    /// The link's lane on a network, to be changed.
    pub fn lane_mut(&mut self, network: Network) -> &mut Lane {
        match network {
            Network::A => &mut self.a,
            Network::B => &mut self.b,
        }
    }

    /// A network's lane, and the other's.
    fn lanes(&mut self, network: Network) -> (&mut Lane, &mut Lane) {
        match network {
            Network::A => (&mut self.a, &mut self.b),
            Network::B => (&mut self.b, &mut self.a),
        }
    }

    /// How many frames came, on both networks.
    pub fn frames(&self) -> u64 {
        self.a.frames.saturating_add(self.b.frames)
    }

    /// The least time between two frames that jitter explains on one network, and on both.
    fn least_interval(&self) -> Time {
        self.bag - self.jitter
    }

    fn least_of_both(&self) -> Time {
        self.least_interval() - self.skew_max
    }

    /// The account of a kind of one of its lanes.
    fn account(
        &self,
        flight: &mut Flight,
        kind: Kind,
        network: Network,
    ) -> Result<Handle, AllocError> {
        flight.accounts.of_link(self.place, kind, Side::of(network))
    }

    /// Notes a sign of one of its lanes in the lane's account of a kind.
    fn hit(
        &self,
        flight: &mut Flight,
        kind: Kind,
        word: Word,
        network: Network,
        at: Time,
    ) -> Result<Handle, AllocError> {
        let account = self.account(flight, kind, network)?;
        flight.accounts.hit(account, Sign::on(word, network), at)?;
        Ok(account)
    }

    /// Takes a frame.
    pub fn take(&mut self, flight: &mut Flight, frame: &Frame) -> Result<(), AllocError> {
        flight.accounts.link = self.place;
        let lane = self.lane_mut(frame.network);
        lane.frames = lane.frames.saturating_add(1);
        let before = lane.latest;
        lane.latest = frame.at;
        let begun = lane.begun;
        let own = self.note_verdict(flight, frame)?;
        if !begun {
            if frame.out {
                self.note_out(flight, frame.network, frame.at, own)?;
            }
            return self.begin(flight, frame);
        }
        let before = self.settle_held(flight, frame, before)?;
        self.place_frame(flight, frame, own, before)
    }

    /// Notes the rule by which a frame was discarded, or that the numbers begin anew, and says in which
    /// account its sign is.
    fn note_verdict(
        &mut self,
        flight: &mut Flight,
        frame: &Frame,
    ) -> Result<Option<Handle>, AllocError> {
        let (kind, word) = match frame.class {
            Class::TooLong => (Kind::TooLong, Word::TooLong),
            _ if frame.excess => (Kind::Excess, Word::Excess),
            _ if frame.reset => return Ok(Some(self.note_reset(flight, frame)?)),
            _ => return Ok(None),
        };
        let account = self.hit(flight, kind, word, frame.network, frame.at)?;
        self.lane_mut(frame.network).last = Some(account);
        Ok(Some(account))
    }

    /// Notes that the numbers begin anew with 0.
    fn note_reset(&mut self, flight: &mut Flight, frame: &Frame) -> Result<Handle, AllocError> {
        let account = flight
            .accounts
            .open(Kind::Reset, Some(self.place), Side::Both)?;
        let sign = Sign::on(Word::Reset, frame.network);
        flight.accounts.hit(account, sign, frame.at)?;
        let half = self.rate.usual();
        flight.take(Event {
            kind: Kind::Reset,
            side: Side::Both,
            span: Span {
                from: frame.at - half,
                to: frame.at + half,
            },
            account,
            link: self.place,
            crosses: false,
            size: ZERO,
        })
    }
}
