//! Events of links that may have one cause: pauses with one gap of their network, or that share their time.
use crate::accounts::{Accounts, Handle, Span};
use crate::clocks::SkewStep;
use crate::flight::Flight;
use crate::kind::Kind;
use crate::long::{Long, Time, ZERO};
use crate::samples::Samples;
use crate::signs::{Side, Sign, Word};
use std::alloc::{AllocError, Global};
use std::mem;

/// So many links with the same trouble at the same time have one cause.
pub const LINKS: usize = 3;

/// A loss of so many numbers in a row is an absence, a shorter one a scattered loss.
pub const ABSENT: Long = Long(8);

/// So many numbers in a row aren't missing by chance: more where more than an eighth of all is.
const LEAST_LOST: u64 = 8;

const LEAST_LOST_OF_MANY: u64 = 32;

/// So many groups may grow, decided or not.
const OPEN: usize = 48;

/// An event of a link.
#[derive(Clone, Copy)]
pub struct Event {
    pub kind: Kind,
    pub side: Side,
    pub span: Span,
    pub account: Handle,
    /// Its link's place in the table.
    pub link: usize,
    /// It went by without missing numbers, or fewer than half: time passed, but few frames were lost.
    pub crosses: bool,
    /// How much longer it was than usual.
    pub size: Long,
}

/// Events that may have one cause.
#[derive(Drop)]
pub struct Group {
    kind: Kind,
    side: Side,
    span: Span,
    events: Vec<Handle>,
    /// The account that they became, once it is decided.
    account: Option<Handle>,
    crossing: usize,
    losing: usize,
    sizes: Samples<15>,
    links: Vec<usize>,
}

impl Group {
    fn of(alloc: Global, event: &Event) -> Group {
        Group {
            kind: event.kind,
            side: event.side,
            span: event.span,
            events: Vec::new(alloc),
            account: None,
            crossing: 0,
            losing: 0,
            sizes: Samples::none(),
            links: Vec::new(alloc),
        }
    }

    fn has_link(&self, link: usize) -> bool {
        self.links.iter().any(|one| *one == link)
    }

    /// May the event have the same cause?
    fn takes(&self, event: &Event) -> bool {
        let again = self.has_link(event.link);
        if self.kind != event.kind || self.side != event.side {
            false
        } else if event.kind == Kind::Gap {
            self.span.from == event.span.from
        } else if event.kind.is_of_a_moment() {
            let shared = self.span.shared(event.span).length() >= ZERO;
            shared && (!again || event.kind == Kind::Reset)
        } else {
            self.span.is_alike(event.span) && !again
        }
    }

    /// Counts an event.
    fn count(&mut self, event: &Event) -> Result<(), AllocError> {
        if self.kind != Kind::Gap {
            self.span = self.span.shared(event.span);
        }
        if event.crosses {
            self.crossing = self.crossing.saturating_add(1);
            self.sizes.put(event.size);
        } else {
            self.losing = self.losing.saturating_add(1);
        }
        if !self.has_link(event.link) {
            self.links.push(event.link)?;
        }
        Ok(())
    }

    /// Did nearly all go by without missing numbers?
    fn is_crossed(&self) -> bool {
        self.losing.saturating_mul(4) <= self.crossing
    }

    /// Its handles are of accounts that have the signs now.
    pub fn resolve(&mut self, accounts: &Accounts) {
        for event in self.events.iter_mut() {
            *event = accounts.root(*event);
        }
        if let Some(account) = &mut self.account {
            *account = accounts.root(*account);
        }
    }

    /// Forgets what it had, which turned out to be no one cause.
    fn restart(&mut self) {
        self.crossing = 0;
        self.losing = 0;
        self.sizes = Samples::none();
        self.links.clear();
    }
}

impl Flight {
    /// Takes an event, and says which account has its signs.
    pub fn take(&mut self, event: Event) -> Result<Handle, AllocError> {
        let found = self.groups.iter().rposition(|group| group.takes(&event));
        let place = match found {
            Some(place) => place,
            None => self.open_group(&event)?,
        };
        let Some(group) = self.groups.get_mut(place) else {
            return Ok(event.account);
        };
        group.count(&event)?;
        match group.account {
            Some(account) => self.accounts.join(account, event.account)?,
            None => {
                group.events.push(event.account)?;
                self.decide(place)?;
            }
        }
        Ok(self.accounts.root(event.account))
    }

    /// Opens a group for an event, and says where. Of too many the oldest is closed, one that isn't decided
    /// where many aren't.
    fn open_group(&mut self, event: &Event) -> Result<usize, AllocError> {
        if self.groups.len() >= OPEN * 2 {
            let undecided = self.groups.iter().filter(|group| group.account.is_none());
            let many = undecided.count() > OPEN;
            let oldest = self
                .groups
                .iter()
                .position(|group| !many || group.account.is_none());
            if let Some(place) = oldest {
                if place < self.groups.len() {
                    let group = self.groups.remove(place);
                    self.close(group)?;
                }
            }
        }
        let place = self.groups.len();
        self.groups.push(Group::of(self.alloc, event))?;
        Ok(place)
    }

    /// How many links the group's network has, or the one with more.
    fn lanes_of(&self, side: Side) -> usize {
        let (a, b) = (self.networks.a.lanes, self.networks.b.lanes);
        let lanes = match side {
            Side::A => a,
            Side::B => b,
            Side::Both => a.max(b),
        };
        usize::try_from(lanes).unwrap_or(usize::MAX)
    }

    /// How many numbers in a row aren't missing by chance.
    fn least_lost(&self, side: Side) -> u64 {
        let network = match side {
            Side::B => &self.networks.b,
            Side::A | Side::Both => &self.networks.a,
        };
        if network.lost.saturating_mul(8) < network.lines {
            LEAST_LOST
        } else {
            LEAST_LOST_OF_MANY
        }
    }

    /// Are there enough events to say that they have one cause?
    fn decide(&mut self, place: usize) -> Result<(), AllocError> {
        let Some(group) = self.groups.get(place) else {
            return Ok(());
        };
        let lanes = self.lanes_of(group.side);
        let is_gap = group.kind == Kind::Gap;
        let links = if is_gap { lanes.clamp(1, LINKS) } else { LINKS };
        if group.links.len() < links {
            return Ok(());
        }
        if !is_gap && group.kind != Kind::Absent {
            return self.confirm(place);
        }
        if is_gap && group.is_crossed() {
            let third = lanes.saturating_add(2) / 3;
            let votes = group.crossing.saturating_add(group.losing);
            return if votes >= links.max(third.min(8)) {
                self.confirm(place)
            } else {
                Ok(())
            };
        }
        let least = self.least_lost(group.side);
        let least = if is_gap {
            least
        } else {
            least.saturating_mul(3)
        };
        self.decide_by_loss(place, least)
    }

    /// Are there enough missing numbers to say that they have one cause? Many events with fewer are reordered
    /// rather than lost.
    fn decide_by_loss(&mut self, place: usize, least: u64) -> Result<(), AllocError> {
        let Some(group) = self.groups.get_mut(place) else {
            return Ok(());
        };
        let mut lost = 0u64;
        for event in group.events.iter() {
            lost = lost.saturating_add(self.accounts.sum(*event, Word::Lost));
        }
        if lost >= least {
            return self.confirm(place);
        }
        if group.events.len() as u64 > least.saturating_mul(4) {
            let events = mem::replace(&mut group.events, Vec::new(self.alloc));
            group.restart();
            let (kind, side) = (group.kind, group.side);
            return self.dissolve(kind, side, &events);
        }
        Ok(())
    }

    /// The events of a group have one cause.
    fn confirm(&mut self, place: usize) -> Result<(), AllocError> {
        let Some(group) = self.groups.get_mut(place) else {
            return Ok(());
        };
        let kind = match group.kind {
            Kind::Gap if group.is_crossed() => Kind::ClockStep,
            Kind::Gap => Kind::Silence,
            kind => kind,
        };
        let events = mem::replace(&mut group.events, Vec::new(self.alloc));
        let (side, span) = (group.side, group.span);
        let (size, crossed) = (group.sizes.median(), group.crossing > 0);
        let account = self.accounts.open(kind, None, side)?;
        group.account = Some(account);
        for event in events.iter() {
            self.accounts.join(account, *event)?;
        }
        if let Some(facts) = self.accounts.facts_mut(account) {
            facts.size = size;
            // Of some links the numbers come again just there.
            facts.at_least = facts.at_least || kind == Kind::Silence && crossed;
        }
        if kind == Kind::ClockStep {
            self.accounts.hit(account, Sign::of(Word::Step), span.from)?;
            let ahead = if side == Side::A { -size } else { size };
            return self.clock_step(account, ahead, span);
        }
        Ok(())
    }

    /// Did the skews step by so much since a moment, of which no clock's step was told? Slow links have pairs
    /// that show it before enough of them say that no number is missing.
    fn skew_step_since(&self, from: Time, ahead: Long) -> Option<Handle> {
        let last = self.clocks.last_step()?;
        let told = self.accounts.kind(last.account) == Some(Kind::SkewStep);
        let alike = (last.size - ahead).is_within(ahead.abs() / 8);
        (told && alike && last.at >= from).then_some(last.account)
    }

    /// A clock stepped by so much within this time. A step of the skews that says the same is part of it.
    fn clock_step(&mut self, account: Handle, ahead: Long, span: Span) -> Result<(), AllocError> {
        if let Some(told) = self.skew_step_since(span.from, ahead) {
            self.accounts.take(told, Sign::of(Word::Step), Long(1));
            return self.accounts.absorb(account, told);
        }
        self.step(
            account,
            &SkewStep {
                size: ahead,
                at: span.from,
                since: span.from,
            },
        )
    }

    /// A group that can't grow any more.
    pub fn close(&mut self, group: Group) -> Result<(), AllocError> {
        let Group {
            kind,
            side,
            span,
            events,
            account,
            crossing: _,
            losing: _,
            sizes,
            links,
        } = group;
        let Some(account) = account else {
            return self.dissolve(kind, side, &events);
        };
        if let Some(held) = self.accounts.get_mut(account) {
            held.links = links;
            held.spans.clear();
            held.spans.push(span)?;
            if held.kind == Kind::ClockStep {
                held.facts.size = sizes.median();
                held.span = Some(span);
            }
        }
        self.keep(account)
    }

    /// Events that have no common cause are their links' own.
    fn dissolve(&mut self, kind: Kind, side: Side, events: &[Handle]) -> Result<(), AllocError> {
        for event in events {
            self.dissolve_event(kind, side, *event)?;
        }
        Ok(())
    }

    /// The kind of an event that is its link's own.
    fn kind_alone(&self, kind: Kind, event: Handle) -> Kind {
        let missing = self.accounts.facts(event).missing;
        let lost = Long::of(self.accounts.sum(event, Word::Lost));
        match kind {
            Kind::Gap if missing == ZERO => Kind::Outage,
            Kind::Gap if missing >= ABSENT => Kind::Absent,
            Kind::Gap => Kind::Lost,
            Kind::Absent if lost < ABSENT => Kind::Lost,
            kind => kind,
        }
    }

    /// An event becomes part of its link's own account.
    fn dissolve_event(&mut self, kind: Kind, side: Side, event: Handle) -> Result<(), AllocError> {
        let Some(account) = self.accounts.get(event) else {
            return Ok(());
        };
        let (Some(link), span) = (account.link, account.span) else {
            return Ok(());
        };
        let sender = account.facts.sender;
        let alone = self.kind_alone(kind, event);
        if kind == Kind::Gap && alone == Kind::Outage {
            // Numbers went on after a pause of all that this network had. On one network alone that is a
            // small step or a delay, of which the skew tells.
            let Some(Span { from, .. }) = span.filter(|_| sender) else {
                let nothing = self.accounts.of_link(link, Kind::Gap, side)?;
                return self.accounts.absorb(nothing, event);
            };
            self.accounts.hit(event, Sign::of(Word::Outage), from)?;
        }
        let side = match alone {
            Kind::Outage | Kind::Stops | Kind::StartsLate | Kind::Reset | Kind::SkewMoves =>
                Side::Both,
            _ => side,
        };
        let whole = self.accounts.of_link(link, alone, side)?;
        if let Some(held) = self.accounts.get_mut(whole) {
            held.add_part(span)?;
        }
        self.accounts.join(whole, event)
    }
}
