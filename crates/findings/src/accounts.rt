//! Accounts of signs: findings in the making. Each sign is noted in one; one that turns out to be of the same
//! cause as another is absorbed by it.
use crate::kind::Kind;
use crate::long::{Long, Time, ZERO};
use crate::signs::{Side, Sign, Signs, Word};
use afdx_frame::Network;
use std::alloc::{AllocError, Global};
use std::mem;

/// A link's own finding lists so many intervals, and counts the others.
pub const SPANS: usize = 8;

/// A time from one moment to another.
#[derive(Clone, Copy, PartialEq, Eq)]
pub struct Span {
    pub from: Time,
    pub to: Time,
}

impl Span {
    /// The time between the two.
    pub fn length(self) -> Time {
        self.to - self.from
    }

    /// The least span that has both.
    pub fn with(self, other: Span) -> Span {
        Span {
            from: self.from.min(other.from),
            to: self.to.max(other.to),
        }
    }

    /// The span that both have, of a negative length where they have none.
    pub fn shared(self, other: Span) -> Span {
        Span {
            from: self.from.max(other.from),
            to: self.to.min(other.to),
        }
    }

    /// Do they share at least half of the longer one?
    pub fn is_alike(self, other: Span) -> bool {
        self.shared(other).length() * 2 >= self.length().max(other.length())
    }
}

/// The facts of a finding beside its signs.
#[derive(Clone, Copy)]
pub struct Facts {
    /// How many of the missing numbers are estimates.
    pub estimated: Long,
    /// Are the missing numbers at least so many?
    pub at_least: bool,
    /// How many numbers are missing in the event, before it is decided what it is.
    pub missing: Long,
    /// Did the sender pause, on both networks?
    pub sender: bool,
    /// How far a clock or a skew stepped, how fast clocks drift (parts in 10^9), or by how much counts
    /// differ.
    pub size: Long,
    /// The skew or interval of a link before and after a change.
    pub before: Option<Long>,
    pub after: Long,
    /// The greatest skew of a late frame, time between two equal ones, or time that an early frame lacks.
    pub most: Long,
    /// The skew of the latest late frame.
    pub skew: Long,
    /// The least interval that a rate became.
    pub fastest: Option<Long>,
}

pub const NO_FACTS: Facts = Facts {
    estimated: ZERO,
    at_least: false,
    missing: ZERO,
    sender: false,
    size: ZERO,
    before: None,
    after: ZERO,
    most: ZERO,
    skew: ZERO,
    fastest: None,
};

impl Facts {
    /// Adds what a part says.
    pub fn add(&mut self, part: &Facts) {
        self.estimated = self.estimated + part.estimated;
        self.missing = self.missing + part.missing;
        self.at_least = self.at_least || part.at_least;
        self.before = self.before.or(part.before);
        if part.before.is_some() {
            self.after = part.after;
        }
        self.most = self.most.max(part.most);
    }
}

/// Signs that have one cause.
#[derive(Drop)]
pub struct Account {
    pub kind: Kind,
    /// The place of its link in the table, if it is of one.
    pub link: Option<usize>,
    pub side: Side,
    pub signs: Signs,
    /// From its first sign to its last.
    pub span: Option<Span>,
    /// How many parts it has, and when the first of them were.
    pub parts: u64,
    pub spans: Vec<Span>,
    pub facts: Facts,
    /// The places of its links in the table, where it is of several.
    pub links: Vec<usize>,
    /// The account that absorbed it.
    into: Option<Handle>,
}

impl Account {
    /// Its time, with another.
    pub fn widen(&mut self, span: Span) {
        self.span = Some(self.span.map_or(span, |held| held.with(span)));
    }

    /// Notes one more part, with its time.
    pub fn add_part(&mut self, span: Option<Span>) -> Result<(), AllocError> {
        self.parts = self.parts.saturating_add(1);
        match span {
            Some(span) if self.spans.len() < SPANS => Ok(self.spans.push(span)?),
            _ => Ok(()),
        }
    }
}

/// Which account.
#[derive(Clone, Copy, PartialEq, Eq)]
pub struct Handle(usize);

/// No accounts.
pub const EMPTY: &[Handle] = &[];

/// A link's or a network's own account.
#[derive(Clone, Copy)]
pub struct Own {
    pub kind: Kind,
    pub side: Side,
    pub account: Handle,
}

/// All accounts, and how many signs there are in all.
#[derive(Drop)]
pub struct Accounts {
    all: Vec<Account>,
    /// By a link's place in the table, its own accounts; after all links those of the networks.
    own: Vec<Vec<Own>>,
    links: usize,
    pub totals: Signs,
    /// The places of accounts that nothing refers to, and how many were opened since those were sought.
    free: Vec<usize>,
    opened: usize,
    /// The place of the link whose frame is looked at, and what was noted of it since the log was cleared.
    pub link: usize,
    pub log: Vec<Noted>,
    alloc: Global,
}

/// Signs of a link that were noted, or taken back.
#[derive(Clone, Copy)]
pub struct Noted {
    /// The link's place in the table.
    pub link: usize,
    pub sign: Sign,
    /// When, in nanoseconds since the ledger's first line.
    pub at: u64,
    /// How many; less than 0 where they are taken back.
    pub count: i64,
}

/// After so many new accounts those that were absorbed are let go.
const MANY: usize = 4096;

impl Accounts {
    /// No account yet, for so many links.
    pub fn new(alloc: Global, links: usize) -> Result<Accounts, AllocError> {
        let mut own = Vec::with_capacity(alloc, links.saturating_add(1))?;
        for _link in 0..links {
            own.push(Vec::new(alloc))?;
        }
        own.push(Vec::new(alloc))?;
        Ok(Accounts {
            all: Vec::new(alloc),
            own,
            links,
            totals: Signs::none(alloc),
            free: Vec::new(alloc),
            opened: 0,
            link: 0,
            log: Vec::new(alloc),
            alloc,
        })
    }

    /// Were so many opened that absorbed ones are to be let go?
    #[inline]
    pub fn are_many(&self) -> bool {
        self.opened >= MANY && self.opened.saturating_mul(2) >= self.all.len()
    }

    /// Lets those go that were absorbed. No handle of theirs is used any more.
    pub fn release_absorbed(&mut self) -> Result<(), AllocError> {
        self.opened = 0;
        for (place, account) in self.all.iter_mut().enumerate() {
            if account.into.is_some() {
                account.into = None;
                self.free.push(place)?;
            }
        }
        Ok(())
    }

    /// A new account, without signs.
    pub fn open(
        &mut self,
        kind: Kind,
        link: Option<usize>,
        side: Side,
    ) -> Result<Handle, AllocError> {
        self.opened = self.opened.saturating_add(1);
        let account = Account {
            kind,
            link,
            side,
            signs: Signs::none(self.alloc),
            span: None,
            parts: 0,
            spans: Vec::new(self.alloc),
            facts: NO_FACTS,
            links: Vec::new(self.alloc),
            into: None,
        };
        let free = self.free.pop().unwrap_or(self.all.len());
        if let Some(held) = self.all.get_mut(free) {
            *held = account;
            return Ok(Handle(free));
        }
        let place = self.all.len();
        self.all.push(account)?;
        Ok(Handle(place))
    }

    /// The account that has an account's signs now.
    pub fn root(&self, handle: Handle) -> Handle {
        let mut root = handle;
        for _step in 0..self.all.len() {
            match self.all.get(root.0) {
                Some(
                    Account {
                        into: Some(into),
                        ..
                    },
                ) => root = *into,
                _ => return root,
            }
        }
        root
    }

    /// Has another one absorbed it?
    pub fn is_absorbed(&self, handle: Handle) -> bool {
        self.root(handle) != handle
    }

    /// The account that has the signs: its own, or the one that took it over.
    pub fn get(&self, handle: Handle) -> Option<&Account> {
        self.all.get(self.root(handle).0)
    }

    /// That account, to be changed.
    pub fn get_mut(&mut self, handle: Handle) -> Option<&mut Account> {
        let root = self.root(handle);
        self.all.get_mut(root.0)
    }

    /// The kind of the account that has the signs.
    pub fn kind(&self, handle: Handle) -> Option<Kind> {
        self.get(handle).map(|account| account.kind)
    }

    /// How many of a sign the account has.
    pub fn count(&self, handle: Handle, sign: Sign) -> u64 {
        self.get(handle)
            .map_or(0, |account| account.signs.count(sign))
    }

    /// How many signs with a word the account has, on both networks.
    pub fn sum(&self, handle: Handle, word: Word) -> u64 {
        self.get(handle)
            .map_or(0, |account| account.signs.sum(word))
    }

    /// The facts of the account.
    pub fn facts(&self, handle: Handle) -> Facts {
        self.get(handle).map_or(NO_FACTS, |account| account.facts)
    }

    /// The facts of the account, to be changed.
    pub fn facts_mut(&mut self, handle: Handle) -> Option<&mut Facts> {
        self.get_mut(handle).map(|account| &mut account.facts)
    }

    /// From the account's first moment to its last, if it has one.
    pub fn span(&self, handle: Handle) -> Option<Span> {
        self.get(handle).and_then(|account| account.span)
    }

    /// Stretches the account's time to have this time in it.
    pub fn widen(&mut self, handle: Handle, span: Span) {
        if let Some(account) = self.get_mut(handle) {
            account.widen(span);
        }
    }

    /// Notes so many signs of a moment.
    pub fn note(
        &mut self,
        handle: Handle,
        sign: Sign,
        at: Time,
        count: Long,
    ) -> Result<(), AllocError> {
        if count.0 <= 0 {
            return Ok(());
        }
        self.log(sign, at, count)?;
        let count = count.count();
        self.totals.add(sign, count)?;
        match self.get_mut(handle) {
            Some(account) => {
                account.widen(Span { from: at, to: at });
                account.signs.add(sign, count)
            }
            None => Ok(()),
        }
    }

    /// Keeps what was noted, or taken back.
    fn log(&mut self, sign: Sign, at: Time, count: Long) -> Result<(), AllocError> {
        self.log.push(Noted {
            link: self.link,
            sign,
            at: at.count(),
            count: count.0,
        })?;
        Ok(())
    }

    /// Notes one sign.
    pub fn hit(&mut self, handle: Handle, sign: Sign, at: Time) -> Result<(), AllocError> {
        self.note(handle, sign, at, Long(1))
    }

    /// Takes one sign of a moment back, out of the first of these accounts that has one.
    pub fn retract(
        &mut self,
        sign: Sign,
        at: Time,
        from: &[Option<Handle>],
    ) -> Result<bool, AllocError> {
        for handle in from.iter().flatten() {
            let taken = match self.get_mut(*handle) {
                Some(account) => account.signs.take(sign, 1),
                None => false,
            };
            if taken {
                let _all = self.totals.take(sign, 1);
                self.log(sign, at, Long(-1))?;
                return Ok(true);
            }
        }
        Ok(false)
    }

    /// Takes so many signs back, if the account has them.
    pub fn take(&mut self, handle: Handle, sign: Sign, count: Long) {
        let taken = match self.get_mut(handle) {
            Some(account) => account.signs.take(sign, count.count()),
            None => false,
        };
        if taken {
            let _all = self.totals.take(sign, count.count());
        }
    }

    /// One sign of an account belongs to another.
    pub fn transfer(
        &mut self,
        from: Handle,
        to: Handle,
        sign: Sign,
        at: Time,
    ) -> Result<(), AllocError> {
        if self.retract(sign, at, &[Some(from)])? {
            self.hit(to, sign, at)?;
        }
        Ok(())
    }

    /// A whole takes all that a part has.
    pub fn absorb(&mut self, whole: Handle, part: Handle) -> Result<(), AllocError> {
        let (whole, part) = (self.root(whole), self.root(part));
        if whole == part {
            return Ok(());
        }
        let Some(taken) = self.all.get_mut(part.0) else {
            return Ok(());
        };
        taken.into = Some(whole);
        let signs = mem::replace(&mut taken.signs, Signs::none(self.alloc));
        let span = taken.span;
        match self.all.get_mut(whole.0) {
            Some(account) => {
                if let Some(span) = span {
                    account.widen(span);
                }
                account.signs.add_all(&signs)
            }
            None => Ok(()),
        }
    }

    /// The same, with what the part says beside its signs.
    pub fn join(&mut self, whole: Handle, part: Handle) -> Result<(), AllocError> {
        let facts = self.facts(part);
        self.absorb(whole, part)?;
        if let Some(held) = self.facts_mut(whole) {
            held.add(&facts);
        }
        Ok(())
    }

    /// The parts of an account: how many, and when the first were. It has none afterwards.
    pub fn take_parts(&mut self, handle: Handle) -> (u64, Vec<Span>) {
        let none = Vec::new(self.alloc);
        match self.get_mut(handle) {
            Some(account) => (account.parts, mem::replace(&mut account.spans, none)),
            None => (0, none),
        }
    }

    /// A link's own accounts.
    pub fn own(&self, link: usize) -> &[Own] {
        match self.own.get(link) {
            Some(own) if link < self.links => own.as_slice(),
            _ => &[],
        }
    }

    /// A link's own account of a kind, if it has one.
    pub fn find(&self, link: usize, kind: Kind, side: Side) -> Option<Handle> {
        found_in(self.own(link), kind, side)
    }

    /// A link's own account of a kind.
    pub fn of_link(&mut self, link: usize, kind: Kind, side: Side) -> Result<Handle, AllocError> {
        match self.find(link, kind, side) {
            Some(account) => Ok(account),
            None => {
                let account = self.open(kind, Some(link), side)?;
                self.keep(link, kind, side, account)?;
                Ok(account)
            }
        }
    }

    /// An account becomes a link's own.
    pub fn keep(
        &mut self,
        link: usize,
        kind: Kind,
        side: Side,
        account: Handle,
    ) -> Result<(), AllocError> {
        if let Some(own) = self.own.get_mut(link) {
            own.push(Own {
                kind,
                side,
                account,
            })?;
        }
        Ok(())
    }

    /// A link's own account of a kind, which isn't its own any more.
    pub fn release(&mut self, link: usize, kind: Kind, side: Side) -> Option<Handle> {
        let own = self.own.get_mut(link)?;
        let found = own
            .iter()
            .position(|one| one.kind == kind && one.side == side);
        match found {
            Some(place) if place < own.len() => Some(own.swap_remove(place).account),
            _ => None,
        }
    }

    /// A network's own account of a kind, if it has one.
    pub fn find_of_network(&self, kind: Kind, network: Network) -> Option<Handle> {
        let own = self.own.get(self.links)?;
        found_in(own.as_slice(), kind, Side::of(network))
    }

    /// A network's own account of a kind.
    pub fn of_network(&mut self, kind: Kind, network: Network) -> Result<Handle, AllocError> {
        match self.find_of_network(kind, network) {
            Some(account) => Ok(account),
            None => {
                let account = self.open(kind, None, Side::of(network))?;
                self.keep(self.links, kind, Side::of(network), account)?;
                Ok(account)
            }
        }
    }

    /// A network's own account of a kind, which isn't its own any more.
    pub fn release_of_network(&mut self, kind: Kind, network: Network) -> Option<Handle> {
        self.release(self.links, kind, Side::of(network))
    }
}

/// The account of a kind among these.
fn found_in(own: &[Own], kind: Kind, side: Side) -> Option<Handle> {
    let mut found = own
        .iter()
        .filter(|one| one.kind == kind && one.side == side);
    found.next().map(|one| one.account)
}
