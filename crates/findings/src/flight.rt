//! The state that a flight's links share: accounts, networks, clocks, and events that may have one cause.
use crate::accounts::{Accounts, EMPTY, Handle, Span};
use crate::clocks::{Clocks, SkewStep, Step};
use crate::groups::{Event, Group};
use crate::kind::Kind;
use crate::long::{Long, Time, ZERO};
use crate::network::NetworkState;
use crate::per_network::PerNetwork;
use crate::recorder::RecorderFacts;
use crate::signs::{Side, Sign, Word};
use crate::skews::{EndedRun, Move, SkewState};
use afdx_frame::Network;
use std::alloc::{AllocError, Global};
use std::mem;
use vl_config::Link;

/// So many findings of a kind are kept, and the others counted.
const KEPT: usize = 64;

/// The findings of a kind that links have in common.
#[derive(Drop)]
pub struct Kept {
    pub kind: Kind,
    pub accounts: Vec<Handle>,
    /// The findings beyond the most that are kept.
    pub more: Option<Handle>,
}

/// The state that the links of a flight share.
#[derive(Drop)]
pub struct Flight {
    pub alloc: Global,
    pub accounts: Accounts,
    pub networks: PerNetwork<NetworkState>,
    pub clocks: Clocks,
    /// By a link's place in the table.
    pub skews: Vec<SkewState>,
    /// How many links have a usual skew.
    with_skew: usize,
    pub groups: Vec<Group>,
    pub kept: Vec<Kept>,
}

/// A pair of a link: a frame whose position came on the other network before.
#[derive(Clone, Copy)]
pub struct Pair {
    /// Its link's place in the table, and the network of the second frame.
    pub link: usize,
    pub network: Network,
    /// Its time on B less that on A, and when the second came.
    pub skew: Long,
    pub at: Time,
    /// Were both delivered?
    pub late: bool,
    /// By how much the networks' counts differ.
    pub difference: Long,
}

impl Flight {
    /// Of no line, against a table.
    pub fn new(
        alloc: Global,
        table: &[Link],
        recorders: PerNetwork<RecorderFacts>,
    ) -> Result<Flight, AllocError> {
        let mut skews = Vec::with_capacity(alloc, table.len())?;
        for link in table {
            skews.push(SkewState::new(Long::of(link.skew)))?;
        }
        Ok(Flight {
            alloc,
            accounts: Accounts::new(alloc, table.len())?,
            networks: PerNetwork {
                a: NetworkState::new(alloc, recorders.a),
                b: NetworkState::new(alloc, recorders.b),
            },
            clocks: Clocks::new(alloc),
            skews,
            with_skew: 0,
            groups: Vec::new(alloc),
            kept: Vec::new(alloc),
        })
    }

    /// No group can grow any more.
    pub fn close_groups(&mut self) -> Result<(), AllocError> {
        let groups = mem::replace(&mut self.groups, Vec::new(self.alloc));
        for group in groups {
            self.close(group)?;
        }
        Ok(())
    }

    /// Keeps a finding that is complete; of too many of its kind only their signs.
    pub fn keep(&mut self, account: Handle) -> Result<(), AllocError> {
        let Some(kind) = self.accounts.kind(account) else {
            return Ok(());
        };
        let found = self.kept.iter().position(|kept| kept.kind == kind);
        let place = match found {
            Some(place) => place,
            None => {
                self.kept.push(Kept {
                    kind,
                    accounts: Vec::new(self.alloc),
                    more: None,
                })?;
                self.kept.len().saturating_sub(1)
            }
        };
        let Some(kept) = self.kept.get_mut(place) else {
            return Ok(());
        };
        if kept.accounts.len() < KEPT {
            kept.accounts.push(account)?;
            return Ok(());
        }
        let more = match kept.more {
            Some(more) => more,
            None => self.accounts.open(kind, None, Side::Both)?,
        };
        kept.more = Some(more);
        if let Some(held) = self.accounts.get_mut(more) {
            held.add_part(None)?;
        }
        self.accounts.absorb(more, account)
    }

    /// The findings of a kind that links have in common.
    pub fn kept(&self, kind: Kind) -> &[Handle] {
        let mut kept = self.kept.iter().filter(|kept| kept.kind == kind);
        match kept.next() {
            Some(kept) => kept.accounts.as_slice(),
            None => EMPTY,
        }
    }

    /// B's clock stepped against A's: late frames since then are late by it.
    pub fn step(&mut self, account: Handle, step: &SkewStep) -> Result<(), AllocError> {
        let (size, at) = (step.size, step.at);
        self.clocks.note_step(Step { account, size, at })?;
        for link in 0..self.skews.len() {
            self.step_link(account, link, size, step.since)?;
        }
        Ok(())
    }

    /// The same for one link: its run of late frames, the one before, and its own late frames since then.
    fn step_link(
        &mut self,
        account: Handle,
        link: usize,
        size: Long,
        at: Time,
    ) -> Result<(), AllocError> {
        let offset = self.clocks.offset;
        let Some(state) = self.skews.get_mut(link) else {
            return Ok(());
        };
        state.forget_samples();
        let moved = state.take_move_back(at);
        let room = state.skew_max * 2;
        let (run, ended) = (state.run, state.ended);
        if let Some(moved) = moved {
            self.accounts.take(moved, Sign::of(Word::Moved), Long(1));
        }
        let starts_since = |span: Option<Span>| span.is_some_and(|span| span.from >= at);
        if let Some(run) = run.filter(|run| starts_since(self.accounts.span(*run))) {
            if (self.accounts.facts(run).skew - offset).is_within(room) {
                self.accounts.absorb(account, run)?;
                state.run = None;
            }
        }
        if let Some(EndedRun { account: run, skew }) = ended {
            if (skew - self.accounts.facts(run).skew - size).is_within(room) {
                self.accounts.absorb(account, run)?;
                state.ended = None;
            }
        }
        for side in [Side::A, Side::B] {
            let late = self.accounts.find(link, Kind::Late, side);
            let since = late.is_some_and(|late| starts_since(self.accounts.span(late)));
            if since {
                self.claim(account, link, Kind::Late, side)?;
            }
        }
        Ok(())
    }

    /// Notes the skew of a pair.
    pub fn note_pair(&mut self, pair: &Pair) -> Result<(), AllocError> {
        let base = pair.skew - self.clocks.offset;
        let drifted = self.clocks.drifted;
        self.end_block(pair.at)?;
        let Some(state) = self.skews.get_mut(pair.link) else {
            return Ok(());
        };
        let before = state.usual;
        let moved = state.note(base - drifted, pair.at);
        let usual = state.usual;
        if before.is_none() && usual.is_some() {
            self.with_skew = self.with_skew.saturating_add(1);
        }
        if let Some(usual) = usual.filter(|_| state.block != self.clocks.number) {
            state.block = self.clocks.number;
            self.clocks.note(base - usual, pair.at);
            self.end_block(pair.at)?;
        }
        if let Some(moved) = moved {
            self.note_move(pair.link, &moved)?;
        }
        if pair.late {
            self.note_late(pair)
        } else {
            self.end_run(pair.link, Some(pair.skew))
        }
    }

    /// Ends the block of skews, where it is whole.
    fn end_block(&mut self, at: Time) -> Result<(), AllocError> {
        match self.clocks.end_block(self.with_skew, at)? {
            Some(step) => self.note_skew_step(&step),
            None => Ok(()),
        }
    }

    /// Does a clock's step just before say the same? Pairs of frames that it parts show it again.
    fn is_told(&self, step: &SkewStep) -> bool {
        let Some(last) = self.clocks.last_step() else {
            return false;
        };
        let of_clock = self.accounts.kind(last.account) == Some(Kind::ClockStep);
        let size = last.size.abs();
        of_clock && (step.size.abs() - size).is_within(size / 8) && step.since <= last.at + size * 2
    }

    /// All skews stepped.
    fn note_skew_step(&mut self, step: &SkewStep) -> Result<(), AllocError> {
        if self.is_told(step) {
            self.clocks.forget_blocks();
            return Ok(());
        }
        let later = if step.size < ZERO { Side::A } else { Side::B };
        let account = self.accounts.open(Kind::SkewStep, None, later)?;
        if let Some(facts) = self.accounts.facts_mut(account) {
            facts.size = step.size;
        }
        self.accounts.hit(account, Sign::of(Word::Step), step.at)?;
        self.keep(account)?;
        self.step(account, step)
    }

    /// The skew of a link moved.
    fn note_move(&mut self, link: usize, moved: &Move) -> Result<(), AllocError> {
        let account = self.accounts.open(Kind::SkewMoves, Some(link), Side::Both)?;
        self.accounts.hit(account, Sign::of(Word::Moved), moved.at)?;
        if let Some(facts) = self.accounts.facts_mut(account) {
            facts.before = Some(moved.before);
            facts.after = moved.after;
        }
        if let Some(state) = self.skews.get_mut(link) {
            state.move_account = Some(account);
        }
        let from = moved.at - SKEW_ROOM;
        let _root = self.take(Event {
            kind: Kind::SkewMoves,
            side: Side::Both,
            span: Span { from, to: moved.at },
            account,
            link,
            crosses: false,
            size: ZERO,
        })?;
        Ok(())
    }

    /// The account of a link whose networks count apart by so much.
    pub fn apart(&mut self, link: usize, difference: Long, at: Time) -> Result<Handle, AllocError> {
        let held = self.skews.get(link).and_then(|state| state.apart);
        let account = match held {
            Some(account) => account,
            None => {
                let account = self.accounts.of_link(link, Kind::Apart, Side::Both)?;
                self.accounts.hit(account, Sign::of(Word::Apart), at)?;
                account
            }
        };
        if let Some(state) = self.skews.get_mut(link) {
            state.apart = Some(account);
        }
        if let Some(facts) = self.accounts.facts_mut(account) {
            facts.size = difference;
        }
        Ok(account)
    }

    /// Notes a frame that is delivered though the other network's was.
    fn note_late(&mut self, pair: &Pair) -> Result<(), AllocError> {
        let sign = Sign::on(Word::Late, pair.network);
        if let Some(state) = self.skews.get_mut(pair.link) {
            state.late_most = state.late_most.max(pair.skew.abs());
        }
        if pair.difference != ZERO {
            let apart = self.apart(pair.link, pair.difference, pair.at)?;
            return self.accounts.hit(apart, sign, pair.at);
        }
        let Some(state) = self.skews.get_mut(pair.link) else {
            return Ok(());
        };
        let bound = state.skew_max;
        let by_step = (pair.skew - self.clocks.offset).is_within(bound)
            && !pair.skew.is_within(bound);
        if let Some(step) = self.clocks.last_step().filter(|_| by_step) {
            return self.accounts.hit(step.account, sign, pair.at);
        }
        let run = match state.run {
            Some(run) => run,
            None => self
                .accounts
                .open(Kind::Late, Some(pair.link), Side::of(pair.network))?,
        };
        state.run = Some(run);
        self.accounts.hit(run, sign, pair.at)?;
        if let Some(held) = self.accounts.get_mut(run) {
            held.parts = held.parts.saturating_add(1);
            held.facts.skew = pair.skew;
            held.facts.most = held.facts.most.max(pair.skew.abs());
        }
        Ok(())
    }

    /// A link's run of late frames ends, by a pair with this skew or with the ledger.
    pub fn end_run(&mut self, link: usize, skew: Option<Long>) -> Result<(), AllocError> {
        let Some(state) = self.skews.get_mut(link) else {
            return Ok(());
        };
        let Some(run) = state.run.take() else {
            return Ok(());
        };
        let before = mem::replace(&mut state.ended, None);
        let bound = state.skew_max;
        if let Some(before) = before {
            self.settle(link, before.account)?;
        }
        let last = self.accounts.facts(run).skew;
        if let (Some(step), Some(skew)) = (self.clocks.last_step(), skew) {
            let by_step = (skew - last - step.size).is_within(bound * 2);
            if by_step && step.size.abs() * 4 > bound {
                return self.accounts.absorb(step.account, run);
            }
        }
        match (skew, self.skews.get_mut(link)) {
            (Some(skew), Some(state)) => {
                state.ended = Some(EndedRun { account: run, skew });
                Ok(())
            }
            _ => self.settle(link, run),
        }
    }

    /// Late frames that no common cause took are their link's own.
    pub fn settle(&mut self, link: usize, run: Handle) -> Result<(), AllocError> {
        let of = |network| self.accounts.count(run, Sign::on(Word::Late, network));
        let side = if of(Network::A) >= of(Network::B) {
            Side::A
        } else {
            Side::B
        };
        let most = self.accounts.facts(run).most;
        let whole = self.accounts.of_link(link, Kind::Late, side)?;
        if let Some(held) = self.accounts.get_mut(whole) {
            held.facts.most = held.facts.most.max(most);
        }
        self.accounts.absorb(whole, run)
    }

    /// The median of the skews of all links but one, as they were at first; 0 where there are few.
    pub fn usual_skew(&self, but: usize) -> Result<Long, AllocError> {
        let mut skews = Vec::new(self.alloc);
        for (link, state) in self.skews.iter().enumerate() {
            match state.usual {
                Some(usual) if link != but => skews.push(usual)?,
                _ => {}
            }
        }
        if skews.len() < 3 {
            return Ok(ZERO);
        }
        skews.as_mut_slice().sort_unstable();
        Ok(skews.get(skews.len() / 2).copied().unwrap_or(ZERO))
    }
}

/// Skews that move within so long before have one cause.
const SKEW_ROOM: Time = Long(1_000_000_000);
