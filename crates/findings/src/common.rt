//! Findings of both networks, or of the same links, that have one cause.
use crate::accounts::{Handle, Span};
use crate::flight::{Flight, Kept};
use crate::kind::Kind;
use crate::long::SECOND;
use crate::signs::Side;
use std::alloc::AllocError;

impl Flight {
    /// The findings of a kind that links have in common, which aren't kept any more.
    pub fn take_kept(&mut self, kind: Kind) -> Kept {
        let place = self.kept.iter().position(|kept| kept.kind == kind);
        match place {
            Some(place) if place < self.kept.len() => self.kept.swap_remove(place),
            _ => Kept {
                kind,
                accounts: Vec::new(self.alloc),
                more: None,
            },
        }
    }

    /// Joins findings that have one cause.
    pub fn join_common(&mut self) -> Result<(), AllocError> {
        for kind in [Kind::Silence, Kind::ClockStep, Kind::Absent] {
            self.join_networks(kind)?;
        }
        self.join_resets()
    }

    /// Silences, steps, and absences of the same links on both networks at once are one.
    fn join_networks(&mut self, kind: Kind) -> Result<(), AllocError> {
        let count = self.kept(kind).len();
        for first in 0..count {
            for second in first.saturating_add(1)..count {
                let one = self.kept(kind).get(first).copied();
                let other = self.kept(kind).get(second).copied();
                if let (Some(one), Some(other)) = (one, other) {
                    if self.are_one(kind, one, other) {
                        self.join_pair(one, other)?;
                    }
                }
            }
        }
        Ok(())
    }

    /// Are they of two networks, and share their time, and of absences their links?
    fn are_one(&self, kind: Kind, one: Handle, other: Handle) -> bool {
        if self.accounts.is_absorbed(one) || self.accounts.is_absorbed(other) {
            return false;
        }
        let (Some(a), Some(b)) = (self.accounts.get(one), self.accounts.get(other)) else {
            return false;
        };
        let (Some(span), Some(other_span)) = (a.spans.first(), b.spans.first()) else {
            return false;
        };
        let networks = a.side != b.side && a.side != Side::Both && b.side != Side::Both;
        let links = kind != Kind::Absent || self.have_same_links(one, other);
        networks && span.is_alike(*other_span) && links
    }

    /// Are they about the same links?
    fn have_same_links(&self, one: Handle, other: Handle) -> bool {
        let (Some(a), Some(b)) = (self.accounts.get(one), self.accounts.get(other)) else {
            return false;
        };
        let among = |link: &usize| b.links.iter().any(|held| held == link);
        a.links.len() == b.links.len() && a.links.iter().all(among)
    }

    /// One takes the other.
    fn join_pair(&mut self, one: Handle, other: Handle) -> Result<(), AllocError> {
        let mut links = Vec::new(self.alloc);
        if let Some(held) = self.accounts.get(other) {
            for link in held.links.iter() {
                links.push(*link)?;
            }
        }
        self.accounts.join(one, other)?;
        if let Some(held) = self.accounts.get_mut(one) {
            held.side = Side::Both;
            for link in links.iter() {
                if !held.links.iter().any(|one| one == link) {
                    held.links.push(*link)?;
                }
            }
        }
        Ok(())
    }

    /// Links that pause together and begin anew after it have one cause.
    fn join_resets(&mut self) -> Result<(), AllocError> {
        let count = self.kept(Kind::Outage).len();
        let resets = self.kept(Kind::Reset).len();
        for first in 0..count {
            for second in 0..resets {
                let outage = self.kept(Kind::Outage).get(first).copied();
                let reset = self.kept(Kind::Reset).get(second).copied();
                if let (Some(outage), Some(reset)) = (outage, reset) {
                    if self.begins_anew(outage, reset) {
                        self.accounts.absorb(outage, reset)?;
                    }
                }
            }
        }
        Ok(())
    }

    /// Does the reset come within a second of the outage's end, of the same links?
    fn begins_anew(&self, outage: Handle, reset: Handle) -> bool {
        let end = self
            .accounts
            .get(outage)
            .and_then(|account| account.spans.first().map(|span| span.to));
        let (Some(end), Some(Span { from, .. })) = (end, self.accounts.span(reset)) else {
            return false;
        };
        (from - end).is_within(SECOND) && outage != reset && self.have_same_links(outage, reset)
    }
}
