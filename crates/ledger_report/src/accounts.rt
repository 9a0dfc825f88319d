//! The accounts of the table's links, and whether they can give the verdicts that a ledger has.
//!
//! A ledger doesn't tell each frame's size. A size is at least the bytes that are kept, and at most Smax: so
//! of each account the least and the most are known that it may hold. What neither gives proves that the
//! ledger was judged by another table.

use afdx_frame::VlId;
use findings::PerNetwork;
use ledger_text::FrameLine;
use policing::Policing;
use std::alloc::{AllocError, Global};
use vl_config::{Config, Link};

/// The least size of a frame, in bytes with its check sequence (IEEE 802.3).
const LEAST_SIZE: u32 = 64;

/// The check sequence, which recordings don't hold.
const CHECK_BYTES: u32 = 4;

/// Why a line isn't one of the table.
#[derive(Clone, Copy, PartialEq, Eq)]
pub enum Unheld {
    /// The frame is regular, and longer than the link's Smax.
    Size,
    /// It is within the account, which can't hold so much.
    Within,
    /// It is in excess of the account, which holds Smax.
    Excess,
}

/// The first line that isn't one of the table.
#[derive(Clone, Copy, PartialEq, Eq)]
pub struct UnheldLine {
    /// Its number, the head being line 1.
    pub line: u64,
    pub id: VlId,
    pub why: Unheld,
}

/// An account of a link on one network, counted as policing counts it: in bytes times BAG in nanoseconds.
#[derive(Clone, Copy)]
struct Bounds {
    smax: u32,
    bag: u64,
    cap: u64,
    /// The least that it may hold, and the most.
    least: u64,
    most: u64,
    /// The timestamp of the frame before.
    last: Option<u64>,
}

impl Bounds {
    /// Of a full account, which has seen no frame.
    fn full(link: &Link) -> Bounds {
        let cap = u64::from(link.smax).saturating_mul(link.bag.saturating_add(link.jitter));
        Bounds {
            smax: link.smax,
            bag: link.bag,
            cap,
            least: cap,
            most: cap,
            last: None,
        }
    }

    /// The charge of a frame of this size.
    fn charge(&self, size: u32) -> u64 {
        u64::from(size).saturating_mul(self.bag)
    }

    /// Adds the credit since the frame before.
    fn credit(&mut self, stamp: u64) {
        let since = stamp.saturating_sub(self.last.unwrap_or(stamp));
        let credit = u64::from(self.smax).saturating_mul(since);
        self.least = self.least.saturating_add(credit).min(self.cap);
        self.most = self.most.saturating_add(credit).min(self.cap);
        self.last = Some(stamp);
    }

    /// Takes the next frame with its verdict. Some: the account doesn't give it.
    #[inline]
    fn take(&mut self, line: &FrameLine, policing: Policing) -> Option<Unheld> {
        self.credit(line.stamp.0);
        let held = line.kept.map_or(0, |kept| kept.saturating_add(CHECK_BYTES));
        let size = held.max(LEAST_SIZE);
        if size > self.smax {
            return Some(Unheld::Size);
        }
        let (at_least, at_most) = (self.charge(size), self.charge(self.smax));
        match policing {
            Policing::Within if at_least > self.most => Some(Unheld::Within),
            Policing::Excess if at_most <= self.least => Some(Unheld::Excess),
            Policing::Within => {
                self.most = self.most.saturating_sub(at_least);
                self.least = self.least.saturating_sub(at_most);
                None
            }
            Policing::Excess => None,
        }
    }
}

/// The accounts of a table's links, in their order.
#[derive(Drop)]
pub(crate) struct Accounts {
    links: Vec<PerNetwork<Bounds>>,
    /// How many lines of frames there were.
    lines: u64,
    /// The first line that isn't one of the table.
    pub(crate) unheld: Option<UnheldLine>,
}

impl Accounts {
    /// Full ones.
    ///
    /// # Errors
    ///
    /// `AllocError` if there is no memory for them.
    pub(crate) fn new(alloc: Global, config: &Config) -> Result<Accounts, AllocError> {
        let mut links = Vec::with_capacity(alloc, config.links().len())?;
        for link in config.links() {
            links.push(PerNetwork {
                a: Bounds::full(link),
                b: Bounds::full(link),
            })?;
        }
        Ok(Accounts {
            links,
            lines: 0,
            unheld: None,
        })
    }

    /// Takes the ledger's next line of a frame, whose link stands at this place.
    #[inline]
    pub(crate) fn note(&mut self, line: &FrameLine, place: usize) {
        self.lines = self.lines.saturating_add(1);
        let (Some(id), Some(policing)) = (line.link, line.verdict.policing) else {
            return;
        };
        let Some(accounts) = self.links.get_mut(place) else {
            return;
        };
        let why = accounts.of_mut(line.network).take(line, policing);
        if let Some(why) = why
            && self.unheld.is_none()
        {
            self.unheld = Some(UnheldLine {
                line: self.lines.saturating_add(1),
                id,
                why,
            });
        }
    }
}
