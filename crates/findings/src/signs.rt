//! Signs: facts that can be counted, each of which is in exactly one finding.
use afdx_frame::Network;
use std::alloc::{AllocError, Global};

/// The words of signs. docs/REPORT.md says when each occurs.
#[derive(Clone, Copy, PartialEq, Eq)]
pub enum Word {
    Cut,
    Runt,
    Oversize,
    Foreign,
    Unconfigured,
    TooLong,
    Excess,
    Out,
    Reset,
    Lost,
    Alone,
    Both,
    Skipped,
    Repeat,
    Stray,
    Reordered,
    Jump,
    Early,
    Late,
    Outage,
    Stop,
    LateStart,
    Rate,
    Moved,
    Apart,
    Step,
    Drift,
    Coarse,
    Never,
    Unrecorded,
    Ending,
    NoFrames,
}

impl Word {
    /// The word as JSON has it.
    pub fn text(self) -> &'static str {
        match self {
            Word::Cut => "cut",
            Word::Runt => "runt",
            Word::Oversize => "oversize",
            Word::Foreign => "foreign",
            Word::Unconfigured => "unconfigured",
            Word::TooLong => "toolong",
            Word::Excess => "excess",
            Word::Out => "out",
            Word::Reset => "reset",
            Word::Lost => "lost",
            Word::Alone => "alone",
            Word::Both => "both",
            Word::Skipped => "skipped",
            Word::Repeat => "repeat",
            Word::Stray => "stray",
            Word::Reordered => "reordered",
            Word::Jump => "jump",
            Word::Early => "early",
            Word::Late => "late",
            Word::Outage => "outage",
            Word::Stop => "stop",
            Word::LateStart => "late start",
            Word::Rate => "rate",
            Word::Moved => "moved",
            Word::Apart => "apart",
            Word::Step => "step",
            Word::Drift => "drift",
            Word::Coarse => "coarse",
            Word::Never => "never",
            Word::Unrecorded => "unrecorded",
            Word::Ending => "ending",
            Word::NoFrames => "no frames",
        }
    }
}

/// The networks that a sign or a finding is about: one or both.
#[derive(Clone, Copy, PartialEq, Eq, PartialOrd, Ord)]
pub enum Side {
    A,
    B,
    Both,
}

impl Side {
    /// The side that is one network.
    pub fn of(network: Network) -> Side {
        match network {
            Network::A => Side::A,
            Network::B => Side::B,
        }
    }

    /// The one network that it is about.
    pub fn network(self) -> Option<Network> {
        match self {
            Side::A => Some(Network::A),
            Side::B => Some(Network::B),
            Side::Both => None,
        }
    }

    /// Its letters.
    pub fn letters(self) -> &'static str {
        match self {
            Side::A => "A",
            Side::B => "B",
            Side::Both => "AB",
        }
    }
}

/// A sign, of a network where its word is counted by network.
#[derive(Clone, Copy, PartialEq, Eq)]
pub struct Sign {
    pub word: Word,
    pub network: Option<Network>,
}

impl Sign {
    /// The sign of a word on one network.
    pub fn on(word: Word, network: Network) -> Sign {
        Sign {
            word,
            network: Some(network),
        }
    }

    /// The sign of a word that isn't counted by network.
    pub fn of(word: Word) -> Sign {
        Sign {
            word,
            network: None,
        }
    }
}

/// How many of a sign there are.
#[derive(Clone, Copy)]
pub struct SignCount {
    pub sign: Sign,
    pub count: u64,
}

/// How many signs of each kind there are.
#[derive(Drop)]
pub struct Signs {
    counts: Vec<SignCount>,
}

impl Signs {
    /// No signs.
    pub fn none(alloc: Global) -> Signs {
        Signs {
            counts: Vec::new(alloc),
        }
    }

    /// The signs that occurred, in the order in which they came.
    pub fn all(&self) -> &[SignCount] {
        self.counts.as_slice()
    }

    /// How many there are of one.
    pub fn count(&self, sign: Sign) -> u64 {
        let mut found = self.counts.iter().filter(|one| one.sign == sign);
        found.next().map_or(0, |one| one.count)
    }

    /// How many there are with a word, on both networks.
    pub fn sum(&self, word: Word) -> u64 {
        let mut sum = 0u64;
        for one in self.counts.iter().filter(|one| one.sign.word == word) {
            sum = sum.saturating_add(one.count);
        }
        sum
    }

    /// Is there any?
    pub fn are_some(&self) -> bool {
        self.counts.iter().any(|one| one.count > 0)
    }

    /// Adds so many of a sign.
    pub fn add(&mut self, sign: Sign, count: u64) -> Result<(), AllocError> {
        for one in self.counts.iter_mut() {
            if one.sign == sign {
                one.count = one.count.saturating_add(count);
                return Ok(());
            }
        }
        self.counts.push(SignCount { sign, count })?;
        Ok(())
    }

    /// Takes so many back, if there are so many.
    pub fn take(&mut self, sign: Sign, count: u64) -> bool {
        for one in self.counts.iter_mut() {
            if one.sign == sign && one.count >= count {
                one.count -= count;
                return true;
            }
        }
        false
    }

    /// Adds all of the others.
    pub fn add_all(&mut self, others: &Signs) -> Result<(), AllocError> {
        for one in others.counts.iter() {
            self.add(one.sign, one.count)?;
        }
        Ok(())
    }
}
