//! A ledger's lines as they come: what each says of its link and its network.
use crate::accounts::Noted;
use crate::finding::Findings;
use crate::flight::Flight;
use crate::kind::Kind;
use crate::link::{Frame, LinkState};
use crate::long::{Long, Time, ZERO};
use crate::per_network::PerNetwork;
use crate::recorder::RecorderFacts;
use crate::signs::{Sign, Word};
use crate::tell::findings_of;
use afdx_frame::{Network, VL_ID_COUNT, VlId};
use std::alloc::{AllocError, Global};
use vl_config::{Class, Config};

/// No link of the table.
const NO_LINK: u16 = u16::MAX;

/// The content of the line of a frame.
#[derive(Clone, Copy)]
pub struct Line {
    pub network: Network,
    /// In nanoseconds since 1970. No line is earlier than the one before.
    pub stamp: u64,
    pub class: Class,
    /// Its link and sequence number, where the class has them.
    pub link: Option<VlId>,
    pub number: u8,
    /// Does policing discard it?
    pub excess: bool,
    /// Does integrity checking see a reset, or a number that is out?
    pub reset: bool,
    pub out: bool,
    /// Does redundancy management deliver it?
    pub delivered: bool,
}

/// How a recording ends, where the ledger says so.
#[derive(Clone, Copy, PartialEq, Eq)]
pub enum RecordingEnd {
    /// It isn't known, or it is clean.
    Whole,
    /// It isn't read on.
    Broken,
}

/// The analysis of a ledger so far.
#[derive(Drop)]
pub struct Analysis {
    links: Vec<LinkState>,
    /// By identifier, a link's place in the table.
    index: Vec<u16>,
    flight: Flight,
    /// The timestamp of the first line.
    start: Option<u64>,
    end: Time,
}

/// The class's kind and sign, where its frames have no number.
fn unnumbered(class: Class) -> Option<(Kind, Word)> {
    match class {
        Class::Cut => Some((Kind::Cut, Word::Cut)),
        Class::Runt => Some((Kind::Runt, Word::Runt)),
        Class::Oversize => Some((Kind::Oversize, Word::Oversize)),
        Class::Foreign => Some((Kind::Foreign, Word::Foreign)),
        Class::Unconfigured => Some((Kind::Unconfigured, Word::Unconfigured)),
        Class::TooLong | Class::Regular => None,
    }
}

impl Analysis {
    /// Of no line, against a table. `recorders` says what the ledger doesn't tell.
    ///
    /// # Errors
    ///
    /// `AllocError` if there is no memory for some 3 KB for each link.
    pub fn new(
        alloc: Global,
        config: &Config,
        recorders: PerNetwork<RecorderFacts>,
    ) -> Result<Analysis, AllocError> {
        let table = config.links();
        let mut links = Vec::with_capacity(alloc, table.len())?;
        let mut index = vec![in alloc; NO_LINK; VL_ID_COUNT]?;
        for (place, link) in table.iter().enumerate() {
            links.push(LinkState::new(alloc, place, link))?;
            if let Some(held) = index.get_mut(usize::from(link.id.0)) {
                *held = u16::try_from(place).unwrap_or(NO_LINK);
            }
        }
        let flight = Flight::new(alloc, table, recorders)?;
        Ok(Analysis {
            links,
            index,
            flight,
            start: None,
            end: ZERO,
        })
    }

    /// The time of a line since the first one.
    fn time(&mut self, stamp: u64) -> Time {
        let start = match self.start {
            Some(start) => start,
            None => {
                self.start = Some(stamp);
                self.flight.networks.a.recorder.count_from(stamp);
                self.flight.networks.b.recorder.count_from(stamp);
                stamp
            }
        };
        Long::of(stamp.saturating_sub(start))
    }

    /// Notes the ledger's next line of a frame.
    ///
    /// # Errors
    ///
    /// `AllocError` if there is no memory for a sign.
    pub fn note(&mut self, line: &Line) -> Result<(), AllocError> {
        let at = self.time(line.stamp);
        self.end = at;
        self.flight.accounts.log.clear();
        self.flight.networks.of_mut(line.network).note(at)?;
        let Some((kind, word)) = unnumbered(line.class) else {
            return self.note_frame(line, at);
        };
        let account = self.flight.accounts.of_network(kind, line.network)?;
        self.flight
            .accounts
            .hit(account, Sign::on(word, line.network), at)?;
        match line.link {
            Some(id) => self.flight.networks.of_mut(line.network).note_outside(id.0),
            None => Ok(()),
        }
    }

    /// Notes the line of a frame of a link.
    fn note_frame(&mut self, line: &Line, at: Time) -> Result<(), AllocError> {
        let id = line.link.map_or(usize::MAX, |id| usize::from(id.0));
        let place = self
            .index
            .get(id)
            .map_or(usize::MAX, |place| usize::from(*place));
        let Some(link) = self.links.get_mut(place) else {
            return Ok(());
        };
        link.take(
            &mut self.flight,
            &Frame {
                network: line.network,
                at,
                number: line.number,
                class: line.class,
                excess: line.excess,
                reset: line.reset,
                out: line.out,
                delivered: line.delivered,
            },
        )?;
        self.flight.tidy(&mut self.links)
    }

    /// The signs that the latest line showed, or the end of the ledger.
    pub fn noted(&self) -> &[Noted] {
        self.flight.accounts.log.as_slice()
    }

    /// The findings once the ledger has ended, and its recordings ended so.
    ///
    /// # Errors
    ///
    /// `AllocError` if there is no memory for it.
    pub fn end(&mut self, a: RecordingEnd, b: RecordingEnd) -> Result<Findings, AllocError> {
        self.flight.accounts.log.clear();
        for link in self.links.iter_mut() {
            link.end(&mut self.flight, self.end)?;
        }
        self.flight.close_groups()?;
        let some = self.start.is_some();
        findings_of(
            &mut self.flight,
            &mut self.links,
            some.then_some(self.end),
            [a, b],
        )
    }
}
