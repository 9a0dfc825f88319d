//! The text of a ledger of transits, and the counts of its lines.

ghost use Rattle.std.specs.Prelude.{◌≡◌, ◌++◌, List, [], ◌∷◌, IfOk, OnOk, OnErr};
ghost use Rattle.transit_run.specs.Ledger.{Adds, GoesOn, IsEmpty};

use crate::counts::Counts;
use crate::lane::Lane;
use crate::latency::Latency;
use crate::line::{Line, push_line};
use crate::summary::{write_links, write_total};
use afdx_frame::VlId;
use std::alloc::{AllocError, Global};
use vl_config::Config;

/// The lines that are written, and their counts.
#[derive(Drop)]
pub(crate) struct Ledger {
    /// Whole lines, as far as they weren't taken.
    text: Vec<u8>,
    /// The lines that are made of counts, before they are added to the text.
    line: String,
    pub(crate) counts: Counts,
}

impl Ledger {
    /// Of no line.
    ///
    /// # Errors
    ///
    /// `AllocError` if there is no memory for the counts.
    pub(crate) fn new(alloc: Global) -> Result<Ledger, AllocError>
        ensures { IfOk result IsEmpty }
    {
        Ok(Ledger {
            text: Vec::new(alloc),
            line: String::new(alloc),
            counts: Counts::new(alloc)?,
        })
    }

    /// The place of a link's counts, or of those of frames that name none; a new one if the link has none.
    ///
    /// # Errors
    ///
    /// `AllocError` if there is no memory for a new place.
    pub(crate) fn add_link(&mut self, link: Option<VlId>) -> Result<usize, AllocError>
        ensures { Adds self.old self.new [] }
    {
        self.counts.add(link)
    }

    /// Writes the line of a frame, and counts it.
    ///
    /// # Errors
    ///
    /// `AllocError` if there is no memory for the line: it is neither written nor counted.
    pub(crate) fn write(&mut self, line: &Line) -> Result<(), AllocError>
        ensures ok { OnOk result (Adds self.old self.new (line.now ∷ [])) }
        ensures err { OnErr result (Adds self.old self.new []) }
    {
        let place = self.counts.add(line.link())?;
        push_line(&mut self.text, line)?;
        self.counts.count(place, line);
        Ok(())
    }

    /// An equal frame was in the window of one that came out.
    pub(crate) fn note_choice(&mut self)
        ensures { Adds self.old self.new [] }
    {
        self.counts.note_choice();
    }

    /// Writes the counts and the transits of each link, and all transits. The first lane isn't a link's.
    ///
    /// # Errors
    ///
    /// `AllocError` if there is no memory for the lines: none is written.
    pub(crate) fn write_links(
        &mut self,
        table: &Config,
        lanes: &Vec<Lane>,
        all: &Latency,
    ) -> Result<(), AllocError>
        ensures counts { self.new.counts ≡ self.old.counts }
        ensures ok { OnOk result (GoesOn self.old.text.items self.new.text.items) }
        ensures err { OnErr result (self.new.text.items ≡ self.old.text.items) }
    {
        self.line.clear();
        let counts = self.counts.links().get(1..).unwrap_or(&[]);
        let lanes = lanes.get(1..).unwrap_or(&[]);
        write_links(&mut self.line, table.links(), counts, lanes, all)?;
        self.text.extend_from_slice(self.line.as_bytes())?;
        Ok(())
    }

    /// Writes the counts of all frames: the ledger's last line.
    ///
    /// # Errors
    ///
    /// `AllocError` if there is no memory for the line: it isn't written.
    pub(crate) fn write_total(&mut self) -> Result<(), AllocError>
        ensures counts { self.new.counts ≡ self.old.counts }
        ensures ok { OnOk result (GoesOn self.old.text.items self.new.text.items) }
        ensures err { OnErr result (self.new.text.items ≡ self.old.text.items) }
    {
        self.line.clear();
        write_total(&mut self.line, &self.counts.all)?;
        self.text.extend_from_slice(self.line.as_bytes())?;
        Ok(())
    }

    /// The lines that weren't taken.
    pub(crate) fn text(&self) -> &[u8]
        ensures { result.now ≡ self.now.text.items }
    {
        self.text.as_slice()
    }

    /// The lines were taken.
    pub(crate) fn clear_text(&mut self)
        ensures text { self.new.text.items ≡ [] }
        ensures counts { self.new.counts ≡ self.old.counts }
    {
        self.text.clear();
    }
}
