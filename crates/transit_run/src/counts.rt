//! The counts of a ledger of transits: of all frames, and of those of each link.

ghost use Rattle.std.specs.Prelude.{◌≡◌, List, [], ◌∷◌, ◌++◌, IfOk, IfSome, slice_get};
ghost use Rattle.transit_run.specs.Counts.{IsCountOf, head_of, links_of, place_of, with_class};
ghost use Rattle.transit_run.specs.Line.{link_of};
ghost use Rattle.transit_run.specs.declared.line.Line.{Line};

use crate::line::Line;
use crate::tally::Tally;
use afdx_frame::{VL_ID_COUNT, VlId};
use std::alloc::{AllocError, Global};
use vl_config::Class;

/// The counts of the frames of a link, or of those that name none.
#[derive(Clone, Copy)]
pub(crate) struct LinkCounts {
    pub(crate) link: Option<VlId>,
    pub(crate) tally: Tally,
}

/// The counts of the lines of a ledger.
#[derive(Drop)]
pub(crate) struct Counts {
    /// Of all frames.
    pub(crate) all: Tally,
    /// Of frames that went in with another constant field than the table's.
    pub(crate) foreign: u64,
    /// Of frames that went in of links that the table lacks.
    pub(crate) unconfigured: u64,
    /// Of the frames that name no link, and of each link in the order in which they were met.
    links: Vec<LinkCounts>,
    /// The place of each identifier's link. 0: it has none.
    index: Vec<u32>,
}

impl Counts {
    /// Of no line, and no link.
    ///
    /// # Errors
    ///
    /// `AllocError` if there is no memory for the places of all links.
    pub(crate) fn new(alloc: Global) -> Result<Counts, AllocError>
        ensures { IfOk result (λ counts. IsCountOf counts []) }
    {
        let tally = Tally::new();
        let mut links = Vec::new(alloc);
        links.push(LinkCounts { link: None, tally })?;
        Ok(Counts {
            all: tally,
            foreign: 0,
            unconfigured: 0,
            links,
            index: vec![in alloc; 0; VL_ID_COUNT]?,
        })
    }

    /// The place of a link, or of the frames that name none. 0 too if the link has none.
    pub(crate) fn place(&self, link: Option<VlId>) -> usize
        ensures { result ≡ place_of self.now link }
    {
        match link {
            Some(id) => match self.index.get(usize::from(id.0)) {
                Some(place) => *place as usize,
                None => 0,
            },
            None => 0,
        }
    }

    /// The place of a link, or of the frames that name none; a new one if the link has none.
    ///
    /// # Errors
    ///
    /// `AllocError` if there is no memory for a new place.
    pub(crate) fn add(&mut self, link: Option<VlId>) -> Result<usize, AllocError>
        ensures counts { (lines : List Line) → IsCountOf self.old lines → IsCountOf self.new lines }
        ensures place { IfOk result (λ place. (lines : List Line) → IsCountOf self.old lines →
            slice_get (links_of self.new) place ≡ Some link) }
    {
        let place = self.place(link);
        match link {
            Some(id) if place == 0 => self.push(id),
            _ => Ok(place),
        }
    }

    /// Gives a link that has no place the next one.
    fn push(&mut self, id: VlId) -> Result<usize, AllocError>
        ensures counts { (lines : List Line) → IsCountOf self.old lines →
            place_of self.old (Some id) ≡ 0 → IsCountOf self.new lines }
        ensures place { IfOk result (λ place. (lines : List Line) → IsCountOf self.old lines →
            place_of self.old (Some id) ≡ 0 → slice_get (links_of self.new) place ≡ Some (Some id)) }
    {
        let place = self.links.len();
        let Ok(entry) = u32::try_from(place) else {
            return Err(AllocError);
        };
        let tally = Tally::new();
        self.links.push(LinkCounts {
            link: Some(id),
            tally,
        })?;
        if let Some(of_id) = self.index.get_mut(usize::from(id.0)) {
            *of_id = entry;
        }
        Ok(place)
    }

    /// Counts the line of a frame whose link has this place.
    pub(crate) fn count(&mut self, place: usize, line: &Line)
        ensures { (lines : List Line) → IsCountOf self.old lines →
            slice_get (links_of self.old) place ≡ Some (link_of (head_of line.now)) →
            IsCountOf self.new (lines ++ line.now ∷ []) }
    {
        self.count_class(line);
        self.all.count(line);
        match self.links.get_mut(place) {
            Some(one) => one.tally.count(line),
            None => {}
        }
    }

    fn count_class(&mut self, line: &Line)
        ensures { self.new ≡ with_class self.old line.now }
    {
        let Line::Before(line) = line else {
            return;
        };
        match line.head.class {
            Class::Foreign => self.foreign = self.foreign.saturating_add(1),
            Class::Unconfigured => self.unconfigured = self.unconfigured.saturating_add(1),
            _ => {}
        }
    }

    /// An equal frame was in the window of one that came out.
    pub(crate) fn note_choice(&mut self)
        ensures { (lines : List Line) → IsCountOf self.old lines → IsCountOf self.new lines }
    {
        self.all.choices = self.all.choices.saturating_add(1);
    }

    /// The counts of the link at a place.
    pub(crate) fn link(&self, place: usize) -> Option<&LinkCounts>
        ensures { IfSome result (λ one. slice_get self.now.links.items place ≡ Some one.now) }
    {
        self.links.get(place)
    }

    /// The counts of each link, those of frames that name none first.
    pub(crate) fn links(&self) -> &[LinkCounts] {
        &self.links
    }
}
