//! Lines near selected ones.
ghost use Rattle.std.specs.Prelude.{◌≡◌, vec_len};
ghost use Rattle.afdx_frame.specs.declared.key.TheConstants.{VL_ID_COUNT};

use crate::frame::FrameLine;
use crate::link_runs::LinkRuns;
use afdx_frame::{VL_ID_COUNT, VlId};
use std::alloc::{AllocError, Global};

/// Which lines of a ledger are near selected ones: of each of these so many lines of its link before and
/// after it, on both networks together.
///
/// The lines of a ledger are noted one after another. Then a [`Chooser`](crate::Chooser) says which are
/// taken. 3 MiB for the 65536 links, and 16 bytes for each run of selected lines of a link, which
/// goes on as long as each line between them is near one.
#[derive(Drop)]
pub struct Neighbours {
    around: u32,
    links: Vec<LinkRuns>,
    ghost whole: { vec_len links ≡ VL_ID_COUNT },
}

impl Neighbours {
    ghost use Rattle.std.specs.Prelude.{◌++◌, ◌∷◌, [], ◌<◌, ◌↔◌, IfOk, IsTrue, List, MatchResult};
    ghost use Rattle.std.specs.Prelude.{length};
    ghost use Rattle.ledger_text.specs.declared.bounds.TheConstants.{MAX_LINES};
    ghost use Rattle.ledger_text.specs.declared.frame.FrameLine.{FrameLine};
    ghost use Rattle.ledger_text.specs.FrameLines.{IsSelected, count_of};
    ghost use Rattle.ledger_text.specs.Neighbours.{Around, HasAskedLinks, HasNoted, IsNear};
    ghost use Rattle.ledger_text.specs.declared.selection.Selection.{Selection};

    /// No line is noted yet. Of each selected line so many are near on each side. `Err` where the table of
    /// links gets no memory.
    pub fn new(alloc: Global, around: u32) -> Result<Neighbours, AllocError>
        ensures { IfOk result (λ neighbours. (selection : Selection)
            → HasNoted selection (record { count = around; lines = [] }) neighbours) }
    {
        let mut links = Vec::with_capacity(alloc, VL_ID_COUNT)?;
        for _ in 0..VL_ID_COUNT {
            links.push(LinkRuns::new(alloc))?;
        }
        Ok(Neighbours { around, links })
    }

    /// Notes the ledger's next line, and whether it is selected. `Err` where a run gets no memory: the line
    /// isn't noted then.
    #[inline]
    pub fn note(&mut self, line: &FrameLine, selected: bool) -> Result<(), AllocError>
        ensures { (selection : Selection) (lines : List FrameLine) → length lines < MAX_LINES
            → HasNoted selection (record { count = self.old.around; lines = lines }) self.old
            → (IsTrue selected ↔ IsSelected selection lines line.now)
            → MatchResult result
            (λ _. HasNoted selection
            (record { count = self.old.around; lines = lines ++ line.now ∷ [] }) self.new)
            (λ _. HasNoted selection (record { count = self.old.around; lines = lines }) self.new) }
    {
        match line.link {
            Some(id) => self.note_link(id, selected),
            None => Ok(()),
        }
    }

    /// Notes the ledger's next line, which is of this link, as [`note`](Neighbours::note) does.
    #[inline]
    pub fn note_link(&mut self, id: VlId, selected: bool) -> Result<(), AllocError>
        ensures { (selection : Selection) (lines : List FrameLine) (v : FrameLine) → length lines < MAX_LINES
            → HasNoted selection (record { count = self.old.around; lines = lines }) self.old
            → v.link ≡ Some id
            → (IsTrue selected ↔ IsSelected selection lines v)
            → MatchResult result
            (λ _. HasNoted selection
            (record { count = self.old.around; lines = lines ++ v ∷ [] }) self.new)
            (λ _. HasNoted selection (record { count = self.old.around; lines = lines }) self.new) }
    {
        self.links[usize::from(id.0)].note(self.around, selected)
    }

    /// Is the ledger's next line, which is of this link, near a selected one?
    #[inline]
    pub fn is_near(&mut self, id: VlId) -> bool
        ensures { (selection : Selection) (around : Around) (before : List FrameLine) (v : FrameLine)
            → length before < MAX_LINES
            → HasAskedLinks selection around before self.old
            → v.link ≡ Some id
            → (IsTrue result ↔ IsNear selection around id.0 (count_of id.0 before))
            × HasAskedLinks selection around (before ++ v ∷ []) self.new }
    {
        self.links[usize::from(id.0)].is_near(self.around)
    }
}
