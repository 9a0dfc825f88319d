//! Which lines of a ledger are taken.
ghost use Rattle.std.specs.Prelude.{◌++◌, ◌∷◌, [], ◌<◌, ◌↔◌, IsTrue, List, Option, length};
ghost use Rattle.ledger_text.specs.declared.bounds.TheConstants.{MAX_LINES};
ghost use Rattle.ledger_text.specs.declared.frame.FrameLine.{FrameLine};
ghost use Rattle.ledger_text.specs.Neighbours.{AreNoted, Around, HasAsked, IsChosen};
ghost use Rattle.ledger_text.specs.declared.selection.Selection.{Selection};

use crate::frame::FrameLine;
use crate::neighbours::Neighbours;
use crate::selection::Selection;
use afdx_frame::Stamp;

/// Says of each line of a ledger, one after another from the first on, whether it is taken: where a
/// selection takes it, or, with neighbours, where it is near such a line.
#[derive(Drop)]
pub struct Chooser {
    /// The timestamp of the ledger's first frame.
    first: Option<Stamp>,
    neighbours: Option<Neighbours>,
}

impl Chooser {
    /// It was asked for no line yet. Neighbours are those that were noted, if others than selected lines are
    /// taken.
    pub fn new(neighbours: Option<Neighbours>) -> Chooser
        ensures { (selection : Selection) (around : Option Around)
            → AreNoted selection around neighbours → HasAsked selection around [] result }
    {
        Chooser {
            first: None,
            neighbours,
        }
    }

    /// Is the ledger's next line taken? The selection is the same at each call, and that by which
    /// neighbours were noted.
    #[inline]
    pub fn takes(&mut self, selection: &Selection, line: &FrameLine) -> bool
        ensures { (around : Option Around) (before : List FrameLine) → length before < MAX_LINES
            → HasAsked selection.now around before self.old
            → (IsTrue result ↔ IsChosen selection.now around before line.now)
            × HasAsked selection.now around (before ++ line.now ∷ []) self.new }
    {
        let first = self.first.unwrap_or(line.stamp);
        self.first = Some(first);
        match (&mut self.neighbours, line.link) {
            (None, _) => selection.takes(first, line),
            (Some(_), None) => selection.takes(first, line),
            (Some(neighbours), Some(id)) => neighbours.is_near(id),
        }
    }
}
