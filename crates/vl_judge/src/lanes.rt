//! The lanes of all links, and the verdicts along a list of frames.

ghost use Rattle.std.specs.Prelude.{◌≡◌, ◌<◌, ◌≤◌, ◌∷◌, ◌++◌, [], ℕ, List, Some, IfOk, length, slice_index};
ghost use Rattle.std.specs.Option.{ForSome};
ghost use Rattle.std.specs.declared.cmp.Ordering.TheVariants.{Less};
ghost use Rattle.afdx_frame.specs.Frame.{Frame, key_of, key_cmp};
ghost use Rattle.vl_config.specs.Document.{VlTable};
ghost use Rattle.vl_config.specs.declared.config.TheConstants.{MAX_LINKS};
ghost use Rattle.vl_judge.specs.Lanes.{AllNew, IsIndexed};

use crate::lane::LaneBox;
use crate::verdict::Verdict;
use afdx_frame::{Key, LentFrame, VL_ID_COUNT};
use frame_batch::Round;
use std::alloc::{AllocError, Global};
use std::marker::Model;
use vl_config::{Config, Link, class_by};

/// The lanes of all links of a table. A lane keeps what the judgements of its link know.
///
/// A frame's lane is found by an index of all identifiers, so that a frame costs the same whatever
/// the number of links.
#[derive(Drop)]
pub struct Lanes {
    alloc: Global,
    constant: u32,
    last: Option<Key>,
    /// For each identifier the place of its lane, or the number of lanes where there is none.
    index: Vec<u16>,
    lanes: Vec<LaneBox>,
}

impl Model for Lanes {
    ghost use Rattle.vl_judge.specs.Lanes.{LanesState, IsIndexed, NoneAfterLast};

    ghost Value = { LanesState };

    ghost view = { λ lanes. record {
      constant = lanes.constant;
      last = lanes.last;
      lanes = lanes.lanes.items;
    } };

    ghost invariant = { λ lanes.
        IsIndexed lanes.index.items lanes.lanes.items × NoneAfterLast lanes.last lanes.lanes.items };
}

impl Lanes {
    ghost use Rattle.std.specs.Prelude.{OnErr, OnOk};
    ghost use Rattle.vl_judge.specs.Lanes.{FollowsOn, StandsAfter, last_key, place_of};
    ghost use Rattle.vl_judge.specs.Verdicts.{verdicts};

    /// The lanes of a table's links, which have seen no frame. Whatever the table, the index of all
    /// identifiers is allocated, so an `Err` may come for any.
    pub fn new(alloc: Global, config: &Config) -> Result<Lanes, AllocError>
        ensures { IfOk result (λ lanes. StandsAfter lanes config.now []) }
    {
        let lanes = make_lanes(alloc, config.links())?;
        let index = make_index(alloc, &lanes)?;
        Ok(Lanes {
            alloc,
            constant: config.constant(),
            last: None,
            index,
            lanes,
        })
    }

    /// The key of the last frame.
    pub fn last(&self) -> Option<Key>
        ensures { result ≡ self.now.last }
    {
        self.last
    }

    /// Judges a frame whose key is above that of the last one: the next frame in the order of both
    /// networks.
    pub fn judge(&mut self, frame: &LentFrame<'_>) -> Verdict
        requires { ForSome self.old.last (λ last. key_cmp last (key_of frame.now) ≡ Less) }
        ensures verdict { (vl_table : VlTable) (frames : List Frame) →
            StandsAfter self.old vl_table frames →
            verdicts vl_table (frames ++ frame.now ∷ [])
            ≡ verdicts vl_table frames ++ result ∷ [] }
        ensures after { (vl_table : VlTable) (frames : List Frame) →
            StandsAfter self.old vl_table frames →
            StandsAfter self.new vl_table (frames ++ frame.now ∷ []) }
        ensures last { self.new.last ≡ Some (key_of frame.now) }
    {
        let place = self.place_of(frame);
        if place < self.lanes.len() {
            let verdict = self.lanes[place].judge(self.constant, frame);
            self.last = Some(frame.key());
            verdict
        } else {
            let verdict = Verdict::stopped(class_by(self.constant, None, frame));
            self.last = Some(frame.key());
            verdict
        }
    }

    /// Judges frames one after the other on the calling thread, each as `judge` does. The first one's
    /// key is above that of the last frame, and each other one's above that of the frame before it.
    ///
    /// It takes one block of memory, for the verdicts, and of no frames none is taken.
    pub fn judge_frames(&mut self, round: &Round) -> Result<Vec<Verdict>, AllocError>
        requires { FollowsOn self.old.last round.now }
        ensures verdicts { IfOk result (λ said. (vl_table : VlTable) (frames : List Frame) →
            StandsAfter self.old vl_table frames →
            verdicts vl_table (frames ++ round.now) ≡ verdicts vl_table frames ++ said.items) }
        ensures after { OnOk result ((vl_table : VlTable) (frames : List Frame) →
            StandsAfter self.old vl_table frames →
            StandsAfter self.new vl_table (frames ++ round.now)) }
        ensures complete { IfOk result (λ said. length said.items ≡ length round.now) }
        ensures last { OnOk result (self.new.last ≡ last_key self.old.last round.now) }
        ensures fault { OnErr result (0 < length round.now) }
    {
        let mut said = Vec::with_capacity(self.alloc, round.len())?;
        for index in 0..round.len() {
            said.push(self.judge(&round.frame(index)))?;
        }
        Ok(said)
    }

    /// The place of the frame's lane, or the number of lanes where its link has none.
    #[inline(always)]
    fn place_of(&self, frame: &LentFrame<'_>) -> usize
        ensures { result ≡ place_of self.now.lanes frame.now }
    {
        match frame.link() {
            Some(id) => self.index[id.0 as usize] as usize,
            None => self.lanes.len(),
        }
    }
}

fn make_lanes(alloc: Global, links: &[Link]) -> Result<Vec<LaneBox>, AllocError>
    ensures { IfOk result (λ lanes. AllNew lanes.items links.now) }
{
    let mut lanes = Vec::with_capacity(alloc, links.len())?;
    for link in links {
        lanes.push(LaneBox::new(alloc, link)?)?;
    }
    Ok(lanes)
}

/// The index of the lanes. Where two lanes have one identifier, which no table has, it is the first's.
fn make_index(alloc: Global, lanes: &[LaneBox]) -> Result<Vec<u16>, AllocError>
    requires { length lanes.now ≤ MAX_LINKS }
    ensures { IfOk result (λ index. IsIndexed index.items lanes.now) }
{
    let mut index = repeated(alloc, lanes.len() as u16, VL_ID_COUNT)?;
    for place in (0..lanes.len()).rev() {
        index[lanes[place].id().0 as usize] = place as u16;
    }
    Ok(index)
}

fn repeated(alloc: Global, number: u16, len: usize) -> Result<Vec<u16>, AllocError>
    ensures len { IfOk result (λ numbers. length numbers.items ≡ len) }
    ensures each { IfOk result (λ numbers.
        (k : ℕ) → k < len → slice_index numbers.items k ≡ number) }
{
    vec![in alloc; number; len]
}
