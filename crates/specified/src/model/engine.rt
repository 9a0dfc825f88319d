//! The machine as a whole, with what holds of it after every list of events.
ghost use Rattle.std.specs.Prelude.{◌≡◌, ◌≤◌, IfOk, OnErr, IsSome, replicate};
ghost use Rattle.std.specs.List.Sorted.{IsPermutation};
ghost use Rattle.specified.specs.Events.Steps.{core_step, new_core};
ghost use Rattle.specified.specs.Events.Side.{Steps};
ghost use Rattle.specified.specs.Events.Sound.{AnswersAre, EveryRunIsInOrder, MayAllocate, OutputIsAll, OutputIsPrefix, PostsWhereHeld, held};
ghost use Rattle.ordered_merge.specs.Recording.{IsRecording};

use crate::model::event::{Answered, Event, Work};
use crate::model::parts::Parts;
use crate::model::round::Worker;
use crate::model::sizes::CoreSizes;
use afdx_frame::{Network, TapFrame};
use std::alloc::{AllocError, Global};
use std::marker::Model;

/// The most workers of a core.
pub const MAX_WORKERS: u32 = 8;

/// Both taps, their rings, the merger and the workers, as a machine over [`Event`]s.
///
/// Each event is one atomic step of one of them, so a list of events is an interleaving of their
/// threads. Whatever the list and the sizes, the output is a prefix of the one order of both recordings.
#[derive(Drop)]
pub struct Core {
    parts: Parts,
}

impl Model for Core {
    ghost use Rattle.specified.specs.Events.Steps.{CoreState};
    ghost use Rattle.specified.specs.Events.Sound.{IsSound};

    ghost Value = { CoreState };

    ghost view = { λ core. core.parts };

    ghost invariant = { λ core. IsSound core.parts };
}

impl Core {
    /// A core of these sizes over the recordings of both taps, in which a timestamp may lie by `late`
    /// nanoseconds below the greatest one before it, with 1 to [`MAX_WORKERS`] workers. A refusal drops both
    /// lists.
    pub fn new(
        alloc: Global,
        sizes: CoreSizes,
        a: Vec<TapFrame>,
        b: Vec<TapFrame>,
        workers: u32,
        late: u64,
    ) -> Result<Core, AllocError>
        requires some_ring { 1 ≤ sizes.ring }
        requires some_round { 1 ≤ sizes.round }
        requires recording_a { IsRecording Network.A late a.items }
        requires recording_b { IsRecording Network.B late b.items }
        requires some_workers { 1 ≤ workers }
        requires few_workers { workers ≤ MAX_WORKERS }
        ensures { IfOk result (λ core.
            core ≡ new_core sizes a.items b.items (replicate workers Worker.Idle) late) }
    {
        Ok(Core {
            parts: Parts::new(alloc, sizes, a, b, workers, late)?,
        })
    }

    /// Lets the event happen, if it can, and says whether it did. An `Err`: it can happen and there is no
    /// memory, and nothing has changed.
    pub fn event<W: Work>(&mut self, work: &W, event: Event) -> Result<bool, AllocError>
        ensures step { IfOk result (λ happened.
            Steps (core_step (W.answer_of work.now) self.old event) self.old happened self.new) }
        ensures unchanged { OnErr result (self.new ≡ self.old) }
        ensures memory { OnErr result (MayAllocate event
            × IsSome (core_step (W.answer_of work.now) self.old event)) }
        // A worker that holds a number can post its answer.
        ensures posts { PostsWhereHeld (W.answer_of work.now) self.old event }
        // The frames that it holds in all places stay the same.
        ensures held { IsPermutation (held self.old) (held self.new) }
        ensures answers { AnswersAre (W.answer_of work.now) self.old →
            AnswersAre (W.answer_of work.now) self.new }
    {
        self.parts.event(work, event)
    }

    /// The frames of the gathered rounds, with their answers.
    pub fn output(&self) -> &[Answered]
        ensures value { result.now ≡ self.now.output }
        ensures prefix { OutputIsPrefix self.now }
        ensures all { OutputIsAll self.now }
    {
        self.parts.output()
    }
}

/// Whatever the events and the sizes, the output is a prefix of the order of both recordings.
pub fn every_run_is_in_order()
    ensures { EveryRunIsInOrder }
{}
