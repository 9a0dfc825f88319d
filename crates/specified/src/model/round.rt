//! A round of frames, which workers answer.
ghost use Rattle.std.specs.Prelude.{◌≡◌, ◌+◌, ◌++◌, ◌≤◌, ◌<◌, IfOk, length, slice_get, IsSome, IfSome, false, replicate, true};
ghost use Rattle.std.specs.Vec.{vec_capacity, vec_len};
ghost use Rattle.std.specs.Option.{MatchOption};
ghost use Rattle.specified.specs.Events.Round.{after_claim, answered, claimed, is_answered, new_round, posted};

use crate::model::event::{Answered, Work};
use afdx_frame::TapFrame;
use frame_batch::Round as Frames;
use std::alloc::{AllocError, Global};
use std::marker::Model;

/// The state of a worker.
#[derive(Clone, Copy)]
pub(crate) enum Worker {
    Idle,
    /// It drew this number of the open round, and hasn't posted the answer.
    Holding(usize),
    /// It found no number left.
    Through,
}

/// Frames that workers answer, each by its number.
#[derive(Drop)]
pub(crate) struct Round {
    frames: Frames,
    next: usize,
    answers: Vec<Option<u32>>,
}

impl Model for Round {
    ghost use Rattle.specified.specs.Events.Round.{RoundState};
    ghost use Rattle.std.specs.Prelude.{◌≡◌, ◌≤◌, length};

    ghost Value = { RoundState };

    ghost view = { λ r. record { frames = r.frames; next = r.next; answers = r.answers.items } };

    ghost invariant = { λ r.
        (r.next ≤ length r.frames) × (length r.answers.items ≡ length r.frames) };
}

impl Round {
    /// A round of these frames, which has as many places for answers.
    pub(crate) fn new(frames: Frames, answers: Vec<Option<u32>>) -> Round
        requires { answers.items ≡ (new_round frames).answers }
        ensures { result ≡ new_round frames }
    {
        Round {
            frames,
            next: 0,
            answers,
        }
    }

    /// Draws the next number for a worker.
    pub(crate) fn claim(&mut self) -> Worker
        ensures worker { result ≡ claimed self.old }
        ensures after { self.new ≡ after_claim self.old }
    {
        if self.next >= self.frames.len() {
            return Worker::Through;
        }
        let number = self.next;
        self.next += 1;
        Worker::Holding(number)
    }

    /// Posts the answer to the frame of this number, if there is one.
    pub(crate) fn post<W: Work>(&mut self, work: &W, number: usize) -> bool
        ensures { MatchOption (slice_get self.old.frames number)
            ((result ≡ false) × (self.new ≡ self.old))
            (λ f. (result ≡ true) × (self.new ≡ posted number (W.answer_of work.now f) self.old)) }
    {
        if number >= self.frames.len() {
            return false;
        }
        self.answers[number] = Some(work.answer(&self.frames.frame(number)));
        true
    }

    /// True if each frame has its answer.
    pub(crate) fn is_answered(&self) -> bool
        ensures { result ≡ is_answered self.now }
    {
        self.answers.iter().all(|answer| answer.is_some())
    }

    /// The frames, each with a share of its block.
    pub(crate) fn to_frames(&self, alloc: Global) -> Result<Vec<TapFrame>, AllocError>
        ensures { IfOk result (λ frames. frames.items ≡ self.now.frames) }
    {
        self.frames.to_frames(alloc)
    }

    /// Moves its frames, with their answers, to the end of the output.
    pub(crate) fn gather(self, frames: Vec<TapFrame>, output: &mut Vec<Answered>)
        requires frames { frames.items ≡ self.frames }
        requires room { vec_len output.old + length self.frames ≤ vec_capacity output.old }
        requires answered { is_answered self ≡ true }
        ensures { output.new.items ≡ output.old.items ++ answered self.frames self.answers }
    {
        let mut frames = frames.into_iter();
        for answer in &self.answers {
            output.push_reserved(Answered {
                frame: frames.next().unwrap(),
                answer: answer.unwrap(),
            });
        }
    }
}

/// So many places, each without an answer.
pub(crate) fn no_answers(alloc: Global, count: usize) -> Result<Vec<Option<u32>>, AllocError>
    ensures { IfOk result (λ answers. answers.items ≡ replicate count None) }
{
    vec![in alloc; None; count]
}
