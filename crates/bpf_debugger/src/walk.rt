//! The position on a run, with the records of the steps made so far.

ghost use Rattle.std.specs.Prelude.{◌≡◌, ◌+◌, ◌-◌, ◌<◌, ◌≤◌, List, None, OnOk, OnErr, min};
ghost use Rattle.std.specs.Prelude.{length, slice_get, vec_len, vec_capacity};
ghost use Rattle.afdx_frame.specs.Frame.{Frame};
ghost use Rattle.bpf_isa.specs.declared.packed.Packed.{Packed};
ghost use Rattle.bpf_loader.specs.Faults.{IsLoaded};
ghost use Rattle.bpf_debugger.specs.Chain.{chain_of, last_of};
ghost use Rattle.bpf_debugger.specs.Following.{shown_of};
ghost use Rattle.bpf_debugger.specs.Walking.{IsOn, position_of, moved_by, next_stop, stands_at};

use crate::back::undo;
use crate::record::Undo;
use afdx_frame::TapFrame;
use bpf_isa::{Outcome, State};
use bpf_loader::Program;
use bpf_machine::step;
use std::alloc::{AllocError, Global};

/// Where a session stands on the run of its filter on the selected frame: the current state, or the
/// filter's return value and the last state before it, and a record for each step made.
#[derive(Drop)]
pub(crate) struct Walk {
    state: State,
    answer: Option<u32>,
    undos: Vec<Undo>,
}

impl Walk {
    /// A walk before the first step. Allocates nothing.
    pub(crate) fn new(alloc: Global) -> Walk
        ensures start { (p : List Packed) (frame : Frame) → IsLoaded p → IsOn p frame result }
        ensures position { position_of result ≡ 0 }
    {
        Walk {
            state: State::start(),
            answer: None,
            undos: Vec::new(alloc),
        }
    }

    /// Returns to the start, of whatever frame, and drops the records.
    pub(crate) fn restart(&mut self)
        ensures start { (p : List Packed) (frame : Frame) → IsLoaded p → IsOn p frame self.new }
        ensures position { position_of self.new ≡ 0 }
    {
        self.state = State::start();
        self.answer = None;
        self.undos.clear();
    }

    /// The number of steps made.
    pub(crate) fn position(&self) -> usize
        ensures { result ≡ position_of self.now }
    {
        self.undos.len()
    }

    /// The current state, or the filter's return value.
    pub(crate) fn shown(&self) -> Outcome
        ensures { result ≡ shown_of self.now.state self.now.answer }
    {
        match self.answer {
            Some(answer) => Outcome::Done(answer),
            None => Outcome::On(self.state),
        }
    }

    /// Makes a step, for whose record there is room.
    fn advance(&mut self, program: &Program, frame: &TapFrame)
        requires on { IsOn program.now frame.now self.old }
        requires goes_on { self.old.answer ≡ None }
        requires room { vec_len self.old.undos < vec_capacity self.old.undos }
        ensures on { IsOn program.now frame.now self.new }
        ensures position { position_of self.new ≡ position_of self.old + 1 }
        ensures room { vec_capacity self.old.undos ≤ vec_capacity self.new.undos }
    {
        let undo = Undo::of(program, &self.state);
        self.undos.push(undo).unwrap();
        match step(program, self.state, &frame.view(), frame.whole()) {
            Outcome::On(state) => self.state = state,
            Outcome::Done(answer) => self.answer = Some(answer),
        }
    }

    /// Undoes the last step, if there is one.
    fn retreat(&mut self)
        ensures on { (p : List Packed) (frame : Frame)
            → IsOn p frame self.old → IsOn p frame self.new }
        ensures position { position_of self.new ≡ position_of self.old - 1 }
    {
        if let Some(record) = self.undos.pop() {
            self.state = undo(&record, self.state);
            self.answer = None;
        }
    }

    /// Makes room for the records of all steps to the end of a run.
    fn reserve(&mut self, program: &Program) -> Result<(), AllocError>
        ensures on { (p : List Packed) (frame : Frame)
            → IsOn p frame self.old → IsOn p frame self.new }
        ensures position { position_of self.new ≡ position_of self.old }
        ensures answer { self.new.answer ≡ self.old.answer }
        ensures room { OnOk result (length program.now ≤ vec_capacity self.new.undos) }
    {
        let more = program.len().saturating_sub(self.undos.len());
        self.undos.reserve(more)
    }

    /// Makes this many steps, or as many as there are up to the return value. An `Err`: there is no
    /// memory for their records, and nothing has changed.
    fn forward(&mut self, program: &Program, frame: &TapFrame, count: u64) -> Result<(), AllocError>
        requires { IsOn program.now frame.now self.old }
        ensures on { IsOn program.now frame.now self.new }
        ensures position { OnOk result (position_of self.new
            ≡ min (position_of self.old + count) (last_of (chain_of program.now frame.now))) }
        ensures unchanged { OnErr result (position_of self.new ≡ position_of self.old) }
        ensures memory { OnErr result (position_of self.old
            < min (position_of self.old + count) (last_of (chain_of program.now frame.now))) }
    {
        if count == 0 || self.answer.is_some() {
            return Ok(());
        }
        self.reserve(program)?;
        let mut left = count;
        while left > 0 && self.answer.is_none() {
            self.advance(program, frame);
            left -= 1;
        }
        Ok(())
    }

    /// Undoes this many steps, or all.
    fn back(&mut self, count: u64)
        ensures on { (p : List Packed) (frame : Frame)
            → IsOn p frame self.old → IsOn p frame self.new }
        ensures position { position_of self.new ≡ position_of self.old - count }
    {
        let mut left = count;
        while left > 0 && !self.undos.is_empty() {
            self.retreat();
            left -= 1;
        }
    }

    /// Makes this many steps, or undoes as many where `by` is negative, held within the start and the
    /// return value. An `Err`: there is no memory for the records, and nothing has changed.
    pub(crate) fn step_by(
        &mut self,
        program: &Program,
        frame: &TapFrame,
        by: i64,
    ) -> Result<(), AllocError>
        requires { IsOn program.now frame.now self.old }
        ensures on { IsOn program.now frame.now self.new }
        ensures position { OnOk result (position_of self.new
            ≡ moved_by by (chain_of program.now frame.now) (position_of self.old)) }
        ensures unchanged { OnErr result (position_of self.new ≡ position_of self.old) }
        ensures memory { OnErr result (position_of self.old
            < moved_by by (chain_of program.now frame.now) (position_of self.old)) }
    {
        if by < 0 {
            self.back(by.unsigned_abs());
            return Ok(());
        }
        self.forward(program, frame, by.unsigned_abs())
    }

    /// Does the current state stand at a breakpoint?
    fn stands_at(&self, breakpoints: &[bool]) -> bool
        ensures { result ≡ stands_at breakpoints.now (shown_of self.now.state self.now.answer) }
    {
        self.answer.is_none() && breakpoints.get(self.state.place).copied().unwrap_or(false)
    }

    /// Makes at least one step, and more up to the first state at a breakpoint or the return value. At
    /// the return value it stays. An `Err`: there is no memory for the records, and nothing has changed.
    pub(crate) fn run_on(
        &mut self,
        program: &Program,
        frame: &TapFrame,
        breakpoints: &[bool],
    ) -> Result<(), AllocError>
        requires { IsOn program.now frame.now self.old }
        ensures on { IsOn program.now frame.now self.new }
        ensures position { OnOk result (position_of self.new
            ≡ next_stop breakpoints.now (chain_of program.now frame.now) (position_of self.old)) }
        ensures unchanged { OnErr result (position_of self.new ≡ position_of self.old) }
        ensures memory { OnErr result (position_of self.old
            < next_stop breakpoints.now (chain_of program.now frame.now) (position_of self.old)) }
    {
        if self.answer.is_some() {
            return Ok(());
        }
        self.reserve(program)?;
        while self.answer.is_none() {
            self.advance(program, frame);
            if self.stands_at(breakpoints) {
                break;
            }
        }
        Ok(())
    }
}
