//! The debugger as its caller sees it: commands in, replies out, and a state that a refusal leaves alone.

ghost use Rattle.std.specs.Prelude.{◌≡◌, ◌<◌, length, count_by, IfOk, IfErr};
ghost use Rattle.bpf_isa.specs.declared.packed.Packed.{Packed};
ghost use Rattle.bpf_debugger.specs.Debugging.{Gives, accepts, new_session, tally_of};
ghost use Rattle.bpf_debugger.specs.Walking.{position_of};
ghost use Rattle.bpf_debugger.specs.Following.{shown_of};

use crate::command::Command;
use crate::fault::{DebugFault, NewRefused};
use crate::reply::Reply;
use crate::walk::Walk;
use afdx_frame::TapFrame;
use bpf_asm::listing;
use bpf_loader::Program;
use bpf_machine::run;
use std::alloc::Global;
use std::marker::Model;

/// A filter on the frames of a tap, with a selected frame, a position on the filter's run on it, and
/// breakpoints.
#[derive(Drop)]
pub struct Session {
    alloc: Global,
    program: Program,
    frames: Vec<TapFrame>,
    breakpoints: Vec<bool>,
    selected: Option<usize>,
    walk: Walk,
}

impl Model for Session {
    ghost use Rattle.bpf_debugger.specs.Debugging.{SessionState};
    ghost use Rattle.bpf_debugger.specs.Standing.{IsSession, session_state};

    ghost Value = { SessionState };

    ghost view = { λ s.
        session_state s.program s.frames.items s.breakpoints.items s.selected s.walk };

    ghost invariant = { λ s.
        IsSession s.program s.frames.items s.breakpoints.items s.selected s.walk };
}

impl Session {
    /// A session with no frame selected and no breakpoint.
    ///
    /// # Errors
    ///
    /// There is no memory for the breakpoints, one for each instruction. The program and the frames are
    /// returned.
    pub fn new(
        alloc: Global,
        program: Program,
        frames: Vec<TapFrame>,
    ) -> Result<Session, NewRefused>
        ensures session { IfOk result (λ session. session ≡ new_session program frames.items) }
        ensures program { IfErr result (λ refused. refused.program ≡ program) }
        ensures frames { IfErr result (λ refused. refused.frames ≡ frames) }
    {
        match vec![in alloc; false; program.insns().len()] {
            Ok(breakpoints) => Ok(Session {
                alloc,
                program,
                frames,
                breakpoints,
                selected: None,
                walk: Walk::new(alloc),
            }),
            Err(_) => Err(NewRefused { program, frames }),
        }
    }

    /// The number of frames.
    pub fn frames(&self) -> usize
        ensures { result ≡ length self.now.frames }
    {
        self.frames.len()
    }

    /// Carries a command out. A refused command changes nothing.
    ///
    /// # Errors
    ///
    /// - `NoFrame`: a step, or `cont`, before a frame was selected.
    /// - `NoSuchFrame`, `NoSuchInsn`: the number of a frame or an instruction that isn't there.
    /// - `Memory`: there is no memory for the records of a move that makes a step, or for the listing.
    pub fn command(&mut self, command: Command) -> Result<Reply, DebugFault>
        ensures { Gives self.old command result self.new }
    {
        match command {
            Command::Select(frame) => self.select(frame),
            Command::Step(by) => self.step(by),
            Command::Cont => self.cont(),
            Command::Breakpoint(at) => self.toggle(at),
            Command::Disassemble => self.disassemble(),
            Command::Tally => Ok(self.tally()),
            Command::Quit => Ok(Reply::Bye),
        }
    }

    fn select(&mut self, frame: u32) -> Result<Reply, DebugFault>
        ensures { Gives self.old (Command.Select frame) result self.new }
    {
        let frame = frame as usize;
        if frame >= self.frames.len() {
            return Err(DebugFault::NoSuchFrame);
        }
        self.selected = Some(frame);
        self.walk.restart();
        Ok(reply_at(&self.walk))
    }

    fn step(&mut self, by: i64) -> Result<Reply, DebugFault>
        ensures { Gives self.old (Command.Step by) result self.new }
    {
        let Some(frame) = self.selected else {
            return Err(DebugFault::NoFrame);
        };
        match self.walk.step_by(&self.program, &self.frames[frame], by) {
            Ok(()) => Ok(reply_at(&self.walk)),
            Err(_) => Err(DebugFault::Memory),
        }
    }

    fn cont(&mut self) -> Result<Reply, DebugFault>
        ensures { Gives self.old Command.Cont result self.new }
    {
        let Some(frame) = self.selected else {
            return Err(DebugFault::NoFrame);
        };
        match self
            .walk
            .run_on(&self.program, &self.frames[frame], &self.breakpoints)
        {
            Ok(()) => Ok(reply_at(&self.walk)),
            Err(_) => Err(DebugFault::Memory),
        }
    }

    fn toggle(&mut self, at: u32) -> Result<Reply, DebugFault>
        ensures { Gives self.old (Command.Breakpoint at) result self.new }
    {
        let index = at as usize;
        if index >= self.breakpoints.len() {
            return Err(DebugFault::NoSuchInsn);
        }
        let set = !self.breakpoints[index];
        self.breakpoints[index] = set;
        Ok(Reply::Breakpoint { at, set })
    }

    fn disassemble(&self) -> Result<Reply, DebugFault>
        ensures { Gives self.now Command.Disassemble result self.now }
    {
        match listing(self.alloc, &self.program) {
            Ok(text) => Ok(Reply::Listing(text)),
            Err(_) => Err(DebugFault::Memory),
        }
    }

    fn tally(&self) -> Reply
        ensures { result ≡ tally_of self.now }
    {
        let frames = self.frames.as_slice();
        let accepted = count_accepted(&self.program, frames);
        Reply::Tally {
            accepted,
            rejected: frames.len() - accepted,
        }
    }
}

/// The reply that shows where a walk stands.
fn reply_at(walk: &Walk) -> Reply
    ensures { result ≡ Reply.At (position_of walk.now) (shown_of walk.now.state walk.now.answer) }
{
    Reply::At {
        m: walk.position(),
        shown: walk.shown(),
    }
}

/// True if the filter accepts the frame: its return value isn't 0.
fn accepts(program: &Program, frame: &TapFrame) -> bool
    ensures { result ≡ accepts program.now frame.now }
{
    let (answer, _) = run(program, &frame.view(), frame.whole());
    answer != 0
}

fn count_accepted(program: &Program, frames: &[TapFrame]) -> usize
    ensures { result ≡ count_by (accepts program.now) frames.now }
{
    frames
        .iter()
        .filter(|frame| accepts(program, frame))
        .count()
}
