//! The parts of the core, and what each event does to them.
ghost use Rattle.std.specs.Prelude.{◌≡◌, ◌∷◌, ◌<◌, List, IfOk, OnErr, OnOk, IsSome, replicate};
ghost use Rattle.std.specs.List.{list_all};
ghost use Rattle.afdx_frame.specs.Frame.{Frame};
ghost use Rattle.specified.specs.Events.Steps.{FirstsCanFetch, claim_step, core_fetch_step, core_step, cut_step, fetch_step, gather_step, new_core, post_step};
ghost use Rattle.ordered_merge.specs.Merge.{CanFetch};
ghost use Rattle.specified.specs.Events.Sound.{MayAllocate};
ghost use Rattle.specified.specs.Events.Round.{is_through};
ghost use Rattle.specified.specs.Events.Side.{Steps};

use crate::model::event::{Answered, Event, Work};
use crate::model::round::{Round, Worker, no_answers};
use crate::model::side::{RingItem, TapSide};
use crate::model::sizes::CoreSizes;
use afdx_frame::{Network, TapFrame};
use ordered_merge::Merger;
use std::alloc::{AllocError, Global};
use std::marker::Model;

/// The parts of the core: the taps with their rings, the merger, the open round with its workers, and
/// the output.
#[derive(Drop)]
pub(crate) struct Parts {
    alloc: Global,
    a: TapSide,
    b: TapSide,
    merger: Merger,
    /// The most frames of a round.
    round_capacity: usize,
    round: Option<Round>,
    workers: Vec<Worker>,
    output: Vec<Answered>,
}

impl Model for Parts {
    ghost use Rattle.specified.specs.Events.Steps.{CoreState};

    ghost Value = { CoreState };

    ghost view = { λ p. record {
      a = p.a;
      b = p.b;
      merger = p.merger;
      round_capacity = p.round_capacity;
      round = p.round;
      workers = p.workers.items;
      output = p.output.items;
    } };
}

impl Parts {
    pub(crate) fn new(
        alloc: Global,
        sizes: CoreSizes,
        a: Vec<TapFrame>,
        b: Vec<TapFrame>,
        workers: u32,
        late: u64,
    ) -> Result<Parts, AllocError>
        ensures { IfOk result (λ s.
            s ≡ new_core sizes a.items b.items (replicate workers Worker.Idle) late) }
    {
        Ok(Parts {
            alloc,
            a: TapSide::new(alloc, sizes.ring, a)?,
            b: TapSide::new(alloc, sizes.ring, b)?,
            merger: Merger::new(alloc, late),
            round_capacity: sizes.round,
            round: None,
            workers: idle_workers(alloc, workers as usize)?,
            output: Vec::new(alloc),
        })
    }

    /// The frames of the gathered rounds, with their answers.
    pub(crate) fn output(&self) -> &[Answered]
        ensures { result.now ≡ self.now.output }
    {
        &self.output
    }

    /// Lets the event happen, if it can.
    pub(crate) fn event<W: Work>(&mut self, work: &W, event: Event) -> Result<bool, AllocError>
        requires { FirstsCanFetch self.old }
        ensures step { IfOk result (λ happened.
            Steps (core_step (W.answer_of work.now) self.old event) self.old happened self.new) }
        ensures unchanged { OnErr result (self.new ≡ self.old) }
        ensures memory { OnErr result (MayAllocate event
            × IsSome (core_step (W.answer_of work.now) self.old event)) }
    {
        match event {
            Event::Put(Network::A) => Ok(self.a.put()),
            Event::Put(Network::B) => Ok(self.b.put()),
            Event::End(Network::A) => Ok(self.a.mark_end()),
            Event::End(Network::B) => Ok(self.b.mark_end()),
            Event::Fetch(network) => self.fetch(network),
            Event::Cut => self.cut(),
            Event::Claim(worker) => Ok(self.claim(worker as usize)),
            Event::Post(worker) => Ok(self.post(work, worker as usize)),
            Event::Gather => self.gather(),
        }
    }

    fn fetch(&mut self, network: Network) -> Result<bool, AllocError>
        requires { FirstsCanFetch self.old }
        ensures step { IfOk result (λ happened.
            Steps (core_fetch_step network self.old) self.old happened self.new) }
        ensures unchanged { OnErr result (self.new ≡ self.old) }
        ensures memory { OnErr result (IsSome (core_fetch_step network self.old)) }
    {
        match network {
            Network::A => fetch(&mut self.a, &mut self.merger, Network::A),
            Network::B => fetch(&mut self.b, &mut self.merger, Network::B),
        }
    }

    fn cut(&mut self) -> Result<bool, AllocError>
        ensures step { IfOk result (λ happened.
            Steps (cut_step self.old) self.old happened self.new) }
        ensures unchanged { OnErr result (self.new ≡ self.old) }
        ensures memory { OnErr result (IsSome (cut_step self.old)) }
    {
        let count = self.merger.count_safe(self.round_capacity);
        if self.round.is_some() || count == 0 {
            return Ok(false);
        }
        let answers = no_answers(self.alloc, count)?;
        let frames = self.merger.cut(self.round_capacity)?;
        self.round = Some(Round::new(frames, answers));
        self.workers.fill(Worker::Idle);
        Ok(true)
    }

    fn claim(&mut self, worker: usize) -> bool
        ensures { Steps (claim_step worker self.old) self.old result self.new }
    {
        if worker >= self.workers.len() {
            return false;
        }
        match (&mut self.round, self.workers[worker]) {
            (Some(round), Worker::Idle) => {
                self.workers[worker] = round.claim();
                true
            }
            _ => false,
        }
    }

    fn post<W: Work>(&mut self, work: &W, worker: usize) -> bool
        ensures { Steps (post_step (W.answer_of work.now) worker self.old) self.old result self.new }
    {
        if worker >= self.workers.len() {
            return false;
        }
        match (&mut self.round, self.workers[worker]) {
            (Some(round), Worker::Holding(number)) => {
                let posted = round.post(work, number);
                if posted {
                    self.workers[worker] = Worker::Idle;
                }
                posted
            }
            _ => false,
        }
    }

    fn gather(&mut self) -> Result<bool, AllocError>
        ensures step { IfOk result (λ happened.
            Steps (gather_step self.old) self.old happened self.new) }
        ensures unchanged { OnErr result (self.new ≡ self.old) }
        ensures memory { OnErr result (IsSome (gather_step self.old)) }
    {
        let Some(round) = &self.round else {
            return Ok(false);
        };
        if !round.is_answered() || !all_through(&self.workers) {
            return Ok(false);
        }
        let frames = round.to_frames(self.alloc)?;
        self.output.reserve(frames.len())?;
        if let Some(round) = self.round.take() {
            round.gather(frames, &mut self.output);
        }
        Ok(true)
    }
}

fn fetch(side: &mut TapSide, merger: &mut Merger, network: Network) -> Result<bool, AllocError>
    requires { (f : Frame) (ring : List RingItem) →
        side.old.ring ≡ RingItem.Frame f ∷ ring → CanFetch merger.old f }
    ensures step { IfOk result (λ happened.
        Steps (fetch_step network side.old merger.old) (side.old, merger.old) happened
        (side.new, merger.new)) }
    ensures side { OnErr result (side.new ≡ side.old) }
    ensures merger { OnErr result (merger.new ≡ merger.old) }
    ensures memory { OnErr result (IsSome (fetch_step network side.old merger.old)) }
{
    match side.take() {
        None => Ok(false),
        Some(RingItem::End) => {
            merger.end(network);
            Ok(true)
        }
        Some(RingItem::Frame(frame)) => match merger.fetch(frame) {
            Ok(()) => Ok(true),
            Err(frame) => {
                side.put_back(RingItem::Frame(frame));
                Err(AllocError)
            }
        },
    }
}

fn idle_workers(alloc: Global, count: usize) -> Result<Vec<Worker>, AllocError>
    ensures { IfOk result (λ workers. workers.items ≡ replicate count Worker.Idle) }
{
    vec![in alloc; Worker::Idle; count]
}

fn all_through(workers: &[Worker]) -> bool
    ensures { result ≡ list_all is_through workers.now }
{
    workers
        .iter()
        .all(|worker| matches!(worker, Worker::Through))
}
