//! A round whose chunks are filtered and formatted by the workers of a pool.
ghost use Rattle.std.specs.Prelude.{◌≡◌, ◌≤◌, ℕ, List, length, OnOk};
ghost use Rattle.afdx_frame.specs.Frame.{Frame};
ghost use Rattle.filter_workers.specs.declared.decision.TheConstants.{MAX_FILTERS};
ghost use Rattle.watch_run.specs.Entries.{AreEntries};
ghost use Rattle.watch_run.specs.Filters.{Making, making_of};
ghost use Rattle.watch_run.specs.Shared.{AreChunks};
ghost use Rattle.vl_judge.specs.Judgement.{Judgement};

use crate::entries::Entries;
use crate::plan::Plan;
use filter_workers::RunGate;
use frame_batch::Round;
use std::alloc::{AllocError, Global};
use vl_judge::Verdict;
use worker_pool::Task;

/// A round of frames with their verdicts.
#[derive(Drop)]
pub struct JudgedRound {
    pub frames: Round,
    pub verdicts: Vec<Verdict>,
    ghost judged: { length verdicts.items ≡ length frames },
}

/// The text that is written of a chunk of a round.
#[derive(Drop)]
pub struct ChunkEntries {
    pub entries: Entries,
    /// There was memory for it.
    pub complete: bool,
}

/// The work on the chunks of rounds: workers run the filters on the frames, and make their packets and
/// lines. The gate is told of each frame before, as of worker 0, whichever works on it.
#[derive(Drop)]
pub struct Formatting<'a, G> {
    pub alloc: Global,
    pub plan: Plan<'a>,
    pub gate: &'a G,
    ghost few: { length plan.programs.now ≤ MAX_FILTERS },
}

impl<'a, G: RunGate + Sync> Task for Formatting<'a, G> {
    ghost use Rattle.std.specs.Prelude.{length};
    ghost use Rattle.watch_run.specs.Shared.{IsChunk};

    type Round = JudgedRound;

    type Batch = ChunkEntries;

    ghost len = { λ task round. length round.frames };

    ghost is_batch = { λ task round from to batch.
        IsChunk (making_of task.plan) round.frames round.verdicts.items from to batch };

    fn len(&self, round: &JudgedRound) -> usize {
        round.frames.len()
    }

    fn spare(&self) -> ChunkEntries {
        ChunkEntries {
            entries: Entries::new(self.alloc),
            complete: false,
        }
    }

    fn work(
        &self,
        round: &JudgedRound,
        from: usize,
        to: usize,
        spare: ChunkEntries,
    ) -> ChunkEntries {
        for number in from..to {
            self.gate.run(0, number as u64);
        }
        let mut entries = spare.entries;
        let filled = entries.fill(
            &self.plan,
            &round.frames.part(from, to),
            &round.verdicts[from..to],
        );
        ChunkEntries {
            entries,
            complete: filled.is_ok(),
        }
    }
}

impl Entries {
    /// Makes what is written of a round out of that of its chunks.
    ///
    /// # Errors
    ///
    /// There is no memory for it, or there was none for that of a chunk.
    pub fn gather(&mut self, chunks: &[ChunkEntries]) -> Result<(), AllocError>
        ensures { OnOk result ((ps : Making) (frames : List Frame)
            (verdicts : List Judgement) (size : ℕ)
            → AreChunks ps frames verdicts size chunks.now
            → AreEntries ps frames verdicts self.new) }
    {
        self.clear();
        for chunk in chunks {
            if !chunk.complete {
                return Err(AllocError);
            }
            self.append(&chunk.entries)?;
        }
        Ok(())
    }
}
