//! The clocks of the two taps against each other: what the skews of many links say alike.
use crate::accounts::Handle;
use crate::long::{Long, SECOND, Time, ZERO};
use crate::samples::Samples;
use std::alloc::{AllocError, Global};

/// A block has the skews of so many links, or of fewer after a second.
const BLOCK: usize = 15;

const FEW_LINKS: usize = 3;

/// A step shows in so many blocks.
const BLOCKS: usize = 6;

/// The least step of all skews that is told.
const LEAST_STEP: Long = Long(100_000);

/// So many steps of the clocks are remembered.
const STEPS: usize = 8;

/// The way of the skews over the flight has so many points at most.
const POINTS: usize = 64;

/// The least drift over a flight that is told.
const LEAST_DRIFT: Long = Long(200_000);

/// The least drift that is told, in parts of 10^9: one of 100 measures as some parts less.
const LEAST_PARTS: Long = Long(95);

/// A step of B's clock against A's.
#[derive(Clone, Copy)]
pub struct Step {
    pub account: Handle,
    pub size: Long,
    pub at: Time,
}

/// How far skews are from what is usual, each of another link.
#[derive(Clone, Copy)]
struct Block {
    skews: Samples<BLOCK>,
    times: Samples<BLOCK>,
}

impl Block {
    fn empty() -> Block {
        Block {
            skews: Samples::none(),
            times: Samples::none(),
        }
    }

    /// Has it as many skews as it takes, or one of each of so many links, or enough after a second?
    fn is_whole(&self, links: usize, at: Time) -> bool {
        let count = self.skews.len();
        self.skews.is_full()
            || count >= FEW_LINKS && (count >= links || at - self.begins() >= SECOND)
    }

    fn begins(&self) -> Time {
        self.times.least()
    }

    fn ends(&self) -> Time {
        self.times.greatest()
    }

    /// Half of the skews are within so much.
    fn spread(&self) -> Long {
        self.skews.at(3, 4) - self.skews.at(1, 4)
    }

    /// When it first is beyond half of a step from a level.
    fn first_beyond(&self, level: Long, half: Long) -> Option<Time> {
        let mut beyond = self
            .skews
            .values()
            .iter()
            .zip(self.times.values().iter())
            .filter(|(skew, _)| (**skew - level).abs() > half);
        beyond.next().map(|(_, at)| *at)
    }
}

/// A whole block, with its median and its spread.
#[derive(Clone, Copy)]
struct WholeBlock {
    block: Block,
    median: Long,
    spread: Long,
}

impl WholeBlock {
    fn of(block: Block) -> WholeBlock {
        WholeBlock {
            block,
            median: block.skews.median(),
            spread: block.spread(),
        }
    }
}

/// All skews step by so much: when it first shows, and since when frames may be late by it.
#[derive(Clone, Copy)]
pub struct SkewStep {
    pub size: Long,
    pub at: Time,
    pub since: Time,
}

/// A median of the skews over the flight.
#[derive(Clone, Copy)]
struct Point {
    at: Time,
    median: Long,
    spread: Long,
}

/// How the clocks drift: parts in 10^9 by which B's is faster, how far in all, from when to when.
#[derive(Clone, Copy)]
pub struct DriftFound {
    pub parts: Long,
    pub moved: Long,
    pub from: Time,
    pub to: Time,
}

/// The knowledge of the clocks.
#[derive(Drop)]
pub struct Clocks {
    /// How far B's clock is ahead of A's, by the known steps, and by the drift since.
    pub offset: Long,
    pub drifted: Long,
    pub steps: Vec<Step>,
    /// Which block is filled, and the ones before.
    pub number: u64,
    block: Block,
    blocks: Vec<WholeBlock>,
    points: Vec<Point>,
    stride: u64,
    skipped: u64,
}

impl Clocks {
    /// Clocks of which nothing is known yet.
    pub fn new(alloc: Global) -> Clocks {
        Clocks {
            offset: ZERO,
            drifted: ZERO,
            steps: Vec::new(alloc),
            number: 1,
            block: Block::empty(),
            blocks: Vec::new(alloc),
            points: Vec::new(alloc),
            stride: 1,
            skipped: 0,
        }
    }

    /// The latest step of a clock, if there was one.
    pub fn last_step(&self) -> Option<Step> {
        self.steps.last().copied()
    }

    /// Notes a step: from now on skews are greater by it.
    pub fn note_step(&mut self, step: Step) -> Result<(), AllocError> {
        self.offset = self.offset + step.size;
        // The latest blocks have the step in them already.
        if (self.drifted - step.size).abs() < self.drifted.abs() {
            self.drifted = self.drifted - step.size;
        }
        if self.steps.len() >= STEPS {
            let _first = self.steps.remove(0);
        }
        self.steps.push(step)?;
        self.forget_blocks();
        Ok(())
    }

    /// Forgets the latest blocks of skews.
    pub fn forget_blocks(&mut self) {
        self.number = self.number.saturating_add(1);
        self.block = Block::empty();
        self.blocks.clear();
    }

    /// Notes how far a link's skew is from what is usual.
    pub fn note(&mut self, skew: Long, at: Time) {
        self.block.skews.put(skew);
        self.block.times.put(at);
    }

    /// Ends a block, where it is whole: so many links give their skews. Some: all skews stepped.
    pub fn end_block(&mut self, links: usize, at: Time) -> Result<Option<SkewStep>, AllocError> {
        if !self.block.is_whole(links, at) {
            return Ok(None);
        }
        self.number = self.number.saturating_add(1);
        let block = WholeBlock::of(self.block);
        self.blocks.push(block)?;
        self.block = Block::empty();
        if self.blocks.len() >= BLOCKS {
            if let Some(step) = self.step() {
                return Ok(Some(step));
            }
            let _first = self.blocks.remove(0);
        }
        self.note_point(&block)?;
        Ok(None)
    }

    /// The medians of the blocks from one on, up to three.
    fn medians(&self, from: usize) -> Samples<3> {
        let mut medians = Samples::none();
        for block in self.blocks.iter().skip(from).take(3) {
            medians.put(block.median);
        }
        medians
    }

    /// A step between the first three blocks and the last three.
    fn step(&self) -> Option<SkewStep> {
        let (low, high) = (self.medians(0), self.medians(3));
        let size = high.median() - low.median();
        let mut spreads: Samples<BLOCKS> = Samples::none();
        for block in self.blocks.iter() {
            spreads.put(block.spread);
        }
        let noise = spreads.median();
        let unsteady = (low.greatest() - low.least()).max(high.greatest() - high.least());
        if size.abs() < LEAST_STEP.max(noise * 6) || unsteady * 4 > size.abs() {
            return None;
        }
        let mut beyond = self.blocks.iter().skip(2).filter_map(|whole| whole
            .block
            .first_beyond(low.median(), size.abs() / 2));
        Some(SkewStep {
            size,
            at: beyond.next()?,
            since: self.blocks.get(2)?.block.begins(),
        })
    }

    /// Notes where the skews stand.
    fn note_point(&mut self, whole: &WholeBlock) -> Result<(), AllocError> {
        let from = self.blocks.len().saturating_sub(3);
        if self.blocks.len() < 3 {
            return Ok(());
        }
        self.drifted = self.medians(from).median();
        self.skipped = self.skipped.saturating_add(1);
        if self.skipped < self.stride {
            return Ok(());
        }
        self.skipped = 0;
        self.points.push(Point {
            at: whole.block.ends(),
            median: self.drifted,
            spread: whole.spread,
        })?;
        if self.points.len() >= POINTS {
            self.thin();
        }
        Ok(())
    }

    /// Keeps every other point.
    fn thin(&mut self) {
        let kept = self.points.len() / 2;
        for place in 0..kept {
            let from = place.saturating_mul(2);
            if let Some(point) = self.points.get(from).copied() {
                if let Some(held) = self.points.get_mut(place) {
                    *held = point;
                }
            }
        }
        self.points.truncate(kept);
        self.stride = self.stride.saturating_mul(2);
    }

    /// The usual spread of the blocks.
    fn noise(&self) -> Long {
        let mut spreads: Samples<POINTS> = Samples::none();
        for point in self.points.iter() {
            spreads.put(point.spread);
        }
        spreads.median()
    }

    /// The drift of the clocks: all points are on the line from the first to the last, to a quarter of it.
    pub fn drift(&self) -> Option<DriftFound> {
        let (first, last) = (self.points.first()?, self.points.last()?);
        let (moved, time) = (last.median - first.median, last.at - first.at);
        let noise = self.noise();
        let enough = self.points.len() >= 8 && time >= SECOND;
        if !enough || moved.abs() < LEAST_DRIFT.max(noise * 4) {
            return None;
        }
        let bound = noise.max(moved.abs() / 4);
        let is_on = |point: &Point| {
            let line = share(moved, point.at - first.at, time);
            (point.median - first.median - line).is_within(bound)
        };
        let parts = share(moved, SECOND, time);
        let drifts = parts.abs() >= LEAST_PARTS && self.points.iter().all(is_on);
        drifts.then_some(DriftFound {
            parts,
            moved,
            from: first.at,
            to: last.at,
        })
    }
}

/// A part of a number: so many of so many.
pub fn share(number: Long, part: Long, of: Long) -> Long {
    let product = i128::from(number.0).saturating_mul(i128::from(part.0));
    let share = product.checked_div(i128::from(of.0)).unwrap_or(0);
    Long(i64::try_from(share).unwrap_or(i64::MAX))
}
