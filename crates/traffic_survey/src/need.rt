//! The jitter that the account of one BAG needs, as a fold over the gaps between frames.

ghost use Rattle.std.specs.Prelude.{◌<◌};

use afdx_frame::Stamp;

/// One more than the greatest power of 2 in microseconds that a share is told to: 2^17 us is more than
/// the greatest jitter of a table.
const CLASSES: usize = 19;

/// A microsecond, in nanoseconds.
const MICRO: u64 = 1_000;

/// The least need of the last class.
const LAST_CLASS: u64 = MICRO << (CLASSES - 2);

/// The least jitter with which policing lets all frames of a link through, whatever their sizes up to
/// Smax, for one BAG. Times are in nanoseconds.
///
/// A frame of the full size costs as much as a BAG credits, so n + 1 frames fit the account where they
/// take n BAGs less the jitter.
#[derive(Drop)]
pub struct Need {
    /// How many needs there are of each class but the first, that of less than a microsecond.
    classes: [u32; 19],
    /// The BAG.
    pub bag: u64,
    newest: u64,
    /// The least jitter that all frames so far need.
    pub greatest: u64,
    /// When the first frame came that needs so much; 0 where none needs any.
    pub at: Stamp,
}

impl Need {
    /// The needs of a link's frames that has sent one frame at most, at a BAG of so many nanoseconds.
    pub(crate) fn new(bag: u64) -> Need {
        Need {
            classes: [0; CLASSES],
            bag,
            newest: 0,
            greatest: 0,
            at: Stamp(0),
        }
    }

    /// Counts a frame that came so many nanoseconds after the one before it, at this moment.
    #[inline(always)]
    pub(crate) fn step(&mut self, gap: u64, stamp: Stamp) {
        self.newest = self.newest.saturating_add(self.bag).saturating_sub(gap);
        if self.greatest < self.newest {
            self.greatest = self.newest;
            self.at = stamp;
        }
        if self.newest >= MICRO {
            let class = class_of(self.newest);
            self.classes[class] = self.classes[class].saturating_add(1);
        }
    }

    /// The least power of 2 in microseconds, below which the needs of all frames but so many lie.
    /// None: not even 2^17 us.
    pub fn all_but(&self, spared: u64) -> Option<u64> {
        let mut above = 0u64;
        for class in (1..CLASSES).rev() {
            above = above.saturating_add(u64::from(self.classes[class]));
            if above > spared {
                return if class + 1 < CLASSES {
                    Some(1 << class)
                } else {
                    None
                };
            }
        }
        Some(1)
    }
}

/// The class of a need: class c has those below 2^c us and not below half of that, the last one the rest.
#[inline(always)]
fn class_of(need: u64) -> usize
    ensures { result < 19 }
{
    if need >= LAST_CLASS {
        return CLASSES - 1;
    }
    match (need / MICRO).checked_ilog2() {
        Some(power) => (power as usize).saturating_add(1).min(CLASSES - 1),
        None => 0,
    }
}
