//! A lane: the frames of a link on one network.
use crate::accounts::Handle;
use crate::long::{Long, Position, Time, ZERO};
use afdx_frame::Network;

/// A lane remembers so many positions: beyond half of the 255 numbers a number doesn't tell older from newer.
pub const WINDOW: i64 = 128;

/// After 255 comes 1: a number is a position in rounds of so many.
pub const ROUND: i64 = 255;

/// The first position of a link, less its number. Below it there is room for frames of the other network.
const FIRST: i64 = 1024;

/// The last positions of a lane.
#[derive(Clone, Copy)]
pub struct Window {
    /// A bit for each position, the lowest for the latest: which frames came, were delivered, came early.
    seen: u128,
    delivered: u128,
    early: u128,
    /// When each came, by its position.
    times: [Time; 128],
}

/// The bit of a position so many back.
fn bit(mask: u128, back: Long) -> bool {
    match u32::try_from(back.0) {
        Ok(back) => mask.checked_shr(back).unwrap_or(0) & 1 == 1,
        Err(_) => false,
    }
}

/// The place of a position's time.
fn place_of(position: Position) -> usize {
    usize::try_from(position.0.rem_euclid(WINDOW)).unwrap_or(0)
}

impl Window {
    fn empty() -> Window {
        Window {
            seen: 0,
            delivered: 0,
            early: 0,
            times: [ZERO; 128],
        }
    }

    /// The first frame.
    fn begin(&mut self, position: Position, at: Time) {
        self.seen = 1;
        self.delivered = 1;
        self.set_time(position, at);
    }

    /// Moves on by so many positions, to a frame.
    pub fn advance(&mut self, steps: Long, delivered: bool, early: bool) {
        let steps = u32::try_from(steps.0).unwrap_or(u32::MAX);
        let moved = |mask: u128| mask.checked_shl(steps).unwrap_or(0);
        self.seen = moved(self.seen) | 1;
        self.delivered = moved(self.delivered) | u128::from(delivered);
        self.early = moved(self.early) | u128::from(early);
    }

    /// A frame came that was missing so many positions back.
    pub fn fill(&mut self, back: Long, delivered: bool) {
        let back = u32::try_from(back.0).unwrap_or(u32::MAX);
        let mark = 1u128.checked_shl(back).unwrap_or(0);
        self.seen |= mark;
        if delivered {
            self.delivered |= mark;
        }
    }

    /// Did a frame come for the position that lies so far back?
    pub fn is_seen(&self, back: Long) -> bool {
        bit(self.seen, back)
    }

    /// Was the frame of the position that lies so far back delivered?
    pub fn is_delivered(&self, back: Long) -> bool {
        bit(self.delivered, back)
    }

    /// Did the frame of the position that lies so far back come too early?
    pub fn is_early(&self, back: Long) -> bool {
        bit(self.early, back)
    }

    /// How many of the latest positions have a frame.
    pub fn seen_of_latest(&self, positions: Long) -> Long {
        if positions.0 <= 0 {
            return ZERO;
        }
        let beyond = u32::try_from(positions.0).unwrap_or(u32::MAX);
        let older = u128::MAX.checked_shl(beyond).unwrap_or(0);
        Long(i64::from((self.seen & !older).count_ones()))
    }

    /// When the frame of a position came, in nanoseconds; 0 if none did.
    pub fn time(&self, position: Position) -> Time {
        let time = self.times.as_slice().get(place_of(position));
        time.copied().unwrap_or(ZERO)
    }

    /// Keeps when the frame of a position came.
    pub fn set_time(&mut self, position: Position, at: Time) {
        if let Some(time) = self.times.as_mut_slice().get_mut(place_of(position)) {
            *time = at;
        }
    }

    /// The positions go down by so many.
    pub fn renumber(&mut self, by: Long) {
        let before = self.times;
        for (place, time) in self.times.as_mut_slice().iter_mut().enumerate() {
            let former = Long::of(place as u64) + by;
            *time = before
                .as_slice()
                .get(place_of(former))
                .copied()
                .unwrap_or(ZERO);
        }
    }
}

/// A frame whose number didn't fit: its successor decides.
#[derive(Clone, Copy)]
pub struct HeldBack {
    pub number: u8,
    pub at: Time,
    /// When the lane's frame before came.
    pub before: Time,
    pub delivered: bool,
    pub out: bool,
    /// The account that has its sign already.
    pub own: Option<Handle>,
}

/// The lines of a network, SkewMax taken off: until when its copies may be from before the first one, and
/// when the latest came.
#[derive(Clone, Copy)]
pub struct Edges {
    pub start: Time,
    pub line: Time,
}

/// The state of a lane.
#[derive(Drop)]
pub struct Lane {
    pub network: Network,
    /// How many frames came, and when the latest did.
    pub frames: u64,
    pub latest: Time,
    /// The number and the position of the latest frame that was taken, if there is one.
    pub begun: bool,
    pub number: u8,
    pub head: Position,
    /// Position less number, and from which position on; the first position and the first number, and when
    /// the numbers began anew.
    pub base: Position,
    pub base_from: Position,
    pub first: Position,
    pub first_number: u8,
    pub anew: Time,
    pub window: Window,
    /// How many frames the other network has ahead of it, and since when.
    pub ahead: Long,
    pub ahead_since: Option<Time>,
    /// How many of them had no copy that its network could record, how many are from before a line of its
    /// network for sure, and when the latest of them came.
    pub before_start: Long,
    pub before_line: Long,
    ahead_latest: Time,
    /// How far the other network was ahead at the latest frame.
    pub lead: Long,
    pub held: Option<HeldBack>,
    /// How many frames had the number of one that came before.
    pub repeats: u64,
    /// The latest old number, and how many in a row went on from it.
    pub old_number: Option<u8>,
    pub old_run: u32,
    /// The latest number that didn't fit, and how many frames in a row have it.
    still_number: u8,
    still_run: u32,
    /// The accounts of the latest sign, of the latest missing numbers, and of the latest strange ones since a
    /// number was taken, with how many.
    pub last: Option<Handle>,
    pub loss: Option<Handle>,
    pub strange: Option<Handle>,
    pub strangers: Long,
}

/// How many numbers one is after another.
pub fn steps_between(before: u8, number: u8) -> Long {
    Long((i64::from(number) - i64::from(before)).rem_euclid(ROUND))
}

impl Lane {
    /// A lane without frames.
    pub fn new(network: Network) -> Lane {
        Lane {
            network,
            frames: 0,
            latest: ZERO,
            begun: false,
            number: 0,
            head: ZERO,
            base: ZERO,
            base_from: ZERO,
            first: ZERO,
            first_number: 0,
            anew: ZERO,
            window: Window::empty(),
            ahead: ZERO,
            ahead_since: None,
            before_start: ZERO,
            before_line: ZERO,
            ahead_latest: ZERO,
            lead: ZERO,
            held: None,
            repeats: 0,
            old_number: None,
            old_run: 0,
            still_number: 0,
            still_run: 0,
            last: None,
            loss: None,
            strange: None,
            strangers: ZERO,
        }
    }

    /// Takes its first frame: near the position with this number that the other lane has.
    pub fn begin(&mut self, twin: &Lane, number: u8, at: Time) {
        let number_of = Long(i64::from(number));
        let back = steps_between(number, twin.number);
        let starts_alike = number == 0 && twin.begun && twin.first_number == 0;
        self.head = if !twin.begun {
            number_of + FIRST
        } else if starts_alike {
            twin.base
        } else if back.0 < WINDOW {
            twin.head - back
        } else {
            twin.head + ROUND - back
        };
        self.begun = true;
        self.number = number;
        self.base = self.head - number_of;
        self.first = self.head;
        self.first_number = number;
        self.window.begin(self.head, at);
    }

    /// Notes that the other network has one more frame ahead of it.
    pub fn note_ahead(&mut self, at: Time, edges: &Edges) {
        if edges.line > self.ahead_latest {
            self.before_line = self.ahead;
        }
        self.ahead_latest = at;
        self.ahead = self.ahead + 1;
        if at <= edges.start {
            self.before_start = self.ahead;
        }
        if self.ahead == Long(1) {
            self.ahead_since = Some(at);
        }
    }

    /// Notes a number that doesn't fit. How many frames in a row have it.
    pub fn note_still(&mut self, number: u8) -> u32 {
        self.still_run = if number == self.still_number {
            self.still_run.saturating_add(1)
        } else {
            1
        };
        self.still_number = number;
        self.still_run
    }

    /// A number fits.
    pub fn forget_still(&mut self) {
        self.still_run = 0;
    }

    /// Is the last byte of its frames no number: at least half of them had one that came before, and it went
    /// on by less than an eighth of them?
    pub fn has_no_numbers(&self) -> bool {
        let frames = Long::of(self.frames);
        self.repeats_half() && (self.head - self.first) * 8 < frames
    }

    /// Did at least half of the frames have a number that came before?
    pub fn repeats_half(&self) -> bool {
        self.frames >= 16 && self.repeats.saturating_mul(2) >= self.frames
    }
}
