//! A recording as it was read: how far, its ending and its span of time.

use pcap_io::Ending;
use run_fault::MAX_FRAMES;

/// How far a timestamp may lie below the greatest one before it in its recording, in nanoseconds: a second,
/// as far as the window of a table reaches.
const LATE: u64 = 1_000_000_000;

/// How far recordings are read.
#[derive(Clone, Copy)]
pub struct Extent {
    /// The most frames that are read of each.
    pub frames: u64,
    /// How far a timestamp may lie below the greatest one before it in its recording, in nanoseconds.
    pub late: u64,
}

impl Extent {
    /// Whole recordings, whose timestamps may lie as far below as the window of a table reaches: a second.
    pub(crate) fn whole() -> Extent {
        Extent {
            frames: MAX_FRAMES,
            late: LATE,
        }
    }
}

/// The timestamps of a recording, in nanoseconds since 1970.
#[derive(Clone, Copy)]
pub struct Span {
    pub least: u64,
    pub greatest: u64,
}

/// How a recording was read.
#[derive(Clone, Copy)]
pub struct Recorded {
    /// The ending. Of a recording that wasn't read whole: clean, after the frames that were read.
    pub ending: Ending,
    /// Was it read up to its ending?
    pub whole: bool,
    /// The timestamps of the frames that were read. None: there is no frame.
    pub span: Option<Span>,
    /// How far, in nanoseconds, a timestamp lies below the greatest one before it, at most.
    pub late: u64,
}

/// The timestamps of the frames of a recording that were read so far.
#[derive(Clone, Copy)]
pub(crate) struct Times {
    pub(crate) span: Option<Span>,
    /// How far one lies below the greatest one before it, at most.
    pub(crate) late: u64,
}

impl Times {
    /// Of no frame.
    pub(crate) fn new() -> Times {
        Times {
            span: None,
            late: 0,
        }
    }

    /// Notes the timestamp of the next frame.
    #[inline(always)]
    pub(crate) fn note(&mut self, stamp: u64) {
        let span = self.span.unwrap_or(Span {
            least: stamp,
            greatest: stamp,
        });
        self.late = self.late.max(span.greatest.saturating_sub(stamp));
        self.span = Some(Span {
            least: span.least.min(stamp),
            greatest: span.greatest.max(stamp),
        });
    }
}
