//! The test whether frames are a tap's recording.
ghost use Rattle.std.specs.Prelude.{◌≡◌, ◌+◌, ◌≤◌, IsTrue, ◌↔◌};
ghost use Rattle.std.specs.Option.{ForSome};
ghost use Rattle.ordered_merge.specs.Merge.{highest};
ghost use Rattle.ordered_merge.specs.Recording.{IsRecording};
ghost use Rattle.specified.specs.Recording.{IsNextFrame};

use afdx_frame::{Network, TapFrame};

/// True if the frames are a recording of the network's tap: numbered from 0, and with no timestamp further
/// than `late` nanoseconds below the greatest one before it.
pub fn is_recording(network: Network, late: u64, frames: &[TapFrame]) -> bool
    ensures { IsTrue result ↔ IsRecording network late frames.now }
{
    let mut next = 0;
    let mut high = None;
    for frame in frames {
        if !is_next(network, late, next, high, frame) {
            return false;
        }
        next = frame.number() + 1;
        high = Some(highest(high, frame.stamp().0));
    }
    true
}

/// True if the frame comes next of the network, after frames of this greatest timestamp.
fn is_next(network: Network, late: u64, next: u64, high: Option<u64>, frame: &TapFrame) -> bool
    ensures { IsTrue result ↔ IsNextFrame network late next high frame.now }
{
    frame.network() == network && frame.number() == next && is_in_time(late, high, frame.stamp().0)
}

/// True if a timestamp is no further than `late` below the greatest one before it.
fn is_in_time(late: u64, high: Option<u64>, stamp: u64) -> bool
    ensures { IsTrue result ↔ ForSome high (λ high. high ≤ stamp + late) }
{
    match high {
        Some(high) => high <= stamp || high - stamp <= late,
        None => true,
    }
}

/// The greatest timestamp, after one more.
fn highest(high: Option<u64>, stamp: u64) -> u64
    ensures { result ≡ highest high stamp }
{
    match high {
        Some(high) => high.max(stamp),
        None => stamp,
    }
}
