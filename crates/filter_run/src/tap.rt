//! A recording that is read whole into memory.
ghost use Rattle.std.specs.Prelude.{◌≡◌, ◌≤◌, IfErr, IfOk};
ghost use Rattle.pcap_io.specs.Reader.{position_of, reading_of, unread_of};
ghost use Rattle.pcap_io.specs.declared.recording.Stage.TheVariants.{Going};
ghost use Rattle.run_fault.specs.Device.{source_at};
ghost use Rattle.filter_run.specs.WholeTap.{GivesAll, IsTap, IsTapRefusal, StopsReading};

use afdx_frame::{Network, TapFrame};
use pcap_io::{Ending, Item, OpenRefused, ReadFault, TapReader, TapSource};
use run_fault::{MAX_FRAMES, WatchFault, fault_of_open};
use std::alloc::Global;

/// A recording in memory.
#[derive(Drop)]
pub struct HeldTap {
    /// All its frames, in their order.
    pub frames: Vec<TapFrame>,
    /// How it ends after them.
    pub ending: Ending,
}

/// A recording that was read, with its source.
#[derive(Drop)]
pub struct TapRead<S> {
    /// Its frames and its ending, or why it wasn't read.
    pub outcome: Result<HeldTap, WatchFault>,
    /// Where it was read from.
    pub source: S,
}

/// Reads the frames of network A up to the recording's ending, and that.
fn read_frames<S: TapSource>(
    alloc: Global,
    reader: &mut TapReader<S>,
) -> Result<HeldTap, WatchFault>
    requires going { (position_of reader.old).stage ≡ Going }
    requires bounded { (position_of reader.old).count ≤ (position_of reader.old).most }
    ensures all { IfOk result (λ tap. GivesAll
        (reading_of S.remaining S.failures S.told reader.old)
        (reading_of S.remaining S.failures S.told reader.new) tap.frames.items tap.ending) }
    ensures stopped { IfErr result (λ fault. StopsReading fault
        (reading_of S.remaining S.failures S.told reader.old)
        (reading_of S.remaining S.failures S.told reader.new) (unread_of reader.new)) }
{
    let mut frames = Vec::new(alloc);
    loop {
        match reader.next(alloc) {
            Ok(Item::Frame(frame)) => {
                let Ok(()) = frames.push(frame) else {
                    return Err(WatchFault::Memory);
                };
            }
            Ok(Item::End(ending)) => return Ok(HeldTap { frames, ending }),
            Err(ReadFault::Device) => {
                return Err(WatchFault::Read {
                    network: Network::A,
                });
            }
            Err(ReadFault::Memory) => return Err(WatchFault::Memory),
            Err(ReadFault::Failed) => unreachable!(),
        }
    }
}

/// Reads a recording whole, as network A, at most 2^32 frames, in which a timestamp may lie by `late`
/// nanoseconds below the greatest one before it. How it ends is no fault: its frames are those before its
/// ending, which is told beside them.
///
/// The fault is `Header`, `Read` or `Memory`.
pub fn read_tap<S: TapSource>(alloc: Global, late: u64, source: S) -> TapRead<S>
    ensures frames { IfOk result.outcome (λ tap. IsTap late
        (source_at S.TapSource source)
        (source_at S.TapSource result.source) tap.frames.items tap.ending) }
    ensures refused { IfErr result.outcome (λ fault. IsTapRefusal late fault
        (source_at S.TapSource source)
        (source_at S.TapSource result.source)) }
{
    let mut reader = match TapReader::open(source, Network::A, MAX_FRAMES, late) {
        Ok(reader) => reader,
        Err(OpenRefused { source, fault }) => {
            return TapRead {
                outcome: Err(fault_of_open(Network::A, fault)),
                source,
            };
        }
    };
    let outcome = read_frames(alloc, &mut reader);
    TapRead {
        outcome,
        source: reader.into_source(),
    }
}
