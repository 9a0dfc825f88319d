//! The pass over both recordings, and the ledger that it writes.

use crate::look::Looks;
use afdx_frame::{LentFrame, Network, Stamp, TapFrame};
use pcap_io::{DeviceFault, Ending, OutSink, TapSource, write_all};
use run_fault::{MAX_FRAMES, Output, WatchFault};
use std::alloc::{AllocError, Global};
use std::fmt::Write;
use traffic_survey::{Extent, Observer, Recorded, show_recordings};
use transit_run::{Options, Pass};
use vl_config::Config;

/// How many bytes of lines are handed over at once.
const BLOCK: usize = 32768;

/// The last timestamp of a frame, in nanoseconds.
const LAST: u64 = (1_000_000_000 << 32) - 1;

/// The findings of a walk over two recordings.
#[derive(Drop)]
pub struct Transits<'t> {
    pub pass: Pass<'t>,
    pub looks: Looks,
    /// How the recordings at the port in and at the port out were read.
    pub before: Recorded,
    pub after: Recorded,
}

/// A walk that has ended, with the devices that it was given.
#[derive(Drop)]
pub struct WalkRun<'t, S, W> {
    /// The findings, or why the walk was aborted: the recording at the port in is that of network A there.
    pub outcome: Result<Transits<'t>, WatchFault>,
    /// The ledger, if one was written.
    pub ledger: Option<W>,
    /// The recordings at the port in and at the port out.
    pub before: S,
    pub after: S,
}

/// The pass, with its ledger.
#[derive(Drop)]
struct Walk<'t, W> {
    pass: Pass<'t>,
    looks: Looks,
    ledger: Option<W>,
    /// The ledger's first lines, until they are written: an older ledger stays where nothing is read.
    head: Option<String>,
    /// The nanoseconds that are added to the timestamps of the recording at the port out.
    shift: i64,
    /// By how much its frames are merged later: how far clocks and stamps may be off.
    early: u64,
}

impl<W: OutSink> Walk<'_, W> {
    /// Hands over lines, once there are so many bytes of them.
    fn hand_over(&mut self, least: usize) -> Result<(), WatchFault> {
        if self.pass.text().len() < least {
            return Ok(());
        }
        self.begin()?;
        if let Some(ledger) = &mut self.ledger {
            put(ledger, self.pass.text())?;
        }
        self.pass.clear_text();
        Ok(())
    }

    /// Writes the ledger's first lines, where they aren't written.
    fn begin(&mut self) -> Result<(), WatchFault> {
        let head = self.head.take();
        if let (Some(ledger), Some(head)) = (&mut self.ledger, &head) {
            put(ledger, head.as_bytes())?;
        }
        Ok(())
    }

    /// Writes a text of the ledger's end.
    fn write(&mut self, text: &str) -> Result<(), WatchFault> {
        self.hand_over(1)?;
        if let Some(ledger) = &mut self.ledger {
            put(ledger, text.as_bytes())?;
        }
        Ok(())
    }

    /// Ends the ledger as the recordings ended. After a fault the lines that are certain stand there.
    fn finish(
        &mut self,
        alloc: Global,
        outcome: Result<(Recorded, Recorded), WatchFault>,
    ) -> Result<(Recorded, Recorded), WatchFault> {
        match outcome {
            Ok((before, after)) => {
                self.end(alloc, before.ending, after.ending)?;
                Ok((before, after))
            }
            Err(WatchFault::Write { output }) => Err(WatchFault::Write { output }),
            Err(fault) => {
                let _ = self.hand_over(1);
                Err(fault)
            }
        }
    }

    /// Writes the rest of the ledger: the last lines of frames, the counts, and how the recordings ended.
    fn end(&mut self, alloc: Global, before: Ending, after: Ending) -> Result<(), WatchFault> {
        self.pass.finish()?;
        self.pass.write_links()?;
        let mut text = String::new(alloc);
        push_tap(&mut text, "before", before)?;
        push_tap(&mut text, "after", after)?;
        self.write(&text)?;
        self.pass.write_total()?;
        self.hand_over(1)
    }
}

/// Writes a text to the ledger.
fn put<W: OutSink>(ledger: &mut W, text: &[u8]) -> Result<(), WatchFault> {
    match write_all(ledger, text) {
        Ok(()) => Ok(()),
        Err(DeviceFault) => Err(WatchFault::Write {
            output: Output::Ledger,
        }),
    }
}

/// Appends the line of a recording's end.
fn push_tap(text: &mut String, side: &str, ending: Ending) -> Result<(), AllocError> {
    let (word, frames) = (ending.word(), ending.frames());
    write!(text, "tap {side} {word} {frames}")?;
    if let Ending::Bad(_, reason) = ending {
        let reason = reason.word();
        write!(text, " {reason}")?;
    }
    text.push_str("\n")
}

/// When a frame that came out is merged: later by what clocks may be off.
#[inline(always)]
fn moved(stamp: Stamp, shift: i64, early: u64) -> Stamp {
    let moment = stamp.0.saturating_add_signed(shift).saturating_add(early);
    Stamp(moment.min(LAST))
}

/// A frame at another moment.
fn at_moment(frame: TapFrame, moment: Stamp) -> Result<TapFrame, AllocError> {
    let (network, number, _, whole, bytes) = frame.into_parts();
    match TapFrame::sharing(network, number, moment, whole, bytes) {
        Some(frame) => Ok(frame),
        // Its parts were within their bounds before, and its moment is.
        None => Err(AllocError),
    }
}

impl<W: OutSink> Observer for Walk<'_, W> {
    fn keep(&mut self, _alloc: Global, frame: TapFrame) -> Result<TapFrame, AllocError> {
        let moment = self.hear(frame.network(), frame.stamp());
        match frame.network() {
            Network::A => Ok(frame),
            Network::B => at_moment(frame, moment),
        }
    }

    #[inline]
    fn hear(&mut self, network: Network, stamp: Stamp) -> Stamp {
        let moment = match network {
            Network::A => stamp,
            Network::B => moved(stamp, self.shift, self.early),
        };
        self.pass.read(network, moment.0);
        moment
    }

    #[inline]
    fn see(&mut self, _alloc: Global, frame: &LentFrame<'_>) -> Result<(), WatchFault> {
        self.looks.see(frame)?;
        self.pass.see(frame)?;
        self.hand_over(BLOCK)
    }
}

/// The ledger's first two lines.
fn head_of(
    alloc: Global,
    options: &Options,
    network: Option<&str>,
    shift: i64,
) -> Result<String, AllocError> {
    let mut text = String::new(alloc);
    let network = network.unwrap_or("-");
    let (within, early, grace) = (options.within, options.early, options.grace);
    write!(
        text,
        "afdx-transit 1\nrun network {network} within {within} early {early} shift {shift} bound "
    )?;
    match options.bound {
        Some(bound) => write!(text, "{bound}")?,
        None => text.push_str("-")?,
    }
    let police = if options.frames { "frames" } else { "bytes" };
    write!(text, " police {police} grace {grace} routed ")?;
    push_routed(&mut text, options)?;
    text.push_str("\n")?;
    Ok(text)
}

/// Appends the links that are routed to the port out.
fn push_routed(text: &mut String, options: &Options) -> Result<(), AllocError> {
    let Some(routed) = &options.routed else {
        return text.push_str("-");
    };
    for (place, link) in routed.iter().enumerate() {
        let id = link.0;
        if place > 0 {
            text.push_str(",")?;
        }
        write!(text, "{id}")?;
    }
    Ok(())
}

/// Reads both recordings once, says what became of each frame, and writes the ledger if there is one. All
/// devices come back. After a fault the ledger is a prefix of what it would be.
///
/// `shift` is added to each timestamp of the recording at the port out; a timestamp may lie `late`
/// nanoseconds below the greatest one before it.
///
/// # Errors
///
/// `Header` or `Read` if a recording can't be opened, `Read`, `Write` or `Memory` later. Network A stands for
/// the port in.
pub fn walk_both<'t, S: TapSource, W: OutSink>(
    alloc: Global,
    table: &'t Config,
    options: Options,
    (network, shift, late): (Option<&str>, i64, u64),
    (before, after): (S, S),
    ledger: Option<W>,
) -> WalkRun<'t, S, W> {
    let early = options.early;
    let (pass, head) = match begin(alloc, table, options, network, shift) {
        Ok(begun) => begun,
        Err(AllocError) => {
            return WalkRun {
                outcome: Err(WatchFault::Memory),
                ledger,
                before,
                after,
            };
        }
    };
    let mut walk = Walk {
        pass,
        looks: Looks::new(alloc),
        ledger,
        head: Some(head),
        shift,
        early,
    };
    let extent = Extent {
        frames: MAX_FRAMES,
        late,
    };
    let shown = show_recordings(alloc, extent, before, after, &mut walk);
    let ended = walk.finish(alloc, shown.outcome);
    into_run(walk, ended, (shown.a, shown.b))
}

/// The pass, and the ledger's first lines.
fn begin<'t>(
    alloc: Global,
    table: &'t Config,
    options: Options,
    network: Option<&str>,
    shift: i64,
) -> Result<(Pass<'t>, String), AllocError> {
    let head = head_of(alloc, &options, network, shift)?;
    let pass = Pass::new(alloc, table, options)?;
    Ok((pass, head))
}

/// The run of a walk that ended so.
fn into_run<'t, S, W>(
    walk: Walk<'t, W>,
    ended: Result<(Recorded, Recorded), WatchFault>,
    (before, after): (S, S),
) -> WalkRun<'t, S, W> {
    let Walk {
        pass,
        looks,
        ledger,
        ..
    } = walk;
    let outcome = match ended {
        Ok((before, after)) => Ok(Transits {
            pass,
            looks,
            before,
            after,
        }),
        Err(fault) => Err(fault),
    };
    WalkRun {
        outcome,
        ledger,
        before,
        after,
    }
}
