//! The frames of both recordings that the lines of a ledger name.
ghost use Rattle.std.specs.Prelude.{◌≡◌, [], List, None, Some, IfOk, IfErr, IsTrue, ◌↔◌, MatchResult, ◌≤◌, length};
ghost use Rattle.std.specs.Io.KnownBytes.{prepend_known};
ghost use Rattle.afdx_frame.specs.Frame.{Frame};
ghost use Rattle.afdx_frame.specs.declared.key.Network.TheVariants.{A, B};
ghost use Rattle.afdx_frame.specs.declared.bounds.TheConstants.{MAX_SNAPLEN};
ghost use Rattle.cut_run.specs.Finder.{finder_source, finding_of};
ghost use Rattle.ledger_text.specs.declared.frame.FrameLine.{FrameLine};
ghost use Rattle.run_fault.specs.Device.{SourceView, source_at};
ghost use Rattle.run_fault.specs.Recording.{WasOpened};
ghost use Rattle.cut_run.specs.Cut.{AreRefused};
ghost use Rattle.cut_run.specs.Lines.{ComesLater, is_read, key_of_line};
ghost use Rattle.cut_run.specs.Naming.{HasNamed, Names, StopsNaming, name_fault, open_fault};

use crate::fault::{CutFault, CutSource};
use crate::{FindFault, FrameFinder};
use afdx_frame::{Key, Network, TapFrame, key_order};
use ledger_text::FrameLine;
use pcap_io::{OpenFault, OpenRefused, TapSource};
use std::alloc::Global;

/// Both recordings, whose frames are found in the order of the ledger's lines.
#[derive(Drop)]
pub(crate) struct Recordings<S, T> {
    pub(crate) a: FrameFinder<S>,
    pub(crate) b: FrameFinder<T>,
    /// Where the last line's frame stands in the order of both networks.
    pub(crate) last: Option<Key>,
}

/// Recordings that weren't opened, and why.
#[derive(Drop)]
pub(crate) struct Unopened<S, T> {
    pub(crate) fault: CutFault,
    pub(crate) a: S,
    pub(crate) b: T,
}

/// Where the frame of a line stands in the order of both networks.
#[inline]
fn key_of(line: &FrameLine) -> Key
    ensures { result ≡ key_of_line line.now }
{
    Key {
        stamp: line.stamp,
        network: line.network,
        number: u64::from(line.number),
    }
}

/// Are the frames of this network looked up? Its lines are passed over where it is skipped.
#[inline]
pub(crate) fn is_read(skips: Option<Network>, network: Network) -> bool
    ensures { result ≡ is_read skips network }
{
    match (skips, network) {
        (Some(Network::A), Network::A) | (Some(Network::B), Network::B) => false,
        _ => true,
    }
}

/// True if the frame of a line comes later than the last one, where there is one.
#[inline]
fn comes_later(last: Option<Key>, line: &FrameLine) -> bool
    ensures { IsTrue result ↔ ComesLater last line.now }
{
    key_order();
    match last {
        Some(last) => last < key_of(line),
        None => true,
    }
}

/// Why a recording wasn't opened.
fn open_fault(network: Network, fault: OpenFault) -> CutFault
    ensures { result ≡ open_fault network fault }
{
    match fault {
        OpenFault::Header(fault) => CutFault::Header { network, fault },
        OpenFault::Device => CutFault::Read {
            source: CutSource::Recording(network),
        },
    }
}

/// Why the frame of this line wasn't found.
fn name_fault(network: Network, line: u64, fault: FindFault) -> CutFault
    ensures { result ≡ name_fault network line fault }
{
    match fault {
        FindFault::Absent => CutFault::Absent { line },
        FindFault::Memory => CutFault::Memory,
        FindFault::Device | FindFault::Failed => CutFault::Read {
            source: CutSource::Recording(network),
        },
    }
}

impl<S: TapSource, T: TapSource> Recordings<S, T> {
    /// Opens the recordings of networks A and B, in this order. A refusal gives both back.
    pub(crate) fn open(alloc: Global, a: S, b: T) -> Result<Recordings<S, T>, Unopened<S, T>>
        ensures opened { IfOk result (HasNamed S.TapSource T.TapSource
            (source_at S.TapSource a) (source_at T.TapSource b) [] [] [] []) }
        ensures fresh { IfOk result (λ recordings.
            WasOpened (source_at S.TapSource a) (source_at S.TapSource (finder_source recordings.a))
            × WasOpened (source_at T.TapSource b) (source_at T.TapSource (finder_source recordings.b))) }
        ensures refused { IfErr result (λ e. AreRefused e.fault
            (source_at S.TapSource a) (source_at T.TapSource b)
            (source_at S.TapSource e.a) (source_at T.TapSource e.b)) }
    {
        let a = match FrameFinder::open(alloc, a, Network::A) {
            Ok(finder) => finder,
            Err(OpenRefused { source, fault }) => {
                let fault = open_fault(Network::A, fault);
                return Err(Unopened {
                    fault,
                    a: source,
                    b,
                });
            }
        };
        match FrameFinder::open(alloc, b, Network::B) {
            Ok(b) => Ok(Recordings { a, b, last: None }),
            Err(OpenRefused { source, fault }) => Err(Unopened {
                fault: open_fault(Network::B, fault),
                a: a.into_source(),
                b: source,
            }),
        }
    }

    /// The frame of the next line of the ledger, whose number this is.
    #[inline]
    pub(crate) fn find(
        &mut self,
        alloc: Global,
        line: &FrameLine,
        number: u64,
    ) -> Result<TapFrame, CutFault>
        ensures { (a b : SourceView) (vs : List FrameLine) (fs frames_a frames_b : List Frame)
            → HasNamed S.TapSource T.TapSource a b vs fs frames_a frames_b self.old
            → MatchResult result
            (λ f. Names S.TapSource T.TapSource a b vs fs line.now f self.new)
            (λ fault. StopsNaming S.TapSource T.TapSource a b vs fs line.now number fault self.new) }
    {
        if !comes_later(self.last, line) {
            return Err(CutFault::Order { line: number });
        }
        self.last = Some(key_of(line));
        let (stamp, index) = (line.stamp, u64::from(line.number));
        let found = match line.network {
            Network::A => self.a.find(alloc, stamp, index),
            Network::B => self.b.find(alloc, stamp, index),
        };
        match found {
            Ok(frame) => Ok(frame),
            Err(fault) => Err(name_fault(line.network, number, fault)),
        }
    }

    /// The sources. What was read ahead of them is lost.
    pub(crate) fn into_sources(self) -> (S, T)
        ensures sources { result ≡ (finder_source self.a, finder_source self.b) }
        ensures lost { (length (finding_of S.TapSource self.a).unread ≤ MAX_SNAPLEN)
            × (length (finding_of T.TapSource self.b).unread ≤ MAX_SNAPLEN) }
    {
        let Recordings { a, b, last: _ } = self;
        (a.into_source(), b.into_source())
    }
}
