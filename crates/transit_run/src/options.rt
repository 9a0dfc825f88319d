//! The options of a pass.

ghost use Rattle.std.specs.Prelude.{◌≡◌};
ghost use Rattle.transit_run.specs.Waits.{window_of};

use afdx_frame::VlId;

/// Times are in nanoseconds.
#[derive(Drop)]
pub struct Options {
    /// The longest transit that is looked for.
    pub within: u64,
    /// How far clocks and stamps may be off: a frame may seem to come out so much before it went in.
    pub early: u64,
    /// The longest transit that isn't told as slow.
    pub bound: Option<u64>,
    /// By how much the switch's and the tap's times between two frames may differ.
    pub grace: u32,
    /// Policing charges each frame its link's Smax, not its size.
    pub frames: bool,
    /// The links that are routed to the port out, where that is known.
    pub routed: Option<Vec<VlId>>,
}

impl Options {
    /// How much later than it went in a frame comes out at most, where its moment of coming out is taken
    /// later by what clocks may be off.
    pub fn window(&self) -> u64
        ensures { result ≡ window_of self.now }
    {
        self.within.saturating_add(self.early)
    }

    /// True if the link is known to be routed elsewhere.
    pub fn is_routed_elsewhere(&self, link: VlId) -> bool {
        match &self.routed {
            Some(routed) => !routed.iter().any(|one| *one == link),
            None => false,
        }
    }
}
