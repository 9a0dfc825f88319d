//! Laws of captures, which hold by their definitions alone.

ghost use Rattle.watch_run.specs.CaptureLaws.{PcapHasAcceptedFrames};

/// A run's pcap file has the packet of each frame that a filter accepts, cut to the greatest return value,
/// and nothing of its verdict or of the table.
pub fn pcap_has_accepted_frames()
    ensures { PcapHasAcceptedFrames }
{}
