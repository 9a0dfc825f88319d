//! Laws of captures, which hold by their definitions alone.

ghost use Rattle.capture_run.specs.CaptureLaws.{CaptureGivesAccepted};

/// The capture of a recording is a recording: of the frames that the filter accepts, in order, each cut
/// to what was kept, and clean at its end.
pub fn capture_gives_the_accepted_frames()
    ensures { CaptureGivesAccepted }
{}
