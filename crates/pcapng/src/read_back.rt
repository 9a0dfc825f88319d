//! Written captures are read back: laws that hold of the definitions alone.
ghost use Rattle.pcapng.specs.Captures.{CaptureIsGiven, CaptureIsRead, NetworkIsGiven, NetworkIsRead};

/// Of a written capture the pcap of its packets is given: each with its timestamp, its lengths and the
/// bytes that were kept of it. Of a capture of both networks those of the chosen one are given.
pub fn written_capture_is_given()
    ensures one { CaptureIsGiven }
    ensures networks { NetworkIsGiven }
{}

/// Of a written capture a reader reads the frames, with the bytes that were kept, and then its clean end.
pub fn written_capture_is_read()
    ensures one { CaptureIsRead }
    ensures networks { NetworkIsRead }
{}
