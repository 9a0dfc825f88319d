//! Laws of captures, which hold of the definitions alone.
ghost use Rattle.pcapng.specs.Written.{CaptureIsSteppedOver, CommentReadsBack, PacketReadsBack};

/// A capture of n packets is stepped over as n blocks after those of its head: the total length of each
/// block stands in it twice, and leads to the next one.
pub fn capture_is_stepped_over()
    ensures { CaptureIsSteppedOver }
{}

/// A packet's interface, timestamp, lengths, bytes and comment read back from its block.
pub fn packet_reads_back()
    ensures fields { PacketReadsBack }
    ensures comment { CommentReadsBack }
{}
