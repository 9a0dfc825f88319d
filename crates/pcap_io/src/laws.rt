//! Laws of recordings, which hold of the definitions alone.
ghost use Rattle.pcap_io.specs.Laws.{CaptureIsRead, EveryRecordingParses, FileHeaderIsTold, HoldsOne, OneParse, ReadsPrefix, ReadsToEnd};

/// The bytes after a file header parse into good packets, and a rest that ends the recording.
pub fn every_recording_parses()
    ensures { EveryRecordingParses }
{}

/// They parse in one way only.
pub fn one_parse()
    ensures packets { OneParse }
    ensures frames { HoldsOne }
{}

/// Calls of a reader, one after another, give the parse: all of it up to the ending, and a prefix of
/// its frames before.
pub fn reading_gives_the_parse()
    ensures all { ReadsToEnd }
    ensures prefix { ReadsPrefix }
{}

/// Where another pcap file's header stands in a packet's place, a reader says so.
pub fn file_header_is_told()
    ensures { FileHeaderIsTold }
{}

/// A capture of frames in time order is a recording of these frames, with the bytes that were kept of
/// each.
pub fn capture_is_read()
    ensures { CaptureIsRead }
{}
