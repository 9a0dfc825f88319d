//! A recording of one file or of several.
ghost use Rattle.recording_files.specs.Files.{failures_of, give_bytes, has_ended, left_of, tells_of};

use crate::joined::JoinedSource;
use crate::supply::FileSupply;
use pcap_io::{DeviceFault, TapSource, Told};

/// A recording of one file, whose bytes are given as they are, or of several.
#[derive(Drop)]
pub enum RecordingFiles<P, F> {
    One(F),
    Several(JoinedSource<P, F>),
}

impl<F: TapSource + Drop, P: FileSupply<F>> TapSource for RecordingFiles<P, F> {
    ghost remaining = { λ s. left_of F.remaining F.told P.files s };

    ghost told = { λ s. tells_of F.remaining F.told P.files s };

    ghost is_over = { λ s. has_ended F.is_over s };

    ghost failures = { λ s. failures_of F.failures s };

    ghost gives_bytes = { λ s. give_bytes F.remaining F.told P.files F.gives_bytes s };

    fn read(&mut self, buf: &mut [u8]) -> Result<usize, DeviceFault> {
        match self {
            RecordingFiles::One(file) => file.read(buf),
            RecordingFiles::Several(files) => files.read(buf),
        }
    }

    fn told(&self) -> Told {
        match self {
            RecordingFiles::One(file) => file.told(),
            RecordingFiles::Several(files) => files.told(),
        }
    }
}
