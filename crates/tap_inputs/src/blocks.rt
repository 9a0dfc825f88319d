//! An output that is written in blocks, and handed to the system before the program waits for an input that
//! pauses, as pipes do.
use crate::streams::{Input, Noting, OutputStream};
use run_manifest::{Digesting, Sum, Tally};
use std::alloc::{AllocError, Global};
use std::io::{BufWriter, ErrorKind, Read, Write};
use std::sync::{Arc, Mutex};
use std::{io, mem};

/// How many bytes are handed to the system at once.
pub const BLOCK: usize = 65536;

/// The writer that hands an output its bytes in blocks, which are counted, and hashed if that is asked for.
type BlockWriter = BufWriter<Digesting<OutputStream>>;

/// An output that is written in blocks, by one thread.
#[derive(Drop)]
pub enum Blocks {
    /// Nothing else hands its blocks on, so no write takes a lock.
    Own(BlockWriter),
    Shared(SharedBlocks),
}

impl Blocks {
    /// Nothing was written yet. Is what is written to be hashed? `AllocError` if there is no memory for the
    /// block.
    pub fn new(alloc: Global, output: OutputStream, hashed: bool) -> Result<Blocks, AllocError> {
        match BufWriter::with_capacity(alloc, BLOCK, Digesting::new(output, hashed)) {
            Ok(writer) => Ok(Blocks::Own(writer)),
            Err(_) => Err(AllocError),
        }
    }

    /// The output, and what hands a part of a block of it to the system. `AllocError` if there is no memory
    /// for what they share.
    pub fn share(self, alloc: Global) -> Result<(Blocks, SharedBlocks), AllocError> {
        let shared = match self {
            Blocks::Own(writer) => SharedBlocks::new(alloc, writer)?,
            Blocks::Shared(shared) => shared,
        };
        let other = shared.share()?;
        Ok((Blocks::Shared(shared), other))
    }

    /// Hands the system all that was written. Where the run met no fault, an older file to which it wrote
    /// nothing is emptied.
    pub fn finish(&mut self, sound: bool) -> io::Result<()> {
        match self {
            Blocks::Own(writer) => finish_writer(writer, sound),
            Blocks::Shared(shared) => match shared.writer.try_lock() {
                Some(mut writer) => finish_writer(&mut writer, sound),
                None => Err(is_busy()),
            },
        }
    }

    /// The sum of what the system took. It begins anew.
    pub fn take_sum(&mut self) -> Sum {
        let tally = match self {
            Blocks::Own(writer) => take_tally(writer),
            Blocks::Shared(shared) => match shared.writer.try_lock() {
                Some(mut writer) => take_tally(&mut writer),
                None => Tally::new(false),
            },
        };
        tally.end()
    }
}

fn take_tally(writer: &mut BlockWriter) -> Tally {
    mem::replace(&mut writer.get_mut().tally, Tally::new(false))
}

fn finish_writer(writer: &mut BlockWriter, sound: bool) -> io::Result<()> {
    writer.flush()?;
    if sound {
        writer.get_mut().inner.empty()?;
    }
    Ok(())
}

impl Write for Blocks {
    fn write(&mut self, bytes: &[u8]) -> io::Result<usize> {
        match self {
            Blocks::Own(writer) => writer.write(bytes),
            Blocks::Shared(shared) => shared.write(bytes),
        }
    }

    fn flush(&mut self) -> io::Result<()> {
        match self {
            Blocks::Own(writer) => writer.flush(),
            Blocks::Shared(shared) => shared.flush(),
        }
    }
}

/// An output that is written in blocks, and shared with what hands a part of a block to the system on the
/// thread that writes.
#[derive(Drop)]
pub struct SharedBlocks {
    writer: Arc<Mutex<BlockWriter>, Global>,
}

impl SharedBlocks {
    fn new(alloc: Global, writer: BlockWriter) -> Result<SharedBlocks, AllocError> {
        match Arc::new(alloc, Mutex::new(writer)) {
            Ok(writer) => Ok(SharedBlocks { writer }),
            Err(_) => Err(AllocError),
        }
    }

    /// The same output.
    pub fn share(&self) -> Result<SharedBlocks, AllocError> {
        Ok(SharedBlocks {
            writer: Arc::try_clone(&self.writer)?,
        })
    }

    /// Hands the system what was written. What it refuses is refused again to the next that is written.
    pub fn hand_over(&self) -> io::Result<()> {
        match self.writer.try_lock() {
            Some(mut writer) => writer.flush(),
            None => Ok(()),
        }
    }
}

/// Another thread is writing, which none does.
fn is_busy() -> io::Error {
    io::Error::from(ErrorKind::WouldBlock)
}

impl Write for SharedBlocks {
    fn write(&mut self, bytes: &[u8]) -> io::Result<usize> {
        match self.writer.try_lock() {
            Some(mut writer) => writer.write(bytes),
            None => Err(is_busy()),
        }
    }

    fn flush(&mut self) -> io::Result<()> {
        match self.writer.try_lock() {
            Some(mut writer) => writer.flush(),
            None => Err(is_busy()),
        }
    }
}

/// An input whose output is handed to the system before more is read, where the input may pause. It ends once
/// the output can't be written, which the command then tells when it ends its output.
#[derive(Drop)]
pub struct LiveInput {
    input: Noting<Input>,
    output: Option<SharedBlocks>,
}

impl LiveInput {
    /// `output` is that of an input that may pause.
    pub fn new(input: Input, output: Option<SharedBlocks>) -> LiveInput {
        LiveInput {
            input: Noting::new(input),
            output,
        }
    }

    /// Why the system gave no more, if it didn't.
    pub fn refused(&self) -> Option<io::Error> {
        self.input.refused()
    }
}

impl Read for LiveInput {
    fn read(&mut self, buf: &mut [u8]) -> io::Result<usize> {
        match &self.output {
            Some(output) if output.hand_over().is_err() => Ok(0),
            Some(_) | None => self.input.read(buf),
        }
    }
}
