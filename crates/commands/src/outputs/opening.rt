//! Opens what commands write.
use command_line::FileOption;
use packet_format::PacketFormat;
use pcapng::Interfaces;
use tap_inputs::{Blocks, Cause, Outcome, OutputStream, SharedBlocks};
use verdict_ledger::LedgerVersion;
use vl_config::Config;

/// The writer that hands an output its bytes in blocks. Are they to be hashed?
pub fn blocks_of(rt: &HostRuntime, output: OutputStream, hashed: bool) -> Result<Blocks, Outcome> {
    Ok(Blocks::new(rt.alloc(), output, hashed)?)
}

/// The output, and what hands a part of a block of it to the system.
pub fn shared(rt: &HostRuntime, output: Blocks) -> Result<(Blocks, SharedBlocks), Outcome> {
    Ok(output.share(rt.alloc())?)
}

/// Opens a file that is written. The first block that is written empties it before.
pub fn create(rt: &HostRuntime, path: &str, file: FileOption) -> Result<Blocks, Outcome> {
    create_hashed(rt, path, file, false)
}

/// The same of a file whose bytes are hashed, or aren't.
pub fn create_hashed(
    rt: &HostRuntime,
    path: &str,
    file: FileOption,
    hashed: bool,
) -> Result<Blocks, Outcome> {
    match OutputStream::open(rt, path) {
        Ok(opened) => blocks_of(rt, opened, hashed),
        Err(error) => Err(Outcome::of_file(file, Cause::System(error))),
    }
}

/// The format of a capture. That of a pcapng file has the interfaces, and the names of a table's links in its
/// comments.
pub fn format_of(
    is_pcapng: bool,
    interfaces: Interfaces,
    names: Option<&Config>,
) -> PacketFormat<'_> {
    if is_pcapng {
        PacketFormat::Pcapng { interfaces, names }
    } else {
        PacketFormat::Pcap
    }
}

/// The version of a ledger, with the lengths of frames or without them.
pub fn version_of(details: bool) -> LedgerVersion {
    if details {
        LedgerVersion::Three
    } else {
        LedgerVersion::Two
    }
}

/// The output, and what hands over what was written so far while an input may pause: it can then be seen
/// while a pipe gives no more.
pub fn live_output(
    rt: &HostRuntime,
    output: Blocks,
    may_pause: bool,
) -> Result<(Blocks, Option<SharedBlocks>), Outcome> {
    if !may_pause {
        return Ok((output, None));
    }
    let (output, live) = shared(rt, output)?;
    Ok((output, Some(live)))
}
