//! The facts of a run, as JSON.
ghost use Rattle.std.specs.Prelude.{◌≡◌, IfOk, option_map, string_bytes};
ghost use Rattle.hex.specs.Hex.{encode_lower};
ghost use Rattle.run_manifest.specs.Manifest.{may_be_of};

use crate::digesting::Sum;
use jiff::Timestamp;
use serde::{Deserialize, Serialize};
use serde_json::{Error, Value};
use std::alloc::{AllocError, Global};
use std::fmt::Write;

/// The version of the format, which its first member has.
pub const MANIFEST_VERSION: u32 = 1;

/// The manifest of a run of `watch`: what the run was of, and what it wrote.
#[derive(Drop, Serialize, Deserialize)]
pub struct Manifest {
    /// [`MANIFEST_VERSION`].
    pub manifest: u32,
    pub program: Program,
    /// The command line, the program's own name first.
    pub command: Vec<String>,
    /// The fault line of a run that met one, without `afdxmon: `.
    pub fault: Option<String>,
    pub inputs: Inputs,
    pub outputs: Outputs,
}

/// The program that ran.
#[derive(Drop, Serialize, Deserialize)]
pub struct Program {
    pub name: String,
    pub version: String,
    /// The first digits of the commit of its sources, or `unknown-tree`.
    pub commit: String,
}

/// The files that the run read. One that wasn't given is left out.
#[derive(Drop, Serialize, Deserialize)]
pub struct Inputs {
    pub config: FileRecord,
    pub filter: Option<FileRecord>,
    pub a: Option<RecordingRecord>,
    pub b: Option<RecordingRecord>,
}

/// The files that the run wrote.
#[derive(Drop, Serialize, Deserialize)]
pub struct Outputs {
    pub capture: Option<FileRecord>,
    pub ledger: FileRecord,
}

/// A file, by its path as it was given.
#[derive(Drop, Serialize, Deserialize)]
pub struct FileRecord {
    pub path: String,
    /// How many bytes were read or written.
    pub bytes: u64,
    /// Their SHA-256 (FIPS 180-4) in hexadecimal, where it was asked for.
    pub sha256: Option<String>,
}

/// A recording. Of a run that met a fault nothing but its path and its bytes is known, and maybe not these.
#[derive(Drop, Serialize, Deserialize)]
pub struct RecordingRecord {
    /// Of several files the first one's.
    pub path: String,
    /// The files of a recording of several that were read, in their order.
    pub files: Option<Vec<FileRecord>>,
    /// How many bytes were read: all, unless it ends `bad`.
    pub bytes: Option<u64>,
    pub sha256: Option<String>,
    pub frames: Option<u64>,
    /// `clean`, `cut` or `bad`, as the ledger's line `tap` has it.
    pub end: Option<String>,
    /// The ledger's word for why it ends `bad`.
    pub reason: Option<String>,
    /// The timestamps of the first and the last frame, in nanoseconds since 1970 and in UTC.
    pub first: Option<String>,
    pub first_utc: Option<String>,
    pub last: Option<String>,
    pub last_utc: Option<String>,
    /// How many packets its recorder says that it dropped, where it says so.
    pub dropped: Option<u64>,
    /// Its torn files, behind which the run went on, in their order.
    pub torn: Option<Vec<TornRecord>>,
    /// How many frames have an 802.1Q tag.
    pub tagged: Option<u64>,
    /// Its foreign frames by EtherType, in the order of their first frames.
    pub foreign: Option<Vec<KindRecord>>,
    /// Its links whose source addresses name the other network.
    pub crossed: Option<Vec<CrossedRecord>>,
}

/// Foreign frames of an EtherType.
#[derive(Drop, Serialize, Deserialize)]
pub struct KindRecord {
    /// In hexadecimal digits, as `0x88f7`: `0x0000` stands for a length in its place. None: further kinds.
    pub ethertype: Option<String>,
    /// The protocol, where it has a name.
    pub name: Option<String>,
    pub frames: u64,
}

/// The frames of a link on a network whose source addresses name the other one.
#[derive(Drop, Serialize, Deserialize)]
pub struct CrossedRecord {
    pub link: u16,
    /// How many there are, and how many frames the link has there in all.
    pub frames: u64,
    pub of: u64,
    /// The timestamps of the first and the last, in nanoseconds since 1970.
    pub first: String,
    pub last: String,
}

/// A file of a recording that is torn. Frames that were sent between `last` and `next` may be missing.
#[derive(Drop, Serialize, Deserialize)]
pub struct TornRecord {
    pub path: String,
    /// `cut`: it ends within a packet. `damaged`: it has bytes that are no packet.
    pub how: String,
    /// The greatest timestamp before, and the first one behind it, in nanoseconds since 1970 and in UTC.
    pub last: Option<String>,
    pub last_utc: Option<String>,
    pub next: Option<String>,
    pub next_utc: Option<String>,
}

/// The timestamps of a recording's first and last frame, in nanoseconds since 1970 (UTC).
#[derive(Clone, Copy)]
pub struct Span {
    pub first: u64,
    pub last: u64,
}

fn owned(alloc: Global, text: &str) -> Result<String, AllocError> {
    String::from_str(alloc, text)
}

fn owned_if(alloc: Global, text: Option<&str>) -> Result<Option<String>, AllocError> {
    match text {
        Some(text) => Ok(Some(owned(alloc, text)?)),
        None => Ok(None),
    }
}

/// The digits of a digest.
fn hex_of(alloc: Global, sum: Sum) -> Result<Option<String>, AllocError>
    ensures { IfOk result (λ text. option_map string_bytes text ≡ option_map encode_lower sum.sha256) }
{
    match sum.sha256 {
        Some(digest) => Ok(Some(hex::encode(alloc, digest)?)),
        None => Ok(None),
    }
}

fn decimal(alloc: Global, number: u64) -> Result<String, AllocError> {
    let mut out = String::new(alloc);
    write!(out, "{number}")?;
    Ok(out)
}

/// A timestamp as RFC 3339 writes it in UTC.
fn utc(alloc: Global, stamp: u64) -> Result<String, AllocError> {
    let mut out = String::new(alloc);
    if let Ok(moment) = Timestamp::from_nanosecond(i128::from(stamp)) {
        write!(out, "{moment}")?;
    }
    Ok(out)
}

impl Program {
    /// Of the text that the program prints for its version: `1.0.0 (commit 0123456789ab)`, and what follows.
    pub fn of_version(alloc: Global, name: &str, text: &str) -> Result<Program, AllocError> {
        let (version, rest) = text.split_once(" (commit ").unwrap_or((text, ""));
        let (commit, _) = rest.split_once(')').unwrap_or((rest, ""));
        Ok(Program {
            name: owned(alloc, name)?,
            version: owned(alloc, version)?,
            commit: owned(alloc, commit)?,
        })
    }
}

impl FileRecord {
    /// A file whose bytes have this sum.
    pub fn new(alloc: Global, path: &str, sum: Sum) -> Result<FileRecord, AllocError> {
        Ok(FileRecord {
            path: owned(alloc, path)?,
            bytes: sum.bytes,
            sha256: hex_of(alloc, sum)?,
        })
    }

    /// May bytes of this sum be the file's? They are as many, and have its digest where both are known.
    ///
    /// # Errors
    ///
    /// There is no memory for the digest's digits.
    pub fn may_be_of(&self, alloc: Global, sum: Sum) -> Result<bool, AllocError>
        ensures { IfOk result (λ may. may ≡ may_be_of self.now sum) }
    {
        let digests_agree = match (&self.sha256, hex_of(alloc, sum)?) {
            (Some(own), Some(found)) => own.as_str() == found.as_str(),
            _ => true,
        };
        Ok(self.bytes == sum.bytes && digests_agree)
    }
}

impl RecordingRecord {
    /// A recording whose bytes that were read have this sum.
    pub fn new(alloc: Global, path: &str, sum: Option<Sum>) -> Result<RecordingRecord, AllocError> {
        Ok(RecordingRecord {
            path: owned(alloc, path)?,
            files: None,
            bytes: sum.map(|sum| sum.bytes),
            sha256: match sum {
                Some(sum) => hex_of(alloc, sum)?,
                None => None,
            },
            frames: None,
            end: None,
            reason: None,
            first: None,
            first_utc: None,
            last: None,
            last_utc: None,
            dropped: None,
            torn: None,
            tagged: None,
            foreign: None,
            crossed: None,
        })
    }

    /// Adds a file of several. The recording's bytes are those of all.
    pub fn add_file(&mut self, alloc: Global, file: FileRecord) -> Result<(), AllocError> {
        self.bytes = Some(self.bytes.unwrap_or(0).saturating_add(file.bytes));
        self.files
            .get_or_insert_with(|| Vec::new(alloc))
            .push(file)?;
        Ok(())
    }

    /// Adds a torn file.
    pub fn add_torn(&mut self, alloc: Global, file: TornRecord) -> Result<(), AllocError> {
        self.torn.get_or_insert_with(|| Vec::new(alloc)).push(file)?;
        Ok(())
    }

    /// Adds foreign frames of an EtherType, or of further ones.
    pub fn add_kind(
        &mut self,
        alloc: Global,
        ethertype: Option<u16>,
        name: Option<&str>,
        frames: u64,
    ) -> Result<(), AllocError> {
        let ethertype = match ethertype {
            Some(ethertype) => {
                let mut text = String::new(alloc);
                write!(text, "0x{ethertype:04x}")?;
                Some(text)
            }
            None => None,
        };
        let name = owned_if(alloc, name)?;
        self.foreign
            .get_or_insert_with(|| Vec::new(alloc))
            .push(KindRecord {
                ethertype,
                name,
                frames,
            })?;
        Ok(())
    }

    /// Adds a link of which so many frames, of all that it has, name the other network.
    pub fn add_crossed(
        &mut self,
        alloc: Global,
        link: u16,
        (frames, of): (u64, u64),
        span: Span,
    ) -> Result<(), AllocError> {
        self.crossed
            .get_or_insert_with(|| Vec::new(alloc))
            .push(CrossedRecord {
                link,
                frames,
                of,
                first: decimal(alloc, span.first)?,
                last: decimal(alloc, span.last)?,
            })?;
        Ok(())
    }

    /// Says how it ended, in the ledger's words.
    pub fn end(
        &mut self,
        alloc: Global,
        frames: u64,
        end: &str,
        reason: Option<&str>,
    ) -> Result<(), AllocError> {
        self.frames = Some(frames);
        self.end = Some(owned(alloc, end)?);
        self.reason = owned_if(alloc, reason)?;
        Ok(())
    }

    /// Says when its frames came.
    pub fn span(&mut self, alloc: Global, span: Span) -> Result<(), AllocError> {
        self.first = Some(decimal(alloc, span.first)?);
        self.first_utc = Some(utc(alloc, span.first)?);
        self.last = Some(decimal(alloc, span.last)?);
        self.last_utc = Some(utc(alloc, span.last)?);
        Ok(())
    }
}

/// A timestamp in nanoseconds and in UTC, if it is known.
fn moment(
    alloc: Global,
    stamp: Option<u64>,
) -> Result<(Option<String>, Option<String>), AllocError> {
    match stamp {
        Some(stamp) => Ok((Some(decimal(alloc, stamp)?), Some(utc(alloc, stamp)?))),
        None => Ok((None, None)),
    }
}

impl CrossedRecord {
    /// The timestamps of its first frame and its last, if they are numbers.
    pub fn span(&self) -> Option<(u64, u64)> {
        Some((self.first.parse().ok()?, self.last.parse().ok()?))
    }
}

impl KindRecord {
    /// The EtherType, if it is one.
    pub fn number(&self) -> Option<u16> {
        let digits = self.ethertype.as_ref()?.strip_prefix("0x")?;
        u16::from_str_radix(digits, 16).ok()
    }
}

impl TornRecord {
    /// A torn file, and the timestamps around it.
    pub fn new(
        alloc: Global,
        path: &str,
        how: &str,
        last: Option<u64>,
        next: Option<u64>,
    ) -> Result<TornRecord, AllocError> {
        let (last, last_utc) = moment(alloc, last)?;
        let (next, next_utc) = moment(alloc, next)?;
        Ok(TornRecord {
            path: owned(alloc, path)?,
            how: owned(alloc, how)?,
            last,
            last_utc,
            next,
            next_utc,
        })
    }

    /// The timestamps around it, if they are known.
    pub fn hole(&self) -> Option<(u64, u64)> {
        let last = self.last.as_ref()?.parse().ok()?;
        let next = self.next.as_ref()?.parse().ok()?;
        Some((last, next))
    }
}

/// A manifest as JSON, on lines for a person too.
///
/// # Errors
///
/// The system is out of memory.
pub fn manifest_text(alloc: Global, manifest: &Manifest) -> Result<String, Error> {
    let mut text = serde_json::to_string_pretty(alloc, manifest)?;
    text.push('\n')?;
    Ok(text)
}

/// Why a text is no manifest.
#[derive(Drop)]
pub enum ManifestFault {
    /// It isn't JSON, or a member is missing or another than a manifest's. The error says what comes first.
    Form(Error),
    /// It is a manifest of another version.
    Version,
}

/// The version that a JSON text has, if it has one.
fn version_of(alloc: Global, text: &str) -> Result<Option<u64>, Error> {
    let value = Value::from_str(alloc, text)?;
    Ok(value.get("manifest").and_then(Value::as_u64))
}

/// Reads a manifest. Members that it doesn't know are passed over.
///
/// # Errors
///
/// The text isn't a manifest of [`MANIFEST_VERSION`], or the system is out of memory.
pub fn read_manifest(alloc: Global, text: &str) -> Result<Manifest, ManifestFault> {
    match version_of(alloc, text) {
        Err(error) => return Err(ManifestFault::Form(error)),
        Ok(Some(version)) if version != u64::from(MANIFEST_VERSION) => {
            return Err(ManifestFault::Version);
        }
        Ok(_) => {}
    }
    match serde_json::from_str(alloc, text) {
        Ok(manifest) => Ok(manifest),
        Err(error) => Err(ManifestFault::Form(error)),
    }
}
