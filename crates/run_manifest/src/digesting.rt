//! Bytes that are counted and hashed as they pass.
ghost use Rattle.std.specs.Prelude.{◌≡◌, ◌++◌, ℕ, Bool, List, []};
ghost use Rattle.std.specs.Io.{ReadsAtMost, WritesAtMost};
ghost use Rattle.std.specs.Io.KnownBytes.{ReadConsumes, WriteAppends};
ghost use Rattle.run_manifest.specs.Digesting.{HasPassed, passed_bytes, sum_of};

use sha2::{Digest, Sha256};
use std::io;
use std::io::{Read, Write};

/// How many bytes there are (a count stays at 2^64 - 1), and their SHA-256 (FIPS 180-4) where it is wanted.
#[derive(Clone, Copy, PartialEq, Eq)]
pub struct Sum {
    pub bytes: u64,
    pub sha256: Option<[u8; 32]>,
}

/// The sum of bytes that come one after the other.
#[derive(Drop)]
pub struct Tally {
    bytes: u64,
    hasher: Option<Sha256>,
}

impl Tally {
    /// Of no bytes. Are they to be hashed?
    pub fn new(hashed: bool) -> Tally
        ensures { HasPassed hashed result [] }
    {
        Tally {
            bytes: 0,
            hasher: if hashed { Some(Sha256::new()) } else { None },
        }
    }

    /// Takes the next bytes.
    pub fn pass(&mut self, bytes: &[u8])
        ensures { (hashed : Bool) (before : List ℕ) → HasPassed hashed self.old before
            → HasPassed hashed self.new (before ++ bytes.now) }
    {
        self.bytes = self.bytes.saturating_add(bytes.len() as u64);
        if let Some(hasher) = &mut self.hasher {
            hasher.update(bytes);
        }
    }

    /// The sum of all bytes that were taken.
    pub fn end(self) -> Sum
        ensures { (hashed : Bool) (taken : List ℕ) → HasPassed hashed self taken
            → result ≡ sum_of hashed taken }
    {
        Sum {
            bytes: self.bytes,
            sha256: match self.hasher {
                Some(hasher) => Some(hasher.finalize()),
                None => None,
            },
        }
    }
}

/// The sum of bytes that are there. Are they to be hashed?
pub fn sum_of(bytes: &[u8], hashed: bool) -> Sum
    ensures { result ≡ sum_of hashed bytes.now }
{
    let mut tally = Tally::new(hashed);
    tally.pass(bytes);
    tally.end()
}

/// A reader or a writer whose bytes are counted, and may be hashed, as they pass. They pass unchanged.
#[derive(Drop)]
pub struct Digesting<T> {
    pub inner: T,
    pub tally: Tally,
}

impl<T> Digesting<T> {
    /// Nothing has passed yet. Are the bytes to be hashed?
    pub fn new(inner: T, hashed: bool) -> Digesting<T>
        ensures inner { result.inner ≡ inner }
        ensures tally { HasPassed hashed result.tally [] }
    {
        Digesting {
            inner,
            tally: Tally::new(hashed),
        }
    }
}

impl<R: Read> Read for Digesting<R> {
    ghost remaining = { λ d. R.remaining d.inner };

    fn read(&mut self, buf: &mut [u8]) -> io::Result<usize>
        ensures bound { ReadsAtMost result buf.new }
        ensures bytes { ReadConsumes (R.remaining self.old.inner)
            (R.remaining self.new.inner) result buf.new }
        ensures tally { (hashed : Bool) (before : List ℕ) → HasPassed hashed self.old.tally before
            → HasPassed hashed self.new.tally (before ++ passed_bytes result buf.new) }
    {
        let count = self.inner.read(buf)?;
        self.tally.pass(&buf[..count]);
        Ok(count)
    }
}

impl<W: Write> Write for Digesting<W> {
    ghost contents = { λ d. W.contents d.inner };

    fn write(&mut self, buf: &[u8]) -> io::Result<usize>
        ensures bound { WritesAtMost result buf.now }
        ensures bytes { WriteAppends (W.contents self.old.inner) (W.contents self.new.inner) result buf.now }
        ensures tally { (hashed : Bool) (before : List ℕ) → HasPassed hashed self.old.tally before
            → HasPassed hashed self.new.tally (before ++ passed_bytes result buf.now) }
    {
        let count = self.inner.write(buf)?;
        self.tally.pass(&buf[..count]);
        Ok(count)
    }

    fn flush(&mut self) -> io::Result<()> {
        self.inner.flush()
    }
}
