//! The lines of a source, lent one after another.
ghost use Rattle.std.specs.Prelude.{◌≡◌, ◌≤◌, length, vec_len, IfOk};
ghost use Rattle.std.specs.List.{position_or_len};
ghost use Rattle.ledger_text.specs.Newlines.{is_newline};
ghost use Rattle.ledger_text.specs.declared.bounds.TheConstants.{BLOCK_LEN};

use crate::bounds::BLOCK_LEN;
use memchr::memchr;
use pcap_io::{DeviceFault, TapSource};
use std::alloc::{AllocError, Global};

/// The next thing in a source.
#[derive(Clone, Copy, PartialEq, Eq)]
pub enum LineFound {
    /// A line and its newline.
    Line,
    /// Nothing: the source has ended.
    End,
    /// A last line without a newline: the source has ended after it.
    Unended,
    /// The first [`BLOCK_LEN`] bytes of a line that has no room in the block.
    Long,
}

/// A source whose lines can't be read, since the system is out of memory.
#[derive(Drop)]
pub struct LinesRefused<S> {
    /// The source. Nothing was read from it.
    pub source: S,
}

/// The lines of a source, which is read ahead a block at a time. Each is lent out of the block.
#[derive(Drop)]
pub struct LineSource<S> {
    source: S,
    block: Vec<u8>,
    /// Where the line starts that was found last, and where it ends.
    from: usize,
    to: usize,
    /// Where the unread bytes start, and where they end.
    start: usize,
    end: usize,
    ghost line: { from ≤ to },
    ghost before: { to ≤ start },
    ghost ordered: { start ≤ end },
    ghost within: { end ≤ vec_len block },
    ghost room: { vec_len block ≡ BLOCK_LEN },
}

/// The number of bytes before the first newline.
#[inline]
fn line_len(bytes: &[u8]) -> usize
    ensures len { result ≡ position_or_len is_newline bytes.now }
    ensures within { result ≤ length bytes.now }
{
    match memchr(b'\n', bytes) {
        Some(at) => at,
        None => bytes.len(),
    }
}

/// A block of zeros.
fn new_block(alloc: Global) -> Result<Vec<u8>, AllocError>
    ensures { IfOk result (λ block. vec_len block ≡ BLOCK_LEN) }
{
    let mut block = Vec::with_capacity(alloc, BLOCK_LEN)?;
    block.resize(BLOCK_LEN, 0)?;
    Ok(block)
}

impl<S: TapSource> LineSource<S> {
    ghost use Rattle.std.specs.Prelude.{◌≡◌, ◌<◌, ◌++◌, ◌∷◌, [], length, true, false};
    ghost use Rattle.std.specs.Prelude.{IfOk, IfErr, OnOk, OnErr};
    ghost use Rattle.std.specs.Io.KnownBytes.{IsAtEnd, Keeps};
    ghost use Rattle.pcap_io.specs.Device.{CountsFailure};
    ghost use Rattle.ledger_text.specs.Newlines.{NoNewline};
    ghost use Rattle.ledger_text.specs.Lines.{IsNextLine, lent_line, line_source, lines_left, unread_of};

    /// The lines of a source of which nothing is read yet. Allocates the block; where there is no memory
    /// for it the source comes back.
    pub fn new(alloc: Global, source: S) -> Result<LineSource<S>, LinesRefused<S>>
        ensures source { IfOk result (λ lines. line_source lines ≡ source) }
        ensures unread { IfOk result (λ lines. unread_of lines ≡ []) }
        ensures refused { IfErr result (λ refused. refused.source ≡ source) }
    {
        match new_block(alloc) {
            Ok(block) => Ok(LineSource {
                source,
                block,
                from: 0,
                to: 0,
                start: 0,
                end: 0,
            }),
            Err(AllocError) => Err(LinesRefused { source }),
        }
    }

    /// Goes on to the next line, which `line` lends. Allocates nothing.
    ///
    /// Where the device fails, no line stands whole among the bytes that were read ahead, and none of them
    /// is lost: the next call goes on with them.
    #[inline]
    pub fn advance(&mut self) -> Result<LineFound, DeviceFault>
        ensures found { IfOk result (IsNextLine (lines_left S.remaining self.old)
            (lines_left S.remaining self.new) (lent_line self.new)) }
        ensures no_failure { OnOk result
            (S.failures (line_source self.new) ≡ S.failures (line_source self.old)) }
        ensures fault { OnErr result (CountsFailure
            (S.failures (line_source self.old)) (S.failures (line_source self.new))) }
        ensures kept { OnErr result
            (Keeps (lines_left S.remaining self.old) (lines_left S.remaining self.new)) }
        ensures unfinished { OnErr result (NoNewline (unread_of self.new)) }
    {
        if self.take_line() {
            return Ok(LineFound::Line);
        }
        self.advance_across()
    }

    /// The line that was found last, without its newline.
    #[inline]
    pub fn line(&self) -> &[u8]
        ensures { result.now ≡ lent_line self.now }
    {
        let (from, to) = (self.from, self.to);
        let block = self.block.as_slice();
        &block[from..to]
    }

    /// The source. What was read ahead is lost.
    pub fn into_source(self) -> S
        ensures { result ≡ line_source self }
    {
        self.source
    }

    /// Takes the line that the unread bytes begin with. False: they have no newline.
    #[inline]
    fn take_line(&mut self) -> bool
        ensures line { result ≡ true → NoNewline (lent_line self.new) }
        ensures short { result ≡ true → length (lent_line self.new) < BLOCK_LEN }
        ensures taken { result ≡ true
            → unread_of self.old ≡ lent_line self.new ++ 10 ∷ unread_of self.new }
        ensures none { result ≡ false → NoNewline (unread_of self.old) }
        ensures same { result ≡ false → self.new ≡ self.old }
        ensures source { line_source self.new ≡ line_source self.old }
    {
        let (start, end) = (self.start, self.end);
        let len = line_len(&self.block[start..end]);
        if len == end - start {
            return false;
        }
        self.from = start;
        self.to = start + len;
        self.start = start + len + 1;
        true
    }

    /// Takes all unread bytes.
    fn take_rest(&mut self)
        ensures line { lent_line self.new ≡ unread_of self.old }
        ensures unread { unread_of self.new ≡ [] }
        ensures source { line_source self.new ≡ line_source self.old }
    {
        self.from = self.start;
        self.to = self.end;
        self.start = self.end;
    }

    /// Moves the unread bytes to the block's front.
    fn move_front(&mut self)
        ensures unread { unread_of self.new ≡ unread_of self.old }
        ensures source { line_source self.new ≡ line_source self.old }
        ensures start { self.new.start ≡ 0 }
    {
        let (start, end) = (self.start, self.end);
        self.block.as_mut_slice().copy_within(start..end, 0);
        self.from = 0;
        self.to = 0;
        self.start = 0;
        self.end = end - start;
    }

    /// Reads once, after the unread bytes. False: nothing came, and the source has ended.
    fn read_behind(&mut self) -> Result<bool, DeviceFault>
        requires { self.old.end < BLOCK_LEN }
        ensures kept { Keeps (lines_left S.remaining self.old) (lines_left S.remaining self.new) }
        ensures start { self.new.start ≡ self.old.start }
        ensures more { IfOk result (λ some. some ≡ true → self.old.end < self.new.end) }
        ensures none { IfOk result (λ some. some ≡ false
            → (unread_of self.new ≡ unread_of self.old) × IsAtEnd (S.remaining (line_source self.new))) }
        ensures no_failure { OnOk result
            (S.failures (line_source self.new) ≡ S.failures (line_source self.old)) }
        ensures fault { OnErr result (CountsFailure
            (S.failures (line_source self.old)) (S.failures (line_source self.new))) }
        ensures same { OnErr result (unread_of self.new ≡ unread_of self.old) }
    {
        let n = self.source.read(&mut self.block[self.end..])?;
        self.end += n;
        Ok(n > 0)
    }

    /// Goes on where the unread bytes have no newline.
    #[cold]
    #[inline(never)]
    fn advance_across(&mut self) -> Result<LineFound, DeviceFault>
        requires { NoNewline (unread_of self.old) }
        ensures found { IfOk result (IsNextLine (lines_left S.remaining self.old)
            (lines_left S.remaining self.new) (lent_line self.new)) }
        ensures no_failure { OnOk result
            (S.failures (line_source self.new) ≡ S.failures (line_source self.old)) }
        ensures fault { OnErr result (CountsFailure
            (S.failures (line_source self.old)) (S.failures (line_source self.new))) }
        ensures kept { OnErr result
            (Keeps (lines_left S.remaining self.old) (lines_left S.remaining self.new)) }
        ensures unfinished { OnErr result (NoNewline (unread_of self.new)) }
    {
        self.move_front();
        while self.end < BLOCK_LEN {
            if !self.read_behind()? {
                return Ok(self.last());
            }
            if self.take_line() {
                return Ok(LineFound::Line);
            }
        }
        self.take_rest();
        Ok(LineFound::Long)
    }

    /// The unread bytes where the source has ended: a last line, or none.
    fn last(&mut self) -> LineFound
        requires line { NoNewline (unread_of self.old) }
        requires short { length (unread_of self.old) < BLOCK_LEN }
        requires end { IsAtEnd (S.remaining (line_source self.old)) }
        ensures found { IsNextLine (lines_left S.remaining self.old)
            (lines_left S.remaining self.new) (lent_line self.new) result }
        ensures source { line_source self.new ≡ line_source self.old }
    {
        let some = self.start < self.end;
        self.take_rest();
        if some {
            LineFound::Unended
        } else {
            LineFound::End
        }
    }
}
