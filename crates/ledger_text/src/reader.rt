//! Reads a ledger line by line.
ghost use Rattle.std.specs.Prelude.{◌≡◌, ◌≤◌};
ghost use Rattle.ledger_text.specs.Places.{stage_after};
ghost use Rattle.ledger_text.specs.declared.bounds.TheConstants.{MAX_LINES};

use crate::bounds::MAX_LINES;
use crate::fault::{LineFault, ReadFault};
use crate::lines::{LineFound, LineSource, LinesRefused};
use crate::order::{Counts, LedgerLine, LedgerStage, read_line};
use pcap_io::TapSource;
use std::alloc::Global;

/// Where a ledger ends that has no line `total`: its run was stopped, or goes on.
#[derive(Clone, Copy, PartialEq, Eq)]
pub struct LedgerStop {
    /// How many whole lines stand, with the head.
    pub lines: u64,
    /// Does the next line begin after them? It has no newline then.
    pub within_line: bool,
}

/// The next thing that a reader finds.
#[derive(Clone, Copy, PartialEq, Eq)]
pub enum FoundLine {
    /// A line, whose bytes the reader lends.
    Line(LedgerLine),
    /// The end, after the line `total`.
    Complete,
    /// The end of a ledger that has no line `total`. What stands of a line without a newline is lent.
    Incomplete(LedgerStop),
}

/// The stage before the line after this one.
#[inline]
fn stage_after(line: &LedgerLine) -> LedgerStage
    ensures { result ≡ stage_after line.now }
{
    match line {
        LedgerLine::Head(version) => LedgerStage::Frames(*version),
        LedgerLine::Frame(frame) => LedgerStage::Frames(frame.version()),
        LedgerLine::Counts(counts) => LedgerStage::Counts(*counts),
    }
}

/// A ledger that is read line by line.
#[derive(Drop)]
pub struct LedgerReader<S> {
    lines: LineSource<S>,
    stage: LedgerStage,
    /// How many lines were read.
    number: u64,
    failed: bool,
    ghost few: { number ≤ MAX_LINES },
}

impl<S: TapSource> LedgerReader<S> {
    ghost use Rattle.std.specs.Prelude.{◌≡◌, ◌+◌, [], IfOk, IfErr, OnOk, OnErr, true, false, Err};
    ghost use Rattle.std.specs.Io.KnownBytes.{Keeps};
    ghost use Rattle.ledger_text.specs.Lines.{lent_line, line_source, lines_left, unread_of};
    ghost use Rattle.ledger_text.specs.Reader.{IsFound, IsReadFault, reading_of, source_of};
    ghost use Rattle.ledger_text.specs.Places.{IsEnd, IsRead, IsReadRefused, IsUnended, has_total};
    ghost use Rattle.ledger_text.specs.declared.fault.ReadFault.TheVariants as faults;
    ghost use Rattle.ledger_text.specs.declared.order.LedgerStage.TheVariants as stages;

    /// A reader of which nothing is read yet. Allocates a block of 64 KiB; where there is no memory for it
    /// the source comes back.
    pub fn new(alloc: Global, source: S) -> Result<LedgerReader<S>, LinesRefused<S>>
        ensures source { IfOk result (λ reader. source_of reader ≡ source) }
        ensures unread { IfOk result (λ reader. unread_of reader.lines ≡ []) }
        ensures start { IfOk result (λ reader. (reader.stage ≡ stages.Head)
            × (reader.number ≡ 0) × (reader.failed ≡ false)) }
        ensures refused { IfErr result (λ refused. refused.source ≡ source) }
    {
        Ok(LedgerReader {
            lines: LineSource::new(alloc, source)?,
            stage: LedgerStage::Head,
            number: 0,
            failed: false,
        })
    }

    /// Goes on to the next line, whose bytes `line` lends, or finds the end, which is found again at each
    /// later call. After a fault each later call returns `Failed`. Allocates nothing.
    pub fn advance(&mut self) -> Result<FoundLine, ReadFault>
        ensures found { self.old.failed ≡ false → IfOk result (IsFound
            (reading_of S.remaining S.failures self.old) (reading_of S.remaining S.failures self.new)
            (lent_line self.new.lines)) }
        ensures fault { self.old.failed ≡ false → IfErr result (IsReadFault
            (reading_of S.remaining S.failures self.old) (reading_of S.remaining S.failures self.new)
            (lent_line self.new.lines) (unread_of self.new.lines)) }
        ensures sound { self.old.failed ≡ false → OnOk result (self.new.failed ≡ false) }
        ensures broken { OnErr result (self.new.failed ≡ true) }
        ensures failed { self.old.failed ≡ true → (result ≡ Err faults.Failed) × (self.new ≡ self.old) }
    {
        if self.failed {
            return Err(ReadFault::Failed);
        }
        let answer = self.find();
        self.failed = answer.is_err();
        answer
    }

    /// Finds the next line or the end.
    #[inline(always)]
    fn find(&mut self) -> Result<FoundLine, ReadFault>
        ensures found { IfOk result (IsFound
            (reading_of S.remaining S.failures self.old) (reading_of S.remaining S.failures self.new)
            (lent_line self.new.lines)) }
        ensures fault { IfErr result (IsReadFault
            (reading_of S.remaining S.failures self.old) (reading_of S.remaining S.failures self.new)
            (lent_line self.new.lines) (unread_of self.new.lines)) }
    {
        match self.lines.advance()? {
            LineFound::Line => self.read(),
            LineFound::End => Ok(self.end(false)),
            LineFound::Unended => self.unended(),
            LineFound::Long => Err(self.fault(LineFault::Long)),
        }
    }

    /// Reads the line that was found.
    #[inline(always)]
    fn read(&mut self) -> Result<FoundLine, ReadFault>
        ensures found { IfOk result (IsRead self.old.stage self.old.number (lent_line self.old.lines)
            self.new.stage self.new.number) }
        ensures fault { IfErr result (IsReadRefused self.old.stage self.old.number
            (lent_line self.old.lines)) }
        ensures same { OnErr result ((self.new.stage ≡ self.old.stage)
            × (self.new.number ≡ self.old.number)) }
        ensures lines { self.new.lines ≡ self.old.lines }
    {
        if self.number == MAX_LINES {
            return Err(self.fault(LineFault::TooMany));
        }
        match read_line(self.stage, self.lines.line()) {
            Ok(line) => {
                self.stage = stage_after(&line);
                self.number += 1;
                Ok(FoundLine::Line(line))
            }
            Err(fault) => Err(self.fault(fault)),
        }
    }

    /// The fault of the next line.
    fn fault(&self, fault: LineFault) -> ReadFault
        ensures { result ≡ faults.Line (self.now.number + 1) fault }
    {
        ReadFault::Line {
            number: self.number + 1,
            fault,
        }
    }

    /// The end that is met, within a line or not.
    fn end(&self, within_line: bool) -> FoundLine
        ensures { IsEnd self.now.stage self.now.number within_line result }
    {
        match self.stage {
            LedgerStage::Counts(Counts::Total) => FoundLine::Complete,
            _ => FoundLine::Incomplete(LedgerStop {
                lines: self.number,
                within_line,
            }),
        }
    }

    /// The find of a last line without a newline. After the line `total` nothing may stand.
    fn unended(&self) -> Result<FoundLine, ReadFault>
        ensures { IsUnended self.now.stage self.now.number result }
    {
        match self.end(true) {
            FoundLine::Complete => Err(self.fault(LineFault::Newline)),
            end => Ok(end),
        }
    }

    /// The line that was found last, without its newline.
    #[inline]
    pub fn line(&self) -> &[u8]
        ensures { result.now ≡ lent_line self.now.lines }
    {
        self.lines.line()
    }

    /// The number of the line that was found last, counted from 1: that of the head.
    #[inline]
    pub fn number(&self) -> u64
        ensures { result ≡ self.now.number }
    {
        self.number
    }

    /// The source. What was read ahead is lost.
    pub fn into_source(self) -> S
        ensures { result ≡ source_of self }
    {
        self.lines.into_source()
    }
}
