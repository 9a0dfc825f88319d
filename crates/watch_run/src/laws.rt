//! Laws of any two runs, and of any ledger that is written and read, which hold by their definitions alone.

ghost use Rattle.watch_run.specs.Laws.{SameBytesInSameBytesOut};
ghost use Rattle.watch_run.specs.ReadBack.{NoEndIsFoundBefore, NoLineIsRefused, ReadsFirstLines};
ghost use Rattle.watch_run.specs.ReadBack.{VerdictsAreShown, WrittenLedgerIsRead};
ghost use Rattle.watch_run.specs.RunLedger.{RunLedgerIsRead};

/// Two whole runs with the same filters and table over the same bytes write the same bytes. So what
/// [`watch`](crate::watch) writes is what [`watch_whole`](crate::watch_whole) writes, for any number of
/// workers and however their threads run.
pub fn same_bytes_in_same_bytes_out()
    ensures { SameBytesInSameBytesOut }
{}

/// A written ledger is whole lines, one after another: the head, what the line of each frame shows, and the
/// lines of counts, the last of which is that of all frames.
pub fn written_ledger_is_read()
    ensures { WrittenLedgerIsRead }
{}

/// So is the ledger of a run: it has the lines of all frames, with what filters and judgements say of each.
pub fn run_ledger_is_read()
    ensures { RunLedgerIsRead }
{}

/// The lines of frames with the verdicts of `vl_judge` read as what they show.
pub fn verdicts_are_shown()
    ensures { VerdictsAreShown }
{}

/// The lines that were read of whole lines are the first of these, and the others are left: so of a written
/// ledger nothing else is read.
pub fn reads_first_lines()
    ensures { ReadsFirstLines }
{}

/// A reader refuses no line of them, unless it has read as many as it may, and finds no end before `total`.
pub fn written_lines_are_not_refused()
    ensures lines { NoLineIsRefused }
    ensures end { NoEndIsFoundBefore }
{}
