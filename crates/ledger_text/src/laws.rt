//! Laws of a ledger's text, which hold of the definitions alone.
ghost use Rattle.ledger_text.specs.Laws.{EntriesReadBack, LineReadsOneWay};

/// A line is the text of the values of one frame's line at most.
pub fn line_reads_one_way()
    ensures { LineReadsOneWay }
{}

/// An entry that a ledger writes reads back as the line that shows it, and no other line does.
pub fn entries_read_back()
    ensures { EntriesReadBack }
{}
