//! Laws of every source text, by the definitions alone. Each law is the contract of a call that
//! does nothing.

ghost use Rattle.bpf_text.specs.Laws.{OneReading, LeavesWhatMayFollow};

/// A text has one reading: it is source of one list of statements, or it has one fault.
pub fn text_has_one_reading(text: &str)
    ensures { OneReading text.now }
{}

/// The rest of a statement's form after some tokens is what may follow them, and a token that is
/// refused there can't follow them.
pub fn form_leaves_what_may_follow()
    ensures { LeavesWhatMayFollow }
{}
