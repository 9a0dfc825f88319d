//! The verdict on a run: would it be sound?

ghost use Rattle.std.specs.Prelude.{◌≡◌};
ghost use Rattle.check_answer.specs.Verdict.{is_sound};

use crate::answer::{Answer, TapAnswer};
use pcap_io::Ending;

/// How many faults there are, and how many questions.
#[derive(Clone, Copy)]
pub struct Verdict {
    pub faults: usize,
    pub questions: usize,
}

impl Verdict {
    /// Would a run be sound? There is no fault, and no question.
    pub fn is_sound(&self) -> bool
        ensures { result ≡ is_sound self.now }
    {
        self.faults == 0 && self.questions == 0
    }
}

/// Does a recording end in its middle: are frames there that aren't read?
pub fn ends_bad(tap: Option<TapAnswer<'_>>) -> bool {
    match tap {
        Some(tap) => matches!(tap.recorded.ending, Ending::Bad(..)),
        None => false,
    }
}

/// How many files of a recording are torn.
fn torn(tap: Option<TapAnswer<'_>>) -> usize {
    tap.map_or(0, |tap| tap.tap.count_torn())
}

/// The verdict of all that was found.
pub fn verdict_of(answer: &Answer<'_>) -> Verdict {
    let torn = torn(answer.a).saturating_add(torn(answer.b));
    let mut faults = answer.faults.len().saturating_add(torn);
    for filter in answer.filters {
        if filter.loaded.is_err() {
            faults = faults.saturating_add(1);
        }
    }
    for is_fault in [
        answer.unread.is_some(),
        ends_bad(answer.a),
        ends_bad(answer.b),
    ] {
        if is_fault {
            faults = faults.saturating_add(1);
        }
    }
    Verdict {
        faults,
        questions: answer.questions.len(),
    }
}
