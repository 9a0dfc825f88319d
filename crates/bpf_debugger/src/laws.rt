//! Laws of every run and session, by the definitions alone. Each law is the contract of a call that
//! does nothing.

ghost use Rattle.bpf_debugger.specs.Chain.{EachChainIsItsRun};
ghost use Rattle.bpf_debugger.specs.Laws.{EachSessionIsAFold};

/// The entries that a session shows are those of the filter's one run on the frame
/// (`bpf_machine::one_run`): the start state, each state by the specified step from the one before,
/// and the return value.
pub fn chain_is_the_run()
    ensures { EachChainIsItsRun }
{}

/// After any commands a session is in the state to which those lead that weren't refused.
pub fn session_is_a_fold()
    ensures { EachSessionIsAFold }
{}
