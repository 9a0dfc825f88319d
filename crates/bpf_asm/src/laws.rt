//! Laws of sources and their programs, each the contract of a call that does nothing.

ghost use Rattle.bpf_asm.specs.Laws.{ListingsAssembleAgain, OneProgram, StepsAlike};

/// A source means its program: from each state, on each frame, a statement has the step of its
/// instruction. What a statement does is defined by its text and its labels, without codes and
/// distances.
pub fn statements_mean_their_instructions()
    ensures { StepsAlike }
{}

/// A text is source of one program at most. So the program of a text doesn't depend on how it is read.
pub fn text_has_one_program()
    ensures { OneProgram }
{}

/// The listing of a loaded program is source of that program, and so of no other: assembled again, it
/// gives the same instructions.
pub fn listing_is_source_of_its_program()
    ensures { ListingsAssembleAgain }
{}
