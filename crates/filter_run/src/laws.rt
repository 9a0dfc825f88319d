//! Laws of filters' sources, which hold by their definitions alone.

ghost use Rattle.filter_run.specs.Laws.{SourceMeansItsProgram};

/// A filter's source means its program. Where statements are assembled to a program that is loaded,
/// running them by their labels and running the program go through the same states to the same return
/// value, on each frame, and there is no other run. How statements run is defined without codes and
/// distances (`bpf_asm`'s definition of the meaning).
pub fn source_means_its_program()
    ensures { SourceMeansItsProgram }
{}
