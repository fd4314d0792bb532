//! What holds of all generated traces.

ghost use Rattle.gufi_gen.specs.Laws.{GeneratedTracesAreRead, GeneratedRootsAreListed};

/// The laws of generated traces: each is read, and everybody may list its root.
pub fn generated_traces_are_read()
    ensures read { GeneratedTracesAreRead }
    ensures listed { GeneratedRootsAreListed }
{}
