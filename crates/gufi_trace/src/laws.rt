//! What holds of all traces.

ghost use Rattle.gufi_trace.specs.TraceTrees.{TracesMeanSoundTrees};

/// The law of traces that are read: each that means a tree means one with well-formed records of the program's types,
/// within the limits, and with paths that aren't too long, but for one byte where the trace begins at `/`.
pub fn traces_mean_sound_trees()
    ensures { TracesMeanSoundTrees }
{}
