//! Laws of what is written.
ghost use Rattle.gufi_top.specs.Laws.{WalkWritesTheListedRows, FindWritesTheListedRows, FindWritesTheListedRowsBehindItsPrefix, DiffWritesTheChanges, DiffsArePrivate, AnswerableCommandsAreAnswered, GenIsNeverRefused, TracesComeBackFromImages, IndexesComeBackFromTraces, ImagesComeBackFromTraces, RefreshWritesTheImageOfItsTree};

use gufi_gen::generated_traces_are_read;
use gufi_image::{images_have_one_spelling, written_images_read_back};
use gufi_trace::{traces_mean_sound_trees, written_traces_read_back};

/// `walk` writes exactly the rows that its user lists by walking from the root, each once, in path order.
pub fn walk_writes_the_listed_rows()
    ensures { WalkWritesTheListedRows }
{}

/// `find` writes exactly those rows that its user lists by walking from the start, each once, in path order, for which the
/// expression is true.
pub fn find_writes_the_listed_rows()
    ensures { FindWritesTheListedRows }
{}

/// `find --prefix` writes exactly those rows, each once, in path order, behind its prefix.
pub fn find_writes_the_listed_rows_behind_its_prefix()
    ensures { FindWritesTheListedRowsBehindItsPrefix }
{}

/// `diff` writes exactly the changes from what its user lists from the start in one index to what he lists in the other, in path
/// order.
pub fn diff_writes_the_changes()
    ensures { DiffWritesTheChanges }
{}

/// `diff` tells its user nothing of what he can't list in either index.
pub fn diffs_are_private()
    ensures { DiffsArePrivate }
{}

/// Completeness: nothing is refused of a command whose words and files are good and whose start is found. Its text is whole, or it
/// is a session that no file ends.
pub fn answerable_commands_are_answered()
    ensures { AnswerableCommandsAreAnswered }
{}

/// `gen` is never refused behind its words: a generated trace is read, and its root may be listed.
pub fn gen_is_never_refused()
    ensures { GenIsNeverRefused }
{
    generated_traces_are_read();
}

/// The image of a trace's tree means that tree, where no path is too long.
pub fn traces_come_back_from_images()
    ensures { TracesComeBackFromImages }
{
    traces_mean_sound_trees();
    written_images_read_back();
}

/// What `index2trace` writes of an index means the index's tree.
pub fn indexes_come_back_from_traces()
    ensures { IndexesComeBackFromTraces }
{
    traces_mean_sound_trees();
    written_traces_read_back();
    images_have_one_spelling();
}

/// The image of an image's trace, under the image's limit, is the image.
pub fn images_come_back_from_traces()
    ensures { ImagesComeBackFromTraces }
{
    written_traces_read_back();
    images_have_one_spelling();
}

/// `refresh` writes the image, under its limit, of the tree in which the trace's stands in place of a directory.
pub fn refresh_writes_the_image_of_its_tree()
    ensures { RefreshWritesTheImageOfItsTree }
{}
