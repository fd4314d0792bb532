//! Showing a page.
ghost use Rattle.std.specs.Prelude.{◌≡◌, ◌⊎◌};
ghost use Rattle.gufi_pages.specs.Shown.{IsShown, CutShort};

use gufi_io::{Sink, write_whole};

/// Writes a page whole, with status 0. Where the output fails the status is 4, and the note says so.
pub fn show<K: Sink>(text: &str, out: &mut K, notes: &mut K) -> u8
    ensures status { (result ≡ 0) ⊎ (result ≡ 4) }
    ensures whole { result ≡ 0 → IsShown K.Sink out.old out.new notes.old notes.new text.now }
    ensures cut { result ≡ 4 → CutShort K.Sink out.old out.new notes.old notes.new text.now }
{
    if write_whole(out, text.as_bytes()).is_ok() {
        return 0;
    }
    // Where that note fails too, only the status is left to tell.
    let _ = write_whole(notes, b"gufi: write fault\n");
    4
}
