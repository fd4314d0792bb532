//! What is shown of rows.

ghost use Rattle.std.specs.Prelude.{◌≡◌};
ghost use Rattle.gufi_base.specs.declared.record.Row.{Row};
ghost use Rattle.gufi_base.specs.Rows.{Stands, StandsForSome};

use crate::record::RowRef;

/// How rows are shown before a question is put to them.
pub trait View {
    /// What is shown of a row.
    ghost shows: { Self → Row → Row };

    /// The path is shown.
    ghost same_path: { (view : Self) (row : Row) → (shows view row).path ≡ row.path };

    /// So is what the file system says of the file.
    ghost same_meta: { (view : Self) (row : Row) → (shows view row).rec.meta ≡ row.rec.meta };

    /// And the target of a link.
    ghost same_link: { (view : Self) (row : Row) → (shows view row).rec.link ≡ row.rec.link };

    /// The row as it is shown. Takes no memory.
    fn view<'a>(&self, row: RowRef<'a>) -> RowRef<'a>
        requires { StandsForSome row }
        ensures { (of : Row) → Stands row.entry of → Stands result (shows self.now of) };
}

/// Rows as they are.
#[derive(Clone, Copy, Debug)]
pub struct AsItIs;

impl View for AsItIs {
    ghost use Rattle.std.specs.Prelude.{refl};

    ghost shows = { λ _ row. row };

    ghost same_path = { λ _ _. refl };

    ghost same_meta = { λ _ _. refl };

    ghost same_link = { λ _ _. refl };

    fn view<'a>(&self, row: RowRef<'a>) -> RowRef<'a> {
        row
    }
}
