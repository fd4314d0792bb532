//! Columns and tables.
ghost use Rattle.std.specs.Prelude.{◌≡◌};
ghost use Rattle.gufi_select.specs.Columns.{is_text_column, is_in_table};

use gufi_base::Meta;

/// What a column tells of a row.
#[derive(Clone, Copy)]
pub enum Column {
    Path,
    /// The last component of the path; the root's is `/`.
    Name,
    /// The letter of the type.
    Kind,
    Inode,
    Mode,
    Nlink,
    Uid,
    Gid,
    /// In bytes.
    Size,
    Blksize,
    /// Of 512 bytes.
    Blocks,
    /// In seconds since the epoch, like the other times.
    Atime,
    Mtime,
    Ctime,
    Linkname,
    /// The names of extended attributes, joined by single commas. `*` leaves them out.
    Xattrs,
    /// How many components the row lies below the start of the query.
    Level,
}

impl Column {
    /// Whether its values are texts. The others are numbers.
    pub(crate) fn is_text(self) -> bool
        ensures { result ≡ is_text_column self }
    {
        matches!(
            self,
            Column::Path | Column::Name | Column::Kind | Column::Linkname | Column::Xattrs
        )
    }
}

/// Which rows there are.
#[derive(Clone, Copy)]
pub enum Table {
    /// Those that are no directories.
    Entries,
    /// Those of the directories.
    Summary,
    Rows,
}

impl Table {
    /// Whether it has the row of a record.
    #[inline]
    pub(crate) fn has(self, meta: &Meta) -> bool
        ensures { result ≡ is_in_table self meta.now }
    {
        match self {
            Table::Entries => !meta.kind.is_dir(),
            Table::Summary => meta.kind.is_dir(),
            Table::Rows => true,
        }
    }
}
