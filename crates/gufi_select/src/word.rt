//! What the words of a SELECT name.
ghost use Rattle.std.specs.Prelude.{◌≡◌, bytes_eq};
ghost use Rattle.gufi_base.specs.Basics.{lookup};
ghost use Rattle.gufi_select.specs.Names.{lower, keywords, columns, tables, word_of};

use crate::column::{Column, Table};

/// A word of the grammar itself.
#[derive(Clone, Copy)]
pub enum Keyword {
    Select,
    From,
    Where,
    Or,
    And,
    Not,
    Regexp,
}

/// What a word names, without regard to the case of ASCII letters.
#[derive(Clone, Copy)]
pub enum Word {
    OfGrammar(Keyword),
    OfColumn(Column),
    OfTable(Table),
    Unknown,
}

/// Whether letters are a name, which is in lower case.
#[tactic(auto, using(crate::proofs::WordLemmas::same_name))]
fn is_name(letters: &[u8], name: &[u8]) -> bool
    requires { lower name.now ≡ name.now }
    ensures { result ≡ bytes_eq name.now (lower letters.now) }
{
    letters.eq_ignore_ascii_case(name)
}

fn keyword_of(letters: &[u8]) -> Option<Keyword>
    ensures { result ≡ lookup (lower letters.now) keywords }
{
    match letters {
        _ if is_name(letters, b"select") => Some(Keyword::Select),
        _ if is_name(letters, b"from") => Some(Keyword::From),
        _ if is_name(letters, b"where") => Some(Keyword::Where),
        _ if is_name(letters, b"or") => Some(Keyword::Or),
        _ if is_name(letters, b"and") => Some(Keyword::And),
        _ if is_name(letters, b"not") => Some(Keyword::Not),
        _ if is_name(letters, b"regexp") => Some(Keyword::Regexp),
        _ => None,
    }
}

fn column_of(letters: &[u8]) -> Option<Column>
    ensures { result ≡ lookup (lower letters.now) columns }
{
    match letters {
        _ if is_name(letters, b"path") => Some(Column::Path),
        _ if is_name(letters, b"name") => Some(Column::Name),
        _ if is_name(letters, b"type") => Some(Column::Kind),
        _ if is_name(letters, b"inode") => Some(Column::Inode),
        _ if is_name(letters, b"mode") => Some(Column::Mode),
        _ if is_name(letters, b"nlink") => Some(Column::Nlink),
        _ if is_name(letters, b"uid") => Some(Column::Uid),
        _ if is_name(letters, b"gid") => Some(Column::Gid),
        _ if is_name(letters, b"size") => Some(Column::Size),
        _ if is_name(letters, b"blksize") => Some(Column::Blksize),
        _ if is_name(letters, b"blocks") => Some(Column::Blocks),
        _ if is_name(letters, b"atime") => Some(Column::Atime),
        _ if is_name(letters, b"mtime") => Some(Column::Mtime),
        _ if is_name(letters, b"ctime") => Some(Column::Ctime),
        _ if is_name(letters, b"linkname") => Some(Column::Linkname),
        _ if is_name(letters, b"level") => Some(Column::Level),
        _ if is_name(letters, b"xattrs") => Some(Column::Xattrs),
        _ => None,
    }
}

fn table_of(letters: &[u8]) -> Option<Table>
    ensures { result ≡ lookup (lower letters.now) tables }
{
    match letters {
        _ if is_name(letters, b"entries") => Some(Table::Entries),
        _ if is_name(letters, b"summary") => Some(Table::Summary),
        _ if is_name(letters, b"rows") => Some(Table::Rows),
        _ => None,
    }
}

/// What letters name.
pub(crate) fn word_of(letters: &[u8]) -> Word
    ensures { result ≡ word_of letters.now }
{
    if let Some(keyword) = keyword_of(letters) {
        return Word::OfGrammar(keyword);
    }
    if let Some(column) = column_of(letters) {
        return Word::OfColumn(column);
    }
    if let Some(table) = table_of(letters) {
        return Word::OfTable(table);
    }
    Word::Unknown
}
