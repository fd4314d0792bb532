//! Reading token by token.
ghost use Rattle.std.specs.Prelude.{◌≡◌, IfOk};
ghost use Rattle.gufi_select.specs.Reading.{select_start, column_named, table_named, all_columns, with_column, read_select_word, read_first_column, read_next_column, read_comma_or_from, read_from_word, read_table_name, read_where_or_end, may_end};
ghost use Rattle.gufi_select.specs.States.{state_kept};
ghost use Rattle.gufi_select.specs.TokenFaults.{Gives};

use crate::column::{Column, Table};
use crate::condition::Condition;
use crate::fault::{SelectKind, TokenFault};
use crate::place::Place;
use crate::token::{Sign, Token};
use crate::word::{Keyword, Word};
use gufi_base::Bytes;
use gufi_formula::OpenLevels;
use std::alloc::{AllocError, Global};

/// The REGEXP that was read: its pattern, and the offset of that.
#[derive(Drop)]
pub struct Sought {
    pub offset: usize,
    pub column: Column,
    pub pattern: Bytes,
}

/// What is wanted next, what was read, and what stands open.
#[derive(Drop)]
pub(crate) struct State {
    pub(crate) place: Place,
    pub(crate) columns: Vec<Column>,
    pub(crate) table: Table,
    pub(crate) levels: OpenLevels<Condition>,
    pub(crate) regexp: Option<Sought>,
}

/// The columns of `*`.
const ALL_COLUMNS: [Column; 16] = [
    Column::Path,
    Column::Name,
    Column::Kind,
    Column::Inode,
    Column::Mode,
    Column::Nlink,
    Column::Uid,
    Column::Gid,
    Column::Size,
    Column::Blksize,
    Column::Blocks,
    Column::Atime,
    Column::Mtime,
    Column::Ctime,
    Column::Linkname,
    Column::Level,
];

pub(crate) fn column_named(token: &Token) -> Result<Column, TokenFault>
    ensures { Gives (λ c. c) result (column_named token.now) }
{
    match token {
        Token::Word(Word::OfColumn(column)) => Ok(*column),
        Token::Word(Word::OfTable(_) | Word::Unknown) => {
            Err(TokenFault::Kind(SelectKind::UnknownColumn))
        }
        _ => Err(TokenFault::Kind(SelectKind::Unexpected)),
    }
}

fn table_named(token: &Token) -> Result<Table, TokenFault>
    ensures { Gives (λ t. t) result (table_named token.now) }
{
    match token {
        Token::Word(Word::OfTable(table)) => Ok(*table),
        Token::Word(Word::OfColumn(_) | Word::Unknown) => {
            Err(TokenFault::Kind(SelectKind::UnknownTable))
        }
        _ => Err(TokenFault::Kind(SelectKind::Unexpected)),
    }
}

impl State {
    pub(crate) fn new(alloc: Global) -> State
        ensures { state_kept result ≡ select_start }
    {
        State {
            place: Place::SelectWord,
            columns: Vec::new(alloc),
            table: Table::Rows,
            levels: OpenLevels::new(alloc),
            regexp: None,
        }
    }

    /// The same with another place.
    pub(crate) fn wanting(self, place: Place) -> State
        ensures { state_kept result ≡ record (state_kept self) { place = place } }
    {
        State {
            place,
            columns: self.columns,
            table: self.table,
            levels: self.levels,
            regexp: self.regexp,
        }
    }

    /// One column more.
    fn with_column(self, column: Column) -> Result<State, AllocError>
        ensures { IfOk result (λ s. state_kept s ≡ with_column (state_kept self) column) }
    {
        let mut columns = self.columns;
        columns.push(column)?;
        Ok(State {
            place: Place::CommaOrFrom,
            columns,
            table: self.table,
            levels: self.levels,
            regexp: self.regexp,
        })
    }

    /// `*`
    fn with_all_columns(self, alloc: Global) -> Result<State, AllocError>
        ensures { IfOk result (λ s. state_kept s ≡ record (state_kept self) { place = Place.FromWord; columns = all_columns }) }
    {
        let columns = Vec::from_slice(alloc, &ALL_COLUMNS)?;
        Ok(State {
            place: Place::FromWord,
            columns,
            table: self.table,
            levels: self.levels,
            regexp: self.regexp,
        })
    }

    pub(crate) fn at_select_word(self, token: &Token) -> Result<State, TokenFault>
        ensures { Gives state_kept result (read_select_word (state_kept self) token.now) }
    {
        match token {
            Token::Word(Word::OfGrammar(Keyword::Select)) => Ok(self.wanting(Place::FirstColumn)),
            _ => Err(TokenFault::Kind(SelectKind::Unexpected)),
        }
    }

    pub(crate) fn at_next_column(self, token: &Token) -> Result<State, TokenFault>
        ensures { Gives state_kept result (read_next_column (state_kept self) token.now) }
    {
        let column = column_named(token)?;
        Ok(self.with_column(column)?)
    }

    pub(crate) fn at_first_column(self, alloc: Global, token: &Token) -> Result<State, TokenFault>
        ensures { Gives state_kept result (read_first_column (state_kept self) token.now) }
    {
        match token {
            Token::Sign(Sign::Star) => Ok(self.with_all_columns(alloc)?),
            _ => self.at_next_column(token),
        }
    }

    pub(crate) fn at_from_word(self, token: &Token) -> Result<State, TokenFault>
        ensures { Gives state_kept result (read_from_word (state_kept self) token.now) }
    {
        match token {
            Token::Word(Word::OfGrammar(Keyword::From)) => Ok(self.wanting(Place::TableName)),
            _ => Err(TokenFault::Kind(SelectKind::Unexpected)),
        }
    }

    pub(crate) fn at_comma_or_from(self, token: &Token) -> Result<State, TokenFault>
        ensures { Gives state_kept result (read_comma_or_from (state_kept self) token.now) }
    {
        match token {
            Token::Sign(Sign::Comma) => Ok(self.wanting(Place::NextColumn)),
            _ => self.at_from_word(token),
        }
    }

    pub(crate) fn at_table_name(self, token: &Token) -> Result<State, TokenFault>
        ensures { Gives state_kept result (read_table_name (state_kept self) token.now) }
    {
        let table = table_named(token)?;
        Ok(State {
            place: Place::WhereOrEnd,
            columns: self.columns,
            table,
            levels: self.levels,
            regexp: self.regexp,
        })
    }

    pub(crate) fn at_where_or_end(self, token: &Token) -> Result<State, TokenFault>
        ensures { Gives state_kept result (read_where_or_end (state_kept self) token.now) }
    {
        match token {
            Token::Word(Word::OfGrammar(Keyword::Where)) => Ok(self.wanting(Place::Term)),
            Token::Sign(Sign::Semicolon) => Ok(self.wanting(Place::End)),
            _ => Err(TokenFault::Kind(SelectKind::Unexpected)),
        }
    }

    /// Whether the text may end here.
    pub(crate) fn may_end(&self) -> bool
        ensures { result ≡ may_end self.now.place (state_kept self.now) }
    {
        match self.place {
            Place::WhereOrEnd | Place::End => true,
            Place::Connective => self.levels.is_outermost(),
            _ => false,
        }
    }
}
