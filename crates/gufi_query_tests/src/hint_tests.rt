use crate::asking::{assert_answers, expression};
use gufi_base::Hint;
use gufi_find::FindExpr;
use gufi_select::{Select, read_select};
use std::alloc::Global;
use std::test::Fail;

/// Hints as they print, with a space between two.
fn printed(alloc: Global, hints: &[Hint]) -> Result<String, Fail> {
    let mut text = String::new(alloc);
    for hint in hints {
        if !text.is_empty() {
            text.push(' ')?;
        }
        text.push_str(&format!(in alloc; "{hint:?}")?)?;
    }
    Ok(text)
}

fn hints_of_expression(alloc: Global, expression: &FindExpr) -> Result<String, Fail> {
    let hints = expression.hints(alloc)?;
    printed(alloc, hints.as_slice())
}

fn hints_of_words(alloc: Global, words: &str) -> Result<String, Fail> {
    let expression = expression(alloc, words)?;
    hints_of_expression(alloc, &expression)
}

/// The hints of an expression, and its words. The moment is second 200,000, ana is user 1001, and lab is group 500.
fn expressions() -> &'static str {
    "\
SizeIn(0, 18446744073709551615);
Kind(Dir);-type d
SizeIn(0, 0);-size 0
SizeIn(1, 512);-size 1
SizeIn(2049, 3072);-size 3k
SizeIn(1, 18446744073709551615);-size +0c
SizeIn(1, 0);-size -0
SizeIn(0, 512);-size -2
SizeIn(18446744073709551615, 18446744073709551615);-size 18446744073709551615c
SizeIn(1, 0);-size +18446744073709551615c
SizeIn(18446744073709551105, 18446744073709551615);-size 36028797018963968
SizeIn(1, 0);-size 18446744073709551615G
SizeIn(0, 18446744073709551615);-size -18446744073709551615G
MtimeIn(113601, 286399);-mtime 0
MtimeIn(27201, 113600);-mtime 1
MtimeIn(-9223372036854775808, 27200);-mtime +1
MtimeIn(113601, 9223372036854775807);-mtime -1
MtimeIn(286400, 9223372036854775807);-mtime -0
MtimeIn(1, 0);-mtime +18446744073709551615
MtimeIn(-9223372036854775808, 9223372036854775807);-mtime -18446744073709551615
UidIn(1001, 1001);-user ana
GidIn(500, 500);-group lab
Unknown;-atime 0
Kind(File) Not;! -type f
Kind(File) SizeIn(0, 0) And Unknown Or;-type f -size 0 -o -name x
Kind(File) SizeIn(0, 0) Unknown Or And;-type f ( -size 0 -o -links 2 )
Unknown Kind(Link) And;-maxdepth 1 -type l
"
}

#[test]
fn expressions_tell_what_sums_bound(rt: HostRuntime) -> Result<(), Fail> {
    assert_answers(&rt, expressions(), hints_of_words)
}

fn hints_of_select(alloc: Global, select: &Select) -> Result<String, Fail> {
    let hints = select.hints(alloc)?;
    printed(alloc, hints.as_slice())
}

/// The text that asks for all columns of a table, where a condition is true, if there is one.
fn select_text(alloc: Global, table: &str, condition: &str) -> Result<String, Fail> {
    if condition.is_empty() {
        return Ok(format!(in alloc; "SELECT * FROM {table}")?);
    }
    Ok(format!(in alloc; "SELECT * FROM {table} WHERE {condition}")?)
}

/// The hints of a SELECT from a table with a condition, behind a semicolon.
fn hints_of_rows(alloc: Global, asked: &str) -> Result<String, Fail> {
    let (table, condition) = asked.split_once(';').ok_or("condition")?;
    let text = select_text(alloc, table, condition)?;
    let select = read_select(alloc, text.as_bytes())?;
    hints_of_select(alloc, &select)
}

/// The hints of a SELECT, its table, and its condition, where it has one.
fn selects() -> &'static str {
    "\
SizeIn(0, 18446744073709551615);rows;
Kind(Dir) Not;entries;
Kind(Dir);summary;
SizeIn(7, 7);rows;size = 7
SizeIn(7, 7) Not;rows;size <> 7
SizeIn(7, 7) Not;rows;size != 7
SizeIn(0, 6);rows;size < 7
SizeIn(1, 0);rows;size < 0
SizeIn(0, 0);rows;size <= 0
SizeIn(8, 18446744073709551615);rows;size > 7
SizeIn(1, 0);rows;size > 18446744073709551615
SizeIn(18446744073709551615, 18446744073709551615);rows;size >= 18446744073709551615
SizeIn(1, 0);rows;size = -1
SizeIn(0, 18446744073709551615);rows;size >= -5
MtimeIn(-5, -5);rows;mtime = -5
MtimeIn(-9223372036854775808, -6);rows;mtime < -5
MtimeIn(1, 0);rows;mtime < -9223372036854775808
MtimeIn(1, 0);rows;mtime > 9223372036854775807
MtimeIn(1, 0);rows;mtime = 9223372036854775808
UidIn(0, 4294967295);rows;uid <= 4294967295
UidIn(1, 0);rows;uid = 4294967296
GidIn(4294967295, 4294967295);rows;gid > 4294967294
Kind(File);rows;type = 'f'
Kind(File) Not;rows;type <> 'f'
Unknown;rows;type = 'ff'
Unknown;rows;type <> 'x'
Unknown;rows;type > 'd'
Unknown;rows;level <> 1
Unknown;rows;name REGEXP 'x'
SizeIn(1, 1) Unknown UidIn(2, 2) And Or;rows;size = 1 OR name = 'x' AND uid = 2
SizeIn(1, 1) Unknown Or UidIn(2, 2) And;rows;(size = 1 OR name = 'x') AND uid = 2
SizeIn(1, 1) Not Not;rows;NOT size <> 1
SizeIn(1, 1) UidIn(2, 2) Or Kind(Dir) Not And;entries;size = 1 OR uid = 2
SizeIn(1, 1) Kind(Dir) And;summary;size = 1
"
}

#[test]
fn selects_tell_what_sums_bound(rt: HostRuntime) -> Result<(), Fail> {
    assert_answers(&rt, selects(), hints_of_rows)
}
