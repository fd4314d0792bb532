//! The rules of faults, values, fields and limits, by the names and numbers that notes have.
use crate::rules::Entry;

macro_rules! entries {
    ($(($name:literal $rule:literal))*) => {
        &[$(Entry { name: $name, value: "", rule: $rule }),*]
    };
}

/// What the value of an option must be. One that isn't among them takes any text.
pub const VALUES: &[Entry] = entries! {
    ("--passwd" "the name of a file")
    ("--group" "the name of a file")
    ("--delim" "one byte from 0x20 to 0x7E that is no letter, no digit, and none of / - .")
    ("--limit" "a number below 2^64")
    ("--workers" "a number from 1 to 32")
    ("--now" "a number of seconds, perhaps negative, of 64 bits")
    ("--cache" "a number from 1 to 256")
};

/// The refusals of a start, and of a directory that is to be replaced.
pub const START_KINDS: &[Entry] = entries! {
    ("denied" "search is wanted of each directory on the way, and of the start read too: the class that decides lacks it")
    ("no" "nothing of that name is there; START begins at the root of the index")
    ("not" "what stands there has nothing below it")
    ("there" "no directory of that path is in the index; PATH begins at its root")
};

/// The faults of a word of an expression, and of a query's text as a word.
pub const WORD_KINDS: &[Entry] = entries! {
    ("UnknownPrimary" "a primary is wanted there, as -name, or !, or (")
    ("MissingArgument" "the words end where a primary or its argument is wanted")
    ("BadNumber" "a number is wanted there, perhaps with + or - before it; behind -size perhaps with c, k, M or G behind it; behind -perm four octal digits or fewer")
    ("BadPattern" "a pattern is wanted there, whose [ has its ]")
    ("BadType" "one of d f l b c p s is wanted there")
    ("UnknownUser" "a name of the passwd file, or a number, is wanted there")
    ("UnknownGroup" "a name of the group file, or a number, is wanted there")
    ("Parenthesis" "a ) closes the ( before it, and each ( needs its )")
    ("TooDeep" "at most 64 of ( and ! stand within each other")
    ("NoNow" "-atime, -mtime and -ctime need --now")
    ("Twice" "a column stands once where rows are written by names")
};

/// The faults at an offset of a SELECT.
pub const TEXT_KINDS: &[Entry] = entries! {
    ("Unexpected" "SELECT COLUMN,.. FROM TABLE [WHERE CONDITION] [;] goes on otherwise there")
    ("UnknownColumn" "a column is wanted there")
    ("UnknownTable" "a table is wanted there: entries, summary or rows")
    ("WrongType" "a column of numbers is compared with a number, one of texts with a text in single quotes; REGEXP stands behind one of texts")
    ("LiteralTooBig" "a number is at most 18446744073709551615")
    ("OpenText" "the text that begins there needs its closing quote")
    ("TooDeep" "at most 64 of ( and NOT stand within each other")
    ("SecondRegex" "at most one REGEXP stands in a text")
    ("BadRegex" "the pattern is none of the syntax that REGEXP has")
    ("Head" "SELECT KEY, ITEM, .. FROM is wanted, with uid, gid, type or level as the key")
    ("Tail" "GROUP BY and the same key are wanted at the end")
};

/// The faults of a line of a trace, a passwd or group file, or a script.
pub const LINE_KINDS: &[Entry] = entries! {
    ("Short" "a line of a trace has at least 14 fields, each ended by the delimiter; is --delim right?")
    ("BadPath" "a path, and the target of a link, has no component .. and no byte 0")
    ("LongName" "a path has at most 4096 bytes and 256 names of at most 255 bytes, a target 4096")
    ("BadType" "field 2, the type, is one of d f l b c p s")
    ("BadNumber" "a field is no decimal number of its size")
    ("BadXattr" "behind xattrs/ stand names without a byte 0, within the limits")
    ("BadAcl" "behind acl/ stand the entries of an access control list, each once, and none that is needed is missing")
    ("TooManyEntries" "an access control list has at most 32 named entries")
    ("NotUnderRoot" "each path lies below that of line 1")
    ("WrongStanza" "line 1 is a directory, and entries stand right behind that in which they lie")
    ("CutLine" "the last line ends with a newline; an image isn't taken there")
    ("NoRoot" "a trace has a line for its root")
    ("Duplicate" "an earlier line has the same path")
    ("Orphan" "the directory in which it lies has no line")
    ("Fields" "a line of a passwd file has seven fields, of a group file four, and a name that isn't empty")
    ("Number" "a uid or gid is a number below 2^32; of a script, a limit one below 2^64")
    ("DoubleName" "an earlier line has the same name")
    ("Escape" "two hexadecimal digits stand behind each %")
    ("Verb" "a line begins with publish, rollup, refresh, ask or barrier")
    ("Count" "the line has too few or too many words for its first")
    ("Lane" "a lane is a number from 1 to 16")
    ("Path" "the path has no component .. and is within the limits")
    ("File" "the name of a file is UTF-8")
    ("Form" "the form of an ask is find, total or query")
    ("User" "the user of the ask is a name of the passwd file, or UID, or UID:GID,..")
    ("Query" "the words of the ask are no expression of its form, or no SELECT")
};

/// The faults at an offset of an image.
pub const OFFSET_KINDS: &[Entry] = entries! {
    ("Magic" "an image begins with GUFIX, a zero byte and its version")
    ("Cut" "the file ends within a field: it wasn't written whole")
    ("Number" "a count, a mode, a flag, a type or a list isn't one that an image may have")
    ("Parent" "a directory stands behind the one in which it lies")
    ("Name" "a name is none, or is taken, or makes a path too long")
    ("Order" "a directory or entry stands above the one before it")
    ("Trailing" "bytes stand behind the last directory")
    ("Roll" "a flag isn't what the rule of roll-up says")
};

/// Why the rows of a file, each of which is good, can't be written.
pub const FILE_KINDS: &[Entry] = entries! {
    ("DelimUsed" "the delimiter stands in a name, a target, a name of an extended attribute or an access control list: --delim takes another")
    ("TooLong" "a path has more than 4096 bytes or 256 names")
    ("TooDeep" "where the directory is replaced, a path has more than 4096 bytes or 256 names")
};

/// The fields of a trace's line that are numbers.
pub const FIELDS: &[Entry] = entries! {
    ("3" "field 3 is the inode: a number below 2^64")
    ("4" "field 4 is the mode: a decimal number below 2^32")
    ("5" "field 5 is the number of links, below 2^64")
    ("6" "field 6 is the owner: a number below 2^32")
    ("7" "field 7 is the group: a number below 2^32")
    ("8" "field 8 is the size in bytes, a number below 2^64")
    ("9" "field 9 is the size of a block in bytes, a number below 2^64")
    ("10" "field 10 is the number of blocks, below 2^64")
    ("11" "field 11 is the last access: whole seconds since 1970")
    ("12" "field 12 is the last modification: whole seconds since 1970")
    ("13" "field 13 is the last change: whole seconds since 1970")
};

/// What a limit bounds.
pub const LIMITS: &[Entry] = entries! {
    ("262144" "an index has at most so many directories")
    ("1048576" "an index has at most so many entries that are no directories")
    ("536870912" "a trace has at most so many bytes")
    ("1073741824" "an image has at most so many bytes")
    ("67108864" "a passwd or group file has at most so many bytes")
    ("65536" "a passwd or group file has at most so many lines")
    ("16777216" "a script has at most so many bytes")
    ("4096" "a script has at most so many lines")
    ("1000" "a script has at most so many lines that publish")
};
