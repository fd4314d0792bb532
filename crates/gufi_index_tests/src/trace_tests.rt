ghost use Rattle.std.specs.Prelude.{IsTrue};
ghost use Rattle.gufi_base.specs.Delimiters.{may_delimit};

use gufi_base::{Bytes, Line, Path};
use gufi_trace::{
    TraceError, TraceReader, WriteTraceFault, put_tree_fault, read_pieces, read_trace, write_trace,
};
use gufi_tree::{TreeFault, build_stanzas};
use std::alloc::Global;
use std::test::Fail;

const GOOD: &[u8] = b"/r|d|1|493|3|101|100|4096|4096|8|10|20|30|
/r/p|d|2|457|3|101|100|4096|4096|8|10|20|30|
/r/p/q|d|3|493|2|101|100|4096|4096|8|10|20|30|
/r/p/q/y|f|4|420|1|101|100|5|4096|8|10|20|30|
";

/// The last line's number and size, and how many lines there are.
fn summary(lines: &Vec<Line>) -> Option<(u32, u64, usize)> {
    let last = lines.last()?;
    Some((last.number, last.rec.meta.size, lines.len()))
}

fn read_cut(alloc: Global, at: usize) -> Result<Vec<Line>, TraceError> {
    let mut reader = TraceReader::new(alloc, b'|')?;
    let (front, back) = GOOD.split_at(at.min(GOOD.len()));
    reader.feed(alloc, front)?;
    reader.feed(alloc, back)?;
    reader.finish(alloc)
}

#[test]
fn a_trace_reads_the_same_wherever_it_is_cut(rt: HostRuntime) -> Result<(), Fail> {
    for at in 0..=GOOD.len() {
        let lines = read_cut(rt.alloc(), at)?;
        assert_eq!(rt; summary(&lines), Some((4, 5, 4)));
    }
    Ok(())
}

#[test]
fn pieces_and_the_whole_read_the_same(rt: HostRuntime) -> Result<(), Fail> {
    let alloc = rt.alloc();
    let (front, back) = GOOD.split_at(60.min(GOOD.len()));
    let pieces = vec![in alloc;
        Bytes::from_slice(alloc, front)?,
        Bytes::from_slice(alloc, back)?,
    ]?;
    assert_eq!(rt;
        summary(&read_pieces(alloc, b'|', &pieces)?),
        Some((4, 5, 4))
    );
    let lines = read_trace(alloc, b'|', GOOD)?.into_lines(alloc)?;
    assert_eq!(rt; summary(&lines), Some((4, 5, 4)));
    Ok(())
}

#[test]
fn lines_are_kept_by_their_stanzas(rt: HostRuntime) -> Result<(), Fail> {
    let mut reader = TraceReader::new(rt.alloc(), b'|')?;
    reader.feed(rt.alloc(), GOOD)?;
    let stanzas = reader.finish_stanzas()?;
    assert_eq!(rt; (stanzas.len(), stanzas.dirs()), (4, 3));
    Ok(())
}

/// The printed fault of a trace, which is that of every later call too.
fn fault_text(alloc: Global, bytes: &[u8]) -> Result<Vec<u8>, TraceError> {
    let mut text = Vec::new(alloc);
    let mut reader = TraceReader::new(alloc, b'|')?;
    if let Err(TraceError::Fault(first)) = reader.feed(alloc, bytes) {
        if reader.feed(alloc, b"x\n") == Err(TraceError::Fault(first)) {
            first.put(&mut text)?;
        }
    }
    if let Err(TraceError::Fault(last)) = reader.finish(alloc) {
        if text.is_empty() {
            last.put(&mut text)?;
        }
    }
    Ok(text)
}

#[test]
fn each_fault_is_named_by_its_line(rt: HostRuntime) -> Result<(), Fail> {
    let root = "/r|d|1|493|2|101|100|4096|4096|8|10|20|30|\n";
    let cases = [
        ("/r/a|f|2|420|1|101|100|0|4096|0|10|20|30\n", "2 Short"),
        (
            "/r/../a|f|2|420|1|101|100|0|4096|0|10|20|30|\n",
            "2 BadPath",
        ),
        (
            "/r/a|f|2|420|1|101|100|0|4096|0|10|20|30|x\0\n",
            "2 BadPath",
        ),
        ("/r/a|x|2|420|1|101|100|0|4096|0|10|20|30|\n", "2 BadType"),
        (
            "/r/a|f|2|420|1|101|100|x|4096|0|10|20|30|\n",
            "2 BadNumber 8",
        ),
        (
            "/r/a|f|2|420|1|101|100|x|4096|0|10|20|30||xattrs/\0\n",
            "2 BadNumber 8",
        ),
        (
            "/a|f|2|420|1|101|100|0|4096|0|10|20|30||xattrs/\0\n",
            "2 BadXattr",
        ),
        (
            "/r/a|f|2|420|1|101|100|0|4096|0|10|20|30||xattrs/\0|acl/\n",
            "2 BadXattr",
        ),
        (
            "/a|f|2|420|1|101|100|0|4096|0|10|20|30|||acl/u::r--,g::r--\n",
            "2 BadAcl",
        ),
        (
            "/a|f|2|420|1|101|100|0|4096|0|10|20|30|\n",
            "2 NotUnderRoot",
        ),
        (
            "/r/a/b|f|2|420|1|101|100|0|4096|0|10|20|30|\n",
            "2 WrongStanza",
        ),
        ("/r/a|f|2|420|1|101|100|0|4096|0|10|20|30|", "2 CutLine"),
        (
            "/r/a|f|2|420|1|101|100|0|4096|0|10|20|-30||more|fields\n",
            "",
        ),
    ];
    for (line, wanted) in cases.iter() {
        let trace = format!(in rt.alloc(); "{root}{line}")?;
        let text = fault_text(rt.alloc(), trace.as_bytes())?;
        assert_eq!(rt; text.as_slice(), wanted.as_bytes());
    }
    Ok(())
}

/// What stands where a size is to stand, and the size, if it is one.
const SIZES: [(&str, Option<u64>); 16] = [
    ("7", Some(7)),
    ("40", Some(40)),
    ("123", Some(123)),
    ("0000", Some(0)),
    ("1700000000", Some(1700000000)),
    ("123456789012345", Some(123456789012345)),
    ("1234567890123456", Some(1234567890123456)),
    ("12345678901234567", Some(12345678901234567)),
    ("123456789012345678", Some(123456789012345678)),
    ("18446744073709551615", Some(18446744073709551615)),
    ("18446744073709551616", None),
    ("", None),
    ("1/", None),
    ("1:", None),
    ("/1", None),
    ("12-3", None),
];

#[test]
fn numbers_of_each_length_are_read(rt: HostRuntime) -> Result<(), Fail> {
    let alloc = rt.alloc();
    for (word, size) in SIZES {
        let line = format!(in alloc; "/r|d|1|493|2|101|100|{word}|4096|8|10|20|30|\n")?;
        match size {
            Some(size) => {
                let lines = read_trace(alloc, b'|', line.as_bytes())?.into_lines(alloc)?;
                assert_eq!(rt; summary(&lines), Some((1, size, 1)));
            }
            None => {
                let fault = fault_text(alloc, line.as_bytes())?;
                assert_eq!(rt; fault.as_slice(), b"1 BadNumber 8".as_slice());
            }
        }
    }
    Ok(())
}

/// What is written of the tree of a trace below a root.
fn rewritten(
    alloc: Global,
    trace: &[u8],
    root: &[u8],
    delim: u8,
) -> Result<Vec<u8>, WriteTraceFault>
    requires { IsTrue (may_delimit delim) }
{
    let Ok(lines) = read_trace(alloc, b'|', trace) else {
        return Err(WriteTraceFault::Memory);
    };
    let Ok(tree) = build_stanzas(alloc, lines) else {
        return Err(WriteTraceFault::Memory);
    };
    let Ok(root) = Path::read(alloc, root) else {
        return Err(WriteTraceFault::Memory);
    };
    write_trace(alloc, &tree, &root, delim)
}

#[test]
fn a_trace_in_order_is_written_as_it_was(rt: HostRuntime) -> Result<(), Fail> {
    let alloc = rt.alloc();
    let one = b"/r|d|1|493|2|101|100|4096|4096|8|10|20|30|\n";
    assert_eq!(rt;
        rewritten(alloc, one, b"/r", b'|')?.as_slice(),
        one.as_slice()
    );
    assert_eq!(rt; rewritten(alloc, GOOD, b"/r", b'|')?.as_slice(), GOOD);
    let link = b"/|d|1|493|2|101|100|4096|4096|8|10|20|-30|\n/l|l|2|511|1|0|0|2|512|0|1|2|3|a,b\n";
    assert_eq!(rt;
        rewritten(alloc, link, b"/", b'|')?.as_slice(),
        link.as_slice()
    );
    assert_eq!(rt;
        rewritten(alloc, link, b"/", b',').err(),
        Some(WriteTraceFault::DelimUsed)
    );
    Ok(())
}

#[test]
fn names_of_attributes_are_written_joined(rt: HostRuntime) -> Result<(), Fail> {
    let alloc = rt.alloc();
    let given = b"/|d|1|493|2|101|100|4096|4096|8|10|20|30||xattrs/,user.a,,user.b|more\n";
    let joined = b"/|d|1|493|2|101|100|4096|4096|8|10|20|30||xattrs/user.a,user.b\n";
    assert_eq!(rt;
        rewritten(alloc, given, b"/", b'|')?.as_slice(),
        joined.as_slice()
    );
    assert_eq!(rt;
        rewritten(alloc, given, b"/", b',').err(),
        Some(WriteTraceFault::DelimUsed)
    );
    Ok(())
}

/// A root whose list names a user.
const Z: &[u8] =
    b"/r|d|1|488|2|101|100|4096|4096|8|10|20|30|||acl/user::rwx,user:102:r-x,group::---,mask::r-x,other::---\n";

#[test]
fn access_control_lists_are_written_in_whole_words(rt: HostRuntime) -> Result<(), Fail> {
    let alloc = rt.alloc();
    assert_eq!(rt; rewritten(alloc, Z, b"/r", b'|')?.as_slice(), Z);
    let short =
        b"/r|d|1|488|2|101|100|4096|4096|8|10|20|30|||acl/o::---,u:0102:r-x,m::r-x,u::rwx,g::---|more\n";
    assert_eq!(rt; rewritten(alloc, short, b"/r", b'|')?.as_slice(), Z);
    let other = b"/r|d|1|488|2|101|100|4096|4096|8|10|20|30|||user::rwx\n";
    let plain = b"/r|d|1|488|2|101|100|4096|4096|8|10|20|30|\n";
    assert_eq!(rt;
        rewritten(alloc, other, b"/r", b'|')?.as_slice(),
        plain.as_slice()
    );
    for delim in [b':', b','] {
        assert_eq!(rt;
            rewritten(alloc, Z, b"/r", delim).err(),
            Some(WriteTraceFault::DelimUsed)
        );
    }
    Ok(())
}

#[test]
fn a_path_that_is_too_long_is_not_written(rt: HostRuntime) -> Result<(), Fail> {
    let alloc = rt.alloc();
    let mut root = Vec::new(alloc);
    for _ in 0..256 {
        root.extend_from_slice(b"/r")?;
    }
    let link = b"/|d|1|493|2|101|100|4096|4096|8|10|20|-30|\n/l|l|2|511|1|0|0|2|512|0|1|2|3|a,b\n";
    assert_eq!(rt;
        rewritten(alloc, link, &root, b'|').err(),
        Some(WriteTraceFault::TooLong)
    );
    Ok(())
}

#[test]
fn faults_of_trees_are_printed(rt: HostRuntime) -> Result<(), Fail> {
    let mut text = Vec::new(rt.alloc());
    put_tree_fault(&mut text, TreeFault::NoRoot)
        .ok()
        .ok_or("memory")?;
    put_tree_fault(&mut text, TreeFault::Orphan { line: 17 })
        .ok()
        .ok_or("memory")?;
    assert_eq!(rt; text.as_slice(), b"0 NoRoot17 Orphan".as_slice());
    Ok(())
}
