use gufi_base::{Bytes, Kind, Meta, Path, Rec, Row};
use gufi_select::{Select, read_select, select_text};
use std::alloc::Global;
use std::test::Fail;

fn rec(alloc: Global) -> Result<Rec, Fail> {
    let meta = Meta {
        kind: Kind::Link,
        inode: 9,
        mode: 0o640,
        nlink: 2,
        uid: 1001,
        gid: 501,
        size: 7,
        blksize: 4096,
        blocks: 8,
        atime: -5,
        mtime: 100000,
        ctime: 30000,
    };
    let link = Bytes::from_slice(alloc, b"/y")?;
    let xattrs = Bytes::from_slice(alloc, b"user.a,user.b")?;
    let acl = Bytes::of(Vec::new(alloc));
    Ok(Rec {
        meta,
        link,
        xattrs,
        acl,
    })
}

/// `/c/x`, a link to `/y`.
fn link(alloc: Global) -> Result<Row, Fail> {
    let path = Path::read(alloc, b"/c/x")?;
    let rec = rec(alloc)?;
    Ok(Row { path, rec })
}

/// The link's line one level below a start, and its text where the start is the root.
fn printed_by(alloc: Global, select: &Select) -> Result<Vec<u8>, Fail> {
    let mut rows = Vec::new(alloc);
    let mut text = Vec::new(alloc);
    let link = link(alloc)?;
    select.put(alloc, &link, 1, &mut text)?;
    rows.push(link)?;
    let root = Path::root(alloc)?;
    let rest = select_text(alloc, select, rows.as_slice(), &root)?;
    text.extend_from_slice(rest.as_slice())?;
    Ok(text)
}

fn printed(alloc: Global, text: &str) -> Result<Vec<u8>, Fail> {
    let select = read_select(alloc, text.as_bytes())?;
    printed_by(alloc, &select)
}

#[test]
fn chosen_rows_are_printed(rt: HostRuntime) -> Result<(), Fail> {
    let text = "SELECT linkname, xattrs, level FROM rows";
    assert_eq!(rt;
        printed(rt.alloc(), text)?.as_slice(),
        "/y\tuser.a,user.b\t1\n/y\tuser.a,user.b\t2\n".as_bytes()
    );
    Ok(())
}
