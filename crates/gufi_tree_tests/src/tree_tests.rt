use crate::lines::{line, principal, tree_of};
use gufi_access::Class;
use gufi_base::{Kind, Path};
use gufi_tree::{DirId, Resolved, Tree, TreeFault, build};
use std::alloc::Global;
use std::process::Abort;
use std::test::Fail;

fn four_rows(alloc: Global) -> Result<Tree, Fail> {
    tree_of(
        alloc,
        &[
            (b"/".as_slice(), Kind::Dir, 0o755),
            (b"/p", Kind::Dir, 0o711),
            (b"/p/q", Kind::Dir, 0o755),
            (b"/p/q/y", Kind::File, 0o644),
        ],
    )
}

/// Where a path leads the user 102.
fn led(alloc: Global, tree: &Tree, path: &[u8]) -> Result<Resolved, Fail> {
    let who = principal(alloc, 102);
    let path = Path::read(alloc, path)?;
    Ok(tree.resolve(&who, &path))
}

/// Asserts where each path leads in the tree of four rows.
fn assert_led<R: AllocGlobal + Abort>(rt: &R, tree: &Tree) -> Result<(), Fail> {
    let class = Class::Other;
    let rows = [
        (b"/".as_slice(), Resolved::Found(DirId(0))),
        (b"/p/q", Resolved::Found(DirId(2))),
        (b"/p", Resolved::Denied { depth: 1, class }),
        (b"/p/zz", Resolved::NoSuch { depth: 2 }),
        (b"/p/q/y", Resolved::NotDir { depth: 3 }),
        (b"/p/q/y/z", Resolved::NotDir { depth: 3 }),
    ];
    for (path, resolved) in rows {
        assert_eq!(rt; led(rt.alloc(), tree, path)?, resolved);
    }
    Ok(())
}

#[test]
fn paths_lead_where_search_is_granted(rt: HostRuntime) -> Result<(), Fail> {
    let tree = four_rows(rt.alloc())?;
    assert_led(&rt, &tree)
}

/// Asserts the path and the entry of `/p/q` in that tree.
fn assert_third<R: AllocGlobal + Abort>(rt: &R, tree: &Tree) -> Result<(), Fail> {
    assert_eq!(rt; tree.dirs(), 3);
    assert_eq!(rt;
        tree.path_of(rt.alloc(), DirId(2))?.printed(),
        b"/p/q".as_slice()
    );
    let entries = tree.entries(DirId(2));
    assert_eq!(rt; entries.len(), 1);
    for place in 0..entries.len() {
        assert_eq!(rt; entries.at(place).name(), b"y".as_slice());
    }
    Ok(())
}

#[test]
fn directories_have_their_paths_and_entries(rt: HostRuntime) -> Result<(), Fail> {
    let tree = four_rows(rt.alloc())?;
    assert_third(&rt, &tree)
}

/// The fault of three directories on the lines 1 to 3.
fn fault_of(alloc: Global, paths: [&[u8]; 3]) -> Result<Option<TreeFault>, Fail> {
    let [first, second, third] = paths;
    let lines = vec![in alloc;
        line(alloc, 1, first, Kind::Dir, 0o755)?,
        line(alloc, 2, second, Kind::Dir, 0o755)?,
        line(alloc, 3, third, Kind::Dir, 0o755)?,
    ]?;
    Ok(build(alloc, lines).err())
}

#[test]
fn the_least_faulty_line_is_named(rt: HostRuntime) -> Result<(), Fail> {
    let alloc = rt.alloc();
    let rows = [
        (
            [b"/".as_slice(), b"/a", b"/a"],
            TreeFault::Duplicate { line: 3 },
        ),
        (
            [b"/".as_slice(), b"/a/b", b"/a/b"],
            TreeFault::Orphan { line: 2 },
        ),
        ([b"/c".as_slice(), b"/a", b"/b"], TreeFault::NoRoot),
    ];
    for (paths, fault) in rows {
        assert_eq!(rt; fault_of(alloc, paths)?, Some(fault));
    }
    Ok(())
}
