use gufi_base::{
    Bytes, Items, Name, NameFault, Nums, Path, PathFault, Text, path_text, put_i64, put_u64,
    put_u128, read_i64, read_octal, read_u64,
};
use std::test::Fail;

#[test]
fn paths_are_read(rt: HostRuntime) -> Result<(), Fail> {
    let rows = [
        (b"".as_slice(), b"/".as_slice()),
        (b"//a/./b/".as_slice(), b"/a/b".as_slice()),
        (b"/a/.b/c..".as_slice(), b"/a/.b/c..".as_slice()),
    ];
    for (bytes, printed) in rows {
        let path = Path::read(rt.alloc(), bytes)?;
        assert_eq!(rt; path_text(rt.alloc(), &path)?.as_slice(), printed);
    }
    let faults = [
        (b"/a/../b\n".as_slice(), PathFault::DotDot),
        (b"/a\n".as_slice(), PathFault::BadByte),
        ([97u8; 256].as_slice(), PathFault::LongName),
    ];
    for (bytes, fault) in faults {
        assert_eq!(rt; Path::read(rt.alloc(), bytes).err(), Some(fault));
    }
    assert_eq!(rt; Path::root(rt.alloc())?.printed(), b"/".as_slice());
    Ok(())
}

#[test]
fn plain_paths_go_on_from_others(rt: HostRuntime) -> Result<(), Fail> {
    let root = Path::read(rt.alloc(), b"/fs")?;
    let known = Path::read(rt.alloc(), b"/a/.bc")?;
    let parent = match root.names_beside(&known, b"/fs/a/.b") {
        Some(names) => Path::of_names(rt.alloc(), names)?,
        None => Path::root(rt.alloc())?,
    };
    assert_eq!(rt; parent.printed(), b"/a/.b".as_slice());
    let child = match parent.child_name(&root, b"/fs/a/.b/c d") {
        Some(name) => {
            let kept = Name::of_checked(rt.alloc(), name)?;
            assert_eq!(rt; kept.as_slice(), b"c d".as_slice());
            parent.child(rt.alloc(), name)?
        }
        None => Path::root(rt.alloc())?,
    };
    assert_eq!(rt; child.printed(), b"/a/.b/c d".as_slice());
    assert!(rt; root.names_beside(&known, b"/fs/a//b").is_none());
    assert!(rt; parent.child_name(&root, b"/fs/a/.b/c/d").is_none());
    Ok(())
}

#[test]
fn names_and_lists_are_made(rt: HostRuntime) -> Result<(), Fail> {
    assert_eq!(rt; Name::of(rt.alloc(), b"a b")?.as_slice(), b"a b".as_slice());
    assert_eq!(rt; Name::of(rt.alloc(), b"..").err(), Some(NameFault::Bad));
    assert_eq!(rt;
        Bytes::from_slice(rt.alloc(), b"a")?.into_vec().as_slice(),
        b"a".as_slice()
    );
    assert_eq!(rt;
        Items::of(vec![in rt.alloc(); true]?).into_vec().as_slice(),
        [true].as_slice()
    );
    assert_eq!(rt;
        Nums::of(vec![in rt.alloc(); 1u32]?).as_slice(),
        [1u32].as_slice()
    );
    assert_eq!(rt; Text::of(format!(in rt.alloc(); "a")?).as_str(), "a");
    Ok(())
}

#[test]
fn numbers_are_read_and_written(rt: HostRuntime) -> Result<(), Fail> {
    assert_eq!(rt; read_u64(b"00000000000000000000007"), Some(7));
    assert_eq!(rt;
        read_u64(b"18446744073709551615"),
        Some(18446744073709551615)
    );
    assert_eq!(rt; read_u64(b"18446744073709551616"), None);
    assert_eq!(rt;
        read_i64(b"-9223372036854775808"),
        Some(-9223372036854775808)
    );
    assert_eq!(rt; read_i64(b"-"), None);
    assert_eq!(rt; read_octal(b"7777"), Some(4095));
    assert_eq!(rt; read_octal(b"8"), None);
    let mut out = Vec::new(rt.alloc());
    put_u64(&mut out, 0)?;
    put_u128(&mut out, 340282366920938463463374607431768211455)?;
    put_i64(&mut out, -9223372036854775808)?;
    assert_eq!(rt;
        out.as_slice(),
        b"0340282366920938463463374607431768211455-9223372036854775808".as_slice()
    );
    Ok(())
}
