use super::*;
use gufi_access::{GroupList, Principal};
use gufi_base::{Bytes, Path};
use std::alloc::Global;
use std::test::*;

// The bytes of `find -empty`.
fn ask(alloc: Global) -> Result<Vec<u8>, Fail> {
    let words = vec![in alloc; Bytes::from_slice(alloc, b"-empty")?]?;
    Ok(ask_bytes(alloc, b'f', words.as_slice())?)
}

// The key of that ask, below `/a`.
fn key_of(alloc: Global, number: u64, uid: u32) -> Result<CacheKey, Fail> {
    let groups = GroupList::of(Vec::from_slice(alloc, &[100])?);
    let start = Path::read(alloc, b"/a")?;
    let ask = ask(alloc)?;
    Ok(cache_key(
        alloc,
        number,
        &SharedPrincipal::of(alloc, Principal { uid, groups })?,
        &start,
        ask.as_slice(),
    )?)
}

#[test]
fn what_was_asked_last_stays(rt: HostRuntime) -> Result<(), Fail> {
    let alloc = rt.alloc();
    let mut cache = Cache::new(alloc, 2)?;
    for (number, uid, text) in [
        (1, 102, b"one".as_slice()),
        (1, 103, b"two"),
        (2, 102, b"three"),
        (2, 102, b"four"),
    ] {
        let key = key_of(alloc, number, uid)?;
        cache.keep(key, Vec::from_slice(alloc, text)?)?;
        // The first is asked after each, so it stays.
        assert_eq!(rt;
            cache.find(&key_of(alloc, 1, 102)?),
            Some(b"one".as_slice())
        );
    }
    assert_eq!(rt; cache.count(), 2);
    assert_eq!(rt; cache.find(&key_of(alloc, 1, 103)?), None);
    assert_eq!(rt;
        cache.find(&key_of(alloc, 2, 102)?),
        Some(b"four".as_slice())
    );
    Ok(())
}

#[test]
fn a_cache_of_one_keeps_the_last(rt: HostRuntime) -> Result<(), Fail> {
    let alloc = rt.alloc();
    assert_eq!(rt; ask(alloc)?.as_slice(), b"f\x06\0\0\0-empty".as_slice());
    let mut cache = Cache::new(alloc, 1)?;
    // Two users take turns, and none finds an answer.
    for uid in [102, 103, 102] {
        let key = key_of(alloc, 1, uid)?;
        assert_eq!(rt; cache.find(&key), None);
        cache.keep(key, Vec::from_slice(alloc, b"/\n")?)?;
        assert_eq!(rt; cache.count(), 1);
    }
    assert_eq!(rt;
        cache.find(&key_of(alloc, 1, 102)?),
        Some(b"/\n".as_slice())
    );
    Ok(())
}
