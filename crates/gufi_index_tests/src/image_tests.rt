use gufi_image::{ImageError, ImageKind, ImageReader, read_image, write_image};
use gufi_snap::Snapshot;
use gufi_trace::read_trace;
use gufi_tree::build_stanzas;
use std::alloc::Global;
use std::test::Fail;

fn snapshot_of(alloc: Global, trace: &[u8], limit: u64) -> Result<Snapshot, Fail> {
    let tree = build_stanzas(alloc, read_trace(alloc, b'|', trace)?)?;
    Ok(Snapshot::build_uncounted(alloc, tree, limit)?)
}

/// The image of a trace's tree.
fn image_of(alloc: Global, trace: &[u8], limit: u64) -> Result<Vec<u8>, Fail> {
    let snap = snapshot_of(alloc, trace, limit)?;
    Ok(write_image(alloc, &snap)?)
}

const LONE_ROOT: &[u8] = b"/|d|1|493|2|101|100|4096|4096|8|10|20|30|
";

/// The 110 bytes of the image of a root alone.
fn lone_image() -> &'static [u8] {
    b"GUFIX\0\x01\0\0\0\0\0\0\0\0\0\x01\0\0\0\0\0\0\0\xff\xff\xff\xff\0\0\x01\0\0\0\0\0\0\0\xed\x01\x02\0\0\0\0\0\0\0\x65\0\0\0\x64\0\0\0\0\x10\0\0\0\0\0\0\0\x10\0\0\0\0\0\0\x08\0\0\0\0\0\0\0\x0a\0\0\0\0\0\0\0\x14\0\0\0\0\0\0\0\x1e\0\0\0\0\0\0\0\0\0\0\0\0\0"
}

const NAMED_ROOT: &[u8] = b"/|d|1|493|2|101|100|4096|4096|8|10|20|30||xattrs/user.k
";

/// The 118 bytes of the image of a root alone that has the name of an extended attribute.
fn named_image() -> &'static [u8] {
    b"GUFIX\0\x02\0\0\0\0\0\0\0\0\0\x01\0\0\0\0\0\0\0\xff\xff\xff\xff\0\0\x01\0\0\0\0\0\0\0\xed\x01\x02\0\0\0\0\0\0\0\x65\0\0\0\x64\0\0\0\0\x10\0\0\0\0\0\0\0\x10\0\0\0\0\0\0\x08\0\0\0\0\0\0\0\x0a\0\0\0\0\0\0\0\x14\0\0\0\0\0\0\0\x1e\0\0\0\0\0\0\0\0\0\x06\0user.k\0\0\0\0"
}

const GUARDED_ROOT: &[u8] =
    b"/|d|1|493|2|101|100|4096|4096|8|10|20|30|||acl/user::rwx,user:102:r-x,group::---,mask::r-x,other::---
";

/// The 144 bytes of the image of a root alone that has an access control list, of 30 bytes.
fn guarded_image() -> &'static [u8] {
    b"GUFIX\0\x03\0\0\0\0\0\0\0\0\0\x01\0\0\0\0\0\0\0\xff\xff\xff\xff\0\0\x01\0\0\0\0\0\0\0\xed\x01\x02\0\0\0\0\0\0\0\x65\0\0\0\x64\0\0\0\0\x10\0\0\0\0\0\0\0\x10\0\0\0\0\0\0\x08\0\0\0\0\0\0\0\x0a\0\0\0\0\0\0\0\x14\0\0\0\0\0\0\0\x1e\0\0\0\0\0\0\0\0\0\0\0\x1e\0\0\x07\0\0\0\0\x01\x05\x66\0\0\0\x02\0\0\0\0\0\x04\x05\0\0\0\0\x05\0\0\0\0\0\0\0\0\0"
}

/// The image of a root alone, with two bytes more behind its link, as for the length of names.
fn widened(alloc: Global) -> Result<Vec<u8>, Fail> {
    let image = lone_image();
    let (front, back) = image.split_at(106.min(image.len()));
    let mut bytes = Vec::from_slice(alloc, front)?;
    bytes.extend_from_slice(b"\0\0")?;
    bytes.extend_from_slice(back)?;
    Ok(bytes)
}

const WITH_A_FOLD: &[u8] = b"/|d|1|493|2|101|100|4096|4096|8|10|20|30|
/c|d|2|45|2|102|200|4096|4096|8|10|20|30|
/c/x|f|3|420|2|102|200|4096|4096|8|10|20|30|
";

/// The image of a root that may not be rolled up, since few may list the directory in it, which may.
fn with_a_fold(alloc: Global) -> Result<Vec<u8>, Fail> {
    image_of(alloc, WITH_A_FOLD, 100)
}

const WIDE: &[u8] = b"/|d|1|493|2|101|100|4096|4096|8|10|20|30|
/c|f|1|420|2|101|100|4096|4096|8|10|20|30|
/e|l|1|420|2|101|100|4096|4096|8|10|20|30|
/m|d|1|493|2|101|100|4096|4096|8|10|20|30|
/n|d|1|493|2|101|100|4096|4096|8|10|20|30|
";

/// The image of a root with the files c and e and the directories m and n.
fn wide_image(alloc: Global) -> Result<Vec<u8>, Fail> {
    image_of(alloc, WIDE, 0)
}

/// The fault of some bytes, of which there are few.
fn fault_in(alloc: Global, bytes: &[u8]) -> Option<(u32, ImageKind)> {
    if bytes.len() > 4096 {
        return None;
    }
    match read_image(alloc, bytes) {
        Err(ImageError::Fault { offset, kind }) => Some((offset, kind)),
        _ => None,
    }
}

/// One byte of an image made another, and the fault that this makes.
#[derive(Clone, Copy)]
struct Damage {
    place: usize,
    byte: u8,
    offset: u32,
    kind: ImageKind,
}

fn changed(place: usize, byte: u8, offset: u32, kind: ImageKind) -> Damage {
    Damage {
        place,
        byte,
        offset,
        kind,
    }
}

fn is_found(alloc: Global, image: &[u8], damage: &Damage) -> Result<bool, Fail> {
    let mut bytes = Vec::from_slice(alloc, image)?;
    if damage.place >= bytes.len() {
        return Ok(false);
    }
    bytes[damage.place] = damage.byte;
    Ok(fault_in(alloc, bytes.as_slice()) == Some((damage.offset, damage.kind)))
}

/// The first damage that isn't found, by its place.
fn not_found(alloc: Global, image: &[u8], cases: &[Damage]) -> Result<Option<usize>, Fail> {
    for case in cases {
        if !is_found(alloc, image, case)? {
            return Ok(Some(case.place));
        }
    }
    Ok(None)
}

/// The directories of an image that is read and written again, where the same bytes come out.
fn dirs_again(alloc: Global, image: &[u8]) -> Result<Option<u32>, Fail> {
    if image.len() > 4096 {
        return Ok(None);
    }
    let snap = read_image(alloc, image)?;
    dirs_where_written(alloc, &snap, image)
}

/// The directories of a snapshot, where this is its image.
fn dirs_where_written(alloc: Global, snap: &Snapshot, image: &[u8]) -> Result<Option<u32>, Fail> {
    if write_image(alloc, snap)?.as_slice() != image {
        return Ok(None);
    }
    Ok(Some(snap.tree().dirs()))
}

#[test]
fn an_image_is_written_byte_for_byte(rt: HostRuntime) -> Result<(), Fail> {
    let alloc = rt.alloc();
    assert!(rt; image_of(alloc, LONE_ROOT, 0)?.as_slice() == lone_image());
    assert!(rt; image_of(alloc, NAMED_ROOT, 0)?.as_slice() == named_image());
    assert!(rt; image_of(alloc, GUARDED_ROOT, 0)?.as_slice() == guarded_image());
    Ok(())
}

#[test]
fn what_is_read_is_written_again(rt: HostRuntime) -> Result<(), Fail> {
    let alloc = rt.alloc();
    assert!(rt; dirs_again(alloc, lone_image())? == Some(1));
    assert!(rt; dirs_again(alloc, named_image())? == Some(1));
    assert!(rt; dirs_again(alloc, guarded_image())? == Some(1));
    let folded = with_a_fold(alloc)?;
    assert!(rt; dirs_again(alloc, folded.as_slice())? == Some(2));
    assert!(rt;
        is_found(
            alloc,
            folded.as_slice(),
            &changed(29, 1, 29, ImageKind::Roll)
        )?
    );
    Ok(())
}

#[test]
fn the_first_damaged_field_is_named(rt: HostRuntime) -> Result<(), Fail> {
    let alloc = rt.alloc();
    let cases = vec![in alloc;
        changed(0, 0, 0, ImageKind::Magic),
        changed(6, 2, 108, ImageKind::Cut),
        changed(6, 3, 110, ImageKind::Cut),
        changed(6, 4, 6, ImageKind::Magic),
        changed(16, 0, 16, ImageKind::Number),
        changed(18, 4, 16, ImageKind::TooMany { limit: 262144 }),
        changed(20, 1, 20, ImageKind::Number),
        changed(23, 1, 20, ImageKind::TooMany { limit: 1048576 }),
        changed(24, 0, 24, ImageKind::Parent),
        changed(28, 1, 28, ImageKind::Name),
        changed(29, 1, 29, ImageKind::Roll),
        changed(29, 2, 29, ImageKind::Number),
        changed(39, 16, 38, ImageKind::Number),
        changed(104, 1, 104, ImageKind::Name),
        changed(104, 5, 106, ImageKind::Cut),
        changed(105, 17, 104, ImageKind::Name),
        changed(106, 1, 106, ImageKind::Number),
    ]?;
    assert!(rt; not_found(alloc, lone_image(), cases.as_slice())? == None);
    Ok(())
}

#[test]
fn the_least_version_and_sound_names_are_asked(rt: HostRuntime) -> Result<(), Fail> {
    let alloc = rt.alloc();
    let mut bytes = widened(alloc)?;
    let least = changed(6, 2, 6, ImageKind::Number);
    assert!(rt; is_found(alloc, bytes.as_slice(), &least)?);
    bytes.push(0)?;
    assert!(rt; is_found(alloc, bytes.as_slice(), &least)?);
    let cases = vec![in alloc;
        changed(20, 1, 20, ImageKind::Number),
        changed(106, 5, 113, ImageKind::Number),
        changed(107, 17, 106, ImageKind::Name),
        changed(108, 0, 106, ImageKind::Name),
        changed(108, b',', 106, ImageKind::Name),
    ]?;
    assert!(rt; not_found(alloc, named_image(), cases.as_slice())? == None);
    Ok(())
}

#[test]
fn sound_lists_are_asked(rt: HostRuntime) -> Result<(), Fail> {
    let alloc = rt.alloc();
    let cases = vec![in alloc;
        changed(108, 0, 110, ImageKind::Number),
        changed(108, 7, 108, ImageKind::Number),
        changed(109, 1, 110, ImageKind::Cut),
        changed(110, 1, 108, ImageKind::Number),
        changed(128, 3, 108, ImageKind::Number),
    ]?;
    assert!(rt; not_found(alloc, guarded_image(), cases.as_slice())? == None);
    Ok(())
}

#[test]
fn names_stand_in_order_and_once(rt: HostRuntime) -> Result<(), Fail> {
    let alloc = rt.alloc();
    let cases = vec![in alloc;
        changed(110, b'd', 110, ImageKind::Number),
        changed(112, b'/', 111, ImageKind::Name),
        changed(191, b'c', 189, ImageKind::Order),
        changed(268, 1, 268, ImageKind::Parent),
        changed(273, b'c', 272, ImageKind::Name),
        changed(360, b'm', 355, ImageKind::Order),
    ]?;
    assert!(rt; not_found(alloc, wide_image(alloc)?.as_slice(), cases.as_slice())? == None);
    Ok(())
}

/// The fault of so many first bytes.
fn fault_of_first(alloc: Global, len: usize) -> Option<(u32, ImageKind)> {
    let image = lone_image();
    fault_in(alloc, &image[..len.min(image.len())])
}

#[test]
fn bytes_that_are_missing_or_left_are_named(rt: HostRuntime) -> Result<(), Fail> {
    let alloc = rt.alloc();
    for len in 0..6usize {
        assert!(rt; fault_of_first(alloc, len) == Some((0, ImageKind::Magic)));
    }
    assert!(rt; fault_of_first(alloc, 7) == Some((6, ImageKind::Cut)));
    assert!(rt; fault_of_first(alloc, 30) == Some((30, ImageKind::Cut)));
    assert!(rt; fault_of_first(alloc, 109) == Some((106, ImageKind::Cut)));
    let mut longer = Vec::from_slice(alloc, lone_image())?;
    longer.push(0)?;
    assert!(rt; fault_in(alloc, longer.as_slice()) == Some((110, ImageKind::Trailing)));
    Ok(())
}

/// What an image means that comes in two pieces: its directories, or its fault.
fn read_in_two(alloc: Global, image: &[u8], place: usize) -> Result<u32, ImageError> {
    let (front, back) = image.split_at(place.min(image.len()));
    let mut reader = ImageReader::new(alloc);
    reader.feed(alloc, front);
    reader.feed(alloc, back);
    Ok(reader.finish(alloc)?.tree().dirs())
}

/// The first place where an image may be cut so that it means something else.
fn cut_shows(alloc: Global, image: &[u8], means: Result<u32, ImageError>) -> Option<usize> {
    for place in 0..=image.len() {
        if read_in_two(alloc, image, place) != means {
            return Some(place);
        }
    }
    None
}

#[test]
fn an_image_may_be_cut_anywhere(rt: HostRuntime) -> Result<(), Fail> {
    let alloc = rt.alloc();
    let mut image = wide_image(alloc)?;
    assert!(rt; cut_shows(alloc, image.as_slice(), Ok(3)) == None);
    let (offset, kind) = (189, ImageKind::Order);
    if image.len() > 191 {
        image[191] = b'c';
    }
    assert!(rt;
        cut_shows(
            alloc,
            image.as_slice(),
            Err(ImageError::Fault { offset, kind })
        ) == None
    );
    Ok(())
}
