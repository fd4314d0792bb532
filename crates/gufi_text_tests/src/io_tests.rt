//! The calls on their happy paths, a failure in mid-stream, and the real files and streams.
use gufi_io::{
    FileShelf, MemShelf, MemSink, ReadError, Sink, StdSink, names_differ, read_all, write_whole,
};
use std::alloc::Global;
use std::os::fd::AsRawFd;
use std::process::Abort;
use std::test::Fail;
use std::{fs, io};

const TEXT: &[u8] = b"some bytes\n";

// How reading ended, and the bytes that were read.
fn ending(alloc: Global, read: Result<Vec<u8>, ReadError>) -> (&'static str, Vec<u8>) {
    match read {
        Ok(bytes) => ("whole", bytes),
        Err(error) => match error {
            ReadError::NoFile => ("no file", Vec::new(alloc)),
            ReadError::ReadFault => ("fault", Vec::new(alloc)),
            ReadError::TooLong { bytes } => ("too long", bytes),
            ReadError::Memory => ("memory", Vec::new(alloc)),
        },
    }
}

// A shelf of two files, whose reads give at most four bytes.
fn two_files<R: AllocGlobal + Abort>(rt: &R, bad_reads: &[u64]) -> Result<MemShelf, Fail> {
    let alloc = rt.alloc();
    let mut files = Vec::new(alloc);
    files.push((String::from_str(alloc, "t")?, TEXT.to_vec(alloc)?))?;
    files.push((String::from_str(alloc, "empty")?, Vec::new(alloc)))?;
    assert!(rt; names_differ(&files));
    let bad_opens = [5].to_vec(alloc)?;
    Ok(MemShelf::new(files, 4, bad_opens, bad_reads.to_vec(alloc)?))
}

#[test]
fn reads_from_memory(rt: HostRuntime) -> Result<(), Fail> {
    let alloc = rt.alloc();
    let mut shelf = two_files(&rt, &[])?;
    for (name, max, outcome, length) in [
        ("t", 11, "whole", 11),
        ("t", 10, "too long", 11),
        ("empty", 0, "whole", 0),
        ("nothing", 10, "no file", 0),
        ("t", 11, "fault", 0),
        ("t", 5, "too long", 8),
    ] {
        let (ended, bytes) = ending(alloc, read_all(alloc, &mut shelf, name, max));
        assert_eq!(rt; ended, outcome);
        assert_eq!(rt; bytes.len(), length);
        assert!(rt; TEXT.starts_with(&bytes));
    }
    Ok(())
}

#[test]
fn a_read_fails_in_mid_stream(rt: HostRuntime) -> Result<(), Fail> {
    let alloc = rt.alloc();
    let mut shelf = two_files(&rt, &[2])?;
    assert_eq!(rt;
        ending(alloc, read_all(alloc, &mut shelf, "t", 99)).0,
        "fault"
    );
    let (ended, bytes) = ending(alloc, read_all(alloc, &mut shelf, "t", 99));
    assert_eq!(rt; ended, "whole");
    assert_eq!(rt; bytes.as_slice(), TEXT);
    Ok(())
}

#[test]
fn a_write_fails_in_mid_stream(rt: HostRuntime) -> Result<(), Fail> {
    let alloc = rt.alloc();
    let bad_writes = [2].to_vec(alloc)?;
    let mut sink = MemSink::new(vec![in alloc; 0; 11]?, 4, bad_writes);
    assert!(rt; write_whole(&mut sink, TEXT).is_err());
    assert_eq!(rt; sink.taken(), b"some".as_slice());
    assert!(rt; write_whole(&mut sink, b" bytes\n").is_ok());
    assert_eq!(rt; sink.taken(), TEXT);
    assert!(rt; write_whole(&mut sink, b"no room").is_err());
    Ok(())
}

#[test]
fn reads_files_of_the_system(rt: HostRuntime) -> Result<(), Fail> {
    let alloc = rt.alloc();
    fs::write(&rt, "t", TEXT)?;
    let mut shelf = FileShelf::new(&rt);
    for (name, max, outcome, length) in [
        ("t", 11, "whole", 11),
        ("t", 10, "too long", 11),
        ("nothing", 10, "no file", 0),
        (".", 10, "fault", 0),
        ("t/below", 10, "fault", 0),
    ] {
        let (ended, bytes) = ending(alloc, read_all(alloc, &mut shelf, name, max));
        assert_eq!(rt; ended, outcome);
        assert_eq!(rt; bytes.len(), length);
        assert!(rt; TEXT.starts_with(&bytes));
    }
    fs::remove_file(&rt, "t")?;
    Ok(())
}

// The descriptor of the next file, which is the lowest that is free (POSIX.1-2017 XSH 2.14).
fn next_descriptor(rt: &HostRuntime) -> io::Result<i32> {
    Ok(fs::open(rt, "closed")?.as_raw_fd())
}

#[test]
fn closes_a_file_that_was_read(rt: HostRuntime) -> Result<(), Fail> {
    let alloc = rt.alloc();
    fs::write(&rt, "closed", TEXT)?;
    let before = next_descriptor(&rt)?;
    let mut shelf = FileShelf::new(&rt);
    assert_eq!(rt;
        ending(alloc, read_all(alloc, &mut shelf, "closed", 99)).0,
        "whole"
    );
    assert_eq!(rt; next_descriptor(&rt)?, before);
    drop(shelf);
    fs::remove_file(&rt, "closed")?;
    Ok(())
}

// A stream takes a short piece whole (POSIX.1-2017 XSH write), so the counts are those of the bytes.
#[test]
fn writes_to_both_streams(rt: HostRuntime) -> Result<(), Fail> {
    let mut output = StdSink::output(rt.stdout());
    assert_eq!(rt; output.write(b"written\n").ok(), Some(8));
    assert!(rt; write_whole(&mut output, b"written whole\n").is_ok());
    let mut errors = StdSink::errors(rt.stderr());
    assert_eq!(rt; errors.write(b"noted\n").ok(), Some(6));
    assert!(rt; write_whole(&mut errors, b"noted whole\n").is_ok());
    Ok(())
}
