use seq_io::{
    DirShelf, MemFile, MemShelf, MemSink, ReadAll, Shelf, SinkFault, SureShelf, SureSink, read_all,
    write_all,
};
use seq_num::NoMemory;
use std::alloc::{AllocError, Global};
use std::test::Fail;

// A name, a limit, the calls of the shelf that fail, and what is read of a file `a.stl`.
static READ: [(&str, usize, &[u64], Result<&[u8], ReadAll>); 5] = [
    ("a.stl", 5, &[], Ok(b"12345")),
    ("a.stl", 4, &[], Err(ReadAll::TooLong)),
    ("a.stl", 5, &[2], Err(ReadAll::ReadFault)),
    // the read that finds the end
    ("a.stl", 5, &[4], Err(ReadAll::ReadFault)),
    ("b.stl", 5, &[], Err(ReadAll::ReadFault)),
];

// The writes that fail, the answer to ten bytes, and those that were taken.
static WRITTEN: [(&[u64], Result<(), SinkFault>, &[u8]); 3] = [
    (&[], Ok(()), b"0123456789"),
    (&[1], Err(SinkFault), b"0123"),
    (&[2], Err(SinkFault), b"01234567"),
];

fn one_file(alloc: Global, bytes: &[u8]) -> Result<Vec<MemFile>, AllocError> {
    let name = String::from_str(alloc, "a.stl")?;
    let mut files = Vec::new(alloc);
    files.push(MemFile::new(name, Vec::from_slice(alloc, bytes)?))?;
    Ok(files)
}

// It gives two bytes at a call.
fn shelf_of(alloc: Global, bytes: &[u8], failing: &[u64]) -> Result<MemShelf, AllocError> {
    let failing = Vec::from_slice(alloc, failing)?;
    Ok(MemShelf::new(one_file(alloc, bytes)?, 2, failing))
}

fn is_answer(read: &Result<Vec<u8>, ReadAll>, wanted: Result<&[u8], ReadAll>) -> bool {
    match (read, wanted) {
        (Ok(bytes), Ok(others)) => bytes.as_slice() == others,
        (Err(error), Err(other)) => *error == other,
        _ => false,
    }
}

fn reads(
    alloc: Global,
    shelf: &mut MemShelf,
    name: &str,
    limit: usize,
    wanted: Result<&[u8], ReadAll>,
) -> bool {
    match String::from_str(alloc, name) {
        Ok(name) => is_answer(&read_all(alloc, shelf, name, limit), wanted),
        Err(_) => false,
    }
}

#[test]
fn files_are_read_up_to_their_limit(rt: HostRuntime) -> Result<(), Fail> {
    for (name, limit, failing, wanted) in &READ {
        let mut shelf = shelf_of(rt.alloc(), b"12345", failing)?;
        assert!(rt; reads(rt.alloc(), &mut shelf, name, *limit, *wanted));
    }
    Ok(())
}

// One byte past the limit is read, and no more.
#[test]
fn a_file_over_its_limit_is_left_there(rt: HostRuntime) -> Result<(), Fail> {
    let mut shelf = shelf_of(rt.alloc(), b"01234567", &[])?;
    assert!(rt; reads(rt.alloc(), &mut shelf, "a.stl", 4, Err(ReadAll::TooLong)));
    let mut next = [0; 2];
    assert!(rt; matches!(shelf.read(&mut next), Ok(2)));
    assert!(rt; next == *b"56");
    Ok(())
}

// An empty file, whose length is the limit.
#[test]
fn a_sure_shelf_gives_all(rt: HostRuntime) -> Result<(), Fail> {
    let name = String::from_str(rt.alloc(), "a.stl")?;
    let mut shelf = SureShelf::new(one_file(rt.alloc(), b"")?);
    let read = read_all(rt.alloc(), &mut shelf, name, 0);
    assert!(rt; is_answer(&read, Ok(b"".as_slice())));
    Ok(())
}

// A folder is opened, and then its first read fails.
#[test]
fn a_folder_has_no_bytes(rt: HostRuntime) -> Result<(), Fail> {
    let name = String::from_str(rt.alloc(), ".")?;
    let mut shelf = DirShelf::new(rt);
    shelf.start(name)?;
    match shelf.read(&mut [0; 8]) {
        Ok(_) => Err(Fail::new("a folder was read")),
        Err(_) => Ok(()),
    }
}

fn takes(
    alloc: Global,
    failing: &[u64],
    answer: Result<(), SinkFault>,
    taken: &[u8],
) -> Result<bool, NoMemory> {
    let mut sink = MemSink::new(alloc, 20, 4, Vec::from_slice(alloc, failing)?)?;
    let written = write_all(&mut sink, b"0123456789");
    Ok(written == answer && sink.taken() == taken)
}

#[test]
fn sinks_take_pieces(rt: HostRuntime) -> Result<(), Fail> {
    for (failing, answer, taken) in &WRITTEN {
        assert!(rt; takes(rt.alloc(), failing, *answer, taken)?);
    }
    let mut sink = SureSink::new(rt.alloc(), 20)?;
    assert!(rt; write_all(&mut sink, b"abc") == Ok(()));
    assert!(rt; sink.taken() == Some(b"abc".as_slice()));
    Ok(())
}
