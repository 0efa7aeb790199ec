use std::alloc::Global;
use std::fs;
use std::test::Fail;
use tie_io::{FileShelf, MemShelf, MemSink, PutFault, ReadFault, Shelf, Sink, StdSink};

// What a read of this name with a limit of 3 bytes answers and leaves in the buffer.
fn read_three<S: Shelf>(
    alloc: Global,
    shelf: &mut S,
    name: &str,
) -> (Result<(), ReadFault>, Vec<u8>) {
    let mut bytes = Vec::new(alloc);
    let answer = shelf.read(name, 3, &mut bytes);
    (answer, bytes)
}

#[test]
fn memory_shelf(rt: HostRuntime) -> Result<(), Fail> {
    let alloc = rt.alloc();
    let mut shelf = MemShelf::new(alloc, vec![in alloc; 1]?);
    assert!(rt; shelf.add("a", b"old").is_ok());
    assert!(rt; shelf.add("b", b"four").is_ok());
    assert!(rt; shelf.add("a", b"new").is_ok());
    let rows: [(&str, Result<(), ReadFault>, &str, u64); 5] = [
        ("a", Ok(()), "new", 0),
        ("a", Err(ReadFault::Failed), "", 1),
        ("b", Err(ReadFault::TooLong), "four", 1),
        ("c", Err(ReadFault::Failed), "", 2),
        ("a", Ok(()), "new", 2),
    ];
    for (name, answer, bytes, faults) in &rows {
        let (given, read) = read_three(alloc, &mut shelf, name);
        assert_eq!(rt; given, *answer);
        assert_eq!(rt; read.as_slice(), bytes.as_bytes());
        assert_eq!(rt; shelf.faults(), *faults);
    }
    Ok(())
}

#[test]
fn memory_sink(rt: HostRuntime) -> Result<(), Fail> {
    let alloc = rt.alloc();
    let mut sink = MemSink::new(alloc, vec![in alloc; 1]?);
    assert_eq!(rt; sink.put(b"one "), Ok(()));
    assert_eq!(rt; sink.put(b"two "), Err(PutFault::Failed));
    assert_eq!(rt; sink.put(b"three"), Ok(()));
    assert_eq!(rt; sink.written(), b"one three".as_slice());
    assert_eq!(rt; sink.faults(), 1);
    Ok(())
}

#[test]
fn system(rt: HostRuntime) -> Result<(), Fail> {
    let alloc = rt.alloc();
    let mut shelf = FileShelf::new(&rt);
    let (absent, _) = read_three(alloc, &mut shelf, "no such file");
    assert_eq!(rt; absent, Err(ReadFault::Failed));
    fs::write(&rt, "four", "four")?;
    let (answer, bytes) = read_three(alloc, &mut shelf, "four");
    assert_eq!(rt; answer, Err(ReadFault::TooLong));
    assert_eq!(rt; bytes.as_slice(), b"four".as_slice());
    fs::remove_file(&rt, "four")?;
    let mut errors = StdSink::errors(&rt);
    assert_eq!(rt; errors.put(b"a line\n"), Ok(()));
    Ok(())
}
