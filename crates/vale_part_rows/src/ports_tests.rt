// The trusted edge, on real files and streams, and the kinds in memory.
use std::test::Fail;
use vale_ports::{
    CalmShelf, CalmSink, CalmSource, DirShelf, FileList, MemShelf, MemSink, Shelf, ShelfFault,
    Sink, SinkFailed, Source, StdSink, StdSource, write_all,
};

#[test]
fn a_folder_keeps_files(rt: HostRuntime) -> Result<(), Fail> {
    let mut shelf = DirShelf::new(&rt);
    assert!(rt; shelf.write(rt.alloc(), "kept", b"some bytes").is_ok());
    let bytes = shelf.read(rt.alloc(), "kept", 4)?;
    assert!(rt; bytes.as_slice() == b"some".as_slice());
    let whole = shelf.read(rt.alloc(), "kept", 100)?;
    assert!(rt; whole.as_slice() == b"some bytes".as_slice());
    assert!(rt;
        matches!(
            shelf.read(rt.alloc(), "absent", 100),
            Err(ShelfFault::Failed)
        )
    );
    Ok(())
}

#[test]
fn streams_take_and_give(rt: HostRuntime) -> Result<(), Fail> {
    let mut out = StdSink::new(rt.stdout());
    assert!(rt; write_all(&mut out, b"written\n").is_ok());
    let mut input = StdSource::new(b"given".as_slice());
    let mut buf = [0; 8];
    assert!(rt; input.read(&mut buf) == Ok(5));
    assert!(rt; input.read(&mut buf) == Ok(0));
    Ok(())
}

#[test]
fn calm_kinds_never_fail(rt: HostRuntime) -> Result<(), Fail> {
    let mut shelf = CalmShelf::new(FileList::new(rt.alloc()));
    let empty = shelf.read(rt.alloc(), "any", 9)?;
    assert!(rt; empty.len() == 0);
    assert!(rt; write_all(&mut CalmSink, b"gone").is_ok());
    let mut buf = [0; 2];
    assert!(rt; CalmSource::new(b"abc").read(&mut buf) == Ok(2));
    Ok(())
}

#[test]
fn a_shelf_in_memory_fails_where_it_is_told_to(rt: HostRuntime) -> Result<(), Fail> {
    let mut shelf = MemShelf::new(FileList::new(rt.alloc()), &[2]);
    assert!(rt; shelf.write(rt.alloc(), "a", b"one").is_ok());
    assert!(rt; matches!(shelf.read(rt.alloc(), "a", 9), Err(ShelfFault::Failed)));
    let bytes = shelf.read(rt.alloc(), "a", 9)?;
    assert!(rt; bytes.as_slice() == b"one".as_slice());
    assert!(rt; shelf.faults == 1);
    Ok(())
}

#[test]
fn a_broken_write_tells_how_far_it_came(rt: HostRuntime) -> Result<(), Fail> {
    let mut sink = MemSink::new(rt.alloc(), 2, &[3]);
    assert!(rt; write_all(&mut sink, b"abcdef") == Err(SinkFailed { done: 4 }));
    assert!(rt; sink.bytes.as_slice() == b"abcd".as_slice());
    Ok(())
}
