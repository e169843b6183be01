use crate::{
    Held, HostShelf, MemoryShelf, MemorySink, Shelf, ShelfFail, Sink, SinkFail, StdSink, put_all,
};
use cob_base::{ByteText, NoMemory};
use std::alloc::Global;
use std::fs::File;
use std::io;
use std::test::Fail;

fn held(alloc: Global, name: &[u8], bytes: Option<&[u8]>) -> Result<Held, NoMemory> {
    Ok(Held {
        name: ByteText::from_bytes(alloc, name)?,
        bytes: match bytes {
            None => None,
            Some(bytes) => Some(ByteText::from_bytes(alloc, bytes)?),
        },
    })
}

/// `a` may be written, `b` holds `old`, and a second `b` counts for nothing.
fn files(alloc: Global) -> Result<Vec<Held>, NoMemory> {
    let mut files = Vec::new(alloc);
    files.push(held(alloc, b"a", None)?)?;
    files.push(held(alloc, b"b", Some(b"old"))?)?;
    files.push(held(alloc, b"b", Some(b"second"))?)?;
    Ok(files)
}

#[test]
fn the_host_tells_missing_long_and_failing_texts_apart(rt: HostRuntime) -> Result<(), Fail> {
    let alloc = rt.alloc();
    let mut shelf = HostShelf::new(&rt);
    assert!(rt; matches!(shelf.read(alloc, "one", 9), Ok(None)));
    assert!(rt; shelf.write("one", b"12345").is_ok());
    let read = shelf.read(alloc, "one", 5)?.ok_or("none")?;
    assert_eq!(rt; read.as_slice(), b"12345".as_slice());
    assert!(rt; matches!(shelf.read(alloc, "one", 4), Err(ShelfFail::TooLong)));
    assert!(rt; matches!(shelf.read(alloc, ".", 9), Err(ShelfFail::Failed)));
    assert!(rt; matches!(shelf.write("no/such/folder", b"1"), Err(ShelfFail::Failed)));
    assert!(rt; matches!(shelf.write("/dev/full", b"1"), Err(ShelfFail::Failed)));
    Ok(())
}

#[test]
fn standard_output_takes_all_and_a_full_device_nothing(rt: HostRuntime) -> Result<(), Fail> {
    let mut out = StdSink::new(io::writer(&rt));
    assert!(rt; put_all(&mut out, b"taken\n").is_ok());
    let mut full = StdSink::new(File::create(&rt, "/dev/full")?);
    assert_eq!(rt; full.put(b"lost"), Err(SinkFail::Failed));
    Ok(())
}

#[test]
fn a_sink_in_memory_takes_pieces_up_to_its_room(rt: HostRuntime) -> Result<(), Fail> {
    let alloc = rt.alloc();
    let mut short = MemorySink::make(alloc, 5, 2, Vec::new(alloc))?;
    assert_eq!(rt; put_all(&mut short, b"123456"), Err(SinkFail::Failed));
    assert_eq!(rt; short.bytes(), b"12345".as_slice());
    assert_eq!(rt; short.put(b""), Ok(0));
    let mut failing = MemorySink::make(alloc, 9, 2, [2].to_vec(alloc)?)?;
    assert_eq!(rt; failing.put(b"123"), Ok(2));
    assert_eq!(rt; failing.put(b"3"), Err(SinkFail::Failed));
    assert_eq!(rt; failing.put(b"3"), Ok(1));
    assert_eq!(rt; failing.bytes(), b"123".as_slice());
    Ok(())
}

#[test]
fn a_shelf_in_memory_holds_what_was_written(rt: HostRuntime) -> Result<(), Fail> {
    let alloc = rt.alloc();
    let none = Vec::new(alloc);
    let mut shelf = MemoryShelf::make(alloc, files(alloc)?, none, Vec::new(alloc), 0, 8)?;
    assert!(rt; matches!(shelf.read(alloc, "a", 8), Ok(None)));
    assert!(rt; shelf.write("a", b"first").is_ok());
    assert!(rt; shelf.write("a", b"again").is_ok());
    assert!(rt; matches!(shelf.write("c", b"third"), Err(ShelfFail::Failed)));
    assert!(rt; matches!(shelf.write("a", b"123456789"), Err(ShelfFail::Failed)));
    let first = shelf.read(alloc, "a", 8)?.ok_or("a")?;
    assert_eq!(rt; first.as_slice(), b"again".as_slice());
    let second = shelf.read(alloc, "b", 3)?.ok_or("b")?;
    assert_eq!(rt; second.as_slice(), b"old".as_slice());
    assert!(rt; matches!(shelf.read(alloc, "b", 2), Err(ShelfFail::TooLong)));
    assert!(rt; matches!(shelf.read(alloc, "c", 2), Ok(None)));
    Ok(())
}

#[test]
fn a_shelf_in_memory_fails_where_it_is_told_to(rt: HostRuntime) -> Result<(), Fail> {
    let alloc = rt.alloc();
    let reads = [2].to_vec(alloc)?;
    let writes = [1, 3].to_vec(alloc)?;
    let mut shelf = MemoryShelf::make(alloc, files(alloc)?, reads, writes, 2, 8)?;
    assert!(rt; matches!(shelf.write("b", b"second"), Err(ShelfFail::Failed)));
    let part = shelf.read(alloc, "b", 8)?.ok_or("b")?;
    assert_eq!(rt; part.as_slice(), b"se".as_slice());
    assert!(rt; matches!(shelf.read(alloc, "b", 8), Err(ShelfFail::Failed)));
    assert!(rt; shelf.write("b", b"third").is_ok());
    assert!(rt; matches!(shelf.write("b", b"x"), Err(ShelfFail::Failed)));
    let short = shelf.read(alloc, "b", 8)?.ok_or("b")?;
    assert_eq!(rt; short.as_slice(), b"x".as_slice());
    Ok(())
}
