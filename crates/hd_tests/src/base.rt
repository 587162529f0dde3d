// Lists, and sources and sinks in memory, on their happy paths, and how a fault shows.
ghost use Rattle.std.specs.Prelude.{◌<◌, IsTrue};

use crate::shared::{expect_bytes, list};
use hd_base::{MemSink, MemSource, ReadError, Sink, Source, WriteFault, read_all, write_all};
use hd_list::List;
use std::process::Abort;

#[test]
fn a_list_keeps_its_items_in_order(rt: HostRuntime) {
    let mut items = List::with_capacity(rt.alloc(), 2).expect(&rt, "memory");
    items.push(b'a').expect(&rt, "memory");
    items.extend_from_slice(b"bc").expect(&rt, "memory");
    expect_bytes(&rt, items.as_slice(), b"abc");
}

// Two files of one name, of which the first has five bytes.
fn five_bytes(rt: &(impl Abort + AllocGlobal), fails: &[u64], piece: usize) -> MemSource
    requires { 0 < piece }
{
    let mut files = List::new(rt.alloc());
    for bytes in [b"abcde".as_slice(), b"second".as_slice()] {
        let file = (list(rt, b"name"), list(rt, bytes));
        files.push(file).expect(rt, "memory");
    }
    MemSource::new(files, list(rt, fails), piece)
}

// Reads the file of this name with a limit.
pub(crate) fn expect_read<S: Source>(
    rt: &(impl Abort + AllocGlobal),
    source: &mut S,
    name: &str,
    limit: usize,
    wanted: &[u8],
)
    requires allowed { IsTrue (S.allows source.old name.now) }
    requires limit { limit < 1000000 }
{
    let bytes = read_all(rt.alloc(), source, name, limit).expect(rt, "a file");
    expect_bytes(rt, bytes.as_slice(), wanted);
}

// Reads the file of this name with a limit, and is refused.
pub(crate) fn expect_refused<S: Source>(
    rt: &(impl Abort + AllocGlobal),
    source: &mut S,
    name: &str,
    limit: usize,
    wanted: ReadError,
)
    requires allowed { IsTrue (S.allows source.old name.now) }
    requires limit { limit < 1000000 }
{
    let error = read_all(rt.alloc(), source, name, limit).err();
    assert_eq!(rt; error, Some(wanted));
}

#[test]
fn a_file_is_read_whole_or_refused(rt: HostRuntime) {
    for piece in [1, 2, 3, 7] {
        let mut source = five_bytes(&rt, &[], piece);
        expect_read(&rt, &mut source, "name", 5, b"abcde");
    }
    let mut source = five_bytes(&rt, &[], 2);
    expect_refused(&rt, &mut source, "name", 4, ReadError::TooLong(4));
    // A fault of one call leaves the next ones.
    let mut source = five_bytes(&rt, &[1], 2);
    expect_refused(&rt, &mut source, "name", 5, ReadError::ReadFault);
    expect_refused(&rt, &mut source, "other", 5, ReadError::ReadFault);
    expect_read(&rt, &mut source, "name", 5, b"abcde");
}

// Opens a sink, and writes and flushes bytes.
pub(crate) fn write_anew<W: Sink>(rt: &impl Abort, sink: &mut W, name: &str, bytes: &[u8])
    requires { IsTrue (W.allows sink.old name.now) }
{
    sink.open(name).expect(rt, "an open sink");
    write_all(sink, bytes).expect(rt, "room");
    sink.flush().expect(rt, "a flush");
}

// A sink in memory with this room.
fn sink_of(rt: &(impl Abort + AllocGlobal), piece: usize, room: usize) -> MemSink
    requires { 0 < piece }
{
    let mut sink = MemSink::new(rt.alloc(), List::new(rt.alloc()), piece);
    sink.reserve(room).expect(rt, "memory");
    sink
}

#[test]
fn files_are_written_one_after_the_other_as_far_as_there_is_room(rt: HostRuntime) {
    let mut sink = sink_of(&rt, 4, 10);
    for bytes in [b"0123456789".as_slice(), b"abc".as_slice()] {
        write_anew(&rt, &mut sink, "name", bytes);
        expect_bytes(&rt, sink.bytes(), bytes);
    }
    let bytes = vec![in rt.alloc(); b'x'; 70_001].expect(&rt, "memory");
    let mut sink = sink_of(&rt, 4_096, 70_001);
    for _ in 0..20 {
        write_anew(&rt, &mut sink, "name", &bytes);
        expect_bytes(&rt, sink.bytes(), &bytes);
    }
    let mut sink = sink_of(&rt, 4, 6);
    assert_eq!(rt; write_all(&mut sink, b"0123456789"), Err(WriteFault));
    expect_bytes(&rt, sink.bytes(), b"012345");
}
