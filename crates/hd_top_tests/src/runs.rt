// Runs of the program over sources and sinks in memory.
use hd_base::{MemSink, MemSource, write_all};
use hd_list::List;
use hd_top::{Status, top};
use std::process::Abort;

// The surface of three points in a file of its own.
pub(crate) const PROFILE: &str = "aBCR-1.0
ManufacID = demo
CreateDate = 010120260000
ModDate = 010120260000
NumPoints = 3
NumProfiles = 1
Xscale = 1e-6
Yscale = 1e-6
Zscale = 1e-9
Zresolution = -1
Compression = 0
DataType = 5
CheckType = 0
*
0 5 1
*
";

// What the file to save holds before a run, which a call of its own has written.
pub(crate) const HELD: &str = "x";

// What a run is given: its words, the surface `A`, the second input `B`, and the bytes of a piece of each source and sink.
#[derive(Clone, Copy)]
pub(crate) struct Given<'a> {
    pub(crate) words: &'a str,
    pub(crate) surface: &'a str,
    pub(crate) second: &'a str,
    pub(crate) piece: usize,
}

// How a run ends: its status, and its sources and sinks.
#[derive(Drop)]
pub(crate) struct Ended {
    pub(crate) status: Status,
    pub(crate) surface: MemSource,
    pub(crate) second: MemSource,
    pub(crate) out: MemSink,
    pub(crate) saved: MemSink,
}

// The words as the program gets them.
fn words_of(rt: &(impl Abort + AllocGlobal), words: &str) -> Vec<String> {
    let mut given = Vec::new(rt.alloc());
    for word in words.split_ascii_whitespace() {
        let word = String::from_str(rt.alloc(), word).expect(rt, "memory");
        given.push(word).expect(rt, "memory");
    }
    given
}

// A list of these items.
fn list<T: Copy>(rt: &(impl Abort + AllocGlobal), items: &[T]) -> List<T> {
    List::from_slice(rt.alloc(), items).expect(rt, "memory")
}

// A source of one file, of whose calls these fail.
fn source_of(
    rt: &(impl Abort + AllocGlobal),
    name: &str,
    bytes: &str,
    fails: &[u64],
    piece: usize,
) -> MemSource {
    let file = (list(rt, name.as_bytes()), list(rt, bytes.as_bytes()));
    let mut files = List::new(rt.alloc());
    files.push(file).expect(rt, "memory");
    MemSource::new(files, list(rt, fails), piece.max(1))
}

// A sink with ample room, of whose calls these fail.
fn sink_of(rt: &(impl Abort + AllocGlobal), fails: &[u64], piece: usize) -> MemSink {
    let mut sink = MemSink::new(rt.alloc(), list(rt, fails), piece.max(1));
    sink.reserve(65536).expect(rt, "memory");
    sink
}

// Runs the program, where these calls fail: of the surface, the second input, the output and the file to save.
pub(crate) fn run(rt: &(impl Abort + AllocGlobal), given: Given<'_>, fails: [&[u64]; 4]) -> Ended {
    let words = words_of(rt, given.words);
    let mut surface = source_of(rt, "A", given.surface, fails[0], given.piece);
    let mut second = source_of(rt, "B", given.second, fails[1], given.piece);
    let mut out = sink_of(rt, fails[2], given.piece);
    let mut saved = sink_of(rt, fails[3], given.piece);
    write_all(&mut saved, HELD.as_bytes()).expect(rt, "a write");
    let words = words.as_slice();
    let status = top(
        rt.alloc(),
        words,
        &mut surface,
        &mut second,
        &mut out,
        &mut saved,
    );
    Ended {
        status,
        surface,
        second,
        out,
        saved,
    }
}
