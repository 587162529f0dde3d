// Files of the system and the standard output, each by its happy path.
use crate::base::{expect_read, expect_refused, write_anew};
use hd_base::{FileSink, FileSource, ReadError, Sink, StdoutSink, write_all};
use std::process::Abort;
use std::{fs, io, process};

// A name in the folder for what is temporary.
fn name_of(rt: &(impl Abort + AllocGlobal), number: u32, word: &str) -> String {
    format!(in rt.alloc(); "/tmp/hd_tests-{number}-{word}").expect(rt, "memory")
}

#[test]
fn a_file_of_the_system_is_written_anew_and_read(rt: HostRuntime) {
    let name = name_of(&rt, process::id(rt.process()), "name");
    fs::write(&rt, &name, b"longer than what is written").expect(&rt, "a file");
    write_anew(&rt, &mut FileSink::new(rt.alloc(), &rt), &name, b"short");
    expect_read(
        &rt,
        &mut FileSource::new(rt.alloc(), &rt),
        &name,
        5,
        b"short",
    );
    fs::remove_file(&rt, &name).expect(&rt, "a file");
    let mut sink = StdoutSink::new(rt.alloc(), io::writer(&rt)).expect(&rt, "memory");
    write_anew(&rt, &mut sink, "any", b"written\n");
}

#[test]
fn of_two_opened_files_the_first_goes_and_the_second_is_saved(rt: HostRuntime) {
    let number = process::id(rt.process());
    let first = name_of(&rt, number, "first");
    let second = name_of(&rt, number, "second");
    let mut sink = FileSink::new(rt.alloc(), &rt);
    sink.open(&first).expect(&rt, "a file");
    write_all(&mut sink, b"first").expect(&rt, "a write");
    write_anew(&rt, &mut sink, &second, b"second");
    let mut source = FileSource::new(rt.alloc(), &rt);
    expect_read(&rt, &mut source, &second, 6, b"second");
    for word in ["first", "first.new0", "second.new0"] {
        let name = name_of(&rt, number, word);
        expect_refused(&rt, &mut source, &name, 6, ReadError::ReadFault);
    }
    fs::remove_file(&rt, &second).expect(&rt, "a file");
}
