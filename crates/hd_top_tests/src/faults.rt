// What is written where a call of a source or of a sink fails, and that none is called after the call that decides.
use crate::runs::{Given, HELD, PROFILE, run};
use hd_base::{Sink, Source};
use hd_top::Status;
use std::process::Abort;

const MEASURED: &str = "aBCR-1.0\r
ManufacID   = Lab 7\r
CreateDate  = 010120261230\r
ModDate     = 010120261230\r
NumPoints   = 4\r
NumProfiles = 2\r
Xscale      = 1.0E-006\r
Yscale      = 1.0E-006\r
Zscale      = 1.0E-009\r
Zresolution = -1\r
Compression = 0\r
DataType    = 6\r
CheckType   = 0\r
; exported\r
Objective = 50x\r
*\r
12 13\r
BAD 15 16 17 18\r
19\r
*\r
Operator: A. N.\r
";

// What is saved of it: what stands before the data, the data, and what stands behind them.
const MEASURED_PARTS: [&str; 3] = [
    "aBCR-1.0\nManufacID = Lab 7\nCreateDate = 010120261230\nModDate = 010120261230\nNumPoints = 4\nNumProfiles = 2\nXscale = 1.0E-006\nYscale = 1.0E-006\nZscale = 1.0E-009\nZresolution = -1\nCompression = 0\nDataType = 6\nCheckType = 0\nObjective = 50x\n*\n",
    "12 13 BAD 15\n16 17 18 19\n",
    "*\nOperator: A. N.\n",
];

const PROFILE_PARTS: [&str; 3] = [
    "aBCR-1.0\nManufacID = demo\nCreateDate = 010120260000\nModDate = 010120260000\nNumPoints = 3\nNumProfiles = 1\nXscale = 1e-6\nYscale = 1e-6\nZscale = 1e-9\nZresolution = -1\nCompression = 0\nDataType = 5\nCheckType = 0\n*\n",
    "0 5 1\n",
    "*\n",
];

// A run: its words; its inputs, of which it reads so many to their ends; and, where no call fails, its status, its answers
// and the parts that it saves.
#[derive(Clone, Copy)]
struct Trial<'a> {
    words: &'a str,
    surface: &'a str,
    second: &'a str,
    inputs: u32,
    status: Status,
    answers: &'a [&'a str],
    parts: &'a [&'a str],
}

const TRIALS: [Trial<'static>; 11] = [
    Trial {
        words: "run A B --save C",
        surface: MEASURED,
        second: "dales",
        inputs: 2,
        status: Status::Done,
        answers: &["dales 2\ndale 0 0 12 5\ndale 3 0 15 2\n"],
        parts: &MEASURED_PARTS,
    },
    Trial {
        words: "dales A",
        surface: MEASURED,
        second: "",
        inputs: 1,
        status: Status::Done,
        answers: &["dales 2\ndale 0 0 12 5\ndale 3 0 15 2\n"],
        parts: &[],
    },
    Trial {
        words: "run A B --save C",
        surface: PROFILE,
        second: "dales\nset 1 0 5\n",
        inputs: 2,
        status: Status::Done,
        answers: &["dales 2\ndale 0 0 0 2\ndale 2 0 1 1\n", "line 2 ok\n"],
        parts: &PROFILE_PARTS,
    },
    Trial {
        words: "run A B",
        surface: PROFILE,
        second: "set 1 0 5\n;\ndales\nplot\n",
        inputs: 2,
        status: Status::LineRefused,
        answers: &[
            "line 1 ok\n",
            "dales 2\ndale 0 0 0 2\ndale 2 0 1 1\n",
            "line 4 refused: unknown command\n",
        ],
        parts: &[],
    },
    Trial {
        words: "check A B",
        surface: PROFILE,
        second: "dales\nset 1 0 5\n",
        inputs: 2,
        status: Status::CertificateRefused,
        answers: &["certificate unreadable: line 1\n"],
        parts: &[],
    },
    Trial {
        words: "run A B --save C",
        surface: "",
        second: "dales\n",
        inputs: 1,
        status: Status::SurfaceRefused,
        answers: &["surface refused: line 1: bad version\n"],
        parts: &[],
    },
    Trial {
        words: "run A",
        surface: PROFILE,
        second: "",
        inputs: 0,
        status: Status::Usage,
        answers: &[
            "usage: hilldale dales SURFACE\nusage: hilldale run SURFACE SCRIPT [--tile N] [--save OUT]\nusage: hilldale check SURFACE CERT\nusage: hilldale demo W H NUMBER EDITS [--tile N]\n",
        ],
        parts: &[],
    },
    Trial {
        words: "check A B",
        surface: "aBCR-1.0\nNumPoints = 3\nNumProfiles = 3\nXscale = 1e-6\nYscale = 1e-6\nZscale = 1e-9\nDataType = 5\n*\n0 9 1\n4 9 5\n6 2 6\n",
        second: "certificate D 8\nfrom 0 0\nto 2 0\nsaddle 2 1 5\npath 5\n0 0\n0 1\n1 2\n2 1\n2 0\ncut 3\n0 0\n0 1\n1 2\nend\n",
        inputs: 2,
        status: Status::Done,
        answers: &["certificate accepted\n"],
        parts: &[],
    },
    Trial {
        words: "check A B",
        surface: PROFILE,
        second: "certificate D 8\nfrom 0 0\nto 2 0\nsaddle 1 0 5\npath 3\n0 0\n1 0\n2 0\ncut 1\n0 0\nend\n",
        inputs: 2,
        status: Status::Done,
        answers: &["certificate accepted\n"],
        parts: &[],
    },
    Trial {
        words: "check A B",
        surface: PROFILE,
        second: "pruning D 90% 8\npoints 3\n0 - 0\n1 0 -\n2 1 -\nend\n",
        inputs: 2,
        status: Status::Done,
        answers: &["certificate accepted\n"],
        parts: &[],
    },
    Trial {
        words: "demo 3 1 7 1",
        surface: PROFILE,
        second: "",
        inputs: 0,
        status: Status::Done,
        answers: &[
            "demo 3 1 7 1\ndales 2\nhills 1\nkept dales 2\nkept hills 1\nSpd 1/3\nS10z 4761/1\nedits 1\ndales 1\nhills 2\nkept dales 1\nkept hills 2\nSpd 2/3\nS10z 3847/1\n",
        ],
        parts: &[],
    },
];

// A call: of the surface `A`, the second input `B`, the file to save `C` or the output `-`; what it writes, or none where it
// opens; and whether it fails.
#[derive(Clone, Copy)]
struct Call<'a> {
    of: char,
    bytes: Option<&'a [u8]>,
    fails: bool,
}

// Adds a call that does not fail.
fn push_call<'a>(rt: &impl Abort, calls: &mut Vec<Call<'a>>, of: char, bytes: Option<&'a [u8]>) {
    let fails = false;
    calls.push(Call { of, bytes, fails }).expect(rt, "memory");
}

// Adds the calls that write a text, a piece each.
fn push_pieces<'a>(
    rt: &impl Abort,
    calls: &mut Vec<Call<'a>>,
    of: char,
    text: &'a str,
    piece: usize,
) {
    for bytes in text.as_bytes().chunks(piece.max(1)) {
        push_call(rt, calls, of, Some(bytes));
    }
}

// Adds the calls that open a file, read or write its parts, and find the end or flush.
fn push_file<'a>(
    rt: &impl Abort,
    calls: &mut Vec<Call<'a>>,
    of: char,
    parts: &[&'a str],
    piece: usize,
) {
    push_call(rt, calls, of, None);
    for part in parts {
        push_pieces(rt, calls, of, part, piece);
    }
    push_call(rt, calls, of, Some(b""));
}

// The calls of a trial in their order, where none fails.
fn calls_of<'a>(rt: &(impl Abort + AllocGlobal), trial: &Trial<'a>, piece: usize) -> Vec<Call<'a>> {
    let mut calls = Vec::new(rt.alloc());
    if 0 < trial.inputs {
        push_file(rt, &mut calls, 'A', &[trial.surface], piece);
    }
    if 1 < trial.inputs {
        push_file(rt, &mut calls, 'B', &[trial.second], piece);
    }
    for answer in trial.answers {
        push_pieces(rt, &mut calls, '-', answer, piece);
    }
    if !trial.parts.is_empty() {
        push_file(rt, &mut calls, 'C', trial.parts, piece);
    }
    push_call(rt, &mut calls, '-', Some(b""));
    calls
}

// The numbers of the calls of one that fail, where its first has this number; and that of the call after the last.
fn fails_of(rt: &(impl Abort + AllocGlobal), calls: &[Call<'_>], of: char, first: u64) -> Vec<u64> {
    let mut fails = Vec::new(rt.alloc());
    let mut number = first;
    for call in calls {
        if call.of == of {
            if call.fails {
                fails.push(number).expect(rt, "memory");
            }
            number = number.saturating_add(1);
        }
    }
    fails.push(number).expect(rt, "memory");
    fails
}

// What a sink holds after these calls, where it held these bytes before.
fn held(rt: &(impl Abort + AllocGlobal), calls: &[Call<'_>], of: char, before: &str) -> Vec<u8> {
    let mut held = before.as_bytes().to_vec(rt.alloc()).expect(rt, "memory");
    for call in calls {
        if call.of == of && !call.fails {
            match call.bytes {
                Some(bytes) => held.extend_from_slice(bytes).expect(rt, "memory"),
                None => held.clear(),
            }
        }
    }
    held
}

// Compares how a run ends that is to make these calls and no other: the next of each source and sink would fail.
fn expect_end(
    rt: &(impl Abort + AllocGlobal),
    given: Given<'_>,
    calls: &[Call<'_>],
    status: Status,
) {
    let surface = fails_of(rt, calls, 'A', 0);
    let second = fails_of(rt, calls, 'B', 0);
    let out = fails_of(rt, calls, '-', 0);
    let saved = fails_of(rt, calls, 'C', 1);
    let mut ended = run(rt, given, [&surface, &second, &out, &saved]);
    assert_eq!(rt; ended.status, status, "{}", given.words);
    assert_eq!(rt; ended.out.bytes(), held(rt, calls, '-', "").as_slice());
    assert_eq!(rt; ended.saved.bytes(), held(rt, calls, 'C', HELD).as_slice());
    assert!(rt; ended.surface.open("A").is_err() && ended.second.open("B").is_err());
    assert!(rt; ended.out.flush().is_err() && ended.saved.flush().is_err());
}

// Compares how a run ends after these calls, of which the last is a read fault. Where it is not told whole, it is a write
// fault.
fn expect_read_fault(rt: &(impl Abort + AllocGlobal), given: Given<'_>, calls: &[Call<'_>]) {
    let mut telling = Vec::new(rt.alloc());
    push_pieces(rt, &mut telling, '-', "read fault\n", given.piece);
    push_call(rt, &mut telling, '-', Some(b""));
    let mut made = calls.to_vec(rt.alloc()).expect(rt, "memory");
    for call in &telling {
        let fails = true;
        made.push(Call { fails, ..*call }).expect(rt, "memory");
        expect_end(rt, given, &made, Status::WriteFault);
        made.pop();
        made.push(*call).expect(rt, "memory");
    }
    expect_end(rt, given, &made, Status::ReadFault);
}

// Lets each of these calls fail.
fn expect_faults(rt: &(impl Abort + AllocGlobal), given: Given<'_>, calls: &[Call<'_>]) {
    let mut made = Vec::new(rt.alloc());
    for call in calls {
        let fails = true;
        made.push(Call { fails, ..*call }).expect(rt, "memory");
        if call.of == 'A' || call.of == 'B' {
            expect_read_fault(rt, given, &made);
        } else {
            expect_end(rt, given, &made, Status::WriteFault);
        }
        made.pop();
        made.push(*call).expect(rt, "memory");
    }
}

// Tries a trial by pieces of several sizes, each call failing by some of them.
fn expect_trial(rt: &(impl Abort + AllocGlobal), trial: &Trial<'_>) {
    for piece in [1, 2, 3, 4, 7, 64, 100] {
        let given = Given {
            words: trial.words,
            surface: trial.surface,
            second: trial.second,
            piece,
        };
        let calls = calls_of(rt, trial, piece);
        expect_end(rt, given, &calls, trial.status);
        if 3 < piece {
            expect_faults(rt, given, &calls);
        }
    }
}

#[test]
fn each_call_that_fails_ends_the_run(rt: HostRuntime) {
    for trial in &TRIALS {
        expect_trial(&rt, trial);
    }
}

#[test]
fn a_file_that_is_not_there_is_a_read_fault(rt: HostRuntime) {
    let rows = [
        ("dales C", 'A'),
        ("run A C", 'B'),
        ("run D B --save C", 'A'),
        ("check C B", 'A'),
        ("check A C", 'B'),
    ];
    for (words, of) in rows {
        let given = Given {
            words,
            surface: PROFILE,
            second: "dales",
            piece: 64,
        };
        let mut calls = Vec::new(rt.alloc());
        if of == 'B' {
            push_file(&rt, &mut calls, 'A', &[PROFILE], 64);
        }
        push_call(&rt, &mut calls, of, None);
        expect_read_fault(&rt, given, &calls);
    }
}
