// The runs that the program was asked for with what they print, each of which takes memory only where it is ample.
use crate::runs::{Given, run};
use std::process::Abort;

// Each row has its words, its surface as the code of its type, its points, its profiles and its data, its second input,
// and its status with what is printed. Bars stand between lines, and `slope` for the heights x + y of 64 by 64 points.
const ROWS: &str = "dales A
5 3 1 0 5 1
dales
Done | dales 2 | dale 0 0 0 2 | dale 2 0 1 1

run A B
5 3 1 0 5 1
hills | saddle D 0 0 2 0
Done | hills 1 | hill 1 0 5 3 | certificate D 8 | from 0 0 | to 2 0 | saddle 1 0 5 | path 3 | 0 0 | 1 0 | 2 0 | cut 1 | 0 0 | end

run A B
5 3 1 0 5 1
param S5p | param S5v | param S10z | param Spd | param Sda 3 | param Sda -1 | param Sha 6 | param Sha 5
Done | param S5p 5/1 | param S5v 9/2 | param S10z 19/2 | param Spd 1/3 | param Sda 3 none | param Sda -1 3/2 | param Sha 6 3/1 | param Sha 5 none

run A B
5 3 1 0 5 1
prune D 90% | prune D 80%
Done | prune D 90% 1 1 | step 2 0 local 4 saddle 1 0 into 0 0 | dale 0 0 0 3 | prune D 80% 0 2 | dale 0 0 0 2 | dale 2 0 1 1

run A B
5 1 1 4
dales | hills | param S10z | param Spd
Done | dales 1 | dale 0 0 4 1 | hills 1 | hill 0 0 4 1 | param S10z 0/1 | param Spd 1/1

run A B
5 3 3 7 7 7 | 7 7 7 | 7 7 7
dales | hills
Done | dales 1 | dale 0 0 7 9 | hills 1 | hill 2 2 7 9

run A B
5 5 2 7 BAD 7 BAD 7 | 7 7 7 7 7
dales | tree D | prune D 5%
Done | dales 3 | dale 0 0 7 3 | dale 2 0 7 3 | dale 4 0 7 2 | tree D 2 | saddle 1 1 7 2 0 0 2 0 | saddle 3 1 7 2 0 0 4 0 | prune D 5% 0 3 | dale 0 0 7 3 | dale 2 0 7 3 | dale 4 0 7 2

run A B
5 2 1 BAD BAD
dales | param Spd | info
Done | dales 0 | param Spd none | info | size 2 1 | type 5 | present 0 | range none | scales 1e-6 1e-6 1e-9

run A B
5 3 3 0 9 1 | 9 5 9 | 2 9 9
tree D | prune D 40% | prune D 50%
Done | tree D 1 | saddle 1 1 5 3 0 0 2 0 0 2 | prune D 40% 1 2 | step 0 2 local 3 saddle 1 1 into 0 0 | dale 0 0 0 7 | dale 2 0 1 2 | prune D 50% 2 1 | step 0 2 local 3 saddle 1 1 into 0 0 | step 2 0 local 4 saddle 1 1 into 0 0 | dale 0 0 0 9

run A B
5 3 1 0 5 1
mask 1 0 1 0 | saddle D 0 0 2 0 | unmask 1 0 1 0 | label D 1 0
Done | line 1 ok | certificate D 8 | from 0 0 | to 2 0 | saddle none | cut 1 | 0 0 | end | line 3 ok | label D 1 0 in 0 0

run A B
5 3 3 0 9 1 | 4 9 5 | 6 2 6
dales | tree D | saddle D 0 0 2 0
Done | dales 3 | dale 0 0 0 4 | dale 2 0 1 2 | dale 1 2 2 3 | tree D 2 | saddle 0 1 4 2 0 0 1 2 | saddle 2 1 5 2 0 0 2 0 | certificate D 8 | from 0 0 | to 2 0 | saddle 2 1 5 | path 5 | 0 0 | 0 1 | 1 2 | 2 1 | 2 0 | cut 3 | 0 0 | 0 1 | 1 2 | end

run A B
5 64 64 slope
dales | set 7 7 -5 | dales
Done | dales 1 | dale 0 0 0 4096 | line 2 ok | dales 2 | dale 0 0 0 3812 | dale 7 7 -5 284

run --tile 8 A B
5 64 64 slope
dales | set 7 7 -5 | dales
Done | dales 1 | dale 0 0 0 4096 | line 2 ok | dales 2 | dale 0 0 0 3812 | dale 7 7 -5 284

run A B --tile=256
5 64 64 slope
dales | set 7 7 -5 | dales
Done | dales 1 | dale 0 0 0 4096 | line 2 ok | dales 2 | dale 0 0 0 3812 | dale 7 7 -5 284

run A B --tile 8
5 48 1 1 2 3 4 5 6 7 8 9 10 11 12 13 14 15 16 17 18 19 20 21 22 23 24 25 26 27 28 29 30 31 32 33 34 35 36 37 38 39 40 41 42 43 44 45 46 47 48
label D 47 0 | set 0 0 100 | label D 47 0
Done | label D 47 0 in 0 0 | line 2 ok | label D 47 0 in 1 0

run A B --tile 256
5 48 1 1 2 3 4 5 6 7 8 9 10 11 12 13 14 15 16 17 18 19 20 21 22 23 24 25 26 27 28 29 30 31 32 33 34 35 36 37 38 39 40 41 42 43 44 45 46 47 48
label D 47 0 | set 0 0 100 | label D 47 0
Done | label D 47 0 in 0 0 | line 2 ok | label D 47 0 in 1 0

run A B
0 3 1 0 5 1
set 1 0 256 | dales | set 1 0 255 | set 3 0 1
LineRefused | line 1 refused: height out of range at 1 0 | dales 2 | dale 0 0 0 2 | dale 2 0 1 1 | line 3 ok | line 4 refused: 3 0 is outside

run A B
5 3 1 0 5 1
set 0 0 1 | set 0 0 2 | set 0 0 3 | set 0 0 4 | set 0 0 5 | set 0 0 6 | set 0 0 7 | set 0 0 8 | set 0 0 9 | set 0 0 10 | set 0 0 11 | set 0 0 12 | set 0 0 13 | set 0 0 14 | set 0 0 15 | set 0 0 16 | set 0 0 17 | set 0 0 18 | set 0 0 19 | set 0 0 20 | set 0 0 21 | set 0 0 22 | set 0 0 23 | set 0 0 24 | set 0 0 25 | set 0 0 26 | set 0 0 27 | set 0 0 28 | set 0 0 29 | set 0 0 30 | set 0 0 31 | set 0 0 32 | set 0 0 33 | set 0 0 34 | set 0 0 35 | set 0 0 36 | set 0 0 37 | set 0 0 38 | set 0 0 39 | set 0 0 40 | undo 33 | undo 32 | dales
LineRefused | line 1 ok | line 2 ok | line 3 ok | line 4 ok | line 5 ok | line 6 ok | line 7 ok | line 8 ok | line 9 ok | line 10 ok | line 11 ok | line 12 ok | line 13 ok | line 14 ok | line 15 ok | line 16 ok | line 17 ok | line 18 ok | line 19 ok | line 20 ok | line 21 ok | line 22 ok | line 23 ok | line 24 ok | line 25 ok | line 26 ok | line 27 ok | line 28 ok | line 29 ok | line 30 ok | line 31 ok | line 32 ok | line 33 ok | line 34 ok | line 35 ok | line 36 ok | line 37 ok | line 38 ok | line 39 ok | line 40 ok | line 41 refused: only 32 edits kept | line 42 ok | dales 1 | dale 2 0 1 3

run A B
5 5 1 3 BAD 4 1 4
element f 3 1 0 0 0 | open f | dales | open f | dales
Done | line 1 ok | line 2 ok | dales 2 | dale 0 0 3 1 | dale 2 0 1 3 | line 4 ok | dales 2 | dale 0 0 3 1 | dale 2 0 1 3

dales A
5 3 1 0 5
dales
SurfaceRefused | surface refused: only 2 data

run A B
5 3 1 0 5 1 9
dales
SurfaceRefused | surface refused: datum 4 is one too many

check A B
5 3 1 0 12.5 1
dales
SurfaceRefused | surface refused: datum 2 is not whole or BAD

dales A
5 3 1 0 40000 1
dales
SurfaceRefused | surface refused: datum 2 is out of range

check A B
5 3 3 0 9 1 | 4 9 5 | 6 2 6
certificate D 8 | from 0 0 | to 2 0 | saddle 2 1 5 | path 5 | 0 0 | 0 1 | 1 2 | 2 1 | 2 0 | cut 3 | 0 0 | 0 1 | 1 2 | end
Done | certificate accepted

check A B
5 3 3 0 9 1 | 4 9 5 | 6 2 6
certificate D 8 | from 0 0 | to 2 0 | saddle 2 1 5 | path 5 | 0 0 | 0 1 | 1 2 | 2 1 | 2 0 | cut 2 | 0 0 | 1 2 | end
CertificateRefused | certificate refused: rule 11 at 0 1

check A B
5 3 3 0 9 1 | 4 9 5 | 6 2 6
certificate D 8 | from 0 0 | to 2 0 | saddle 2 1 5 | path 5 | 0 0 | 1 1 | 1 2 | 2 1 | 2 0 | cut 3 | 0 0 | 0 1 | 1 2 | end
CertificateRefused | certificate refused: rule 7 at 1 1

check A B
5 3 3 0 9 1 | 4 9 5 | 6 2 6
certificate X 8 | from 0 0 | to 2 0 | saddle 2 1 5 | path 5 | 0 0 | 0 1 | 1 2 | 2 1 | 2 0 | cut 3 | 0 0 | 0 1 | 1 2 | end
CertificateRefused | certificate unreadable: line 1

run A B
5 3 1 0 5 1
feature FC;D;Wolfprune:5%;Top:5;lpvh;Mean | feature FC;D;Wolfprune:101%;Bot:5;lpvh;Mean | feature FC;D;Wolfprune:5%;Bot:1;lpvh;Max | param Sda | param Spd 3 | param Foo
LineRefused | line 1 refused: part 4 does not go with the type | line 2 refused: part 3 has not its form | feature FC;D;Wolfprune:5%;Bot:1;lpvh;Max 5/1 | line 4 refused: the parameter needs a height | line 5 refused: the parameter takes no height | line 6 refused: unknown parameter

demo 3 1 7 1
5 3 1 0 5 1
dales
Done | demo 3 1 7 1 | dales 2 | hills 1 | kept dales 2 | kept hills 1 | Spd 1/3 | S10z 4761/1 | edits 1 | dales 1 | hills 2 | kept dales 1 | kept hills 2 | Spd 2/3 | S10z 3847/1

run A B
5 3 1 0 5 1
element f 3 1 0 0 0 | dilate f | dales | undo 1 | erode f | dales | undo 1 | close f | hills
Done | line 1 ok | line 2 ok | dales 1 | dale 0 0 5 3 | line 4 ok | line 5 ok | dales 1 | dale 0 0 0 3 | line 7 ok | line 8 ok | hills 1 | hill 2 0 5 3

run A B
5 3 1 0 5 1
element f 3 1 0 0 0 | element g 1 1 0 | element f 1 1 2 | elements | element h 2 1 0 0 | element h 3 1 0 - 0 | element h 3 1 0 0 | dilate h
LineRefused | line 1 ok | line 2 ok | line 3 ok | elements 2 | element f 1 1 | element g 1 1 | line 5 refused: element size is even | line 6 refused: element has no origin | line 7 refused: wrong number of words | line 8 refused: no element of this name

run A B
5 3 1 0 5 1
saddle D 0 0 1 0 | bad 1 0 | label H 1 0 | add 2 0 0 0 1 | add 0 0 2 0 10 | dales | plot
LineRefused | line 1 refused: both points are in one region | line 2 ok | line 3 refused: 1 0 is not present | line 4 refused: empty rectangle | line 5 ok | dales 2 | dale 0 0 10 1 | dale 2 0 11 1 | line 7 refused: unknown command

run A
5 3 1 0 5 1
dales
Usage | usage: hilldale dales SURFACE | usage: hilldale run SURFACE SCRIPT [--tile N] [--save OUT] | usage: hilldale check SURFACE CERT | usage: hilldale demo W H NUMBER EDITS [--tile N]

run A B --tile 4
5 3 1 0 5 1
dales
Usage | usage: hilldale dales SURFACE | usage: hilldale run SURFACE SCRIPT [--tile N] [--save OUT] | usage: hilldale check SURFACE CERT | usage: hilldale demo W H NUMBER EDITS [--tile N]

run A B --save
5 3 1 0 5 1
dales
Usage | usage: hilldale dales SURFACE | usage: hilldale run SURFACE SCRIPT [--tile N] [--save OUT] | usage: hilldale check SURFACE CERT | usage: hilldale demo W H NUMBER EDITS [--tile N]

dales -x
5 3 1 0 5 1
dales
Usage | usage: hilldale dales SURFACE | usage: hilldale run SURFACE SCRIPT [--tile N] [--save OUT] | usage: hilldale check SURFACE CERT | usage: hilldale demo W H NUMBER EDITS [--tile N]

 
5 3 1 0 5 1
dales
Usage | usage: hilldale dales SURFACE | usage: hilldale run SURFACE SCRIPT [--tile N] [--save OUT] | usage: hilldale check SURFACE CERT | usage: hilldale demo W H NUMBER EDITS [--tile N]";

// The file of a surface.
fn file_of(rt: &(impl Abort + AllocGlobal), surface: &str) -> String {
    let (code, rest) = surface.split_once(' ').expect(rt, "a type");
    let (points, rest) = rest.split_once(' ').expect(rt, "points");
    let (profiles, data) = rest.split_once(' ').expect(rt, "profiles");
    let mut file: String = format!(in rt.alloc();
        "aBCR-1.0\nManufacID = demo\nCreateDate = 010120260000\nModDate = 010120260000\nNumPoints = {points}\nNumProfiles = {profiles}\nXscale = 1e-6\nYscale = 1e-6\nZscale = 1e-9\nZresolution = -1\nCompression = 0\nDataType = {code}\nCheckType = 0\n*\n"
    ).expect(rt, "memory");
    if data == "slope" {
        for index in 0..4096u32 {
            write!(file, "{} ", index / 64 + index % 64).expect(rt, "memory");
        }
    } else {
        let lines = data.replace(rt.alloc(), " | ", "\n").expect(rt, "memory");
        file.push_str(lines.as_str()).expect(rt, "memory");
    }
    file.push_str("\n*\n").expect(rt, "memory");
    file
}

// Compares how the run of a row ends, by pieces of a size.
fn expect_row(rt: &(impl Abort + AllocGlobal), row: &str, piece: usize) {
    let (words, rest) = row.split_once('\n').expect(rt, "words");
    let (surface, rest) = rest.split_once('\n').expect(rt, "a surface");
    let (second, wanted) = rest.split_once('\n').expect(rt, "a second input");
    let surface = file_of(rt, surface);
    let second = second.replace(rt.alloc(), " | ", "\n").expect(rt, "memory");
    let mut wanted = wanted.replace(rt.alloc(), " | ", "\n").expect(rt, "memory");
    wanted.push('\n').expect(rt, "memory");
    let none = [0u64; 0];
    let given = Given {
        words,
        surface: surface.as_str(),
        second: second.as_str(),
        piece,
    };
    let ended = run(rt, given, [&none; 4]);
    let printed = String::from_utf8(ended.out.bytes().to_vec(rt.alloc()).expect(rt, "memory"));
    let printed = printed.ok().expect(rt, "text");
    let found = format!(in rt.alloc(); "{:?}\n{printed}", ended.status).expect(rt, "memory");
    assert_eq!(rt; found.as_str(), wanted.as_str(), "at {row}");
}

#[test]
fn each_run_prints_what_it_was_asked_for(rt: HostRuntime) {
    for row in ROWS.split("\n\n") {
        expect_row(&rt, row, 1);
        expect_row(&rt, row, 4096);
    }
    expect_row(&rt, "run A B\n5 3 1 0 5 1\n\nDone", 4096);
}
