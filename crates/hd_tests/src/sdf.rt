// A file as it is read, whole and in pieces, and written again.
use crate::shared::{expect_bytes, file_of};
use hd_engine::Session;
use hd_list::List;
use hd_map::{Grid, Surface};
use hd_num::push_text;
use hd_sdf_read::{SdfError, SdfFile, SdfReader};
use hd_sdf_write::{SdfPieces, SdfTexts, write_sdf};
use std::process::Abort;

const MEASURED: &[u8] = b"aBCR-1.0\r
ManufacID   = Lab 7\r
CreateDate  = 010120261230\r
ModDate     = 010120261230\r
NumPoints   = 4\r
NumProfiles = 2\r
Xscale      = 1.0E-006\r
Yscale      = 1.0E-006\r
Zscale      = 1.0E-009\r
Zresolution = -1\r
Compression = 0\r
DataType    = 6\r
CheckType   = 0\r
; exported\r
Objective = 50x\r
*\r
12 13\r
BAD 15 16 17 18\r
19\r
*\r
Operator: A. N.\r
";

const CANONICAL: &[u8] = b"aBCR-1.0
ManufacID = Lab 7
CreateDate = 010120261230
ModDate = 010120261230
NumPoints = 4
NumProfiles = 2
Xscale = 1.0E-006
Yscale = 1.0E-006
Zscale = 1.0E-009
Zresolution = -1
Compression = 0
DataType = 6
CheckType = 0
Objective = 50x
*
12 13 BAD 15
16 17 18 19
*
Operator: A. N.
";

// What a reader answers that is fed a text in pieces of so many bytes.
fn read_in_pieces(
    rt: &(impl Abort + AllocGlobal),
    text: &[u8],
    size: usize,
) -> Result<SdfFile, SdfError> {
    let mut reader = SdfReader::new(rt.alloc())?;
    let mut rest = text;
    'pieces: while !rest.is_empty() {
        let (piece, more) = rest.split_at(size.min(rest.len()).max(1));
        if let Err(refusal) = reader.feed(rt.alloc(), piece) {
            return Err(refusal);
        }
        rest = more;
    }
    reader.finish(rt.alloc())
}

// Compares the text of a file, as a whole and in pieces.
fn expect_written(rt: &(impl Abort + AllocGlobal), file: &SdfFile, wanted: &[u8]) {
    let text = write_sdf(rt.alloc(), file).expect(rt, "memory");
    expect_bytes(rt, text.as_slice(), wanted);
    let texts = SdfTexts::of(file);
    let text = match &file.surface {
        Surface::Narrow(grid) => joined_pieces(rt, &texts, grid),
        Surface::Wide(grid) => joined_pieces(rt, &texts, grid),
    };
    expect_bytes(rt, text.as_slice(), wanted);
}

// The pieces of a text, at most eight, as one.
fn joined_pieces<G: Grid>(
    rt: &(impl Abort + AllocGlobal),
    texts: &SdfTexts<'_>,
    grid: &G,
) -> List<u8> {
    let mut pieces = SdfPieces::new(rt.alloc(), texts, grid).expect(rt, "memory");
    let mut text = List::new(rt.alloc());
    'pieces: for _ in 0..8 {
        if !pieces.advance() {
            break;
        }
        push_text(&mut text, pieces.piece()).expect(rt, "memory");
    }
    text
}

// The file that a session leaves which was asked for the dales of a file.
fn left_by_session(rt: &(impl Abort + AllocGlobal), file: SdfFile) -> SdfFile {
    let mut session = Session::new(rt.alloc(), file, 64).expect(rt, "memory");
    let answer = session.answer(1, b"dales").expect(rt, "memory");
    expect_bytes(rt, answer.text.as_slice(), DALES);
    let file = session.file().expect(rt, "memory");
    drop(session);
    file
}

const DALES: &[u8] = b"dales 2\ndale 0 0 12 5\ndale 3 0 15 2\n";

#[test]
fn a_measured_file_and_its_canonical_text_are_written_alike(rt: HostRuntime) {
    for text in [MEASURED, CANONICAL] {
        let file = file_of(&rt, text);
        expect_written(&rt, &file, CANONICAL);
        expect_written(&rt, &left_by_session(&rt, file), CANONICAL);
    }
    for size in [1, 2, 3, 7] {
        let file = read_in_pieces(&rt, MEASURED, size).expect(&rt, "read");
        expect_written(&rt, &file, CANONICAL);
    }
}
