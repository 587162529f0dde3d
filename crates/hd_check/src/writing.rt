// The text of a certificate.
ghost use Rattle.std.specs.Prelude.{◌++◌, ◌∷◌, [], codes, decimal, length};
ghost use Rattle.std.specs.Fmt.{signed_decimal};
ghost use Rattle.std.specs.List.{flat_map};
ghost use Rattle.hd_check.specs.Text.{Adds, adjacency_word, certificate_text, line_text, point_line, saddle_lines, side_word};

use crate::Certificate;
use hd_list::{List, Memory};
use hd_map::{Adjacency, Pos, SideName};
use hd_num::{push_text, push_unsigned, push_whole};

/// Adds the text of a certificate, in the form that `read_certificate` reads. Where memory is
/// refused, a prefix of the text may stand after the old bytes.
pub fn write_certificate(out: &mut List<u8>, certificate: &Certificate) -> Result<(), Memory>
    ensures { Adds out.old out.new result (certificate_text certificate.now) }
{
    push_head(out, certificate.side, certificate.adjacency)?;
    push_end_point(out, b"from ", certificate.from)?;
    push_end_point(out, b"to ", certificate.to)?;
    push_saddle(out, certificate.saddle, certificate.path.as_slice())?;
    push_counted(out, b"cut ", certificate.cut.as_slice())?;
    push_text(out, b"end\n")?;
    Ok(())
}

// Adds `certificate S N`.
fn push_head(out: &mut List<u8>, side: SideName, adjacency: Adjacency) -> Result<(), Memory>
    ensures { Adds out.old out.new result (line_text
        (codes "certificate" ∷ side_word side ∷ adjacency_word adjacency ∷ [])) }
{
    match (side, adjacency) {
        (SideName::Dales, Adjacency::Four) => push_text(out, b"certificate D 4\n"),
        (SideName::Dales, Adjacency::Six) => push_text(out, b"certificate D 6\n"),
        (SideName::Dales, Adjacency::Eight) => push_text(out, b"certificate D 8\n"),
        (SideName::Hills, Adjacency::Four) => push_text(out, b"certificate H 4\n"),
        (SideName::Hills, Adjacency::Six) => push_text(out, b"certificate H 6\n"),
        (SideName::Hills, Adjacency::Eight) => push_text(out, b"certificate H 8\n"),
    }
}

// Adds a key and the line of a point.
fn push_end_point(out: &mut List<u8>, key: &[u8], at: Pos) -> Result<(), Memory>
    ensures { Adds out.old out.new result (key.now ++ point_line at) }
{
    push_text(out, key)?;
    push_point(out, at)?;
    Ok(())
}

// Adds the line of a point.
fn push_point(out: &mut List<u8>, at: Pos) -> Result<(), Memory>
    ensures { Adds out.old out.new result (point_line at) }
{
    push_count(out, at.x)?;
    push_text(out, b" ")?;
    push_count(out, at.y)?;
    push_text(out, b"\n")?;
    Ok(())
}

/// Adds a count in plain digits. Where memory is refused, a prefix of its text may stand there.
pub fn push_count(out: &mut List<u8>, count: u32) -> Result<(), Memory>
    ensures { Adds out.old out.new result (decimal count) }
{
    push_unsigned(out, u64::from(count))?;
    Ok(())
}

// Adds the lines of a saddle and of a path, or that there is no saddle.
fn push_saddle(out: &mut List<u8>, saddle: Option<(Pos, i64)>, path: &[Pos]) -> Result<(), Memory>
    ensures { Adds out.old out.new result (flat_map line_text (saddle_lines saddle path.now)) }
{
    match saddle {
        Some(saddle) => push_path(out, saddle, path),
        None => push_text(out, b"saddle none\n"),
    }
}

// Adds the lines of a saddle and of a path.
fn push_path(out: &mut List<u8>, saddle: (Pos, i64), path: &[Pos]) -> Result<(), Memory>
    ensures { Adds out.old out.new result (line_text
        (codes "saddle" ∷ decimal saddle.0.x ∷ decimal saddle.0.y ∷ signed_decimal saddle.1 ∷ [])
        ++ (codes "path " ++ (decimal (length path.now) ++ 10 ∷ flat_map point_line path.now))) }
{
    push_saddle_line(out, saddle)?;
    push_counted(out, b"path ", path)?;
    Ok(())
}

// Adds the line of a saddle.
fn push_saddle_line(out: &mut List<u8>, saddle: (Pos, i64)) -> Result<(), Memory>
    ensures { Adds out.old out.new result (line_text
        (codes "saddle" ∷ decimal saddle.0.x ∷ decimal saddle.0.y ∷ signed_decimal saddle.1 ∷ [])) }
{
    push_text(out, b"saddle ")?;
    push_count(out, saddle.0.x)?;
    push_text(out, b" ")?;
    push_count(out, saddle.0.y)?;
    push_text(out, b" ")?;
    push_height(out, saddle)?;
    push_text(out, b"\n")?;
    Ok(())
}

// Adds the height of a saddle.
fn push_height(out: &mut List<u8>, saddle: (Pos, i64)) -> Result<(), Memory>
    ensures { Adds out.old out.new result (signed_decimal saddle.1) }
{
    push_whole(out, saddle.1)?;
    Ok(())
}

// Adds a key, the number of points, and their lines.
fn push_counted(out: &mut List<u8>, key: &[u8], points: &[Pos]) -> Result<(), Memory>
    ensures { Adds out.old out.new result (key.now
        ++ (decimal (length points.now) ++ 10 ∷ flat_map point_line points.now)) }
{
    push_text(out, key)?;
    push_unsigned(out, points.len() as u64)?;
    push_text(out, b"\n")?;
    push_points(out, points)?;
    Ok(())
}

// Adds the lines of points.
fn push_points(out: &mut List<u8>, points: &[Pos]) -> Result<(), Memory>
    ensures { Adds out.old out.new result (flat_map point_line points.now) }
{
    for k in 0..points.len() {
        push_point(out, points[k])?;
    }
    Ok(())
}
