// The text of a pruning certificate.
ghost use Rattle.std.specs.Prelude.{◌≡◌, ◌++◌, ◌∷◌, [], IfOk, codes, decimal, length};
ghost use Rattle.std.specs.List.{flat_map};
ghost use Rattle.hd_num.specs.Percent.{percent_text};
ghost use Rattle.hd_check.specs.Text.{Adds, adjacency_word, line_text, side_word};
ghost use Rattle.hd_audit.specs.Text.{audit_text, count_word, point_line};

use crate::{Audit, AuditLine, AuditLines};
use hd_check::push_count;
use hd_list::{List, Memory};
use hd_map::{Adjacency, SideName};
use hd_num::{push_percent, push_text, push_unsigned};
use std::alloc::Global;

// How many bytes a line of a point has at most on a map: three indexes of seven digits, and what parts them.
const LONGEST_LINE: usize = 24;

/// The text of a pruning certificate, in the form that `read_audit` reads. The room for it is taken at once.
pub fn text_of_audit(alloc: Global, audit: &Audit) -> Result<List<u8>, Memory>
    ensures { IfOk result (λ text. text ≡ audit_text audit.now) }
{
    let room = LONGEST_LINE.saturating_mul(audit.lines.len().saturating_add(2));
    let mut text = List::with_capacity(alloc, room)?;
    write_audit(&mut text, audit)?;
    Ok(text)
}

/// Adds the text of a pruning certificate, in the form that `read_audit` reads. Where memory is
/// refused, a prefix of the text may stand after the old bytes.
pub fn write_audit(out: &mut List<u8>, audit: &Audit) -> Result<(), Memory>
    ensures { Adds out.old out.new result (audit_text audit.now) }
{
    push_head(out, audit)?;
    push_points(out, &audit.lines)?;
    push_text(out, b"end\n")?;
    Ok(())
}

// Adds `pruning S P N`.
fn push_head(out: &mut List<u8>, audit: &Audit) -> Result<(), Memory>
    ensures { Adds out.old out.new result (line_text
        (codes "pruning" ∷ side_word audit.now.side ∷ percent_text audit.now.percent.thousandths
        ∷ adjacency_word audit.now.adjacency ∷ [])) }
{
    push_text(out, b"pruning ")?;
    push_side(out, audit.side)?;
    push_percent(out, audit.percent)?;
    push_setting(out, audit.adjacency)?;
    Ok(())
}

// Adds a side and a space.
fn push_side(out: &mut List<u8>, side: SideName) -> Result<(), Memory>
    ensures { Adds out.old out.new result (side_word side ++ codes " ") }
{
    match side {
        SideName::Dales => push_text(out, b"D "),
        SideName::Hills => push_text(out, b"H "),
    }
}

// Adds a space, a setting and the end of the line.
fn push_setting(out: &mut List<u8>, adjacency: Adjacency) -> Result<(), Memory>
    ensures { Adds out.old out.new result (codes " " ++ (adjacency_word adjacency ++ 10 ∷ [])) }
{
    match adjacency {
        Adjacency::Four => push_text(out, b" 4\n"),
        Adjacency::Six => push_text(out, b" 6\n"),
        Adjacency::Eight => push_text(out, b" 8\n"),
    }
}

// Adds `points M` and the lines of the points.
fn push_points(out: &mut List<u8>, points: &AuditLines) -> Result<(), Memory>
    ensures { Adds out.old out.new result (codes "points "
        ++ (decimal (length points.now) ++ 10 ∷ flat_map point_line points.now)) }
{
    push_text(out, b"points ")?;
    push_unsigned(out, points.len() as u64)?;
    push_text(out, b"\n")?;
    push_lines(out, points)?;
    Ok(())
}

// Adds the lines of points.
fn push_lines(out: &mut List<u8>, points: &AuditLines) -> Result<(), Memory>
    ensures { Adds out.old out.new result (flat_map point_line points.now) }
{
    for k in 0..points.len() {
        push_line(out, points.at(k))?;
    }
    Ok(())
}

// Adds `INDEX PARENT CUT`.
fn push_line(out: &mut List<u8>, point: AuditLine) -> Result<(), Memory>
    ensures { Adds out.old out.new result (point_line point) }
{
    push_count(out, point.index)?;
    push_text(out, b" ")?;
    push_count_or_none(out, point.parent)?;
    push_text(out, b" ")?;
    push_count_or_none(out, point.cut)?;
    push_text(out, b"\n")?;
    Ok(())
}

// Adds a count, or `-` for none.
fn push_count_or_none(out: &mut List<u8>, count: Option<u32>) -> Result<(), Memory>
    ensures { Adds out.old out.new result (count_word count) }
{
    match count {
        Some(count) => push_count(out, count),
        None => push_text(out, b"-"),
    }
}
