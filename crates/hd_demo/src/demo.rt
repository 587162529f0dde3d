// What a demo prints.
ghost use Rattle.std.specs.Prelude.{◌≡◌, ◌≤◌, ◌+◌, ◌++◌, ℕ, List as Items, IfOk, OnOk};
ghost use Rattle.hd_map.specs.Map.{cell_count};
ghost use Rattle.hd_words.specs.Demo.{IsDemo};
ghost use Rattle.hd_demo.specs.DemoText.{AddsTold, AreEdits, IsDemoText, IsTheDemoText, edits_line, spaced, title};
ghost use Rattle.hd_demo.specs.Generator.{drawn};

use crate::generator::{Draws, drawn_edit, drawn_file};
use crate::summary::push_summary;
use hd_list::{List, Memory};
use hd_num::{push_text, push_unsigned};
use hd_session::{SurfaceSession, answer_is_determined, answer_keeps_a_state};
use hd_words::Demo;
use std::alloc::Global;

/// What a demo prints: its numbers, the summary of its surface, how many edits there are, and the
/// summary after them.
pub fn demo_text<E: SurfaceSession>(alloc: Global, demo: Demo) -> Result<List<u8>, Memory>
    requires { IsDemo demo }
    ensures { IfOk result (λ text. IsTheDemoText demo text) }
{
    demo_text_is_determined();
    let mut draws = Draws { last: demo.number };
    let file = drawn_file(alloc, demo.size, &mut draws)?;
    let mut session = E::on_file(alloc, file, demo.tile)?;
    let text = told_text(alloc, &mut session, draws, demo);
    drop(session);
    text
}

// A demo prints one text.
fn demo_text_is_determined()
    ensures { (demo : Demo) (a b : Items ℕ) → IsDemo demo → IsDemoText demo a → IsDemoText demo b → a ≡ b }
{
    answer_is_determined();
    answer_keeps_a_state();
}

// What a demo prints, told by a session on its surface.
fn told_text<E: SurfaceSession>(
    alloc: Global,
    session: &mut E,
    draws: Draws,
    demo: Demo,
) -> Result<List<u8>, Memory>
    requires demo { IsDemo demo }
    requires fresh { E.asked session.old ≡ 0 }
    requires drawn { draws.last ≡ drawn demo.number (cell_count demo.size) }
    ensures { IfOk result (λ text. AddsTold demo (E.state session.old) (title demo) text) }
{
    let mut text = List::new(alloc);
    push_title(&mut text, demo)?;
    push_told(alloc, &mut text, session, draws, demo)?;
    Ok(text)
}

// Adds the numbers of a demo.
fn push_title(out: &mut List<u8>, demo: Demo) -> Result<(), Memory>
    ensures { OnOk result (out.new ≡ out.old ++ title demo) }
{
    push_text(out, b"demo".as_slice())?;
    push_spaced(out, demo.size.points)?;
    push_spaced(out, demo.size.profiles)?;
    push_spaced(out, demo.number)?;
    push_spaced(out, demo.edits)?;
    push_text(out, b"\n".as_slice())?;
    Ok(())
}

// Adds a number after a space.
fn push_spaced(out: &mut List<u8>, number: u32) -> Result<(), Memory>
    ensures { OnOk result (out.new ≡ out.old ++ spaced number) }
{
    push_text(out, b" ".as_slice())?;
    push_unsigned(out, u64::from(number))?;
    Ok(())
}

// Adds the summary of a demo's surface, how many edits there are, and the summary after them.
fn push_told<E: SurfaceSession>(
    alloc: Global,
    out: &mut List<u8>,
    session: &mut E,
    draws: Draws,
    demo: Demo,
) -> Result<(), Memory>
    requires demo { IsDemo demo }
    requires fresh { E.asked session.old ≡ 0 }
    requires drawn { draws.last ≡ drawn demo.number (cell_count demo.size) }
    ensures { OnOk result (AddsTold demo (E.state session.old) out.old out.new) }
{
    push_summary(alloc, out, session)?;
    make_edits(alloc, session, draws, demo)?;
    push_edits(out, demo)?;
    push_summary(alloc, out, session)?;
    Ok(())
}

// Makes the edits of a demo, whose draws come after those of its surface.
fn make_edits<E: SurfaceSession>(
    alloc: Global,
    session: &mut E,
    draws: Draws,
    demo: Demo,
) -> Result<(), Memory>
    requires demo { IsDemo demo }
    requires asked { E.asked session.old + demo.edits ≤ 16777216 }
    requires drawn { draws.last ≡ drawn demo.number (cell_count demo.size) }
    ensures edits { OnOk result (AreEdits demo (E.state session.old) demo.edits (E.state session.new)) }
    ensures asked { OnOk result (E.asked session.new ≡ E.asked session.old + demo.edits) }
{
    let mut draws = draws;
    'edits: for _ in 0..demo.edits {
        let line = drawn_edit(alloc, demo.size, &mut draws)?;
        session.answer_line(1, line.as_slice())?;
    }
    Ok(())
}

// Adds how many edits a demo has.
fn push_edits(out: &mut List<u8>, demo: Demo) -> Result<(), Memory>
    ensures { OnOk result (out.new ≡ out.old ++ edits_line demo) }
{
    push_text(out, b"edits ".as_slice())?;
    push_unsigned(out, u64::from(demo.edits))?;
    push_text(out, b"\n".as_slice())?;
    Ok(())
}
