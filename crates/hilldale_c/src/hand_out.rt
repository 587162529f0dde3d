// The way of an answer to the caller.
ghost use Rattle.std.specs.Prelude.{◌≡◌, [], MatchResult};
ghost use Rattle.hd_program.specs.Status.{code_of};
ghost use Rattle.hilldale_c.specs.Call.{IsHanded, room};

use crate::answer::Answer;
use hd_list::Memory;
use hd_top::Status;

/// Hands the text of an answer out, and gives the code of its status.
pub(crate) fn hand_out(answer: Result<Answer, Memory>, out: &mut [u8], needed: &mut u64) -> u8
    ensures { MatchResult answer
        (λ a. (result ≡ code_of a.status) × IsHanded a.out.items (room out.old out.new needed.new))
        (λ _. (result ≡ code_of Status.Memory) × IsHanded [] (room out.old out.new needed.new)) }
{
    match answer {
        Ok(answer) => {
            hand_text(answer.out.as_slice(), out, needed);
            answer.status.code()
        }
        Err(_) => {
            hand_text(&[], out, needed);
            Status::Memory.code()
        }
    }
}

/// The same, and hands out the text that is saved.
pub(crate) fn hand_out_both(
    answer: Result<Answer, Memory>,
    out: &mut [u8],
    needed: &mut u64,
    saved: &mut [u8],
    saved_needed: &mut u64,
) -> u8
    ensures { MatchResult answer
        (λ a. (result ≡ code_of a.status) × IsHanded a.out.items (room out.old out.new needed.new)
        × IsHanded a.saved.items (room saved.old saved.new saved_needed.new))
        (λ _. (result ≡ code_of Status.Memory) × IsHanded [] (room out.old out.new needed.new)
        × IsHanded [] (room saved.old saved.new saved_needed.new)) }
{
    match answer {
        Ok(answer) => {
            hand_text(answer.out.as_slice(), out, needed);
            hand_text(answer.saved.as_slice(), saved, saved_needed);
            answer.status.code()
        }
        Err(_) => {
            hand_text(&[], out, needed);
            hand_text(&[], saved, saved_needed);
            Status::Memory.code()
        }
    }
}

// Tells the length of a text, and gives its first bytes, as far as there is room.
fn hand_text(text: &[u8], out: &mut [u8], needed: &mut u64)
    ensures { IsHanded text.now (room out.old out.new needed.new) }
{
    let count = text.len().min(out.len());
    out[..count].copy_from_slice(&text[..count]);
    *needed = text.len() as u64;
}
