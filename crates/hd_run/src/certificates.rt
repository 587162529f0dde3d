// Why a certificate is refused, as it is told.
ghost use Rattle.std.specs.Prelude.{◌≡◌, ◌++◌, IfOk, OnOk};
ghost use Rattle.hd_run.specs.Refusals.{at_rule, refusal_text};
ghost use Rattle.hd_run.specs.declared.stop.Refusal.TheVariants.{RuleFails, Unreadable};

use hd_list::{List, Memory};
use hd_map::Pos;
use hd_num::{push_text, push_unsigned};
use std::alloc::Global;

/// The line `certificate unreadable: line LINE`.
pub fn unreadable_line(alloc: Global, line: u64) -> Result<List<u8>, Memory>
    ensures { IfOk result (λ text. text ≡ refusal_text (Unreadable line)) }
{
    let mut text = List::new(alloc);
    push_text(&mut text, b"certificate unreadable: line ".as_slice())?;
    push_unsigned(&mut text, line)?;
    push_text(&mut text, b"\n".as_slice())?;
    Ok(text)
}

/// The line `certificate refused: rule RULE at X Y`.
pub fn rule_line(alloc: Global, rule: u8, at: Pos) -> Result<List<u8>, Memory>
    ensures { IfOk result (λ text. text ≡ refusal_text (RuleFails rule at)) }
{
    let mut text = List::new(alloc);
    push_text(&mut text, b"certificate refused: ".as_slice())?;
    push_rule(&mut text, rule, at)?;
    push_text(&mut text, b"\n".as_slice())?;
    Ok(text)
}

// Adds the rule that fails, and where.
fn push_rule(out: &mut List<u8>, rule: u8, at: Pos) -> Result<(), Memory>
    ensures { OnOk result (out.new ≡ out.old ++ at_rule rule at) }
{
    push_text(out, b"rule ".as_slice())?;
    push_unsigned(out, u64::from(rule))?;
    push_text(out, b" at ".as_slice())?;
    push_unsigned(out, u64::from(at.x))?;
    push_text(out, b" ".as_slice())?;
    push_unsigned(out, u64::from(at.y))
}
