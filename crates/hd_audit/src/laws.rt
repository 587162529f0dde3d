// What holds of every pruning certificate.
ghost use Rattle.std.specs.Prelude.{◌≡◌, ◌↔◌, ℕ, List, Contains, Ok};
ghost use Rattle.hd_check.specs.declared.types.Verdict.{Verdict};
ghost use Rattle.hd_map.specs.declared.types.Rank.{Rank};
ghost use Rattle.hd_map.specs.declared.types.SideName.{SideName};
ghost use Rattle.hd_map.specs.Map.{Map, IsMap};
ghost use Rattle.hd_map.specs.Pruning.{Leaving, IsPruning};
ghost use Rattle.hd_map.specs.Sets.{under};
ghost use Rattle.hd_num.specs.declared.percent.Percent.{Percent};
ghost use Rattle.hd_audit.specs.declared.types.Audit.{Audit};
ghost use Rattle.hd_audit.specs.Lines.{IsShownKept};
ghost use Rattle.hd_audit.specs.Reading.{audit_of};
ghost use Rattle.hd_audit.specs.Rules.{IsRight, IsVerdict};
ghost use Rattle.hd_audit.specs.Shown.{IsShown};
ghost use Rattle.hd_audit.specs.Text.{audit_text};
ghost use Rattle.hd_audit.specs.Writable.{IsWritable};

use hd_prune::pruning_keeps_what_is_not_undercut;

/// On any map the lines of a right pruning certificate without a parent name exactly the pits that pruning
/// on its side, at its percent and under its setting keeps.
pub fn right_pruning_certificate_names_the_kept_pits()
    ensures { (m : Map) (audit : Audit) → IsMap m → IsRight m audit
        → (steps : List Leaving) (last : List Rank) (owner : Rank → Rank) → IsPruning (under audit.adjacency m) audit.side audit.percent.thousandths steps last owner
        → (p : Rank) → Contains last p ↔ IsShownKept m audit p }
{
    pruning_keeps_what_is_not_undercut();
}

/// The shown pruning certificate of a map is right on it.
pub fn shown_pruning_certificate_is_right()
    ensures { (m : Map) (side : SideName) (percent : Percent) (audit : Audit) → IsMap m
        → IsShown m side percent audit → IsRight m audit }
{}

/// A map has one shown pruning certificate of a side and a percent at most.
pub fn shown_pruning_certificate_is_determined()
    ensures { (m : Map) (side : SideName) (percent : Percent) (a b : Audit) → IsMap m
        → IsShown m side percent a → IsShown m side percent b → a ≡ b }
{}

/// A pruning certificate has one verdict at most on a map.
pub fn pruning_verdict_is_determined()
    ensures { (m : Map) (audit : Audit) (v w : Verdict) → IsVerdict m audit v → IsVerdict m audit w → v ≡ w }
{}

/// The reading of a written pruning certificate is that certificate, where it has at most 4,294,967,295
/// lines and its percent is at most 100.
pub fn written_pruning_certificate_reads_back()
    ensures { (audit : Audit) → IsWritable audit → audit_of (audit_text audit) ≡ Ok audit }
{}
