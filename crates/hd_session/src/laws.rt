// What a line and a script determine.
ghost use Rattle.std.specs.Prelude.{◌≡◌, ℕ, true, List, Ok, Some};
ghost use Rattle.hd_map.specs.declared.types.Pos.{Pos};
ghost use Rattle.hd_map.specs.declared.types.SideName.{SideName};
ghost use Rattle.hd_map.specs.Map.{IsMap};
ghost use Rattle.hd_num.specs.declared.percent.Percent.{Percent};
ghost use Rattle.hd_script.specs.declared.command.Command.TheVariants.{Audit, Saddle};
ghost use Rattle.hd_script.specs.Line.{script_line};
ghost use Rattle.hd_sdf_read.specs.File.{File};
ghost use Rattle.hd_session.specs.Answers.{IsAnswer, AreAnswers};
ghost use Rattle.hd_session.specs.Audits.{PrintsRightAudit};
ghost use Rattle.hd_session.specs.Reply.{Reply};
ghost use Rattle.hd_session.specs.Saddles.{PrintsRight};
ghost use Rattle.hd_session.specs.State.{State, IsState, first_state};

use hd_audit::{shown_pruning_certificate_is_determined, shown_pruning_certificate_is_right};
use hd_cert::{shown_certificate_is_determined, shown_certificate_is_right};
use hd_edit::{edit_is_determined, edits_keep_maps, logs_keep_maps, undos_keep_maps};
use hd_map::{change_tree_is_determined, saddle_is_determined};
use hd_regions::{
    features_are_determined, kept_pits_are_determined, pruned_lines_are_determined,
    pruned_regions_are_determined, region_sizes_are_determined, values_are_determined,
};
use hd_stats::further_values_are_determined;
use hd_steep::root_is_determined;

/// A line has one answer on a state, and one state after it.
pub fn answer_is_determined()
    ensures { (s : State) (number : ℕ) (line : List ℕ) (a b : Reply) (s' s'' : State) → IsState s
        → IsAnswer s number line a s' → IsAnswer s number line b s'' → (a ≡ b) × (s' ≡ s'') }
{
    edit_is_determined();
    root_is_determined();
    region_sizes_are_determined();
    change_tree_is_determined();
    saddle_is_determined();
    shown_certificate_is_determined();
    pruned_regions_are_determined();
    pruned_lines_are_determined();
    kept_pits_are_determined();
    features_are_determined();
    values_are_determined();
    further_values_are_determined();
    shown_pruning_certificate_is_determined();
}

/// The lines of a script have one answer on a state, and one state after them.
pub fn answers_are_determined()
    ensures { (s : State) (number : ℕ) (lines : List (List ℕ)) (a b : Reply) (s' s'' : State)
        → IsState s → AreAnswers s number lines a s' → AreAnswers s number lines b s'' → (a ≡ b)
        × (s' ≡ s'') }
{
    answer_is_determined();
    answer_keeps_a_state();
}

/// A line leaves maps: the present one, and each earlier one.
pub fn answer_keeps_a_state()
    ensures kept { (s : State) (number : ℕ) (line : List ℕ) (a : Reply) (s' : State) → IsState s
        → IsAnswer s number line a s' → IsState s' }
    ensures first { (file : File) → IsMap file.map → IsState (first_state file) }
{
    edits_keep_maps();
    logs_keep_maps();
    undos_keep_maps();
}

/// Each accepted `saddle` line prints a certificate of the pits of its two points, the first point's
/// as `from`, that is right on the map at that line.
pub fn printed_certificate_is_right()
    ensures { (s : State) (number : ℕ) (line : List ℕ) (side : SideName) (a b : Pos) (reply : Reply)
        (after : State) → script_line line ≡ Ok (Some (Saddle side a b))
        → IsAnswer s number line reply after → reply.accepted ≡ true → PrintsRight s.map side a b reply }
{
    shown_certificate_is_right();
}

/// Each `audit` line prints a certificate of its side and percent that is right on the map at that line.
pub fn printed_pruning_certificate_is_right()
    ensures { (s : State) (number : ℕ) (line : List ℕ) (side : SideName) (percent : Percent)
        (reply : Reply) (after : State) → script_line line ≡ Ok (Some (Audit side percent))
        → IsState s → IsAnswer s number line reply after → PrintsRightAudit s.map side percent reply }
{
    shown_pruning_certificate_is_right();
}
