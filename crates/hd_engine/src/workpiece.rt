// A surface that lines of a script work on.
ghost use Rattle.std.specs.Prelude.{◌≡◌, ◌≤◌, ◌<◌, ◌^◌, [], IfOk, OnErr};
ghost use Rattle.hd_map.specs.Map.{Present};
ghost use Rattle.hd_edit.specs.Board.{RisesUpTo};
ghost use Rattle.hd_script.specs.Whole.{IsTable, IsWhole};
ghost use Rattle.hd_report.specs.Edits.{edit_text, kept_text};
ghost use Rattle.hd_report.specs.Elements.{element_text};
ghost use Rattle.hd_report.specs.Forms.{form_text};
ghost use Rattle.hd_report.specs.Notations.{notation_text};
ghost use Rattle.hd_session.specs.Answers.{IsAnswer, IsCommandAnswer};
ghost use Rattle.hd_session.specs.Audits.{IsAuditAnswer};
ghost use Rattle.hd_session.specs.Borders.{IsBordersAnswer};
ghost use Rattle.hd_session.specs.Distributions.{IsHistAnswer, IsPercAnswer};
ghost use Rattle.hd_session.specs.Edits.{IsEditAnswer, IsUndoAnswer};
ghost use Rattle.hd_session.specs.Neighbours.{IsNeighboursAnswer};
ghost use Rattle.hd_session.specs.Elements.{IsElementAnswer, IsElementsAnswer};
ghost use Rattle.hd_session.specs.Heights.{IsHeightAnswer};
ghost use Rattle.hd_session.specs.Info.{IsInfoAnswer};
ghost use Rattle.hd_session.specs.Prunings.{IsPruneAnswer};
ghost use Rattle.hd_session.specs.Regions.{IsRegionsAnswer};
ghost use Rattle.hd_session.specs.Reply.{refused_for, reply_of};
ghost use Rattle.hd_session.specs.Saddles.{IsSaddleAnswer};
ghost use Rattle.hd_session.specs.Trees.{IsTreeAnswer};
ghost use Rattle.hd_session.specs.Values.{IsFeatureAnswer, IsParamAnswer};
ghost use Rattle.hd_session.specs.Volumes.{IsVolumesAnswer};
ghost use Rattle.hd_survey.specs.Findings.{AreFindings};
ghost use Rattle.hd_survey.specs.Survey.{IsSurvey};
ghost use Rattle.hd_engine.specs.Workpiece.{state_of};

use crate::reports::{
    report_audit, report_borders, report_info, report_pruning, report_regions, report_tree,
    report_volumes,
};
use crate::saddles::show_saddle;
use crate::texts::Texts;
use crate::values::{
    report_distribution, report_feature, report_height, report_parameter, report_share,
};
use hd_edit::{Board, Edit, EditError, LogEnds};
use hd_feature::{NotationError, named, read_notation, read_without_statistic};
use hd_list::{List, Memory};
use hd_map::{Adjacency, Down, Grid, Pos, Side, SideName, Up, contains, is_present};
use hd_morph::{Element, ElementError};
use hd_num::Percent;
use hd_report::{edit_cause, element_cause, form_cause, kept_cause, list_elements, notation_cause};
use hd_script::{Command, LineError, read_line};
use hd_session::Answer;
use hd_stats::height_name;
use hd_survey::{Findings, Survey};
use std::alloc::Global;

/// A grid that a script works on, with the texts of its file. Contracts see it as its state.
#[derive(Drop)]
pub struct Workpiece<G: Grid> {
    /// Whence it takes memory.
    pub alloc: Global,
    /// The texts of its file.
    pub texts: Texts,
    /// The grid with the log of its edits, and the elements.
    pub board: Board<G>,
}

impl<G: Grid> Workpiece<G> {
    /// A grid with the texts of its file, no earlier map and no element.
    pub fn new(alloc: Global, texts: Texts, grid: G) -> Result<Workpiece<G>, Memory>
    where
        G: Drop,
        ensures texts { IfOk result (λ w. w.texts ≡ texts) }
        ensures board { IfOk result (λ w. w.board ≡ record { grid = grid; earlier = []; elements = [] }) }
    {
        let board = Board::new(alloc, grid)?;
        Ok(Workpiece {
            alloc,
            texts,
            board,
        })
    }

    /// Makes an edit, once the memory for its answer is there.
    pub(crate) fn edit(&mut self, number: u64, edit: &Edit) -> Result<Answer, Memory>
        requires { G.changes self.old.board.grid < 2 ^ 62 }
        ensures ok { IfOk result (λ a. IsEditAnswer (state_of G.map self.old) number edit.now
            (reply_of a) (state_of G.map self.new)) }
        ensures memory { OnErr result ((state_of G.map self.new) ≡ (state_of G.map self.old)) }
        ensures origin { G.comes_from self.old.board.grid self.new.board.grid }
        ensures count { RisesUpTo (2 ^ 27) (G.changes self.old.board.grid) (G.changes self.new.board.grid) }
    {
        let ok = Answer::ok(self.alloc, number)?;
        match self.board.apply(edit) {
            Ok(()) => Ok(ok),
            Err(error) => self.refuse_edit(number, error),
        }
    }

    // The answer to an edit that was refused.
    fn refuse_edit(&self, number: u64, error: EditError) -> Result<Answer, Memory>
        ensures known { IfOk result (λ a. error ≡ EditError.Memory → ⊥) }
        ensures reply { IfOk result (λ a. reply_of a ≡ refused_for number (edit_text error)) }
    {
        let cause = edit_cause(self.alloc, error)?;
        Answer::refused(self.alloc, number, cause.as_slice())
    }

    /// Goes back over kept edits, once the memory for its answer is there.
    pub(crate) fn undo(&mut self, number: u64, count: u64) -> Result<Answer, Memory>
        requires { G.changes self.old.board.grid < 2 ^ 62 }
        ensures ok { IfOk result (λ a. IsUndoAnswer (state_of G.map self.old) number count
            (reply_of a) (state_of G.map self.new)) }
        ensures memory { OnErr result ((state_of G.map self.new) ≡ (state_of G.map self.old)) }
        ensures origin { G.comes_from self.old.board.grid self.new.board.grid }
        ensures count { RisesUpTo (2 ^ 27) (G.changes self.old.board.grid) (G.changes self.new.board.grid) }
    {
        let ok = Answer::ok(self.alloc, number)?;
        match self.board.undo(count) {
            Ok(()) => Ok(ok),
            Err(ends) => self.refuse_undo(number, ends),
        }
    }

    // The answer to an undo of more edits than are kept.
    fn refuse_undo(&self, number: u64, ends: LogEnds) -> Result<Answer, Memory>
        ensures { IfOk result (λ a. reply_of a ≡ refused_for number (kept_text ends.kept)) }
    {
        let cause = kept_cause(self.alloc, ends.kept)?;
        Answer::refused(self.alloc, number, cause.as_slice())
    }

    /// Defines an element, once the memory for its answer is there.
    pub(crate) fn define(
        &mut self,
        number: u64,
        name: List<u8>,
        width: u32,
        height: u32,
        table: List<Option<i64>>,
    ) -> Result<Answer, Memory>
        requires { IsTable width height table }
        ensures ok { IfOk result (λ a. IsElementAnswer (state_of G.map self.old) number
            (record { name = name; width = width; height = height; table = table }) (reply_of a)
            (state_of G.map self.new)) }
        ensures memory { OnErr result ((state_of G.map self.new) ≡ (state_of G.map self.old)) }
        ensures grid { self.new.board.grid ≡ self.old.board.grid }
    {
        let ok = Answer::ok(self.alloc, number)?;
        match Element::new(name, width, height, table) {
            Ok(element) => {
                self.board.define(element)?;
                Ok(ok)
            }
            Err(error) => self.refuse_element(number, error),
        }
    }

    // The answer to a table that makes no element.
    fn refuse_element(&self, number: u64, error: ElementError) -> Result<Answer, Memory>
        ensures { IfOk result (λ a. reply_of a ≡ refused_for number (element_text error)) }
    {
        let cause = element_cause(self.alloc, error)?;
        Answer::refused(self.alloc, number, cause.as_slice())
    }

    /// Sets which points are neighbours, once the memory for its answer is there.
    pub(crate) fn set_adjacency(
        &mut self,
        number: u64,
        adjacency: Adjacency,
    ) -> Result<Answer, Memory>
        requires { G.changes self.old.board.grid < 2 ^ 62 }
        ensures ok { IfOk result (λ a. IsNeighboursAnswer (state_of G.map self.old) number adjacency
            (reply_of a) (state_of G.map self.new)) }
        ensures memory { OnErr result ((state_of G.map self.new) ≡ (state_of G.map self.old)) }
        ensures origin { G.comes_from self.old.board.grid self.new.board.grid }
        ensures count { RisesUpTo (2 ^ 27) (G.changes self.old.board.grid) (G.changes self.new.board.grid) }
    {
        let ok = Answer::ok(self.alloc, number)?;
        self.board.set_adjacency(adjacency);
        Ok(ok)
    }

    /// The answer that lists the elements.
    pub(crate) fn elements(&self) -> Result<Answer, Memory>
        ensures { IfOk result (λ a. IsElementsAnswer (state_of G.map self.now) (reply_of a)
            (state_of G.map self.now)) }
    {
        let lines = self.board.elements()?;
        let text = list_elements(self.alloc, lines.as_slice())?;
        Ok(Answer::with_text(text))
    }

    /// The answer that tells the size, the type, the heights and the scales.
    pub(crate) fn info(&self) -> Result<Answer, Memory>
        ensures { IfOk result (λ a. IsInfoAnswer (state_of G.map self.now) (reply_of a)
            (state_of G.map self.now)) }
    {
        let text = report_info(self.alloc, &self.texts, self.board.grid())?;
        Ok(Answer::with_text(text))
    }

    /// The answer that lists the regions of a side.
    pub(crate) fn list<S: Side>(&self, findings: &mut Findings<S>) -> Result<Answer, Memory>
        requires { AreFindings (G.map self.now.board.grid) S.NAME findings.old }
        ensures findings { AreFindings (G.map self.now.board.grid) S.NAME findings.new }
        ensures answer { IfOk result (λ a. IsRegionsAnswer (state_of G.map self.now) S.NAME
            (reply_of a) (state_of G.map self.now)) }
    {
        let text = report_regions::<S, G>(self.alloc, self.board.grid(), findings)?;
        Ok(Answer::with_text(text))
    }

    /// The answer that shows the saddle of the pits of two points.
    pub(crate) fn saddle(
        &self,
        survey: &mut Survey,
        number: u64,
        side: SideName,
        a: Pos,
        b: Pos,
    ) -> Result<Answer, Memory>
        requires { IsSurvey (G.map self.now.board.grid) survey.old }
        ensures survey { IsSurvey (G.map self.now.board.grid) survey.new }
        ensures answer { IfOk result (λ r. IsSaddleAnswer (state_of G.map self.now) number side a b
            (reply_of r) (state_of G.map self.now)) }
    {
        let grid = self.board.grid();
        match side {
            SideName::Dales => show_saddle::<Down, G>(
                self.alloc,
                grid,
                &mut survey.dales,
                number,
                a,
                b,
            ),
            SideName::Hills => show_saddle::<Up, G>(
                self.alloc,
                grid,
                &mut survey.hills,
                number,
                a,
                b,
            ),
        }
    }

    /// The answer that lists the change tree of a side.
    pub(crate) fn tree<S: Side>(&self, findings: &mut Findings<S>) -> Result<Answer, Memory>
        requires { AreFindings (G.map self.now.board.grid) S.NAME findings.old }
        ensures findings { AreFindings (G.map self.now.board.grid) S.NAME findings.new }
        ensures answer { IfOk result (λ a. IsTreeAnswer (state_of G.map self.now) S.NAME
            (reply_of a) (state_of G.map self.now)) }
    {
        let text = report_tree::<S, G>(self.alloc, self.board.grid(), findings)?;
        Ok(Answer::with_text(text))
    }

    /// The answer that tells the pruning of a side.
    pub(crate) fn prune(
        &self,
        survey: &mut Survey,
        side: SideName,
        percent: Percent,
    ) -> Result<Answer, Memory>
        requires { IsSurvey (G.map self.now.board.grid) survey.old }
        ensures survey { IsSurvey (G.map self.now.board.grid) survey.new }
        ensures answer { IfOk result (λ a. IsPruneAnswer
            (state_of G.map self.now) side percent.thousandths (reply_of a)
            (state_of G.map self.now)) }
    {
        let grid = self.board.grid();
        match side {
            SideName::Dales => {
                let dales = &mut survey.dales;
                let text = report_pruning::<Down, G>(self.alloc, grid, dales, percent)?;
                Ok(Answer::with_text(text))
            }
            SideName::Hills => {
                let hills = &mut survey.hills;
                let text = report_pruning::<Up, G>(self.alloc, grid, hills, percent)?;
                Ok(Answer::with_text(text))
            }
        }
    }

    /// The answer that lists the borders that the pruning of a side leaves.
    pub(crate) fn borders(
        &self,
        survey: &mut Survey,
        side: SideName,
        percent: Percent,
    ) -> Result<Answer, Memory>
        requires { IsSurvey (G.map self.now.board.grid) survey.old }
        ensures survey { IsSurvey (G.map self.now.board.grid) survey.new }
        ensures answer { IfOk result (λ a. IsBordersAnswer
            (state_of G.map self.now) side percent.thousandths (reply_of a)
            (state_of G.map self.now)) }
    {
        let grid = self.board.grid();
        let range = survey.presence(grid).range;
        match side {
            SideName::Dales => {
                let dales = &mut survey.dales;
                let text = report_borders::<Down, G>(self.alloc, grid, dales, percent, range)?;
                Ok(Answer::with_text(text))
            }
            SideName::Hills => {
                let hills = &mut survey.hills;
                let text = report_borders::<Up, G>(self.alloc, grid, hills, percent, range)?;
                Ok(Answer::with_text(text))
            }
        }
    }

    /// The answer that prints the certificate of the pruning of a side.
    pub(crate) fn audit(
        &self,
        survey: &mut Survey,
        side: SideName,
        percent: Percent,
    ) -> Result<Answer, Memory>
        requires { IsSurvey (G.map self.now.board.grid) survey.old }
        ensures survey { IsSurvey (G.map self.now.board.grid) survey.new }
        ensures answer { IfOk result (λ a. IsAuditAnswer (state_of G.map self.now) side percent
            (reply_of a) (state_of G.map self.now)) }
    {
        let grid = self.board.grid();
        let range = survey.presence(grid).range;
        match side {
            SideName::Dales => {
                let dales = &mut survey.dales;
                let text = report_audit::<Down, G>(self.alloc, grid, dales, percent, range)?;
                Ok(Answer::with_text(text))
            }
            SideName::Hills => {
                let hills = &mut survey.hills;
                let text = report_audit::<Up, G>(self.alloc, grid, hills, percent, range)?;
                Ok(Answer::with_text(text))
            }
        }
    }

    /// The answer that lists the fill volumes of the pits that the pruning of a side keeps.
    pub(crate) fn fill(
        &self,
        survey: &mut Survey,
        side: SideName,
        percent: Percent,
    ) -> Result<Answer, Memory>
        requires { IsSurvey (G.map self.now.board.grid) survey.old }
        ensures survey { IsSurvey (G.map self.now.board.grid) survey.new }
        ensures answer { IfOk result (λ a. IsVolumesAnswer
            (state_of G.map self.now) side percent.thousandths (reply_of a)
            (state_of G.map self.now)) }
    {
        let grid = self.board.grid();
        let range = survey.presence(grid).range;
        match side {
            SideName::Dales => {
                let dales = &mut survey.dales;
                let text = report_volumes::<Down, G>(self.alloc, grid, dales, percent, range)?;
                Ok(Answer::with_text(text))
            }
            SideName::Hills => {
                let hills = &mut survey.hills;
                let text = report_volumes::<Up, G>(self.alloc, grid, hills, percent, range)?;
                Ok(Answer::with_text(text))
            }
        }
    }

    /// The answer that tells the value of a parameter by its name.
    pub(crate) fn param(
        &self,
        survey: &mut Survey,
        number: u64,
        name: &[u8],
        height: Option<i64>,
    ) -> Result<Answer, Memory>
        requires { IsSurvey (G.map self.now.board.grid) survey.old }
        ensures survey { IsSurvey (G.map self.now.board.grid) survey.new }
        ensures answer { IfOk result (λ a. IsParamAnswer
            (state_of G.map self.now) number name.now height (reply_of a)
            (state_of G.map self.now)) }
    {
        match named(name, height) {
            Ok(parameter) => {
                let text = report_parameter(
                    self.alloc,
                    self.board.grid(),
                    survey,
                    name,
                    height,
                    &parameter,
                )?;
                Ok(Answer::with_text(text))
            }
            Err(error) => self.refuse_notation(number, error),
        }
    }

    /// The answer that tells the value of a feature notation.
    pub(crate) fn feature(
        &self,
        survey: &mut Survey,
        number: u64,
        word: &[u8],
    ) -> Result<Answer, Memory>
        requires { IsSurvey (G.map self.now.board.grid) survey.old }
        ensures survey { IsSurvey (G.map self.now.board.grid) survey.new }
        ensures answer { IfOk result (λ a. IsFeatureAnswer (state_of G.map self.now) number word.now
            (reply_of a) (state_of G.map self.now)) }
    {
        match read_notation(word) {
            Ok(notation) => {
                let text = report_feature(self.alloc, self.board.grid(), survey, word, &notation)?;
                Ok(Answer::with_text(text))
            }
            Err(error) => self.refuse_notation(number, error),
        }
    }

    /// The answer that tells the value of a height parameter by its name.
    pub(crate) fn height(
        &self,
        survey: &mut Survey,
        number: u64,
        name: &[u8],
        c: Option<i64>,
    ) -> Result<Answer, Memory>
        requires { IsSurvey (G.map self.now.board.grid) survey.old }
        ensures survey { IsSurvey (G.map self.now.board.grid) survey.new }
        ensures answer { IfOk result (λ a. IsHeightAnswer
            (state_of G.map self.now) number name.now c (reply_of a) (state_of G.map self.now)) }
    {
        match height_name(name, c) {
            Ok(parameter) => {
                let grid = self.board.grid();
                let text = report_height(self.alloc, grid, survey, name, c, parameter)?;
                Ok(Answer::with_text(text))
            }
            Err(error) => self.refuse_notation(number, error),
        }
    }

    /// The answer that tells how the attributes of a notation are distributed.
    pub(crate) fn hist(
        &self,
        survey: &mut Survey,
        number: u64,
        bins: u32,
        word: &[u8],
    ) -> Result<Answer, Memory>
        requires some { 1 ≤ bins }
        requires few { bins ≤ 64 }
        requires survey { IsSurvey (G.map self.now.board.grid) survey.old }
        ensures survey { IsSurvey (G.map self.now.board.grid) survey.new }
        ensures answer { IfOk result (λ a. IsHistAnswer
            (state_of G.map self.now) number bins word.now (reply_of a) (state_of G.map self.now)) }
    {
        match read_without_statistic(word) {
            Ok(notation) => {
                let grid = self.board.grid();
                let text = report_distribution(self.alloc, grid, survey, bins, word, &notation)?;
                Ok(Answer::with_text(text))
            }
            Err(error) => self.refuse_notation(number, error),
        }
    }

    /// The answer that tells which share of the attributes of a notation is above a value.
    pub(crate) fn perc(
        &self,
        survey: &mut Survey,
        number: u64,
        above: i64,
        word: &[u8],
    ) -> Result<Answer, Memory>
        requires { IsSurvey (G.map self.now.board.grid) survey.old }
        ensures survey { IsSurvey (G.map self.now.board.grid) survey.new }
        ensures answer { IfOk result (λ a. IsPercAnswer
            (state_of G.map self.now) number above word.now (reply_of a)
            (state_of G.map self.now)) }
    {
        match read_without_statistic(word) {
            Ok(notation) => {
                let grid = self.board.grid();
                let text = report_share(self.alloc, grid, survey, above, word, &notation)?;
                Ok(Answer::with_text(text))
            }
            Err(error) => self.refuse_notation(number, error),
        }
    }

    // The answer to a notation or a name that is refused.
    fn refuse_notation(&self, number: u64, error: NotationError) -> Result<Answer, Memory>
        ensures { IfOk result (λ a. reply_of a ≡ refused_for number (notation_text error)) }
    {
        let cause = notation_cause(self.alloc, error)?;
        Answer::refused(self.alloc, number, cause.as_slice())
    }
}
