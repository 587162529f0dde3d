// A surface that lines of a script work on, with what reports found of it.
ghost use Rattle.std.specs.Prelude.{◌≡◌, ◌<◌, ◌^◌, [], IfOk, OnErr};
ghost use Rattle.hd_edit.specs.Board.{RisesUpTo};
ghost use Rattle.hd_script.specs.Whole.{IsTable, IsWhole};
ghost use Rattle.hd_report.specs.Forms.{form_text};
ghost use Rattle.hd_session.specs.Answers.{IsAnswer, IsCommandAnswer};
ghost use Rattle.hd_session.specs.Edits.{IsEditAnswer, IsUndoAnswer};
ghost use Rattle.hd_session.specs.Elements.{IsElementAnswer};
ghost use Rattle.hd_session.specs.Neighbours.{IsNeighboursAnswer};
ghost use Rattle.hd_engine.specs.Kinds.{IsReport, AsksValue};
ghost use Rattle.hd_session.specs.Regions.{IsLabelAnswer};
ghost use Rattle.hd_session.specs.Reply.{refused_for, reply_of};
ghost use Rattle.hd_engine.specs.Texts.{texts_view};
ghost use Rattle.hd_tiles.specs.Tile.{IsTileSide};

use crate::by_pool::{Need, find_by_pool};
use crate::labels::show_label;
use crate::texts::Texts;
use crate::workpiece::Workpiece;
use hd_basin::pool_stays_in_step;
use hd_edit::Edit;
use hd_feature::{
    Kind, Notation, NotationError, Parameter, heights_serve, named, read_notation,
    read_without_statistic,
};
use hd_list::{List, Memory};
use hd_map::{Adjacency, Down, Grid, Pos, SideName, Up};
use hd_pool::SidePool;
use hd_report::form_cause;
use hd_script::{Command, LineError, read_line};
use hd_session::Answer;
use hd_survey::Survey;
use hd_tiles::Tiles;
use std::alloc::Global;
use std::marker::Model;
use std::mem::replace;

/// A grid in tiles that a script works on, with the texts of its file, what reports found of its present map, and what is
/// kept of its sides. Contracts see it as its state and the count of its changes.
#[derive(Drop)]
pub struct Surveyed<G: Grid> {
    work: Workpiece<Tiles<G>>,
    survey: Survey,
    dales: SidePool<Down>,
    hills: SidePool<Up>,
}

impl<G: Grid> Model for Surveyed<G> {
    ghost use Rattle.hd_engine.specs.Tiled.{KeepsUp, TiledState};
    ghost use Rattle.hd_engine.specs.Workpiece.{state_of};

    ghost Value = { TiledState };

    ghost view = { λ s. record { state = state_of (λ t. G.map t.grid) s.work; changes = s.work.board.grid.changes } };

    ghost invariant = { λ s. let tiles = s.work.board.grid in KeepsUp (G.map tiles.grid) tiles.tiling.side tiles.stamps.items s.survey s.dales s.hills };
}

impl<G: Grid> Surveyed<G> {
    /// A grid with the texts of its file, in tiles of this side, from 8 to 256 points, with no earlier map and no
    /// element, of which nothing is found yet.
    pub fn new(alloc: Global, texts: Texts, grid: G, side: u32) -> Result<Surveyed<G>, Memory>
    where
        G: Drop,
        requires side { IsTileSide side }
        requires count { G.changes grid ≡ 0 }
        ensures state { IfOk result (λ s. s.state
            ≡ record { read = texts_view texts; map = G.map grid; earlier = []; elements = [] }) }
        ensures changes { IfOk result (λ s. s.changes ≡ 0) }
    {
        let tiles = Tiles::from_surface(alloc, grid, side)?;
        let work = Workpiece::new(alloc, texts, tiles)?;
        let survey = Survey::new();
        let dales = SidePool::new();
        let hills = SidePool::new();
        Ok(Surveyed {
            work,
            survey,
            dales,
            hills,
        })
    }

    /// Whence it takes memory.
    pub fn alloc(&self) -> Global {
        self.work.alloc
    }

    /// The texts of its file.
    pub fn texts(&self) -> &Texts
        ensures { texts_view result.now ≡ self.now.state.read }
    {
        &self.work.texts
    }

    /// The grid.
    pub fn grid(&self) -> &G
        ensures { G.map result.now ≡ self.now.state.map }
    {
        self.work.board.grid().surface()
    }

    /// The answer to a line without its LF. The number is the one that the line has in its answer.
    ///
    /// `Memory` comes where the line, the edit or the answer is refused its memory; the surface, the
    /// earlier maps, the elements and the setting of the neighbours are then as before.
    pub fn answer(&mut self, number: u64, line: &[u8]) -> Result<Answer, Memory>
        requires { self.old.changes < 2 ^ 62 }
        ensures ok { IfOk result (λ a. IsAnswer self.old.state number line.now (reply_of a) self.new.state) }
        ensures memory { OnErr result (self.new.state ≡ self.old.state) }
        ensures changes { RisesUpTo (2 ^ 27) self.old.changes self.new.changes }
    {
        match read_line(self.work.alloc, line) {
            Err(LineError::Memory) => Err(Memory),
            Err(error) => self.refuse_form(number, error),
            Ok(None) => Ok(Answer::with_text(List::new(self.work.alloc))),
            Ok(Some(command)) => self.obey(number, command),
        }
    }

    // The answer to a line that has not its form.
    fn refuse_form(&self, number: u64, error: LineError) -> Result<Answer, Memory>
        ensures { IfOk result (λ a. reply_of a ≡ refused_for number (form_text error)) }
    {
        let cause = form_cause(self.work.alloc, error)?;
        Answer::refused(self.work.alloc, number, cause.as_slice())
    }

    // The answer to a command.
    fn obey(&mut self, number: u64, command: Command) -> Result<Answer, Memory>
        requires whole { IsWhole command }
        requires count { self.old.changes < 2 ^ 62 }
        ensures ok { IfOk result (λ a. IsCommandAnswer self.old.state number command
            (reply_of a) self.new.state) }
        ensures memory { OnErr result (self.new.state ≡ self.old.state) }
        ensures changes { RisesUpTo (2 ^ 27) self.old.changes self.new.changes }
    {
        match command {
            Command::Do(edit) => self.edit(number, &edit),
            Command::Undo(count) => self.undo(number, count),
            Command::Element {
                name,
                width,
                height,
                table,
            } => self.define(number, name, width, height, table),
            Command::Neighbours(adjacency) => self.set_adjacency(number, adjacency),
            command => {
                let answer = self.report(number, &command);
                drop(command);
                answer
            }
        }
    }

    // The answer to a command that changes nothing.
    fn report(&mut self, number: u64, command: &Command) -> Result<Answer, Memory>
        requires whole { IsWhole command.now }
        requires report { IsReport command.now }
        ensures ok { IfOk result (λ a. IsCommandAnswer self.old.state number command.now
            (reply_of a) self.new.state) }
        ensures same { self.new ≡ self.old }
    {
        self.prepare(command)?;
        match command {
            Command::Elements => self.work.elements(),
            Command::Info => self.work.info(),
            Command::Dales => self.work.list::<Down>(&mut self.survey.dales),
            Command::Hills => self.work.list::<Up>(&mut self.survey.hills),
            Command::Label { side, at } => self.label(number, *side, *at),
            Command::Saddle { side, a, b } => {
                self.work.saddle(&mut self.survey, number, *side, *a, *b)
            }
            Command::Tree {
                side: SideName::Dales,
            } => self.work.tree::<Down>(&mut self.survey.dales),
            Command::Tree {
                side: SideName::Hills,
            } => self.work.tree::<Up>(&mut self.survey.hills),
            Command::Prune { side, percent } => self.work.prune(&mut self.survey, *side, *percent),
            Command::Lines { side, percent } => self
                .work
                .borders(&mut self.survey, *side, *percent),
            Command::Audit { side, percent } => self.work.audit(&mut self.survey, *side, *percent),
            Command::Fill { side, percent } => self.work.fill(&mut self.survey, *side, *percent),
            _ => self.tell_value(number, command),
        }
    }

    // The answer to a command that asks for a parameter or for attribute values.
    fn tell_value(&mut self, number: u64, command: &Command) -> Result<Answer, Memory>
        requires whole { IsWhole command.now }
        requires value { AsksValue command.now }
        ensures ok { IfOk result (λ a. IsCommandAnswer self.old.state number command.now
            (reply_of a) self.new.state) }
        ensures same { self.new ≡ self.old }
    {
        match command {
            Command::Param { name, height } => {
                self.work
                    .param(&mut self.survey, number, name.as_slice(), *height)
            }
            Command::Feature { word } => self
                .work
                .feature(&mut self.survey, number, word.as_slice()),
            Command::HeightValue { name, c } => {
                self.work
                    .height(&mut self.survey, number, name.as_slice(), *c)
            }
            Command::Hist { bins, word } => self
                .work
                .hist(&mut self.survey, number, *bins, word.as_slice()),
            Command::Perc { above, word } => self
                .work
                .perc(&mut self.survey, number, *above, word.as_slice()),
            _ => unreachable!(),
        }
    }

    // Finds by the pools of the sides what the report of a command asks for, where they serve.
    fn prepare(&mut self, command: &Command) -> Result<(), Memory>
        ensures { self.new ≡ self.old }
    {
        match command {
            Command::Dales => self.find_by_pool(SideName::Dales, Need::Regions),
            Command::Hills => self.find_by_pool(SideName::Hills, Need::Regions),
            Command::Prune { side, percent } => self.find_by_pool(*side, Need::Pruning(*percent)),
            Command::Tree { side } | Command::Saddle { side, .. } => {
                self.find_by_pool(*side, Need::Merges)
            }
            Command::Lines { side, .. } => self.find_by_pool(*side, Need::Borders),
            Command::Audit { side, percent } | Command::Fill { side, percent } => {
                self.find_by_pool(*side, Need::Kept(*percent))
            }
            Command::Param { name, height } => {
                self.prepare_parameter(named(name.as_slice(), *height))
            }
            Command::Feature { word } => self.prepare_notation(read_notation(word.as_slice())),
            Command::Hist { word, .. } | Command::Perc { word, .. } => {
                self.prepare_notation(read_without_statistic(word.as_slice()))
            }
            _ => Ok(()),
        }
    }

    // The same for a parameter, unless it is refused.
    fn prepare_parameter(
        &mut self,
        parameter: Result<Parameter, NotationError>,
    ) -> Result<(), Memory>
        ensures { self.new ≡ self.old }
    {
        match parameter {
            Ok(Parameter::One(notation)) => self.find_for(notation),
            Ok(Parameter::Sum(first, second)) => {
                self.find_for(first)?;
                self.find_for(second)
            }
            Err(_) => Ok(()),
        }
    }

    // The same for a notation, unless it is refused.
    fn prepare_notation(&mut self, notation: Result<Notation, NotationError>) -> Result<(), Memory>
        ensures { self.new ≡ self.old }
    {
        match notation {
            Ok(notation) => self.find_for(notation),
            Err(_) => Ok(()),
        }
    }

    // Finds by the pool of a side what a notation asks for, where it serves.
    fn find_for(&mut self, notation: Notation) -> Result<(), Memory>
        ensures { self.new ≡ self.old }
    {
        let side = match notation.kind {
            Kind::Hill | Kind::Peak => SideName::Hills,
            Kind::Dale | Kind::Pit => SideName::Dales,
        };
        let need = if heights_serve(&notation) {
            Need::Kept(notation.percent)
        } else {
            Need::Features(notation.percent)
        };
        self.find_by_pool(side, need)
    }

    // Finds by the pool of a side what a report asks for, where it serves.
    fn find_by_pool(&mut self, side: SideName, need: Need) -> Result<(), Memory>
        ensures { self.new ≡ self.old }
    {
        let alloc = self.work.alloc;
        let tiles = self.work.board.grid();
        let presence = &mut self.survey.presence;
        match side {
            SideName::Dales => {
                let found = &mut self.survey.dales;
                find_by_pool(alloc, tiles, &mut self.dales, found, presence, need)
            }
            SideName::Hills => {
                let found = &mut self.survey.hills;
                find_by_pool(alloc, tiles, &mut self.hills, found, presence, need)
            }
        }
    }

    // Tells in which region of a side a point lies.
    fn label(&mut self, number: u64, side: SideName, at: Pos) -> Result<Answer, Memory>
        ensures ok { IfOk result (λ a. IsLabelAnswer self.old.state number side at
            (reply_of a) self.new.state) }
        ensures same { self.new ≡ self.old }
    {
        match side {
            SideName::Dales => {
                let found = &mut self.survey.dales;
                show_label(&self.work, &mut self.dales, found, number, at)
            }
            SideName::Hills => {
                let found = &mut self.survey.hills;
                show_label(&self.work, &mut self.hills, found, number, at)
            }
        }
    }

    // Makes an edit. What was found is given up.
    fn edit(&mut self, number: u64, edit: &Edit) -> Result<Answer, Memory>
        requires { self.old.changes < 2 ^ 62 }
        ensures ok { IfOk result (λ a. IsEditAnswer self.old.state number edit.now
            (reply_of a) self.new.state) }
        ensures memory { OnErr result (self.new.state ≡ self.old.state) }
        ensures changes { RisesUpTo (2 ^ 27) self.old.changes self.new.changes }
    {
        drop(replace(&mut self.survey, Survey::new()));
        pool_stays_in_step();
        self.work.edit(number, edit)
    }

    // Goes back over kept edits. What was found is given up.
    fn undo(&mut self, number: u64, count: u64) -> Result<Answer, Memory>
        requires { self.old.changes < 2 ^ 62 }
        ensures ok { IfOk result (λ a. IsUndoAnswer self.old.state number count (reply_of a) self.new.state) }
        ensures memory { OnErr result (self.new.state ≡ self.old.state) }
        ensures changes { RisesUpTo (2 ^ 27) self.old.changes self.new.changes }
    {
        drop(replace(&mut self.survey, Survey::new()));
        pool_stays_in_step();
        self.work.undo(number, count)
    }

    // Sets which points are neighbours. What was found is given up.
    fn set_adjacency(&mut self, number: u64, adjacency: Adjacency) -> Result<Answer, Memory>
        requires { self.old.changes < 2 ^ 62 }
        ensures ok { IfOk result (λ a. IsNeighboursAnswer self.old.state number adjacency
            (reply_of a) self.new.state) }
        ensures memory { OnErr result (self.new.state ≡ self.old.state) }
        ensures changes { RisesUpTo (2 ^ 27) self.old.changes self.new.changes }
    {
        drop(replace(&mut self.survey, Survey::new()));
        pool_stays_in_step();
        self.work.set_adjacency(number, adjacency)
    }

    // Defines an element.
    fn define(
        &mut self,
        number: u64,
        name: List<u8>,
        width: u32,
        height: u32,
        table: List<Option<i64>>,
    ) -> Result<Answer, Memory>
        requires { IsTable width height table }
        ensures ok { IfOk result (λ a. IsElementAnswer self.old.state number
            (record { name = name; width = width; height = height; table = table })
            (reply_of a) self.new.state) }
        ensures memory { OnErr result (self.new.state ≡ self.old.state) }
        ensures changes { RisesUpTo (2 ^ 27) self.old.changes self.new.changes }
    {
        self.work.define(number, name, width, height, table)
    }
}
