// Where the basins of a tile meet, each two of them once, at the lowest place.
ghost use Rattle.std.specs.Prelude.{◌≡◌, ◌<◌, [], IfOk, MatchOption, OnOk, length};
ghost use Rattle.hd_basin.specs.Meetings.{AreChained, IsKnown, IsUnknown, Notes};

use hd_list::Memory;
use hd_map::{Rank, Side};
use std::alloc::Global;

/// Two basins of a tile that meet.
#[derive(Clone, Copy, Debug, PartialEq, Eq)]
pub struct Meeting {
    /// The lesser of the numbers of their nodes.
    pub a: u32,
    /// The greater one.
    pub b: u32,
    /// The higher of the two points at which they meet.
    pub at: Rank,
    /// The number of the last meeting before this one with the same lesser node.
    pub before: Option<usize>,
}

/// The meetings that are known.
#[derive(Drop)]
pub struct Meetings {
    /// By the number of a node that of the last meeting whose lesser node it is.
    pub lasts: Vec<Option<usize>>,
    /// The meetings.
    pub list: Vec<Meeting>,
}

impl Meetings {
    /// No meetings of so many nodes.
    pub fn new(alloc: Global, nodes: usize) -> Result<Meetings, Memory>
        ensures chained { IfOk result (λ m. AreChained m.lasts.items m.list.items) }
        ensures none { IfOk result (λ m. m.list.items ≡ []) }
        ensures count { IfOk result (λ m. length m.lasts.items ≡ nodes) }
    {
        let lasts = vec![in alloc; None; nodes]?;
        let list = Vec::new(alloc);
        Ok(Meetings { lasts, list })
    }

    /// Notes that two nodes, the lesser number first, meet at a point; of two such places the lower one
    /// is kept.
    #[inline]
    pub fn note<S: Side>(&mut self, a: u32, b: u32, at: Rank) -> Result<(), Memory>
        requires chained { AreChained self.old.lasts.items self.old.list.items }
        requires inside { a < length self.old.lasts.items }
        ensures chained { OnOk result (AreChained self.new.lasts.items self.new.list.items) }
        ensures count { OnOk result (length self.new.lasts.items ≡ length self.old.lasts.items) }
        ensures notes { OnOk result (Notes S.NAME a b at self.old.list.items self.new.list.items) }
    {
        let Some(number) = self.find(a, b) else {
            self.add(a, b, at)?;
            return Ok(());
        };
        self.lower::<S>(number, at);
        Ok(())
    }

    // The number of the meeting of two nodes, if it is known.
    #[inline]
    fn find(&self, a: u32, b: u32) -> Option<usize>
        requires chained { AreChained self.now.lasts.items self.now.list.items }
        requires inside { a < length self.now.lasts.items }
        ensures { MatchOption result (IsUnknown a b self.now.list.items) (IsKnown a b self.now.list.items) }
    {
        let mut here = self.lasts[a as usize];
        'walk: loop {
            let Some(number) = here else {
                return None;
            };
            let meeting = self.list[number];
            if meeting.b == b {
                return Some(number);
            }
            here = meeting.before;
        }
    }

    // Lowers a meeting to a place, unless that is higher.
    #[inline]
    fn lower<S: Side>(&mut self, number: usize, at: Rank)
        requires chained { AreChained self.old.lasts.items self.old.list.items }
        requires inside { number < length self.old.list.items }
        ensures chained { AreChained self.new.lasts.items self.new.list.items }
        ensures count { length self.new.lasts.items ≡ length self.old.lasts.items }
        ensures lowers { (a b : _) → IsKnown a b self.old.list.items number
            → Notes S.NAME a b at self.old.list.items self.new.list.items }
    {
        let mut meeting = self.list[number];
        if !S::below(at, meeting.at) {
            return;
        }
        meeting.at = at;
        self.list[number] = meeting;
    }

    // Adds a meeting that is not known.
    fn add(&mut self, a: u32, b: u32, at: Rank) -> Result<(), Memory>
        requires chained { AreChained self.old.lasts.items self.old.list.items }
        requires inside { a < length self.old.lasts.items }
        ensures chained { OnOk result (AreChained self.new.lasts.items self.new.list.items) }
        ensures count { OnOk result (length self.new.lasts.items ≡ length self.old.lasts.items) }
        ensures adds { OnOk result ((s : _) → IsUnknown a b self.old.list.items
            → Notes s a b at self.old.list.items self.new.list.items) }
    {
        let number = self.list.len();
        let before = self.lasts[a as usize];
        self.list.push(Meeting { a, b, at, before })?;
        self.lasts[a as usize] = Some(number);
        Ok(())
    }
}
