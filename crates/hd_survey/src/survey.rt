// What reports find of a map.
ghost use Rattle.std.specs.Prelude.{◌≡◌, IfOk};
ghost use Rattle.hd_map.specs.Map.{Map};
ghost use Rattle.hd_map.specs.Presence.{IsPresence, present_heights};
ghost use Rattle.hd_survey.specs.Survey.{AreMapSums, IsSurvey};

use crate::findings::Findings;
use hd_list::Memory;
use hd_map::{Down, Heights, Presence, Up, presence_by_rows};
use hd_stats::{Sums, sums_of};
use std::alloc::Global;

/// What reports found of a map and of both its sides, for later ones on the same map under the same setting.
#[derive(Drop)]
pub struct Survey {
    /// How many points are present, and the range of their heights, where that was found.
    pub presence: Option<Presence>,
    /// The sums over the heights of its present points, where they were found.
    pub sums: Option<Sums>,
    /// Of its dales.
    pub dales: Findings<Down>,
    /// Of its hills.
    pub hills: Findings<Up>,
}

impl Survey {
    /// Nothing is found yet.
    pub fn new() -> Survey
        ensures { (m : Map) → IsSurvey m result }
    {
        Survey {
            presence: None,
            sums: None,
            dales: Findings::new(),
            hills: Findings::new(),
        }
    }

    /// The sums over the heights of the present points, which are found where they were not.
    pub fn height_sums<G: Heights>(&mut self, grid: &G) -> Sums
        requires { IsSurvey (G.map grid.now) self.old }
        ensures sums { AreMapSums (G.map grid.now) result }
        ensures survey { IsSurvey (G.map grid.now) self.new }
    {
        if let Some(sums) = self.sums {
            return sums;
        }
        let sums = sums_of(grid);
        self.sums = Some(sums);
        sums
    }

    /// How many points are present, and the range of their heights, which is found where it was not.
    pub fn presence<G: Heights>(&mut self, grid: &G) -> Presence
        requires { IsSurvey (G.map grid.now) self.old }
        ensures presence { IsPresence (present_heights (G.map grid.now)) result }
        ensures survey { IsSurvey (G.map grid.now) self.new }
    {
        if let Some(presence) = self.presence {
            return presence;
        }
        let sums = self.height_sums(grid);
        presence_in(sums)
    }

    /// The same, found by rows of numbers where neither it nor the sums were found. It takes four bytes for each point
    /// of a profile.
    pub fn find_presence<G: Heights>(&mut self, alloc: Global, grid: &G) -> Result<Presence, Memory>
        requires { IsSurvey (G.map grid.now) self.old }
        ensures presence { IfOk result (IsPresence (present_heights (G.map grid.now))) }
        ensures survey { IsSurvey (G.map grid.now) self.new }
    {
        if let Some(presence) = self.presence {
            return Ok(presence);
        }
        if let Some(sums) = self.sums {
            return Ok(presence_in(sums));
        }
        let presence = presence_by_rows(alloc, grid)?;
        self.presence = Some(presence);
        Ok(presence)
    }
}

// How many points are present, and the range of their heights, as sums tell them.
fn presence_in(sums: Sums) -> Presence
    ensures count { result.count ≡ sums.count }
    ensures range { result.range ≡ sums.range }
{
    Presence {
        count: sums.count,
        range: sums.range,
    }
}
