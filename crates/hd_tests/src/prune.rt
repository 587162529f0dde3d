// Pits kept by merges that are written down.
ghost use Rattle.std.specs.Prelude.{length, IsTrue};
ghost use Rattle.hd_tests.specs.WrittenGraphs.{are_within};

use hd_graph::{Low, Merge};
use hd_map::{Down, Rank, Side, Up};
use hd_num::Percent;
use hd_prune::keep;
use std::process::Abort;

macro_rules! low {
    ($height:expr, $index:expr) => {
        Low {
            rank: Rank {
                height: $height,
                index: $index,
            },
            pit: true,
        }
    };
}

macro_rules! merge {
    ($low:expr, $into:expr, $height:expr, $at:expr) => {
        Merge {
            low: $low,
            into: $into,
            at: Rank {
                height: $height,
                index: $at,
            },
        }
    };
}

// Compares the indexes of the pits kept below so many thousandths of a percent of Sz, and of their nearest
// saddles.
fn expect_kept<S: Side>(
    rt: &(impl Abort + AllocGlobal),
    lows: &[Low],
    merges: &[Merge],
    thousandths: u32,
    sz: i64,
    wanted: &[(u32, Option<u32>)],
)
    requires { IsTrue (are_within (length lows.now) merges.now) }
{
    let percent = Percent { thousandths };
    let all = keep::<S>(rt.alloc(), lows, merges, percent, sz).expect(rt, "memory");
    let mut indexes = Vec::new(rt.alloc());
    for kept in all.as_slice() {
        let nearest = match kept.nearest {
            Some(saddle) => Some(saddle.index),
            None => None,
        };
        indexes.push((kept.pit.index, nearest)).expect(rt, "memory");
    }
    assert!(rt; indexes.as_slice() == wanted);
}

/// Heights `0 5 1 8 2 4 3 BAD 6` as 9x1: the local heights are 4, 6 and 1, of which that of the dale at 6 is
/// below 25% of 8, and not below 12.5%. As it leaves, the dale at 4 is left with the saddle at 3. The last
/// dale has no saddle.
#[test]
fn dales_are_kept_by_merges(rt: HostRuntime) {
    let lows = [low!(0, 0), low!(1, 2), low!(2, 4), low!(3, 6), low!(6, 8)];
    let merges = [merge!(3, 2, 4, 5), merge!(1, 0, 5, 1), merge!(2, 0, 8, 3)];
    let three = [(0, Some(1)), (2, Some(1)), (4, Some(3)), (8, None)];
    expect_kept::<Down>(&rt, &lows, &merges, 25_000, 8, &three);
    let all = [
        (0, Some(1)),
        (2, Some(1)),
        (4, Some(5)),
        (6, Some(5)),
        (8, None),
    ];
    expect_kept::<Down>(&rt, &lows, &merges, 12_500, 8, &all);
}

/// Heights `0 5 1 6 1 5 0` as 7x1 at 100%: two dales leave, and what is left meets at the higher of the
/// saddles between. Heights `9 8 9 0` as 4x1: of two equal hills that of the lesser index leaves at 50%, and none at 0%.
#[test]
fn dales_of_one_height_meet_at_the_higher_saddle_and_hills_are_mirrored(rt: HostRuntime) {
    let lows = [low!(0, 0), low!(1, 2), low!(1, 4), low!(0, 6)];
    let merges = [merge!(1, 0, 5, 1), merge!(2, 3, 5, 5), merge!(3, 0, 6, 3)];
    let wanted = [(0, Some(3)), (6, Some(3))];
    expect_kept::<Down>(&rt, &lows, &merges, 100_000, 6, &wanted);
    let lows = [low!(9, 0), low!(9, 2)];
    let merges = [merge!(0, 1, 8, 1)];
    expect_kept::<Up>(&rt, &lows, &merges, 50_000, 9, &[(2, None)]);
    let both = [(0, Some(1)), (2, Some(1))];
    expect_kept::<Up>(&rt, &lows, &merges, 0, 9, &both);
}
