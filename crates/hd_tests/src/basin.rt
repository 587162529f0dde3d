// Pools of basins on surfaces, against what plain Python finds by the definitions, and how often they look at points.
ghost use Rattle.std.specs.Prelude.{◌≡◌};
ghost use Rattle.hd_map.specs.Surface.{map_of};
ghost use Rattle.hd_tiles.specs.Tile.{IsTileSide};
ghost use Rattle.hd_basin.specs.InStep.{HasMap};
ghost use Rattle.hd_pool.specs.Following.{IsFollowing};

use crate::followed::{Followed, Watched, pool_anew};
use crate::shared::{Outcome, expect_rows, lines_of, surface};
use crate::surface_of;
use crate::told::{sum_of, text_of};
use hd_basin::Basins;
use hd_map::{Adjacency, Cell, DataType, Down, Heights, Pos, Side, Size, Surface, Up};
use hd_num::{Whole, read_count, read_whole};
use std::process::Abort;

// A surface of this size whose heights are from 0 to 15 by a linear congruence, where about each eighth
// point is not measured.
pub(crate) fn noise(rt: &(impl Abort + AllocGlobal), points: u32, profiles: u32) -> Surface {
    assert!(rt; 1 <= points && points <= 17 && 1 <= profiles && profiles <= 17);
    let mut cells = Vec::new(rt.alloc());
    let mut drawn = 7u32;
    for _index in 0..points * profiles {
        drawn = drawn.wrapping_mul(1_664_525).wrapping_add(1_013_904_223);
        let cell = if drawn >> 20 & 7 == 0 {
            Cell::Bad
        } else {
            Cell::Height(i64::from(drawn >> 28))
        };
        cells.push(cell).expect(rt, "memory");
    }
    let size = Size { points, profiles };
    surface_of(rt.alloc(), size, DataType::I16, &cells).expect(rt, "a surface")
}

// The surface of this size whose heights are x + y, and so much more.
fn slope(rt: &(impl Abort + AllocGlobal), points: u32, profiles: u32, more: u32) -> Surface {
    assert!(rt; 1 <= points && points <= 64 && 1 <= profiles && profiles <= 64);
    let mut cells = Vec::new(rt.alloc());
    for index in 0..points * profiles {
        let height = (index / points)
            .saturating_add(index % points)
            .saturating_add(more);
        cells
            .push(Cell::Height(i64::from(height)))
            .expect(rt, "memory");
    }
    let size = Size { points, profiles };
    surface_of(rt.alloc(), size, DataType::I16, &cells).expect(rt, "a surface")
}

// The count at the front of a text, and what follows it after a blank.
fn first_count<'a>(rt: &impl Abort, text: &'a str) -> (u32, &'a str) {
    let (word, rest) = text.split_once(" ").expect(rt, "a word");
    (read_count(word.as_bytes()).expect(rt, "a count"), rest)
}

// The surface of a name: `noise W H 0` or `slope W H MORE`, or else its profiles with `/` between them.
fn surface_named(rt: &(impl Abort + AllocGlobal), name: &str) -> Surface {
    let (kind, rest) = name.split_once(" ").expect(rt, "a word");
    if kind != "noise" && kind != "slope" {
        return surface(rt, DataType::I16, &lines_of(rt, name));
    }
    let (points, rest) = first_count(rt, rest);
    let (profiles, rest) = first_count(rt, rest);
    let more = read_count(rest.as_bytes()).expect(rt, "a count");
    if kind == "noise" {
        noise(rt, points, profiles)
    } else {
        slope(rt, points, profiles, more)
    }
}

// What a pool tells, which is what another pool tells that has seen all at once.
fn compared<S: Side>(rt: &(impl Abort + AllocGlobal), watched: &Watched, pool: &Basins<S>) -> String
    requires following { IsFollowing (map_of watched.now.tiles.grid) S.NAME
        watched.now.tiles.tiling.side watched.now.tiles.stamps.items pool.now }
    requires pool { HasMap S.NAME pool.now }
{
    let surface = watched.tiles.surface();
    let text = text_of(rt, surface, pool);
    let anew = pool_anew::<S>(rt, watched);
    let whole = text_of(rt, surface, &anew);
    assert!(rt; text.as_str() == whole.as_str());
    text
}

// Brings a pool up to its surface, and adds the sum of what it tells.
fn push_sum<S: Side>(rt: &(impl Abort + AllocGlobal), followed: &mut Followed<S>, sums: &mut String)
    requires { IsFollowing (map_of followed.old.watched.tiles.grid) S.NAME
        followed.old.watched.tiles.tiling.side followed.old.watched.tiles.stamps.items
        followed.old.pool }
    ensures { IsFollowing (map_of followed.new.watched.tiles.grid) S.NAME
        followed.new.watched.tiles.tiling.side followed.new.watched.tiles.stamps.items
        followed.new.pool }
{
    followed.refresh(rt);
    let text = compared(rt, &followed.watched, &followed.pool);
    write!(sums, " {}", sum_of(text.as_str())).expect(rt, "memory");
}

// Adds the sums at first, and after changes of cells and masks at the corners and in the middle.
fn push_sums<S: Side>(
    rt: &(impl Abort + AllocGlobal),
    followed: &mut Followed<S>,
    sums: &mut String,
)
    requires { IsFollowing (map_of followed.old.watched.tiles.grid) S.NAME
        followed.old.watched.tiles.tiling.side followed.old.watched.tiles.stamps.items
        followed.old.pool }
    ensures { IsFollowing (map_of followed.new.watched.tiles.grid) S.NAME
        followed.new.watched.tiles.tiling.side followed.new.watched.tiles.stamps.items
        followed.new.pool }
{
    let size = followed.watched.tiles.size();
    let first = Pos { x: 0, y: 0 };
    let last = Pos {
        x: size.points.saturating_sub(1),
        y: size.profiles.saturating_sub(1),
    };
    let middle = Pos {
        x: size.points / 2,
        y: size.profiles / 2,
    };
    push_sum(rt, followed, sums);
    followed.set_cell(rt, last, Cell::Height(-1));
    push_sum(rt, followed, sums);
    followed.set_cell(rt, middle, Cell::Bad);
    followed.set_mask(rt, first, true);
    push_sum(rt, followed, sums);
    followed.set_cell(rt, middle, Cell::Height(9));
    followed.set_cell(rt, last, Cell::Height(16));
    followed.set_mask(rt, first, false);
    push_sum(rt, followed, sums);
}

// The sums of a side of a surface in tiles of this side, under each setting.
fn sums_of<S: Side>(rt: &(impl Abort + AllocGlobal), surface: Surface, side: u32) -> String
    requires { IsTileSide side }
{
    let mut sums = String::new(rt.alloc());
    let mut followed = Followed::<S>::new(rt, surface, side);
    push_sums(rt, &mut followed, &mut sums);
    followed.set_adjacency(rt, Adjacency::Six);
    push_sums(rt, &mut followed, &mut sums);
    followed.set_adjacency(rt, Adjacency::Four);
    push_sums(rt, &mut followed, &mut sums);
    sums
}

// The sums of what is told of a side of a surface, as `SIDE TILE SURFACE`.
struct Sums;

impl Outcome for Sums {
    fn of<R: Abort + AllocGlobal>(rt: &R, input: &str) -> String {
        let (name, rest) = input.split_once(" ").expect(rt, "a side");
        let (side, rest) = first_count(rt, rest);
        assert!(rt; 8 <= side && side <= 256);
        let surface = surface_named(rt, rest);
        if name == "D" {
            sums_of::<Down>(rt, surface, side)
        } else {
            sums_of::<Up>(rt, surface, side)
        }
    }
}

// As `gate/basins.py` prints them.
const SUMS: &str =
    "D 8 noise 8 8 0 =>  4134908236 1118434154 213815009 1121493992 2754872742 3767446053 210811285 2754872742 3976990951 317369461 2001777424 3976990951
D 256 noise 8 8 0 =>  4134908236 1118434154 213815009 1121493992 2754872742 3767446053 210811285 2754872742 3976990951 317369461 2001777424 3976990951
H 8 noise 8 8 0 =>  2522795315 2282076026 420176418 3948532386 1030914829 2066204961 3097267122 1030914829 2793153197 3424363153 944171658 2793153197
H 256 noise 8 8 0 =>  2522795315 2282076026 420176418 3948532386 1030914829 2066204961 3097267122 1030914829 2793153197 3424363153 944171658 2793153197
D 8 noise 9 9 0 =>  364327019 928776240 49895408 4234879040 3242400902 1450352945 4223675789 3242400902 1927991316 1706850404 307738972 1927991316
D 256 noise 9 9 0 =>  3968124212 949849393 2984404788 2343680943 2256696909 468551422 2182075864 2256696909 469663466 1612782475 2592933747 469663466
H 8 noise 9 9 0 =>  274333140 1761811813 3912088765 4209018000 550665949 1987585962 3223891841 550665949 2195929780 2142610783 2395101562 2195929780
H 256 noise 9 9 0 =>  2655035252 90680032 2608117064 1540461817 3396303086 1449067661 2973992356 3396303086 3441721503 2368915525 1081620378 3441721503
D 8 noise 17 1 0 =>  3306054056 43858824 1609166339 3973714712 3973714712 366611064 1609166339 3973714712 3973714712 366611064 1609166339 3973714712
D 256 noise 17 1 0 =>  269622017 382770567 2739635655 2842981641 2842981641 382770567 2739635655 2842981641 2842981641 382770567 2739635655 2842981641
H 8 noise 17 1 0 =>  1321193747 3901932147 652676370 2361219022 2361219022 2332113424 652676370 2361219022 2361219022 2332113424 652676370 2361219022
H 256 noise 17 1 0 =>  2801195991 1086967095 362816782 3873779427 3873779427 3101127619 362816782 3873779427 3873779427 3101127619 362816782 3873779427
D 8 noise 1 17 0 =>  3059950588 4092722652 3826113711 3727611244 3727611244 120507596 3826113711 3727611244 3727611244 120507596 3826113711 3727611244
D 256 noise 1 17 0 =>  1686952557 1800101107 661615731 4260312181 4260312181 1800101107 661615731 4260312181 4260312181 1800101107 661615731 4260312181
H 8 noise 1 17 0 =>  500418815 3081157215 4256406822 699098850 699098850 669993252 4256406822 699098850 699098850 669993252 4256406822 699098850
H 256 noise 1 17 0 =>  1980421059 266192163 3966547234 3593270223 3593270223 2820618415 3966547234 3593270223 3593270223 2820618415 3966547234 3593270223
D 8 noise 17 17 0 =>  2699397284 1329014016 3476559294 508331729 3686783878 2214603328 3706489692 3686783878 132222486 900388996 582136862 132222486
D 256 noise 17 17 0 =>  1946451266 3005415464 2176617648 3475224894 1645099303 1892066407 4262448564 1645099303 1584528466 631502174 2940701248 1584528466
H 8 noise 17 17 0 =>  2860785568 264963328 2761907222 471165668 561537459 1446834252 2841453133 561537459 1925089124 1168475184 2225899891 1925089124
H 256 noise 17 17 0 =>  3780057571 3636531043 1818559661 1134774265 1488051365 3137866675 2112797443 1488051365 8853255 4250574297 3342519212 8853255
D 16 slope 48 1 1 =>  2847886722 315971863 1434327026 481456779 481456779 2943985608 1434327026 481456779 481456779 2943985608 1434327026 481456779
H 16 slope 48 1 1 =>  1759247782 2343735909 3439595711 1500811636 1500811636 1361222194 3439595711 1500811636 1500811636 1361222194 3439595711 1500811636
D 8 0 9 1/4 9 5/6 2 6 =>  996642083 2063251769 1698588173 2845522339 4289142730 2063251769 1698588173 4289142730 4156219129 3904286723 2381903167 4156219129
D 16 0 9 1/4 9 5/6 2 6 =>  996642083 2063251769 1698588173 2845522339 4289142730 2063251769 1698588173 4289142730 4156219129 3904286723 2381903167 4156219129
D 64 0 9 1/4 9 5/6 2 6 =>  996642083 2063251769 1698588173 2845522339 4289142730 2063251769 1698588173 4289142730 4156219129 3904286723 2381903167 4156219129
D 256 0 9 1/4 9 5/6 2 6 =>  996642083 2063251769 1698588173 2845522339 4289142730 2063251769 1698588173 4289142730 4156219129 3904286723 2381903167 4156219129
H 8 0 9 1/4 9 5/6 2 6 =>  666699143 4209674439 4220867242 3940008705 1001676369 521744021 4040243281 1001676369 3200248624 521744021 3876479362 3200248624
H 16 0 9 1/4 9 5/6 2 6 =>  666699143 4209674439 4220867242 3940008705 1001676369 521744021 4040243281 1001676369 3200248624 521744021 3876479362 3200248624
H 64 0 9 1/4 9 5/6 2 6 =>  666699143 4209674439 4220867242 3940008705 1001676369 521744021 4040243281 1001676369 3200248624 521744021 3876479362 3200248624
H 256 0 9 1/4 9 5/6 2 6 =>  666699143 4209674439 4220867242 3940008705 1001676369 521744021 4040243281 1001676369 3200248624 521744021 3876479362 3200248624
D 8 978 3741 2508 =>  1035830547 1565882870 3668338565 2876749864 2876749864 1886954837 3668338565 2876749864 2876749864 1886954837 3668338565 2876749864
D 16 978 3741 2508 =>  1035830547 1565882870 3668338565 2876749864 2876749864 1886954837 3668338565 2876749864 2876749864 1886954837 3668338565 2876749864
D 64 978 3741 2508 =>  1035830547 1565882870 3668338565 2876749864 2876749864 1886954837 3668338565 2876749864 2876749864 1886954837 3668338565 2876749864
D 256 978 3741 2508 =>  1035830547 1565882870 3668338565 2876749864 2876749864 1886954837 3668338565 2876749864 2876749864 1886954837 3668338565 2876749864
H 8 978 3741 2508 =>  2524921218 1451792458 3668338565 2908893403 2908893403 1156819781 3668338565 2908893403 2908893403 1156819781 3668338565 2908893403
H 16 978 3741 2508 =>  2524921218 1451792458 3668338565 2908893403 2908893403 1156819781 3668338565 2908893403 2908893403 1156819781 3668338565 2908893403
H 64 978 3741 2508 =>  2524921218 1451792458 3668338565 2908893403 2908893403 1156819781 3668338565 2908893403 2908893403 1156819781 3668338565 2908893403
H 256 978 3741 2508 =>  2524921218 1451792458 3668338565 2908893403 2908893403 1156819781 3668338565 2908893403 2908893403 1156819781 3668338565 2908893403
D 8 978 202 2508 =>  3199277256 1886954837 3668338565 2876749864 2876749864 1886954837 3668338565 2876749864 2876749864 1886954837 3668338565 2876749864
D 16 978 202 2508 =>  3199277256 1886954837 3668338565 2876749864 2876749864 1886954837 3668338565 2876749864 2876749864 1886954837 3668338565 2876749864
D 64 978 202 2508 =>  3199277256 1886954837 3668338565 2876749864 2876749864 1886954837 3668338565 2876749864 2876749864 1886954837 3668338565 2876749864
D 256 978 202 2508 =>  3199277256 1886954837 3668338565 2876749864 2876749864 1886954837 3668338565 2876749864 2876749864 1886954837 3668338565 2876749864
H 8 978 202 2508 =>  103561777 1156819781 3668338565 2908893403 2908893403 1156819781 3668338565 2908893403 2908893403 1156819781 3668338565 2908893403
H 16 978 202 2508 =>  103561777 1156819781 3668338565 2908893403 2908893403 1156819781 3668338565 2908893403 2908893403 1156819781 3668338565 2908893403
H 64 978 202 2508 =>  103561777 1156819781 3668338565 2908893403 2908893403 1156819781 3668338565 2908893403 2908893403 1156819781 3668338565 2908893403
H 256 978 202 2508 =>  103561777 1156819781 3668338565 2908893403 2908893403 1156819781 3668338565 2908893403 2908893403 1156819781 3668338565 2908893403";

#[test]
fn pools_tell_what_is_found_without_tiles(rt: HostRuntime) {
    expect_rows::<Sums>(&rt, SUMS);
}

// Brings a pool up to its surface, and adds how many looks that took, and each region by the index of its pit, its height and
// the number of its points.
fn push_refresh<S: Side>(
    rt: &(impl Abort + AllocGlobal),
    followed: &mut Followed<S>,
    text: &mut String,
)
    requires { IsFollowing (map_of followed.old.watched.tiles.grid) S.NAME
        followed.old.watched.tiles.tiling.side followed.old.watched.tiles.stamps.items
        followed.old.pool }
    ensures { IsFollowing (map_of followed.new.watched.tiles.grid) S.NAME
        followed.new.watched.tiles.tiling.side followed.new.watched.tiles.stamps.items
        followed.new.pool }
{
    let looks = followed.refresh(rt);
    write!(text, " {looks}").expect(rt, "memory");
    let extents = followed.pool.extents().expect(rt, "memory");
    for extent in extents.as_slice() {
        let pit = extent.pit;
        write!(text, " {}:{}:{}", pit.index, pit.height, extent.points).expect(rt, "memory");
    }
}

// The looks at a surface and its dales at first, after a cell is set and once more, as `TILE X Y Z SURFACE`.
struct Looks;

impl Outcome for Looks {
    fn of<R: Abort + AllocGlobal>(rt: &R, input: &str) -> String {
        let (side, rest) = first_count(rt, input);
        assert!(rt; 8 <= side && side <= 256);
        let (x, rest) = first_count(rt, rest);
        let (y, rest) = first_count(rt, rest);
        let (z, name) = rest.split_once(" ").expect(rt, "a height");
        let Whole::Is(z) = read_whole(z.as_bytes()) else {
            return lines_of(rt, "no height");
        };
        let mut text = String::new(rt.alloc());
        let mut followed = Followed::<Down>::new(rt, surface_named(rt, name), side);
        push_refresh(rt, &mut followed, &mut text);
        followed.set_cell(rt, Pos { x, y }, Cell::Height(z));
        push_refresh(rt, &mut followed, &mut text);
        push_refresh(rt, &mut followed, &mut text);
        text
    }
}

// A set at the corner of four tiles is seen there: each of the eight tiles of a row is seen with the columns beside it, 9 + 6 *
// 10 + 9. After a set of the first point, all others have another root.
const LOOKS: &str =
    "8 7 7 -5 slope 64 64 0 =>  6084 0:0:4096 361 0:0:3812 455:-5:284 0 0:0:3812 455:-5:284
256 7 7 -5 slope 64 64 0 =>  4096 0:0:4096 4096 0:0:3812 455:-5:284 0 0:0:3812 455:-5:284
8 0 0 100 slope 48 1 1 =>  58 0:1:48 9 1:2:48 0 1:2:48";

#[test]
fn a_refresh_looks_at_what_changed_and_round_it(rt: HostRuntime) {
    expect_rows::<Looks>(&rt, LOOKS);
}

#[test]
fn a_slope_has_a_basin_in_each_tile(rt: HostRuntime) {
    let mut dales = Followed::<Down>::new(&rt, slope(&rt, 48, 1, 1), 16);
    dales.refresh(&rt);
    let text = text_of(&rt, dales.watched.tiles.surface(), &dales.pool);
    assert!(&rt; text.as_str().find(SECOND_NODE).is_some());
    assert!(&rt; text.as_str().find(TWO_PASSES).is_some());
}

const SECOND_NODE: &str =
    "\nSome(Node { low: Rank { height: 17, index: 16 }, flows: Some(Pos { x: 15, y: 0 }), tile: 1, points: 16, high: 32, least: 17, edge_low: Some(17), edge_high: Some(32) }) Some(Pos { x: 0, y: 0 })\n";

const TWO_PASSES: &str =
    "\n0 16 Rank { height: 17, index: 16 }\n16 32 Rank { height: 33, index: 32 }\nList {";
