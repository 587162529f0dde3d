// What is no word of a line and no notation, and regions whose further values are known.
ghost use Rattle.std.specs.Prelude.{◌≤◌, All};
ghost use Rattle.hd_feature.specs.declared.region.Region.{Region};

use crate::shared::{Outcome, expect_rows, shown, text_of};
use hd_feature::{Region, read_notation, read_without_statistic};
use hd_list::List;
use hd_map::Rank;
use hd_num::{Frac, Whole, push_frac, push_text, push_unsigned, read_whole};
use hd_stats::{hist, perc};
use std::process::Abort;

// Adds a blank and a value.
fn push_value(rt: &impl Abort, text: &mut List<u8>, value: Option<Frac>) {
    push_text(text, b" ").expect(rt, "memory");
    match value {
        Some(value) => push_frac(text, value).expect(rt, "memory"),
        None => push_text(text, b"none").expect(rt, "memory"),
    }
}

// Regions of these local heights, one after another.
fn regions(rt: &(impl Abort + AllocGlobal), text: &str) -> List<Region>
    ensures { All (λ (r : Region). r.points ≤ 4194304) result }
{
    let mut regions = List::new(rt.alloc());
    let mut index = 0u32;
    for word in text.split_ascii_whitespace() {
        if let Whole::Is(lpvh) = read_whole(word.as_bytes()) {
            let region = Region {
                pit: Rank { height: 0, index },
                lpvh,
                points: 1,
                edge_low: None,
                edge_high: None,
            };
            regions.push(region).expect(rt, "memory");
        }
        index = index.saturating_add(1);
    }
    regions
}

// The counts in so many bins of the local heights that a notation keeps, as `BINS,WORD,HEIGHTS`.
struct Counts;

impl Outcome for Counts {
    fn of<R: Abort + AllocGlobal>(rt: &R, input: &str) -> String {
        let (bins, rest) = input.split_once(",").expect(rt, "bins");
        let (kept, heights) = rest.split_once(",").expect(rt, "a word and heights");
        let Whole::Is(bins) = read_whole(bins.as_bytes()) else {
            return shown(rt, &input);
        };
        assert!(rt; 1 <= bins && bins <= 64);
        let word = format!(in rt.alloc(); "FC;D;Wolfprune:5%;{kept};lpvh").expect(rt, "memory");
        let notation = read_without_statistic(word.as_bytes()).expect(rt, "a notation");
        let counts = hist(rt.alloc(), &notation, &regions(rt, heights), bins as u32);
        let Some(counts) = counts.expect(rt, "memory") else {
            return shown(rt, &"none");
        };
        let mut text = List::new(rt.alloc());
        for count in counts.as_slice() {
            push_text(&mut text, b" ").expect(rt, "memory");
            push_unsigned(&mut text, *count).expect(rt, "memory");
        }
        text_of(rt, text)
    }
}

const COUNTS: &str = "2,All,5 4 =>  1 1
2,All, => \"none\"
1,All,1 5 9 =>  3
3,All,7 7 7 =>  3 0 0
2,All,0 1 2 =>  1 2
4,All,0 1 2 3 4 =>  1 1 1 2
3,All,-3 -2 -1 0 1 2 3 =>  2 2 3
2,Bot:2,0 9 4 5 =>  1 1
2,Open:0,5 4 => \"none\"
2,All,-9223372036854775808 0 9223372036854775807 =>  1 2
64,All,0 64 =>  1 0 0 0 0 0 0 0 0 0 0 0 0 0 0 0 0 0 0 0 0 0 0 0 0 0 0 0 0 0 0 0 0 0 0 0 0 0 0 0 0 0 0 0 0 0 0 0 0 0 0 0 0 0 0 0 0 0 0 0 0 0 0 1";

// The share of local heights that are greater than a bound, as `BOUND,HEIGHTS`.
struct Share;

impl Outcome for Share {
    fn of<R: Abort + AllocGlobal>(rt: &R, input: &str) -> String {
        let (above, heights) = input.split_once(",").expect(rt, "a bound");
        let Whole::Is(above) = read_whole(above.as_bytes()) else {
            return shown(rt, &input);
        };
        let word = b"FC;D;Wolfprune:5%;All;lpvh".as_slice();
        let notation = read_without_statistic(word).expect(rt, "a notation");
        let share = perc(rt.alloc(), &notation, &regions(rt, heights), above);
        let mut text = List::new(rt.alloc());
        push_value(rt, &mut text, share.expect(rt, "memory"));
        text_of(rt, text)
    }
}

const SHARES: &str = "4,5 4 =>  1/2
5,5 4 =>  0/1
3,5 4 =>  1/1
3, =>  none
9223372036854775807,9223372036854775807 =>  0/1
1,1 2 3 4 =>  3/4";

// Why a text is no notation.
struct Refusal;

impl Outcome for Refusal {
    fn of<R: Abort + AllocGlobal>(rt: &R, input: &str) -> String {
        shown(rt, &read_notation(input.as_bytes()).err())
    }
}

const REFUSALS: &str = " => Some(BadPart(1))
FC; D;Wolfprune:5%;Bot:5;lpvh;Mean => Some(BadPart(2))";

#[test]
fn texts_are_no_notations_and_values_are_counted(rt: HostRuntime) {
    expect_rows::<Refusal>(&rt, REFUSALS);
    expect_rows::<Counts>(&rt, COUNTS);
    expect_rows::<Share>(&rt, SHARES);
}
