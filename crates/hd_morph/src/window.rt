// The greatest of the values near each place of a list.
ghost use Rattle.std.specs.Prelude.{◌≡◌, ◌<◌, ◌≤◌, ◌+◌, ◌*◌, ◌^◌, ℕ, length};
ghost use Rattle.hd_map.specs.Encoding.{values_of};
ghost use Rattle.hd_morph.specs.Window.{AreWindowGreatests, AreStrideGreatests, AreAheadGreatests, IsWidened, AreWidened, IsLookedBack, AreLookedBack};

use crate::raise::Raise;

/// Puts at each place the greatest of the values at a distance of at most `reach`.
pub fn spread_near<L: Raise>(tops: &mut [L], reach: usize)
    requires { reach < 2 ^ 31 }
    ensures { AreWindowGreatests (values_of L.code tops.old) reach (values_of L.code tops.new) }
{
    spread(tops, 1, reach);
}

/// Puts at each place the greatest of the values at most `reach` strides after or before it.
pub fn spread<L: Raise>(tops: &mut [L], stride: usize, reach: usize)
    requires some { 0 < stride }
    requires stride { stride < 2 ^ 31 }
    requires reach { reach < 2 ^ 31 }
    ensures { AreStrideGreatests (values_of L.code tops.old) stride reach (values_of L.code tops.new) }
{
    look_ahead(tops, stride, reach + 1);
    look_back(tops, stride, reach);
}

// Puts at each place the greatest of the values from there on by strides. Each round doubles how
// many of them a value stands for.
fn look_ahead<L: Raise>(tops: &mut [L], stride: usize, count: usize)
    requires stride { stride < 2 ^ 31 }
    requires some { 0 < count }
    requires small { count ≤ 2 ^ 31 }
    requires some_stride { 0 < stride }
    ensures { AreAheadGreatests (values_of L.code tops.old) stride count (values_of L.code tops.new) }
{
    let mut seen = 1;
    'wider: while seen < count {
        let step = seen.min(count - seen);
        widen(tops, step * stride);
        seen += step;
    }
}

// Puts at each place the larger of its value and of that which is some steps ahead. Several numbers
// are taken at once only by a loop whose step is known when it is built, or that writes no place
// which it reads further on.
fn widen<L: Raise>(tops: &mut [L], step: usize)
    requires { 0 < step }
    ensures { IsWidened (values_of L.code tops.old) step (values_of L.code tops.new) }
{
    let end = tops.len().saturating_sub(step);
    match step {
        1 => widen_run(tops, 0, end, 1),
        2 => widen_run(tops, 0, end, 2),
        3 => widen_run(tops, 0, end, 3),
        4 => widen_run(tops, 0, end, 4),
        _ => widen_by_runs(tops, end, step),
    }
}

// The same before a place, in runs of at most a step.
fn widen_by_runs<L: Raise>(tops: &mut [L], end: usize, step: usize)
    requires some { 0 < step }
    requires room { 0 < end → end + step ≤ length tops.old }
    ensures { AreWidened (values_of L.code tops.old) step 0 end (values_of L.code tops.new) }
{
    let mut from = 0;
    'run: while from < end {
        let to = from + step.min(end - from);
        widen_run(tops, from, to, step);
        from = to;
    }
}

// The same from one place to another.
#[inline(always)]
fn widen_run<L: Raise>(tops: &mut [L], from: usize, to: usize, step: usize)
    requires order { from ≤ to }
    requires room { from < to → to + step ≤ length tops.old }
    ensures { AreWidened (values_of L.code tops.old) step from to (values_of L.code tops.new) }
{
    for place in from..to {
        tops[place] = tops[place].larger_of(tops[place + step]);
    }
}

// Puts at each place the larger of its value and of that which is some strides behind.
fn look_back<L: Raise>(tops: &mut [L], stride: usize, reach: usize)
    requires some { 0 < stride }
    requires stride { stride < 2 ^ 31 }
    requires reach { reach < 2 ^ 31 }
    ensures { IsLookedBack (values_of L.code tops.old) stride reach (values_of L.code tops.new) }
{
    let step = reach * stride;
    look_far_back(tops, step);
    for place in (0..tops.len().min(step)).rev() {
        tops[place] = tops[place].larger_of(tops[place % stride]);
    }
}

// Puts at each place from a step on the larger of its value and of that which is a step behind, and
// leaves the others. The loops are parted as those of `widen`.
fn look_far_back<L: Raise>(tops: &mut [L], step: usize)
    ensures { AreLookedBack (values_of L.code tops.old) step step (length tops.old)
        (values_of L.code tops.new) }
{
    let end = tops.len();
    if end <= step {
        return;
    }
    match step {
        0 => {}
        1 => look_run_back(tops, 1, end, 1),
        2 => look_run_back(tops, 2, end, 2),
        3 => look_run_back(tops, 3, end, 3),
        4 => look_run_back(tops, 4, end, 4),
        5 => look_run_back(tops, 5, end, 5),
        6 => look_run_back(tops, 6, end, 6),
        7 => look_run_back(tops, 7, end, 7),
        _ => look_back_by_runs(tops, step),
    }
}

// The same in runs of at most a step, the last one first.
fn look_back_by_runs<L: Raise>(tops: &mut [L], step: usize)
    requires some { 0 < step }
    requires room { step ≤ length tops.old }
    ensures { AreLookedBack (values_of L.code tops.old) step step (length tops.old)
        (values_of L.code tops.new) }
{
    let mut to = tops.len();
    'run: while to > step {
        let from = to - step.min(to - step);
        look_run_back(tops, from, to, step);
        to = from;
    }
}

// The same from one place to another, the last one first.
#[inline(always)]
fn look_run_back<L: Raise>(tops: &mut [L], from: usize, to: usize, step: usize)
    requires step { step ≤ from }
    requires order { from ≤ to }
    requires room { to ≤ length tops.old }
    ensures { AreLookedBack (values_of L.code tops.old) step from to (values_of L.code tops.new) }
{
    for place in (from..to).rev() {
        tops[place] = tops[place].larger_of(tops[place - step]);
    }
}
