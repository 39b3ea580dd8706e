// A sweep over the edges between points: it marks whatever is joined to what was marked before it, along edges between equal numbers.
// Points and their marks stand in the buffer's order.
#![tactic(auto)]

ghost use Rattle.std.specs.Prelude.{◌≡◌, false, ◌+◌, ◌*◌, ◌-◌, ◌≤◌, ◌<◌, length, ltb};
ghost use Rattle.grid.specs.Grid.{grid_of};
ghost use Rattle.check_link.specs.Marks.{at, one, Shut, Swept};
ghost use Rattle.check_link.specs.Edges.{horizontal, Only, Run, Rows, UpOf, AlongOf, LayerOf, Points, AllShut};

use grid::{area, column_count, layer_count, track_count};
use wired::Wired;

pub mod wired;

// Whether layer l + 1 is horizontal. (For our own crates.)
pub fn is_horizontal(l: usize, first: bool) -> bool
    ensures { result ≡ horizontal first l }
{
    if first { l % 2 == 0 } else { l % 2 == 1 }
}

// Whether an edge between two points asks for a mark: they hold the same, one was reached before and the other has no mark.
fn is_open(va: u8, vb: u8, ma: u8, mb: u8) -> bool
    ensures { (result ≡ false → Shut va vb ma mb ma mb) × (Shut va vb ma mb ma mb → result ≡ false) }
{
    (va == vb) & (ma != mb) & (ma < 2) & (mb < 2)
}

// Whether an edge of a run asks for a mark. It only reads, and has no way out, so that the compiler can take many points at a time.
#[tactic(auto, using(crate::proofs::Sweeping::all_none, crate::proofs::Sweeping::all_more))]
fn any_open(x: &[u8], m: &[u8], start: usize, count: usize, gap: usize) -> bool
    requires { (start + count + gap ≤ length x.now) × (length x.now ≤ length m.now) }
    ensures { AllShut x.now m.now start count gap result }
{
    let mut found = false;
    for t in 0..count {
        let a = start + t;
        let b = a + gap;
        found |= is_open(x[a], x[b], m[a], m[b]);
    }
    found
}

// One edge, from a to b. How many marks it made.
#[tactic(auto, using(crate::proofs::Sweeping::first_marked, crate::proofs::Sweeping::second_marked))]
fn link(x: &[u8], m: &mut [u8], a: usize, b: usize) -> usize
    requires { (a < length x.now) × (b < length x.now) × (length x.now ≤ length m.old) }
    ensures { Swept (at x.now) (one m.old) (one m.new) (Only a b) result }
{
    if x[a] != x[b] {
        return 0;
    }
    if m[a] == 0 && m[b] == 1 {
        m[a] = 2;
        return 1;
    }
    if m[a] == 1 && m[b] == 0 {
        m[b] = 2;
        return 1;
    }
    0
}

// The edges from each of count points from start on, to the point gap further.
#[tactic(auto, using(crate::proofs::Zeros::zeros_le, crate::proofs::Sweeping::below_none))]
fn mark_run(x: &[u8], m: &mut [u8], start: usize, count: usize, gap: usize) -> usize
    requires { (start + count + gap ≤ length x.now) × (length x.now ≤ length m.old) }
    ensures { Swept (at x.now) (one m.old) (one m.new) (Run start count gap) result }
{
    let mut made = 0;
    for t in 0..count {
        let a = start + t;
        made += link(x, m, a, a + gap);
    }
    made
}

// The same, where most runs ask for no mark.
#[tactic(auto, using(crate::proofs::Sweeping::swept_quiet))]
fn run(x: &[u8], m: &mut [u8], start: usize, count: usize, gap: usize) -> usize
    requires { (start + count + gap ≤ length x.now) × (length x.now ≤ length m.old) }
    ensures { Swept (at x.now) (one m.old) (one m.new) (Run start count gap) result }
{
    if any_open(x, m, start, count, gap) {
        mark_run(x, m, start, count, gap)
    } else {
        0
    }
}

// Along w tracks of n points, from q on.
#[tactic(auto, using(crate::proofs::Zeros::zeros_le, crate::proofs::Sweeping::below_none, crate::proofs::Offsets::rows_in))]
fn rows(x: &[u8], m: &mut [u8], q: usize, n: usize, w: usize) -> usize
    requires { (1 ≤ n) × (q + n * w ≤ length x.now) × (length x.now ≤ length m.old) }
    ensures { Swept (at x.now) (one m.old) (one m.new) (Rows q n w) result }
{
    let mut made = 0;
    for j in 0..w {
        made += run(x, m, q + j * n, n - 1, 1);
    }
    made
}

// From layer l + 1 to the layer above, where there is one.
fn up(x: Wired, m: &mut [u8], l: usize) -> usize
    requires { (l < x.frame.k.0) × (length m.old ≡ length x.points.now) }
    ensures { Swept (at x.entry.points.now) (one m.old) (one m.new) (UpOf (grid_of x.entry.frame) l) result }
{
    let each = area(x.frame.n, x.frame.w);
    if l + 1 < layer_count(x.frame.k) {
        run(x.points, m, l * each, each, each)
    } else {
        0
    }
}

// Along the tracks of layer l + 1 where it is horizontal, along its columns where it is vertical.
fn along(x: Wired, m: &mut [u8], l: usize) -> usize
    requires { (l < x.frame.k.0) × (length m.old ≡ length x.points.now) }
    ensures { Swept (at x.entry.points.now) (one m.old) (one m.new) (AlongOf (grid_of x.entry.frame) l) result }
{
    let n = column_count(x.frame.n);
    let each = area(x.frame.n, x.frame.w);
    if is_horizontal(l, x.frame.first) {
        rows(x.points, m, l * each, n, track_count(x.frame.w))
    } else {
        run(x.points, m, l * each, each - n, n)
    }
}

#[tactic(auto, using(crate::proofs::Zeros::zeros_le))]
fn layer(x: Wired, m: &mut [u8], l: usize) -> usize
    requires { (l < x.frame.k.0) × (length m.old ≡ length x.points.now) }
    ensures { Swept (at x.entry.points.now) (one m.old) (one m.new) (LayerOf (grid_of x.entry.frame) l) result }
{
    up(x, m, l) + along(x, m, l)
}

// All edges between points. How many marks a sweep over them made. (For our own crates.)
#[tactic(auto, using(crate::proofs::Zeros::zeros_le, crate::proofs::Sweeping::below_none))]
pub fn points(x: Wired, m: &mut [u8]) -> usize
    requires { length m.old ≡ length x.points.now }
    ensures { Swept (at x.entry.points.now) (one m.old) (one m.new) (Points (grid_of x.entry.frame)) result }
{
    let mut made = 0;
    for l in 0..layer_count(x.frame.k) {
        made += layer(x, m, l);
    }
    made
}
