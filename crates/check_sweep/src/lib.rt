// Sweeps over the joins of a wiring: a sweep marks whatever is joined to what was marked before it, along edges between equal
// numbers. Points and their marks stand in the buffer's order; the pins of the four sides, and their marks, in lists of PIN_PLACES.
#![tactic(auto)]

ghost use Rattle.std.specs.Prelude.{ℕ, ◌≡◌, ◌+◌, ◌*◌, ◌≤◌, ◌<◌, length};
ghost use Rattle.grid.specs.Grid.{grid_of};
ghost use Rattle.check_link.specs.Marks.{at, Swept};
ghost use Rattle.check_link.specs.Edges.{Only};
ghost use Rattle.check_sweep.specs.Reached.{a_pin, a_point, val, two, Aged, Settled};
ghost use Rattle.check_sweep.specs.Pins.{pin_places, PinRun, EndsOf, PinJoins, Edges};

use check_link::wired::{PIN_PLACES, Wired};
use check_link::{is_horizontal, points};
use grid::{area, column_count, layer_count, track_count};
use terms::{LONGEST_SIDE, WIDEST_GRID};

// Where the places of these sides start in the pin list, in which those of north come first.
pub const SOUTH_START: usize = LONGEST_SIDE;

pub const WEST_START: usize = 2 * LONGEST_SIDE;

pub const EAST_START: usize = 2 * LONGEST_SIDE + WIDEST_GRID;

// The edge from pin a to point b.
#[tactic(auto, using(crate::proofs::Spots::pin_marked, crate::proofs::Spots::point_marked))]
fn touch(x: Wired, s: &mut [u8; PIN_PLACES], m: &mut [u8], a: usize, b: usize) -> usize
    requires { (a < pin_places) × (b < length x.points.now) × (length m.old ≡ length x.points.now) }
    ensures { Swept (val x.entry.pins.now x.entry.points.now) (two s.old m.old)
        (two s.new m.new) (Only (a_pin a) (a_point b)) result }
{
    if x.pins[a] != x.points[b] {
        return 0;
    }
    if s[a] == 0 && m[b] == 1 {
        s[a] = 2;
        return 1;
    }
    if s[a] == 1 && m[b] == 0 {
        m[b] = 2;
        return 1;
    }
    0
}

// The edges from each of count pins from first on, to the points from start on in steps of gap.
#[tactic(auto, using(check_link::proofs::Zeros::zeros_le, check_link::proofs::Sweeping::below_none))]
fn side(
    x: Wired,
    s: &mut [u8; PIN_PLACES],
    m: &mut [u8],
    first: usize,
    start: usize,
    gap: usize,
    count: usize,
) -> usize
    requires places { first + count ≤ pin_places }
    requires inside { (t : ℕ) → t < count → start + t * gap < length x.points.now }
    requires marks { length m.old ≡ length x.points.now }
    ensures { Swept (val x.entry.pins.now x.entry.points.now) (two s.old m.old)
        (two s.new m.new) (PinRun first start gap count) result }
{
    let mut made = 0;
    for t in 0..count {
        made += touch(x, s, m, first + t, start + t * gap);
    }
    made
}

// The edges from the pins that layer l + 1 touches: west and east, or south and north.
#[tactic(auto, using(check_link::proofs::Zeros::zeros_le))]
fn ends(x: Wired, s: &mut [u8; PIN_PLACES], m: &mut [u8], l: usize) -> usize
    requires { (l < x.frame.k.0) × (length m.old ≡ length x.points.now) }
    ensures { Swept (val x.entry.pins.now x.entry.points.now) (two s.old m.old)
        (two s.new m.new) (EndsOf (grid_of x.entry.frame) l) result }
{
    let n = column_count(x.frame.n);
    let w = track_count(x.frame.w);
    let each = area(x.frame.n, x.frame.w);
    let q = l * each;
    if is_horizontal(l, x.frame.first) {
        let west = side(x, s, m, WEST_START, q, n, w);
        let east = side(x, s, m, EAST_START, q + (n - 1), n, w);
        west + east
    } else {
        let south = side(x, s, m, SOUTH_START, q, 1, n);
        let north = side(x, s, m, 0, q + (each - n), 1, n);
        south + north
    }
}

// All edges from pins.
#[tactic(auto, using(check_link::proofs::Zeros::zeros_le, check_link::proofs::Sweeping::below_none))]
fn pins(x: Wired, s: &mut [u8; PIN_PLACES], m: &mut [u8]) -> usize
    requires { length m.old ≡ length x.points.now }
    ensures { Swept (val x.entry.pins.now x.entry.points.now) (two s.old m.old)
        (two s.new m.new) (PinJoins (grid_of x.entry.frame)) result }
{
    let mut made = 0;
    for l in 0..layer_count(x.frame.k) {
        made += ends(x, s, m, l);
    }
    made
}

// One sweep over all edges. How many marks it made. (For our own crates.)
#[tactic(auto, using(check_link::proofs::Zeros::zeros_le))]
pub fn sweep(x: Wired, s: &mut [u8; PIN_PLACES], m: &mut [u8]) -> usize
    requires { length m.old ≡ length x.points.now }
    ensures { Swept (val x.entry.pins.now x.entry.points.now) (two s.old m.old)
        (two s.new m.new) (Edges (grid_of x.entry.frame)) result }
{
    points(x, m) + pins(x, s, m)
}

// What is marked counts as reached before the next sweep.
pub fn age(m: &mut [u8])
    ensures { (a : ℕ) → Aged (at m.old a) (at m.new a) }
{
    for mark in m.iter_mut() {
        *mark = (*mark).min(1);
    }
}

// Sweeps until one makes no mark. (For our own crates.)
pub fn settle(x: Wired, s: &mut [u8; PIN_PLACES], m: &mut [u8])
    requires { length m.old ≡ length x.points.now }
    ensures { Settled (val x.entry.pins.now x.entry.points.now) (two s.old m.old)
        (two s.new m.new) (Edges (grid_of x.entry.frame)) }
{
    'sweeps: loop {
        age(s);
        age(m);
        if sweep(x, s, m) == 0 {
            return;
        }
    }
}
