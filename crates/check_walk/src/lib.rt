// Walks from the marked pins over whatever is joined to them, for speed: a depth-first walk that keeps the way back in the marks, of
// which crate check_step says what they mean.
// Of a walk only this is promised: what it marks is reached. The sweeps that follow find whatever it should miss.
#![tactic(auto)]

ghost use Rattle.std.specs.Prelude.{◌≡◌, ◌≢◌, ◌<◌, true, length};
ghost use Rattle.grid.specs.Grid.{grid_of};
ghost use Rattle.check_link.specs.Marks.{at};
ghost use Rattle.check_sweep.specs.Reached.{val, two, Grown};
ghost use Rattle.check_sweep.specs.Pins.{Edges, pin_places};
ghost use Rattle.check_step.specs.Step.{On, Tip};
ghost use Rattle.check_walk.specs.Walk.{Pinned};

use check_link::is_horizontal;
use check_link::wired::{PIN_PLACES, Wired};
use check_step::{Cell, FROM_PIN, advance, claim};
use check_sweep::{EAST_START, SOUTH_START, WEST_START};
use grid::{area, column_count, layer_count, track_count};

// Steps from cell c until the walk is back there, at most so many.
fn walk(x: Wired, s: &mut [u8; PIN_PLACES], m: &mut [u8], c: Cell, steps: usize)
    requires { (length m.old ≡ length x.points.now) × On (grid_of x.frame) c }
    ensures { Grown (val x.entry.pins.now x.entry.points.now) (two s.old m.old)
        (two s.new m.new) (Edges (grid_of x.entry.frame)) }
{
    let mut here = c;
    'steps: for _ in 0..steps {
        if m[here.q] == 0 {
            return;
        }
        let Some(next) = advance(x, s, m, here) else {
            return;
        };
        here = next;
    }
}

// The points that a pin touches: in column i and track j, on the horizontal layers (flat) or the vertical ones.
#[derive(Clone, Copy)]
struct Touch {
    i: usize,
    j: usize,
    flat: bool,
}

fn touch_of(x: Wired, a: usize) -> Touch
    requires { a < pin_places }
    ensures { Tip (grid_of x.entry.frame) a result.i result.j result.flat }
{
    if a < SOUTH_START {
        return Touch {
            i: a,
            j: track_count(x.frame.w) - 1,
            flat: false,
        };
    }
    if a < WEST_START {
        return Touch {
            i: a - SOUTH_START,
            j: 0,
            flat: false,
        };
    }
    if a < EAST_START {
        return Touch {
            i: 0,
            j: a - WEST_START,
            flat: true,
        };
    }
    Touch {
        i: column_count(x.frame.n) - 1,
        j: a - EAST_START,
        flat: true,
    }
}

// A walk from cell c, which the marked pin a touches on layers of one direction, where c has none of a walk's marks yet.
fn begin(x: Wired, s: &mut [u8; PIN_PLACES], m: &mut [u8], a: usize, c: Cell, flat: bool)
    requires { (length m.old ≡ length x.points.now) × Pinned (grid_of x.frame) s.old a c flat }
    ensures { Grown (val x.entry.pins.now x.entry.points.now) (two s.old m.old)
        (two s.new m.new) (Edges (grid_of x.entry.frame)) }
{
    let is_flat = is_horizontal(c.l, x.frame.first);
    if is_flat != flat {
        return;
    }
    let v = x.pins[a];
    if !claim(x.points, m, c.q, v, FROM_PIN) {
        return;
    }
    walk(x, s, m, c, 2 * x.points.len());
}

// Walks from all points that the marked pin a touches, in column i and track j.
fn walk_from(
    x: Wired,
    s: &mut [u8; PIN_PLACES],
    m: &mut [u8],
    a: usize,
    i: usize,
    j: usize,
    flat: bool,
)
    requires marks { length m.old ≡ length x.points.now }
    requires place { (a < pin_places) × (at s.old a ≢ 0) }
    requires point { (i < x.frame.n.0) × (j < x.frame.w.0) }
    requires tip { Tip (grid_of x.frame) a i j flat }
    ensures { Grown (val x.entry.pins.now x.entry.points.now) (two s.old m.old)
        (two s.new m.new) (Edges (grid_of x.entry.frame)) }
{
    let each = area(x.frame.n, x.frame.w);
    let n = column_count(x.frame.n);
    for l in 0..layer_count(x.frame.k) {
        let q = l * each + (j * n + i);
        begin(
            x,
            s,
            m,
            a,
            Cell {
                q,
                i,
                j,
                l,
                tried: 0,
            },
            flat,
        );
    }
}

// Where pin a waits: walks from its points. Whether it waited.
fn take_up(x: Wired, s: &mut [u8; PIN_PLACES], m: &mut [u8], a: usize) -> bool
    requires { (length m.old ≡ length x.points.now) × (a < pin_places) }
    ensures grown { Grown (val x.entry.pins.now x.entry.points.now) (two s.old m.old)
        (two s.new m.new) (Edges (grid_of x.entry.frame)) }
    ensures waited { result ≡ true → at s.old a ≡ 1 }
{
    if s[a] != 1 {
        return false;
    }
    s[a] = 2;
    let Touch { i, j, flat } = touch_of(x, a);
    if column_count(x.frame.n) <= i || track_count(x.frame.w) <= j {
        return true;
    }
    walk_from(x, s, m, a, i, j, flat);
    true
}

// Takes up each waiting pin once. Whether one waited.
fn take_up_all(x: Wired, s: &mut [u8; PIN_PLACES], m: &mut [u8]) -> bool
    requires { length m.old ≡ length x.points.now }
    ensures { Grown (val x.entry.pins.now x.entry.points.now) (two s.old m.old)
        (two s.new m.new) (Edges (grid_of x.entry.frame)) }
{
    let mut waited = false;
    for a in 0..PIN_PLACES {
        // no `|=`: most pins wait no more, and the loop over these then has nothing to do for each
        if take_up(x, s, m, a) {
            waited = true;
        }
    }
    waited
}

// Walks from all marked pins, and from those that the walks reach. A pin waits once, so as many rounds as places are enough. (For our own
// crates.)
pub fn spread(x: Wired, s: &mut [u8; PIN_PLACES], m: &mut [u8])
    requires { length m.old ≡ length x.points.now }
    ensures { Grown (val x.entry.pins.now x.entry.points.now) (two s.old m.old)
        (two s.new m.new) (Edges (grid_of x.entry.frame)) }
{
    'rounds: for _ in 0..PIN_PLACES {
        if !take_up_all(x, s, m) {
            return;
        }
    }
}
