// One step of a depth-first walk over whatever is joined to the marked pins. The walk keeps the way back in the marks.
//
// A point's mark is the direction in which the walk came to it: AHEAD and BEHIND in the layer's own direction, ABOVE, BELOW; FROM_PIN
// where it began. A pin's mark is 1 while its points wait to be walked from, and 2 afterwards.
#![tactic(auto)]

ghost use Rattle.std.specs.Prelude.{◌≡◌, ◌≢◌, true, ◌<◌, length, IfSome};
ghost use Rattle.grid.specs.Grid.{grid_of};
ghost use Rattle.check_link.specs.Marks.{at};
ghost use Rattle.check_link.specs.Edges.{horizontal};
ghost use Rattle.check_sweep.specs.Pins.{pin_places};
ghost use Rattle.check_step.specs.Step.{On, Tip, Stepped, Claimed, Moved, Met, Walked, Ready};

use check_link::is_horizontal;
use check_link::wired::{PIN_PLACES, Wired};
use check_sweep::{EAST_START, SOUTH_START, WEST_START};
use grid::{area, column_count, layer_count, track_count};

const AHEAD: u8 = 1;

const BEHIND: u8 = 2;

const ABOVE: u8 = 3;

const BELOW: u8 = 4;

pub const FROM_PIN: u8 = 5;

// Point q of the buffer, in column i, track j and layer l, all from 0, and how many of the directions were tried there, in the order of
// their numbers.
#[derive(Clone, Copy)]
pub struct Cell {
    pub q: usize,
    pub i: usize,
    pub j: usize,
    pub l: usize,
    pub tried: u8,
}

// Whether entry b has no mark and holds v.
fn is_free(x: &[u8], m: &[u8], b: usize, v: u8) -> bool
    requires { (b < length x.now) × (b < length m.now) }
    ensures { result ≡ true → (at x.now b ≡ v) × (at m.now b ≡ 0) }
{
    x[b] == v && m[b] == 0
}

// Entry b is marked d where it has no mark and holds v. (For our own crates.)
pub fn claim(x: &[u8], m: &mut [u8], b: usize, v: u8, d: u8) -> bool
    requires { (b < length x.now) × (b < length m.old) }
    ensures { Claimed x.now m.old m.new b v d result }
{
    let free = is_free(x, m, b, v);
    if free {
        m[b] = d;
    }
    free
}

// The next point in the layer's own direction, where so many directions were tried; none where the grid ends.
fn ahead(x: Wired, c: Cell, tried: u8) -> Option<Cell>
    requires { On (grid_of x.frame) c }
    ensures { IfSome result (Stepped (grid_of x.entry.frame) c) }
{
    let Cell { q, i, j, l, .. } = c;
    let n = column_count(x.frame.n);
    if is_horizontal(l, x.frame.first) {
        if i + 1 < n {
            return Some(Cell {
                q: q + 1,
                i: i + 1,
                j,
                l,
                tried,
            });
        }
        return None;
    }
    if j + 1 < track_count(x.frame.w) {
        return Some(Cell {
            q: q + n,
            i,
            j: j + 1,
            l,
            tried,
        });
    }
    None
}

// The point before c in the layer's own direction.
fn behind(x: Wired, c: Cell, tried: u8) -> Option<Cell>
    requires { On (grid_of x.frame) c }
    ensures { IfSome result (Stepped (grid_of x.entry.frame) c) }
{
    let Cell { q, i, j, l, .. } = c;
    if is_horizontal(l, x.frame.first) {
        if 0 < i {
            return Some(Cell {
                q: q - 1,
                i: i - 1,
                j,
                l,
                tried,
            });
        }
        return None;
    }
    if 0 < j {
        return Some(Cell {
            q: q - column_count(x.frame.n),
            i,
            j: j - 1,
            l,
            tried,
        });
    }
    None
}

// The point on the next layer.
fn above(x: Wired, c: Cell, tried: u8) -> Option<Cell>
    requires { On (grid_of x.frame) c }
    ensures { IfSome result (Stepped (grid_of x.entry.frame) c) }
{
    let Cell { q, i, j, l, .. } = c;
    if l + 1 < layer_count(x.frame.k) {
        return Some(Cell {
            q: q + area(x.frame.n, x.frame.w),
            i,
            j,
            l: l + 1,
            tried,
        });
    }
    None
}

// The point on the layer before.
fn below(x: Wired, c: Cell, tried: u8) -> Option<Cell>
    requires { On (grid_of x.frame) c }
    ensures { IfSome result (Stepped (grid_of x.entry.frame) c) }
{
    let Cell { q, i, j, l, .. } = c;
    if 0 < l {
        return Some(Cell {
            q: q - area(x.frame.n, x.frame.w),
            i,
            j,
            l: l - 1,
            tried,
        });
    }
    None
}

// Back to where the walk came from, by the mark; none where it began.
fn retreat(x: Wired, c: Cell, mark: u8) -> Option<Cell>
    requires { On (grid_of x.frame) c }
    ensures { IfSome result (Stepped (grid_of x.entry.frame) c) }
{
    match mark {
        AHEAD => behind(x, c, AHEAD),
        BEHIND => ahead(x, c, BEHIND),
        ABOVE => below(x, c, ABOVE),
        BELOW => above(x, c, BELOW),
        _ => None,
    }
}

// On in the first of the directions not tried where there is a point to mark, or else back. The point that the walk came from, by
// the mark, is not tried, to save time.
fn onward(x: Wired, m: &mut [u8], c: Cell, mark: u8, v: u8) -> Option<Cell>
    requires { Ready (grid_of x.frame) x.points.now m.old c v × (length m.old ≡ length x.points.now) }
    ensures { Moved (grid_of x.entry.frame) x.entry.points.now m.old m.new result }
{
    if c.tried < AHEAD && mark != BEHIND {
        if let Some(to) = ahead(x, c, 0) {
            if is_free(x.points, m, to.q, v) {
                m[to.q] = AHEAD;
                return Some(to);
            }
        }
    }
    if c.tried < BEHIND && mark != AHEAD {
        if let Some(to) = behind(x, c, 0) {
            if is_free(x.points, m, to.q, v) {
                m[to.q] = BEHIND;
                return Some(to);
            }
        }
    }
    if c.tried < ABOVE && mark != BELOW {
        if let Some(to) = above(x, c, 0) {
            if is_free(x.points, m, to.q, v) {
                m[to.q] = ABOVE;
                return Some(to);
            }
        }
    }
    if c.tried < BELOW && mark != ABOVE {
        if let Some(to) = below(x, c, 0) {
            if is_free(x.points, m, to.q, v) {
                m[to.q] = BELOW;
                return Some(to);
            }
        }
    }
    retreat(x, c, mark)
}

// The pin at place a is marked, to be walked from, where cell c touches it and it holds v.
fn meet_pin(x: Wired, s: &mut [u8; PIN_PLACES], c: Cell, a: usize, v: u8, touches: bool)
    requires cell { On (grid_of x.frame) c }
    requires place { a < pin_places }
    requires tip { touches ≡ true → Tip (grid_of x.frame) a c.i c.j (horizontal x.frame.first c.l) }
    ensures { Met (grid_of x.entry.frame) x.entry.pins.now s.old s.new c.q v }
{
    if !touches {
        return;
    }
    let pins = x.pins;
    claim(pins, s, a, v, 1);
}

// The pins that cell c touches are marked, to be walked from, where they hold v; when the walk first comes to c.
fn meet(x: Wired, s: &mut [u8; PIN_PLACES], c: Cell, v: u8)
    requires { On (grid_of x.frame) c }
    ensures { Met (grid_of x.entry.frame) x.entry.pins.now s.old s.new c.q v }
{
    if c.tried != 0 {
        return;
    }
    let Cell { i, j, l, .. } = c;
    if is_horizontal(l, x.frame.first) {
        meet_pin(x, s, c, WEST_START + j, v, i == 0);
        meet_pin(x, s, c, EAST_START + j, v, i + 1 == column_count(x.frame.n));
    } else {
        meet_pin(x, s, c, SOUTH_START + i, v, j == 0);
        meet_pin(x, s, c, i, v, j + 1 == track_count(x.frame.w));
    }
}

// One step of the walk, on or back; none where it is back at its beginning. (For our own crates.)
pub fn advance(x: Wired, s: &mut [u8; PIN_PLACES], m: &mut [u8], c: Cell) -> Option<Cell>
    requires { (length m.old ≡ length x.points.now) × On (grid_of x.frame) c × (at m.old c.q ≢ 0) }
    ensures { Walked (grid_of x.entry.frame) x.entry.pins.now s.old s.new x.entry.points.now m.old
        m.new result }
{
    let v = x.points[c.q];
    let mark = m[c.q];
    meet(x, s, c, v);
    onward(x, m, c, mark, v)
}
