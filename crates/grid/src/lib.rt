// The grid's three counts, and where a buffer holds a point.
#![tactic(auto)]

ghost use Rattle.std.specs.Prelude.{◌≡◌, ◌&&◌, ◌*◌, ◌≤◌, ltb};
ghost use Rattle.grid.specs.Grid.{upright, point, Inside};
ghost use Rattle.grid.specs.Legal.{index};
ghost use Rattle.counting.specs.Counting.{In};
ghost use Rattle.terms.specs.Kinds.{quotient};
ghost use Rattle.terms.specs.Limits.{longest_side, widest_grid, most_layers, within};

use terms::{LONGEST_SIDE, MOST_LAYERS, WIDEST_GRID, is_within, larger, rounded_up, smaller};

// A count or a number of columns, of tracks, of layers: never added or compared with each other,
// and opened only in the formulas of this file.
#[derive(Clone, Copy)]
pub struct Column(pub usize);

#[derive(Clone, Copy)]
pub struct Track(pub usize);

#[derive(Clone, Copy)]
pub struct Layer(pub usize);

// A grid: its counts, and whether its first layer is horizontal.
#[derive(Clone, Copy)]
pub struct Frame {
    pub n: Column,
    pub w: Track,
    pub k: Layer,
    pub first: bool,
}

// A count as a plain number: a loop's bound, or an operand of a formula that speaks of columns alone.
pub fn column_count(n: Column) -> usize
    ensures { result ≡ n.0 }
{
    n.0
}

// The same of tracks.
pub fn track_count(w: Track) -> usize
    ensures { result ≡ w.0 }
{
    w.0
}

// The same of layers.
pub fn layer_count(k: Layer) -> usize
    ensures { result ≡ k.0 }
{
    k.0
}

// The longer side over the shorter, rounded up. (For our own crates.)
pub fn quotient(n: Column, w: Track) -> usize
    requires { (In n.0 longest_side) × (In w.0 longest_side) }
    ensures { (result ≡ quotient n.0 w.0) × (result ≤ longest_side) }
{
    rounded_up(larger(n.0, w.0), smaller(n.0, w.0))
}

// Whether a box is turned to be laid, which is whether its first layer is horizontal: it has more tracks than columns.
pub fn is_turned(n: Column, w: Track) -> bool
    ensures { result ≡ ltb n.0 w.0 }
{
    n.0 < w.0
}

// How many points a layer has. (For our own crates.)
pub fn area(n: Column, w: Track) -> usize
    requires { (n.0 ≤ longest_side) × (w.0 ≤ widest_grid) }
    ensures { result ≡ n.0 * w.0 }
{
    n.0 * w.0
}

// How many points a grid has. (For our own crates.)
pub fn points(n: Column, w: Track, k: Layer) -> usize
    requires { (n.0 ≤ longest_side) × (w.0 ≤ widest_grid) × (k.0 ≤ most_layers) }
    ensures { result ≡ n.0 * w.0 * k.0 }
{
    let each = area(n, w);
    each * k.0
}

// Where the buffer holds the point (i, j, l). (For our own crates.)
pub fn index_of(i: Column, j: Track, l: Layer, n: Column, w: Track, k: Layer) -> usize
    requires n_le_longest_side { (n.0 ≤ longest_side) × (w.0 ≤ widest_grid) × (k.0 ≤ most_layers) }
    requires inside { Inside (upright n.0 w.0 k.0) (point i.0 j.0 l.0) }
    ensures { result ≡ index (upright n.0 w.0 k.0) i.0 j.0 l.0 }
{
    let before = (l.0 - 1) * w.0 + (j.0 - 1);
    before * n.0 + (i.0 - 1)
}

// Whether layer l is one of k layers.
pub fn is_layer(l: Layer, k: Layer) -> bool
    ensures { result ≡ within l.0 k.0 }
{
    is_within(l.0, k.0)
}

// Whether the three counts are those of a grid that the calls take.
pub fn is_grid(n: Column, w: Track, k: Layer) -> bool
    ensures { result ≡ (within n.0 longest_side && within w.0 widest_grid && within k.0 most_layers) }
{
    if !is_within(n.0, LONGEST_SIDE) {
        return false;
    }
    if !is_within(w.0, WIDEST_GRID) {
        return false;
    }
    is_within(k.0, MOST_LAYERS)
}
