// The figures of a problem: what its columns and tracks must pass, and what follows of tracks, layers and floor.
#![tactic(auto)]

pub mod along;

ghost use Rattle.std.specs.Prelude.{◌≡◌, ◌+◌, ◌*◌, ◌-◌, ◌≤◌, max};
ghost use Rattle.counting.specs.Counting.{In, most};
ghost use Rattle.terms.specs.Limits.{largest_net, longest_side, table_sum};
ghost use Rattle.terms.specs.Kinds.{layers_for};
ghost use Rattle.grid.specs.Legal.{nets};
ghost use Rattle.density.specs.Density.{tracks_for, floor};
ghost use Rattle.problem.specs.Problem.{Good};
ghost use Rattle.nets.specs.Tables.{SpansOf};
ghost use Rattle.figures.specs.Crossings.{at, nowhere, PerNet, stays_at, begin_of, end_of, comes_to, EndsCounted, EndsAt, goes_over};
ghost use Rattle.figures.specs.Crossings.{box_over, now_at, Crossed, UpFor};
ghost use Rattle.figures.specs.Figures.{figures_of};

use along::Along;
use grid::{Column, Layer, Track};
use nets::{Spans, high_of};
use problem::Problem;
use terms::{BOX, NET_ENTRIES, by_kind};

// Past every column: where a net that stays in one place begins and ends.
// Kept: measured. With an Option of both places the compiler treats one net at a time, and the two loops over the nets took eleven times
// as long.
const NOWHERE: u8 = 255;

#[derive(Clone, Copy)]
pub struct Figures {
    pub w: Track,
    pub across: usize,
    pub up: usize,
    pub layers: Layer,
    pub floor: Layer,
}

// The least and the greatest place of each net that does not stay at one column.
#[derive(Clone, Copy)]
struct Extents {
    from: [u8; NET_ENTRIES],
    to: [u8; NET_ENTRIES],
}

// How many nets begin on the near side and go on from there, how many begin there, and how many end on the far side.
#[derive(Clone, Copy)]
pub struct EndCounts {
    pub coming: u8,
    pub near: u8,
    pub far: u8,
}

// Whether a net's pins are all at one of the columns 1 to n, or it has none.
fn stays(first: u8, last: u8, near: u8, far: u8) -> bool
    ensures { result ≡ stays_at first last near far }
{
    (first == last) & (near.max(far) == 0)
}

// Where each net begins and ends, in one loop over the nets that has no branch.
fn extents_of(x: Along) -> Extents
    ensures begins { PerNet nowhere (λ m. begin_of (at x.entry.first.now m) (at x.entry.last.now m) (at x.entry.near.now m)
        (at x.entry.far.now m) (x.entry.places + 1)) largest_net result.from }
    ensures ends { PerNet nowhere (λ m. end_of (at x.entry.first.now m) (at x.entry.last.now m) (at x.entry.near.now m)
        (at x.entry.far.now m) (x.entry.places + 1)) largest_net result.to }
{
    let past = x.places as u8 + 1;
    let mut from = [NOWHERE; NET_ENTRIES];
    let mut to = [NOWHERE; NET_ENTRIES];
    for m in 1..NET_ENTRIES {
        let stays = stays(x.first[m], x.last[m], x.near[m], x.far[m]);
        let inner = if x.first[m] == 0 { past } else { x.first[m] };
        let low = if x.near[m] == 0 { inner } else { 0 };
        let high = high_of(x.last[m], x.far[m], past);
        from[m] = if stays { NOWHERE } else { low };
        to[m] = if stays { NOWHERE } else { high };
    }
    Extents { from, to }
}

// These three, in one loop over the nets.
fn end_counts(extents: &Extents, past: u8) -> EndCounts
    ensures { EndsCounted extents.now.from extents.now.to past largest_net result.coming result.near result.far }
{
    let mut coming: u8 = 0;
    let mut near: u8 = 0;
    let mut far: u8 = 0;
    for m in 1..NET_ENTRIES {
        coming += u8::from((extents.from[m] == 0) & (extents.to[m] != 0));
        near += u8::from(extents.from[m] == 0);
        far += u8::from(extents.to[m] == past);
    }
    EndCounts { coming, near, far }
}

// How many of the nets m and k begin, or end, at column c.
fn now_at(list: &[u8; NET_ENTRIES], m: usize, k: usize, c: usize) -> usize
    requires { (m ≤ largest_net) × (k ≤ largest_net) }
    ensures { result ≡ now_at list.now m k c }
{
    let other = (m != k) & (usize::from(list[k]) == c);
    usize::from(usize::from(list[m]) == c) + usize::from(other)
}

// The largest number of nets that go over a column: those that begin at one of its two pins come in, those that end there go.
fn peak(x: Along, extents: &Extents, coming: u8) -> usize
    requires ends { EndsAt x.side.now x.opposite.now x.places extents.now.from extents.now.to }
    requires coming_value { coming ≡ nets (comes_to extents.now.from extents.now.to) }
    ensures { result ≡ most (λ c. nets (goes_over extents.now.from extents.now.to c)) x.entry.places }
{
    let mut now = usize::from(coming);
    let mut best: usize = 0;
    for i in 0..x.places {
        let m = usize::from(x.side[i]);
        let k = usize::from(x.opposite[i]);
        now += now_at(&extents.from, m, k, i + 1);
        best = best.max(now);
        now -= now_at(&extents.to, m, k, i + 1);
    }
    best
}

// Of a box, the number of nets that the first or the last of the columns 1 to n must pass, whichever is larger. A net all of whose pins are
// on the near side begins and ends there, so that it is not among those that come; where n is 1 they are added, and a net counts once.
fn at_ends(x: Along, extents: &Extents, ends: EndCounts) -> usize
    requires ends_at { EndsAt x.side.now x.opposite.now x.places extents.now.from extents.now.to }
    requires ends_counted { EndsCounted extents.now.from extents.now.to (x.places + 1) largest_net ends.coming ends.near ends.far }
    ensures { result ≡ max (nets (box_over extents.now.from extents.now.to x.entry.places 1))
        (nets (box_over extents.now.from extents.now.to x.entry.places x.entry.places)) }
{
    let n = x.places;
    let last = n - 1;
    let begin = now_at(
        &extents.from,
        usize::from(x.side[0]),
        usize::from(x.opposite[0]),
        1,
    );
    let end = now_at(
        &extents.to,
        usize::from(x.side[last]),
        usize::from(x.opposite[last]),
        n,
    );
    let starts = usize::from(ends.near) + begin;
    let stops = usize::from(ends.far) + end;
    if n == 1 {
        return stops + usize::from(ends.near - ends.coming);
    }
    starts.max(stops)
}

// Across, where the two sides are north and south; of a box up, where they are west and east.
// Kept: two functions in place of `boxed` would be no plainer, since both would repeat the three steps before its test.
fn density(x: Along, boxed: bool) -> usize
    ensures { Crossed boxed x.entry.side.now x.entry.opposite.now x.entry.near.now x.entry.far.now x.entry.places result }
{
    let extents = extents_of(x);
    let ends = end_counts(&extents, x.places as u8 + 1);
    let most = peak(x, &extents, ends.coming);
    if boxed {
        return most.max(at_ends(x, &extents, ends));
    }
    most
}

// Up, of a box.
fn up_for(kind: u8, x: Along) -> usize
    ensures { UpFor kind x.entry.side.now x.entry.opposite.now x.entry.near.now x.entry.far.now x.entry.places result }
{
    if kind == BOX { density(x, true) } else { 0 }
}

// The layers that Lay uses.
fn layers_for(kind: u8, n: Column, byte2: usize) -> usize
    requires { (In n.0 longest_side) × (In byte2 longest_side) }
    ensures { result ≡ layers_for kind n.0 byte2 }
{
    let q = grid::quotient(n, Track(byte2));
    by_kind(kind, 0, 2 * byte2, 2 * byte2 + 1, 2 * q + 4, 2)
}

#[tactic(auto, unfolding(density::specs::Density::tracks_for, counting::specs::Counting::ceil))]
fn tracks_for(h: usize, a: usize) -> usize
    requires { (In h longest_side) × (a ≤ largest_net) }
    ensures { result ≡ tracks_for h a }
{
    a.div_ceil(h).max(1)
}

// (For our own crates.)
#[tactic(auto, unfolding(density::specs::Density::floor))]
pub fn floor_for(a: usize, b: usize) -> usize
    requires { (a ≤ table_sum) × (b ≤ table_sum) }
    ensures { result ≡ floor a b }
{
    // 0 where a or b is 0
    let odd_a = (2 * a).saturating_sub(1);
    let odd_b = (2 * b).saturating_sub(1);
    odd_a.max(odd_b).max(a + b).max(1)
}

// The figures of a good problem, by its table of spans. (For our own crates.)
pub fn figures_of(q: &Problem, spans: &Spans) -> Figures
    requires { Good q.now × SpansOf q.now spans.now }
    ensures { result ≡ figures_of q.now }
{
    let kind = q.kind;
    let byte2 = usize::from(q.byte2);
    let columns = Along::columns(q, spans);
    let tracks = Along::tracks(q, spans);
    let across = density(columns, kind == BOX);
    let up = up_for(kind, tracks);
    let trunks = tracks_for(byte2, across);
    let layers = layers_for(kind, q.n, byte2);
    let floor = floor_for(across.div_ceil(tracks.places), up.div_ceil(columns.places));
    Figures {
        w: Track(by_kind(kind, 0, trunks, trunks, byte2, 0)),
        across,
        up,
        layers: Layer(layers),
        floor: Layer(by_kind(kind, 0, 0, 0, floor, 0)),
    }
}
