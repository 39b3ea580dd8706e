// The edge floor: a lower bound on the layers of a box that is sharper than Survey's floor. Public call: edge_floor.
#![tactic(auto)]

ghost use Rattle.std.specs.Prelude.{◌≡◌, ◌+◌, ◌≤◌, ◌<◌};
ghost use Rattle.counting.specs.Counting.{sum, count};
ghost use Rattle.terms.specs.Limits.{largest_net, longest_side, byte_values, table_sum};
ghost use Rattle.terms.specs.Kinds.{box};
ghost use Rattle.grid.specs.Legal.{entry};
ghost use Rattle.problem.specs.Problem.{Good};
ghost use Rattle.nets.specs.Tables.{NetTable, Numbered, SpansOf, holds_at};
ghost use Rattle.figures.specs.Crossings.{at};
ghost use Rattle.edge_floor.specs.Needs.{over, need_from, EndsOf, MostNeed};
ghost use Rattle.edge_floor.specs.Floors.{answered, refused, TellsFloors};

use figures::along::Along;
use figures::{figures_of, floor_for};
use grid::Layer;
use nets::{Spans, high_of, low_of, net_at};
use problem::Problem;
use terms::{BOX, LONGEST_SIDE, NET_ENTRIES, Refusal, refuse};

#[derive(Clone, Copy)]
pub struct EdgeFloorAnswer {
    pub refusal: Refusal,
    pub floor: Layer,
    pub edge: Layer,
}

// At how many places one of two sides across from each other holds each net; a place where both do counts once. An empty place is
// entered at 0, which is cleared at the end.
fn held_counts(a: &[u8; LONGEST_SIDE], b: &[u8; LONGEST_SIDE], places: usize) -> [u8; NET_ENTRIES]
    requires { (places ≤ longest_side) × Numbered a.now × Numbered b.now }
    ensures { NetTable (λ m. count (holds_at (entry a.now) (entry b.now) m) places) result }
{
    let mut held = [0u8; NET_ENTRIES];
    for i in 0..places {
        let m = net_at(a, i);
        let k = net_at(b, i);
        held[m] += 1;
        held[k] += u8::from(m != k);
    }
    held[0] = 0;
    held
}

// Whether a net whose least and greatest place are low and high must pass column c.
fn is_over(low: u8, high: u8, c: u8) -> bool
    ensures { result ≡ over low high c }
{
    (low <= c) & (c <= high) & (low < high)
}

// What column c, the first or the last, needs: its nets' pins beside it, and 1 for each net that it must pass and that has no pin there.
// Two sums of bytes, so that many nets are treated at once.
fn need_at(x: Along, beside: &[u8; NET_ENTRIES], c: u8) -> usize
    requires { sum (at beside.now) largest_net < byte_values }
    ensures value { result ≡ sum (need_from x.entry.first.now x.entry.last.now x.entry.near.now x.entry.far.now
        beside.now (x.entry.places + 1) c) largest_net }
    ensures upper_bound { result ≤ table_sum }
{
    let past = x.places as u8 + 1;
    let mut pins: u8 = 0;
    let mut others: u8 = 0;
    for m in 1..NET_ENTRIES {
        let low = low_of(x.first[m], x.near[m], x.far[m], past);
        let high = high_of(x.last[m], x.far[m], past);
        pins += beside[m];
        others += u8::from((beside[m] == 0) & is_over(low, high, c));
    }
    usize::from(pins) + usize::from(others)
}

// The most that a column needs, where near and far are the sides of w places beside the first and the last. Between these two it is what
// they must pass, so that across tells it. Where there is one column, both sides are beside it.
fn most_need(
    x: Along,
    near: &[u8; LONGEST_SIDE],
    far: &[u8; LONGEST_SIDE],
    w: usize,
    across: usize,
) -> usize
    requires { EndsOf near.now far.now x.near.now x.far.now x.places w × (across ≤ table_sum) }
    ensures { MostNeed near.now far.now x.entry.first.now x.entry.last.now x.entry.near.now x.entry.far.now x.entry.places w across result }
{
    if x.places == 1 {
        let beside = held_counts(near, far, w);
        return across.max(need_at(x, &beside, 1));
    }
    let begin = need_at(x, x.near, 1);
    let end = need_at(x, x.far, x.places as u8);
    across.max(begin.max(end))
}

// Both floors of a good box, by its table of spans.
fn box_floors(q: &Problem, spans: &Spans) -> EdgeFloorAnswer
    requires { Good q.now × (q.now.kind ≡ box) × SpansOf q.now spans.now }
    ensures { result ≡ answered q.now }
{
    let f = figures_of(q, spans);
    let columns = Along::columns(q, spans);
    let tracks = Along::tracks(q, spans);
    let n = columns.places;
    let w = tracks.places;
    let column_need = most_need(columns, &q.pins.west, &q.pins.east, w, f.across);
    let track_need = most_need(tracks, &q.pins.south, &q.pins.north, n, f.up);
    let edge = floor_for(column_need.div_ceil(w), track_need.div_ceil(n));
    EdgeFloorAnswer {
        refusal: Refusal {
            number: 0,
            place: 0,
        },
        floor: f.floor,
        edge: Layer(edge),
    }
}

fn refused(refusal: Refusal) -> EdgeFloorAnswer
    ensures { result ≡ refused refusal }
{
    EdgeFloorAnswer {
        refusal,
        floor: Layer(0),
        edge: Layer(0),
    }
}

// Public call: the two floors of a ticket, 0 and 0 for kinds that are no box.
pub fn edge_floor(ticket: &[u8]) -> EdgeFloorAnswer
    ensures { TellsFloors ticket.now result }
{
    let t = ticket::parse_spans(ticket);
    if t.refusal.number != 0 {
        return refused(t.refusal);
    }
    let kind = t.problem.kind;
    if kind != BOX {
        return refused(refuse(0, 0));
    }
    box_floors(&t.problem, &t.spans)
}
