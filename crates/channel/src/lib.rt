// Rows and channels laid into the wiring buffer: combs on the vertical layers, trunks on the horizontal ones.
// All functions here are for our own crates.
#![tactic(auto)]

ghost use Rattle.std.specs.Prelude.{◌≡◌, ℕ, suc, ◌+◌, ◌*◌, ◌-◌, ◌/◌, ◌%◌, ◌≤◌, length, get_or, take};
ghost use Rattle.grid.specs.Grid.{upright, point, Inside};
ghost use Rattle.terms.specs.Limits.{largest_net, longest_side, most_layers};
ghost use Rattle.grid.specs.Legal.{index, wiring_of, column_pins};
ghost use Rattle.paint.specs.Paint.{Striped, Painted, Drawn};
ghost use Rattle.grid.specs.Laid.{Laid};
ghost use Rattle.trunks.specs.Trunks.{trunks_of, SpanColumns};
ghost use Rattle.channel_law.specs.Drawing.{Trunks as TrunksIn};
ghost use Rattle.channel.specs.Given.{Given};
ghost use Rattle.channel.specs.Laying.{plan_of, base, Seated, Crossed, Combed};

use grid::{Column, Frame, Layer, Track, column_count, layer_count, track_count};
use nets::Spans;
use problem::Pins;
use terms::NET_ENTRIES;

// Layer l, counted from 0, whose bytes the part is: a comb of the pins a or b, or a trunk layer, which is empty as yet.
fn lay_layer(part: &mut [u8], l: usize, a: &[u8], b: &[u8], w: usize)
    requires { (length a.now ≡ length b.now) × (length part.old ≡ length a.now * w) }
    ensures { Striped part.old part.new (length a.now) w (λ i j. base a.now b.now (suc i) (suc j) (suc l)) }
{
    match l % 4 {
        0 => paint::columns(part, a, w),
        2 => paint::columns(part, b, w),
        _ => paint::fill(part, 0),
    }
}

// All layers, one after the other: combs of the pins a on layers 1, 5, 9 and so on, and of the pins b on layers 3, 7, 11 and so on.
// Kept: tried with `chunks_exact_mut`; once its parts are back, a proof knows the wiring's length and not its bytes.
fn lay_layers(wiring: &mut [u8], a: &[u8], b: &[u8], frame: Frame)
    requires { (frame.n.0 ≤ longest_side) × (frame.w.0 ≤ longest_side) × (frame.n.0 ≤ length a.now) × (frame.n.0 ≤ length b.now)
        × (frame.n.0 * frame.w.0 * frame.k.0 ≤ length wiring.old) }
    ensures { Drawn frame.n.0 frame.w.0 wiring.old wiring.new frame.k.0 (base (take frame.n.0 a.now) (take frame.n.0 b.now)) }
{
    let size = grid::area(frame.n, frame.w);
    let columns = column_count(frame.n);
    let one = &a[..columns];
    let three = &b[..columns];
    let tracks = track_count(frame.w);
    let mut from = 0;
    for l in 0..layer_count(frame.k) {
        let to = from + size;
        lay_layer(&mut wiring[from..to], l, one, three, tracks);
        from = to;
    }
}

// A net's trunk: from one column to another, at a trunk place.
#[derive(Clone, Copy)]
struct Trunk {
    net: u8,
    left: Column,
    right: Column,
    place: usize,
}

// The trunk on track j, in the part of the wiring that is its layer.
fn paint_trunk(part: &mut [u8], trunk: Trunk, j: Track, n: Column, w: Track)
    requires n_le_longest_side { (n.0 ≤ longest_side) × (w.0 ≤ longest_side) × (length part.old ≡ n.0 * w.0) }
    requires left_le_right { (trunk.left.0 ≤ trunk.right.0) × (trunk.right.0 ≤ n.0)
        × Inside (upright n.0 w.0 1) (point trunk.left.0 j.0 1) }
    ensures { Painted part.old part.new (index (upright n.0 w.0 1) trunk.left.0 j.0 1)
        (trunk.right.0 - trunk.left.0 + 1) 1 (λ i j. trunk.net) }
{
    let at = grid::index_of(trunk.left, j, Layer(1), n, w, Layer(1));
    let to = at + (column_count(trunk.right) - column_count(trunk.left) + 1);
    paint::fill(&mut part[at..to], trunk.net);
}

// The trunk on its place's track and layer.
fn lay_trunk(wiring: &mut [u8], trunk: Trunk, frame: Frame)
    requires n_le_longest_side { (frame.n.0 ≤ longest_side) × (frame.w.0 ≤ longest_side) × (frame.k.0 ≤ most_layers)
        × (frame.n.0 * frame.w.0 * frame.k.0 ≤ length wiring.old) }
    requires left_le_right { (trunk.left.0 ≤ trunk.right.0) × (trunk.right.0 ≤ frame.n.0)
        × Inside (upright frame.n.0 frame.w.0 frame.k.0)
        (point trunk.left.0 (trunk.place % frame.w.0 + 1) (2 * (trunk.place / frame.w.0) + 2)) }
    ensures { Painted wiring.old wiring.new
        (index (upright frame.n.0 frame.w.0 frame.k.0) trunk.left.0 (trunk.place % frame.w.0 + 1) (2 * (trunk.place / frame.w.0) + 2))
        (trunk.right.0 - trunk.left.0 + 1) 1 (λ i j. trunk.net) }
{
    let tracks = track_count(frame.w);
    let track = Track(trunk.place % tracks + 1);
    let layer = Layer(2 * (trunk.place / tracks) + 2);
    let from = grid::index_of(Column(1), Track(1), layer, frame.n, frame.w, frame.k);
    let to = from + grid::area(frame.n, frame.w);
    paint_trunk(&mut wiring[from..to], trunk, track, frame.n, frame.w);
}

// The trunks of all nets, one after the other.
fn lay_trunks(wiring: &mut [u8], spans: &Spans, places: &[u8; NET_ENTRIES], frame: Frame)
    requires n_le_longest_side { (frame.n.0 ≤ longest_side) × (frame.w.0 ≤ longest_side) × (frame.k.0 ≤ most_layers)
        × (frame.n.0 * frame.w.0 * frame.k.0 ≤ length wiring.old) }
    requires seated { Seated (plan_of (trunks_of spans.now.columns.first spans.now.columns.last places.now) frame.w.0)
        (upright frame.n.0 frame.w.0 frame.k.0)
        × TrunksIn (plan_of (trunks_of spans.now.columns.first spans.now.columns.last places.now) frame.w.0)
        (upright frame.n.0 frame.w.0 frame.k.0) (wiring_of (upright frame.n.0 frame.w.0 frame.k.0) wiring.old) 0 }
    ensures { Crossed (plan_of (trunks_of spans.now.columns.first spans.now.columns.last places.now) frame.w.0)
        (upright frame.n.0 frame.w.0 frame.k.0) wiring.old wiring.new largest_net }
{
    for m in 1..NET_ENTRIES {
        let left = usize::from(spans.columns.first[m]);
        let right = usize::from(spans.columns.last[m]);
        if left < right {
            let trunk = Trunk {
                net: m as u8,
                left: Column(left),
                right: Column(right),
                place: usize::from(places[m]),
            };
            lay_trunk(wiring, trunk, frame);
        }
    }
}

// Combs of the north pins and of the pins b in turn, and the nets' trunks. Every second layer is for trunks.
fn lay(pins: &Pins, spans: &Spans, b: &[u8], frame: Frame, wiring: &mut [u8])
    requires given { Given pins.now.north pins.now.south frame.n.0 frame.w.0 (frame.k.0 / 2) frame.k.0 wiring.old }
    requires combs { (frame.k.0 ≤ most_layers) × (frame.n.0 ≤ length b.now) }
    requires spanned { SpanColumns pins.now.north pins.now.south frame.n.0 spans.now.columns.first spans.now.columns.last
        spans.now.tracks.one spans.now.tracks.two }
    ensures { Combed pins.now.north pins.now.south b.now frame.n.0 frame.w.0 frame.k.0 wiring.old wiring.new }
{
    let places = trunks::place_trunks(pins, spans, frame.n);
    lay_layers(wiring, &pins.north, b, frame);
    lay_trunks(wiring, spans, &places, frame);
}

// A row's 2h layers: the north pins on each comb. The south side has no pins.
pub fn lay_row(pins: &Pins, spans: &Spans, n: Column, w: Track, h: usize, wiring: &mut [u8])
    requires { Given pins.now.north pins.now.south n.0 w.0 h (2 * h) wiring.old × ((a : ℕ) → get_or pins.now.south a 0 ≡ 0)
        × SpanColumns pins.now.north pins.now.south n.0 spans.now.columns.first spans.now.columns.last
        spans.now.tracks.one spans.now.tracks.two }
    ensures { Laid (upright n.0 w.0 (2 * h)) (column_pins pins.now.north pins.now.south) wiring.old wiring.new }
{
    let k = Layer(2 * h);
    let frame = Frame {
        n,
        w,
        k,
        first: false,
    };
    lay(pins, spans, &pins.north, frame, wiring);
}

// A channel's 2h + 1 layers: north and south pins on the combs in turn.
pub fn lay_channel(pins: &Pins, spans: &Spans, n: Column, w: Track, h: usize, wiring: &mut [u8])
    requires { Given pins.now.north pins.now.south n.0 w.0 h (2 * h + 1) wiring.old
        × SpanColumns pins.now.north pins.now.south n.0 spans.now.columns.first spans.now.columns.last
        spans.now.tracks.one spans.now.tracks.two }
    ensures { Laid (upright n.0 w.0 (2 * h + 1)) (column_pins pins.now.north pins.now.south) wiring.old wiring.new }
{
    let k = Layer(2 * h + 1);
    let frame = Frame {
        n,
        w,
        k,
        first: false,
    };
    lay(pins, spans, &pins.south, frame, wiring);
}
