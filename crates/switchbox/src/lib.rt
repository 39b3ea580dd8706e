// Boxes laid into the wiring buffer (Theorem 17): turned so that n ≥ w and mirrored until the nets on just north and east are the most
// numerous corner kind, lanes assigned, and drawn in full lines. What is turned and mirrored is read by the pin lookup: the ticket's four
// sides are lent on as they are, with the orientation.
#![tactic(auto)]

ghost use Rattle.std.specs.Prelude.{◌≡◌, false, cond, ◌+◌, ◌*◌, length, get_or};
ghost use Rattle.terms.specs.Kinds.{north, south, west, east};
ghost use Rattle.grid.specs.Legal.{entry, nets, pins_of};
ghost use Rattle.grid.specs.Laid.{Laid};
ghost use Rattle.nets.specs.Tables.{pin_count_to, NetTable};
ghost use Rattle.orientation.specs.Lookup.{own_list, on_lines};
ghost use Rattle.orientation.specs.Code.{side_named, orientation_of};
ghost use Rattle.switchbox_law.specs.Drawing.{Top};
ghost use Rattle.switchbox.specs.Box.{corner_at, Canonical};
ghost use Rattle.switchbox.specs.Wired.{box_grid, BoxPins};
ghost use Rattle.switchbox.specs.Layers.{StripedAs, Combed, CombAs, DrawnAs, LaidAs};
ghost use Rattle.switchbox.specs.Layers.{Lined, track_lines, Drawable, box_lines};

use grid::{Column, Track, column_count, is_turned, track_count};
use lanes::Counts;
use nets::Spans;
use orientation::{Orientation, Side, Sides, own_side};
use problem::Pins;
use terms::NET_ENTRIES;

// A box as it is laid: the ticket's pins, and the orientation that makes of them a box of n columns and w tracks.
#[derive(Clone, Copy)]
struct Moved<'a> {
    pins: Sides<&'a [u8]>,
    orientation: Orientation,
    n: usize,
    w: usize,
}

// How many nets are on just two sides that meet; a and b are the counts there, c and d those across. A sum of bytes, of which the
// compiler makes many at a time.
fn count_corner(
    a: &[u8; NET_ENTRIES],
    b: &[u8; NET_ENTRIES],
    c: &[u8; NET_ENTRIES],
    d: &[u8; NET_ENTRIES],
) -> u8
    ensures { result ≡ nets (corner_at a.now b.now c.now d.now) }
{
    let mut found = 0u8;
    for m in 1..NET_ENTRIES {
        found += u8::from(lanes::is_corner(a[m], b[m], c[m], d[m]));
    }
    found
}

// The mirror image in which the most numerous corner kind is at north and east; of several the first in this order.
fn best_mirror(ne: u8, nw: u8, se: u8, sw: u8) -> Orientation
    ensures { (result.turned ≡ false) × Top ne nw se sw (orientation_of result) }
{
    let tracks_reversed = ne.max(nw) < se.max(sw);
    Orientation {
        turned: false,
        columns_reversed: if tracks_reversed { se < sw } else { ne < nw },
        tracks_reversed,
    }
}

// The orientation in which a box is laid, by the counts of its sides. A turn exchanges the corners north-west and south-east: so the order
// among kinds that are equally numerous is that of the turned box.
fn best_orientation(counts: Counts, turned: bool) -> Orientation
    ensures { (result.turned ≡ turned) ×
        Top (nets (corner_at counts.entry.north.now counts.entry.east.now counts.entry.south.now counts.entry.west.now))
        (nets (corner_at counts.entry.north.now counts.entry.west.now counts.entry.south.now counts.entry.east.now))
        (nets (corner_at counts.entry.south.now counts.entry.east.now counts.entry.north.now counts.entry.west.now))
        (nets (corner_at counts.entry.south.now counts.entry.west.now counts.entry.north.now counts.entry.east.now))
        (orientation_of result) }
{
    let Sides {
        north,
        south,
        west,
        east,
    } = counts;
    let ne = count_corner(north, east, south, west);
    let nw = count_corner(north, west, south, east);
    let se = count_corner(south, east, north, west);
    let sw = count_corner(south, west, north, east);
    if turned {
        let m = best_mirror(ne, se, nw, sw);
        return Orientation {
            turned,
            columns_reversed: m.tracks_reversed,
            tracks_reversed: m.columns_reversed,
        };
    }
    best_mirror(ne, nw, se, sw)
}

// A layer, whose bytes the part is, with each line one value: as many lines as there are values, k points long. Lines are the buffer's
// tracks where `by_track`, else its columns. Inlined, like `paint_comb`: a box of one track or one column has 184 layers of one line or of
// single bytes, and two calls for each pair of them took as long as the layers.
#[inline]
fn paint_lines(part: &mut [u8], values: &[u8], k: usize, by_track: bool)
    requires { length part.old ≡ length values.now * k }
    ensures { StripedAs by_track part.old part.new (length values.now) k
        (λ i j. get_or values.now i 0) }
{
    if by_track {
        paint::tracks(part, values, k);
        return;
    }
    paint::columns(part, values, k);
}

// The comb of a side of the moved box: each line, k points long, holds the pin at its end.
#[inline]
fn paint_comb(part: &mut [u8], moved: Moved, side: Side, k: usize, by_track: bool)
    requires { Combed (own_list (orientation_of moved.orientation) moved.pins.north.now moved.pins.south.now moved.pins.west.now
        moved.pins.east.now (side_named side)) k part.old }
    ensures { CombAs by_track (orientation_of moved.entry.orientation) moved.entry.pins.north.now moved.entry.pins.south.now
        moved.entry.pins.west.now moved.entry.pins.east.now (side_named side) k part.old part.new }
{
    let own = own_side(moved.orientation, side);
    let pins = moved.pins.on(own.side);
    if by_track {
        combs::track_comb(part, pins, own.reversed, k);
        return;
    }
    combs::column_comb(part, pins, own.reversed, k);
}

fn north_or_south(upper: bool) -> Side
    ensures { side_named result ≡ cond upper north south }
{
    if upper { Side::North } else { Side::South }
}

// Layers 1 to 2q: the q track layers, each above a comb.
fn track_layers(moved: Moved, q: usize, tracks: &[u8], wiring: &mut [u8])
    requires { Lined (orientation_of moved.orientation) moved.pins.north.now moved.pins.south.now moved.pins.west.now moved.pins.east.now
        moved.n moved.w tracks.now q wiring.old }
    ensures { DrawnAs moved.entry.orientation.turned moved.entry.n moved.entry.w wiring.old wiring.new (2 * q)
        (track_lines moved.entry.w q (on_lines (orientation_of moved.entry.orientation)
        (pins_of moved.entry.pins.north.now moved.entry.pins.south.now moved.entry.pins.west.now moved.entry.pins.east.now)) tracks.now) }
{
    let n = moved.n;
    let w = moved.w;
    let turned = moved.orientation.turned;
    let size = n * w;
    for t in 0..q {
        let from = 2 * t * size;
        let middle = from + size;
        let side = north_or_south((t + q) % 2 == 0);
        paint_comb(&mut wiring[from..middle], moved, side, w, turned);
        let to = middle + size;
        let start = t * w;
        paint_lines(
            &mut wiring[middle..to],
            &tracks[start..start + w],
            n,
            !turned,
        );
    }
}

// The whole box, 2q + 4 layers: above the track layers the last north comb, the east comb, the column layer and the west comb,
// each in the part of the wiring that starts at the byte of its name.
fn draw(moved: Moved, q: usize, tracks: &[u8], columns: &[u8], wiring: &mut [u8])
    requires { Drawable (orientation_of moved.orientation) moved.pins.north.now moved.pins.south.now moved.pins.west.now
        moved.pins.east.now moved.n moved.w tracks.now columns.now q wiring.old }
    ensures { DrawnAs moved.entry.orientation.turned moved.entry.n moved.entry.w wiring.old wiring.new (2 * q + 4)
        (box_lines moved.entry.w q (on_lines (orientation_of moved.entry.orientation)
        (pins_of moved.entry.pins.north.now moved.entry.pins.south.now moved.entry.pins.west.now moved.entry.pins.east.now)) tracks.now
        columns.now) }
{
    let n = moved.n;
    let w = moved.w;
    let turned = moved.orientation.turned;
    let size = n * w;
    let north_comb = 2 * q * size;
    let east_comb = north_comb + size;
    let column_layer = east_comb + size;
    let west_comb = column_layer + size;
    track_layers(moved, q, tracks, wiring);
    paint_comb(
        &mut wiring[north_comb..east_comb],
        moved,
        Side::North,
        w,
        turned,
    );
    paint_comb(
        &mut wiring[east_comb..column_layer],
        moved,
        Side::East,
        n,
        !turned,
    );
    paint_lines(&mut wiring[column_layer..west_comb], columns, w, turned);
    paint_comb(
        &mut wiring[west_comb..west_comb + size],
        moved,
        Side::West,
        n,
        !turned,
    );
}

// The counts of the moved box's sides.
fn moved_counts(counts: Counts, o: Orientation) -> Counts
    ensures north { result.north.now ≡ own_list (orientation_of o) counts.entry.north.now counts.entry.south.now
        counts.entry.west.now counts.entry.east.now north }
    ensures south { result.south.now ≡ own_list (orientation_of o) counts.entry.north.now counts.entry.south.now
        counts.entry.west.now counts.entry.east.now south }
    ensures west { result.west.now ≡ own_list (orientation_of o) counts.entry.north.now counts.entry.south.now
        counts.entry.west.now counts.entry.east.now west }
    ensures east { result.east.now ≡ own_list (orientation_of o) counts.entry.north.now counts.entry.south.now
        counts.entry.west.now counts.entry.east.now east }
{
    Sides {
        north: counts.on(own_side(o, Side::North).side),
        south: counts.on(own_side(o, Side::South).side),
        west: counts.on(own_side(o, Side::West).side),
        east: counts.on(own_side(o, Side::East).side),
    }
}

// A box that the orientation makes one with n ≥ w, in which the nets on just north and east are the most numerous corner kind. Its columns
// are the tracks of the box that stands on its side.
fn lay_moved(moved: Moved, counts: Counts, wiring: &mut [u8])
    requires { Canonical (orientation_of moved.orientation) moved.pins.north.now moved.pins.south.now moved.pins.west.now
        moved.pins.east.now counts.north.now counts.south.now counts.west.now counts.east.now moved.n moved.w wiring.old }
    ensures { LaidAs (orientation_of moved.entry.orientation) moved.entry.n moved.entry.w
        (pins_of moved.entry.pins.north.now moved.entry.pins.south.now moved.entry.pins.west.now moved.entry.pins.east.now)
        wiring.old wiring.new }
{
    let n = moved.n;
    let q = n.div_ceil(moved.w);
    let top = q * moved.w;
    let upright = moved_counts(counts, moved.orientation);
    let aside = Sides {
        north: upright.east,
        south: upright.west,
        west: upright.south,
        east: upright.north,
    };
    let west = own_side(moved.orientation, Side::West);
    let south = own_side(moved.orientation, Side::South);
    let west_pins = moved.pins.on(west.side);
    let south_pins = moved.pins.on(south.side);
    let tracks = lanes::lanes(upright, west_pins, west.reversed, top, true);
    let columns = lanes::lanes(aside, south_pins, south.reversed, n, false);
    draw(moved, q, &tracks[..top], &columns[..n], wiring);
}

// Lays a box of n columns and w tracks into the wiring, by its pins and their counts, net by net. Where n < w it is turned. (For our own
// crates.)
pub fn lay_box(pins: &Pins, spans: &Spans, n: Column, w: Track, wiring: &mut [u8])
    requires { BoxPins pins.now.north pins.now.south pins.now.west pins.now.east n.0 w.0 wiring.old ×
        NetTable (pin_count_to (entry pins.now.north) n.0) spans.now.columns.one ×
        NetTable (pin_count_to (entry pins.now.south) n.0) spans.now.columns.two ×
        NetTable (pin_count_to (entry pins.now.west) w.0) spans.now.tracks.one ×
        NetTable (pin_count_to (entry pins.now.east) w.0) spans.now.tracks.two }
    ensures { Laid (box_grid n.0 w.0)
        (pins_of pins.now.north pins.now.south pins.now.west pins.now.east)
        wiring.old wiring.new }
{
    let long = column_count(n);
    let wide = track_count(w);
    let counts = Sides {
        north: &spans.columns.one,
        south: &spans.columns.two,
        west: &spans.tracks.one,
        east: &spans.tracks.two,
    };
    let moved = Moved {
        pins: Sides {
            north: &pins.north[..long],
            south: &pins.south[..long],
            west: &pins.west[..wide],
            east: &pins.east[..wide],
        },
        orientation: best_orientation(counts, is_turned(n, w)),
        n: long.max(wide),
        w: long.min(wide),
    };
    lay_moved(moved, counts, wiring);
}
