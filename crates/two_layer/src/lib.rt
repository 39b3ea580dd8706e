// Two-layer channels laid into the wiring buffer: one track for each operation. All functions here are for our own crates.
#![tactic(auto)]

ghost use Rattle.std.specs.Prelude.{◌≡◌, suc, ◌*◌, ◌≤◌, length};
ghost use Rattle.counting.specs.Counting.{In};
ghost use Rattle.terms.specs.Limits.{longest_side, widest_grid};
ghost use Rattle.grid.specs.Grid.{upright};
ghost use Rattle.grid.specs.Legal.{entry, column_pins};
ghost use Rattle.grid.specs.Laid.{Laid};
ghost use Rattle.paint.specs.Paint.{Striped};
ghost use Rattle.two_layer_law.specs.Cuts.{cut_with, cut_of, op_tracks};
ghost use Rattle.two_layer_cuts.specs.Rows.{operations_in, ops_of, item, Row};
ghost use Rattle.two_layer_law.specs.Moves.{width_for};
ghost use Rattle.two_layer.specs.Given.{moves_in, from_north, from_south, Layable};
ghost use Rattle.two_layer.specs.Drawing.{trunk, OpsFit, track_from, OwnTracks, TrackDrawn, ListDrawn, ChannelDrawn};

use grid::{Column, Layer, Track, column_count, index_of, track_count};
use problem::Pins;
use two_layer_cuts::{COLUMN_ENTRIES, Operation, Operations, cut_after, cut_of};
use two_layer_plan::Plan;

// The bytes of a track on layer 1: the row's entries from column 1 on.
fn draw_row(part: &mut [u8], cut_with: &[u8; COLUMN_ENTRIES])
    requires { length part.old ≤ longest_side }
    ensures { Striped part.old part.new (length part.old) 1
        (λ i j. item cut_with.now (suc i)) }
{
    let columns = part.len();
    part.copy_from_slice(&cut_with[1..columns + 1]);
}

// The bytes of a track on layer 2: net x from column low to column high, and nothing else.
fn draw_trunk(part: &mut [u8], x: u8, low: u8, high: u8)
    requires { (1 ≤ low) × (high ≤ length part.old) }
    ensures { Striped part.old part.new (length part.old) 1 (λ i j. trunk x low high (suc i)) }
{
    part.fill(0);
    let from = usize::from(low) - 1;
    let to = usize::from(high);
    if from < to {
        part[from..to].fill(x);
    }
}

// Track j: the cut with the operation's net in its column, and the net's trunk.
fn draw_track(
    mut cut: [u8; COLUMN_ENTRIES],
    operation: Operation,
    j: Track,
    n: Column,
    w: Track,
    wiring: &mut [u8],
)
    requires fact { In n.0 longest_side × (w.0 ≤ widest_grid) × In j.0 w.0 × (n.0 * w.0 * 2 ≤ length wiring.old) }
    requires columns { (operation.to ≤ n.0) × (1 ≤ operation.low) × (operation.high ≤ n.0) }
    ensures { TrackDrawn (upright n.0 w.0 2) j.0 (cut_with operation.net operation.to (item cut))
        (trunk operation.net operation.low operation.high) wiring.old wiring.new }
{
    cut[usize::from(operation.to)] = operation.net;
    let columns = column_count(n);
    let one = index_of(Column(1), j, Layer(1), n, w, Layer(2));
    draw_row(&mut wiring[one..one + columns], &cut);
    let two = index_of(Column(1), j, Layer(2), n, w, Layer(2));
    draw_trunk(
        &mut wiring[two..two + columns],
        operation.net,
        operation.low,
        operation.high,
    );
}

// Operation s's track: that of operation 0 is `first`.
// Kept: a flag and no closure. A closure is no plainer: that each operation has a track of its own in the grid would be asked of it through
// what each of its calls may return, and promised of any function that agrees with it.
fn track_from(from_north: bool, first: usize, s: usize) -> usize
    requires { In (track_from from_north first s) widest_grid }
    ensures { result ≡ track_from from_north first s }
{
    if from_north { first - s } else { first + s }
}

// The operations of one list, a track for each, down or up from the first one's; the cut that they lead to.
fn draw_list(
    mut cut: [u8; COLUMN_ENTRIES],
    operations: &[Operation],
    from_north: bool,
    first: usize,
    n: Column,
    w: Track,
    wiring: &mut [u8],
) -> [u8; COLUMN_ENTRIES]
    requires fact { In n.0 longest_side × (w.0 ≤ widest_grid) × (n.0 * w.0 * 2 ≤ length wiring.old) }
    requires ops_fit { OpsFit n.0 (ops_of operations.now) × OwnTracks w.0 (length operations.now) (track_from from_north first) }
    ensures drawn { ListDrawn (upright n.0 w.0 2) (ops_of operations.now) (item cut) (track_from from_north first)
        (length operations.now) wiring.old wiring.new }
    ensures led { Row longest_side (cut_of (ops_of operations.now) (item cut) (length operations.now)) result }
{
    for (s, operation) in operations.iter().enumerate() {
        let j = track_from(from_north, first, s);
        draw_track(cut, *operation, Track(j), n, w, wiring);
        cut = cut_after(&cut, operation.net, operation.to);
    }
    cut
}

// The moves, of which a solid channel has none.
fn moves_in(moves: &Option<Operations>) -> &[Operation]
    ensures { result.now ≡ moves_in moves.now }
{
    match moves {
        Some(moves) => moves.as_slice(),
        None => &[],
    }
}

// The channel's operations, one track each: those of the north pins and the moves from the top down, those of the south pins from track 1
// up. Track 1 first holds the north pins, which is all of a channel without an operation.
fn draw(pins: &Pins, n: Column, w: Track, plan: &Plan, wiring: &mut [u8])
    requires fact { In n.0 longest_side × (w.0 ≤ widest_grid) × (n.0 * w.0 * 2 ≤ length wiring.old) }
    requires w_value { w.0 ≡ op_tracks (from_north plan.now) (from_south plan.now) }
    requires ops_fit { OpsFit n.0 (ops_of (operations_in plan.now.norths)) × OpsFit n.0 (ops_of (moves_in plan.now.moves)) ×
        OpsFit n.0 (ops_of (operations_in plan.now.souths)) }
    ensures { ChannelDrawn pins.now.north pins.now.south n.0 w.0 (from_north plan.now) (from_south plan.now) wiring.old
        wiring.new }
{
    let top = track_count(w);
    let start = cut_of(&pins.north);
    let idle = Operation {
        net: 0,
        to: 0,
        low: 1,
        high: 0,
    };
    draw_track(start, idle, Track(1), n, w, wiring);
    let norths = plan.norths.as_slice();
    let moves = moves_in(&plan.moves);
    let gathered = draw_list(start, norths, true, top, n, w, wiring);
    draw_list(gathered, moves, true, top - norths.len(), n, w, wiring);
    let end = cut_of(&pins.south);
    draw_list(end, plan.souths.as_slice(), false, 1, n, w, wiring);
}

// The tracks that a channel's operations take.
pub fn tracks(plan: &Plan) -> Track
    ensures { result.0 ≡ op_tracks (from_north plan.now) (from_south plan.now) }
{
    let moves = plan.moves.as_ref().map_or(0, |moves| moves.len());
    Track((plan.norths.len() + moves + plan.souths.len()).max(1))
}

// Lays a channel that is not solid, by the operations that were found for it.
pub fn lay(pins: &Pins, n: Column, tracks: Track, plan: &Plan, wiring: &mut [u8])
    requires layable { Layable pins.now.north pins.now.south n.0 plan.now }
    requires w_value { (tracks.0 ≡ width_for (entry pins.now.north) (entry pins.now.south) n.0) ×
        (n.0 * tracks.0 * 2 ≤ length wiring.old) }
    ensures { Laid (upright n.0 tracks.0 2) (column_pins pins.now.north pins.now.south) wiring.old
        wiring.new }
{
    draw(pins, n, tracks, plan, wiring);
}
