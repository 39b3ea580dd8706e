// The ticket writer: the bytes of a problem into a lent buffer. (For our own crates.)
#![tactic(auto)]

ghost use Rattle.std.specs.Prelude.{◌≡◌, [], ◌∷◌, ◌++◌, ◌+◌, ◌*◌, ◌≤◌, ◌<◌};
ghost use Rattle.counting.specs.Counting.{bit};
ghost use Rattle.terms.specs.Limits.{longest_side};
ghost use Rattle.grid.specs.Legal.{entry};
ghost use Rattle.problem.specs.Problem.{width_of};
ghost use Rattle.ticket_sides.specs.Format.{map_bytes, values_from};
ghost use Rattle.ticket_bytes.specs.Bytes.{has_pins, map_byte, nets_to, side_bytes, bytes_of};
ghost use Rattle.output.specs.Writing.{Wrote};
ghost use Rattle.output.specs.Building.{most_output, Says, Adds};

use output::{Output, deliver};
use problem::{Pins, Problem};
use terms::{LONGEST_SIDE, Refusal, by_kind};

// Byte j of a side's position map: its lowest bit is place 8j + 1, and a place past the side's own has none.
fn map_byte(nets: &[u8; LONGEST_SIDE], j: usize, places: usize) -> u8
    requires { (places ≤ longest_side) × (8 * j ≤ places) }
    ensures { result ≡ map_byte (entry nets.now) places j }
{
    let end = places.min(8 * j + 8);
    let mut value: usize = 0;
    let mut power: usize = 1;
    for net in &nets[8 * j..end] {
        if *net != 0 {
            value += power;
        }
        power *= 2;
    }
    value as u8
}

fn has_pins(nets: &[u8; LONGEST_SIDE], places: usize) -> bool
    requires { places ≤ longest_side }
    ensures { result ≡ has_pins (entry nets.now) places }
{
    let mut found = false;
    for pin in &nets[..places] {
        found |= *pin != 0;
    }
    found
}

fn with_map(out: &mut Output, nets: &[u8; LONGEST_SIDE], places: usize)
    requires { (places ≤ longest_side) × (out.old.used + map_bytes places ≤ most_output) }
    ensures adds { Adds out.old (values_from (map_byte (entry nets.now) places) 0 (map_bytes places)) out.new }
    ensures size { out.new.used ≡ out.old.used + map_bytes places }
{
    for j in 0..places.div_ceil(8) {
        out.push(map_byte(nets, j, places));
    }
}

// The count stands in a variable of its own, since a store into the list may be one into the list's count, for all that the compiler knows.
fn with_nets(out: &mut Output, nets: &[u8; LONGEST_SIDE], places: usize)
    requires { (places ≤ longest_side) × (out.old.used + places ≤ most_output) }
    ensures adds { Adds out.old (nets_to (entry nets.now) places) out.new }
    ensures most { out.new.used ≤ out.old.used + places }
{
    let mut used = out.used;
    for net in &nets[..places] {
        if *net != 0 {
            out.bytes[used] = *net;
            used += 1;
        }
    }
    out.used = used;
}

// A side: nothing where it has no pin.
fn with_side(out: &mut Output, nets: &[u8; LONGEST_SIDE], places: usize)
    requires { (places ≤ longest_side) × (out.old.used + map_bytes places + places ≤ most_output) }
    ensures adds { Adds out.old (side_bytes (entry nets.now) places) out.new }
    ensures most { out.new.used ≤ out.old.used + map_bytes places + places }
{
    if has_pins(nets, places) {
        with_map(out, nets, places);
        with_nets(out, nets, places);
    }
}

// The side map: a bit for each side that has a pin.
fn side_map(pins: &Pins, n: usize, w: usize) -> u8
    requires { (n ≤ longest_side) × (w ≤ longest_side) }
    ensures { result ≡ bit (has_pins (entry pins.now.north) n) + 2 * bit (has_pins (entry pins.now.south) n)
        + 4 * bit (has_pins (entry pins.now.west) w) + 8 * bit (has_pins (entry pins.now.east) w) }
{
    let along = u8::from(has_pins(&pins.north, n)) + 2 * u8::from(has_pins(&pins.south, n));
    let ends = 4 * u8::from(has_pins(&pins.west, w)) + 8 * u8::from(has_pins(&pins.east, w));
    along + ends
}

// All sides.
fn with_sides(out: &mut Output, pins: &Pins, n: usize, w: usize)
    requires { (n ≤ longest_side) × (w ≤ longest_side) × (out.old.used ≡ 4) }
    ensures { Adds out.old (side_bytes (entry pins.now.north) n ++ side_bytes (entry pins.now.south) n
        ++ side_bytes (entry pins.now.west) w ++ side_bytes (entry pins.now.east) w) out.new }
{
    with_side(out, &pins.north, n);
    with_side(out, &pins.south, n);
    with_side(out, &pins.west, w);
    with_side(out, &pins.east, w);
}

// The whole ticket.
#[tactic(auto, unfolding(ticket_bytes::specs::Bytes::bytes_of, ticket_bytes::specs::Bytes::side_map))]
fn ticket_of(q: &Problem) -> Output
    requires { (q.now.n.0 ≤ longest_side) × (width_of q.now ≤ longest_side) }
    ensures { Says result (bytes_of q.now) }
{
    let n = grid::column_count(q.n);
    let w = by_kind(q.kind, 1, 1, 1, usize::from(q.byte2), 1);
    let mut out = Output::new();
    out.push(q.kind);
    out.push(n as u8);
    out.push(q.byte2);
    out.push(side_map(&q.pins, n, w));
    with_sides(&mut out, &q.pins, n, w);
    out
}

// Writes the ticket that states the problem, or says 19.
pub fn write_ticket(q: Problem, ticket: &mut [u8]) -> Result<usize, Refusal>
    requires { (q.n.0 ≤ longest_side) × (width_of q ≤ longest_side) }
    ensures { Wrote (bytes_of q) ticket.old ticket.new result }
{
    deliver(ticket_of(&q).as_slice(), ticket)
}
