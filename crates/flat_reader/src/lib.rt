// The reader of flat tickets. All functions here are for our own crates.
#![tactic(auto)]

ghost use Rattle.std.specs.Prelude.{◌≡◌, ◌+◌, ◌≤◌, length};
ghost use Rattle.terms.specs.Kinds.{north, south, west};
ghost use Rattle.ticket_sides.specs.Steps.{Header};
ghost use Rattle.ticket.specs.Read.{judged};
ghost use Rattle.ticket.specs.Steps.{Sited, reading_of};
ghost use Rattle.flat_reader.specs.Flat.{places_on, place_count, flat_header, flat_pins, flat_ticket_of};

use nets::Spans;
use problem::Pins;
use terms::by_kind;
use ticket::{Parsed, accepted, left_over, net_list, refused, tally};
use ticket_sides::{Cursor, fields, go_on, net_bytes, stop};

// How many places of its north side a flat ticket lists.
pub fn north_places(kind: u8, n: usize) -> usize
    ensures { result ≡ places_on kind n 0 north }
{
    by_kind(kind, 0, n, n, n, n)
}

// Of its south side.
pub fn south_places(kind: u8, n: usize) -> usize
    ensures { result ≡ places_on kind n 0 south }
{
    by_kind(kind, 0, 0, n, n, n)
}

// Of its west side, and of its east side.
pub fn end_places(kind: u8, byte2: usize) -> usize
    ensures { result ≡ places_on kind 0 byte2 west }
{
    by_kind(kind, 0, 0, 0, byte2, 0)
}

// The first four bytes.
fn flat_header(flat: &[u8]) -> Cursor
    ensures { result ≡ flat_header flat.now }
{
    let size = flat.len();
    if size < 4 {
        return stop(1, size);
    }
    fields(flat[0], flat[1], flat[2], go_on(3))
}

// The places of all sides.
fn place_count(flat: &[u8]) -> usize
    requires { Header flat.now }
    ensures { result ≡ place_count flat.now }
{
    let kind = flat[0];
    let n = flat[1] as usize;
    let ends = end_places(kind, flat[2] as usize);
    north_places(kind, n) + south_places(kind, n) + ends + ends
}

// The nets of all sides, once their bytes are known to be there.
fn flat_pins(flat: &[u8]) -> Pins
    requires { Header flat.now × (3 + place_count flat.now ≤ length flat.now) }
    ensures { result ≡ flat_pins flat.now }
{
    let kind = flat[0];
    let n = flat[1] as usize;
    let norths = north_places(kind, n);
    let souths = south_places(kind, n);
    let ends = end_places(kind, flat[2] as usize);
    let north = net_list(flat, 3, norths);
    let south = net_list(flat, 3 + norths, souths);
    let west = net_list(flat, 3 + norths + souths, ends);
    let east = net_list(flat, 3 + norths + souths + ends, ends);
    Pins {
        north,
        south,
        west,
        east,
    }
}

// The last test, once all bytes are read. It is the same as `judged` of crate ticket; one function for both was not inlined, and Read
// took a fifth longer.
fn flat_judged(flat: &[u8], pins: Pins) -> Parsed
    requires { Header flat.now × Sited flat.now pins }
    ensures { reading_of result ≡ judged flat.now pins }
{
    let n = flat[1] as usize;
    let w = by_kind(flat[0], 1, 1, 1, flat[2] as usize, 1);
    let spans = Spans::of(&pins, n, w);
    let tally = tally(&spans);
    let last = tally.last;
    if last.refusal.number != 0 {
        return refused(last);
    }
    accepted(flat, tally.nets, pins, spans)
}

// The whole reading.
pub fn parse_flat(flat: &[u8]) -> Parsed
    ensures { reading_of result ≡ flat_ticket_of flat.now }
{
    let head = flat_header(flat);
    if head.refusal.number != 0 {
        return refused(head);
    }
    let end = net_bytes(flat, 0, 3, place_count(flat));
    if end.refusal.number != 0 {
        return refused(end);
    }
    let whole = left_over(flat, end.at);
    if whole.refusal.number != 0 {
        return refused(whole);
    }
    flat_judged(flat, flat_pins(flat))
}
