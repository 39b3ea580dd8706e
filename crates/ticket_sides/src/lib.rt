// The bytes of a ticket, header and sides: where each side ends, or why they are refused.
#![tactic(auto)]

ghost use Rattle.std.specs.Prelude.{◌≡◌, ◌+◌, ◌*◌, ◌^◌, ◌≤◌, ◌<◌, length, leb, true};
ghost use Rattle.terms.specs.Limits.{longest_side};
ghost use Rattle.terms.specs.Refusals.{unless};
ghost use Rattle.ticket_sides.specs.Format.{is_on, standing_bits, map_bytes};
ghost use Rattle.ticket_sides.specs.Stages.{stop, go_on, fields_of, header_of, is_net, nets_of, side_of, after, ends_of};
ghost use Rattle.ticket_sides.specs.Steps.{map_count, Header};

use terms::{
    LARGEST_NET, LONGEST_SIDE, Refusal, both, is_kind, is_within, largest_byte2, largest_side_map,
    wide,
};

// Where reading stands: nothing refused and the next byte to read, or a refusal.
#[derive(Clone, Copy)]
pub struct Cursor {
    pub refusal: Refusal,
    pub at: usize,
}

// Where reading stands after each side.
#[derive(Clone, Copy)]
pub struct Ends {
    pub north: Cursor,
    pub south: Cursor,
    pub west: Cursor,
    pub east: Cursor,
}

// Nothing is refused yet; byte `at` is read next. (For our own crates.)
pub fn go_on(at: usize) -> Cursor
    ensures { result ≡ go_on at }
{
    Cursor {
        refusal: Refusal {
            number: 0,
            place: 0,
        },
        at,
    }
}

// A refusal: reading ends. (For our own crates.)
pub fn stop(number: u8, place: usize) -> Cursor
    ensures { result ≡ stop number place }
{
    Cursor {
        refusal: Refusal { number, place },
        at: 0,
    }
}

// Refuses, unless the test holds: then reading stands as `rest` says. (For our own crates.)
pub fn unless(test: bool, number: u8, place: usize, rest: Cursor) -> Cursor
    ensures { result ≡ unless test (stop number place) rest }
{
    if test { rest } else { stop(number, place) }
}

// The last test comes first here, so that the first one has the last word. (For our own crates.)
pub fn fields(kind: u8, n: u8, byte2: u8, rest: Cursor) -> Cursor
    ensures { result ≡ fields_of kind n byte2 rest }
{
    let c = unless(is_within(wide(byte2), largest_byte2(kind)), 4, 2, rest);
    let c = unless(is_within(wide(n), LONGEST_SIDE), 3, 1, c);
    unless(is_kind(kind), 2, 0, c)
}

// The first four bytes. (For our own crates.)
pub fn header(ticket: &[u8]) -> Cursor
    ensures { result ≡ header_of ticket.now }
{
    let size = ticket.len();
    if size < 4 {
        return stop(1, size);
    }
    let kind = ticket[0];
    let rest = unless(wide(ticket[3]) <= largest_side_map(kind), 5, 3, go_on(4));
    fields(kind, ticket[1], ticket[2], rest)
}

// Whether bit k of b stands. (For our own crates.)
pub fn bit_of(b: u8, k: usize) -> bool
    requires { k < 8 }
    ensures { result ≡ is_on b k }
{
    (b >> k) % 2 == 1
}

// Whether a bit of `last` stands above its lowest `used` bits.
fn has_spare(last: u8, used: usize) -> bool
    requires { used ≤ 8 }
    ensures { result ≡ leb (2 ^ used) last }
{
    let zeros = u8::leading_zeros(last) as usize;
    zeros + used < 8
}

// How many bits stand in the map bytes from byte `at` on.
fn ones_in(ticket: &[u8], at: usize, bytes: usize) -> usize
    requires { (bytes ≤ 12) × (at + bytes ≤ length ticket.now) }
    ensures { result ≡ standing_bits ticket.now at (8 * bytes) }
{
    let mut total: usize = 0;
    let mut j = 0;
    while j < bytes {
        total += u8::count_ones(ticket[at + j]) as usize;
        j += 1;
    }
    total
}

// How many bits of a map stand, which is how many net bytes follow it; 0 where a spare bit stands.
fn map_count(ticket: &[u8], at: usize, places: usize) -> usize
    requires { (1 ≤ places) × (places ≤ longest_side) × (at + map_bytes places ≤ length ticket.now) }
    ensures { result ≡ map_count ticket.now at places }
{
    let bytes = (places + 7) / 8;
    let full = bytes - 1;
    if has_spare(ticket[at + full], places - 8 * full) {
        return 0;
    }
    ones_in(ticket, at, bytes)
}

// Whether a byte is a net number, `least` being the least one.
fn is_net(least: u8, b: u8) -> bool
    ensures { result ≡ is_net least b }
{
    both(least <= b, wide(b) <= LARGEST_NET)
}

// Whether `count` bytes from byte `from` on are all nets. It has no way out before the end, so that many bytes are tested at once.
fn all_nets(ticket: &[u8], least: u8, from: usize, count: usize) -> bool
    requires { from + count ≤ length ticket.now }
    ensures { result ≡ true → nets_of least ticket.now from count ≡ go_on (from + count) }
{
    let mut good = true;
    let mut i: usize = 0;
    while i < count {
        good = both(good, is_net(least, ticket[from + i]));
        i += 1;
    }
    good
}

// Net by net, so that the first bad one is found.
fn nets(ticket: &[u8], least: u8, from: usize, count: usize) -> Cursor
    requires { from ≤ length ticket.now }
    ensures meets { result ≡ nets_of least ticket.now from count }
    ensures inside { result.at ≤ length ticket.now }
{
    let mut at = from;
    let mut left = count;
    while 0 < left {
        if ticket.len() <= at {
            return stop(1, ticket.len());
        }
        if !is_net(least, ticket[at]) {
            return stop(7, at);
        }
        at += 1;
        left -= 1;
    }
    go_on(at)
}

// Net bytes, `least` being the least number. (For our own crates.)
pub fn net_bytes(ticket: &[u8], least: u8, from: usize, count: usize) -> Cursor
    requires { from ≤ length ticket.now }
    ensures meets { result ≡ nets_of least ticket.now from count }
    ensures inside { result.at ≤ length ticket.now }
{
    if ticket.len() - from < count {
        return nets(ticket, least, from, count);
    }
    if all_nets(ticket, least, from, count) {
        return go_on(from + count);
    }
    nets(ticket, least, from, count)
}

// A side whose map starts at byte `at`.
fn side(ticket: &[u8], at: usize, places: usize) -> Cursor
    requires { (1 ≤ places) × (places ≤ longest_side) × (at ≤ length ticket.now) }
    ensures meets { result ≡ side_of ticket.now at places }
    ensures inside { result.at ≤ length ticket.now }
{
    let bytes = (places + 7) / 8;
    if ticket.len() - at < bytes {
        return stop(1, ticket.len());
    }
    let count = map_count(ticket, at, places);
    if count == 0 {
        return stop(6, at);
    }
    net_bytes(ticket, 1, at + bytes, count)
}

// The next side, read where it stands and nothing is refused before it.
fn after(ticket: &[u8], stands: bool, places: usize, c: Cursor) -> Cursor
    requires { (1 ≤ places) × (places ≤ longest_side) × (c.at ≤ length ticket.now) }
    ensures meets { result ≡ after ticket.now stands places c }
    ensures inside { result.at ≤ length ticket.now }
{
    if c.refusal.number != 0 {
        return c;
    }
    if stands {
        let at = c.at;
        return side(ticket, at, places);
    }
    c
}

// All sides, after a good header. (For our own crates.)
pub fn sides(ticket: &[u8]) -> Ends
    requires { Header ticket.now }
    ensures { result ≡ ends_of ticket.now }
{
    let n = ticket[1] as usize;
    let w = ticket[2] as usize;
    let map = ticket[3];
    let north = after(ticket, bit_of(map, 0), n, go_on(4));
    let south = after(ticket, bit_of(map, 1), n, north);
    let west = after(ticket, bit_of(map, 2), w, south);
    let east = after(ticket, bit_of(map, 3), w, west);
    Ends {
        north,
        south,
        west,
        east,
    }
}
