// The ticket reader: what a ticket's bytes say, or why they are refused. Public calls: read, and parse, which gives the pins as well.
#![tactic(auto)]

ghost use Rattle.std.specs.Prelude.{◌≡◌, ◌+◌, ◌≤◌, length, true, eqb, leb};
ghost use Rattle.counting.specs.Counting.{count, least};
ghost use Rattle.terms.specs.Limits.{longest_side, largest_net};
ghost use Rattle.nets.specs.Tables.{SpansOf, pins_of_net};
ghost use Rattle.ticket_sides.specs.Format.{standing_bits, map_bytes, net_list, side_nets};
ghost use Rattle.ticket_sides.specs.Steps.{Header};
ghost use Rattle.ticket.specs.Read.{pins_at, left_over, no_lone, refused_reading, accepted_reading, problem_at, judged, ticket_of, read_of};
ghost use Rattle.ticket.specs.Steps.{Extent, Extents, Sited, reading_of};

use grid::Column;
use nets::Spans;
use problem::{Pins, Problem};
use terms::{LONGEST_SIDE, Refusal, by_kind};
use ticket_sides::{Cursor, Ends, bit_of, go_on, header, sides, unless};

// Read accepts no longer list, and one byte more than this of any list tells its whole reading: `longest`, `first_bytes` of proofs/Longest.
pub const LONGEST_TICKET: usize = 412;

#[derive(Clone, Copy)]
pub struct ReadAnswer {
    pub refusal: Refusal,
    pub kind: u8,
    pub n: Column,
    pub byte2: u8,
    pub nets: u8,
}

// A refusal, or the problem that the ticket states.
#[derive(Clone, Copy)]
pub struct Reading {
    pub refusal: Refusal,
    pub problem: Problem,
}

// The same, with the spans of the problem's nets.
#[derive(Clone, Copy)]
pub struct Parsed {
    pub refusal: Refusal,
    pub problem: Problem,
    pub spans: Spans,
}

// `count` net bytes as a side's list, and 0 past them. (For our own crates.)
pub fn net_list(ticket: &[u8], from: usize, count: usize) -> [u8; LONGEST_SIDE]
    requires { (count ≤ longest_side) × (from + count ≤ length ticket.now) }
    ensures { result ≡ net_list ticket.now from count }
{
    let mut list = [0u8; LONGEST_SIDE];
    let mut i: usize = 0;
    while i < count {
        list[i] = ticket[from + i];
        i += 1;
    }
    list
}

// The nets of a side whose map starts at byte `at`, each at its place. It does not branch on the map's bits, which took longer.
fn side_nets(
    ticket: &[u8],
    at: usize,
    places: usize,
    nets: [u8; LONGEST_SIDE],
) -> [u8; LONGEST_SIDE]
    requires places_le_longest_side { (places ≤ longest_side) × (at + map_bytes places ≤ length ticket.now) }
    requires nets_value { nets ≡ net_list ticket.now (at + map_bytes places) (standing_bits ticket.now at places) }
    ensures { result ≡ side_nets ticket.now true at places }
{
    let mut list = [0u8; LONGEST_SIDE];
    let mut next: usize = 0;
    let mut i: usize = 0;
    while i < places {
        let on = (ticket[at + i / 8] >> (i % 8)) % 2;
        list[i] = nets[next] * on;
        next += on as usize;
        i += 1;
    }
    list
}

// The nets of a side from byte `at` to byte `end`. Where it has a pin at each place, its net bytes are that list.
fn side_list(
    ticket: &[u8],
    stands: bool,
    at: usize,
    end: usize,
    places: usize,
) -> [u8; LONGEST_SIDE]
    requires { (places ≤ longest_side) × Extent ticket.now stands at places end }
    ensures { result ≡ side_nets ticket.now stands at places }
{
    if !stands {
        return [0u8; LONGEST_SIDE];
    }
    let from = at + (places + 7) / 8;
    let count = end - from;
    let nets = net_list(ticket, from, count);
    if count == places {
        return nets;
    }
    side_nets(ticket, at, places, nets)
}

// The nets of all sides, once their ends are known.
fn pins_at(ticket: &[u8], ends: Ends) -> Pins
    requires header { Header ticket.now }
    requires extents { Extents ticket.now ends }
    ensures { result ≡ pins_at ticket.now ends }
{
    let n = ticket[1] as usize;
    let w = ticket[2] as usize;
    let map = ticket[3];
    let north = side_list(ticket, bit_of(map, 0), 4, ends.north.at, n);
    let south = side_list(ticket, bit_of(map, 1), ends.north.at, ends.south.at, n);
    let west = side_list(ticket, bit_of(map, 2), ends.south.at, ends.west.at, w);
    let east = side_list(ticket, bit_of(map, 3), ends.west.at, ends.east.at, w);
    Pins {
        north,
        south,
        west,
        east,
    }
}

// Refuses bytes past byte `at`. (For our own crates.)
pub fn left_over(ticket: &[u8], at: usize) -> Cursor
    ensures { result ≡ left_over ticket.now at }
{
    unless(ticket.len() <= at, 8, at, go_on(at))
}

fn no_lone(lone: usize) -> Cursor
    ensures { result ≡ no_lone lone }
{
    unless(lone == 0, 9, lone, go_on(0))
}

// A reading that is refused. (For our own crates.)
pub fn refused(c: Cursor) -> Parsed
    ensures { (reading_of result ≡ refused_reading c) × (result.refusal ≡ c.refusal) }
{
    let refusal = c.refusal;
    let empty = [0u8; LONGEST_SIDE];
    let spans = nets::no_spans();
    Parsed {
        refusal,
        problem: Problem {
            kind: 0,
            n: Column(0),
            byte2: 0,
            nets: 0,
            pins: Pins {
                north: empty,
                south: empty,
                west: empty,
                east: empty,
            },
        },
        spans,
    }
}

// A reading that is accepted. (For our own crates.)
pub fn accepted(ticket: &[u8], nets: u8, pins: Pins, spans: Spans) -> Parsed
    requires { Header ticket.now }
    ensures { (reading_of result ≡ accepted_reading (problem_at ticket.now nets pins)) × (result.spans ≡ spans) }
{
    Parsed {
        refusal: Refusal {
            number: 0,
            place: 0,
        },
        problem: Problem {
            kind: ticket[0],
            n: Column(ticket[1] as usize),
            byte2: ticket[2],
            nets,
            pins,
        },
        spans,
    }
}

// The last test of a reading, and how many nets there are.
#[derive(Clone, Copy)]
pub struct NetTally {
    pub last: Cursor,
    pub nets: u8,
}

// From the table of spans. (For our own crates.)
pub fn tally(spans: &Spans) -> NetTally
    ensures last { result.last ≡ no_lone (least (λ m. eqb (pins_of_net spans.now m) 1) largest_net) }
    ensures nets { result.nets ≡ count (λ m. leb 1 (pins_of_net spans.now m)) largest_net }
{
    let last = no_lone(spans.lone_net().unwrap_or(0));
    let nets = spans.net_count();
    NetTally { last, nets }
}

// The spans, and the last test, once all bytes are read.
fn judged(ticket: &[u8], pins: Pins) -> Parsed
    requires { Header ticket.now × Sited ticket.now pins }
    ensures reads { reading_of result ≡ judged ticket.now pins }
    ensures spans { result.refusal.number ≡ 0 → SpansOf result.problem result.spans }
{
    let n = ticket[1] as usize;
    let w = by_kind(ticket[0], 1, 1, 1, ticket[2] as usize, 1);
    let spans = Spans::of(&pins, n, w);
    let tally = tally(&spans);
    let last = tally.last;
    if last.refusal.number != 0 {
        return refused(last);
    }
    accepted(ticket, tally.nets, pins, spans)
}

// The whole reading, with the spans: for the crates that go on from a good reading to its figures and its wiring.
pub fn parse_spans(ticket: &[u8]) -> Parsed
    ensures reads { reading_of result ≡ ticket_of ticket.now }
    ensures spans { result.refusal.number ≡ 0 → SpansOf result.problem result.spans }
{
    let head = header(ticket);
    if head.refusal.number != 0 {
        return refused(head);
    }
    let ends = sides(ticket);
    let end = ends.east;
    if end.refusal.number != 0 {
        return refused(end);
    }
    let whole = left_over(ticket, end.at);
    if whole.refusal.number != 0 {
        return refused(whole);
    }
    judged(ticket, pins_at(ticket, ends))
}

// The whole reading, with the pins: for the crates that go on from a good reading.
pub fn parse(ticket: &[u8]) -> Reading
    ensures { result ≡ ticket_of ticket.now }
{
    let whole = parse_spans(ticket);
    let refusal = whole.refusal;
    let problem = whole.problem;
    Reading { refusal, problem }
}

// Public call Read.
pub fn read(ticket: &[u8]) -> ReadAnswer
    ensures { result ≡ read_of ticket.now }
{
    let whole = parse(ticket);
    let refusal = whole.refusal;
    let n = whole.problem.n;
    ReadAnswer {
        refusal,
        kind: whole.problem.kind,
        n,
        byte2: whole.problem.byte2,
        nets: whole.problem.nets,
    }
}
