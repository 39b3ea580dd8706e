// The nets' spans: what the pins tell of each net, counted once for a problem in one pass over its pins. The table is kept figure by
// figure, so that many nets are treated at once; `Spans::span` gives a net's span. All functions here are for our own crates.
#![tactic(auto)]

ghost use Rattle.std.specs.Prelude.{◌≡◌, cond, false, ◌+◌, ◌*◌, ◌≤◌, ◌<◌, eqb, leb, get_or};
ghost use Rattle.counting.specs.Counting.{In, bit, sum, count, least};
ghost use Rattle.terms.specs.Limits.{longest_side, largest_net, byte_values};
ghost use Rattle.grid.specs.Legal.{entry};
ghost use Rattle.problem.specs.declared.Problem.{Problem};
ghost use Rattle.problem.specs.Problem.{pins_in, shape_of, Good};
ghost use Rattle.nets.specs.Spans.{SpanOf};
ghost use Rattle.nets.specs.Tables.{Spanned, Numbered, Tabled, blank_table, blank_spans, low_of, high_of, span_from};
ghost use Rattle.nets.specs.Tables.{pins_of_net, net_or_none};

use problem::Pins;
use terms::{LONGEST_SIDE, NET_ENTRIES};

// A net's leftmost and rightmost column, and how many pins it has on each side.
#[derive(Clone, Copy, Default)]
pub struct Span {
    pub net: u8,
    pub left: u8,
    pub right: u8,
    pub north: u8,
    pub south: u8,
    pub west: u8,
    pub east: u8,
}

// What two sides across from each other tell of each net: how many pins it has on the one and on the other, and the first and the last
// place at which one of them holds it.
#[derive(Clone, Copy)]
pub struct PinTable {
    pub one: [u8; NET_ENTRIES],
    pub two: [u8; NET_ENTRIES],
    pub first: [u8; NET_ENTRIES],
    pub last: [u8; NET_ENTRIES],
}

// The spans of a problem's nets: north and south by columns, west and east by tracks.
#[derive(Clone, Copy)]
pub struct Spans {
    pub columns: PinTable,
    pub tracks: PinTable,
}

// No branch: the compiler then treats many nets at once.
pub fn choose(test: bool, a: u8, b: u8) -> u8
    ensures { result ≡ cond test a b }
{
    if test { a } else { b }
}

// The least place along the grid of a net's pins. Three choices of values, and no way out between them: many nets are treated at once.
pub fn low_of(first: u8, near: u8, far: u8, past: u8) -> u8
    ensures { result ≡ low_of first near far past }
{
    let beyond = if far == 0 { 0 } else { past };
    let from = if first == 0 { beyond } else { first };
    if near == 0 { from } else { 0 }
}

// The greatest.
pub fn high_of(last: u8, far: u8, past: u8) -> u8
    ensures { result ≡ high_of last far past }
{
    if far == 0 { last } else { past }
}

// ---- the table

fn blank() -> PinTable
    ensures { result ≡ blank_table }
{
    PinTable {
        one: [0; NET_ENTRIES],
        two: [0; NET_ENTRIES],
        first: [0; NET_ENTRIES],
        last: [0; NET_ENTRIES],
    }
}

// The table of no pins.
pub fn no_spans() -> Spans
    ensures { result ≡ blank_spans }
{
    Spans {
        columns: blank(),
        tracks: blank(),
    }
}

// A place's net, as the place of its entry in a table.
pub fn net_at(side: &[u8; LONGEST_SIDE], i: usize) -> usize
    requires { (i < longest_side) × Numbered side.now }
    ensures { (result ≡ get_or side.now i 0) × (result ≤ largest_net) }
{
    usize::from(side[i])
}

// A net's first place, once this one is met.
fn first_of(first: u8, place: u8) -> u8
    ensures { result ≡ cond (eqb first 0) place first }
{
    if first == 0 { place } else { first }
}

// What two sides of so many places tell. No branch depends on the nets: an empty place is entered at 0, which is cleared at the end.
#[tactic(auto, using(crate::proofs::Tabling::cleared))]
fn pin_table(a: &[u8; LONGEST_SIDE], b: &[u8; LONGEST_SIDE], places: usize) -> PinTable
    requires { (places ≤ longest_side) × Numbered a.now × Numbered b.now }
    ensures { Tabled (entry a.now) (entry b.now) places result }
{
    let mut t = blank();
    for i in 0..places {
        let m = net_at(a, i);
        let k = net_at(b, i);
        let place = i as u8 + 1;
        t.one[m] += 1;
        t.two[k] += 1;
        t.first[m] = first_of(t.first[m], place);
        t.first[k] = first_of(t.first[k], place);
        t.last[m] = place;
        t.last[k] = place;
    }
    t.one[0] = 0;
    t.two[0] = 0;
    t.first[0] = 0;
    t.last[0] = 0;
    t
}

impl Spans {
    // The spans of the nets of these pins, in a problem of n columns and w tracks.
    pub fn of(pins: &Pins, n: usize, w: usize) -> Spans
        requires n_le_longest_side { (n ≤ longest_side) × (w ≤ longest_side) }
        requires numbered { Numbered pins.now.north × Numbered pins.now.south × Numbered pins.now.west × Numbered pins.now.east }
        ensures tabled { Tabled (entry pins.now.north) (entry pins.now.south) n result.columns }
        ensures tabled_2 { Tabled (entry pins.now.west) (entry pins.now.east) w result.tracks }
    {
        let columns = pin_table(&pins.north, &pins.south, n);
        let tracks = pin_table(&pins.west, &pins.east, w);
        Spans { columns, tracks }
    }

    // Net m's span, in a problem of length n.
    #[tactic(auto, using(crate::proofs::Reach::span_exact))]
    pub fn span(&self, m: usize, n: usize) -> Span
        requires { (m ≤ largest_net) × (n ≤ longest_side) }
        ensures reads { result ≡ span_from self.now.columns.first self.now.columns.last self.now.columns.one self.now.columns.two
            self.now.tracks.one self.now.tracks.two m n }
        ensures exact { (q : Problem) → Good q → n ≡ q.n.0 → Spanned q self.now.columns.first self.now.columns.last
            self.now.columns.one self.now.columns.two self.now.tracks.one self.now.tracks.two → In m largest_net
            → SpanOf (shape_of q) (pins_in q.pins) m result }
    {
        let past = n as u8 + 1;
        let west = self.tracks.one[m];
        let east = self.tracks.two[m];
        Span {
            net: m as u8,
            left: low_of(self.columns.first[m], west, east, past),
            right: high_of(self.columns.last[m], east, past),
            north: self.columns.one[m],
            south: self.columns.two[m],
            west,
            east,
        }
    }

    // ---- what the counts of the four sides tell

    // How many pins net m has, in a width that holds it.
    fn pins_of_net(&self, m: usize) -> usize
        requires { m ≤ largest_net }
        ensures { (result ≡ pins_of_net self.now m) × (result < 4 * byte_values) }
    {
        usize::from(self.columns.one[m])
            + usize::from(self.columns.two[m])
            + usize::from(self.tracks.one[m])
            + usize::from(self.tracks.two[m])
    }

    // Whether net m has a pin, in bytes, which hold no sum of four counts.
    fn has_pins(&self, m: usize) -> bool
        requires { m ≤ largest_net }
        ensures { result ≡ leb 1 (pins_of_net self.now m) }
    {
        let along = self.columns.one[m].max(self.columns.two[m]);
        let ends = self.tracks.one[m].max(self.tracks.two[m]);
        1 <= along.max(ends)
    }

    // Whether net m has one pin: the greatest of the four is 1, and all beside it are 0. In bytes too.
    fn is_lone(&self, m: usize) -> bool
        requires { m ≤ largest_net }
        ensures { result ≡ eqb (pins_of_net self.now m) 1 }
    {
        let a = self.columns.one[m];
        let b = self.columns.two[m];
        let c = self.tracks.one[m];
        let d = self.tracks.two[m];
        let x = a.max(b);
        let y = c.max(d);
        let second = a.min(b).max(c.min(d)).max(x.min(y));
        (second == 0) & (x.max(y) == 1)
    }

    // Whether a net has one pin. It has no way out before the end, so that many nets are tested at once.
    #[tactic(auto, using(counting::proofs::Leasts::least_start, crate::proofs::Passing::least_passed))]
    fn has_lone(&self) -> bool
        ensures { result ≡ false → least (λ m. eqb (pins_of_net self.now m) 1) largest_net ≡ 0 }
    {
        let mut some = false;
        for m in 1..NET_ENTRIES {
            some |= self.is_lone(m);
        }
        some
    }

    // The smallest net with one pin. All nets are tested at once, and net by net only where one is there.
    #[tactic(auto, using(counting::proofs::Leasts::least_start, crate::proofs::Passing::least_passed))]
    pub fn lone_net(&self) -> Option<usize>
        ensures { result ≡ net_or_none (least (λ m. eqb (pins_of_net self.now m) 1) largest_net) }
    {
        if !self.has_lone() {
            return None;
        }
        for m in 1..NET_ENTRIES {
            if self.is_lone(m) {
                return Some(m);
            }
        }
        None
    }

    // How many nets have pins.
    #[tactic(auto, using(counting::proofs::Sums::sum_none, crate::proofs::Passing::sum_passed))]
    pub fn net_count(&self) -> u8
        ensures { result ≡ count (λ m. leb 1 (pins_of_net self.now m)) largest_net }
    {
        let mut total = 0;
        for m in 1..NET_ENTRIES {
            total += u8::from(self.has_pins(m));
        }
        total
    }

    // How many pins there are.
    #[tactic(auto, using(counting::proofs::Sums::sum_none, crate::proofs::Passing::sum_passed))]
    pub fn pin_count(&self) -> usize
        ensures { result ≡ sum (pins_of_net self.now) largest_net }
    {
        let mut total = 0;
        for m in 1..NET_ENTRIES {
            total += self.pins_of_net(m);
        }
        total
    }
}
