// The nets' spans, leftmost to rightmost column, listed by leftmost column and given trunk places Gallai's way: two nets share a place
// only if their spans have no column in common.
#![tactic(auto)]

ghost use Rattle.std.specs.Prelude.{◌≡◌, ◌*◌, ◌<◌, ◌≤◌, ltb, position};
ghost use Rattle.arrayvec.specs.ArrayVec.{array_vec_len};
ghost use Rattle.terms.specs.Limits.{longest_side, largest_net};
ghost use Rattle.nets.specs.Tables.{span_from, Numbered};
ghost use Rattle.trunks.specs.Packing.{fresh_packing, placed, packed, Fits, Packable};
ghost use Rattle.trunks.specs.Listing.{pin_number, starts_at, SpansListed};
ghost use Rattle.trunks.specs.Trunks.{trunks_of, SpanColumns, Placed};

use arrayvec::ArrayVec;
use grid::{Column, column_count};
use nets::{Span, Spans};
use problem::Pins;
use terms::{LARGEST_NET, NET_ENTRIES};

// The net at pin `q`, counted from 0, of the north and the south pin of each column in turn.
fn pin_at(pins: &Pins, q: usize) -> u8
    requires { q < 2 * longest_side }
    ensures { result ≡ pin_number pins.now.north pins.now.south q }
{
    if q % 2 == 0 {
        pins.north[q / 2]
    } else {
        pins.south[q / 2]
    }
}

// Whether net m, which has pin q, is listed there: its first column is this one, it goes on past it, and the north pin of the column, which
// comes before the south one, is not the net's too. Entry 0 of `first` is 0, so empty places are never listed.
fn starts(pins: &Pins, spans: &Spans, m: usize, q: usize) -> bool
    requires { (m ≤ largest_net) × (q < 2 * longest_side) }
    ensures { result ≡ starts_at pins.now.north spans.now.columns.first spans.now.columns.last m q }
{
    let i = q / 2;
    let column = i + 1;
    let here = usize::from(spans.columns.first[m]) == column;
    let on = column < usize::from(spans.columns.last[m]);
    let alone = q % 2 == 0 || usize::from(pins.north[i]) != m;
    here && on && alone
}

// The spans of the nets that lie in more than one column. A net's first pin, column by column, is its leftmost; so the spans are listed by
// leftmost column as they are met.
fn list_spans(pins: &Pins, spans: &Spans, n: usize) -> ArrayVec<Span, LARGEST_NET>
    requires { (n ≤ longest_side) × Numbered pins.now.north × Numbered pins.now.south
        × SpanColumns pins.now.north pins.now.south n spans.now.columns.first spans.now.columns.last
        spans.now.tracks.one spans.now.tracks.two }
    ensures few { array_vec_len result ≤ largest_net }
    ensures listed { SpansListed (pin_number pins.now.north pins.now.south)
        (λ m. span_from spans.now.columns.first spans.now.columns.last spans.now.columns.one spans.now.columns.two
        spans.now.tracks.one spans.now.tracks.two m n) (2 * n) result.items }
{
    let mut list = ArrayVec::new();
    for q in 0..2 * n {
        let net = usize::from(pin_at(pins, q));
        if starts(pins, spans, net, q) {
            let span = spans.span(net, n);
            list.push(span);
        }
    }
    list
}

// The packing under way: the rightmost column of each place's last span, 0 where the place is empty, and each net's place.
// There are no more places than spans.
#[derive(Clone, Copy)]
struct Packing {
    lasts: [u8; LARGEST_NET],
    place: [u8; NET_ENTRIES],
}

// The first place that is free from column `left` on.
fn first_free(lasts: &[u8], left: u8) -> Option<usize>
    ensures { result ≡ position (λ x. ltb x left) lasts.now }
{
    lasts.iter().position(|last| *last < left)
}

impl Packing {
    fn fresh() -> Packing
        ensures { result ≡ fresh_packing }
    {
        Packing {
            lasts: [0; LARGEST_NET],
            place: [0; NET_ENTRIES],
        }
    }

    // The span takes the first place that is free. There is one.
    fn place_one(&mut self, span: Span)
        requires { Fits self.old span }
        ensures { self.new ≡ placed self.old span }
    {
        if let Some(at) = first_free(&self.lasts, span.left) {
            self.lasts[at] = span.right;
            self.place[usize::from(span.net)] = at as u8;
        }
    }
}

// The place of each span of a lent slice, one after the other.
fn pack_spans(spans: &[Span]) -> Packing
    requires { Packable fresh_packing spans.now }
    ensures { result ≡ packed fresh_packing spans.now }
{
    let mut packing = Packing::fresh();
    for span in spans {
        packing.place_one(*span);
    }
    packing
}

// The trunk places of the nets of a row or a channel. (For our own crates.)
pub fn place_trunks(pins: &Pins, spans: &Spans, n: Column) -> [u8; NET_ENTRIES]
    requires { (n.0 ≤ longest_side) × Numbered pins.now.north × Numbered pins.now.south
        × SpanColumns pins.now.north pins.now.south n.0 spans.now.columns.first spans.now.columns.last
        spans.now.tracks.one spans.now.tracks.two }
    ensures { Placed pins.now.north pins.now.south n.0 (trunks_of spans.now.columns.first spans.now.columns.last result) }
{
    let list = list_spans(pins, spans, column_count(n));
    pack_spans(list.as_slice()).place
}
