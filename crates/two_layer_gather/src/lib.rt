// What is known of each side of a two-layer channel, and the nets of several pins there. A table of columns has an entry for each byte, so
// that every net number has one; a row has an entry for each column and one for 0, which is none. All functions are for our own crates.
#![tactic(auto)]

ghost use Rattle.std.specs.Prelude.{ℕ, ◌≤◌};
ghost use Rattle.terms.specs.Limits.{longest_side};
ghost use Rattle.grid.specs.Legal.{entry};
ghost use Rattle.nets.specs.Tables.{pin_count_to, NetTable};
ghost use Rattle.two_layer_law.specs.Moves.{first_on, last_on, leads, Gathered};
ghost use Rattle.two_layer_cuts.specs.Rows.{operations_in, ops_of, Row};
ghost use Rattle.two_layer_gather.specs.Tables.{Table};

use terms::{BYTE_VALUES, LARGEST_NET, LONGEST_SIDE, NET_ENTRIES};
use two_layer_cuts::{COLUMN_ENTRIES, Operation, Operations};

// ---- the pins of a side

// The first column of each net, 0 where the side does not hold it. No branch depends on the nets.
// Kept: 0 for none, a byte an entry, as the definitions `first_on` and `last_on` of two_layer_law have it.
pub fn firsts(side: &[u8; LONGEST_SIDE], n: usize) -> [u8; BYTE_VALUES]
    requires { n ≤ longest_side }
    ensures { Table (first_on (entry side.now) n) result }
{
    let mut first = [0; BYTE_VALUES];
    for i in 0..n {
        let m = usize::from(side[i]);
        first[m] = if first[m] == 0 { i as u8 + 1 } else { first[m] };
    }
    first
}

// The last column of each net.
// Kept: a function beside `firsts`. One function of a closure is no plainer: its contract would name a fold that stands for both
// definitions, and four lines of code are shared.
fn lasts(side: &[u8; LONGEST_SIDE], n: usize) -> [u8; BYTE_VALUES]
    requires { n ≤ longest_side }
    ensures { Table (last_on (entry side.now) n) result }
{
    let mut last = [0; BYTE_VALUES];
    for i in 0..n {
        last[usize::from(side[i])] = i as u8 + 1;
    }
    last
}

// The nets of both sides, each in the first column in which this side holds it; the tables are the first columns of this side's nets and of
// the other's.
pub fn leads(
    side: &[u8; LONGEST_SIDE],
    first: &[u8; BYTE_VALUES],
    other: &[u8; BYTE_VALUES],
    n: usize,
) -> [u8; COLUMN_ENTRIES]
    requires { n ≤ longest_side }
    ensures { (b : ℕ → ℕ) → Table (first_on (entry side.now) n) first.now →
        Table (first_on b n) other.now → Row n (leads (entry side.now) b n) result }
{
    let mut lead = [0; COLUMN_ENTRIES];
    for i in 0..n {
        let net = side[i];
        let m = usize::from(net);
        let c = i + 1;
        let leads = (usize::from(first[m]) == c) & (1 <= other[m]);
        lead[c] = if leads { net } else { 0 };
    }
    lead
}

// ---- the nets of several pins of a side

// In rising order of nets; `other` has the first columns of the other side.
fn gather(
    pins: &[u8; NET_ENTRIES],
    first: &[u8; BYTE_VALUES],
    last: &[u8; BYTE_VALUES],
    other: &[u8; BYTE_VALUES],
) -> Operations
    ensures { (a b : ℕ → ℕ) (n : ℕ) → NetTable (pin_count_to a n) pins.now → Table (first_on a n) first.now →
        Table (last_on a n) last.now → Table (first_on b n) other.now → Gathered a b n (ops_of (operations_in result)) }
{
    let mut found = Operations::new();
    for i in 0..LARGEST_NET {
        let m = i + 1;
        let several = 2 <= pins[m];
        if several {
            let to = if 1 <= other[m] { first[m] } else { 0 };
            found.push(Operation {
                net: m as u8,
                to,
                low: first[m],
                high: last[m],
            });
        }
    }
    found
}

// The same from the side itself and from how many pins each net has there.
pub fn gather_side(
    side: &[u8; LONGEST_SIDE],
    pins: &[u8; NET_ENTRIES],
    first: &[u8; BYTE_VALUES],
    other: &[u8; BYTE_VALUES],
    n: usize,
) -> Operations
    requires { n ≤ longest_side }
    ensures { (b : ℕ → ℕ) → NetTable (pin_count_to (entry side.now) n) pins.now →
        Table (first_on (entry side.now) n) first.now → Table (first_on b n) other.now →
        Gathered (entry side.now) b n (ops_of (operations_in result)) }
{
    gather(pins, first, &lasts(side, n), other)
}
