// Single passes over the pins and the points of Check: the pins as one list, each net's first pin, the first point of no net, the
// smallest net without a mark.
#![tactic(auto)]

ghost use Rattle.std.specs.Prelude.{◌≡◌, ◌≢◌, ℕ, ◌+◌, ◌*◌, ◌<◌, ◌≤◌, length, IfSome};
ghost use Rattle.terms.specs.Limits.{longest_side};
ghost use Rattle.check_link.specs.Marks.{at};
ghost use Rattle.check_sweep.specs.Pins.{pin_places};
ghost use Rattle.check_scan.specs.Scan.{PinList, Put, Opened, FirstUnknown, Bare, Lowest, LowestOf, net_of, point_or};

use check_link::wired::PIN_PLACES;
use check_sweep::{EAST_START, SOUTH_START, WEST_START};
use grid::{Frame, column_count, layer_count, track_count};
use problem::Pins;
use terms::{BYTE_VALUES, LONGEST_SIDE};

// The largest byte, which is no net's number.
const NO_NET: u8 = (BYTE_VALUES - 1) as u8;

// A side's places go into the list from `from` on.
fn put(list: &mut [u8; PIN_PLACES], from: usize, side: &[u8; LONGEST_SIDE])
    requires { from + longest_side ≤ pin_places }
    ensures { Put list.old side.now list.new from }
{
    list[from..from + LONGEST_SIDE].copy_from_slice(side);
}

// The ticket's pins as one list. (For our own crates.)
pub fn pin_list(pins: Pins) -> [u8; PIN_PLACES]
    ensures { PinList pins result }
{
    let mut list = [0; PIN_PLACES];
    put(&mut list, 0, &pins.north);
    put(&mut list, SOUTH_START, &pins.south);
    put(&mut list, WEST_START, &pins.west);
    put(&mut list, EAST_START, &pins.east);
    list
}

// Marks each net's first pin, and gives a table of the numbers that are nets of the ticket. 0, for no metal, counts as known. (For
// our own crates.)
pub fn open_nets(p: &[u8; PIN_PLACES], s: &mut [u8; PIN_PLACES]) -> [u8; BYTE_VALUES]
    ensures opened { Opened p.now s.new result pin_places }
    ensures size { (length p.now ≡ pin_places) × (length s.new ≡ pin_places) }
{
    let mut known = [0; BYTE_VALUES];
    known[0] = 1;
    for a in 0..PIN_PLACES {
        let v = usize::from(p[a]);
        s[a] = u8::from(known[v] == 0);
        known[v] = 1;
    }
    known
}

// The first point, in buffer order, whose number is no net's. (For our own crates.)
pub fn first_unknown(points: &[u8], known: &[u8; BYTE_VALUES], frame: Frame) -> Option<usize>
    requires { length points.now ≡ frame.n.0 * frame.w.0 * frame.k.0 }
    ensures first { FirstUnknown known.now points.now (point_or (length points.now) result) }
    ensures found { IfSome result (λ q. q < length points.now) }
{
    let mut q = 0;
    'layers: for l in 0..layer_count(frame.k) {
        for j in 0..track_count(frame.w) {
            for i in 0..column_count(frame.n) {
                let v = usize::from(points[q]);
                if known[v] == 0 {
                    break 'layers;
                }
                q += 1;
            }
        }
    }
    if q < points.len() { Some(q) } else { None }
}

// Takes all marks away. (For our own crates.)
pub fn clear(m: &mut [u8])
    ensures { (q : ℕ) → at m.new q ≡ 0 }
{
    m.fill(0);
}

// What an entry holds, where that is a net and has no mark; else NO_NET.
fn unmarked(v: u8, mark: u8) -> u8
    ensures { Bare v mark result }
{
    if v != 0 && mark == 0 { v } else { NO_NET }
}

// The smallest net without a mark, or NO_NET.
fn lowest(x: &[u8], m: &[u8]) -> u8
    requires { length x.now ≤ length m.now }
    ensures { Lowest x.now m.now (length x.now) result }
{
    let mut best = NO_NET;
    for q in 0..x.len() {
        best = best.min(unmarked(x[q], m[q]));
    }
    best
}

// The smallest net with a pin or a point that has no mark. (For our own crates.)
pub fn lowest_of(pins: &[u8], s: &[u8], points: &[u8], m: &[u8]) -> Option<u8>
    requires { (length pins.now ≤ length s.now) × (length points.now ≤ length m.now) }
    ensures lowest { LowestOf pins.now s.now points.now m.now (net_of result) }
    ensures net { IfSome result (λ m. m ≢ 0) }
{
    let best = lowest(pins, s).min(lowest(points, m));
    if best == NO_NET { None } else { Some(best) }
}
