// Check: whether a wiring, whoever drew it, is a legal wiring of a ticket.
#![tactic(auto)]

ghost use Rattle.std.specs.Prelude.{◌≡◌, ◌≢◌, ◌&&◌, ◌*◌, length, IfSome};
ghost use Rattle.terms.specs.Limits.{most_layers, within};
ghost use Rattle.problem.specs.Problem.{Good};
ghost use Rattle.ticket.specs.Read.{ticket_of};
ghost use Rattle.grid.specs.Grid.{grid_of};
ghost use Rattle.check_scan.specs.Scan.{net_of};
ghost use Rattle.check_link.specs.Edges.{Shape};
ghost use Rattle.checker.specs.Check.{width_fits, check_refusal, Checked};
ghost use Rattle.checker.specs.Marking.{Firsts, Torn, Judges};

use check_link::wired::{PIN_PLACES, Wired};
use check_scan::{clear, first_unknown, lowest_of, open_nets, pin_list};
use grid::{Frame, Layer, Track, layer_count, points, track_count};
use problem::Problem;
use terms::{BOX, MOST_LAYERS, Refusal, is_within, refuse, widest};
use ticket::Reading;

// ---- before the wiring is looked at

fn has_width(q: Problem, w: Track) -> bool
    ensures { result ≡ width_fits q w.0 }
{
    let tracks = track_count(w);
    if is_within(tracks, widest(q.kind)) {
        if q.kind == BOX {
            return tracks == usize::from(q.byte2);
        }
        return true;
    }
    false
}

fn has_counts(q: Problem, w: Track, k: Layer) -> bool
    ensures { result ≡ (width_fits q w.0 && within k.0 most_layers) }
{
    has_width(q, w) && is_within(layer_count(k), MOST_LAYERS)
}

// Refusals 11 to 13, by the counts given and the lengths of wiring and scratch; 0 and 0 where there is none.
fn early_refusal(t: Reading, w: Track, k: Layer, wiring: usize, scratch: usize) -> Refusal
    requires { t.refusal.number ≡ 0 → Good t.problem }
    ensures { result ≡ check_refusal t w.0 k.0 wiring scratch }
{
    let refusal = t.refusal;
    if refusal.number != 0 {
        return refusal;
    }
    let q = t.problem;
    if has_counts(q, w, k) {
        let size = points(q.n, w, k);
        if wiring != size {
            return refuse(12, size);
        }
        if scratch < size {
            return refuse(13, size);
        }
        return refuse(0, 0);
    }
    refuse(11, 0)
}

// ---- the call

// The smallest net that is not in one piece, where s marks each net's first pin. The walks do the work; the sweeps make sure.
fn torn(x: Wired, s: &mut [u8; PIN_PLACES], m: &mut [u8]) -> Option<u8>
    requires { (length m.old ≡ length x.points.now) × Firsts x.pins.now s.old }
    ensures torn { Torn (grid_of x.entry.frame) x.entry.pins.now x.entry.points.now (net_of result) }
    ensures net { IfSome result (λ m. m ≢ 0) }
{
    clear(m);
    check_walk::spread(x, s, m);
    check_sweep::settle(x, s, m);
    let pins = x.pins;
    lowest_of(pins, s, x.points, m)
}

// What Check finds of a wiring; m takes marks.
fn judge(x: Wired, m: &mut [u8]) -> Refusal
    requires { length m.old ≡ length x.points.now }
    ensures { Judges (grid_of x.entry.frame) x.entry.pins.now x.entry.points.now result }
{
    let mut s = [0; PIN_PLACES];
    let known = open_nets(x.pins, &mut s);
    match first_unknown(x.points, &known, x.frame) {
        Some(q) => refuse(14, q),
        None => match torn(x, &mut s, m) {
            Some(net) => refuse(15, usize::from(net)),
            None => refuse(0, 0),
        },
    }
}

// Public call Check.
pub fn check(
    ticket: &[u8],
    w: Track,
    k: Layer,
    first: bool,
    wiring: &[u8],
    scratch: &mut [u8],
) -> Refusal
    ensures { Checked (ticket_of ticket.now) w.0 k.0 first wiring.now scratch.old
        scratch.new result }
{
    let t = ticket::parse(ticket);
    let refused = early_refusal(t, w, k, wiring.len(), scratch.len());
    if refused.number != 0 {
        return refused;
    }
    let list = pin_list(t.problem.pins);
    let size = wiring.len();
    let n = t.problem.n;
    let frame = Frame { n, w, k, first };
    let x = Wired {
        pins: &list,
        points: wiring,
        frame,
    };
    judge(x, &mut scratch[..size])
}
