// The hardest box of a shape. Public call: hardest_box.
#![tactic(auto)]

ghost use Rattle.std.specs.Prelude.{◌≡◌, ℕ, ◌+◌, ◌≤◌, ◌<◌, length};
ghost use Rattle.counting.specs.Counting.{In};
ghost use Rattle.terms.specs.Limits.{longest_side};
ghost use Rattle.grid.specs.Legal.{entry};
ghost use Rattle.hardest_law.specs.Box.{rotated, hardest_box};
ghost use Rattle.hardest_law.specs.Hardest.{is_shape, WritesHardest};

use grid::{Column, Track, column_count, track_count};
use problem::{Pins, Problem};
use std::mem;
use terms::{BOX, LONGEST_SIDE, Refusal, is_within, refuse};

fn is_shape(n: Column, w: Track) -> bool
    ensures { result ≡ is_shape n.0 w.0 }
{
    is_within(column_count(n), LONGEST_SIDE) && is_within(track_count(w), LONGEST_SIDE)
}

// Place a of p, moved on by half of them, around past the last.
#[tactic(auto, unfolding(hardest_law::specs::Box::rotated))]
fn rotated(p: usize, a: usize) -> usize
    requires { (p ≤ longest_side) × In a p }
    ensures { (result ≡ rotated p a) × In result p }
{
    let on = a + p.div_ceil(2);
    if on <= p { on } else { on - p }
}

// A side whose places hold the nets that the closure gives for them.
fn side_of<F: Fn(usize) -> u8>(places: usize, net: F) -> [u8; LONGEST_SIDE]
    requires few { places ≤ longest_side }
    requires known { (a : ℕ) → In a places → F.pre net a }
    ensures size { length result ≡ longest_side }
    ensures nets { (a : ℕ) → In a places → F.post net a (entry result a) }
    ensures empty { (a : ℕ) → places < a → entry result a ≡ 0 }
{
    let mut list = [0; LONGEST_SIDE];
    for i in 0..places {
        list[i] = net(i + 1);
    }
    list
}

// The box, its first south net and its first west net exchanged.
fn make_box(n: Column, w: Track) -> Problem
    requires { In n.0 longest_side × In w.0 longest_side }
    ensures { result ≡ hardest_box n.0 w.0 }
{
    let columns = column_count(n);
    let tracks = track_count(w);
    let north = side_of(columns, |a| a as u8);
    let mut south = side_of(columns, |a| rotated(columns, a) as u8);
    let mut west = side_of(tracks, |a| (columns + a) as u8);
    let east = side_of(tracks, |a| (columns + rotated(tracks, a)) as u8);
    mem::swap(&mut south[0], &mut west[0]);
    Problem {
        kind: BOX,
        n,
        byte2: tracks as u8,
        nets: (columns + tracks) as u8,
        pins: Pins {
            north,
            south,
            west,
            east,
        },
    }
}

// Public call: the ticket of a box of n columns and w tracks, with every place filled, that no box of that shape has a higher floor than.
pub fn hardest_box(n: Column, w: Track, ticket: &mut [u8]) -> Result<usize, Refusal>
    ensures { WritesHardest n.0 w.0 ticket.old ticket.new result }
{
    if !is_shape(n, w) {
        return Err(refuse(18, 0));
    }
    ticket_writer::write_ticket(make_box(n, w), ticket)
}
