// One side of a board, or two across from each other: where a net has pins, and the side without the nets of a list. (For our own crates.)
#![tactic(auto)]

ghost use Rattle.std.specs.Prelude.{◌≡◌, cond, ℕ, ◌≤◌, ◌<◌, eqb, get_or, take, IfSome};
ghost use Rattle.counting.specs.Counting.{In, some};
ghost use Rattle.terms.specs.Limits.{longest_side};
ghost use Rattle.grid.specs.Legal.{entry};
ghost use Rattle.board_law.specs.Places.{listed};
ghost use Rattle.board_law.specs.Runs.{no_place, Ends, NetNumbers};
ghost use Rattle.board_sides.specs.Places.{first_in, last_in};

use terms::LONGEST_SIDE;

mod places;

pub use places::{EndPlaces, Span};

// Six times sixteen: the compiler treats sixteen places at once, and where some are left over each by itself. A net is never 0, so that
// what stands past a side's places is no pin of it.
const PADDED_SIDE: usize = 96;

// Past every place.
// Kept: measured (docs/DECISIONS.md, 77). The loop of `end_places` treats sixteen places at once: it takes the least of bytes, and an
// Option there is a branch. What it hands out is an Option.
pub const NO_PLACE: u8 = 255;

fn padded(side: &[u8; LONGEST_SIDE]) -> [u8; PADDED_SIDE]
    ensures places { (i : ℕ) → i < longest_side → get_or result i 0 ≡ get_or side.now i 0 }
    ensures past { (i : ℕ) → longest_side ≤ i → get_or result i 0 ≡ 0 }
{
    let mut long = [0; PADDED_SIDE];
    long[..LONGEST_SIDE].copy_from_slice(side);
    long
}

// The places of a padded side.
fn cut(long: &[u8; PADDED_SIDE]) -> [u8; LONGEST_SIDE]
    ensures { result ≡ take longest_side long.now }
{
    let mut side = [0; LONGEST_SIDE];
    side.copy_from_slice(&long[..LONGEST_SIDE]);
    side
}

pub fn side_holds(side: &[u8; LONGEST_SIDE], net: u8) -> bool
    requires { 1 ≤ net }
    ensures { result ≡ some (λ a. eqb (entry side.now a) net) longest_side }
{
    let long = padded(side);
    let mut found = false;
    for pin in &long {
        found |= *pin == net;
    }
    found
}

// Takes a net away from a padded side.
fn clear(long: &mut [u8; PADDED_SIDE], net: u8)
    ensures { (i : ℕ) → i < longest_side → get_or long.new i 0 ≡ cond (eqb (get_or long.old i 0) net) 0 (get_or long.old i 0) }
{
    for pin in long.iter_mut() {
        *pin = if *pin == net { 0 } else { *pin };
    }
}

// The side without the nets of a list.
pub fn side_without(side: &[u8; LONGEST_SIDE], nets: &[usize]) -> [u8; LONGEST_SIDE]
    requires { NetNumbers nets.now }
    ensures { (a : ℕ) → In a longest_side → entry result a
        ≡ cond (listed nets.now (entry side.now a)) 0 (entry side.now a) }
{
    let mut long = padded(side);
    for net in nets {
        clear(&mut long, *net as u8);
    }
    cut(&long)
}

// Where the net stands on two sides across from each other.
pub fn end_places(a: &[u8; LONGEST_SIDE], b: &[u8; LONGEST_SIDE], net: u8) -> EndPlaces
    requires { 1 ≤ net }
    ensures ends { Ends (entry a.now) (entry b.now) net (first_in result.span) (last_in result.span) result.one result.two }
    ensures a_place { IfSome result.span (λ s. s.first < no_place) }
{
    let here = padded(a);
    let there = padded(b);
    let mut first = NO_PLACE;
    let mut last: u8 = 0;
    let mut one = false;
    let mut two = false;
    for i in 0..PADDED_SIDE {
        let place = i as u8 + 1;
        let on_one = here[i] == net;
        let on_two = there[i] == net;
        let hit = on_one | on_two;
        one |= on_one;
        two |= on_two;
        first = first.min(if hit { place } else { NO_PLACE });
        last = last.max(if hit { place } else { 0 });
    }
    let span = if first == NO_PLACE {
        None
    } else {
        Some(Span { first, last })
    };
    EndPlaces { span, one, two }
}
