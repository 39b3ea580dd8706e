// The pins of a board, as its calls look at them and change them. (For our own crates.)
#![tactic(auto)]

ghost use Rattle.std.specs.Prelude.{◌≡◌, cond, ◌&&◌, [], ℕ, ◌≤◌, ◌<◌, eqb, length, IfOk, IfErr};
ghost use Rattle.counting.specs.Counting.{In};
ghost use Rattle.terms.specs.Limits.{longest_side, largest_net, within};
ghost use Rattle.terms.specs.Kinds.{Side};
ghost use Rattle.grid.specs.Legal.{entry};
ghost use Rattle.problem.specs.Problem.{pins_in, width_of};
ghost use Rattle.board_law.specs.Places.{place_number, place_in};
ghost use Rattle.board_law.specs.Edits.{is_there, is_free, first_wrong, with_net, without_nets};
ghost use Rattle.board_law.specs.Runs.{NetNumbers};

use board_sides::{side_holds, side_without};
use problem::{Pins, Problem};
use terms::{BYTE_VALUES, LONGEST_SIDE, by_kind, is_within};

// The least number on each side but the north, whose numbers begin at 0.
pub const SOUTH_FROM: usize = BYTE_VALUES;

pub const WEST_FROM: usize = 2 * BYTE_VALUES;

pub const EAST_FROM: usize = 3 * BYTE_VALUES;

// Whether the net has a pin.
pub fn holds_net(pins: &Pins, net: u8) -> bool
    requires { 1 ≤ net }
    ensures { result ≡ is_there (pins_in pins.now) net }
{
    side_holds(&pins.north, net)
        | side_holds(&pins.south, net)
        | side_holds(&pins.west, net)
        | side_holds(&pins.east, net)
}

// Whether the place is one of the side's and is empty.
fn is_empty(side: &[u8; LONGEST_SIDE], place: usize, places: usize) -> bool
    requires { places ≤ longest_side }
    ensures { result ≡ (within place places && eqb (entry side.now place) 0) }
{
    is_within(place, places) && side[place - 1] == 0
}

// Whether v is a place of the board, by its kind and shape, that is empty where the pins are these.
fn is_free(q: &Problem, pins: &Pins, v: usize) -> bool
    requires { (q.now.n.0 ≤ longest_side) × (width_of q.now ≤ longest_side) }
    ensures { result ≡ is_free q.now (pins_in pins.now) v }
{
    let n = grid::column_count(q.n);
    let w = by_kind(q.kind, 0, 0, 0, usize::from(q.byte2), 0);
    if v < SOUTH_FROM {
        return is_empty(&pins.north, v, by_kind(q.kind, 0, n, n, n, n));
    }
    if v < WEST_FROM {
        return is_empty(&pins.south, v - SOUTH_FROM, by_kind(q.kind, 0, 0, n, n, n));
    }
    if v < EAST_FROM {
        return is_empty(&pins.west, v - WEST_FROM, w);
    }
    is_empty(&pins.east, v - EAST_FROM, w)
}

// Puts the net at place v.
fn put_net(pins: &mut Pins, v: usize, net: u8)
    requires { In (place_in v) longest_side }
    ensures { (s : Side) (a : ℕ) → In a longest_side
        → pins_in pins.new s a ≡ cond (eqb v (place_number s a)) net (pins_in pins.old s a) }
{
    if v < SOUTH_FROM {
        pins.north[v - 1] = net;
    } else if v < WEST_FROM {
        pins.south[v - SOUTH_FROM - 1] = net;
    } else if v < EAST_FROM {
        pins.west[v - WEST_FROM - 1] = net;
    } else {
        pins.east[v - EAST_FROM - 1] = net;
    }
}

// Puts the net at the places of a list on the board of this kind and shape, or says the first index at which there is no place, or none that
// is free and new. A place that the list has once already is not free any more when it comes again, so one test is enough.
pub fn place_net(q: &Problem, pins: &mut Pins, net: u8, places: &[usize]) -> Result<(), usize>
    requires { (q.now.n.0 ≤ longest_side) × (width_of q.now ≤ longest_side) × In net largest_net }
    ensures refused { IfErr result (λ i. (i ≡ first_wrong (is_free q.now (pins_in pins.old)) [] places.now) × (i < length places.now)) }
    ensures right { IfOk result (λ _. first_wrong (is_free q.now (pins_in pins.old)) [] places.now ≡ length places.now) }
    ensures placed { IfOk result (λ _. (s : Side) (a : ℕ) → In a longest_side
        → pins_in pins.new s a ≡ with_net (pins_in pins.old) net places.now s a) }
{
    for (i, place) in places.iter().enumerate() {
        if !is_free(q, pins, *place) {
            return Err(i);
        }
        put_net(pins, *place, net);
    }
    Ok(())
}

// The pins but those of the nets of a list.
pub fn without_nets(pins: &Pins, nets: &[usize]) -> Pins
    requires { NetNumbers nets.now }
    ensures { (s : Side) (a : ℕ) → In a longest_side → pins_in result s a ≡ without_nets (pins_in pins.now) nets.now s a }
{
    Pins {
        north: side_without(&pins.north, nets),
        south: side_without(&pins.south, nets),
        west: side_without(&pins.west, nets),
        east: side_without(&pins.east, nets),
    }
}
