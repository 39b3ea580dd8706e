// The counts of a board: how many nets each column, or each track, must pass. (For our own crates.)
#![tactic(auto)]

ghost use Rattle.std.specs.Prelude.{◌≡◌, ℕ, ◌+◌, ◌≤◌, ◌&&◌, length, if◌then◌else◌, nat_le, nat_lt};
ghost use Rattle.counting.specs.Counting.{In, most};
ghost use Rattle.terms.specs.Limits.{longest_side, within};
ghost use Rattle.grid.specs.Legal.{entry};
ghost use Rattle.problem.specs.Problem.{width_of};
ghost use Rattle.board_law.specs.Counts.{count_entries};
ghost use Rattle.board_law.specs.Runs.{low_along, high_along, in_run, shifted, box_width, Recounted};
ghost use Rattle.board_sides.specs.Places.{first_in, last_in};

use board_sides::{EndPlaces, NO_PLACE};
use problem::Problem;
use terms::{BOX, is_within};

// Six times sixteen: the compiler treats sixteen entries at once, and where some are left over each by itself.
pub const COUNT_ENTRIES: usize = 96;

// What is added to a count, modulo 256, where a net goes and where one comes.
pub const ONE_FEWER: u8 = 255;

pub const ONE_MORE: u8 = 1;

// Adds step, modulo 256, to the counts of so many places from `from` on.
fn shift(list: &mut [u8; COUNT_ENTRIES], from: u8, size: u8, step: u8)
    requires { (from ≤ longest_side) × (size ≤ longest_side + 1) }
    ensures { (c : ℕ) → In c count_entries → entry list.new c
        ≡ shifted (entry list.old c) (nat_le from c && nat_lt c (from + size)) step }
{
    for i in 0..COUNT_ENTRIES {
        let place = i as u8 + 1;
        // no place before `from` is so near to it, modulo 256
        let inside = place.wrapping_sub(from) < size;
        list[i] = list[i].wrapping_add(if inside { step } else { 0 });
    }
}

// The least place along the grid at which a net stands: `near` says whether it has pins before the first place. Where a span begins past
// every place the sides along the grid have none.
fn low_along(along: EndPlaces, near: bool, past: u8) -> u8
    ensures { result ≡ low_along (first_in along.span) near past }
{
    if near {
        return 0;
    }
    match along.span {
        Some(span) if span.first < NO_PLACE => span.first,
        _ => past,
    }
}

// The greatest: `far` says whether it has pins past the last place.
fn high_along(along: EndPlaces, far: bool, past: u8) -> u8
    ensures { result ≡ high_along (last_in along.span) far past }
{
    if far {
        return past;
    }
    match along.span {
        Some(span) => span.last,
        None => 0,
    }
}

// Of the places 1 to `places`, those that must pass a net from place low to place high: the first of them, and how many they are.
fn run(low: u8, high: u8, places: u8) -> (u8, u8)
    requires { places ≤ longest_side }
    ensures from { result.0 ≤ longest_side }
    ensures size { result.1 ≤ longest_side + 1 }
    ensures run { (c : ℕ) → 1 ≤ c → (nat_le result.0 c && nat_lt c (result.0 + result.1)) ≡ in_run low high places c }
{
    let between = (1 <= low) & (low <= places);
    let single = (low == high) & between;
    let from = low.max(1).min(places);
    let to = from.max(high.max(1).min(places));
    (from, if single { 0 } else { to + 1 - from })
}

// Of the counts of places 1 to `places` along the grid, adds step, modulo 256, to each that must pass a net that has pins: `along` is
// where it stands on the sides along the grid, and `ends` says whether it has pins on the near side and whether on the far one.
// Kept: a step is any byte, since so much was promised.
pub fn recount(
    list: &mut [u8; COUNT_ENTRIES],
    along: EndPlaces,
    ends: EndPlaces,
    places: u8,
    step: u8,
)
    requires { places ≤ longest_side }
    ensures recounted { Recounted (low_along (first_in along.span) ends.one (places + 1))
        (high_along (last_in along.span) ends.two (places + 1)) places step list.old list.new }
    ensures size { length list.new ≡ count_entries }
{
    let past = places + 1;
    let low = low_along(along, ends.one, past);
    let high = high_along(along, ends.two, past);
    let (from, size) = run(low, high, places);
    shift(list, from, size, step);
}

// How many tracks have counts: the width of a box, 0 for the other kinds.
pub fn box_width(q: &Problem) -> u8
    requires { width_of q.now ≤ longest_side }
    ensures { (result ≡ box_width q.now) × (result ≤ longest_side) }
{
    if q.kind == BOX { q.byte2 } else { 0 }
}

// The largest count.
pub fn greatest(list: &[u8; COUNT_ENTRIES]) -> u8
    ensures { result ≡ most (entry list.now) count_entries }
{
    let mut largest: u8 = 0;
    for count in list {
        largest = largest.max(*count);
    }
    largest
}

// The count at a place; 0 where the list has none.
pub fn count_at(list: &[u8; COUNT_ENTRIES], place: usize) -> usize
    ensures { result ≡ (if within place count_entries then entry list.now place else 0) }
{
    if is_within(place, COUNT_ENTRIES) {
        usize::from(list[place - 1])
    } else {
        0
    }
}
