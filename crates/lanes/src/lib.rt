// Which nets of a box get a track or a column, and which one each gets: its lane. The rules are those of switchbox_law.
// Every function here is for our own crates.
#![tactic(auto)]

ghost use Rattle.terms.specs.Limits.{longest_side, largest_net, net_entries, byte_values};
ghost use Rattle.std.specs.Prelude.{◌≡◌, false, cond, ◌&&◌, ℕ, ◌+◌, ◌-◌, ◌<◌, ◌≤◌, ltb, eqb, length, get_or};
ghost use Rattle.grid.specs.Legal.{entry, nets};
ghost use Rattle.switchbox_law.specs.Rules.{four, gets, pair, alternate, wanted};
ghost use Rattle.switchbox_law.specs.Drawing.{Lanes};
ghost use Rattle.lanes.specs.Tables.{Nets, tallies, Asked, most_lanes};
ghost use Rattle.lanes.specs.Placing.{Took, Listed, Distinct, Spread};

use orientation::{Sides, pin_on_line};
use terms::{LONGEST_SIDE, NET_ENTRIES};

// No box has more lanes: the track layers have fewer tracks together than its two sides have places.
pub const MOST_LANES: usize = 2 * LONGEST_SIDE;

// How many pins each net has on each side, net by net.
pub type Counts<'a> = Sides<&'a [u8; NET_ENTRIES]>;

// On just two sides that meet in a corner: a and b pins there, c and d on the sides across. Here and below tests have no branch, so that
// the compiler treats many nets at a time.
pub fn is_corner(a: u8, b: u8, c: u8, d: u8) -> bool
    ensures { result ≡ (ltb 0 a && ltb 0 b && eqb c 0 && eqb d 0) }
{
    (0 < a) & (0 < b) & (c == 0) & (d == 0)
}

// Exactly one south and one west pin and no other.
#[tactic(auto, unfolding(switchbox_law::specs::Rules::pair))]
fn is_pair(pins: Sides<u8>) -> bool
    ensures { result ≡ pair (four pins.north pins.south pins.west pins.east) }
{
    (pins.south == 1) & (pins.west == 1) & (pins.north == 0) & (pins.east == 0)
}

// Whether a net with these pins gets a track; `mine`: it does if it is a pair.
#[tactic(auto, unfolding(switchbox_law::specs::Rules::gets, switchbox_law::specs::Rules::corner))]
fn gets_track(pins: Sides<u8>, mine: bool) -> bool
    requires { pins.north + pins.south ≤ byte_values - 1 }
    ensures { result ≡ gets (four pins.north pins.south pins.west pins.east) mine }
{
    let Sides {
        north,
        south,
        west,
        east,
    } = pins;
    let two = (2 <= north + south) & !is_corner(north, east, south, west);
    let single = is_corner(north, west, south, east) & (north == 1);
    two | single | (is_pair(pins) & mine)
}

// The pins of net m.
fn pins_of(counts: Counts, m: usize) -> Sides<u8>
    requires { m < net_entries }
    ensures { (result.north ≡ get_or counts.entry.north.now m 0) × (result.south ≡ get_or counts.entry.south.now m 0) ×
        (result.west ≡ get_or counts.entry.west.now m 0) × (result.east ≡ get_or counts.entry.east.now m 0) }
{
    Sides {
        north: counts.north[m],
        south: counts.south[m],
        west: counts.west[m],
        east: counts.east[m],
    }
}

// Entry m says whether net m is a pair. Here and in who_needs no net waits for another.
fn who_pairs(counts: Counts) -> [bool; NET_ENTRIES]
    ensures { (m : ℕ) → m < net_entries → get_or result m false ≡ pair
        (tallies counts.entry.north.now counts.entry.south.now counts.entry.west.now counts.entry.east.now m) }
{
    let mut out = [false; NET_ENTRIES];
    for m in 0..NET_ENTRIES {
        out[m] = is_pair(pins_of(counts, m));
    }
    out
}

// Entry m says whether it is net m's turn, if the first pair has it where `first`; entry 0 says nothing. Each net waits for the
// one before it, so nothing else is done here.
fn turns(pairs: &[bool; NET_ENTRIES], first: bool) -> [bool; NET_ENTRIES]
    ensures { (m : ℕ) → m < largest_net → get_or result (m + 1) false ≡ alternate first (λ k. get_or pairs.now k false) m }
{
    let mut out = [false; NET_ENTRIES];
    let mut mine = first;
    for m in 1..NET_ENTRIES {
        out[m] = mine;
        mine ^= pairs[m];
    }
    out
}

// Entry m says whether net m gets a track; 0 is no net.
fn who_needs(counts: Counts, first: bool) -> [bool; NET_ENTRIES]
    requires { (m : ℕ) → m < net_entries → get_or counts.north.now m 0 + get_or counts.south.now m 0 ≤ byte_values - 1 }
    ensures { (m : ℕ) → m < net_entries → get_or result m false ≡ wanted first
        (tallies counts.entry.north.now counts.entry.south.now counts.entry.west.now counts.entry.east.now) m }
{
    let turn = turns(&who_pairs(counts), first);
    let mut out = [false; NET_ENTRIES];
    for m in 1..NET_ENTRIES {
        out[m] = gets_track(pins_of(counts, m), turn[m]);
    }
    out
}

// The moved box's pin on line i + 1 of the ticket's side `own`, 0 past its end.
fn net_at(own: &[u8], reversed: bool, i: usize) -> usize
    requires { length own.now ≤ longest_side }
    ensures { result ≡ get_or own.now i 0 }
{
    if i < own.len() {
        return usize::from(pin_on_line(own, reversed, i + 1));
    }
    0
}

// The net m if it takes the lane, else 0.
fn if_taken(taken: bool, m: usize) -> u8
    requires { m ≤ largest_net }
    ensures { result ≡ cond taken m 0 }
{
    if taken { m as u8 } else { 0 }
}

// The first pass: each net that needs a lane and has a place on the side takes the lane beside its first one. `left` are the
// nets that still need a lane, and `spare` lists the lanes that no net took, in order.
// Kept: `spare` has its count beside it, since each lane is written and written over if it is taken: a push would branch on the nets.
fn take_own(
    own: &[u8],
    reversed: bool,
    top: usize,
    left: &mut [bool; NET_ENTRIES],
    spare: &mut [u8; NET_ENTRIES],
) -> [u8; MOST_LANES]
    requires { (top ≤ most_lanes) × Nets own.now × (get_or left.old 0 false ≡ false) × (length left.old ≡ net_entries) ×
        (length spare.old ≡ net_entries) }
    ensures { (n : ℕ) × Took own.now left.old left.new spare.new result n top }
{
    let mut lanes = [0; MOST_LANES];
    let mut count = 0usize;
    for i in 0..top {
        let m = net_at(own, reversed, i);
        let taken = left[m];
        left[m] = false;
        lanes[i] = if_taken(taken, m);
        spare[count] = i as u8;
        count += usize::from(!taken);
    }
    lanes
}

// The nets that are left, in order.
// Kept: the list has its count beside it, since each net is written and written over if it is not left: a push would branch on the nets.
fn list_left(left: &[bool; NET_ENTRIES]) -> [u8; NET_ENTRIES]
    ensures { Listed left.now result (nets (λ m. get_or left.now m false)) }
{
    let mut list = [0; NET_ENTRIES];
    let mut count = 0usize;
    for m in 1..NET_ENTRIES {
        list[count] = m as u8;
        count += usize::from(left[m]);
    }
    list
}

// A sum of bytes, of which the compiler makes many at a time.
fn count_left(left: &[bool; NET_ENTRIES]) -> usize
    ensures { result ≡ nets (λ m. get_or left.now m false) }
{
    let mut count = 0u8;
    for m in 1..NET_ENTRIES {
        count += u8::from(left[m]);
    }
    usize::from(count)
}

// The second pass: the first `count` of the list take the first spare lanes.
fn fill_spare(
    mut lanes: [u8; MOST_LANES],
    spare: &[u8; NET_ENTRIES],
    list: &[u8; NET_ENTRIES],
    count: usize,
) -> [u8; MOST_LANES]
    requires { Distinct spare.now count }
    ensures { Spread lanes spare.now list.now count result }
{
    for p in 0..count {
        lanes[usize::from(spare[p])] = list[p];
    }
    lanes
}

// The tracks of a box, lanes 1 to top, from its counts and from the west side, the ticket's side `own`, reversed or not; the first pair
// gets one where `first`. (With the counts and the south side of the turned box: its columns.) Lanes are the ticket's lines.
// Kept: `first` is the turn that the first pair has, from which the others' turns follow, and no choice of a step: a closure is no plainer.
pub fn lanes(
    counts: Counts,
    own: &[u8],
    reversed: bool,
    top: usize,
    first: bool,
) -> [u8; MOST_LANES]
    requires { Asked counts.north.now counts.south.now counts.west.now counts.east.now own.now top first }
    ensures { Lanes (wanted first (tallies counts.entry.north.now counts.entry.south.now counts.entry.west.now counts.entry.east.now))
        (entry own.now) (length own.now) top (entry result) }
{
    let mut left = who_needs(counts, first);
    let mut spare = [0; NET_ENTRIES];
    let placed = take_own(own, reversed, top, &mut left, &mut spare);
    let list = list_left(&left);
    fill_spare(placed, &spare, &list, count_left(&left))
}
