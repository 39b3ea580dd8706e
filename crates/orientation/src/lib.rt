// The eight orientations of a box, and the pin lookup: an orientation, a side and a place of the turned or mirrored box give the ticket's
// own side and place. The side does not depend on the place, so it is looked up once for all places of a side. Nothing is copied.
// All functions here are for our own crates.
#![tactic(auto)]

ghost use Rattle.std.specs.Prelude.{◌≡◌, cond, ◌≤◌, length};
ghost use Rattle.counting.specs.Counting.{In};
ghost use Rattle.terms.specs.Limits.{longest_side};
ghost use Rattle.grid.specs.Legal.{entry};
ghost use Rattle.orientation.specs.Lookup.{diagonal, mirror_side, mirror_order, own_place, by_side};
ghost use Rattle.orientation.specs.Code.{side_named, orientation_of, LooksUp};

#[derive(Clone, Copy)]
pub enum Side {
    North,
    South,
    West,
    East,
}

// One value for each side.
#[derive(Clone, Copy)]
pub struct Sides<T> {
    pub north: T,
    pub south: T,
    pub west: T,
    pub east: T,
}

impl<T: Copy> Sides<T> {
    // The value of a side.
    pub fn on(self, side: Side) -> T
        ensures { result ≡ by_side self.north self.south self.west self.east (side_named side) }
    {
        match side {
            Side::North => self.north,
            Side::South => self.south,
            Side::West => self.west,
            Side::East => self.east,
        }
    }
}

// A box may be turned, its columns reversed and its tracks reversed.
#[derive(Clone, Copy)]
pub struct Orientation {
    pub turned: bool,
    pub columns_reversed: bool,
    pub tracks_reversed: bool,
}

// A side of the ticket, and whether its places run in reverse.
#[derive(Clone, Copy)]
pub struct OwnSide {
    pub side: Side,
    pub reversed: bool,
}

// The side that s is in the turn.
fn turn_side(s: Side) -> Side
    ensures { side_named result ≡ diagonal (side_named s) }
{
    match s {
        Side::North => Side::East,
        Side::South => Side::West,
        Side::West => Side::South,
        Side::East => Side::North,
    }
}

// The side that s is in the mirror: reversed columns exchange west and east, reversed tracks south and north.
fn mirror_side(columns: bool, tracks: bool, s: Side) -> Side
    ensures { side_named result ≡ mirror_side columns tracks (side_named s) }
{
    match s {
        Side::North => if tracks { Side::South } else { Side::North },
        Side::South => if tracks { Side::North } else { Side::South },
        Side::West => if columns { Side::East } else { Side::West },
        Side::East => if columns { Side::West } else { Side::East },
    }
}

// Whether the places of side s run in reverse in the mirror.
fn is_reversed(columns: bool, tracks: bool, s: Side) -> bool
    ensures { result ≡ mirror_order columns tracks (side_named s) }
{
    match s {
        Side::North | Side::South => columns,
        Side::West | Side::East => tracks,
    }
}

// The pin lookup's side: what side the moved box has of the ticket's own, in all eight orientations.
pub fn own_side(o: Orientation, side: Side) -> OwnSide
    ensures { LooksUp (orientation_of o) (side_named side) (side_named result.side) result.reversed }
{
    let s = if o.turned { turn_side(side) } else { side };
    OwnSide {
        side: mirror_side(o.columns_reversed, o.tracks_reversed, s),
        reversed: is_reversed(o.columns_reversed, o.tracks_reversed, s),
    }
}

// The pin lookup's place, of as many as the side has.
pub fn own_place(reversed: bool, places: usize, place: usize) -> usize
    requires { (places ≤ longest_side) × In place places }
    ensures { (result ≡ own_place reversed places place) × In result places }
{
    if reversed { places + 1 - place } else { place }
}

// What the moved box holds at a place of a side that is the ticket's side `own`, reversed or not.
pub fn pin_at(own: &[u8], reversed: bool, place: usize) -> u8
    requires { (length own.now ≤ longest_side) × In place (length own.now) }
    ensures { result ≡ entry own.now (own_place reversed (length own.now) place) }
{
    own[own_place(reversed, own.len(), place) - 1]
}

// The moved box's pin at the end of the ticket's line, counted from 1: a column that ends at north or south, or a track at west or east.
pub fn pin_on_line(own: &[u8], reversed: bool, line: usize) -> u8
    requires { (length own.now ≤ longest_side) × In line (length own.now) }
    ensures { result ≡ entry own.now line }
{
    pin_at(own, reversed, own_place(reversed, own.len(), line))
}
