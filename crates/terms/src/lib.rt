// What every crate stands on: the limits, the kinds of ticket, refusals, and small functions of numbers.
#![tactic(auto)]

ghost use Rattle.std.specs.Prelude.{◌≡◌, ◌&&◌, ◌||◌, ◌≤◌, ◌<◌, min, max};
ghost use Rattle.terms.specs.Limits.{longest_side, byte_values, table_sum, within};
ghost use Rattle.counting.specs.Counting.{In, bit, ceil};
ghost use Rattle.terms.specs.Kinds.{by_kind, is_kind, largest_side_map, largest_byte2, widest};
ghost use Rattle.terms.specs.Refusals.{refusal};

// ---- limits

pub const LONGEST_SIDE: usize = 90;

pub const WIDEST_CHANNEL: usize = 90;

pub const WIDEST_GRID: usize = 157;

pub const MOST_LAYERS: usize = 255;

pub const MOST_TRUNK_LAYERS: usize = 8;

pub const LARGEST_NET: usize = 180;

pub const BYTE_VALUES: usize = 256;

// The entries of a table with one for each net and one for 0.
pub const NET_ENTRIES: usize = LARGEST_NET + 1;

// Whether a is one of 1 to top.
pub fn is_within(a: usize, top: usize) -> bool
    ensures { result ≡ within a top }
{
    if a < 1 {
        return false;
    }
    a <= top
}

// ---- refusals

// A refusal's number and place; 0 and 0 where nothing is refused.
#[derive(Clone, Copy)]
pub struct Refusal {
    pub number: u8,
    pub place: usize,
}

pub fn refuse(number: u8, place: usize) -> Refusal
    ensures { result ≡ refusal number place }
{
    Refusal { number, place }
}

// ---- kinds

pub const ROW: u8 = 1;

pub const CHANNEL: u8 = 2;

pub const BOX: u8 = 3;

pub const TWO_LAYER: u8 = 4;

// What stands in the kind's line of a column of the kind table; `none` for a number that is no kind.
pub fn by_kind(
    kind: u8,
    none: usize,
    rows: usize,
    channels: usize,
    boxes: usize,
    twos: usize,
) -> usize
    ensures { result ≡ by_kind kind none rows channels boxes twos }
{
    if kind == ROW {
        return rows;
    }
    if kind == CHANNEL {
        return channels;
    }
    if kind == BOX {
        return boxes;
    }
    if kind == TWO_LAYER {
        return twos;
    }
    none
}

pub fn is_kind(kind: u8) -> bool
    ensures { result ≡ is_kind kind }
{
    by_kind(kind, 0, 1, 1, 1, 1) == 1
}

pub fn largest_side_map(kind: u8) -> usize
    ensures { result ≡ largest_side_map kind }
{
    by_kind(kind, 0, 1, 3, 15, 3)
}

pub fn largest_byte2(kind: u8) -> usize
    ensures { result ≡ largest_byte2 kind }
{
    by_kind(
        kind,
        0,
        MOST_TRUNK_LAYERS,
        MOST_TRUNK_LAYERS,
        LONGEST_SIDE,
        1,
    )
}

pub fn widest(kind: u8) -> usize
    ensures { result ≡ widest kind }
{
    by_kind(
        kind,
        0,
        WIDEST_CHANNEL,
        WIDEST_CHANNEL,
        LONGEST_SIDE,
        WIDEST_GRID,
    )
}

// ---- small functions of numbers

pub fn wide(x: u8) -> usize
    ensures { result ≡ x }
{
    x as usize
}

// A byte as the place of its entry in a table of all bytes.
pub fn entry_of(x: u8) -> usize
    ensures { (result ≡ x) × (result < byte_values) }
{
    x as usize
}

pub fn both(a: bool, b: bool) -> bool
    ensures { result ≡ (a && b) }
{
    if a { b } else { false }
}

pub fn either(a: bool, b: bool) -> bool
    ensures { result ≡ (a || b) }
{
    if a { true } else { b }
}

// 1 for yes, 0 for no.
pub fn one_if(b: bool) -> usize
    ensures { (result ≡ bit b) × (result ≤ 1) }
{
    if b { 1 } else { 0 }
}

pub fn smaller(a: usize, b: usize) -> usize
    ensures { result ≡ min a b }
{
    if a < b { a } else { b }
}

pub fn larger(a: usize, b: usize) -> usize
    ensures { result ≡ max a b }
{
    if a < b { b } else { a }
}

// The same of bytes.
pub fn smaller_byte(a: u8, b: u8) -> u8
    ensures { result ≡ min a b }
{
    if a < b { a } else { b }
}

pub fn larger_byte(a: u8, b: u8) -> u8
    ensures { result ≡ max a b }
{
    if a < b { b } else { a }
}

// a/b rounded up. (For our own crates.)
pub fn rounded_up(a: usize, b: usize) -> usize
    requires { (a ≤ table_sum) × (In b longest_side) }
    ensures { (result ≡ ceil a b) × (result ≤ a) }
{
    (a + (b - 1)) / b
}
