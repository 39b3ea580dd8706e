// The problem that a ticket states, apart from the bytes that state it.
#![tactic(auto)]

use grid::Column;
use terms::LONGEST_SIDE;

// The nets of the four sides: place i at index i - 1, 0 where a place is empty.
#[derive(Clone, Copy)]
pub struct Pins {
    pub north: [u8; LONGEST_SIDE],
    pub south: [u8; LONGEST_SIDE],
    pub west: [u8; LONGEST_SIDE],
    pub east: [u8; LONGEST_SIDE],
}

// Byte 2 is a box's width, and the number of trunk layers of a row or a channel; nets is how many nets have pins.
#[derive(Clone, Copy)]
pub struct Problem {
    pub kind: u8,
    pub n: Column,
    pub byte2: u8,
    pub nets: u8,
    pub pins: Pins,
}
