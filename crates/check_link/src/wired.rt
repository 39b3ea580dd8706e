// A wiring with its pins, of which all that checks it reads every part.
#![tactic(auto)]

ghost use Rattle.std.specs.Prelude.{ℕ, ◌≡◌, ◌*◌, ◌<◌, length};
ghost use Rattle.grid.specs.Grid.{grid_of};
ghost use Rattle.terms.specs.Limits.{byte_values};
ghost use Rattle.check_link.specs.Marks.{at};
ghost use Rattle.check_link.specs.Edges.{Shape};

use grid::Frame;
use terms::{LONGEST_SIDE, WIDEST_GRID};

// The length of the pin list.
pub const PIN_PLACES: usize = 2 * LONGEST_SIDE + 2 * WIDEST_GRID;

// The pin list, the points in the buffer's order, and the grid that they are on.
#[derive(Clone, Copy)]
pub struct Wired<'a> {
    pub pins: &'a [u8; PIN_PLACES],
    pub points: &'a [u8],
    pub frame: Frame,
    ghost shape: { Shape (grid_of frame) },
    ghost bytes: { (q : ℕ) → at points.now q < byte_values },
    ghost size: { length points.now ≡ frame.n.0 * frame.w.0 * frame.k.0 },
}
