// What a two-layer channel is planned and drawn from: lists of operations; cuts as arrays, with an entry for each column and one for 0,
// which is none. All functions here are for our own crates.
#![tactic(auto)]

ghost use Rattle.std.specs.Prelude.{◌≤◌};
ghost use Rattle.terms.specs.Limits.{longest_side};
ghost use Rattle.grid.specs.Legal.{entry};
ghost use Rattle.two_layer_law.specs.Cuts.{cut_after};
ghost use Rattle.two_layer_cuts.specs.Rows.{item, Row};

use terms::LONGEST_SIDE;

mod list;

pub use list::Operations;

// A net, the column that it is brought to, and the ends of its trunk.
// Kept: column 0 for none, as the definition `Ops` of two_layer_law counts columns, so that drawing has no branch for it.
#[derive(Clone, Copy, Debug, Default, PartialEq, Eq)]
pub struct Operation {
    pub net: u8,
    pub to: u8,
    pub low: u8,
    pub high: u8,
}

pub const COLUMN_ENTRIES: usize = LONGEST_SIDE + 1;

// A side's pins as a cut.
pub fn cut_of(side: &[u8; LONGEST_SIDE]) -> [u8; COLUMN_ENTRIES]
    ensures { Row longest_side (entry side.now) result }
{
    let mut cut = [0; COLUMN_ENTRIES];
    cut[1..].copy_from_slice(side);
    cut
}

// The cut once net x is in column t alone. Column t is set after the loop, so that the loop treats all columns alike, many at once.
pub fn cut_after(cut: &[u8; COLUMN_ENTRIES], x: u8, t: u8) -> [u8; COLUMN_ENTRIES]
    requires { t ≤ longest_side }
    ensures { Row longest_side (cut_after x t (item cut.now)) result }
{
    let mut next = [0; COLUMN_ENTRIES];
    for c in 0..COLUMN_ENTRIES {
        let net = cut[c];
        next[c] = if net == x { 0 } else { net };
    }
    next[usize::from(t)] = x;
    next
}
