// Two sides across from each other, with what the table of spans tells of the nets along them.
#![tactic(auto)]

ghost use Rattle.std.specs.Prelude.{◌≡◌};
ghost use Rattle.problem.specs.Problem.{Good, width_of};
ghost use Rattle.nets.specs.Tables.{SpansOf};
ghost use Rattle.figures.specs.Crossings.{AlongSides};

use grid::column_count;
use nets::Spans;
use problem::Problem;
use terms::{LONGEST_SIDE, NET_ENTRIES, by_kind};

// Of each net the first and the last place at which one of the two sides holds it, and how many pins it has on the near side, before the
// first place, and on the far side, past the last.
#[derive(Clone, Copy)]
pub struct Along<'a> {
    pub side: &'a [u8; LONGEST_SIDE],
    pub opposite: &'a [u8; LONGEST_SIDE],
    pub first: &'a [u8; NET_ENTRIES],
    pub last: &'a [u8; NET_ENTRIES],
    pub near: &'a [u8; NET_ENTRIES],
    pub far: &'a [u8; NET_ENTRIES],
    pub places: usize,
    ghost held: { AlongSides side.now opposite.now first.now last.now places },
}

impl<'a> Along<'a> {
    // North and south, from west to east. (For our own crates.)
    pub fn columns(q: &'a Problem, spans: &'a Spans) -> Along<'a>
        requires { Good q.now × SpansOf q.now spans.now }
        ensures sides { (result.side.now ≡ q.now.pins.north) × (result.opposite.now ≡ q.now.pins.south) }
        ensures table { (result.first.now ≡ spans.now.columns.first) × (result.last.now ≡ spans.now.columns.last) }
        ensures ends { (result.near.now ≡ spans.now.tracks.one) × (result.far.now ≡ spans.now.tracks.two) }
        ensures places { result.places ≡ q.now.n.0 }
    {
        Along {
            side: &q.pins.north,
            opposite: &q.pins.south,
            first: &spans.columns.first,
            last: &spans.columns.last,
            near: &spans.tracks.one,
            far: &spans.tracks.two,
            places: column_count(q.n),
        }
    }

    // West and east, from south to north. (For our own crates.)
    pub fn tracks(q: &'a Problem, spans: &'a Spans) -> Along<'a>
        requires { Good q.now × SpansOf q.now spans.now }
        ensures sides { (result.side.now ≡ q.now.pins.west) × (result.opposite.now ≡ q.now.pins.east) }
        ensures table { (result.first.now ≡ spans.now.tracks.first) × (result.last.now ≡ spans.now.tracks.last) }
        ensures ends { (result.near.now ≡ spans.now.columns.two) × (result.far.now ≡ spans.now.columns.one) }
        ensures places { result.places ≡ width_of q.now }
    {
        let width = usize::from(q.byte2);
        Along {
            side: &q.pins.west,
            opposite: &q.pins.east,
            first: &spans.tracks.first,
            last: &spans.tracks.last,
            near: &spans.columns.two,
            far: &spans.columns.one,
            places: by_kind(q.kind, 1, 1, 1, width, 1),
        }
    }
}
