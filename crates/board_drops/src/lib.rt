// A list of nets that a board drops: the first that is absent, its first repeat, and the counts without its nets. (For our own crates.)
#![tactic(auto)]

ghost use Rattle.std.specs.Prelude.{◌≡◌, ◌||◌, ◌≤◌, ◌<◌, length, IfOk, IfErr, MatchOption};
ghost use Rattle.terms.specs.Limits.{longest_side};
ghost use Rattle.problem.specs.Problem.{pins_in, width_of};
ghost use Rattle.board_law.specs.Edits.{is_there, first_absent, first_repeat, Sound};
ghost use Rattle.board_law.specs.Runs.{NetNumbers, TakenAway};

use board_counts::{COUNT_ENTRIES, ONE_FEWER, box_width, recount};
use board_sides::{EndPlaces, end_places};
use problem::Problem;
use terms::{LARGEST_NET, is_within};

// Whether a net that stands so on two sides across from each other and so on the other two is there.
fn has_place(along: EndPlaces, ends: EndPlaces) -> bool
    ensures { result ≡ (((along.one || along.two) || ends.one) || ends.two) }
{
    along.one | along.two | ends.one | ends.two
}

// Takes each net of a list away from the counts, or says the first index at which there is no net that is there. The pins stay as they are
// meanwhile: where a net stands does not depend on the others.
pub fn counts_without(
    q: &Problem,
    columns: &mut [u8; COUNT_ENTRIES],
    tracks: &mut [u8; COUNT_ENTRIES],
    nets: &[usize],
) -> Result<(), usize>
    requires { (q.now.n.0 ≤ longest_side) × (width_of q.now ≤ longest_side) }
    ensures absent { IfErr result (λ i. (i ≡ first_absent (is_there (pins_in q.now.pins)) nets.now) × (i < length nets.now)) }
    ensures there { IfOk result (λ _. first_absent (is_there (pins_in q.now.pins)) nets.now ≡ length nets.now) }
    ensures counts { IfOk result (λ _. first_repeat nets.now ≡ length nets.now → Sound q.now
        → TakenAway q.now nets.now columns.old tracks.old columns.new tracks.new) }
{
    let n = grid::column_count(q.n) as u8;
    let w = box_width(q);
    for (i, net) in nets.iter().enumerate() {
        if !is_within(*net, LARGEST_NET) {
            return Err(i);
        }
        let along = end_places(&q.pins.south, &q.pins.north, *net as u8);
        let ends = end_places(&q.pins.west, &q.pins.east, *net as u8);
        if !has_place(along, ends) {
            return Err(i);
        }
        recount(columns, along, ends, n, ONE_FEWER);
        recount(tracks, ends, along, w, ONE_FEWER);
    }
    Ok(())
}

// The first index of a list of nets at which there is one of the earlier ones.
pub fn first_repeat(nets: &[usize]) -> Option<usize>
    requires { NetNumbers nets.now }
    ensures { MatchOption result (first_repeat nets.now ≡ length nets.now) (λ i. (i ≡ first_repeat nets.now) × (i < length nets.now)) }
{
    let mut seen = [false; LARGEST_NET + 1];
    for (i, net) in nets.iter().enumerate() {
        if seen[*net] {
            return Some(i);
        }
        seen[*net] = true;
    }
    None
}
