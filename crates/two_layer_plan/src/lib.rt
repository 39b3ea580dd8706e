// Which operations a two-layer channel gets. A table has an entry for each byte, so that every net number has one; a row has an entry for
// each column and one for 0, which is none.
// All functions here are for our own crates.
#![tactic(auto)]

ghost use Rattle.std.specs.Prelude.{◌≡◌, ℕ, ◌≤◌, Bool, get_or, IfSome};
ghost use Rattle.counting.specs.Counting.{In, least};
ghost use Rattle.terms.specs.Limits.{longest_side};
ghost use Rattle.grid.specs.Legal.{entry};
ghost use Rattle.nets.specs.Tables.{pin_count_to, NetTable};
ghost use Rattle.two_layer_law.specs.Cuts.{Same};
ghost use Rattle.two_layer_law.specs.Moves.{ready, MoveState, steps, moves_of, most_moves};
ghost use Rattle.two_layer_cuts.specs.Rows.{operations_in, ops_of, item, Row};
ghost use Rattle.two_layer_plan.specs.States.{state_of, Agree, leads_solid, LeastFound, Unblocked, Next};
ghost use Rattle.two_layer_plan.specs.Plan.{Planned};

use grid::{Column, column_count};
use nets::Spans;
use problem::Pins;
use terms::BYTE_VALUES;
use two_layer_cuts::{COLUMN_ENTRIES, Operation, Operations, cut_after};
use two_layer_gather::{firsts, gather_side, leads};

// The operations of a channel: nets of several north pins are gathered, nets are moved, nets of several south pins are gathered, which is
// drawn from the south upwards. A solid channel has no moves: no wiring of it is legal.
#[derive(Clone, Copy)]
pub struct Plan {
    pub norths: Operations,
    pub moves: Option<Operations>,
    pub souths: Operations,
}

// Enough for every channel.
const MOST_MOVES: usize = 135;

// In both rows every column has a net, and not the same everywhere.
fn is_solid(cut: &[u8; COLUMN_ENTRIES], goal: &[u8; COLUMN_ENTRIES], n: usize) -> bool
    requires { n ≤ longest_side }
    ensures { result ≡ leads_solid (item cut.now) (item goal.now) n }
{
    let mut full = true;
    let mut crooked = false;
    for i in 0..n {
        let c = i + 1;
        full &= (1 <= cut[c]) & (1 <= goal[c]);
        crooked |= cut[c] != goal[c];
    }
    full & crooked
}

// The first column at which the net that it is to get and the net that it holds pass the test.
fn first_column<F: Fn(u8, u8) -> bool>(
    goal: &[u8; COLUMN_ENTRIES],
    cut: &[u8; COLUMN_ENTRIES],
    n: usize,
    test: F,
) -> Option<usize>
    requires n_fits { n ≤ longest_side }
    requires callable { F.IsAlwaysCallable test }
    ensures within { IfSome result (λ c. In c n) }
    ensures first { (t : ℕ → Bool) → ((c : ℕ) (b : Bool) → F.post test (item goal.now c) (item cut.now c) b → b ≡ t c)
        → LeastFound t n result }
{
    for i in 0..n {
        let c = i + 1;
        if test(goal[c], cut[c]) {
            return Some(c);
        }
    }
    None
}

// A net, and the column that it is moved to.
// Kept: column 0 for none, as the definition `moved_to` of two_layer_law counts columns.
#[derive(Clone, Copy)]
struct Move {
    net: u8,
    to: u8,
}

// The next move, where no column is ready: a net is moved out of the way.
fn unblock(goal: &[u8; COLUMN_ENTRIES], cut: &[u8; COLUMN_ENTRIES], n: usize) -> Option<Move>
    requires n_fits { n ≤ longest_side }
    requires none_ready { least (ready (item goal.now) (item cut.now)) n ≡ 0 }
    ensures { Unblocked n (item goal.now) (item cut.now) result }
{
    let blocked = first_column(goal, cut, n, |wanted, held| wanted != 0 && held != wanted)?;
    let to = first_column(goal, cut, n, |wanted, held| wanted == 0 && held == 0).unwrap_or(0);
    Some(Move {
        net: cut[blocked],
        to: to as u8,
    })
}

// The next move; `left` is the column that the last move left.
fn next_move(
    goal: &[u8; COLUMN_ENTRIES],
    cut: &[u8; COLUMN_ENTRIES],
    left: usize,
    n: usize,
) -> Option<Move>
    requires { (n ≤ longest_side) × (left ≤ n) × (get_or goal.now 0 0 ≡ 0) }
    ensures { (at : ℕ → ℕ) → Next n (item goal.now) (item cut.now) at left result }
{
    if goal[left] != 0 && cut[left] == 0 {
        return Some(Move {
            net: goal[left],
            to: left as u8,
        });
    }
    match first_column(goal, cut, n, |wanted, held| wanted != 0 && held == 0) {
        Some(first) => Some(Move {
            net: goal[first],
            to: first as u8,
        }),
        None => unblock(goal, cut, n),
    }
}

// The moves from the row `cut`, in which each net is in its column `at`, to `goal`.
fn find_moves(
    goal: &[u8; COLUMN_ENTRIES],
    mut cut: [u8; COLUMN_ENTRIES],
    mut at: [u8; BYTE_VALUES],
    n: usize,
) -> Operations
    requires { (n ≤ longest_side) × (get_or goal.now 0 0 ≡ 0) × ((m : ℕ) → get_or at m 0 ≤ n) }
    ensures { (goal' : ℕ → ℕ) (st : MoveState) → Row n goal' goal.now → Agree n st (state_of cut at 0) →
        Same (ops_of (operations_in result)) (moves_of n goal' st (steps n goal' st most_moves)) }
{
    let mut made = Operations::new();
    // Kept: column 0 before the first move, as the definition `start_of` of two_layer_law has it.
    let mut left = 0;
    for _ in 0..MOST_MOVES {
        let Some(Move { net, to }) = next_move(goal, &cut, left, n) else {
            break;
        };
        let x = usize::from(net);
        let from = at[x];
        made.push(Operation {
            net,
            to,
            low: from.min(to),
            high: from.max(to),
        });
        left = usize::from(from);
        at[x] = to;
        cut = cut_after(&cut, net, to);
    }
    made
}

// ---- the plan

// The operations of a channel of length n: in a solid one no net is moved.
pub fn find_plan(pins: &Pins, spans: &Spans, n: Column) -> Plan
    requires { (n.0 ≤ longest_side) × NetTable (pin_count_to (entry pins.now.north) n.0) spans.now.columns.one ×
        NetTable (pin_count_to (entry pins.now.south) n.0) spans.now.columns.two }
    ensures { Planned (entry pins.now.north) (entry pins.now.south) n.0 result }
{
    let columns = column_count(n);
    let first = firsts(&pins.north, columns);
    let other = firsts(&pins.south, columns);
    let norths = gather_side(&pins.north, &spans.columns.one, &first, &other, columns);
    let souths = gather_side(&pins.south, &spans.columns.two, &other, &first, columns);
    let cut = leads(&pins.north, &first, &other, columns);
    let goal = leads(&pins.south, &other, &first, columns);
    if is_solid(&cut, &goal, columns) {
        return Plan {
            norths,
            moves: None,
            souths,
        };
    }
    let moves = find_moves(&goal, cut, first, columns);
    Plan {
        norths,
        moves: Some(moves),
        souths,
    }
}
