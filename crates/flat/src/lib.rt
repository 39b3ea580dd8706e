// Tickets turned flat and flat ones turned into tickets. Public calls: flatten, unflatten.
#![tactic(auto)]

ghost use Rattle.std.specs.Prelude.{◌≡◌, ◌+◌, ◌≤◌};
ghost use Rattle.terms.specs.Limits.{longest_side};
ghost use Rattle.grid.specs.Legal.{entry};
ghost use Rattle.problem.specs.Problem.{Good};
ghost use Rattle.ticket_sides.specs.Format.{values_from};
ghost use Rattle.output.specs.Writing.{Wrote};
ghost use Rattle.output.specs.Building.{most_output, Says, Adds};
ghost use Rattle.flat_law.specs.FlatBytes.{flat_bytes_of};
ghost use Rattle.flat_law.specs.Conversion.{ticket_form, flat_form, Converts};

use flat_reader::{end_places, north_places, parse_flat, south_places};
use output::{Output, deliver};
use problem::Problem;
use terms::{LONGEST_SIDE, Refusal};
use ticket_writer::write_ticket;

// The places of a side, empty ones too.
#[tactic(auto, using(crate::proofs::Laws::places_listed))]
fn with_places(out: &mut Output, nets: &[u8; LONGEST_SIDE], places: usize)
    requires { (places ≤ longest_side) × (out.old.used + places ≤ most_output) }
    ensures adds { Adds out.old (values_from (entry nets.now) 1 places) out.new }
    ensures size { out.new.used ≡ out.old.used + places }
{
    out.append(&nets[..places]);
}

// The whole flat ticket: bytes 0 to 2, and then all sides.
#[tactic(auto, unfolding(flat_law::specs::FlatBytes::flat_bytes_of))]
fn flat_of(q: &Problem) -> Output
    requires { Good q.now }
    ensures { Says result (flat_bytes_of q.now) }
{
    let n = grid::column_count(q.n);
    let ends = end_places(q.kind, usize::from(q.byte2));
    let mut out = Output::new();
    out.push(q.kind);
    out.push(n as u8);
    out.push(q.byte2);
    with_places(&mut out, &q.pins.north, north_places(q.kind, n));
    with_places(&mut out, &q.pins.south, south_places(q.kind, n));
    with_places(&mut out, &q.pins.west, ends);
    with_places(&mut out, &q.pins.east, ends);
    out
}

// Public call: the flat ticket that states what the ticket states, or the ticket's refusal, or 19.
pub fn flatten(ticket: &[u8], flat: &mut [u8]) -> Result<usize, Refusal>
    ensures { Converts ticket_form flat_form ticket.now flat.old flat.new result }
{
    let whole = ticket::parse(ticket);
    if whole.refusal.number != 0 {
        return Err(whole.refusal);
    }
    deliver(flat_of(&whole.problem).as_slice(), flat)
}

// Public call: the ticket that states what the flat ticket states, or the flat ticket's refusal, or 19.
pub fn unflatten(flat: &[u8], ticket: &mut [u8]) -> Result<usize, Refusal>
    ensures { Converts flat_form ticket_form flat.now ticket.old ticket.new result }
{
    let whole = parse_flat(flat);
    if whole.refusal.number != 0 {
        return Err(whole.refusal);
    }
    write_ticket(whole.problem, ticket)
}
