// Lays stored tickets: after its ticket a record has the length of the buffer, of three bytes. A line is Lay's answer, then Check's number
// and place of the wiring, and 1 where the bytes outside it were kept.
#![tactic(auto)]

ghost use Rattle.std.specs.Prelude.{◌≤◌, length};

use records::{Records, STAIN, field, refusal_fields};
use router::LayAnswer;
use std::io;
use terms::Refusal;

// The bytes of a record after its ticket.
const FIELDS: usize = 3;

const LONGEST_BUFFER: usize = 65536;

// Whether no byte from `from` on was written.
fn is_kept(buffer: &[u8], from: usize) -> bool
    requires { from ≤ length buffer.now }
{
    buffer[from..].iter().all(|b| *b == STAIN)
}

fn show_answer(rt: &impl Print, a: LayAnswer) -> io::Result<()> {
    refusal_fields(rt, a.refusal)?;
    field(rt, usize::from(a.kind))?;
    field(rt, grid::column_count(a.n))?;
    field(rt, grid::track_count(a.w))?;
    field(rt, grid::layer_count(a.k))?;
    field(rt, usize::from(a.first))?;
    field(rt, usize::from(a.nets))?;
    field(rt, a.across)?;
    field(rt, a.up)?;
    field(rt, grid::layer_count(a.floor))
}

// How many bytes of the buffer the wiring takes: none after a refusal.
fn taken(a: LayAnswer, most: usize) -> usize
    ensures { result ≤ most }
{
    let n = a.n;
    let w = a.w;
    let k = a.k;
    if !grid::is_grid(n, w, k) {
        return 0;
    }
    let size = grid::points(n, w, k);
    if most < size {
        return 0;
    }
    size
}

// Check's answer to the wiring; 0 and 0 after a refusal.
fn verdict(ticket: &[u8], a: LayAnswer, wiring: &[u8], size: usize, scratch: &mut [u8]) -> Refusal
    requires { size ≤ length wiring.now }
{
    let refusal = a.refusal;
    if refusal.number != 0 {
        return terms::refuse(0, 0);
    }
    checker::check(ticket, a.w, a.k, a.first, &wiring[..size], scratch)
}

fn show(rt: &impl Print, ticket: &[u8], wiring: &mut [u8], scratch: &mut [u8]) -> io::Result<()> {
    records::stain(wiring);
    let a = router::lay(ticket, wiring);
    let size = taken(a, wiring.len());
    show_answer(rt, a)?;
    refusal_fields(rt, verdict(ticket, a, wiring, size, scratch))?;
    records::last_field(rt, usize::from(is_kept(wiring, size)))
}

fn main(rt: HostRuntime) -> io::Result<()> {
    let mut input = [0u8; records::MOST_INPUT];
    let mut wiring = [0u8; LONGEST_BUFFER];
    let mut scratch = [0u8; LONGEST_BUFFER];
    let n = records::read_full(&mut rt.stdin(), &mut input)?;
    for record in Records::<FIELDS>::new(&input[..n]) {
        let fields = record.fields;
        let size = records::triple(fields, 0);
        if wiring.len() < size {
            return Ok(());
        }
        show(&rt, record.ticket, &mut wiring[..size], &mut scratch)?;
    }
    Ok(())
}
