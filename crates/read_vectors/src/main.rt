// Prints what Read answers to each stored ticket: number, place, kind, n, byte 2 and nets.
#![tactic(auto)]

use records::{Records, field, last_field};
use std::io;

fn show(rt: &impl Print, ticket: &[u8]) -> io::Result<()> {
    let a = ticket::read(ticket);
    records::refusal_fields(rt, a.refusal)?;
    field(rt, usize::from(a.kind))?;
    field(rt, grid::column_count(a.n))?;
    field(rt, usize::from(a.byte2))?;
    last_field(rt, usize::from(a.nets))
}

fn main(rt: HostRuntime) -> io::Result<()> {
    let mut buffer = [0u8; records::MOST_INPUT];
    let n = records::read_full(&mut rt.stdin(), &mut buffer)?;
    for record in Records::<0>::new(&buffer[..n]) {
        show(&rt, record.ticket)?;
    }
    Ok(())
}
