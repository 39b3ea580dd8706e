// Prints the answer to each stored ticket: number, place, floor and edge floor.
#![tactic(auto)]

use records::{Records, field, last_field};
use std::io;

fn show(rt: &impl Print, ticket: &[u8]) -> io::Result<()> {
    let a = edge_floor::edge_floor(ticket);
    records::refusal_fields(rt, a.refusal)?;
    field(rt, grid::layer_count(a.floor))?;
    last_field(rt, grid::layer_count(a.edge))
}

fn main(rt: HostRuntime) -> io::Result<()> {
    let mut buffer = [0u8; records::MOST_INPUT];
    let n = records::read_full(&mut rt.stdin(), &mut buffer)?;
    for record in Records::<0>::new(&buffer[..n]) {
        show(&rt, record.ticket)?;
    }
    Ok(())
}
