// Turns stored bytes flat, as a ticket, and into a ticket, as a flat one: after its bytes a record has the length of the buffer, of two
// bytes. A line for each of the two calls: number, place, length, and every byte of the buffer, which was stained before the call.
#![tactic(auto)]

use records::Records;
use std::io;
use terms::Refusal;

// The bytes of a record after its ticket.
const FIELDS: usize = 2;

const LONGEST_BUFFER: usize = 512;

fn show_byte(rt: &impl Print, b: u8) -> io::Result<()> {
    print!(rt; " {b}")
}

fn show_bytes(rt: &impl Print, buffer: &[u8]) -> io::Result<()> {
    for b in buffer {
        show_byte(rt, *b)?;
    }
    Ok(())
}

// The line of a call.
fn show(rt: &impl Print, r: Result<usize, Refusal>, buffer: &[u8]) -> io::Result<()> {
    records::refusal_fields(rt, records::refusal_told(r))?;
    rt.print(r.unwrap_or(0))?;
    show_bytes(rt, buffer)?;
    println!(rt; "")
}

fn both_ways(rt: &impl Print, bytes: &[u8], buffer: &mut [u8]) -> io::Result<()> {
    records::stain(buffer);
    let flattened = flat::flatten(bytes, buffer);
    show(rt, flattened, buffer)?;
    records::stain(buffer);
    let unflattened = flat::unflatten(bytes, buffer);
    show(rt, unflattened, buffer)
}

fn main(rt: HostRuntime) -> io::Result<()> {
    let mut input = [0u8; records::MOST_INPUT];
    let mut buffer = [0u8; LONGEST_BUFFER];
    let n = records::read_full(&mut rt.stdin(), &mut input)?;
    for record in Records::<FIELDS>::new(&input[..n]) {
        let fields = record.fields;
        let size = records::pair(fields, 0);
        if buffer.len() < size {
            return Ok(());
        }
        both_ways(&rt, record.ticket, &mut buffer[..size])?;
    }
    Ok(())
}
