// Writes the hardest box of every shape: a line for each length n has n, the sum of the bytes written for its widths, and a hash of all
// that the stained buffers held then. After these a line for each record of the input, which has a length and a width of eight bytes and
// the buffer's length of two: number, place, length and the hash of the whole buffer.
#![tactic(auto)]

ghost use Rattle.std.specs.Prelude.{◌≤◌, length};

use grid::{Column, Track};
use output::MOST_OUTPUT;
use records::{field, hash, last_field};
use std::io;
use terms::LONGEST_SIDE;

// The bytes of a record.
const FIELDS: usize = 18;

const LONGEST_BUFFER: usize = 512;

// The line of a length.
fn widths(rt: &impl Print, n: usize, buffer: &mut [u8]) -> io::Result<()>
    requires { length buffer.old ≤ 512 }
{
    let mut total = 0;
    let mut h = 0;
    for w in 1..=LONGEST_SIDE {
        records::stain(buffer);
        let r = hardest::hardest_box(Column(n), Track(w), buffer);
        total += r.unwrap_or(0).min(buffer.len());
        h = hash(buffer, h);
    }
    field(rt, n)?;
    field(rt, total)?;
    last_field(rt, h)
}

// The line of a record; the buffer beyond its length is not lent to the call.
fn show(rt: &impl Print, record: &[u8], buffer: &mut [u8]) -> io::Result<()>
    requires { 18 ≤ length record.now }
{
    let n = records::eight(record, 0);
    let w = records::eight(record, 8);
    let size = records::pair(record, 16);
    if buffer.len() < size {
        return Ok(());
    }
    records::stain(buffer);
    let r = hardest::hardest_box(Column(n), Track(w), &mut buffer[..size]);
    records::refusal_fields(rt, records::refusal_told(r))?;
    field(rt, r.unwrap_or(0))?;
    last_field(rt, hash(buffer, 0))
}

fn main(rt: HostRuntime) -> io::Result<()> {
    let mut ticket = [0u8; MOST_OUTPUT];
    for n in 1..=LONGEST_SIDE {
        widths(&rt, n, &mut ticket)?;
    }
    let mut input = [0u8; records::MOST_INPUT];
    let mut buffer = [0u8; LONGEST_BUFFER];
    let n = records::read_full(&mut rt.stdin(), &mut input)?;
    let all = &input[..n];
    for record in all.chunks_exact(FIELDS) {
        show(&rt, record, &mut buffer)?;
    }
    Ok(())
}
