// Prints Survey's line of each stored ticket.
#![tactic(auto)]

use records::Records;
use std::io;
use survey::{LONGEST_LINE, survey_line};

fn show(rt: &impl Print, ticket: &[u8]) -> io::Result<()> {
    let mut out = [0u8; LONGEST_LINE];
    match survey_line(ticket, &mut out) {
        Ok(length) | Err(length) => rt.write_all(&out[..length]),
    }
}

fn main(rt: HostRuntime) -> io::Result<()> {
    let mut buffer = [0u8; records::MOST_INPUT];
    let n = records::read_full(&mut rt.stdin(), &mut buffer)?;
    for record in Records::<0>::new(&buffer[..n]) {
        show(&rt, record.ticket)?;
    }
    Ok(())
}
