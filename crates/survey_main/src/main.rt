// The program: reads a ticket from standard input and prints Survey's line. It reads one byte more than the longest ticket has: the first
// LONGEST_TICKET + 1 bytes of any input have the same line as the whole input, however long it is (law `first_line` of proofs/FirstLine).
#![tactic(auto)]

use std::io;
use survey::{LONGEST_LINE, survey_line};
use ticket::LONGEST_TICKET;

fn main(rt: HostRuntime) -> io::Result<()> {
    let mut bytes = [0u8; LONGEST_TICKET + 1];
    let n = records::read_full(&mut rt.stdin(), &mut bytes)?;
    let mut out = [0u8; LONGEST_LINE];
    match survey_line(&bytes[..n], &mut out) {
        Ok(length) | Err(length) => rt.write_all(&out[..length]),
    }
}
