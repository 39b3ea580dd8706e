// Prints Check's number and place of each stored ticket and wiring. After its ticket a record has w and k of two bytes, the first direction
// of one, the lengths of scratch and wiring of three, and the wiring.
#![tactic(auto)]

ghost use Rattle.std.specs.Prelude.{length};
ghost use Rattle.std.specs.Iterator.{at_most};

use grid::{Layer, Track};
use records::{pair, triple};
use std::io;

// The bytes between a record's ticket and its wiring.
const FIELDS: usize = 11;

const INPUT: usize = 1500000;

const SCRATCH: usize = 100000;

// What a record asks for.
#[derive(Clone, Copy)]
struct Case<'a> {
    ticket: &'a [u8],
    w: Track,
    k: Layer,
    first: bool,
    scratch: usize,
    wiring: &'a [u8],
}

// The records of an input, up to the first that is not whole.
#[derive(Drop)]
struct Cases<'a> {
    rest: &'a [u8],
}

impl<'a> Iterator for Cases<'a> {
    type Item = Case<'a>;

    ghost remaining = { λ s. at_most (length s.rest.now) };

    fn next(&mut self) -> Option<Case<'a>> {
        let input = self.rest;
        let cut = records::record_at(input, 0, FIELDS);
        if cut.end == 0 {
            return None;
        }
        let fields = &input[cut.end..];
        let size = triple(fields, 8);
        let after = &fields[FIELDS..];
        if after.len() < size {
            return None;
        }
        self.rest = &after[size..];
        Some(Case {
            ticket: &input[cut.from..cut.end],
            w: Track(pair(fields, 0)),
            k: Layer(pair(fields, 2)),
            first: fields[4] != 0,
            scratch: triple(fields, 5),
            wiring: &after[..size],
        })
    }
}

fn show(rt: &impl Print, case: Case, scratch: &mut [u8]) -> io::Result<()> {
    let a = checker::check(
        case.ticket,
        case.w,
        case.k,
        case.first,
        case.wiring,
        scratch,
    );
    records::field(rt, usize::from(a.number))?;
    records::last_field(rt, a.place)
}

fn input() -> [u8; INPUT] {
    [0; INPUT]
}

fn main(rt: HostRuntime) -> io::Result<()> {
    let mut buffer = input();
    let mut room = [0u8; SCRATCH];
    let n = records::read_full(&mut rt.stdin(), &mut buffer)?;
    let cases = Cases { rest: &buffer[..n] };
    for case in cases {
        if room.len() < case.scratch {
            return Ok(());
        }
        show(&rt, case, &mut room[..case.scratch])?;
    }
    Ok(())
}
