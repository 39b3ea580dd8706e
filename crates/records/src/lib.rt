// What the programs share: their input, read up to a limit and cut into records, the numbers that stand in it, the fields of the lines
// that they print, and a hash of what a call wrote.
#![tactic(auto)]

ghost use Rattle.std.specs.Prelude.{ℕ, ◌+◌, ◌^◌, ◌≤◌, ◌<◌, ◌≡◌, length, get_or, take, IfOk, IfErr, MatchOption};
ghost use Rattle.std.specs.Io.{ReadsAtMost};
ghost use Rattle.std.specs.Iterator.{at_most};
ghost use Rattle.std.specs.Io.KnownBytes.{Consumes, IsAtEnd};
ghost use Rattle.terms.specs.Limits.{byte_values};
ghost use Rattle.records.specs.Records.{number_at, record_at, Cut, Asked, HoldsWhatWasRead, refusal_told};

use std::io;
use std::io::Read;
use terms::{Refusal, refuse};

// The most bytes of input that a program reads, where it says no other number.
pub const MOST_INPUT: usize = 65536;

// Reads until the buffer is full or the input ends, and answers how many bytes it put at the buffer's start. What comes after a full
// buffer is not read. An error is that of a read: what was read before it stands at the buffer's start. (For our own crates.)
pub fn read_full<R: Read>(input: &mut R, buffer: &mut [u8]) -> io::Result<usize>
    ensures inside { ReadsAtMost result buffer.new }
    ensures bytes { IfOk result (λ n. Consumes (R.remaining input.old) (R.remaining input.new) (take n buffer.new)) }
    ensures end { IfOk result (λ n. n < length buffer.new → IsAtEnd (R.remaining input.new)) }
    ensures failed { IfErr result (λ _. HoldsWhatWasRead (R.remaining input.old) (R.remaining input.new) buffer.new) }
{
    let mut done = 0;
    // Kept: a read says how many bytes it gave, so that no index is counted here.
    while done < buffer.len() {
        let count = input.read(&mut buffer[done..])?;
        if count == 0 {
            return Ok(done);
        }
        done += count;
    }
    Ok(done)
}

// Where a record's ticket stands: from byte `from` to the byte before `end`.
#[derive(Clone, Copy)]
pub struct Record {
    pub from: usize,
    pub end: usize,
}

// Kept: docs/DECISIONS.md names `pair`, `triple` and `eight`, and one function of them all would be a loop where each is a line.
// The number of two bytes at `at`. (For our own crates.)
pub fn pair(s: &[u8], at: usize) -> usize
    requires { at + 2 ≤ length s.now }
    ensures { (result ≡ number_at s.now at 2) × (result < byte_values ^ 2) }
{
    usize::from(u16::from_le_bytes([s[at], s[at + 1]]))
}

// The number of three bytes at `at`. (For our own crates.)
pub fn triple(s: &[u8], at: usize) -> usize
    requires { at + 3 ≤ length s.now }
    ensures { (result ≡ number_at s.now at 3) × (result < byte_values ^ 3) }
{
    u32::from_le_bytes([s[at], s[at + 1], s[at + 2], 0]) as usize
}

// The number of eight bytes at `at`. (For our own crates.)
pub fn eight(s: &[u8], at: usize) -> usize
    requires { at + 8 ≤ length s.now }
    ensures { result ≡ number_at s.now at 8 }
{
    usize::from_le_bytes([
        s[at],
        s[at + 1],
        s[at + 2],
        s[at + 3],
        s[at + 4],
        s[at + 5],
        s[at + 6],
        s[at + 7],
    ])
}

// The record that starts at `at` and has `more` bytes after its ticket; where it is not whole, an empty one that ends at `at`.
// (For our own crates.)
pub fn record_at(s: &[u8], at: usize, more: usize) -> Record
    requires { at ≤ length s.now }
    ensures { Cut s.now at more result }
{
    let none = Record { from: at, end: at };
    if s.len() - at < 2 {
        return none;
    }
    let size = pair(s, at);
    let from = at + 2;
    if s.len() - from < size {
        return none;
    }
    let end = from + size;
    if s.len() - end < more {
        return none;
    }
    Record { from, end }
}

// What stands in a record: its ticket, and the bytes after it that say what the program asks for.
#[derive(Clone, Copy)]
pub struct Request<'a, const MORE: usize> {
    pub ticket: &'a [u8],
    pub fields: &'a [u8; MORE],
}

// The records of an input, up to the first that is not whole, each with MORE bytes after its ticket.
#[derive(Clone, Copy)]
pub struct Records<'a, const MORE: usize> {
    rest: &'a [u8],
}

impl<'a, const MORE: usize> Records<'a, MORE> {
    pub fn new(input: &'a [u8]) -> Self
        ensures { result.rest.now ≡ input.now }
    {
        Records { rest: input }
    }
}

impl<'a, const MORE: usize> Iterator for Records<'a, MORE> {
    type Item = Request<'a, MORE>;

    ghost next_gives = { λ s r t. MatchOption r ((record_at s.rest.now 0 MORE).end ≡ 0)
        (λ q. Asked s.rest.now MORE (record_at s.rest.now 0 MORE) q.ticket.now q.fields.now t.rest.now) };

    ghost remaining = { λ s. at_most (length s.rest.now) };

    fn next(&mut self) -> Option<Request<'a, MORE>> {
        let input = self.rest;
        let cut = record_at(input, 0, MORE);
        if cut.end == 0 {
            return None;
        }
        let (fields, rest) = input[cut.end..].split_first_chunk::<MORE>()?;
        self.rest = rest;
        let ticket = &input[cut.from..cut.end];
        Some(Request { ticket, fields })
    }
}

pub fn field(rt: &impl Print, x: usize) -> io::Result<()> {
    print!(rt; "{x} ")
}

// The last field of a line.
pub fn last_field(rt: &impl Print, x: usize) -> io::Result<()> {
    println!(rt; "{x}")
}

// A refusal's number and place as the fields of a line that goes on.
pub fn refusal_fields(rt: &impl Print, r: Refusal) -> io::Result<()> {
    field(rt, usize::from(r.number))?;
    field(rt, r.place)
}

// The refusal that a call's outcome tells: 0 and 0 where it is not refused.
pub fn refusal_told(r: Result<usize, Refusal>) -> Refusal
    ensures { result ≡ refusal_told r }
{
    match r {
        Ok(_) => refuse(0, 0),
        Err(refusal) => refusal,
    }
}

// What a buffer holds before a call writes it.
pub const STAIN: u8 = 170;

pub fn stain(buffer: &mut [u8])
    ensures { (i : ℕ) → i < length buffer.old → get_or buffer.new i 0 ≡ 170 }
{
    buffer.fill(STAIN);
}

// A hash is a remainder by MODULUS; at each byte the hash so far is taken FACTOR times.
const MODULUS: usize = 1000003;

const FACTOR: usize = 31;

// The hash goes on from `from` over the bytes. (For our own crates.)
pub fn hash(bytes: &[u8], from: usize) -> usize
    requires { from < 1000003 }
    ensures { result < 1000003 }
{
    let mut h = from;
    for b in bytes {
        h = (h * FACTOR + usize::from(*b) + 1) % MODULUS;
    }
    h
}
