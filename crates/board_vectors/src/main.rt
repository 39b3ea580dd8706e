// Makes the calls on a board that its input says, and prints a line for each. The input is at most 65,536 bytes of records, one after the
// other. A record is a code of one byte; how many numbers follow, of two bytes; and these numbers, of two bytes each, or of eight each
// where bit 7 of the code stands. Every number has its low byte first. The codes, without bit 7, and their numbers:
//
//   1   start: the kind, n, byte 2
//   2   add: the net, then its places (256 × side, 0 north, 1 south, 2 west, 3 east, + the place on it from 1)
//   3   drop: the nets, none or more
//   4   the board's ticket is written into a buffer of so many bytes, at most 512
//
// The run begins with a fresh row, n 1, h 1; a start that is refused leaves one too. Numbers past those that a code takes are passed over.
// The run ends at the input's end, and before a record of another code, one that is cut short, one with fewer numbers than its code takes
// or with more than 512, and one with a buffer of more than 512 bytes.
//
// A line has numbers in base ten, one space between. For codes 1 to 3: the number and the place of the call's refusal, 0 and 0 if there is
// none; then of the board after the call: 1 or 0, whether the net that has the record's first number is there, 0 if the record has no
// numbers; how many nets there are; across; up; floor; the ticket's length; a hash; and a second one, of the stored figures. For code 4:
// number, place, length and a hash. The hash is that of a buffer of 512 bytes, each 170 before the ticket was written to its front: h is 0
// and becomes (31 h + b + 1) mod 1,000,003 at each byte b. With code 4 only the first bytes of this buffer, as many as the record says, are
// lent to the call. The second is the same of 196 bytes: the count at columns 0, 1, .. 97 and then the count at tracks 0, 1, .. 97.
#![tactic(auto)]

ghost use Rattle.std.specs.Prelude.{◌*◌, ◌≤◌, ◌≡◌, length};
ghost use Rattle.std.specs.Iterator.{at_most};

use board::{Board, Edited};
use records::{field, refusal_fields, refusal_told};
use std::io;
use terms::{BYTE_VALUES, ROW, Refusal};

const START: u8 = 1;

const ADD: u8 = 2;

const DROP: u8 = 3;

const WRITE: u8 = 4;

// Bit 7 of a code.
const WIDE: u8 = 128;

// The bytes of a code and of how many numbers follow.
const HEAD: usize = 3;

const MOST_NUMBERS: usize = 512;

const LONGEST_BUFFER: usize = 512;

// The columns whose counts are shown, from 0 on: some more than a board stores.
const COUNTS: usize = 98;

// The bytes of a number, and of one where bit 7 stands.
const NARROW_NUMBER: usize = 2;

const WIDE_NUMBER: usize = 8;

// A record: its code, how many numbers it has, and these, each of `size` bytes.
#[derive(Clone, Copy)]
struct Record<'a> {
    code: u8,
    count: usize,
    size: usize,
    body: &'a [u8],
    ghost few: { count ≤ 512 },
    ghost sized: { 2 ≤ size },
}

// How many numbers a code takes at least: more than a record may have where it is no code.
fn least_count(code: u8) -> usize {
    match code {
        START => 3,
        ADD | WRITE => 1,
        DROP => 0,
        _ => MOST_NUMBERS + 1,
    }
}

fn number_size(code: u8) -> usize
    ensures { (2 ≤ result) × (result ≤ 8) }
{
    if code < WIDE {
        return NARROW_NUMBER;
    }
    WIDE_NUMBER
}

// The records of an input, up to the first that ends the run.
#[derive(Drop)]
struct Records<'a> {
    rest: &'a [u8],
}

impl<'a> Iterator for Records<'a> {
    type Item = Record<'a>;

    ghost remaining = { λ s. at_most (length s.rest.now) };

    fn next(&mut self) -> Option<Record<'a>> {
        let (head, rest) = self.rest.split_first_chunk::<HEAD>()?;
        let code = head[0] % WIDE;
        let size = number_size(head[0]);
        let count = records::pair(head, 1);
        if MOST_NUMBERS < count || count < least_count(code) {
            return None;
        }
        let bytes = size * count;
        if rest.len() < bytes {
            return None;
        }
        let (body, rest) = rest.split_at(bytes);
        self.rest = rest;
        Some(Record {
            code,
            count,
            size,
            body,
        })
    }
}

// The number that stands in all of these bytes, two or eight.
fn number_of(bytes: &[u8]) -> usize
    requires { 2 ≤ length bytes.now }
{
    if bytes.len() < WIDE_NUMBER {
        return records::pair(bytes, 0);
    }
    records::eight(bytes, 0)
}

// The numbers of `size` bytes that stand in a record's body, and 0 after them.
fn numbers_of(body: &[u8], size: usize) -> [usize; MOST_NUMBERS]
    requires { 2 ≤ size }
{
    let mut numbers = [0usize; MOST_NUMBERS];
    for (number, bytes) in numbers.iter_mut().zip(body.chunks_exact(size)) {
        *number = number_of(bytes);
    }
    numbers
}

// Starts a board, adds a net or drops nets.
fn edit(board: Board, code: u8, numbers: &[usize], count: usize) -> Edited
    requires { (length numbers.now ≡ 512) × (count ≤ 512) }
{
    if code == START {
        return Board::start(numbers[0], numbers[1], numbers[2]);
    }
    if code == DROP {
        return board.drop(&numbers[0..count]);
    }
    // the record of an add has one number or more, which `count` does not say here
    board.add(numbers[0], &numbers[1..count.max(1)])
}

// Writes the board's ticket into the first `size` bytes of the buffer, which is stained before.
fn write(board: Board, size: usize, buffer: &mut [u8]) -> Result<usize, Refusal>
    requires { size ≤ length buffer.old }
{
    records::stain(buffer);
    board.write_ticket(&mut buffer[..size])
}

// The counts at columns 0 to 97, and then those at tracks 0 to 97.
fn counts_of(board: Board) -> [u8; 2 * COUNTS] {
    let mut counts = [0u8; 2 * COUNTS];
    for c in 0..COUNTS {
        counts[c] = (board.count_at_column(c) % BYTE_VALUES) as u8;
        counts[COUNTS + c] = (board.count_at_track(c) % BYTE_VALUES) as u8;
    }
    counts
}

// The line of a call that starts or changes a board; the first number of its record is `net`, 0 if it has none.
fn show(rt: &impl Print, r: Edited, net: usize, buffer: &mut [u8]) -> io::Result<()> {
    let board = r.board;
    refusal_fields(rt, r.refusal)?;
    field(rt, usize::from(board.has_net(net)))?;
    field(rt, board.net_count())?;
    field(rt, board.across())?;
    field(rt, board.up())?;
    field(rt, grid::layer_count(board.floor()))?;
    let size = buffer.len();
    let w = write(board, size, buffer);
    field(rt, w.unwrap_or(0))?;
    field(rt, records::hash(buffer, 0))?;
    records::last_field(rt, records::hash(&counts_of(board), 0))
}

// The line of a ticket that is written into `size` bytes.
fn show_written(rt: &impl Print, board: Board, size: usize, buffer: &mut [u8]) -> io::Result<()>
    requires { size ≤ length buffer.old }
{
    let w = write(board, size, buffer);
    refusal_fields(rt, refusal_told(w))?;
    field(rt, w.unwrap_or(0))?;
    records::last_field(rt, records::hash(buffer, 0))
}

fn all(rt: &impl Print, input: &[u8], buffer: &mut [u8]) -> io::Result<()> {
    let fresh = Board::start(usize::from(ROW), 1, 1);
    let mut board = fresh.board;
    let records = Records { rest: input };
    for record in records {
        let numbers = numbers_of(record.body, record.size);
        let first = numbers[0];
        if record.code == WRITE {
            if buffer.len() < first {
                return Ok(());
            }
            show_written(rt, board, first, buffer)?;
        } else {
            let edited = edit(board, record.code, &numbers, record.count);
            show(rt, edited, first, buffer)?;
            board = edited.board;
        }
    }
    Ok(())
}

fn main(rt: HostRuntime) -> io::Result<()> {
    let mut input = [0u8; records::MOST_INPUT];
    let mut buffer = [0u8; LONGEST_BUFFER];
    let n = records::read_full(&mut rt.stdin(), &mut input)?;
    all(&rt, &input[..n], &mut buffer)
}
