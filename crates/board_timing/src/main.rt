// Makes calls on a board over and over, for the benchmark. The input has nine bytes: the mode, and the number of rounds, of eight bytes,
// low byte first; nothing is done where fewer come. The board is a box of 90 × 90 with a pin at every place and 180 nets of two pins: net m
// of 1 to 90 is at north m and south 91 - m, net 90 + j at west j and east 91 - j. In each round, by the mode:
//
//   0   nothing (so too with any other mode)
//   1   a net is dropped from the full board
//   2   a net is dropped from the full board, and added again at its places
//   3   the board's ticket is surveyed, which was written before the rounds
//   4   a net is dropped from the full board, and across, up and floor of the board that is left are read
//   5   all nets are dropped from the full board by one list
//   6   all nets are dropped from the full board one after the other
//
// A net is 1 and 91 in turn: their spans are the longest, all 90 columns and all 90 tracks must pass each. All nets are in rising and in
// falling order in turn. It prints one line, a number that depends on what the last round made, so that the compiler leaves nothing out.
#![tactic(auto)]

ghost use Rattle.terms.specs.Limits.{largest_net};
ghost use Rattle.counting.specs.Counting.{In};

use board::{Board, Edited};
use board_pins::{EAST_FROM, SOUTH_FROM, WEST_FROM};
use std::io;
use survey::SurveyAnswer;
use terms::BOX;
use ticket::LONGEST_TICKET;

// The bytes of the input.
const INPUT: usize = 9;

const DROPS: u8 = 1;

const DROPS_AND_ADDS: u8 = 2;

const SURVEYS: u8 = 3;

const DROPS_AND_READS: u8 = 4;

const LISTS: u8 = 5;

const ALL_SINGLY: u8 = 6;

fn add_pair(board: Board, net: usize, from: usize, to: usize) -> Edited {
    let places = [from, to];
    board.add(net, &places)
}

// Adds a net of the full board at its places.
fn add(board: Board, net: usize) -> Edited
    requires { In net largest_net }
{
    if net <= Board::LONGEST_SIDE {
        return add_pair(
            board,
            net,
            net,
            SOUTH_FROM + (Board::LONGEST_SIDE + 1 - net),
        );
    }
    let j = net - Board::LONGEST_SIDE;
    add_pair(
        board,
        net,
        WEST_FROM + j,
        EAST_FROM + (Board::LONGEST_SIDE + 1 - j),
    )
}

fn full() -> Board {
    let fresh = Board::start(usize::from(BOX), Board::LONGEST_SIDE, Board::LONGEST_SIDE);
    let mut board = fresh.board;
    for net in 1..=Board::LARGEST_NET {
        let r = add(board, net);
        board = r.board;
    }
    board
}

fn net_of(round: usize) -> usize
    ensures { In result largest_net }
{
    1 + Board::LONGEST_SIDE * (round % 2)
}

fn drop_one(board: Board, net: usize) -> Edited {
    let nets = [net];
    board.drop(&nets)
}

// The board of the last round.
fn last_of<F: Fn(usize) -> Board>(board: Board, rounds: usize, step: F) -> Board
    requires { F.IsAlwaysCallable step }
{
    let mut last = board;
    for round in 0..rounds {
        last = step(round);
    }
    last
}

fn drop_and_add(board: Board, net: usize) -> Edited
    requires { In net largest_net }
{
    let r = drop_one(board, net);
    let without = r.board;
    add(without, net)
}

// All nets, in rising order in even rounds and in falling order in odd ones.
fn all_nets(round: usize) -> [usize; Board::LARGEST_NET] {
    let rising = round % 2 == 0;
    let mut nets = [0usize; Board::LARGEST_NET];
    for i in 0..Board::LARGEST_NET {
        nets[i] = if rising {
            1 + i
        } else {
            Board::LARGEST_NET - i
        };
    }
    nets
}

// The board without these nets, which are dropped one after the other.
fn without_each(board: Board, nets: &[usize]) -> Board {
    let mut left = board;
    for net in nets {
        let r = drop_one(left, *net);
        left = r.board;
    }
    left
}

// A number that depends on all of a survey's figures.
fn figure(a: SurveyAnswer) -> usize {
    a.across
        .max(a.up)
        .max(usize::from(a.nets))
        .max(grid::layer_count(a.floor))
}

// The figure of the last round.
fn surveys(ticket: &[u8], rounds: usize) -> usize {
    let mut last = 0;
    for _ in 0..rounds {
        last = figure(survey::survey(ticket));
    }
    last
}

// A number that depends on across, up and floor.
fn figures_of(board: Board) -> usize {
    board
        .across()
        .max(board.up())
        .max(grid::layer_count(board.floor()))
}

// The board of the last round, and what was read.
#[derive(Clone, Copy)]
struct Read {
    board: Board,
    figures: usize,
}

fn drops_and_reads(board: Board, rounds: usize) -> Read {
    let mut last = board;
    let mut figures = 0;
    for round in 0..rounds {
        let r = drop_one(board, net_of(round));
        last = r.board;
        figures = figures.max(figures_of(last));
    }
    Read {
        board: last,
        figures,
    }
}

// What the rounds leave.
fn done(mode: u8, board: Board, rounds: usize) -> Read {
    let last = match mode {
        DROPS => last_of(board, rounds, |round| drop_one(board, net_of(round)).board),
        DROPS_AND_ADDS => last_of(
            board,
            rounds,
            |round| drop_and_add(board, net_of(round)).board,
        ),
        DROPS_AND_READS => return drops_and_reads(board, rounds),
        LISTS => last_of(board, rounds, |round| board.drop(&all_nets(round)).board),
        ALL_SINGLY => last_of(board, rounds, |round| without_each(board, &all_nets(round))),
        _ => board,
    };
    Read {
        board: last,
        figures: 0,
    }
}

// The last figure of the rounds that survey; in the other modes a hash of the board's ticket, from the figures that were read on.
fn number_of(mode: u8, r: Read, rounds: usize) -> usize {
    let mut ticket = [0u8; LONGEST_TICKET];
    let board = r.board;
    // no ticket is too long for it
    let _ = board.write_ticket(&mut ticket);
    if mode == SURVEYS {
        return surveys(&ticket, rounds);
    }
    records::hash(&ticket, r.figures % Board::LARGEST_NET)
}

fn main(rt: HostRuntime) -> io::Result<()> {
    let mut input = [0u8; INPUT];
    if records::read_full(&mut rt.stdin(), &mut input)? < INPUT {
        return Ok(());
    }
    let mode = input[0];
    let rounds = records::eight(&input, 1);
    records::last_field(&rt, number_of(mode, done(mode, full(), rounds), rounds))
}
