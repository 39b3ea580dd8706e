// A board that is edited: nets come and go, and the board holds their pins and how many nets each column and track must pass.
// Public calls: the functions of Board. Each takes every board and every number; what is said of a board that is `Sound` and whose counts
// are true (`Counted`) is said of all, since Board's fields are private: a start gives such a board, and adding and dropping keep it so.
#![tactic(auto)]

ghost use Rattle.std.specs.Prelude.{◌≡◌, true, false, cond, ◌&&◌, ◌-◌, ◌≤◌, replicate};
ghost use Rattle.terms.specs.Limits.{longest_side, largest_net, within};
ghost use Rattle.terms.specs.Refusals.{refusal, accepted};
ghost use Rattle.grid.specs.Legal.{entry};
ghost use Rattle.problem.specs.Problem.{pins_in, width_of, net_count};
ghost use Rattle.output.specs.Writing.{Wrote};
ghost use Rattle.ticket_bytes.specs.Bytes.{Sized, bytes_of};
ghost use Rattle.survey.specs.Survey.{survey_of};
ghost use Rattle.board_law.specs.Edits.{is_board_kind, start_refusal, fresh, start_problem, is_there, Sound, NetAdded, NetsDropped};
ghost use Rattle.board_law.specs.Counts.{count_entries, column_count, track_count, Counted, stored_across, stored_up};
ghost use Rattle.board_law.specs.Orders.{AsSingly};

use board_counts::{COUNT_ENTRIES, ONE_MORE, box_width, count_at, greatest, recount};
use board_drops::{counts_without, first_repeat};
use board_pins::{holds_net, place_net, without_nets};
use board_sides::end_places;
use figures::floor_for;
use grid::{Column, Layer};
use problem::{Pins, Problem};
use terms::{
    BYTE_VALUES, ROW, Refusal, by_kind, is_within, larger, largest_byte2, refuse, rounded_up,
    smaller, smaller_byte, wide,
};

// The counts of columns and of tracks stand beside the problem: entry c - 1 is how many nets column c, or track c of a box, must pass.
#[derive(Clone, Copy)]
pub struct Board {
    problem: Problem,
    columns: [u8; COUNT_ENTRIES],
    tracks: [u8; COUNT_ENTRIES],
}

// What a call that starts or changes a board answers: a refusal, and the board to go on with.
#[derive(Clone, Copy)]
pub struct Edited {
    pub refusal: Refusal,
    pub board: Board,
}

fn is_board_kind(kind: usize) -> bool
    ensures { result ≡ is_board_kind kind }
{
    if BYTE_VALUES <= kind {
        return false;
    }
    by_kind(kind as u8, 0, 1, 1, 1, 0) == 1
}

fn start_refusal(kind: usize, n: usize, byte2: usize) -> Refusal
    ensures { result ≡ start_refusal kind n byte2 }
{
    if !is_board_kind(kind) {
        return refuse(2, 0);
    }
    if !is_within(n, Board::LONGEST_SIDE) {
        return refuse(3, 0);
    }
    if !is_within(byte2, largest_byte2(kind as u8)) {
        return refuse(4, 0);
    }
    refuse(0, 0)
}

// A board without pins.
fn fresh(kind: u8, n: usize, byte2: u8) -> Board
    ensures problem { result.problem ≡ fresh kind n byte2 }
    ensures clear { (result.columns ≡ replicate count_entries 0) × (result.tracks ≡ replicate count_entries 0) }
{
    let empty = [0u8; Board::LONGEST_SIDE];
    Board {
        problem: Problem {
            kind,
            n: Column(n),
            byte2,
            nets: 0,
            pins: Pins {
                north: empty,
                south: empty,
                west: empty,
                east: empty,
            },
        },
        columns: [0u8; COUNT_ENTRIES],
        tracks: [0u8; COUNT_ENTRIES],
    }
}

// The problem with no number past its limit. No board has such a number, so this changes nothing; but a call's proof knows nothing of
// the board that it is given.
fn limited(q: Problem) -> Problem
    ensures fits { (result.n.0 ≤ longest_side) × (width_of result ≤ longest_side) × (result.nets ≤ largest_net) }
    ensures same { Sound q → result ≡ q }
{
    let n = smaller(grid::column_count(q.n), Board::LONGEST_SIDE);
    let pins = q.pins;
    Problem {
        kind: q.kind,
        n: Column(n),
        byte2: smaller_byte(q.byte2, Board::LONGEST_SIDE as u8),
        nets: smaller_byte(q.nets, Board::LARGEST_NET as u8),
        pins,
    }
}

// The problem with other pins.
fn with_pins(q: Problem, nets: u8, pins: Pins) -> Problem
    ensures is { result ≡ record { kind = q.kind; n = q.n; byte2 = q.byte2; nets = nets; pins = pins } }
    ensures sized { Sized result }
{
    let n = q.n;
    Problem {
        kind: q.kind,
        n,
        byte2: q.byte2,
        nets,
        pins,
    }
}

// x less k, or 0 where k is more.
fn fewer(x: u8, k: usize) -> u8
    ensures { result ≡ x - k }
{
    if wide(x) < k { 0 } else { x - k as u8 }
}

fn refused(board: Board, number: u8, place: usize) -> Edited
    ensures { (result.refusal ≡ refusal number place) × (result.board ≡ board) }
{
    Edited {
        refusal: refuse(number, place),
        board,
    }
}

impl Board {
    pub const LONGEST_SIDE: usize = terms::LONGEST_SIDE;

    pub const LARGEST_NET: usize = terms::LARGEST_NET;

    // A fresh board of this kind and shape, or 2, 3 or 4 and a fresh row.
    pub fn start(kind: usize, n: usize, byte2: usize) -> Edited
        ensures refusal { result.refusal ≡ start_refusal kind n byte2 }
        ensures board { result.board.problem ≡ start_problem kind n byte2 }
        ensures sound { Sound result.board.problem }
        ensures counted { Counted result.board.problem result.board.columns result.board.tracks }
    {
        let refusal = start_refusal(kind, n, byte2);
        if refusal.number != 0 {
            return Edited {
                refusal,
                board: fresh(ROW, 1, 1),
            };
        }
        Edited {
            refusal,
            board: fresh(kind as u8, n, byte2 as u8),
        }
    }

    // Adds a net at these places, or says 7, 20 or 21. (The board handed back is a new one: the compiler copies more where self is
    // changed.)
    pub fn add(mut self, net: usize, places: &[usize]) -> Edited
        ensures refused { accepted result.refusal ≡ false → result.board ≡ self }
        ensures added { Sound self.problem
            → NetAdded self.problem net places.now result.refusal result.board.problem }
        ensures counted { Sound self.problem → Counted self.problem self.columns self.tracks
            → Counted result.board.problem result.board.columns result.board.tracks }
    {
        let q = limited(self.problem);
        if !is_within(net, Self::LARGEST_NET) {
            return refused(self, 7, 0);
        }
        let there = holds_net(&q.pins, net as u8);
        let size = places.len();
        if there {
            return refused(self, 20, net);
        }
        if size < 2 {
            return refused(self, 21, size);
        }
        let mut pins = q.pins;
        if let Err(wrong) = place_net(&q, &mut pins, net as u8, places) {
            return refused(self, 21, wrong);
        }
        let problem = with_pins(q, q.nets + 1, pins);
        let n = grid::column_count(q.n) as u8;
        let w = box_width(&q);
        let along = end_places(&pins.south, &pins.north, net as u8);
        let ends = end_places(&pins.west, &pins.east, net as u8);
        let mut columns = self.columns;
        let mut tracks = self.tracks;
        recount(&mut columns, along, ends, n, ONE_MORE);
        recount(&mut tracks, ends, along, w, ONE_MORE);
        Edited {
            refusal: refuse(0, 0),
            board: Board {
                problem,
                columns,
                tracks,
            },
        }
    }

    // Takes the nets of a list away whole, all or none, or says 22 or 23.
    pub fn drop(mut self, nets: &[usize]) -> Edited
        ensures refused { accepted result.refusal ≡ false → result.board ≡ self }
        ensures dropped { Sound self.problem
            → NetsDropped self.problem nets.now result.refusal result.board.problem }
        ensures counted { Sound self.problem → Counted self.problem self.columns self.tracks
            → Counted result.board.problem result.board.columns result.board.tracks }
        ensures singly { Sound self.problem → Counted self.problem self.columns self.tracks
            → accepted result.refusal ≡ true
            → AsSingly (record { problem = self.problem; columns = self.columns; tracks = self.tracks }) nets.now
            (record { problem = result.board.problem; columns = result.board.columns; tracks = result.board.tracks }) }
    {
        let q = limited(self.problem);
        let mut columns = self.columns;
        let mut tracks = self.tracks;
        if let Err(absent) = counts_without(&q, &mut columns, &mut tracks, nets) {
            return refused(self, 22, nets[absent]);
        }
        let repeat = first_repeat(nets);
        if let Some(repeat) = repeat {
            return refused(self, 23, repeat);
        }
        let pins = without_nets(&q.pins, nets);
        let problem = with_pins(q, fewer(q.nets, nets.len()), pins);
        Edited {
            refusal: refuse(0, 0),
            board: Board {
                problem,
                columns,
                tracks,
            },
        }
    }

    // Whether the net is there.
    pub fn has_net(self, net: usize) -> bool
        ensures { result ≡ (within net largest_net && is_there (pins_in self.problem.pins) net) }
    {
        is_within(net, Self::LARGEST_NET) && holds_net(&self.problem.pins, net as u8)
    }

    // The number of nets.
    pub fn net_count(self) -> usize
        ensures { Sound self.problem → result ≡ net_count (pins_in self.problem.pins) }
    {
        wide(self.problem.nets)
    }

    // Writes the board's ticket, or says 19.
    pub fn write_ticket(self, ticket: &mut [u8]) -> Result<usize, Refusal>
        ensures { Sound self.problem → Wrote (bytes_of self.problem) ticket.old ticket.new result }
    {
        ticket_writer::write_ticket(limited(self.problem), ticket)
    }

    // How many nets column c must pass, 0 where the board has no such column.
    pub fn count_at_column(self, c: usize) -> usize
        ensures stored { result ≡ cond (within c count_entries) (entry self.columns c) 0 }
        ensures counted { Sound self.problem → Counted self.problem self.columns self.tracks
            → result ≡ cond (within c self.problem.n.0) (column_count self.problem c) 0 }
    {
        count_at(&self.columns, c)
    }

    // How many nets track c of a box must pass, 0 where the board has no such track.
    pub fn count_at_track(self, c: usize) -> usize
        ensures stored { result ≡ cond (within c count_entries) (entry self.tracks c) 0 }
        ensures counted { Sound self.problem → Counted self.problem self.columns self.tracks
            → result ≡ cond (within c (width_of self.problem)) (track_count self.problem c) 0 }
    {
        count_at(&self.tracks, c)
    }

    // Across, up and floor are read off the counts: no pin is looked at.
    pub fn across(self) -> usize
        ensures stored { result ≡ stored_across self.columns }
        ensures surveyed { Sound self.problem → Counted self.problem self.columns self.tracks
            → result ≡ (survey_of (bytes_of self.problem)).across }
    {
        wide(greatest(&self.columns))
    }

    pub fn up(self) -> usize
        ensures stored { result ≡ stored_up self.tracks }
        ensures surveyed { Sound self.problem → Counted self.problem self.columns self.tracks
            → result ≡ (survey_of (bytes_of self.problem)).up }
    {
        wide(greatest(&self.tracks))
    }

    pub fn floor(self) -> Layer
        ensures { Sound self.problem → Counted self.problem self.columns self.tracks
            → result ≡ (survey_of (bytes_of self.problem)).floor }
    {
        let kind = self.problem.kind;
        let n = larger(
            1,
            smaller(grid::column_count(self.problem.n), Self::LONGEST_SIDE),
        );
        let w = larger(1, smaller(wide(self.problem.byte2), Self::LONGEST_SIDE));
        let across = smaller(self.across(), Self::LARGEST_NET);
        let up = smaller(self.up(), Self::LARGEST_NET);
        let floor = floor_for(rounded_up(across, w), rounded_up(up, n));
        Layer(by_kind(kind, 0, 0, 0, floor, 0))
    }
}
