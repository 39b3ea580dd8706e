// What the exported calls write into their callers' arrays: the fields of an answer, number by number. All functions here are for our own
// crates.
#![tactic(auto)]

ghost use Rattle.std.specs.Prelude.{◌≡◌, ◌++◌, ◌≤◌, length, drop};
ghost use Rattle.answers.specs.Answers.{bit, read_entries, survey_entries, lay_entries, check_entries, view_entries, floor_entries};
ghost use Rattle.answers.specs.Answers.{written_entries};

use edge_floor::EdgeFloorAnswer;
use grid::{Column, Layer, Track};
use router::LayAnswer;
use survey::SurveyAnswer;
use terms::Refusal;
use ticket::ReadAnswer;

// How many entries each call writes.
pub const READ_ENTRIES: usize = 6;

pub const SURVEY_ENTRIES: usize = 11;

pub const LAY_ENTRIES: usize = 11;

pub const CHECK_ENTRIES: usize = 2;

pub const LAYER_VIEW_ENTRIES: usize = 4;

pub const EDGE_FLOOR_ENTRIES: usize = 4;

// Of every call that writes a ticket.
pub const WRITTEN_ENTRIES: usize = 3;

// Stores the entries at the array's start.
pub fn put(answer: &mut [u64], entries: &[u64])
    requires { length entries.now ≤ length answer.old }
    ensures { answer.new ≡ entries.now ++ drop (length entries.now) answer.old }
{
    for i in 0..entries.len() {
        answer[i] = entries[i];
    }
}

pub fn read_entries(a: ReadAnswer) -> [u64; READ_ENTRIES]
    ensures { result ≡ read_entries a }
{
    [
        a.refusal.number as u64,
        a.refusal.place as u64,
        a.kind as u64,
        a.n.0 as u64,
        a.byte2 as u64,
        a.nets as u64,
    ]
}

pub fn survey_entries(a: SurveyAnswer) -> [u64; SURVEY_ENTRIES]
    ensures { result ≡ survey_entries a }
{
    [
        a.refusal.number as u64,
        a.refusal.place as u64,
        a.kind as u64,
        a.n.0 as u64,
        a.w.0 as u64,
        a.nets as u64,
        a.pins as u64,
        a.across as u64,
        a.up as u64,
        a.layers.0 as u64,
        a.floor.0 as u64,
    ]
}

fn bit(b: bool) -> u64
    ensures { result ≡ bit b }
{
    if b { 1 } else { 0 }
}

pub fn lay_entries(a: LayAnswer) -> [u64; LAY_ENTRIES]
    ensures { result ≡ lay_entries a }
{
    [
        a.refusal.number as u64,
        a.refusal.place as u64,
        a.kind as u64,
        a.n.0 as u64,
        a.w.0 as u64,
        a.k.0 as u64,
        bit(a.first),
        a.nets as u64,
        a.across as u64,
        a.up as u64,
        a.floor.0 as u64,
    ]
}

pub fn check_entries(a: Refusal) -> [u64; CHECK_ENTRIES]
    ensures { result ≡ check_entries a }
{
    [a.number as u64, a.place as u64]
}

pub fn view_entries(
    wiring: &[u8],
    n: Column,
    w: Track,
    k: Layer,
    layer: Layer,
) -> [u64; LAYER_VIEW_ENTRIES]
    ensures { result ≡ view_entries wiring.now n.0 w.0 k.0 layer.0 }
{
    let refusal = view::layer_view_refusal(wiring, n, w, k, layer);
    if refusal.number != 0 {
        return [refusal.number as u64, refusal.place as u64, 0, 0];
    }
    let start = grid::index_of(Column(1), Track(1), layer, n, w, k);
    let size = grid::area(n, w);
    [
        refusal.number as u64,
        refusal.place as u64,
        start as u64,
        size as u64,
    ]
}

pub fn floor_entries(a: EdgeFloorAnswer) -> [u64; EDGE_FLOOR_ENTRIES]
    ensures { result ≡ floor_entries a }
{
    [
        a.refusal.number as u64,
        a.refusal.place as u64,
        a.floor.0 as u64,
        a.edge.0 as u64,
    ]
}

pub fn written_entries(a: Result<usize, Refusal>) -> [u64; WRITTEN_ENTRIES]
    ensures { result ≡ written_entries a }
{
    match a {
        Ok(length) => [0, 0, length as u64],
        Err(refusal) => [refusal.number as u64, refusal.place as u64, 0],
    }
}
