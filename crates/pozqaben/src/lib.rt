// The public calls as C and Rust make them (crate pozqaben_c exports them). Each writes its answer, number by number, into an array that
// the caller lends, and returns whether the array had the room; where it had not, nothing at all is altered.
#![tactic(auto)]

ghost use Rattle.std.specs.Prelude.{◌≡◌, true, false, length};
ghost use Rattle.view.specs.View.{view_part};
ghost use Rattle.ticket.specs.Read.{ticket_of, read_of};
ghost use Rattle.survey.specs.Survey.{survey_of};
ghost use Rattle.edge_floor.specs.Floors.{floors_of, TellsFloors};
ghost use Rattle.router.specs.Lay.{lay_of, Lays};
ghost use Rattle.hardest_law.specs.Hardest.{hardest_answer, WritesHardest};
ghost use Rattle.flat_law.specs.Conversion.{ticket_form, flat_form, converted_answer, Converts};
ghost use Rattle.answers.specs.Answers.{read_entries, survey_entries, lay_entries, view_entries, floor_entries, written_entries};
ghost use Rattle.answers.specs.Answers.{part_told, Answered, Tells};

use answers::{
    CHECK_ENTRIES, EDGE_FLOOR_ENTRIES, LAY_ENTRIES, LAYER_VIEW_ENTRIES, READ_ENTRIES,
    SURVEY_ENTRIES, WRITTEN_ENTRIES, check_entries, floor_entries, lay_entries, put, read_entries,
    survey_entries, view_entries, written_entries,
};
use grid::{Column, Layer, Track};

// Read: number, place, kind, n, byte 2, nets.
#[unsafe(no_mangle)]
pub extern "C" fn pozqaben_read(ticket: &[u8], answer: &mut [u64]) -> bool
    ensures { Answered (read_entries (read_of ticket.now)) answer.old result answer.new }
{
    if answer.len() < READ_ENTRIES {
        return false;
    }
    let entries = read_entries(ticket::read(ticket));
    put(answer, &entries);
    true
}

// Survey: number, place, kind, n, w, nets, pins, across, up, layers, floor.
#[unsafe(no_mangle)]
pub extern "C" fn pozqaben_survey(ticket: &[u8], answer: &mut [u64]) -> bool
    ensures { Answered (survey_entries (survey_of ticket.now)) answer.old result answer.new }
{
    if answer.len() < SURVEY_ENTRIES {
        return false;
    }
    let entries = survey_entries(survey::survey(ticket));
    put(answer, &entries);
    true
}

// Lay: number, place, kind, n, w, k, first, nets, across, up, floor.
#[unsafe(no_mangle)]
pub extern "C" fn pozqaben_lay(ticket: &[u8], wiring: &mut [u8], answer: &mut [u64]) -> bool
    ensures answer { Answered (lay_entries (lay_of ticket.now (length wiring.old))) answer.old
        result answer.new }
    ensures short { result ≡ false → wiring.new ≡ wiring.old }
    ensures lays { result ≡ true → Lays ticket.now wiring.old wiring.new
        (lay_of ticket.now (length wiring.old)) }
{
    if answer.len() < LAY_ENTRIES {
        return false;
    }
    let entries = lay_entries(router::lay(ticket, wiring));
    put(answer, &entries);
    true
}

// Check: number, place.
#[unsafe(no_mangle)]
pub extern "C" fn pozqaben_check(
    ticket: &[u8],
    w: usize,
    k: usize,
    first: bool,
    wiring: &[u8],
    scratch: &mut [u8],
    answer: &mut [u64],
) -> bool
    ensures answer { Tells (ticket_of ticket.now) w k first wiring.now scratch.old
        scratch.new answer.old result answer.new }
    ensures short { result ≡ false → scratch.new ≡ scratch.old }
{
    if answer.len() < CHECK_ENTRIES {
        return false;
    }
    let entries = check_entries(checker::check(ticket, Track(w), Layer(k), first, wiring, scratch));
    put(answer, &entries);
    true
}

// Layer view: number, place, and where the layer's part of the wiring starts and its length, 0 and 0 when refused.
#[unsafe(no_mangle)]
pub extern "C" fn pozqaben_layer_view(
    wiring: &[u8],
    n: usize,
    w: usize,
    k: usize,
    layer: usize,
    answer: &mut [u64],
) -> bool
    ensures answer { Answered (view_entries wiring.now n w k layer) answer.old result answer.new }
    ensures part { result ≡ true → part_told wiring.now answer.new ≡ view_part wiring.now n w k layer }
{
    if answer.len() < LAYER_VIEW_ENTRIES {
        return false;
    }
    let entries = view_entries(wiring, Column(n), Track(w), Layer(k), Layer(layer));
    put(answer, &entries);
    true
}

// The two floors of a box: number, place, floor, edge floor.
#[unsafe(no_mangle)]
pub extern "C" fn pozqaben_edge_floor(ticket: &[u8], answer: &mut [u64]) -> bool
    ensures answer { Answered (floor_entries (floors_of ticket.now)) answer.old result answer.new }
    ensures tells { result ≡ true → TellsFloors ticket.now (floors_of ticket.now) }
{
    if answer.len() < EDGE_FLOOR_ENTRIES {
        return false;
    }
    let entries = floor_entries(edge_floor::edge_floor(ticket));
    put(answer, &entries);
    true
}

// The hardest box of a shape: number, place, length.
#[unsafe(no_mangle)]
pub extern "C" fn pozqaben_hardest_box(
    n: usize,
    w: usize,
    ticket: &mut [u8],
    answer: &mut [u64],
) -> bool
    ensures answer { Answered (written_entries (hardest_answer n w (length ticket.old))) answer.old
        result answer.new }
    ensures short { result ≡ false → ticket.new ≡ ticket.old }
    ensures writes { result ≡ true → WritesHardest n w ticket.old ticket.new
        (hardest_answer n w (length ticket.old)) }
{
    if answer.len() < WRITTEN_ENTRIES {
        return false;
    }
    let entries = written_entries(hardest::hardest_box(Column(n), Track(w), ticket));
    put(answer, &entries);
    true
}

// A ticket turned flat: number, place, length.
#[unsafe(no_mangle)]
pub extern "C" fn pozqaben_flatten(ticket: &[u8], flat: &mut [u8], answer: &mut [u64]) -> bool
    ensures answer { Answered (written_entries (converted_answer ticket_form flat_form ticket.now
        (length flat.old))) answer.old result answer.new }
    ensures short { result ≡ false → flat.new ≡ flat.old }
    ensures converts { result ≡ true → Converts ticket_form flat_form ticket.now flat.old flat.new
        (converted_answer ticket_form flat_form ticket.now (length flat.old)) }
{
    if answer.len() < WRITTEN_ENTRIES {
        return false;
    }
    let entries = written_entries(flat::flatten(ticket, flat));
    put(answer, &entries);
    true
}

// A flat ticket turned into a ticket: number, place, length.
#[unsafe(no_mangle)]
pub extern "C" fn pozqaben_unflatten(flat: &[u8], ticket: &mut [u8], answer: &mut [u64]) -> bool
    ensures answer { Answered (written_entries (converted_answer flat_form ticket_form flat.now
        (length ticket.old))) answer.old result answer.new }
    ensures short { result ≡ false → ticket.new ≡ ticket.old }
    ensures converts { result ≡ true → Converts flat_form ticket_form flat.now ticket.old ticket.new
        (converted_answer flat_form ticket_form flat.now (length ticket.old)) }
{
    if answer.len() < WRITTEN_ENTRIES {
        return false;
    }
    let entries = written_entries(flat::unflatten(flat, ticket));
    put(answer, &entries);
    true
}
