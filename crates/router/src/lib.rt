// Lay: the public call that lays a ticket's wiring, with everything that demand 3 promises of it.
#![tactic(auto)]

ghost use Rattle.std.specs.Prelude.{◌≡◌, ◌≢◌, ◌≤◌, length};
ghost use Rattle.terms.specs.Kinds.{two_layer};
ghost use Rattle.terms.specs.Refusals.{refusal};
ghost use Rattle.problem.specs.Problem.{pins_in, Good};
ghost use Rattle.nets.specs.Tables.{SpansOf};
ghost use Rattle.figures.specs.Figures.{figures_of};
ghost use Rattle.grid.specs.Laid.{Laid};
ghost use Rattle.router.specs.Lay.{first_of, laid_width, needed, answered, laid_answer, refused, laid_grid, Lays, Outcome};

use figures::Figures;
use grid::{Column, Layer, Track};
use nets::Spans;
use problem::Problem;
use terms::{BOX, CHANNEL, ROW, Refusal, TWO_LAYER};

#[derive(Clone, Copy)]
pub struct LayAnswer {
    pub refusal: Refusal,
    pub kind: u8,
    pub n: Column,
    pub w: Track,
    pub k: Layer,
    pub first: bool,
    pub nets: u8,
    pub across: usize,
    pub up: usize,
    pub floor: Layer,
}

fn refused(refusal: Refusal) -> LayAnswer
    ensures { result ≡ refused refusal }
{
    LayAnswer {
        refusal,
        kind: 0,
        n: Column(0),
        w: Track(0),
        k: Layer(0),
        first: false,
        nets: 0,
        across: 0,
        up: 0,
        floor: Layer(0),
    }
}

// Whether layer 1 is horizontal.
fn first_direction(q: &Problem) -> bool
    ensures { result ≡ first_of q.now }
{
    q.kind == BOX && grid::is_turned(q.n, Track(usize::from(q.byte2)))
}

// The answer to a problem that is laid with so many tracks.
fn answered(q: &Problem, f: Figures, w: Track) -> LayAnswer
    ensures { result ≡ answered (refusal 0 0) q.now f w.0 (first_of q.now) }
{
    LayAnswer {
        refusal: Refusal {
            number: 0,
            place: 0,
        },
        kind: q.kind,
        n: q.n,
        w,
        k: f.layers,
        first: first_direction(q),
        nets: q.nets,
        across: f.across,
        up: f.up,
        floor: f.floor,
    }
}

// Lays a good problem of a row, a channel or a box into a buffer that is long enough.
fn draw(q: &Problem, spans: &Spans, w: Track, wiring: &mut [u8])
    requires good { Good q.now × (q.now.kind ≢ two_layer) × (w.0 ≡ laid_width q.now) × (needed q.now ≤ length wiring.old) }
    requires spans { SpansOf q.now spans.now }
    ensures { Laid (laid_grid (laid_answer q.now)) (pins_in q.now.pins) wiring.old wiring.new }
{
    let kind = q.kind;
    let h = usize::from(q.byte2);
    if kind == ROW {
        channel::lay_row(&q.pins, spans, q.n, w, h, wiring);
        return;
    }
    if kind == CHANNEL {
        channel::lay_channel(&q.pins, spans, q.n, w, h, wiring);
        return;
    }
    if kind == BOX {
        switchbox::lay_box(&q.pins, spans, q.n, w, wiring);
    }
}

// A row, a channel or a box: its tracks are among its figures.
fn lay_by_figures(q: &Problem, spans: &Spans, f: Figures, wiring: &mut [u8]) -> LayAnswer
    requires good { Good q.now × (q.now.kind ≢ two_layer) × (f ≡ figures_of q.now) }
    requires spans { SpansOf q.now spans.now }
    ensures { Outcome q.now wiring.old wiring.new result }
{
    let size = grid::points(q.n, f.w, f.layers);
    if wiring.len() < size {
        return refused(Refusal {
            number: 10,
            place: size,
        });
    }
    draw(q, spans, f.w, wiring);
    answered(q, f, f.w)
}

// A two-layer channel: its operations tell whether it is solid, and its tracks.
fn lay_two_layer(q: &Problem, spans: &Spans, f: Figures, wiring: &mut [u8]) -> LayAnswer
    requires good { Good q.now × (q.now.kind ≡ two_layer) × (f ≡ figures_of q.now) }
    requires spans { SpansOf q.now spans.now }
    ensures { Outcome q.now wiring.old wiring.new result }
{
    let plan = two_layer_plan::find_plan(&q.pins, spans, q.n);
    if plan.moves.is_none() {
        return refused(Refusal {
            number: 17,
            place: 0,
        });
    }
    let tracks = two_layer::tracks(&plan);
    let length = grid::points(q.n, tracks, f.layers);
    if wiring.len() < length {
        return refused(Refusal {
            number: 10,
            place: length,
        });
    }
    two_layer::lay(&q.pins, q.n, tracks, &plan, wiring);
    answered(q, f, tracks)
}

// Public call Lay. Refused, it alters no byte. Otherwise the buffer holds a legal wiring with the answer's counts, and no rival beats
// its tracks (rows and channels, with as many horizontal layers) or its floor (boxes): of every legal wiring of the ticket, of any
// size, whoever drew it. A two-layer channel is refused exactly where no two-layer wiring of it is legal.
pub fn lay(ticket: &[u8], wiring: &mut [u8]) -> LayAnswer
    ensures { Lays ticket.now wiring.old wiring.new result }
{
    let t = ticket::parse_spans(ticket);
    if t.refusal.number != 0 {
        return refused(t.refusal);
    }
    let q = &t.problem;
    let spans = &t.spans;
    let f = figures::figures_of(q, spans);
    if q.kind == TWO_LAYER {
        return lay_two_layer(q, spans, f, wiring);
    }
    lay_by_figures(q, spans, f, wiring)
}
