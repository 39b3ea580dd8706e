// Survey: the figures of a ticket, and the program's line. Public calls: survey, survey_line.
#![tactic(auto)]

ghost use Rattle.std.specs.Prelude.{◌≡◌, ◌+◌, ◌≤◌, ◌++◌, length};
ghost use Rattle.survey.specs.Survey.{answered, refused, survey_of};
ghost use Rattle.survey.specs.Line.{decimal, counted, box_line, trunk_line, two_layer_line, refused_line, line_for, longest_line};
ghost use Rattle.survey.specs.Line.{Lined};
ghost use Rattle.output.specs.Building.{Says, Adds};

use figures::Figures;
use grid::{Column, Layer, Track};
use output::{Output, deliver};
use problem::Problem;
use terms::{BOX, CHANNEL, ROW, Refusal, TWO_LAYER};

#[derive(Clone, Copy)]
pub struct SurveyAnswer {
    pub refusal: Refusal,
    pub kind: u8,
    pub n: Column,
    pub w: Track,
    pub nets: u8,
    pub pins: usize,
    pub across: usize,
    pub up: usize,
    pub layers: Layer,
    pub floor: Layer,
}

fn refused(refusal: Refusal) -> SurveyAnswer
    ensures { result ≡ refused refusal }
{
    SurveyAnswer {
        refusal,
        kind: 0,
        n: Column(0),
        w: Track(0),
        nets: 0,
        pins: 0,
        across: 0,
        up: 0,
        layers: Layer(0),
        floor: Layer(0),
    }
}

fn answered(q: Problem, f: Figures, pins: usize) -> SurveyAnswer
    ensures { result ≡ answered q f pins }
{
    let n = q.n;
    let w = f.w;
    let layers = f.layers;
    let floor = f.floor;
    SurveyAnswer {
        refusal: Refusal {
            number: 0,
            place: 0,
        },
        kind: q.kind,
        n,
        w,
        nets: q.nets,
        pins,
        across: f.across,
        up: f.up,
        layers,
        floor,
    }
}

// Public call Survey.
pub fn survey(ticket: &[u8]) -> SurveyAnswer
    ensures { result ≡ survey_of ticket.now }
{
    let t = ticket::parse_spans(ticket);
    let refusal = t.refusal;
    if refusal.number != 0 {
        return refused(refusal);
    }
    let q = t.problem;
    let figures = figures::figures_of(&q, &t.spans);
    let pins = t.spans.pin_count();
    answered(q, figures, pins)
}

pub const LONGEST_LINE: usize = 224;

// The digits before the last, and then the last.
fn number(line: &mut Output, x: usize)
    requires { line.old.used + length (decimal x) ≤ longest_line }
    ensures adds { Adds line.old (decimal x) line.new }
    ensures size { line.new.used ≡ line.old.used + length (decimal x) }
{
    if 10 <= x {
        number(line, x / 10);
    }
    line.push(b'0' + (x % 10) as u8);
}

// Words and then a number, which has 20 digits at most.
#[tactic(auto, using(crate::proofs::Lines::decimal_short))]
fn field(line: &mut Output, words: &[u8], x: usize)
    requires { line.old.used + length words.now + 20 ≤ longest_line }
    ensures adds { Adds line.old (words.now ++ decimal x) line.new }
    ensures used_bound { line.new.used ≤ line.old.used + length words.now + 20 }
{
    line.append(words);
    number(line, x);
}

// What every line has: nets, pins and across.
fn counts(line: &mut Output, a: &SurveyAnswer)
    requires { line.old.used + 80 ≤ longest_line }
    ensures adds { Adds line.old (counted a.now) line.new }
    ensures used_bound { line.new.used ≤ line.old.used + 80 }
{
    field(line, b" nets ", usize::from(a.nets));
    field(line, b" pins ", a.pins);
    field(line, b" across ", a.across);
}

fn box_line(a: &SurveyAnswer) -> Output
    ensures says { Says result (box_line a.now) }
    ensures used_le_longest_line { result.used ≤ longest_line }
{
    let mut line = Output::new();
    field(&mut line, b"box length ", a.n.0);
    field(&mut line, b" width ", a.w.0);
    counts(&mut line, a);
    field(&mut line, b" up ", a.up);
    field(&mut line, b" layers ", a.layers.0);
    field(&mut line, b" floor ", a.floor.0);
    line.push(b'\n');
    line
}

// A row or a channel, its first words given.
fn trunk_line(a: &SurveyAnswer, words: &[u8]) -> Output
    requires { length words.now ≤ 15 }
    ensures says { Says result (trunk_line words.now a.now) }
    ensures used_le_longest_line { result.used ≤ longest_line }
{
    let mut line = Output::new();
    field(&mut line, words, a.n.0);
    counts(&mut line, a);
    field(&mut line, b" tracks ", a.w.0);
    field(&mut line, b" layers ", a.layers.0);
    line.push(b'\n');
    line
}

// A two-layer channel, whose tracks only its wiring tells.
fn two_layer_line(a: &SurveyAnswer) -> Output
    ensures says { Says result (two_layer_line a.now) }
    ensures used_le_longest_line { result.used ≤ longest_line }
{
    let mut line = Output::new();
    field(&mut line, b"two-layer length ", a.n.0);
    counts(&mut line, a);
    field(&mut line, b" layers ", a.layers.0);
    line.push(b'\n');
    line
}

fn refused_line(a: &SurveyAnswer) -> Output
    ensures says { Says result (refused_line a.now) }
    ensures used_le_longest_line { result.used ≤ longest_line }
{
    let mut line = Output::new();
    field(&mut line, b"refused ", usize::from(a.refusal.number));
    field(&mut line, b" at ", a.refusal.place);
    line.push(b'\n');
    line
}

#[tactic(auto, unfolding(crate::specs::Line::line_for))]
fn line_for(a: &SurveyAnswer) -> Output
    ensures says { Says result (line_for a.now) }
    ensures used_le_longest_line { result.used ≤ longest_line }
{
    if a.refusal.number != 0 {
        return refused_line(a);
    }
    match a.kind {
        ROW => trunk_line(a, b"row length "),
        CHANNEL => trunk_line(a, b"channel length "),
        BOX => box_line(a),
        TWO_LAYER => two_layer_line(a),
        _ => Output::new(),
    }
}

// Public call Survey, as the program's line: written to the front of `out`, and its length; or, where `out` is too short, the length
// that it needs.
pub fn survey_line(ticket: &[u8], out: &mut [u8]) -> Result<usize, usize>
    ensures { Lined ticket.now out.old out.new result }
{
    let line = line_for(&survey(ticket));
    deliver(line.as_slice(), out).map_err(|short| short.place)
}
