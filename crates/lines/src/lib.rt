// The panel's lines ("Texts, byte for byte"), one by one.
#![tactic(auto)]

ghost use Rattle.std.specs.Prelude.{◌≡◌, ◌++◌, ◌+◌, ◌≤◌, length, get_or};
ghost use Rattle.card.specs.Limits.{most_shared};
ghost use Rattle.phrases.specs.Phrases.{◌▸◌};
ghost use Rattle.phrases.specs.Puts.{Puts};
ghost use Rattle.meaning.specs.Sums.{or_one, upto, flat};
ghost use Rattle.meaning.specs.Panel.{stay_line, move_line, moves_from};
ghost use Rattle.panel_numbers.specs.Table.{weight_in};
ghost use Rattle.panel_wording.specs.PanelText.{numbers, ending, moves_text, stays_text};
ghost use Rattle.panel_wording.specs.PanelIn.{Row, tells};
ghost use Rattle.lines.specs.Weights.{told_behind, weight_text};

use card::limits::MOST_SHARED;
use put_numbers::put_number;
use room::{place, put_byte, put_bytes};

// Numbers, each behind a blank.
fn put_numbers(room: &mut [u8], at: usize, values: &[usize]) -> usize
    ensures { Puts room.old room.new at (numbers values.now) result }
{
    let mut to = place(at);
    for value in values {
        let a = put_byte(room, to, b' ');
        to = put_number(room, a, *value);
    }
    to
}

// Numbers, and the end of their line.
fn put_rest(room: &mut [u8], at: usize, values: &[usize]) -> usize
    ensures { Puts room.old room.new at (λ t. numbers values.now ("\n" ▸ t)) result }
{
    let a = put_numbers(room, at, values);
    put_byte(room, a, b'\n')
}

// A line: a word and its numbers.
pub fn put_line<'a>(room: &mut [u8], at: usize, word: &'a [u8], values: &'a [usize]) -> usize
    ensures { Puts room.old room.new at (λ t. word.now ++ numbers values.now ("\n" ▸ t)) result }
{
    let a = put_bytes(room, at, word);
    put_rest(room, a, values)
}

// What the shared number becomes is told where it has values at all (document 02, 2026-10).
fn told(becomes: usize, shared: usize) -> Option<usize>
    ensures { told_behind result ≡ ending (tells shared) becomes }
{
    (shared != 0).then_some(becomes)
}

// A line of a weight: a word, states, the weight, and what the shared number becomes with it.
fn put_weight_line<'a>(
    room: &mut [u8],
    at: usize,
    word: &'a [u8],
    states: &'a [usize],
    weight: usize,
    becomes: Option<usize>,
) -> usize
    ensures { Puts room.old room.new at (weight_text word.now states.now weight (told_behind becomes)) result }
{
    let a = put_bytes(room, at, word);
    let b = put_numbers(room, a, states);
    match becomes {
        None => put_rest(room, b, &[weight]),
        Some(value) => put_rest(room, b, &[weight, value]),
    }
}

// A weight of no change. (It is looked for 0 here, as in a move: most weights are 0, and need no call.)
pub fn put_stay(room: &mut [u8], at: usize, weight: usize, becomes: usize, shared: usize) -> usize
    ensures { Puts room.old room.new at (stays_text (tells shared) (stay_line becomes weight)) result }
{
    if weight == 0 {
        return place(at);
    }
    put_weight_line(room, at, b"stay", &[], weight, told(becomes, shared))
}

// By the weight for each value, from a place on.
pub fn put_stays(room: &mut [u8], at: usize, weights: &[usize], from: usize, shared: usize) -> usize
    requires { (from + most_shared ≤ length weights.now) × (shared ≤ most_shared) }
    ensures { Puts room.old room.new at (stays_text (tells shared) (flat (upto (or_one shared) (λ h. stay_line h (get_or weights.now (from + h) 0))))) result }
{
    let mut to = place(at);
    for becomes in 0..shared.max(1) {
        to = put_stay(room, to, weights[from + becomes], becomes, shared);
    }
    to
}

// A weight of a move, which none is from a state to itself.
fn put_move(
    room: &mut [u8],
    at: usize,
    old: usize,
    new: usize,
    weight: usize,
    becomes: usize,
    shared: usize,
) -> usize
    ensures { Puts room.old room.new at (moves_text (tells shared) (move_line old new becomes weight)) result }
{
    if old == new {
        return place(at);
    }
    if weight == 0 {
        return place(at);
    }
    let states = [old, new];
    put_weight_line(room, at, b"move", &states, weight, told(becomes, shared))
}

// All moves from one state to another, by the weight for each value. The loop is its own, and not that of put_stays: a
// must-fail edit stands on it, in which a move's new state and its value change places.
fn put_pair(
    room: &mut [u8],
    at: usize,
    old: usize,
    new: usize,
    weights: &[usize],
    shared: usize,
) -> usize
    ensures { Puts room.old room.new at (moves_text (tells shared) (flat (upto (length weights.now) (λ h. move_line old new h (get_or weights.now h 0))))) result }
{
    let mut to = place(at);
    for (becomes, weight) in weights.iter().enumerate() {
        to = put_move(room, to, old, new, *weight, becomes, shared);
    }
    to
}

// All moves from one state, by its row of weights.
pub fn put_moves(
    room: &mut [u8],
    at: usize,
    old: usize,
    row: &[usize],
    top: usize,
    shared: usize,
) -> usize
    requires { Row top shared row.now }
    ensures { Puts room.old room.new at (moves_text (tells shared) (moves_from top (or_one shared) old (weight_in row.now))) result }
{
    let mut to = place(at);
    for new in 0..top + 1 {
        let from = new * MOST_SHARED;
        let end = from + shared.max(1);
        to = put_pair(room, to, old, new, &row[from..end], shared);
    }
    to
}
