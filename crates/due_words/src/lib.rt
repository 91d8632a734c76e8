// A step where a word or a number is due, by looks that go as those for a sign do (due_signs).
#![tactic(auto, using(looks::proofs::Quick::word_looks))]

ghost use Rattle.std.specs.Prelude.{◌≡◌};
ghost use Rattle.marks.specs.Step.{step_at};

use due_signs::{step_from, step_opening, step_sign};
use looks::look::{past_blank, past_line, process_here, seat_here, teen_here};
use marks::Step;
use marks::answer::{bare, valued};
use marks_on_a_card::kinds::{ENDMODULE, MODULE, NUMBER, PROCESS, SEAT};
use word_and_digit_looks::{digit_here, word_here};

// A number.
pub fn step_number(card: &[u8], at: usize) -> Step
    ensures { result ≡ step_at card.now at }
{
    if let Some(tight) = digit_here(card, at) {
        return valued(NUMBER, tight, at, at + 1);
    }
    let from = past_blank(card, at);
    if let Some(value) = digit_here(card, from) {
        return valued(NUMBER, value, from, from + 1);
    }
    step_from(card, from)
}

// A seat word, with one digit or two.
pub fn step_seat(card: &[u8], at: usize) -> Step
    ensures { result ≡ step_at card.now at }
{
    if let Some(tight) = seat_here(card, at) {
        return valued(SEAT, tight, at, at + 2);
    }
    if let Some(teen) = teen_here(card, at) {
        return valued(SEAT, 10 + teen, at, at + 3);
    }
    let from = past_blank(card, at);
    if let Some(value) = seat_here(card, from) {
        return valued(SEAT, value, from, from + 2);
    }
    if let Some(units) = teen_here(card, from) {
        return valued(SEAT, 10 + units, from, from + 3);
    }
    step_from(card, from)
}

// A seat word, right here: those of a term mostly stand right behind their bracket or `&`.
pub fn step_tight_seat(card: &[u8], at: usize) -> Step
    ensures { result ≡ step_at card.now at }
{
    if let Some(value) = seat_here(card, at) {
        return valued(SEAT, value, at, at + 2);
    }
    if let Some(units) = teen_here(card, at) {
        return valued(SEAT, 10 + units, at, at + 3);
    }
    step_from(card, at)
}

// A seat word, most likely of one digit.
fn step_short_seat(card: &[u8], at: usize) -> Step
    ensures { result ≡ step_at card.now at }
{
    let from = past_blank(card, at);
    if let Some(value) = seat_here(card, from) {
        return valued(SEAT, value, from, from + 2);
    }
    step_from(card, from)
}

// A seat word, a `(` or a `!`.
pub fn step_inner(card: &[u8], at: usize) -> Step
    ensures { result ≡ step_at card.now at }
{
    if let Some(tight) = seat_here(card, at) {
        return valued(SEAT, tight, at, at + 2);
    }
    let from = past_blank(card, at);
    if let Some(value) = seat_here(card, from) {
        return valued(SEAT, value, from, from + 2);
    }
    step_opening(card, from)
}

// A `module`, also on the next line.
pub fn step_module(card: &[u8], at: usize) -> Step
    ensures { result ≡ step_at card.now at }
{
    let from = past_line(card, at);
    if word_here(card, from, b"module") {
        return bare(MODULE, from, from + 6);
    }
    step_from(card, from)
}

// An `endmodule`, also on the next line.
pub fn step_endmodule(card: &[u8], at: usize) -> Step
    ensures { result ≡ step_at card.now at }
{
    let from = past_line(card, at);
    if word_here(card, from, b"endmodule") {
        return bare(ENDMODULE, from, from + 9);
    }
    step_from(card, from)
}

// A module word.
pub fn step_process(card: &[u8], at: usize) -> Step
    ensures { result ≡ step_at card.now at }
{
    let from = past_blank(card, at);
    if let Some(value) = process_here(card, from) {
        return valued(PROCESS, value, from, from + 8);
    }
    step_from(card, from)
}

// A word of this kind, or a sign.
pub fn step_kind(card: &[u8], at: usize, kind: usize) -> Step
    ensures { result ≡ step_at card.now at }
{
    match kind {
        SEAT => step_short_seat(card, at),
        PROCESS => step_process(card, at),
        ENDMODULE => step_endmodule(card, at),
        _ => step_sign(card, at, kind),
    }
}
