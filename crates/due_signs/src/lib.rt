// A step where it is known which sign is due: a quick look for it, behind one blank at most, and the cursor's step where it does not stand
// there. The most frequent marks are looked for right at the place first: the processor then goes on behind the mark that it expects, while
// past a blank or none it would have to wait for the byte.
#![tactic(auto, using(looks::proofs::Quick::sign_looks))]

ghost use Rattle.std.specs.Prelude.{◌≡◌};
ghost use Rattle.marks.specs.Step.{step_at};

use letters::bytes::stands;
use looks::look::{past_blank, past_line, sign_here};
use marks::answer::bare;
use marks::{Cursor, Step};
use marks_on_a_card::kinds::{
    AND, ARROW, COLON, EQUAL, NOT, NOT_EQUAL, OR, PLUS, ROUND_CLOSE, ROUND_OPEN, SEMICOLON, SLASH,
    SQUARE_OPEN,
};

// The cursor's step from a place on. The answer is made anew, so that the callers' quick answers need not lie in memory for it.
pub fn step_from(card: &[u8], at: usize) -> Step
    ensures { result ≡ step_at card.now at }
{
    let Step { mark, next } = Cursor { at }.step(card);
    Step { mark, next }
}

// A sign of this kind.
pub fn step_sign(card: &[u8], at: usize, kind: usize) -> Step
    ensures { result ≡ step_at card.now at }
{
    let from = past_blank(card, at);
    if sign_here(card, from, kind) {
        return bare(kind, from, from + 1);
    }
    step_from(card, from)
}

// A `&` or a `)`, right here: a term is mostly written without blanks.
pub fn step_and(card: &[u8], at: usize) -> Step
    ensures { result ≡ step_at card.now at }
{
    if sign_here(card, at, AND) {
        return bare(AND, at, at + 1);
    }
    if sign_here(card, at, ROUND_CLOSE) {
        return bare(ROUND_CLOSE, at, at + 1);
    }
    step_from(card, at)
}

// A sign of this kind, a `)` or a `->`.
pub fn step_closing(card: &[u8], at: usize, kind: usize) -> Step
    ensures { result ≡ step_at card.now at }
{
    if sign_here(card, at, kind) {
        return bare(kind, at, at + 1);
    }
    let from = past_blank(card, at);
    if sign_here(card, from, kind) {
        return bare(kind, from, from + 1);
    }
    if sign_here(card, from, ROUND_CLOSE) {
        return bare(ROUND_CLOSE, from, from + 1);
    }
    step_arrow(card, from)
}

// A `)`, a `&`, a `|` or a `->`.
pub fn step_after(card: &[u8], at: usize) -> Step
    ensures { result ≡ step_at card.now at }
{
    if sign_here(card, at, ROUND_CLOSE) {
        return bare(ROUND_CLOSE, at, at + 1);
    }
    let from = past_blank(card, at);
    if sign_here(card, from, ROUND_CLOSE) {
        return bare(ROUND_CLOSE, from, from + 1);
    }
    if sign_here(card, from, AND) {
        return bare(AND, from, from + 1);
    }
    if sign_here(card, from, OR) {
        return bare(OR, from, from + 1);
    }
    step_arrow(card, from)
}

// A `|`, a `&` or a `)`.
pub fn step_joint(card: &[u8], at: usize) -> Step
    ensures { result ≡ step_at card.now at }
{
    if sign_here(card, at, OR) {
        return bare(OR, at, at + 1);
    }
    let from = past_blank(card, at);
    if sign_here(card, from, OR) {
        return bare(OR, from, from + 1);
    }
    if sign_here(card, from, AND) {
        return bare(AND, from, from + 1);
    }
    step_sign(card, from, ROUND_CLOSE)
}

// A `=` or a `!=`.
pub fn step_relation(card: &[u8], at: usize) -> Step
    ensures { result ≡ step_at card.now at }
{
    let from = past_blank(card, at);
    if sign_here(card, from, EQUAL) {
        return bare(EQUAL, from, from + 1);
    }
    if stands(card, from, b'!') && stands(card, from + 1, b'=') {
        return bare(NOT_EQUAL, from, from + 2);
    }
    step_from(card, from)
}

// A `+` or a `;`.
pub fn step_further(card: &[u8], at: usize) -> Step
    ensures { result ≡ step_at card.now at }
{
    let from = past_blank(card, at);
    if sign_here(card, from, SEMICOLON) {
        return bare(SEMICOLON, from, from + 1);
    }
    step_sign(card, from, PLUS)
}

// A `(` or a `!`.
pub fn step_opening(card: &[u8], at: usize) -> Step
    ensures { result ≡ step_at card.now at }
{
    if sign_here(card, at, ROUND_OPEN) {
        return bare(ROUND_OPEN, at, at + 1);
    }
    let from = past_blank(card, at);
    if sign_here(card, from, ROUND_OPEN) {
        return bare(ROUND_OPEN, from, from + 1);
    }
    if stands(card, from, b'!') && !stands(card, from + 1, b'=') {
        return bare(NOT, from, from + 1);
    }
    step_from(card, from)
}

// A `[`, also on the next line.
pub fn step_square(card: &[u8], at: usize) -> Step
    ensures { result ≡ step_at card.now at }
{
    let from = past_line(card, at);
    if sign_here(card, from, SQUARE_OPEN) {
        return bare(SQUARE_OPEN, from, from + 1);
    }
    step_from(card, from)
}

// A `/` or a `:`.
pub fn step_slash(card: &[u8], at: usize) -> Step
    ensures { result ≡ step_at card.now at }
{
    let from = past_blank(card, at);
    if stands(card, from, b'/') && !stands(card, from + 1, b'/') {
        return bare(SLASH, from, from + 1);
    }
    step_sign(card, from, COLON)
}

// A `&` or a `->`.
pub fn step_guard(card: &[u8], at: usize) -> Step
    ensures { result ≡ step_at card.now at }
{
    let from = past_blank(card, at);
    if sign_here(card, from, AND) {
        return bare(AND, from, from + 1);
    }
    step_arrow(card, from)
}

// A `->`.
pub fn step_arrow(card: &[u8], at: usize) -> Step
    ensures { result ≡ step_at card.now at }
{
    let from = past_blank(card, at);
    if stands(card, from, b'-') && stands(card, from + 1, b'>') {
        return bare(ARROW, from, from + 2);
    }
    step_from(card, from)
}
