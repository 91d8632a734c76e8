// A literal, read from a part of the card.
ghost use Rattle.std.specs.Prelude.{◌≡◌, ◌∷◌, ℕ};
ghost use Rattle.marks_on_a_card.specs.Marks.{placed, seat as seat_word};
ghost use Rattle.marks.specs.Step.{marks_at};
ghost use Rattle.reading.specs.Reader.{at as from};
ghost use Rattle.reading.specs.Group.{literal as literal_of};
ghost use Rattle.group.specs.LiteralRead.{relation_by, LiteralRead};

use due_signs::step_relation;
use due_words::step_number;
use letters::bytes::stands;
use literals_due::Tail;
use looks::look::sign_here;
use marks_on_a_card::kinds;
use packing::{IS, ISNT};
use word_and_digit_looks::digit_here;

// The relation that a sign of this kind is.
fn relation(kind: usize) -> Option<usize>
    ensures { result ≡ relation_by kind }
{
    match kind {
        kinds::EQUAL => Some(IS),
        kinds::NOT_EQUAL => Some(ISNT),
        _ => None,
    }
}

// A literal from behind its seat word on; an error is the place where it is out of shape.
fn long_literal(part: &[u8], at: usize) -> Result<Tail, usize>
    ensures { (o n i x : ℕ) → LiteralRead o part.now at n i (literal_of (from (placed (seat_word i) x ∷ marks_at o part.now at) n)) result }
{
    let sign = step_relation(part, at);
    let relation = relation(sign.mark.kind).ok_or(sign.mark.place)?;
    let number = step_number(part, sign.next.at);
    if number.mark.kind != kinds::NUMBER {
        return Err(number.mark.place);
    }
    Ok(Tail {
        next: number.next.at,
        relation,
        d: number.mark.value,
        first: number.mark.place,
    })
}

// The same; most literals are `=` and one digit.
pub fn literal(part: &[u8], at: usize) -> Result<Tail, usize>
    ensures { (o n i x : ℕ) → LiteralRead o part.now at n i (literal_of (from (placed (seat_word i) x ∷ marks_at o part.now at) n)) result }
{
    if !sign_here(part, at, kinds::EQUAL) {
        return long_literal(part, at);
    }
    let first = at + 1;
    let Some(d) = digit_here(part, first) else {
        return long_literal(part, at);
    };
    Ok(Tail {
        next: first + 1,
        relation: IS,
        d,
        first,
    })
}

// A literal from behind its seat word on, as `literal` reads it; most literals of a term but its first are `!=` and
// one digit, right behind each other.
pub fn literal_apart(part: &[u8], at: usize) -> Result<Tail, usize>
    ensures { (o n i x : ℕ) → LiteralRead o part.now at n i (literal_of (from (placed (seat_word i) x ∷ marks_at o part.now at) n)) result }
{
    if !stands(part, at, b'!') {
        return literal(part, at);
    }
    let equal = at + 1;
    if !stands(part, equal, b'=') {
        return long_literal(part, at);
    }
    let first = equal + 1;
    let Some(d) = digit_here(part, first) else {
        return long_literal(part, at);
    };
    Ok(Tail {
        next: first + 1,
        relation: ISNT,
        d,
        first,
    })
}
