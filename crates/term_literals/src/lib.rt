// The literals of a term of an exactly-one, joined by `&`, read from a question's bytes (document 02, 2026-01).
#![tactic(auto)]

ghost use Rattle.std.specs.Prelude.{◌≡◌, ◌∷◌, ℕ};
ghost use Rattle.marks_on_a_card.specs.Marks.{placed, seat as seat_word};
ghost use Rattle.marks.specs.Step.{marks_at};
ghost use Rattle.reading.specs.Reader.{at as from};
ghost use Rattle.term_literals.specs.TermRead.{literals_of, TermRead};

use due_signs::{step_and, step_sign};
use due_words::step_tight_seat;
use group::literal::{literal, literal_apart};
use literals_due::{as_due, mixes, relation_due};
use marks_on_a_card::kinds;
use seats_seen::{SEATS, each_once, note, one_more};

// A term that was read: the next cursor, for how many seats each stands in it once (0: for no number of seats),
// whether each literal is as due in the term of this number, whether it has both relations, its first d and where
// that stands.
#[derive(Clone, Copy)]
pub struct TermFound {
    pub next: usize,
    pub seats: usize,
    pub due: bool,
    pub mixed: bool,
    pub d: usize,
    pub first: usize,
}

// The rest of the i-th term, whose first seat word has the number `seat`; `at` stands behind that word in the part.
// An error is the place where it is out of shape.
pub fn literals(part: &[u8], at: usize, seat: usize, i: usize) -> Result<TermFound, usize>
    ensures { (o n x : ℕ) → TermRead o part.now at n i (literals_of (from (placed (seat_word seat) x ∷ marks_at o part.now at) n)) result }
{
    let first = literal(part, at)?;
    let d = first.d;
    let mut ahead = step_sign(part, first.next, kinds::AND);
    let mut seen: [u8; SEATS] = [0; SEATS];
    note(&mut seen, seat);
    let mut count: usize = 1;
    let mut due = as_due(true, d, relation_due(i, seat), first);
    let mut mixed = false;
    // this is where a long question spends its time: most of its literals are `!=` and a digit, with no blank between their marks
    while ahead.mark.kind == kinds::AND {
        let word = step_tight_seat(part, ahead.next.at);
        if word.mark.kind != kinds::SEAT {
            return Err(word.mark.place);
        }
        let more = literal_apart(part, word.next.at)?;
        note(&mut seen, word.mark.value);
        count = one_more(count);
        due = as_due(due, d, relation_due(i, word.mark.value), more);
        mixed = mixes(mixed, first.relation, more.relation);
        ahead = step_and(part, more.next);
    }
    if ahead.mark.kind != kinds::ROUND_CLOSE {
        return Err(ahead.mark.place);
    }
    Ok(TermFound {
        next: ahead.next.at,
        seats: each_once(&seen, count),
        due,
        mixed,
        d,
        first: first.first,
    })
}
