// What is due where reading stops: the stop itself, unless a mark outside the rules stands there or further on. Cards and questions are
// searched alike.
#![tactic(auto)]

ghost use Rattle.std.specs.Prelude.{◌≡◌};
ghost use Rattle.marks.specs.Step.{marks_at};
ghost use Rattle.reading.specs.Reading.{first_outside};
ghost use Rattle.search.specs.Search.{sought, searched as searched_said};

use card::Refusal;
use card::refusals::OUTSIDE_RULES;
use marks::Cursor;
use marks_on_a_card::kinds::{END, OUTSIDE};

// What is due: a number, which may be any, and a place.
#[derive(Clone, Copy)]
pub struct Due {
    pub number: usize,
    pub place: usize,
}

// A stop at a place, unless a mark outside the rules stands there or further on.
pub fn search(card: &[u8], stop: usize, place: usize) -> Due
    ensures { result ≡ sought stop place (first_outside (marks_at 0 card.now place)) }
{
    let mut next = place;
    // by a cursor: how far it goes in a turn is told by the mark
    while next < card.len() {
        let step = Cursor { at: next }.step(card);
        let mark = step.mark;
        if mark.kind == END {
            return Due {
                number: stop,
                place,
            };
        }
        if mark.kind == OUTSIDE {
            return Due {
                number: OUTSIDE_RULES as usize,
                place: mark.place,
            };
        }
        next = step.next.at;
    }
    Due {
        number: stop,
        place,
    }
}

// The refusal that is due where reading stopped with one.
pub fn searched(card: &[u8], stop: Refusal) -> Refusal
    ensures { result ≡ searched_said stop.number stop.place (first_outside (marks_at 0 card.now stop.place)) }
{
    let found = search(card, usize::from(stop.number), stop.place);
    Refusal {
        number: found.number as u8,
        place: found.place,
    }
}
