// A guard's items, read from the bytes of a card or a question and kept: what a bracket starts where it starts no
// expression. That is a group, a test of the shared number, or exactly one seat in a state (document 02, 2026-01 and
// 2026-10).
#![tactic(auto)]

ghost use Rattle.std.specs.Prelude.{◌≡◌, ◌+◌, ◌<◌, ℕ, set, ◌∷◌, ◌&&◌, ◌^◌, eqb};
ghost use Rattle.items.specs.GroupsAsked.{of_all};
ghost use Rattle.card.specs.Limits.{node_places};
ghost use Rattle.late.specs.State.{left_in, free_in, late_in, with_late};
ghost use Rattle.items.specs.KeptItems.{Ready, wanted_by, grown, Kept, bound_by};
ghost use Rattle.marks.specs.Step.{marks_at};
ghost use Rattle.grammar.specs.Grammar.{sign_at};
ghost use Rattle.reading.specs.Reader.{at as from, Place};
ghost use Rattle.reading.specs.Group.{shared_test as shared_test_said};
ghost use Rattle.items.specs.SharedRead.{TestRead};
ghost use Rattle.asking.specs.Question.{term as term_of, twice_next, exactly as exactly_of};
ghost use Rattle.term_literals.specs.TermRead.{TermRead};
ghost use Rattle.card.specs.Text.{when◌then◌else◌};
ghost use Rattle.items.specs.OneRead.{OneRead};
ghost use Rattle.items.specs.Language.{language_of};
ghost use Rattle.items.specs.Items.{ItemAt};
ghost use Rattle.items.specs.Pieces.{ItemKept};

use card::limits::NODE_PLACES;
use card::refusals::{OUT_OF_SHAPE, PAST_LIMIT};
use due_signs::{step_joint, step_opening, step_sign};
use due_words::{step_inner, step_tight_seat};
use group::literal::literal;
use group::{Grouped, group};
use languages::Language;
use late::state::State;
use late::{judge_state, stop};
use marks_on_a_card::kinds;
use packing as node;
use packing::{ONE, SHARED, pack_one, pack_shared};
use seats_seen::one_more;
use seats_wanted::grouped;
use term_literals::{TermFound, literals};

// What guards are read from: the bytes of a card or of a question, with this top state, in this language. All readers
// of a guard are lent one.
#[derive(Clone, Copy)]
pub struct Text<'a> {
    pub bytes: &'a [u8],
    pub top: usize,
    pub language: Language,
}

// What came of an item: no item starts there; it is kept, and this is the next place; or reading stopped, and the
// refusal stands in the lent state. It fits two registers, as a Result of an Option does not.
#[derive(Clone, Copy)]
pub enum Ahead {
    NoItem,
    Kept(usize),
    Stopped,
}

// A question's group is one of everyone: one of the others wants no number of seats.
fn of_all(g: Grouped) -> Grouped
    ensures { result ≡ of_all g }
{
    if g.kind == node::EVERYONE {
        return g;
    }
    Grouped { want: 0, ..g }
}

// A node more in the next free place.
pub fn store(nodes: &mut [u32; NODE_PLACES], state: &mut State, node: u32)
    requires { free_in state.old < node_places }
    ensures stored { nodes.new ≡ set nodes.old (free_in state.old) node }
    ensures next { state.new ≡ grown state.old }
{
    nodes[state.free] = node;
    state.free += 1;
}

// The seats that an item wants: a test of the shared number wants none.
fn wanted(state: &mut State, kind: usize, want: usize, place: usize)
    ensures { state.new ≡ with_late state.old (wanted_by kind want place (late_in state.old)) }
{
    if kind == node::SHARED {
        return;
    }
    grouped(state, want, place);
}

// An item's node and what is judged of it: the number in it may be `most`. It was read from place `begin` of the card
// on, behind its bracket, which is at `place`; a node is left for it.
fn lay(
    g: Grouped,
    begin: usize,
    place: usize,
    nodes: &mut [u32; NODE_PLACES],
    state: &mut State,
    most: usize,
)
    requires ready { Ready state.old }
    requires left { 0 < left_in state.old }
    requires first { begin + g.first < 2 ^ 64 }
    ensures { Kept g begin place most nodes.old nodes.new state.old state.new }
{
    state.left -= 1;
    store(nodes, state, g.node);
    wanted(state, g.kind, g.want, place);
    judge_state(state, g.d, most, begin + g.first);
}

// The rest of a test of the shared number, from behind the name of the number on: a relation and a number, as in a
// literal behind its seat word, and the bracket.
fn shared_test(part: &[u8], at: usize) -> Result<Grouped, usize>
    ensures { (o n x : ℕ) → TestRead o part.now n (shared_test_said (from (sign_at "g" x ∷ marks_at o part.now at) n)) result }
{
    let tail = literal(part, at)?;
    let close = step_sign(part, tail.next, kinds::ROUND_CLOSE);
    if close.mark.kind != kinds::ROUND_CLOSE {
        return Err(close.mark.place);
    }
    Ok(Grouped {
        next: close.next.at,
        want: 0,
        kind: SHARED,
        node: pack_shared(tail.relation, tail.d),
        d: tail.d,
        first: tail.first,
    })
}

// The i-th term of an exactly-one, from its bracket on.
fn term(part: &[u8], at: usize, i: usize) -> Result<TermFound, usize>
    ensures { (o n : ℕ) → TermRead o part.now at n i (term_of (from (marks_at o part.now at) n)) result }
{
    let bracket = step_sign(part, at, kinds::ROUND_OPEN);
    if bracket.mark.kind != kinds::ROUND_OPEN {
        return Err(bracket.mark.place);
    }
    let word = step_tight_seat(part, bracket.next.at);
    if word.mark.kind != kinds::SEAT {
        return Err(word.mark.place);
    }
    literals(part, word.next.at, word.mark.value, i)
}

// Does the bracket before the part start an exactly-one? It does where its first term has both relations; no mark
// behind that term is looked at.
fn twice(part: &[u8]) -> bool
    ensures { (o : ℕ) → result ≡ twice_next (marks_at o part.now 0) }
{
    match term(part, 0, 1) {
        Ok(first) => first.mixed,
        Err(_) => false,
    }
}

// One term more, which must be as due, for as many seats and with the same d as the first.
fn agrees(all: bool, first: TermFound, more: TermFound) -> bool
    ensures { result ≡ (all && (more.due && (eqb more.d first.d && eqb more.seats first.seats))) }
{
    all && more.due && more.d == first.d && more.seats == first.seats
}

// As many seats as terms, if each term has each of them once.
fn seats_asked(all: bool, seats: usize, count: usize) -> usize
    ensures { result ≡ (when all && eqb count seats then count else 0) }
{
    if all && count == seats { count } else { 0 }
}

// An exactly-one: its terms and the closing bracket, from behind the outer bracket on.
fn exactly(part: &[u8]) -> Result<Grouped, usize>
    ensures { (o n : ℕ) (p : Place) → OneRead o part.now n p (exactly_of p (from (marks_at o part.now 0) n)) result }
{
    let first = term(part, 0, 1)?;
    let mut ahead = step_joint(part, first.next);
    let mut count: usize = 1;
    let mut all = first.due;
    while ahead.mark.kind == kinds::OR {
        let number = one_more(count);
        let more = term(part, ahead.next.at, number)?;
        count = number;
        all = agrees(all, first, more);
        ahead = step_joint(part, more.next);
    }
    if ahead.mark.kind != kinds::ROUND_CLOSE {
        return Err(ahead.mark.place);
    }
    Ok(Grouped {
        next: ahead.next.at,
        want: seats_asked(all, first.seats, count),
        kind: ONE,
        node: pack_one(first.d),
        d: first.d,
        first: first.first,
    })
}

// The most that the number in an item of this kind may be: what the shared number may be in a test of it, else the
// top state.
fn bound(kind: usize, top: usize, language: Language) -> usize
    ensures { result ≡ bound_by (language_of language).most kind top }
{
    if kind != node::SHARED {
        return top;
    }
    language.values.saturating_sub(1)
}

// What a bracket starts, from the rest of the card or question behind that bracket: with a seat word there a group,
// with the name of the shared number a test of that, where one is declared, and in a question also an exactly-one.
// None where no item starts; an error is the place where the item is out of shape.
fn item(part: &[u8], language: Language) -> Option<Result<Grouped, usize>>
    ensures { ItemAt (language_of language) part.now result }
{
    let word = step_inner(part, 0);
    if word.mark.kind == kinds::SEAT {
        let g = group(part, word.next.at, word.mark.value);
        if language.question {
            return Some(g.map(of_all));
        }
        return Some(g);
    }
    if word.mark.kind == kinds::SHARED {
        if language.values == 0 {
            return None;
        }
        return Some(shared_test(part, word.next.at));
    }
    if language.question && twice(part) {
        return Some(exactly(part));
    }
    None
}

// An item, where the next mark is a bracket that starts one: it is read from the rest of the card as a part, and the
// next place is handed back. Where no item starts, nothing has changed. Apart from what calls itself, whose frames are
// as many as the brackets.
#[inline(never)]
pub fn keep_item(
    text: &Text<'_>,
    at: usize,
    nodes: &mut [u32; NODE_PLACES],
    state: &mut State,
) -> Ahead
    requires { Ready state.old }
    ensures { ItemKept (language_of text.now.language) text.now.bytes.now at text.now.top nodes.old nodes.new state.old state.new result }
{
    let s = step_opening(text.bytes, at);
    if s.mark.kind != kinds::ROUND_OPEN {
        return Ahead::NoItem;
    }
    let begin = s.next.at;
    let part = &text.bytes[begin..];
    let Some(read) = item(part, text.language) else {
        return Ahead::NoItem;
    };
    if state.left == 0 {
        stop(state, PAST_LIMIT, s.mark.place);
        return Ahead::Stopped;
    }
    match read {
        Ok(g) => {
            let most = bound(g.kind, text.top, text.language);
            lay(g, begin, s.mark.place, nodes, state, most);
            Ahead::Kept(begin + g.next)
        }
        Err(place) => {
            stop(state, OUT_OF_SHAPE, begin + place);
            Ahead::Stopped
        }
    }
}
