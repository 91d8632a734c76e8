// Guards of a card, and questions, read from their bytes: the recursion over brackets, `!` and chains. Which of them
// it is, and how many values the card's shared number has, is told by a language (`languages`); only what a bracket
// starts hangs on it.
#![tactic(auto)]

ghost use Rattle.std.specs.Prelude.{true, false, Ok};
ghost use Rattle.marks.specs.Step.{marks_at};
ghost use Rattle.reading.specs.Reader.{at as from};
ghost use Rattle.reading.specs.Guard.{conjunction as conjunction_of, expression as expression_of};
ghost use Rattle.late.specs.State.{left_in, free_in, late_in, after, reached};
ghost use Rattle.items.specs.Language.{language_of};
ghost use Rattle.items.specs.KeptItems.{Ready};
ghost use Rattle.items.specs.GuardRead.{GuardRead};
ghost use Rattle.items.specs.Pieces.{unary_in, chained, Begun, Onward, NoItem};

use card::limits::NODE_PLACES;
use card::refusals::{OUT_OF_SHAPE, PAST_LIMIT};
use due_signs::{step_after, step_opening, step_sign};
use items::{Ahead, Text, keep_item, store};
use late::state::{State, Stopped};
use late::stop;
use looks::look::sign_here;
use marks_on_a_card::kinds;
use packing as node;

// Each node is stored once its parts are; each function has so many brackets and `!` left to open. The stack is spent
// here: for each bracket a frame of `nested`, which `expression` and its chain become part of, and one of
// `conjunction` with its chain. So what reads an item is apart from what calls itself. Each sign has a chain of its
// own: one with the sign as a constant parameter is refused in a cycle of calls, and with a flag it would be a frame
// more.

// A bracket that starts an expression, with its closing bracket; or `!` and its operand.
#[cycle(conjunction_expression_joined_by_and_joined_by_or_nested_unary)]
fn nested(
    text: &Text<'_>,
    at: usize,
    nodes: &mut [u32; NODE_PLACES],
    state: &mut State,
    depth: usize,
) -> Result<usize, Stopped>
    requires { Ready state.old × NoItem (language_of text.now.language) text.now.bytes.now at }
    ensures { GuardRead (language_of text.now.language) text.now.bytes.now text.now.top nodes.old nodes.new (free_in state.old) (late_in state.old) (unary_in (language_of text.now.language) depth (from (marks_at 0 text.now.bytes.now at) (left_in state.old))) (reached state.new result) }
{
    let s = step_opening(text.bytes, at);
    if s.mark.kind == kinds::ROUND_OPEN {
        if depth == 0 {
            return Err(stop(state, PAST_LIMIT, s.mark.place));
        }
        let inner = expression(text, s.next.at, nodes, state, depth - 1)?;
        let close = step_sign(text.bytes, inner, kinds::ROUND_CLOSE);
        if close.mark.kind != kinds::ROUND_CLOSE {
            return Err(stop(state, OUT_OF_SHAPE, close.mark.place));
        }
        return Ok(close.next.at);
    }
    if s.mark.kind != kinds::NOT {
        return Err(stop(state, OUT_OF_SHAPE, s.mark.place));
    }
    if depth == 0 {
        return Err(stop(state, PAST_LIMIT, s.mark.place));
    }
    if state.left == 0 {
        return Err(stop(state, PAST_LIMIT, s.mark.place));
    }
    state.left -= 1;
    let next = unary(text, s.next.at, nodes, state, depth - 1)?;
    let root = state.free - 1;
    store(nodes, state, node::pack_node(node::NOT, root, 0));
    Ok(next)
}

#[cycle(conjunction_expression_joined_by_and_joined_by_or_nested_unary)]
fn unary(
    text: &Text<'_>,
    at: usize,
    nodes: &mut [u32; NODE_PLACES],
    state: &mut State,
    depth: usize,
) -> Result<usize, Stopped>
    requires { Ready state.old }
    ensures { GuardRead (language_of text.now.language) text.now.bytes.now text.now.top nodes.old nodes.new (free_in state.old) (late_in state.old) (unary_in (language_of text.now.language) depth (from (marks_at 0 text.now.bytes.now at) (left_in state.old))) (reached state.new result) }
{
    match keep_item(text, at, nodes, state) {
        Ahead::Kept(next) => Ok(next),
        Ahead::Stopped => Err(Stopped),
        Ahead::NoItem => nested(text, at, nodes, state, depth),
    }
}

// What was read so far, up to the place `first`; then as often as `&` follows the sign and a unary, joined to the
// left.
#[cycle(conjunction_expression_joined_by_and_joined_by_or_nested_unary)]
fn joined_by_and(
    text: &Text<'_>,
    first: usize,
    nodes: &mut [u32; NODE_PLACES],
    state: &mut State,
    depth: usize,
) -> Result<usize, Stopped>
    requires { Begun state.old }
    ensures { Onward (language_of text.now.language) text.now.bytes.now text.now.top nodes.old nodes.new (after state.old (Ok first)) (chained (language_of text.now.language) false depth) (reached state.new result) }
{
    let mut next = first;
    loop {
        let s = step_after(text.bytes, next);
        if s.mark.kind != kinds::AND {
            return Ok(next);
        }
        if state.left == 0 {
            return Err(stop(state, PAST_LIMIT, s.mark.place));
        }
        let first_root = state.free - 1;
        state.left -= 1;
        next = unary(text, s.next.at, nodes, state, depth)?;
        let second_root = state.free - 1;
        store(
            nodes,
            state,
            node::pack_node(node::AND, first_root, second_root),
        );
    }
}

// The same with `|`, which joins what `&` has joined.
#[cycle(conjunction_expression_joined_by_and_joined_by_or_nested_unary)]
fn joined_by_or(
    text: &Text<'_>,
    first: usize,
    nodes: &mut [u32; NODE_PLACES],
    state: &mut State,
    depth: usize,
) -> Result<usize, Stopped>
    requires { Begun state.old }
    ensures { Onward (language_of text.now.language) text.now.bytes.now text.now.top nodes.old nodes.new (after state.old (Ok first)) (chained (language_of text.now.language) true depth) (reached state.new result) }
{
    let mut next = first;
    loop {
        let s = step_after(text.bytes, next);
        if s.mark.kind != kinds::OR {
            return Ok(next);
        }
        if state.left == 0 {
            return Err(stop(state, PAST_LIMIT, s.mark.place));
        }
        let first_root = state.free - 1;
        state.left -= 1;
        next = conjunction(text, s.next.at, nodes, state, depth)?;
        let second_root = state.free - 1;
        store(
            nodes,
            state,
            node::pack_node(node::OR, first_root, second_root),
        );
    }
}

#[cycle(conjunction_expression_joined_by_and_joined_by_or_nested_unary)]
pub fn conjunction(
    text: &Text<'_>,
    at: usize,
    nodes: &mut [u32; NODE_PLACES],
    state: &mut State,
    depth: usize,
) -> Result<usize, Stopped>
    requires { Ready state.old }
    ensures { GuardRead (language_of text.now.language) text.now.bytes.now text.now.top nodes.old nodes.new (free_in state.old) (late_in state.old) (conjunction_of (unary_in (language_of text.now.language) depth) (from (marks_at 0 text.now.bytes.now at) (left_in state.old))) (reached state.new result) }
{
    let first = unary(text, at, nodes, state, depth)?;
    // no chain goes on before a `)`
    if sign_here(text.bytes, first, kinds::ROUND_CLOSE) {
        return Ok(first);
    }
    joined_by_and(text, first, nodes, state, depth)
}

#[cycle(conjunction_expression_joined_by_and_joined_by_or_nested_unary)]
pub fn expression(
    text: &Text<'_>,
    at: usize,
    nodes: &mut [u32; NODE_PLACES],
    state: &mut State,
    depth: usize,
) -> Result<usize, Stopped>
    requires { Ready state.old }
    ensures { GuardRead (language_of text.now.language) text.now.bytes.now text.now.top nodes.old nodes.new (free_in state.old) (late_in state.old) (expression_of (unary_in (language_of text.now.language) depth) (from (marks_at 0 text.now.bytes.now at) (left_in state.old))) (reached state.new result) }
{
    let first = conjunction(text, at, nodes, state, depth)?;
    if sign_here(text.bytes, first, kinds::ROUND_CLOSE) {
        return Ok(first);
    }
    joined_by_or(text, first, nodes, state, depth)
}
