// A guard's nodes put as text, in either of the two texts: leaves, `!`, `&` and `|`.
#![tactic(auto)]

ghost use Rattle.std.specs.Prelude.{◌≡◌, ◌∷◌, ◌+◌, ◌<◌, ◌≤◌, eqb, leb};
ghost use Rattle.card.specs.Limits.{node_places};
ghost use Rattle.card.specs.Text.{when◌then◌else◌};
ghost use Rattle.card.specs.Card.{all, any};
ghost use Rattle.card.specs.Laid.{sign_number, op_leaf, op_and, op_of, either, guard_at, guard_of};
ghost use Rattle.phrases.specs.Puts.{Puts};
ghost use Rattle.texts.specs.Shared.{formula_text, formula_or};
ghost use Rattle.leaf_text.specs.Style.{looks, look, by_form, brackets_of, leaf_text as leaf_text_said};
ghost use Rattle.guard_text.specs.Levels.{tight_number, level_of};

use card::limits::NODE_PLACES;
use card::number_at;
use leaf_text::put_leaf;
use leaf_text::style::{Form, Style};
use literal_text::joint_of;
use packing::{ALL, AND, ANY, LEAF, NOT, left_of, op_of, right_of};
use room::{place, put_byte, put_filled};

// Where a part of a guard stands, 0 is loose: numbers, since the level of a joined node's parts is reckoned from its sign.
const MIDDLE: usize = 1;

const TIGHT: usize = 2;

// The level by which a part has brackets: in the reduced text always, as where it stands tight.
fn bracket_level(level: usize, form: Form) -> usize
    ensures { result ≡ by_form level tight_number form }
{
    match form {
        Form::Written => level,
        Form::Reduced => TIGHT,
    }
}

// A bracket, where the level is `least` or tighter.
fn put_bracket(room: &mut [u8], at: usize, bracket: u8, level: usize, least: usize) -> usize
    ensures { Puts room.old room.new at (λ t. when leb least level then bracket ∷ t else t) result }
{
    if least <= level {
        return put_byte(room, at, bracket);
    }
    place(at)
}

// The sign of a joined node, by its operator.
fn sign_between(op: usize) -> usize
    ensures sign { result ≡ (when eqb op op_and then sign_number all else sign_number any) }
    ensures small { result < 2 }
{
    if op == AND { ALL } else { ANY }
}

// The operator of node n, where `x` stands: node 0 is read as a leaf.
fn operator_at(x: u32, n: usize) -> usize
    ensures { result ≡ (when eqb n 0 then op_leaf else op_of x) }
{
    if n == 0 { LEAF } else { op_of(x) }
}

// The guard whose root is node `n`, by the card's own nodes: a child's number is below its parent's. The style is handed on in parts, not as
// a struct, which would be copied for each node.
fn put_guard(
    room: &mut [u8],
    at: usize,
    nodes: &[u32; NODE_PLACES],
    n: usize,
    level: usize,
    form: Form,
    own: usize,
    seats: usize,
) -> usize
    ensures { Puts room.old room.new at (formula_text (brackets_of (looks form own seats)) (leaf_text_said (looks form own seats)) (level_of level) (guard_at nodes.now n)) result }
{
    let x = number_at(nodes, n);
    let op = operator_at(x, n);
    if op == LEAF {
        return put_leaf(room, at, x, form, own, seats);
    }
    let left = left_of(x, n);
    if op == NOT {
        let a = put_byte(room, at, b'!');
        return put_guard(room, a, nodes, left, TIGHT, form, own, seats);
    }
    let right = right_of(x, n);
    let sign = sign_between(op);
    let stands = bracket_level(level, form);
    // `&` has brackets of its own where it stands tight, `|` in the middle too; its own sign may stand left of it without
    let least = TIGHT - sign;
    let a = put_bracket(room, at, b'(', stands, least);
    let b = put_guard(room, a, nodes, left, least - 1, form, own, seats);
    let c = put_filled(room, b, [b' ', joint_of(sign), b' ']);
    let d = put_guard(room, c, nodes, right, least, form, own, seats);
    put_bracket(room, d, b')', stands, least)
}

// A statement's guard, of so many nodes from `from` on.
pub fn put_test(
    room: &mut [u8],
    at: usize,
    nodes: &[u32; NODE_PLACES],
    from: usize,
    count: usize,
    style: Style,
) -> usize
    requires { from + count ≤ node_places }
    ensures { Puts room.old room.new at (formula_or (brackets_of (look style)) (leaf_text_said (look style)) (guard_of nodes.now from count)) result }
{
    if count == 0 {
        return place(at);
    }
    let root = from + count - 1;
    let a = put_filled(room, at, *b" & ");
    put_guard(
        room,
        a,
        nodes,
        root,
        MIDDLE,
        style.form,
        style.own,
        style.seats,
    )
}
