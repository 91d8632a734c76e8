// How a leaf of a guard is put, in the written card and in the reduced program ("Texts, byte for byte").
#![tactic(auto)]

ghost use Rattle.std.specs.Prelude.{◌-◌, ◌<◌};
ghost use Rattle.card.specs.Card.{all, any, is, isnt};
ghost use Rattle.card.specs.Laid.{either, leaf_of};
ghost use Rattle.meaning.specs.Reduced.{counter_of};
ghost use Rattle.phrases.specs.Phrases.{◌▸◌};
ghost use Rattle.phrases.specs.Puts.{Puts};
ghost use Rattle.texts.specs.Writing.{literal, literals, group_text};
ghost use Rattle.texts.specs.ReducedText.{counter_text};
ghost use Rattle.leaf_text.specs.Style.{looks, leaf_text};

use crate::style::Form;
use literal_text::put_further;
use packing::{IS, ONE, SHARED, kind_of, relation_of, sign_of, state_of};
use put_numbers::put_number;
use room::{place, put_byte, put_filled};
use shared_text::put_shared;
use table::bound_of;

pub mod style;

// The literals of a group behind its first.
fn put_literals(
    room: &mut [u8],
    at: usize,
    sign: usize,
    relation: usize,
    state: usize,
    first: usize,
    seats: usize,
) -> usize
    ensures { Puts room.old room.new at (literals (either all any sign) (either is isnt relation) state first (seats - first)) result }
{
    let mut to = place(at);
    for i in first..seats {
        to = put_further(room, to, sign, relation, state, i + 1);
    }
    to
}

// The bracket of a group and its first literal.
fn put_opened(room: &mut [u8], at: usize, relation: usize, state: usize, seat: usize) -> usize
    requires { (seat < 10) × (state < 10) }
    ensures { Puts room.old room.new at (λ t. "(" ▸ literal (either is isnt relation) state seat t) result }
{
    let i = b'0' + seat as u8;
    let d = b'0' + state as u8;
    if relation == IS {
        let mut equal: [u8; 5] = *b"(s0=0";
        equal[2] = i;
        equal[4] = d;
        return put_filled(room, at, equal);
    }
    let mut other: [u8; 6] = *b"(s0!=0";
    other[2] = i;
    other[5] = d;
    put_filled(room, at, other)
}

// A group as its literals, and a test of the shared number as it stands; of exactly one seat nothing, for no card has it.
fn put_group(room: &mut [u8], at: usize, node: u32, seats: usize) -> usize
    ensures { Puts room.old room.new at (group_text seats (leaf_of node)) result }
{
    let kind = kind_of(node);
    let relation = relation_of(node);
    let state = state_of(node);
    if ONE <= kind {
        if kind == ONE {
            return place(at);
        }
        return put_shared(room, at, relation, state);
    }
    let sign = sign_of(node);
    let first = kind + 1;
    let a = put_opened(room, at, relation, state, first);
    let b = put_literals(room, a, sign, relation, state, first, seats);
    put_byte(room, b, b')')
}

// A leaf as its counter test, and a test of the shared number as it stands.
fn put_counter(room: &mut [u8], at: usize, node: u32, own: usize, seats: usize) -> usize
    ensures { Puts room.old room.new at (counter_text (counter_of seats own (leaf_of node))) result }
{
    let kind = kind_of(node);
    let d = state_of(node);
    if SHARED <= kind {
        let relation = relation_of(node);
        return put_shared(room, at, relation, d);
    }
    let bound = bound_of(node, own, seats);
    let mut test: [u8; 6] = *b"(no_0=";
    test[4] = b'0' + d as u8;
    test[5] = bound.sign;
    let a = put_filled(room, at, test);
    let b = put_number(room, a, bound.number);
    put_byte(room, b, b')')
}

pub fn put_leaf(
    room: &mut [u8],
    at: usize,
    node: u32,
    form: Form,
    own: usize,
    seats: usize,
) -> usize
    ensures { Puts room.old room.new at (leaf_text (looks form own seats) (leaf_of node)) result }
{
    match form {
        Form::Written => put_group(room, at, node, seats),
        Form::Reduced => put_counter(room, at, node, own, seats),
    }
}
