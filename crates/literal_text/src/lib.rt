// A literal of a group put as text, alone or behind the sign that joins it to the one before ("Texts, byte for byte").
#![tactic(auto)]

ghost use Rattle.std.specs.Prelude.{◌≡◌};
ghost use Rattle.card.specs.Card.{all, any, is, isnt};
ghost use Rattle.card.specs.Laid.{either};
ghost use Rattle.phrases.specs.Phrases.{◌▸◌};
ghost use Rattle.phrases.specs.Puts.{Puts};
ghost use Rattle.texts.specs.Writing.{sign_text, literal};

use packing::IS;
use phrases::{put_either, put_numbered};
use put_numbers::put_number;
use room::put_filled;

pub fn put_literal(room: &mut [u8], at: usize, relation: usize, state: usize, seat: usize) -> usize
    ensures { Puts room.old room.new at (literal (either is isnt relation) state seat) result }
{
    let a = put_numbered(room, at, b"s", seat);
    let b = put_either(room, a, relation, b"=", b"!=");
    put_number(room, b, state)
}

// The byte of a sign that joins literals or parts.
pub fn joint_of(sign: usize) -> u8
    ensures { result ≡ either 38 124 sign }
{
    if sign == 0 { b'&' } else { b'|' }
}

// The sign and a literal behind it: as one piece, of a seat up to 19 and a state of one digit.
pub fn put_further(
    room: &mut [u8],
    at: usize,
    sign: usize,
    relation: usize,
    state: usize,
    seat: usize,
) -> usize
    ensures { Puts room.old room.new at (λ t. sign_text (either all any sign) ▸ literal (either is isnt relation) state seat t) result }
{
    if state < 10 && seat < 20 {
        let joint = joint_of(sign);
        let d = b'0' + state as u8;
        if seat < 10 {
            let i = b'0' + seat as u8;
            if relation == IS {
                return put_filled(room, at, [b' ', joint, b' ', b's', i, b'=', d]);
            }
            return put_filled(room, at, [b' ', joint, b' ', b's', i, b'!', b'=', d]);
        }
        let i = b'0' + (seat - 10) as u8;
        if relation == IS {
            return put_filled(room, at, [b' ', joint, b' ', b's', b'1', i, b'=', d]);
        }
        return put_filled(room, at, [b' ', joint, b' ', b's', b'1', i, b'!', b'=', d]);
    }
    let a = put_either(room, at, sign, b" & ", b" | ");
    put_literal(room, a, relation, state, seat)
}
