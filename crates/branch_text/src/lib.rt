// A statement's branches put as text, in either of the two texts.
#![tactic(auto)]

ghost use Rattle.std.specs.Prelude.{◌<◌, map};
ghost use Rattle.card.specs.Laid.{set_of as set_of_said, branch_of};
ghost use Rattle.phrases.specs.Phrases.{◌▸◌, num};
ghost use Rattle.phrases.specs.Puts.{Puts};
ghost use Rattle.texts.specs.Shared.{more, summed};
ghost use Rattle.leaf_text.specs.Style.{look};
ghost use Rattle.branch_text.specs.Branches.{end_text, branch_text};

use leaf_text::style::{Form, Style};
use packing::{end_of, set_of, units_of};
use room::{place, put_byte, put_bytes, put_filled};
use shared_text::put_set_last;
use update_text::put_update;
use weight_text::put_weight;

// A written branch behind its weight, but for what it sets.
fn put_seat(room: &mut [u8], at: usize, end: usize) -> usize
    requires { end < 10 }
    ensures { Puts room.old room.new at (λ t. ":(s1'=" ▸ num end (")" ▸ t)) result }
{
    let mut line: [u8; 8] = *b":(s1'=0)";
    line[6] = b'0' + end as u8;
    put_filled(room, at, line)
}

// A branch behind its weight.
fn put_end(room: &mut [u8], at: usize, end: usize, sets: usize, style: Style) -> usize
    requires { end < 10 }
    ensures { Puts room.old room.new at (end_text (look style) end (set_of_said sets)) result }
{
    match style.form {
        Form::Written => {
            let a = put_seat(room, at, end);
            if sets == 0 {
                return a;
            }
            put_set_last(room, a, sets - 1)
        }
        Form::Reduced => {
            let a = put_byte(room, at, b':');
            put_update(room, a, style.own, end, style.seats, sets)
        }
    }
}

fn put_branch(room: &mut [u8], at: usize, branch: u32, style: Style) -> usize
    ensures { Puts room.old room.new at (branch_text (look style) (branch_of branch)) result }
{
    let units = units_of(branch);
    let sets = set_of(branch);
    let end = end_of(branch);
    let a = put_weight(room, at, units);
    put_end(room, a, end, sets, style)
}

// The branches behind the first.
fn put_more(room: &mut [u8], at: usize, branches: &[u32], style: Style) -> usize
    ensures { Puts room.old room.new at (more (branch_text (look style)) (map branch_of branches.now)) result }
{
    let mut to = place(at);
    for branch in branches {
        let a = put_bytes(room, to, b" + ");
        to = put_branch(room, a, *branch, style);
    }
    to
}

pub fn put_branches(room: &mut [u8], at: usize, branches: &[u32], style: Style) -> usize
    ensures { Puts room.old room.new at (summed (branch_text (look style)) (map branch_of branches.now)) result }
{
    match branches {
        [] => place(at),
        [first, others @ ..] => {
            let a = put_branch(room, at, *first, style);
            put_more(room, a, others, style)
        }
    }
}
