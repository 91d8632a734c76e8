// The weights of a panel ("Texts, byte for byte"; document 02, 2026-10): of a nondeterministic card in blocks, a statement each; of a
// probabilistic card all moves by old state.
#![tactic(auto)]

ghost use Rattle.std.specs.Prelude.{suc, ◌<◌};
ghost use Rattle.meaning.specs.Sums.{or_one, upto, flat};
ghost use Rattle.meaning.specs.Panel.{moves_from};
ghost use Rattle.phrases.specs.Puts.{Puts};
ghost use Rattle.panel_numbers.specs.Table.{move_by};
ghost use Rattle.panel_wording.specs.PanelText.{blocks_text, moves_text};
ghost use Rattle.panel_wording.specs.PanelIn.{Showing, tells, choice_at, choices_in};

use added_weights::{WEIGHT_PLACES, add_weights};
use card::Head;
use card::limits::{BRANCH_PLACES, MOST_SHARED, ROW, ROW_PLACES};
use lines::{put_line, put_moves, put_stays};
use room::place;
use stored_weights::weigh_from;
use weighing::{ABLES, SHARED, TABLE_PLACES};

// The block of statement i, if a seat is able to take it; places on a card count from 1. One seat takes it, so its branches weigh what they
// are.
fn put_choice<'a>(
    room: &mut [u8],
    at: usize,
    head: Head,
    i: usize,
    table: &'a [usize; TABLE_PLACES],
    rows: &'a [usize; ROW_PLACES],
    branches: &'a [u32; BRANCH_PLACES],
) -> usize
    requires { Showing head table.now rows.now branches.now × (i < head.count) }
    ensures { Puts room.old room.new at (blocks_text (tells head.shared) (choice_at head.top (or_one head.shared) table.now rows.now branches.now i)) result }
{
    if table[ABLES + i] == 0 {
        return place(at);
    }
    let from = i * ROW;
    let own = rows[from];
    let mut row: [usize; WEIGHT_PLACES] = [0; WEIGHT_PLACES];
    add_weights(&mut row, 1, table[SHARED], branches, i, rows[from + 2]);
    let values = [i + 1];
    let a = put_line(room, at, b"choice", &values);
    let b = put_stays(room, a, &row, own * MOST_SHARED, head.shared);
    put_moves(room, b, own, &row, head.top, head.shared)
}

pub fn put_choices<'a>(
    room: &mut [u8],
    at: usize,
    head: Head,
    table: &'a [usize; TABLE_PLACES],
    rows: &'a [usize; ROW_PLACES],
    branches: &'a [u32; BRANCH_PLACES],
) -> usize
    requires { Showing head table.now rows.now branches.now }
    ensures { Puts room.old room.new at (blocks_text (tells head.shared) (choices_in head.top (or_one head.shared) table.now rows.now branches.now head.count)) result }
{
    let mut to = place(at);
    for i in 0..head.count {
        to = put_choice(room, to, head, i, table, rows, branches);
    }
    to
}

// The moves of a probabilistic card from one state.
fn put_from<'a>(
    room: &mut [u8],
    at: usize,
    old: usize,
    head: Head,
    table: &'a [usize; TABLE_PLACES],
    rows: &'a [usize; ROW_PLACES],
    branches: &'a [u32; BRANCH_PLACES],
) -> usize
    requires { Showing head table.now rows.now branches.now }
    ensures { Puts room.old room.new at (moves_text (tells head.shared) (moves_from head.top (or_one head.shared) old (move_by table.now rows.now branches.now head.count old))) result }
{
    let mut row: [usize; WEIGHT_PLACES] = [0; WEIGHT_PLACES];
    weigh_from(&mut row, old, head, table, rows, branches);
    put_moves(room, at, old, &row, head.top, head.shared)
}

// All of them, by old state.
pub fn put_table<'a>(
    room: &mut [u8],
    at: usize,
    head: Head,
    table: &'a [usize; TABLE_PLACES],
    rows: &'a [usize; ROW_PLACES],
    branches: &'a [u32; BRANCH_PLACES],
) -> usize
    requires { Showing head table.now rows.now branches.now }
    ensures { Puts room.old room.new at (moves_text (tells head.shared) (flat (upto (suc head.top) (λ a. moves_from head.top (or_one head.shared) a (move_by table.now rows.now branches.now head.count a))))) result }
{
    let mut to = place(at);
    for old in 0..head.top + 1 {
        to = put_from(room, to, old, head, table, rows, branches);
    }
    to
}
