// The numbers of a panel, from the counts alone, part by part into one table that is lent ("Texts, byte for byte"): each statement's guard
// is worked out once.
#![tactic(auto)]

ghost use Rattle.std.specs.Prelude.{◌≡◌, ◌+◌, ◌≤◌, length, get_or};
ghost use Rattle.card.specs.Limits.{most_statements};
ghost use Rattle.card.specs.Card.{nondeterministic, probabilistic};
ghost use Rattle.card.specs.Laid.{either};
ghost use Rattle.meaning.specs.Position.{position};
ghost use Rattle.panel_numbers.specs.Table.{table_places, over, ables_from, able_at, counts_as as counts_as_said, taken_in};
ghost use Rattle.panel_numbers.specs.Fitting.{FewAble};

use able_seats::able;
use card::limits::{
    MOST_NODES, MOST_SHARED, MOST_STATEMENTS, MOST_STATES, NODE_PLACES, ROW, ROW_PLACES,
};
use card::{Head, NONDETERMINISTIC};

// The counts stand first; then the shared number, the number of enabled, the weights of no change by what the shared number becomes, and
// how many seats are able to take each statement (panel_numbers/specs/Table.antt).
pub const SHARED: usize = MOST_STATES;

pub const ENABLED: usize = SHARED + 1;

pub const STAYS: usize = ENABLED + 1;

pub const ABLES: usize = STAYS + MOST_SHARED;

pub const TABLE_PLACES: usize = ABLES + MOST_STATEMENTS;

// Numbers one after the other, from a place on.
pub fn store(table: &mut [usize; TABLE_PLACES], from: usize, numbers: &[usize])
    requires { from + length numbers.now ≤ table_places }
    ensures { table.new ≡ over from (length numbers.now) (λ d. get_or numbers.now d 0) table.old }
{
    // by a loop, for the reason that `copied_rows` names
    for d in 0..numbers.len() {
        let at = from + d;
        table[at] = numbers[d];
    }
}

// How many of the seats are able to take each statement, at counts and the shared number beside them.
pub fn store_ables<'a>(
    table: &mut [usize; TABLE_PLACES],
    head: Head,
    rows: &'a [usize; ROW_PLACES],
    nodes: &'a [u32; NODE_PLACES],
    counts: &'a [usize],
    shared: usize,
)
    requires { head.count ≤ most_statements }
    ensures { table.new ≡ over ables_from head.count (able_at head.seats (position counts.now shared) nodes.now rows.now) table.old }
{
    for i in 0..head.count {
        let from = i * ROW;
        let able = able(
            nodes,
            i * MOST_NODES,
            rows[from + 1],
            rows[from],
            head.seats,
            counts,
            shared,
        );
        table[ABLES + i] = able;
    }
}

// What a statement adds to how many can be taken.
fn counts_as(mode: usize, able: usize) -> usize
    ensures { result ≡ counts_as_said (either nondeterministic probabilistic mode) able }
{
    if mode != NONDETERMINISTIC {
        return able;
    }
    if able == 0 {
        return 0;
    }
    1
}

// How many can be taken: pairs of a seat and a statement, or statements.
pub fn taken_of(mode: usize, table: &[usize; TABLE_PLACES], count: usize) -> usize
    requires { FewAble table.now count }
    ensures { result ≡ taken_in (either nondeterministic probabilistic mode) table.now count }
{
    let mut taken = 0;
    for &able in &table[ABLES..ABLES + count] {
        taken += counts_as(mode, able);
    }
    taken
}
