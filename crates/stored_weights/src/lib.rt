// The weights of a probabilistic card, statement by statement: from one state, in a row, and of no change, in a panel's table.
#![tactic(auto)]

ghost use Rattle.std.specs.Prelude.{◌≡◌, ◌<◌, eqb};
ghost use Rattle.card.specs.Limits.{most_statements};
ghost use Rattle.card.specs.Card.{nondeterministic, probabilistic};
ghost use Rattle.card.specs.Laid.{either, zeros};
ghost use Rattle.card.specs.Rows.{row_of};
ghost use Rattle.meaning.specs.Sums.{gate};
ghost use Rattle.panel_numbers.specs.Table.{able_in, weight_places, row_from, stays as stays_of, stayed};
ghost use Rattle.panel_numbers.specs.Fitting.{Weighing};

use added_weights::{WEIGHT_PLACES, add_stays, add_weights};
use card::limits::{BRANCH_PLACES, MOST_SHARED, ROW, ROW_PLACES};
use card::{Head, NONDETERMINISTIC};
use weighing::{ABLES, SHARED, STAYS, TABLE_PLACES, store};

// How many seats are able to go from state `old` by statement i.
fn able_from<'a>(
    table: &'a [usize; TABLE_PLACES],
    rows: &'a [usize; ROW_PLACES],
    i: usize,
    old: usize,
) -> usize
    requires { i < most_statements }
    ensures { result ≡ gate (eqb (row_of rows.now i).own old) (able_in table.now i) }
{
    if rows[i * ROW] != old {
        return 0;
    }
    table[ABLES + i]
}

// The weights from state `old`, in a row of zeros.
pub fn weigh_from<'a>(
    row: &mut [usize; WEIGHT_PLACES],
    old: usize,
    head: Head,
    table: &'a [usize; TABLE_PLACES],
    rows: &'a [usize; ROW_PLACES],
    branches: &'a [u32; BRANCH_PLACES],
)
    requires { Weighing head rows.now branches.now table.now × (row.old ≡ zeros weight_places) }
    ensures { row.new ≡ row_from table.now rows.now branches.now head.count old }
{
    for i in 0..head.count {
        let able = able_from(table, rows, i, old);
        if able != 0 {
            let many = rows[i * ROW + 2];
            add_weights(row, able, table[SHARED], branches, i, many);
        }
    }
}

// The weights of no change.
fn stays_of<'a>(
    head: Head,
    table: &'a [usize; TABLE_PLACES],
    rows: &'a [usize; ROW_PLACES],
    branches: &'a [u32; BRANCH_PLACES],
) -> [usize; MOST_SHARED]
    requires { Weighing head rows.now branches.now table.now }
    ensures { result ≡ stays_of table.now rows.now branches.now head.count }
{
    let mut stays: [usize; MOST_SHARED] = [0; MOST_SHARED];
    for i in 0..head.count {
        let able = table[ABLES + i];
        if able != 0 {
            let from = i * ROW;
            add_stays(
                &mut stays,
                rows[from],
                able,
                table[SHARED],
                branches,
                i,
                rows[from + 2],
            );
        }
    }
    stays
}

// The same in the table, which has none on a nondeterministic card.
pub fn store_stays<'a>(
    table: &mut [usize; TABLE_PLACES],
    head: Head,
    rows: &'a [usize; ROW_PLACES],
    branches: &'a [u32; BRANCH_PLACES],
)
    requires { Weighing head rows.now branches.now table.old }
    ensures { table.new ≡ stayed (either nondeterministic probabilistic head.mode) rows.now branches.now head.count table.old }
{
    if head.mode == NONDETERMINISTIC {
        return;
    }
    let stays = stays_of(head, table, rows, branches);
    store(table, STAYS, &stays);
}
