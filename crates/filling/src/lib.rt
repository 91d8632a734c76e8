// All numbers of a panel that are kept, in one table that is lent ("Texts, byte for byte").
#![tactic(auto)]

ghost use Rattle.std.specs.Prelude.{◌≡◌, ◌<◌, set};
ghost use Rattle.card.specs.Limits.{unit};
ghost use Rattle.card.specs.Lent.{lent};
ghost use Rattle.seating.specs.Judged.{seating_in};
ghost use Rattle.panel_numbers.specs.Table.{enabled_place, table_places, table_of};
ghost use Rattle.panel_numbers.specs.Fitting.{Filling};

use card::Head;
use card::limits::{BRANCH_PLACES, NODE_PLACES, ROW_PLACES};
use seating::{count_seats, shared_of};
use stored_weights::store_stays;
use weighing::{ENABLED, SHARED, STAYS, TABLE_PLACES, store, store_ables, taken_of};
use weights::Weight;

// What the one step weighs where none can be taken.
fn stuck_weight() -> usize
    ensures { result ≡ unit }
{
    Weight::UNIT as usize
}

// That step, stored: it is enabled.
fn store_stuck(table: &mut [usize; TABLE_PLACES], stay: usize, weight: usize)
    requires { stay < table_places }
    ensures { table.new ≡ set (set table.old enabled_place 1) stay weight }
{
    table[ENABLED] = 1;
    table[stay] = weight;
}

// The table of a card and a seating of it. Where none can be taken no weight is added up: there is one step, which changes nothing.
pub fn fill<'a>(
    table: &mut [usize; TABLE_PLACES],
    head: Head,
    seats: &'a [u8],
    rows: &'a [usize; ROW_PLACES],
    nodes: &'a [u32; NODE_PLACES],
    branches: &'a [u32; BRANCH_PLACES],
)
    requires { Filling table.old head (lent rows.now nodes.now branches.now) (seating_in head.seats head.shared seats.now) }
    ensures { table.new ≡ table_of head (lent rows.now nodes.now branches.now) (seating_in head.seats head.shared seats.now) }
{
    let counts = count_seats(seats, head.seats);
    let shared = shared_of(seats, head.seats, head.shared);
    store(table, 0, &counts);
    table[SHARED] = shared;
    let states = head.top + 1;
    store_ables(table, head, rows, nodes, &counts[..states], shared);
    let taken = taken_of(head.mode, table, head.count);
    if taken == 0 {
        let weight = stuck_weight();
        let stay = STAYS + shared;
        store_stuck(table, stay, weight);
        return;
    }
    table[ENABLED] = taken;
    store_stays(table, head, rows, branches);
}
