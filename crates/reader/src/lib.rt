// A card, from its bytes: what is too long is refused, and all else is read in one pass, its beginning, its statements and its further modules, into lent arrays or as one value.
#![tactic(auto)]

ghost use Rattle.std.specs.Prelude.{◌≡◌, ◌≤◌, length};
ghost use Rattle.card.specs.Limits.{card_bytes};
ghost use Rattle.card.specs.Lent.{lent, none_lent};
ghost use Rattle.outline.specs.ReadingOf.{ReadsUnder, Reads, ReadsInto};

use branches::Bounds;
use card::limits::{BRANCH_PLACES, CARD_BYTES, NODE_PLACES, ROW_PLACES};
use card::refusals::TOO_LONG;
use card::{Card, Head, Refusal};
use copies::modules as further_modules;
use frame::header::header as beginning;
use late::first_state;
use outline::{judged, statements_in, stopped};
use search::searched;
use statements::statements as all_statements;
use weights::Weight;

// A card of no more bytes than a card may have. The arrays are lent as zeros, and a refusal leaves them so.
fn read_short(
    card: &[u8],
    decimals: bool,
    rows: &mut [usize; ROW_PLACES],
    nodes: &mut [u32; NODE_PLACES],
    branches: &mut [u32; BRANCH_PLACES],
) -> Result<Head, Refusal>
    requires card_len_bound { length card.now ≤ card_bytes }
    requires branches_value { lent rows.old nodes.old branches.old ≡ none_lent }
    ensures { ReadsUnder decimals card.now result (lent rows.new nodes.new branches.new) }
{
    let mut state = first_state(0);
    let begun = match beginning(card, 0, &mut state) {
        Ok(next) => next,
        Err(stop) => return Err(searched(card, stop)),
    };
    let mode = state.mode;
    let shared = state.shared;
    let initial = state.initial;
    let top = state.top;
    let start = state.start;
    let bounds = Bounds {
        top,
        values: shared,
        decimals,
    };
    let list = match all_statements(card, begun, bounds, rows, nodes, branches, &mut state) {
        Ok(next) => next,
        Err(stop) => return Err(stopped(card, stop, rows, nodes, branches)),
    };
    let count = state.value;
    if let Err(stop) = further_modules(card, list, &mut state) {
        return Err(stopped(card, stop, rows, nodes, branches));
    }
    let head = Head {
        mode,
        shared,
        initial,
        seats: state.value,
        top,
        start,
        count,
    };
    judged(head, &state, rows, nodes, branches)
}

// The card that the bytes spell by a rule of a weight, which says whether a decimal may be one, or the refusal that is due; its arrays are
// lent as zeros, and a refusal leaves them so.
pub fn read_under(
    card: &[u8],
    decimals: bool,
    rows: &mut [usize; ROW_PLACES],
    nodes: &mut [u32; NODE_PLACES],
    branches: &mut [u32; BRANCH_PLACES],
) -> Result<Head, Refusal>
    requires { lent rows.old nodes.old branches.old ≡ none_lent }
    ensures { ReadsUnder decimals card.now result (lent rows.new nodes.new branches.new) }
{
    if card.len() > CARD_BYTES {
        return Err(Refusal {
            number: TOO_LONG,
            place: 0,
        });
    }
    read_short(card, decimals, rows, nodes, branches)
}

// The same by the rule of today.
pub fn read_into(
    card: &[u8],
    rows: &mut [usize; ROW_PLACES],
    nodes: &mut [u32; NODE_PLACES],
    branches: &mut [u32; BRANCH_PLACES],
) -> Result<Head, Refusal>
    requires { lent rows.old nodes.old branches.old ≡ none_lent }
    ensures { ReadsInto card.now result (lent rows.new nodes.new branches.new) }
{
    read_under(card, Weight::DECIMALS, rows, nodes, branches)
}

// The same with the card as one struct.
pub fn read(card: &[u8]) -> Result<Card, Refusal>
    ensures { Reads card.now result }
{
    let mut rows: [usize; ROW_PLACES] = [0; ROW_PLACES];
    let mut nodes: [u32; NODE_PLACES] = [0; NODE_PLACES];
    let mut branches: [u32; BRANCH_PLACES] = [0; BRANCH_PLACES];
    let head = read_into(card, &mut rows, &mut nodes, &mut branches)?;
    let statements = statements_in(&rows);
    Ok(Card {
        mode: head.mode,
        shared: head.shared,
        initial: head.initial,
        seats: head.seats,
        top: head.top,
        start: head.start,
        count: head.count,
        statements,
        nodes,
        branches,
    })
}
