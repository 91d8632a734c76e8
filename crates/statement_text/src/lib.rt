// Statements put as text, in either of the two texts: one after the other, each in as many copies as the text and the mode ask for.
#![tactic(auto)]

ghost use Rattle.std.specs.Prelude.{◌≡◌};
ghost use Rattle.card.specs.Card.{nondeterministic, probabilistic};
ghost use Rattle.card.specs.Laid.{either};
ghost use Rattle.card.specs.Lent.{lent, card_in, HoldsIn};
ghost use Rattle.phrases.specs.Puts.{Puts};
ghost use Rattle.statement_text.specs.Statements.{copy_number, statements_text};

use card::limits::{NODE_PLACES, ROW_PLACES};
use card::{Head, NONDETERMINISTIC};
use leaf_text::style::{Form, Style};
use room::place;
use statement_copies::{put_statement, row_at};

// How many copies each statement has: one, but on a probabilistic card's reduced program one for each seat.
fn copies_of(form: Form, mode: usize, seats: usize) -> usize
    ensures { result ≡ copy_number form (either nondeterministic probabilistic mode) seats }
{
    match form {
        Form::Written => 1,
        Form::Reduced => if mode == NONDETERMINISTIC { 1 } else { seats },
    }
}

// All statements of a card, by their rows.
pub fn put_statements<'a>(
    room: &mut [u8],
    at: usize,
    head: Head,
    rows: &'a [usize; ROW_PLACES],
    nodes: &'a [u32; NODE_PLACES],
    branches: &'a [u32],
    form: Form,
) -> usize
    requires { HoldsIn head (lent rows.now nodes.now branches.now) }
    ensures { Puts room.old room.new at (statements_text form (card_in head (lent rows.now nodes.now branches.now))) result }
{
    let seats = head.seats;
    let copies = copies_of(form, head.mode, seats);
    let mut to = place(at);
    for i in 0..head.count {
        let x = row_at(rows, i);
        let style = Style {
            form,
            own: x.own,
            seats,
            copies,
        };
        to = put_statement(room, to, i, x, nodes, branches, style);
    }
    to
}
