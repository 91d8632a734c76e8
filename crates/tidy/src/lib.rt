// A box tidied within the lent deck: withdrawn entries dropped, gaps closed (document 02, 2026-12).
#![tactic(auto)]

ghost use Rattle.std.specs.Prelude.{◌≡◌};
ghost use Rattle.tidying.specs.Tidying.{tidy_said};
ghost use Rattle.tidying.specs.Tidied.{tidy_text, lent_after};
ghost use Rattle.tidy.specs.Tidies.{Tidied, Measured};

use boxes::judge_deck;
use card::Refusal;
use card::limits::{COUNT_BYTES, ENTRY_BYTES};
use card::refusals::NO_LIVE_CARD;
use gathering::{Live, gather_bodies, gather_rows, keep_rows, measure_live};
use shifting::clear_from;

// A sound deck with these live entries. They come first, so that none is overwritten by a body before it has been
// read; then each body moves to its place; then the entries get their offsets.
pub fn close_up(deck: &mut [u8], live: Live)
    requires { Measured deck.old live }
    ensures { deck.new ≡ lent_after (tidy_text deck.old) deck.old }
{
    let count = usize::from(deck[0]);
    let low = COUNT_BYTES + ENTRY_BYTES * live.cards;
    keep_rows(deck, count);
    deck[0] = live.cards as u8;
    gather_bodies(deck, live.cards);
    gather_rows(deck, live.cards, low);
    clear_from(deck, low + live.bytes);
}

// The deck is judged first, then whether a card is live.
pub fn tidy(deck: &mut [u8]) -> Result<usize, Refusal>
    ensures { Tidied deck.old deck.new (tidy_said deck.old) result }
{
    judge_deck(deck)?;
    let live = measure_live(deck);
    if live.cards == 0 {
        return Err(Refusal {
            number: NO_LIVE_CARD,
            place: 0,
        });
    }
    close_up(deck, live);
    Ok(COUNT_BYTES + ENTRY_BYTES * live.cards + live.bytes)
}
