// A live card added to a box within the lent deck (document 02, 2026-12).
#![tactic(auto)]

ghost use Rattle.tidying.specs.Tidying.{add_said};
ghost use Rattle.tidy.specs.Tidies.{Tidied};

use boxes::judge_deck;
use card::Refusal;
use card::limits::{BRANCH_PLACES, NODE_PLACES, ROW_PLACES};
use card::refusals::NO_LIVE_CARD;
use gathering::measure_live;
use placing::place_card;
use reader::read_into;

// The deck is judged first, then whether a card is live, then the card, then its place.
pub fn add(deck: &mut [u8], number: u16, card: &[u8]) -> Result<usize, Refusal>
    ensures { Tidied deck.old deck.new (add_said deck.old number card.now) result }
{
    judge_deck(deck)?;
    let live = measure_live(deck);
    if live.cards == 0 {
        return Err(Refusal {
            number: NO_LIVE_CARD,
            place: 0,
        });
    }
    let mut rows: [usize; ROW_PLACES] = [0; ROW_PLACES];
    let mut nodes: [u32; NODE_PLACES] = [0; NODE_PLACES];
    let mut branches: [u32; BRANCH_PLACES] = [0; BRANCH_PLACES];
    read_into(card, &mut rows, &mut nodes, &mut branches)?;
    place_card(deck, live, number, card)
}
