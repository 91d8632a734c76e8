// Two entries that print a text of a card's bytes: the written card, and the reduced program.
#![tactic(auto)]

ghost use Rattle.room.specs.Answer.{Entered};
ghost use Rattle.texts_said.specs.WriteSaid.{write_said};
ghost use Rattle.texts_said.specs.ReduceSaid.{reduce_said};

use card::Refusal;
use card::limits::{BRANCH_PLACES, NODE_PLACES, ROW_PLACES};
use card_text::write_card;
use reader::read_into;
use reduced_text::reduce_card;

// The written card: the card is judged first; then its text is stored where it fits.
pub fn write(card: &[u8], room: &mut [u8]) -> Result<usize, Refusal>
    ensures { Entered room.old room.new (write_said card.now) result }
{
    let mut rows: [usize; ROW_PLACES] = [0; ROW_PLACES];
    let mut nodes: [u32; NODE_PLACES] = [0; NODE_PLACES];
    let mut branches: [u32; BRANCH_PLACES] = [0; BRANCH_PLACES];
    let head = read_into(card, &mut rows, &mut nodes, &mut branches)?;
    write_card(room, head, &rows, &nodes, &branches)
}

// The reduced program, in the same way: the two differ in the last call alone, so a closure for that would be no shorter.
pub fn reduce(card: &[u8], room: &mut [u8]) -> Result<usize, Refusal>
    ensures { Entered room.old room.new (reduce_said card.now) result }
{
    let mut rows: [usize; ROW_PLACES] = [0; ROW_PLACES];
    let mut nodes: [u32; NODE_PLACES] = [0; NODE_PLACES];
    let mut branches: [u32; BRANCH_PLACES] = [0; BRANCH_PLACES];
    let head = read_into(card, &mut rows, &mut nodes, &mut branches)?;
    reduce_card(room, head, &rows, &nodes, &branches)
}
