// The panel of a card and its seats ("Texts, byte for byte"), computed from the counts alone.
#![tactic(auto)]

pub mod program;

ghost use Rattle.room.specs.Answer.{Entered};
ghost use Rattle.panel_said.specs.PanelSaid.{panel_said};

use card::Refusal;
use card::limits::{BRANCH_PLACES, NODE_PLACES, ROW_PLACES};
use filling::fill;
use panel_text::enter_panel;
use reader::read_into;
use seating::judge_seats;
use weighing::TABLE_PLACES;

// The card is judged first, then the seats; then the panel's text is stored where it fits.
pub fn panel(card: &[u8], seats: &[u8], room: &mut [u8]) -> Result<usize, Refusal>
    ensures { Entered room.old room.new (panel_said card.now seats.now) result }
{
    let mut rows: [usize; ROW_PLACES] = [0; ROW_PLACES];
    let mut nodes: [u32; NODE_PLACES] = [0; NODE_PLACES];
    let mut branches: [u32; BRANCH_PLACES] = [0; BRANCH_PLACES];
    let head = read_into(card, &mut rows, &mut nodes, &mut branches)?;
    judge_seats(seats, head.seats, head.top, head.shared)?;
    let mut table: [usize; TABLE_PLACES] = [0; TABLE_PLACES];
    fill(&mut table, head, seats, &rows, &nodes, &branches);
    enter_panel(room, head, &table, &rows, &branches)
}
