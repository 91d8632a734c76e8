// The entries for C: the same promises, with answers in numbers ("Refusal numbers"). `tablet_c` exports them.
#![tactic(auto)]

ghost use Rattle.std.specs.Prelude.{◌≡◌, length};
ghost use Rattle.reading.specs.Reading.{read_of};
ghost use Rattle.deck.specs.Contents.{judged as deck_judged};
ghost use Rattle.deck.specs.Lookup.{located, located_with};
ghost use Rattle.deck_entries.specs.Verdicts.{verdict_of};
ghost use Rattle.deck_written.specs.WriteDeckSaid.{write_deck_said};
ghost use Rattle.mending.specs.Mending.{mend_said};
ghost use Rattle.converting.specs.Converting.{convert_said};
ghost use Rattle.mended_told.specs.LentRooms.{lent, RoomsTold};
ghost use Rattle.tidying.specs.Tidying.{tidy_said, add_said};
ghost use Rattle.texts_said.specs.WriteSaid.{write_said};
ghost use Rattle.texts_said.specs.ReduceSaid.{reduce_said};
ghost use Rattle.panel_said.specs.PanelSaid.{panel_said};
ghost use Rattle.ask_said.specs.AskSaid.{ask_said};
ghost use Rattle.watch_said.specs.WatchSaid.{watch_said};
ghost use Rattle.move_said.specs.MoveSaid.{move_said};
ghost use Rattle.entry.specs.Contract.{two};
ghost use Rattle.answers.specs.Numbered.{verdict_numbers};
ghost use Rattle.answers.specs.Aims.{aim_by};
ghost use Rattle.odds_said.specs.OddsSaid.{odds_said};
ghost use Rattle.tablet.specs.Moves.{move_numbers, moved_numbers};
ghost use Rattle.tablet.specs.Rows.{RowsTold};
ghost use Rattle.tablet.specs.LentDeck.{DeckTold};
ghost use Rattle.told.specs.Told.{judged, Told};
ghost use Rattle.tablet.specs.AskedTold.{asked_numbers, answered_numbers};
ghost use Rattle.tablet.specs.Parts.{PartTold};

use add::add;
use answers::{OpenPanelAnswer, is_largest, tell_part};
use boxes::{judge_deck, locate, locate_with};
use card::Refusal;
use card::limits::{BRANCH_PLACES, NODE_PLACES, ROW_PLACES};
use convert::convert;
use deck_writer::write_deck;
use entries::{ask, first_move, watch};
use mend::mend;
use mended_told::tell_mended;
use odds::odds;
use panel::panel;
use printing::{reduce, write};
use reader::read_into;
use tidy::tidy;

// Yes is 1, and no is 0.
fn asked_in_numbers(asked: Result<bool, Refusal>) -> OpenPanelAnswer
    ensures { result ≡ asked_numbers asked }
{
    match asked {
        Ok(holds) => OpenPanelAnswer {
            number: 0,
            value: usize::from(holds),
        },
        Err(refusal) => OpenPanelAnswer::from(refusal),
    }
}

// Is it a card? A card that is taken answers 0 and 0.
pub fn open_panel_judge(card: &[u8]) -> OpenPanelAnswer
    ensures { result ≡ judged (read_of card.now) }
{
    let mut rows: [usize; ROW_PLACES] = [0; ROW_PLACES];
    let mut nodes: [u32; NODE_PLACES] = [0; NODE_PLACES];
    let mut branches: [u32; BRANCH_PLACES] = [0; BRANCH_PLACES];
    match read_into(card, &mut rows, &mut nodes, &mut branches) {
        Ok(_) => OpenPanelAnswer {
            number: 0,
            value: 0,
        },
        Err(refusal) => OpenPanelAnswer::from(refusal),
    }
}

// The written card.
pub fn open_panel_write(card: &[u8], room: &mut [u8]) -> OpenPanelAnswer
    ensures { Told room.old room.new (write_said card.now) result }
{
    OpenPanelAnswer::from(write(card, room))
}

// The reduced program's text.
pub fn open_panel_reduce(card: &[u8], room: &mut [u8]) -> OpenPanelAnswer
    ensures { Told room.old room.new (reduce_said card.now) result }
{
    OpenPanelAnswer::from(reduce(card, room))
}

// The panel of a card and its seats.
pub fn open_panel_show(card: &[u8], seats: &[u8], room: &mut [u8]) -> OpenPanelAnswer
    ensures { Told room.old room.new (panel_said card.now seats.now) result }
{
    OpenPanelAnswer::from(panel(card, seats, room))
}

// Does a question hold at the seats? Yes answers 0 and 1, no 0 and 0.
pub fn open_panel_ask(card: &[u8], question: &[u8], seats: &[u8]) -> OpenPanelAnswer
    ensures { result ≡ answered_numbers (ask_said card.now question.now seats.now) }
{
    let asked = ask(card, question, seats);
    asked_in_numbers(asked)
}

// Is it a deck of cards? A deck that is taken answers 0 and 0.
pub fn open_panel_box_judge(deck: &[u8]) -> OpenPanelAnswer
    ensures { result ≡ verdict_numbers (verdict_of (deck_judged deck.now)) }
{
    OpenPanelAnswer::from(judge_deck(deck))
}

// Where a box has the card of a number. Where it has none the part is all 0.
pub fn open_panel_box_find(deck: &[u8], number: u16, part: &mut [usize; 3]) -> OpenPanelAnswer
    ensures { PartTold (located deck.now number) part.old part.new result }
{
    let place = locate(deck, number);
    tell_part(place, part)
}

// The same in a box with an expansion.
pub fn open_panel_box_find_with(
    base: &[u8],
    expansion: &[u8],
    number: u16,
    part: &mut [usize; 3],
) -> OpenPanelAnswer
    ensures { PartTold (located_with base.now expansion.now number) part.old part.new result }
{
    let place = locate_with(base, expansion, number);
    tell_part(place, part)
}

// A box without gaps, from contents without a count byte and the bodies joined.
pub fn open_panel_box_write(contents: &[u8], bodies: &[u8], room: &mut [u8]) -> OpenPanelAnswer
    ensures { Told room.old room.new (write_deck_said contents.now bodies.now) result }
{
    OpenPanelAnswer::from(write_deck(contents, bodies, room))
}

// A damaged box mended: the new deck, and a list with a line for each entry, whose length goes into the lent number.
pub fn open_panel_mend(
    deck: &[u8],
    room: &mut [u8],
    list: &mut [u8],
    list_length: &mut [usize; 1],
) -> OpenPanelAnswer
    ensures { RoomsTold (lent (two room.old list.old) list_length.old) (lent (two room.new list.new) list_length.new) (mend_said deck.now) result }
{
    let mended = mend(deck, room, list);
    tell_mended(mended, list_length)
}

// A box from before decimals were retired, converted: the new deck.
pub fn open_panel_convert(deck: &[u8], room: &mut [u8]) -> OpenPanelAnswer
    ensures { Told room.old room.new (convert_said deck.now) result }
{
    OpenPanelAnswer::from(convert(deck, room))
}

// A box tidied within the lent deck: withdrawn entries dropped, gaps closed, zero bytes behind the new length.
pub fn open_panel_tidy(deck: &mut [u8]) -> OpenPanelAnswer
    ensures { DeckTold deck.old deck.new (tidy_said deck.old) result }
{
    OpenPanelAnswer::from(tidy(deck))
}

// A live card added to a box within the lent deck, which is tidied.
pub fn open_panel_add(deck: &mut [u8], number: u16, card: &[u8]) -> OpenPanelAnswer
    ensures { DeckTold deck.old deck.new (add_said deck.old number card.now) result }
{
    OpenPanelAnswer::from(add(deck, number, card))
}

// The line of class counts for a spectator, by a list of the states' classes.
pub fn open_panel_watch(
    card: &[u8],
    seats: &[u8],
    classes: &[u8],
    room: &mut [u8],
) -> OpenPanelAnswer
    ensures { Told room.old room.new (watch_said card.now seats.now classes.now) result }
{
    OpenPanelAnswer::from(watch(card, seats, classes, room))
}

// A statement is its place from 1, and nobody is 0.
fn move_in_numbers(answer: Result<Option<usize>, Refusal>) -> OpenPanelAnswer
    ensures { result ≡ move_numbers answer }
{
    match answer {
        Ok(statement) => OpenPanelAnswer {
            number: 0,
            value: statement.unwrap_or(0),
        },
        Err(refusal) => OpenPanelAnswer::from(refusal),
    }
}

// The first statement that some seat may take: its place on the card answers 0 and the place, nobody 0 and 0.
pub fn open_panel_first_move(card: &[u8], seats: &[u8]) -> OpenPanelAnswer
    ensures { result ≡ moved_numbers (move_said card.now seats.now) }
{
    let answer = first_move(card, seats);
    move_in_numbers(answer)
}

// The chance that a question becomes true within m steps, in millionths; the rows hold round m and the round before it.
pub fn open_panel_odds(
    card: &[u8],
    question: &[u8],
    seats: &[u8],
    m: usize,
    largest: u8,
    first: &mut [u32],
    second: &mut [u32],
) -> OpenPanelAnswer
    ensures { RowsTold (two first.old second.old) (two first.new second.new) (odds_said card.now question.now seats.now m (aim_by largest) (length first.old) (length second.old)) result }
{
    let is_largest = is_largest(largest);
    OpenPanelAnswer::from(odds(card, question, seats, m, is_largest, first, second))
}
