// The library for C: each entry of `tablet`, exported, with the same promise word for word.
#![tactic(auto)]

ghost use Rattle.std.specs.Prelude.{◌≡◌, length};
ghost use Rattle.reading.specs.Reading.{read_of};
ghost use Rattle.deck.specs.Contents.{judged as deck_judged};
ghost use Rattle.deck.specs.Lookup.{located, located_with};
ghost use Rattle.deck_entries.specs.Verdicts.{verdict_of};
ghost use Rattle.deck_written.specs.WriteDeckSaid.{write_deck_said};
ghost use Rattle.mending.specs.Mending.{mend_said};
ghost use Rattle.converting.specs.Converting.{convert_said};
ghost use Rattle.mended_told.specs.LentRooms.{lent, RoomsTold};
ghost use Rattle.tidying.specs.Tidying.{tidy_said, add_said};
ghost use Rattle.texts_said.specs.WriteSaid.{write_said};
ghost use Rattle.texts_said.specs.ReduceSaid.{reduce_said};
ghost use Rattle.panel_said.specs.PanelSaid.{panel_said};
ghost use Rattle.ask_said.specs.AskSaid.{ask_said};
ghost use Rattle.watch_said.specs.WatchSaid.{watch_said};
ghost use Rattle.move_said.specs.MoveSaid.{move_said};
ghost use Rattle.entry.specs.Contract.{two};
ghost use Rattle.answers.specs.Numbered.{verdict_numbers};
ghost use Rattle.answers.specs.Aims.{aim_by};
ghost use Rattle.odds_said.specs.OddsSaid.{odds_said};
ghost use Rattle.tablet.specs.Moves.{moved_numbers};
ghost use Rattle.tablet.specs.Rows.{RowsTold};
ghost use Rattle.tablet.specs.LentDeck.{DeckTold};
ghost use Rattle.told.specs.Told.{judged, Told};
ghost use Rattle.tablet.specs.AskedTold.{answered_numbers};
ghost use Rattle.tablet.specs.Parts.{PartTold};

use answers::OpenPanelAnswer;

// Is it a card? A card that is taken answers 0 and 0.
#[unsafe(no_mangle)]
pub extern "C" fn open_panel_judge(card: &[u8]) -> OpenPanelAnswer
    ensures { result ≡ judged (read_of card.now) }
{
    tablet::open_panel_judge(card)
}

// The written card.
#[unsafe(no_mangle)]
pub extern "C" fn open_panel_write(card: &[u8], room: &mut [u8]) -> OpenPanelAnswer
    ensures { Told room.old room.new (write_said card.now) result }
{
    tablet::open_panel_write(card, room)
}

// The reduced program's text.
#[unsafe(no_mangle)]
pub extern "C" fn open_panel_reduce(card: &[u8], room: &mut [u8]) -> OpenPanelAnswer
    ensures { Told room.old room.new (reduce_said card.now) result }
{
    tablet::open_panel_reduce(card, room)
}

// The panel of a card and its seats.
#[unsafe(no_mangle)]
pub extern "C" fn open_panel_show(card: &[u8], seats: &[u8], room: &mut [u8]) -> OpenPanelAnswer
    ensures { Told room.old room.new (panel_said card.now seats.now) result }
{
    tablet::open_panel_show(card, seats, room)
}

// Does a question hold at the seats? Yes answers 0 and 1, no 0 and 0.
#[unsafe(no_mangle)]
pub extern "C" fn open_panel_ask(card: &[u8], question: &[u8], seats: &[u8]) -> OpenPanelAnswer
    ensures { result ≡ answered_numbers (ask_said card.now question.now seats.now) }
{
    tablet::open_panel_ask(card, question, seats)
}

// Is it a deck of cards? A deck that is taken answers 0 and 0.
#[unsafe(no_mangle)]
pub extern "C" fn open_panel_box_judge(deck: &[u8]) -> OpenPanelAnswer
    ensures { result ≡ verdict_numbers (verdict_of (deck_judged deck.now)) }
{
    tablet::open_panel_box_judge(deck)
}

// Where a box has the card of a number. Where it has none the part is all 0.
#[unsafe(no_mangle)]
pub extern "C" fn open_panel_box_find(
    deck: &[u8],
    number: u16,
    part: &mut [usize; 3],
) -> OpenPanelAnswer
    ensures { PartTold (located deck.now number) part.old part.new result }
{
    tablet::open_panel_box_find(deck, number, part)
}

// The same in a box with an expansion.
#[unsafe(no_mangle)]
pub extern "C" fn open_panel_box_find_with(
    base: &[u8],
    expansion: &[u8],
    number: u16,
    part: &mut [usize; 3],
) -> OpenPanelAnswer
    ensures { PartTold (located_with base.now expansion.now number) part.old part.new result }
{
    tablet::open_panel_box_find_with(base, expansion, number, part)
}

// A box without gaps, from contents without a count byte and the bodies joined.
#[unsafe(no_mangle)]
pub extern "C" fn open_panel_box_write(
    contents: &[u8],
    bodies: &[u8],
    room: &mut [u8],
) -> OpenPanelAnswer
    ensures { Told room.old room.new (write_deck_said contents.now bodies.now) result }
{
    tablet::open_panel_box_write(contents, bodies, room)
}

// A damaged box mended: the new deck, and a list with a line for each entry, whose length goes into the lent number.
#[unsafe(no_mangle)]
pub extern "C" fn open_panel_mend(
    deck: &[u8],
    room: &mut [u8],
    list: &mut [u8],
    list_length: &mut [usize; 1],
) -> OpenPanelAnswer
    ensures { RoomsTold (lent (two room.old list.old) list_length.old) (lent (two room.new list.new) list_length.new) (mend_said deck.now) result }
{
    tablet::open_panel_mend(deck, room, list, list_length)
}

// A box from before decimals were retired, converted: the new deck.
#[unsafe(no_mangle)]
pub extern "C" fn open_panel_convert(deck: &[u8], room: &mut [u8]) -> OpenPanelAnswer
    ensures { Told room.old room.new (convert_said deck.now) result }
{
    tablet::open_panel_convert(deck, room)
}

// A box tidied within the lent deck: withdrawn entries dropped, gaps closed, zero bytes behind the new length.
#[unsafe(no_mangle)]
pub extern "C" fn open_panel_tidy(deck: &mut [u8]) -> OpenPanelAnswer
    ensures { DeckTold deck.old deck.new (tidy_said deck.old) result }
{
    tablet::open_panel_tidy(deck)
}

// A live card added to a box within the lent deck, which is tidied.
#[unsafe(no_mangle)]
pub extern "C" fn open_panel_add(deck: &mut [u8], number: u16, card: &[u8]) -> OpenPanelAnswer
    ensures { DeckTold deck.old deck.new (add_said deck.old number card.now) result }
{
    tablet::open_panel_add(deck, number, card)
}

// The line of class counts for a spectator, by a list of the states' classes.
#[unsafe(no_mangle)]
pub extern "C" fn open_panel_watch(
    card: &[u8],
    seats: &[u8],
    classes: &[u8],
    room: &mut [u8],
) -> OpenPanelAnswer
    ensures { Told room.old room.new (watch_said card.now seats.now classes.now) result }
{
    tablet::open_panel_watch(card, seats, classes, room)
}

// The first statement that some seat may take: its place on the card answers 0 and the place, nobody 0 and 0.
#[unsafe(no_mangle)]
pub extern "C" fn open_panel_first_move(card: &[u8], seats: &[u8]) -> OpenPanelAnswer
    ensures { result ≡ moved_numbers (move_said card.now seats.now) }
{
    tablet::open_panel_first_move(card, seats)
}

// The chance that a question becomes true within m steps, in millionths; the rows hold round m and the round before it.
#[unsafe(no_mangle)]
pub extern "C" fn open_panel_odds(
    card: &[u8],
    question: &[u8],
    seats: &[u8],
    m: usize,
    largest: u8,
    first: &mut [u32],
    second: &mut [u32],
) -> OpenPanelAnswer
    ensures { RowsTold (two first.old second.old) (two first.new second.new) (odds_said card.now question.now seats.now m (aim_by largest) (length first.old) (length second.old)) result }
{
    tablet::open_panel_odds(card, question, seats, m, largest, first, second)
}
