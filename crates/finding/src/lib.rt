// The bytes of a card in a box, alone or with an expansion (document 02, 2026-02).
#![tactic(auto)]

ghost use Rattle.std.specs.Prelude.{◌≡◌, ◌+◌, ◌≤◌, length, drop, take};
ghost use Rattle.deck.specs.Lookup.{find as find_said, find_with as find_with_said};
ghost use Rattle.boxes.specs.Boxes.{told, Found};
ghost use Rattle.card.specs.Verdict.{verdict_in};

use boxes::{EXPANSION, Place, locate, locate_with};
use card::Refusal;

// The bytes of a part.
fn part<'a>(deck: &'a [u8], offset: usize, size: usize) -> &'a [u8]
    requires { offset + size ≤ length deck.now }
    ensures { result.now ≡ take size (drop offset deck.now) }
{
    let end = offset + size;
    &deck[offset..end]
}

// What is refused in two lent numbers, 0 and 0 where nothing is.
fn tell(found: Result<Place, Refusal>, numbers: &mut [usize; 2])
    ensures { numbers.new ≡ told (verdict_in found) numbers.old }
{
    match found {
        Ok(_) => *numbers = [0, 0],
        Err(refusal) => *numbers = [usize::from(refusal.number), refusal.place],
    }
}

// The card's bytes as they stand in the box, and its refusal's number and place, or 0 and 0; a refusal hands back an empty part.
pub fn find<'a>(deck: &'a [u8], number: u16, verdict: &mut [usize; 2]) -> &'a [u8]
    ensures { Found (find_said deck.now number) result.now verdict.old verdict.new }
{
    let found = locate(deck, number);
    tell(found, verdict);
    match found {
        Ok(place) => part(deck, place.offset, place.size),
        Err(_) => &deck[..0],
    }
}

// The same in a box with an expansion: a part of one of the two decks.
pub fn find_with<'a>(
    base: &'a [u8],
    expansion: &'a [u8],
    number: u16,
    verdict: &mut [usize; 2],
) -> &'a [u8]
    ensures { Found (find_with_said base.now expansion.now number) result.now verdict.old verdict.new }
{
    let found = locate_with(base, expansion, number);
    tell(found, verdict);
    match found {
        Ok(place) => {
            let deck = if place.which == EXPANSION {
                expansion
            } else {
                base
            };
            part(deck, place.offset, place.size)
        }
        Err(_) => &base[..0],
    }
}
