// What C is told of a mended deck (document 02, 2026-09): no answer has place for two lengths, so the list's stands in a lent number.
#![tactic(auto)]

ghost use Rattle.mended_told.specs.LentRooms.{Tells};

use answers::OpenPanelAnswer;
use card::Refusal;

// A refusal leaves the lent number as it was.
pub fn tell_mended(
    mended: Result<(usize, usize), Refusal>,
    list_length: &mut [usize; 1],
) -> OpenPanelAnswer
    ensures { Tells mended list_length.old list_length.new result }
{
    match mended {
        Ok((deck, list)) => {
            list_length[0] = list;
            OpenPanelAnswer {
                number: 0,
                value: deck,
            }
        }
        Err(refusal) => OpenPanelAnswer::from(refusal),
    }
}
