// An entry's answer in numbers, for C ("Refusal numbers").
#![tactic(auto)]

ghost use Rattle.std.specs.Prelude.{◌≡◌};
ghost use Rattle.evenings.specs.Rounds.{aim_of};
ghost use Rattle.answers.specs.Numbered.{numbers, refusal_numbers, verdict_numbers};
ghost use Rattle.answers.specs.Stands.{Stands};
ghost use Rattle.answers.specs.Aims.{aim_by};

use boxes::Place;
use card::Refusal;

// Number 0: the value is the text's length. Else the refusal's number, and the value is its place.
#[repr(C)]
#[derive(Clone, Copy)]
pub struct OpenPanelAnswer {
    pub number: u8,
    pub value: usize,
}

// Why something is refused.
impl From<Refusal> for OpenPanelAnswer {
    ghost from_gives = { λ e r. r ≡ refusal_numbers e };

    fn from(refusal: Refusal) -> OpenPanelAnswer {
        OpenPanelAnswer {
            number: refusal.number,
            value: refusal.place,
        }
    }
}

// A text's length, or another number.
impl From<Result<usize, Refusal>> for OpenPanelAnswer {
    ghost from_gives = { λ a r. r ≡ numbers a };

    fn from(answer: Result<usize, Refusal>) -> OpenPanelAnswer {
        match answer {
            Ok(value) => OpenPanelAnswer { number: 0, value },
            Err(refusal) => OpenPanelAnswer::from(refusal),
        }
    }
}

// What is judged: 0 and 0 where nothing is refused.
impl From<Result<(), Refusal>> for OpenPanelAnswer {
    ghost from_gives = { λ v r. r ≡ verdict_numbers v };

    fn from(verdict: Result<(), Refusal>) -> OpenPanelAnswer {
        match verdict {
            Ok(()) => OpenPanelAnswer {
                number: 0,
                value: 0,
            },
            Err(refusal) => OpenPanelAnswer::from(refusal),
        }
    }
}

// In three lent numbers: 0 for the base or 1 for the expansion, the first byte there, and how many bytes; all 0 where it is refused.
pub fn tell_part(found: Result<Place, Refusal>, part: &mut [usize; 3]) -> OpenPanelAnswer
    ensures { Stands found part.old part.new result }
{
    match found {
        Ok(place) => {
            *part = [place.which, place.offset, place.size];
            OpenPanelAnswer {
                number: 0,
                value: 0,
            }
        }
        Err(refusal) => {
            *part = [0, 0, 0];
            OpenPanelAnswer::from(refusal)
        }
    }
}

// 0 asks for the smallest, any other number for the largest.
pub fn is_largest(aim: u8) -> bool
    ensures { aim_of result ≡ aim_by aim }
{
    aim != 0
}
