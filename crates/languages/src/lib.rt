// Which of the languages of guards is read: how many values the shared number has (0: none is declared), and whether
// a question is read.
#![tactic(auto)]

ghost use Rattle.std.specs.Prelude.{◌≡◌, true, false};

#[derive(Clone, Copy)]
pub struct Language {
    pub values: usize,
    pub question: bool,
}

// A card's, on which the shared number has so many values.
pub fn card_language(values: usize) -> Language
    ensures asks { result.question ≡ false }
    ensures values { result.values ≡ values }
{
    Language {
        values,
        question: false,
    }
}

// A question's on such a card.
pub fn question_language(values: usize) -> Language
    ensures asks { result.question ≡ true }
    ensures values { result.values ≡ values }
{
    Language {
        question: true,
        ..card_language(values)
    }
}
