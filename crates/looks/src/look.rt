// Quick looks: does a frequent mark stand right at a place? Each asks two or three bytes at most.
ghost use Rattle.std.specs.Prelude.{◌≡◌, drop};
ghost use Rattle.marks_on_a_card.specs.Quick.{sign_ahead, last_digit as last_digit_said, seat_ahead, digit_behind as digit_behind_said, process_ahead, teen_ahead, past_blank as past_blank_said, past_line as past_line_said};

use letters::bytes::{digit_at, is_alone, stands, word_at};
use word_and_digit_looks::all_here;

// The place behind one blank, where one stands: most marks that are set off are so by one.
pub fn past_blank(card: &[u8], at: usize) -> usize
    ensures { result ≡ past_blank_said card.now at }
{
    if stands(card, at, b' ') {
        return at + 1;
    }
    at
}

// The same, or the place behind the end of a line.
pub fn past_line(card: &[u8], at: usize) -> usize
    ensures { result ≡ past_line_said card.now at }
{
    if stands(card, at, b'\n') {
        return at + 1;
    }
    past_blank(card, at)
}

// A sign of this kind that begins no other mark?
pub fn sign_here(card: &[u8], at: usize, kind: usize) -> bool
    ensures { result ≡ sign_ahead kind (drop at card.now) }
{
    at < card.len() && usize::from(card[at]) == kind && is_alone(card[at])
}

// The number of the one digit that ends a word.
#[tactic(auto, using(word_and_digit_looks::proofs::Looks::digit_none, word_and_digit_looks::proofs::Looks::digit_more))]
fn last_digit(card: &[u8], at: usize) -> Option<usize>
    ensures { result ≡ last_digit_said (drop at card.now) }
{
    if !digit_at(card, at) || word_at(card, at + 1) {
        return None;
    }
    Some(usize::from(card[at] - b'0'))
}

// The number of the seat word with one digit.
#[tactic(auto, using(crate::proofs::Quick::seat_begun))]
pub fn seat_here(card: &[u8], at: usize) -> Option<usize>
    ensures { result ≡ seat_ahead (drop at card.now) }
{
    if stands(card, at, b's') {
        return last_digit(card, at + 1);
    }
    None
}

// The number of the one digit that ends a word behind these bytes.
fn digit_behind(card: &[u8], at: usize, these: &[u8]) -> Option<usize>
    ensures { result ≡ digit_behind_said these.now card.now at }
{
    if all_here(card, at, these) {
        return last_digit(card, at + these.len());
    }
    None
}

// The number of the module word with one digit.
pub fn process_here(card: &[u8], at: usize) -> Option<usize>
    ensures { result ≡ process_ahead card.now at }
{
    digit_behind(card, at, b"process")
}

// The second digit of the seat word from s10 to s19.
pub fn teen_here(card: &[u8], at: usize) -> Option<usize>
    ensures { result ≡ teen_ahead card.now at }
{
    digit_behind(card, at, b"s1")
}
