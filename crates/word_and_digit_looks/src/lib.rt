// Quick looks for bytes that are handed over, alone or as a whole word, and for a number of one digit: do they stand right at a place?
#![tactic(auto)]

ghost use Rattle.std.specs.Prelude.{◌≡◌, drop};
ghost use Rattle.marks_on_a_card.specs.Quick.{digit_ahead, bytes_ahead, word_ahead};

use letters::bytes::{begins_at, digit_at, number_at, word_at};

// The number of one digit. The look for a word's last digit (crate looks) differs in which byte would go on, and a closure
// for that would ask for a ghost test beside it.
#[tactic(auto, using(crate::proofs::Looks::digit_none, crate::proofs::Looks::digit_more))]
pub fn digit_here(card: &[u8], at: usize) -> Option<usize>
    ensures { result ≡ digit_ahead (drop at card.now) }
{
    if !digit_at(card, at) || number_at(card, at + 1) {
        return None;
    }
    Some(usize::from(card[at] - b'0'))
}

// These bytes?
pub fn all_here(card: &[u8], at: usize, these: &[u8]) -> bool
    ensures { result ≡ bytes_ahead these.now card.now at }
{
    at <= card.len() && begins_at(card, at, these)
}

// These bytes, and no word that goes on behind them?
pub fn word_here(card: &[u8], at: usize, these: &[u8]) -> bool
    ensures { result ≡ word_ahead these.now card.now at }
{
    all_here(card, at, these) && !word_at(card, at + these.len())
}
