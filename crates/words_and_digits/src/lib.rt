// Digits as numbers, seat words, module words and keywords ("Marks on a card").
#![tactic(auto)]

ghost use Rattle.std.specs.Prelude.{◌≡◌, true, [], ◌∷◌, length, drop, ◌≤◌};
ghost use Rattle.marks_on_a_card.specs.Bytes.{run, is_digit as is_digit_said, in_word, every};
ghost use Rattle.marks_on_a_card.specs.Digits.{plain, pointed, Counted, grown_by};
ghost use Rattle.words_and_digits.specs.Numbered.{Numbered};
ghost use Rattle.marks_on_a_card.specs.Kinds.{knowns};
ghost use Rattle.words_and_digits.specs.Begun.{lettered, begun_in};

use card::limits::WORD_DIGITS;
use letters::bytes::{begins_at, digit_at, is_digit, stands, word_at};
use marks_on_a_card::Digits;
use marks_on_a_card::kinds::{
    ENDMODULE, GLOBAL, INIT, MODULE, NONDETERMINISTIC, PROBABILISTIC, SHARED,
};

// A number below this takes one more digit.
const HELD: usize = 1000000000000000000;

// One digit more, while the number is held.
fn grown(value: usize, b: u8) -> usize
    requires { is_digit_said b ≡ true }
    ensures { result ≡ grown_by value b }
{
    if value < HELD {
        return value * 10 + usize::from(b - b'0');
    }
    value
}

// The digits from a place on.
pub fn digits_from(card: &[u8], from: usize) -> Digits
    ensures { Counted (drop from card.now) result }
{
    let mut digits = Digits { count: 0, value: 0 };
    for at in from..card.len() {
        let b = card[at];
        if !is_digit(b) {
            return digits;
        }
        digits.count += 1;
        digits.value = grown(digits.value, b);
    }
    digits
}

// So many digits from a place on: are they a number of at most `most` digits?
pub fn is_plain(card: &[u8], from: usize, count: usize, most: usize) -> bool
    requires { count ≡ length (run is_digit_said (drop from card.now)) }
    ensures { result ≡ plain most (run is_digit_said (drop from card.now)) }
{
    if count == 0 || most < count {
        return false;
    }
    count == 1 || card[from] != b'0'
}

// A point, and a digit behind it.
#[tactic(auto, using(marks_on_a_card::proofs::Numbers::pointed_at))]
pub fn is_pointed(card: &[u8], at: usize) -> bool
    ensures { result ≡ pointed (drop at card.now) }
{
    stands(card, at, b'.') && digit_at(card, at + 1)
}

// Is the word at a place this beginning and a number? Then its length and the number.
#[tactic(auto, using(crate::proofs::Laws::numbered_off, crate::proofs::Laws::numbered_unplain, crate::proofs::Laws::numbered_more, crate::proofs::Laws::numbered_yes))]
pub fn numbered_at(card: &[u8], at: usize, these: &[u8]) -> Option<Digits>
    requires { (at ≤ length card.now) × (every in_word these.now ≡ true) }
    ensures { Numbered these.now (run in_word (drop at card.now)) result }
{
    if !begins_at(card, at, these) {
        return None;
    }
    let from = at + these.len();
    let d = digits_from(card, from);
    if !is_plain(card, from, d.count, WORD_DIGITS) {
        return None;
    }
    if word_at(card, from + d.count) {
        return None;
    }
    Some(Digits {
        count: these.len() + d.count,
        value: d.value,
    })
}

// A keyword's kind and its size.
#[derive(Clone, Copy)]
pub struct Keyword {
    pub kind: usize,
    pub size: usize,
}

// This keyword, if the card goes on with it.
fn begun(card: &[u8], at: usize, spelt: &[u8], kind: usize) -> Option<Keyword>
    requires { at ≤ length card.now }
    ensures { result ≡ begun_in (record { spelt = spelt.now; kind = kind } ∷ []) (drop at card.now) }
{
    begins_at(card, at, spelt).then_some(Keyword {
        kind,
        size: spelt.len(),
    })
}

// The keyword that the card goes on with, whatever stands behind it; `global` comes before the word that it begins with.
// Written out, not walked as a table: a static table would be the library's only data with addresses in it, and a
// constant one is copied to the stack.
pub fn keyword_begun(card: &[u8], at: usize) -> Option<Keyword>
    requires { at ≤ length card.now }
    ensures { result ≡ begun_in (lettered knowns) (drop at card.now) }
{
    begun(card, at, b"nondeterministic", NONDETERMINISTIC)
        .or_else(|| begun(card, at, b"probabilistic", PROBABILISTIC))
        .or_else(|| begun(card, at, b"module", MODULE))
        .or_else(|| begun(card, at, b"endmodule", ENDMODULE))
        .or_else(|| begun(card, at, b"init", INIT))
        .or_else(|| begun(card, at, b"global", GLOBAL))
        .or_else(|| begun(card, at, b"g", SHARED))
}
