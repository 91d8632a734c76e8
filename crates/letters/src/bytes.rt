// Classes of bytes, and runs of them ("Marks on a card").
ghost use Rattle.std.specs.Prelude.{◌≡◌, ◌≤◌, length, drop, eqb};
ghost use Rattle.marks_on_a_card.specs.Bytes.{is_digit as is_digit_said, is_letter as is_letter_said, in_word, is_blank as is_blank_said, is_sign as is_sign_said, begins, is_alone as is_alone_said, in_number, run_end, begun};

pub fn is_digit(b: u8) -> bool
    ensures { result ≡ is_digit_said b }
{
    b.is_ascii_digit()
}

pub fn is_letter(b: u8) -> bool
    ensures { result ≡ is_letter_said b }
{
    b.is_ascii_alphabetic()
}

// Mostly a sign is asked for, which stands below the letters: two tests.
pub fn in_word(b: u8) -> bool
    ensures { result ≡ in_word b }
{
    if b < b'A' {
        return is_digit(b);
    }
    b == b'_' || is_letter(b)
}

pub fn is_blank(b: u8) -> bool
    ensures { result ≡ is_blank_said b }
{
    matches!(b, b' ' | b'\t' | b'\r' | b'\n')
}

// One of `[]:;=!&|()+',/`, by one test of a machine word.
pub fn is_sign(b: u8) -> bool
    ensures { result ≡ is_sign_said b }
{
    matches!(
        b,
        b'!' | b'&'..=b')' | b'+' | b',' | b'/' | b':' | b';' | b'=' | b'[' | b']' | b'|'
    )
}

// A sign that begins no other mark; the most frequent bytes take the fewest tests.
pub fn is_alone(b: u8) -> bool
    ensures { result ≡ is_alone_said b }
{
    if b < b'0' {
        if b < b'&' {
            return false;
        }
        if b',' < b {
            return false;
        }
        return b != b'*';
    }
    if b < b':' {
        return false;
    }
    if b < b'>' {
        return b != b'<';
    }
    if b'a' <= b {
        return b == b'|';
    }
    if b == b'[' {
        return true;
    }
    b == b']'
}

// Does this byte stand at a place?
pub fn stands(card: &[u8], at: usize, b: u8) -> bool
    ensures { result ≡ begins (eqb b) (drop at card.now) }
{
    at < card.len() && b == card[at]
}

// Does a word go on at a place?
pub fn word_at(card: &[u8], at: usize) -> bool
    ensures { result ≡ begins in_word (drop at card.now) }
{
    at < card.len() && in_word(card[at])
}

pub fn digit_at(card: &[u8], at: usize) -> bool
    ensures { result ≡ begins is_digit_said (drop at card.now) }
{
    at < card.len() && is_digit(card[at])
}

// Does a number go on at a place, with a digit or a point?
pub fn number_at(card: &[u8], at: usize) -> bool
    ensures { result ≡ begins in_number (drop at card.now) }
{
    at < card.len() && (card[at] == b'.' || is_digit(card[at]))
}

pub fn word_end(card: &[u8], from: usize) -> usize
    ensures { result ≡ run_end in_word card.now from }
{
    for at in from..card.len() {
        if !in_word(card[at]) {
            return at;
        }
    }
    from.max(card.len())
}

// Does the card go on with these bytes? By a loop: the bytes are known where it is called, so the compiler tests a few
// words, where the library's `starts_with` is a call of a comparison for any length.
pub fn begins_at(card: &[u8], at: usize, these: &[u8]) -> bool
    requires { at ≤ length card.now }
    ensures { result ≡ begun these.now (drop at card.now) }
{
    if card.len() - at < these.len() {
        return false;
    }
    for i in 0..these.len() {
        if card[at + i] != these[i] {
            return false;
        }
    }
    true
}
