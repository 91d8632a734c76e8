// A further module that stands as a written card has it, or tight, passed in one look at its bytes.
#![tactic(auto)]

ghost use Rattle.std.specs.Prelude.{◌≡◌, ◌≤◌};
ghost use Rattle.card.specs.Limits.{most_seats};
ghost use Rattle.frame.specs.Frame.{past_word as past_word_said, past_copy as past_copy_said};

use letters::bytes::stands;
use word_and_digit_looks::word_here;

// The place behind these bytes, where they stand and no word goes on behind them.
fn past_word(card: &[u8], at: usize, these: &[u8]) -> Option<usize>
    ensures { result ≡ past_word_said these.now card.now at }
{
    if word_here(card, at, these) {
        return Some(at + these.len());
    }
    None
}

// The bytes of the shortest of the texts below.
const SHORTEST: usize = 40;

// The place behind processi = process1 [s1=si, si=s1] endmodule for seat i, where it stands as in a written card or tight.
// The byte behind the first word tells which.
pub fn past_copy(card: &[u8], at: usize, seat: usize) -> Option<usize>
    requires { seat ≤ most_seats }
    ensures { result ≡ past_copy_said card.now at seat }
{
    if card.len() < SHORTEST || card.len() - SHORTEST < at {
        return None;
    }
    if seat < 10 {
        let i = b'0' + seat as u8;
        if stands(card, at + 9, b' ') {
            let mut text: [u8; 45] = *b" process0 = process1 [s1=s0, s0=s1] endmodule";
            text[8] = i;
            text[26] = i;
            text[30] = i;
            return past_word(card, at, &text);
        }
        let mut tight: [u8; 40] = *b" process0=process1[s1=s0,s0=s1]endmodule";
        tight[8] = i;
        tight[23] = i;
        tight[26] = i;
        return past_word(card, at, &tight);
    }
    let i = b'&' + seat as u8;
    if stands(card, at + 10, b' ') {
        let mut text: [u8; 48] = *b" process10 = process1 [s1=s10, s10=s1] endmodule";
        text[9] = i;
        text[28] = i;
        text[33] = i;
        return past_word(card, at, &text);
    }
    let mut tight: [u8; 43] = *b" process10=process1[s1=s10,s10=s1]endmodule";
    tight[9] = i;
    tight[25] = i;
    tight[29] = i;
    past_word(card, at, &tight)
}
