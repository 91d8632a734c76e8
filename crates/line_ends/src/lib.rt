// Where a comment, or a line, ends ("Marks on a card"): at LF, or at the end of the card.
#![tactic(auto)]

ghost use Rattle.std.specs.Prelude.{◌≡◌};
ghost use Rattle.marks_on_a_card.specs.Bytes.{not_lf, run_end};

pub fn line_end(card: &[u8], from: usize) -> usize
    ensures { result ≡ run_end not_lf card.now from }
{
    for at in from..card.len() {
        if card[at] == b'\n' {
            return at;
        }
    }
    from.max(card.len())
}
