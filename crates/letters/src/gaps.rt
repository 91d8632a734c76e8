// What stands between marks ("Marks on a card"): blanks and comments.
ghost use Rattle.std.specs.Prelude.{◌≡◌, ◌+◌, ◌<◌, length, drop};
ghost use Rattle.marks_on_a_card.specs.Marks.{start_at, gap_of};

use crate::bytes::{is_blank, stands};
use line_ends::line_end;

// How many bytes the blank or the comment at a place takes; none where a mark starts.
pub fn gap(card: &[u8], at: usize, b: u8) -> usize
    requires { at < length card.now }
    ensures { result ≡ gap_of (start_at b (drop (at + 1) card.now)) }
{
    if b == b' ' {
        return 1;
    }
    if b'/' < b {
        return 0;
    }
    if b == b'/' {
        let next = at + 1;
        if stands(card, next, b'/') {
            let end = line_end(card, next);
            return end - at;
        }
        return 0;
    }
    if b' ' < b {
        return 0;
    }
    if is_blank(b) {
        return 1;
    }
    0
}
