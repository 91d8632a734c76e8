// Groups of literals, read from a card's bytes.
#![tactic(auto)]

pub mod literal;

ghost use Rattle.std.specs.Prelude.{◌≡◌, ◌&&◌, ◌∷◌, ℕ, eqb};
ghost use Rattle.card.specs.Laid.{sign_number};
ghost use Rattle.marks_on_a_card.specs.Marks.{placed, seat as seat_word};
ghost use Rattle.marks_on_a_card.specs.Kinds.{kind as kind_of};
ghost use Rattle.marks.specs.Step.{marks_at};
ghost use Rattle.reading.specs.Reader.{Place, at as from};
ghost use Rattle.reading.specs.Group.{joint as joint_of, group as group_of};
ghost use Rattle.group.specs.GroupRead.{GroupRead};
ghost use Rattle.group.specs.LiteralRead.{sign_in};

use due_signs::{step_closing, step_joint};
use due_words::step_seat;
use literal::literal;
use literals_due::Tail;
use marks_on_a_card::kinds;
use packing::pack_group;
use seats_seen::{SEATS, kind, note, one_more, want};

// A group that was read: the next cursor, how many seats the group wants (0: it is symmetric for no number of seats),
// its kind, its node, its first d and where that stands.
#[derive(Clone, Copy)]
pub struct Grouped {
    pub next: usize,
    pub want: usize,
    pub kind: usize,
    pub node: u32,
    pub d: usize,
    pub first: usize,
}

// ---- what joins the literals of a group, and the parts of a guard

pub fn joint(any: bool) -> usize
    ensures { result ≡ kind_of (joint_of (sign_in any)) }
{
    if any { kinds::OR } else { kinds::AND }
}

fn sign(any: bool) -> usize
    ensures { result ≡ sign_number (sign_in any) }
{
    any as usize
}

fn same(alike: bool, a: Tail, b: Tail) -> bool
    ensures { result ≡ (alike && (eqb a.relation b.relation && eqb a.d b.d)) }
{
    alike && a.relation == b.relation && a.d == b.d
}

// The rest of a group whose first seat word has the number `seat`; `at` stands behind that word in the part. An error
// is the place where it is out of shape.
pub fn group(part: &[u8], at: usize, seat: usize) -> Result<Grouped, usize>
    ensures { (o n x : ℕ) (p : Place) → GroupRead o part.now n p (group_of p (from (placed (seat_word seat) x ∷ marks_at o part.now at) n)) result }
{
    let first = literal(part, at)?;
    let mut ahead = step_joint(part, first.next);
    let any = ahead.mark.kind == kinds::OR;
    let joint = joint(any);
    let mut seen: [u8; SEATS] = [0; SEATS];
    note(&mut seen, seat);
    let mut count: usize = 1;
    let mut alike = true;
    while ahead.mark.kind == joint {
        let word = step_seat(part, ahead.next.at);
        if word.mark.kind != kinds::SEAT {
            return Err(word.mark.place);
        }
        let more = literal(part, word.next.at)?;
        note(&mut seen, word.mark.value);
        count = one_more(count);
        alike = same(alike, first, more);
        ahead = step_closing(part, more.next, joint);
    }
    if ahead.mark.kind != kinds::ROUND_CLOSE {
        return Err(ahead.mark.place);
    }
    let kind = kind(&seen);
    let sign = sign(any);
    Ok(Grouped {
        next: ahead.next.at,
        want: want(&seen, count, alike),
        kind,
        node: pack_group(kind, sign, first.relation, first.d),
        d: first.d,
        first: first.first,
    })
}
