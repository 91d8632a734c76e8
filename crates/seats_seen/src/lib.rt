// Which seats stand among a group's literals.
#![tactic(auto, using(std::proofs::lemmas::Bool::Decides::nat_tests), unfolding(crate::specs::SeatsSeen::want_in))]

ghost use Rattle.std.specs.Prelude.{◌≡◌, suc, ◌+◌, ◌≤◌};
ghost use Rattle.card.specs.Limits.{most_seats};
ghost use Rattle.late.specs.Late.{up_to_most};
ghost use Rattle.seats_seen.specs.SeatsSeen.{noted, seen_from, one_more as one_more_said, want_in, kind_in};

use card::limits::MOST_SEATS;

pub const SEATS: usize = MOST_SEATS + 1;

pub fn note(seen: &mut [u8; SEATS], seat: usize)
    ensures { seen.new ≡ noted seen.old seat }
{
    if seat <= MOST_SEATS {
        seen[seat] = 1;
    }
}

pub fn one_more(count: usize) -> usize
    ensures { result ≡ one_more_said count }
{
    if count <= MOST_SEATS {
        count + 1
    } else {
        count
    }
}

#[tactic(auto, using(std::proofs::lemmas::Bool::Decides::nat_tests, crate::proofs::Seats::seen_more, crate::proofs::Seats::seen_end, crate::proofs::Seats::seen_start))]
fn all_seen(seen: &[u8; SEATS], first: usize, count: usize) -> bool
    requires { first + count ≤ suc most_seats }
    ensures { result ≡ seen_from seen.now first count }
{
    for seat in first..first + count {
        if seen[seat] == 0 {
            return false;
        }
    }
    true
}

// The seats 1 to `count`, each of them: so many, or 0.
pub fn each_once(seen: &[u8; SEATS], count: usize) -> usize
    ensures { result ≡ up_to_most count (seen_from seen.now 1 count) }
{
    if count <= MOST_SEATS && all_seen(seen, 1, count) {
        return count;
    }
    0
}

pub fn want(seen: &[u8; SEATS], count: usize, alike: bool) -> usize
    ensures { result ≡ want_in seen.now count alike }
{
    if !alike {
        return 0;
    }
    if seen[1] != 0 {
        return each_once(seen, count);
    }
    if count < MOST_SEATS && all_seen(seen, 2, count) {
        return count + 1;
    }
    0
}

pub fn kind(seen: &[u8; SEATS]) -> usize
    ensures { result ≡ kind_in seen.now }
{
    usize::from(seen[1] == 0)
}
