// Seats judged, and counted by their states ("Refusal numbers", "What a card means").
#![tactic(auto)]

ghost use Rattle.std.specs.Prelude.{◌≡◌, ℕ, map, ltb, take};
ghost use Rattle.card.specs.Limits.{top_state};
ghost use Rattle.card.specs.Refusals.{seat_above_top};
ghost use Rattle.meaning.specs.Sums.{upto};
ghost use Rattle.meaning.specs.Seats.{count, counts as counts_of};
ghost use Rattle.card.specs.Text.{when◌then◌else◌};
ghost use Rattle.card.specs.Verdict.{Taken, Refused};
ghost use Rattle.seating.specs.Judged.{judged_from, judged_seats, shared_at};

use card::Refusal;
use card::limits::MOST_STATES;
use card::refusals::{SEAT_ABOVE_TOP, WRONG_SEATS};

// Is each of them at most `most`? The first above is refused with the number.
pub fn judge_each(list: &[u8], most: usize, number: u8) -> Result<(), Refusal>
    ensures { result ≡ judged_from number most 0 list.now }
{
    for (i, byte) in list.iter().enumerate() {
        let value = usize::from(*byte);
        if most < value {
            return Err(Refusal { number, place: i });
        }
    }
    Ok(())
}

// Is it one of the values of the shared number, of which there are some?
#[tactic(auto, using(std::proofs::lemmas::Bool::Decides::nat_tests))]
fn judge_shared(value: usize, shared: usize, place: usize) -> Result<(), Refusal>
    ensures { result ≡ (when ltb value shared then Taken else Refused seat_above_top place) }
{
    if value < shared {
        return Ok(());
    }
    Err(Refusal {
        number: SEAT_ABOVE_TOP,
        place,
    })
}

// Are they seats for a card of n seats and top state `top`, whose shared number has so many values (0: there is none)?
pub fn judge_seats(seats: &[u8], n: usize, top: usize, shared: usize) -> Result<(), Refusal>
    ensures { result ≡ judged_seats n top shared seats.now }
{
    let wrong = Refusal {
        number: WRONG_SEATS,
        place: 0,
    };
    if shared == 0 {
        if seats.len() != n {
            return Err(wrong);
        }
        return judge_each(seats, top, SEAT_ABOVE_TOP);
    }
    if seats.len() <= n || seats.len() - n != 1 {
        return Err(wrong);
    }
    judge_each(&seats[..n], top, SEAT_ABOVE_TOP)?;
    judge_shared(usize::from(seats[n]), shared, n)
}

// The value of the shared number, which stands behind n seats; 0 where there is none.
pub fn shared_of(seats: &[u8], n: usize, shared: usize) -> usize
    ensures { result ≡ shared_at n shared seats.now }
{
    if shared == 0 {
        return 0;
    }
    seats.get(n).copied().map_or(0, usize::from)
}

// How many of the first n seats are counted as 0, 1, up to N - 1, by what a function makes of a seat's state; any other
// seat is passed over.
pub fn count_by<const N: usize, F: Fn(u8) -> usize>(seats: &[u8], n: usize, of: F) -> [usize; N]
    requires { F.IsAlwaysCallable of }
    ensures { (f : ℕ → ℕ) → ((a r : ℕ) → F.post of a r → r ≡ f a) → result ≡ upto N (λ d. count d (map f (take n seats.now))) }
{
    let mut counts: [usize; N] = [0; N];
    let counted = &seats[..n.min(seats.len())];
    for seat in counted {
        let kind = of(*seat);
        if kind < N {
            counts[kind] += 1;
        }
    }
    counts
}

// How many of the first n seats are in each state that there can be; any other seat is passed over.
pub fn count_seats(seats: &[u8], n: usize) -> [usize; MOST_STATES]
    ensures { result ≡ counts_of top_state (take n seats.now) }
{
    count_by(seats, n, usize::from)
}
