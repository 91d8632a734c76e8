// Weights and branches, read from a card's bytes into the card's array of branches.
#![tactic(auto)]

ghost use Rattle.std.specs.Prelude.{◌≡◌, ◌+◌, ◌≤◌, ◌<◌};
ghost use Rattle.card.specs.Limits.{most_branches, branch_places};
ghost use Rattle.late.specs.State.{late_in, after};
ghost use Rattle.branches.specs.Branches.{Weighed, WeightFrom, UpdateFrom, SettingFrom, SetsFrom, BranchFrom, ClosedBy, past_by, BranchesFrom};

use card::Refusal;
use card::limits::{BRANCH_PLACES, MOST_BRANCHES};
use card::refusals::{OUT_OF_SHAPE, PAST_LIMIT, WRONG_WEIGHT};
use due_signs::{step_further, step_sign, step_slash};
use due_words::step_number;
use late::blame;
use late::state::State;
use late_weights::{judge_form, judge_sum};
use marks::{Cursor, Found};
use marks_on_a_card::kinds::{
    AND, COLON, DECIMAL, EQUAL, NUMBER, PLUS, PRIME, ROUND_CLOSE, ROUND_OPEN, SEAT, SEMICOLON,
    SHARED, SLASH,
};
use packing::pack_branch;
use parts::{number, run, sign};
use weights::Weight;
use word_and_digit_looks::all_here;

// What the numbers in a card's branches are held to: its top state, how many values its shared number has (0: there is
// none), and whether a decimal may be a weight.
#[derive(Clone, Copy)]
pub struct Bounds {
    pub top: usize,
    pub values: usize,
    pub decimals: bool,
}

// The units of a weight become the value. A weight that breaks its rule counts nothing, and is a late refusal.
fn weighed(judged: Option<Weight>, place: usize, state: &mut State)
    ensures { Weighed judged place state.old state.new }
{
    match judged {
        Some(weight) => {
            state.value = weight.units as usize;
        }
        None => {
            blame(state, WRONG_WEIGHT, place);
            state.value = 0;
        }
    }
}

// A number, two numbers with `/` between, or a decimal, by the rule of a weight; its units become the value.
fn weight(card: &[u8], at: usize, decimals: bool, state: &mut State) -> Result<usize, Refusal>
    ensures { WeightFrom decimals card.now at (late_in state.old) (after state.new result) }
{
    let step = step_number(card, at);
    let mark = step.mark;
    let next = step.next;
    if mark.kind == DECIMAL {
        judge_form(decimals, mark.place, state);
        let judged = Weight::decimal(mark.value, mark.digits, mark.further);
        weighed(judged, mark.place, state);
        return Ok(next.at);
    }
    if mark.kind != NUMBER {
        return Err(Refusal {
            number: OUT_OF_SHAPE,
            place: mark.place,
        });
    }
    let slash = step_slash(card, next.at);
    let second = slash.mark;
    let behind = slash.next;
    if second.kind != SLASH {
        let judged = Weight::whole(mark.value);
        weighed(judged, mark.place, state);
        return Ok(next.at);
    }
    let last = step_number(card, behind.at);
    let third = last.mark;
    let end = last.next;
    if third.kind != NUMBER {
        return Err(Refusal {
            number: OUT_OF_SHAPE,
            place: third.place,
        });
    }
    let judged = Weight::ratio(mark.value, third.value);
    weighed(judged, mark.place, state);
    Ok(end.at)
}

// :(s1'= mark by mark, unless it stands right there.
fn updated(card: &[u8], at: usize, state: &mut State) -> Result<usize, Refusal>
    ensures { UpdateFrom card.now at (late_in state.old) (after state.new result) }
{
    if all_here(card, at, b":(s1'=") {
        return Ok(at + 6);
    }
    let dues = [
        (COLON, 0),
        (ROUND_OPEN, 0),
        (SEAT, 1),
        (PRIME, 0),
        (EQUAL, 0),
    ];
    run(card, at, &dues, state)
}

// & (g'=v) if it stands there, where v may be `most`; one more than v becomes the value, or 0 where nothing is set.
fn setting(card: &[u8], at: usize, most: usize, state: &mut State) -> Result<usize, Refusal>
    ensures { SettingFrom card.now at most (late_in state.old) (after state.new result) }
{
    let step = step_sign(card, at, AND);
    let mark = step.mark;
    if mark.kind != AND {
        state.value = 0;
        return Ok(at);
    }
    let dues = [
        (AND, 0),
        (ROUND_OPEN, 0),
        (SHARED, 0),
        (PRIME, 0),
        (EQUAL, 0),
    ];
    let words = run(card, at, &dues, state)?;
    let read = number(card, words, most, state)?;
    let close = sign(card, read, ROUND_CLOSE)?;
    state.value += 1;
    Ok(close)
}

// The same where a number of so many values is shared; a branch sets nothing where there is none.
fn sets(card: &[u8], at: usize, values: usize, state: &mut State) -> Result<usize, Refusal>
    ensures { SetsFrom card.now at values (late_in state.old) (after state.new result) }
{
    if values == 0 {
        state.value = 0;
        return Ok(at);
    }
    setting(card, at, values - 1, state)
}

// weight:(s1'=t) and what is set; the units become the value.
fn branch(
    card: &[u8],
    at: usize,
    bounds: Bounds,
    branches: &mut [u32; BRANCH_PLACES],
    place: usize,
    state: &mut State,
) -> Result<usize, Refusal>
    requires place_lt_branch_places { place < branch_places }
    ensures { BranchFrom bounds card.now at (late_in state.old) branches.old branches.new place (after state.new result) }
{
    let weighed = weight(card, at, bounds.decimals, state)?;
    let units = state.value;
    let update = updated(card, weighed, state)?;
    let end = number(card, update, bounds.top, state)?;
    let close = sign(card, end, ROUND_CLOSE)?;
    let to = state.value;
    let last = sets(card, close, bounds.values, state)?;
    branches[place] = pack_branch(units as u32, state.value, to);
    state.value = units;
    Ok(last)
}

// The mark behind the last branch has to be the `;`, where the sum is judged; the number of branches becomes the value.
fn closed(
    mark: Found,
    next: usize,
    count: usize,
    total: usize,
    state: &mut State,
) -> Result<usize, Refusal>
    ensures { ClosedBy mark next count total (late_in state.old) (after state.new result) }
{
    if mark.kind != SEMICOLON {
        return Err(Refusal {
            number: OUT_OF_SHAPE,
            place: mark.place,
        });
    }
    judge_sum(total, mark.place, state);
    state.value = count;
    Ok(next)
}

// One branch too many starts with a weight's first mark.
fn past(mark: Found) -> Refusal
    ensures { result ≡ past_by mark }
{
    let number = if mark.kind == NUMBER || mark.kind == DECIMAL {
        PAST_LIMIT
    } else {
        OUT_OF_SHAPE
    };
    Refusal {
        number,
        place: mark.place,
    }
}

// The branches of a statement, from place `first` of the array on, and the `;`; the number of branches becomes the value.
pub fn branches(
    card: &[u8],
    at: usize,
    bounds: Bounds,
    array: &mut [u32; BRANCH_PLACES],
    first: usize,
    state: &mut State,
) -> Result<usize, Refusal>
    requires most_branches_bound { first + most_branches ≤ branch_places }
    ensures { BranchesFrom bounds card.now at (late_in state.old) array.old array.new first (after state.new result) }
{
    let mut next = at;
    let mut total = 0;
    for count in 0..MOST_BRANCHES {
        let read = branch(card, next, bounds, array, first + count, state)?;
        total += state.value;
        let step = step_further(card, read);
        let mark = step.mark;
        if mark.kind != PLUS {
            return closed(mark, step.next.at, count + 1, total, state);
        }
        next = step.next.at;
    }
    let cursor = Cursor { at: next };
    let step = cursor.step(card);
    Err(past(step.mark))
}
