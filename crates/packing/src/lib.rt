// A node and a branch as one number each ("What the box holds"). A packer takes an argument that is too large as the largest that it
// takes; a reader of a packed number takes any.
#![tactic(auto, unfolding(card::specs::Laid::pack_node, card::specs::Laid::pack_group, card::specs::Laid::pack_branch, card::specs::Laid::op_of, card::specs::Laid::left_of, card::specs::Laid::right_of, card::specs::Laid::kind_part, card::specs::Laid::sign_part, card::specs::Laid::relation_part, card::specs::Laid::state_part, card::specs::Laid::units_part, card::specs::Laid::set_part, card::specs::Laid::end_part))]

ghost use Rattle.std.specs.Prelude.{◌≡◌, ◌-◌, ◌<◌, min};
ghost use Rattle.card.specs.Limits.{most_states, set_places, node_places, numbers, unit};
ghost use Rattle.card.specs.Card.{one};
ghost use Rattle.card.specs.Laid.{op_or, shared_kind, leaf_number, pack_node as pack_node_said, pack_group as pack_group_said, pack_branch as pack_branch_said, op_of, left_of, right_of as right_of_said, kind_part, sign_part, relation_part, state_part, units_part, set_part, end_part};

use card::limits::{MOST_STATES, NODE_PLACES, NUMBERS, SET_PLACES};
use weights::Weight;

// what a node is: its operator
pub const LEAF: usize = 0;

pub const NOT: usize = 1;

pub const AND: usize = 2;

pub const OR: usize = 3;

// and of a leaf its kind: two for a group, and behind them exactly one seat and the shared number
pub const EVERYONE: usize = 0;

pub const OTHERS: usize = 1;

pub const ONE: usize = 2;

pub const SHARED: usize = 3;

// and of a group its sign and its relation
pub const ALL: usize = 0;

pub const ANY: usize = 1;

pub const IS: usize = 0;

pub const ISNT: usize = 1;

// a branch's units stand above what it sets and its end
const BELOW_UNITS: usize = SET_PLACES * MOST_STATES;

pub fn pack_node(op: usize, left: usize, right: usize) -> u32
    ensures { result ≡ pack_node_said (min op op_or) (min left (node_places - 1)) (min right (node_places - 1)) }
{
    let op = op.min(OR);
    let left = left.min(NODE_PLACES - 1);
    let right = right.min(NODE_PLACES - 1);
    ((op * NODE_PLACES + left) * NODE_PLACES + right) as u32
}

pub fn pack_group(kind: usize, sign: usize, relation: usize, d: usize) -> u32
    ensures { result ≡ pack_group_said (min kind 1) (min sign 1) (min relation 1) (min d numbers) }
{
    let kind = kind.min(OTHERS);
    let sign = sign.min(ANY);
    let relation = relation.min(ISNT);
    let d = d.min(NUMBERS);
    (((kind * 2 + sign) * 2 + relation) * MOST_STATES + d) as u32
}

// a leaf that is exactly one seat in state d
pub fn pack_one(d: usize) -> u32
    ensures { result ≡ leaf_number (one (min d numbers)) }
{
    let d = d.min(NUMBERS);
    (ONE * (4 * MOST_STATES) + d) as u32
}

// a leaf that tests the shared number
pub fn pack_shared(relation: usize, value: usize) -> u32
    ensures { result ≡ pack_group_said shared_kind 0 (min relation 1) (min value numbers) }
{
    let relation = relation.min(ISNT);
    let value = value.min(NUMBERS);
    (SHARED * (4 * MOST_STATES) + (relation * MOST_STATES + value)) as u32
}

// `sets` is 0 where a branch sets nothing, and else one more than what it sets the shared number to
pub fn pack_branch(units: u32, sets: usize, end: usize) -> u32
    ensures { result ≡ pack_branch_said (min units unit) (min sets numbers) (min end numbers) }
{
    let units = units.min(Weight::UNIT) as usize;
    let sets = sets.min(NUMBERS);
    let end = end.min(NUMBERS);
    (units * BELOW_UNITS + (sets * MOST_STATES + end)) as u32
}

// what a packed node or branch holds, part by part
pub fn op_of(node: u32) -> usize
    ensures { result ≡ op_of node }
{
    (node as usize) / NODE_PLACES / NODE_PLACES
}

// a child of node n, read as the highest number below n where it is not below n
pub fn left_of(node: u32, n: usize) -> usize
    ensures child { result ≡ min (left_of node) (n - 1) }
    ensures below { (n ≡ 0 → ⊥) → result < n }
{
    ((node as usize) / NODE_PLACES % NODE_PLACES).min(n.saturating_sub(1))
}

pub fn right_of(node: u32, n: usize) -> usize
    ensures child { result ≡ min (right_of_said node) (n - 1) }
    ensures below { (n ≡ 0 → ⊥) → result < n }
{
    ((node as usize) % NODE_PLACES).min(n.saturating_sub(1))
}

pub fn kind_of(node: u32) -> usize
    ensures { result ≡ kind_part node }
{
    (node as usize) / (4 * MOST_STATES)
}

pub fn sign_of(node: u32) -> usize
    ensures part { result ≡ sign_part node }
    ensures small { result < 2 }
{
    (node as usize) / (2 * MOST_STATES) % 2
}

pub fn relation_of(node: u32) -> usize
    ensures part { result ≡ relation_part node }
    ensures small { result < 2 }
{
    (node as usize) / MOST_STATES % 2
}

pub fn state_of(node: u32) -> usize
    ensures part { result ≡ state_part node }
    ensures small { result < most_states }
{
    (node as usize) % MOST_STATES
}

pub fn units_of(branch: u32) -> u32
    ensures { result ≡ units_part branch }
{
    branch / (BELOW_UNITS as u32)
}

pub fn set_of(branch: u32) -> usize
    ensures part { result ≡ set_part branch }
    ensures small { result < set_places }
{
    (branch as usize) / MOST_STATES % SET_PLACES
}

pub fn end_of(branch: u32) -> usize
    ensures part { result ≡ end_part branch }
    ensures small { result < most_states }
{
    (branch as usize) % MOST_STATES
}
