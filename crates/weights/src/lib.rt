// A branch's weight in units ("Shape of a card"): the unit is a constant of the type, and a weight is made from what stands on a card,
// or breaks the rule.
#![tactic(auto, using(std::proofs::lemmas::Bool::Decides::nat_tests, card::proofs::Weights::tens_least), unfolding(card::specs::Weight::units_of))]

ghost use Rattle.std.specs.Prelude.{◌≡◌};
ghost use Rattle.card.specs.Weight.{units_of, whole as whole_weight, decimal as decimal_weight, ratio as ratio_weight};
ghost use Rattle.weights.specs.Judged.{judged_of};

use card::limits::WEIGHT_DIGITS;

#[derive(Clone, Copy)]
pub struct Weight {
    pub units: u32,
}

impl Weight {
    pub const UNIT: u32 = 277_200;

    // the rule of a weight, by which every entry but the converter reads: may a decimal be one?
    pub const DECIMALS: bool = false;

    // a number alone
    pub fn whole(v: usize) -> Option<Weight>
        ensures { result ≡ judged_of (units_of (whole_weight v)) }
    {
        if v > 1 {
            return None;
        }
        Some(Weight {
            units: v as u32 * Weight::UNIT,
        })
    }

    // v before the point and n digits behind it, which spell f
    pub fn decimal(v: usize, n: usize, f: usize) -> Option<Weight>
        ensures { result ≡ judged_of (units_of (decimal_weight v n f)) }
    {
        if n < 1 || n > WEIGHT_DIGITS {
            return None;
        }
        let one = 10usize.pow(n as u32);
        if v > 1 || f > one {
            return None;
        }
        let all = v * one + f;
        if all > one {
            return None;
        }
        let units = all * (Weight::UNIT as usize / one);
        Some(Weight {
            units: units as u32,
        })
    }

    // a/b
    pub fn ratio(a: usize, b: usize) -> Option<Weight>
        ensures { result ≡ judged_of (units_of (ratio_weight a b)) }
    {
        let unit = Weight::UNIT as usize;
        if b == 0 || unit % b != 0 || a > b {
            return None;
        }
        let units = a * (unit / b);
        Some(Weight {
            units: units as u32,
        })
    }
}
