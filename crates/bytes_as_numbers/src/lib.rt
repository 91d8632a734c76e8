// A byte as a number of the machine's width.
#![tactic(auto)]

ghost use Rattle.std.specs.Prelude.{◌≡◌};

pub fn wide(b: u8) -> usize
    ensures { result ≡ b }
{
    b as usize
}
