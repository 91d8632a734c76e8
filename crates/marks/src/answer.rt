// A mark without numbers, or with one, and the cursor behind it.
ghost use Rattle.std.specs.Prelude.{◌≡◌};
ghost use Rattle.marks.specs.Parts.{bare_of, valued_of};

use crate::{Cursor, Found, Step};

pub fn bare(kind: usize, place: usize, next: usize) -> Step
    ensures { result ≡ bare_of kind place next }
{
    Step {
        mark: Found {
            kind,
            value: 0,
            digits: 0,
            further: 0,
            place,
        },
        next: Cursor { at: next },
    }
}

pub fn valued(kind: usize, value: usize, place: usize, next: usize) -> Step
    ensures { result ≡ valued_of kind value place next }
{
    Step {
        mark: Found {
            kind,
            value,
            digits: 0,
            further: 0,
            place,
        },
        next: Cursor { at: next },
    }
}
