// The kinds of marks; specs/Kinds.antt has the same numbers for the contracts. A sign of one byte has that byte for its kind.

pub const END: usize = 0;

pub const OUTSIDE: usize = 1;

pub const NUMBER: usize = 2;

pub const DECIMAL: usize = 3;

pub const SEAT: usize = 4;

pub const PROCESS: usize = 5;

pub const WORD: usize = 6;

pub const NOT_EQUAL: usize = 7;

pub const NONDETERMINISTIC: usize = 8;

pub const PROBABILISTIC: usize = 9;

pub const MODULE: usize = 10;

pub const ENDMODULE: usize = 11;

pub const INIT: usize = 12;

// the two words of the number that all seats share (document 02, 2026-10)
pub const GLOBAL: usize = 13;

pub const SHARED: usize = 14;

pub const SQUARE_OPEN: usize = b'[' as usize;

pub const SQUARE_CLOSE: usize = b']' as usize;

pub const COLON: usize = b':' as usize;

pub const SEMICOLON: usize = b';' as usize;

pub const EQUAL: usize = b'=' as usize;

pub const NOT: usize = b'!' as usize;

pub const AND: usize = b'&' as usize;

pub const OR: usize = b'|' as usize;

pub const ROUND_OPEN: usize = b'(' as usize;

pub const ROUND_CLOSE: usize = b')' as usize;

pub const PLUS: usize = b'+' as usize;

pub const PRIME: usize = b'\'' as usize;

pub const COMMA: usize = b',' as usize;

pub const SLASH: usize = b'/' as usize;

// `..` and `->` have their first byte for their kind
pub const DOTS: usize = b'.' as usize;

pub const ARROW: usize = b'-' as usize;
