// The refusal numbers (document 01, "Refusal numbers"; document 02); specs/Refusals.antt has the same numbers for the contracts.

pub const TOO_LONG: u8 = 1;

pub const OUTSIDE_RULES: u8 = 2;

pub const OUT_OF_SHAPE: u8 = 3;

pub const PAST_LIMIT: u8 = 4;

pub const ABOVE_TOP: u8 = 5;

pub const NOT_DUE: u8 = 6;

pub const WRONG_WEIGHT: u8 = 7;

pub const WRONG_SEATS: u8 = 8;

pub const SEAT_ABOVE_TOP: u8 = 9;

pub const ROOM_TOO_SMALL: u8 = 10;

pub const MALFORMED_DECK: u8 = 11;

pub const NO_LIVE_CARD: u8 = 12;

pub const WRONG_CLASSES: u8 = 13;

pub const DECIMAL_WEIGHT: u8 = 17;

pub const NOT_CONVERTED: u8 = 18;

pub const NOT_ADDED: u8 = 19;
