// The tag byte with which each hashed string begins, by what the string is (specs/Strings). Plain bytes and no enum:
// they are hashed, and no code chooses by them.
pub const COMMITMENT_0: u8 = 0;

pub const COMMITMENT_1: u8 = 1;

pub const RESPONSE: u8 = 2;

pub const ALL_COMMITMENTS_0: u8 = 3;

pub const ALL_COMMITMENTS_1: u8 = 4;

pub const COMMITMENTS: u8 = 5;

pub const ALL_RESPONSES: u8 = 6;

pub const FIRST_CHALLENGES: u8 = 7;

pub const SECOND_CHALLENGE: u8 = 8;

pub const ROUND_SEEDS: u8 = 9;

pub const EXPONENTS: u8 = 10;

pub const MASK_VALUES: u8 = 11;

pub const KEY_SEEDS: u8 = 12;

pub const MATRIX: u8 = 13;
