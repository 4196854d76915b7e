// Theorems carried to the running code: thin functions over the entries, whose contracts say of what they return that
// what is signed verifies and that four replies open the key (duty 3), and that a made package loads.
#![tactic(auto)]

pub mod theorems;

// What making the key, signing and verifying answered.
#[derive(Drop)]
pub struct Signed {
    pub key: u8,
    pub sign: u8,
    pub verify: u8,
}

// What the round examiner answered for the replies to 0 and 1 under one first challenge, then under the other.
#[derive(Drop)]
pub struct FourRounds {
    pub a: u8,
    pub b: u8,
    pub c: u8,
    pub d: u8,
}

// What making the key, making the package, loading it and looking its triple up answered.
#[derive(Drop)]
pub struct Loaded {
    pub key: u8,
    pub make: u8,
    pub load: u8,
    pub lookup: u8,
}
