// Verifying signatures and examining single rounds, over the sizes of a category and lent scratch.
#![tactic(auto)]

mod compare;
pub mod key;
pub mod public_key;
pub mod reply;
pub mod rounds;
pub mod verify;
pub mod verify_round;
