// Signing, over the sizes of a category and lent scratch. Every round is committed to first; its state, from which
// the reply is made, waits in lent scratch. The signature is written after the last draw.
#![tactic(auto)]

pub mod challenged;
pub mod commit;
pub mod key;
pub mod respond;
pub mod rounds;
pub mod scratch;
pub mod sign;
pub mod sizes;
pub mod state;
pub mod write;
