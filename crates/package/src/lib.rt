// Packages, over the sizes of a category and lent scratch: a signature, then the line that it signs.
#![tactic(auto)]

pub mod load;
pub mod make;
pub mod sizes;
