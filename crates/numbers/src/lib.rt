// Functions of binary64 numbers that Rattle's operators do not give. Each says what it returns for every argument, and
// none asks anything of its caller.
#![tactic(auto)]

mod basic;
mod root;

pub use basic::{abs, clamp, from_bits, is_finite, is_infinite, is_nan, max};
pub use root::{root_exceeds, sqrt};
