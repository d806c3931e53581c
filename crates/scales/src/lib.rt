// Three scales: counting in base 2, counting in base 3, 5 or 7, and counting in base 2 under Gray codes.

#![tactic(auto)]

mod any;
mod binary;
mod counting;
mod digits;
mod disc;
mod fault;
mod kind;
mod prime;

pub use any::AnyScale;
pub use binary::Binary;
pub use counting::Counting;
pub use digits::{Digits, Parts};
pub use disc::Disc;
pub use fault::ScaleFault;
pub use kind::Kind;
pub use prime::Prime;
