// Layouts of counters, ties between their start values, and the checks on both.

#![tactic(auto)]

pub mod fault;
pub mod layout;
pub mod owned;
pub mod sound;
mod terms;
pub mod tie;
