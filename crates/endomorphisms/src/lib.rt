// Equations whose unknowns lie in a finite abelian group, and whose factors are endomorphisms of it.

#![tactic(auto)]

pub mod equation;
pub mod fault;
pub mod images;
pub mod matrix;
pub mod solving;
