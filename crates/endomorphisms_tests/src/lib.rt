// Matrices over a small group, and tables of equations, one soluble and one not.

#![tactic(auto)]

#[cfg(test)]
mod tests;
