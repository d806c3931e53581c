// Runs the check of multipliers on files that are right, damaged, and refused in each way.

#![tactic(auto)]

#[cfg(test)]
mod files;
#[cfg(test)]
mod tests;
