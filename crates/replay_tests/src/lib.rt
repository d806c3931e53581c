// Runs on a real book, with every sort of call.

#![tactic(auto)]

#[cfg(test)]
mod own;
#[cfg(test)]
mod tests;
