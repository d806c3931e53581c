// A book of ties over one scale: it takes ties and takes the last off again, draws sheets of all solutions, answers
// queries, and loads and writes tie files.

#![tactic(auto)]

pub use crate::book::{Book, Closed, Open};

mod book;
mod dividing;
mod empty;
mod evidence;
pub mod fault;
mod measuring;
mod pivot;
pub mod reading;
mod rows;
mod settling;
mod standing;
mod table;
mod taking;
