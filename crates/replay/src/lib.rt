// Runs of calls on a real book, and the law that every run keeps.

#![tactic(auto)]

ghost use Rattle.book.specs.Opening.{OpenStopped};
ghost use Rattle.replay.specs.Runs.{Lawful, calls_of};
ghost use Rattle.std.specs.Prelude.{◌≡◌, ◌-◌, ◌^◌, MatchResult, length, min};
ghost use Rattle.ties.specs.Layouts.{Shape};

use crate::answer::Answer;
use crate::call::Turn;
use crate::performing::{look_all, perform_all};
use book::Book;
use book::fault::OpenFault;
use scale::Scale;
use std::alloc::Global;

pub mod answer;
pub mod call;
mod performing;

// Opens a book, performs the calls of each turn on it, first open and then closed, and returns every answer and what each
// list then holds.
pub fn replay<S: Scale + Drop>(
    heap: Global,
    scale: S,
    heads: u8,
    widths: &[u8],
    turns: &[Turn],
) -> Result<Vec<Answer>, OpenFault>
    ensures { let m = S.Scale.meaning scale in let s : Shape = record { heads = heads; widths = widths.now } in MatchResult result (λ answers. Lawful m s (calls_of turns.now) answers.items) (OpenStopped m s) }
{
    let mut book = Book::new(heap, scale, heads, widths)?;
    let mut answers = Vec::with_capacity(heap, count_calls(turns))?;
    for turn in turns {
        perform_all(heap, &mut book, turn.while_open, &mut answers)?;
        let closed = book.close();
        look_all(heap, &closed, turn.while_closed, &mut answers)?;
        book = closed.reopen();
    }
    Ok(answers)
}

// The number of calls in the turns, or the largest number where there are more.
fn count_calls(turns: &[Turn]) -> usize
    ensures { result ≡ min (length (calls_of turns.now)) (2 ^ 64 - 1) }
{
    let mut count: usize = 0;
    for turn in turns {
        let calls = turn
            .while_open
            .len()
            .saturating_add(turn.while_closed.len());
        count = count.saturating_add(calls);
    }
    count
}
