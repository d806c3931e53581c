// Calls on a book.

ghost use Rattle.replay.specs.Performed.{Looked, Performed, PerformedAll};
ghost use Rattle.replay.specs.Runs.{views};
ghost use Rattle.std.specs.Prelude.{◌≡◌, IfOk, MatchResult};

use crate::answer::Answer;
use crate::call::{Call, View};
use book::{Book, Open};
use scale::Scale;
use std::alloc::{AllocError, Global};

// Performs the calls one after the other, and puts their answers behind those before.
pub fn perform_all<S: Scale>(
    heap: Global,
    book: &mut Book<S, Open>,
    calls: &[Call],
    answers: &mut Vec<Answer>,
) -> Result<(), AllocError>
    ensures { IfOk result (λ _. PerformedAll S.Scale.meaning book.old calls.now answers.old.items book.new answers.new.items) }
{
    for call in calls {
        answers.push(perform(heap, book, call)?)?;
    }
    Ok(())
}

// Performs the calls that both phases take.
pub fn look_all<S: Scale, P>(
    heap: Global,
    book: &Book<S, P>,
    calls: &[View],
    answers: &mut Vec<Answer>,
) -> Result<(), AllocError>
    ensures { IfOk result (λ _. PerformedAll S.Scale.meaning book.now (views calls.now) answers.old.items book.now answers.new.items) }
{
    for call in calls {
        answers.push(look(heap, book, call)?)?;
    }
    Ok(())
}

// Performs a call on an open book, with a copy of the list that it hands over. Without memory for the copy the call is not
// made.
fn perform<S: Scale>(
    heap: Global,
    book: &mut Book<S, Open>,
    call: &Call,
) -> Result<Answer, AllocError>
    ensures { MatchResult result (λ a. Performed S.Scale.meaning book.old call.now a book.new) (λ _. book.new ≡ book.old) }
{
    match call {
        Call::Post(tie, numbers) => {
            let mut list = Vec::from_slice(heap, numbers)?;
            let answer = book.post(tie, &mut list);
            Ok(Answer::Post(answer, list))
        }
        Call::Load(file, numbers) => {
            let mut list = Vec::from_slice(heap, numbers)?;
            let answer = book.load(file, &mut list);
            Ok(Answer::Load(answer, list))
        }
        Call::Withdraw => Ok(Answer::Withdraw(book.withdraw())),
        Call::View(view) => look(heap, book, view),
    }
}

// Performs a call that both phases take, with a copy of the list that it hands over.
fn look<S: Scale, P>(heap: Global, book: &Book<S, P>, view: &View) -> Result<Answer, AllocError>
    ensures { IfOk result (λ a. Looked S.Scale.meaning book.now view.now a) }
{
    match view {
        View::Query(tie) => Ok(Answer::Query(book.query(tie))),
        View::Sheet(numbers) => {
            let mut list = Vec::from_slice(heap, numbers)?;
            let answer = book.sheet(&mut list);
            Ok(Answer::Sheet(answer, list))
        }
        View::Write(bytes) => {
            let mut list = Vec::from_slice(heap, bytes)?;
            let answer = book.write(&mut list);
            Ok(Answer::Write(answer, list))
        }
    }
}
