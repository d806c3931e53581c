// What is timed, over the scale of the file's mark.

use book::fault::PostFault;
use book::{Book, Open};
use scale::Scale;
use scales::{Binary, Prime};
use std::alloc::Global;
use tie_file::file::TieFile;
use tie_file::verify;
use ties::tie::Tie;

#[derive(Clone, Copy)]
pub enum Task {
    Whole,
    Unload,
    Refuse,
    Draw,
}

// No number of free digits: the file is none that can be timed.
const NONE: u32 = u32::MAX;

// The work over counting in base 2, or in base 3, 5 or 7.
pub fn with_scale(heap: Global, bytes: &[u8], task: Task, times: u32) -> u32 {
    let Ok(file) = verify(bytes) else {
        return NONE;
    };
    let mark = file.layout().mark;
    if let Ok(scale) = Prime::new(mark.base, mark.length) {
        return perform(heap, scale, &file, task, times);
    }
    match Binary::new(mark.length) {
        Ok(scale) => perform(heap, scale, &file, task, times),
        Err(_) => NONE,
    }
}

fn perform<S: Scale + Copy + Drop>(
    heap: Global,
    scale: S,
    file: &TieFile,
    task: Task,
    times: u32,
) -> u32 {
    match task {
        Task::Whole => whole(heap, scale, file, times),
        Task::Unload => unload(heap, scale, file, times),
        Task::Refuse => refuse(heap, scale, file, times),
        Task::Draw => draw(heap, scale, file, times),
    }
}

// A book in which the ties of the file stand.
fn loaded<S: Scale + Drop>(heap: Global, scale: S, file: &TieFile) -> Option<Book<S, Open>> {
    let stated = file.layout();
    let mut book = Book::new(heap, scale, stated.heads, stated.widths).ok()?;
    let _ = book.post_all(file, &mut [0; 64]);
    Some(book)
}

// Draws the sheet, which is part of the work that is timed, and answers the free digits.
fn drawn<S: Scale>(book: &Book<S, Open>) -> u32 {
    // a sheet has 32 × 33 numbers at most
    let mut sheet = [0; 1056];
    book.sheet(&mut sheet).map_or(NONE, u32::from)
}

fn whole<S: Scale + Copy + Drop>(heap: Global, scale: S, file: &TieFile, times: u32) -> u32 {
    let mut free = NONE;
    for _ in 0..times {
        free = match loaded(heap, scale, file) {
            Some(book) => drawn(&book),
            None => NONE,
        };
    }
    free
}

fn unload<S: Scale + Copy + Drop>(heap: Global, scale: S, file: &TieFile, times: u32) -> u32 {
    let mut free = NONE;
    for _ in 0..times {
        let Some(mut book) = loaded(heap, scale, file) else {
            return NONE;
        };
        for _ in 0..file.ties() {
            let _ = book.withdraw();
        }
        free = drawn(&book);
    }
    free
}

// Each sheet is drawn to another place, so that a compiler can't leave one out.
fn draw<S: Scale + Copy + Drop>(heap: Global, scale: S, file: &TieFile, times: u32) -> u32 {
    let Some(book) = loaded(heap, scale, file) else {
        return NONE;
    };
    let mut sheets = [0; 2112];
    for turn in 0..times {
        let _ = book.sheet(&mut sheets[turn as usize % 1056..]);
    }
    sheets[times as usize % 2112]
}

fn refuse<S: Scale + Copy + Drop>(heap: Global, scale: S, file: &TieFile, times: u32) -> u32 {
    let Some(mut book) = loaded(heap, scale, file) else {
        return NONE;
    };
    let Some(last) = file.tie(file.ties().saturating_sub(1)) else {
        return NONE;
    };
    let other = Tie {
        right: scale.sum(last.right, scale.one()),
        ..last.tie()
    };
    // with 64 ties standing there would be no contradiction to look for
    let _ = book.withdraw();
    let _ = book.withdraw();
    let mut multipliers = [0; 64];
    for _ in 0..times {
        if !matches!(
            book.post(&other, &mut multipliers),
            Err(PostFault::Contradiction)
        ) {
            return NONE;
        }
    }
    drawn(&book)
}
