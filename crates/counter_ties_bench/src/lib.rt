// Work to be timed from outside: each call does its work so many times, and answers the free digits at the end.

#![tactic(auto)]

mod work;

use crate::work::{Task, with_scale};
use std::alloc::Global;

// Opens a book, posts the ties of the file and draws the sheet.
#[unsafe(no_mangle)]
pub extern "C" fn bench_whole(heap: Global, file: &[u8], times: u32) -> u32 {
    with_scale(heap, file, Task::Whole, times)
}

// Opens a book, posts the ties of the file and withdraws them all again.
#[unsafe(no_mangle)]
pub extern "C" fn bench_unload(heap: Global, file: &[u8], times: u32) -> u32 {
    with_scale(heap, file, Task::Unload, times)
}

// Posts the ties of the file, and then, each time, its last one with another right side.
#[unsafe(no_mangle)]
pub extern "C" fn bench_refuse(heap: Global, file: &[u8], times: u32) -> u32 {
    with_scale(heap, file, Task::Refuse, times)
}

// Posts the ties of the file, and then draws the sheet each time; answers some number of a sheet.
#[unsafe(no_mangle)]
pub extern "C" fn bench_draw(heap: Global, file: &[u8], times: u32) -> u32 {
    with_scale(heap, file, Task::Draw, times)
}
