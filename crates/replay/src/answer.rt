// The answers of a run.

use book::fault::{LoadFault, PostFault, SheetFault, WithdrawFault, WriteFault};
use book::reading::Reading;
use ties::fault::TieFault;

// What a call answered, and what its list then holds.
#[derive(Drop)]
pub enum Answer {
    Post(Result<u8, PostFault>, Vec<u32>),
    Load(Result<usize, LoadFault>, Vec<u32>),
    Withdraw(Result<(), WithdrawFault>),
    Query(Result<Reading, TieFault>),
    Sheet(Result<u16, SheetFault>, Vec<u32>),
    Write(Result<usize, WriteFault>, Vec<u8>),
}
