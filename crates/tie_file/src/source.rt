// Where the bytes of a tie file come from.

ghost use Rattle.std.specs.Prelude.{IfOk, IfSome};
ghost use Rattle.tie_file.specs.Source.{ReadOf};

use crate::MOST_BYTES;
use std::alloc::Global;
use std::io::{Read, Result};

// As many bytes as tell that a file is too long.
const ENOUGH_BYTES: u64 = MOST_BYTES as u64 + 1;

// Reads the first 16,385 bytes of a file: all, or enough to tell that it is too long.
pub fn read_file<R: Read + Drop>(heap: Global, source: R) -> Result<Vec<u8>>
    ensures { IfOk result (λ bytes. IfSome (R.Read.remaining source) (ReadOf bytes.items)) }
{
    let mut bytes = Vec::new(heap);
    source.take(ENOUGH_BYTES).read_to_end(&mut bytes)?;
    Ok(bytes)
}
