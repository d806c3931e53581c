// Tie files: a table of contents, then the body of a layout and the bodies of ties.
// A file is checked as a whole, and its bodies are read where they stand.

#![tactic(auto)]

ghost use Rattle.std.specs.Prelude.{◌≡◌, MatchResult};
ghost use Rattle.tie_file.specs.Reading.{Bad};
ghost use Rattle.tie_file.specs.Table.{WellFormed};

use crate::checks::Contents;
use crate::fault::FileFault;
use crate::file::TieFile;

pub mod body;
mod checks;
pub mod entry;
pub mod fault;
pub mod file;
pub mod parts;
pub mod source;
pub mod writing;

// A longer file is refused.
pub const MOST_BYTES: usize = 16_384;

// The file, where it is well formed. Each check is made over the whole of it before the next.
pub fn verify(file: &[u8]) -> Result<TieFile<'_>, FileFault>
    ensures { let f = file.now in MatchResult result (λ t. WellFormed f × (t ≡ f)) (Bad f) }
{
    let contents = Contents::read(file).ok_or(FileFault::Contents)?;
    if !contents.entries_follow() {
        return Err(FileFault::Entry);
    }
    if !contents.bodies_fit() {
        return Err(FileFault::Body);
    }
    Ok(TieFile {
        bytes: file,
        ties: contents.count - 1,
    })
}
