// What can be wrong with a file.

ghost use Rattle.std.specs.Prelude.{◌≡◌};
ghost use Rattle.tie_file.specs.Reading.{file_refusal};

use refusals::Refusal;

#[derive(Clone, Copy, PartialEq, Eq, Debug)]
pub enum FileFault {
    // the file is empty or too long, its number of entries is wrong, or it ends within its table
    Contents,
    // an entry's kind is wrong, or the bodies do not follow one another up to the file's end
    Entry,
    // a body's length is none of its kind
    Body,
}

impl From<FileFault> for Refusal {
    ghost from_gives = { λ f r. r ≡ file_refusal f };

    fn from(fault: FileFault) -> Refusal {
        match fault {
            FileFault::Contents => Refusal::Contents,
            FileFault::Entry => Refusal::Entry,
            FileFault::Body => Refusal::Body,
        }
    }
}
