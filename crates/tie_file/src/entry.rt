// The entries of a file: each is five bytes of the table, and a body.

ghost use Rattle.std.specs.Prelude.{◌≡◌, ◌+◌, ◌*◌, ◌<◌, ◌≤◌, length, MatchBool, MatchOption, MatchResult};
ghost use Rattle.tie_file.specs.declared.fault.FileFault.TheVariants.{Entry as BadEntry};
ghost use Rattle.tie_file.specs.Reading.{HasEntry, IsEntry, Unknown, kind_number};
ghost use Rattle.tie_file.specs.Steps.{InPlace};
ghost use Rattle.tie_file.specs.Table.{byte, extent_at, kind_at, start_at, word};

use crate::fault::FileFault;

// The kinds of entries, as the table numbers them.
#[derive(Clone, Copy, PartialEq, Eq, Debug)]
pub(crate) enum Kind {
    Layout = 1,
    Tie = 2,
}

impl TryFrom<u8> for Kind {
    type Error = FileFault;

    ghost try_from_gives = { λ n r. MatchResult r (λ k. n ≡ kind_number k) (λ f. Unknown n × (f ≡ BadEntry)) };

    fn try_from(number: u8) -> Result<Kind, FileFault> {
        match number {
            1 => Ok(Kind::Layout),
            2 => Ok(Kind::Tie),
            _ => Err(FileFault::Entry),
        }
    }
}

impl Kind {
    // Whether an entry of this kind may be number `i`: the layout is first, and all others are ties.
    pub(crate) fn stands_at(self, i: usize) -> bool
        ensures { let k = kind_number self in MatchBool result (InPlace i k) (InPlace i k → ⊥) }
    {
        match self {
            Kind::Layout => i == 0,
            Kind::Tie => i > 0,
        }
    }
}

// A body, borrowed from its file.
#[derive(Clone, Copy, Debug)]
pub enum Entry<'a> {
    Layout(&'a [u8]),
    Tie(&'a [u8]),
}

// What the table says of a body.
#[derive(Clone, Copy)]
pub(crate) struct Line {
    pub(crate) kind: Kind,
    pub(crate) start: u16,
    pub(crate) extent: u16,
}

impl Line {
    // Where the body ends.
    pub(crate) fn end(self) -> usize
        ensures { result ≡ self.start + self.extent }
    {
        usize::from(self.start) + usize::from(self.extent)
    }
}

// The line that begins a part of the table, where its five bytes are there and its kind is known.
fn first_line(table: &[u8]) -> Option<Line>
    ensures { let t = table.now in MatchOption result (5 ≤ length t → Unknown (byte t 0)) (λ l. (5 ≤ length t) × (byte t 0 ≡ kind_number l.kind) × (l.start ≡ word t 1) × (l.extent ≡ word t 3)) }
{
    match table {
        [
            kind,
            start_low,
            start_high,
            length_low,
            length_high,
            _rest @ ..,
        ] => Some(Line {
            kind: Kind::try_from(*kind).ok()?,
            start: u16::from_le_bytes([*start_low, *start_high]),
            extent: u16::from_le_bytes([*length_low, *length_high]),
        }),
        _ => None,
    }
}

// Line `i` of the table, where the file has its five bytes and its kind is known.
pub(crate) fn nth_line(file: &[u8], i: usize) -> Option<Line>
    ensures { let f = file.now in MatchOption result (6 + 5 * i ≤ length f → Unknown (kind_at f i)) (λ l. (6 + 5 * i ≤ length f) × (kind_at f i ≡ kind_number l.kind) × (l.start ≡ start_at f i) × (l.extent ≡ extent_at f i)) }
{
    let at = i.checked_mul(5)?.checked_add(1)?;
    first_line(file.get(at..)?)
}

// Entry `i`, where the file has its line and its whole body, and the kind is known.
pub fn nth_entry(file: &[u8], i: usize) -> Option<Entry<'_>>
    ensures { let f = file.now in MatchOption result (HasEntry f i → ⊥) (λ e. HasEntry f i × IsEntry f i e) }
{
    let line = nth_line(file, i)?;
    let body = file.get(usize::from(line.start)..line.end())?;
    match line.kind {
        Kind::Layout => Some(Entry::Layout(body)),
        Kind::Tie => Some(Entry::Tie(body)),
    }
}
