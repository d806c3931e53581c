// The three checks on a file: its table, its entries, its bodies.

ghost use Rattle.std.specs.Prelude.{◌≡◌, ◌<◌, MatchBool, MatchOption};
ghost use Rattle.tie_file.specs.Steps.{BodyFits, LayoutLength};
ghost use Rattle.tie_file.specs.Table.{HasBodies, HasEntries, HasTable, entries};

use crate::MOST_BYTES;
use crate::body::count_terms;
use crate::entry::{Entry, nth_entry, nth_line};

const MOST_ENTRIES: usize = 65;

// A file with a whole table, and the number of its entries.
#[derive(Clone, Copy)]
pub(crate) struct Contents<'a> {
    file: &'a [u8],
    pub(crate) count: usize,
    ghost table: { HasTable file.now },
    ghost all: { count ≡ entries file.now },
}

impl Contents<'_> {
    pub(crate) fn read(file: &[u8]) -> Option<Contents<'_>>
        ensures { let f = file.now in MatchOption result (HasTable f → ⊥) (λ c. HasTable f × (c.file.now ≡ f)) }
    {
        let [count, table @ ..] = file else {
            return None;
        };
        let count = usize::from(*count);
        if file.len() > MOST_BYTES
            || count == 0
            || count > MOST_ENTRIES
            || table.len() < 5 * count
        {
            return None;
        }
        Some(Contents { file, count })
    }

    // Whether each entry has the kind of its place, and the bodies follow the table without gaps up to the end.
    pub(crate) fn entries_follow(&self) -> bool
        ensures { let f = self.now.file.now in MatchBool result (HasEntries f) (HasEntries f → ⊥) }
    {
        let mut end = 1 + 5 * self.count;
        for i in 0..self.count {
            let Some(line) = nth_line(self.file, i) else {
                return false;
            };
            if !line.kind.stands_at(i) || usize::from(line.start) != end {
                return false;
            }
            end = line.end();
        }
        end == self.file.len()
    }

    // Whether each body has a length of its kind.
    pub(crate) fn bodies_fit(&self) -> bool
        requires { HasEntries self.now.file.now }
        ensures { let f = self.now.file.now in MatchBool result (HasBodies f) (HasBodies f → ⊥) }
    {
        (0..self.count).all(|i| self.body_fits(i))
    }

    fn body_fits(&self, i: usize) -> bool
        requires follow { HasEntries self.now.file.now }
        requires inside { i < entries self.now.file.now }
        ensures { let f = self.now.file.now in MatchBool result (BodyFits f i) (BodyFits f i → ⊥) }
    {
        match nth_entry(self.file, i).unwrap() {
            Entry::Layout(body) => layout_fits(body),
            Entry::Tie(body) => count_terms(body.len()).is_some(),
        }
    }
}

fn layout_fits(body: &[u8]) -> bool
    ensures { let b = body.now in MatchBool result (LayoutLength b) (LayoutLength b → ⊥) }
{
    match body {
        [_, _, _, _, counters, widths @ ..] => widths.len() == usize::from(*counters),
        _ => false,
    }
}
