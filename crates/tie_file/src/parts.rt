// The layout and the ties of a file, by their bodies.

ghost use Rattle.std.specs.Prelude.{◌≡◌, ◌+◌, MatchOption};
ghost use Rattle.tie_file.specs.Bodies.{equation_of};
ghost use Rattle.tie_file.specs.Reading.{HasLayout, HasReadableTie, HasTie, IsLayout, ReadInto};
ghost use Rattle.tie_file.specs.Table.{body_at};
ghost use Rattle.ties.specs.Equations.{equation_in};

use crate::body::{LayoutBody, TieBody, layout_of, read_tie, tie_of};
use crate::entry::{Entry, nth_entry};
use ties::owned::OwnedTie;
use ties::tie::Term;

// The layout that the first entry states.
pub fn layout_in(file: &[u8]) -> Option<LayoutBody<'_>>
    ensures { let f = file.now in MatchOption result (HasLayout f → ⊥) (λ l. HasLayout f × IsLayout (body_at f 0) l) }
{
    match nth_entry(file, 0)? {
        Entry::Layout(body) => layout_of(body),
        Entry::Tie(_) => None,
    }
}

// Tie `i`, counting from 0 behind the layout.
pub fn tie_in(file: &[u8], i: usize) -> Option<OwnedTie>
    ensures { let f = file.now in MatchOption result (HasTie f i → ⊥) (λ t. HasTie f i × (equation_in t ≡ equation_of (body_at f (i + 1)))) }
{
    match nth_entry(file, i.checked_add(1)?)? {
        Entry::Tie(body) => tie_of(body),
        Entry::Layout(_) => None,
    }
}

// The same, its terms put at the front of `room`.
pub fn read_tie_in(file: &[u8], i: usize, room: &mut [Term]) -> Option<TieBody>
    ensures { let f = file.now in let before = room.old in let after = room.new in MatchOption result ((HasReadableTie f i before → ⊥) × (after ≡ before)) (ReadInto (body_at f (i + 1)) before after) }
{
    let Entry::Tie(body) = nth_entry(file, i.checked_add(1)?)? else {
        return None;
    };
    read_tie(body, room)
}
