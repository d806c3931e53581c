// A whole file that passed the checks.

ghost use Rattle.std.specs.Prelude.{◌≡◌, ◌+◌, ◌<◌, ◌≤◌, MatchOption};
ghost use Rattle.tie_file.specs.Bodies.{equations};
ghost use Rattle.tie_file.specs.Reading.{IsLayout, ReadInto, equation_read};
ghost use Rattle.tie_file.specs.Table.{WellFormed, body_at, entries};
ghost use Rattle.ties.specs.Equations.{equation_in, nth_equation};

use crate::body::{LayoutBody, TieBody};
use crate::parts::{layout_in, read_tie_in, tie_in};
use std::marker::Model;
use ties::owned::OwnedTie;
use ties::tie::Term;

// A well-formed file, borrowed, and how many ties it has. To a contract it is its bytes.
#[derive(Drop)]
pub struct TieFile<'a> {
    pub(crate) bytes: &'a [u8],
    pub(crate) ties: usize,
}

impl<'a> Model for TieFile<'a> {
    ghost use Rattle.std.specs.Prelude.{◌≡◌, ◌+◌, ℕ, List};
    ghost use Rattle.tie_file.specs.Table.{WellFormed, entries};

    ghost Value = { List ℕ };

    ghost view = { λ t. t.bytes.now };

    ghost invariant = { λ t. WellFormed t.bytes.now × (t.ties + 1 ≡ entries t.bytes.now) };
}

impl<'a> TieFile<'a> {
    pub fn ties(&self) -> usize
        ensures { result + 1 ≡ entries self.now }
    {
        self.ties
    }

    // The layout that the file states.
    pub fn layout(&self) -> LayoutBody<'a>
        ensures formed { WellFormed self.now }
        ensures layout { IsLayout (body_at self.now 0) result }
    {
        layout_in(self.bytes).unwrap()
    }

    // Tie `i`, counting from 0, where there are so many.
    pub fn tie(&self, i: usize) -> Option<OwnedTie>
        ensures { let f = self.now in MatchOption result (entries f ≤ i + 1) (λ t. (i + 1 < entries f) × (equation_in t ≡ nth_equation (equations f) i)) }
    {
        if i < self.ties {
            tie_in(self.bytes, i)
        } else {
            None
        }
    }

    // The same, its terms put at the front of `room`, which has a place for those of any tie.
    pub fn read_tie(&self, i: usize, room: &mut [Term; 32]) -> Option<TieBody>
        ensures { let f = self.now in let before = room.old in let after = room.new in MatchOption result ((entries f ≤ i + 1) × (after ≡ before)) (λ t. (i + 1 < entries f) × ReadInto (body_at f (i + 1)) before after t × (equation_read t after ≡ nth_equation (equations f) i)) }
    {
        if self.ties <= i {
            return None;
        }
        read_tie_in(self.bytes, i, room)
    }
}
