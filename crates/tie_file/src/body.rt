// What bodies hold: a layout's, and a tie's.

ghost use Rattle.std.specs.Prelude.{◌≡◌, ◌+◌, ◌*◌, ◌<◌, ◌≤◌, length, MatchOption};
ghost use Rattle.tie_file.specs.Bodies.{equation_of, long, term_in};
ghost use Rattle.tie_file.specs.Reading.{IsLayout, ReadInto, Readable, equation_read};
ghost use Rattle.tie_file.specs.Table.{TieLength};
ghost use Rattle.ties.specs.Equations.{equation, equation_in};

use arrayvec::ArrayVec;
use scale::Mark;
use ties::owned::OwnedTie;
use ties::tie::{Term, Tie};

// A layout's body; its widths are borrowed from it.
#[derive(Clone, Copy, Debug)]
pub struct LayoutBody<'a> {
    pub mark: Mark,
    pub heads: u8,
    pub widths: &'a [u8],
}

// What a tie's body holds besides its terms, and how many those are.
#[derive(Clone, Copy, PartialEq, Eq, Debug)]
pub struct TieBody {
    pub target: u8,
    pub right: u32,
    pub terms: usize,
}

impl TieBody {
    // The tie, where its terms are at the front of `room`.
    pub fn tie(self, room: &[Term]) -> Option<Tie<'_>>
        ensures { let from = room.now in MatchOption result (length from < self.terms) (λ t. (self.terms ≤ length from) × (equation t ≡ equation_read self from)) }
    {
        Some(Tie {
            target: self.target,
            right: self.right,
            terms: room.get(..self.terms)?,
        })
    }
}

// A layout's body taken apart, where it has its five bytes.
pub fn layout_of(body: &[u8]) -> Option<LayoutBody<'_>>
    ensures { let b = body.now in MatchOption result (length b < 5) (IsLayout b) }
{
    match body {
        [kind, base, length, heads, _counters, widths @ ..] => Some(LayoutBody {
            mark: Mark {
                kind: *kind,
                base: *base,
                length: *length,
            },
            heads: *heads,
            widths,
        }),
        _ => None,
    }
}

// How many terms a tie's body of `bytes` bytes has: 32 at most.
pub(crate) fn count_terms(bytes: usize) -> Option<usize>
    ensures { MatchOption result (TieLength bytes → ⊥) (λ t. (t ≤ 32) × (bytes ≡ 5 + 6 * t)) }
{
    let terms = bytes.checked_sub(5)? / 6;
    (terms <= 32 && bytes == 5 + 6 * terms).then_some(terms)
}

// 32 bits at a place, low byte first.
fn long_at(body: &[u8], at: usize) -> u32
    requires { at + 4 ≤ length body.now }
    ensures { result ≡ long body.now at }
{
    u32::from_le_bytes([body[at], body[at + 1], body[at + 2], body[at + 3]])
}

// Term `i` of a tie's body.
fn nth_term(body: &[u8], i: usize) -> Term
    requires { 11 + 6 * i ≤ length body.now }
    ensures { result ≡ term_in body.now i }
{
    let at = 5 + 6 * i;
    Term {
        head: body[at],
        counter: body[at + 1],
        factor: long_at(body, at + 2),
    }
}

// A tie's body taken apart, where its length is a tie's.
pub fn tie_of(body: &[u8]) -> Option<OwnedTie>
    ensures { let b = body.now in MatchOption result (TieLength (length b) → ⊥) (λ t. TieLength (length b) × (equation_in t ≡ equation_of b)) }
{
    let count = count_terms(body.len())?;
    let mut terms = ArrayVec::new();
    for i in 0..count {
        terms.push(nth_term(body, i));
    }
    Some(OwnedTie {
        target: body[0],
        right: long_at(body, 1),
        terms,
    })
}

// The same, its terms put at the front of `room`, where each has a place there. An `OwnedTie` is as large as 32 terms,
// however few it has, and is copied where it is handed on.
pub fn read_tie(body: &[u8], room: &mut [Term]) -> Option<TieBody>
    ensures { let b = body.now in let before = room.old in let after = room.new in MatchOption result ((Readable b before → ⊥) × (after ≡ before)) (ReadInto b before after) }
{
    let terms = count_terms(body.len())?;
    if terms > room.len() {
        return None;
    }
    let (target, right) = (body[0], long_at(body, 1));
    for (i, term) in room[..terms].iter_mut().enumerate() {
        *term = nth_term(body, i);
    }
    Some(TieBody {
        target,
        right,
        terms,
    })
}
