// Writing a tie file: each part is put where it belongs in the caller's list.

ghost use Rattle.std.specs.Prelude.{◌≡◌, ℕ, ◌+◌, ◌*◌, ◌<◌, ◌≤◌, List, length, map, MatchOption};
ghost use Rattle.tie_file.specs.Putting.{Begun, KeptBut, LineAt, Put, Small, TermsAt, TiePut};
ghost use Rattle.tie_file.specs.Reading.{kind_number};
ghost use Rattle.tie_file.specs.Writing.{Unwritten, Written, file_size as size_of, tie_size as size_of_tie, ties_end};
ghost use Rattle.ties.specs.Equations.{Equation, equation_in};
ghost use Rattle.ties.specs.Layouts.{counters_of, shape};

use crate::entry::{Kind, Line};
use scale::Mark;
use ties::layout::Layout;
use ties::owned::OwnedTie;
use ties::tie::Term;

// What states an equation by a tie of its own.
pub trait Tied {
    ghost states: { Self → Equation };

    fn owned_tie(&self) -> &OwnedTie
        ensures { equation_in result.now ≡ states self.now };
}

// Writes the file of a mark, a layout and ties to the front of the list, and answers how long it is. There is none where
// the list is too short, or the ties are more than 64.
pub fn write<T: Tied>(list: &mut [u8], mark: Mark, layout: &Layout, ties: &[T]) -> Option<usize>
    ensures { let s = shape layout.now in let es = map T.Tied.states ties.now in MatchOption result (Unwritten s es list.old list.new) (Written mark s es list.old list.new) }
{
    if ties.len() > 64 || list.len() < file_size(layout, ties) {
        return None;
    }
    let mut end = put_layout(list, mark, layout, ties.len());
    for (i, tie) in ties.iter().enumerate() {
        end = put_tie(list, i + 1, end, tie.owned_tie());
    }
    Some(end)
}

// How long the file is.
fn file_size<T: Tied>(layout: &Layout, ties: &[T]) -> usize
    requires { length ties.now ≤ 64 }
    ensures size { result ≡ size_of (shape layout.now) (map T.Tied.states ties.now) }
    ensures most { result ≤ 12_943 }
    ensures small { let es = map T.Tied.states ties.now in Small es (length es) }
{
    let mut size = 1 + 5 * (ties.len() + 1) + 5 + usize::from(layout.counters());
    for tie in ties {
        size += tie_size(tie.owned_tie());
    }
    size
}

// How long a tie's body is.
fn tie_size(tie: &OwnedTie) -> usize
    ensures { (result ≡ size_of_tie (equation_in tie.now)) × (result ≤ 197) }
{
    5 + 6 * tie.terms.len()
}

// Puts the number of entries, and the layout as the first, and answers where its body ends.
fn put_layout(list: &mut [u8], mark: Mark, layout: &Layout, ties: usize) -> usize
    requires few { ties ≤ 64 }
    requires room { 1 + 5 * (ties + 1) + 5 + counters_of (shape layout.now) ≤ length list.old }
    ensures { (es : List Equation) → length es ≡ ties → Begun mark (shape layout.now) es 0 list.old list.new × (result ≡ ties_end (shape layout.now) es 0) }
{
    let at = 1 + 5 * (ties + 1);
    let widths = layout.widths();
    let size = 5 + widths.len();
    put(list, 0, &[ties as u8 + 1]);
    put_line(
        list,
        0,
        Line {
            kind: Kind::Layout,
            start: at as u16,
            extent: size as u16,
        },
    );
    put(
        list,
        at,
        &[
            mark.kind,
            mark.base,
            mark.length,
            layout.heads(),
            layout.counters(),
        ],
    );
    put(list, at + 5, widths);
    at + size
}

// Puts a tie as entry `i`, its body from `at` on, and answers where that ends.
fn put_tie(list: &mut [u8], i: usize, at: usize, tie: &OwnedTie) -> usize
    requires table { 6 + 5 * i ≤ at }
    requires short { at < 65536 }
    requires room { at + size_of_tie (equation_in tie.now) ≤ length list.old }
    ensures put { TiePut list.old list.new i at (equation_in tie.now) }
    ensures end { result ≡ at + size_of_tie (equation_in tie.now) }
{
    let size = tie_size(tie);
    put_line(
        list,
        i,
        Line {
            kind: Kind::Tie,
            start: at as u16,
            extent: size as u16,
        },
    );
    let [a, b, c, d] = tie.right.to_le_bytes();
    put(list, at, &[tie.target, a, b, c, d]);
    put_terms(list, at + 5, &tie.terms);
    at + size
}

// Puts terms from `at` on.
fn put_terms(list: &mut [u8], at: usize, terms: &[Term])
    requires { at + 6 * length terms.now ≤ length list.old }
    ensures { TermsAt list.new at terms.now (length terms.now) × KeptBut at (6 * length terms.now) list.old list.new }
{
    for (i, term) in terms.iter().enumerate() {
        let [a, b, c, d] = term.factor.to_le_bytes();
        put(list, at + 6 * i, &[term.head, term.counter, a, b, c, d]);
    }
}

// Puts line `i` of the table.
fn put_line(list: &mut [u8], i: usize, line: Line)
    requires { 6 + 5 * i ≤ length list.old }
    ensures { LineAt list.new i (kind_number line.kind) line.start line.extent × KeptBut (1 + 5 * i) 5 list.old list.new }
{
    let [start_low, start_high] = line.start.to_le_bytes();
    let [length_low, length_high] = line.extent.to_le_bytes();
    put(
        list,
        1 + 5 * i,
        &[
            line.kind as u8,
            start_low,
            start_high,
            length_low,
            length_high,
        ],
    );
}

// Puts bytes from `at` on.
fn put(list: &mut [u8], at: usize, bytes: &[u8])
    requires { at + length bytes.now ≤ length list.old }
    ensures { Put list.old list.new at bytes.now }
{
    list[at..at + bytes.len()].copy_from_slice(bytes);
}
