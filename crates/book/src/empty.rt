// The table of a book in which no tie stands.

ghost use Rattle.std.specs.Prelude.{◌≡◌, ℕ, ◌+◌, ◌*◌, ◌<◌, ◌≤◌, length, IfOk, sum, slice_index};
ghost use Rattle.book.specs.Standing.{Empty, Units};
ghost use Rattle.ties.specs.Layouts.{places, shape};

use crate::table::Table;
use scale::Scale;
use std::alloc::{AllocError, Global};
use ties::layout::Layout;

// The number of digits of the counters on one head.
fn head_digits(widths: &[u8]) -> u16
    requires { length widths.now ≤ 4 }
    ensures all { result ≡ sum widths.now }
    ensures few { result ≤ 4 * 255 }
{
    widths.iter().map(|width| u16::from(*width)).sum()
}

// The number of digits of all counters on all heads.
fn all_digits(layout: &Layout) -> u16
    ensures { let s = shape layout.now in result ≡ s.heads * sum s.widths }
{
    u16::from(layout.heads()) * head_digits(layout.widths())
}

// Makes the generators, which are all 0, the unit rows.
fn set_units<S: Scale>(scale: &S, rows: &mut [u32], n: usize)
    requires few { n ≤ 32 }
    requires size { length rows.old ≡ n + n * n }
    requires zeros { (i : ℕ) → slice_index rows.old i ≡ 0 }
    ensures { Units (S.Scale.meaning scale.now) n n rows.new }
{
    for i in 0..n {
        rows[n + i * n + i] = scale.one();
    }
}

// The point 0 and the unit rows, no standing tie and room for 64, and all digits free.
pub fn empty_table<S: Scale>(heap: Global, scale: &S, layout: &Layout) -> Result<Table, AllocError>
    ensures { IfOk result (Empty (S.Scale.meaning scale.now) (shape layout.now)) }
{
    let n = layout.places();
    let mut rows = vec![in heap; 0; n + n * n]?;
    set_units(scale, &mut rows, n);
    Ok(Table {
        rows,
        standing: Vec::with_capacity(heap, 64)?,
        free: all_digits(layout),
    })
}
