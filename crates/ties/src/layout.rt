ghost use Rattle.std.specs.Prelude.{◌≡◌, ◌≤◌, length};

// Some heads, each with the same counters; every counter has a width in digits.
#[derive(Clone, Copy, Debug)]
pub struct Layout {
    heads: u8,
    counters: u8,
    widths: [u8; 4],
    ghost some_heads: { 1 ≤ heads },
    ghost few_heads: { heads ≤ 8 },
    ghost some_counters: { 1 ≤ counters },
    ghost few_counters: { counters ≤ 4 },
    ghost all_widths: { length widths ≡ 4 },
}

mod making;
