ghost use Rattle.std.specs.Prelude.{◌≡◌, ◌*◌, ◌≤◌, Decides, MatchResult};
ghost use Rattle.ties.specs.Faults.{BadLayout};
ghost use Rattle.ties.specs.Layouts.{InWidths, Shape, Sized, Within, counters_of, place as place_of, shape, width_of};

use crate::fault::LayoutFault;
use crate::layout::Layout;
use scale::Scale;

impl Layout {
    pub fn new<S: Scale>(scale: &S, heads: u8, widths: &[u8]) -> Result<Layout, LayoutFault>
        ensures { let m = S.Scale.meaning scale.now in let s : Shape = record { heads = heads; widths = widths.now } in MatchResult result (λ l. Sized s × Within m s × (shape l ≡ s)) (BadLayout m s) }
    {
        let counters = widths.len();
        if heads == 0 || heads > 8 || counters == 0 || counters > 4 {
            return Err(LayoutFault::Shape);
        }
        if !within(scale.mark().length, widths) {
            return Err(LayoutFault::Width);
        }
        let mut all = [0; 4];
        all[..counters].copy_from_slice(widths);
        Ok(Layout {
            heads,
            counters: counters as u8,
            widths: all,
        })
    }

    pub fn heads(&self) -> u8
        ensures { result ≡ (shape self.now).heads }
    {
        self.heads
    }

    pub fn counters(&self) -> u8
        ensures { result ≡ counters_of (shape self.now) }
    {
        self.counters
    }

    // The width of each counter of a head.
    pub fn widths(&self) -> &[u8]
        ensures { result.now ≡ (shape self.now).widths }
    {
        &self.widths[..usize::from(self.counters)]
    }

    // The width of a counter, and 0 where there is no such counter.
    pub fn width(&self, counter: u8) -> u8
        ensures { result ≡ width_of (shape self.now) counter }
    {
        self.widths()
            .get(usize::from(counter))
            .copied()
            .unwrap_or(0)
    }

    // The number of counters on all heads, at most 32.
    pub fn places(&self) -> usize
        ensures { let s = shape self.now in (result ≡ s.heads * counters_of s) × (result ≤ 32) }
    {
        usize::from(self.heads) * usize::from(self.counters)
    }

    // The place of a counter in the order head, then counter.
    pub fn place(&self, head: u8, counter: u8) -> usize
        ensures { result ≡ place_of (shape self.now) head counter }
    {
        usize::from(head) * usize::from(self.counters) + usize::from(counter)
    }
}

// Whether each width is from 1 to `most`.
fn within(most: u8, widths: &[u8]) -> bool
    ensures { Decides result (InWidths most widths.now) }
{
    widths.iter().all(|width| (1..=most).contains(width))
}
