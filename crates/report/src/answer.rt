// What a report says.

ghost use Rattle.std.specs.Prelude.{◌≡◌, slice_index};

use book::fault::Stop;

// The first so many ties of the file stand, and leave so many digits free.
#[derive(Clone, Copy, Debug)]
pub struct Report {
    pub standing: usize,
    pub free: u16,
    // where posting stopped, if not behind the last tie
    pub stopped: Option<Stop>,
    pub heads: u8,
    // on each head
    pub counters: u8,
    // how many digits of each counter's code the standing ties settle, in the order head, then counter
    pub settled: [u8; 32],
}

impl Report {
    // How many digits are settled at a place, and 0 behind the last.
    pub fn settled_at(&self, place: usize) -> u8
        ensures { result ≡ slice_index self.now.settled place }
    {
        self.settled.get(place).copied().unwrap_or(0)
    }
}
