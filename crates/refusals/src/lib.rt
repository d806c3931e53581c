// The sixteen ways to be refused. Every fault of the library is one of these, or want of memory.

#![tactic(auto)]

ghost use Rattle.std.specs.Prelude.{◌≡◌};
ghost use Rattle.refusals.specs.Numbers.{number as numbered};

#[derive(Clone, Copy, PartialEq, Eq, Debug)]
pub enum Refusal {
    // the file is empty or too long, its number of entries is wrong, or it ends within its table
    Contents = 1,
    // an entry's kind is wrong, or the bodies do not follow one another up to the file's end
    Entry = 2,
    // a body's length is none of its kind
    Body = 3,
    // the scale's numbers are not those of its kind
    Numbers = 4,
    // the layout has no head, more than 8 heads, no counter or more than 4
    Shape = 5,
    // a width is 0 or greater than the scale's length
    Width = 6,
    // the mark or the layout is not the one in use
    Mark = 7,
    // a caller's list is too short
    List = 8,
    // the target is no counter of a head
    Target = 9,
    // a term's head or counter does not exist
    Absent = 10,
    // a term does not rise above the one before it
    Order = 11,
    // a factor or the right side is no code
    NoCode = 12,
    // a factor's level plus its counter's width is less than the target's width
    Coarse = 13,
    // there stand 64 ties already
    Full = 14,
    // no assignment meets this tie and all standing ties
    Contradiction = 15,
    // there is no tie to withdraw
    Nothing = 16,
}

impl From<Refusal> for u8 {
    ghost from_gives = { λ r n. n ≡ numbered r };

    fn from(refusal: Refusal) -> u8 {
        refusal as u8
    }
}
