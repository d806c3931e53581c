// The calls of a run.

use ties::tie::Tie;

// What a book takes in both phases.
#[derive(Clone, Copy)]
pub enum View<'a> {
    // asks for the value of a tie and its settled digits
    Query(Tie<'a>),
    // draws a sheet into a list of these numbers
    Sheet(&'a [u32]),
    // writes the book's tie file to a list of these bytes
    Write(&'a [u8]),
}

// What an open book takes.
#[derive(Clone, Copy)]
pub enum Call<'a> {
    // posts a tie, and hands over a list of these numbers for the multipliers
    Post(Tie<'a>, &'a [u32]),
    // loads a file, and hands over a list of these numbers for the multipliers
    Load(&'a [u8], &'a [u32]),
    // takes off the last tie
    Withdraw,
    View(View<'a>),
}

// Calls on an open book, and then, when it is closed, on the closed one, which is reopened behind them.
#[derive(Clone, Copy)]
pub struct Turn<'a> {
    pub while_open: &'a [Call<'a>],
    pub while_closed: &'a [View<'a>],
}
