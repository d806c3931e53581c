ghost use Rattle.std.specs.Prelude.{◌≡◌, ℕ, List};
ghost use Rattle.std.specs.Result.{MatchResult};
ghost use Rattle.book.specs.Loading.{AllListed, AllPostedTo, Grown, LoadListed, LoadStopped, Loadable, LoadedTo, accepted_of, loaded_of};
ghost use Rattle.tie_file.specs.Bodies.{equations};
ghost use Rattle.ties.specs.Equations.{Equation};
ghost use Rattle.ties.specs.Layouts.{shape};

use crate::book::{Book, Open};
use crate::fault::{LoadFault, Stop};
use scale::Scale;
use tie_file::file::TieFile;
use tie_file::verify;
use ties::tie::Term;

impl<S: Scale> Book<S, Open> {
    // Posts the ties of a file that states this book's mark and layout, as `post_all` does.
    pub fn load(&mut self, file: &[u8], multipliers: &mut [u32]) -> Result<usize, LoadFault>
        ensures answer { LoadedTo S.Scale.meaning self.old file.now multipliers.old result }
        ensures book { Grown self.old (equations file.now) (loaded_of result) self.new }
        ensures list { LoadListed S.Scale.meaning self.old file.now result multipliers.old multipliers.new }
    {
        let whole = self.admit(file)?;
        if multipliers.len() < 64 {
            return Err(LoadFault::List);
        }
        Ok(self.post_all(&whole, multipliers)?)
    }

    // Posts the ties of the file in order until one is refused, and answers how many there are. Those before a refused
    // tie stand.
    pub fn post_all(&mut self, file: &TieFile, multipliers: &mut [u32]) -> Result<usize, Stop>
        ensures answer { AllPostedTo S.Scale.meaning self.old (equations file.now) multipliers.old result }
        ensures book { Grown self.old (equations file.now) (accepted_of result) self.new }
        ensures list { AllListed S.Scale.meaning self.old (equations file.now) result multipliers.old multipliers.new }
    {
        let mut room = [Term::default(); 32];
        for i in 0..file.ties() {
            let read = file.read_tie(i, &mut room).unwrap();
            let tie = read.tie(&room).unwrap();
            self.post(&tie, multipliers)
                .map_err(|fault| Stop { tie: i, fault })?;
        }
        Ok(file.ties())
    }

    // The file, where it is well formed and states this book's mark and layout.
    fn admit<'f>(&self, file: &'f [u8]) -> Result<TieFile<'f>, LoadFault>
        ensures { let m = S.Scale.meaning self.now.scale in let s = shape self.now.layout in let f = file.now in MatchResult result (λ t. Loadable m s f × (t ≡ f)) (λ g. (es : List Equation) (ys : List ℕ) → LoadStopped m s es f ys g) }
    {
        let whole = verify(file)?;
        let stated = whole.layout();
        if stated.mark != self.scale.mark()
            || stated.heads != self.layout.heads()
            || stated.widths != self.layout.widths()
        {
            return Err(LoadFault::Mark);
        }
        Ok(whole)
    }
}
