// Taking a tie into a table.

ghost use Rattle.std.specs.Prelude.{ℕ, ◌<◌, List, Some, vec_len, vec_capacity};
ghost use Rattle.book.specs.Measures.{Measures};
ghost use Rattle.book.specs.Standing.{GivenBack, Stands, Stepped, TakenIn};
ghost use Rattle.ties.specs.Equations.{equation};
ghost use Rattle.ties.specs.Layouts.{Shape, Within, shape};

use crate::pivot::{Pivot, Step};
use crate::standing::Standing;
use crate::table::Table;
use scale::Scale;
use ties::sound::SoundTie;

// Makes the pivot step of a tie, which moves the point by `shift` times the pivot, and answers the digits that it
// fixes.
pub fn take_in<S: Scale>(tie: &SoundTie<S>, table: &mut Table, pivot: Pivot, shift: u32) -> u8
    requires within { Within (S.Scale.meaning tie.now.scale.now) (shape tie.now.layout.now) }
    requires stands { Stands (S.Scale.meaning tie.now.scale.now) (shape tie.now.layout.now) table.old }
    requires measures { Measures (S.Scale.meaning tie.now.scale.now) (shape tie.now.layout.now) (equation tie.now.tie) table.old.rows.items pivot (Some shift) }
    requires room { vec_len table.old.standing < vec_capacity table.old.standing }
    ensures { TakenIn (S.Scale.meaning tie.now.scale.now) (shape tie.now.layout.now) (equation tie.now.tie) table.old table.new result }
{
    let fixed = pivot.fixed(tie.scale);
    table.standing.push_reserved(Standing {
        tie: tie.to_owned(),
        pivot,
        shift,
        free: table.free,
    });
    // The pivot is read where it stands now, so that it is copied only there.
    Step {
        scale: tie.scale,
        pivot: &table.standing.last().unwrap().pivot,
        shift,
    }
    .turn(&mut table.rows);
    table.free -= u16::from(fixed);
    fixed
}

// Takes back the step of the tie that stood last.
pub fn give_back<S: Scale>(scale: &S, table: &mut Table, last: &Standing)
    requires stepped { (s : Shape) × (xs : List ℕ) × (g : ℕ) × Stepped (S.Scale.meaning scale.now) s last.now xs table.old.rows.items g table.old.free }
    ensures { GivenBack (S.Scale.meaning scale.now) last.now table.old table.new }
{
    Step {
        scale,
        pivot: &last.pivot,
        shift: last.shift,
    }
    .turn_back(&mut table.rows);
    table.free = last.free;
}
