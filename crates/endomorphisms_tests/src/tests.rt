use book::fault::PostFault;
use endomorphisms::equation::HeadEquation;
use endomorphisms::fault::{SolveFault, Stop};
use endomorphisms::images::matrix_of_images;
use endomorphisms::matrix::Matrix;
use endomorphisms::solving::solve;
use scales::Binary;
use std::test::Fail;
use ties::layout::Layout;

// Of whole numbers modulo 8 and modulo 2: (x, y) becomes (2x + 4y, x + y).
const FOLD: Matrix = Matrix {
    columns: [[2, 1, 0, 0], [4, 1, 0, 0], [0, 0, 0, 0], [0, 0, 0, 0]],
};

#[test]
fn knows_endomorphisms(rt: HostRuntime) -> Result<(), Fail> {
    let scale = Binary::new(3)?;
    let layout = Layout::new(&scale, 1, &[3, 1])?;
    assert!(rt; FOLD.is_endomorphism(&scale, &layout));
    assert!(rt; !FOLD.is_endomorphism(&Binary::new(2)?, &layout));
    assert!(rt; matrix_of_images(&scale, &layout, &FOLD.columns) == Some(FOLD));
    // twice the second unit is 0, and twice its image is not
    let images = [[2, 1, 0, 0], [2, 1, 0, 0], [0, 0, 0, 0], [0, 0, 0, 0]];
    assert!(rt; matrix_of_images(&scale, &layout, &images).is_none());
    Ok(())
}

#[test]
fn solves_a_table(rt: HostRuntime) -> Result<(), Fail> {
    let table = [HeadEquation {
        factors: &[FOLD],
        right: [2, 1, 0, 0],
    }];
    let mut sheet = [0; 6];
    let mut multipliers = [9; 64];
    let answer = solve(
        rt.alloc(),
        Binary::new(3)?,
        1,
        &[3, 1],
        &table,
        &mut sheet,
        &mut multipliers,
    );
    assert!(rt; matches!(answer, Ok(1)));
    // the solutions are (1, 0) and (5, 0), and the point is one of them
    assert_eq!(rt; sheet[0] % 4, 1);
    assert_eq!(rt; sheet[1] % 2, 0);
    assert_eq!(rt; multipliers[0], 9);
    Ok(())
}

#[test]
fn shows_a_contradiction(rt: HostRuntime) -> Result<(), Fail> {
    let table = [HeadEquation {
        factors: &[FOLD],
        right: [1, 0, 0, 0],
    }];
    let mut sheet = [9; 6];
    let mut multipliers = [9; 64];
    let answer = solve(
        rt.alloc(),
        Binary::new(3)?,
        1,
        &[3, 1],
        &table,
        &mut sheet,
        &mut multipliers,
    );
    assert!(rt;
        matches!(
            answer,
            Err(SolveFault::Tie(Stop {
                equation: 0,
                counter: 0,
                fault: PostFault::Contradiction
            }))
        )
    );
    assert_eq!(rt; sheet[0], 9);
    assert_eq!(rt; multipliers[0], 4);
    assert_eq!(rt; multipliers[1], 9);
    Ok(())
}
