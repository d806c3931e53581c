use crate::own::Own;
use book::fault::{LoadFault, PostFault};
use book::reading::Reading;
use replay::answer::Answer;
use replay::call::{Call, Turn, View};
use replay::replay;
use scale::Scale;
use scales::Binary;
use std::test::Fail;
use ties::tie::{Term, Tie};

// Binary, length 3, two heads with one counter of width 3: 2x + 4y = 6, and 4x = 0.
const TWO_TIES: [u8; 50] = [
    3, 1, 16, 0, 6, 0, 2, 22, 0, 17, 0, 2, 39, 0, 11, 0, // the table
    1, 2, 3, 2, 1, 3, // the layout
    0, 6, 0, 0, 0, 0, 0, 2, 0, 0, 0, 1, 0, 4, 0, 0, 0, // 2x + 4y = 6
    0, 0, 0, 0, 0, 0, 0, 4, 0, 0, 0, // 4x = 0
];

// 2x + 4y = 6, and the tie that asks for x.
const FIRST: Tie = Tie {
    target: 0,
    right: 6,
    terms: &[
        Term {
            head: 0,
            counter: 0,
            factor: 2,
        },
        Term {
            head: 1,
            counter: 0,
            factor: 4,
        },
    ],
};

const ASK_X: Tie = Tie {
    target: 0,
    right: 0,
    terms: &[Term {
        head: 0,
        counter: 0,
        factor: 1,
    }],
};

#[test]
fn loads_closes_and_withdraws(rt: HostRuntime) -> Result<(), Fail> {
    let open = [
        Call::Load(&TWO_TIES, &[0; 64]),
        Call::View(View::Sheet(&[0; 6])),
    ];
    let closed = [View::Sheet(&[0; 6]), View::Sheet(&[0; 5])];
    let reopened = [
        Call::Withdraw,
        Call::Withdraw,
        Call::View(View::Sheet(&[0; 6])),
        Call::Post(FIRST, &[0; 64]),
        Call::View(View::Query(ASK_X)),
    ];
    let turns = [
        Turn {
            while_open: &open,
            while_closed: &closed,
        },
        Turn {
            while_open: &reopened,
            while_closed: &[],
        },
    ];
    let answers = replay(rt.alloc(), Binary::new(3)?, 2, &[3], &turns)?;
    assert!(rt;
        matches!(
            answers.get(0),
            Some(Answer::Load(Err(LoadFault::Tie(1, PostFault::Contradiction)), _))
        )
    );
    assert!(rt; matches!(answers.get(1), Some(Answer::Sheet(Ok(4), _))));
    assert!(rt; matches!(answers.get(2), Some(Answer::Sheet(Ok(4), _))));
    assert!(rt; matches!(answers.get(3), Some(Answer::Sheet(Err(_), _))));
    assert!(rt; matches!(answers.get(4), Some(Answer::Withdraw(Ok(_)))));
    assert!(rt; matches!(answers.get(5), Some(Answer::Withdraw(Err(_)))));
    assert!(rt; matches!(answers.get(6), Some(Answer::Sheet(Ok(6), _))));
    assert!(rt; matches!(answers.get(7), Some(Answer::Post(Ok(2), _))));
    assert!(rt;
        matches!(
            answers.get(8),
            Some(Answer::Query(Ok(Reading { settled: 1, .. })))
        )
    );
    assert_eq!(rt; answers.len(), 9);
    Ok(())
}

// The same scale and layout, and the first of the ties.
const ONE_TIE: [u8; 34] = [
    2, 1, 11, 0, 6, 0, 2, 17, 0, 17, 0, // the table
    1, 2, 3, 2, 1, 3, // the layout
    0, 6, 0, 0, 0, 0, 0, 2, 0, 0, 0, 1, 0, 4, 0, 0, 0, // 2x + 4y = 6
];

#[test]
fn writes_what_it_took_whole(rt: HostRuntime) -> Result<(), Fail> {
    let turns = [Turn {
        while_open: &[Call::Load(&ONE_TIE, &[0; 64])],
        while_closed: &[View::Write(&[9; 40]), View::Write(&[9; 33])],
    }];
    let answers = replay(rt.alloc(), Binary::new(3)?, 2, &[3], &turns)?;
    assert!(rt; matches!(answers.get(0), Some(Answer::Load(Ok(1), _))));
    assert!(rt;
        matches!(
            answers.get(1),
            Some(Answer::Write(Ok(34), list)) if list.starts_with(&ONE_TIE) && list.ends_with(&[9; 6])
        )
    );
    assert!(rt; matches!(answers.get(2), Some(Answer::Write(Err(_), _))));
    Ok(())
}

#[test]
fn answers_over_a_scale_of_ones_own(rt: HostRuntime) -> Result<(), Fail> {
    let own = Own {
        counter: Binary::new(3)?,
    };
    for (total, code) in [(7, 7), (8, 0), (15, 7), (u64::from(u32::MAX) + 6, 5)] {
        assert_eq!(rt; own.gathered(total), code);
    }
    let turns = [Turn {
        while_open: &[Call::Post(FIRST, &[0; 64]), Call::View(View::Query(ASK_X))],
        while_closed: &[],
    }];
    let answers = replay(rt.alloc(), own, 2, &[3], &turns)?;
    assert!(rt; matches!(answers.get(0), Some(Answer::Post(Ok(2), _))));
    assert!(rt;
        matches!(
            answers.get(1),
            Some(Answer::Query(Ok(Reading { settled: 1, .. })))
        )
    );
    assert_eq!(rt; answers.len(), 2);
    Ok(())
}
