use crate::files::*;
use multipliers::check as check_multipliers;
use refusals::Refusal;
use scales::Prime;
use std::test::Fail;

#[test]
fn answers(rt: HostRuntime) -> Result<(), Fail> {
    let heap = rt.alloc();
    says(&rt, heap, &TWO_TIES, &[2, 7], "yes")?;
    says(&rt, heap, &TWO_TIES, &[1, 1], "no")?;
    says(&rt, heap, &TWO_TIES, &[4, 0], "no")?;
    says(&rt, heap, &TWO_TIES, &[2, 7, 1], "yes")?;
    says(&rt, heap, &BASE_THREE, &[3], "yes")?;
    says(&rt, heap, &BASE_THREE, &[1], "no")?;
    says(&rt, heap, &DISC, &[6], "yes")?;
    says(&rt, heap, &DISC, &[4], "no")?;
    says(&rt, heap, &TWO_WIDTHS, &[2], "yes")?;
    says(&rt, heap, &TWO_WIDTHS, &[1], "no")
}

#[test]
fn contents(rt: HostRuntime) -> Result<(), Fail> {
    let heap = rt.alloc();
    says(&rt, heap, &[], &[2, 7], "refused 1")?;
    says(&rt, heap, &[0; 16_385], &[2, 7], "refused 1")?;
    says(&rt, heap, &[3, 1, 16, 0, 6, 0], &[2, 7], "refused 1")?;
    damaged(&rt, heap, 0, 0, "refused 1")?;
    damaged(&rt, heap, 0, 66, "refused 1")
}

#[test]
fn entries(rt: HostRuntime) -> Result<(), Fail> {
    let heap = rt.alloc();
    damaged(&rt, heap, 1, 2, "refused 2")?;
    damaged(&rt, heap, 6, 1, "refused 2")?;
    damaged(&rt, heap, 6, 3, "refused 2")?;
    damaged(&rt, heap, 2, 15, "refused 2")?;
    damaged(&rt, heap, 3, 1, "refused 2")?;
    damaged(&rt, heap, 12, 38, "refused 2")?;
    damaged(&rt, heap, 14, 12, "refused 2")?;
    damaged(&rt, heap, 0, 2, "refused 2")
}

#[test]
fn bodies(rt: HostRuntime) -> Result<(), Fail> {
    let heap = rt.alloc();
    damaged(&rt, heap, 20, 2, "refused 3")?;
    damaged(&rt, heap, 20, 0, "refused 3")?;
    says(&rt, heap, &[1, 1, 6, 0, 4, 0, 1, 2, 3, 1], &[], "refused 3")?;
    says(
        &rt,
        heap,
        &[
            2, 1, 11, 0, 6, 0, 2, 17, 0, 4, 0, 1, 2, 3, 1, 1, 3, 0, 0, 0, 0,
        ],
        &[1],
        "refused 3",
    )
}

#[test]
fn scales_and_layouts(rt: HostRuntime) -> Result<(), Fail> {
    let heap = rt.alloc();
    damaged(&rt, heap, 16, 4, "refused 4")?;
    damaged(&rt, heap, 17, 3, "refused 4")?;
    damaged(&rt, heap, 18, 0, "refused 4")?;
    damaged(&rt, heap, 18, 32, "refused 4")?;
    damaged(&rt, heap, 19, 0, "refused 5")?;
    damaged(&rt, heap, 19, 9, "refused 5")?;
    says(
        &rt,
        heap,
        &[1, 1, 6, 0, 5, 0, 1, 2, 3, 1, 0],
        &[],
        "refused 5",
    )?;
    says(
        &rt,
        heap,
        &[1, 1, 6, 0, 10, 0, 1, 2, 3, 1, 5, 1, 1, 1, 1, 1],
        &[],
        "refused 5",
    )?;
    damaged(&rt, heap, 21, 0, "refused 6")?;
    damaged(&rt, heap, 21, 4, "refused 6")
}

#[test]
fn ties(rt: HostRuntime) -> Result<(), Fail> {
    let heap = rt.alloc();
    says(&rt, heap, &TWO_TIES, &[2], "refused 8")?;
    damaged(&rt, heap, 22, 1, "refused 9 0")?;
    damaged(&rt, heap, 39, 1, "refused 9 1")?;
    damaged(&rt, heap, 27, 2, "refused 10 0 0")?;
    damaged(&rt, heap, 34, 1, "refused 10 0 1")?;
    damaged(&rt, heap, 33, 0, "refused 11 0 1")?;
    damaged(&rt, heap, 29, 8, "refused 12 0 0")?;
    damaged(&rt, heap, 40, 8, "refused 12 1 1")?;
    damaged(&rt, heap, 23, 8, "refused 12 0 2")?;
    let mut coarse = TWO_WIDTHS;
    coarse[25] = 2;
    says(&rt, heap, &coarse, &[2], "refused 13 0 0")
}

#[test]
fn another_scale(rt: HostRuntime) -> Result<(), Fail> {
    let Ok(scale) = Prime::new(3, 3) else {
        return Err(Fail::new("3, 3 is a scale"));
    };
    match check_multipliers(&scale, &TWO_TIES, &[2, 7]) {
        Ok(_) => Err(Fail::new("the mark is another")),
        Err(fault) => {
            assert_eq!(rt; u8::from(Refusal::from(fault)), 7);
            Ok(())
        },
    }
}
