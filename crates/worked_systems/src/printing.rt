// The lines that the program prints.

use crate::findings::{Arithmetic, Findings, NoTerms, Pair, Single, Uneven};
use book::fault::PostFault;
use multipliers::fault::CheckFault;
use refusals::Refusal;
use std::fmt;
use ties::fault::TieFault;

pub fn print(rt: &HostRuntime, findings: &Findings) -> anyhow::Result<()> {
    print_arithmetic(rt, &findings.arithmetic)?;
    print_pair(rt, &findings.pair)?;
    print_single(rt, &findings.single)?;
    print_uneven(rt, &findings.uneven)?;
    print_no_terms(rt, &findings.no_terms)
}

fn print_arithmetic(rt: &HostRuntime, found: &Arithmetic) -> anyhow::Result<()> {
    let answered = Quotient(found.answered);
    let two_by_four = Quotient(found.two_by_four);
    print!(rt; "binary, length 3: 4 by 2 has the quotients")?;
    for (code, is_quotient) in found.four_by_two.iter().enumerate() {
        if *is_quotient {
            print!(rt; " {code}")?;
        }
    }
    println!(rt; " and is answered {answered}; 2 by 4 is answered {two_by_four}")?;
    let sum = found.sum;
    let product = found.product;
    println!(rt; "disc, length 3: 3 plus 3 is {sum}, 3 times 2 is {product}")?;
    let negative = found.negative;
    let level = found.level;
    println!(rt; "the negative of 1 is {negative}, and code 2 has level {level}")?;
    Ok(())
}

fn print_pair(rt: &HostRuntime, found: &Pair) -> anyhow::Result<()> {
    let free = found.free;
    println!(rt; "binary, length 3, two heads with a counter of width 3: {free} digits are free")?;
    let first = Posted(found.first);
    let left = found.left;
    println!(rt; "2x + 4y = 6 {first}; {left} are free")?;
    let x = Settled(found.x);
    let y = Settled(found.y);
    println!(rt; "then digits are settled: of x {x}, of y {y}")?;
    let other = Posted(found.other);
    println!(rt; "then 4x = 0 {other}")?;
    let two_and_seven = Shown(found.two_and_seven);
    let one_and_one = Shown(found.one_and_one);
    let four_and_none = Shown(found.four_and_none);
    print!(rt; "multipliers show it: 2 and 7 {two_and_seven}")?;
    println!(rt; ", 1 and 1 {one_and_one}, 4 and 0 {four_and_none}")?;
    let second = Posted(found.second);
    println!(rt; "in its stead 4x = 4 {second}")?;
    Ok(())
}

fn print_single(rt: &HostRuntime, found: &Single) -> anyhow::Result<()> {
    let four = Posted(found.four);
    println!(rt; "base 3, length 2, one head with a counter of width 2: 3x = 4 {four}")?;
    let three = Shown(found.three);
    println!(rt; "a multiplier shows it: 3 {three}")?;
    let six = Posted(found.six);
    let left = found.left;
    println!(rt; "in its stead 3x = 6 {six}; {left} are free")?;
    Ok(())
}

fn print_uneven(rt: &HostRuntime, found: &Uneven) -> anyhow::Result<()> {
    println!(rt; "binary, length 3, one head with counters of widths 3 and 1")?;
    let factor_two = Posted(found.factor_two);
    println!(rt; "for target 0 factor 2 on counter 1 {factor_two}")?;
    let factor_four = Posted(found.factor_four);
    println!(rt; "in its stead factor 4 {factor_four}")?;
    let sum = Posted(found.sum);
    let left = found.left;
    println!(rt; "in an empty book x0 + x1 = 1 at target 1 {sum}; {left} are free")?;
    Ok(())
}

fn print_no_terms(rt: &HostRuntime, found: &NoTerms) -> anyhow::Result<()> {
    let right_one = Posted(found.right_one);
    println!(rt; "without terms right side 1 {right_one}")?;
    let right_none = Posted(found.right_none);
    println!(rt; "in its stead right side 0 {right_none}")?;
    Ok(())
}

#[derive(Clone, Copy)]
struct Quotient(Option<u32>);

impl fmt::Display for Quotient {
    fn fmt<W: fmt::Write>(&self, f: &mut fmt::Formatter<W>) -> fmt::Result {
        match self.0 {
            Some(code) => write!(f, "{code}"),
            None => write!(f, "none"),
        }
    }
}

#[derive(Clone, Copy)]
struct Posted(Result<u8, PostFault>);

impl fmt::Display for Posted {
    fn fmt<W: fmt::Write>(&self, f: &mut fmt::Formatter<W>) -> fmt::Result {
        let fault = match self.0 {
            Ok(fixed) => return write!(f, "is accepted and fixes {fixed}"),
            Err(fault) => fault,
        };
        let number = u8::from(Refusal::from(fault));
        match fault.place() {
            Some(place) => write!(f, "is refused with {number} at place {place}"),
            None => write!(f, "is refused with {number}"),
        }
    }
}

#[derive(Clone, Copy)]
struct Settled(Result<u8, TieFault>);

impl fmt::Display for Settled {
    fn fmt<W: fmt::Write>(&self, f: &mut fmt::Formatter<W>) -> fmt::Result {
        match self.0 {
            Ok(digits) => write!(f, "{digits}"),
            Err(_) => write!(f, "refused"),
        }
    }
}

#[derive(Clone, Copy)]
struct Shown(Result<bool, CheckFault>);

impl fmt::Display for Shown {
    fn fmt<W: fmt::Write>(&self, f: &mut fmt::Formatter<W>) -> fmt::Result {
        match self.0 {
            Ok(true) => write!(f, "yes"),
            Ok(false) => write!(f, "no"),
            Err(_) => write!(f, "refused"),
        }
    }
}
