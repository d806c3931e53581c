// tie_report < FILE
// Posts the ties of a tie file in order until one is refused, and prints how many stand, how many digits they leave
// free, the number of the tie that was refused with that of its refusal, and how many digits of each counter's code are
// settled.

#![tactic(auto)]

use anyhow::Context;
use report::lines::Lines;
use report::report;
use std::process::ExitCode;
use tie_file::source::read_file;

// The message is written here: an error that `main` returned would be written once more.
fn main(rt: HostRuntime) -> anyhow::Result<ExitCode> {
    match run(&rt) {
        Ok(()) => Ok(ExitCode::SUCCESS),
        Err(error) => {
            eprintln!(rt; "tie_report: {error}")?;
            Ok(ExitCode::FAILURE)
        }
    }
}

fn run(rt: &HostRuntime) -> anyhow::Result<()> {
    let file = read_file(rt.alloc(), rt.stdin())?;
    rt.println(Lines::new(report(rt.alloc(), &file)).context("no memory for the book")?)?;
    Ok(())
}
