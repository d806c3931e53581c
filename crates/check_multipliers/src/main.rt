// check_multipliers FILE NUMBER ..
// Whether the numbers, one multiplier for each tie of the file, show that its ties contradict each other.

#![tactic(auto)]

ghost use Rattle.check_multipliers.specs.Failures.{NamesWord};
ghost use Rattle.std.specs.Prelude.{IfErr};
ghost use Rattle.std.specs.Str.Parse.{ParsesUnsigned};

use failure::Failure;
use marked_check::check_marked;
use marked_check::line::Line;
use std::env;
use std::fs::File;
use std::process::ExitCode;
use tie_file::source::read_file;

mod failure;

// The message is written here: an error that `main` returned would be written once more.
fn main(rt: HostRuntime) -> Result<ExitCode, Failure> {
    match run(&rt) {
        Ok(()) => Ok(ExitCode::SUCCESS),
        Err(error) => {
            eprintln!(rt; "check_multipliers: {error}")?;
            Ok(ExitCode::FAILURE)
        }
    }
}

fn run(rt: &HostRuntime) -> Result<(), Failure> {
    let mut words = env::args(rt)?;
    let _program = words.next();
    let path = words.next().ok_or(Failure::Usage)?;
    let mut multipliers = Vec::new(rt.alloc());
    for word in words {
        multipliers.push(multiplier(rt, word.as_str())?)?;
    }
    let file = contents(rt, path.as_str())?;
    rt.println(Line(check_marked(&file, &multipliers)))?;
    Ok(())
}

// The number below 2^32 that the word writes in base ten, where a plus may stand first; an error exactly where it writes none.
fn multiplier(rt: &HostRuntime, word: &str) -> Result<u32, Failure>
    ensures reads { ParsesUnsigned 32 10 word.now result }
    ensures told { IfErr result (NamesWord word.now) }
{
    match word.parse::<u32>() {
        Ok(number) => Ok(number),
        Err(_) => Err(Failure::Number(word.to_string(rt.alloc())?)),
    }
}

fn contents(rt: &HostRuntime, path: &str) -> Result<Vec<u8>, Failure> {
    let file = match File::open(rt, path) {
        Ok(file) => file,
        Err(error) => return Err(Failure::File(path.to_string(rt.alloc())?, error)),
    };
    Ok(read_file(rt.alloc(), file)?)
}
