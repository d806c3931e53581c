// report_cases < CASES
// Prints the report on each tie file that the input gives: a line `file ` and the file's bytes in hex, two digits each.

#![tactic(auto)]

ghost use Rattle.std.specs.Char.{digit_value};
ghost use Rattle.std.specs.Prelude.{◌≡◌, ◌<◌, ◌≤◌, MatchResult};

use anyhow::Context;
use report::lines::Lines;
use report::report;

fn main(rt: HostRuntime) -> anyhow::Result<()> {
    for line in rt.lines(rt.alloc()) {
        let line = line?;
        if let Some(hex) = line.as_str().strip_prefix("file ") {
            print_report(&rt, hex)?;
        }
    }
    Ok(())
}

fn print_report(rt: &HostRuntime, hex: &str) -> anyhow::Result<()> {
    let file = bytes_of(rt, hex)?;
    rt.println(Lines::new(report(rt.alloc(), &file)).context("no memory for the book")?)?;
    Ok(())
}

// The bytes that pairs of hex digits write; a single sign, as the `-` of an empty file, writes none.
fn bytes_of(rt: &HostRuntime, hex: &str) -> anyhow::Result<Vec<u8>> {
    let mut bytes = Vec::new(rt.alloc());
    for pair in hex.as_bytes().chunks_exact(2) {
        bytes.push(16 * digit(pair[0])? + digit(pair[1])?)?;
    }
    Ok(bytes)
}

fn digit(sign: u8) -> anyhow::Result<u8>
    ensures { MatchResult result (λ d. (d ≡ digit_value sign) × (d < 16)) (λ _. 16 ≤ digit_value sign) }
{
    let digit = char::from(sign).to_digit(16).context("no hex digit")?;
    Ok(digit as u8)
}
