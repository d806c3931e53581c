// worked_systems
// Prints what the library answers for some small systems, a line or two for each.

#![tactic(auto)]

mod asking;
mod findings;
mod printing;
mod systems;

use anyhow::Context;
use findings::Findings;

fn main(rt: HostRuntime) -> anyhow::Result<()> {
    let findings = systems::run_all(rt.alloc())
        .ok()
        .context("no memory for a book")?;
    printing::print(&rt, &findings)
}
