//! Settles hours whose outcome was worked out apart from this engine, and says where it differs; and explains an hour
//! that is refused.

#![tactic(auto)]

mod cases;
mod spelling;
#[cfg(test)]
mod spelling_tests;

use cases::Tally;
use hour_explained::explain_package;
use payoff::standard_instrument;
use std::fs;

/// Compares every line of the file of cases: a package in hexadecimal, a tab, and what is to be printed of it.
fn compare(rt: &HostRuntime) -> anyhow::Result<()> {
    let text = fs::read_to_string(rt, "hours.tsv")?;
    let mut tally = Tally::default();
    for line in text.lines() {
        tally.compare(rt, line)?;
    }
    tally.print(rt)
}

fn main(rt: HostRuntime) -> anyhow::Result<()> {
    compare(&rt)?;
    let package = fs::read(&rt, "refused.package")?;
    let text = explain_package(rt.alloc(), &standard_instrument(), package.as_slice())?;
    rt.print(text)?;
    Ok(())
}
