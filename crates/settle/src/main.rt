//! Reads a package from standard input, posts its hour into a month of 128 owners, and prints the statement or the
//! refusal.

#![tactic(auto)]

use format::MOST_READ;
use input::read_up_to;
use payoff::standard_instrument;
use settlement::{LARGEST_STATEMENT, refused_line, settle_package};
use std::io::Write;

fn main(rt: HostRuntime) -> anyhow::Result<()> {
    // no heap is used: package and statement have a largest size
    let mut bytes = [0u8; MOST_READ];
    let n = read_up_to(&mut rt.stdin(), &mut bytes)?;
    let mut text = [0u8; LARGEST_STATEMENT];
    match settle_package(&standard_instrument(), &bytes[0..n], &mut text) {
        Ok(length) => rt.stdout().write_all(&text[0..length])?,
        Err(refusal) => {
            let line = refused_line(rt.alloc(), refusal)?;
            rt.stdout().write_all(line.as_slice())?;
        }
    }
    Ok(())
}
