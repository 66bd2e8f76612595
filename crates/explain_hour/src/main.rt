//! Reads a package from standard input and says why each of its holdings is paid what it is, and what each owner comes to.

#![tactic(auto)]

use format::MOST_READ;
use hour_explained::explain_package;
use input::read_up_to;
use payoff::standard_instrument;
use std::io::Write;

fn main(rt: HostRuntime) -> anyhow::Result<()> {
    // no heap is used for what is read: a package has a largest size
    let mut bytes = [0u8; MOST_READ];
    let n = read_up_to(&mut rt.stdin(), &mut bytes)?;
    let text = explain_package(rt.alloc(), &standard_instrument(), &bytes[0..n])?;
    rt.stdout().write_all(text.as_bytes())?;
    Ok(())
}
