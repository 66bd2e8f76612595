//! Reads a package from standard input and says why each of its holdings is paid what it is.

#![tactic(auto)]

use format::MOST_READ;
use hour_text::explain_package;
use payoff::standard_instrument;
use std::io::Read;

fn main(rt: HostRuntime) -> anyhow::Result<()> {
    let mut bytes = Vec::new(rt.alloc());
    rt.stdin().take(MOST_READ as u64).read_to_end(&mut bytes)?;
    let text = explain_package(rt.alloc(), &standard_instrument(), bytes.as_slice())?;
    rt.print(text)?;
    Ok(())
}
