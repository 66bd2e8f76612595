//! Reads packages that are spelled on standard input, one to a line, and tells what reading each answers; one that is taken is
//! written back and compared. Then it prints a statement.

#![tactic(auto)]

mod spelling;
mod stating;
mod tables;
mod telling;

use anyhow::Context;
use spelling::spelled;
use stating::state;
use telling::tell;

fn run(rt: &HostRuntime) -> anyhow::Result<()> {
    for line in rt.lines(rt.alloc()) {
        let line = line?;
        let (label, rest) = line
            .as_str()
            .split_once(": ")
            .context("a line without a label")?;
        let (room, bytes) = spelled(rt.alloc(), rest)?;
        print!(rt; "{label}: ")?;
        tell(rt, room, bytes.as_slice())?;
    }
    state(rt)
}

fn main(rt: HostRuntime) -> anyhow::Result<()> {
    run(&rt)
}
