//! Settles a month from its hour files: posts each, sets aside what is refused, refunds and closes, and prints the month.

#![tactic(auto)]

mod arguments;
mod files;
mod telling;

use arguments::Job;
use files::read_packages;
use month_settlement::settle_month;
use month_text::month_text;
use payoff::standard_instrument;
use std::io::Write;
use std::process::ExitCode;
use telling::ToStandardError;

/// Reads every file before the first hour is posted, and prints nothing before the month is closed.
fn run(rt: &HostRuntime) -> anyhow::Result<()> {
    let mut job = Job::read(rt)?;
    let packages = read_packages(rt, job.names.as_slice())?;
    let mut progress = ToStandardError { rt };
    let month = settle_month(
        rt.alloc(),
        &standard_instrument(),
        job.owners,
        packages.as_slice(),
        job.loads.as_mut_slice(),
        &mut progress,
    )?;
    let text = month_text(
        rt.alloc(),
        job.names.as_slice(),
        &month,
        job.loads.as_slice(),
    )?;
    rt.stdout().write_all(text.as_bytes())?;
    Ok(())
}

fn main(rt: HostRuntime) -> ExitCode {
    match run(&rt) {
        Ok(()) => ExitCode::SUCCESS,
        Err(error) => {
            // standard error is the last place to tell anything
            let _ = eprintln!(rt; "month_end: {error}");
            ExitCode::FAILURE
        }
    }
}
