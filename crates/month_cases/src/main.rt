//! Calls on months at their limits and past them: what each answers, or its refusal.

#![tactic(auto)]

mod cases;
mod limits;
mod posts;
mod tables;

use std::io;

fn main(rt: HostRuntime) -> io::Result<()> {
    cases::sizes(&rt)?;
    cases::sizes_and_entries(&rt)?;
    cases::holdings_in_turn(&rt)?;
    limits::hour_money(&rt)?;
    limits::month_money(&rt)?;
    cases::whole_month(&rt)?;
    cases::largest_hour(&rt)
}
