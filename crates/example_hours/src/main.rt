//! The settled examples that are shown by a run: the block of two hours, a quantity of nought, and a package of 20 bytes.

#![tactic(auto)]

use payoff::standard_instrument;
use rows::{Day, DayRow, FromRow, HeldQuantity, block_at};
use settlement::settle_package;
use std::io::Write;

/// The hour 1, a Monday, hour ending 7, with a rent of 10,000 cents and nothing else.
const PACKAGE: [u8; 20] = [
    0x00, 0x00, 0x00, 0x10, 0x01, 0x00, 0x0D, 0x44, 0x00, 0x01, 0x00, 0x07, 0x00, 0x00, 0x00, 0x00,
    0x00, 0x00, 0x27, 0x10,
];

/// Prints the block of an hour of a Monday.
fn print_block(rt: &HostRuntime, ending: u8) -> anyhow::Result<()> {
    let row = DayRow {
        hour: 1,
        weekday: 0,
        ending,
        rent: 0,
    };
    match Day::new(row) {
        Ok(day) => {
            let block = block_at(&day).letter() as char;
            println!(rt; "Monday hour ending {ending} is {block}")?;
        }
        Err(refusal) => println!(rt; "Monday hour ending {ending} is {refusal}")?,
    }
    Ok(())
}

/// Prints whether a quantity may be held.
fn print_quantity(rt: &HostRuntime, quantity: u32) -> anyhow::Result<()> {
    match HeldQuantity::new(quantity) {
        Ok(_) => println!(rt; "quantity {quantity} is held")?,
        Err(refusal) => println!(rt; "quantity {quantity} is {refusal}")?,
    }
    Ok(())
}

fn main(rt: HostRuntime) -> anyhow::Result<()> {
    print_block(&rt, 22)?;
    print_block(&rt, 23)?;
    print_quantity(&rt, 0)?;
    // a statement is written into what its caller lends
    let mut text = [0u8; 256];
    match settle_package(&standard_instrument(), &PACKAGE, &mut text) {
        Ok(length) => rt.stdout().write_all(&text[0..length])?,
        Err(refusal) => println!(rt; "{refusal}")?,
    }
    Ok(())
}
