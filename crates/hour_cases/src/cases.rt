use crate::spelling::{bytes_of, lines_of};
use anyhow::Context;
use payoff::standard_instrument;
use settlement::{LARGEST_STATEMENT, refused_line, settle_package};
use std::alloc::{AllocError, Global};

/// What is printed of a package.
fn printed(heap: Global, bytes: &[u8]) -> Result<Vec<u8>, AllocError> {
    // a statement is written into what its caller lends
    let mut text = [0u8; LARGEST_STATEMENT];
    match settle_package(&standard_instrument(), bytes, &mut text) {
        Ok(length) => Vec::from_slice(heap, &text[0..length]),
        Err(refusal) => refused_line(heap, refusal),
    }
}

/// How many cases were compared, and how many of them agree.
#[derive(Default, Drop)]
pub(crate) struct Tally {
    compared: u64,
    agree: u64,
}

impl Tally {
    /// Compares one case, and names it where it differs.
    pub(crate) fn compare(&mut self, rt: &HostRuntime, line: &str) -> anyhow::Result<()> {
        self.compared = self.compared.saturating_add(1);
        let (package, expected) = line.split_once('\t').context("a case has no tab")?;
        let bytes = bytes_of(rt.alloc(), package)?;
        let found = printed(rt.alloc(), bytes.as_slice())?;
        if found == lines_of(rt.alloc(), expected)? {
            self.agree = self.agree.saturating_add(1);
        } else {
            println!(rt; "case {} differs from {expected}", self.compared)?;
        }
        Ok(())
    }

    pub(crate) fn print(&self, rt: &HostRuntime) -> anyhow::Result<()> {
        println!(rt; "{} of {} hours agree", self.agree, self.compared)?;
        Ok(())
    }
}
