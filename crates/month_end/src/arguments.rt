use anyhow::{anyhow, bail};
use ledger::{LoadLine, NOTHING};
use std::env;

const USAGE: &str = "usage: month_end OWNERS MWH,MWH,.. FILE..";

/// What the command line asks for: how many owners, a line for each load, and the hour files in their order.
#[derive(Drop)]
pub(crate) struct Job {
    pub(crate) owners: usize,
    pub(crate) loads: Vec<LoadLine>,
    pub(crate) names: Vec<String>,
}

/// How many owners a word says.
fn owners_of(word: &str) -> anyhow::Result<usize> {
    word.parse::<usize>()
        .map_err(|_| anyhow!("owners: '{word}' is no number"))
}

/// A load of so many MWh.
fn load_of(word: &str) -> anyhow::Result<LoadLine> {
    let mwh = word
        .parse::<u32>()
        .map_err(|_| anyhow!("loads: '{word}' is no number of MWh"))?;
    Ok(LoadLine { mwh, paid: NOTHING })
}

/// The loads of a comma list of MWh; an empty word has none.
fn loads_of(rt: &HostRuntime, words: &str) -> anyhow::Result<Vec<LoadLine>> {
    let mut loads = Vec::new(rt.alloc());
    if !words.is_empty() {
        for word in words.split(',') {
            loads.push(load_of(word)?)?;
        }
    }
    Ok(loads)
}

impl Job {
    /// Reads the command line.
    pub(crate) fn read(rt: &HostRuntime) -> anyhow::Result<Job> {
        let mut words = env::args(rt)?.skip(1);
        let (Some(owners), Some(loads)) = (words.next(), words.next()) else {
            bail!("{USAGE}");
        };
        Ok(Job {
            owners: owners_of(owners.as_str())?,
            loads: loads_of(rt, loads.as_str())?,
            names: words.collect(rt.alloc())?,
        })
    }
}
