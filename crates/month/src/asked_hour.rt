use payoff::PlainTables;
use rows::{Day, HoldingRow};

/// What a post is asked: an hour, its tables as they lie, what is held, and the instrument that it is held under.
#[derive(Drop)]
pub(crate) struct AskedHour<'a, I> {
    pub(crate) instrument: &'a I,
    pub(crate) day: &'a Day,
    pub(crate) tables: &'a PlainTables<'a>,
    pub(crate) holdings: &'a [HoldingRow],
}
