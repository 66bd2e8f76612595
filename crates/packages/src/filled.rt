use rows::Day;

/// The hour that a package is of, and how many entries of each table it filled.
#[derive(Clone, Copy)]
pub struct Filled {
    pub day: Day,
    pub constraints: usize,
    pub points: usize,
    pub factors: usize,
    pub holdings: usize,
}
