/// How many records of each kind after the day row's were taken so far.
#[derive(Clone, Copy)]
pub(crate) struct Counts {
    pub(crate) constraints: usize,
    pub(crate) points: usize,
    pub(crate) holdings: usize,
}
