/// Every figure of a closed month; money is in cents.
#[derive(Clone, Copy)]
pub struct ClosedFigures {
    /// How many owners its roll has.
    pub owners: usize,
    /// How many hours were posted.
    pub hours: u16,
    /// The number of the last hour posted; 0 where none was.
    pub last_hour: u16,
    pub rents: u64,
    pub credits: u64,
    pub charges: u64,
    pub shortfall_charges: u64,
    pub refunds: u64,
    pub load_payments: u64,
}
