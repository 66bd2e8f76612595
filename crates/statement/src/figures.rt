/// The figures of a posted hour, in cents: its rent, credits, charges and shortfall, and the month's balance after it.
#[derive(Clone, Copy)]
pub struct HourFigures {
    pub rent: i64,
    pub credits: i64,
    pub charges: i64,
    pub shortfall: i64,
    pub balance: i64,
}
