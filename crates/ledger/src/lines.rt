//! Lines of money, plain: any figures, as they lie in a table that a caller lends.
use units::Cents;

/// An owner's figures of one hour: credit, charge and shortfall charge.
#[derive(Clone, Copy)]
pub struct HourLine {
    pub credit: Cents,
    pub charge: Cents,
    pub short: Cents,
}

/// An owner's figures of the month: credit, charge, shortfall charge and refund.
#[derive(Clone, Copy)]
pub struct RollLine {
    pub credit: Cents,
    pub charge: Cents,
    pub short: Cents,
    pub refund: Cents,
}

/// A load that has a part in what is left of the month: its MWh, and what it was paid.
#[derive(Clone, Copy)]
pub struct LoadLine {
    pub mwh: u32,
    pub paid: Cents,
}

/// What a holding comes to in an hour: a negative amount pays the owner.
#[derive(Clone, Copy)]
pub struct Due {
    pub owner: u16,
    pub amount: Cents,
}

/// What a post answers: the hour's rent, credits, charges and shortfall, and the month's balance.
#[derive(Clone, Copy)]
pub struct HourAnswer {
    pub rent: Cents,
    pub credits: Cents,
    pub charges: Cents,
    pub short: Cents,
    pub balance: Cents,
}

/// No money.
pub const NOTHING: Cents = Cents { value: 0 };

/// A roll line that has had nothing.
pub const CLEAR_ROLL: RollLine = RollLine {
    credit: NOTHING,
    charge: NOTHING,
    short: NOTHING,
    refund: NOTHING,
};

/// An hour line that has had nothing.
pub const CLEAR_HOUR: HourLine = HourLine {
    credit: NOTHING,
    charge: NOTHING,
    short: NOTHING,
};
