//! Plain rows: any figures and letters, as they lie in a table or a list.

/// A constraint: shadow price in cents per MWh, and deration factor in ten-thousandths.
#[derive(Clone, Copy, Debug, Default, PartialEq, Eq)]
pub struct ConstraintRow {
    pub shadow: u32,
    pub deration: u16,
}

/// A point: its letter, its price, and its Minimum and Maximum Resource Price, in cents per MWh.
#[derive(Clone, Copy, Debug, Default, PartialEq, Eq)]
pub struct PointRow {
    pub letter: u8,
    pub price: i32,
    pub minimum: i32,
    pub maximum: i32,
}

/// A holding: its owner's roll line, its instrument's letter, its points, and in tenths of a MW the quantity held,
/// the actual output and the Real-Time quantity.
#[derive(Clone, Copy, Debug, Default, PartialEq, Eq)]
pub struct HoldingRow {
    pub owner: u16,
    pub letter: u8,
    pub source: u16,
    pub sink: u16,
    pub quantity: u32,
    pub block: u8,
    pub actual: u32,
    pub real_time: u32,
}

/// An Operating Hour: its number in the month, the weekday from 0 for Monday, the hour ending, and the rent in cents.
#[derive(Clone, Copy, Debug, Default, PartialEq, Eq)]
pub struct DayRow {
    pub hour: u16,
    pub weekday: u8,
    pub ending: u8,
    pub rent: u64,
}
