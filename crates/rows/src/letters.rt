/// What a point is: a Load Zone (Z), a Hub (H) or a Resource Node (R).
#[derive(Clone, Copy, Debug, PartialEq, Eq)]
pub enum PointKind {
    LoadZone,
    Hub,
    ResourceNode,
}

/// What a holding is: a PTP Obligation (B) or a PTP Option (O); in lower case the same with Refund (b, o).
#[derive(Clone, Copy, Debug, PartialEq, Eq)]
pub enum InstrumentKind {
    Obligation,
    PtpOption,
    ObligationWithRefund,
    OptionWithRefund,
}

/// The hours that a holding is for: Peak Weekday (W), Peak Weekend (E) or Off-Peak (N).
#[derive(Clone, Copy, Debug, PartialEq, Eq)]
pub enum Block {
    PeakWeekday,
    PeakWeekend,
    OffPeak,
}

/// A letter that names nothing of its kind.
#[derive(Clone, Copy, Debug, PartialEq, Eq)]
pub struct UnknownLetter {
    pub letter: char,
}
