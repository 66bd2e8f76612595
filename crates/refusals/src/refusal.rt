ghost use Rattle.std.specs.Prelude.{◌≡◌};
ghost use Rattle.refusals.specs.Numbers.{number_of, layer_of};

/// Which part of the settlement refuses.
#[derive(Clone, Copy, Debug, PartialEq, Eq)]
pub enum Layer {
    Package,
    Instrument,
    Hour,
    Month,
}

/// Why a call refuses: one case for each line of the table of refusals, with its number there.
#[derive(Clone, Copy, Debug, PartialEq, Eq)]
pub enum Cause {
    PackageLength = 1,
    Version = 2,
    RecordLength = 3,
    RecordOrder = 4,
    TooManyRecords = 5,
    OutOfRange = 6,
    TooShort = 7,
    Sizes = 11,
    OwnerOffRoll = 12,
    PointPair = 13,
    WrongBlock = 14,
    NotServed = 15,
    RepeatedHolding = 16,
    HourMoney = 17,
    BadEntry = 18,
    HourOrder = 21,
    RollMismatch = 22,
    MonthMoney = 23,
    NoLoad = 24,
    LoadLine = 25,
    RollSize = 26,
}

/// A refusal: its cause, which has a layer and a number, and the place of what was refused.
#[derive(Clone, Copy, Debug, PartialEq, Eq)]
pub struct Refusal {
    pub cause: Cause,
    pub place: usize,
}

impl Cause {
    /// The number in the table of refusals.
    pub fn number(self) -> u8
        ensures { result ≡ number_of self }
    {
        self as u8
    }

    /// The refusal of what stands at a place.
    pub fn at(self, place: usize) -> Refusal
        ensures cause { result.cause ≡ self }
        ensures place { result.place ≡ place }
    {
        Refusal { cause: self, place }
    }

    /// The layer, which the number decides.
    pub fn layer(self) -> Layer
        ensures { result ≡ layer_of (number_of self) }
    {
        match self.number() {
            15 => Layer::Instrument,
            1..=7 => Layer::Package,
            11..=18 => Layer::Hour,
            _ => Layer::Month,
        }
    }
}
