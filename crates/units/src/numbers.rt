ghost use Rattle.std.specs.Prelude.{◌≤◌, pos, neg_ℤ, ◌≤ℤ◌};

/// Whole cents per MWh. No price of the settlement is further from 0 than the largest deration price;
/// what each kind of price may be is said where it stands.
#[derive(Clone, Copy, Debug, PartialEq, Eq, PartialOrd, Ord)]
pub struct Price {
    pub value: i32,
    ghost low: { neg_ℤ (pos 64000000) ≤ℤ value },
    ghost high: { value ≤ℤ pos 64000000 },
}

/// Tenths of a MW, up to the largest output of a plant.
#[derive(Clone, Copy, Debug, PartialEq, Eq, PartialOrd, Ord)]
pub struct Quantity {
    pub value: u32,
    ghost high: { value ≤ 800000 },
}

/// Ten-thousandths, from -1 to 1: a shift factor or a deration factor.
#[derive(Clone, Copy, Debug, PartialEq, Eq, PartialOrd, Ord)]
pub struct Factor {
    pub value: i16,
    ghost low: { neg_ℤ (pos 10000) ≤ℤ value },
    ghost high: { value ≤ℤ pos 10000 },
}

/// Money: whole cents. A negative amount pays the owner.
#[derive(Clone, Copy, Debug, PartialEq, Eq, PartialOrd, Ord)]
pub struct Cents {
    pub value: i64,
}

/// Money before it is rounded: tenths of a cent, up to the largest price of the largest quantity.
#[derive(Clone, Copy, Debug, PartialEq, Eq, PartialOrd, Ord)]
pub struct Tenths {
    pub value: i64,
    ghost low: { neg_ℤ (pos 51200000000000) ≤ℤ value },
    ghost high: { value ≤ℤ pos 51200000000000 },
}
