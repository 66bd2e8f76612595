ghost use Rattle.std.specs.Prelude.{◌≤◌};

/// The quantity that a holding has: 1 to 100,000 tenths of a MW.
#[derive(Clone, Copy)]
pub struct HeldQuantity {
    pub value: u32,
    ghost low: { 1 ≤ value },
    ghost high: { value ≤ 100000 },
}
