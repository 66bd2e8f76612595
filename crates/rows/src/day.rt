ghost use Rattle.std.specs.Prelude.{◌≤◌, pos, ◌≤ℤ◌};

use units::Cents;

/// An Operating Hour: number 1 to 744, weekday 0 (Monday) to 6 (Sunday), hour ending 1 to 24, and a rent of 0 to
/// 3,000,000,000 cents.
#[derive(Clone, Copy)]
pub struct Day {
    pub hour: u16,
    pub weekday: u8,
    pub ending: u8,
    pub rent: Cents,
    ghost first_hour: { 1 ≤ hour },
    ghost last_hour: { hour ≤ 744 },
    ghost sunday: { weekday ≤ 6 },
    ghost first_ending: { 1 ≤ ending },
    ghost last_ending: { ending ≤ 24 },
    ghost rent_low: { pos 0 ≤ℤ rent.value },
    ghost rent_high: { rent.value ≤ℤ pos 3000000000 },
}
