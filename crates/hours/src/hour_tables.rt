ghost use Rattle.std.specs.Prelude.{◌≤◌};

use format::{MOST_CONSTRAINTS, MOST_FACTORS, MOST_HOLDINGS, MOST_POINTS};
use packages::Filled;
use rows::{ConstraintRow, HoldingRow, PointRow};

/// An hour's tables, each with room for the most that an hour has: what its package told stands in front.
// no heap is used, so that an hour can always be had: arrays, and beside them how much of each was found
#[derive(Drop)]
pub struct HourTables {
    pub(crate) found: Filled,
    pub(crate) constraints: [ConstraintRow; MOST_CONSTRAINTS],
    pub(crate) points: [PointRow; MOST_POINTS],
    pub(crate) factors: [i16; MOST_FACTORS],
    pub(crate) holdings: [HoldingRow; MOST_HOLDINGS],
    ghost constraint_room: { found.constraints ≤ 32 },
    ghost point_room: { found.points ≤ 256 },
    ghost factor_room: { found.factors ≤ 8192 },
    ghost holding_room: { found.holdings ≤ 1024 },
}
