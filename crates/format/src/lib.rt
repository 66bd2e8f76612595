//! The form of a package: its limits. What a package is, and what reading and writing one answer, is in `specs/`.

#![tactic(auto)]

/// The most constraints of an hour.
pub const MOST_CONSTRAINTS: usize = 32;

/// The most points of an hour.
pub const MOST_POINTS: usize = 256;

/// The most shift factors of an hour: one for each point and constraint.
pub const MOST_FACTORS: usize = 8_192;

/// The most holdings of an hour.
pub const MOST_HOLDINGS: usize = 1_024;

/// The bytes of the largest package: one with the most constraints, points and holdings.
pub const LARGEST: usize = 44_340;

/// How many bytes a program reads: one more than the largest package has, so that a longer one is refused without being
/// read whole.
pub const MOST_READ: usize = LARGEST + 1;
