//! The tests before anything is written, and the length of what will be.
ghost use Rattle.std.specs.Prelude.{◌≡◌, ◌+◌, ◌*◌, true, length};
ghost use Rattle.format.specs.Writing.{sizes_ok, bad_entry};
ghost use Rattle.writer.specs.Laid.{tables_in};

use crate::tables::HourTables;
use format::{MOST_CONSTRAINTS, MOST_HOLDINGS, MOST_POINTS};
use rows::first_bad;

impl HourTables<'_> {
    /// Whether an hour may have so many constraints, points, shift factors and holdings.
    pub(crate) fn sizes_ok(&self) -> bool
        ensures { result ≡ sizes_ok (tables_in self.now) }
    {
        self.constraints.len() <= MOST_CONSTRAINTS
            && self.points.len() <= MOST_POINTS
            && self.holdings.len() <= MOST_HOLDINGS
            && self.factors.len() == self.points.len() * self.constraints.len()
    }

    /// The place of the first entry whose figures or letters are out of range: constraints before points, shift factors
    /// and holdings.
    pub(crate) fn bad_entry(&self) -> Option<usize>
        ensures { result ≡ bad_entry (tables_in self.now) }
    {
        first_bad(self.constraints)
            .or_else(|| first_bad(self.points))
            .or_else(|| first_bad(self.factors))
            .or_else(|| first_bad(self.holdings))
    }

    /// The bytes of the hour's package.
    pub(crate) fn package_length(&self) -> usize
        requires { sizes_ok (tables_in self.now) ≡ true }
        ensures { result ≡ 20 + length self.now.constraints.now * 9 + length self.now.points.now * (2 * length self.now.constraints.now + 16) + length self.now.holdings.now * 23 }
    {
        let constraints = self.constraints.len();
        let points = self.points.len();
        20 + constraints * 9 + points * (2 * constraints + 16) + self.holdings.len() * 23
    }
}
